//! The words that are declared in scopes that lie in one another.
#![tactic(auto)]

mod table;
#[cfg(test)]
mod tests;

pub use table::{ScopeTable, WordClass};
