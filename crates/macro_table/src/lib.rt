//! The macros of a source.
#![tactic(auto)]

mod table;

pub use table::MacroTable;

#[cfg(test)]
mod tests;
