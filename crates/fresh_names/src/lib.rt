//! Names that are made while macros run: fresh ones, which no other name is equal to, and given ones.
#![tactic(auto)]

mod identifier;
mod names;
mod number;

pub use identifier::is_name;
pub use names::{NameStop, Names};

#[cfg(test)]
mod tests;
