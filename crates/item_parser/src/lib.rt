//! Reads the next external declaration of plain C90.
#![tactic(auto)]

mod items;

pub use items::read_item;

#[cfg(test)]
mod tests;
