//! Reads statements and the items of blocks by the table of forms.
#![tactic(auto)]

mod leaves;
mod statements;

pub use statements::Statements;
