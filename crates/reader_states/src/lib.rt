//! What is known where a token stands, in an attempt to read.
#![tactic(auto)]

mod attempt;
mod kept;
mod scopes;
#[cfg(test)]
mod tests;

pub use attempt::Attempt;
