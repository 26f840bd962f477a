//! The whole program: from the words of the command line to a status.
#![tactic(auto)]

mod command;
mod ending;
mod messages;
mod program;
mod source;
mod status;

pub use program::run;
pub use source::{Outcome, outcome_of};
pub use status::Status;

#[cfg(test)]
mod tests;
