//! The language of patterns.
#![tactic(auto)]

mod class_set;
mod earlier;
mod fit;
mod kinds;
mod lists;
mod rules;

pub use class_set::ClassSet;
pub use fit::{Fit, PatternFault, check};
pub use kinds::{cont, first};
pub use lists::{cont_of, first_of, is_plain};

#[cfg(test)]
mod tests;
