//! Reads declarators, specifiers and parameters by the table of forms.
#![tactic(auto)]

mod declarators;
mod parameters;
mod sorts;
mod specifiers;

pub use declarators::Declarations;
