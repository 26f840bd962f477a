//! Reads external declarations by the table of forms.
#![tactic(auto)]

mod externals;

pub use externals::Externals;
