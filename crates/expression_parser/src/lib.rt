//! Reads expressions by the table of forms.
#![tactic(auto)]

mod expressions;

pub use expressions::Expressions;
