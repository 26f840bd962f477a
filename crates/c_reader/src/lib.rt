//! Readers of the table of forms: what reads tokens under scopes, and what the laws say of all such readers.
#![tactic(auto)]

mod refusal;

pub use refusal::Refusal;
