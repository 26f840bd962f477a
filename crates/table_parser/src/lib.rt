//! Reads tokens into drafts of trees, by the table of forms.
#![tactic(auto)]

mod climbs;
mod cursor;
mod filling;
mod found;
mod grammar;
mod nodes;
pub mod words;

pub use climbs::Standing;
pub use cursor::{Cursor, Seen};
pub use filling::Before;
pub use found::{Found, Gathered, Listed, node};
pub use grammar::{Grammar, Owner, PLACES, Part};
pub use nodes::{after_first, after_paren};
