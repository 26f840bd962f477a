//! Reads trees of each sort by the table of forms.
#![tactic(auto)]

mod sorts;

pub use sorts::{MAX_DEPTH, in_place};
