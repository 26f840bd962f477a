//! The rows of the table of forms, and what they say of a node by itself.
#![tactic(auto)]

mod measures;
mod rows;

pub use measures::{ends_as_last_part, is_plain, level, pieces, star, weight};
pub use rows::row;
