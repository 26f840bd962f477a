//! The layout of trees of plain C: their tokens with the least parentheses, and where lines begin.
#![tactic(auto)]

mod layout;
mod marks;
mod standing;

pub use layout::lay_out;
pub use marks::{Mark, Use};
