//! The syntax trees of C and of the macro notation: one type of node for every form.
#![tactic(auto)]

mod opens;
mod parts;
mod same;
mod tree;

pub use opens::ends_open;
pub use parts::Parts;
pub use same::is_same;
pub use tree::{MAX_HEIGHT, Tree, height_over};
