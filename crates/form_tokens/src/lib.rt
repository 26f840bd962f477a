//! The tokens that forms hold.
#![tactic(auto)]

mod tokens;

pub use tokens::held;
