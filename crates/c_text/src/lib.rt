//! The text of marks: what stands between tokens, and how lines begin and end.
#![tactic(auto)]

mod spacing;
mod text;
mod texts;

pub use text::{TextStop, text_of};
