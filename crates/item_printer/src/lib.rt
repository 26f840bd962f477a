//! Writes external declarations of plain C.
#![tactic(auto)]

mod printing;

pub use printing::{MAX_TEXT_BYTES, print};
