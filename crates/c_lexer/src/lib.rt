//! The lexer: from the bytes of a source to its tokens.
#![tactic(auto)]

mod bytes;
mod lexer;
mod literals;
mod numbers;
mod piece;
mod runs;
mod skipped;
mod tables;
#[cfg(test)]
mod tests;

pub use c_tokens::LexCause;
pub use lexer::{LexStop, lex};
