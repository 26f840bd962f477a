//! Trees as they are read, whose spans count tokens, and the trees that are made of them, whose spans count bytes.
#![tactic(auto)]

mod draft;
mod drafts;
mod placing;
#[cfg(test)]
mod tests;

pub use draft::Draft;
pub use drafts::Drafts;
pub use placing::placed;
