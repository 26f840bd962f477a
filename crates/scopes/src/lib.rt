//! Which words are types and which are values.
#![tactic(auto)]

mod event;
mod params;
mod scopes;
mod step;
mod walk;

pub use event::{Event, WalkStop};
pub use scope_tables::WordClass;
pub use scopes::Scopes;
