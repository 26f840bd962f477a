//! The items of a source in order: each is read and settled under the scopes that those before it leave.
#![tactic(auto)]

mod items;
mod stop;

pub use items::feed;
pub use stop::Stop;
