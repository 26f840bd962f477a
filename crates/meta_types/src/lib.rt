//! Types of the meta-language: which fit which, the types of primitives, and the tables of
//! variables and functions.
#![tactic(auto)]

mod functions;
mod order;
mod primitives;
mod scope;

pub use functions::{AddStop, Functions};
pub use order::fits;
pub use primitives::{Prim, prim_result, primitive};
pub use scope::MetaScope;

#[cfg(test)]
mod tests;
