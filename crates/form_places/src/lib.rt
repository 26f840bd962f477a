//! Which forms may stand where.
#![tactic(auto)]

mod places;

pub use places::{joins, occupant_of, serves, serves_as_list, serves_as_one, sort_of_kind, stands};
