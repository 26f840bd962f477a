//! What nodes are to the places where they stand.

use crate::pieces::Sort;
use c_tokens::Kind;

/// What a node is to the place where it stands.
#[derive(Clone, Copy)]
pub enum Occupant {
    /// as itself; the sort is the narrowest
    Sort(Sort),
    /// as a placeholder or call for one tree of a kind
    One(Kind),
    /// as a placeholder or call for a list of trees of a kind
    List(Kind),
    /// a call of no macro
    Nowhere,
}
