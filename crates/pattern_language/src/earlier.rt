//! The binders before a place in a pattern.

ghost use Rattle.std.specs.Prelude.{◌≡◌};
ghost use Rattle.pattern_language.specs.Earlier.{names_before};
ghost use Rattle.pattern_language.specs.Patterns.{is_among};

use crate::lists::has_name;
use c_tokens::{Element, Word};

/// The elements before a place, list by list from the inside to the outside.
#[derive(Clone, Copy)]
pub(crate) enum Earlier<'a> {
    Nothing,
    Elements(&'a [Element], &'a Earlier<'a>),
}

impl Earlier<'_> {
    /// Whether a binder has the name.
    #[tactic(auto, using(crate::proofs::Before::befores), unfolding(crate::specs::Patterns::is_among))]
    pub(crate) fn has(&self, name: Word) -> bool
        ensures { result ≡ is_among (names_before self.now) name }
    {
        match self {
            Earlier::Nothing => false,
            Earlier::Elements(elements, outer) => outer.has(name) || has_name(elements, name),
        }
    }
}
