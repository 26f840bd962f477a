//! Which types fit which.

ghost use Rattle.std.specs.Prelude.{◌≡◌, ◌↔◌, IsTrue};
ghost use Rattle.meta_types.specs.Fit.{Fits, does_fit, does_base_fit};

use c_tokens::{Base, MetaType, below};

/// Whether a value of type `a` may stand where one of type `b` is wanted.
#[tactic(auto, unfolding(crate::specs::Fit::does_fit))]
pub fn fits(a: MetaType, b: MetaType) -> bool
    ensures exactly { IsTrue result ↔ Fits a b }
    ensures test { result ≡ does_fit a b }
{
    a.lists == b.lists && base_fits(a.base, b.base)
}

fn base_fits(a: Base, b: Base) -> bool
    ensures { result ≡ does_base_fit a b }
{
    match (a, b) {
        (Base::Int, Base::Int) | (Base::Text, Base::Text) => true,
        (Base::Tree(a), Base::Tree(b)) => below(a, b),
        _ => false,
    }
}
