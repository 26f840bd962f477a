//! Statements that end open.

ghost use Rattle.std.specs.Prelude.{◌≡◌};
ghost use Rattle.c_forms.specs.Opens.{ends_open};

use crate::tree::Tree;
use form_rows::ends_as_last_part;

/// Whether a statement ends open: an `else` after it would belong to a part of it (6.6.4.1).
#[tactic(auto, using(crate::proofs::Lasts::last_deep, crate::proofs::Lasts::last_one))]
pub fn ends_open(tree: &Tree) -> bool
    ensures { result ≡ ends_open tree.now }
{
    if !ends_as_last_part(tree.form()) {
        return false;
    }
    match tree.parts().split_last() {
        None => true,
        Some((last, _)) => ends_open(last),
    }
}
