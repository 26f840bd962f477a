//! Trees that are equal but for their spans.

ghost use Rattle.std.specs.Prelude.{◌≡◌};
ghost use Rattle.c_forms.specs.Forests.{forest};
ghost use Rattle.c_trees.specs.Same.{same, same_tree};

use crate::tree::Tree;

/// Whether two trees are equal but for their spans.
#[cycle(same)]
#[tactic(auto, using(crate::specs::Depths::most_deep))]
pub fn is_same(one: &Tree, other: &Tree) -> bool
    ensures { result ≡ same_tree one.now other.now }
{
    one.form().is_same(other.form()) && are_same(one.parts(), other.parts())
}

#[cycle(same)]
#[tactic(auto, using(crate::proofs::Lengths::same_lengths))]
fn are_same(all: &[Tree], others: &[Tree]) -> bool
    ensures { result ≡ same (forest all.now) (forest others.now) }
{
    if all.len() != others.len() {
        return false;
    }
    for at in 0..all.len() {
        if !is_same(&all[at], &others[at]) {
            return false;
        }
    }
    true
}
