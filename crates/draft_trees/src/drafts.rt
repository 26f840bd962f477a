//! Drafts side by side.

ghost use Rattle.std.specs.Prelude.{◌≡◌, ◌++◌, ◌∷◌, [], OnOk, OnErr, ◌↔◌, IsTrue};

use crate::draft::Draft;
use c_tokens::Memory;
use sqlite_items::Items;
use std::alloc::Global;
use std::marker::Model;
use std::mem;

#[cycle(draft)]
#[derive(Drop)]
enum Few {
    None,
    One([Draft; 1]),
    Two([Draft; 2]),
    Many(Items<Draft>),
}

/// Drafts side by side. Up to two of them take no memory of their own.
#[cycle(draft)]
#[derive(Drop)]
pub struct Drafts {
    few: Few,
}

impl Model for Drafts {
    ghost use Rattle.std.specs.Prelude.{List};
    ghost use Rattle.std.specs.Coded.{coded_list};
    ghost use Rattle.c_forms.specs.Forests.{Plain, plain_code};

    ghost Value = { List Plain };

    ghost coded = { coded_list plain_code };

    ghost use Rattle.c_trees.specs.Deep.{deep_parts};
    ghost use Rattle.draft_trees.specs.Few.{few_list};

    ghost view = { λ a. few_list a.few };

    ghost size = { deep_parts };

    ghost use Rattle.draft_trees.specs.Falls.{parts_fall};

    ghost size_decreases = { λ a h. parts_fall a.few };
}

impl Drafts {
    /// No drafts.
    pub fn new() -> Drafts
        ensures { result ≡ [] }
    {
        Drafts { few: Few::None }
    }

    pub fn one(draft: Draft) -> Drafts
        ensures { result ≡ draft ∷ [] }
    {
        Drafts {
            few: Few::One([draft]),
        }
    }

    pub fn as_slice(&self) -> &[Draft]
        ensures { result.now ≡ self.now }
    {
        match &self.few {
            Few::None => &[],
            Few::One(one) => one,
            Few::Two(two) => two,
            Few::Many(many) => many.as_slice(),
        }
    }

    pub fn is_empty(&self) -> bool
        ensures { IsTrue result ↔ (self.now ≡ []) }
    {
        self.as_slice().is_empty()
    }

    /// Puts a draft after the others. Where no memory is left, they stay as they were.
    pub fn push(&mut self, alloc: Global, draft: Draft) -> Result<(), Memory>
        ensures ok { OnOk result (self.new ≡ self.old ++ draft ∷ []) }
        ensures err { OnErr result (self.new ≡ self.old) }
    {
        let (few, pushed) = match mem::replace(&mut self.few, Few::None) {
            Few::None => (Few::One([draft]), Ok(())),
            Few::One(one) => (Few::Two(with_second(one, draft)), Ok(())),
            Few::Two(two) => match Vec::with_capacity(alloc, 4) {
                Ok(mut many) => {
                    let (first, second) = pair(two);
                    many.push_reserved(first);
                    many.push_reserved(second);
                    many.push_reserved(draft);
                    (Few::Many(Items::from_vec(many)), Ok(()))
                }
                Err(_) => (Few::Two(two), Err(Memory)),
            },
            Few::Many(mut many) => match many.push(draft) {
                Ok(()) => (Few::Many(many), Ok(())),
                Err(_) => (Few::Many(many), Err(Memory)),
            },
        };
        self.few = few;
        pushed
    }
}

fn with_second<T>(one: [T; 1], second: T) -> [T; 2]
    ensures { result ≡ one ++ second ∷ [] }
{
    let [first] = one;
    [first, second]
}

fn pair<T>(two: [T; 2]) -> (T, T)
    ensures { two ≡ result.0 ∷ result.1 ∷ [] }
{
    let [first, second] = two;
    (first, second)
}
