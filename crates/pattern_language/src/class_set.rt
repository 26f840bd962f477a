//! Sets of classes of tokens.

ghost use Rattle.std.specs.Prelude.{◌≡◌, ◌<◌, ◌↔◌, IsTrue};
ghost use Rattle.c_tokens.specs.ClassNumbers.{class_number};
ghost use Rattle.c_tokens.specs.declared.class.Class.{Class};
ghost use Rattle.pattern_language.specs.Classes as classes;
ghost use Rattle.pattern_language.specs.Sets as sets;

use c_tokens::Class;

/// A set of classes. A placeholder with lists is in none.
#[derive(Clone, Copy, Debug)]
pub struct ClassSet {
    bits: u128,
}

impl ClassSet {
    pub(crate) fn empty() -> ClassSet
        ensures { (class : Class) → sets.has result class ≡ classes.nothing class }
    {
        ClassSet { bits: 0 }
    }

    pub fn has(&self, class: Class) -> bool
        ensures { result ≡ sets.has self.now class }
    {
        let bits = self.bits;
        let number = class.number();
        number < 128 && bits >> number & 1 == 1
    }

    /// Whether some class is in both.
    pub fn meets(&self, other: &ClassSet) -> bool
        ensures { IsTrue result ↔ classes.Meets (sets.has self.now) (sets.has other.now) }
    {
        let bits = self.bits;
        bits & other.bits != 0
    }

    /// The classes that are in one of two sets.
    pub(crate) fn union(self, other: ClassSet) -> ClassSet
        ensures { (class : Class) → sets.has result class ≡ classes.either (sets.has self) (sets.has other) class }
    {
        ClassSet {
            bits: self.bits | other.bits,
        }
    }

    /// The set with one class more, which is no placeholder with lists.
    pub(crate) fn with(self, added: Class) -> ClassSet
        requires { class_number added < 128 }
        ensures { (class : Class) → sets.has result class ≡ classes.either (sets.has self) (classes.only added) class }
    {
        ClassSet {
            bits: self.bits | 1 << added.number(),
        }
    }
}
