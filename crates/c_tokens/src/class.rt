//! Classes of tokens, in which all words are alike.

ghost use Rattle.std.specs.Prelude.{◌≡◌};
ghost use Rattle.c_tokens.specs.ClassNumbers.{class_number};
ghost use Rattle.c_tokens.specs.ClassOf.{class_of};

use crate::kind::Kind;
use crate::token::{Key, Mark, Punct, Shape};

/// What a token is, whatever the text of a word, a constant or a literal.
#[derive(Clone, Copy, Debug, PartialEq, Eq)]
pub enum Class {
    Key(Key),
    Punct(Punct),
    Mark(Mark),
    Word,
    Int,
    Float,
    Char,
    Str,
    /// the end of the source
    End,
    /// the head of a placeholder of a kind and of so many levels of lists
    Hole(Kind, u8),
}

impl Class {
    /// The class of a token by itself.
    pub fn of(shape: Shape) -> Class
        ensures { result ≡ class_of shape }
    {
        match shape {
            Shape::Key(key) => Class::Key(key),
            Shape::Punct(punct) => Class::Punct(punct),
            Shape::Mark(mark) => Class::Mark(mark),
            Shape::Word(_) => Class::Word,
            Shape::Int(_) => Class::Int,
            Shape::Float(_) => Class::Float,
            Shape::Char(_) => Class::Char,
            Shape::Str(_) => Class::Str,
            Shape::End => Class::End,
        }
    }

    /// Its number, one for each class. All but the placeholders with lists are below 128.
    pub fn number(self) -> u32
        ensures { result ≡ class_number self }
    {
        match self {
            Class::Key(key) => key as u32,
            Class::Punct(punct) => 32 + punct as u32,
            Class::Mark(mark) => 78 + mark as u32,
            Class::Word => 113,
            Class::Int => 114,
            Class::Float => 115,
            Class::Char => 116,
            Class::Str => 117,
            Class::End => 118,
            Class::Hole(kind, lists) => 119 + kind as u32 + 9 * lists as u32,
        }
    }
}
