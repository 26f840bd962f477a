//! External declarations with what the scopes answer, which is worked out by hand from the rules of scopes
//! (ISO/IEC 9899:1990, 6.1.2.1).

use crate::build::build;
use crate::step::Step;
use c_tokens::{Memory, Span, Word};
use checked_trees::Item;
use scopes::{Scopes, WalkStop, WordClass};
use std::alloc::Global;

pub const T: u32 = 1;

pub const X: u32 = 2;

pub const F: u32 = 3;

pub const S: u32 = 4;

/// What the last of some items gives.
#[derive(Clone, Copy)]
pub enum Answer {
    /// no clash
    Holds,
    /// the word at the place must be a type, and is a value
    NoType(u32, u32),
    /// the word at the place must be a value, and is a type
    NoValue(u32, u32),
}

/// Items that are walked in order, all but the last without a clash.
pub struct Walk {
    /// The words that are types before.
    pub types: &'static [u32],
    pub items: &'static [&'static [Step]],
    pub answer: Answer,
    /// Words after it, and whether they are types.
    pub after: &'static [(u32, bool)],
}

/// Rows, each written as `[types] [steps of an item] .. => answer, [words after];`.
macro_rules! walks {
    ($([$($word:expr),*] $([$($step:expr),*])* => $answer:expr, [$($after:expr),*];)*) => {
        &[$(Walk {
            types: &[$($word),*],
            items: &[$(&[$($step),*]),*],
            answer: $answer,
            after: &[$($after),*],
        }),*]
    };
}

pub(crate) use walks;

fn clash(word: u32, place: u32, wanted: WordClass, found: WordClass) -> Result<(), WalkStop> {
    Err(WalkStop::Clash {
        word: Word(word),
        wanted,
        found,
        span: Span {
            start: place,
            end: place.saturating_add(1),
        },
    })
}

/// What the walk says for an answer.
fn wanted(answer: Answer) -> Result<(), WalkStop> {
    match answer {
        Answer::Holds => Ok(()),
        Answer::NoType(word, place) => clash(word, place, WordClass::TypeName, WordClass::Value),
        Answer::NoValue(word, place) => clash(word, place, WordClass::Value, WordClass::TypeName),
    }
}

/// Walks the item that the steps tell.
fn walk_steps(alloc: Global, scopes: &mut Scopes, steps: &[Step]) -> Result<(), WalkStop> {
    let tree = match build(alloc, steps, 0) {
        Ok(tree) => tree,
        Err(_) => return Err(WalkStop::Memory),
    };
    match Item::from_tree(tree) {
        Ok(item) => scopes.walk_item(&item),
        Err(_) => Err(WalkStop::Memory),
    }
}

/// Whether the words are types, or values, as told.
fn are_so(scopes: &Scopes, words: &[(u32, bool)]) -> bool {
    for (word, is_type) in words {
        if (scopes.class(Word(*word)) == WordClass::TypeName) != *is_type {
            return false;
        }
    }
    true
}

/// Whether the scopes answer what the row says.
fn is_answered(alloc: Global, row: &Walk) -> Result<bool, Memory> {
    let mut scopes = Scopes::new(alloc);
    for word in row.types {
        scopes.declare(Word(*word), true)?;
    }
    let mut last = Ok(());
    for steps in row.items {
        if last != Ok(()) {
            return Ok(false);
        }
        last = walk_steps(alloc, &mut scopes, steps);
    }
    Ok(last == wanted(row.answer) && are_so(&scopes, row.after))
}

/// The number of the first row that is answered otherwise.
pub fn first_other(alloc: Global, rows: &[Walk]) -> Result<Option<usize>, Memory> {
    for at in 0..rows.len() {
        if !is_answered(alloc, &rows[at])? {
            return Ok(Some(at));
        }
    }
    Ok(None)
}
