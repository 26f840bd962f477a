//! The parts of a row while they are read.

ghost use Rattle.std.specs.Prelude.{◌≡◌, false};
ghost use Rattle.c_syntax.specs.Reading as reading;
ghost use Rattle.table_parser.specs.Filled.{before_after, before_of, skips};

use crate::found::Gathered;
use c_forms::{Repetition, Sort};

/// What stood before a piece: an optional part that is absent, one that is there, or something else.
#[derive(Clone, Copy)]
pub enum Before {
    Usual,
    Missing,
    Taken,
}

/// What stood before the next piece, and whether that is skipped.
#[derive(Clone, Copy)]
pub struct Filling {
    pub before: Before,
    pub is_skipped: bool,
}

impl Filling {
    pub fn going(before: Before) -> Filling
        ensures { result ≡ record { before = before; is_skipped = false } }
    {
        Filling {
            before,
            is_skipped: false,
        }
    }
}

/// What stood before the next piece, after a part that is absent or not.
pub fn before_by(is_absent: bool) -> Before
    ensures { before_of result ≡ reading.before_by is_absent }
{
    if is_absent {
        Before::Missing
    } else {
        Before::Taken
    }
}

/// A list that may end in its separator is followed by no part that depends on it.
pub fn before_after(repetition: Repetition, all: &Gathered) -> Before
    ensures { before_of result ≡ before_after repetition all.now.trees }
{
    match repetition {
        Repetition::Ended { .. } => Before::Usual,
        _ => before_by(all.is_empty()),
    }
}

/// Where the separator was read, the piece for it is skipped.
pub fn skips(repetition: Repetition, is_ended: bool) -> bool
    ensures { result ≡ skips repetition is_ended }
{
    match repetition {
        Repetition::Ended { .. } => is_ended,
        _ => false,
    }
}

/// A declarator inside one is of the same sort; inside a member's with a name there is one with a name.
pub fn inside(own: Sort, due: Sort) -> Sort
    ensures { result ≡ reading.inside own due }
{
    match due {
        Sort::InnerDeclarator => match own {
            Sort::MemberName => Sort::Declarator,
            _ => own,
        },
        _ => due,
    }
}
