//! Words by their numbers.

ghost use Rattle.std.specs.Prelude.{◌≡◌, length, OnOk};

use crate::{ScopeTable, WordClass};
use c_tokens::{Memory, Word};
use std::test::Fail;

fn is_type(table: &ScopeTable, word: u32) -> bool {
    table.class(Word(word)) == WordClass::TypeName
}

/// Whether the words 7, 8 and 9 are types just where told.
fn are_types(table: &ScopeTable, wanted: [bool; 3]) -> bool {
    is_type(table, 7) == wanted[0]
        && is_type(table, 8) == wanted[1]
        && is_type(table, 9) == wanted[2]
}

/// Declares words, as types where told.
#[tactic(auto, using(crate::proofs::Kept::length_declared))]
fn declare_all(table: &mut ScopeTable, words: &[(u32, bool)]) -> Result<(), Memory>
    ensures { OnOk result (length table.new ≡ length table.old) }
{
    for (word, is_type) in words {
        table.declare(Word(*word), *is_type)?;
    }
    Ok(())
}

#[test]
fn the_innermost_declaration_counts(rt: HostRuntime) -> Result<(), Fail> {
    let mut table = ScopeTable::new(rt.alloc());
    declare_all(&mut table, &[(7, true), (8, true)])?;
    table.enter()?;
    declare_all(&mut table, &[(7, true), (7, false), (9, true)])?;
    let mut copy = table.copy()?;
    table.leave();
    assert!(rt; are_types(&table, [true, true, false]) && are_types(&copy, [false, true, true]));
    copy.leave();
    assert!(rt; are_types(&copy, [true, true, false]));
    Ok(())
}

#[test]
#[tactic(auto, using(crate::proofs::Kept::length_declared))]
fn a_hundred_thousand_words_and_scopes(rt: HostRuntime) -> Result<(), Fail> {
    let mut table = ScopeTable::new(rt.alloc());
    for word in 0..100_000 {
        table.declare(Word(word), word % 2 == 0)?;
    }
    for word in 0..100_000 {
        table.enter()?;
        table.declare(Word(word), word % 2 == 1)?;
        table.leave();
    }
    assert!(rt; is_type(&table, 99_998));
    assert!(rt; !is_type(&table, 99_999));
    Ok(())
}
