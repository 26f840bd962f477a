//! A table of two macros.

ghost use Rattle.std.specs.Prelude.{◌≡◌, IfOk};

use crate::MacroTable;
use c_tokens::{Base, Element, Kind, List, MacroNo, MetaType, Span, Word};
use meta_types::AddStop;
use pattern_language::{Fit, check, is_plain};
use std::alloc::Global;
use std::test::Fail;

const EXP: MetaType = MetaType {
    base: Base::Tree(Kind::Exp),
    lists: 0,
};

const ITEM: MetaType = MetaType {
    base: Base::Tree(Kind::Item),
    lists: 0,
};

fn one_binder(alloc: Global, name: u32, given: MetaType) -> Result<Fit, Fail>
    ensures { IfOk result (λ fit. fit.result_type ≡ given) }
{
    let mut elements = Vec::new(alloc);
    elements.push(Element::Bind {
        kind: Kind::Id,
        name: Word(name),
        span: Span { start: 0, end: 0 },
    })?;
    let pattern = List::from_vec(elements);
    if !is_plain(pattern.items()) {
        return Err(Fail::from("not plain"));
    }
    match check(pattern, given) {
        Ok(fit) => Ok(fit),
        Err(_) => Err(Fail::from("breaks a rule")),
    }
}

#[test]
fn adds_and_finds(rt: HostRuntime) -> Result<(), Fail> {
    let mut table = MacroTable::new(rt.alloc());
    assert!(rt; table.is_empty());
    let first = one_binder(rt.alloc(), 7, EXP)?;
    assert_eq!(rt; table.add(Word(3), EXP, first)?, MacroNo(0));
    let second = one_binder(rt.alloc(), 8, ITEM)?;
    assert_eq!(rt; table.add(Word(5), ITEM, second)?, MacroNo(1));
    let again = one_binder(rt.alloc(), 9, EXP)?;
    assert_eq!(rt; table.add(Word(3), EXP, again), Err(AddStop::Taken));
    assert_eq!(rt; table.len(), 2);
    assert_eq!(rt; table.by_word(Word(5)), Some(MacroNo(1)));
    assert_eq!(rt; table.by_word(Word(4)), None);
    assert_eq!(rt; table.name(MacroNo(1)), Word(5));
    assert_eq!(rt; table.result(MacroNo(0)), EXP);
    assert_eq!(rt; table.fit(MacroNo(1)).elements().len(), 1);
    Ok(())
}
