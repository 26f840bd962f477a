//! Words, places and kinds.

use crate::kind::{Kind, below};
use crate::span::{Place, place_at};
use crate::token::Word;
use crate::words::Words;
use std::test::Fail;

#[test]
fn numbers_in_the_order_of_first_sight(rt: HostRuntime) -> Result<(), Fail> {
    let alloc = rt.alloc();
    let mut words = Words::new(alloc);
    assert!(rt; words.is_empty());
    assert_eq!(rt; words.number(b"b")?, Word(0));
    assert_eq!(rt; words.len(), 1);
    assert_eq!(rt; words.number(b"a")?, Word(1));
    assert_eq!(rt; words.len(), 2);
    assert_eq!(rt; words.number(b"b")?, Word(0));
    assert_eq!(rt; words.len(), 2);
    assert_eq!(rt; words.text(Word(1)), b"a".as_slice());
    assert_eq!(rt; words.find(b"a"), Some(Word(1)));
    assert_eq!(rt; words.find(b"c"), None);
    Ok(())
}

#[test]
fn places_of_bytes(rt: HostRuntime) {
    let text = b"ab\n\nc";
    assert_eq!(rt; place_at(text, 0), Place { line: 1, column: 1 });
    assert_eq!(rt; place_at(text, 2), Place { line: 1, column: 3 });
    assert_eq!(rt; place_at(text, 4), Place { line: 3, column: 1 });
    assert_eq!(rt; place_at(text, 5), Place { line: 3, column: 2 });
}

#[test]
fn kinds_below_others(rt: HostRuntime) {
    assert!(rt; below(Kind::Num, Kind::Exp));
    assert!(rt; below(Kind::Decl, Kind::Item));
    assert!(rt; below(Kind::Param, Kind::Param));
    assert!(rt; !below(Kind::Exp, Kind::Num));
    assert!(rt; !below(Kind::Member, Kind::Decl));
}
