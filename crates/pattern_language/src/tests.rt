//! Patterns that keep and break the rules.
//!
//! In the rows a kind is a letter (`p` spec, `t` item, `a` param, else the first of its name) and
//! the digit after it a name. `R` is a repetition for none or more and `P` for one or more, with
//! the separator or `_` after it, and `M` an option with its intro; each ends at a dot. `w` is a
//! word, `E` is `else`, and every other character is itself.

use crate::{check, is_plain};
use c_tokens::{Base, Element, Key, Kind, List, MetaType, Punct, Shape, Span, Token, Word};
use sqlite_items::Items;
use std::alloc::Global;
use std::test::Fail;

const EXP: MetaType = MetaType {
    base: Base::Tree(Kind::Exp),
    lists: 0,
};

const STMT: MetaType = MetaType {
    base: Base::Tree(Kind::Stmt),
    lists: 0,
};

const STMTS: MetaType = MetaType {
    base: Base::Tree(Kind::Stmt),
    lists: 1,
};

const DECL: MetaType = MetaType {
    base: Base::Tree(Kind::Decl),
    lists: 0,
};

const DECLS: MetaType = MetaType {
    base: Base::Tree(Kind::Decl),
    lists: 1,
};

const ITEM: MetaType = MetaType {
    base: Base::Tree(Kind::Item),
    lists: 0,
};

const ITEMS: MetaType = MetaType {
    base: Base::Tree(Kind::Item),
    lists: 1,
};

const SPEC: MetaType = MetaType {
    base: Base::Tree(Kind::Spec),
    lists: 0,
};

/// A pattern, the result, and the first element that breaks a rule with the lowest one, or 0 where
/// none is broken.
#[derive(Clone, Copy)]
struct Row(&'static str, MetaType, usize, u8);

const NOWHERE: Span = Span { start: 0, end: 0 };

fn kind_of(letter: u8) -> Option<Kind> {
    match letter {
        b'i' => Some(Kind::Id),
        b'n' => Some(Kind::Num),
        b'e' => Some(Kind::Exp),
        b's' => Some(Kind::Stmt),
        b'd' => Some(Kind::Decl),
        b't' => Some(Kind::Item),
        b'p' => Some(Kind::Spec),
        b'a' => Some(Kind::Param),
        b'm' => Some(Kind::Member),
        _ => None,
    }
}

fn token_of(letter: u8) -> Token {
    let shape = match letter {
        b'+' => Shape::Punct(Punct::Plus),
        b'*' => Shape::Punct(Punct::Star),
        b',' => Shape::Punct(Punct::Comma),
        b';' => Shape::Punct(Punct::Semicolon),
        b':' => Shape::Punct(Punct::Colon),
        b'=' => Shape::Punct(Punct::Equal),
        b'(' => Shape::Punct(Punct::LeftParen),
        b')' => Shape::Punct(Punct::RightParen),
        b'[' => Shape::Punct(Punct::LeftBracket),
        b']' => Shape::Punct(Punct::RightBracket),
        b'{' => Shape::Punct(Punct::LeftBrace),
        b'E' => Shape::Key(Key::Else),
        _ => Shape::Word(Word(99)),
    };
    Token {
        shape,
        span: NOWHERE,
    }
}

/// A repetition or an option that is not closed, and the elements before it.
#[derive(Drop)]
struct Open {
    head: u8,
    mark: u8,
    before: Vec<Element>,
}

fn closed(head: u8, mark: u8, body: Items<Element>) -> Element {
    if head == b'M' {
        return Element::Maybe {
            intro: token_of(mark),
            body,
            span: NOWHERE,
        };
    }
    let sep = if mark == b'_' {
        None
    } else {
        Some(token_of(mark))
    };
    Element::Repeat {
        least: if head == b'P' { 1 } else { 0 },
        sep,
        body,
        span: NOWHERE,
    }
}

fn pattern_from(alloc: Global, text: &str) -> Result<List<Element>, Fail> {
    let mut elements = Vec::new(alloc);
    let mut opens: Vec<Open> = Vec::new(alloc);
    let mut head = b' ';
    for letter in text.as_bytes() {
        if head != b' ' {
            match kind_of(head) {
                Some(kind) => elements.push(Element::Bind {
                    kind,
                    name: Word(*letter as u32),
                    span: NOWHERE,
                })?,
                None => {
                    opens.push(Open {
                        head,
                        mark: *letter,
                        before: elements,
                    })?;
                    elements = Vec::new(alloc);
                }
            }
            head = b' ';
        } else if kind_of(*letter).is_some() || matches!(*letter, b'R' | b'P' | b'M') {
            head = *letter;
        } else if *letter == b'.' {
            if let Some(Open { head, mark, before }) = opens.pop() {
                let element = closed(head, mark, Items::from_vec(elements));
                elements = before;
                elements.push(element)?;
            }
        } else {
            elements.push(Element::Literal {
                token: token_of(*letter),
            })?;
        }
    }
    Ok(List::from_vec(elements))
}

#[test]
fn first_broken_rules(rt: HostRuntime) -> Result<(), Fail> {
    let rows = [
        Row("e0+e1", EXP, 0, 4),
        Row("e0+e1;", STMT, 0, 4),
        Row("e0;e1;", STMT, 0, 0),
        Row("R,e0.;", STMT, 0, 0),
        Row("R_e0.(e1)", EXP, 0, 5),
        Row("P_s0.E", STMT, 1, 4),
        Row("a0[]", EXP, 0, 4),
        Row("e0", EXP, 0, 6),
        Row("i0", EXP, 0, 0),
        Row("s0", STMT, 0, 0),
        Row("s0", STMTS, 0, 0),
        Row("s0", EXP, 0, 6),
        Row("s0", DECL, 0, 6),
        Row("s0", DECLS, 0, 6),
        Row("s0", ITEM, 0, 6),
        Row("s0", ITEMS, 0, 6),
        Row("s0", SPEC, 0, 6),
        Row("i0s1", STMTS, 0, 0),
        Row(";s0", STMT, 0, 0),
        Row("R;s0.", STMT, 0, 6),
        Row("(R,e0.)", EXP, 0, 0),
        Row("(R,.)", EXP, 1, 3),
        Row("(R,;.)", EXP, 1, 3),
        Row("(R,M=e0..)", EXP, 1, 3),
        Row("(M,;.)", EXP, 1, 3),
        Row("(R,i0M=;..)", EXP, 3, 3),
        Row("(R;(R,i0.i1).)", EXP, 3, 5),
        Row("(P_(M=i0.=).)", EXP, 3, 5),
        Row("R*,e0.;", EXP, 2, 4),
        Row("i0i0;", STMT, 1, 2),
        Row("i0(R,i0.)", EXP, 3, 2),
        Row("(R,i0.)i0;", STMT, 4, 2),
        Row("(R,(R;(R:e0.).).)", EXP, 0, 0),
        Row("(R,(R;(R:(R=e0.).).).)", EXP, 7, 1),
        Row("(M=i0M,i1M:i2...)", EXP, 0, 0),
        Row("(M=i0M,i1M:i2M;i3....)", EXP, 7, 1),
        Row("(M)i0.)", EXP, 1, 5),
        Row("M,i0.,", STMT, 0, 5),
        Row("(R,i0.,)", EXP, 1, 5),
        Row("(R,i0.i1)", EXP, 1, 5),
        Row("(P,i0.i1)", EXP, 0, 0),
        Row("(P_i0.i1)", EXP, 1, 5),
        Row("(P_i0.;)", EXP, 0, 0),
        Row("(R,e0+e1.)", EXP, 2, 4),
        Row("(P_e0.)", EXP, 2, 4),
        Row("(R*e0.)", EXP, 2, 4),
        Row("e0M+i1.;", STMT, 0, 4),
        Row(";M,i0.", STMT, 1, 6),
        Row("(P,i0.", EXP, 1, 6),
        Row("p0i1;", STMT, 0, 0),
        Row("p0{", STMT, 0, 4),
        Row("p0p1;", STMT, 0, 4),
        Row("d0d1", DECLS, 0, 0),
        Row("t0", DECLS, 0, 0),
        Row("a0i1;", STMT, 0, 4),
        Row("a0,a1;", STMT, 0, 0),
        Row("m0m1", DECLS, 0, 0),
        Row("n0n1;", STMT, 0, 0),
        Row("", EXP, 0, 0),
        Row("s0Es1", STMT, 0, 4),
        Row("s0s1", STMT, 0, 0),
        Row("R,.", EXP, 0, 3),
        Row("e0e0;", STMT, 0, 4),
        Row("e0,e0+e1;", STMT, 2, 2),
        Row("wi0;", STMT, 0, 0),
        Row("R_i0.w;", STMT, 0, 5),
        Row("(Mwi0.i1)", EXP, 1, 5),
    ];
    for Row(text, result, element, rule) in rows {
        let pattern = pattern_from(rt.alloc(), text)?;
        assert!(rt; is_plain(pattern.items()), "{text}");
        match check(pattern, result) {
            Ok(_) => assert_eq!(rt; rule, 0, "{text}"),
            Err(fault) => assert_eq!(rt; (fault.element, fault.rule), (element, rule), "{text}"),
        }
    }
    Ok(())
}
