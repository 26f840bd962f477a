//! Tables of types, and every call once.

use crate::{AddStop, Functions, MetaScope, Prim, fits, prim_result, primitive};
use c_tokens::{Base, Kind, MetaType, Word};
use std::test::Fail;

fn of(base: Base, lists: u8) -> MetaType {
    MetaType { base, lists }
}

fn tree(kind: Kind, lists: u8) -> MetaType {
    of(Base::Tree(kind), lists)
}

#[test]
fn types_fit(rt: HostRuntime) {
    assert!(rt; fits(of(Base::Int, 1), of(Base::Int, 1)));
    assert!(rt; fits(tree(Kind::Id, 0), tree(Kind::Exp, 0)));
    assert!(rt; fits(tree(Kind::Num, 2), tree(Kind::Exp, 2)));
    assert!(rt; fits(tree(Kind::Decl, 3), tree(Kind::Item, 3)));
    assert!(rt; fits(tree(Kind::Member, 0), tree(Kind::Member, 0)));
    assert!(rt; !fits(tree(Kind::Exp, 0), tree(Kind::Id, 0)));
    assert!(rt; !fits(tree(Kind::Id, 1), tree(Kind::Exp, 0)));
    assert!(rt; !fits(of(Base::Int, 0), of(Base::Int, 1)));
    assert!(rt; !fits(of(Base::Int, 0), of(Base::Text, 0)));
    assert!(rt; !fits(of(Base::Text, 0), tree(Kind::Exp, 0)));
}

#[test]
fn names_of_primitives(rt: HostRuntime) {
    let names: [(&[u8], Prim); 18] = [
        (b"length", Prim::Length),
        (b"first", Prim::First),
        (b"rest", Prim::Rest),
        (b"cons", Prim::Cons),
        (b"append", Prim::Append),
        (b"concat", Prim::Concat),
        (b"digits", Prim::Digits),
        (b"text_of", Prim::TextOf),
        (b"fresh", Prim::Fresh),
        (b"make_id", Prim::MakeId),
        (b"join_id", Prim::JoinId),
        (b"string", Prim::String),
        (b"number", Prim::Number),
        (b"value", Prim::Value),
        (b"same", Prim::Same),
        (b"as_id", Prim::AsId),
        (b"as_num", Prim::AsNum),
        (b"error", Prim::Error),
    ];
    for (name, prim) in &names {
        assert_eq!(rt; primitive(*name), Some(*prim));
    }
    assert_eq!(rt; primitive(b""), None);
    assert_eq!(rt; primitive(b"lengths"), None);
    assert_eq!(rt; primitive(b"Error"), None);
}

/// One argument, and the type of the call.
#[test]
fn calls_with_one_argument(rt: HostRuntime) {
    let int = of(Base::Int, 0);
    let text = of(Base::Text, 0);
    let id = tree(Kind::Id, 0);
    let num = tree(Kind::Num, 0);
    let exp = tree(Kind::Exp, 0);
    let table = [
        (Prim::Length, of(Base::Int, 1), Some(int)),
        (Prim::Length, tree(Kind::Stmt, 2), Some(int)),
        (Prim::Length, tree(Kind::Stmt, 3), Some(int)),
        (Prim::Length, text, None),
        (Prim::Length, tree(Kind::Stmt, 4), None),
        (Prim::First, of(Base::Text, 1), Some(text)),
        (Prim::First, tree(Kind::Id, 2), Some(tree(Kind::Id, 1))),
        (Prim::First, tree(Kind::Id, 3), Some(tree(Kind::Id, 2))),
        (Prim::First, int, None),
        (Prim::Rest, tree(Kind::Item, 1), Some(tree(Kind::Item, 1))),
        (Prim::Rest, tree(Kind::Item, 3), Some(tree(Kind::Item, 3))),
        (Prim::Rest, tree(Kind::Item, 0), None),
        (Prim::Digits, int, Some(text)),
        (Prim::Digits, text, None),
        (Prim::TextOf, id, Some(text)),
        (Prim::TextOf, exp, None),
        (Prim::TextOf, tree(Kind::Id, 1), None),
        (Prim::Fresh, text, Some(id)),
        (Prim::Fresh, id, None),
        (Prim::MakeId, text, Some(id)),
        (Prim::MakeId, of(Base::Text, 1), None),
        (Prim::String, text, Some(exp)),
        (Prim::String, exp, None),
        (Prim::Number, int, Some(exp)),
        (Prim::Number, num, None),
        (Prim::Value, num, Some(int)),
        (Prim::Value, exp, None),
        (Prim::AsId, exp, Some(tree(Kind::Id, 1))),
        (Prim::AsId, num, Some(tree(Kind::Id, 1))),
        (Prim::AsId, tree(Kind::Stmt, 0), None),
        (Prim::AsNum, exp, Some(tree(Kind::Num, 1))),
        (Prim::AsNum, id, Some(tree(Kind::Num, 1))),
        (Prim::AsNum, int, None),
        (Prim::Error, text, Some(int)),
        (Prim::Error, int, None),
        (Prim::Cons, exp, None),
        (Prim::Append, tree(Kind::Exp, 1), None),
        (Prim::Concat, text, None),
        (Prim::JoinId, id, None),
        (Prim::Same, exp, None),
    ];
    for (prim, arg, wanted) in &table {
        assert_eq!(rt; prim_result(*prim, &[*arg]), *wanted, "{prim:?} of {arg:?}");
    }
}

/// Two arguments, and the type of the call.
#[test]
fn calls_with_two_arguments(rt: HostRuntime) {
    let int = of(Base::Int, 0);
    let text = of(Base::Text, 0);
    let id = tree(Kind::Id, 0);
    let num = tree(Kind::Num, 0);
    let exp = tree(Kind::Exp, 0);
    let ids = tree(Kind::Id, 1);
    let nums = tree(Kind::Num, 1);
    let exps = tree(Kind::Exp, 1);
    let table = [
        (Prim::Cons, int, of(Base::Int, 1), Some(of(Base::Int, 1))),
        (Prim::Cons, id, exps, Some(exps)),
        (Prim::Cons, exp, ids, Some(exps)),
        (Prim::Cons, id, nums, None),
        (Prim::Cons, exp, exp, None),
        (Prim::Cons, ids, exps, None),
        (
            Prim::Cons,
            ids,
            tree(Kind::Exp, 2),
            Some(tree(Kind::Exp, 2)),
        ),
        (
            Prim::Cons,
            tree(Kind::Decl, 2),
            tree(Kind::Item, 3),
            Some(tree(Kind::Item, 3)),
        ),
        (Prim::Cons, tree(Kind::Decl, 3), tree(Kind::Item, 4), None),
        (Prim::Append, ids, ids, Some(ids)),
        (Prim::Append, ids, exps, Some(exps)),
        (Prim::Append, exps, nums, Some(exps)),
        (Prim::Append, ids, nums, None),
        (
            Prim::Append,
            tree(Kind::Decl, 1),
            tree(Kind::Item, 1),
            Some(tree(Kind::Item, 1)),
        ),
        (
            Prim::Append,
            tree(Kind::Item, 2),
            tree(Kind::Decl, 2),
            Some(tree(Kind::Item, 2)),
        ),
        (
            Prim::Append,
            tree(Kind::Item, 3),
            tree(Kind::Decl, 3),
            Some(tree(Kind::Item, 3)),
        ),
        (Prim::Append, tree(Kind::Item, 2), tree(Kind::Decl, 1), None),
        (Prim::Append, text, text, None),
        (Prim::Concat, text, text, Some(text)),
        (Prim::Concat, text, int, None),
        (Prim::Concat, id, text, None),
        (Prim::JoinId, id, text, Some(id)),
        (Prim::JoinId, text, id, None),
        (Prim::JoinId, exp, text, None),
        (Prim::Same, exp, exp, Some(int)),
        (Prim::Same, id, num, Some(int)),
        (Prim::Same, exp, tree(Kind::Stmt, 0), None),
        (Prim::Same, exps, exps, None),
        (Prim::Length, exps, exps, None),
        (Prim::First, exps, exps, None),
        (Prim::Rest, exps, exps, None),
        (Prim::Digits, int, int, None),
        (Prim::Error, text, text, None),
    ];
    for (prim, first, second, wanted) in &table {
        let found = prim_result(*prim, &[*first, *second]);
        assert_eq!(rt; found, *wanted, "{prim:?} of {first:?} and {second:?}");
    }
    assert_eq!(rt; prim_result(Prim::Concat, &[text, text, text]), None);
    assert_eq!(rt; prim_result(Prim::Length, &[]), None);
}

#[test]
fn scopes_lie_in_one_another(rt: HostRuntime) -> Result<(), Fail> {
    let int = of(Base::Int, 0);
    let text = of(Base::Text, 0);
    let mut scope = MetaScope::new(rt.alloc());
    assert_eq!(rt; scope.type_of(Word(3)), None);
    assert!(rt; scope.declare(Word(3), int)?);
    assert!(rt; !scope.declare(Word(3), text)?);
    assert_eq!(rt; scope.type_of(Word(3)), Some(int));
    scope.enter()?;
    assert!(rt; scope.declare(Word(3), text)?);
    assert!(rt; scope.declare(Word(4), text)?);
    assert_eq!(rt; scope.type_of(Word(3)), Some(text));
    Ok(())
}

#[test]
fn a_scope_closes(rt: HostRuntime) -> Result<(), Fail> {
    let mut scope = MetaScope::new(rt.alloc());
    scope.enter()?;
    scope.leave();
    assert!(rt; scope.declare(Word(1), of(Base::Int, 0))?);
    assert_eq!(rt; scope.type_of(Word(1)), Some(of(Base::Int, 0)));
    Ok(())
}

#[test]
fn functions_keep_their_numbers(rt: HostRuntime) -> Result<(), Fail> {
    let int = of(Base::Int, 0);
    let text = of(Base::Text, 0);
    let mut functions = Functions::new(rt.alloc());
    assert!(rt; functions.is_empty());
    let params = [int, text].to_vec(rt.alloc())?;
    let first = functions.add(Word(7), params, text)?;
    assert_eq!(rt; functions.len(), 1);
    let second = functions.add(Word(2), Vec::new(rt.alloc()), int)?;
    assert_eq!(rt;
        functions.add(Word(7), Vec::new(rt.alloc()), int),
        Err(AddStop::Taken)
    );
    assert_eq!(rt; functions.len(), 2);
    assert_eq!(rt; functions.by_word(Word(7)), Some(first));
    assert!(rt; (first.0 as usize) < functions.len());
    assert_eq!(rt; functions.params(first), [int, text].as_slice());
    assert_eq!(rt; functions.result(first), text);
    assert_eq!(rt; functions.by_word(Word(2)), Some(second));
    assert_eq!(rt; functions.by_word(Word(1)), None);
    Ok(())
}
