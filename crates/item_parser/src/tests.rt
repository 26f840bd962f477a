//! What no clause says: that reading succeeds where memory is ample, on worked tokens.

use crate::read_item;
use c_reader::Refusal;
use c_tokens::{Key, Punct, Shape, Span, Token, Word};
use scopes::Scopes;
use std::alloc::Global;
use std::test::Fail;

/// `T (*p)[3], *q(void);`
static POINTERS: [Shape; 16] = [
    Shape::Word(Word(0)),
    Shape::Punct(Punct::LeftParen),
    Shape::Punct(Punct::Star),
    Shape::Word(Word(1)),
    Shape::Punct(Punct::RightParen),
    Shape::Punct(Punct::LeftBracket),
    Shape::Int(Word(2)),
    Shape::Punct(Punct::RightBracket),
    Shape::Punct(Punct::Comma),
    Shape::Punct(Punct::Star),
    Shape::Word(Word(3)),
    Shape::Punct(Punct::LeftParen),
    Shape::Key(Key::Void),
    Shape::Punct(Punct::RightParen),
    Shape::Punct(Punct::Semicolon),
    Shape::End,
];

/// `T x;`
static VALUE: [Shape; 4] = [
    Shape::Word(Word(0)),
    Shape::Word(Word(1)),
    Shape::Punct(Punct::Semicolon),
    Shape::End,
];

/// `typedef int T; int f(int (T));`
static PARAMETER: [Shape; 14] = [
    Shape::Key(Key::Typedef),
    Shape::Key(Key::Int),
    Shape::Word(Word(0)),
    Shape::Punct(Punct::Semicolon),
    Shape::Key(Key::Int),
    Shape::Word(Word(1)),
    Shape::Punct(Punct::LeftParen),
    Shape::Key(Key::Int),
    Shape::Punct(Punct::LeftParen),
    Shape::Word(Word(0)),
    Shape::Punct(Punct::RightParen),
    Shape::Punct(Punct::RightParen),
    Shape::Punct(Punct::Semicolon),
    Shape::End,
];

fn tokens_of(alloc: Global, shapes: &[Shape]) -> Result<Vec<Token>, Fail> {
    let mut tokens = Vec::new(alloc);
    for shape in shapes {
        let span = Span { start: 0, end: 0 };
        tokens.push(Token {
            shape: *shape,
            span,
        })?;
    }
    Ok(tokens)
}

/// Where the item that begins at a token is refused, in these scopes.
fn refused_at(
    alloc: Global,
    shapes: &[Shape],
    at: usize,
    scopes: &mut Scopes,
) -> Result<Option<usize>, Fail> {
    let tokens = tokens_of(alloc, shapes)?;
    if tokens.len() > 100 || at > tokens.len() {
        return Err(Fail::new("no such token"));
    }
    match read_item(alloc, &tokens, at, scopes) {
        Err(Refusal::Syntax(place)) => Ok(Some(place)),
        _ => Ok(None),
    }
}

/// Where the item that begins at a token ends, after its declarations hold in these scopes.
fn end_of(alloc: Global, shapes: &[Shape], at: usize, scopes: &mut Scopes) -> Result<usize, Fail> {
    let tokens = tokens_of(alloc, shapes)?;
    if tokens.len() > 100 || at > tokens.len() {
        return Err(Fail::new("no such token"));
    }
    match read_item(alloc, &tokens, at, scopes) {
        Ok((item, end)) => match scopes.walk_item(&item) {
            Ok(()) => Ok(end),
            Err(_) => Err(Fail::new("not settled")),
        },
        Err(_) => Err(Fail::new("no item")),
    }
}

/// How many declarators the declaration has that begins at the first token, in these scopes.
fn declarators_of(alloc: Global, shapes: &[Shape], scopes: &mut Scopes) -> Result<usize, Fail> {
    let tokens = tokens_of(alloc, shapes)?;
    if tokens.len() > 100 {
        return Err(Fail::new("too many tokens"));
    }
    let Ok((item, _end)) = read_item(alloc, &tokens, 0, scopes) else {
        return Err(Fail::new("no item"));
    };
    let [declaration] = item.tree().parts() else {
        return Err(Fail::new("no declaration"));
    };
    let [_specifiers, declarators] = declaration.parts() else {
        return Err(Fail::new("no declarators"));
    };
    Ok(declarators.parts().len())
}

#[test]
fn a_type_begins_a_declaration(rt: HostRuntime) -> Result<(), Fail> {
    let mut scopes = Scopes::new(rt.alloc());
    assert_eq!(rt; refused_at(rt.alloc(), &VALUE, 0, &mut scopes)?, Some(1));
    scopes.declare(Word(0), true)?;
    assert_eq!(rt; declarators_of(rt.alloc(), &POINTERS, &mut scopes)?, 2);
    assert_eq!(rt; end_of(rt.alloc(), &POINTERS, 0, &mut scopes)?, 15);
    Ok(())
}

#[test]
fn a_parameter_is_a_type_where_it_is_declared_so(rt: HostRuntime) -> Result<(), Fail> {
    let mut scopes = Scopes::new(rt.alloc());
    assert_eq!(rt;
        refused_at(rt.alloc(), &PARAMETER, 4, &mut scopes)?,
        Some(9)
    );
    assert_eq!(rt; end_of(rt.alloc(), &PARAMETER, 0, &mut scopes)?, 4);
    assert_eq!(rt; end_of(rt.alloc(), &PARAMETER, 4, &mut scopes)?, 13);
    Ok(())
}
