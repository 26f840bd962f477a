//! Spans that count tokens, and the bytes that they become.

ghost use Rattle.std.specs.Prelude.{IfOk};
ghost use Rattle.draft_trees.specs.Right.{IsRight};

use crate::draft::Draft;
use crate::drafts::Drafts;
use crate::placing::placed;
use c_forms::{Form, GroupForm};
use c_tokens::{Memory, Punct, Shape, Span, Token, Word};
use c_trees::Tree;
use std::alloc::Global;
use std::test::Fail;

/// A span that counts tokens, and the bytes of those tokens.
struct Row {
    counted: Span,
    bytes: Span,
}

/// "a  bc ;"
static TOKENS: &[Token] = &[
    Token {
        shape: Shape::Word(Word(1)),
        span: Span { start: 0, end: 1 },
    },
    Token {
        shape: Shape::Word(Word(2)),
        span: Span { start: 3, end: 5 },
    },
    Token {
        shape: Shape::Punct(Punct::Semicolon),
        span: Span { start: 6, end: 7 },
    },
    Token {
        shape: Shape::End,
        span: Span { start: 8, end: 8 },
    },
];

static ROWS: &[Row] = &[
    Row {
        counted: Span { start: 0, end: 1 },
        bytes: Span { start: 0, end: 1 },
    },
    Row {
        counted: Span { start: 0, end: 2 },
        bytes: Span { start: 0, end: 5 },
    },
    Row {
        counted: Span { start: 1, end: 3 },
        bytes: Span { start: 3, end: 7 },
    },
    // no token: where the next one begins
    Row {
        counted: Span { start: 1, end: 1 },
        bytes: Span { start: 3, end: 3 },
    },
    Row {
        counted: Span { start: 3, end: 3 },
        bytes: Span { start: 8, end: 8 },
    },
    // beyond the last token
    Row {
        counted: Span { start: 4, end: 4 },
        bytes: Span { start: 8, end: 8 },
    },
];

/// A list in a list, each with this span.
fn nested(alloc: Global, span: Span) -> Result<Draft, Memory>
    ensures { IfOk result IsRight }
{
    let list = Form::Group(GroupForm::List);
    Draft::new(alloc, list, span, Drafts::one(Draft::leaf(list, span)))
}

/// Whether a tree and its parts have this span.
fn stands_at(tree: &Tree, span: Span) -> bool {
    let mut all = tree.span() == span;
    for part in tree.parts() {
        all = all && part.span() == span;
    }
    all
}

/// The first row that is placed elsewhere.
fn first_misplaced(alloc: Global) -> Result<Option<Span>, Memory> {
    for row in ROWS {
        let tree = placed(alloc, &nested(alloc, row.counted)?, TOKENS)?;
        if !stands_at(&tree, row.bytes) {
            return Ok(Some(row.counted));
        }
    }
    Ok(None)
}

#[test]
fn spans_become_bytes(rt: HostRuntime) -> Result<(), Fail> {
    let alloc = rt.alloc();
    assert_eq!(rt; first_misplaced(alloc), Ok(None));
    Ok(())
}
