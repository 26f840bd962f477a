//! The elements of a macro's pattern.

use crate::kind::Kind;
use crate::span::Span;
use crate::token::{Token, Word};
use sqlite_items::Items;

/// An element of a pattern.
#[derive(Debug, Drop)]
pub enum Element {
    /// the token itself
    Literal {
        token: Token,
    },
    /// a tree of a kind, which gets a name
    Bind {
        kind: Kind,
        name: Word,
        span: Span,
    },
    /// `body` at least `least` times, which is 0 or 1, with the separator between two of them
    Repeat {
        least: u8,
        sep: Option<Token>,
        body: Items<Element>,
        span: Span,
    },
    /// nothing, or `intro` and then `body`
    Maybe {
        intro: Token,
        body: Items<Element>,
        span: Span,
    },
}
