//! Spans in bytes.

ghost use Rattle.std.specs.Prelude.{◌≡◌, IfOk, map};
ghost use Rattle.std.specs.List.{All};
ghost use Rattle.draft_trees.specs.Placing.{bytes_of, placed, placed_span};
ghost use Rattle.draft_trees.specs.Right.{IsRight};

use crate::draft::Draft;
use c_tokens::{Memory, Span, Token};
use c_trees::{Parts, Tree};
use std::alloc::Global;

/// The tree of a draft whose spans count tokens, with the bytes of those tokens as its spans.
/// A node without a token has the empty span where the next token begins.
#[cycle(placed)]
#[tactic(auto, using(c_trees::specs::Depths::most_deep, crate::proofs::Laws::placed_low, crate::proofs::Laws::placed_right, crate::proofs::Laws::placed_parts))]
pub fn placed(alloc: Global, draft: &Draft, tokens: &[Token]) -> Result<Tree, Memory>
    requires { IsRight draft.now }
    ensures { IfOk result (λ made. made ≡ placed tokens.now draft.now) }
{
    let span = placed_span(draft.span(), tokens);
    let parts = placed_parts(alloc, draft.parts(), tokens)?;
    Tree::new(alloc, draft.form(), span, parts)
}

#[cycle(placed)]
fn placed_parts(alloc: Global, all: &[Draft], tokens: &[Token]) -> Result<Parts, Memory>
    requires { All IsRight all.now }
    ensures { IfOk result (λ made. made ≡ map (placed tokens.now) all.now) }
{
    let mut parts = Parts::new();
    for draft in all {
        parts.push(alloc, placed(alloc, draft, tokens)?)?;
    }
    Ok(parts)
}

fn placed_span(span: Span, tokens: &[Token]) -> Span
    ensures { result ≡ placed_span tokens.now span }
{
    let start = bytes_of(span.start, tokens).start;
    let end = if span.start < span.end {
        bytes_of(span.end - 1, tokens).end
    } else {
        start
    };
    Span { start, end }
}

/// The bytes of the token with a number; beyond the last token, those of the last.
fn bytes_of(number: u32, tokens: &[Token]) -> Span
    ensures { result ≡ bytes_of tokens.now number }
{
    let last = tokens.len().saturating_sub(1);
    match tokens.get(last.min(number as usize)) {
        Some(token) => token.span,
        None => Span { start: 0, end: 0 },
    }
}
