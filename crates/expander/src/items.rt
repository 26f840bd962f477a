//! The fold over the items.

ghost use Rattle.std.specs.Prelude.{◌≡◌, ◌≤◌, ◌<◌, ◌-◌, ◌^◌, ◌++◌, ◌∷◌, [], ◌↔◌, IfErr, IfOk, IsTrue, OnOk, length};
ghost use Rattle.c_tokens.specs.declared.token.Shape.TheVariants.{End};
ghost use Rattle.expander.specs.Meaning.{IsRefusal, IsStop, IsTaken, IsTranslation, Settles, is_definition, shape_at, span_at, stop_at};
ghost use Rattle.scopes.specs.Events.{events};
ghost use Rattle.scopes.specs.Settling as settling;

use crate::stop::Stop;
use c_reader::Refusal;
use c_tokens::{Mark, Memory, Shape, Span, Token};
use checked_trees::Item;
use item_parser::read_item;
use scopes::{Scopes, WalkStop};
use sqlite_items::Items;
use std::alloc::Global;

/// All items of the tokens, the last of which is the end of the source.
pub fn feed(alloc: Global, tokens: &[Token]) -> Result<Items<Item>, Stop>
    requires short { length tokens.now < 2 ^ 32 - 1 }
    ensures translated { IfOk result (λ written. IsTranslation tokens.now written) }
    ensures stopped { IfErr result (λ stop. IsStop tokens.now stop) }
{
    let mut scopes = Scopes::new(alloc);
    let mut written = Items::new(alloc);
    let mut at = 0;
    'items: while !is_end(tokens, at) {
        match take_next(alloc, tokens, at, &mut scopes, &mut written) {
            Ok(after) => at = after,
            Err(stop) => return Err(stop),
        }
    }
    Ok(written)
}

/// Reads the next item, settles it and puts it after the others. The answer is the place after it.
fn take_next(
    alloc: Global,
    tokens: &[Token],
    at: usize,
    scopes: &mut Scopes,
    written: &mut Items<Item>,
) -> Result<usize, Stop>
    requires short { length tokens.now < 2 ^ 32 - 1 }
    requires inside { at ≤ length tokens.now }
    ensures taken { IfOk result (λ after. IsTaken tokens.now scopes.old written.old at scopes.new written.new after) }
    ensures stopped { IfErr result (λ stop. IsRefusal tokens.now scopes.old at stop) }
{
    match read_item(alloc, tokens, at, scopes) {
        Ok((item, after)) => {
            settle(scopes, &item)?;
            keep(written, item)?;
            Ok(after)
        }
        Err(refusal) => Err(stop(tokens, at, refusal)),
    }
}

/// Puts an item after the others.
fn keep(written: &mut Items<Item>, item: Item) -> Result<(), Memory>
    ensures { OnOk result (written.new ≡ written.old ++ item ∷ []) }
{
    written.push(item)?;
    Ok(())
}

/// Goes through the events of an item whose events hold.
fn settle(scopes: &mut Scopes, item: &Item) -> Result<(), Memory>
    requires { Settles scopes.old item.now }
    ensures { OnOk result (settling.settled (events item.now) scopes.old ≡ settling.Scoped scopes.new) }
{
    match scopes.walk_item(item) {
        Ok(()) => Ok(()),
        Err(WalkStop::Memory) => Err(Memory),
        Err(WalkStop::Clash { .. }) => unreachable!(),
    }
}

/// Whether no item is left.
fn is_end(tokens: &[Token], at: usize) -> bool
    ensures { IsTrue result ↔ (shape_at tokens.now at ≡ End) }
{
    match tokens.get(at) {
        Some(token) => matches!(token.shape, Shape::End),
        None => true,
    }
}

/// The stop at the token that was refused in an item, or at a definition that is one.
fn stop(tokens: &[Token], at: usize, refusal: Refusal) -> Stop
    ensures { result ≡ stop_at tokens.now at refusal }
{
    match refusal {
        Refusal::Syntax(place) => {
            if is_definition(tokens, at) {
                Stop::NotBuilt(span_at(tokens, at))
            } else {
                Stop::Syntax(span_at(tokens, place))
            }
        }
        Refusal::TooDeep(place) => Stop::TooDeep(span_at(tokens, place)),
        Refusal::Memory => Stop::Memory,
    }
}

/// Whether a definition begins at a place.
fn is_definition(tokens: &[Token], at: usize) -> bool
    ensures { result ≡ is_definition (shape_at tokens.now at) }
{
    match tokens.get(at) {
        Some(token) => match token.shape {
            Shape::Mark(Mark::Syntax | Mark::Meta) => true,
            _ => false,
        },
        None => false,
    }
}

/// The bytes of the token at a place, and none at 0 after the last.
fn span_at(tokens: &[Token], at: usize) -> Span
    ensures { result ≡ span_at tokens.now at }
{
    match tokens.get(at) {
        Some(token) => token.span,
        None => Span { start: 0, end: 0 },
    }
}
