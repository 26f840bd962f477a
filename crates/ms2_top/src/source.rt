//! What comes of a source.

ghost use Rattle.std.specs.Prelude.{◌≡◌, ◌≢◌, ◌≤◌, length, IfOk, Ok};
ghost use Rattle.c_tokens.specs.declared.lexical.Dialect.TheVariants.{C90};
ghost use Rattle.c_tokens.specs.Tokens.{tokens_of};
ghost use Rattle.ms2_top.specs.Outcomes.{IsOutcome, IsPrinted, texts_of};

use c_lexer::{LexStop, lex};
use c_text::TextStop;
use c_tokens::{Bytes, Dialect, LexCause, Memory, Token, Words};
use checked_trees::Item;
use expander::{Stop, feed};
use item_printer::print;
use std::alloc::Global;

/// What comes of a source: its text, the byte at which its tokens are spoiled, with the cause, why it has no reading, or
/// that its text has too many bytes.
#[derive(Debug, Drop)]
pub enum Outcome {
    Text(Bytes),
    Lex { at: usize, cause: LexCause },
    Stopped(Stop),
    TextTooLarge,
}

/// What comes of the bytes of a file.
pub fn outcome_of(alloc: Global, bytes: &[u8]) -> Result<Outcome, Memory>
    requires { length bytes.now ≤ 4194304 }
    ensures { IfOk result (λ found. IsOutcome bytes.now found) }
{
    let mut words = Words::new(alloc);
    match lex(alloc, bytes, Dialect::C90, &mut words) {
        Ok(tokens) => translate(alloc, bytes, &tokens, &words),
        Err(LexStop::Bad { at, cause }) => Ok(Outcome::Lex { at, cause }),
        Err(LexStop::Memory) => Err(Memory),
    }
}

/// What comes of the tokens of the bytes.
fn translate(
    alloc: Global,
    bytes: &[u8],
    tokens: &[Token],
    words: &Words,
) -> Result<Outcome, Memory>
    requires table { words.now ≡ texts_of bytes.now }
    requires lexed { tokens_of C90 words.now bytes.now ≡ Ok tokens.now }
    requires size { length bytes.now ≤ 4194304 }
    ensures { IfOk result (λ found. IsOutcome bytes.now found) }
{
    match feed(alloc, tokens) {
        Ok(written) => printed(alloc, written.as_slice(), words),
        Err(stop) => stopped(stop),
    }
}

/// The text of items, or that it is too large.
fn printed(alloc: Global, items: &[Item], words: &Words) -> Result<Outcome, Memory>
    ensures { IfOk result (λ found. IsPrinted words.now items.now found) }
{
    match print(alloc, items, words) {
        Ok(text) => Ok(Outcome::Text(Bytes::from_vec(text))),
        Err(TextStop::TooLarge) => Ok(Outcome::TextTooLarge),
        Err(TextStop::Memory) => Err(Memory),
    }
}

/// The outcome of a stop, which is none for want of memory.
fn stopped(stop: Stop) -> Result<Outcome, Memory>
    ensures { IfOk result (λ found. (found ≡ Outcome.Stopped stop) × (stop ≢ Stop.Memory)) }
{
    match stop {
        Stop::Syntax(_) => Ok(Outcome::Stopped(stop)),
        Stop::TooDeep(_) => Ok(Outcome::Stopped(stop)),
        Stop::NotBuilt(_) => Ok(Outcome::Stopped(stop)),
        Stop::Memory => Err(Memory),
    }
}
