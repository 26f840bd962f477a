//! Character constants and string literals.

ghost use Rattle.std.specs.Prelude.{◌≡◌, ℕ, ◌-◌, ◌<◌, ◌≤◌, ◌&&◌, not, Bool, true, false, length, drop, get_or};
ghost use Rattle.c_tokens.specs.Bytes.{is_quote, is_backslash};
ghost use Rattle.c_tokens.specs.Literals as literal;
ghost use Rattle.c_tokens.specs.declared.lexical.Dialect.{Dialect};
ghost use Rattle.c_tokens.specs.Spelling as spelled;
ghost use Rattle.c_lexer.specs.Meanings.{spelling_by, met_by, ending_by};
ghost use Rattle.c_lexer.specs.Pieces.{Describes};

use crate::bytes::{
    byte_at, is_hexadecimal, is_octal, is_quote as is_quote_byte, is_simple_escape,
};
use crate::piece::{Meaning, Piece, Sort};
use crate::runs::from;
use c_tokens::{LexCause, MAX_LITERAL_BYTES};

/// What is met at a byte of a literal.
#[derive(Clone, Copy, Debug, PartialEq, Eq)]
pub enum Met {
    Inside,
    Closing,
    Spoiled(LexCause),
}

/// How a literal ends, and at which place.
#[derive(Clone, Copy, Debug, PartialEq, Eq)]
pub enum Ending {
    Closed(usize),
    Spoiled(usize, LexCause),
}

/// Whether a text begins with a quote, or with `L` and a quote.
#[tactic(auto, using(crate::proofs::Heads::literal_by_bytes))]
pub fn is_literal(text: &[u8]) -> bool
    ensures { result ≡ literal.starts_literal text.now }
{
    is_quote_byte(byte_at(text, 0)) || is_wide(text)
}

#[tactic(auto, using(crate::proofs::Heads::wide_by_bytes))]
fn is_wide(text: &[u8]) -> bool
    ensures { result ≡ literal.starts_wide text.now }
{
    byte_at(text, 0) == b'L' && is_quote_byte(byte_at(text, 1))
}

#[tactic(auto, unfolding(c_tokens::specs::Literals::contents_start))]
fn contents_start(text: &[u8]) -> usize
    ensures { result ≡ literal.contents_start text.now }
{
    if is_wide(text) { 2 } else { 1 }
}

/// The literal with which a text begins.
pub fn literal(text: &[u8]) -> Piece
    requires { literal.starts_literal text.now ≡ true }
    ensures { (dialect : Dialect) → Describes dialect text.now result }
{
    let start = contents_start(text);
    let quote = text[start - 1];
    match literal_end(quote, text, start) {
        Ending::Closed(place) => Piece {
            length: place + 1,
            meaning: closed(quote, place == start),
        },
        Ending::Spoiled(place, cause) => Piece {
            length: text.len(),
            meaning: spoiled(place, cause),
        },
    }
}

/// What a closed literal in a quote stands for.
fn closed(quote: u8, empty: bool) -> Meaning
    ensures { spelling_by result ≡ spelled.closed_spelling quote empty }
{
    if quote == b'"' {
        Meaning::Token(Sort::Str)
    } else if empty {
        Meaning::Refused {
            offset: 0,
            cause: LexCause::EmptyChar,
        }
    } else {
        Meaning::Token(Sort::Char)
    }
}

/// A bad escape is spoiled at its backslash, the other causes at the start of the literal.
fn spoiled(place: usize, cause: LexCause) -> Meaning
    ensures { spelling_by result ≡ spelled.spoiled_spelling place cause }
{
    match cause {
        LexCause::BadEscape => Meaning::Refused {
            offset: place,
            cause,
        },
        _ => Meaning::Refused { offset: 0, cause },
    }
}

/// How a literal in a quote ends whose contents begin at a place.
fn literal_end(quote: u8, text: &[u8], start: usize) -> Ending
    requires within { start ≤ length text.now }
    requires free { literal.is_escaped text.now start ≡ false }
    ensures { ending_by result ≡ literal.first_met quote text.now start (length text.now - start) }
{
    let mut escaped = false;
    let mut index = start;
    while index < text.len() {
        match met_at(quote, text, index, escaped) {
            Met::Inside => {}
            Met::Closing => return Ending::Closed(index),
            Met::Spoiled(cause) => return Ending::Spoiled(index, cause),
        }
        escaped = next_escaped(text[index], escaped);
        index += 1;
    }
    Ending::Spoiled(index, LexCause::OpenLiteral)
}

/// Whether the byte after this one belongs to an escape that begins at this one.
#[tactic(auto, unfolding(c_tokens::specs::Bytes::is_backslash))]
fn next_escaped(byte: u8, escaped: bool) -> bool
    ensures { result ≡ (is_backslash byte && not escaped) }
{
    byte == b'\\' && !escaped
}

/// What is met at a byte of a literal. `escaped` says whether it belongs to an escape that begins
/// at the byte before.
#[tactic(auto, unfolding(c_tokens::specs::Literals::met, c_tokens::specs::Literals::is_bad_escape, c_tokens::specs::Bytes::is_backslash))]
fn met_at(quote: u8, text: &[u8], index: usize, escaped: bool) -> Met
    requires within { index < length text.now }
    requires escaped { escaped ≡ literal.is_escaped text.now index }
    ensures { met_by result ≡ literal.met quote text.now index }
{
    let byte = text[index];
    if byte == b'\\' && !escaped && !starts_escape(from(text, index + 1)) {
        Met::Spoiled(LexCause::BadEscape)
    } else if byte == b'\n' {
        Met::Spoiled(LexCause::OpenLiteral)
    } else if index == MAX_LITERAL_BYTES {
        Met::Spoiled(LexCause::LongLiteral)
    } else if byte == quote && !escaped {
        Met::Closing
    } else {
        Met::Inside
    }
}

/// Whether a text may follow the backslash of an escape.
#[tactic(auto, using(crate::proofs::Heads::escape_by_bytes))]
fn starts_escape(text: &[u8]) -> bool
    ensures { result ≡ literal.starts_escape text.now }
{
    let byte = byte_at(text, 0);
    is_simple_escape(byte) || is_octal(byte) || byte == b'x' && is_hexadecimal(byte_at(text, 1))
}
