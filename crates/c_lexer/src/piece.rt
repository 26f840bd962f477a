//! The longest spelling at a place.

ghost use Rattle.std.specs.Prelude.{◌≡◌, ◌<◌, ◌≤◌, ◌+◌, true, false, [], ◌∷◌, length, drop, take, Some, option_map};
ghost use Rattle.c_tokens.specs.Spelling as spelled;
ghost use Rattle.c_tokens.specs.Spelling.{find_text, word_marks, mark_or_refused, stray_spelling};
ghost use Rattle.c_lexer.specs.Shown.{signs_in};
ghost use Rattle.c_tokens.specs.Runs.{word_run, starts_with_letter, starts_number, starts_after_at, starts_after_backquote, starts_sign, first_prefix};
ghost use Rattle.c_tokens.specs.declared.lexical.Dialect as spec_dialect;
ghost use Rattle.c_tokens.specs.Runs.{opens};
ghost use Rattle.c_lexer.specs.Meanings.{spelling_by};
ghost use Rattle.c_lexer.specs.Pieces.{Describes};

use crate::bytes::{byte_at, is_digit, is_letter, is_white_space};
use crate::literals::{is_literal, literal};
use crate::numbers::{is_floating, is_integer};
use crate::runs::{number_length, word_length};
use crate::skipped::{comment, directive, is_comment, is_directive};
use crate::tables::{OTHER_SIGNS, SIGNS, starting};
use c_tokens::{Dialect, Key, LexCause, MAX_WORD_BYTES, Mark, Punct, keyword, word_mark};

/// What a token is, up to the number of its text.
#[derive(Clone, Copy, Debug, PartialEq, Eq)]
pub enum Sort {
    Key(Key),
    Punct(Punct),
    Mark(Mark),
    Word,
    Int,
    Float,
    Char,
    Str,
}

/// What a spelling stands for.
#[derive(Clone, Copy, Debug, PartialEq, Eq)]
pub enum Meaning {
    Space,
    /// a line marker where it stands first on its line
    Marker,
    Token(Sort),
    /// spoiled at a byte of it
    Refused { offset: usize, cause: LexCause },
}

/// A spelling at the beginning of a text.
#[derive(Clone, Copy, Debug, PartialEq, Eq)]
pub struct Piece {
    pub length: usize,
    pub meaning: Meaning,
}

/// The longest spelling with which a text begins.
pub fn first_piece(text: &[u8], dialect: Dialect) -> Piece
    requires { 0 < length text.now }
    ensures { Describes dialect text.now result }
{
    if is_literal(text) {
        return literal(text);
    }
    if is_comment(text) {
        return comment(text);
    }
    if is_directive(text, dialect) {
        return directive(text);
    }
    if is_letter(text[0]) {
        return word(text);
    }
    if is_white_space(text[0]) {
        return Piece {
            length: 1,
            meaning: Meaning::Space,
        };
    }
    if is_number(text) {
        return number(text);
    }
    if is_after_at(text) {
        return marked_word(text, 1);
    }
    if is_after_backquote(text) {
        return marked_word(text, 2);
    }
    sign(text, dialect)
}

#[tactic(auto, using(crate::proofs::Heads::number_by_bytes))]
fn is_number(text: &[u8]) -> bool
    ensures { result ≡ starts_number text.now }
{
    is_digit(byte_at(text, 0)) || byte_at(text, 0) == b'.' && is_digit(byte_at(text, 1))
}

#[tactic(auto, using(crate::proofs::Heads::after_at_by_bytes))]
fn is_after_at(text: &[u8]) -> bool
    ensures { result ≡ starts_after_at text.now }
{
    byte_at(text, 0) == b'@' && is_letter(byte_at(text, 1))
}

#[tactic(auto, using(crate::proofs::Heads::after_backquote_by_bytes))]
fn is_after_backquote(text: &[u8]) -> bool
    ensures { result ≡ starts_after_backquote text.now }
{
    byte_at(text, 0) == b'`' && byte_at(text, 1) == b'@' && is_letter(byte_at(text, 2))
}

fn word(text: &[u8]) -> Piece
    requires { starts_with_letter text.now ≡ true }
    ensures { (dialect : spec_dialect.Dialect) → opens dialect text.now ≡ false → Describes dialect text.now result }
{
    let length = word_length(text);
    let meaning = word_meaning(&text[..length]);
    Piece { length, meaning }
}

#[tactic(auto, unfolding(c_tokens::specs::Spelling::word_spelling))]
fn word_meaning(text: &[u8]) -> Meaning
    ensures { spelling_by result ≡ spelled.word_spelling text.now }
{
    match keyword(text) {
        Some(key) => Meaning::Token(Sort::Key(key)),
        None => {
            if text.len() <= MAX_WORD_BYTES {
                Meaning::Token(Sort::Word)
            } else {
                Meaning::Refused {
                    offset: 0,
                    cause: LexCause::LongWord,
                }
            }
        }
    }
}

fn number(text: &[u8]) -> Piece
    requires { starts_number text.now ≡ true }
    ensures { (dialect : spec_dialect.Dialect) → opens dialect text.now ≡ false → Describes dialect text.now result }
{
    let length = 1 + number_length(text[0], &text[1..]);
    let meaning = number_meaning(&text[..length]);
    Piece { length, meaning }
}

#[tactic(auto, unfolding(c_tokens::specs::Spelling::number_spelling))]
fn number_meaning(text: &[u8]) -> Meaning
    ensures { spelling_by result ≡ spelled.number_spelling text.now }
{
    if is_integer(text) {
        Meaning::Token(Sort::Int)
    } else if is_floating(text) {
        Meaning::Token(Sort::Float)
    } else {
        Meaning::Refused {
            offset: 0,
            cause: LexCause::BadNumber,
        }
    }
}

/// A word after `start` bytes, and what it is with them.
fn marked_word(text: &[u8], start: usize) -> Piece
    requires { start ≤ length text.now }
    ensures length { result.length ≡ start + word_run (drop start text.now) }
    ensures meaning { spelling_by result.meaning ≡ mark_or_refused (find_text (take result.length text.now) word_marks) }
{
    let length = start + word_length(&text[start..]);
    let meaning = match word_mark(&text[..length]) {
        Some(mark) => Meaning::Token(Sort::Mark(mark)),
        None => Meaning::Refused {
            offset: 0,
            cause: LexCause::BadMark,
        },
    };
    Piece { length, meaning }
}

fn sign(text: &[u8], dialect: Dialect) -> Piece
    requires sign { starts_sign text.now ≡ true }
    requires opens { opens dialect text.now ≡ false }
    ensures { Describes dialect text.now result }
{
    match sign_in(text, dialect) {
        Some((length, meaning)) => Piece { length, meaning },
        None => Piece {
            length: 1,
            meaning: stray(text[0]),
        },
    }
}

/// The length and the meaning of the longest sign of a dialect with which a text begins.
fn sign_in(text: &[u8], dialect: Dialect) -> Option<(usize, Meaning)>
    ensures { result ≡ option_map (λ entry. (length entry.0, entry.1)) (first_prefix text.now (signs_in dialect)) }
{
    match dialect {
        Dialect::C90 => starting(text, &SIGNS),
        Dialect::C95 => match starting(text, &OTHER_SIGNS) {
            Some(found) => Some(found),
            None => starting(text, &SIGNS),
        },
    }
}

/// A byte that begins nothing.
#[tactic(auto, unfolding(c_tokens::specs::Spelling::stray_spelling))]
fn stray(byte: u8) -> Meaning
    ensures { Some (spelling_by result) ≡ stray_spelling (byte ∷ []) }
{
    let cause = match byte {
        b'@' | b'`' => LexCause::BadMark,
        _ => LexCause::StrayByte,
    };
    Meaning::Refused { offset: 0, cause }
}
