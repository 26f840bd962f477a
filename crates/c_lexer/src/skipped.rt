//! Comments and line markers, which are read as white space.

ghost use Rattle.std.specs.Prelude.{◌≡◌, ◌<◌, ◌≤◌, ◌+◌, ◌&&◌, nat_eq, get_or, true, false, length, drop, cond};
ghost use Rattle.c_tokens.specs.Skipped as skipped;
ghost use Rattle.c_tokens.specs.Literals.{starts_literal};
ghost use Rattle.c_tokens.specs.declared.lexical.Dialect as spec_dialect;
ghost use Rattle.c_tokens.specs.Runs.{OpensLine};
ghost use Rattle.c_lexer.specs.Pieces.{Describes};

use crate::bytes::{byte_at, is_digit};
use crate::piece::{Meaning, Piece};
use crate::runs::{after_blanks, from, line_length, word_length};
use c_tokens::{Dialect, LexCause};

/// Whether a text begins a comment.
#[tactic(auto, using(crate::proofs::Heads::comment_by_bytes))]
pub fn is_comment(text: &[u8]) -> bool
    ensures { result ≡ skipped.starts_comment text.now }
{
    byte_at(text, 0) == b'/' && byte_at(text, 1) == b'*'
}

/// The comment with which a text begins.
pub fn comment(text: &[u8]) -> Piece
    requires { skipped.starts_comment text.now ≡ true }
    ensures { (dialect : spec_dialect.Dialect) → Describes dialect text.now result }
{
    match close_length(from(text, 2)) {
        Some(length) => Piece {
            length: 2 + length,
            meaning: Meaning::Space,
        },
        None => Piece {
            length: text.len(),
            meaning: Meaning::Refused {
                offset: 0,
                cause: LexCause::OpenComment,
            },
        },
    }
}

/// The length of a text through its first `*/`.
fn close_length(text: &[u8]) -> Option<usize>
    ensures { result ≡ skipped.through_close text.now }
{
    for index in 0..text.len() {
        if closes_at(text, index) {
            return Some(index + 2);
        }
    }
    None
}

/// Whether `*/` stands at a place.
fn closes_at(text: &[u8], index: usize) -> bool
    requires { index < length text.now }
    ensures { result ≡ (nat_eq (get_or text.now index 0) 42 && nat_eq (get_or text.now (index + 1) 0) 47) }
{
    text[index] == b'*' && byte_at(text, index + 1) == b'/'
}

/// Whether a text begins a directive.
#[tactic(auto, using(crate::proofs::Heads::directive_by_bytes))]
pub fn is_directive(text: &[u8], dialect: Dialect) -> bool
    ensures { result ≡ skipped.starts_directive dialect text.now }
{
    byte_at(text, 0) == b'#'
        || dialect == Dialect::C95 && byte_at(text, 0) == b'%' && byte_at(text, 1) == b':'
}

/// The directive with which a text begins.
pub fn directive(text: &[u8]) -> Piece
    requires { 1 ≤ length text.now }
    ensures { (dialect : spec_dialect.Dialect) → OpensLine dialect text.now → Describes dialect text.now result }
{
    let line = line_length(text);
    if is_marker_line(&text[..line]) {
        Piece {
            length: if line < text.len() { line + 1 } else { line },
            meaning: Meaning::Marker,
        }
    } else {
        Piece {
            length: text.len(),
            meaning: Meaning::Refused {
                offset: 0,
                cause: LexCause::Directive,
            },
        }
    }
}

/// Whether a line that begins a directive is a line marker.
#[tactic(auto, using(crate::proofs::Heads::marker_line_by_bytes))]
fn is_marker_line(line: &[u8]) -> bool
    ensures { result ≡ skipped.is_marker_line line.now }
{
    let start = if byte_at(line, 0) == b'#' { 1 } else { 2 };
    starts_marker_rest(after_blanks(from(line, start)))
}

/// Whether a text begins with a digit or the word `line`.
#[tactic(auto, using(crate::proofs::Heads::marker_rest_by_bytes))]
fn starts_marker_rest(text: &[u8]) -> bool
    ensures { result ≡ skipped.starts_marker_rest text.now }
{
    is_digit(byte_at(text, 0)) || &text[..word_length(text)] == b"line".as_slice()
}
