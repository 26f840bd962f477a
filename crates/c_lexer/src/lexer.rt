//! All tokens of a source.

ghost use Rattle.std.specs.Prelude.{◌≡◌, ℕ, ◌<◌, ◌≤◌, ◌+◌, ◌-◌, ◌^◌, ◌&&◌, ◌||◌, Bool, List, Ok, Err, length, IfOk, OnOk, OnErr, nat_eq};
ghost use Rattle.c_tokens.specs.Bytes as kind;
ghost use Rattle.c_tokens.specs.Spelling.{token};
ghost use Rattle.c_tokens.specs.Tokens.{tokens_of, gained, gains, shape_of, token_at, bad, Keeps};
ghost use Rattle.c_tokens.specs.declared.lexical.LexCause as spec_cause;
ghost use Rattle.c_lexer.specs.Meanings.{sort_by};

use crate::bytes::is_white_space;
use crate::piece::{Meaning, Sort, first_piece};
use c_tokens::{Dialect, LexCause, MAX_SOURCE_BYTES, Memory, Shape, Span, Token, Words};
use std::alloc::{AllocFailed, Global};

/// Why a source has no tokens.
#[derive(Clone, Copy, Debug, PartialEq, Eq)]
pub enum LexStop {
    /// The source is spoiled at this byte.
    Bad { at: usize, cause: LexCause },
    Memory,
}

impl From<Memory> for LexStop {
    ghost use Rattle.std.specs.Prelude.{◌≡◌};
    ghost use Rattle.c_lexer.specs.declared.lexer.LexStop.TheVariants as stop;

    ghost from_gives = { λ _ e. e ≡ stop.Memory };

    fn from(_: Memory) -> LexStop {
        LexStop::Memory
    }
}

impl<T: Drop> From<AllocFailed<T>> for LexStop {
    ghost use Rattle.std.specs.Prelude.{◌≡◌};
    ghost use Rattle.c_lexer.specs.declared.lexer.LexStop.TheVariants as stop;

    ghost from_gives = { λ _ e. e ≡ stop.Memory };

    fn from(_: AllocFailed<T>) -> LexStop {
        LexStop::Memory
    }
}

/// The tokens of a source, the last of which is its end.
pub fn lex(
    alloc: Global,
    bytes: &[u8],
    dialect: Dialect,
    words: &mut Words,
) -> Result<Vec<Token>, LexStop>
    requires size { length bytes.now ≤ MAX_SOURCE_BYTES }
    requires few { length words.old ≤ 2 ^ 31 }
    ensures tokens { IfOk result (λ v. tokens_of dialect words.new bytes.now ≡ Ok v.items) }
    ensures gained { OnOk result (words.new ≡ gained dialect words.old bytes.now) }
    ensures bad { (at : ℕ) (cause : spec_cause.LexCause) → result ≡ Err (LexStop.Bad at cause) → (names : List (List ℕ)) → tokens_of dialect names bytes.now ≡ bad at cause }
    ensures kept { Keeps words.old words.new }
    ensures few { length words.new ≤ length words.old + length bytes.now }
{
    let mut tokens = Vec::new(alloc);
    let mut at = 0;
    // whether only white space stands on its line before `at`
    let mut first = true;
    while at < bytes.len() {
        let piece = first_piece(&bytes[at..], dialect);
        let end = at + piece.length;
        let next_first = stays_first(first, bytes[end - 1]);
        match piece.meaning {
            Meaning::Space => {}
            Meaning::Marker => {
                if !first {
                    return Err(LexStop::Bad {
                        at,
                        cause: LexCause::Directive,
                    });
                }
            }
            Meaning::Token(sort) => {
                let shape = shape(sort, &bytes[at..end], words)?;
                tokens.push(token(shape, at, end))?;
            }
            Meaning::Refused { offset, cause } => {
                return Err(LexStop::Bad {
                    at: at + offset,
                    cause,
                });
            }
        }
        first = next_first;
        at = end;
    }
    tokens.push(token(Shape::End, at, at))?;
    Ok(tokens)
}

/// Whether only white space stands on its line before a place, by the byte before it and whether
/// only white space stands before that byte.
fn stays_first(first: bool, byte: u8) -> bool
    ensures { result ≡ (nat_eq byte 10 || (kind.is_white_space byte && first)) }
{
    byte == b'\n' || is_white_space(byte) && first
}

fn token(shape: Shape, start: usize, end: usize) -> Token
    requires start { start ≤ MAX_SOURCE_BYTES }
    requires end { end ≤ MAX_SOURCE_BYTES }
    ensures { result ≡ token_at shape start end }
{
    Token {
        shape,
        span: Span {
            start: start as u32,
            end: end as u32,
        },
    }
}

/// What a token is, with the number of its text where it has one.
fn shape(sort: Sort, text: &[u8], words: &mut Words) -> Result<Shape, Memory>
    requires { length words.old < 2 ^ 32 - 1 }
    ensures shape { IfOk result (λ s. s ≡ shape_of words.new text.now (sort_by sort)) }
    ensures table { OnOk result (words.new ≡ gains words.old text.now (token (sort_by sort))) }
    ensures err { OnErr result (words.new ≡ words.old) }
{
    match sort {
        Sort::Key(key) => Ok(Shape::Key(key)),
        Sort::Punct(punct) => Ok(Shape::Punct(punct)),
        Sort::Mark(mark) => Ok(Shape::Mark(mark)),
        Sort::Word => Ok(Shape::Word(words.number(text)?)),
        Sort::Int => Ok(Shape::Int(words.number(text)?)),
        Sort::Float => Ok(Shape::Float(words.number(text)?)),
        Sort::Char => Ok(Shape::Char(words.number(text)?)),
        Sort::Str => Ok(Shape::Str(words.number(text)?)),
    }
}
