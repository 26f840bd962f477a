//! Words and literals that are parts.

ghost use Rattle.std.specs.Prelude.{◌≡◌, IfOk};
ghost use Rattle.c_reader.specs.Readers.{Reads};
ghost use Rattle.c_syntax.specs.Grammar as grammar;
ghost use Rattle.table_parser.specs.Cursors.{seen};
ghost use Rattle.table_parser.specs.Nests.{read};

use crate::cursor::{Cursor, Seen};
use crate::found::Found;
use c_forms::{Event, Form};
use c_reader::Refusal;
use c_tokens::Shape;
use form_decisions::{TYPE_WORD, WORD};

/// Whether a token is a word that is no type.
pub fn is_value(token: Seen) -> bool
    ensures { result ≡ grammar.is_value (seen token) }
{
    token.class == WORD
}

/// Whether a token is a word that is a type.
pub fn is_type_word(token: Seen) -> bool
    ensures { result ≡ grammar.is_type_word (seen token) }
{
    token.class == TYPE_WORD
}

/// Whether a token is a word.
pub fn is_word(token: Seen) -> bool
    ensures { result ≡ grammar.is_word (seen token) }
{
    is_value(token) || is_type_word(token)
}

/// Any word.
#[inline(never)]
pub fn identifier(cursor: &mut Cursor<'_>) -> Result<Found, Refusal>
    ensures reads { Reads (read 0 grammar.identifier cursor.old.input) result cursor.new.input }
    ensures kept { cursor.new.before ≡ cursor.old.before }
    ensures low { IfOk result (λ x. x.height ≡ 0) }
{
    let token = cursor.look();
    if !is_word(token) {
        return Err(cursor.refuse());
    }
    match token.shape {
        Shape::Word(word) => {
            let found = Found::leaf(Form::Id(word), cursor.place());
            cursor.advance();
            Ok(found)
        }
        _ => Err(cursor.refuse()),
    }
}

/// The name of a declarator, which is no type where no type specifier stands (ISO/IEC 9899:1990, 6.5.4).
#[inline(never)]
pub fn declared_identifier(cursor: &mut Cursor<'_>) -> Result<Found, Refusal>
    ensures reads { Reads (read 0 grammar.declared_identifier cursor.old.input) result cursor.new.input }
    ensures kept { cursor.new.before ≡ cursor.old.before }
    ensures low { IfOk result (λ x. x.height ≡ 0) }
{
    let token = cursor.look();
    if !is_value(token) {
        return Err(cursor.refuse());
    }
    match token.shape {
        Shape::Word(word) => {
            let found = Found::leaf(Form::Id(word), cursor.place());
            cursor.note();
            Ok(found)
        }
        _ => Err(cursor.refuse()),
    }
}

/// A parameter of an identifier list, which is declared at once (6.5.4.3).
#[inline(never)]
pub fn parameter_identifier(cursor: &mut Cursor<'_>) -> Result<Found, Refusal>
    ensures reads { Reads (read 0 grammar.parameter_identifier cursor.old.input) result cursor.new.input }
    ensures kept { cursor.new.before ≡ cursor.old.before }
    ensures low { IfOk result (λ x. x.height ≡ 0) }
{
    let found = declared_identifier(cursor)?;
    cursor.happens(Event::DeclareValue)?;
    Ok(found)
}

/// An enumerator's name, which hides what its word was (6.5.2.2).
#[inline(never)]
pub fn enumerator_identifier(cursor: &mut Cursor<'_>) -> Result<Found, Refusal>
    ensures reads { Reads (read 0 grammar.enumerator_identifier cursor.old.input) result cursor.new.input }
    ensures kept { cursor.new.before ≡ cursor.old.before }
    ensures low { IfOk result (λ x. x.height ≡ 0) }
{
    let token = cursor.look();
    if !is_word(token) {
        return Err(cursor.refuse());
    }
    match token.shape {
        Shape::Word(word) => {
            let found = Found::leaf(Form::Id(word), cursor.place());
            cursor.note();
            Ok(found)
        }
        _ => Err(cursor.refuse()),
    }
}

/// A string literal that stands beside others (6.1.4).
#[inline(never)]
pub fn literal(cursor: &mut Cursor<'_>) -> Result<Found, Refusal>
    ensures reads { Reads (read 0 grammar.literal cursor.old.input) result cursor.new.input }
    ensures kept { cursor.new.before ≡ cursor.old.before }
    ensures low { IfOk result (λ x. x.height ≡ 0) }
{
    match cursor.look().shape {
        Shape::Str(word) => {
            let found = Found::leaf(Form::Literal(word), cursor.place());
            cursor.advance();
            Ok(found)
        }
        _ => Err(cursor.refuse()),
    }
}
