//! The text of marks, up to a limit.

ghost use Rattle.std.specs.Prelude.{◌≡◌, ◌≤◌, ◌<◌, ◌+◌, ◌++◌, length, replicate, Err, OnOk, IfOk};
ghost use Rattle.c_text.specs.Text as texts;
ghost use Rattle.c_text.specs.declared.text.TextStop.TheVariants as stop;

use crate::spacing::is_close;
use crate::texts::shape_text;
use c_layout::{Mark, Use};
use c_tokens::{Shape, Words};
use std::alloc::{AllocError, AllocFailed, Global};

/// Why there is no text.
#[derive(Clone, Copy, Debug, PartialEq, Eq)]
pub enum TextStop {
    /// the text has more bytes than it may have
    TooLarge,
    Memory,
}

impl From<AllocError> for TextStop {
    ghost from_gives = { λ _ e. e ≡ stop.Memory };

    fn from(_: AllocError) -> TextStop {
        TextStop::Memory
    }
}

impl<T: Drop> From<AllocFailed<T>> for TextStop {
    ghost from_gives = { λ _ e. e ≡ stop.Memory };

    fn from(_: AllocFailed<T>) -> TextStop {
        TextStop::Memory
    }
}

/// Adds bytes.
fn put(bytes: &[u8], most: usize, text: &mut Vec<u8>) -> Result<(), TextStop>
    requires { length text.old.items ≤ most }
    ensures added { OnOk result (text.new.items ≡ text.old.items ++ bytes.now) }
    ensures within { OnOk result (length text.new.items ≤ most) }
    ensures too_large { result ≡ Err stop.TooLarge → most < length text.old.items + length bytes.now }
{
    if bytes.len() > most - text.len() {
        return Err(TextStop::TooLarge);
    }
    text.extend_from_slice(bytes)?;
    Ok(())
}

/// Adds spaces.
fn put_spaces(count: usize, most: usize, text: &mut Vec<u8>) -> Result<(), TextStop>
    requires { length text.old.items ≤ most }
    ensures added { OnOk result (text.new.items ≡ text.old.items ++ replicate count 32) }
    ensures within { OnOk result (length text.new.items ≤ most) }
    ensures too_large { result ≡ Err stop.TooLarge → most < length text.old.items + count }
{
    if count > most - text.len() {
        return Err(TextStop::TooLarge);
    }
    for _space in 0..count {
        text.push(b' ')?;
    }
    Ok(())
}

/// What ends the line of the last mark.
fn line_end(last: Option<Mark>) -> &'static [u8]
    ensures { result.now ≡ texts.line_end last }
{
    match last {
        None => b"",
        Some(_) => b"\n",
    }
}

/// What stands between the last mark and a token.
fn gap(last: Option<Mark>, next: Shape, next_part: Use) -> &'static [u8]
    ensures { result.now ≡ texts.gap last next next_part }
{
    match last {
        Some(Mark::Token { shape, part }) => {
            if is_close(shape, part, next, next_part) {
                b""
            } else {
                b" "
            }
        }
        _ => b"",
    }
}

/// Adds the text of a mark after the last one.
fn put_mark(
    words: &Words,
    last: Option<Mark>,
    mark: Mark,
    most: usize,
    text: &mut Vec<u8>,
) -> Result<(), TextStop>
    requires { length text.old.items ≤ most }
    ensures added { OnOk result (text.new.items ≡ text.old.items ++ texts.text_of_mark words.now last mark) }
    ensures within { OnOk result (length text.new.items ≤ most) }
    ensures too_large { result ≡ Err stop.TooLarge → most < length text.old.items + length (texts.text_of_mark words.now last mark) }
{
    match mark {
        Mark::Line { depth } => {
            put(line_end(last), most, text)?;
            put_spaces(4 * depth as usize, most, text)
        }
        Mark::Token { shape, part } => {
            put(gap(last, shape, part), most, text)?;
            put(shape_text(words, shape), most, text)
        }
    }
}

/// The text of marks, unless it has more bytes than `most`. It takes time linear in the marks and the text.
pub fn text_of(
    alloc: Global,
    marks: &[Mark],
    words: &Words,
    most: usize,
) -> Result<Vec<u8>, TextStop>
    ensures text { IfOk result (λ text. text.items ≡ texts.text words.now marks.now) }
    ensures within { IfOk result (λ text. length text.items ≤ most) }
    ensures too_large { result ≡ Err stop.TooLarge → most < length (texts.text words.now marks.now) }
{
    let mut text = Vec::new(alloc);
    let mut last = None;
    for mark in marks {
        put_mark(words, last, *mark, most, &mut text)?;
        last = Some(*mark);
    }
    put(line_end(last), most, &mut text)?;
    Ok(text)
}
