//! How far bytes of one kind reach.

ghost use Rattle.std.specs.Prelude.{◌≡◌, drop};
ghost use Rattle.std.specs.List.{prefix_len};
ghost use Rattle.c_tokens.specs.Bytes as kind;
ghost use Rattle.c_tokens.specs.Constants.{after};
ghost use Rattle.c_tokens.specs.Runs.{word_run, number_run};
ghost use Rattle.c_tokens.specs.Skipped.{line_run};

use crate::bytes::{goes_on_number, is_blank, is_digit, is_hexadecimal, is_octal, is_word_byte};

/// A text from a place on, and nothing past its end.
pub fn from(text: &[u8], start: usize) -> &[u8]
    ensures { result.now ≡ drop start text.now }
{
    if start < text.len() {
        &text[start..]
    } else {
        &[]
    }
}

fn digit_length(text: &[u8]) -> usize
    ensures { result ≡ prefix_len kind.is_digit text.now }
{
    for (index, byte) in text.iter().enumerate() {
        if !is_digit(*byte) {
            return index;
        }
    }
    text.len()
}

pub fn after_digits(text: &[u8]) -> &[u8]
    ensures { result.now ≡ after kind.is_digit text.now }
{
    from(text, digit_length(text))
}

fn octal_length(text: &[u8]) -> usize
    ensures { result ≡ prefix_len kind.is_octal text.now }
{
    for (index, byte) in text.iter().enumerate() {
        if !is_octal(*byte) {
            return index;
        }
    }
    text.len()
}

pub fn after_octal(text: &[u8]) -> &[u8]
    ensures { result.now ≡ after kind.is_octal text.now }
{
    from(text, octal_length(text))
}

fn hexadecimal_length(text: &[u8]) -> usize
    ensures { result ≡ prefix_len kind.is_hexadecimal text.now }
{
    for (index, byte) in text.iter().enumerate() {
        if !is_hexadecimal(*byte) {
            return index;
        }
    }
    text.len()
}

pub fn after_hexadecimal(text: &[u8]) -> &[u8]
    ensures { result.now ≡ after kind.is_hexadecimal text.now }
{
    from(text, hexadecimal_length(text))
}

fn blank_length(text: &[u8]) -> usize
    ensures { result ≡ prefix_len kind.is_blank text.now }
{
    for (index, byte) in text.iter().enumerate() {
        if !is_blank(*byte) {
            return index;
        }
    }
    text.len()
}

pub fn after_blanks(text: &[u8]) -> &[u8]
    ensures { result.now ≡ after kind.is_blank text.now }
{
    from(text, blank_length(text))
}

pub fn word_length(text: &[u8]) -> usize
    ensures { result ≡ word_run text.now }
{
    for (index, byte) in text.iter().enumerate() {
        if !is_word_byte(*byte) {
            return index;
        }
    }
    text.len()
}

/// How many bytes go on a number after a byte.
pub fn number_length(first: u8, text: &[u8]) -> usize
    ensures { result ≡ number_run first text.now }
{
    let mut before = first;
    for (index, byte) in text.iter().enumerate() {
        if !goes_on_number(before, *byte) {
            return index;
        }
        before = *byte;
    }
    text.len()
}

/// How many bytes stand before the first line feed.
pub fn line_length(text: &[u8]) -> usize
    ensures { result ≡ line_run text.now }
{
    for (index, byte) in text.iter().enumerate() {
        if *byte == b'\n' {
            return index;
        }
    }
    text.len()
}
