//! Kinds of bytes.

ghost use Rattle.std.specs.Prelude.{◌≡◌, ◌&&◌, ◌||◌, nat_eq, slice_index};
ghost use Rattle.c_tokens.specs.Bytes as kind;

#[tactic(auto, unfolding(c_tokens::specs::Bytes::is_digit))]
pub fn is_digit(byte: u8) -> bool
    ensures { result ≡ kind.is_digit byte }
{
    byte.is_ascii_digit()
}

#[tactic(auto, unfolding(c_tokens::specs::Bytes::is_letter))]
pub fn is_letter(byte: u8) -> bool
    ensures { result ≡ kind.is_letter byte }
{
    byte.is_ascii_alphabetic() || byte == b'_'
}

#[tactic(auto, unfolding(c_tokens::specs::Bytes::is_word_byte))]
pub fn is_word_byte(byte: u8) -> bool
    ensures { result ≡ kind.is_word_byte byte }
{
    is_letter(byte) || is_digit(byte)
}

#[tactic(auto, unfolding(c_tokens::specs::Bytes::is_white_space))]
pub fn is_white_space(byte: u8) -> bool
    ensures { result ≡ kind.is_white_space byte }
{
    matches!(byte, b'\t'..=b'\r' | b' ')
}

/// Whether the byte after `before` goes on a number.
pub fn goes_on_number(before: u8, byte: u8) -> bool
    ensures { result ≡ (kind.is_word_byte byte || nat_eq byte 46 || (kind.is_sign byte && kind.is_exponent_mark before)) }
{
    is_word_byte(byte) || byte == b'.' || is_sign(byte) && is_exponent_mark(before)
}

#[tactic(auto, unfolding(c_tokens::specs::Bytes::is_quote))]
pub fn is_quote(byte: u8) -> bool
    ensures { result ≡ kind.is_quote byte }
{
    matches!(byte, b'"' | b'\'')
}

#[tactic(auto, unfolding(c_tokens::specs::Bytes::is_octal))]
pub fn is_octal(byte: u8) -> bool
    ensures { result ≡ kind.is_octal byte }
{
    matches!(byte, b'0'..=b'7')
}

#[tactic(auto, unfolding(c_tokens::specs::Bytes::is_hexadecimal))]
pub fn is_hexadecimal(byte: u8) -> bool
    ensures { result ≡ kind.is_hexadecimal byte }
{
    is_digit(byte) || matches!(byte, b'A'..=b'F' | b'a'..=b'f')
}

#[tactic(auto, unfolding(c_tokens::specs::Bytes::is_blank))]
pub fn is_blank(byte: u8) -> bool
    ensures { result ≡ kind.is_blank byte }
{
    matches!(byte, b' ' | b'\t')
}

#[tactic(auto, unfolding(c_tokens::specs::Bytes::is_sign))]
pub fn is_sign(byte: u8) -> bool
    ensures { result ≡ kind.is_sign byte }
{
    matches!(byte, b'+' | b'-')
}

#[tactic(auto, unfolding(c_tokens::specs::Bytes::is_exponent_mark))]
pub fn is_exponent_mark(byte: u8) -> bool
    ensures { result ≡ kind.is_exponent_mark byte }
{
    matches!(byte, b'e' | b'E')
}

#[tactic(auto, unfolding(c_tokens::specs::Bytes::is_hexadecimal_mark))]
pub fn is_hexadecimal_mark(byte: u8) -> bool
    ensures { result ≡ kind.is_hexadecimal_mark byte }
{
    matches!(byte, b'x' | b'X')
}

#[tactic(auto, unfolding(c_tokens::specs::Bytes::is_unsigned_suffix))]
pub fn is_unsigned_suffix(byte: u8) -> bool
    ensures { result ≡ kind.is_unsigned_suffix byte }
{
    matches!(byte, b'u' | b'U')
}

#[tactic(auto, unfolding(c_tokens::specs::Bytes::is_long_suffix))]
pub fn is_long_suffix(byte: u8) -> bool
    ensures { result ≡ kind.is_long_suffix byte }
{
    matches!(byte, b'l' | b'L')
}

#[tactic(auto, unfolding(c_tokens::specs::Bytes::is_float_suffix))]
pub fn is_float_suffix(byte: u8) -> bool
    ensures { result ≡ kind.is_float_suffix byte }
{
    matches!(byte, b'f' | b'F')
}

#[tactic(auto, unfolding(c_tokens::specs::Bytes::is_simple_escape, c_tokens::specs::Bytes::is_quote))]
pub fn is_simple_escape(byte: u8) -> bool
    ensures { result ≡ kind.is_simple_escape byte }
{
    matches!(
        byte,
        b'"' | b'\'' | b'?' | b'\\' | b'a' | b'b' | b'f' | b'n' | b'r' | b't' | b'v'
    )
}

/// A byte of a text, and 0 past its end.
pub fn byte_at(text: &[u8], index: usize) -> u8
    ensures { result ≡ slice_index text.now index }
{
    if index < text.len() { text[index] } else { 0 }
}
