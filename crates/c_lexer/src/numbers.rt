//! Constants of numbers.

ghost use Rattle.std.specs.Prelude.{◌≡◌, Bool, drop};
ghost use Rattle.std.specs.List.{prefix_len};
ghost use Rattle.c_tokens.specs.Bytes as kind;
ghost use Rattle.c_tokens.specs.Constants as constant;

use crate::bytes::{
    byte_at, is_digit, is_exponent_mark, is_float_suffix, is_hexadecimal, is_hexadecimal_mark,
    is_long_suffix, is_octal, is_sign, is_unsigned_suffix,
};
use crate::runs::{after_digits, after_hexadecimal, after_octal, from};

/// Whether a text is an integer constant.
#[tactic(auto, using(crate::proofs::Heads::integer_empty, crate::proofs::Heads::integer_some))]
pub fn is_integer(text: &[u8]) -> bool
    ensures { result ≡ constant.is_integer text.now }
{
    if text.is_empty() {
        return false;
    }
    let rest = from(text, 1);
    if text[0] == b'0' {
        is_hexadecimal_rest(rest) || is_integer_suffix(after_octal(rest))
    } else {
        is_digit(text[0]) && is_integer_suffix(after_digits(rest))
    }
}

#[tactic(auto, using(crate::proofs::Heads::hexadecimal_empty, crate::proofs::Heads::hexadecimal_some))]
fn is_hexadecimal_rest(text: &[u8]) -> bool
    ensures { result ≡ constant.is_hexadecimal_rest text.now }
{
    if text.is_empty() {
        return false;
    }
    let rest = from(text, 1);
    is_hexadecimal_mark(text[0])
        && is_hexadecimal(byte_at(rest, 0))
        && is_integer_suffix(after_hexadecimal(rest))
}

#[tactic(auto, using(crate::proofs::Heads::integer_suffix_empty, crate::proofs::Heads::integer_suffix_one, crate::proofs::Heads::integer_suffix_two, crate::proofs::Heads::integer_suffix_more))]
fn is_integer_suffix(text: &[u8]) -> bool
    ensures { result ≡ constant.is_integer_suffix text.now }
{
    match text {
        [] => true,
        [only] => is_unsigned_suffix(*only) || is_long_suffix(*only),
        [first, second] => {
            is_unsigned_suffix(*first) && is_long_suffix(*second)
                || is_long_suffix(*first) && is_unsigned_suffix(*second)
        }
        _ => false,
    }
}

/// Whether a text is a floating constant.
#[tactic(auto, using(crate::proofs::Heads::floating_by_bytes))]
pub fn is_floating(text: &[u8]) -> bool
    ensures { result ≡ constant.is_floating text.now }
{
    let digits = is_digit(byte_at(text, 0));
    let rest = after_digits(text);
    is_fraction(digits, rest) || digits && is_exponent(rest)
}

/// Whether a text is a point and what follows it in a constant. `digits` says whether digits stand
/// before it.
#[tactic(auto, using(crate::proofs::Heads::fraction_empty, crate::proofs::Heads::fraction_some))]
fn is_fraction(digits: bool, text: &[u8]) -> bool
    ensures { result ≡ constant.is_fraction digits text.now }
{
    if text.is_empty() {
        return false;
    }
    let rest = from(text, 1);
    let tail = after_digits(rest);
    text[0] == b'.'
        && (digits || is_digit(byte_at(rest, 0)))
        && (is_floating_suffix(tail) || is_exponent(tail))
}

#[tactic(auto, using(crate::proofs::Heads::exponent_empty, crate::proofs::Heads::exponent_some))]
fn is_exponent(text: &[u8]) -> bool
    ensures { result ≡ constant.is_exponent text.now }
{
    if text.is_empty() {
        return false;
    }
    is_exponent_mark(text[0]) && is_last_digits(after_sign(from(text, 1)))
}

#[tactic(auto, using(crate::proofs::Heads::after_sign_by_bytes))]
fn after_sign(text: &[u8]) -> &[u8]
    ensures { result.now ≡ constant.after_sign text.now }
{
    if is_sign(byte_at(text, 0)) {
        from(text, 1)
    } else {
        text
    }
}

/// Whether a text is digits and a suffix.
#[tactic(auto, using(crate::proofs::Heads::last_digits_by_bytes))]
fn is_last_digits(text: &[u8]) -> bool
    ensures { result ≡ constant.is_last_digits text.now }
{
    is_digit(byte_at(text, 0)) && is_floating_suffix(after_digits(text))
}

#[tactic(auto, using(crate::proofs::Heads::floating_suffix_empty, crate::proofs::Heads::floating_suffix_one, crate::proofs::Heads::floating_suffix_more))]
fn is_floating_suffix(text: &[u8]) -> bool
    ensures { result ≡ constant.is_floating_suffix text.now }
{
    match text {
        [] => true,
        [only] => is_float_suffix(*only) || is_long_suffix(*only),
        _ => false,
    }
}
