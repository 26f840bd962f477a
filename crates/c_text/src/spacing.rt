//! Which neighbours on a line stand side by side.

ghost use Rattle.std.specs.Prelude.{◌≡◌};
ghost use Rattle.c_text.specs.Spacing as spacing;

use c_layout::Use;
use c_tokens::{Punct, Shape};

fn is_opening(shape: Shape) -> bool
    ensures { result ≡ spacing.is_opening shape }
{
    matches!(shape, Shape::Punct(Punct::LeftParen | Punct::LeftBracket))
}

fn is_closing(shape: Shape) -> bool
    ensures { result ≡ spacing.is_closing shape }
{
    matches!(
        shape,
        Shape::Punct(
            Punct::RightParen
                | Punct::RightBracket
                | Punct::Comma
                | Punct::Semicolon
                | Punct::LeftBracket
        )
    )
}

fn is_left_paren(shape: Shape) -> bool
    ensures { result ≡ spacing.is_left_paren shape }
{
    matches!(shape, Shape::Punct(Punct::LeftParen))
}

fn is_colon(shape: Shape) -> bool
    ensures { result ≡ spacing.is_colon shape }
{
    matches!(shape, Shape::Punct(Punct::Colon))
}

fn is_step(shape: Shape) -> bool
    ensures { result ≡ spacing.is_step shape }
{
    matches!(shape, Shape::Punct(Punct::PlusPlus | Punct::MinusMinus))
}

fn is_star(shape: Shape) -> bool
    ensures { result ≡ spacing.is_star shape }
{
    matches!(shape, Shape::Punct(Punct::Star))
}

fn is_punct(shape: Shape) -> bool
    ensures { result ≡ spacing.is_punct shape }
{
    matches!(shape, Shape::Punct(_))
}

fn is_member_sign(shape: Shape) -> bool
    ensures { result ≡ spacing.is_member_sign shape }
{
    matches!(shape, Shape::Punct(Punct::Dot | Punct::Arrow))
}

fn is_number(shape: Shape) -> bool
    ensures { result ≡ spacing.is_number shape }
{
    matches!(shape, Shape::Int(_) | Shape::Float(_))
}

/// Whether a token is a word, a constant, a string or `(`.
fn is_operand_start(shape: Shape) -> bool
    ensures { result ≡ spacing.is_operand_start shape }
{
    matches!(
        shape,
        Shape::Word(_)
            | Shape::Int(_)
            | Shape::Float(_)
            | Shape::Char(_)
            | Shape::Str(_)
            | Shape::Punct(Punct::LeftParen)
    )
}

/// Whether a token is `*`, `!` or `~`, which begin no longer token.
fn is_short_operator(shape: Shape) -> bool
    ensures { result ≡ spacing.is_short_operator shape }
{
    matches!(
        shape,
        Shape::Punct(Punct::Star | Punct::Exclamation | Punct::Tilde)
    )
}

/// Whether a token is the `(` of a call or of a function declarator.
fn is_call_paren(shape: Shape, part: Use) -> bool
    ensures { result ≡ spacing.is_call_paren shape part }
{
    match part {
        Use::CallParen => is_left_paren(shape),
        _ => false,
    }
}

/// Whether a token is the `:` of a label, `case` or `default`.
fn is_label_colon(shape: Shape, part: Use) -> bool
    ensures { result ≡ spacing.is_label_colon shape part }
{
    match part {
        Use::LabelColon => is_colon(shape),
        _ => false,
    }
}

/// Whether a token is a postfix `++` or `--`.
fn is_postfix(shape: Shape, part: Use) -> bool
    ensures { result ≡ spacing.is_postfix shape part }
{
    match part {
        Use::Postfix => is_step(shape),
        _ => false,
    }
}

/// Whether a token is a prefix operator or the `*` of a pointer declarator.
fn is_leading(shape: Shape, part: Use) -> bool
    ensures { result ≡ spacing.is_leading shape part }
{
    match part {
        Use::Prefix => is_punct(shape),
        Use::Pointer => is_star(shape),
        _ => false,
    }
}

/// Whether a token stands right after a prefix operator or a pointer's `*`.
fn is_close_operand(shape: Shape, next: Shape, next_part: Use) -> bool
    ensures { result ≡ spacing.is_close_operand shape next next_part }
{
    is_operand_start(next) || (is_short_operator(shape) && is_leading(next, next_part))
}

/// Whether a token is a member's sign or a postfix operator, which keep their distance from a number.
fn is_trailing(shape: Shape, part: Use) -> bool
    ensures { result ≡ spacing.is_trailing shape part }
{
    is_member_sign(shape) || is_postfix(shape, part)
}

/// Whether a token stands right after another on its line.
pub fn is_close(shape: Shape, part: Use, next: Shape, next_part: Use) -> bool
    ensures { result ≡ spacing.is_close shape part next next_part }
{
    is_opening(shape)
        || is_member_sign(shape)
        || is_closing(next)
        || is_call_paren(next, next_part)
        || is_label_colon(next, next_part)
        || (is_leading(shape, part) && is_close_operand(shape, next, next_part))
        || (is_trailing(next, next_part) && !is_number(shape))
}
