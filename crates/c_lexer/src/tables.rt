//! Tables of signs.

ghost use Rattle.std.specs.Prelude.{◌≡◌, Some, None, length, option_map};
ghost use Rattle.c_tokens.specs.Runs.{first_prefix};
ghost use Rattle.c_tokens.specs.Shown.{shown};

use crate::piece::{Meaning, Sort};
use c_tokens::{Mark, Punct};

/// The spellings that are signs. One that is the beginning of another stands after it; so far as this
/// leaves it open, those that are frequent in C stand first.
pub static SIGNS: [(&[u8], Meaning); 59] = [
    (b";", Meaning::Token(Sort::Punct(Punct::Semicolon))),
    (b",", Meaning::Token(Sort::Punct(Punct::Comma))),
    (b"(", Meaning::Token(Sort::Punct(Punct::LeftParen))),
    (b")", Meaning::Token(Sort::Punct(Punct::RightParen))),
    (b"[", Meaning::Token(Sort::Punct(Punct::LeftBracket))),
    (b"]", Meaning::Token(Sort::Punct(Punct::RightBracket))),
    (b"{", Meaning::Token(Sort::Punct(Punct::LeftBrace))),
    (b"}", Meaning::Token(Sort::Punct(Punct::RightBrace))),
    (b"?", Meaning::Token(Sort::Punct(Punct::Question))),
    (b":", Meaning::Token(Sort::Punct(Punct::Colon))),
    (b"~", Meaning::Token(Sort::Punct(Punct::Tilde))),
    (b"==", Meaning::Token(Sort::Punct(Punct::EqualEqual))),
    (b"=", Meaning::Token(Sort::Punct(Punct::Equal))),
    (b"->", Meaning::Token(Sort::Punct(Punct::Arrow))),
    (b"--", Meaning::Token(Sort::Punct(Punct::MinusMinus))),
    (b"-=", Meaning::Token(Sort::Punct(Punct::MinusEqual))),
    (b"-", Meaning::Token(Sort::Punct(Punct::Minus))),
    (b"++", Meaning::Token(Sort::Punct(Punct::PlusPlus))),
    (b"+=", Meaning::Token(Sort::Punct(Punct::PlusEqual))),
    (b"+", Meaning::Token(Sort::Punct(Punct::Plus))),
    (b"*=", Meaning::Token(Sort::Punct(Punct::StarEqual))),
    (b"*", Meaning::Token(Sort::Punct(Punct::Star))),
    (b"...", Meaning::Token(Sort::Punct(Punct::Ellipsis))),
    (b".", Meaning::Token(Sort::Punct(Punct::Dot))),
    (b"<<=", Meaning::Token(Sort::Punct(Punct::ShiftLeftEqual))),
    (b"<<", Meaning::Token(Sort::Punct(Punct::ShiftLeft))),
    (b"<=", Meaning::Token(Sort::Punct(Punct::LessEqual))),
    (b"<", Meaning::Token(Sort::Punct(Punct::Less))),
    (b">>=", Meaning::Token(Sort::Punct(Punct::ShiftRightEqual))),
    (b">>", Meaning::Token(Sort::Punct(Punct::ShiftRight))),
    (b">=", Meaning::Token(Sort::Punct(Punct::GreaterEqual))),
    (b">", Meaning::Token(Sort::Punct(Punct::Greater))),
    (b"!=", Meaning::Token(Sort::Punct(Punct::NotEqual))),
    (b"!", Meaning::Token(Sort::Punct(Punct::Exclamation))),
    (
        b"&&",
        Meaning::Token(Sort::Punct(Punct::AmpersandAmpersand)),
    ),
    (b"&=", Meaning::Token(Sort::Punct(Punct::AmpersandEqual))),
    (b"&", Meaning::Token(Sort::Punct(Punct::Ampersand))),
    (b"||", Meaning::Token(Sort::Punct(Punct::BarBar))),
    (b"|=", Meaning::Token(Sort::Punct(Punct::BarEqual))),
    (b"|", Meaning::Token(Sort::Punct(Punct::Bar))),
    (b"/=", Meaning::Token(Sort::Punct(Punct::SlashEqual))),
    (b"/", Meaning::Token(Sort::Punct(Punct::Slash))),
    (b"%=", Meaning::Token(Sort::Punct(Punct::PercentEqual))),
    (b"%", Meaning::Token(Sort::Punct(Punct::Percent))),
    (b"^=", Meaning::Token(Sort::Punct(Punct::CaretEqual))),
    (b"^", Meaning::Token(Sort::Punct(Punct::Caret))),
    (b"$$+/", Meaning::Token(Sort::Mark(Mark::OneOrMoreBetween))),
    (b"$$*/", Meaning::Token(Sort::Mark(Mark::ZeroOrMoreBetween))),
    (b"$$+", Meaning::Token(Sort::Mark(Mark::OneOrMore))),
    (b"$$*", Meaning::Token(Sort::Mark(Mark::ZeroOrMore))),
    (b"$$?", Meaning::Token(Sort::Mark(Mark::Maybe))),
    (b"$$", Meaning::Token(Sort::Mark(Mark::Bind))),
    (b"$", Meaning::Token(Sort::Mark(Mark::Hole))),
    (b"@{", Meaning::Token(Sort::Mark(Mark::PatternOpen))),
    (b"@}", Meaning::Token(Sort::Mark(Mark::PatternClose))),
    (b"@(", Meaning::Token(Sort::Mark(Mark::GroupOpen))),
    (b"@)", Meaning::Token(Sort::Mark(Mark::GroupClose))),
    (b"`(", Meaning::Token(Sort::Mark(Mark::QuoteParen))),
    (b"`{", Meaning::Token(Sort::Mark(Mark::QuoteBrace))),
];

/// Other spellings of punctuators (ISO/IEC 9899:1990/AMD1:1995).
pub static OTHER_SIGNS: [(&[u8], Meaning); 4] = [
    (b"<:", Meaning::Token(Sort::Punct(Punct::LeftBracket))),
    (b":>", Meaning::Token(Sort::Punct(Punct::RightBracket))),
    (b"<%", Meaning::Token(Sort::Punct(Punct::LeftBrace))),
    (b"%>", Meaning::Token(Sort::Punct(Punct::RightBrace))),
];

/// The length and the meaning of the first spelling in a table with which a text starts.
pub fn starting(text: &[u8], table: &[(&'static [u8], Meaning)]) -> Option<(usize, Meaning)>
    ensures { result ≡ option_map (λ entry. (length entry.0, entry.1)) (first_prefix text.now (shown table.now)) }
{
    for (spelled, meaning) in table {
        if text.starts_with(*spelled) {
            return Some((spelled.len(), *meaning));
        }
    }
    None
}
