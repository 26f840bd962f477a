//! The texts of tokens.

ghost use Rattle.std.specs.Prelude.{◌≡◌};
ghost use Rattle.c_text.specs.Texts.{text_of_key, text_of_punct, text_of_word, text_of_shape};

use c_tokens::{Key, Punct, Shape, Word, Words};

fn key_text(key: Key) -> &'static [u8]
    ensures { result.now ≡ text_of_key key }
{
    match key {
        Key::Auto => b"auto",
        Key::Break => b"break",
        Key::Case => b"case",
        Key::Char => b"char",
        Key::Const => b"const",
        Key::Continue => b"continue",
        Key::Default => b"default",
        Key::Do => b"do",
        Key::Double => b"double",
        Key::Else => b"else",
        Key::Enum => b"enum",
        Key::Extern => b"extern",
        Key::Float => b"float",
        Key::For => b"for",
        Key::Goto => b"goto",
        Key::If => b"if",
        Key::Int => b"int",
        Key::Long => b"long",
        Key::Register => b"register",
        Key::Return => b"return",
        Key::Short => b"short",
        Key::Signed => b"signed",
        Key::Sizeof => b"sizeof",
        Key::Static => b"static",
        Key::Struct => b"struct",
        Key::Switch => b"switch",
        Key::Typedef => b"typedef",
        Key::Union => b"union",
        Key::Unsigned => b"unsigned",
        Key::Void => b"void",
        Key::Volatile => b"volatile",
        Key::While => b"while",
    }
}

fn punct_text(punct: Punct) -> &'static [u8]
    ensures { result.now ≡ text_of_punct punct }
{
    match punct {
        Punct::LeftBracket => b"[",
        Punct::RightBracket => b"]",
        Punct::LeftParen => b"(",
        Punct::RightParen => b")",
        Punct::LeftBrace => b"{",
        Punct::RightBrace => b"}",
        Punct::Dot => b".",
        Punct::Arrow => b"->",
        Punct::PlusPlus => b"++",
        Punct::MinusMinus => b"--",
        Punct::Ampersand => b"&",
        Punct::Star => b"*",
        Punct::Plus => b"+",
        Punct::Minus => b"-",
        Punct::Tilde => b"~",
        Punct::Exclamation => b"!",
        Punct::Slash => b"/",
        Punct::Percent => b"%",
        Punct::ShiftLeft => b"<<",
        Punct::ShiftRight => b">>",
        Punct::Less => b"<",
        Punct::Greater => b">",
        Punct::LessEqual => b"<=",
        Punct::GreaterEqual => b">=",
        Punct::EqualEqual => b"==",
        Punct::NotEqual => b"!=",
        Punct::Caret => b"^",
        Punct::Bar => b"|",
        Punct::AmpersandAmpersand => b"&&",
        Punct::BarBar => b"||",
        Punct::Question => b"?",
        Punct::Colon => b":",
        Punct::Equal => b"=",
        Punct::StarEqual => b"*=",
        Punct::SlashEqual => b"/=",
        Punct::PercentEqual => b"%=",
        Punct::PlusEqual => b"+=",
        Punct::MinusEqual => b"-=",
        Punct::ShiftLeftEqual => b"<<=",
        Punct::ShiftRightEqual => b">>=",
        Punct::AmpersandEqual => b"&=",
        Punct::CaretEqual => b"^=",
        Punct::BarEqual => b"|=",
        Punct::Comma => b",",
        Punct::Semicolon => b";",
        Punct::Ellipsis => b"...",
    }
}

/// The text of a number, which is empty where the table has none.
fn word_text<'a>(words: &'a Words, word: Word) -> &'a [u8]
    ensures { result.now ≡ text_of_word words.now word }
{
    if (word.0 as usize) < words.len() {
        words.text(word)
    } else {
        b""
    }
}

/// The text of a token. Plain C has no marks of the macro notation, and they have no text.
pub fn shape_text<'a>(words: &'a Words, shape: Shape) -> &'a [u8]
    ensures { result.now ≡ text_of_shape words.now shape }
{
    match shape {
        Shape::Key(key) => key_text(key),
        Shape::Punct(punct) => punct_text(punct),
        Shape::Word(word)
        | Shape::Int(word)
        | Shape::Float(word)
        | Shape::Char(word)
        | Shape::Str(word) => word_text(words, word),
        Shape::Mark(_) | Shape::End => b"",
    }
}
