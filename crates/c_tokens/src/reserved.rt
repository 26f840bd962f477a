//! The spellings that are words of the language, or end in one.

ghost use Rattle.std.specs.Prelude.{◌≡◌, Option, Some, None};
ghost use Rattle.c_tokens.specs.Spelling.{find_text, keywords, word_marks};
ghost use Rattle.c_tokens.specs.Shown.{shown};

use crate::token::{Key, Mark};

static KEYWORDS: [(&[u8], Key); 32] = [
    (b"auto", Key::Auto),
    (b"break", Key::Break),
    (b"case", Key::Case),
    (b"char", Key::Char),
    (b"const", Key::Const),
    (b"continue", Key::Continue),
    (b"default", Key::Default),
    (b"do", Key::Do),
    (b"double", Key::Double),
    (b"else", Key::Else),
    (b"enum", Key::Enum),
    (b"extern", Key::Extern),
    (b"float", Key::Float),
    (b"for", Key::For),
    (b"goto", Key::Goto),
    (b"if", Key::If),
    (b"int", Key::Int),
    (b"long", Key::Long),
    (b"register", Key::Register),
    (b"return", Key::Return),
    (b"short", Key::Short),
    (b"signed", Key::Signed),
    (b"sizeof", Key::Sizeof),
    (b"static", Key::Static),
    (b"struct", Key::Struct),
    (b"switch", Key::Switch),
    (b"typedef", Key::Typedef),
    (b"union", Key::Union),
    (b"unsigned", Key::Unsigned),
    (b"void", Key::Void),
    (b"volatile", Key::Volatile),
    (b"while", Key::While),
];

static WORD_MARKS: [(&[u8], Mark); 22] = [
    (b"@syntax", Mark::Syntax),
    (b"@meta", Mark::Meta),
    (b"@text", Mark::Text),
    (b"@match", Mark::Match),
    (b"@id", Mark::Id),
    (b"@num", Mark::Num),
    (b"@exp", Mark::Exp),
    (b"@stmt", Mark::Stmt),
    (b"@decl", Mark::Decl),
    (b"@item", Mark::Item),
    (b"@spec", Mark::Spec),
    (b"@param", Mark::Param),
    (b"@member", Mark::Member),
    (b"`@id", Mark::QuoteId),
    (b"`@num", Mark::QuoteNum),
    (b"`@exp", Mark::QuoteExp),
    (b"`@stmt", Mark::QuoteStmt),
    (b"`@decl", Mark::QuoteDecl),
    (b"`@item", Mark::QuoteItem),
    (b"`@spec", Mark::QuoteSpec),
    (b"`@param", Mark::QuoteParam),
    (b"`@member", Mark::QuoteMember),
];

/// What a text stands for in a table.
fn find<T: Copy>(text: &[u8], table: &[(&'static [u8], T)]) -> Option<T>
    ensures { result ≡ find_text text.now (shown table.now) }
{
    for (spelled, value) in table {
        if text == *spelled {
            return Some(*value);
        }
    }
    None
}

/// The keyword that a text is (ISO/IEC 9899:1990, 6.1.1).
pub fn keyword(text: &[u8]) -> Option<Key>
    ensures { result ≡ find_text text.now keywords }
{
    find(text, &KEYWORDS)
}

/// The mark that a text is which ends in a word, such as `@exp`.
pub fn word_mark(text: &[u8]) -> Option<Mark>
    ensures { result ≡ find_text text.now word_marks }
{
    find(text, &WORD_MARKS)
}
