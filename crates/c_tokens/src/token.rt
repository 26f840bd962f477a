//! The tokens of extended C.

use crate::span::Span;

/// The number of a text in a table of words.
#[derive(Clone, Copy, Debug, PartialEq, Eq)]
pub struct Word(pub u32);

/// The most bytes of a source.
pub const MAX_SOURCE_BYTES: usize = 4_194_304;

/// The most bytes of a word.
pub const MAX_WORD_BYTES: usize = 1_023;

/// The most bytes of a literal.
pub const MAX_LITERAL_BYTES: usize = 4_095;

/// A keyword (ISO/IEC 9899:1990, 6.1.1).
#[derive(Clone, Copy, Debug, PartialEq, Eq)]
pub enum Key {
    Auto,
    Break,
    Case,
    Char,
    Const,
    Continue,
    Default,
    Do,
    Double,
    Else,
    Enum,
    Extern,
    Float,
    For,
    Goto,
    If,
    Int,
    Long,
    Register,
    Return,
    Short,
    Signed,
    Sizeof,
    Static,
    Struct,
    Switch,
    Typedef,
    Union,
    Unsigned,
    Void,
    Volatile,
    While,
}

/// A punctuator or operator (ISO/IEC 9899:1990, 6.1.5 and 6.1.6).
#[derive(Clone, Copy, Debug, PartialEq, Eq)]
pub enum Punct {
    LeftBracket,
    RightBracket,
    LeftParen,
    RightParen,
    LeftBrace,
    RightBrace,
    Dot,
    Arrow,
    PlusPlus,
    MinusMinus,
    Ampersand,
    Star,
    Plus,
    Minus,
    Tilde,
    Exclamation,
    Slash,
    Percent,
    ShiftLeft,
    ShiftRight,
    Less,
    Greater,
    LessEqual,
    GreaterEqual,
    EqualEqual,
    NotEqual,
    Caret,
    Bar,
    AmpersandAmpersand,
    BarBar,
    Question,
    Colon,
    Equal,
    StarEqual,
    SlashEqual,
    PercentEqual,
    PlusEqual,
    MinusEqual,
    ShiftLeftEqual,
    ShiftRightEqual,
    AmpersandEqual,
    CaretEqual,
    BarEqual,
    Comma,
    Semicolon,
    Ellipsis,
}

/// A mark of the extension notation. `Syntax` to `Member` are words after `@`,
/// and `QuoteParen` to `QuoteMember` begin a template.
#[derive(Clone, Copy, Debug, PartialEq, Eq)]
pub enum Mark {
    Syntax,
    Meta,
    Text,
    Match,
    Id,
    Num,
    Exp,
    Stmt,
    Decl,
    Item,
    Spec,
    Param,
    Member,
    /// `@{`
    PatternOpen,
    /// `@}`
    PatternClose,
    /// `@(`
    GroupOpen,
    /// `@)`
    GroupClose,
    /// `$`
    Hole,
    /// `$$`
    Bind,
    /// `$$+`
    OneOrMore,
    /// `$$*`
    ZeroOrMore,
    /// `$$+/`
    OneOrMoreBetween,
    /// `$$*/`
    ZeroOrMoreBetween,
    /// `$$?`
    Maybe,
    /// `` `( ``
    QuoteParen,
    /// `` `{ ``
    QuoteBrace,
    QuoteId,
    QuoteNum,
    QuoteExp,
    QuoteStmt,
    QuoteDecl,
    QuoteItem,
    QuoteSpec,
    QuoteParam,
    QuoteMember,
}

/// What a token is. A word, a constant or a literal is known by the number of its text.
#[derive(Clone, Copy, Debug, PartialEq, Eq)]
pub enum Shape {
    Key(Key),
    Punct(Punct),
    Mark(Mark),
    Word(Word),
    Int(Word),
    Float(Word),
    Char(Word),
    Str(Word),
    /// the end of the source
    End,
}

/// A token and where it stands.
#[derive(Clone, Copy, Debug, PartialEq, Eq)]
pub struct Token {
    pub shape: Shape,
    pub span: Span,
}
