//! Which spellings a source may use, and why a source has no tokens.

/// The spellings of punctuators that a source may use.
#[derive(Clone, Copy, Debug, PartialEq, Eq)]
pub enum Dialect {
    /// those of ISO/IEC 9899:1990
    C90,
    /// also `<:`, `:>`, `<%`, `%>` and `%:` of ISO/IEC 9899:1990/AMD1:1995
    C95,
}

/// Why a source has no tokens.
#[derive(Clone, Copy, Debug, PartialEq, Eq)]
pub enum LexCause {
    /// a byte that begins nothing
    StrayByte,
    /// a comment without end
    OpenComment,
    /// a literal without end on its line
    OpenLiteral,
    /// a backslash that begins no escape
    BadEscape,
    /// a character constant without characters
    EmptyChar,
    /// a preprocessing number that is no constant
    BadNumber,
    /// a word of more than [`MAX_WORD_BYTES`](crate::MAX_WORD_BYTES) bytes
    LongWord,
    /// a literal of more than [`MAX_LITERAL_BYTES`](crate::MAX_LITERAL_BYTES) bytes
    LongLiteral,
    /// a directive that is no line marker
    Directive,
    /// an `@` or a backquote that begins no mark
    BadMark,
}
