//! Places in a source.

ghost use Rattle.std.specs.Prelude.{◌≡◌, ◌-◌, ◌^◌, ◌<◌, ◌≤◌, length};
ghost use Rattle.c_tokens.specs.Places.{line_at, column_at};

/// A part of the source in bytes, its end excluded.
#[derive(Clone, Copy, Debug, PartialEq, Eq)]
pub struct Span {
    pub start: u32,
    pub end: u32,
}

/// A line and a column, both counted from 1, the column in bytes.
#[derive(Clone, Copy, Debug, PartialEq, Eq)]
pub struct Place {
    pub line: u32,
    pub column: u32,
}

/// The line and the column of a byte. The end of the text has a place too.
pub fn place_at(text: &[u8], at: usize) -> Place
    requires within { at ≤ length text.now }
    requires small { at < 2 ^ 32 - 1 }
    ensures line { result.line ≡ line_at text.now at }
    ensures column { result.column ≡ column_at text.now at }
{
    let mut line: u32 = 1;
    let mut column: u32 = 1;
    for byte in &text[..at] {
        if *byte == b'\n' {
            line += 1;
            column = 1;
        } else {
            column += 1;
        }
    }
    Place { line, column }
}
