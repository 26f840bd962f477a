//! Tokens and refusals of short texts.

ghost use Rattle.std.specs.Prelude.{◌≤◌, length};

use crate::lexer::{LexStop, lex};
use c_tokens::{
    Dialect, Key, LexCause, MAX_SOURCE_BYTES, Mark, Punct, Shape, Span, Token, Word, Words,
};
use std::alloc::Global;
use std::test::Fail;

/// Where a text is refused in a dialect, and why.
fn refused_in(alloc: Global, text: &[u8], dialect: Dialect) -> Option<(usize, LexCause)>
    requires { length text.now ≤ MAX_SOURCE_BYTES }
{
    let mut words = Words::new(alloc);
    match lex(alloc, text, dialect, &mut words) {
        Err(LexStop::Bad { at, cause }) => Some((at, cause)),
        _ => None,
    }
}

fn refused(alloc: Global, text: &[u8]) -> Option<(usize, LexCause)>
    requires { length text.now ≤ MAX_SOURCE_BYTES }
{
    refused_in(alloc, text, Dialect::C90)
}

fn shapes(alloc: Global, text: &[u8]) -> Result<Vec<Shape>, Fail>
    requires { length text.now ≤ MAX_SOURCE_BYTES }
{
    let mut words = Words::new(alloc);
    let mut shapes = Vec::new(alloc);
    for token in lex(alloc, text, Dialect::C90, &mut words)? {
        shapes.push(token.shape)?;
    }
    Ok(shapes)
}

#[test]
fn stray_bytes(rt: HostRuntime) {
    let alloc = rt.alloc();
    let rows: [(&[u8], usize); 3] = [(b"\\", 0), (b"a \x80 b", 2), (b"a\r\n\0", 3)];
    for (text, at) in &rows {
        assert_eq!(rt; refused(alloc, *text), Some((*at, LexCause::StrayByte)));
    }
}

#[test]
fn open_comments(rt: HostRuntime) {
    let alloc = rt.alloc();
    let rows: [(&[u8], usize); 4] = [
        (b"/*", 0),
        (b"a /*/ b", 2),
        (b"int x; /* open", 7),
        (b"/**/ /* * /", 5),
    ];
    for (text, at) in &rows {
        assert_eq!(rt; refused(alloc, *text), Some((*at, LexCause::OpenComment)));
    }
}

#[test]
fn open_literals(rt: HostRuntime) {
    let alloc = rt.alloc();
    let rows: [(&[u8], usize); 5] = [
        (b"\"", 0),
        (b"a \"b\n\"", 2),
        (b"x = L\"\x80", 4),
        (b"'a\\'", 0),
        (b"L'\r\n'", 0),
    ];
    for (text, at) in &rows {
        assert_eq!(rt; refused(alloc, *text), Some((*at, LexCause::OpenLiteral)));
    }
}

#[test]
fn bad_escapes(rt: HostRuntime) {
    let alloc = rt.alloc();
    let rows: [(&[u8], usize); 5] = [
        (b"\"\\q\"", 1),
        (b"a '\\x'", 3),
        (b"\"a\\", 2),
        (b"\"\\\\\\8\"", 3),
        (b"L\"\x80\\\n", 3),
    ];
    for (text, at) in &rows {
        assert_eq!(rt; refused(alloc, *text), Some((*at, LexCause::BadEscape)));
    }
}

#[test]
fn empty_characters(rt: HostRuntime) {
    let alloc = rt.alloc();
    let rows: [(&[u8], usize); 3] = [(b"''", 0), (b"a L''", 2), (b"\"\" ''a", 3)];
    for (text, at) in &rows {
        assert_eq!(rt; refused(alloc, *text), Some((*at, LexCause::EmptyChar)));
    }
}

#[test]
fn bad_numbers(rt: HostRuntime) {
    let alloc = rt.alloc();
    let rows: [(&[u8], usize); 9] = [
        (b"08", 0),
        (b"x .5e+", 2),
        (b"0x", 0),
        (b"a 0xE+1", 2),
        (b"1ll", 0),
        (b"1.2.3", 0),
        (b"1uu", 0),
        (b"0x1.0", 0),
        (b"5a", 0),
    ];
    for (text, at) in &rows {
        assert_eq!(rt; refused(alloc, *text), Some((*at, LexCause::BadNumber)));
    }
}

#[test]
fn directives(rt: HostRuntime) {
    let alloc = rt.alloc();
    let rows: [(&[u8], usize); 6] = [
        (b"#pragma pack(1)", 0),
        (b"a # 1", 2),
        (b"/**/# 1", 4),
        (b"\n#", 1),
        (b"#lines 1", 0),
        (b"#\x0b1", 0),
    ];
    for (text, at) in &rows {
        assert_eq!(rt; refused(alloc, *text), Some((*at, LexCause::Directive)));
    }
}

#[test]
fn bad_marks(rt: HostRuntime) {
    let alloc = rt.alloc();
    let rows: [(&[u8], usize); 7] = [
        (b"x\r\n@exps", 3),
        (b"@ syntax", 0),
        (b"a `@", 2),
        (b"; @syntaxx", 2),
        (b"`@syntax", 0),
        (b"@", 0),
        (b"`;", 0),
    ];
    for (text, at) in &rows {
        assert_eq!(rt; refused(alloc, *text), Some((*at, LexCause::BadMark)));
    }
}

#[test]
fn other_directives(rt: HostRuntime) {
    let alloc = rt.alloc();
    let rows: [(&[u8], usize); 4] = [
        (b"%:", 0),
        (b"a %: 1", 2),
        (b"%:%:", 0),
        (b"int x = 1 %: 2;", 10),
    ];
    for (text, at) in &rows {
        assert_eq!(rt;
            refused_in(alloc, *text, Dialect::C95),
            Some((*at, LexCause::Directive))
        );
    }
}

#[test]
fn constants_and_literals(rt: HostRuntime) -> Result<(), Fail> {
    let alloc = rt.alloc();
    let numbers = [
        Shape::Int(Word(0)),
        Shape::Int(Word(1)),
        Shape::Int(Word(2)),
        Shape::Int(Word(3)),
        Shape::Float(Word(4)),
        Shape::Float(Word(5)),
        Shape::Float(Word(6)),
        Shape::Punct(Punct::Plus),
        Shape::End,
    ];
    assert_eq!(rt;
        shapes(alloc, b"1uL 1LU 0xfFu 017 .5e+1 08. 1e5f+")?.as_slice(),
        numbers.as_slice()
    );
    let literals = [
        Shape::Char(Word(0)),
        Shape::Str(Word(1)),
        Shape::Str(Word(2)),
        Shape::Char(Word(3)),
        Shape::Str(Word(4)),
        Shape::End,
    ];
    assert_eq!(rt;
        shapes(alloc, b"'a'L\"\\x4G\\18\"\"\"L'\\'\x80'\"'\\\"/*\"")?.as_slice(),
        literals.as_slice()
    );
    Ok(())
}

#[test]
fn skips_comments_and_markers(rt: HostRuntime) -> Result<(), Fail> {
    let alloc = rt.alloc();
    let only = [Shape::Punct(Punct::Semicolon), Shape::End];
    let rows: [&[u8]; 6] = [
        b"/***/;/* \x80 \n # */",
        b"# 1 \"a.c\"\n;",
        b" \t#\tline\r\n;\n#line 7",
        b"\x0b\x0c#1\n;",
        b"/**/\n#1'\n;",
        b";//**/ /**/",
    ];
    for text in &rows[..5] {
        assert_eq!(rt; shapes(alloc, *text)?.as_slice(), only.as_slice());
    }
    let divided = [
        Shape::Punct(Punct::Semicolon),
        Shape::Punct(Punct::Slash),
        Shape::End,
    ];
    assert_eq!(rt; shapes(alloc, rows[5])?.as_slice(), divided.as_slice());
    Ok(())
}

#[test]
fn other_spellings(rt: HostRuntime) -> Result<(), Fail> {
    let alloc = rt.alloc();
    let mut words = Words::new(alloc);
    let tokens = lex(alloc, b"%: 1\n<::><%%>%:1", Dialect::C95, &mut words);
    assert!(rt;
        tokens
            == Err(LexStop::Bad {
                at: 13,
                cause: LexCause::Directive
            })
    );
    let shapes = [
        Shape::Key(Key::Int),
        Shape::Word(Word(0)),
        Shape::Punct(Punct::LeftBracket),
        Shape::Int(Word(1)),
        Shape::Punct(Punct::RightBracket),
        Shape::Punct(Punct::Equal),
        Shape::Punct(Punct::LeftBrace),
        Shape::Int(Word(2)),
        Shape::Punct(Punct::Comma),
        Shape::Int(Word(1)),
        Shape::Punct(Punct::RightBrace),
        Shape::Punct(Punct::Semicolon),
        Shape::End,
    ];
    let text = b"%: 1\nint a<:2:> = <% 1, 2 %>;";
    let tokens = lex(alloc, text, Dialect::C95, &mut words)?;
    assert_eq!(rt; tokens.len(), shapes.len());
    for (token, shape) in tokens.iter().zip(shapes.iter()) {
        assert_eq!(rt; token.shape, *shape);
    }
    Ok(())
}

#[test]
fn long_literals(rt: HostRuntime) -> Result<(), Fail> {
    let alloc = rt.alloc();
    let mut text = vec![in alloc; b'a'; 4_095]?;
    text[0] = b'"';
    text[4_094] = b'"';
    let string = [Shape::Str(Word(0)), Shape::End];
    assert_eq!(rt; shapes(alloc, &text)?.as_slice(), string.as_slice());
    text[4_094] = b'a';
    assert_eq!(rt; refused(alloc, &text), Some((0, LexCause::OpenLiteral)));
    text.push(b'"')?;
    assert_eq!(rt; refused(alloc, &text), Some((0, LexCause::LongLiteral)));
    text[4_095] = b'\\';
    assert_eq!(rt; refused(alloc, &text), Some((4_095, LexCause::BadEscape)));
    text[4_094] = b'\\';
    assert_eq!(rt; refused(alloc, &text), Some((0, LexCause::LongLiteral)));
    text[4_094] = b'a';
    text[4_095] = b'\n';
    assert_eq!(rt; refused(alloc, &text), Some((0, LexCause::OpenLiteral)));

    // With a prefix and in the middle, the 4,096th byte is the quote.
    let mut text = vec![in alloc; 0x80; 4_100]?;
    text[0] = b'(';
    text[1] = b'L';
    text[2] = b'\'';
    text[4_096] = b'\'';
    assert_eq!(rt; refused(alloc, &text), Some((1, LexCause::LongLiteral)));
    text[4_096] = 0xff;
    assert_eq!(rt; refused(alloc, &text), Some((1, LexCause::LongLiteral)));
    Ok(())
}

#[test]
fn takes_the_longest(rt: HostRuntime) -> Result<(), Fail> {
    let alloc = rt.alloc();
    let dots = [
        Shape::Punct(Punct::Ellipsis),
        Shape::Punct(Punct::Dot),
        Shape::Punct(Punct::Dot),
        Shape::End,
    ];
    assert_eq!(rt; shapes(alloc, b".....")?.as_slice(), dots.as_slice());
    let between = [
        Shape::Mark(Mark::OneOrMoreBetween),
        Shape::Punct(Punct::Star),
        Shape::Mark(Mark::Bind),
        Shape::Mark(Mark::Hole),
        Shape::End,
    ];
    assert_eq!(rt; shapes(alloc, b"$$+/*$$$")?.as_slice(), between.as_slice());
    let apart = [
        Shape::Punct(Punct::PlusPlus),
        Shape::Punct(Punct::Plus),
        Shape::Punct(Punct::Plus),
        Shape::End,
    ];
    assert_eq!(rt; shapes(alloc, b"+++ +")?.as_slice(), apart.as_slice());
    let marks = [
        Shape::Mark(Mark::Syntax),
        Shape::Mark(Mark::QuoteParam),
        Shape::Mark(Mark::QuoteBrace),
        Shape::Mark(Mark::GroupOpen),
        Shape::End,
    ];
    assert_eq!(rt;
        shapes(alloc, b"@syntax`@param`{@(")?.as_slice(),
        marks.as_slice()
    );
    Ok(())
}

#[test]
fn numbers_and_places(rt: HostRuntime) -> Result<(), Fail> {
    let alloc = rt.alloc();
    let mut words = Words::new(alloc);
    let tokens = lex(alloc, b"int\tL = L1, L;10 ", Dialect::C90, &mut words)?;
    let places = [
        (Shape::Key(Key::Int), 0, 3),
        (Shape::Word(Word(0)), 4, 5),
        (Shape::Punct(Punct::Equal), 6, 7),
        (Shape::Word(Word(1)), 8, 10),
        (Shape::Punct(Punct::Comma), 10, 11),
        (Shape::Word(Word(0)), 12, 13),
        (Shape::Punct(Punct::Semicolon), 13, 14),
        (Shape::Int(Word(2)), 14, 16),
        (Shape::End, 17, 17),
    ];
    assert_eq!(rt; tokens.len(), places.len());
    for (token, (shape, start, end)) in tokens.iter().zip(places.iter()) {
        let span = Span {
            start: *start,
            end: *end,
        };
        assert_eq!(rt;
            *token,
            Token {
                shape: *shape,
                span
            }
        );
    }
    assert_eq!(rt; words.len(), 3);
    assert_eq!(rt; words.find(b"L1"), Some(Word(1)));
    assert_eq!(rt; words.find(b"int"), None);
    Ok(())
}

#[test]
fn long_words(rt: HostRuntime) -> Result<(), Fail> {
    let alloc = rt.alloc();
    let mut text = vec![in alloc; b'a'; 1_023]?;
    let word = [Shape::Word(Word(0)), Shape::End];
    assert_eq!(rt; shapes(alloc, &text)?.as_slice(), word.as_slice());
    text.push(b'_')?;
    assert_eq!(rt; refused(alloc, &text), Some((0, LexCause::LongWord)));
    text[0] = b';';
    text.push(b'9')?;
    assert_eq!(rt; refused(alloc, &text), Some((1, LexCause::LongWord)));

    // After `@` a word of any length is no mark.
    let mut text = vec![in alloc; b'i'; 1_027]?;
    text[0] = b'\r';
    text[1] = b'\n';
    assert_eq!(rt; refused(alloc, &text), Some((2, LexCause::LongWord)));
    text[2] = b'@';
    assert_eq!(rt; refused(alloc, &text), Some((2, LexCause::BadMark)));
    Ok(())
}
