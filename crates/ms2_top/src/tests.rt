//! What no clause says: that runs succeed where memory is ample, and what they write for worked sources.

use crate::{Status, run};
use c_tokens::List;
use io_edge::{MemoryShelf, MemorySink, Sink, SureSink};
use std::alloc::Global;
use std::test::Fail;

/// Sources, each with the text that is written for it.
static WRITTEN: [(&str, &str); 19] = [
    ("int x = 1;", "int x = 1;\n"),
    ("", ""),
    (" \t\r\n", ""),
    (
        "typedef int T; void f(void) { int T; T * x; }",
        "typedef int T;\nvoid f(void) {\n    int T;\n    T * x;\n}\n",
    ),
    (
        "typedef int T; void f(void) { T * x; }",
        "typedef int T;\nvoid f(void) {\n    T *x;\n}\n",
    ),
    (
        "typedef int T; int f(int (T));",
        "typedef int T;\nint f(int(T));\n",
    ),
    (
        "typedef int T; void f(void) { T : g(); }",
        "typedef int T;\nvoid f(void) {\n    T: g();\n}\n",
    ),
    ("int x = 0xF+1;", "int x = 0xF + 1;\n"),
    ("int a = sizeof (int) - 1;", "int a = sizeof (int) - 1;\n"),
    ("# 1 \"a.c\"\nint x;\n#line 7", "int x;\n"),
    (
        "main(argc, argv) char **argv; { return argc ? 0 : 1; }\nstruct node { struct node *next; int key : 4; } ;\nint sum(struct node *p) { int s = 0; for (; p; p = p->next) s += p->key; return s; }\n",
        "main(argc, argv)\n    char **argv;\n{\n    return argc ? 0 : 1;\n}\nstruct node { struct node *next; int key : 4; };\nint sum(struct node *p) {\n    int s = 0;\n    for (; p; p = p->next)\n        s += p->key;\n    return s;\n}\n",
    ),
    (
        "int x = (a, b) * -(-c) - (d - e);",
        "int x = (a, b) * - -c - (d - e);\n",
    ),
    ("int z = (a = b) = c;", "int z = (a = b) = c;\n"),
    (
        "void f(void) { if (a) { if (b) x(); } else y(); }",
        "void f(void) {\n    if (a) {\n        if (b)\n            x();\n    }\n    else\n        y();\n}\n",
    ),
    (
        "void f(void) { if (a) if (b) x(); else y(); }",
        "void f(void) {\n    if (a)\n        if (b)\n            x();\n        else\n            y();\n}\n",
    ),
    ("int a = twice(1);", "int a = twice(1);\n"),
    ("int a=b;int c=0 ;", "int a = b;\nint c = 0;\n"),
    ("int a = ((b)) + (c + d);", "int a = b + (c + d);\n"),
    (
        "char *s = \"b\"  \"\\x41\";",
        "char *s = \"b\" \"\\x41\";\n",
    ),
];

/// Sources that are refused, each with its line.
static LINES: [(&str, &str); 21] = [
    ("int f(int (T));", "a.c:1:12: syntax\n"),
    ("int x = 0xE+1;", "a.c:1:9: lex BadNumber\n"),
    ("int x; /* open", "a.c:1:8: lex OpenComment\n"),
    ("int x = \"a\\q\";", "a.c:1:11: lex BadEscape\n"),
    ("#pragma pack(1)", "a.c:1:1: lex Directive\n"),
    ("int a = 1;\n \x7f", "a.c:2:2: lex StrayByte\n"),
    ("int z = a + b = c;", "a.c:1:15: syntax\n"),
    ("int x = (a +;", "a.c:1:13: syntax\n"),
    ("void f(void) { if (a) else; }", "a.c:1:23: syntax\n"),
    ("x y;", "a.c:1:3: syntax\n"),
    ("int x = $y;", "a.c:1:9: syntax\n"),
    ("@param", "a.c:1:1: syntax\n"),
    ("int a = 1; ?", "a.c:1:12: syntax\n"),
    ("int a = 1", "a.c:1:10: syntax\n"),
    ("int a = 1;\r\n\nint b = 2\n;;", "a.c:4:2: syntax\n"),
    ("int = 1;", "a.c:1:5: syntax\n"),
    (
        "void f(void) { unless (a || b) g(); }",
        "a.c:1:32: syntax\n",
    ),
    (
        "int x;\n@syntax @exp one @{ ( ) @} { return `(1); }",
        "a.c:2:1: not built\n",
    ),
    ("int x;\n  @meta int n = 1 / 0;", "a.c:2:3: not built\n"),
    ("int x @syntax", "a.c:1:7: syntax\n"),
    ("@syntax", "a.c:1:1: not built\n"),
];

/// Calls of the shelf or sends that fail, by their number from 1 on, and how a run over `int x = 1;` then ends.
static READ_FAULTS: [(u64, Status); 6] = [
    (1, Status::Read),
    (2, Status::Read),
    (3, Status::Read),
    (4, Status::Read),
    (5, Status::Read),
    (6, Status::Done),
];

static WRITE_FAULTS: [(u64, &str); 3] = [(1, ""), (2, "int "), (3, "int x = ")];

/// A source with a byte many times in a row, the line of its run, and the length of its text.
struct Deep {
    byte: u8,
    count: usize,
    middle: &'static str,
    closing: u8,
    closing_count: usize,
    line: &'static str,
    length: usize,
}

static DEEP: [Deep; 6] = [
    Deep {
        byte: b'(',
        count: 1000,
        middle: "1",
        closing: b')',
        closing_count: 1000,
        line: "",
        length: 11,
    },
    Deep {
        byte: b'(',
        count: 1001,
        middle: "1",
        closing: b')',
        closing_count: 1001,
        line: "a.c:1:1009: too deep\n",
        length: 0,
    },
    Deep {
        byte: b'!',
        count: 1000,
        middle: "a",
        closing: b' ',
        closing_count: 0,
        line: "",
        length: 1011,
    },
    Deep {
        byte: b'!',
        count: 1001,
        middle: "a",
        closing: b' ',
        closing_count: 0,
        line: "a.c:1:1009: too deep\n",
        length: 0,
    },
    Deep {
        byte: b'(',
        count: 1000,
        middle: "",
        closing: b' ',
        closing_count: 0,
        line: "a.c:1:1009: syntax\n",
        length: 0,
    },
    Deep {
        byte: b'(',
        count: 1001,
        middle: "",
        closing: b' ',
        closing_count: 0,
        line: "a.c:1:1009: too deep\n",
        length: 0,
    },
];

/// A shelf with one file `a.c`.
fn shelf_of(alloc: Global, source: &[u8]) -> Result<MemoryShelf, Fail> {
    let mut shelf = MemoryShelf::new(alloc, 4096, List::from_vec(Vec::new(alloc)));
    shelf.add_file("a.c", source)?;
    Ok(shelf)
}

/// The same, where four bytes at most are read at a time and the call of this number fails.
fn failing_shelf(alloc: Global, failing: u64, source: &[u8]) -> Result<MemoryShelf, Fail> {
    let mut shelf = MemoryShelf::new(alloc, 4, List::from_vec([failing].to_vec(alloc)?));
    shelf.add_file("a.c", source)?;
    Ok(shelf)
}

/// A sink that takes four bytes at a time and fails at its send of this number.
fn sink(alloc: Global, failing: u64) -> Result<MemorySink, Fail> {
    let failing = List::from_vec([failing].to_vec(alloc)?);
    Ok(MemorySink::new(alloc, 4096, 4, failing)?)
}

fn run_with<E: Sink>(
    alloc: Global,
    words: &[&str],
    shelf: &mut MemoryShelf,
    out: &mut MemorySink,
    err: &mut E,
) -> Result<Status, Fail> {
    let mut owned = Vec::new(alloc);
    for word in words {
        owned.push(String::from_str(alloc, word)?)?;
    }
    Ok(run(alloc, &owned, shelf, out, err))
}

/// Runs over one file `a.c` that holds this.
fn run_over<E: Sink>(
    alloc: Global,
    source: &[u8],
    out: &mut MemorySink,
    err: &mut E,
) -> Result<Status, Fail> {
    let mut shelf = shelf_of(alloc, source)?;
    run_with(alloc, &["a.c"], &mut shelf, out, err)
}

/// Whether this is the text of a source.
fn is_text(alloc: Global, source: &[u8], text: &[u8]) -> Result<bool, Fail> {
    let mut out = sink(alloc, 0)?;
    let status = run_over(alloc, source, &mut out, &mut SureSink::new())?;
    Ok(status == Status::Done && out.held() == text)
}

/// The length of the text of a source.
fn length_of(alloc: Global, source: &[u8]) -> Result<usize, Fail> {
    let mut out = sink(alloc, 0)?;
    let _status = run_over(alloc, source, &mut out, &mut SureSink::new())?;
    Ok(out.held().len())
}

/// The status of a source, if this is the line of its run.
fn status_with_line(alloc: Global, source: &[u8], line: &[u8]) -> Result<Option<Status>, Fail> {
    let mut err = sink(alloc, 0)?;
    let status = run_over(alloc, source, &mut sink(alloc, 0)?, &mut err)?;
    if err.held() == line {
        Ok(Some(status))
    } else {
        Ok(None)
    }
}

#[test]
fn writes_the_text(rt: HostRuntime) -> Result<(), Fail> {
    for (source, text) in &WRITTEN {
        assert!(rt; is_text(rt.alloc(), source.as_bytes(), text.as_bytes())?);
    }
    Ok(())
}

#[test]
fn says_where_and_why(rt: HostRuntime) -> Result<(), Fail> {
    for (source, line) in &LINES {
        let status = status_with_line(rt.alloc(), source.as_bytes(), line.as_bytes())?;
        assert_eq!(rt; status, Some(Status::Refused));
    }
    Ok(())
}

fn push_many(bytes: &mut Vec<u8>, byte: u8, count: usize) -> Result<(), Fail> {
    for _ in 0..count {
        bytes.push(byte)?;
    }
    Ok(())
}

fn deep_source(alloc: Global, deep: &Deep) -> Result<Vec<u8>, Fail> {
    let mut source = b"int x = ".to_vec(alloc)?;
    push_many(&mut source, deep.byte, deep.count)?;
    source.extend_from_slice(deep.middle.as_bytes())?;
    push_many(&mut source, deep.closing, deep.closing_count)?;
    source.push(b';')?;
    Ok(source)
}

#[test]
fn takes_a_thousand_levels(rt: HostRuntime) -> Result<(), Fail> {
    for deep in &DEEP {
        let source = deep_source(rt.alloc(), deep)?;
        assert_eq!(rt; length_of(rt.alloc(), &source)?, deep.length);
        let status = status_with_line(rt.alloc(), &source, deep.line.as_bytes())?;
        assert!(rt; status.is_some());
    }
    Ok(())
}

fn spaces(alloc: Global, count: usize) -> Result<Vec<u8>, Fail> {
    let mut source = Vec::new(alloc);
    push_many(&mut source, b' ', count)?;
    Ok(source)
}

/// Each of its statements is a line with 4,000 spaces.
fn wide_source(alloc: Global) -> Result<Vec<u8>, Fail> {
    let mut source = b"void f(void) {".to_vec(alloc)?;
    push_many(&mut source, b'{', 999)?;
    push_many(&mut source, b';', 17_000)?;
    push_many(&mut source, b'}', 1000)?;
    Ok(source)
}

#[test]
fn keeps_the_limits(rt: HostRuntime) -> Result<(), Fail> {
    let most = spaces(rt.alloc(), 4_194_304)?;
    assert!(rt; is_text(rt.alloc(), &most, b"")?);
    let more = spaces(rt.alloc(), 4_194_305)?;
    let status = status_with_line(rt.alloc(), &more, b"a.c: too large\n")?;
    assert_eq!(rt; status, Some(Status::Limit));
    Ok(())
}

#[test]
fn keeps_the_limit_of_texts(rt: HostRuntime) -> Result<(), Fail> {
    let source = wide_source(rt.alloc())?;
    let status = status_with_line(rt.alloc(), &source, b"ms2: text too large\n")?;
    assert_eq!(rt; status, Some(Status::Limit));
    Ok(())
}

/// The status of words over a shelf with an empty file `a.c`, if this is the line of the run.
fn status_of_words(alloc: Global, words: &[&str], line: &[u8]) -> Result<Option<Status>, Fail> {
    let mut shelf = shelf_of(alloc, b"")?;
    let mut err = sink(alloc, 0)?;
    let status = run_with(alloc, words, &mut shelf, &mut sink(alloc, 0)?, &mut err)?;
    if err.held() == line {
        Ok(Some(status))
    } else {
        Ok(None)
    }
}

#[test]
fn answers_for_words(rt: HostRuntime) -> Result<(), Fail> {
    let usage = b"usage: ms2 FILE\n";
    assert_eq!(rt;
        status_of_words(rt.alloc(), &[], usage)?,
        Some(Status::Usage)
    );
    assert_eq!(rt;
        status_of_words(rt.alloc(), &["a.c", "a.c"], usage)?,
        Some(Status::Usage)
    );
    assert_eq!(rt;
        status_of_words(rt.alloc(), &["--help"], usage)?,
        Some(Status::Usage)
    );
    let absent = b"ms2: cannot read none.c\n";
    assert_eq!(rt;
        status_of_words(rt.alloc(), &["none.c"], absent)?,
        Some(Status::Read)
    );
    Ok(())
}

/// The status of a run where the call of the shelf of this number fails, if nothing is written but with Done.
fn status_of_read(alloc: Global, failing: u64) -> Result<Option<Status>, Fail> {
    let mut shelf = failing_shelf(alloc, failing, b"int x = 1;")?;
    let mut out = sink(alloc, 0)?;
    let status = run_with(alloc, &["a.c"], &mut shelf, &mut out, &mut SureSink::new())?;
    if status == Status::Done || out.held().is_empty() {
        Ok(Some(status))
    } else {
        Ok(None)
    }
}

/// The status of a run where the send of this number fails, if `out` then holds this.
fn status_of_write(alloc: Global, failing: u64, held: &[u8]) -> Result<Option<Status>, Fail> {
    let mut out = sink(alloc, failing)?;
    let status = run_over(alloc, b"int x = 1;", &mut out, &mut SureSink::new())?;
    if out.held() == held {
        Ok(Some(status))
    } else {
        Ok(None)
    }
}

#[test]
fn answers_for_faults(rt: HostRuntime) -> Result<(), Fail> {
    for (failing, want) in &READ_FAULTS {
        assert_eq!(rt; status_of_read(rt.alloc(), *failing)?, Some(*want));
    }
    for (failing, held) in &WRITE_FAULTS {
        let status = status_of_write(rt.alloc(), *failing, held.as_bytes())?;
        assert_eq!(rt; status, Some(Status::Write));
    }
    Ok(())
}

#[test]
fn keeps_the_status_where_the_line_fails(rt: HostRuntime) -> Result<(), Fail> {
    // The name and a colon take a send each, and the number of the line would take the third.
    let mut err = sink(rt.alloc(), 3)?;
    let status = run_over(rt.alloc(), b"?", &mut sink(rt.alloc(), 0)?, &mut err)?;
    assert_eq!(rt; status, Status::Refused);
    assert_eq!(rt; err.held(), b"a.c:".as_slice());
    Ok(())
}
