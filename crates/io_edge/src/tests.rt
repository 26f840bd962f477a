//! What no contract says: that the calls succeed where memory is ample, and what the system answers.

use crate::{
    MemoryShelf, MemorySink, Picked, ReadStop, Shelf, StdShelf, StdSink, SureShelf, SureSink,
    WriteFault, put_all, read_source,
};
use c_tokens::List;
use std::test::Fail;

#[test]
fn reads_no_more_than_asked(rt: HostRuntime) -> Result<(), Fail> {
    let mut shelf = SureShelf::new(rt.alloc(), 3);
    shelf.add_file("four.c", b"four")?;
    shelf.add_file("five.c", b"fiver")?;
    let four = read_source(rt.alloc(), &mut shelf, "four.c", 4)?;
    assert_eq!(rt; four.as_slice(), b"four".as_slice());
    let five = read_source(rt.alloc(), &mut shelf, "five.c", 4);
    assert_eq!(rt; five.err(), Some(ReadStop::TooLarge));
    let none = read_source(rt.alloc(), &mut shelf, "none.c", 4);
    assert_eq!(rt; none.err(), Some(ReadStop::Absent));
    Ok(())
}

#[test]
fn reads_after_a_fault(rt: HostRuntime) -> Result<(), Fail> {
    let failing = [1, 4].to_vec(rt.alloc())?;
    let mut shelf = MemoryShelf::new(rt.alloc(), 2, List::from_vec(failing));
    shelf.add_file("a.c", b"int x;")?;
    shelf.add_file("a.c", b"char y;")?;

    // The first call fails at the pick, the second at the second read.
    for _ in 0..2 {
        let source = read_source(rt.alloc(), &mut shelf, "a.c", 100);
        assert_eq!(rt; source.err(), Some(ReadStop::ReadFault));
    }
    let source = read_source(rt.alloc(), &mut shelf, "a.c", 100)?;
    assert_eq!(rt; source.as_slice(), b"char y;".as_slice());
    Ok(())
}

#[test]
fn sends_until_the_fault(rt: HostRuntime) -> Result<(), Fail> {
    let failing = [3].to_vec(rt.alloc())?;
    let mut sink = MemorySink::new(rt.alloc(), 100, 4, List::from_vec(failing))?;
    assert_eq!(rt; put_all(&mut sink, b"int x = 1;\n"), Err(WriteFault));
    assert_eq!(rt; sink.held(), b"int x = ".as_slice());
    assert_eq!(rt; put_all(&mut sink, b"1;\n"), Ok(()));
    assert_eq!(rt; sink.held(), b"int x = 1;\n".as_slice());
    assert_eq!(rt; put_all(&mut SureSink::new(), b"int x = 1;\n"), Ok(()));
    Ok(())
}

#[test]
fn reads_files_of_the_system(rt: HostRuntime) -> Result<(), Fail> {
    let mut shelf = StdShelf::new(rt);
    let missing = read_source(rt.alloc(), &mut shelf, "no/such/file.c", 4);
    assert_eq!(rt; missing.err(), Some(ReadStop::ReadFault));
    let empty = read_source(rt.alloc(), &mut shelf, "/dev/null", 4)?;
    assert_eq!(rt; empty.as_slice(), b"".as_slice());
    let endless = read_source(rt.alloc(), &mut shelf, "/dev/zero", 4);
    assert_eq!(rt; endless.err(), Some(ReadStop::TooLarge));
    assert_eq!(rt; shelf.pick("-"), Picked::Ready);
    Ok(())
}

#[test]
fn writes_through_the_system(rt: HostRuntime) -> Result<(), Fail> {
    let mut bytes = Vec::new(rt.alloc());
    assert_eq!(rt; put_all(&mut StdSink::new(&mut bytes), b"int x;\n"), Ok(()));
    assert_eq!(rt; bytes.as_slice(), b"int x;\n".as_slice());
    assert_eq!(rt; put_all(&mut StdSink::new(rt.stdout()), b""), Ok(()));
    assert_eq!(rt; put_all(&mut StdSink::new(rt.stderr()), b"\n"), Ok(()));

    // A writer that has no more room takes nothing.
    let mut room = [0; 4];
    assert_eq!(rt;
        put_all(&mut StdSink::new(&mut room[..]), b"int x;\n"),
        Err(WriteFault)
    );
    assert_eq!(rt; room.as_slice(), b"int ".as_slice());
    Ok(())
}
