//! The program `count_tokens FILE`: lexes one file and writes how many tokens it has. docs/PERFORMANCE.md measures the
//! lexer by it.
#![tactic(auto)]

ghost use Rattle.std.specs.Prelude.{◌≤◌, length};

use c_lexer::{LexStop, lex};
use c_tokens::{Dialect, MAX_SOURCE_BYTES, Words};
use io_edge::{Sink, StdShelf, StdSink, put_all, read_source};
use itoa::Buffer;
use std::alloc::Global;
use std::env;
use std::process::ExitCode;

fn main(rt: HostRuntime) -> ExitCode {
    let Ok(mut words) = env::args(&rt) else {
        return ExitCode::FAILURE;
    };
    let _program = words.next();
    let Some(name) = words.next() else {
        return ExitCode::FAILURE;
    };
    let mut shelf = StdShelf::new(rt);
    let Ok(source) = read_source(rt.alloc(), &mut shelf, &name, MAX_SOURCE_BYTES) else {
        return ExitCode::FAILURE;
    };
    match count(rt.alloc(), &source) {
        Ok(count) => write_count(&mut StdSink::new(rt.stdout()), count),
        Err(_) => ExitCode::FAILURE,
    }
}

/// How many tokens a source has.
fn count(alloc: Global, source: &[u8]) -> Result<usize, LexStop>
    requires { length source.now ≤ MAX_SOURCE_BYTES }
{
    let mut words = Words::new(alloc);
    let tokens = lex(alloc, source, Dialect::C90, &mut words)?;
    Ok(tokens.len())
}

fn write_count<O: Sink>(out: &mut O, count: usize) -> ExitCode {
    let mut digits = Buffer::new();
    match put_all(out, digits.format(count).as_bytes()) {
        Ok(()) => ExitCode::SUCCESS,
        Err(_) => ExitCode::FAILURE,
    }
}
