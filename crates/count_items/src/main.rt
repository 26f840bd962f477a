//! The program `count_items FILE`: reads one file of plain C and settles its scopes, and writes how many external
//! declarations it has. docs/PERFORMANCE.md measures the reader by it.
#![tactic(auto)]

ghost use Rattle.std.specs.Prelude.{◌≤◌, length};

use c_lexer::lex;
use c_tokens::{Dialect, MAX_SOURCE_BYTES, Token, Words};
use io_edge::{Sink, StdShelf, StdSink, put_all, read_source};
use item_parser::read_item;
use itoa::Buffer;
use scopes::Scopes;
use std::alloc::Global;
use std::env;
use std::process::ExitCode;

/// The number of tokens from which on a file has too many.
const MAX_TOKENS: usize = 4_294_967_295;

fn main(rt: HostRuntime) -> ExitCode {
    let Ok(mut words) = env::args(&rt) else {
        return ExitCode::FAILURE;
    };
    let _program = words.next();
    let Some(name) = words.next() else {
        return ExitCode::FAILURE;
    };
    let mut shelf = StdShelf::new(rt);
    let Ok(source) = read_source(rt.alloc(), &mut shelf, &name, MAX_SOURCE_BYTES) else {
        return ExitCode::FAILURE;
    };
    match count(rt.alloc(), &source) {
        Some(count) => write_count(&mut StdSink::new(rt.stdout()), count),
        None => ExitCode::FAILURE,
    }
}

/// How many external declarations a source has, if it is plain C.
fn count(alloc: Global, source: &[u8]) -> Option<usize>
    requires { length source.now ≤ MAX_SOURCE_BYTES }
{
    let mut words = Words::new(alloc);
    match lex(alloc, source, Dialect::C90, &mut words) {
        Ok(tokens) => count_among(alloc, &tokens),
        Err(_) => None,
    }
}

/// How many external declarations the tokens before the end are.
fn count_among(alloc: Global, tokens: &[Token]) -> Option<usize> {
    if tokens.len() >= MAX_TOKENS {
        return None;
    }
    let mut scopes = Scopes::new(alloc);
    let mut at = 0;
    for count in 0..tokens.len() {
        if at >= tokens.len().saturating_sub(1) {
            return Some(count);
        }
        let Ok((item, end)) = read_item(alloc, tokens, at, &mut scopes) else {
            return None;
        };
        if scopes.walk_item(&item).is_err() {
            return None;
        }
        at = end;
    }
    None
}

fn write_count<O: Sink>(out: &mut O, count: usize) -> ExitCode {
    let mut digits = Buffer::new();
    match put_all(out, digits.format(count).as_bytes()) {
        Ok(()) => ExitCode::SUCCESS,
        Err(_) => ExitCode::FAILURE,
    }
}
