//! The program `ms2`: reads one file of extended C and writes plain C90.
#![tactic(auto)]

use io_edge::{StdShelf, StdSink};
use ms2_top::run;
use std::alloc::{AllocError, Global};
use std::env::Args;
use std::process::ExitCode;
use std::{env, io};

/// The exit status where there is no memory for the words of the command line.
const NO_MEMORY: u8 = 6;

/// The exit status where one of the words is no UTF-8 text.
const NO_TEXT: u8 = 8;

fn main(rt: HostRuntime) -> ExitCode {
    let all = match env::args(&rt) {
        Ok(all) => all,
        Err(error) => return ExitCode::from(start_code(&error)),
    };
    match after_first(rt.alloc(), all) {
        Ok(words) => {
            let mut shelf = StdShelf::new(rt);
            let mut out = StdSink::new(rt.stdout());
            let mut err = StdSink::new(rt.stderr());
            let status = run(rt.alloc(), &words, &mut shelf, &mut out, &mut err);
            ExitCode::from(status.code())
        }
        Err(AllocError) => ExitCode::from(NO_MEMORY),
    }
}

/// The words after the program's name.
fn after_first(alloc: Global, mut all: Args) -> Result<Vec<String>, AllocError> {
    let _program = all.next();
    let mut words = Vec::new(alloc);
    for word in all {
        words.push(word)?;
    }
    Ok(words)
}

/// The exit status where the words of the command line could not be had.
fn start_code(error: &io::Error) -> u8 {
    match error.kind() {
        io::ErrorKind::OutOfMemory => NO_MEMORY,
        _ => NO_TEXT,
    }
}
