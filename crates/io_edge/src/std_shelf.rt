//! Files and standard input as a shelf.

ghost use Rattle.std.specs.Prelude.{◌≡◌, ◌≢◌, ◌≤◌, ◌<◌, ◌+◌, None, true, false, length, IsTrue};
ghost use Rattle.io_edge.specs.Faults.{one_more};
ghost use Rattle.io_edge.specs.Picked.{OnReady, OnPickFailed};
ghost use Rattle.io_edge.specs.Got.{IfBytes, OnEnd, OnReadFailed};

use crate::shelf::{Got, Picked, Shelf};
use std::fs;
use std::io::{Input, Read};
use std::marker::Model;
use std::rt::Files;

/// What is picked.
#[derive(Drop)]
enum Source<F, R> {
    Nothing,
    File(F),
    Input(R),
}

/// The files of the system, and standard input under the name `-`. It tells no content, and a file that
/// cannot be opened is a failure.
#[derive(Drop)]
pub struct StdShelf<R: Files + Input> {
    rt: R,
    source: Source<R::File, R::Reader>,
    faults: u64,
}

impl<R: Files + Input> Model for StdShelf<R> {
    ghost use Rattle.io_edge.specs.StdShelf.{StdState, is_source};

    ghost Value = { StdState };

    ghost view = { λ shelf. record { picked = is_source shelf.source; faults = shelf.faults } };
}

impl<R: Files + Input> StdShelf<R> {
    /// A shelf over the files and the input of this runtime, with nothing picked.
    pub fn new(rt: R) -> StdShelf<R>
        ensures { result ≡ record { picked = false; faults = 0 } }
    {
        StdShelf {
            rt,
            source: Source::Nothing,
            faults: 0,
        }
    }
}

impl<R: Files + Input + Drop> Shelf for StdShelf<R> {
    ghost files = { λ _. None };

    ghost picked = { λ shelf. shelf.picked };

    ghost left = { λ _. None };

    ghost faults = { λ shelf. shelf.faults };

    fn pick(&mut self, name: &str) -> Picked
        ensures present { result ≢ Picked.Absent }
        ensures ready { OnReady result (self.new ≡ record self.old { picked = true }) }
        ensures failed { OnPickFailed result (
            self.new ≡ record { picked = false; faults = one_more self.old.faults }) }
        ensures faults { self.old.faults ≤ self.new.faults }
    {
        if name == "-" {
            self.source = Source::Input(self.rt.reader());
            return Picked::Ready;
        }
        match fs::open(&self.rt, name) {
            Ok(file) => {
                self.source = Source::File(file);
                Picked::Ready
            }
            Err(_) => {
                self.source = Source::Nothing;
                self.faults = self.faults.saturating_add(1);
                Picked::Failed
            }
        }
    }

    fn read(&mut self, buf: &mut [u8]) -> Got
        requires picked { IsTrue self.old.picked }
        requires room { 0 < length buf.old }

        ensures count { IfBytes result (λ n. (1 ≤ n) × (n ≤ length buf.old)) }
        ensures bytes { IfBytes result (λ n. self.new ≡ self.old) }
        ensures end { OnEnd result (self.new ≡ self.old) }
        ensures failed { OnReadFailed result (
            self.new ≡ record self.old { faults = one_more self.old.faults }) }
        ensures faults { self.old.faults ≤ self.new.faults }
    {
        let count = match &mut self.source {
            Source::Nothing => Ok(0),
            Source::File(file) => file.read(buf),
            Source::Input(reader) => reader.read(buf),
        };
        match count {
            Ok(0) => Got::End,
            Ok(count) => Got::Bytes(count),
            Err(_) => {
                self.faults = self.faults.saturating_add(1);
                Got::Failed
            }
        }
    }
}
