//! A shelf in memory, of which some calls fail.

ghost use Rattle.std.specs.Prelude.{◌≡◌, ◌≤◌, ◌<◌, ◌↔◌, [], ◌++◌, Some, None, is_some, length, take, drop, min, OnOk, OnErr, IsSome};
ghost use Rattle.io_edge.specs.Picked.{OnReady, OnAbsent, OnPickFailed};
ghost use Rattle.io_edge.specs.Got.{IfBytes, OnEnd, OnReadFailed};
ghost use Rattle.io_edge.specs.MemoryShelf.{file_named, bytes_left, FailsNext, after_call, after_fault, Puts};

use crate::calls::Calls;
use crate::files::{File, Reading, copy_front, find_file, put_file};
use crate::shelf::{Got, Picked, Shelf};
use c_tokens::{List, Memory};
use std::alloc::Global;
use std::marker::Model;

/// A shelf that holds its files itself. Contracts see its files, what is left of the picked one, and
/// how many calls and faults there were.
#[derive(Debug, Drop)]
pub struct MemoryShelf {
    alloc: Global,
    files: Vec<File>,
    reading: Option<Reading>,
    most: usize,
    calls: Calls,
}

impl Model for MemoryShelf {
    ghost use Rattle.io_edge.specs.MemoryShelf.{ShelfState, left_of, IsReadingOf};

    ghost Value = { ShelfState };

    ghost use Rattle.std.specs.Prelude.{◌≤◌};

    ghost view = { λ shelf. record {
      files = shelf.files.items;
      left = left_of shelf.files.items shelf.reading;
      most = shelf.most;
      failing = shelf.calls.failing;
      calls = shelf.calls.made;
      faults = shelf.calls.faults;
    } };

    ghost invariant = { λ shelf. (1 ≤ shelf.most) × IsReadingOf shelf.files.items shelf.reading };
}

impl MemoryShelf {
    /// A shelf without files, which gives at most `most` bytes in one read. Its calls of `pick` and
    /// `read` are numbered together, and those of the numbers in `failing` fail.
    pub fn new(alloc: Global, most: usize, failing: List<u64>) -> MemoryShelf
        requires { 1 ≤ most }
        ensures { result ≡ record {
          files = [];
          left = None;
          most = most;
          failing = failing;
          calls = 0;
          faults = 0;
        } }
    {
        MemoryShelf {
            alloc,
            files: Vec::new(alloc),
            reading: None,
            most,
            calls: Calls::new(failing),
        }
    }

    /// Puts the bytes under the name, in place of an earlier file of that name. No file is picked then.
    pub fn add_file(&mut self, name: &str, bytes: &[u8]) -> Result<(), Memory>
        ensures ok { OnOk result (Puts self.old.files name.now bytes.now self.new.files) }
        ensures kept { OnOk result (self.new ≡ record self.old { files = self.new.files; left = None }) }
        ensures err { OnErr result (self.new ≡ self.old) }
    {
        put_file(self.alloc, &mut self.files, name, bytes)?;
        self.reading = None;
        Ok(())
    }
}

impl Shelf for MemoryShelf {
    ghost files = { λ shelf. Some (file_named shelf.files) };

    ghost picked = { λ shelf. is_some shelf.left };

    ghost left = { λ shelf. shelf.left };

    ghost faults = { λ shelf. shelf.faults };

    fn pick(&mut self, name: &str) -> Picked
        ensures fails { (result ≡ Picked.Failed) ↔ FailsNext self.old }
        ensures failed { OnPickFailed result (self.new ≡ after_fault self.old None) }
        ensures there { OnReady result (IsSome (file_named self.old.files name.now)) }
        ensures ready { OnReady result (
            self.new ≡ after_call self.old (file_named self.old.files name.now)) }
        ensures not_there { OnAbsent result (file_named self.old.files name.now ≡ None) }
        ensures absent { OnAbsent result (self.new ≡ after_call self.old None) }

        // A count that stands in 64 bits doesn't fall.
        ensures faults { self.old.faults ≤ self.new.faults }
    {
        self.reading = None;
        if self.calls.begin() {
            self.calls.raise();
            return Picked::Failed;
        }
        match find_file(&self.files, name) {
            Some(place) => {
                self.reading = Some(Reading { place, start: 0 });
                Picked::Ready
            }
            None => Picked::Absent,
        }
    }

    fn read(&mut self, buf: &mut [u8]) -> Got
        requires picked { IsSome self.old.left }
        requires room { 0 < length buf.old }

        ensures fails { (result ≡ Got.Failed) ↔ FailsNext self.old }
        ensures failed { OnReadFailed result (self.new ≡ after_fault self.old self.old.left) }
        ensures failed_buf { OnReadFailed result (buf.new ≡ buf.old) }

        ensures no_more { OnEnd result (self.old.left ≡ Some []) }
        ensures end { OnEnd result (self.new ≡ after_call self.old self.old.left) }
        ensures end_buf { OnEnd result (buf.new ≡ buf.old) }

        ensures some { IfBytes result (λ n. 1 ≤ n) }
        ensures count { IfBytes result (λ n.
            n ≡ min (min (length (bytes_left self.old)) (length buf.old)) self.old.most) }
        ensures bytes { IfBytes result (λ n.
            self.new ≡ after_call self.old (Some (drop n (bytes_left self.old)))) }
        ensures bytes_buf { IfBytes result (λ n.
            buf.new ≡ take n (bytes_left self.old) ++ drop n buf.old) }

        ensures faults { self.old.faults ≤ self.new.faults }
    {
        if self.calls.begin() {
            self.calls.raise();
            return Got::Failed;
        }
        let Reading { place, start } = self.reading.unwrap();
        let left = &self.files[place].bytes.items()[start..];
        let count = copy_front(buf, left, self.most);
        if count == 0 {
            return Got::End;
        }
        self.reading = Some(Reading {
            place,
            start: start + count,
        });
        Got::Bytes(count)
    }
}
