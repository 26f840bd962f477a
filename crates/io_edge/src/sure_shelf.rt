//! A shelf in memory that never fails.

ghost use Rattle.std.specs.Prelude.{◌≡◌, ◌≢◌, ◌≤◌, ◌<◌, [], ◌++◌, Some, None, is_some, length, take, drop, min, OnOk, OnErr, IsSome};
ghost use Rattle.io_edge.specs.Picked.{OnReady, OnAbsent};
ghost use Rattle.io_edge.specs.Got.{IfBytes, OnEnd};
ghost use Rattle.io_edge.specs.MemoryShelf.{file_named, Puts};
ghost use Rattle.io_edge.specs.SureShelf.{bytes_left};

use crate::memory_shelf::MemoryShelf;
use crate::shelf::{Got, Picked, Shelf};
use c_tokens::{List, Memory};
use std::alloc::Global;
use std::marker::Model;

/// A `MemoryShelf` of which no call fails.
#[derive(Debug, Drop)]
pub struct SureShelf {
    shelf: MemoryShelf,
}

impl Model for SureShelf {
    ghost use Rattle.io_edge.specs.SureShelf.{SureState};

    ghost Value = { SureState };

    ghost use Rattle.std.specs.Prelude.{◌≡◌, []};

    ghost view = { λ sure. record {
      files = sure.shelf.files;
      left = sure.shelf.left;
      most = sure.shelf.most;
    } };

    ghost invariant = { λ sure. sure.shelf.failing ≡ [] };
}

impl SureShelf {
    /// A shelf without files, which gives at most `most` bytes in one read.
    pub fn new(alloc: Global, most: usize) -> SureShelf
        requires { 1 ≤ most }
        ensures { result ≡ record { files = []; left = None; most = most } }
    {
        SureShelf {
            shelf: MemoryShelf::new(alloc, most, List::from_vec(Vec::new(alloc))),
        }
    }

    /// Puts the bytes under the name, in place of an earlier file of that name. No file is picked then.
    pub fn add_file(&mut self, name: &str, bytes: &[u8]) -> Result<(), Memory>
        ensures ok { OnOk result (Puts self.old.files name.now bytes.now self.new.files) }
        ensures kept { OnOk result (self.new ≡ record self.old { files = self.new.files; left = None }) }
        ensures err { OnErr result (self.new ≡ self.old) }
    {
        self.shelf.add_file(name, bytes)
    }
}

impl Shelf for SureShelf {
    ghost files = { λ sure. Some (file_named sure.files) };

    ghost picked = { λ sure. is_some sure.left };

    ghost left = { λ sure. sure.left };

    ghost faults = { λ _. 0 };

    fn pick(&mut self, name: &str) -> Picked
        ensures never_fails { result ≢ Picked.Failed }
        ensures there { OnReady result (IsSome (file_named self.old.files name.now)) }
        ensures not_there { OnAbsent result (file_named self.old.files name.now ≡ None) }
        ensures picked { self.new ≡ record self.old { left = file_named self.old.files name.now } }
    {
        self.shelf.pick(name)
    }

    fn read(&mut self, buf: &mut [u8]) -> Got
        requires picked { IsSome self.old.left }
        requires room { 0 < length buf.old }

        ensures never_fails { result ≢ Got.Failed }
        ensures no_more { OnEnd result (self.old.left ≡ Some []) }
        ensures end { OnEnd result (self.new ≡ self.old) }
        ensures end_buf { OnEnd result (buf.new ≡ buf.old) }

        ensures some { IfBytes result (λ n. 1 ≤ n) }
        ensures count { IfBytes result (λ n.
            n ≡ min (min (length (bytes_left self.old)) (length buf.old)) self.old.most) }
        ensures bytes { IfBytes result (λ n.
            self.new ≡ record self.old { left = Some (drop n (bytes_left self.old)) }) }
        ensures bytes_buf { IfBytes result (λ n.
            buf.new ≡ take n (bytes_left self.old) ++ drop n buf.old) }
    {
        self.shelf.read(buf)
    }
}
