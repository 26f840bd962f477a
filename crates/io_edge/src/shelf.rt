//! Shelves: files that are picked by name and read in pieces.

ghost use Rattle.std.specs.Prelude.{◌≡◌, ℕ, Bool, Option, Some, None, List, ◌≤◌, ◌<◌, ◌↔◌, ◌++◌, [], length, take, IsTrue, IsSome, IsSomeAnd, IfSome};
ghost use Rattle.io_edge.specs.Faults.{Rose};
ghost use Rattle.io_edge.specs.Files.{Files, file_at};
ghost use Rattle.io_edge.specs.Picked.{OnReady, OnAbsent, OnPickFailed};
ghost use Rattle.io_edge.specs.Got.{IfBytes, OnEnd, OnReadFailed};

/// What came of picking a file.
#[derive(Clone, Copy, Debug, PartialEq, Eq)]
pub enum Picked {
    Ready,
    Absent,
    Failed,
}

/// What came of one read: how many bytes, that there are no more, or a fault.
#[derive(Clone, Copy, Debug, PartialEq, Eq)]
pub enum Got {
    Bytes(usize),
    End,
    Failed,
}

/// A place where files stand, of which one at a time is read.
pub trait Shelf {
    /// The files by name, where the shelf tells them.
    ghost files: { Self → Files };

    /// Whether a file is picked.
    ghost picked: { Self → Bool };

    /// The bytes left of the picked file, where the shelf tells them.
    ghost left: { Self → Option (List ℕ) };

    /// How many faults there were.
    ghost faults: { Self → ℕ };

    /// Picks the file of this name, to be read from its start.
    fn pick(&mut self, name: &str) -> Picked
        ensures files { files self.new ≡ files self.old }
        ensures faults { faults self.old ≤ faults self.new }
        ensures picked { IsTrue (picked self.new) ↔ (result ≡ Picked.Ready) }

        // Where the files are told, Ready says that the named one is there, and that all of it is left.
        ensures ready { OnReady result (IfSome (file_at (files self.old) name.now) (λ file.
            IsSome file × (left self.new ≡ file))) }
        ensures told { OnReady result (IsSome (left self.old) → IsSome (left self.new)) }
        ensures absent { OnAbsent result (
            (file_at (files self.old) name.now ≡ Some None) × (faults self.new ≡ faults self.old)) }
        ensures failed { OnPickFailed result (Rose (faults self.old) (faults self.new)) };

    /// Reads the next bytes of the picked file to the front of the buffer.
    fn read(&mut self, buf: &mut [u8]) -> Got
        requires picked { IsTrue (picked self.old) }
        requires room { 0 < length buf.old }

        ensures files { files self.new ≡ files self.old }
        ensures faults { faults self.old ≤ faults self.new }
        ensures picked { IsTrue (picked self.new) }

        ensures count { IfBytes result (λ n. (1 ≤ n) × (n ≤ length buf.old)) }

        // The bytes left before are those that were read and then those left now.
        ensures bytes { IfBytes result (λ n. IfSome (left self.old) (λ bytes.
            IsSomeAnd (left self.new) (λ rest. bytes ≡ take n buf.new ++ rest))) }
        ensures end { OnEnd result (IfSome (left self.old) (λ bytes.
            (bytes ≡ []) × (left self.new ≡ Some []))) }
        ensures failed { OnReadFailed result (Rose (faults self.old) (faults self.new)) }
        ensures unread { OnReadFailed result (IfSome (left self.old) (λ bytes. left self.new ≡ Some bytes)) };
}
