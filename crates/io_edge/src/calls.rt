//! The calls of a device in memory, of which some are to fail.

ghost use Rattle.std.specs.Prelude.{◌≡◌, ◌≤◌, ◌↔◌, IsTrue, Contains};
ghost use Rattle.io_edge.specs.Faults.{one_more};

use c_tokens::List;

/// How many calls there were and how many of them failed. The calls of the given numbers, counted
/// from 1, are to fail.
#[derive(Debug, Drop)]
pub(crate) struct Calls {
    failing: List<u64>,
    made: u64,
    faults: u64,
}

impl Calls {
    pub(crate) fn new(failing: List<u64>) -> Calls
        ensures { result ≡ record { failing = failing; made = 0; faults = 0 } }
    {
        Calls {
            failing,
            made: 0,
            faults: 0,
        }
    }

    /// Counts a call, and says whether it is to fail.
    pub(crate) fn begin(&mut self) -> bool
        ensures counted { self.new ≡ record self.old { made = one_more self.old.made } }
        ensures fails { IsTrue result ↔ Contains self.old.failing (one_more self.old.made) }
    {
        self.made = self.made.saturating_add(1);
        self.failing.items().contains(&self.made)
    }

    /// Counts a fault.
    pub(crate) fn raise(&mut self)
        ensures counted { self.new ≡ record self.old { faults = one_more self.old.faults } }
        ensures rises { self.old.faults ≤ self.new.faults }
    {
        self.faults = self.faults.saturating_add(1);
    }
}
