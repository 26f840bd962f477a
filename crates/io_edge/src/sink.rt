//! Sinks: where bytes are sent to.

ghost use Rattle.std.specs.Prelude.{ℕ, Option, List, [], ◌≤◌, ◌<◌, length, take};
ghost use Rattle.io_edge.specs.Faults.{Rose};
ghost use Rattle.io_edge.specs.Put.{IfTook, OnSendFailed, Appends};

/// What came of one send: how many bytes were taken, or a fault.
#[derive(Clone, Copy, Debug, PartialEq, Eq)]
pub enum Put {
    Took(usize),
    Failed,
}

/// A place that takes bytes, one piece after the other.
pub trait Sink {
    /// The bytes that the sink holds, where it tells them.
    ghost held: { Self → Option (List ℕ) };

    /// How many faults there were.
    ghost faults: { Self → ℕ };

    /// Sends a piece, of which the sink may take a part.
    fn send(&mut self, bytes: &[u8]) -> Put
        requires { 0 < length bytes.now }
        ensures faults { faults self.old ≤ faults self.new }
        ensures count { IfTook result (λ n. (1 ≤ n) × (n ≤ length bytes.now)) }
        ensures took { IfTook result (λ n. Appends (held self.old) (take n bytes.now) (held self.new)) }
        ensures failed { OnSendFailed result (Rose (faults self.old) (faults self.new)) }
        ensures unsent { OnSendFailed result (Appends (held self.old) [] (held self.new)) };
}
