//! Standard output, standard error and files as a sink.

ghost use Rattle.std.specs.Prelude.{◌≡◌, ◌≤◌, ◌<◌, None, length};
ghost use Rattle.io_edge.specs.Faults.{one_more};
ghost use Rattle.io_edge.specs.Put.{IfTook, OnSendFailed};

use crate::sink::{Put, Sink};
use std::io::Write;
use std::marker::Model;

/// A writer of the system as a sink: standard output, standard error or a file. It tells no bytes, and a
/// write that takes nothing is a failure.
#[derive(Drop)]
pub struct StdSink<W> {
    writer: W,
    faults: u64,
}

impl<W> Model for StdSink<W> {
    ghost use Rattle.std.specs.Prelude.{ℕ};

    ghost Value = { ℕ };

    ghost view = { λ sink. sink.faults };
}

impl<W> StdSink<W> {
    /// A sink that hands each piece to this writer.
    pub fn new(writer: W) -> StdSink<W>
        ensures { result ≡ 0 }
    {
        StdSink { writer, faults: 0 }
    }
}

impl<W: Write> Sink for StdSink<W> {
    ghost held = { λ _. None };

    ghost faults = { λ sink. sink };

    fn send(&mut self, bytes: &[u8]) -> Put
        requires { 0 < length bytes.now }
        ensures count { IfTook result (λ n. (1 ≤ n) × (n ≤ length bytes.now)) }
        ensures took { IfTook result (λ n. self.new ≡ self.old) }
        ensures failed { OnSendFailed result (self.new ≡ one_more self.old) }
        ensures faults { self.old ≤ self.new }
    {
        match self.writer.write(bytes) {
            Ok(count) if count > 0 => Put::Took(count),
            _ => {
                self.faults = self.faults.saturating_add(1);
                Put::Failed
            }
        }
    }
}
