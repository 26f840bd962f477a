//! A sink in memory, of which some calls fail.

ghost use Rattle.std.specs.Prelude.{◌≡◌, ◌≤◌, ◌<◌, ◌↔◌, [], Some, length, take, min, IfOk};
ghost use Rattle.io_edge.specs.MemorySink.{FailsNext, room_left, after_send, after_fault};
ghost use Rattle.io_edge.specs.Put.{IfTook, OnSendFailed};

use crate::calls::Calls;
use crate::sink::{Put, Sink};
use c_tokens::{List, Memory};
use std::alloc::Global;
use std::marker::Model;

/// A sink that keeps what it takes, up to a given number of bytes.
#[derive(Debug, Drop)]
pub struct MemorySink {
    bytes: Vec<u8>,
    room: usize,
    most: usize,
    calls: Calls,
}

impl Model for MemorySink {
    ghost use Rattle.io_edge.specs.MemorySink.{SinkState};

    ghost Value = { SinkState };

    ghost use Rattle.std.specs.Prelude.{◌≤◌, vec_len};
    ghost use Rattle.std.specs.Vec.{vec_capacity};

    ghost view = { λ sink. record {
      bytes = sink.bytes.items;
      room = sink.room;
      most = sink.most;
      failing = sink.calls.failing;
      calls = sink.calls.made;
      faults = sink.calls.faults;
    } };

    ghost invariant = { λ sink. (1 ≤ sink.most)
        × (vec_len sink.bytes ≤ sink.room) × (sink.room ≤ vec_capacity sink.bytes) };
}

impl MemorySink {
    /// An empty sink with room for `room` bytes, which takes at most `most` bytes in one send. The
    /// sends of the numbers in `failing` fail.
    pub fn new(
        alloc: Global,
        room: usize,
        most: usize,
        failing: List<u64>,
    ) -> Result<MemorySink, Memory>
        requires { 1 ≤ most }
        ensures { IfOk result (λ sink. sink ≡ record {
          bytes = [];
          room = room;
          most = most;
          failing = failing;
          calls = 0;
          faults = 0;
        }) }
    {
        Ok(MemorySink {
            bytes: Vec::with_capacity(alloc, room)?,
            room,
            most,
            calls: Calls::new(failing),
        })
    }

    /// All that was taken so far.
    pub fn held(&self) -> &[u8]
        ensures { result.now ≡ self.now.bytes }
    {
        &self.bytes
    }
}

impl Sink for MemorySink {
    ghost held = { λ sink. Some sink.bytes };

    ghost faults = { λ sink. sink.faults };

    fn send(&mut self, bytes: &[u8]) -> Put
        requires { 0 < length bytes.now }
        ensures fails { (result ≡ Put.Failed) ↔ FailsNext self.old }
        ensures failed { OnSendFailed result (self.new ≡ after_fault self.old) }
        ensures count { IfTook result (λ n.
            n ≡ min (min (length bytes.now) self.old.most) (room_left self.old)) }
        ensures took { IfTook result (λ n. self.new ≡ after_send self.old (take n bytes.now)) }

        // A count that stands in 64 bits doesn't fall, and each send that is taken takes a byte.
        ensures faults { self.old.faults ≤ self.new.faults }
        ensures some { IfTook result (λ n. (1 ≤ n) × (n ≤ length bytes.now)) }
    {
        let room = self.room - self.bytes.len();
        let fails = self.calls.begin();
        if fails || room == 0 {
            self.calls.raise();
            return Put::Failed;
        }
        let count = bytes.len().min(self.most).min(room);
        self.bytes.extend_from_slice(&bytes[..count]).unwrap();
        Put::Took(count)
    }
}
