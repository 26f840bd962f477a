//! Sending bytes to a sink.

ghost use Rattle.std.specs.Prelude.{◌≡◌, ◌≤◌, [], take, OnOk, OnErr, SomeIndex};
ghost use Rattle.io_edge.specs.Faults.{Rose};
ghost use Rattle.io_edge.specs.Put.{Appends};

use crate::sink::{Put, Sink};

/// The sink failed before it had taken all bytes.
#[derive(Clone, Copy, Debug, PartialEq, Eq)]
pub struct WriteFault;

/// Sends all bytes, in as many pieces as the sink asks for. It takes no memory.
pub fn put_all<O: Sink>(sink: &mut O, bytes: &[u8]) -> Result<(), WriteFault>
    ensures all { OnOk result (Appends (O.held sink.old) bytes.now (O.held sink.new)) }

    // After a fault the sink holds a part of the bytes, from the first on.
    ensures part { OnErr result (SomeIndex bytes.now (λ n.
        Appends (O.held sink.old) (take n bytes.now) (O.held sink.new))) }
    ensures fault { OnErr result (Rose (O.faults sink.old) (O.faults sink.new)) }
    ensures faults { O.faults sink.old ≤ O.faults sink.new }
    ensures nothing { bytes.now ≡ [] → sink.new ≡ sink.old }
{
    let mut sent = 0;
    while sent < bytes.len() {
        match sink.send(&bytes[sent..]) {
            Put::Took(count) => sent += count,
            Put::Failed => return Err(WriteFault),
        }
    }
    Ok(())
}
