//! A sink that takes all and keeps nothing.

ghost use Rattle.std.specs.Prelude.{◌≡◌, ◌<◌, None, length};

use crate::sink::{Put, Sink};

/// A sink that takes each piece whole, keeps no bytes and never fails.
#[derive(Clone, Copy, Debug, Default, PartialEq, Eq)]
pub struct SureSink;

impl SureSink {
    /// A sink that stands for any place where writing never fails.
    pub fn new() -> SureSink {
        SureSink
    }
}

impl Sink for SureSink {
    ghost held = { λ _. None };

    ghost faults = { λ _. 0 };

    fn send(&mut self, bytes: &[u8]) -> Put
        requires { 0 < length bytes.now }
        ensures { result ≡ Put.Took (length bytes.now) }
    {
        Put::Took(bytes.len())
    }
}
