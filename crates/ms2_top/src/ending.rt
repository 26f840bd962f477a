//! How a run over a file ends.

ghost use Rattle.std.specs.Prelude.{◌≡◌, ◌≢◌};
ghost use Rattle.ms2_top.specs.Endings.{status_of};

use crate::status::Status;
use c_tokens::{LexCause, Place};

/// How a run over a file ended.
#[derive(Clone, Copy, Debug, PartialEq, Eq)]
pub enum Ending {
    Done,
    Refused(Refusal),
    Read,
    Write,
    Memory,
    /// the file is too large
    FileTooLarge,
    /// the text is too large
    TextTooLarge,
}

/// Where a source is refused, and why.
#[derive(Clone, Copy, Debug, PartialEq, Eq)]
pub struct Refusal {
    pub place: Place,
    pub reason: Reason,
}

/// Why a source is refused.
#[derive(Clone, Copy, Debug, PartialEq, Eq)]
pub enum Reason {
    /// no tokens: they are spoiled there
    Lex(LexCause),
    /// no item has that token there
    Syntax,
    /// each item that has that token there is too deep
    TooDeep,
    /// a definition begins there
    NotBuilt,
}

impl Ending {
    pub fn status(&self) -> Status
        ensures status { result ≡ status_of self.now }
        ensures command { result ≢ Status.Usage }
    {
        match self {
            Ending::Done => Status::Done,
            Ending::Refused(_) => Status::Refused,
            Ending::Read => Status::Read,
            Ending::Write => Status::Write,
            Ending::Memory => Status::Memory,
            Ending::FileTooLarge | Ending::TextTooLarge => Status::Limit,
        }
    }
}
