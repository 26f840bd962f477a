//! What came of a run.

ghost use Rattle.std.specs.Prelude.{◌≡◌};
ghost use Rattle.ms2_top.specs.Statuses.{code_of};

/// What came of a run.
#[derive(Clone, Copy, Debug, PartialEq, Eq)]
pub enum Status {
    /// the text was written
    Done,
    /// the source has no reading
    Refused,
    /// the words are no command
    Usage,
    /// the file was not read
    Read,
    /// the text was not written, or only a part of it
    Write,
    /// there was no memory
    Memory,
    /// the file or the text is too large
    Limit,
}

impl Status {
    /// The exit status of the program.
    pub fn code(&self) -> u8
        ensures { result ≡ code_of self.now }
    {
        match self {
            Status::Done => 0,
            Status::Refused => 1,
            Status::Usage => 2,
            Status::Read => 4,
            Status::Write => 5,
            Status::Memory => 6,
            Status::Limit => 7,
        }
    }
}
