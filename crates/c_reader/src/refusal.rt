//! Why no item is read.

/// Why no item is read. A token is known by its number among the tokens that are left.
#[derive(Clone, Copy, Debug, PartialEq, Eq)]
pub enum Refusal {
    /// memory was lacking
    Memory,
    /// no source has this token there
    Syntax(usize),
    /// each source that has this token there is more than 1,000 levels deep
    TooDeep(usize),
}
