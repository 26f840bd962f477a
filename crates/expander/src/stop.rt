//! Why the items were not all read.

use c_tokens::{Memory, Span};

/// Why a source was refused, with the bytes of the token that shows it.
#[derive(Clone, Copy, Debug, PartialEq, Eq)]
pub enum Stop {
    /// the first token that no item has there
    Syntax(Span),
    /// a token that each such item has too deep
    TooDeep(Span),
    /// a definition of a macro begins there
    NotBuilt(Span),
    Memory,
}

impl From<Memory> for Stop {
    ghost use Rattle.std.specs.Prelude.{◌≡◌};
    ghost use Rattle.expander.specs.declared.stop.Stop.TheVariants as variant;

    ghost from_gives = { λ _ e. e ≡ variant.Memory };

    fn from(_: Memory) -> Stop {
        Stop::Memory
    }
}
