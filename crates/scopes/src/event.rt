//! What happens to scopes, and why a walk through it stops.

use c_tokens::{Span, Word};
use scope_tables::WordClass;

/// What happens to the scopes (ISO/IEC 9899:1990, 6.1.2.1) at a place of a tree.
#[derive(Clone, Copy, Debug, PartialEq, Eq)]
pub enum Event {
    /// a scope begins
    Enter,
    /// the innermost scope ends
    Leave,
    /// the word must have this class by its innermost declaration
    Must {
        word: Word,
        wanted: WordClass,
        span: Span,
    },
    /// the word is declared in the innermost scope
    Declare {
        word: Word,
        class: WordClass,
    },
}

/// Why a walk stopped.
#[derive(Clone, Copy, Debug, PartialEq, Eq)]
pub enum WalkStop {
    /// A word has another class than the one that it must have where it stands.
    Clash {
        word: Word,
        wanted: WordClass,
        found: WordClass,
        span: Span,
    },
    Memory,
}
