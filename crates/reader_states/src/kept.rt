//! What a declaration has so far.

ghost use Rattle.std.specs.Prelude.{◌≡◌};
ghost use Rattle.c_reader.specs.States as states;
ghost use Rattle.reader_states.specs.Views.{kept_of, near_of};
ghost use Rattle.reader_states.specs.Scopes.{entries_at};

use c_tokens::Word;
use scope_tables::WordClass;

/// What stands next to a declarator's name.
#[derive(Drop)]
pub(crate) enum Near {
    Bare,
    /// parameters, with the words that they declare, the latest first
    Parameters(Vec<(Word, WordClass)>),
    Other,
}

/// What a declaration has so far (ISO/IEC 9899:1990, 6.5).
#[derive(Drop)]
pub(crate) struct Kept {
    pub(crate) is_typedef: bool,
    pub(crate) has_type: bool,
    /// whether its type specifier allows no other (6.5.2)
    pub(crate) is_sole: bool,
    /// the word that the declarator declares
    pub(crate) name: Option<Word>,
    pub(crate) near: Near,
    /// whether the declarator must be a function's (6.7.1)
    pub(crate) is_function_due: bool,
}

impl Kept {
    /// A declaration before its first specifier.
    pub(crate) fn nothing() -> Kept
        ensures { kept_of result ≡ states.nothing_kept }
    {
        Kept {
            is_typedef: false,
            has_type: false,
            is_sole: false,
            name: None,
            near: Near::Bare,
            is_function_due: false,
        }
    }

    /// Whether nothing stands next to the name.
    pub(crate) fn is_bare(&self) -> bool
        ensures { result ≡ states.is_bare (near_of self.now.near) }
    {
        match &self.near {
            Near::Bare => true,
            Near::Parameters(_) | Near::Other => false,
        }
    }

    /// Whether parameters stand next to the name.
    pub(crate) fn has_parameters(&self) -> bool
        ensures { result ≡ states.has_parameters (near_of self.now.near) }
    {
        match &self.near {
            Near::Parameters(_) => true,
            Near::Bare | Near::Other => false,
        }
    }
}

impl Near {
    /// Nothing that follows stands next to the name.
    pub(crate) fn sealed(self) -> Near
        ensures { near_of result ≡ states.sealed (near_of self) }
    {
        match self {
            Near::Bare => Near::Other,
            near => near,
        }
    }

    /// After parameters that declare these words.
    pub(crate) fn with_parameters(self, words: Vec<(Word, WordClass)>) -> Near
        ensures { near_of result ≡ states.with_parameters (entries_at words.items) (near_of self) }
    {
        match self {
            Near::Bare => Near::Parameters(words),
            near => near,
        }
    }
}
