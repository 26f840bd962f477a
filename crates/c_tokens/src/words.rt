//! Texts and their numbers.

ghost use Rattle.std.specs.Prelude.{◌≡◌, ℕ, ◌-◌, ◌^◌, ◌<◌, ◌↔◌, [], List, length, position, slice_get, bytes_eq, Some, IfOk, OnOk, OnErr, OnSome, IfSome, IsTrue, option_map};
ghost use Rattle.c_tokens.specs.Tokens.{with_text};
ghost use Rattle.std.specs.List.{IsDistinct};

use crate::memory::Memory;
use crate::token::Word;
use indexmap::IndexSet;
use std::alloc::{Allocator, Global};
use std::marker::Model;

/// Distinct texts, numbered in the order in which they were first seen. Contracts see it as the
/// list of the texts, in which a text's number is its place.
#[derive(Drop)]
pub struct Words {
    alloc: Global,
    texts: IndexSet<Vec<u8>>,
}

impl Model for Words {
    ghost use Rattle.std.specs.Prelude.{List, ℕ, ◌<◌, ◌^◌, length, map};
    ghost use Rattle.std.specs.Coded.{coded_list, coded_ℕ};

    ghost Value = { List (List ℕ) };

    ghost view = { λ w. map (λ text. text.items) w.texts.keys };

    ghost invariant = { λ w. length w.texts.keys < 2 ^ 32 };
}

impl Words {
    pub fn new(alloc: Global) -> Words
        ensures { result ≡ [] }
    {
        Words {
            alloc,
            texts: IndexSet::new(alloc),
        }
    }

    pub fn len(&self) -> usize
        ensures len { result ≡ length self.now }
        ensures distinct { IsDistinct bytes_eq self.now }
        ensures few { length self.now < 2 ^ 32 }
    {
        self.texts.len()
    }

    pub fn is_empty(&self) -> bool
        ensures { IsTrue result ↔ (length self.now ≡ 0) }
    {
        self.texts.is_empty()
    }

    /// The text's number. A new text gets the next one.
    pub fn number(&mut self, text: &[u8]) -> Result<Word, Memory>
        requires { length self.old < 2 ^ 32 - 1 }
        ensures number { IfOk result (λ w. position (bytes_eq text.now) self.new ≡ Some w.0) }
        ensures table { OnOk result (self.new ≡ with_text self.old text.now) }
        ensures err { OnErr result (self.new ≡ self.old) }
    {
        if let Some(at) = self.texts.get_index_of(text) {
            return Ok(Word(at as u32));
        }
        let owned = text.to_vec(self.alloc)?;
        let (at, _) = self.texts.insert_full(owned)?;
        Ok(Word(at as u32))
    }

    pub fn text(&self, word: Word) -> &[u8]
        requires { word.0 < length self.now }
        ensures { slice_get self.now word.0 ≡ Some result.now }
    {
        self.texts.as_slice()[word.0 as usize].as_slice()
    }

    pub fn find(&self, text: &[u8]) -> Option<Word>
        ensures { option_map (λ w. w.0) result ≡ position (bytes_eq text.now) self.now }
    {
        match self.texts.get_index_of(text) {
            Some(at) => Some(Word(at as u32)),
            None => None,
        }
    }
}
