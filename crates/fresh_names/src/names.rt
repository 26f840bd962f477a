//! The words of a source, and the names that are made beside them.

ghost use Rattle.std.specs.Prelude.{◌≡◌, ℕ, List, ◌-◌, ◌^◌, ◌<◌, ◌↔◌, ◌++◌, [], Some, true, false, length, position, bytes_eq, unwrap_or, OnOk, OnErr, IfOk, IsErrOf};
ghost use Rattle.std.specs.Map.{lookup};
ghost use Rattle.c_tokens.specs.Spelling.{is_word};
ghost use Rattle.c_tokens.specs.Tokens.{with_text};
ghost use Rattle.indexmap.specs.IndexSet.{insert_key, spare};
ghost use Rattle.fresh_names.specs.Names.{is_among, fresh_name, has_fresh, least_free, IsLeastFree, TakenBelow, text_at, with_word, with_fresh};
ghost use Rattle.fresh_names.specs.Table.{AllTakenBelow};
ghost use Rattle.fresh_names.specs.Names as named;

use crate::identifier::is_name;
use crate::number::free_text;
use c_tokens::{MAX_WORD_BYTES, Memory, Word, Words};
use indexmap::{IndexMap, IndexSet};
use std::alloc::Global;
use std::marker::Model;

/// Why a name was not made.
#[derive(Clone, Copy, Debug, PartialEq, Eq)]
pub enum NameStop {
    /// It would be no identifier, or a keyword, or too long.
    BadName,
    /// It was given as a fresh name before.
    Taken,
    Memory,
}

/// Words, and which of them are fresh names. Contracts see it as the texts of the words and those
/// of the fresh names. For each base a number is kept below which none is free, so that the search
/// for the next fresh name of the base begins there.
#[derive(Drop)]
pub struct Names {
    alloc: Global,
    words: Words,
    fresh: IndexSet<Vec<u8>>,
    first: IndexMap<Vec<u8>, u32>,
}

impl Model for Names {
    ghost use Rattle.std.specs.Prelude.{map};
    ghost use Rattle.fresh_names.specs.Names.{NameTable};
    ghost use Rattle.fresh_names.specs.Table.{AllTakenBelow, AreKnown};

    ghost Value = { NameTable };

    ghost view = { λ n. record { texts = n.words; fresh = map (λ text. text.items) n.fresh.keys } };

    ghost invariant = { λ n. AreKnown (map (λ text. text.items) n.fresh.keys) n.words × AllTakenBelow (λ base. base.items) n.words n.first.entries };
}

impl Names {
    /// The words of a source, of which none is fresh.
    pub fn of(alloc: Global, words: Words) -> Names
        ensures texts { result.texts ≡ words }
        ensures fresh { result.fresh ≡ [] }
    {
        Names {
            alloc,
            words,
            fresh: IndexSet::new(alloc),
            first: IndexMap::new(alloc),
        }
    }

    pub fn words(&self) -> &Words
        ensures { result.now ≡ self.now.texts }
    {
        &self.words
    }

    pub fn into_words(self) -> Words
        ensures { result ≡ self.texts }
    {
        let Names {
            alloc: _,
            words,
            fresh: _,
            first: _,
        } = self;
        words
    }

    /// The word of a number or a literal, which is no name.
    pub fn constant(&mut self, text: &[u8]) -> Result<Word, Memory>
        requires few { length self.old.texts < 2 ^ 32 - 1 }
        requires no_word { is_word text.now ≡ false }
        ensures word { IfOk result (λ word. position (bytes_eq text.now) self.new.texts ≡ Some word.0) }
        ensures names { OnOk result (self.new ≡ with_word self.old text.now) }
        ensures apart { is_among text.now self.old.fresh ≡ false }
        ensures err { OnErr result (self.new ≡ self.old) }
    {
        self.words.number(text)
    }

    /// The word of a text that a macro gives as a name.
    pub fn make(&mut self, text: &[u8]) -> Result<Word, NameStop>
        requires { length self.old.texts < 2 ^ 32 - 1 }
        ensures bad_name { IsErrOf result NameStop.BadName ↔ (named.is_name text.now ≡ false) }
        ensures taken { IsErrOf result NameStop.Taken ↔ ((named.is_name text.now ≡ true) × (is_among text.now self.old.fresh ≡ true)) }
        ensures good_name { OnOk result (named.is_name text.now ≡ true) }
        ensures apart { OnOk result (is_among text.now self.old.fresh ≡ false) }
        ensures word { IfOk result (λ word. position (bytes_eq text.now) self.new.texts ≡ Some word.0) }
        ensures names { OnOk result (self.new ≡ with_word self.old text.now) }
        ensures err { OnErr result (self.new ≡ self.old) }
    {
        if !is_name(text) {
            return Err(NameStop::BadName);
        }
        if self.fresh.contains(text) {
            return Err(NameStop::Taken);
        }
        number(&mut self.words, text)
    }

    /// The word of a name with a text behind it.
    pub fn join(&mut self, word: Word, ending: &[u8]) -> Result<Word, NameStop>
        requires few { length self.old.texts < 2 ^ 32 - 1 }
        requires known { word.0 < length self.old.texts }
        ensures bad_name { IsErrOf result NameStop.BadName → named.is_name (text_at self.old.texts word.0 ++ ending.now) ≡ false }
        ensures good_name { OnOk result (named.is_name (text_at self.old.texts word.0 ++ ending.now) ≡ true) }
        ensures taken { IsErrOf result NameStop.Taken → is_among (text_at self.old.texts word.0 ++ ending.now) self.old.fresh ≡ true }
        ensures taken_name { IsErrOf result NameStop.Taken → named.is_name (text_at self.old.texts word.0 ++ ending.now) ≡ true }
        ensures apart { OnOk result (is_among (text_at self.old.texts word.0 ++ ending.now) self.old.fresh ≡ false) }
        ensures word { IfOk result (λ made. position (bytes_eq (text_at self.old.texts word.0 ++ ending.now)) self.new.texts ≡ Some made.0) }
        ensures names { OnOk result (self.new ≡ with_word self.old (text_at self.old.texts word.0 ++ ending.now)) }
        ensures err { OnErr result (self.new ≡ self.old) }
    {
        match joined(self.alloc, self.words.text(word), ending) {
            Ok(text) => self.make(&text),
            Err(_) => Err(NameStop::Memory),
        }
    }

    /// The word of a new name: the base, `_` and the least number with which the text is no word yet.
    pub fn fresh(&mut self, base: &[u8]) -> Result<Word, NameStop>
        requires { length self.old.texts < 2 ^ 32 - 1 }
        ensures bad_name { IsErrOf result NameStop.BadName → has_fresh base.now self.old.texts ≡ false }
        ensures good_name { OnOk result (has_fresh base.now self.old.texts ≡ true) }
        ensures not_taken { IsErrOf result NameStop.Taken → ⊥ }
        ensures least { IsLeastFree base.now self.old.texts (least_free base.now self.old.texts) }
        ensures word { IfOk result (λ word. position (bytes_eq (fresh_name base.now self.old.texts)) self.new.texts ≡ Some word.0) }
        ensures names { OnOk result (self.new ≡ with_fresh self.old (fresh_name base.now self.old.texts)) }
        ensures apart { OnOk result (is_among (fresh_name base.now self.old.texts) self.old.fresh ≡ false) }
        ensures err { OnErr result (self.new ≡ self.old) }
    {
        if !is_name(base) {
            return Err(NameStop::BadName);
        }
        let first = first_number(&self.first, base);
        let (text, number) = match free_text(self.alloc, &self.words, base, first) {
            Ok(found) => found,
            Err(_) => return Err(NameStop::Memory),
        };
        if text.len() > MAX_WORD_BYTES {
            return Err(NameStop::BadName);
        }
        self.give(base, text, number)
    }

    /// Adds a text of a base as a fresh name.
    fn give(&mut self, base: &[u8], text: Vec<u8>, number: u32) -> Result<Word, NameStop>
        requires few { length self.old.texts < 2 ^ 32 - 1 }
        requires word { is_word text.items ≡ true }
        requires numbered { text.items ≡ named.numbered base.now number }
        requires least { IsLeastFree base.now self.old.texts number }
        ensures bad_name { IsErrOf result NameStop.BadName → ⊥ }
        ensures not_taken { IsErrOf result NameStop.Taken → ⊥ }
        ensures word { IfOk result (λ word. position (bytes_eq text.items) self.new.texts ≡ Some word.0) }
        ensures names { OnOk result (self.new ≡ with_fresh self.old text.items) }
        ensures err { OnErr result (self.new ≡ self.old) }
    {
        match keep_first(self.alloc, &mut self.first, base, number) {
            Ok(()) => self.put(text),
            Err(_) => Err(NameStop::Memory),
        }
    }

    /// Adds a text as a word and as a fresh name.
    fn put(&mut self, text: Vec<u8>) -> Result<Word, NameStop>
        requires few { length self.old.texts < 2 ^ 32 - 1 }
        requires word { is_word text.items ≡ true }
        requires new { is_among text.items self.old.texts ≡ false }
        ensures bad_name { IsErrOf result NameStop.BadName → ⊥ }
        ensures not_taken { IsErrOf result NameStop.Taken → ⊥ }
        ensures word { IfOk result (λ word. position (bytes_eq text.items) self.new.texts ≡ Some word.0) }
        ensures names { OnOk result (self.new ≡ with_fresh self.old text.items) }
        ensures err { OnErr result (self.new ≡ self.old) }
    {
        if self.fresh.reserve(1).is_err() {
            return Err(NameStop::Memory);
        }
        match self.words.number(&text) {
            Ok(word) => {
                insert(&mut self.fresh, text);
                Ok(word)
            }
            Err(_) => Err(NameStop::Memory),
        }
    }
}

/// Inserts a text where there is room for it.
fn insert(texts: &mut IndexSet<Vec<u8>>, text: Vec<u8>)
    requires { 0 < spare texts.old }
    ensures { texts.new.keys ≡ insert_key (λ a b. bytes_eq a.items b.items) texts.old.keys text }
{
    texts.insert(text).unwrap();
}

/// The word of a text.
fn number(words: &mut Words, text: &[u8]) -> Result<Word, NameStop>
    requires { length words.old < 2 ^ 32 - 1 }
    ensures bad_name { IsErrOf result NameStop.BadName → ⊥ }
    ensures not_taken { IsErrOf result NameStop.Taken → ⊥ }
    ensures word { IfOk result (λ word. position (bytes_eq text.now) words.new ≡ Some word.0) }
    ensures table { OnOk result (words.new ≡ with_text words.old text.now) }
    ensures err { OnErr result (words.new ≡ words.old) }
{
    match words.number(text) {
        Ok(word) => Ok(word),
        Err(_) => Err(NameStop::Memory),
    }
}

/// The number that is kept for a base, below which none is free.
fn first_number(kept: &IndexMap<Vec<u8>, u32>, base: &[u8]) -> u32
    ensures { result ≡ unwrap_or (lookup (λ key. bytes_eq base.now key.items) kept.now.entries) 0 }
{
    match kept.get(base) {
        Some(number) => *number,
        None => 0,
    }
}

/// Keeps a number for a base.
fn keep_first(
    alloc: Global,
    kept: &mut IndexMap<Vec<u8>, u32>,
    base: &[u8],
    number: u32,
) -> Result<(), Memory>
    ensures kept { (texts : List (List ℕ)) → AllTakenBelow (λ key. key.items) texts kept.old.entries → TakenBelow base.now texts number → AllTakenBelow (λ key. key.items) texts kept.new.entries }
{
    let key = base.to_vec(alloc)?;
    kept.insert(key, number)?;
    Ok(())
}

fn joined(alloc: Global, start: &[u8], ending: &[u8]) -> Result<Vec<u8>, Memory>
    ensures { IfOk result (λ text. text.items ≡ start.now ++ ending.now) }
{
    let mut text = start.to_vec(alloc)?;
    text.extend_from_slice(ending)?;
    Ok(text)
}
