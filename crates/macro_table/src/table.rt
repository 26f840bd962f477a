//! Macros by name and by number.

ghost use Rattle.std.specs.Prelude.{◌≡◌, ◌+◌, ◌-◌, ◌^◌, ◌<◌, ◌↔◌, [], ◌∷◌, ◌++◌, Some, length, slice_get, option_map, IsTrue, IsSome, OnOk, OnErr, IfOk, IsErrOf};

use c_tokens::{MacroNo, MetaType, Word};
use indexmap::IndexMap;
use meta_types::AddStop;
use pattern_language::Fit;
use std::alloc::Global;
use std::marker::Model;

/// A result and a pattern that was checked for it.
#[derive(Drop)]
struct Entry {
    result: MetaType,
    fit: Fit,
    ghost checked: { fit.result_type ≡ result },
}

/// Macros with their results and patterns. Contracts see it as the list of them, in which a
/// macro's number is its place.
#[derive(Drop)]
pub struct MacroTable {
    macros: IndexMap<u32, Entry>,
}

impl Model for MacroTable {
    ghost use Rattle.std.specs.Prelude.{List, ◌<◌, ◌^◌, length};
    ghost use Rattle.macro_table.specs.Macros.{Macro};
    ghost use Rattle.macro_table.specs.MacroRows.{macros_in};
    ghost use Rattle.c_tokens.specs.contracts.element.Element as element;
    ghost use Rattle.std.specs.Coded.{codes};

    ghost Value = { List Macro };

    ghost coded = { Prim.hlevel (codes, element.the_row.coded) };

    ghost view = { λ t. macros_in t.macros.entries };

    ghost invariant = { λ t. length t.macros.entries < 2 ^ 32 };
}

impl MacroTable {
    ghost use Rattle.macro_table.specs.Macros.{number_of, macro_of};

    pub fn new(alloc: Global) -> MacroTable
        ensures { result ≡ [] }
    {
        MacroTable {
            macros: IndexMap::new(alloc),
        }
    }

    pub fn len(&self) -> usize
        ensures { result ≡ length self.now }
    {
        self.macros.len()
    }

    pub fn is_empty(&self) -> bool
        ensures { IsTrue result ↔ (length self.now ≡ 0) }
    {
        self.macros.is_empty()
    }

    /// Adds a macro under the next number. A refusal drops the pattern.
    pub fn add(&mut self, name: Word, given: MetaType, fit: Fit) -> Result<MacroNo, AddStop>
        requires few { length self.old < 2 ^ 32 - 1 }
        requires checked { fit.result_type ≡ given }
        ensures number { IfOk result (λ number. number.0 ≡ length self.old) }
        ensures added { OnOk result (self.new ≡ self.old ++ macro_of name.0 given fit ∷ []) }
        ensures taken { IsErrOf result AddStop.Taken ↔ IsSome (number_of name.0 self.old) }
        ensures err { OnErr result (self.new ≡ self.old) }
    {
        if self.macros.get_index_of(&name.0).is_some() {
            return Err(AddStop::Taken);
        }
        let number = self.macros.len();
        let entry = Entry { result: given, fit };
        match self.macros.insert(name.0, entry) {
            Ok(_) => Ok(MacroNo(number as u32)),
            Err(_) => Err(AddStop::Memory),
        }
    }

    pub fn by_word(&self, word: Word) -> Option<MacroNo>
        ensures { option_map (λ number. number.0) result ≡ number_of word.0 self.now }
    {
        match self.macros.get_index_of(&word.0) {
            Some(number) => Some(MacroNo(number as u32)),
            None => None,
        }
    }

    pub fn name(&self, number: MacroNo) -> Word
        requires { number.0 < length self.now }
        ensures { option_map (λ m. m.name) (slice_get self.now number.0) ≡ Some result.0 }
    {
        let (name, _) = self.macros.get_index(number.0 as usize).unwrap();
        Word(*name)
    }

    pub fn result(&self, number: MacroNo) -> MetaType
        requires { number.0 < length self.now }
        ensures { option_map (λ m. m.result) (slice_get self.now number.0) ≡ Some result }
    {
        self.entry(number).result
    }

    /// The pattern of a macro, which was checked for its result.
    pub fn fit(&self, number: MacroNo) -> &Fit
        requires { number.0 < length self.now }
        ensures fit { option_map (λ m. m.fit) (slice_get self.now number.0) ≡ Some result.now }
        ensures checked { option_map (λ m. m.result) (slice_get self.now number.0) ≡ Some result.now.result_type }
    {
        &self.entry(number).fit
    }

    fn entry(&self, number: MacroNo) -> &Entry
        requires { number.0 < length self.now }
        ensures result { option_map (λ m. m.result) (slice_get self.now number.0) ≡ Some result.now.result }
        ensures fit { option_map (λ m. m.fit) (slice_get self.now number.0) ≡ Some result.now.fit }
    {
        let (_, entry) = self.macros.get_index(number.0 as usize).unwrap();
        entry
    }
}
