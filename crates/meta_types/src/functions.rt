//! The functions of a source.

ghost use Rattle.std.specs.Prelude.{◌≡◌, ◌+◌, ◌-◌, ◌^◌, ◌<◌, ◌↔◌, [], ◌∷◌, ◌++◌, Some, length, slice_get, option_map, IsTrue, IsSome, OnOk, OnErr, IfOk, IsErrOf};
ghost use Rattle.meta_types.specs.FunctionTable.{number_of, function};

use c_tokens::{FunctionNo, MetaType, Word};
use indexmap::IndexMap;
use std::alloc::Global;
use std::marker::Model;
use thiserror::Error;

/// Why a name was not added to a table.
#[derive(Clone, Copy, Debug, PartialEq, Eq, Error)]
pub enum AddStop {
    #[error("the name is taken")]
    Taken,
    #[error("out of memory")]
    Memory,
}

#[derive(Drop)]
struct Types {
    params: Vec<MetaType>,
    result: MetaType,
}

/// Functions with the types of their parameters and results. Contracts see it as the list of them,
/// in which a function's number is its place.
#[derive(Drop)]
pub struct Functions {
    functions: IndexMap<u32, Types>,
}

impl Model for Functions {
    ghost use Rattle.std.specs.Prelude.{List, ◌<◌, ◌^◌, length};
    ghost use Rattle.meta_types.specs.FunctionTable.{Function};
    ghost use Rattle.meta_types.specs.FunctionRows.{functions_in};

    ghost Value = { List Function };

    ghost view = { λ f. functions_in f.functions.entries };

    ghost invariant = { λ f. length f.functions.entries < 2 ^ 32 };
}

impl Functions {
    pub fn new(alloc: Global) -> Functions
        ensures { result ≡ [] }
    {
        Functions {
            functions: IndexMap::new(alloc),
        }
    }

    pub fn len(&self) -> usize
        ensures { result ≡ length self.now }
    {
        self.functions.len()
    }

    pub fn is_empty(&self) -> bool
        ensures { IsTrue result ↔ (length self.now ≡ 0) }
    {
        self.functions.is_empty()
    }

    /// Adds a function under the next number. A refusal drops the types of the parameters.
    pub fn add(
        &mut self,
        name: Word,
        params: Vec<MetaType>,
        given: MetaType,
    ) -> Result<FunctionNo, AddStop>
        requires { length self.old < 2 ^ 32 - 1 }
        ensures number { IfOk result (λ number. number.0 ≡ length self.old) }
        ensures added { OnOk result (self.new ≡ self.old ++ function name.0 params.items given ∷ []) }
        ensures taken { IsErrOf result AddStop.Taken ↔ IsSome (number_of name.0 self.old) }
        ensures err { OnErr result (self.new ≡ self.old) }
    {
        if self.functions.get_index_of(&name.0).is_some() {
            return Err(AddStop::Taken);
        }
        let number = self.functions.len();
        let types = Types {
            params,
            result: given,
        };
        match self.functions.insert(name.0, types) {
            Ok(_) => Ok(FunctionNo(number as u32)),
            Err(_) => Err(AddStop::Memory),
        }
    }

    pub fn by_word(&self, word: Word) -> Option<FunctionNo>
        ensures { option_map (λ number. number.0) result ≡ number_of word.0 self.now }
    {
        match self.functions.get_index_of(&word.0) {
            Some(number) => Some(FunctionNo(number as u32)),
            None => None,
        }
    }

    pub fn params(&self, number: FunctionNo) -> &[MetaType]
        requires { number.0 < length self.now }
        ensures { option_map (λ function. function.params) (slice_get self.now number.0) ≡ Some result.now }
    {
        self.types(number).params.as_slice()
    }

    pub fn result(&self, number: FunctionNo) -> MetaType
        requires { number.0 < length self.now }
        ensures { option_map (λ function. function.result) (slice_get self.now number.0) ≡ Some result }
    {
        self.types(number).result
    }

    fn types(&self, number: FunctionNo) -> &Types
        requires { number.0 < length self.now }
        ensures params { option_map (λ function. function.params) (slice_get self.now number.0) ≡ Some result.now.params.items }
        ensures result { option_map (λ function. function.result) (slice_get self.now number.0) ≡ Some result.now.result }
    {
        let (_, types) = self.functions.get_index(number.0 as usize).unwrap();
        types
    }
}
