//! The variables in scope.

ghost use Rattle.std.specs.Prelude.{◌≡◌, ◌<◌, [], ◌∷◌, length, not, is_some, OnOk, OnErr, IfOk, if◌then◌else◌};
ghost use Rattle.meta_types.specs.Scopes.{type_within, type_among, innermost, with_variable};
ghost use Rattle.meta_types.specs.Frames.{frames};

use c_tokens::{Memory, MetaType, Word};
use indexmap::IndexMap;
use std::alloc::Global;
use std::marker::Model;
use std::mem;

/// Variables with their types, in scopes that lie in one another. Contracts see it as the list of
/// the scopes, the innermost first.
#[derive(Drop)]
pub struct MetaScope {
    alloc: Global,
    inner: IndexMap<u32, MetaType>,
    outer: Vec<IndexMap<u32, MetaType>>,
}

impl Model for MetaScope {
    ghost use Rattle.std.specs.Prelude.{List, ◌∷◌};
    ghost use Rattle.meta_types.specs.Scopes.{Scope};
    ghost use Rattle.meta_types.specs.Frames.{frames};

    ghost Value = { List Scope };

    ghost view = { λ s. s.inner.entries ∷ frames s.outer.items };
}

impl MetaScope {
    /// One empty scope.
    pub fn new(alloc: Global) -> MetaScope
        ensures { result ≡ [] ∷ [] }
    {
        MetaScope {
            alloc,
            inner: IndexMap::new(alloc),
            outer: Vec::new(alloc),
        }
    }

    /// Opens a scope within the innermost.
    pub fn enter(&mut self) -> Result<(), Memory>
        ensures ok { OnOk result (self.new ≡ [] ∷ self.old) }
        ensures err { OnErr result (self.new ≡ self.old) }
    {
        self.outer.reserve(1)?;
        let inner = mem::replace(&mut self.inner, IndexMap::new(self.alloc));
        self.outer.push(inner).unwrap();
        Ok(())
    }

    /// Closes the innermost scope.
    pub fn leave(&mut self)
        requires { 1 < length self.old }
        ensures { self.old ≡ innermost self.old ∷ self.new }
    {
        if let Some(scope) = self.outer.pop() {
            self.inner = scope;
        }
    }

    /// Declares a variable in the innermost scope, and answers whether it was new there.
    pub fn declare(&mut self, word: Word, of: MetaType) -> Result<bool, Memory>
        ensures new { IfOk result (λ new. new ≡ not (is_some (type_within word.0 (innermost self.old)))) }
        ensures declared { IfOk result (λ new. self.new ≡ (if new then with_variable word.0 of self.old else self.old)) }
        ensures err { OnErr result (self.new ≡ self.old) }
    {
        if self.inner.contains_key(&word.0) {
            return Ok(false);
        }
        self.inner.insert(word.0, of)?;
        Ok(true)
    }

    /// The type of the innermost declaration of a variable.
    pub fn type_of(&self, word: Word) -> Option<MetaType>
        ensures { result ≡ type_among word.0 self.now }
    {
        if let Some(of) = self.inner.get(&word.0) {
            return Some(*of);
        }
        outer_type(&self.outer, word.0)
    }
}

/// The type of the innermost declaration of a variable in scopes of which the last is innermost.
fn outer_type(scopes: &[IndexMap<u32, MetaType>], word: u32) -> Option<MetaType>
    ensures { result ≡ type_among word (frames scopes.now) }
{
    let mut left = scopes.len();
    while left > 0 {
        left -= 1;
        if let Some(of) = scopes[left].get(&word) {
            return Some(*of);
        }
    }
    None
}
