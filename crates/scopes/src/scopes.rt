//! The scopes.

ghost use Rattle.std.specs.Prelude.{◌≡◌, ◌<◌, [], ◌∷◌, List, length, OnOk, OnErr, IfOk, IfErr};
ghost use Rattle.scope_tables.specs.Frames.{Frame, class_of, class_named, entered, left, declared, steps_in};
ghost use Rattle.scopes.specs.Events as events;
ghost use Rattle.scopes.specs.Settling.{settled, Scoped, Stops};
ghost use Rattle.scopes.specs.Steps.{IsLater};

use crate::event::WalkStop;
use crate::walk::walk;
use c_tokens::{Memory, Word};
use checked_trees::Item;
use scope_meanings::NameUse;
use scope_tables::{ScopeTable, WordClass};
use std::alloc::Global;
use std::marker::Model;
use std::mem;

/// The words that are declared in scopes that lie in one another (ISO/IEC 9899:1990, 6.1.2.1).
/// Contracts see the list of the scopes, the innermost first, and a scope as its declarations, the
/// latest first.
#[derive(Drop)]
pub struct Scopes {
    table: ScopeTable,
}

impl Model for Scopes {
    ghost use Rattle.std.specs.Prelude.{List};
    ghost use Rattle.scope_tables.specs.Frames.{Frame};

    ghost Value = { List Frame };

    ghost view = { λ s. s.table };
}

impl Scopes {
    /// One empty scope.
    pub fn new(alloc: Global) -> Scopes
        ensures { result ≡ [] ∷ [] }
    {
        Scopes {
            table: ScopeTable::new(alloc),
        }
    }

    /// Enters a scope within the innermost.
    pub fn enter(&mut self) -> Result<(), Memory>
        ensures ok { OnOk result (self.new ≡ entered self.old) }
        ensures err { OnErr result (self.new ≡ self.old) }
    {
        self.table.enter()
    }

    /// Leaves the innermost scope, with what is declared in it.
    pub fn leave(&mut self)
        requires { 1 < length self.old }
        ensures { self.new ≡ left self.old }
    {
        self.table.leave();
    }

    /// Declares a word in the innermost scope, as a type or as a value.
    pub fn declare(&mut self, word: Word, is_type: bool) -> Result<(), Memory>
        ensures ok { OnOk result (self.new ≡ declared word.0 (class_named is_type) self.old) }
        ensures err { OnErr result (self.new ≡ self.old) }
    {
        self.table.declare(word, is_type)
    }

    /// The class of the innermost declaration of a word. A word without a declaration is a value.
    pub fn class(&self, word: Word) -> WordClass
        ensures { result ≡ class_of word.0 self.now }
    {
        self.table.class(word)
    }

    /// The table of the scopes. One empty scope is left until they are put back.
    pub fn take(&mut self, alloc: Global) -> ScopeTable
        ensures { result ≡ self.old }
    {
        mem::replace(&mut self.table, ScopeTable::new(alloc))
    }

    /// The scopes of a table in place of these.
    pub fn put(&mut self, table: ScopeTable)
        ensures { self.new ≡ table }
    {
        self.table = table;
    }

    /// The same scopes once more.
    pub fn copy(&self) -> Result<Scopes, Memory>
        ensures { IfOk result (λ copy. copy ≡ self.now) }
    {
        Ok(Scopes {
            table: self.table.copy()?,
        })
    }

    /// Goes through the events of an external declaration, in source order. The first that does not hold is a clash.
    /// After a refusal the scopes are as before.
    pub fn walk_item(&mut self, item: &Item) -> Result<(), WalkStop>
        ensures ok { OnOk result (settled (events.events item.now) self.old ≡ Scoped self.new) }
        ensures clash { IfErr result (λ stop. Stops stop (settled (events.events item.now) self.old)) }
        ensures err { OnErr result (self.new ≡ self.old) }
    {
        let steps = self.table.steps();
        match walk(&mut self.table, item.tree(), NameUse::Nothing) {
            Ok(()) => Ok(()),
            Err(stop) => {
                back_to(&mut self.table, steps);
                Err(stop)
            }
        }
    }
}

/// Takes steps back until so many are left.
fn back_to(table: &mut ScopeTable, steps: usize)
    ensures { (old : List Frame) → IsLater old table.old → steps_in old ≡ steps → table.new ≡ old }
{
    while table.steps() > steps {
        let _entered = table.undo();
    }
}
