//! The words that are declared.

ghost use Rattle.std.specs.Prelude.{◌≡◌, ◌<◌, [], ◌∷◌, length, OnOk, OnErr, IfOk};
ghost use Rattle.scope_tables.specs.Frames.{class_of, class_named, entered, left, declared, undone, steps_in, is_bare, words_in, innermost};

use c_tokens::{Memory, Word};
use indexmap::IndexMap;
use std::alloc::Global;
use std::marker::Model;

/// What a word stands for where it is no keyword: a type (ISO/IEC 9899:1990, 6.5.6) or anything
/// else.
#[derive(Clone, Copy, Debug, PartialEq, Eq)]
pub enum WordClass {
    TypeName,
    Value,
}

/// What happened to the scopes, with what takes it back.
#[derive(Clone, Copy, Debug, PartialEq, Eq)]
enum Step {
    Entered,
    Declared {
        word: u32,
        class: WordClass,
        before: WordClass,
    },
}

/// The words that are declared in scopes that lie in one another (ISO/IEC 9899:1990, 6.1.2.1).
/// Contracts see the list of the scopes, the innermost first, and a scope as its declarations, the
/// latest first.
#[derive(Drop)]
pub struct ScopeTable {
    classes: IndexMap<u32, WordClass>,
    log: Vec<Step>,
}

impl Model for ScopeTable {
    ghost use Rattle.std.specs.Prelude.{List, reverse};
    ghost use Rattle.scope_tables.specs.Frames.{Frame};
    ghost use Rattle.scope_tables.specs.Log.{frames_from, IsKept};

    ghost Value = { List Frame };

    ghost view = { λ s. frames_from (reverse s.log.items) };

    ghost invariant = { λ s. IsKept s.classes.entries (reverse s.log.items) };
}

impl ScopeTable {
    /// One empty scope.
    pub fn new(alloc: Global) -> ScopeTable
        ensures { result ≡ [] ∷ [] }
    {
        ScopeTable {
            classes: IndexMap::new(alloc),
            log: Vec::new(alloc),
        }
    }

    /// Enters a scope within the innermost.
    pub fn enter(&mut self) -> Result<(), Memory>
        ensures ok { OnOk result (self.new ≡ entered self.old) }
        ensures err { OnErr result (self.new ≡ self.old) }
    {
        self.log.push(Step::Entered)?;
        Ok(())
    }

    /// Leaves the innermost scope, with what is declared in it.
    pub fn leave(&mut self)
        requires { 1 < length self.old }
        ensures { self.new ≡ left self.old }
    {
        while !self.undo() {}
    }

    /// Declares a word in the innermost scope, as a type or as a value.
    pub fn declare(&mut self, word: Word, is_type: bool) -> Result<(), Memory>
        ensures ok { OnOk result (self.new ≡ declared word.0 (class_named is_type) self.old) }
        ensures err { OnErr result (self.new ≡ self.old) }
    {
        let class = if is_type {
            WordClass::TypeName
        } else {
            WordClass::Value
        };
        self.put(word, class)
    }

    /// Declares a word in the innermost scope.
    pub fn put(&mut self, word: Word, class: WordClass) -> Result<(), Memory>
        ensures ok { OnOk result (self.new ≡ declared word.0 class self.old) }
        ensures err { OnErr result (self.new ≡ self.old) }
    {
        self.log.reserve(1)?;
        let before = self.class(word);
        self.classes.insert(word.0, class)?;
        self.log.push_reserved(Step::Declared {
            word: word.0,
            class,
            before,
        });
        Ok(())
    }

    /// The class of the innermost declaration of a word. A word without a declaration is a value.
    pub fn class(&self, word: Word) -> WordClass
        ensures { result ≡ class_of word.0 self.now }
    {
        match self.classes.get(&word.0) {
            Some(class) => *class,
            None => WordClass::Value,
        }
    }

    /// The words that are declared in the innermost scope, the latest first.
    pub fn innermost(&self, alloc: Global) -> Result<Vec<(Word, WordClass)>, Memory>
        ensures { IfOk result (λ words. words.items ≡ words_in (innermost self.now)) }
    {
        let mut words = Vec::new(alloc);
        let mut at = self.log.len();
        while at > 0 {
            at -= 1;
            match self.log[at] {
                Step::Declared { word, class, .. } => words.push((Word(word), class))?,
                Step::Entered => return Ok(words),
            }
        }
        Ok(words)
    }

    /// The same scopes once more.
    pub fn copy(&self) -> Result<ScopeTable, Memory>
        ensures { IfOk result (λ copy. copy ≡ self.now) }
    {
        Ok(ScopeTable {
            classes: self.classes.clone()?,
            log: self.log.clone()?,
        })
    }

    /// The number of steps from one empty scope.
    #[tactic(auto, using(crate::proofs::Kept::steps_in_view, crate::proofs::Kept::deep_view))]
    pub fn steps(&self) -> usize
        ensures steps { result ≡ steps_in self.now }
        ensures deep { 0 < length self.now }
    {
        self.log.len()
    }

    /// Takes back the last step, and answers whether a scope was entered by it.
    pub fn undo(&mut self) -> bool
        requires { 0 < steps_in self.old }
        ensures undone { self.new ≡ undone self.old }
        ensures entered { result ≡ is_bare self.old }
    {
        match self.log.pop() {
            Some(Step::Declared { word, before, .. }) => {
                let _ = self.classes.insert(word, before);
                false
            }
            _ => true,
        }
    }
}
