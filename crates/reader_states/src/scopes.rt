//! The words that are known, and the scopes that an attempt takes back.

ghost use Rattle.std.specs.Prelude.{true, false, ◌≡◌, ◌<◌, ◌≤◌, ◌++◌, [], ◌∷◌, ℕ, length, reverse, OnOk, OnErr, IfOk};
ghost use Rattle.scope_tables.specs.Frames.{steps_in};
ghost use Rattle.c_reader.specs.States as states;
ghost use Rattle.reader_states.specs.Scopes as known;

use c_tokens::{Memory, Word};
use scope_tables::{ScopeTable, WordClass};
use std::alloc::Global;
use std::marker::Model;

/// The words that are known where a token stands. Contracts see them as entries, with whether
/// statements have begun there, and the scopes as they stood before the attempt.
#[derive(Drop)]
pub(crate) struct Scopes {
    table: ScopeTable,
    /// whether statements had begun outside of each scope that the attempt entered
    lates: Vec<bool>,
    is_late: bool,
    /// the steps that had led to the table before
    steps: usize,
    /// the table as it was before, once a scope is left that the attempt did not enter
    put_by: Option<ScopeTable>,
}

impl Model for Scopes {
    ghost use Rattle.std.specs.Prelude.{length, reverse};
    ghost use Rattle.reader_states.specs.Scopes.{Known, entries_of, before_in, IsKept};

    ghost Value = { Known };

    ghost view = { λ s. record { entries = entries_of s.table (reverse s.lates.items); is_late = s.is_late; before = before_in s.put_by s.steps s.table } };

    ghost invariant = { λ s. IsKept s.put_by s.steps (length s.lates.items) s.table };
}

impl Scopes {
    /// The scopes of a table, before statements.
    pub(crate) fn new(alloc: Global, table: ScopeTable) -> Scopes
        ensures { result ≡ record { entries = known.entries_of table []; is_late = false; before = table } }
    {
        let steps = table.steps();
        Scopes {
            table,
            lates: Vec::new(alloc),
            is_late: false,
            steps,
            put_by: None,
        }
    }

    /// The table as it was before.
    pub(crate) fn take_back(self) -> ScopeTable
        ensures { result ≡ self.before }
    {
        let Scopes {
            mut table,
            steps,
            put_by,
            ..
        } = self;
        match put_by {
            Some(before) => before,
            None => {
                undo_to(&mut table, steps);
                table
            }
        }
    }

    /// Enters a scope within the innermost.
    pub(crate) fn enter(&mut self) -> Result<(), Memory>
        ensures ok { OnOk result (self.new ≡ known.entered self.old) }
        ensures err { OnErr result (self.new.before ≡ self.old.before) }
    {
        self.lates.reserve(1)?;
        self.table.enter()?;
        self.lates.push_reserved(self.is_late);
        self.is_late = false;
        Ok(())
    }

    /// Leaves the innermost scope.
    pub(crate) fn leave(&mut self) -> Result<(), Memory>
        ensures ok { OnOk result (self.new ≡ known.left self.old) }
        ensures err { OnErr result (self.new.before ≡ self.old.before) }
    {
        put_by(&mut self.put_by, &self.table, self.steps, self.lates.len())?;
        leave_innermost(&mut self.table);
        self.is_late = leave_edge(&mut self.lates);
        Ok(())
    }

    /// Declares a word in the innermost scope.
    pub(crate) fn declare(&mut self, word: Word, class: WordClass) -> Result<(), Memory>
        ensures ok { OnOk result (self.new ≡ known.with_entries (known.entry_as class word.0 ∷ []) self.old) }
        ensures err { OnErr result (self.new.before ≡ self.old.before) }
    {
        self.table.put(word, class)?;
        Ok(())
    }

    /// Statements begin.
    pub(crate) fn begin_statements(&mut self)
        ensures { self.new ≡ record self.old { is_late = true } }
    {
        self.is_late = true;
    }

    /// Whether no declaration may follow.
    pub(crate) fn is_late(&self) -> bool
        ensures { result ≡ self.now.is_late }
    {
        self.is_late
    }

    /// Whether a word is a type.
    pub(crate) fn is_type(&self, word: Word) -> bool
        ensures { result ≡ states.is_type self.now.entries word.0 }
    {
        match self.table.class(word) {
            WordClass::TypeName => true,
            WordClass::Value => false,
        }
    }

    /// The words that are declared in the innermost scope, the latest first.
    pub(crate) fn innermost(&self, alloc: Global) -> Result<Vec<(Word, WordClass)>, Memory>
        ensures { IfOk result (λ words. known.entries_at words.items ≡ states.innermost self.now.entries) }
    {
        self.table.innermost(alloc)
    }
}

/// Undoes steps until so many are left.
fn undo_to(table: &mut ScopeTable, steps: usize)
    ensures { table.new ≡ known.back_to steps table.old }
{
    while table.steps() > steps {
        table.undo();
    }
}

/// Leaves the innermost scope; the outermost becomes empty.
fn leave_innermost(table: &mut ScopeTable)
    ensures { table.new ≡ known.outer_of table.old }
{
    while table.steps() > 0 {
        if table.undo() {
            return;
        }
    }
}

/// Whether statements had begun outside of the innermost scope, which is left.
fn leave_edge(lates: &mut Vec<bool>) -> bool
    ensures late { result ≡ known.first_late (reverse lates.old.items) }
    ensures others { reverse lates.new.items ≡ known.lates_outside (reverse lates.old.items) }
{
    match lates.pop() {
        Some(late) => late,
        None => false,
    }
}

/// Puts the table by as it was when so many steps had led to it, where no scope was entered since.
fn put_by(
    put_by: &mut Option<ScopeTable>,
    table: &ScopeTable,
    steps: usize,
    edges: usize,
) -> Result<(), Memory>
    ensures same { known.before_in put_by.new steps table.now ≡ known.before_in put_by.old steps table.now }
    ensures kept { known.IsKept put_by.old steps edges table.now → known.IsKept put_by.new steps edges table.now }
    ensures may { OnOk result (known.MayLeave put_by.new edges) }
{
    if put_by.is_none() && edges == 0 {
        let mut before = table.copy()?;
        undo_to(&mut before, steps);
        *put_by = Some(before);
    }
    Ok(())
}
