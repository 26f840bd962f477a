//! What is known where a token stands.

ghost use Rattle.std.specs.Prelude.{◌≡◌, OnOk, OnErr, is_some};
ghost use Rattle.scope_tables.specs.Frames as frames;
ghost use Rattle.c_forms.specs.declared.pieces.Event.TheVariants as event;
ghost use Rattle.c_reader.specs.States as states;
ghost use Rattle.c_syntax.specs.Allowed as allowed;
ghost use Rattle.reader_states.specs.Attempts as attempts;
ghost use Rattle.reader_states.specs.Scopes as known;
ghost use Rattle.reader_states.specs.Views.{kept_of, near_of};

use crate::kept::{Kept, Near};
use crate::scopes::Scopes;
use c_forms::Event;
use c_tokens::{Class, Memory, Shape, Word};
use scope_tables::{ScopeTable, WordClass};
use std::alloc::Global;
use std::marker::Model;
use std::mem;

/// The class of a word that is a type, by its number: one that no token has by itself.
const TYPE_WORD: u32 = 3000;

/// What is known where a token stands in an attempt to read an item: which words are types
/// (ISO/IEC 9899:1990, 6.1.2.1 and 6.5.6), and what the declaration that stands there has so far.
/// Contracts see that state, and the scopes as they stood before the attempt: `take_back` gives
/// them again, whatever happened. After a call that memory lacked for, nothing else is known.
#[derive(Drop)]
pub struct Attempt {
    alloc: Global,
    scopes: Scopes,
    kept: Kept,
    /// the declarations around it, the innermost last
    aside: Vec<Kept>,
}

impl Model for Attempt {
    ghost use Rattle.reader_states.specs.Attempts.{Attempt};

    ghost Value = { Attempt };

    ghost use Rattle.reader_states.specs.Views.{kept_of, aside_of};

    ghost view = { λ a. record { state = record { entries = a.scopes.entries; is_late = a.scopes.is_late; kept = kept_of a.kept; aside = aside_of a.aside.items }; before = a.scopes.before } };
}

impl Attempt {
    /// Before the first token of an item, under the scopes of a table.
    pub fn begin(alloc: Global, table: ScopeTable) -> Attempt
        ensures { result ≡ attempts.begun table }
    {
        Attempt {
            alloc,
            scopes: Scopes::new(alloc, table),
            kept: Kept::nothing(),
            aside: Vec::new(alloc),
        }
    }

    /// The scopes as they stood before the attempt.
    pub fn take_back(self) -> ScopeTable
        ensures { result ≡ self.before }
    {
        self.scopes.take_back()
    }

    /// An event happens. Its cost is constant but for the words that parameters declare and that a
    /// scope left had; one that leaves a scope that the attempt did not enter copies the table once.
    pub fn happens(&mut self, event: Event) -> Result<(), Memory>
        ensures ok { OnOk result (self.new ≡ attempts.happened event self.old) }
        ensures err { OnErr result (self.new.before ≡ self.old.before) }
    {
        match event {
            Event::Enter => self.scopes.enter()?,
            Event::Leave => self.scopes.leave()?,
            Event::Begin => self.kept = Kept::nothing(),
            Event::Typedef => self.kept.is_typedef = true,
            Event::Typed => self.kept.has_type = true,
            Event::SoleType => {
                self.kept.has_type = true;
                self.kept.is_sole = true;
            }
            Event::Declare => self.declare(class_named(self.kept.is_typedef))?,
            Event::DeclareValue => self.declare(WordClass::Value)?,
            Event::Aside => self.put_aside()?,
            Event::Resume => self.resume(),
            Event::Statements => self.scopes.begin_statements(),
            Event::Seal => self.seal(),
            Event::Close => self.close()?,
            Event::FunctionDue => self.kept.is_function_due = true,
            Event::Open => self.open()?,
            Event::Shut => {
                self.scopes.leave()?;
                self.kept = Kept::nothing();
            }
        }
        Ok(())
    }

    /// After the name of a declarator.
    pub fn note(&mut self, shape: Shape)
        ensures { self.new ≡ attempts.has_noted shape self.old }
    {
        self.kept.name = Some(word_of(shape));
        self.kept.near = Near::Bare;
    }

    /// The class of a token by its number, where a word that is a type has one of its own: in a
    /// declaration that has its type already there is none (6.5.6).
    pub fn class(&self, shape: Shape) -> u32
        ensures { result ≡ states.class self.now.state shape }
    {
        match shape {
            Shape::Word(word) if !self.kept.has_type && self.scopes.is_type(word) => TYPE_WORD,
            _ => Class::of(shape).number(),
        }
    }

    /// Whether an event may happen (6.7.1).
    pub fn may_happen(&self, event: Event) -> bool
        ensures { result ≡ allowed.may_happen event self.now.state }
    {
        match event {
            Event::Seal => !(self.kept.is_function_due && self.kept.is_bare()),
            Event::Open => self.kept.has_parameters(),
            _ => true,
        }
    }

    /// Whether the block has come to its statements (6.6.2).
    pub fn is_late(&self) -> bool
        ensures { result ≡ self.now.state.is_late }
    {
        self.scopes.is_late()
    }

    /// Whether a type specifier stands among the specifiers.
    pub fn has_type(&self) -> bool
        ensures { result ≡ self.now.state.kept.has_type }
    {
        self.kept.has_type
    }

    /// Whether that type specifier allows no other (6.5.2).
    pub fn is_sole(&self) -> bool
        ensures { result ≡ self.now.state.kept.is_sole }
    {
        self.kept.is_sole
    }

    /// Whether the declarator must be a function's (6.7.1).
    pub fn is_function_due(&self) -> bool
        ensures { result ≡ self.now.state.kept.is_function_due }
    {
        self.kept.is_function_due
    }

    /// Whether the declarator is a function's.
    pub fn is_function(&self) -> bool
        ensures { result ≡ states.is_function self.now.state }
    {
        self.kept.has_parameters()
    }

    /// Whether nothing stands next to the declarator's name yet.
    pub fn is_bare(&self) -> bool
        ensures { result ≡ states.is_bare self.now.state.kept.near }
    {
        self.kept.is_bare()
    }

    /// Whether the declarator whose parameters stand here has a name.
    pub fn has_name(&self) -> bool
        ensures { result ≡ allowed.has_name self.now.state }
    {
        match self.aside.last() {
            Some(around) => around.name.is_some(),
            None => false,
        }
    }

    /// Declares the declarator's name in the innermost scope.
    fn declare(&mut self, class: WordClass) -> Result<(), Memory>
        ensures ok { OnOk result (self.new ≡ attempts.has_declared class self.old) }
        ensures err { OnErr result (self.new.before ≡ self.old.before) }
    {
        if let Some(word) = self.kept.name {
            self.scopes.declare(word, class)?;
        }
        Ok(())
    }

    fn put_aside(&mut self) -> Result<(), Memory>
        ensures ok { OnOk result (self.new ≡ attempts.happened event.Aside self.old) }
        ensures err { OnErr result (self.new.before ≡ self.old.before) }
    {
        let kept = mem::replace(&mut self.kept, Kept::nothing());
        self.aside.push(kept)?;
        Ok(())
    }

    fn resume(&mut self)
        ensures { self.new ≡ attempts.happened event.Resume self.old }
    {
        self.kept = match self.aside.pop() {
            Some(kept) => kept,
            None => Kept::nothing(),
        };
    }

    fn seal(&mut self)
        ensures { self.new ≡ attempts.happened event.Seal self.old }
    {
        let near = mem::replace(&mut self.kept.near, Near::Bare);
        self.kept.near = near.sealed();
    }

    /// Parameters end: their scope is left, and the declaration around them knows what they declare.
    fn close(&mut self) -> Result<(), Memory>
        ensures ok { OnOk result (self.new ≡ attempts.happened event.Close self.old) }
        ensures err { OnErr result (self.new.before ≡ self.old.before) }
    {
        let words = self.scopes.innermost(self.alloc)?;
        self.scopes.leave()?;
        self.resume();
        let near = mem::replace(&mut self.kept.near, Near::Bare);
        self.kept.near = near.with_parameters(words);
        Ok(())
    }

    /// A function's body begins: its name is declared, and in the scope of the body its parameters.
    fn open(&mut self) -> Result<(), Memory>
        ensures ok { OnOk result (self.new ≡ attempts.happened event.Open self.old) }
        ensures err { OnErr result (self.new.before ≡ self.old.before) }
    {
        self.declare(WordClass::Value)?;
        self.scopes.enter()?;
        let kept = mem::replace(&mut self.kept, Kept::nothing());
        if let Near::Parameters(words) = kept.near {
            declare_all(&mut self.scopes, words)?;
        }
        Ok(())
    }
}

/// Declares words in the innermost scope, the last of them first.
fn declare_all(scopes: &mut Scopes, mut words: Vec<(Word, WordClass)>) -> Result<(), Memory>
    ensures ok { OnOk result (scopes.new ≡ known.with_entries (known.entries_at words.items) scopes.old) }
    ensures err { OnErr result (scopes.new.before ≡ scopes.old.before) }
{
    while let Some((word, class)) = words.pop() {
        scopes.declare(word, class)?;
    }
    Ok(())
}

/// What a declaration declares its words as.
fn class_named(is_typedef: bool) -> WordClass
    ensures { result ≡ frames.class_named is_typedef }
{
    if is_typedef {
        WordClass::TypeName
    } else {
        WordClass::Value
    }
}

/// The word that a token is.
fn word_of(shape: Shape) -> Word
    ensures { result.0 ≡ states.number_of shape }
{
    match shape {
        Shape::Word(word) => word,
        _ => Word(0),
    }
}
