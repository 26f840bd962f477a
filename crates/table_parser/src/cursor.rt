//! A place among tokens, and what is known there.

ghost use Rattle.std.specs.Prelude.{◌≡◌, ◌≢◌, ◌<◌, ◌≤◌, ◌^◌, ◌-◌, IfOk, IfErr, OnOk, OnErr, length, map, nat_eq, false};
ghost use Rattle.c_tokens.specs.ClassNumbers.{class_number};
ghost use Rattle.c_forms.specs.Sets.{has, held_class};
ghost use Rattle.c_reader.specs.Readers as reader;
ghost use Rattle.c_reader.specs.Readers.{Reads, here};
ghost use Rattle.c_reader.specs.States as states;
ghost use Rattle.c_reader.specs.Tokens.{spot};
ghost use Rattle.c_reader.specs.declared.refusal.Refusal.TheVariants as refusal;
ghost use Rattle.c_syntax.specs.Reading.{is_class};
ghost use Rattle.table_parser.specs.Cursors.{shape_of, seen, onward, changed};

use c_forms::{Event, Form};
use c_reader::Refusal;
use c_tokens::{Class, Shape, Token};
use form_decisions::holds;
use reader_states::Attempt;
use std::marker::Model;

/// A token, and its class by number as it is seen where it stands: a word that is a type is of a
/// class of its own.
#[derive(Clone, Copy)]
pub struct Seen {
    pub shape: Shape,
    pub class: u32,
}

/// Tokens, the place of the next one, and what is known there. After the last token it shows the
/// end of the source.
#[derive(Drop)]
pub struct Cursor<'a> {
    tokens: &'a [Token],
    at: usize,
    attempt: Attempt,
}

impl<'a> Model for Cursor<'a> {
    ghost use Rattle.table_parser.specs.Cursors.{Progress};

    ghost Value = { Progress };

    ghost use Rattle.table_parser.specs.Cursors.{progress_of, IsShort};

    ghost view = { progress_of };

    ghost invariant = { IsShort };
}

impl<'a> Cursor<'a> {
    /// Before the token with a number.
    pub fn new(tokens: &'a [Token], at: usize, attempt: Attempt) -> Cursor<'a>
        requires short { length tokens.now < 2 ^ 32 - 1 }
        requires inside { at ≤ length tokens.now }
        ensures { result ≡ record { input = record { tokens = map shape_of tokens.now; at = spot at attempt.state }; before = attempt.before } }
    {
        Cursor {
            tokens,
            at,
            attempt,
        }
    }

    /// The attempt that it was made with, as it is now.
    pub fn into_attempt(self) -> Attempt
        ensures { result ≡ record { state = self.entry.input.at.state; before = self.entry.before } }
    {
        self.attempt
    }

    /// How many tokens there are.
    pub fn len(&self) -> usize
        ensures value { result ≡ length self.now.input.tokens }
        ensures low { result < 2 ^ 32 - 1 }
    {
        self.tokens.len()
    }

    /// The number of the next token.
    pub fn place(&self) -> usize
        ensures value { result ≡ self.now.input.at.place }
        ensures low { result < 2 ^ 32 - 1 }
    {
        self.at
    }

    /// The next token, as it is seen there.
    pub fn look(&self) -> Seen
        ensures { seen result ≡ here self.now.input }
    {
        let shape = match self.tokens.get(self.at) {
            Some(token) => token.shape,
            None => Shape::End,
        };
        let class = self.attempt.class(shape);
        Seen { shape, class }
    }

    /// Whether the next token is of a class.
    pub fn shows(&self, class: Class) -> bool
        ensures { result ≡ is_class class (here self.now.input) }
    {
        self.look().class == class.number()
    }

    /// What is known where the next token stands.
    pub fn attempt(&self) -> &Attempt
        ensures state { result.now.state ≡ self.now.input.at.state }
    {
        &self.attempt
    }

    pub fn advance(&mut self)
        requires { (here self.old.input).class ≢ 118 }
        ensures { self.new ≡ onward self.old }
    {
        self.at += 1;
    }

    /// Takes the next token if it is of a class.
    pub fn take(&mut self, class: Class) -> Result<(), Refusal>
        requires token { class_number class ≢ 118 }
        ensures reads { Reads (reader.pick (reader.only (nat_eq (here self.old.input).class (class_number class))) self.old.input) result self.new.input }
        ensures kept { self.new.before ≡ self.old.before }
    {
        if self.shows(class) {
            self.advance();
            Ok(())
        } else {
            Err(self.refuse())
        }
    }

    /// Takes the next token if it is the one that a form holds.
    #[tactic(auto, using(crate::proofs::Sets::has_not))]
    pub fn take_held(&mut self, form: Form) -> Result<(), Refusal>
        requires token { has (held_class form) 118 ≡ false }
        ensures reads { Reads (reader.pick (reader.only (has (held_class form) (here self.old.input).class)) self.old.input) result self.new.input }
        ensures kept { self.new.before ≡ self.old.before }
    {
        if holds(form, self.look().class) {
            self.advance();
            Ok(())
        } else {
            Err(self.refuse())
        }
    }

    /// That no source has the next token there.
    pub fn refuse(&self) -> Refusal
        ensures { result ≡ refusal.Syntax self.now.input.at.place }
    {
        Refusal::Syntax(self.place())
    }

    /// Takes the next token as the name of a declarator.
    pub fn note(&mut self)
        requires { (here self.old.input).class ≢ 118 }
        ensures { self.new ≡ onward (changed (states.noted (here self.old.input).shape) self.old) }
    {
        let shape = self.look().shape;
        self.attempt.note(shape);
        self.advance();
    }

    /// An event happens where the next token stands.
    pub fn happens(&mut self, event: Event) -> Result<(), Refusal>
        ensures done { OnOk result (self.new ≡ changed (states.happens event) self.old) }
        ensures refused { IfErr result (λ e. e ≡ refusal.Memory) }
        ensures kept { self.new.before ≡ self.old.before }
    {
        match self.attempt.happens(event) {
            Ok(()) => Ok(()),
            Err(_) => Err(Refusal::Memory),
        }
    }

    /// Goes on where a level above this height is left.
    pub fn fits(&self, height: usize, depth: usize) -> Result<(), Refusal>
        ensures fits { OnOk result (height < depth) }
        ensures refused { IfErr result (λ e. (depth ≤ height) × (e ≡ refusal.TooDeep self.now.input.at.place)) }
    {
        if height < depth {
            Ok(())
        } else {
            Err(Refusal::TooDeep(self.place()))
        }
    }
}
