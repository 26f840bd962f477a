//! Statements, and the items of blocks (ISO/IEC 9899:1990, 6.6).

ghost use Rattle.std.specs.Prelude.{◌≡◌, ◌≤◌, ◌<◌, ◌+◌, ◌-◌, ◌^◌, IfOk, true};
ghost use Rattle.c_forms.specs.Tokens as tokens;
ghost use Rattle.c_forms.specs.declared.pieces.Sort.TheVariants as sort;
ghost use Rattle.c_reader.specs.Readers as reader;
ghost use Rattle.c_reader.specs.Readers.{Reads, here};
ghost use Rattle.c_syntax.specs.Grammar as grammar;
ghost use Rattle.table_parser.specs.Cursors.{seen};
ghost use Rattle.table_parser.specs.Nests.{Nests, read};

use crate::leaves::{id_leaf, name_leaf, typedef_leaf};
use c_forms::{Event, Form, Repetition, Sort, StmtForm};
use c_reader::Refusal;
use c_tokens::{Class, Punct};
use form_decisions::{may_begin, statement_begun};
use std::alloc::Global;
use table_parser::words::{is_type_word, is_value, is_word};
use table_parser::{Cursor, Found, Gathered, Grammar, Part, Seen, Standing};

const COLON: Class = Class::Punct(Punct::Colon);

/// What reads statements and the items of blocks, with what reads their parts.
#[derive(Clone, Copy)]
pub struct Statements<F> {
    pub grammar: Grammar<F>,
}

/// After a statement no declaration stands in its block (6.6.2).
fn late(cursor: &mut Cursor<'_>, statement: Found) -> Result<Found, Refusal>
    ensures reads { Reads (read 0 (grammar.late (reader.Give statement)) cursor.old.input) result cursor.new.input }
    ensures kept { cursor.new.before ≡ cursor.old.before }
{
    cursor.happens(Event::Statements)?;
    Ok(statement)
}

impl<
    F: Copy + Fn(Global, &mut Cursor<'_>, usize, u8, Sort, u8) -> Result<Found, Refusal>,
> Statements<F> {
    /// The statement after a label, whose colon stands next (6.6.1).
    fn label(&self, cursor: &mut Cursor<'_>, start: usize, name: Found) -> Result<Found, Refusal>
        requires depth { self.now.grammar.depth ≤ 1000 }
        requires places { self.now.grammar.places ≤ 9 }
        requires nests { Nests self.now.grammar.depth self.now.grammar.places (F.pre self.now.grammar.part) (F.post self.now.grammar.part) }
        requires start { start < 2 ^ 32 - 1 }
        requires leaf { name.height ≡ 0 }
        ensures reads { Reads (read self.now.grammar.depth (grammar.label start name) cursor.old.input) result cursor.new.input }
        ensures kept { cursor.new.before ≡ cursor.old.before }
        ensures low { IfOk result (λ x. x.height ≤ self.now.grammar.depth) }
    {
        cursor.fits(0, self.grammar.depth)?;
        let form = Form::Stmt(StmtForm::Label);
        self.grammar
            .after_part(cursor, Sort::Stmt, form, start, name.deeper())
    }

    /// An expression statement that begins with a word that was read (6.6.3).
    fn word_led(&self, cursor: &mut Cursor<'_>, start: usize, word: Seen) -> Result<Found, Refusal>
        requires depth { self.now.grammar.depth ≤ 1000 }
        requires places { self.now.grammar.places ≤ 9 }
        requires nests { Nests self.now.grammar.depth self.now.grammar.places (F.pre self.now.grammar.part) (F.post self.now.grammar.part) }
        requires start { start < 2 ^ 32 - 1 }
        ensures reads { Reads (read self.now.grammar.depth (grammar.word_led (grammar.in_place self.now.grammar.places) start (seen word)) cursor.old.input) result cursor.new.input }
        ensures kept { cursor.new.before ≡ cursor.old.before }
        ensures low { IfOk result (λ x. x.height ≤ self.now.grammar.depth) }
    {
        let first = Standing {
            found: name_leaf(start, word.shape),
            level: 17,
        };
        let expression = self.grammar.climb(cursor, Sort::Exp, 1, start, first)?;
        let form = Form::Stmt(StmtForm::Express);
        self.grammar
            .after_part(cursor, Sort::Stmt, form, start, expression)
    }

    /// A label, or an expression that begins with a word. No expression begins with a type.
    #[tactic(auto, unfolding(c_syntax::specs::Grammar::worded))]
    fn worded(&self, cursor: &mut Cursor<'_>) -> Result<Found, Refusal>
        requires depth { self.now.grammar.depth ≤ 1000 }
        requires places { self.now.grammar.places ≤ 9 }
        requires nests { Nests self.now.grammar.depth self.now.grammar.places (F.pre self.now.grammar.part) (F.post self.now.grammar.part) }
        requires word { grammar.is_word (here cursor.old.input) ≡ true }
        ensures reads { Reads (read self.now.grammar.depth (grammar.worded (grammar.in_place self.now.grammar.places) cursor.old.input.at.place (here cursor.old.input)) cursor.old.input) result cursor.new.input }
        ensures kept { cursor.new.before ≡ cursor.old.before }
        ensures low { IfOk result (λ x. x.height ≤ self.now.grammar.depth) }
    {
        let word = cursor.look();
        let start = cursor.place();
        cursor.advance();
        if cursor.shows(COLON) {
            self.label(cursor, start, id_leaf(start, word.shape))
        } else if is_value(word) {
            self.word_led(cursor, start, word)
        } else {
            Err(cursor.refuse())
        }
    }

    /// A statement whose first token decides for its form, if that is no expression.
    fn begun(&self, cursor: &mut Cursor<'_>) -> Result<Found, Refusal>
        requires depth { self.now.grammar.depth ≤ 1000 }
        requires places { self.now.grammar.places ≤ 9 }
        requires nests { Nests self.now.grammar.depth self.now.grammar.places (F.pre self.now.grammar.part) (F.post self.now.grammar.part) }
        ensures reads { Reads (read self.now.grammar.depth (grammar.statement_by (grammar.in_place self.now.grammar.places) (tokens.begun sort.Stmt (here cursor.old.input).shape)) cursor.old.input) result cursor.new.input }
        ensures kept { cursor.new.before ≡ cursor.old.before }
        ensures low { IfOk result (λ x. x.height ≤ self.now.grammar.depth) }
    {
        match statement_begun(cursor.look().shape) {
            Some(form) => self.grammar.whole(cursor, Sort::Stmt, form),
            None => self
                .grammar
                .whole(cursor, Sort::Stmt, Form::Stmt(StmtForm::Express)),
        }
    }

    /// A statement (6.6).
    #[inline(never)]
    #[tactic(auto, unfolding(c_syntax::specs::Grammar::statement))]
    pub fn statement(&self, cursor: &mut Cursor<'_>) -> Result<Found, Refusal>
        requires depth { self.now.grammar.depth ≤ 1000 }
        requires places { self.now.grammar.places ≤ 9 }
        requires nests { Nests self.now.grammar.depth self.now.grammar.places (F.pre self.now.grammar.part) (F.post self.now.grammar.part) }
        ensures reads { Reads (read self.now.grammar.depth (grammar.statement (grammar.in_place self.now.grammar.places)) cursor.old.input) result cursor.new.input }
        ensures kept { cursor.new.before ≡ cursor.old.before }
        ensures low { IfOk result (λ x. x.height ≤ self.now.grammar.depth) }
    {
        if is_word(cursor.look()) {
            self.worded(cursor)
        } else {
            self.begun(cursor)
        }
    }

    /// A declaration whose first specifier is a type that was read (6.5).
    fn type_led(&self, cursor: &mut Cursor<'_>, start: usize, word: Seen) -> Result<Found, Refusal>
        requires depth { self.now.grammar.depth ≤ 1000 }
        requires places { self.now.grammar.places ≤ 9 }
        requires nests { Nests self.now.grammar.depth self.now.grammar.places (F.pre self.now.grammar.part) (F.post self.now.grammar.part) }
        requires start { start < 2 ^ 32 - 1 }
        requires next { cursor.old.input.at.place ≡ start + 1 }
        ensures reads { Reads (read self.now.grammar.depth (grammar.type_led (grammar.in_place self.now.grammar.places) start (seen word)) cursor.old.input) result cursor.new.input }
        ensures kept { cursor.new.before ≡ cursor.old.before }
        ensures low { IfOk result (λ x. x.height ≤ self.now.grammar.depth) }
    {
        cursor.happens(Event::SoleType)?;
        let mut all = Gathered::none_at(start);
        let first = typedef_leaf(start, word.shape);
        all.push(self.grammar.alloc, first, cursor.place())?;
        let part = Part {
            is_deeper: false,
            due: Sort::Spec,
            least: 0,
        };
        self.grammar
            .others(cursor, Repetition::All, part, &mut all)?;
        let specifiers = all.list_from(self.grammar.alloc, start)?;
        self.grammar
            .after_part(cursor, Sort::Decl, Form::Decl, start, specifiers)
    }

    /// A label that is a type elsewhere, or a declaration (6.5 and 6.6.1).
    #[tactic(auto, unfolding(c_syntax::specs::Grammar::type_first))]
    fn type_first(&self, cursor: &mut Cursor<'_>) -> Result<Found, Refusal>
        requires depth { self.now.grammar.depth ≤ 1000 }
        requires places { self.now.grammar.places ≤ 9 }
        requires nests { Nests self.now.grammar.depth self.now.grammar.places (F.pre self.now.grammar.part) (F.post self.now.grammar.part) }
        requires word { grammar.is_type_word (here cursor.old.input) ≡ true }
        ensures reads { Reads (read self.now.grammar.depth (grammar.type_first (grammar.in_place self.now.grammar.places) cursor.old.input.at.place (here cursor.old.input)) cursor.old.input) result cursor.new.input }
        ensures kept { cursor.new.before ≡ cursor.old.before }
        ensures low { IfOk result (λ x. x.height ≤ self.now.grammar.depth) }
    {
        let type_word = cursor.look();
        let start = cursor.place();
        cursor.advance();
        if cursor.shows(COLON) {
            let labelled = self.label(cursor, start, id_leaf(start, type_word.shape))?;
            late(cursor, labelled)
        } else {
            self.type_led(cursor, start, type_word)
        }
    }

    /// A declaration, or a label that is a type elsewhere.
    fn declaration(&self, cursor: &mut Cursor<'_>) -> Result<Found, Refusal>
        requires depth { self.now.grammar.depth ≤ 1000 }
        requires places { self.now.grammar.places ≤ 9 }
        requires nests { Nests self.now.grammar.depth self.now.grammar.places (F.pre self.now.grammar.part) (F.post self.now.grammar.part) }
        ensures reads { Reads (read self.now.grammar.depth (grammar.declaration_at (grammar.in_place self.now.grammar.places) cursor.old.input.at.place (here cursor.old.input)) cursor.old.input) result cursor.new.input }
        ensures kept { cursor.new.before ≡ cursor.old.before }
        ensures low { IfOk result (λ x. x.height ≤ self.now.grammar.depth) }
    {
        if is_type_word(cursor.look()) {
            self.type_first(cursor)
        } else {
            self.grammar.whole(cursor, Sort::Decl, Form::Decl)
        }
    }

    /// A declaration or a statement of a block (6.6.2).
    #[inline(never)]
    #[tactic(auto, unfolding(c_syntax::specs::Grammar::block_item))]
    pub fn block_item(&self, cursor: &mut Cursor<'_>) -> Result<Found, Refusal>
        requires depth { self.now.grammar.depth ≤ 1000 }
        requires places { self.now.grammar.places ≤ 9 }
        requires nests { Nests self.now.grammar.depth self.now.grammar.places (F.pre self.now.grammar.part) (F.post self.now.grammar.part) }
        ensures reads { Reads (read self.now.grammar.depth (grammar.block_item (grammar.in_place self.now.grammar.places)) cursor.old.input) result cursor.new.input }
        ensures kept { cursor.new.before ≡ cursor.old.before }
        ensures low { IfOk result (λ x. x.height ≤ self.now.grammar.depth) }
    {
        if !cursor.attempt().is_late() && may_begin(Sort::Decl, cursor.look().class) {
            self.declaration(cursor)
        } else {
            let statement = self.statement(cursor)?;
            late(cursor, statement)
        }
    }
}
