//! Expressions (ISO/IEC 9899:1990, 6.3).

ghost use Rattle.std.specs.Prelude.{◌≡◌, ◌≤◌, ◌<◌, ◌-◌, ◌^◌, IfOk, IfErr, OnOk, true};
ghost use Rattle.c_forms.specs.Measures as measures;
ghost use Rattle.c_forms.specs.Tokens as tokens;
ghost use Rattle.c_forms.specs.declared.forms.ExpForm.TheVariants as exp;
ghost use Rattle.c_forms.specs.declared.forms.Form.TheVariants as form;
ghost use Rattle.c_forms.specs.declared.pieces.Sort.TheVariants as sort;
ghost use Rattle.c_reader.specs.Readers.{Reads, here};
ghost use Rattle.c_reader.specs.declared.refusal.Refusal.TheVariants as refusal;
ghost use Rattle.c_syntax.specs.Grammar as grammar;
ghost use Rattle.c_syntax.specs.Reading as reading;
ghost use Rattle.c_tokens.specs.declared.class.Class.TheVariants as class;
ghost use Rattle.c_tokens.specs.declared.token.Key.TheVariants as key;
ghost use Rattle.c_tokens.specs.declared.token.Punct.TheVariants as punct;
ghost use Rattle.expression_parser.specs.Entered.{after_sizeof, beyond, cast_or_parentheses, is_type_next};
ghost use Rattle.table_parser.specs.Nests.{Nests, deeper_by, read};
ghost use Rattle.table_parser.specs.Sound.{are_sound, is_element};

use c_forms::{Event, ExpForm, Form, Piece, Sort};
use c_reader::Refusal;
use c_tokens::{Class, Key, Punct};
use form_decisions::{expression_begun, may_begin};
use form_rows::{level, pieces};
use std::alloc::Global;
use table_parser::{
    Cursor, Found, Grammar, Listed, Owner, PLACES, Standing, after_first, after_paren, node,
};

const LEFT_PAREN: Class = Class::Punct(Punct::LeftParen);

const SIZEOF_KEY: Class = Class::Key(Key::Sizeof);

/// What reads expressions, with what reads their parts.
#[derive(Clone, Copy)]
pub struct Expressions<F> {
    pub grammar: Grammar<F>,
}

/// After an opening parenthesis, whether a type name begins. The parenthesis is taken.
fn type_begins(cursor: &mut Cursor<'_>) -> Result<bool, Refusal>
    requires token { grammar.is_sign punct.LeftParen (here cursor.old.input) ≡ true }
    ensures answer { IfOk result (λ b. b ≡ is_type_next cursor.old.input) }
    ensures new { IfOk result (λ b. cursor.new.input ≡ beyond b cursor.old.input) }
    ensures refused { IfErr result (λ e. e ≡ refusal.Memory) }
    ensures kept { cursor.new.before ≡ cursor.old.before }
{
    cursor.advance();
    cursor.happens(Event::Aside)?;
    if may_begin(Sort::TypeName, cursor.look().class) {
        return Ok(true);
    }
    cursor.happens(Event::Resume)?;
    Ok(false)
}

impl<
    F: Copy + Fn(Global, &mut Cursor<'_>, usize, u8, Sort, u8) -> Result<Found, Refusal>,
> Expressions<F> {
    /// An expression that holds together at least as tightly as a level.
    #[inline(never)]
    #[tactic(auto, unfolding(c_syntax::specs::Grammar::expression))]
    pub fn expression(&self, cursor: &mut Cursor<'_>, least: u8) -> Result<Found, Refusal>
        requires depth { self.now.grammar.depth ≤ 1000 }
        requires places { self.now.grammar.places ≤ 9 }
        requires nests { Nests self.now.grammar.depth self.now.grammar.places (F.pre self.now.grammar.part) (F.post self.now.grammar.part) }
        ensures reads { Reads (read self.now.grammar.depth (grammar.expression (grammar.in_place self.now.grammar.places) least) cursor.old.input) result cursor.new.input }
        ensures kept { cursor.new.before ≡ cursor.old.before }
        ensures low { IfOk result (λ x. x.height ≤ self.now.grammar.depth) }
    {
        let start = cursor.place();
        let first = self.primary(cursor, least)?;
        self.grammar.climb(cursor, Sort::Exp, least, start, first)
    }

    /// An expression without what goes on after it.
    #[tactic(auto, unfolding(c_syntax::specs::Grammar::primary))]
    fn primary(&self, cursor: &mut Cursor<'_>, least: u8) -> Result<Standing, Refusal>
        requires depth { self.now.grammar.depth ≤ 1000 }
        requires places { self.now.grammar.places ≤ 9 }
        requires nests { Nests self.now.grammar.depth self.now.grammar.places (F.pre self.now.grammar.part) (F.post self.now.grammar.part) }
        ensures reads { Reads (read self.now.grammar.depth (grammar.primary (grammar.in_place self.now.grammar.places) least) cursor.old.input) result cursor.new.input }
        ensures kept { cursor.new.before ≡ cursor.old.before }
        ensures low { IfOk result (λ y. y.found.height ≤ self.now.grammar.depth) }
    {
        let start = cursor.place();
        if cursor.shows(LEFT_PAREN) {
            self.entered(cursor, least, start)
        } else if cursor.shows(SIZEOF_KEY) {
            self.sized(cursor, least, start)
        } else if may_begin(Sort::Exp, cursor.look().class) {
            self.begun(cursor, least)
        } else {
            Err(cursor.refuse())
        }
    }

    /// An expression whose first token decides for its form (6.3.1 and 6.3.3).
    #[tactic(auto, using(crate::proofs::Begun::begun_form))]
    fn begun(&self, cursor: &mut Cursor<'_>, least: u8) -> Result<Standing, Refusal>
        requires depth { self.now.grammar.depth ≤ 1000 }
        requires places { self.now.grammar.places ≤ 9 }
        requires nests { Nests self.now.grammar.depth self.now.grammar.places (F.pre self.now.grammar.part) (F.post self.now.grammar.part) }
        ensures reads { Reads (read self.now.grammar.depth (grammar.begun_by (grammar.in_place self.now.grammar.places) least (tokens.begun sort.Exp (here cursor.old.input).shape)) cursor.old.input) result cursor.new.input }
        ensures kept { cursor.new.before ≡ cursor.old.before }
        ensures low { IfOk result (λ y. y.found.height ≤ self.now.grammar.depth) }
    {
        match expression_begun(cursor.look().shape) {
            Some(form) => self.grammar.tight(cursor, Sort::Exp, form, least),
            None => Err(cursor.refuse()),
        }
    }

    /// The pieces that are left of an expression that begins with its own token, if it is as tight as
    /// it must be.
    fn prefixed(
        &self,
        cursor: &mut Cursor<'_>,
        form: Form,
        least: u8,
        start: usize,
        pieces: &[Piece],
    ) -> Result<Standing, Refusal>
        requires depth { self.now.grammar.depth ≤ 1000 }
        requires places { self.now.grammar.places ≤ 9 }
        requires nests { Nests self.now.grammar.depth self.now.grammar.places (F.pre self.now.grammar.part) (F.post self.now.grammar.part) }
        requires room { deeper_by (reading.is_starred form) ≤ self.now.grammar.depth }
        requires sound { are_sound form pieces.now ≡ true }
        requires start { start < 2 ^ 32 - 1 }
        ensures reads { Reads (read self.now.grammar.depth (grammar.tight least form (reading.completed reading.called sort.Exp form start reading.nothing pieces.now)) cursor.old.input) result cursor.new.input }
        ensures kept { cursor.new.before ≡ cursor.old.before }
        ensures low { IfOk result (λ y. y.found.height ≤ self.now.grammar.depth) }
    {
        let level = level(form);
        if level < least {
            return Err(cursor.refuse());
        }
        let owner = Owner {
            is_deeper: true,
            own: Sort::Exp,
            form,
        };
        let found = self
            .grammar
            .completed(cursor, owner, start, Listed::nothing(), pieces)?;
        Ok(Standing { found, level })
    }

    /// What begins with a parenthesis: a cast, or an expression in parentheses (6.3.4 and 6.3.1).
    fn entered(&self, cursor: &mut Cursor<'_>, least: u8, start: usize) -> Result<Standing, Refusal>
        requires depth { self.now.grammar.depth ≤ 1000 }
        requires places { self.now.grammar.places ≤ 9 }
        requires nests { Nests self.now.grammar.depth self.now.grammar.places (F.pre self.now.grammar.part) (F.post self.now.grammar.part) }
        requires start { start < 2 ^ 32 - 1 }
        requires token { grammar.is_sign punct.LeftParen (here cursor.old.input) ≡ true }
        ensures reads { Reads (read self.now.grammar.depth (grammar.entered least start) cursor.old.input) result cursor.new.input }
        ensures kept { cursor.new.before ≡ cursor.old.before }
        ensures low { IfOk result (λ y. y.found.height ≤ self.now.grammar.depth) }
    {
        cursor.fits(0, self.grammar.depth)?;
        self.cast_or_parentheses(cursor, least, start)
    }

    /// A cast where a type name follows the parenthesis, and an expression in parentheses elsewhere.
    #[tactic(auto, using(crate::proofs::Entered::entries))]
    fn cast_or_parentheses(
        &self,
        cursor: &mut Cursor<'_>,
        least: u8,
        start: usize,
    ) -> Result<Standing, Refusal>
        requires depth { self.now.grammar.depth ≤ 1000 }
        requires places { self.now.grammar.places ≤ 9 }
        requires nests { Nests self.now.grammar.depth self.now.grammar.places (F.pre self.now.grammar.part) (F.post self.now.grammar.part) }
        requires room { 0 < self.now.grammar.depth }
        requires start { start < 2 ^ 32 - 1 }
        requires token { grammar.is_sign punct.LeftParen (here cursor.old.input) ≡ true }
        ensures reads { Reads (read self.now.grammar.depth (cast_or_parentheses least start) cursor.old.input) result cursor.new.input }
        ensures kept { cursor.new.before ≡ cursor.old.before }
        ensures low { IfOk result (λ y. y.found.height ≤ self.now.grammar.depth) }
    {
        if type_begins(cursor)? {
            let form = Form::Exp(ExpForm::Cast);
            return self.prefixed(cursor, form, least, start, after_paren(pieces(form)));
        }
        self.in_parentheses(cursor)
    }

    /// An expression after an opening parenthesis, up to the closing one (6.3.1).
    fn in_parentheses(&self, cursor: &mut Cursor<'_>) -> Result<Standing, Refusal>
        requires depth { self.now.grammar.depth ≤ 1000 }
        requires places { self.now.grammar.places ≤ 9 }
        requires nests { Nests self.now.grammar.depth self.now.grammar.places (F.pre self.now.grammar.part) (F.post self.now.grammar.part) }
        ensures reads { Reads (read self.now.grammar.depth (grammar.standing 17 (grammar.parenthesized sort.Exp)) cursor.old.input) result cursor.new.input }
        ensures kept { cursor.new.before ≡ cursor.old.before }
        ensures low { IfOk result (λ y. y.found.height ≤ self.now.grammar.depth) }
    {
        let found = self.grammar.parenthesized(cursor, Sort::Exp)?;
        Ok(Standing { found, level: 17 })
    }

    /// What begins with `sizeof` (6.3.3.4).
    fn sized(&self, cursor: &mut Cursor<'_>, least: u8, start: usize) -> Result<Standing, Refusal>
        requires depth { self.now.grammar.depth ≤ 1000 }
        requires places { self.now.grammar.places ≤ 9 }
        requires nests { Nests self.now.grammar.depth self.now.grammar.places (F.pre self.now.grammar.part) (F.post self.now.grammar.part) }
        requires start { start < 2 ^ 32 - 1 }
        requires token { reading.is_class (class.Key key.Sizeof) (here cursor.old.input) ≡ true }
        ensures reads { Reads (read self.now.grammar.depth (grammar.sized (grammar.in_place self.now.grammar.places) least start) cursor.old.input) result cursor.new.input }
        ensures kept { cursor.new.before ≡ cursor.old.before }
        ensures low { IfOk result (λ y. y.found.height ≤ self.now.grammar.depth) }
    {
        cursor.fits(0, self.grammar.depth)?;
        cursor.advance();
        self.sized_operand(cursor, least, start)
    }

    /// What follows `sizeof`: a type in parentheses, or an expression.
    #[tactic(auto, using(crate::proofs::Entered::entries))]
    fn sized_operand(
        &self,
        cursor: &mut Cursor<'_>,
        least: u8,
        start: usize,
    ) -> Result<Standing, Refusal>
        requires depth { self.now.grammar.depth ≤ 1000 }
        requires places { self.now.grammar.places ≤ 9 }
        requires nests { Nests self.now.grammar.depth self.now.grammar.places (F.pre self.now.grammar.part) (F.post self.now.grammar.part) }
        requires room { 0 < self.now.grammar.depth }
        requires start { start < 2 ^ 32 - 1 }
        ensures reads { Reads (read self.now.grammar.depth (after_sizeof least start) cursor.old.input) result cursor.new.input }
        ensures kept { cursor.new.before ≡ cursor.old.before }
        ensures low { IfOk result (λ y. y.found.height ≤ self.now.grammar.depth) }
    {
        if !cursor.shows(LEFT_PAREN) {
            let form = Form::Exp(ExpForm::SizeofExp);
            return self.prefixed(cursor, form, least, start, after_first(pieces(form)));
        }
        if type_begins(cursor)? {
            let form = Form::Exp(ExpForm::SizeofType);
            return self.prefixed(cursor, form, least, start, after_paren(pieces(form)));
        }
        self.sized_opened(cursor, least, start)
    }

    /// `sizeof` of an operand whose opening parenthesis was taken.
    #[tactic(auto, using(table_parser::proofs::Levels::levels, crate::proofs::Entered::nests_below))]
    fn sized_opened(
        &self,
        cursor: &mut Cursor<'_>,
        least: u8,
        start: usize,
    ) -> Result<Standing, Refusal>
        requires depth { self.now.grammar.depth ≤ 1000 }
        requires places { self.now.grammar.places ≤ 9 }
        requires nests { Nests self.now.grammar.depth self.now.grammar.places (F.pre self.now.grammar.part) (F.post self.now.grammar.part) }
        requires room { 0 < self.now.grammar.depth }
        requires start { start < 2 ^ 32 - 1 }
        ensures reads { Reads (read self.now.grammar.depth (grammar.tight least (form.Exp exp.SizeofExp) (grammar.sized_opened start)) cursor.old.input) result cursor.new.input }
        ensures kept { cursor.new.before ≡ cursor.old.before }
        ensures low { IfOk result (λ y. y.found.height ≤ self.now.grammar.depth) }
    {
        let form = Form::Exp(ExpForm::SizeofExp);
        let level = level(form);
        if level < least {
            return Err(cursor.refuse());
        }
        let below = Expressions {
            grammar: Grammar {
                alloc: self.grammar.alloc,
                depth: self.grammar.depth - 1,
                places: PLACES,
                part: self.grammar.part,
            },
        };
        let operand = below.opened(cursor)?.deeper();
        let end = cursor.place();
        let found = node(self.grammar.alloc, form, start, end, Listed::one(operand))?;
        Ok(Standing { found, level })
    }

    /// The operand of `sizeof` after its opening parenthesis, which was taken.
    #[tactic(auto, unfolding(c_syntax::specs::Grammar::opened))]
    fn opened(&self, cursor: &mut Cursor<'_>) -> Result<Found, Refusal>
        requires depth { self.now.grammar.depth ≤ 1000 }
        requires places { self.now.grammar.places ≤ 9 }
        requires nests { Nests self.now.grammar.depth self.now.grammar.places (F.pre self.now.grammar.part) (F.post self.now.grammar.part) }
        ensures reads { Reads (read self.now.grammar.depth grammar.opened cursor.old.input) result cursor.new.input }
        ensures kept { cursor.new.before ≡ cursor.old.before }
        ensures low { IfOk result (λ x. x.height ≤ self.now.grammar.depth) }
    {
        let start = cursor.place().saturating_sub(1);
        if !may_begin(Sort::Exp, cursor.look().class) {
            return Err(cursor.refuse());
        }
        cursor.fits(0, self.grammar.depth)?;
        let first = self.in_parentheses(cursor)?;
        self.grammar.climb(cursor, Sort::Exp, 15, start, first)
    }
}
