//! Declarators (ISO/IEC 9899:1990, 6.5.4 and 6.5.5).

ghost use Rattle.std.specs.Prelude.{◌≡◌, ◌≤◌, ◌<◌, ◌-◌, ◌^◌, IfOk, true};
ghost use Rattle.c_forms.specs.declared.forms.DeclaratorForm.TheVariants as declarator;
ghost use Rattle.c_reader.specs.Readers.{Reads, here};
ghost use Rattle.c_syntax.specs.Grammar as grammar;
ghost use Rattle.c_tokens.specs.declared.token.Punct.TheVariants as punct;
ghost use Rattle.table_parser.specs.Nests.{Nests, read};

use crate::sorts::{
    begins_parenthesized, is_nameable, may_be_absent, may_be_named, parenthesized_sort,
};
use c_forms::{DeclaratorForm, Form, Sort};
use c_reader::Refusal;
use c_tokens::{Class, Punct};
use form_rows::{level, pieces};
use std::alloc::Global;
use table_parser::words::is_value;
use table_parser::{Cursor, Found, Grammar, Listed, Owner, Standing, after_first};

/// What reads declarators, specifiers and parameters, with what reads their parts.
#[derive(Clone, Copy)]
pub struct Declarations<F> {
    pub grammar: Grammar<F>,
}

impl<
    F: Copy + Fn(Global, &mut Cursor<'_>, usize, u8, Sort, u8) -> Result<Found, Refusal>,
> Declarations<F> {
    /// A declarator that holds together at least as tightly as a level.
    #[inline(never)]
    #[tactic(auto, unfolding(c_syntax::specs::Grammar::declarator_of))]
    pub fn declarator(
        &self,
        cursor: &mut Cursor<'_>,
        due: Sort,
        least: u8,
    ) -> Result<Found, Refusal>
        requires depth { self.now.grammar.depth ≤ 1000 }
        requires places { self.now.grammar.places ≤ 9 }
        requires nests { Nests self.now.grammar.depth self.now.grammar.places (F.pre self.now.grammar.part) (F.post self.now.grammar.part) }
        ensures reads { Reads (read self.now.grammar.depth (grammar.declarator_of (grammar.in_place self.now.grammar.places) due least) cursor.old.input) result cursor.new.input }
        ensures kept { cursor.new.before ≡ cursor.old.before }
        ensures low { IfOk result (λ x. x.height ≤ self.now.grammar.depth) }
    {
        let start = cursor.place();
        let first = self.head(cursor, due, least)?;
        self.grammar.climb(cursor, due, least, start, first)
    }

    /// A declarator without the arrays and parameters that go on after it.
    #[tactic(auto, unfolding(c_syntax::specs::Grammar::declarator_head))]
    fn head(&self, cursor: &mut Cursor<'_>, due: Sort, least: u8) -> Result<Standing, Refusal>
        requires depth { self.now.grammar.depth ≤ 1000 }
        requires places { self.now.grammar.places ≤ 9 }
        requires nests { Nests self.now.grammar.depth self.now.grammar.places (F.pre self.now.grammar.part) (F.post self.now.grammar.part) }
        ensures reads { Reads (read self.now.grammar.depth (grammar.declarator_head (grammar.in_place self.now.grammar.places) due least) cursor.old.input) result cursor.new.input }
        ensures kept { cursor.new.before ≡ cursor.old.before }
        ensures low { IfOk result (λ y. y.found.height ≤ self.now.grammar.depth) }
    {
        let start = cursor.place();
        if cursor.shows(Class::Punct(Punct::LeftParen)) {
            self.opened(cursor, due, start)
        } else if cursor.shows(Class::Punct(Punct::Star)) {
            self.grammar.tight(
                cursor,
                due,
                Form::Declarator(DeclaratorForm::Pointer),
                least,
            )
        } else if is_value(cursor.look()) && may_be_named(due) {
            self.named(cursor, due)
        } else if may_be_absent(due) {
            Ok(Standing {
                found: Found::absent(start),
                level: 17,
            })
        } else {
            Err(cursor.refuse())
        }
    }

    /// The name that is declared.
    fn named(&self, cursor: &mut Cursor<'_>, due: Sort) -> Result<Standing, Refusal>
        requires depth { self.now.grammar.depth ≤ 1000 }
        requires places { self.now.grammar.places ≤ 9 }
        requires nests { Nests self.now.grammar.depth self.now.grammar.places (F.pre self.now.grammar.part) (F.post self.now.grammar.part) }
        ensures reads { Reads (read self.now.grammar.depth (grammar.standing 17 (grammar.whole (grammar.in_place self.now.grammar.places) due (grammar.the_declarator declarator.Named))) cursor.old.input) result cursor.new.input }
        ensures kept { cursor.new.before ≡ cursor.old.before }
        ensures low { IfOk result (λ y. y.found.height ≤ self.now.grammar.depth) }
    {
        let found = self
            .grammar
            .whole(cursor, due, Form::Declarator(DeclaratorForm::Named))?;
        Ok(Standing { found, level: 17 })
    }

    /// What begins with a parenthesis: a declarator in parentheses, or the parameters of one
    /// without a name.
    fn opened(&self, cursor: &mut Cursor<'_>, due: Sort, start: usize) -> Result<Standing, Refusal>
        requires depth { self.now.grammar.depth ≤ 1000 }
        requires places { self.now.grammar.places ≤ 9 }
        requires nests { Nests self.now.grammar.depth self.now.grammar.places (F.pre self.now.grammar.part) (F.post self.now.grammar.part) }
        requires start { start < 2 ^ 32 - 1 }
        requires token { grammar.is_sign punct.LeftParen (here cursor.old.input) ≡ true }
        ensures reads { Reads (read self.now.grammar.depth (grammar.opened_declarator due start) cursor.old.input) result cursor.new.input }
        ensures kept { cursor.new.before ≡ cursor.old.before }
        ensures low { IfOk result (λ y. y.found.height ≤ self.now.grammar.depth) }
    {
        cursor.fits(0, self.grammar.depth)?;
        cursor.advance();
        if is_nameable(due) {
            self.parenthesized(cursor, parenthesized_sort(due))
        } else if begins_parenthesized(cursor) {
            self.parenthesized(cursor, due)
        } else {
            self.nameless_function(cursor, due, start)
        }
    }

    /// A declarator in parentheses, after the opening one.
    fn parenthesized(&self, cursor: &mut Cursor<'_>, due: Sort) -> Result<Standing, Refusal>
        requires depth { self.now.grammar.depth ≤ 1000 }
        requires places { self.now.grammar.places ≤ 9 }
        requires nests { Nests self.now.grammar.depth self.now.grammar.places (F.pre self.now.grammar.part) (F.post self.now.grammar.part) }
        ensures reads { Reads (read self.now.grammar.depth (grammar.standing 17 (grammar.parenthesized due)) cursor.old.input) result cursor.new.input }
        ensures kept { cursor.new.before ≡ cursor.old.before }
        ensures low { IfOk result (λ y. y.found.height ≤ self.now.grammar.depth) }
    {
        let found = self.grammar.parenthesized(cursor, due)?;
        Ok(Standing { found, level: 17 })
    }

    /// The parameters of a declarator without a name, after the opening parenthesis.
    fn nameless_function(
        &self,
        cursor: &mut Cursor<'_>,
        due: Sort,
        start: usize,
    ) -> Result<Standing, Refusal>
        requires depth { self.now.grammar.depth ≤ 1000 }
        requires places { self.now.grammar.places ≤ 9 }
        requires nests { Nests self.now.grammar.depth self.now.grammar.places (F.pre self.now.grammar.part) (F.post self.now.grammar.part) }
        requires room { 0 < self.now.grammar.depth }
        requires start { start < 2 ^ 32 - 1 }
        ensures reads { Reads (read self.now.grammar.depth (grammar.nameless_function due start) cursor.old.input) result cursor.new.input }
        ensures kept { cursor.new.before ≡ cursor.old.before }
        ensures low { IfOk result (λ y. y.found.height ≤ self.now.grammar.depth) }
    {
        let form = Form::Declarator(DeclaratorForm::FunctionOf);
        let owner = Owner {
            is_deeper: true,
            own: due,
            form,
        };
        let done = Listed::one(Found::absent(start).deeper());
        let rest = after_first(after_first(pieces(form)));
        let found = self.grammar.completed(cursor, owner, start, done, rest)?;
        Ok(Standing {
            found,
            level: level(form),
        })
    }
}
