//! External declarations (ISO/IEC 9899:1990, 6.7).

ghost use Rattle.std.specs.Prelude.{◌≡◌, ◌≤◌, ◌<◌, ◌-◌, ◌^◌, IfOk};
ghost use Rattle.c_forms.specs.declared.pieces.Repetition.TheVariants as repetition;
ghost use Rattle.c_forms.specs.declared.pieces.Sort.TheVariants as sort;
ghost use Rattle.c_reader.specs.Readers.{Reads};
ghost use Rattle.c_syntax.specs.Grammar as grammar;
ghost use Rattle.c_syntax.specs.Reading as reading;
ghost use Rattle.table_parser.specs.Cursors.{seen};
ghost use Rattle.table_parser.specs.Nests.{Nests, read};

use c_forms::{Event, Form, GroupForm, ItemForm, Repetition, Sort};
use c_reader::Refusal;
use c_tokens::{Class, Punct};
use form_decisions::may_begin;
use form_rows::pieces;
use std::alloc::Global;
use table_parser::{
    Before, Cursor, Found, Gathered, Grammar, Listed, Owner, Part, Seen, after_first, node,
};

const COMMA: Class = Class::Punct(Punct::Comma);

const SEMICOLON: Class = Class::Punct(Punct::Semicolon);

const EQUAL: Class = Class::Punct(Punct::Equal);

/// What reads external declarations, with what reads their parts.
#[derive(Clone, Copy)]
pub struct Externals<F> {
    pub grammar: Grammar<F>,
}

/// Whether a token goes on with a declaration after its first declarator (6.5).
fn goes_on_declaring(token: Seen) -> bool
    ensures { result ≡ grammar.goes_on_declaring (seen token) }
{
    token.class == COMMA.number()
        || token.class == SEMICOLON.number()
        || token.class == EQUAL.number()
}

impl<
    F: Copy + Fn(Global, &mut Cursor<'_>, usize, u8, Sort, u8) -> Result<Found, Refusal>,
> Externals<F> {
    /// The rest of a function, after its specifiers and its declarator (6.7.1).
    fn function_from(
        &self,
        cursor: &mut Cursor<'_>,
        start: usize,
        specifiers: Found,
        declarator: Found,
    ) -> Result<Found, Refusal>
        requires depth { self.now.grammar.depth ≤ 1000 }
        requires places { self.now.grammar.places ≤ 9 }
        requires nests { Nests self.now.grammar.depth self.now.grammar.places (F.pre self.now.grammar.part) (F.post self.now.grammar.part) }
        requires start { start < 2 ^ 32 - 1 }
        requires specifiers { specifiers.height ≤ self.now.grammar.depth }
        requires declarator { declarator.height ≤ self.now.grammar.depth }
        ensures reads { Reads (read self.now.grammar.depth (grammar.function_from (grammar.in_place self.now.grammar.places) start specifiers declarator) cursor.old.input) result cursor.new.input }
        ensures kept { cursor.new.before ≡ cursor.old.before }
        ensures low { IfOk result (λ x. x.height ≤ self.now.grammar.depth) }
    {
        let form = Form::Item(ItemForm::Function);
        let owner = Owner {
            is_deeper: false,
            own: Sort::Item,
            form,
        };
        let mut parts = Listed::one(specifiers);
        parts.push(self.grammar.alloc, declarator)?;
        let rest = after_first(after_first(pieces(form)));
        self.grammar.completed(cursor, owner, start, parts, rest)
    }

    /// The end of a declaration, after its specifiers and its declarators (6.5).
    fn declaration_of(
        &self,
        cursor: &mut Cursor<'_>,
        start: usize,
        specifiers: Found,
        declarators: Found,
    ) -> Result<Found, Refusal>
        requires depth { self.now.grammar.depth ≤ 1000 }
        requires places { self.now.grammar.places ≤ 9 }
        requires nests { Nests self.now.grammar.depth self.now.grammar.places (F.pre self.now.grammar.part) (F.post self.now.grammar.part) }
        requires start { start < 2 ^ 32 - 1 }
        requires specifiers { specifiers.height ≤ self.now.grammar.depth }
        requires declarators { declarators.height ≤ self.now.grammar.depth }
        ensures reads { Reads (read self.now.grammar.depth (grammar.declaration_of (grammar.in_place self.now.grammar.places) start specifiers declarators) cursor.old.input) result cursor.new.input }
        ensures kept { cursor.new.before ≡ cursor.old.before }
        ensures low { IfOk result (λ x. x.height ≤ self.now.grammar.depth) }
    {
        let form = Form::Decl;
        let owner = Owner {
            is_deeper: false,
            own: Sort::Decl,
            form,
        };
        let mut parts = Listed::one(specifiers);
        parts.push(self.grammar.alloc, declarators)?;
        let rest = after_first(after_first(pieces(form)));
        let declaration = self.grammar.completed(cursor, owner, start, parts, rest)?;
        let end = cursor.place();
        node(
            self.grammar.alloc,
            Form::Item(ItemForm::Declaration),
            start,
            end,
            Listed::one(declaration),
        )
    }

    /// The rest of a declaration, after its specifiers and its first declarator, which begins at a
    /// place (6.5).
    fn declaration_from(
        &self,
        cursor: &mut Cursor<'_>,
        start: usize,
        specifiers: Found,
        place: usize,
        declarator: Found,
    ) -> Result<Found, Refusal>
        requires depth { self.now.grammar.depth ≤ 1000 }
        requires places { self.now.grammar.places ≤ 9 }
        requires nests { Nests self.now.grammar.depth self.now.grammar.places (F.pre self.now.grammar.part) (F.post self.now.grammar.part) }
        requires start { start < 2 ^ 32 - 1 }
        requires place { place < 2 ^ 32 - 1 }
        requires specifiers { specifiers.height ≤ self.now.grammar.depth }
        requires declarator { declarator.height ≤ self.now.grammar.depth }
        ensures reads { Reads (read self.now.grammar.depth (grammar.declaration_from (grammar.in_place self.now.grammar.places) start specifiers place declarator) cursor.old.input) result cursor.new.input }
        ensures kept { cursor.new.before ≡ cursor.old.before }
        ensures low { IfOk result (λ x. x.height ≤ self.now.grammar.depth) }
    {
        let form = Form::Group(GroupForm::InitDeclarator);
        let found = self
            .grammar
            .after_part(cursor, Sort::InitDeclarator, form, place, declarator)?;
        let mut all = Gathered::none_at(place);
        all.push(self.grammar.alloc, found, cursor.place())?;
        let repetition = Repetition::Spliced {
            separator: Some(COMMA),
            least: 0,
        };
        let part = Part {
            is_deeper: false,
            due: Sort::InitDeclarator,
            least: 0,
        };
        self.grammar.others(cursor, repetition, part, &mut all)?;
        let declarators = all.list_from(self.grammar.alloc, place)?;
        self.declaration_of(cursor, start, specifiers, declarators)
    }

    /// What follows the first declarator decides between a function and a declaration, unless it must
    /// be a function.
    fn outer_by(
        &self,
        cursor: &mut Cursor<'_>,
        is_due: bool,
        start: usize,
        specifiers: Found,
        place: usize,
        declarator: Found,
    ) -> Result<Found, Refusal>
        requires depth { self.now.grammar.depth ≤ 1000 }
        requires places { self.now.grammar.places ≤ 9 }
        requires nests { Nests self.now.grammar.depth self.now.grammar.places (F.pre self.now.grammar.part) (F.post self.now.grammar.part) }
        requires start { start < 2 ^ 32 - 1 }
        requires place { place < 2 ^ 32 - 1 }
        requires specifiers { specifiers.height ≤ self.now.grammar.depth }
        requires declarator { declarator.height ≤ self.now.grammar.depth }
        ensures reads { Reads (read self.now.grammar.depth (grammar.outer_by is_due (grammar.in_place self.now.grammar.places) start specifiers place declarator) cursor.old.input) result cursor.new.input }
        ensures kept { cursor.new.before ≡ cursor.old.before }
        ensures low { IfOk result (λ x. x.height ≤ self.now.grammar.depth) }
    {
        if is_due || (cursor.attempt().is_function() && !goes_on_declaring(cursor.look())) {
            self.function_from(cursor, start, specifiers, declarator)
        } else {
            self.declaration_from(cursor, start, specifiers, place, declarator)
        }
    }

    /// A function or a declaration with declarators, after its specifiers.
    fn outer(
        &self,
        cursor: &mut Cursor<'_>,
        is_due: bool,
        start: usize,
        specifiers: Found,
    ) -> Result<Found, Refusal>
        requires depth { self.now.grammar.depth ≤ 1000 }
        requires places { self.now.grammar.places ≤ 9 }
        requires nests { Nests self.now.grammar.depth self.now.grammar.places (F.pre self.now.grammar.part) (F.post self.now.grammar.part) }
        requires start { start < 2 ^ 32 - 1 }
        requires specifiers { specifiers.height ≤ self.now.grammar.depth }
        ensures reads { Reads (read self.now.grammar.depth (grammar.outer is_due (grammar.in_place self.now.grammar.places) start specifiers) cursor.old.input) result cursor.new.input }
        ensures kept { cursor.new.before ≡ cursor.old.before }
        ensures low { IfOk result (λ x. x.height ≤ self.now.grammar.depth) }
    {
        let place = cursor.place();
        let part = Part {
            is_deeper: false,
            due: Sort::Declarator,
            least: 1,
        };
        let declarator = self.grammar.part(cursor, part)?;
        self.outer_by(cursor, is_due, start, specifiers, place, declarator)
    }

    /// An external declaration that begins with specifiers. It may have no declarator (6.5).
    fn specified(&self, cursor: &mut Cursor<'_>) -> Result<Found, Refusal>
        requires depth { self.now.grammar.depth ≤ 1000 }
        requires places { self.now.grammar.places ≤ 9 }
        requires nests { Nests self.now.grammar.depth self.now.grammar.places (F.pre self.now.grammar.part) (F.post self.now.grammar.part) }
        ensures reads { Reads (read self.now.grammar.depth (grammar.specified (grammar.in_place self.now.grammar.places) cursor.old.input.at.place) cursor.old.input) result cursor.new.input }
        ensures kept { cursor.new.before ≡ cursor.old.before }
        ensures low { IfOk result (λ x. x.height ≤ self.now.grammar.depth) }
    {
        let start = cursor.place();
        let specifiers = self.specifiers(cursor)?;
        if cursor.shows(SEMICOLON) {
            let place = cursor.place();
            let none = Gathered::none_at(place).list_from(self.grammar.alloc, place)?;
            self.declaration_of(cursor, start, specifiers, none)
        } else {
            self.outer(cursor, false, start, specifiers)
        }
    }

    /// One or more specifiers (6.5).
    fn specifiers(&self, cursor: &mut Cursor<'_>) -> Result<Found, Refusal>
        requires depth { self.now.grammar.depth ≤ 1000 }
        requires places { self.now.grammar.places ≤ 9 }
        requires nests { Nests self.now.grammar.depth self.now.grammar.places (F.pre self.now.grammar.part) (F.post self.now.grammar.part) }
        ensures reads { Reads (read self.now.grammar.depth (reading.grouped repetition.All sort.Spec (grammar.in_place self.now.grammar.places sort.Spec 0) reading.Usual) cursor.old.input) result cursor.new.input }
        ensures kept { cursor.new.before ≡ cursor.old.before }
        ensures low { IfOk result (λ x. x.height ≤ self.now.grammar.depth) }
    {
        let part = Part {
            is_deeper: false,
            due: Sort::Spec,
            least: 0,
        };
        let start = cursor.place();
        let mut all = Gathered::none_at(start);
        self.grammar
            .gathered(cursor, Repetition::All, part, Before::Usual, &mut all)?;
        all.list_from(self.grammar.alloc, start)
    }

    /// Without specifiers an external declaration is a function (6.7.1).
    fn unspecified(&self, cursor: &mut Cursor<'_>) -> Result<Found, Refusal>
        requires depth { self.now.grammar.depth ≤ 1000 }
        requires places { self.now.grammar.places ≤ 9 }
        requires nests { Nests self.now.grammar.depth self.now.grammar.places (F.pre self.now.grammar.part) (F.post self.now.grammar.part) }
        ensures reads { Reads (read self.now.grammar.depth (grammar.unspecified (grammar.in_place self.now.grammar.places) cursor.old.input.at.place) cursor.old.input) result cursor.new.input }
        ensures kept { cursor.new.before ≡ cursor.old.before }
        ensures low { IfOk result (λ x. x.height ≤ self.now.grammar.depth) }
    {
        let start = cursor.place();
        cursor.happens(Event::FunctionDue)?;
        let none = Gathered::none_at(start).list_from(self.grammar.alloc, start)?;
        self.outer(cursor, true, start, none)
    }

    /// An external declaration (6.7).
    #[inline(never)]
    #[tactic(auto, unfolding(c_syntax::specs::Grammar::external))]
    pub fn external(&self, cursor: &mut Cursor<'_>) -> Result<Found, Refusal>
        requires depth { self.now.grammar.depth ≤ 1000 }
        requires places { self.now.grammar.places ≤ 9 }
        requires nests { Nests self.now.grammar.depth self.now.grammar.places (F.pre self.now.grammar.part) (F.post self.now.grammar.part) }
        ensures reads { Reads (read self.now.grammar.depth (grammar.external (grammar.in_place self.now.grammar.places)) cursor.old.input) result cursor.new.input }
        ensures kept { cursor.new.before ≡ cursor.old.before }
        ensures low { IfOk result (λ x. x.height ≤ self.now.grammar.depth) }
    {
        if may_begin(Sort::Spec, cursor.look().class) {
            self.specified(cursor)
        } else {
            self.unspecified(cursor)
        }
    }
}
