//! Reads sorts by the table of forms.

ghost use Rattle.std.specs.Prelude.{◌≡◌, ◌≤◌, ◌<◌, ◌-◌, ◌^◌, IfOk, OnOk, true};
ghost use Rattle.c_forms.specs.Sets.{starts};
ghost use Rattle.c_reader.specs.Readers.{Reads, here};
ghost use Rattle.c_syntax.specs.Reading as reading;
ghost use Rattle.table_parser.specs.Filled.{before_of};
ghost use Rattle.table_parser.specs.Into.{ReadsInto};
ghost use Rattle.table_parser.specs.Nests.{Nests, read, part_of};
ghost use Rattle.table_parser.specs.Sound.{is_sound, is_token};

use crate::cursor::Cursor;
use crate::filling::Before;
use crate::found::{Found, Gathered};
use c_forms::{Form, Repetition, Sort};
use c_reader::Refusal;
use c_tokens::Class;
use form_decisions::{goes_on_with, may_begin, may_begin_element};
use std::alloc::Global;

/// How many nodes that do not count for the height may lie in one another.
pub const PLACES: u8 = 9;

/// What reads a node with `depth` levels left, in which `places` nodes that do not count for the
/// height may lie in one another. The function value reads the parts.
#[derive(Clone, Copy)]
pub struct Grammar<F> {
    pub alloc: Global,
    pub depth: usize,
    pub places: u8,
    pub part: F,
}

/// How parts are read: one level deeper or in place, and of which sort and least level.
#[derive(Clone, Copy)]
pub struct Part {
    pub is_deeper: bool,
    pub due: Sort,
    pub least: u8,
}

/// A node whose pieces are read: the sort that it is read as, its form, and how its parts are read.
#[derive(Clone, Copy)]
pub struct Owner {
    pub is_deeper: bool,
    pub own: Sort,
    pub form: Form,
}

impl<F: Fn(Global, &mut Cursor<'_>, usize, u8, Sort, u8) -> Result<Found, Refusal>> Grammar<F> {
    /// A part of a node.
    #[tactic(auto, using(crate::proofs::Levels::levels))]
    pub fn part(&self, cursor: &mut Cursor<'_>, part: Part) -> Result<Found, Refusal>
        requires depth { self.now.depth ≤ 1000 }
        requires places { self.now.places ≤ 9 }
        requires nests { Nests self.now.depth self.now.places (F.pre self.now.part) (F.post self.now.part) }
        ensures reads { Reads (read self.now.depth (part_of part.is_deeper self.now.places part.due part.least) cursor.old.input) result cursor.new.input }
        ensures kept { cursor.new.before ≡ cursor.old.before }
        ensures low { IfOk result (λ x. x.height ≤ self.now.depth) }
    {
        if !part.is_deeper {
            return (self.part)(
                self.alloc,
                cursor,
                self.depth,
                self.places,
                part.due,
                part.least,
            );
        }
        if self.depth == 0 {
            return Err(Refusal::TooDeep(cursor.place()));
        }
        let found = (self.part)(
            self.alloc,
            cursor,
            self.depth - 1,
            PLACES,
            part.due,
            part.least,
        )?;
        Ok(found.deeper())
    }

    /// One element after those that were read.
    #[tactic(auto, unfolding(c_syntax::specs::Reading::element_after))]
    fn element_after(
        &self,
        cursor: &mut Cursor<'_>,
        part: Part,
        all: &mut Gathered,
    ) -> Result<(), Refusal>
        requires depth { self.now.depth ≤ 1000 }
        requires places { self.now.places ≤ 9 }
        requires nests { Nests self.now.depth self.now.places (F.pre self.now.part) (F.post self.now.part) }
        requires low { all.old.height ≤ self.now.depth }
        ensures reads { ReadsInto (read self.now.depth (reading.element_after (part_of part.is_deeper self.now.places part.due part.least) all.old) cursor.old.input) result all.new cursor.new.input }
        ensures kept { cursor.new.before ≡ cursor.old.before }
        ensures low { OnOk result (all.new.height ≤ self.now.depth) }
        ensures last { OnOk result (all.new.last < 2 ^ 32 - 1) }
    {
        let found = self.part(cursor, part)?;
        all.push(self.alloc, found, cursor.place())
    }

    /// The elements after the first.
    #[tactic(auto, using(crate::proofs::Elements::elements))]
    pub fn others(
        &self,
        cursor: &mut Cursor<'_>,
        repetition: Repetition,
        part: Part,
        all: &mut Gathered,
    ) -> Result<(), Refusal>
        requires depth { self.now.depth ≤ 1000 }
        requires places { self.now.places ≤ 9 }
        requires nests { Nests self.now.depth self.now.places (F.pre self.now.part) (F.post self.now.part) }
        requires sound { is_sound repetition ≡ true }
        requires low { all.old.height ≤ self.now.depth }
        requires last { all.old.last < 2 ^ 32 - 1 }
        ensures reads { ReadsInto (read self.now.depth (reading.others repetition part.due (part_of part.is_deeper self.now.places part.due part.least) all.old) cursor.old.input) result all.new cursor.new.input }
        ensures kept { cursor.new.before ≡ cursor.old.before }
        ensures low { OnOk result (all.new.height ≤ self.now.depth) }
        ensures last { OnOk result (all.new.last < 2 ^ 32 - 1) }
    {
        let mut turns = self.depth + cursor.len();
        'elements: while goes_on_with(repetition, part.due, cursor.look().class) {
            self.one_more(cursor, repetition, part, all)?;
            if turns == 0 {
                return Err(Refusal::TooDeep(cursor.place()));
            }
            turns -= 1;
        }
        Ok(())
    }

    /// One more element of a list that goes on.
    #[tactic(auto, using(crate::proofs::Separators::separator_token))]
    fn one_more(
        &self,
        cursor: &mut Cursor<'_>,
        repetition: Repetition,
        part: Part,
        all: &mut Gathered,
    ) -> Result<(), Refusal>
        requires depth { self.now.depth ≤ 1000 }
        requires places { self.now.places ≤ 9 }
        requires nests { Nests self.now.depth self.now.places (F.pre self.now.part) (F.post self.now.part) }
        requires sound { is_sound repetition ≡ true }
        requires goes { reading.goes repetition part.due all.old (here cursor.old.input) ≡ true }
        requires low { all.old.height ≤ self.now.depth }
        ensures reads { ReadsInto (read self.now.depth (reading.separated (reading.separator_of repetition) (reading.element_after (part_of part.is_deeper self.now.places part.due part.least) all.old)) cursor.old.input) result all.new cursor.new.input }
        ensures kept { cursor.new.before ≡ cursor.old.before }
        ensures low { OnOk result (all.new.height ≤ self.now.depth) }
        ensures last { OnOk result (all.new.last < 2 ^ 32 - 1) }
    {
        if separator_of(repetition).is_some() {
            cursor.advance();
        }
        self.element_after(cursor, part, all)
    }

    /// The elements after the first of a list that may end in its separator.
    #[tactic(auto, using(crate::proofs::Elements::ends))]
    fn others_ended(
        &self,
        cursor: &mut Cursor<'_>,
        separator: Class,
        end: Class,
        part: Part,
        all: &mut Gathered,
    ) -> Result<(), Refusal>
        requires depth { self.now.depth ≤ 1000 }
        requires places { self.now.places ≤ 9 }
        requires nests { Nests self.now.depth self.now.places (F.pre self.now.part) (F.post self.now.part) }
        requires sound { is_token separator ≡ true }
        requires low { all.old.height ≤ self.now.depth }
        requires last { all.old.last < 2 ^ 32 - 1 }
        ensures reads { ReadsInto (read self.now.depth (reading.others_ended separator end (part_of part.is_deeper self.now.places part.due part.least) all.old) cursor.old.input) result all.new cursor.new.input }
        ensures kept { cursor.new.before ≡ cursor.old.before }
        ensures low { OnOk result (all.new.height ≤ self.now.depth) }
        ensures last { OnOk result (all.new.last < 2 ^ 32 - 1) }
    {
        let mut turns = self.depth + cursor.len();
        'elements: while cursor.shows(separator) {
            cursor.advance();
            if cursor.shows(end) {
                all.mark_ended();
                return Ok(());
            }
            self.element_after(cursor, part, all)?;
            if turns == 0 {
                return Err(Refusal::TooDeep(cursor.place()));
            }
            turns -= 1;
        }
        Ok(())
    }

    /// One or more elements from a place on.
    #[tactic(auto, unfolding(c_syntax::specs::Reading::many))]
    fn many(
        &self,
        cursor: &mut Cursor<'_>,
        repetition: Repetition,
        part: Part,
        start: usize,
        all: &mut Gathered,
    ) -> Result<(), Refusal>
        requires depth { self.now.depth ≤ 1000 }
        requires places { self.now.places ≤ 9 }
        requires nests { Nests self.now.depth self.now.places (F.pre self.now.part) (F.post self.now.part) }
        requires sound { is_sound repetition ≡ true }
        requires start { start < 2 ^ 32 - 1 }
        requires none { all.old ≡ reading.none_at start }
        ensures reads { ReadsInto (read self.now.depth (reading.many repetition part.due (part_of part.is_deeper self.now.places part.due part.least) start) cursor.old.input) result all.new cursor.new.input }
        ensures kept { cursor.new.before ≡ cursor.old.before }
        ensures low { OnOk result (all.new.height ≤ self.now.depth) }
        ensures last { OnOk result (all.new.last < 2 ^ 32 - 1) }
    {
        self.element_after(cursor, part, all)?;
        match repetition {
            Repetition::Ended { separator, end } => self.others_ended(
                cursor, separator, end, part, all,
            ),
            _ => self.others(cursor, repetition, part, all),
        }
    }

    /// An element that may be absent.
    fn at_most_one(
        &self,
        cursor: &mut Cursor<'_>,
        part: Part,
        start: usize,
        all: &mut Gathered,
    ) -> Result<(), Refusal>
        requires depth { self.now.depth ≤ 1000 }
        requires places { self.now.places ≤ 9 }
        requires nests { Nests self.now.depth self.now.places (F.pre self.now.part) (F.post self.now.part) }
        requires start { start < 2 ^ 32 - 1 }
        requires none { all.old ≡ reading.none_at start }
        ensures reads { ReadsInto (read self.now.depth (reading.at_most_one (part_of part.is_deeper self.now.places part.due part.least) (starts part.due) start) cursor.old.input) result all.new cursor.new.input }
        ensures kept { cursor.new.before ≡ cursor.old.before }
        ensures low { OnOk result (all.new.height ≤ self.now.depth) }
        ensures last { OnOk result (all.new.last < 2 ^ 32 - 1) }
    {
        if may_begin(part.due, cursor.look().class) {
            self.element_after(cursor, part, all)
        } else {
            Ok(())
        }
    }

    /// Any number of elements, or at least one.
    fn any_number(
        &self,
        cursor: &mut Cursor<'_>,
        is_some: bool,
        repetition: Repetition,
        part: Part,
        start: usize,
        all: &mut Gathered,
    ) -> Result<(), Refusal>
        requires depth { self.now.depth ≤ 1000 }
        requires places { self.now.places ≤ 9 }
        requires nests { Nests self.now.depth self.now.places (F.pre self.now.part) (F.post self.now.part) }
        requires sound { is_sound repetition ≡ true }
        requires start { start < 2 ^ 32 - 1 }
        requires none { all.old ≡ reading.none_at start }
        ensures reads { ReadsInto (read self.now.depth (reading.any_number is_some repetition part.due (part_of part.is_deeper self.now.places part.due part.least) start) cursor.old.input) result all.new cursor.new.input }
        ensures kept { cursor.new.before ≡ cursor.old.before }
        ensures low { OnOk result (all.new.height ≤ self.now.depth) }
        ensures last { OnOk result (all.new.last < 2 ^ 32 - 1) }
    {
        if is_some {
            self.many(cursor, repetition, part, start, all)
        } else if may_begin_element(repetition, part.due, cursor.look().class) {
            self.many(cursor, repetition, part, start, all)
        } else {
            Ok(())
        }
    }

    fn gathered_from(
        &self,
        cursor: &mut Cursor<'_>,
        repetition: Repetition,
        part: Part,
        before: Before,
        start: usize,
        all: &mut Gathered,
    ) -> Result<(), Refusal>
        requires depth { self.now.depth ≤ 1000 }
        requires places { self.now.places ≤ 9 }
        requires nests { Nests self.now.depth self.now.places (F.pre self.now.part) (F.post self.now.part) }
        requires sound { is_sound repetition ≡ true }
        requires start { start < 2 ^ 32 - 1 }
        requires none { all.old ≡ reading.none_at start }
        ensures reads { ReadsInto (read self.now.depth (reading.gathered_by repetition part.due (part_of part.is_deeper self.now.places part.due part.least) (before_of before) start) cursor.old.input) result all.new cursor.new.input }
        ensures kept { cursor.new.before ≡ cursor.old.before }
        ensures low { OnOk result (all.new.height ≤ self.now.depth) }
        ensures last { OnOk result (all.new.last < 2 ^ 32 - 1) }
    {
        match repetition {
            Repetition::Optional | Repetition::Greedy => self.at_most_one(cursor, part, start, all),
            Repetition::Due => match before {
                Before::Missing => self.element_after(cursor, part, all),
                Before::Usual | Before::Taken => self.at_most_one(cursor, part, start, all),
            },
            Repetition::All => self.many(cursor, repetition, part, start, all),
            Repetition::Any => self.any_number(cursor, false, repetition, part, start, all),
            Repetition::Many { least, .. } => self.any_number(
                cursor,
                least == 1,
                repetition,
                part,
                start,
                all,
            ),
            Repetition::Spliced { least, .. } => self.any_number(
                cursor,
                least == 1,
                repetition,
                part,
                start,
                all,
            ),
            Repetition::Ended { .. } => self.many(cursor, repetition, part, start, all),
        }
    }

    /// The elements of a repetition, after none.
    #[tactic(auto, unfolding(c_syntax::specs::Reading::gathered))]
    pub fn gathered(
        &self,
        cursor: &mut Cursor<'_>,
        repetition: Repetition,
        part: Part,
        before: Before,
        all: &mut Gathered,
    ) -> Result<(), Refusal>
        requires depth { self.now.depth ≤ 1000 }
        requires places { self.now.places ≤ 9 }
        requires nests { Nests self.now.depth self.now.places (F.pre self.now.part) (F.post self.now.part) }
        requires sound { is_sound repetition ≡ true }
        requires none { all.old ≡ reading.none_at cursor.old.input.at.place }
        ensures reads { ReadsInto (read self.now.depth (reading.gathered repetition part.due (part_of part.is_deeper self.now.places part.due part.least) (before_of before)) cursor.old.input) result (cursor.old.input.at.place, all.new) cursor.new.input }
        ensures kept { cursor.new.before ≡ cursor.old.before }
        ensures low { OnOk result (all.new.height ≤ self.now.depth) }
        ensures last { OnOk result (all.new.last < 2 ^ 32 - 1) }
    {
        let start = cursor.place();
        self.gathered_from(cursor, repetition, part, before, start, all)
    }
}

fn separator_of(repetition: Repetition) -> Option<Class>
    ensures { result ≡ reading.separator_of repetition }
{
    match repetition {
        Repetition::Many { separator, .. } | Repetition::Spliced { separator, .. } => separator,
        Repetition::Ended { separator, .. } => Some(separator),
        _ => None,
    }
}
