//! Whole nodes, by the pieces of their rows.

ghost use Rattle.std.specs.Prelude.{◌≡◌, ◌≤◌, ◌<◌, ◌-◌, ◌^◌, IfOk, IfErr, OnOk, true, false};
ghost use Rattle.c_reader.specs.Readers.{Reads};
ghost use Rattle.c_reader.specs.declared.refusal.Refusal.TheVariants as refusal;
ghost use Rattle.c_syntax.specs.Grammar as grammar;
ghost use Rattle.c_syntax.specs.Reading as reading;
ghost use Rattle.table_parser.specs.Filled.{ReadsAs, before_of, by_piece, filled, filling_of, going, with_piece};
ghost use Rattle.table_parser.specs.Into.{ReadsInto};
ghost use Rattle.table_parser.specs.Nests.{Nests, read, part_of, deeper_by};
ghost use Rattle.table_parser.specs.Sound.{are_sound, is_element, is_sound, piece_sound};
ghost use Rattle.c_forms.specs.declared.pieces.Piece.TheVariants as piece;

use crate::cursor::Cursor;
use crate::filling::{Before, Filling, before_after, before_by, inside, skips};
use crate::found::{Found, Gathered, Listed, node};
use crate::grammar::{Grammar, Owner, Part};
use c_forms::{Form, InitForm, Piece, Repetition, Sort, StmtForm};
use c_reader::Refusal;
use c_tokens::{Class, Punct};
use form_decisions::is_starred;
use form_rows::pieces;
use std::alloc::Global;

/// The pieces after the first, of which a node has a part already.
pub fn after_first(pieces: &[Piece]) -> &[Piece]
    ensures { result.now ≡ grammar.after_first pieces.now }
{
    match pieces.split_first() {
        Some((_, rest)) => rest,
        None => &[],
    }
}

/// The pieces after an opening parenthesis and what happens there.
pub fn after_paren(pieces: &[Piece]) -> &[Piece]
    ensures { result.now ≡ grammar.after_paren pieces.now }
{
    match pieces {
        [Piece::Token(_), Piece::Then(_), rest @ ..] => rest,
        [Piece::Token(_), rest @ ..] => after_paren(rest),
        _ => &[],
    }
}

impl<F: Fn(Global, &mut Cursor<'_>, usize, u8, Sort, u8) -> Result<Found, Refusal>> Grammar<F> {
    /// A part after those that were read.
    fn with_part(
        &self,
        cursor: &mut Cursor<'_>,
        owner: Owner,
        due: Sort,
        least: u8,
        done: &mut Listed,
    ) -> Result<Filling, Refusal>
        requires depth { self.now.depth ≤ 1000 }
        requires places { self.now.places ≤ 9 }
        requires nests { Nests self.now.depth self.now.places (F.pre self.now.part) (F.post self.now.part) }
        requires low { done.old.height ≤ self.now.depth }
        ensures reads { ReadsAs (read self.now.depth (by_piece (part_of owner.is_deeper self.now.places) owner.own owner.form (piece.One due least) reading.Usual done.old) cursor.old.input) result done.new cursor.new.input }
        ensures kept { cursor.new.before ≡ cursor.old.before }
        ensures low { OnOk result (done.new.height ≤ self.now.depth) }
    {
        let part = Part {
            is_deeper: owner.is_deeper,
            due: inside(owner.own, due),
            least,
        };
        let found = self.part(cursor, part)?;
        let before = before_by(found.is_absent());
        done.push(self.alloc, found)?;
        Ok(Filling::going(before))
    }

    /// The list of a repetition after the parts that were read.
    fn with_group(
        &self,
        cursor: &mut Cursor<'_>,
        owner: Owner,
        repetition: Repetition,
        part: Part,
        before: Before,
        done: &mut Listed,
    ) -> Result<Filling, Refusal>
        requires depth { self.now.depth ≤ 1000 }
        requires places { self.now.places ≤ 9 }
        requires nests { Nests self.now.depth self.now.places (F.pre self.now.part) (F.post self.now.part) }
        requires sound { is_sound repetition ≡ true }
        requires deeper { part.is_deeper ≡ owner.is_deeper }
        requires low { done.old.height ≤ self.now.depth }
        ensures reads { ReadsAs (read self.now.depth (by_piece (part_of owner.is_deeper self.now.places) owner.own owner.form (piece.Group repetition part.due part.least) (before_of before) done.old) cursor.old.input) result done.new cursor.new.input }
        ensures kept { cursor.new.before ≡ cursor.old.before }
        ensures low { OnOk result (done.new.height ≤ self.now.depth) }
    {
        let start = cursor.place();
        let mut all = Gathered::none_at(start);
        self.gathered(cursor, repetition, part, before, &mut all)?;
        let is_skipped = skips(repetition, all.is_ended());
        let before = before_after(repetition, &all);
        let list = all.list_from(self.alloc, start)?;
        done.push(self.alloc, list)?;
        Ok(Filling { before, is_skipped })
    }

    /// The parts with those of one more piece.
    #[tactic(auto, unfolding(crate::specs::Filled::with_piece))]
    fn with_piece(
        &self,
        cursor: &mut Cursor<'_>,
        owner: Owner,
        piece: Piece,
        filling: Filling,
        done: &mut Listed,
    ) -> Result<Filling, Refusal>
        requires depth { self.now.depth ≤ 1000 }
        requires places { self.now.places ≤ 9 }
        requires nests { Nests self.now.depth self.now.places (F.pre self.now.part) (F.post self.now.part) }
        requires sound { piece_sound owner.form piece ≡ true }
        requires low { done.old.height ≤ self.now.depth }
        ensures reads { ReadsAs (read self.now.depth (with_piece (part_of owner.is_deeper self.now.places) owner.own owner.form piece (filling_of filling done.old)) cursor.old.input) result done.new cursor.new.input }
        ensures kept { cursor.new.before ≡ cursor.old.before }
        ensures low { OnOk result (done.new.height ≤ self.now.depth) }
    {
        if filling.is_skipped {
            return Ok(Filling::going(Before::Usual));
        }
        match piece {
            Piece::Token(class) => {
                cursor.take(class)?;
                Ok(Filling::going(Before::Usual))
            }
            Piece::Maybe(class) => {
                if cursor.shows(class) {
                    cursor.advance();
                }
                Ok(Filling::going(Before::Usual))
            }
            Piece::Own => {
                cursor.take_held(owner.form)?;
                Ok(Filling::going(Before::Usual))
            }
            Piece::One(due, least) => self.with_part(cursor, owner, due, least, done),
            Piece::Group(repetition, due, least) => {
                let part = Part {
                    is_deeper: owner.is_deeper,
                    due,
                    least,
                };
                self.with_group(cursor, owner, repetition, part, filling.before, done)
            }
            Piece::Then(event) => {
                if !cursor.attempt().may_happen(event) {
                    return Err(cursor.refuse());
                }
                cursor.happens(event)?;
                Ok(Filling::going(filling.before))
            }
            Piece::TypeTokens | Piece::KindName | Piece::Rest(_) | Piece::Anything => Err(
                cursor.refuse(),
            ),
        }
    }

    /// The parts of pieces, after these.
    fn filled(
        &self,
        cursor: &mut Cursor<'_>,
        owner: Owner,
        pieces: &[Piece],
        done: &mut Listed,
    ) -> Result<(), Refusal>
        requires depth { self.now.depth ≤ 1000 }
        requires places { self.now.places ≤ 9 }
        requires nests { Nests self.now.depth self.now.places (F.pre self.now.part) (F.post self.now.part) }
        requires sound { are_sound owner.form pieces.now ≡ true }
        requires low { done.old.height ≤ self.now.depth }
        ensures reads { ReadsInto (read self.now.depth (filled (part_of owner.is_deeper self.now.places) owner.own owner.form pieces.now (going reading.Usual done.old)) cursor.old.input) result done.new cursor.new.input }
        ensures kept { cursor.new.before ≡ cursor.old.before }
        ensures low { OnOk result (done.new.height ≤ self.now.depth) }
    {
        let mut filling = Filling::going(Before::Usual);
        'pieces: for piece in pieces {
            filling = self.with_piece(cursor, owner, *piece, filling, done)?;
        }
        Ok(())
    }

    /// A node from a place on, of these parts and those of the pieces that are left.
    #[tactic(auto, using(crate::proofs::Pushed::completions))]
    pub fn completed(
        &self,
        cursor: &mut Cursor<'_>,
        owner: Owner,
        start: usize,
        done: Listed,
        pieces: &[Piece],
    ) -> Result<Found, Refusal>
        requires depth { self.now.depth ≤ 1000 }
        requires places { self.now.places ≤ 9 }
        requires nests { Nests self.now.depth self.now.places (F.pre self.now.part) (F.post self.now.part) }
        requires sound { are_sound owner.form pieces.now ≡ true }
        requires room { deeper_by (reading.is_starred owner.form) ≤ self.now.depth }
        requires start { start < 2 ^ 32 - 1 }
        requires low { done.height ≤ self.now.depth }
        ensures reads { Reads (read self.now.depth (reading.completed (part_of owner.is_deeper self.now.places) owner.own owner.form start done pieces.now) cursor.old.input) result cursor.new.input }
        ensures kept { cursor.new.before ≡ cursor.old.before }
        ensures low { IfOk result (λ x. x.height ≤ self.now.depth) }
    {
        let mut parts = done;
        self.filled(cursor, owner, pieces, &mut parts)?;
        let end = cursor.place();
        Ok(node(self.alloc, owner.form, start, end, parts)?)
    }

    /// A level is needed where a node counts for the height.
    fn charge(&self, cursor: &Cursor<'_>, is_charged: bool) -> Result<(), Refusal>
        ensures room { OnOk result (deeper_by is_charged ≤ self.now.depth) }
        ensures refused { IfErr result (λ e. (is_charged ≡ true) × (self.now.depth ≡ 0) × (e ≡ refusal.TooDeep cursor.now.input.at.place)) }
    {
        if is_charged {
            cursor.fits(0, self.depth)
        } else {
            Ok(())
        }
    }

    /// A node of a form that is read as a sort.
    #[inline(never)]
    #[tactic(auto, using(crate::proofs::Sounds::row_sound), unfolding(c_syntax::specs::Grammar::whole))]
    pub fn whole(&self, cursor: &mut Cursor<'_>, own: Sort, form: Form) -> Result<Found, Refusal>
        requires depth { self.now.depth ≤ 1000 }
        requires places { self.now.places ≤ 9 }
        requires nests { Nests self.now.depth self.now.places (F.pre self.now.part) (F.post self.now.part) }
        requires form { is_element form ≡ false }
        ensures reads { Reads (read self.now.depth (grammar.whole (grammar.in_place self.now.places) own form) cursor.old.input) result cursor.new.input }
        ensures kept { cursor.new.before ≡ cursor.old.before }
        ensures low { IfOk result (λ x. x.height ≤ self.now.depth) }
    {
        let is_deeper = is_starred(form);
        self.charge(cursor, is_deeper)?;
        let owner = Owner {
            is_deeper,
            own,
            form,
        };
        let start = cursor.place();
        self.completed(cursor, owner, start, Listed::nothing(), pieces(form))
    }

    /// What stands after an opening parenthesis, up to the closing one.
    pub fn parenthesized(&self, cursor: &mut Cursor<'_>, due: Sort) -> Result<Found, Refusal>
        requires depth { self.now.depth ≤ 1000 }
        requires places { self.now.places ≤ 9 }
        requires nests { Nests self.now.depth self.now.places (F.pre self.now.part) (F.post self.now.part) }
        ensures reads { Reads (read self.now.depth (grammar.parenthesized due) cursor.old.input) result cursor.new.input }
        ensures kept { cursor.new.before ≡ cursor.old.before }
        ensures low { IfOk result (λ x. x.height ≤ self.now.depth) }
    {
        let part = Part {
            is_deeper: true,
            due,
            least: 1,
        };
        let found = self.part(cursor, part)?;
        cursor.take(Class::Punct(Punct::RightParen))?;
        Ok(found)
    }

    /// An initializer (ISO/IEC 9899:1990, 6.5.7).
    pub fn initializer(&self, cursor: &mut Cursor<'_>) -> Result<Found, Refusal>
        requires depth { self.now.depth ≤ 1000 }
        requires places { self.now.places ≤ 9 }
        requires nests { Nests self.now.depth self.now.places (F.pre self.now.part) (F.post self.now.part) }
        ensures reads { Reads (read self.now.depth (grammar.initializer (grammar.in_place self.now.places)) cursor.old.input) result cursor.new.input }
        ensures kept { cursor.new.before ≡ cursor.old.before }
        ensures low { IfOk result (λ x. x.height ≤ self.now.depth) }
    {
        if cursor.shows(Class::Punct(Punct::LeftBrace)) {
            self.whole(cursor, Sort::Init, Form::Init(InitForm::Braces))
        } else {
            self.whole(cursor, Sort::Init, Form::Init(InitForm::One))
        }
    }

    /// A compound statement (6.6.2).
    pub fn block(&self, cursor: &mut Cursor<'_>) -> Result<Found, Refusal>
        requires depth { self.now.depth ≤ 1000 }
        requires places { self.now.places ≤ 9 }
        requires nests { Nests self.now.depth self.now.places (F.pre self.now.part) (F.post self.now.part) }
        ensures reads { Reads (read self.now.depth (grammar.block (grammar.in_place self.now.places)) cursor.old.input) result cursor.new.input }
        ensures kept { cursor.new.before ≡ cursor.old.before }
        ensures low { IfOk result (λ x. x.height ≤ self.now.depth) }
    {
        if cursor.shows(Class::Punct(Punct::LeftBrace)) {
            self.whole(cursor, Sort::Stmt, Form::Stmt(StmtForm::Block))
        } else {
            Err(cursor.refuse())
        }
    }
}
