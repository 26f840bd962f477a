//! What goes on after a first part: postfix and binary operators, arrays and functions.

ghost use Rattle.std.specs.Prelude.{◌≡◌, ◌≤◌, ◌<◌, ◌-◌, ◌^◌, IfOk, true, false};
ghost use Rattle.c_reader.specs.Readers.{Reads, here};
ghost use Rattle.c_syntax.specs.Grammar as grammar;
ghost use Rattle.c_syntax.specs.Reading as reading;
ghost use Rattle.table_parser.specs.Nests.{Nests, deeper_by, read};
ghost use Rattle.table_parser.specs.Sound.{is_array, is_element, is_member_name};

use crate::cursor::Cursor;
use crate::found::{Found, Listed};
use crate::grammar::{Grammar, Owner};
use crate::nodes::after_first;
use c_forms::{DeclaratorForm, Form, Sort};
use c_reader::Refusal;
use form_decisions::{continued_by, is_starred, left_level};
use form_rows::{level, pieces};
use reader_states::Attempt;
use std::alloc::Global;
use std::marker::Model;

/// A tree so far, and its level.
#[derive(Drop)]
pub struct Standing {
    pub found: Found,
    pub level: u8,
}

impl Model for Standing {
    ghost use Rattle.c_syntax.specs.Grammar as the_grammar;
    ghost use Rattle.table_parser.specs.Codes.{standing_code};

    ghost Value = { the_grammar.Standing };

    ghost coded = { standing_code };

    ghost view = { λ y. record { found = y.found; level = y.level } };
}

/// Nothing goes on with a member's declarator that is absent. Where a function's declarator is due,
/// no `[` stands next to its name (ISO/IEC 9899:1990, 6.5.2.1 and 6.7.1).
#[tactic(auto, using(crate::proofs::Follows::following))]
fn may_follow(due: Sort, attempt: &Attempt, found: &Found, form: Form) -> bool
    ensures { result ≡ grammar.may_follow due attempt.now.state found.now.tree form }
{
    if is_member_name(due) {
        !found.is_absent()
    } else if is_array(form) {
        !(attempt.is_function_due() && attempt.is_bare())
    } else {
        true
    }
}

fn is_member_name(due: Sort) -> bool
    ensures { result ≡ is_member_name due }
{
    match due {
        Sort::MemberName => true,
        _ => false,
    }
}

fn is_array(form: Form) -> bool
    ensures { result ≡ is_array form }
{
    match form {
        Form::Declarator(declarator) => match declarator {
            DeclaratorForm::ArrayOf => true,
            _ => false,
        },
        _ => false,
    }
}

/// Whether a form goes on with what stands there.
fn is_tail(due: Sort, least: u8, attempt: &Attempt, standing: &Standing, form: Option<Form>) -> bool
    ensures { result ≡ grammar.is_tail due least attempt.now.state standing.now form }
{
    match form {
        Some(form) => {
            level(form) >= least
                && standing.level >= left_level(form)
                && may_follow(due, attempt, &standing.found, form)
        }
        None => false,
    }
}

impl<F: Fn(Global, &mut Cursor<'_>, usize, u8, Sort, u8) -> Result<Found, Refusal>> Grammar<F> {
    /// A node with a first part, and the pieces after that.
    #[tactic(auto, using(crate::proofs::Sounds::after_first_sound))]
    pub fn after_part(
        &self,
        cursor: &mut Cursor<'_>,
        own: Sort,
        form: Form,
        start: usize,
        first: Found,
    ) -> Result<Found, Refusal>
        requires depth { self.now.depth ≤ 1000 }
        requires places { self.now.places ≤ 9 }
        requires nests { Nests self.now.depth self.now.places (F.pre self.now.part) (F.post self.now.part) }
        requires form { is_element form ≡ false }
        requires room { deeper_by (reading.is_starred form) ≤ self.now.depth }
        requires start { start < 2 ^ 32 - 1 }
        requires low { first.height ≤ self.now.depth }
        ensures reads { Reads (read self.now.depth (grammar.after_part (grammar.in_place self.now.places) own form start first) cursor.old.input) result cursor.new.input }
        ensures kept { cursor.new.before ≡ cursor.old.before }
        ensures low { IfOk result (λ x. x.height ≤ self.now.depth) }
    {
        let owner = Owner {
            is_deeper: is_starred(form),
            own,
            form,
        };
        self.completed(
            cursor,
            owner,
            start,
            Listed::one(first),
            after_first(pieces(form)),
        )
    }

    /// A node of a form, if that is as tight as it must be.
    pub fn tight(
        &self,
        cursor: &mut Cursor<'_>,
        own: Sort,
        form: Form,
        least: u8,
    ) -> Result<Standing, Refusal>
        requires depth { self.now.depth ≤ 1000 }
        requires places { self.now.places ≤ 9 }
        requires nests { Nests self.now.depth self.now.places (F.pre self.now.part) (F.post self.now.part) }
        requires form { is_element form ≡ false }
        ensures reads { Reads (read self.now.depth (grammar.tight least form (grammar.whole (grammar.in_place self.now.places) own form)) cursor.old.input) result cursor.new.input }
        ensures kept { cursor.new.before ≡ cursor.old.before }
        ensures low { IfOk result (λ y. y.found.height ≤ self.now.depth) }
    {
        let level = level(form);
        if level < least {
            return Err(cursor.refuse());
        }
        let found = self.whole(cursor, own, form)?;
        Ok(Standing { found, level })
    }

    /// What goes on with a first part by a form.
    #[tactic(auto, using(crate::proofs::Follows::follows))]
    fn continued(
        &self,
        cursor: &mut Cursor<'_>,
        due: Sort,
        start: usize,
        standing: Standing,
    ) -> Result<Standing, Refusal>
        requires depth { self.now.depth ≤ 1000 }
        requires places { self.now.places ≤ 9 }
        requires nests { Nests self.now.depth self.now.places (F.pre self.now.part) (F.post self.now.part) }
        requires start { start < 2 ^ 32 - 1 }
        requires low { standing.found.height ≤ self.now.depth }
        ensures reads { Reads (read self.now.depth (grammar.tail_by due start standing (grammar.continued_by due (here cursor.old.input).shape)) cursor.old.input) result cursor.new.input }
        ensures kept { cursor.new.before ≡ cursor.old.before }
        ensures low { IfOk result (λ y. y.found.height ≤ self.now.depth) }
    {
        match continued_by(due, cursor.look().shape) {
            Some(form) => {
                cursor.fits(standing.found.height(), self.depth)?;
                let first = standing.found.deeper();
                let found = self.after_part(cursor, due, form, start, first)?;
                Ok(Standing {
                    found,
                    level: level(form),
                })
            }
            None => Err(cursor.refuse()),
        }
    }

    /// What begins at a place, and goes on.
    #[tactic(auto, using(crate::proofs::Chains::climbs))]
    pub fn climb(
        &self,
        cursor: &mut Cursor<'_>,
        due: Sort,
        least: u8,
        start: usize,
        first: Standing,
    ) -> Result<Found, Refusal>
        requires depth { self.now.depth ≤ 1000 }
        requires places { self.now.places ≤ 9 }
        requires nests { Nests self.now.depth self.now.places (F.pre self.now.part) (F.post self.now.part) }
        requires start { start < 2 ^ 32 - 1 }
        requires low { first.found.height ≤ self.now.depth }
        ensures reads { Reads (read self.now.depth (grammar.climb due least start first) cursor.old.input) result cursor.new.input }
        ensures kept { cursor.new.before ≡ cursor.old.before }
        ensures low { IfOk result (λ x. x.height ≤ self.now.depth) }
    {
        let mut standing = first;
        let mut turns = self.depth + cursor.len();
        'tails: while is_tail(
            due,
            least,
            cursor.attempt(),
            &standing,
            continued_by(due, cursor.look().shape),
        ) {
            standing = self.continued(cursor, due, start, standing)?;
            if turns == 0 {
                return Err(Refusal::TooDeep(cursor.place()));
            }
            turns -= 1;
        }
        Ok(standing.found)
    }
}
