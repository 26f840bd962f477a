//! Specifiers (ISO/IEC 9899:1990, 6.5.1 to 6.5.3).

ghost use Rattle.std.specs.Prelude.{◌≡◌, ◌≤◌, IfOk, Some, false};
ghost use Rattle.c_forms.specs.Tokens as tokens;
ghost use Rattle.c_forms.specs.declared.pieces.Sort.TheVariants as sort;
ghost use Rattle.c_reader.specs.Readers.{Reads};
ghost use Rattle.c_syntax.specs.Grammar as grammar;
ghost use Rattle.table_parser.specs.Nests.{Nests, read};
ghost use Rattle.table_parser.specs.Sound.{is_element};

use crate::declarators::Declarations;
use crate::sorts::{may_stand, spec_of};
use c_forms::{Form, Sort};
use c_reader::Refusal;
use form_decisions::may_begin;
use std::alloc::Global;
use table_parser::{Cursor, Found};

impl<
    F: Copy + Fn(Global, &mut Cursor<'_>, usize, u8, Sort, u8) -> Result<Found, Refusal>,
> Declarations<F> {
    /// A specifier or qualifier, of a sort of specifiers.
    #[inline(never)]
    #[tactic(auto, unfolding(c_syntax::specs::Grammar::specifier), using(crate::proofs::Specs::spec_form))]
    pub fn specifier(&self, cursor: &mut Cursor<'_>, due: Sort) -> Result<Found, Refusal>
        requires depth { self.now.grammar.depth ≤ 1000 }
        requires places { self.now.grammar.places ≤ 9 }
        requires nests { Nests self.now.grammar.depth self.now.grammar.places (F.pre self.now.grammar.part) (F.post self.now.grammar.part) }
        requires due { tokens.begun due ≡ tokens.begun sort.Spec }
        ensures reads { Reads (read self.now.grammar.depth (grammar.specifier (grammar.in_place self.now.grammar.places) due) cursor.old.input) result cursor.new.input }
        ensures kept { cursor.new.before ≡ cursor.old.before }
        ensures low { IfOk result (λ x. x.height ≤ self.now.grammar.depth) }
    {
        let token = cursor.look();
        if !may_begin(due, token.class) {
            return Err(cursor.refuse());
        }
        match spec_of(due, token) {
            Some(form) => self.specifier_of(cursor, due, form),
            None => Err(cursor.refuse()),
        }
    }

    /// A specifier of a form, if that may stand there.
    fn specifier_of(&self, cursor: &mut Cursor<'_>, due: Sort, form: Form) -> Result<Found, Refusal>
        requires depth { self.now.grammar.depth ≤ 1000 }
        requires places { self.now.grammar.places ≤ 9 }
        requires nests { Nests self.now.grammar.depth self.now.grammar.places (F.pre self.now.grammar.part) (F.post self.now.grammar.part) }
        requires form { is_element form ≡ false }
        ensures reads { Reads (read self.now.grammar.depth (grammar.specifier_by (grammar.in_place self.now.grammar.places) due cursor.old.input.at.state (Some form)) cursor.old.input) result cursor.new.input }
        ensures kept { cursor.new.before ≡ cursor.old.before }
        ensures low { IfOk result (λ x. x.height ≤ self.now.grammar.depth) }
    {
        if may_stand(cursor.attempt(), form) {
            self.grammar.whole(cursor, due, form)
        } else {
            Err(cursor.refuse())
        }
    }
}
