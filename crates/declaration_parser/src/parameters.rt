//! Parameters (ISO/IEC 9899:1990, 6.5.4.3).

ghost use Rattle.std.specs.Prelude.{◌≡◌, ◌≤◌, ◌<◌, ◌-◌, ◌^◌, IfOk};
ghost use Rattle.c_reader.specs.Readers.{Reads};
ghost use Rattle.c_syntax.specs.Grammar as grammar;
ghost use Rattle.table_parser.specs.Nests.{Nests, read};

use crate::declarators::Declarations;
use c_forms::{Form, ParamsForm, Repetition, Sort};
use c_reader::Refusal;
use c_tokens::{Class, Punct};
use form_decisions::may_begin;
use std::alloc::Global;
use table_parser::words::is_value;
use table_parser::{Before, Cursor, Found, Gathered, Listed, Part, node};

impl<
    F: Copy + Fn(Global, &mut Cursor<'_>, usize, u8, Sort, u8) -> Result<Found, Refusal>,
> Declarations<F> {
    /// Parameters with their types, or a list of names.
    #[inline(never)]
    #[tactic(auto, unfolding(c_syntax::specs::Grammar::parameters))]
    pub fn parameters(&self, cursor: &mut Cursor<'_>) -> Result<Found, Refusal>
        requires depth { self.now.grammar.depth ≤ 1000 }
        requires places { self.now.grammar.places ≤ 9 }
        requires nests { Nests self.now.grammar.depth self.now.grammar.places (F.pre self.now.grammar.part) (F.post self.now.grammar.part) }
        ensures reads { Reads (read self.now.grammar.depth (grammar.parameters (grammar.in_place self.now.grammar.places)) cursor.old.input) result cursor.new.input }
        ensures kept { cursor.new.before ≡ cursor.old.before }
        ensures low { IfOk result (λ x. x.height ≤ self.now.grammar.depth) }
    {
        let start = cursor.place();
        let token = cursor.look();
        if may_begin(Sort::Spec, token.class) {
            self.typed(cursor, start)
        } else if is_value(token) && !cursor.attempt().has_name() {
            Err(cursor.refuse())
        } else {
            self.grammar
                .whole(cursor, Sort::Params, Form::Params(ParamsForm::Ids))
        }
    }

    /// Parameters with their types, after which more may be allowed.
    fn typed(&self, cursor: &mut Cursor<'_>, start: usize) -> Result<Found, Refusal>
        requires depth { self.now.grammar.depth ≤ 1000 }
        requires places { self.now.grammar.places ≤ 9 }
        requires nests { Nests self.now.grammar.depth self.now.grammar.places (F.pre self.now.grammar.part) (F.post self.now.grammar.part) }
        requires start { start < 2 ^ 32 - 1 }
        ensures reads { Reads (read self.now.grammar.depth (grammar.typed (grammar.in_place self.now.grammar.places) start) cursor.old.input) result cursor.new.input }
        ensures kept { cursor.new.before ≡ cursor.old.before }
        ensures low { IfOk result (λ x. x.height ≤ self.now.grammar.depth) }
    {
        let ellipsis = Class::Punct(Punct::Ellipsis);
        let repetition = Repetition::Ended {
            separator: Class::Punct(Punct::Comma),
            end: ellipsis,
        };
        let part = Part {
            is_deeper: false,
            due: Sort::Param,
            least: 0,
        };
        let first = cursor.place();
        let mut all = Gathered::none_at(first);
        self.grammar
            .gathered(cursor, repetition, part, Before::Usual, &mut all)?;
        if all.is_ended() {
            let list = all.list_from(self.grammar.alloc, first)?;
            cursor.take(ellipsis)?;
            Ok(node(
                self.grammar.alloc,
                Form::Params(ParamsForm::TypedAndMore),
                start,
                cursor.place(),
                Listed::one(list),
            )?)
        } else {
            let list = all.list_from(self.grammar.alloc, first)?;
            Ok(node(
                self.grammar.alloc,
                Form::Params(ParamsForm::Typed),
                start,
                cursor.place(),
                Listed::one(list),
            )?)
        }
    }
}
