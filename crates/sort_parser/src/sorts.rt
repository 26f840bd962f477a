//! The sorts of the grammar (ISO/IEC 9899:1990, 6.3 to 6.7).

ghost use Rattle.std.specs.Prelude.{◌≡◌, ◌≤◌, IfOk};
ghost use Rattle.c_reader.specs.Readers.{Reads};
ghost use Rattle.c_syntax.specs.Grammar as grammar;
ghost use Rattle.sort_parser.specs.Ways.{way_of, whole_by, whole_form};
ghost use Rattle.table_parser.specs.Nests.{Nests, read};

use c_forms::{Form, GroupForm, Sort};
use c_reader::Refusal;
use declaration_parser::Declarations;
use expression_parser::Expressions;
use external_parser::Externals;
use statement_parser::Statements;
use std::alloc::Global;
use table_parser::words::{
    declared_identifier, enumerator_identifier, identifier, literal, parameter_identifier,
};
use table_parser::{Cursor, Found, Grammar};

/// The greatest depth of an item.
pub const MAX_DEPTH: usize = 1000;

/// What reads trees of all sorts, with what reads their parts.
#[derive(Clone, Copy)]
pub struct Sorts<F> {
    grammar: Grammar<F>,
}

/// The form as whose node a sort is read, where it is one form's.
fn whole_form(due: Sort) -> Option<Form>
    ensures { result ≡ whole_form due }
{
    match due {
        Sort::TypeName => Some(Form::TypeName),
        Sort::Member => Some(Form::Member),
        Sort::Enumerator => Some(Form::Enumerator),
        Sort::Param => Some(Form::Param),
        Sort::Decl => Some(Form::Decl),
        Sort::InitDeclarator => Some(Form::Group(GroupForm::InitDeclarator)),
        Sort::Initializer => Some(Form::Group(GroupForm::Initializer)),
        Sort::MemberDeclarator => Some(Form::Group(GroupForm::MemberDeclarator)),
        Sort::Width => Some(Form::Group(GroupForm::Width)),
        Sort::Members => Some(Form::Group(GroupForm::Members)),
        Sort::Enumerators => Some(Form::Group(GroupForm::Enumerators)),
        Sort::EnumeratorValue => Some(Form::Group(GroupForm::EnumeratorValue)),
        Sort::ElsePart => Some(Form::Group(GroupForm::ElsePart)),
        _ => None,
    }
}

/// How a sort is read.
#[derive(Clone, Copy)]
pub enum Way {
    Expression,
    Declarator,
    Specifier,
    Parameters,
    Identifier,
    DeclaredIdentifier,
    ParameterIdentifier,
    EnumeratorIdentifier,
    Literal,
    Initializer,
    Statement,
    Block,
    BlockItem,
    External,
    Whole,
}

fn way_of(due: Sort) -> Way
    ensures { result ≡ way_of due }
{
    match due {
        Sort::Exp => Way::Expression,
        Sort::Declarator | Sort::AbstractDeclarator | Sort::ParamDeclarator | Sort::MemberName =>
            Way::Declarator,
        Sort::Spec | Sort::PlainSpec | Sort::Qualifier => Way::Specifier,
        Sort::Params => Way::Parameters,
        Sort::Id => Way::Identifier,
        Sort::DeclaredId => Way::DeclaredIdentifier,
        Sort::ParameterId => Way::ParameterIdentifier,
        Sort::EnumeratorId => Way::EnumeratorIdentifier,
        Sort::Literal => Way::Literal,
        Sort::Init => Way::Initializer,
        Sort::Stmt => Way::Statement,
        Sort::Block => Way::Block,
        Sort::BlockItem => Way::BlockItem,
        Sort::Item => Way::External,
        _ => Way::Whole,
    }
}

impl<F: Copy + Fn(Global, &mut Cursor<'_>, usize, u8, Sort, u8) -> Result<Found, Refusal>> Sorts<
    F,
> {
    /// A tree of a sort, of at least a level.
    #[tactic(auto, using(crate::proofs::Ways::ways))]
    fn at_sort(&self, cursor: &mut Cursor<'_>, due: Sort, least: u8) -> Result<Found, Refusal>
        requires depth { self.now.grammar.depth ≤ 1000 }
        requires places { self.now.grammar.places ≤ 9 }
        requires nests { Nests self.now.grammar.depth self.now.grammar.places (F.pre self.now.grammar.part) (F.post self.now.grammar.part) }
        ensures reads { Reads (read self.now.grammar.depth (grammar.at_sort (grammar.in_place self.now.grammar.places) due least) cursor.old.input) result cursor.new.input }
        ensures kept { cursor.new.before ≡ cursor.old.before }
        ensures low { IfOk result (λ x. x.height ≤ self.now.grammar.depth) }
    {
        let grammar = self.grammar;
        match way_of(due) {
            Way::Expression => Expressions { grammar }.expression(cursor, least),
            Way::Declarator => Declarations { grammar }.declarator(cursor, due, least),
            Way::Specifier => Declarations { grammar }.specifier(cursor, due),
            Way::Parameters => Declarations { grammar }.parameters(cursor),
            Way::Identifier => identifier(cursor),
            Way::DeclaredIdentifier => declared_identifier(cursor),
            Way::ParameterIdentifier => parameter_identifier(cursor),
            Way::EnumeratorIdentifier => enumerator_identifier(cursor),
            Way::Literal => literal(cursor),
            Way::Initializer => self.grammar.initializer(cursor),
            Way::Statement => Statements { grammar }.statement(cursor),
            Way::Block => self.grammar.block(cursor),
            Way::BlockItem => Statements { grammar }.block_item(cursor),
            Way::External => Externals { grammar }.external(cursor),
            Way::Whole => self.whole(cursor, due),
        }
    }

    /// A tree of a sort that is read as the node of one form.
    #[inline(never)]
    #[tactic(auto, using(crate::proofs::Ways::whole_element))]
    fn whole(&self, cursor: &mut Cursor<'_>, due: Sort) -> Result<Found, Refusal>
        requires depth { self.now.grammar.depth ≤ 1000 }
        requires places { self.now.grammar.places ≤ 9 }
        requires nests { Nests self.now.grammar.depth self.now.grammar.places (F.pre self.now.grammar.part) (F.post self.now.grammar.part) }
        ensures reads { Reads (read self.now.grammar.depth (whole_by (grammar.in_place self.now.grammar.places) due (whole_form due)) cursor.old.input) result cursor.new.input }
        ensures kept { cursor.new.before ≡ cursor.old.before }
        ensures low { IfOk result (λ x. x.height ≤ self.now.grammar.depth) }
    {
        match whole_form(due) {
            Some(form) => self.grammar.whole(cursor, due, form),
            None => Err(cursor.refuse()),
        }
    }
}

/// A tree of a sort with `depth` levels left, in which `places` nodes that do not count for the height
/// may lie in one another.
#[tactic(auto, using(crate::proofs::Nested::no_place, crate::proofs::Nested::one_place))]
pub fn in_place(
    alloc: Global,
    cursor: &mut Cursor<'_>,
    depth: usize,
    places: u8,
    due: Sort,
    least: u8,
) -> Result<Found, Refusal>
    requires depth { depth ≤ 1000 }
    requires places { places ≤ 9 }
    ensures reads { Reads (read depth (grammar.in_place places due least) cursor.old.input) result cursor.new.input }
    ensures kept { cursor.new.before ≡ cursor.old.before }
    ensures low { IfOk result (λ x. x.height ≤ depth) }
{
    if places == 0 {
        return Err(cursor.refuse());
    }
    let grammar = Grammar {
        alloc,
        depth,
        places: places - 1,
        part: in_place,
    };
    Sorts { grammar }.at_sort(cursor, due, least)
}
