//! Which forms may stand where.

ghost use Rattle.std.specs.Prelude.{◌≡◌};
ghost use Rattle.c_forms.specs.Places as places;

use c_forms::{
    ExpForm, Form, GroupForm, HoleForm, Occupant, Sort, SpecForm, StmtForm, TemplateForm,
};
use c_tokens::{Base, Kind, MetaType};

/// The sort of a kind of trees.
pub fn sort_of_kind(kind: Kind) -> Sort
    ensures { result ≡ places.sort_of_kind kind }
{
    match kind {
        Kind::Id => Sort::Id,
        Kind::Num => Sort::Num,
        Kind::Exp => Sort::Exp,
        Kind::Stmt => Sort::Stmt,
        Kind::Decl => Sort::Decl,
        Kind::Item => Sort::Item,
        Kind::Spec => Sort::PlainSpec,
        Kind::Param => Sort::Param,
        Kind::Member => Sort::Member,
    }
}

fn sort_of_group(form: GroupForm) -> Sort
    ensures { result ≡ places.sort_of_group form }
{
    match form {
        GroupForm::List => Sort::List,
        GroupForm::Rounds => Sort::Rounds,
        GroupForm::Row => Sort::Row,
        GroupForm::InitDeclarator => Sort::InitDeclarator,
        GroupForm::Initializer => Sort::Initializer,
        GroupForm::MemberDeclarator => Sort::MemberDeclarator,
        GroupForm::Width => Sort::Width,
        GroupForm::Members => Sort::Members,
        GroupForm::Enumerators => Sort::Enumerators,
        GroupForm::EnumeratorValue => Sort::EnumeratorValue,
        GroupForm::ElsePart => Sort::ElsePart,
        GroupForm::MetaElsePart => Sort::MetaElsePart,
        GroupForm::Assignment(_) => Sort::Assignment,
        GroupForm::MetaValue => Sort::MetaValue,
        GroupForm::MetaParam { .. } => Sort::MetaParam,
        GroupForm::Binder { .. } => Sort::Binder,
        GroupForm::Elements => Sort::Repeated,
    }
}

fn sort_of_exp(form: ExpForm) -> Sort
    ensures { result ≡ places.sort_of_exp form }
{
    match form {
        ExpForm::Int(_) => Sort::Num,
        _ => Sort::Exp,
    }
}

fn sort_of_spec(form: SpecForm) -> Sort
    ensures { result ≡ places.sort_of_spec form }
{
    match form {
        SpecForm::Storage(_) => Sort::Spec,
        SpecForm::Qualifier(_) => Sort::Qualifier,
        _ => Sort::PlainSpec,
    }
}

fn sort_of_stmt(form: StmtForm) -> Sort
    ensures { result ≡ places.sort_of_stmt form }
{
    match form {
        StmtForm::Block => Sort::Block,
        _ => Sort::Stmt,
    }
}

fn sort_of_template(form: TemplateForm) -> Sort
    ensures { result ≡ places.sort_of_template form }
{
    match form {
        TemplateForm::Many(_) => Sort::Template,
        _ => Sort::Shape,
    }
}

fn occupant_of_trees(kind: Kind, is_list: bool) -> Occupant
    ensures { result ≡ places.occupant_of_trees kind is_list }
{
    if is_list {
        Occupant::List(kind)
    } else {
        Occupant::One(kind)
    }
}

fn occupant_of_hole(form: HoleForm) -> Occupant
    ensures { result ≡ places.occupant_of_hole form }
{
    match form {
        HoleForm::Variable { kind, is_list, .. } => occupant_of_trees(kind, is_list),
        HoleForm::Computed { kind, is_list } => occupant_of_trees(kind, is_list),
        HoleForm::Binder { kind, .. } => Occupant::One(kind),
    }
}

fn occupant_of_call(gives: MetaType) -> Occupant
    ensures { result ≡ places.occupant_of_call gives }
{
    match gives.base {
        Base::Tree(kind) => {
            if gives.lists < 2 {
                occupant_of_trees(kind, gives.lists == 1)
            } else {
                Occupant::Nowhere
            }
        }
        Base::Int | Base::Text => Occupant::Nowhere,
    }
}

/// What a node of a form is to the place where it stands.
pub fn occupant_of(form: Form) -> Occupant
    ensures { result ≡ places.occupant_of form }
{
    match form {
        Form::Exp(form) => Occupant::Sort(sort_of_exp(form)),
        Form::TypeName => Occupant::Sort(Sort::TypeName),
        Form::Specs => Occupant::Sort(Sort::Specs),
        Form::Spec(form) => Occupant::Sort(sort_of_spec(form)),
        Form::Member => Occupant::Sort(Sort::Member),
        Form::Enumerator => Occupant::Sort(Sort::Enumerator),
        Form::Declarator(_) => Occupant::Sort(Sort::Declarator),
        Form::Params(_) => Occupant::Sort(Sort::Params),
        Form::Param => Occupant::Sort(Sort::Param),
        Form::Init(_) => Occupant::Sort(Sort::Init),
        Form::Decl => Occupant::Sort(Sort::Decl),
        Form::Stmt(form) => Occupant::Sort(sort_of_stmt(form)),
        Form::Item(_) => Occupant::Sort(Sort::Item),
        Form::Id(_) => Occupant::Sort(Sort::Id),
        Form::Literal(_) => Occupant::Sort(Sort::Literal),
        Form::MetaExp(_) => Occupant::Sort(Sort::MetaExp),
        Form::Template(form) => Occupant::Sort(sort_of_template(form)),
        Form::MetaStmt(_) => Occupant::Sort(Sort::MetaStmt),
        Form::MetaBlock => Occupant::Sort(Sort::MetaBlock),
        Form::Local { .. } => Occupant::Sort(Sort::Local),
        Form::Element(_) => Occupant::Sort(Sort::Element),
        Form::Hole(form) => occupant_of_hole(form),
        Form::Call { result: gives, .. } => occupant_of_call(gives),
        Form::Group(form) => Occupant::Sort(sort_of_group(form)),
    }
}

/// Whether all that is of one sort may stand where another is due.
pub fn serves(sort: Sort, due: Sort) -> bool
    ensures { result ≡ places.serves sort due }
{
    match due {
        Sort::Exp => sort == Sort::Exp || sort == Sort::Num,
        Sort::DeclaredId | Sort::ParameterId | Sort::EnumeratorId => sort == Sort::Id,
        Sort::Spec => sort == Sort::Spec || sort == Sort::PlainSpec || sort == Sort::Qualifier,
        Sort::PlainSpec => sort == Sort::PlainSpec || sort == Sort::Qualifier,
        Sort::AbstractDeclarator
        | Sort::ParamDeclarator
        | Sort::MemberName
        | Sort::InnerDeclarator => sort == Sort::Declarator,
        Sort::Stmt => sort == Sort::Stmt || sort == Sort::Block,
        Sort::BlockItem => sort == Sort::Stmt || sort == Sort::Block || sort == Sort::Decl,
        Sort::Template => sort == Sort::Template || sort == Sort::Shape,
        Sort::MetaStmt => sort == Sort::MetaStmt || sort == Sort::MetaBlock,
        Sort::Repeated => sort == Sort::Repeated || sort == Sort::Binder,
        Sort::Argument => is_argument(sort),
        Sort::Round => is_argument(sort) || sort == Sort::Row,
        _ => sort == due,
    }
}

fn is_argument(sort: Sort) -> bool
    ensures { result ≡ places.is_argument sort }
{
    match sort {
        Sort::Id
        | Sort::Num
        | Sort::Exp
        | Sort::Stmt
        | Sort::Block
        | Sort::Decl
        | Sort::Item
        | Sort::Specs
        | Sort::Param
        | Sort::Member
        | Sort::Rounds => true,
        _ => false,
    }
}

/// Whether one tree of a kind may stand where a sort is due, as a placeholder or call.
pub fn serves_as_one(kind: Kind, due: Sort) -> bool
    ensures { result ≡ places.serves_as_one kind due }
{
    serves(sort_of_kind(kind), due)
        || (kind == Kind::Id && due == Sort::Exp)
        || (kind == Kind::Decl && due == Sort::Item)
}

/// Whether trees of a kind may stand among elements of a sort, as a placeholder or call for a list.
pub fn serves_as_list(kind: Kind, due: Sort) -> bool
    ensures { result ≡ places.serves_as_list kind due }
{
    serves_as_one(kind, due)
        || (due == Sort::Init && serves_as_one(kind, Sort::Exp))
        || (due == Sort::Specs && kind == Kind::Spec)
        || (kind == Kind::Id && is_named_element(due))
}

fn is_named_element(due: Sort) -> bool
    ensures { result ≡ places.is_named_element due }
{
    match due {
        Sort::Enumerator | Sort::InitDeclarator | Sort::MemberDeclarator => true,
        _ => false,
    }
}

/// Whether a node of a form may stand alone where a sort is due.
pub fn stands(form: Form, due: Sort) -> bool
    ensures { result ≡ places.stands form due }
{
    match occupant_of(form) {
        Occupant::Sort(sort) => serves(sort, due),
        Occupant::One(kind) => serves_as_one(kind, due),
        Occupant::List(_) | Occupant::Nowhere => false,
    }
}

/// Whether a node of a form may stand among elements of a sort into which lists are spliced.
pub fn joins(form: Form, due: Sort) -> bool
    ensures { result ≡ places.joins form due }
{
    match occupant_of(form) {
        Occupant::Sort(sort) => serves(sort, due),
        Occupant::One(kind) => serves_as_one(kind, due),
        Occupant::List(kind) => serves_as_list(kind, due),
        Occupant::Nowhere => false,
    }
}
