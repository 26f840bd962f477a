//! The first rule that a node breaks with its parts.

ghost use Rattle.std.specs.Prelude.{◌≡◌, false, None};
ghost use Rattle.c_forms.specs.Forests.{forest};
ghost use Rattle.c_forms.specs.declared.forms.Form.TheVariants as a_form;
ghost use Rattle.c_forms.specs.declared.forms.ItemForm.TheVariants as an_item;
ghost use Rattle.c_forms.specs.Rules as rules;

use crate::fits::fits;
use c_forms::{
    DeclaratorForm, ElementForm, Form, GroupForm, ItemForm, MetaStmtForm, Occupant, ParamsForm,
    Rule, SpecForm, StmtForm, TemplateForm,
};
use c_tokens::{Base, Kind, MetaType, Shape};
use c_trees::{Tree, ends_open};
use form_places::occupant_of;
use form_rows::pieces;

fn is_none(parts: &[Tree]) -> bool
    ensures { result ≡ rules.is_none (forest parts.now) }
{
    match parts.first() {
        None => true,
        Some(_) => false,
    }
}

/// The parts of the first.
fn in_first(parts: &[Tree]) -> &[Tree]
    ensures { forest result.now ≡ rules.in_first (forest parts.now) }
{
    match parts.first() {
        None => &[],
        Some(first) => first.parts(),
    }
}

pub(crate) fn after_first(parts: &[Tree]) -> &[Tree]
    ensures { forest result.now ≡ rules.after_first (forest parts.now) }
{
    match parts.split_first() {
        None => &[],
        Some((_, others)) => others,
    }
}

// Specifiers

fn is_type_spec(form: SpecForm) -> bool
    ensures { result ≡ rules.is_type_spec form }
{
    match form {
        SpecForm::Storage(_) | SpecForm::Qualifier(_) => false,
        _ => true,
    }
}

/// Whether it is a type specifier. A placeholder and a call are each one.
fn is_type(form: Form) -> bool
    ensures { result ≡ rules.is_type form }
{
    match form {
        Form::Spec(form) => is_type_spec(form),
        Form::Hole(_) | Form::Call { .. } => true,
        _ => false,
    }
}

fn is_sole_spec(form: SpecForm) -> bool
    ensures { result ≡ rules.is_sole_spec form }
{
    match form {
        SpecForm::Typedef(_) | SpecForm::StructOf(_) | SpecForm::EnumOf => true,
        _ => false,
    }
}

/// Whether it is a type specifier that allows no other.
fn is_sole(form: Form) -> bool
    ensures { result ≡ rules.is_sole form }
{
    match form {
        Form::Spec(form) => is_sole_spec(form),
        Form::Hole(_) | Form::Call { .. } => true,
        _ => false,
    }
}

/// How many type specifiers there are.
fn types(all: &[Tree]) -> usize
    ensures { result ≡ rules.types (forest all.now) }
{
    let mut count: usize = 0;
    for one in all {
        if is_type(one.form()) {
            count += 1;
        }
    }
    count
}

fn has_sole(all: &[Tree]) -> bool
    ensures { result ≡ rules.has_sole (forest all.now) }
{
    for one in all {
        if is_sole(one.form()) {
            return true;
        }
    }
    false
}

fn are_specifiers(all: &[Tree]) -> bool
    ensures { result ≡ rules.are_specifiers (forest all.now) }
{
    !has_sole(all) || types(all) < 2
}

// Declarators

fn is_absent(parts: &[Tree]) -> bool
    ensures { result ≡ rules.is_absent (forest parts.now) }
{
    match parts.first() {
        None => false,
        Some(first) => match first.form() {
            Form::Declarator(DeclaratorForm::Absent) => true,
            _ => false,
        },
    }
}

fn is_name(parts: &[Tree]) -> bool
    ensures { result ≡ rules.is_name (forest parts.now) }
{
    match parts.first() {
        None => false,
        Some(first) => match first.form() {
            Form::Declarator(DeclaratorForm::Named) => true,
            _ => false,
        },
    }
}

/// Whether it is a declarator with a name.
#[cycle(names)]
#[tactic(auto, using(c_trees::specs::Depths::most_deep))]
fn is_named(tree: &Tree) -> bool
    ensures { result ≡ rules.named_at tree.now.form (rules.names tree.now.parts) }
{
    match tree.form() {
        Form::Declarator(form) => match form {
            DeclaratorForm::Named => true,
            DeclaratorForm::Absent => false,
            _ => names(tree.parts()),
        },
        _ => false,
    }
}

/// Whether one of these is a declarator with a name.
#[cycle(names)]
fn names(all: &[Tree]) -> bool
    ensures { result ≡ rules.names (forest all.now) }
{
    for one in all {
        if is_named(one) {
            return true;
        }
    }
    false
}

/// Whether it is a declarator with a function part next to its name.
#[cycle(functions)]
#[tactic(auto, using(c_trees::specs::Depths::most_deep))]
fn is_function(tree: &Tree) -> bool
    ensures { result ≡ rules.function_at tree.now.form (rules.is_name tree.now.parts) (rules.has_function tree.now.parts) }
{
    match tree.form() {
        Form::Declarator(form) => match form {
            DeclaratorForm::Named | DeclaratorForm::Absent => false,
            DeclaratorForm::FunctionOf => is_name(tree.parts()) || has_function(tree.parts()),
            _ => has_function(tree.parts()),
        },
        _ => false,
    }
}

/// Whether one of these is a declarator with a function part next to its name.
#[cycle(functions)]
fn has_function(all: &[Tree]) -> bool
    ensures { result ≡ rules.has_function (forest all.now) }
{
    for one in all {
        if is_function(one) {
            return true;
        }
    }
    false
}

/// Whether one of these is an identifier list that is not empty.
fn has_ids(all: &[Tree]) -> bool
    ensures { result ≡ rules.has_ids (forest all.now) }
{
    for one in all {
        if let Form::Params(ParamsForm::Ids) = one.form() {
            return !is_none(in_first(one.parts()));
        }
    }
    false
}

// Statements

/// Whether the first ends open.
fn first_opens(parts: &[Tree]) -> bool
    ensures { result ≡ rules.first_opens (forest parts.now) }
{
    match parts.first() {
        None => false,
        Some(first) => ends_open(first),
    }
}

fn is_decl_as(occupant: Occupant) -> bool
    ensures { result ≡ rules.is_decl_as occupant }
{
    match occupant {
        Occupant::One(kind) | Occupant::List(kind) => kind == Kind::Decl,
        Occupant::Sort(_) | Occupant::Nowhere => false,
    }
}

/// Whether it is a declaration, or what stands for some.
fn is_decl(form: Form) -> bool
    ensures { result ≡ rules.is_decl form }
{
    match form {
        Form::Decl => true,
        Form::Hole(_) | Form::Call { .. } => is_decl_as(occupant_of(form)),
        _ => false,
    }
}

/// Whether no declaration stands after a statement.
fn are_ordered(all: &[Tree]) -> bool
    ensures { result ≡ rules.ordered false (forest all.now) }
{
    let mut late = false;
    for one in all {
        if !is_decl(one.form()) {
            late = true;
        } else if late {
            return false;
        }
    }
    true
}

// Meta code

fn is_few(of: MetaType) -> bool
    ensures { result ≡ rules.is_few of }
{
    of.lists < 4
}

fn is_one_result(kind: Kind) -> bool
    ensures { result ≡ rules.is_one_result kind }
{
    match kind {
        Kind::Exp | Kind::Stmt | Kind::Decl | Kind::Item | Kind::Spec => true,
        _ => false,
    }
}

fn is_list_result(kind: Kind) -> bool
    ensures { result ≡ rules.is_list_result kind }
{
    match kind {
        Kind::Stmt | Kind::Decl | Kind::Item => true,
        _ => false,
    }
}

/// Whether a macro may give it.
fn is_result(gives: MetaType) -> bool
    ensures { result ≡ rules.is_result gives }
{
    match gives.base {
        Base::Tree(kind) => {
            (gives.lists == 0 && is_one_result(kind)) || (gives.lists == 1 && is_list_result(kind))
        }
        Base::Int | Base::Text => false,
    }
}

fn is_pattern_token(shape: Shape) -> bool
    ensures { result ≡ rules.is_pattern_token shape }
{
    match shape {
        Shape::Key(_) | Shape::Punct(_) | Shape::Word(_) => true,
        _ => false,
    }
}

// The rules of each form

/// The rule, where it does not hold.
fn unless(holds: bool, rule: Rule) -> Option<Rule>
    ensures { result ≡ rules.unless holds rule None }
{
    if holds { None } else { Some(rule) }
}

fn in_spec(form: SpecForm, parts: &[Tree]) -> Option<Rule>
    ensures { result ≡ rules.in_spec form (forest parts.now) }
{
    match form {
        SpecForm::StructOf(_) | SpecForm::EnumOf => unless(
            !is_none(in_first(parts)) || !is_none(in_first(after_first(parts))),
            Rule::TagOrBody,
        ),
        _ => None,
    }
}

fn in_declarator(form: DeclaratorForm, parts: &[Tree]) -> Option<Rule>
    ensures { result ≡ rules.in_declarator form (forest parts.now) }
{
    match form {
        DeclaratorForm::FunctionOf => unless(names(parts) || !has_ids(parts), Rule::AbstractIds),
        _ => None,
    }
}

/// Of a condition, a part and an else-part.
fn in_if(parts: &[Tree]) -> Option<Rule>
    ensures { result ≡ rules.in_if (forest parts.now) }
{
    let branches = after_first(parts);
    unless(
        is_none(in_first(after_first(branches))) || !first_opens(branches),
        Rule::OpenPart,
    )
}

fn in_stmt(form: StmtForm, parts: &[Tree]) -> Option<Rule>
    ensures { result ≡ rules.in_stmt form (forest parts.now) }
{
    match form {
        StmtForm::Block => unless(are_ordered(in_first(parts)), Rule::LateDeclaration),
        StmtForm::If => in_if(parts),
        _ => None,
    }
}

fn in_function(parts: &[Tree]) -> Option<Rule>
    ensures { result ≡ rules.in_item an_item.Function (forest parts.now) }
{
    if !are_specifiers(in_first(parts)) {
        Some(Rule::SoleType)
    } else if !names(parts) {
        Some(Rule::NoName)
    } else {
        unless(has_function(parts), Rule::NoFunction)
    }
}

fn in_item(form: ItemForm, parts: &[Tree]) -> Option<Rule>
    ensures { result ≡ rules.in_item form (forest parts.now) }
{
    match form {
        ItemForm::Function => in_function(parts),
        ItemForm::Declaration => None,
        ItemForm::Syntax { result: gives, .. } => unless(is_result(gives), Rule::MetaType),
        ItemForm::MetaFunction { result: gives, .. } => unless(is_few(gives), Rule::MetaType),
        ItemForm::MetaVariable { of, .. } => unless(is_few(of), Rule::MetaType),
    }
}

fn in_template(form: TemplateForm, parts: &[Tree]) -> Option<Rule>
    ensures { result ≡ rules.in_template form (forest parts.now) }
{
    match form {
        TemplateForm::Braces => unless(are_ordered(in_first(parts)), Rule::LateDeclaration),
        _ => None,
    }
}

fn in_meta_stmt(form: MetaStmtForm, parts: &[Tree]) -> Option<Rule>
    ensures { result ≡ rules.in_meta_stmt form (forest parts.now) }
{
    match form {
        MetaStmtForm::If => in_if(parts),
        MetaStmtForm::Match => unless(
            !first_opens(after_first(after_first(parts))),
            Rule::OpenPart,
        ),
        _ => None,
    }
}

fn in_element(form: ElementForm) -> Option<Rule>
    ensures { result ≡ rules.in_element form }
{
    match form {
        ElementForm::Literal(token)
        | ElementForm::OneOrMoreBetween(token)
        | ElementForm::ZeroOrMoreBetween(token)
        | ElementForm::Maybe(token) => unless(is_pattern_token(token), Rule::PatternToken),
        _ => None,
    }
}

fn in_group(form: GroupForm, parts: &[Tree]) -> Option<Rule>
    ensures { result ≡ rules.in_group form (forest parts.now) }
{
    match form {
        GroupForm::InitDeclarator => unless(names(parts), Rule::NoName),
        GroupForm::MemberDeclarator => unless(
            names(parts) || (is_absent(parts) && !is_none(in_first(after_first(parts)))),
            Rule::NameOrWidth,
        ),
        GroupForm::MetaParam { of, .. } => unless(is_few(of), Rule::MetaType),
        _ => None,
    }
}

fn in_type_name(parts: &[Tree]) -> Option<Rule>
    ensures { result ≡ rules.among_rules a_form.TypeName (forest parts.now) }
{
    if are_specifiers(in_first(parts)) {
        unless(!names(parts), Rule::Name)
    } else {
        Some(Rule::SoleType)
    }
}

fn in_specs(parts: &[Tree]) -> Option<Rule>
    ensures { result ≡ rules.among_rules a_form.Specs (forest parts.now) }
{
    let all = in_first(parts);
    if are_specifiers(all) {
        unless(types(all) > 0, Rule::NoType)
    } else {
        Some(Rule::SoleType)
    }
}

/// The first of the rules beside the table that a node of a form breaks with its parts.
fn among_rules(form: Form, parts: &[Tree]) -> Option<Rule>
    ensures { result ≡ rules.among_rules form (forest parts.now) }
{
    match form {
        Form::TypeName => in_type_name(parts),
        Form::Specs => in_specs(parts),
        Form::Spec(form) => in_spec(form, parts),
        Form::Member | Form::Param | Form::Decl => unless(
            are_specifiers(in_first(parts)),
            Rule::SoleType,
        ),
        Form::Declarator(form) => in_declarator(form, parts),
        Form::Stmt(form) => in_stmt(form, parts),
        Form::Item(form) => in_item(form, parts),
        Form::Template(form) => in_template(form, parts),
        Form::MetaStmt(form) => in_meta_stmt(form, parts),
        Form::Local { of, .. } => unless(is_few(of), Rule::MetaType),
        Form::Element(form) => in_element(form),
        Form::Call { result: gives, .. } => unless(is_result(gives), Rule::MetaType),
        Form::Group(form) => in_group(form, parts),
        _ => None,
    }
}

/// The first rule that a node of a form breaks with its parts.
pub fn broken_rule(form: Form, parts: &[Tree]) -> Option<Rule>
    ensures { result ≡ rules.broken form (forest parts.now) }
{
    if fits(pieces(form), parts) {
        among_rules(form, parts)
    } else {
        Some(Rule::Parts)
    }
}
