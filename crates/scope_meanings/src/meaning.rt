//! What the forms of nodes mean to the scopes.

ghost use Rattle.std.specs.Prelude.{◌≡◌};
ghost use Rattle.c_forms.specs.Forests.{forest};
ghost use Rattle.c_forms.specs.Rules as rules;
ghost use Rattle.scope_tables.specs.Frames.{class_named};
ghost use Rattle.scope_meanings.specs.Meanings as meanings;

use c_forms::{
    DeclaratorForm, ExpForm, Form, GroupForm, ItemForm, ParamsForm, SpecForm, StmtForm,
    StorageClass,
};
use c_tokens::{Span, Word};
use c_trees::Tree;
use scope_tables::WordClass;

/// What happens at the name of a declarator, or at an identifier.
#[derive(Clone, Copy)]
pub enum NameUse {
    Nothing,
    /// it must be a value
    Checked,
    /// it must be a value, and is then declared as one
    CheckedAndDeclared,
    /// it must be a value where told, and is declared after the declarator
    Declared { class: WordClass, is_checked: bool },
}

/// What a form means to the scopes (ISO/IEC 9899:1990, 6.1.2.1).
#[derive(Clone, Copy)]
pub enum Meaning {
    /// nothing, and nor do the parts of the node
    Nothing,
    /// its word must have a class
    Use { word: Word, wanted: WordClass },
    Identifier(Word),
    /// a scope of its own
    Scope,
    Function,
    /// what its parts mean
    Parts,
}

/// An identifier and its place.
#[derive(Clone, Copy)]
pub struct Name {
    pub word: Word,
    pub span: Span,
}

/// What a form means to the scopes.
pub fn meaning_of(form: Form) -> Meaning
    ensures { result ≡ meanings.meaning form }
{
    match form {
        Form::Exp(ExpForm::Name(word)) => Meaning::Use {
            word,
            wanted: WordClass::Value,
        },
        Form::Spec(SpecForm::Typedef(word)) => Meaning::Use {
            word,
            wanted: WordClass::TypeName,
        },
        Form::Id(word) => Meaning::Identifier(word),
        Form::Params(_) | Form::Stmt(StmtForm::Block) | Form::Call { .. } => Meaning::Scope,
        Form::Item(ItemForm::Function) => Meaning::Function,
        Form::Item(ItemForm::Declaration) => Meaning::Parts,
        Form::Item(_)
        | Form::MetaExp(_)
        | Form::Template(_)
        | Form::MetaStmt(_)
        | Form::MetaBlock
        | Form::Local { .. }
        | Form::Element(_)
        | Form::Hole(_) => Meaning::Nothing,
        _ => Meaning::Parts,
    }
}

/// Whether a form is a type specifier or stands for one.
fn is_type(form: Form) -> bool
    ensures { result ≡ rules.is_type form }
{
    match form {
        Form::Spec(SpecForm::Storage(_)) | Form::Spec(SpecForm::Qualifier(_)) => false,
        Form::Spec(_) | Form::Hole(_) | Form::Call { .. } => true,
        _ => false,
    }
}

/// Whether a form is the specifier `typedef`.
fn is_typedef(form: Form) -> bool
    ensures { result ≡ meanings.is_typedef form }
{
    match form {
        Form::Spec(SpecForm::Storage(StorageClass::Typedef)) => true,
        _ => false,
    }
}

/// Whether a type specifier, or what stands for one, is among specifiers.
fn has_type(specs: &[Tree]) -> bool
    ensures { result ≡ meanings.has_type (forest specs.now) }
{
    for spec in specs {
        if is_type(spec.form()) {
            return true;
        }
    }
    false
}

/// Whether `typedef` is among specifiers.
fn has_typedef(specs: &[Tree]) -> bool
    ensures { result ≡ meanings.has_typedef (forest specs.now) }
{
    for spec in specs {
        if is_typedef(spec.form()) {
            return true;
        }
    }
    false
}

/// Whether a type specifier is in the first of these trees.
pub fn is_typed(parts: &[Tree]) -> bool
    ensures { result ≡ meanings.has_type (rules.in_first (forest parts.now)) }
{
    match parts.split_first() {
        None => false,
        Some((specs, _)) => has_type(specs.parts()),
    }
}

/// The class that a declaration with these parts gives its words.
fn class_of_words(parts: &[Tree]) -> WordClass
    ensures { result ≡ class_named (meanings.has_typedef (rules.in_first (forest parts.now))) }
{
    match parts.split_first() {
        None => WordClass::Value,
        Some((specs, _)) => {
            if has_typedef(specs.parts()) {
                WordClass::TypeName
            } else {
                WordClass::Value
            }
        }
    }
}

/// What happens at a name where it is checked, or not.
fn checked_if(is_checked: bool) -> NameUse
    ensures { result ≡ meanings.checked_if is_checked }
{
    if is_checked {
        NameUse::Checked
    } else {
        NameUse::Nothing
    }
}

/// What happens at the name inside a declarator.
fn at_name(used: NameUse) -> NameUse
    ensures { result ≡ meanings.at_name used }
{
    match used {
        NameUse::Declared { is_checked, .. } => checked_if(is_checked),
        NameUse::Nothing | NameUse::Checked | NameUse::CheckedAndDeclared => used,
    }
}

/// What happens at the name of a parameter. Its scope begins after its declarator (6.1.2.1).
fn in_param(is_typed: bool) -> NameUse
    ensures { result ≡ meanings.in_param is_typed }
{
    NameUse::Declared {
        class: WordClass::Value,
        is_checked: !is_typed,
    }
}

/// What happens at the names in the parts of a node of a form, by its own use.
pub fn inside(form: Form, used: NameUse, parts: &[Tree]) -> NameUse
    ensures { result ≡ meanings.inside form used (forest parts.now) }
{
    match form {
        Form::Declarator(_) => at_name(used),
        Form::Group(GroupForm::List)
        | Form::Group(GroupForm::InitDeclarator)
        | Form::Group(GroupForm::MemberDeclarator) => used,
        Form::Params(ParamsForm::Ids) => NameUse::Checked,
        Form::Decl => NameUse::Declared {
            class: class_of_words(parts),
            is_checked: !is_typed(parts),
        },
        Form::Member => checked_if(!is_typed(parts)),
        Form::Param => in_param(is_typed(parts)),
        _ => NameUse::Nothing,
    }
}

/// As what a node of a form declares its name after its parts.
pub fn declares(form: Form, used: NameUse) -> Option<WordClass>
    ensures { result ≡ meanings.declares form used }
{
    match form {
        Form::Enumerator => Some(WordClass::Value),
        Form::Declarator(_) => match used {
            NameUse::Declared { class, .. } => Some(class),
            _ => None,
        },
        _ => None,
    }
}

/// The first identifier among trees or in the declarators among them.
#[cycle(name)]
#[tactic(auto, using(c_trees::specs::Depths::most_deep))]
pub fn name_in(trees: &[Tree]) -> Option<Name>
    ensures { result ≡ meanings.name_in (forest trees.now) }
{
    for tree in trees {
        if let Some(name) = name_at(tree) {
            return Some(name);
        }
    }
    None
}

#[cycle(name)]
#[tactic(auto, using(c_trees::specs::Depths::most_deep))]
fn name_at(tree: &Tree) -> Option<Name>
    ensures { result ≡ meanings.name_at tree.now.form tree.now.span (meanings.name_in tree.now.parts) }
{
    match tree.form() {
        Form::Id(word) => Some(Name {
            word,
            span: tree.span(),
        }),
        Form::Declarator(_) => name_in(tree.parts()),
        _ => None,
    }
}

/// Whether the first of these trees is a name alone.
pub fn is_name(trees: &[Tree]) -> bool
    ensures { result ≡ rules.is_name (forest trees.now) }
{
    match trees.split_first() {
        None => false,
        Some((first, _)) => first.form() == Form::Declarator(DeclaratorForm::Named),
    }
}
