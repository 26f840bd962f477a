//! Marks: the tokens of a tree, and where lines begin.

ghost use Rattle.std.specs.Prelude.{◌≡◌, None, Some};
ghost use Rattle.c_layout.specs.Marks as marks;

use c_forms::{DeclaratorForm, ExpForm, Form, Repetition, StmtForm};
use c_tokens::{Class, Punct, Shape};

/// What a token is to its node, where its neighbours stand closer or further off for it.
#[derive(Clone, Copy, Debug, PartialEq, Eq)]
pub enum Use {
    Plain,
    /// an operator before its operand
    Prefix,
    /// the `*` of a declarator
    Pointer,
    /// an operator after its operand
    Postfix,
    /// the `(` of arguments or of parameters
    CallParen,
    /// the `:` of a label
    LabelColon,
}

/// A token, or the beginning of a line.
#[derive(Clone, Copy, Debug, PartialEq, Eq)]
pub enum Mark {
    Token { shape: Shape, part: Use },
    /// what follows begins a line, so many steps to the right
    Line { depth: u32 },
}

fn use_at_paren(class: Class) -> Use
    ensures { result ≡ marks.use_at_paren class }
{
    match class {
        Class::Punct(Punct::LeftParen) => Use::CallParen,
        _ => Use::Plain,
    }
}

fn use_at_colon(class: Class) -> Use
    ensures { result ≡ marks.use_at_colon class }
{
    match class {
        Class::Punct(Punct::Colon) => Use::LabelColon,
        _ => Use::Plain,
    }
}

fn use_in_exp(form: ExpForm, class: Class) -> Use
    ensures { result ≡ marks.use_in_exp form class }
{
    match form {
        ExpForm::Unary(_) | ExpForm::PreInc | ExpForm::PreDec => Use::Prefix,
        ExpForm::PostInc | ExpForm::PostDec => Use::Postfix,
        ExpForm::Apply => use_at_paren(class),
        _ => Use::Plain,
    }
}

fn use_in_declarator(form: DeclaratorForm, class: Class) -> Use
    ensures { result ≡ marks.use_in_declarator form class }
{
    match form {
        DeclaratorForm::Pointer => Use::Pointer,
        DeclaratorForm::FunctionOf => use_at_paren(class),
        _ => Use::Plain,
    }
}

fn use_in_stmt(form: StmtForm, class: Class) -> Use
    ensures { result ≡ marks.use_in_stmt form class }
{
    match form {
        StmtForm::Label | StmtForm::Case | StmtForm::Default => use_at_colon(class),
        _ => Use::Plain,
    }
}

/// What a token of a class is to a node of a form.
fn use_of(form: Form, class: Class) -> Use
    ensures { result ≡ marks.use_of form class }
{
    match form {
        Form::Exp(form) => use_in_exp(form, class),
        Form::Declarator(form) => use_in_declarator(form, class),
        Form::Stmt(form) => use_in_stmt(form, class),
        _ => Use::Plain,
    }
}

/// The token of a class that has only one.
pub fn shape_of(class: Class) -> Option<Shape>
    ensures { result ≡ marks.shape_of class }
{
    match class {
        Class::Key(key) => Some(Shape::Key(key)),
        Class::Punct(punct) => Some(Shape::Punct(punct)),
        Class::Mark(mark) => Some(Shape::Mark(mark)),
        _ => None,
    }
}

/// The token between two elements of a repetition.
pub fn separator_of(repetition: Repetition) -> Option<Shape>
    ensures { result ≡ marks.separator_of repetition }
{
    match repetition {
        Repetition::Many { separator, .. } => shape_of(separator?),
        Repetition::Spliced { separator, .. } => shape_of(separator?),
        Repetition::Ended { separator, .. } => shape_of(separator),
        _ => None,
    }
}

/// The mark of a token of a node of a form, if there is one.
pub fn token_in(form: Form, shape: Option<Shape>) -> Option<Mark>
    ensures { result ≡ marks.token_in form shape }
{
    match shape {
        None => None,
        Some(shape) => Some(Mark::Token {
            shape,
            part: use_of(form, Class::of(shape)),
        }),
    }
}

/// The mark of a punctuator that belongs to no form.
pub fn plain(punct: Punct) -> Mark
    ensures { result ≡ marks.plain punct }
{
    Mark::Token {
        shape: Shape::Punct(punct),
        part: Use::Plain,
    }
}
