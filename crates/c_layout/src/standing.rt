//! Which parts of a node begin lines.

ghost use Rattle.std.specs.Prelude.{◌≡◌};
ghost use Rattle.c_layout.specs.Standing as standings;

use c_forms::{Form, GroupForm, Sort, StmtForm};

/// How a part stands after what is before it in its node.
#[derive(Clone, Copy, PartialEq, Eq)]
pub enum Standing {
    /// it goes on with the line
    Along,
    /// if it is a block it goes on with the line, otherwise it has lines of its own, one deeper
    Body,
    /// the same, and what follows begins a line
    BodyOfDo,
    /// if it is a block or an `if` it goes on with the line, otherwise it has lines of its own, one deeper
    BodyOfElse,
}

/// How the elements of a group stand.
#[derive(Clone, Copy, PartialEq, Eq)]
pub enum GroupStanding {
    /// they go on with the line, with the separators between them
    Along,
    /// each has lines of its own, one deeper, and what follows begins a line
    Inside,
    /// the same, where there are any
    Declarations,
    /// each begins a line
    Else,
}

fn body_of(form: StmtForm) -> Standing
    ensures { result ≡ standings.body_of form }
{
    match form {
        StmtForm::If | StmtForm::Switch | StmtForm::While | StmtForm::For => Standing::Body,
        StmtForm::Do => Standing::BodyOfDo,
        _ => Standing::Along,
    }
}

fn statement_in(form: Form) -> Standing
    ensures { result ≡ standings.statement_in form }
{
    match form {
        Form::Stmt(form) => body_of(form),
        Form::Group(GroupForm::ElsePart) => Standing::BodyOfElse,
        _ => Standing::Along,
    }
}

/// How a part of a sort stands in a node of a form.
pub fn standing_of_part(form: Form, due: Sort) -> Standing
    ensures { result ≡ standings.standing_of_part form due }
{
    match due {
        Sort::Stmt => statement_in(form),
        _ => Standing::Along,
    }
}

/// How the elements of a group of a sort stand.
pub fn standing_of_group(due: Sort) -> GroupStanding
    ensures { result ≡ standings.standing_of_group due }
{
    match due {
        Sort::BlockItem => GroupStanding::Inside,
        Sort::Decl => GroupStanding::Declarations,
        Sort::ElsePart => GroupStanding::Else,
        _ => GroupStanding::Along,
    }
}

/// Whether it is a block.
pub fn is_block(form: Form) -> bool
    ensures { result ≡ standings.is_block form }
{
    match form {
        Form::Stmt(StmtForm::Block) => true,
        _ => false,
    }
}

/// Whether it is a block or an `if`.
pub fn follows_else(form: Form) -> bool
    ensures { result ≡ standings.follows_else form }
{
    match form {
        Form::Stmt(StmtForm::Block) | Form::Stmt(StmtForm::If) => true,
        _ => false,
    }
}
