//! What the row of a form says of a node by itself.

ghost use Rattle.std.specs.Prelude.{◌≡◌, ◌≤◌};
ghost use Rattle.c_forms.specs.Measures as measures;

use crate::rows::row;
use c_forms::{Counts, Form, GroupForm, ItemForm, MetaStmtForm, Piece, StmtForm};

/// How many nodes a node counts for: none or one.
pub fn weight(form: Form) -> u32
    ensures value { result ≡ measures.weight form }
    ensures low { result ≤ 1 }
{
    match row(form).counts {
        Counts::Nothing => 0,
        Counts::Size | Counts::SizeAndHeight => 1,
    }
}

/// How much a node adds to the height: nothing or one.
pub fn star(form: Form) -> u32
    ensures value { result ≡ measures.star form }
    ensures low { result ≤ 1 }
{
    match row(form).counts {
        Counts::Nothing | Counts::Size => 0,
        Counts::SizeAndHeight => 1,
    }
}

/// How tightly a node holds together, from 1 to 17 (6.3).
pub fn level(form: Form) -> u8
    ensures { result ≡ measures.level form }
{
    row(form).level
}

/// What stands one after the other in the spelling of a node.
pub fn pieces(form: Form) -> &'static [Piece]
    ensures { result.now ≡ measures.pieces form }
{
    row(form).pieces
}

/// Whether a node is neither a placeholder, nor a call of a macro, nor a definition of the macro notation.
pub fn is_plain(form: Form) -> bool
    ensures { result ≡ measures.is_plain form }
{
    match form {
        Form::Hole(_) | Form::Call { .. } => false,
        Form::Item(form) => is_external_declaration(form),
        _ => true,
    }
}

/// Whether an `else` after a node would belong to its last part if it can belong to anything in it. Where the last
/// part is a list without elements, the `else` belongs to the node itself.
pub fn ends_as_last_part(form: Form) -> bool
    ensures { result ≡ measures.ends_as_last_part form }
{
    match form {
        Form::Stmt(form) => stmt_ends_as_last_part(form),
        Form::MetaStmt(form) => meta_stmt_ends_as_last_part(form),
        Form::Group(form) => group_ends_as_last_part(form),
        Form::Call { tail, .. } => tail,
        _ => false,
    }
}

fn is_external_declaration(form: ItemForm) -> bool
    ensures { result ≡ measures.is_external_declaration form }
{
    match form {
        ItemForm::Function | ItemForm::Declaration => true,
        _ => false,
    }
}

fn stmt_ends_as_last_part(form: StmtForm) -> bool
    ensures { result ≡ measures.stmt_ends_as_last_part form }
{
    match form {
        StmtForm::Label
        | StmtForm::Case
        | StmtForm::Default
        | StmtForm::If
        | StmtForm::Switch
        | StmtForm::While
        | StmtForm::For => true,
        _ => false,
    }
}

fn meta_stmt_ends_as_last_part(form: MetaStmtForm) -> bool
    ensures { result ≡ measures.meta_stmt_ends_as_last_part form }
{
    match form {
        MetaStmtForm::If | MetaStmtForm::While | MetaStmtForm::For | MetaStmtForm::Match => true,
        _ => false,
    }
}

fn group_ends_as_last_part(form: GroupForm) -> bool
    ensures { result ≡ measures.group_ends_as_last_part form }
{
    match form {
        GroupForm::List | GroupForm::ElsePart | GroupForm::MetaElsePart => true,
        _ => false,
    }
}
