//! What parameters declare in the body of their function.

ghost use Rattle.std.specs.Prelude.{◌<◌, length};
ghost use Rattle.c_forms.specs.Forests.{forest};
ghost use Rattle.c_forms.specs.Rules.{after_first};
ghost use Rattle.scopes.specs.Events as events;
ghost use Rattle.scopes.specs.Steps.{Goes};

use crate::event::WalkStop;
use crate::step::{declare_as, declare_word};
use c_forms::{DeclaratorForm, Form, ParamsForm};
use c_tokens::Word;
use c_trees::Tree;
use scope_meanings::{Meaning, NameUse, declares, inside, is_name, meaning_of};
use scope_tables::{ScopeTable, WordClass};

/// Declares in the body what the parameters next to the name of a declarator among these trees
/// declare.
#[cycle(beside)]
#[tactic(auto, using(c_trees::specs::Depths::most_deep))]
pub(crate) fn redeclare_beside(table: &mut ScopeTable, trees: &[Tree]) -> Result<(), WalkStop>
    requires { 0 < length table.old }
    ensures { Goes result (events.beside_name (forest trees.now)) table.old table.new }
{
    for tree in trees {
        redeclare_in_declarator(table, tree)?;
    }
    Ok(())
}

#[cycle(beside)]
#[tactic(auto, using(c_trees::specs::Depths::most_deep))]
fn redeclare_in_declarator(table: &mut ScopeTable, tree: &Tree) -> Result<(), WalkStop>
    requires { 0 < length table.old }
    ensures { Goes result (events.beside_at tree.now.form tree.now.parts (events.beside_name tree.now.parts)) table.old table.new }
{
    match tree.form() {
        Form::Declarator(DeclaratorForm::FunctionOf) => {
            if is_name(tree.parts()) {
                redeclare_params(table, tree.parts())
            } else {
                redeclare_beside(table, tree.parts())
            }
        }
        Form::Declarator(_) => redeclare_beside(table, tree.parts()),
        _ => Ok(()),
    }
}

/// Declares what the parameters after the first of these trees declare.
fn redeclare_params(table: &mut ScopeTable, parts: &[Tree]) -> Result<(), WalkStop>
    requires { 0 < length table.old }
    ensures { Goes result (events.words_of_params (after_first (forest parts.now))) table.old table.new }
{
    let Some((_, others)) = parts.split_first() else {
        return Ok(());
    };
    let Some((params, _)) = others.split_first() else {
        return Ok(());
    };
    match params.form() {
        Form::Params(ParamsForm::Ids) => {
            redeclare(table, params.parts(), NameUse::CheckedAndDeclared)
        }
        Form::Params(_) => redeclare(table, params.parts(), NameUse::Nothing),
        _ => Ok(()),
    }
}

/// Declares what trees declare outside of scopes of their own.
#[cycle(redeclare)]
#[tactic(auto, using(c_trees::specs::Depths::most_deep))]
fn redeclare(table: &mut ScopeTable, trees: &[Tree], used: NameUse) -> Result<(), WalkStop>
    requires { 0 < length table.old }
    ensures { Goes result (events.words used (forest trees.now)) table.old table.new }
{
    for tree in trees {
        redeclare_one(table, tree, used)?;
    }
    Ok(())
}

#[cycle(redeclare)]
#[tactic(auto, using(c_trees::specs::Depths::most_deep))]
fn redeclare_one(table: &mut ScopeTable, tree: &Tree, used: NameUse) -> Result<(), WalkStop>
    requires { 0 < length table.old }
    ensures { Goes result (events.words_of used tree.now) table.old table.new }
{
    let form = tree.form();
    let parts = tree.parts();
    match meaning_of(form) {
        Meaning::Identifier(word) => redeclare_word(table, word, used),
        Meaning::Parts => {
            redeclare(table, parts, inside(form, used, parts))?;
            declare_as(table, declares(form, used), parts)
        }
        _ => Ok(()),
    }
}

fn redeclare_word(table: &mut ScopeTable, word: Word, used: NameUse) -> Result<(), WalkStop>
    requires { 0 < length table.old }
    ensures { Goes result (events.redeclared used word) table.old table.new }
{
    match used {
        NameUse::CheckedAndDeclared => declare_word(table, word, WordClass::Value),
        NameUse::Nothing | NameUse::Checked | NameUse::Declared { .. } => Ok(()),
    }
}
