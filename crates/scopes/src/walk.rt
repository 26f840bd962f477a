//! The scopes as trees go by.

ghost use Rattle.std.specs.Prelude.{◌<◌, length};
ghost use Rattle.c_forms.specs.Forests.{forest};
ghost use Rattle.scopes.specs.Events as events;
ghost use Rattle.scopes.specs.Steps.{Goes};

use crate::event::WalkStop;
use crate::params::redeclare_beside;
use crate::step::{begin, check_name, declare_as, declare_name, meet, must};
use c_trees::Tree;
use scope_meanings::{Meaning, NameUse, declares, inside, meaning_of, name_in};
use scope_tables::{ScopeTable, WordClass};

/// Goes through the events of a tree where names are used so.
#[cycle(walk)]
#[tactic(auto, using(c_trees::specs::Depths::most_deep))]
pub(crate) fn walk(table: &mut ScopeTable, tree: &Tree, used: NameUse) -> Result<(), WalkStop>
    requires { 0 < length table.old }
    ensures { Goes result (events.events_of used tree.now) table.old table.new }
{
    let form = tree.form();
    let parts = tree.parts();
    let inner = inside(form, used, parts);
    match meaning_of(form) {
        Meaning::Nothing => Ok(()),
        Meaning::Use { word, wanted } => must(table, word, wanted, tree.span()),
        Meaning::Identifier(word) => meet(table, word, used, tree.span()),
        Meaning::Scope => walk_scope(table, parts, inner),
        Meaning::Function => walk_function(table, parts, inner),
        Meaning::Parts => {
            walk_all(table, parts, inner)?;
            declare_as(table, declares(form, used), parts)
        }
    }
}

#[cycle(walk)]
#[tactic(auto, using(c_trees::specs::Depths::most_deep))]
fn walk_all(table: &mut ScopeTable, trees: &[Tree], used: NameUse) -> Result<(), WalkStop>
    requires { 0 < length table.old }
    ensures { Goes result (events.in_order (events.each used (forest trees.now))) table.old table.new }
{
    for tree in trees {
        walk(table, tree, used)?;
    }
    Ok(())
}

#[cycle(walk)]
#[tactic(auto, using(c_trees::specs::Depths::most_deep))]
fn walk_scope(table: &mut ScopeTable, parts: &[Tree], used: NameUse) -> Result<(), WalkStop>
    requires { 0 < length table.old }
    ensures { Goes result (events.scope (events.in_order (events.each used (forest parts.now)))) table.old table.new }
{
    begin(table)?;
    walk_all(table, parts, used)?;
    table.leave();
    Ok(())
}

/// A function definition by its parts.
#[cycle(walk)]
#[tactic(auto, using(c_trees::specs::Depths::most_deep))]
fn walk_function(table: &mut ScopeTable, parts: &[Tree], used: NameUse) -> Result<(), WalkStop>
    requires { 0 < length table.old }
    ensures { Goes result (events.function (forest parts.now) (events.each used (forest parts.now))) table.old table.new }
{
    let Some((specs, others)) = parts.split_first() else {
        return Ok(());
    };
    let Some((declarator, others)) = others.split_first() else {
        return Ok(());
    };
    walk(table, specs, used)?;
    check_name(table, parts)?;
    walk(table, declarator, used)?;
    declare_name(table, name_in(parts), WordClass::Value)?;
    walk_body(table, parts, others, used)
}

/// The body of a function, with what its parameters declare there.
#[cycle(walk)]
#[tactic(auto, using(c_trees::specs::Depths::most_deep))]
fn walk_body(
    table: &mut ScopeTable,
    parts: &[Tree],
    others: &[Tree],
    used: NameUse,
) -> Result<(), WalkStop>
    requires { 0 < length table.old }
    ensures { Goes result (events.body (forest parts.now) (events.each used (forest others.now))) table.old table.new }
{
    begin(table)?;
    redeclare_beside(table, parts)?;
    walk_all(table, others, used)?;
    table.leave();
    Ok(())
}
