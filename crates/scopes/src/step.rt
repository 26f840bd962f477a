//! One step of a walk: a word that is used or declared.

ghost use Rattle.std.specs.Prelude.{◌≡◌, ◌<◌, [], ◌∷◌, length, OnOk, OnErr, IfErr};
ghost use Rattle.c_forms.specs.Forests.{forest};
ghost use Rattle.scope_meanings.specs.Meanings as meanings;
ghost use Rattle.scope_tables.specs.Frames.{entered};
ghost use Rattle.scopes.specs.declared.event.Event.TheVariants as event;
ghost use Rattle.scopes.specs.Events as events;
ghost use Rattle.scopes.specs.Settling as classes;
ghost use Rattle.scopes.specs.Steps.{Goes};

use crate::event::WalkStop;
use c_tokens::{Span, Word};
use c_trees::Tree;
use scope_meanings::{Name, NameUse, is_typed, name_in};
use scope_tables::{ScopeTable, WordClass};

/// Enters a scope.
pub(crate) fn begin(table: &mut ScopeTable) -> Result<(), WalkStop>
    ensures ok { OnOk result (table.new ≡ entered table.old) }
    ensures memory { IfErr result (λ stop. stop ≡ WalkStop.Memory) }
    ensures err { OnErr result (table.new ≡ table.old) }
{
    match table.enter() {
        Ok(()) => Ok(()),
        Err(_) => Err(WalkStop::Memory),
    }
}

/// An identifier that is used so.
pub(crate) fn meet(
    table: &mut ScopeTable,
    word: Word,
    used: NameUse,
    span: Span,
) -> Result<(), WalkStop>
    requires { 0 < length table.old }
    ensures { Goes result (events.at_identifier used word span) table.old table.new }
{
    match used {
        NameUse::Checked => must(table, word, WordClass::Value, span),
        NameUse::CheckedAndDeclared => {
            must(table, word, WordClass::Value, span)?;
            declare_word(table, word, WordClass::Value)
        }
        NameUse::Nothing | NameUse::Declared { .. } => Ok(()),
    }
}

/// The name of a function, which must be a value where its specifiers hold no type.
pub(crate) fn check_name(table: &ScopeTable, parts: &[Tree]) -> Result<(), WalkStop>
    ensures { Goes result (events.name_checked (forest parts.now)) table.now table.now }
{
    if is_typed(parts) {
        return Ok(());
    }
    match name_in(parts) {
        None => Ok(()),
        Some(name) => must(table, name.word, WordClass::Value, name.span),
    }
}

/// A word that must have a class.
pub(crate) fn must(
    table: &ScopeTable,
    word: Word,
    wanted: WordClass,
    span: Span,
) -> Result<(), WalkStop>
    ensures { Goes result (event.Must word wanted span ∷ []) table.now table.now }
{
    let found = table.class(word);
    if is_same(wanted, found) {
        Ok(())
    } else {
        Err(WalkStop::Clash {
            word,
            wanted,
            found,
            span,
        })
    }
}

pub(crate) fn declare_as(
    table: &mut ScopeTable,
    class: Option<WordClass>,
    parts: &[Tree],
) -> Result<(), WalkStop>
    requires { 0 < length table.old }
    ensures { Goes result (events.declared_as class (meanings.name_in (forest parts.now))) table.old table.new }
{
    match class {
        None => Ok(()),
        Some(class) => declare_name(table, name_in(parts), class),
    }
}

pub(crate) fn declare_name(
    table: &mut ScopeTable,
    name: Option<Name>,
    class: WordClass,
) -> Result<(), WalkStop>
    requires { 0 < length table.old }
    ensures { Goes result (events.declared class name) table.old table.new }
{
    match name {
        None => Ok(()),
        Some(name) => declare_word(table, name.word, class),
    }
}

pub(crate) fn declare_word(
    table: &mut ScopeTable,
    word: Word,
    class: WordClass,
) -> Result<(), WalkStop>
    requires { 0 < length table.old }
    ensures { Goes result (event.Declare word class ∷ []) table.old table.new }
{
    match table.put(word, class) {
        Ok(()) => Ok(()),
        Err(_) => Err(WalkStop::Memory),
    }
}

fn is_same(one: WordClass, other: WordClass) -> bool
    ensures { result ≡ classes.is_same one other }
{
    match one {
        WordClass::TypeName => match other {
            WordClass::TypeName => true,
            WordClass::Value => false,
        },
        WordClass::Value => match other {
            WordClass::TypeName => false,
            WordClass::Value => true,
        },
    }
}
