//! The rules by which the next token alone decides how a pattern goes on.

ghost use Rattle.std.specs.Prelude.{◌≡◌, ◌<◌, ◌↔◌, IsTrue};
ghost use Rattle.c_tokens.specs.declared.class.Class.{Class};
ghost use Rattle.pattern_language.specs.Sets.{has};
ghost use Rattle.pattern_language.specs.Patterns.{pattern_of};
ghost use Rattle.pattern_language.specs.Patterns as patterns;
ghost use Rattle.pattern_language.specs.Rules as rules;
ghost use Rattle.pattern_language.specs.Rules.{IsJudged};
ghost use Rattle.pattern_language.specs.Contexts.{place_of};

use crate::class_set::ClassSet;
use crate::earlier::Earlier;
use crate::kinds::cont;
use crate::lists::{between, can_be_empty, first_of, holds_binder};
use c_tokens::{Base, Class, Element, Kind, MetaType, Token, Word};

/// Where a list of elements stands: in how many repetitions and options, after which binders, what
/// may follow it, whether the end may, and whether it is the whole pattern.
#[derive(Clone, Copy)]
pub(crate) struct Context<'a> {
    pub depth: u8,
    pub earlier: &'a Earlier<'a>,
    pub follow: ClassSet,
    pub ends: bool,
    pub whole: bool,
}

/// What may follow an element before these.
fn next(after: &[Element], context: &Context<'_>) -> ClassSet
    ensures { (class : Class) → has result class ≡ rules.next (pattern_of after.now) (place_of context.now) class }
{
    let set = first_of(after);
    if can_be_empty(after) {
        set.union(context.follow)
    } else {
        set
    }
}

/// Whether the end may follow an element before these.
fn reaches_end(after: &[Element], context: &Context<'_>) -> bool
    ensures { result ≡ rules.reaches_end (pattern_of after.now) (place_of context.now) }
{
    can_be_empty(after) && context.ends
}

fn can_go_on(kind: Kind) -> bool
    ensures { result ≡ rules.can_go_on kind }
{
    match kind {
        Kind::Exp | Kind::Stmt | Kind::Spec | Kind::Param => true,
        Kind::Id | Kind::Num | Kind::Decl | Kind::Item | Kind::Member => false,
    }
}

fn is_statements(result_type: MetaType) -> bool
    ensures { result ≡ rules.is_statements result_type }
{
    match result_type.base {
        Base::Tree(Kind::Stmt) => result_type.lists <= 1,
        _ => false,
    }
}

/// Whether a binder before these elements is the last one of the whole pattern and may be a
/// statement's there.
#[tactic(auto, using(crate::proofs::Elements::dones))]
fn is_last_statement(
    kind: Kind,
    after: &[Element],
    context: &Context<'_>,
    result_type: MetaType,
) -> bool
    ensures { result ≡ rules.is_last_statement result_type kind (pattern_of after.now) (place_of context.now) }
{
    match kind {
        Kind::Stmt => context.whole && after.is_empty() && is_statements(result_type),
        _ => false,
    }
}

/// The lowest rule that a binder breaks.
fn broken_by_binder(
    kind: Kind,
    name: Word,
    after: &[Element],
    context: &Context<'_>,
    result_type: MetaType,
) -> Option<u8>
    ensures { IsJudged result_type (patterns.Bind kind name (pattern_of after.now)) (place_of context.now) result }
{
    if context.earlier.has(name) {
        return Some(2);
    }
    if cont(kind).meets(&next(after, context)) {
        return Some(4);
    }
    let is_last = is_last_statement(kind, after, context, result_type);
    if reaches_end(after, context) && can_go_on(kind) && !is_last {
        return Some(6);
    }
    None
}

/// Whether the body holds no binder or can be empty.
fn is_idle(body: &[Element]) -> bool
    ensures { IsTrue result ↔ rules.IsIdle (pattern_of body.now) }
{
    !holds_binder(body) || can_be_empty(body)
}

/// Whether the next token does not tell whether a repetition goes on.
fn is_torn(
    least: u8,
    sep: &Option<Token>,
    body: &[Element],
    after: &[Element],
    context: &Context<'_>,
) -> bool
    ensures { IsTrue result ↔ rules.BreaksP5 (patterns.Repeat least sep.now (pattern_of body.now) (pattern_of after.now)) (place_of context.now) }
{
    let next = next(after, context);
    between(sep, body).meets(&next) || least == 0 && first_of(body).meets(&next)
}

/// The lowest rule that a repetition breaks.
fn broken_by_repetition(
    least: u8,
    sep: &Option<Token>,
    body: &[Element],
    after: &[Element],
    context: &Context<'_>,
    result_type: MetaType,
) -> Option<u8>
    ensures { IsJudged result_type (patterns.Repeat least sep.now (pattern_of body.now) (pattern_of after.now)) (place_of context.now) result }
{
    if context.depth >= 3 {
        return Some(1);
    }
    if is_idle(body) {
        return Some(3);
    }
    if is_torn(least, sep, body, after, context) {
        return Some(5);
    }
    if reaches_end(after, context) {
        return Some(6);
    }
    None
}

/// The lowest rule that an option breaks.
fn broken_by_option(
    intro: &Token,
    body: &[Element],
    after: &[Element],
    context: &Context<'_>,
    result_type: MetaType,
) -> Option<u8>
    ensures { IsJudged result_type (patterns.Maybe intro.now (pattern_of body.now) (pattern_of after.now)) (place_of context.now) result }
{
    if context.depth >= 3 {
        return Some(1);
    }
    if is_idle(body) {
        return Some(3);
    }
    if next(after, context).has(Class::of(intro.shape)) {
        return Some(5);
    }
    if reaches_end(after, context) {
        return Some(6);
    }
    None
}

/// The lowest rule that an element breaks, which these follow in its list.
#[tactic(auto, using(crate::proofs::Elements::forms))]
pub(crate) fn broken_rule(
    element: &Element,
    after: &[Element],
    context: &Context<'_>,
    result_type: MetaType,
) -> Option<u8>
    ensures { IsJudged result_type (patterns.element element.now (pattern_of after.now)) (place_of context.now) result }
{
    match element {
        Element::Literal { .. } => None,
        Element::Bind { kind, name, .. } => {
            broken_by_binder(*kind, *name, after, context, result_type)
        }
        Element::Repeat {
            least,
            sep,
            body,
            ..
        } => broken_by_repetition(*least, sep, body.as_slice(), after, context, result_type),
        Element::Maybe { intro, body, .. } => {
            broken_by_option(intro, body.as_slice(), after, context, result_type)
        }
    }
}

/// Where the body of a repetition stands.
#[tactic(auto, using(crate::proofs::Insides::insides))]
pub(crate) fn in_repetition<'a>(
    sep: &Option<Token>,
    body: &[Element],
    after: &[Element],
    context: &Context<'a>,
) -> Context<'a>
    requires { context.now.depth < 3 }
    ensures { place_of result ≡ rules.in_repetition sep.now (pattern_of body.now) (pattern_of after.now) (place_of context.now) }
{
    Context {
        depth: context.depth + 1,
        earlier: context.earlier,
        follow: between(sep, body).union(next(after, context)),
        ends: reaches_end(after, context),
        whole: false,
    }
}

/// Where the body of an option stands.
#[tactic(auto, using(crate::proofs::Insides::insides))]
pub(crate) fn in_option<'a>(after: &[Element], context: &Context<'a>) -> Context<'a>
    requires { context.now.depth < 3 }
    ensures { place_of result ≡ rules.in_option (pattern_of after.now) (place_of context.now) }
{
    Context {
        depth: context.depth + 1,
        earlier: context.earlier,
        follow: next(after, context),
        ends: reaches_end(after, context),
        whole: false,
    }
}
