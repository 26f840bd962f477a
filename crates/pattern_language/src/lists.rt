//! What lists of elements begin with, and what may go on with them.

ghost use Rattle.std.specs.Prelude.{◌≡◌};
ghost use Rattle.c_tokens.specs.declared.class.Class.{Class};
ghost use Rattle.pattern_language.specs.Sets.{has};
ghost use Rattle.pattern_language.specs.Patterns.{pattern_of, names};
ghost use Rattle.pattern_language.specs.Patterns as patterns;

use crate::class_set::ClassSet;
use crate::kinds::{cont, first};
use c_tokens::{Class, Element, Shape, Token, Word};

/// Whether no token can spell the elements.
#[tactic(auto, using(crate::proofs::Elements::rests), unfolding(crate::specs::Patterns::can_be_empty))]
pub(crate) fn can_be_empty(pattern: &[Element]) -> bool
    ensures { result ≡ patterns.can_be_empty (pattern_of pattern.now) }
{
    for element in pattern {
        match element {
            Element::Literal { .. } | Element::Bind { .. } => return false,
            Element::Repeat { least, .. } => {
                if *least != 0 {
                    return false;
                }
            }
            Element::Maybe { .. } => {}
        }
    }
    true
}

/// With which classes the elements begin: those of each element up to the first that cannot be
/// empty.
#[tactic(auto, using(crate::proofs::Elements::rests, crate::proofs::SetLemmas::one_of_lists, c_tokens::proofs::ClassLimits::class_of_common), unfolding(crate::specs::Patterns::first_of))]
pub fn first_of(pattern: &[Element]) -> ClassSet
    ensures { (class : Class) → has result class ≡ patterns.first_of (pattern_of pattern.now) class }
{
    let mut set = ClassSet::empty();
    for element in pattern {
        match element {
            Element::Literal { token } => return set.with(Class::of(token.shape)),
            Element::Bind { kind, .. } => return set.union(first(*kind)),
            Element::Repeat { least, body, .. } => {
                set = set.union(first_of(body.as_slice()));
                if *least != 0 {
                    return set;
                }
            }
            Element::Maybe { intro, .. } => set = set.with(Class::of(intro.shape)),
        }
    }
    set
}

/// What may stand after a turn of a repetition.
#[tactic(auto, using(c_tokens::proofs::ClassLimits::class_of_common))]
pub(crate) fn between(sep: &Option<Token>, body: &[Element]) -> ClassSet
    ensures { (class : Class) → has result class ≡ patterns.between sep.now (pattern_of body.now) class }
{
    match sep {
        Some(sep) => ClassSet::empty().with(Class::of(sep.shape)),
        None => first_of(body),
    }
}

/// Which classes may go on with the elements: those of each element after which the others can be
/// empty.
#[tactic(auto, using(crate::proofs::Elements::rests, crate::proofs::SetLemmas::one_of_lists, c_tokens::proofs::ClassLimits::class_of_common), unfolding(crate::specs::Patterns::cont_of, crate::specs::Patterns::can_be_empty))]
pub fn cont_of(pattern: &[Element]) -> ClassSet
    ensures { (class : Class) → has result class ≡ patterns.cont_of (pattern_of pattern.now) class }
{
    let mut set = ClassSet::empty();
    for element in pattern {
        match element {
            Element::Literal { .. } => set = ClassSet::empty(),
            Element::Bind { kind, .. } => set = cont(*kind),
            Element::Repeat {
                least,
                sep,
                body,
                ..
            } => {
                let more = cont_of(body.as_slice()).union(between(sep, body.as_slice()));
                set = if *least == 0 { set.union(more) } else { more };
            }
            Element::Maybe { intro, body, .. } => {
                let more = cont_of(body.as_slice()).with(Class::of(intro.shape));
                set = set.union(more);
            }
        }
    }
    set
}

/// Whether a binder of the elements, at any depth, has the name.
#[tactic(auto, using(crate::proofs::Elements::rests, crate::proofs::SetLemmas::one_of_lists, crate::proofs::Elements::among_lists), unfolding(crate::specs::Patterns::names, crate::specs::Patterns::is_among))]
pub(crate) fn has_name(pattern: &[Element], wanted: Word) -> bool
    ensures { result ≡ patterns.is_among (names (pattern_of pattern.now)) wanted }
{
    for element in pattern {
        match element {
            Element::Literal { .. } => {}
            Element::Bind { name, .. } => {
                if *name == wanted {
                    return true;
                }
            }
            Element::Repeat { body, .. } | Element::Maybe { body, .. } => {
                if has_name(body.as_slice(), wanted) {
                    return true;
                }
            }
        }
    }
    false
}

/// Whether the elements hold a binder, at any depth.
#[tactic(auto, using(crate::proofs::Elements::rests, crate::proofs::SetLemmas::one_of_lists), unfolding(crate::specs::Patterns::holds_binder))]
pub(crate) fn holds_binder(pattern: &[Element]) -> bool
    ensures { result ≡ patterns.holds_binder (pattern_of pattern.now) }
{
    for element in pattern {
        match element {
            Element::Literal { .. } => {}
            Element::Bind { .. } => return true,
            Element::Repeat { body, .. } | Element::Maybe { body, .. } => {
                if holds_binder(body.as_slice()) {
                    return true;
                }
            }
        }
    }
    false
}

fn is_spelled(token: &Token) -> bool
    ensures { result ≡ patterns.is_spelled token.now.shape }
{
    match token.shape {
        Shape::Key(_) | Shape::Punct(_) | Shape::Word(_) => true,
        _ => false,
    }
}

fn is_separator(sep: &Option<Token>) -> bool
    ensures { result ≡ patterns.is_separator sep.now }
{
    match sep {
        Some(sep) => is_spelled(sep),
        None => true,
    }
}

/// Whether each literal, separator and intro, at any depth, is a keyword, a punctuator or a word,
/// and each repetition is written for none or one at least.
#[tactic(auto, using(crate::proofs::Elements::rests), unfolding(crate::specs::Patterns::is_plain))]
pub fn is_plain(pattern: &[Element]) -> bool
    ensures { result ≡ patterns.is_plain (pattern_of pattern.now) }
{
    for element in pattern {
        match element {
            Element::Literal { token } => {
                if !is_spelled(token) {
                    return false;
                }
            }
            Element::Bind { .. } => {}
            Element::Repeat {
                least,
                sep,
                body,
                ..
            } => {
                if *least > 1 || !is_separator(sep) || !is_plain(body.as_slice()) {
                    return false;
                }
            }
            Element::Maybe { intro, body, .. } => {
                if !is_spelled(intro) || !is_plain(body.as_slice()) {
                    return false;
                }
            }
        }
    }
    true
}
