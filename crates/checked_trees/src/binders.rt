//! What the binders of a macro's pattern are bound to in a call.

ghost use Rattle.std.specs.Prelude.{◌≡◌, ◌+◌, IfOk};
ghost use Rattle.pattern_language.specs.Patterns.{pattern_of};
ghost use Rattle.c_forms.specs.Forests.{forest};
ghost use Rattle.checked_trees.specs.Bindings as spec;
ghost use Rattle.checked_trees.specs.Bindings.{bound};

use crate::rules::after_first;
use c_tokens::{Element, Memory};
use c_trees::{Parts, Tree};
use std::alloc::Global;
use std::slice;

fn sum(one: usize, other: usize) -> Result<usize, Memory>
    ensures { IfOk result (λ sum. sum ≡ one + other) }
{
    match one.checked_add(other) {
        Some(sum) => Ok(sum),
        None => Err(Memory),
    }
}

/// How many binders a pattern has, at any depth. It fails where they cannot be counted.
#[tactic(auto, using(pattern_language::proofs::Elements::rests), unfolding(crate::specs::Bindings::binders))]
fn binders(pattern: &[Element]) -> Result<usize, Memory>
    ensures { IfOk result (λ count. count ≡ spec.binders (pattern_of pattern.now)) }
{
    let mut count: usize = 0;
    for element in pattern {
        match element {
            Element::Literal { .. } => {}
            Element::Bind { .. } => count = sum(count, 1)?,
            Element::Repeat { body, .. } => count = sum(count, binders(body.as_slice())?)?,
            Element::Maybe { body, .. } => count = sum(count, binders(body.as_slice())?)?,
        }
    }
    Ok(count)
}

/// Whether a body is one element that has a part.
#[tactic(auto, using(pattern_language::proofs::Elements::forms, pattern_language::proofs::Elements::dones), unfolding(crate::specs::Bindings::has_one_part, pattern_language::specs::Patterns::pattern_of))]
fn has_one_part(body: &[Element]) -> bool
    ensures { result ≡ spec.has_one_part (pattern_of body.now) }
{
    match body.split_first() {
        None => false,
        Some((element, others)) => match element {
            Element::Literal { .. } => false,
            Element::Bind { .. } | Element::Repeat { .. } | Element::Maybe { .. } => {
                others.is_empty()
            }
        },
    }
}

/// What a binder of a body is bound to in each round of the first part, as a list.
#[cycle(bound)]
fn in_list(
    alloc: Global,
    body: &[Element],
    number: usize,
    parts: &[Tree],
) -> Result<Option<Tree>, Memory>
    ensures { IfOk result (λ made. made ≡ spec.in_list (λ qs. spec.bound_to (pattern_of body.now) number qs) (spec.has_one_part (pattern_of body.now)) (forest parts.now)) }
{
    match parts.first() {
        None => Ok(None),
        Some(list) => {
            let mut all = Parts::new();
            for round in list.parts() {
                let inside = if has_one_part(body) {
                    slice::from_ref(round)
                } else {
                    round.parts()
                };
                if let Some(tree) = bound_to(alloc, body, number, inside)? {
                    all.push(alloc, tree)?;
                }
            }
            Ok(Some(Tree::list(alloc, list.span(), all)?))
        }
    }
}

/// What a binder of a pattern is bound to, by its number from 0 on in the order of writing.
#[cycle(bound)]
#[tactic(auto, using(pattern_language::proofs::Elements::rests), unfolding(crate::specs::Bindings::bound_to))]
fn bound_to(
    alloc: Global,
    pattern: &[Element],
    number: usize,
    parts: &[Tree],
) -> Result<Option<Tree>, Memory>
    ensures { IfOk result (λ made. made ≡ spec.bound_to (pattern_of pattern.now) number (forest parts.now)) }
{
    let mut left = number;
    let mut rest = parts;
    for element in pattern {
        match element {
            Element::Literal { .. } => {}
            Element::Bind { .. } => {
                if left == 0 {
                    return copy_of_first(rest);
                }
                left -= 1;
                rest = after_first(rest);
            }
            Element::Repeat { body, .. } => {
                let inside = binders(body.as_slice())?;
                if left < inside {
                    return in_list(alloc, body.as_slice(), left, rest);
                }
                left -= inside;
                rest = after_first(rest);
            }
            Element::Maybe { body, .. } => {
                let inside = binders(body.as_slice())?;
                if left < inside {
                    return in_list(alloc, body.as_slice(), left, rest);
                }
                left -= inside;
                rest = after_first(rest);
            }
        }
    }
    Ok(None)
}

fn copy_of_first(parts: &[Tree]) -> Result<Option<Tree>, Memory>
    ensures { IfOk result (λ copy. copy ≡ spec.first_of (forest parts.now)) }
{
    match parts.first() {
        None => Ok(None),
        Some(first) => Ok(Some(first.copy()?)),
    }
}

/// What the binders of a pattern are bound to, in the order of writing.
pub fn bindings(alloc: Global, pattern: &[Element], parts: &[Tree]) -> Result<Parts, Memory>
    ensures { IfOk result (λ all. forest all ≡ bound pattern.now (forest parts.now)) }
{
    let mut all = Parts::new();
    for number in 0..binders(pattern)? {
        if let Some(tree) = bound_to(alloc, pattern, number, parts)? {
            all.push(alloc, tree)?;
        }
    }
    Ok(all)
}
