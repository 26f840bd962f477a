//! Patterns in which one token decides how they go on.

ghost use Rattle.std.specs.Prelude.{◌≡◌, IsTrue, IfOk, IfErr};
ghost use Rattle.pattern_language.specs.Patterns.{pattern_of, is_plain};
ghost use Rattle.pattern_language.specs.Rules.{sites, start, IsFit, Passes, Fails};
ghost use Rattle.pattern_language.specs.Contexts.{place_of};

use crate::class_set::ClassSet;
use crate::earlier::Earlier;
use crate::rules::{Context, broken_rule, in_option, in_repetition};
use c_tokens::{Element, List, MetaType};

/// Which element breaks which rule. Elements are counted from 0 in the order of writing, an outer
/// one before its inner ones; a number that does not fit is the largest one.
#[derive(Clone, Copy, Debug, PartialEq, Eq)]
pub struct PatternFault {
    pub element: usize,
    pub rule: u8,
}

/// Goes through a list of elements, of which the first has the number. The answer is the number of
/// the element after them.
fn check_list(
    elements: &[Element],
    context: &Context<'_>,
    result_type: MetaType,
    first: usize,
) -> Result<usize, PatternFault>
    ensures ok { IfOk result (λ number. Passes result_type (sites (pattern_of elements.now) (place_of context.now)) first number) }
    ensures fault { IfErr result (λ fault. Fails result_type (sites (pattern_of elements.now) (place_of context.now)) first fault.element fault.rule) }
{
    let mut number = first;
    for at in 0..elements.len() {
        let earlier = Earlier::Elements(&elements[..at], context.earlier);
        let here = Context {
            earlier: &earlier,
            ..*context
        };
        let element = &elements[at];
        let after = &elements[at + 1..];
        if let Some(rule) = broken_rule(element, after, &here, result_type) {
            return Err(PatternFault {
                element: number,
                rule,
            });
        }
        number = number.saturating_add(1);
        match element {
            Element::Literal { .. } => {}
            Element::Bind { .. } => {}
            Element::Repeat { sep, body, .. } => {
                let inside = in_repetition(sep, body.as_slice(), after, &here);
                number = check_list(body.as_slice(), &inside, result_type, number)?;
            }
            Element::Maybe { body, .. } => {
                let inside = in_option(after, &here);
                number = check_list(body.as_slice(), &inside, result_type, number)?;
            }
        }
    }
    Ok(number)
}

/// A pattern whose elements break no rule where it is that of a macro with the result. Only
/// `check` makes one.
#[derive(Debug, Drop)]
pub struct Fit {
    elements: List<Element>,
    result_type: MetaType,
    pub ghost plain: { IsTrue (is_plain (pattern_of elements)) },
    pub ghost fits: { IsFit result_type (pattern_of elements) },
}

/// Whether one token decides everywhere in a pattern of a macro with this result.
#[tactic(auto, using(crate::proofs::Starts::starts))]
pub fn check(pattern: List<Element>, result_type: MetaType) -> Result<Fit, PatternFault>
    requires { IsTrue (is_plain (pattern_of pattern)) }
    ensures ok { IfOk result (λ fit. (fit.elements ≡ pattern) × (fit.result_type ≡ result_type)) }
    ensures fit { IfOk result (λ _. IsFit result_type (pattern_of pattern)) }
    ensures fault { IfErr result (λ fault. Fails result_type (sites (pattern_of pattern) start) 0 fault.element fault.rule) }
{
    let earlier = Earlier::Nothing;
    let context = Context {
        depth: 0,
        earlier: &earlier,
        follow: ClassSet::empty(),
        ends: true,
        whole: true,
    };
    check_list(pattern.items(), &context, result_type, 0)?;
    Ok(Fit {
        elements: pattern,
        result_type,
    })
}

impl Fit {
    pub fn elements(&self) -> &[Element]
        ensures { result.now ≡ self.now.elements }
    {
        self.elements.items()
    }

    pub fn into_elements(self) -> List<Element>
        ensures { result ≡ self.elements }
    {
        let Fit { elements, .. } = self;
        elements
    }
}
