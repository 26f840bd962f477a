//! Nodes that are made where nothing speaks against them.

ghost use Rattle.std.specs.Prelude.{◌≡◌, IfOk, IfErr};
ghost use Rattle.c_forms.specs.Forests.{node};
ghost use Rattle.checked_trees.specs.Stops.{May, Stops};

use crate::rules::broken_rule;
use c_forms::{Form, Rule};
use c_tokens::Span;
use c_trees::{MAX_HEIGHT, Parts, Tree, height_over};
use std::alloc::Global;

/// Why a node is not made.
#[derive(Clone, Copy, Debug, PartialEq, Eq)]
pub enum TreeStop {
    /// it would break this rule
    Broken(Rule),
    /// it would be higher than a tree may be
    Tall,
    /// no memory is left
    Memory,
}

/// The node over its parts, where it breaks no rule and is not too high.
pub fn checked(alloc: Global, form: Form, span: Span, parts: Parts) -> Result<Tree, TreeStop>
    ensures ok { IfOk result (λ made. made ≡ node form span parts) }
    ensures may { IfOk result (λ made. May form parts) }
    ensures stops { IfErr result (λ stop. Stops stop form parts) }
{
    if let Some(rule) = broken_rule(form, parts.as_slice()) {
        return Err(TreeStop::Broken(rule));
    }
    if height_over(form, parts.as_slice()) > MAX_HEIGHT {
        return Err(TreeStop::Tall);
    }
    match Tree::new(alloc, form, span, parts) {
        Ok(tree) => Ok(tree),
        Err(_) => Err(TreeStop::Memory),
    }
}
