//! From steps to a tree.

use crate::step::Step;
use c_tokens::{Memory, Span};
use c_trees::{Parts, Tree};
use checked_trees::{TreeStop, checked};
use sqlite_items::Items;
use std::alloc::{AllocError, Global};

/// Why steps tell no tree.
#[derive(Clone, Copy, Debug, PartialEq, Eq)]
pub enum BuildStop {
    /// a node is not made
    Node(TreeStop),
    /// the steps take more trees than there are, or leave another number of them than one
    Steps,
}

impl From<TreeStop> for BuildStop {
    fn from(stop: TreeStop) -> BuildStop {
        BuildStop::Node(stop)
    }
}

impl From<Memory> for BuildStop {
    fn from(_: Memory) -> BuildStop {
        BuildStop::Node(TreeStop::Memory)
    }
}

impl From<AllocError> for BuildStop {
    fn from(_: AllocError) -> BuildStop {
        BuildStop::Node(TreeStop::Memory)
    }
}

/// The tree that the steps tell, with all places moved by `shift`.
pub fn build(alloc: Global, steps: &[Step], shift: u32) -> Result<Tree, BuildStop> {
    let mut stack: Items<Tree> = Items::new(alloc);
    for step in steps {
        let order = step.order();
        let parts = take(alloc, &mut stack, order.count)?;
        let start = order.place.saturating_add(shift);
        let span = Span {
            start,
            end: start.saturating_add(1),
        };
        stack.push(checked(alloc, order.form, span, parts)?)?;
    }
    match stack.pop() {
        Some(tree) if stack.is_empty() => Ok(tree),
        _ => Err(BuildStop::Steps),
    }
}

/// The trees on top, the last one uppermost.
fn take(alloc: Global, stack: &mut Items<Tree>, count: usize) -> Result<Parts, BuildStop> {
    let mut backwards: Items<Tree> = Items::new(alloc);
    for _ in 0..count {
        match stack.pop() {
            Some(tree) => backwards.push(tree)?,
            None => return Err(BuildStop::Steps),
        }
    }
    let mut parts = Parts::new();
    for _ in 0..count {
        if let Some(tree) = backwards.pop() {
            parts.push(alloc, tree)?;
        }
    }
    Ok(parts)
}
