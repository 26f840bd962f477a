//! What each row of a table is checked for.

use crate::build::{BuildStop, build};
use crate::step::Step;
use c_forms::Rule;
use c_trees::{Tree, ends_open, is_same};
use checked_trees::TreeStop;
use sqlite_items::Items;
use std::alloc::Global;

/// A tree, its size and height, whether it is C alone, and whether it ends open. No two rows of a table tell one tree.
pub struct Row(pub &'static [Step], pub u64, pub u32, pub bool, pub bool);

/// Rows, each written as `[steps] size height is_c_alone ends_open;`.
macro_rules! rows {
    ($([$($step:expr),*] $size:literal $height:literal $is_pure:literal $ends_open:literal;)*) => {
        &[$(Row(&[$($step),*], $size, $height, $is_pure, $ends_open)),*]
    };
}

pub(crate) use rows;

/// Steps of which the last breaks a rule, and no other does.
pub struct Refused(pub &'static [Step], pub Rule);

/// Rows, each written as `[steps] rule;`.
macro_rules! refused {
    ($([$($step:expr),*] $rule:path;)*) => {
        &[$(Refused(&[$($step),*], $rule)),*]
    };
}

pub(crate) use refused;

fn has_measures(tree: &Tree, row: &Row) -> bool {
    tree.size() == row.1
        && tree.height() == row.2
        && tree.is_pure() == row.3
        && ends_open(tree) == row.4
}

/// Whether the tree of a row and its copy have its numbers, and are the same as the tree at other places.
fn is_right(alloc: Global, row: &Row) -> Result<bool, BuildStop> {
    let tree = build(alloc, row.0, 0)?;
    let copy = tree.copy()?;
    Ok(
        has_measures(&tree, row)
            && has_measures(&copy, row)
            && is_same(&tree, &copy)
            && is_same(&tree, &build(alloc, row.0, 7)?),
    )
}

/// The number of the first row that is not right, or that tells the tree of a row before it.
pub fn first_wrong(alloc: Global, rows: &[Row]) -> Result<Option<usize>, BuildStop> {
    let mut before: Items<Tree> = Items::new(alloc);
    for row in rows {
        if !is_right(alloc, row)? {
            return Ok(Some(before.len()));
        }
        let tree = build(alloc, row.0, 0)?;
        for other in before.as_slice() {
            if is_same(&tree, other) || is_same(other, &tree) {
                return Ok(Some(before.len()));
            }
        }
        before.push(tree)?;
    }
    Ok(None)
}

/// Whether the last step breaks the rule, and the steps before it none.
fn is_refused(alloc: Global, row: &Refused) -> bool {
    let before = match row.0.split_last() {
        Some((_, before)) => before,
        None => return false,
    };
    let breaks_none = match build(alloc, before, 0) {
        Ok(_) | Err(BuildStop::Steps) => true,
        Err(BuildStop::Node(_)) => false,
    };
    let refusal = BuildStop::Node(TreeStop::Broken(row.1));
    breaks_none && build(alloc, row.0, 0).err() == Some(refusal)
}

/// The number of the first row that is not refused as it says.
pub fn first_not_refused(alloc: Global, rows: &[Refused]) -> Option<usize> {
    for at in 0..rows.len() {
        if !is_refused(alloc, &rows[at]) {
            return Some(at);
        }
    }
    None
}
