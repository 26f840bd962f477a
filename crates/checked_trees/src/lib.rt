//! Nodes of trees that are made where they break no rule, and trees of which it is known where they may stand.
#![tactic(auto)]

mod binders;
mod fits;
mod handles;
mod making;
mod rules;

pub use binders::bindings;
pub use handles::{Exp, Item, Stmt};
pub use making::{TreeStop, checked};
pub use rules::broken_rule;
