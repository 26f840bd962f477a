//! Which form a token decides for, and what a tree of a sort begins with, by the table of forms.
#![tactic(auto)]

mod classes;
mod decisions;
mod starts;

pub use classes::{TYPE_WORD, WORD};
pub use decisions::{
    continued_by, expression_begun, holds, is_starred, left_level, specifier_begun, statement_begun,
};
pub use starts::{goes_on_with, may_begin, may_begin_element};
