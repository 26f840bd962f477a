//! What the forms of nodes mean to the scopes.
#![tactic(auto)]

mod meaning;

pub use meaning::{
    Meaning, Name, NameUse, declares, inside, is_name, is_typed, meaning_of, name_in,
};
