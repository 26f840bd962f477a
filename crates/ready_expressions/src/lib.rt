//! Expressions, statements and declarators are ready where their events hold.
#![tactic(auto)]
