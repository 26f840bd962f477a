//! The text of marks has the tokens of the marks.
#![tactic(auto)]
