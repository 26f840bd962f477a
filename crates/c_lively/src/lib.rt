//! What the reader of plain C90 has taken of declarations, statements and items can be completed.
#![tactic(auto)]
