//! What the reader of plain C90 has taken can be completed.
#![tactic(auto)]
