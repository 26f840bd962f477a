//! The grammar of plain C90: what spells a tree, and the reader that the table of forms makes.
#![tactic(auto)]
