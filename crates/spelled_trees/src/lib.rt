//! What is spelled in plain C90 is a valid tree.
#![tactic(auto)]
