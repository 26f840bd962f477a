//! What is spelled in plain C90 is read.
#![tactic(auto)]
