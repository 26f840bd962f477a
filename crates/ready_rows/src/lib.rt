//! Where the parts of a row are ready, the tokens of a tree spell its node.
#![tactic(auto)]
