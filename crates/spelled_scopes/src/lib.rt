//! The scopes of what is spelled: the state that spelling changes agrees with what the events of the tree do.
#![tactic(auto)]
