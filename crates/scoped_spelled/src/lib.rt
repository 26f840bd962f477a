//! What is printed is spelled: the tokens of a valid tree of plain C that is scoped, with the least parentheses, spell it.
//! Specifiers, members, parameters, declarations and functions are ready where their events hold.
#![tactic(auto)]
