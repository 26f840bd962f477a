//! What is printed is spelled: the tokens of valid items of plain C that are scoped, with the least parentheses, spell them again, and nothing else.
#![tactic(auto)]
