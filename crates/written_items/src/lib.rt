//! What is read is written: the words, constants and literals of each item that is read from a text are spelled so in the table that gained those of the text.
#![tactic(auto)]
