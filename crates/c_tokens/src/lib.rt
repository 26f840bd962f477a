//! Shared plain data: words, spans and the tokens of extended C.
#![tactic(auto)]

mod class;
mod element;
mod kind;
mod lexical;
mod list;
mod memory;
mod reserved;
mod span;
#[cfg(test)]
mod tests;
mod token;
mod words;

pub use class::Class;
pub use element::Element;
pub use kind::{Base, FunctionNo, Kind, MacroNo, MetaType, below};
pub use lexical::{Dialect, LexCause};
pub use list::{Bytes, List};
pub use memory::Memory;
pub use reserved::{keyword, word_mark};
pub use span::{Place, Span, place_at};
pub use token::{
    Key, MAX_LITERAL_BYTES, MAX_SOURCE_BYTES, MAX_WORD_BYTES, Mark, Punct, Shape, Token, Word,
};
pub use words::Words;
