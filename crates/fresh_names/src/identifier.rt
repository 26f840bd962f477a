//! Which texts are names.

ghost use Rattle.std.specs.Prelude.{◌≡◌, is_some};
ghost use Rattle.std.specs.List.{list_all};
ghost use Rattle.c_tokens.specs.Spelling as spelled;
ghost use Rattle.c_tokens.specs.Bytes as kind;
ghost use Rattle.fresh_names.specs.Names as named;

use c_tokens::{MAX_WORD_BYTES, keyword};

/// Whether a text is an identifier that may stand in a source.
#[tactic(auto, unfolding(crate::specs::Names::is_name))]
pub fn is_name(text: &[u8]) -> bool
    ensures { result ≡ named.is_name text.now }
{
    is_word(text) && !is_keyword(text) && text.len() <= MAX_WORD_BYTES
}

fn is_keyword(text: &[u8]) -> bool
    ensures { result ≡ is_some (spelled.find_text text.now spelled.keywords) }
{
    keyword(text).is_some()
}

#[tactic(auto, using(crate::proofs::Words::word_empty, crate::proofs::Words::word_more))]
fn is_word(text: &[u8]) -> bool
    ensures { result ≡ spelled.is_word text.now }
{
    match text {
        [] => false,
        [first, ..] => is_letter(*first) && all_word_bytes(text),
    }
}

fn all_word_bytes(text: &[u8]) -> bool
    ensures { result ≡ list_all kind.is_word_byte text.now }
{
    text.iter().all(|byte| is_word_byte(*byte))
}

#[tactic(auto, unfolding(c_tokens::specs::Bytes::is_letter))]
fn is_letter(byte: u8) -> bool
    ensures { result ≡ kind.is_letter byte }
{
    byte.is_ascii_alphabetic() || byte == b'_'
}

#[tactic(auto, unfolding(c_tokens::specs::Bytes::is_word_byte, c_tokens::specs::Bytes::is_digit))]
fn is_word_byte(byte: u8) -> bool
    ensures { result ≡ kind.is_word_byte byte }
{
    is_letter(byte) || byte.is_ascii_digit()
}
