//! The numbers of fresh names.

ghost use Rattle.std.specs.Prelude.{◌≡◌, ◌-◌, ◌^◌, ◌<◌, not, length, IfOk};
ghost use Rattle.fresh_names.specs.Names.{TakenBelow, IsLeastFree, is_among, numbered as numbered_text};

use c_tokens::Words;
use itoa::Buffer;
use std::alloc::{AllocError, Global};

/// The text of a base with the least number that is free, and that number. No number below `first`
/// is free.
pub fn free_text(
    alloc: Global,
    words: &Words,
    base: &[u8],
    first: u32,
) -> Result<(Vec<u8>, u32), AllocError>
    requires few { length words.now < 2 ^ 32 - 1 }
    requires below { TakenBelow base.now words.now first }
    ensures text { IfOk result (λ r. r.0.items ≡ numbered_text base.now r.1) }
    ensures least { IfOk result (λ r. IsLeastFree base.now words.now r.1) }
{
    let mut number = first;
    loop {
        let text = numbered(alloc, base, number)?;
        if is_free(words, &text) {
            return Ok((text, number));
        }
        number += 1;
    }
}

#[tactic(auto, unfolding(crate::specs::Names::numbered))]
fn numbered(alloc: Global, base: &[u8], number: u32) -> Result<Vec<u8>, AllocError>
    ensures { IfOk result (λ text. text.items ≡ numbered_text base.now number) }
{
    let mut buffer = Buffer::new();
    let mut text = Vec::from_slice(alloc, base)?;
    text.push(b'_')?;
    text.extend_from_slice(buffer.format(number).as_bytes())?;
    Ok(text)
}

#[tactic(auto, unfolding(crate::specs::Names::is_among))]
fn is_free(words: &Words, text: &[u8]) -> bool
    ensures { result ≡ not (is_among text.now words.now) }
{
    match words.find(text) {
        Some(_) => false,
        None => true,
    }
}
