//! The text of external declarations.

ghost use Rattle.std.specs.Prelude.{◌≡◌, ◌≤◌, ◌<◌, ◌*◌, ℕ, List, [], ◌∷◌, Err, IfErr, IfOk, OnOk, flat_map, length, map};
ghost use Rattle.c_forms.specs.Forests.{forest};
ghost use Rattle.c_layout.specs.Layout.{layout};
ghost use Rattle.c_layout.specs.Spelled.{tokens};
ghost use Rattle.c_text.specs.Text.{text};
ghost use Rattle.c_text.specs.declared.text.TextStop.TheVariants as stop;
ghost use Rattle.c_trees.specs.Counts.{high};
ghost use Rattle.item_printer.specs.ReadAgain.{IsReadAgain};
ghost use Rattle.scope_tables.specs.Frames.{Frame};
ghost use Rattle.scopes.specs.Events.{events, in_order};
ghost use Rattle.scopes.specs.Settling.{Scoped, settled};
ghost use Rattle.text_tokens.specs.Items.{AreWrittenItems};
ghost use Rattle.text_tokens.specs.Written.{HasTokens};

use c_layout::{Mark, lay_out};
use c_text::{TextStop, text_of};
use c_tokens::Words;
use checked_trees::Item;
use std::alloc::Global;

/// The most bytes of a text that is written.
pub const MAX_TEXT_BYTES: usize = 67_108_864;

/// The text of external declarations, one after the other: each in the layout of its form, with the
/// least parentheses. It takes time linear in the trees and the text. Where the items are plain C
/// whose words are written in the table, the text has exactly their tokens; and where their scope
/// events hold from the beginning of a file, it is read as these items again, and as no others, by
/// whoever reads twice as many levels as the items are high.
pub fn print(alloc: Global, items: &[Item], words: &Words) -> Result<Vec<u8>, TextStop>
    ensures text { IfOk result (λ all. all.items ≡ text words.now (flat_map layout items.now)) }
    ensures tokens { AreWrittenItems words.now items.now → IfOk result (λ all. HasTokens words.now all.items (flat_map tokens items.now)) }
    ensures read { AreWrittenItems words.now items.now → (depth : ℕ) (after : List Frame) → 2 * high (forest items.now) ≤ depth → settled (in_order (map events items.now)) ([] ∷ []) ≡ Scoped after → IfOk result (λ all. IsReadAgain words.now all.items depth items.now after) }
    ensures within { IfOk result (λ all. length all.items ≤ 67108864) }
    ensures too_large { result ≡ Err stop.TooLarge → 67108864 < length (text words.now (flat_map layout items.now)) }
{
    let _count = words.len();
    let marks = marks_of(alloc, items)?;
    text_of(alloc, &marks, words, MAX_TEXT_BYTES)
}

/// The layout of external declarations, one after the other.
fn marks_of(alloc: Global, items: &[Item]) -> Result<Vec<Mark>, TextStop>
    ensures marks { IfOk result (λ marks. marks.items ≡ flat_map layout items.now) }
    ensures refused { IfErr result (λ e. e ≡ stop.Memory) }
{
    let mut marks = Vec::new(alloc);
    for item in items {
        if lay_out(item.tree(), &mut marks).is_err() {
            return Err(TextStop::Memory);
        }
    }
    Ok(marks)
}
