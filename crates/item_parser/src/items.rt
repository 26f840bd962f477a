//! External declarations (ISO/IEC 9899:1990, 6.7).

ghost use Rattle.std.specs.Prelude.{◌≡◌, ◌≤◌, ◌<◌, ◌-◌, ◌^◌, Err, Ok, true, IfErr, IfOk, length, map, ℕ};
ghost use Rattle.c_forms.specs.Forests.{Plain};
ghost use Rattle.c_forms.specs.Places.{stands};
ghost use Rattle.c_forms.specs.declared.pieces.Sort.TheVariants as sort;
ghost use Rattle.c_reader.specs.declared.refusal.Refusal.TheVariants as refusal;
ghost use Rattle.draft_trees.specs.Placing.{placed};
ghost use Rattle.draft_trees.specs.Right.{IsRight};
ghost use Rattle.item_parser.specs.Answers.{Finds, Gives, IsNext, answer_of};
ghost use Rattle.item_parser.specs.Readings.{IsFirstDead, IsTooDeep, Reading};
ghost use Rattle.table_parser.specs.Cursors.{shape_of};

use c_forms::Sort;
use c_reader::Refusal;
use c_tokens::Token;
use c_trees::Tree;
use checked_trees::Item;
use draft_trees::{Draft, placed};
use reader_states::Attempt;
use scopes::Scopes;
use sort_parser::{MAX_DEPTH, in_place};
use std::alloc::Global;
use table_parser::{Cursor, Found, PLACES};

/// The next item of the tokens, which begins at the token with the number `at` under these scopes,
/// and the number of the token after it. Its spans count bytes. The last token is the end of the
/// source, and `at` is before it. The scopes are as before, whatever is answered.
pub fn read_item(
    alloc: Global,
    tokens: &[Token],
    at: usize,
    scopes: &mut Scopes,
) -> Result<(Item, usize), Refusal>
    requires short { length tokens.now < 2 ^ 32 - 1 }
    requires inside { at ≤ length tokens.now }
    ensures read { IfOk result (λ answer. IsNext tokens.now scopes.old at answer) }
    ensures complete { (depth : ℕ) (item : Plain) (end : ℕ) → depth ≤ 1000 → Reading depth scopes.old (map shape_of tokens.now) at item end → Gives (placed tokens.now item, end) result }
    ensures syntax { (k : ℕ) → result ≡ Err (refusal.Syntax k) → IsFirstDead scopes.old (map shape_of tokens.now) at k }
    ensures too_deep { (k : ℕ) → result ≡ Err (refusal.TooDeep k) → IsTooDeep 1000 scopes.old (map shape_of tokens.now) at k }
    ensures kept { scopes.new ≡ scopes.old }
{
    match next_found(alloc, tokens, at, scopes) {
        Ok((found, end)) => {
            let tree = placed_tree(alloc, &found.into_draft(), tokens);
            item_at(tree, end)
        }
        Err(refusal) => Err(refusal),
    }
}

/// The tree as an item, before a place.
fn item_at(tree: Result<Tree, Refusal>, end: usize) -> Result<(Item, usize), Refusal>
    requires item { IfOk tree (λ made. stands made.form sort.Item ≡ true) }
    requires refused { IfErr tree (λ e. e ≡ refusal.Memory) }
    ensures done { IfOk result (λ answer. (tree ≡ Ok answer.0) × (answer.1 ≡ end)) }
    ensures refused { IfErr result (λ e. e ≡ refusal.Memory) }
{
    match tree {
        Ok(tree) => match Item::from_tree(tree) {
            Ok(item) => Ok((item, end)),
            Err(_) => unreachable!(),
        },
        Err(refusal) => Err(refusal),
    }
}

/// What the reader of the grammar answers for the tokens from a place on, and the place after it.
fn next_found(
    alloc: Global,
    tokens: &[Token],
    at: usize,
    scopes: &mut Scopes,
) -> Result<(Found, usize), Refusal>
    requires short { length tokens.now < 2 ^ 32 - 1 }
    requires inside { at ≤ length tokens.now }
    ensures some { 0 < length scopes.old }
    ensures finds { Finds (answer_of scopes.old (map shape_of tokens.now) at) result }
    ensures kept { scopes.new ≡ scopes.old }
{
    let table = scopes.take(alloc);
    let _steps = table.steps();
    let attempt = Attempt::begin(alloc, table);
    let mut cursor = Cursor::new(tokens, at, attempt);
    let found = in_place(alloc, &mut cursor, MAX_DEPTH, PLACES, Sort::Item, 0);
    let end = cursor.place();
    scopes.put(cursor.into_attempt().take_back());
    match found {
        Ok(found) => Ok((found, end)),
        Err(refusal) => Err(refusal),
    }
}

fn placed_tree(alloc: Global, draft: &Draft, tokens: &[Token]) -> Result<Tree, Refusal>
    requires { IsRight draft.now }
    ensures placed { IfOk result (λ made. made ≡ placed tokens.now draft.now) }
    ensures refused { IfErr result (λ e. e ≡ refusal.Memory) }
{
    match placed(alloc, draft, tokens) {
        Ok(tree) => Ok(tree),
        Err(_) => Err(Refusal::Memory),
    }
}
