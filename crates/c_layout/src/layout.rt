//! The marks of trees.

ghost use Rattle.std.specs.Prelude.{◌≡◌, ◌≤◌, ◌+◌, ◌++◌, [], ◌∷◌, length, OnOk, IfOk};
ghost use Rattle.c_forms.specs.Forests.{forest};
ghost use Rattle.c_layout.specs.Layout as layouts;
ghost use Rattle.c_layout.specs.Layout.{heads, head_of, laid};
ghost use Rattle.c_layout.specs.Marks.{line, if_any};
ghost use Rattle.c_layout.specs.Spelled.{tokens, tokens_among};

use crate::marks::{Mark, plain, separator_of, shape_of, token_in};
use crate::standing::{
    GroupStanding, Standing, follows_else, is_block, standing_of_group, standing_of_part,
};
use c_forms::{Form, Piece};
use c_tokens::{Memory, Punct};
use c_trees::Tree;
use form_rows::{level, pieces};
use form_tokens::held;

fn push(mark: Mark, marks: &mut Vec<Mark>) -> Result<(), Memory>
    ensures { OnOk result (marks.new.items ≡ marks.old.items ++ mark ∷ []) }
{
    match marks.push(mark) {
        Ok(()) => Ok(()),
        Err(_) => Err(Memory),
    }
}

fn push_line(depth: u32, marks: &mut Vec<Mark>) -> Result<(), Memory>
    ensures { OnOk result (marks.new.items ≡ marks.old.items ++ line depth ∷ []) }
{
    push(Mark::Line { depth }, marks)
}

fn push_any(mark: Option<Mark>, marks: &mut Vec<Mark>) -> Result<(), Memory>
    ensures { OnOk result (marks.new.items ≡ marks.old.items ++ if_any mark) }
{
    match mark {
        None => Ok(()),
        Some(mark) => push(mark, marks),
    }
}

fn push_start(starts: bool, depth: u32, marks: &mut Vec<Mark>) -> Result<(), Memory>
    ensures { OnOk result (marks.new.items ≡ marks.old.items ++ layouts.start starts depth) }
{
    if starts {
        push_line(depth, marks)
    } else {
        Ok(())
    }
}

/// One deeper. No tree is so high that this fails.
fn deeper(depth: u32) -> Result<u32, Memory>
    ensures { IfOk result (λ deep. deep ≡ depth + 1) }
{
    match depth.checked_add(1) {
        Some(deep) => Ok(deep),
        None => Err(Memory),
    }
}

/// The marks of a tree whose first line has begun.
#[cycle(put)]
#[tactic(auto, using(crate::proofs::Few::few, c_trees::specs::Depths::most_deep))]
fn put_tree(depth: u32, tree: &Tree, marks: &mut Vec<Mark>) -> Result<(), Memory>
    ensures { OnOk result (marks.new.items ≡ marks.old.items ++ layouts.laid_at depth tree.now) }
{
    put(pieces(tree.form()), tree.form(), tree.parts(), depth, marks)
}

/// The marks of a part, in parentheses if it holds together less tightly than is due.
#[cycle(put)]
fn put_placed(due: u8, depth: u32, tree: &Tree, marks: &mut Vec<Mark>) -> Result<(), Memory>
    ensures { OnOk result (marks.new.items ≡ marks.old.items ++ layouts.placed due depth (head_of tree.now)) }
{
    if level(tree.form()) < due {
        push(plain(Punct::LeftParen), marks)?;
        put_tree(depth, tree, marks)?;
        push(plain(Punct::RightParen), marks)
    } else {
        put_tree(depth, tree, marks)
    }
}

/// The marks of the body of a header.
#[cycle(put)]
fn put_body(
    goes_on: bool,
    due: u8,
    depth: u32,
    tree: &Tree,
    marks: &mut Vec<Mark>,
) -> Result<(), Memory>
    ensures { OnOk result (marks.new.items ≡ marks.old.items ++ layouts.body goes_on due depth (head_of tree.now)) }
{
    if goes_on {
        put_placed(due, depth, tree, marks)
    } else {
        let deep = deeper(depth)?;
        push_line(deep, marks)?;
        put_placed(due, deep, tree, marks)
    }
}

#[cycle(put)]
fn put_part(
    standing: Standing,
    due: u8,
    depth: u32,
    tree: &Tree,
    marks: &mut Vec<Mark>,
) -> Result<(), Memory>
    ensures { OnOk result (marks.new.items ≡ marks.old.items ++ layouts.part standing due depth (head_of tree.now)) }
{
    match standing {
        Standing::Along => put_placed(due, depth, tree, marks),
        Standing::Body => put_body(is_block(tree.form()), due, depth, tree, marks),
        Standing::BodyOfDo => {
            put_body(is_block(tree.form()), due, depth, tree, marks)?;
            push_line(depth, marks)
        }
        Standing::BodyOfElse => put_body(follows_else(tree.form()), due, depth, tree, marks),
    }
}

/// The marks of elements with separators between them.
#[cycle(put)]
fn put_joined(
    starts: bool,
    separator: Option<Mark>,
    due: u8,
    depth: u32,
    all: &[Tree],
    marks: &mut Vec<Mark>,
) -> Result<(), Memory>
    ensures { OnOk result (marks.new.items ≡ marks.old.items ++ layouts.joined starts (if_any separator) due depth (heads (laid (forest all.now)))) }
{
    match all.split_first() {
        None => Ok(()),
        Some((first, others)) => {
            push_start(starts, depth, marks)?;
            put_placed(due, depth, first, marks)?;
            for one in others {
                push_any(separator, marks)?;
                push_start(starts, depth, marks)?;
                put_placed(due, depth, one, marks)?;
            }
            Ok(())
        }
    }
}

/// The marks of elements on lines of their own, one deeper, and of the line after them.
#[cycle(put)]
fn put_inside(
    separator: Option<Mark>,
    due: u8,
    depth: u32,
    all: &[Tree],
    marks: &mut Vec<Mark>,
) -> Result<(), Memory>
    ensures { OnOk result (marks.new.items ≡ marks.old.items ++ layouts.inside (if_any separator) due depth (heads (laid (forest all.now)))) }
{
    put_joined(true, separator, due, deeper(depth)?, all, marks)?;
    push_line(depth, marks)
}

#[cycle(put)]
fn put_elements(
    standing: GroupStanding,
    separator: Option<Mark>,
    due: u8,
    depth: u32,
    all: &[Tree],
    marks: &mut Vec<Mark>,
) -> Result<(), Memory>
    ensures { OnOk result (marks.new.items ≡ marks.old.items ++ layouts.elements standing (if_any separator) due depth (heads (laid (forest all.now)))) }
{
    match standing {
        GroupStanding::Along => put_joined(false, separator, due, depth, all, marks),
        GroupStanding::Inside => put_inside(separator, due, depth, all, marks),
        GroupStanding::Declarations => match all.first() {
            None => Ok(()),
            Some(_) => put_inside(separator, due, depth, all, marks),
        },
        GroupStanding::Else => put_joined(true, separator, due, depth, all, marks),
    }
}

/// The marks of a node over its parts, as pieces say.
#[cycle(put)]
#[tactic(auto, using(c_trees::specs::Depths::most_deep))]
fn put(
    pieces: &[Piece],
    form: Form,
    parts: &[Tree],
    depth: u32,
    marks: &mut Vec<Mark>,
) -> Result<(), Memory>
    requires { length pieces.now ≤ 12 }
    ensures { OnOk result (marks.new.items ≡ marks.old.items ++ layouts.put pieces.now form (laid (forest parts.now)) depth) }
{
    match pieces.split_first() {
        None => Ok(()),
        Some((piece, pieces)) => match *piece {
            Piece::Token(class) => {
                push_any(token_in(form, shape_of(class)), marks)?;
                put(pieces, form, parts, depth, marks)
            }
            Piece::Own => {
                push_any(token_in(form, held(form)), marks)?;
                put(pieces, form, parts, depth, marks)
            }
            Piece::One(due, least) => match parts.split_first() {
                None => Ok(()),
                Some((part, others)) => {
                    put_part(standing_of_part(form, due), least, depth, part, marks)?;
                    put(pieces, form, others, depth, marks)
                }
            },
            Piece::Group(repetition, due, least) => match parts.split_first() {
                None => Ok(()),
                Some((list, others)) => {
                    let standing = standing_of_group(due);
                    let separator = token_in(form, separator_of(repetition));
                    put_elements(standing, separator, least, depth, list.parts(), marks)?;
                    put(pieces, form, others, depth, marks)
                }
            },
            Piece::Maybe(_)
            | Piece::Then(_)
            | Piece::TypeTokens
            | Piece::KindName
            | Piece::Rest(_)
            | Piece::Anything => put(pieces, form, parts, depth, marks),
        },
    }
}

/// Appends the marks of an item: its tokens by the rows of the table, with the least parentheses, and between them
/// where lines begin. Where memory is wanting, some of them may have been appended.
pub fn lay_out(item: &Tree, marks: &mut Vec<Mark>) -> Result<(), Memory>
    ensures marks { OnOk result (marks.new.items ≡ marks.old.items ++ layouts.layout item.now) }
    ensures tokens { OnOk result (tokens_among marks.new.items ≡ tokens_among marks.old.items ++ tokens item.now) }
{
    push_line(0, marks)?;
    put_tree(0, item, marks)?;
    Ok(())
}
