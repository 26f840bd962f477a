//! Whether parts are what the pieces of a row ask for.

ghost use Rattle.std.specs.Prelude.{◌≡◌};
ghost use Rattle.c_forms.specs.Fits as asked;
ghost use Rattle.c_forms.specs.Forests.{forest};

use c_forms::{Piece, Repetition, Sort};
use c_trees::Tree;
use form_places::{joins, stands};

fn all_stand(due: Sort, all: &[Tree]) -> bool
    ensures { result ≡ asked.all_stand due (forest all.now) }
{
    for one in all {
        if !stands(one.form(), due) {
            return false;
        }
    }
    true
}

fn all_join(due: Sort, all: &[Tree]) -> bool
    ensures { result ≡ asked.all_join due (forest all.now) }
{
    for one in all {
        if !joins(one.form(), due) {
            return false;
        }
    }
    true
}

fn is_spliced(repetition: Repetition) -> bool
    ensures { result ≡ asked.is_spliced repetition }
{
    match repetition {
        Repetition::Spliced { .. } | Repetition::Ended { .. } => true,
        _ => false,
    }
}

fn least_of(repetition: Repetition) -> u8
    ensures { result ≡ asked.least_of repetition }
{
    match repetition {
        Repetition::All | Repetition::Ended { .. } => 1,
        Repetition::Many { least, .. } => least,
        Repetition::Spliced { least, .. } => least,
        _ => 0,
    }
}

fn is_single(repetition: Repetition) -> bool
    ensures { result ≡ asked.is_single repetition }
{
    match repetition {
        Repetition::Optional | Repetition::Greedy | Repetition::Due => true,
        _ => false,
    }
}

/// Whether trees are as many elements of a sort as a repetition asks for, and each may be there.
#[tactic(auto, using(c_trees::proofs::Numbers::number_length))]
fn are_elements(repetition: Repetition, due: Sort, all: &[Tree]) -> bool
    ensures { result ≡ asked.elements repetition due (forest all.now) }
{
    let belong = if is_spliced(repetition) {
        all_join(due, all)
    } else {
        all_stand(due, all)
    };
    belong
        && least_of(repetition) as usize <= all.len()
        && (!is_single(repetition) || all.len() < 2)
}

fn is_list_of(repetition: Repetition, due: Sort, part: &Tree) -> bool
    ensures { result ≡ asked.is_list_of repetition due part.now.form part.now.parts }
{
    stands(part.form(), Sort::List) && are_elements(repetition, due, part.parts())
}

/// Whether trees are what pieces ask for.
pub fn fits(pieces: &[Piece], parts: &[Tree]) -> bool
    ensures { result ≡ asked.fits pieces.now (forest parts.now) }
{
    match pieces.split_first() {
        None => match parts.first() {
            None => true,
            Some(_) => false,
        },
        Some((piece, pieces)) => match *piece {
            Piece::Token(_)
            | Piece::Maybe(_)
            | Piece::Own
            | Piece::TypeTokens
            | Piece::KindName
            | Piece::Then(_) => fits(pieces, parts),
            Piece::One(due, _) => match parts.split_first() {
                None => false,
                Some((part, others)) => stands(part.form(), due) && fits(pieces, others),
            },
            Piece::Group(repetition, due, _) => match parts.split_first() {
                None => false,
                Some((part, others)) => is_list_of(repetition, due, part) && fits(pieces, others),
            },
            Piece::Rest(due) => all_stand(due, parts),
            Piece::Anything => true,
        },
    }
}
