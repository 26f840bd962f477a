//! The primitives and their types.

ghost use Rattle.std.specs.Prelude.{◌≡◌, ◌≤◌, [], ◌∷◌, nat_le, option_map, IfSome, IsTrue, ◌&&◌, if◌then◌else◌};
ghost use Rattle.meta_types.specs.Fit.{does_fit};
ghost use Rattle.std.specs.Option.{ForSome};
ghost use Rattle.c_tokens.specs.Spelling.{find_text};
ghost use Rattle.meta_types.specs.Signatures.{prim_type, primitives, call_type, takes_one, takes_two, just, variable, list, variable_of, element_of, list_of as list_type};
ghost use Rattle.meta_types.specs.Items.{only_item, both_items};
ghost use Rattle.meta_types.specs.Shown.{shown};

use crate::order::fits;
use c_tokens::{Base, Kind, MetaType};

/// A function of the meta-language that is there without a definition.
#[derive(Clone, Copy, Debug, PartialEq, Eq)]
pub enum Prim {
    Length,
    First,
    Rest,
    Cons,
    Append,
    Concat,
    Digits,
    TextOf,
    Fresh,
    MakeId,
    JoinId,
    String,
    Number,
    Value,
    Same,
    AsId,
    AsNum,
    Error,
}

static PRIMITIVES: [(&[u8], Prim); 18] = [
    (b"length", Prim::Length),
    (b"first", Prim::First),
    (b"rest", Prim::Rest),
    (b"cons", Prim::Cons),
    (b"append", Prim::Append),
    (b"concat", Prim::Concat),
    (b"digits", Prim::Digits),
    (b"text_of", Prim::TextOf),
    (b"fresh", Prim::Fresh),
    (b"make_id", Prim::MakeId),
    (b"join_id", Prim::JoinId),
    (b"string", Prim::String),
    (b"number", Prim::Number),
    (b"value", Prim::Value),
    (b"same", Prim::Same),
    (b"as_id", Prim::AsId),
    (b"as_num", Prim::AsNum),
    (b"error", Prim::Error),
];

/// The primitive of a name.
pub fn primitive(name: &[u8]) -> Option<Prim>
    ensures { result ≡ find_text name.now primitives }
{
    find(name, &PRIMITIVES)
}

fn find(name: &[u8], table: &[(&'static [u8], Prim)]) -> Option<Prim>
    ensures { result ≡ find_text name.now (shown table.now) }
{
    for (spelled, prim) in table {
        if name == *spelled {
            return Some(*prim);
        }
    }
    None
}

const INT: MetaType = MetaType {
    base: Base::Int,
    lists: 0,
};

const TEXT: MetaType = MetaType {
    base: Base::Text,
    lists: 0,
};

const ID: MetaType = MetaType {
    base: Base::Tree(Kind::Id),
    lists: 0,
};

const NUM: MetaType = MetaType {
    base: Base::Tree(Kind::Num),
    lists: 0,
};

const EXP: MetaType = MetaType {
    base: Base::Tree(Kind::Exp),
    lists: 0,
};

const IDS: MetaType = MetaType {
    base: Base::Tree(Kind::Id),
    lists: 1,
};

const NUMS: MetaType = MetaType {
    base: Base::Tree(Kind::Num),
    lists: 1,
};

/// The most lists of a type that may stand for the variable of a signature.
const MOST_LISTS: u8 = 2;

/// The type of a call of a primitive with arguments of these types.
#[tactic(auto, using(crate::proofs::Calls::length_type, crate::proofs::Calls::list_type), unfolding(crate::specs::Signatures::prim_type, crate::specs::Signatures::signature_of))]
pub fn prim_result(prim: Prim, args: &[MetaType]) -> Option<MetaType>
    ensures { result ≡ prim_type prim args.now }
{
    match prim {
        Prim::Length => one_list(args).and(Some(INT)),
        Prim::First => one_list(args),
        Prim::Rest => list_of(one_list(args)),
        Prim::Cons => list_of(element_and_list(args)),
        Prim::Append => list_of(two_lists(args)),
        Prim::Concat => of_two(args, TEXT, TEXT, TEXT),
        Prim::Digits => of_one(args, INT, TEXT),
        Prim::TextOf => of_one(args, ID, TEXT),
        Prim::Fresh | Prim::MakeId => of_one(args, TEXT, ID),
        Prim::JoinId => of_two(args, ID, TEXT, ID),
        Prim::String => of_one(args, TEXT, EXP),
        Prim::Number => of_one(args, INT, EXP),
        Prim::Value => of_one(args, NUM, INT),
        Prim::Same => of_two(args, EXP, EXP, INT),
        Prim::AsId => of_one(args, EXP, IDS),
        Prim::AsNum => of_one(args, EXP, NUMS),
        Prim::Error => of_one(args, TEXT, INT),
    }
}

/// What a call gives whose one argument fits a type.
fn of_one(args: &[MetaType], wanted: MetaType, given: MetaType) -> Option<MetaType>
    ensures { result ≡ call_type (takes_one (just wanted) (just given)) args.now }
{
    let arg = only(args)?;
    if fits(arg, wanted) { Some(given) } else { None }
}

/// What a call gives whose two arguments fit two types.
fn of_two(
    args: &[MetaType],
    wanted: MetaType,
    wanted_next: MetaType,
    given: MetaType,
) -> Option<MetaType>
    ensures { result ≡ call_type (takes_two (just wanted) (just wanted_next) (just given)) args.now }
{
    let (arg, next) = both(args)?;
    if fits(arg, wanted) && fits(next, wanted_next) {
        Some(given)
    } else {
        None
    }
}

/// The type of the elements, for a call whose one argument is a list.
fn one_list(args: &[MetaType]) -> Option<MetaType>
    ensures element { result ≡ call_type (takes_one list variable) args.now }
    ensures few { IfSome result (λ t. t.lists ≤ 2) }
{
    let arg = only(args)?;
    few_lists(element(arg)?)
}

/// The type of the elements, for a call with an element and a list.
fn element_and_list(args: &[MetaType]) -> Option<MetaType>
    ensures element { result ≡ call_type (takes_two variable list variable) args.now }
    ensures few { IfSome result (λ t. t.lists ≤ 2) }
{
    let (first, others) = both(args)?;
    common(first, element(others)?)
}

/// The type of the elements, for a call with two lists.
fn two_lists(args: &[MetaType]) -> Option<MetaType>
    ensures element { result ≡ call_type (takes_two list list variable) args.now }
    ensures few { IfSome result (λ t. t.lists ≤ 2) }
{
    let (first, second) = both(args)?;
    let first = element(first)?;
    let second = element(second)?;
    common(first, second)
}

fn only(args: &[MetaType]) -> Option<MetaType>
    ensures { result ≡ only_item args.now }
{
    match args {
        [arg] => Some(*arg),
        _ => None,
    }
}

fn both(args: &[MetaType]) -> Option<(MetaType, MetaType)>
    ensures { result ≡ both_items args.now }
{
    match args {
        [first, second] => Some((*first, *second)),
        _ => None,
    }
}

/// The type of the elements of a list.
fn element(list: MetaType) -> Option<MetaType>
    ensures { result ≡ (if nat_le 1 list.lists then Some (element_of list) else None) }
{
    if list.lists >= 1 {
        Some(MetaType {
            base: list.base,
            lists: list.lists - 1,
        })
    } else {
        None
    }
}

#[tactic(auto, using(crate::proofs::Calls::one_serves, crate::proofs::Calls::one_too_deep))]
/// The type, where it may stand for a variable.
fn few_lists(t: MetaType) -> Option<MetaType>
    ensures only { result ≡ variable_of (t ∷ []) }
    ensures few { IfSome result (λ t. t.lists ≤ 2) }
{
    if t.lists <= MOST_LISTS { Some(t) } else { None }
}

#[tactic(auto, using(crate::proofs::Calls::first_serves, crate::proofs::Calls::second_serves, crate::proofs::Calls::none_serves))]
/// Of two types the one that the other fits, where it may stand for a variable.
fn common(a: MetaType, b: MetaType) -> Option<MetaType>
    ensures common { result ≡ variable_of (a ∷ b ∷ []) }
    ensures few { IfSome result (λ t. t.lists ≤ 2) }
{
    if takes(a, b) {
        Some(a)
    } else if takes(b, a) {
        Some(b)
    } else {
        None
    }
}

/// Whether a type may stand for a variable that another type fits.
fn takes(t: MetaType, other: MetaType) -> bool
    ensures takes { result ≡ (nat_le t.lists 2 && does_fit other t) }
    ensures few { IsTrue result → t.lists ≤ 2 }
{
    t.lists <= MOST_LISTS && fits(other, t)
}

fn list_of(element: Option<MetaType>) -> Option<MetaType>
    requires { ForSome element (λ t. t.lists ≤ 2) }
    ensures { result ≡ option_map list_type element }
{
    let element = element?;
    Some(MetaType {
        base: element.base,
        lists: element.lists + 1,
    })
}
