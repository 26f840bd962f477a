//! With which classes a tree of a kind begins, and which may go on with it.

ghost use Rattle.std.specs.Prelude.{◌≡◌, IsTrue};
ghost use Rattle.std.specs.List.{list_all};
ghost use Rattle.c_tokens.specs.declared.class.Class.{Class};
ghost use Rattle.pattern_language.specs.Sets.{has};
ghost use Rattle.pattern_language.specs.Classes.{one_of, is_common};
ghost use Rattle.pattern_language.specs.Kinds as kinds;

use crate::class_set::ClassSet;
use c_tokens::{Class, Key, Kind, Punct};

/// Type specifiers that are keywords (ISO/IEC 9899:1990, 6.5.2).
const TYPES: [Class; 9] = [
    Class::Key(Key::Void),
    Class::Key(Key::Char),
    Class::Key(Key::Short),
    Class::Key(Key::Int),
    Class::Key(Key::Long),
    Class::Key(Key::Float),
    Class::Key(Key::Double),
    Class::Key(Key::Signed),
    Class::Key(Key::Unsigned),
];

/// Storage classes (ISO/IEC 9899:1990, 6.5.1).
const STORAGE: [Class; 5] = [
    Class::Key(Key::Typedef),
    Class::Key(Key::Extern),
    Class::Key(Key::Static),
    Class::Key(Key::Auto),
    Class::Key(Key::Register),
];

/// Qualifiers, and the keywords of structs, unions and enumerations.
const TAGS: [Class; 5] = [
    Class::Key(Key::Const),
    Class::Key(Key::Volatile),
    Class::Key(Key::Struct),
    Class::Key(Key::Union),
    Class::Key(Key::Enum),
];

/// Binary and assignment operators and the question mark.
const INFIX_OPERATORS: [Class; 30] = [
    Class::Punct(Punct::Star),
    Class::Punct(Punct::Slash),
    Class::Punct(Punct::Percent),
    Class::Punct(Punct::Plus),
    Class::Punct(Punct::Minus),
    Class::Punct(Punct::ShiftLeft),
    Class::Punct(Punct::ShiftRight),
    Class::Punct(Punct::Less),
    Class::Punct(Punct::Greater),
    Class::Punct(Punct::LessEqual),
    Class::Punct(Punct::GreaterEqual),
    Class::Punct(Punct::EqualEqual),
    Class::Punct(Punct::NotEqual),
    Class::Punct(Punct::Ampersand),
    Class::Punct(Punct::Caret),
    Class::Punct(Punct::Bar),
    Class::Punct(Punct::AmpersandAmpersand),
    Class::Punct(Punct::BarBar),
    Class::Punct(Punct::Question),
    Class::Punct(Punct::Equal),
    Class::Punct(Punct::StarEqual),
    Class::Punct(Punct::SlashEqual),
    Class::Punct(Punct::PercentEqual),
    Class::Punct(Punct::PlusEqual),
    Class::Punct(Punct::MinusEqual),
    Class::Punct(Punct::ShiftLeftEqual),
    Class::Punct(Punct::ShiftRightEqual),
    Class::Punct(Punct::AmpersandEqual),
    Class::Punct(Punct::CaretEqual),
    Class::Punct(Punct::BarEqual),
];

/// Postfix operators.
const POSTFIX_OPERATORS: [Class; 6] = [
    Class::Punct(Punct::LeftParen),
    Class::Punct(Punct::LeftBracket),
    Class::Punct(Punct::Dot),
    Class::Punct(Punct::Arrow),
    Class::Punct(Punct::PlusPlus),
    Class::Punct(Punct::MinusMinus),
];

/// Prefix operators and the parenthesis.
const PREFIX_OPERATORS: [Class; 10] = [
    Class::Punct(Punct::LeftParen),
    Class::Punct(Punct::Ampersand),
    Class::Punct(Punct::Star),
    Class::Punct(Punct::Plus),
    Class::Punct(Punct::Minus),
    Class::Punct(Punct::Tilde),
    Class::Punct(Punct::Exclamation),
    Class::Punct(Punct::PlusPlus),
    Class::Punct(Punct::MinusMinus),
    Class::Key(Key::Sizeof),
];

/// Keywords with which a statement begins.
const STATEMENT_WORDS: [Class; 11] = [
    Class::Key(Key::If),
    Class::Key(Key::Switch),
    Class::Key(Key::While),
    Class::Key(Key::Do),
    Class::Key(Key::For),
    Class::Key(Key::Goto),
    Class::Key(Key::Continue),
    Class::Key(Key::Break),
    Class::Key(Key::Return),
    Class::Key(Key::Case),
    Class::Key(Key::Default),
];

fn set_of(classes: &[Class]) -> ClassSet
    requires { IsTrue (list_all is_common classes.now) }
    ensures { (class : Class) → has result class ≡ one_of classes.now class }
{
    let mut set = ClassSet::empty();
    for class in classes {
        set = set.with(*class);
    }
    set
}

#[tactic(auto, using(crate::proofs::SetLemmas::one_of_lists))]
fn beginnings_of_exp() -> ClassSet
    ensures { (class : Class) → has result class ≡ one_of kinds.begin_exp class }
{
    set_of(&PREFIX_OPERATORS).union(set_of(&[
        Class::Word,
        Class::Int,
        Class::Float,
        Class::Char,
        Class::Str,
        Class::Hole(Kind::Id, 0),
        Class::Hole(Kind::Num, 0),
        Class::Hole(Kind::Exp, 0),
    ]))
}

#[tactic(auto, using(crate::proofs::SetLemmas::one_of_lists))]
fn beginnings_of_spec() -> ClassSet
    ensures { (class : Class) → has result class ≡ one_of kinds.begin_spec class }
{
    set_of(&TYPES)
        .union(set_of(&TAGS))
        .union(set_of(&[Class::Word, Class::Hole(Kind::Spec, 0)]))
}

#[tactic(auto, using(crate::proofs::SetLemmas::one_of_lists))]
fn beginnings_of_decl() -> ClassSet
    ensures { (class : Class) → has result class ≡ one_of kinds.begin_decl class }
{
    beginnings_of_spec()
        .union(set_of(&STORAGE))
        .with(Class::Hole(Kind::Decl, 0))
}

/// With which classes a tree of the kind begins.
#[tactic(auto, using(crate::proofs::SetLemmas::one_of_lists))]
pub fn first(kind: Kind) -> ClassSet
    ensures { (class : Class) → has result class ≡ kinds.first kind class }
{
    match kind {
        Kind::Id => set_of(&[Class::Word, Class::Hole(Kind::Id, 0)]),
        Kind::Num => set_of(&[Class::Int, Class::Hole(Kind::Num, 0)]),
        Kind::Exp => beginnings_of_exp(),
        Kind::Stmt => beginnings_of_exp()
            .union(set_of(&STATEMENT_WORDS))
            .union(set_of(&[
                Class::Punct(Punct::LeftBrace),
                Class::Punct(Punct::Semicolon),
                Class::Hole(Kind::Stmt, 0),
            ])),
        Kind::Spec => beginnings_of_spec(),
        Kind::Decl => beginnings_of_decl(),
        Kind::Item => beginnings_of_decl().union(set_of(&[
            Class::Punct(Punct::Star),
            Class::Punct(Punct::LeftParen),
            Class::Hole(Kind::Id, 0),
            Class::Hole(Kind::Item, 0),
        ])),
        Kind::Param => beginnings_of_spec()
            .union(set_of(&STORAGE))
            .with(Class::Hole(Kind::Param, 0)),
        Kind::Member => beginnings_of_spec().with(Class::Hole(Kind::Member, 0)),
    }
}

/// Which classes may go on with a tree of the kind.
#[tactic(auto, using(crate::proofs::SetLemmas::one_of_lists))]
pub fn cont(kind: Kind) -> ClassSet
    ensures { (class : Class) → has result class ≡ kinds.cont kind class }
{
    match kind {
        Kind::Exp => set_of(&INFIX_OPERATORS)
            .union(set_of(&POSTFIX_OPERATORS))
            .with(Class::Str),
        Kind::Stmt => set_of(&[Class::Key(Key::Else)]),
        Kind::Spec => set_of(&TYPES).union(set_of(&[
            Class::Key(Key::Const),
            Class::Key(Key::Volatile),
            Class::Punct(Punct::LeftBrace),
        ])),
        Kind::Param => beginnings_of_spec().union(set_of(&STORAGE)).union(set_of(&[
            Class::Punct(Punct::Star),
            Class::Punct(Punct::LeftParen),
            Class::Punct(Punct::LeftBracket),
            Class::Punct(Punct::LeftBrace),
            Class::Hole(Kind::Id, 0),
        ])),
        Kind::Id | Kind::Num | Kind::Decl | Kind::Item | Kind::Member => ClassSet::empty(),
    }
}
