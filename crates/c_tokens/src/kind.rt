//! What syntax trees and values of the meta-language are.

ghost use Rattle.std.specs.Prelude.{◌≡◌};
ghost use Rattle.c_tokens.specs.Kinds.{is_below};

/// What a syntax tree is.
#[derive(Clone, Copy, Debug, PartialEq, Eq)]
pub enum Kind {
    Id,
    Num,
    Exp,
    Stmt,
    Decl,
    Item,
    Spec,
    Param,
    Member,
}

/// A type of the meta-language without its lists.
#[derive(Clone, Copy, Debug, PartialEq, Eq)]
pub enum Base {
    Int,
    Text,
    Tree(Kind),
}

/// A type of the meta-language: lists, as many levels deep as `lists` says.
#[derive(Clone, Copy, Debug, PartialEq, Eq)]
pub struct MetaType {
    pub base: Base,
    pub lists: u8,
}

/// The number of a macro in a table of macros.
#[derive(Clone, Copy, Debug, PartialEq, Eq)]
pub struct MacroNo(pub u32);

/// The number of a function in a program.
#[derive(Clone, Copy, Debug, PartialEq, Eq)]
pub struct FunctionNo(pub u32);

/// Whether a tree of kind `a` may stand for one of kind `b`.
pub fn below(a: Kind, b: Kind) -> bool
    ensures { result ≡ is_below a b }
{
    match (a, b) {
        (Kind::Id | Kind::Num, Kind::Exp) | (Kind::Decl, Kind::Item) => true,
        _ => a == b,
    }
}
