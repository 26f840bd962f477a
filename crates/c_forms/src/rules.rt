//! The rules beside the table.

/// A rule of validity: what the parts of a node must be besides the pieces of its row.
#[derive(Clone, Copy, Debug, PartialEq, Eq)]
pub enum Rule {
    /// the parts are not what the pieces of the row ask for
    Parts,
    /// a typedef name, structure, union, enumeration, placeholder or call is the only type specifier of its list
    /// (6.5.2)
    SoleType,
    /// a tree of kind spec has a type specifier
    NoType,
    /// a structure, union or enumeration has a tag or a body (6.5.2.3)
    TagOrBody,
    /// a declarator of a member has a name, or nothing but a width (6.5.2.1)
    NameOrWidth,
    /// a declarator of a declaration or function has a name
    NoName,
    /// a declarator of a type name has none
    Name,
    /// a function declarator without a name has no identifier list (6.5.5)
    AbstractIds,
    /// the declarator of a function definition has a function part next to its name (6.7.1)
    NoFunction,
    /// the part before an `else` does not end open (6.6.4.1)
    OpenPart,
    /// no declaration stands after a statement in a block (6.6.2)
    LateDeclaration,
    /// a type of meta code has at most three list levels, and a macro gives what it may give
    MetaType,
    /// a literal, separator or intro of a pattern is a keyword, a punctuator or a word
    PatternToken,
}
