//! The forms of nodes, without their parts.

ghost use Rattle.std.specs.Prelude.{◌≡◌};
ghost use Rattle.c_forms.specs.Equal.{one_form};

use crate::operators::{
    AssignmentOperator, BasicType, BinaryOperator, MetaUnaryOperator, StorageClass, StructOrUnion,
    TypeQualifier, UnaryOperator,
};
use c_tokens::{Base, Kind, MacroNo, MetaType, Shape, Word};

/// An expression (ISO/IEC 9899:1990, 6.3).
#[derive(Clone, Copy, PartialEq, Eq)]
pub enum ExpForm {
    /// an identifier
    Name(Word),
    /// an integer constant
    Int(Word),
    /// a floating constant
    Float(Word),
    /// a character constant
    Char(Word),
    /// string literals side by side
    Str,
    /// `a[b]`
    Index,
    /// `f(a, ..)`
    Apply,
    /// `a.m`
    Field,
    /// `a->m`
    Arrow,
    /// `a++`
    PostInc,
    /// `a--`
    PostDec,
    /// `++a`
    PreInc,
    /// `--a`
    PreDec,
    Unary(UnaryOperator),
    /// `sizeof a`
    SizeofExp,
    /// `sizeof (type name)`
    SizeofType,
    /// `(type name) a`
    Cast,
    Binary(BinaryOperator),
    /// `a ? b : c`
    Conditional,
    Assign(AssignmentOperator),
    /// `a, b`
    Comma,
}

/// A specifier or qualifier of a declaration (6.5.1 to 6.5.3).
#[derive(Clone, Copy, PartialEq, Eq)]
pub enum SpecForm {
    Storage(StorageClass),
    Qualifier(TypeQualifier),
    Basic(BasicType),
    /// a typedef name
    Typedef(Word),
    /// a structure or union, with a tag or members
    StructOf(StructOrUnion),
    /// an enumeration, with a tag or enumerators
    EnumOf,
}

/// A declarator (6.5.4), an abstract one (6.5.5) or one of a parameter.
#[derive(Clone, Copy, PartialEq, Eq)]
pub enum DeclaratorForm {
    Named,
    /// no name and nothing else
    Absent,
    /// `* qualifiers d`
    Pointer,
    /// `d[size]`
    ArrayOf,
    /// `d(parameters)`
    FunctionOf,
}

/// The parameters of a function declarator (6.5.4.3).
#[derive(Clone, Copy, PartialEq, Eq)]
pub enum ParamsForm {
    /// an identifier list, or nothing
    Ids,
    /// a parameter type list
    Typed,
    /// a parameter type list that ends in `, ...`
    TypedAndMore,
}

/// An initializer (6.5.7).
#[derive(Clone, Copy, PartialEq, Eq)]
pub enum InitForm {
    One,
    Braces,
}

/// A statement (6.6).
#[derive(Clone, Copy, PartialEq, Eq)]
pub enum StmtForm {
    Label,
    Case,
    Default,
    /// an expression and `;`
    Express,
    /// `;`
    Empty,
    /// a compound statement
    Block,
    /// `if`, with or without `else`
    If,
    Switch,
    While,
    Do,
    For,
    Goto,
    Continue,
    Break,
    Return,
}

/// An external declaration (6.7), or a definition of the macro notation.
#[derive(Clone, Copy, PartialEq, Eq)]
pub enum ItemForm {
    Function,
    Declaration,
    /// `@syntax`: a macro with its result and its name
    Syntax { result: MetaType, name: Word },
    /// `@meta`: a function with its result and its name
    MetaFunction { result: MetaType, name: Word },
    /// `@meta`: a variable
    MetaVariable { of: MetaType, name: Word },
}

/// An expression of meta code.
#[derive(Clone, Copy, PartialEq, Eq)]
pub enum MetaExpForm {
    Int(Word),
    /// one string literal
    Text(Word),
    Variable(Word),
    Unary(MetaUnaryOperator),
    Binary(BinaryOperator),
    /// `a ? b : c`
    Choose,
    /// a call of a function or primitive
    Named(Word),
    /// a template
    Quote,
}

/// A template, or the shape of a `@match`.
#[derive(Clone, Copy, PartialEq, Eq)]
pub enum TemplateForm {
    /// an expression, in `` `( `` and `)`
    Parens,
    /// the inside of a block, in `` `{ `` and `}`; the node is that block
    Braces,
    /// one tree of a kind
    One(Kind),
    /// trees of a kind
    Many(Kind),
}

/// A statement of meta code. A block is one too.
#[derive(Clone, Copy, PartialEq, Eq)]
pub enum MetaStmtForm {
    Empty,
    /// an expression and `;`
    Value,
    /// `name = value;`
    Set(Word),
    If,
    While,
    Do,
    For,
    Break,
    Continue,
    Return,
    /// `@match (value) shape .. else ..`
    Match,
}

/// An element of a macro's pattern.
#[derive(Clone, Copy, PartialEq, Eq)]
pub enum ElementForm {
    /// a token that stands for itself
    Literal(Shape),
    /// `$$kind::name`
    Bind,
    /// `$$+`
    OneOrMore,
    /// `$$*`
    ZeroOrMore,
    /// `$$+/`, with a separator
    OneOrMoreBetween(Shape),
    /// `$$*/`, with a separator
    ZeroOrMoreBetween(Shape),
    /// `$$?`, with the token that begins it
    Maybe(Shape),
}

/// A placeholder. It is a tree of its kind, or stands for a list of such trees.
#[derive(Clone, Copy, PartialEq, Eq)]
pub enum HoleForm {
    /// `$x`, of the kind of the variable
    Variable {
        kind: Kind,
        is_list: bool,
        name: Word,
    },
    /// `$@kind(code)` or `$@kind[](code)`
    Computed {
        kind: Kind,
        is_list: bool,
    },
    /// `$$kind::name`, in a shape
    Binder {
        kind: Kind,
        name: Word,
    },
}

/// A group of parts of a node. It is no tree of any kind, and counts neither for size nor for height.
#[derive(Clone, Copy, PartialEq, Eq)]
pub enum GroupForm {
    /// parts that are repeated or may be absent
    List,
    /// the rounds of a repetition or option in a macro's call
    Rounds,
    /// the parts of one round, where it has several
    Row,
    /// a declarator and its initializer (6.5)
    InitDeclarator,
    /// `= initializer`
    Initializer,
    /// a declarator of a member and its width (6.5.2.1)
    MemberDeclarator,
    /// `: width`
    Width,
    /// the members of a structure or union, in braces
    Members,
    /// the enumerators of an enumeration, in braces (6.5.2.2)
    Enumerators,
    /// `= value` of an enumerator
    EnumeratorValue,
    /// `else` and its statement
    ElsePart,
    /// `else` and its statement, of meta code
    MetaElsePart,
    /// `name = value` in the head of a `for` of meta code
    Assignment(Word),
    /// `= value` of a variable of meta code
    MetaValue,
    /// a parameter of a function of meta code
    MetaParam { of: MetaType, name: Word },
    /// `kind::name` of a pattern
    Binder { kind: Kind, name: Word },
    /// elements of a pattern in `@(` and `@)`
    Elements,
}

/// The form of a node.
#[derive(Clone, Copy, PartialEq, Eq)]
pub enum Form {
    Exp(ExpForm),
    /// a type name (6.5.5)
    TypeName,
    /// type specifiers and qualifiers, as a tree of kind spec
    Specs,
    Spec(SpecForm),
    /// a member declaration (6.5.2.1)
    Member,
    Enumerator,
    Declarator(DeclaratorForm),
    Params(ParamsForm),
    /// a parameter declaration (6.5.4.3)
    Param,
    Init(InitForm),
    /// a declaration (6.5)
    Decl,
    Stmt(StmtForm),
    Item(ItemForm),
    /// an identifier that is a part
    Id(Word),
    /// a string literal that is a part
    Literal(Word),
    MetaExp(MetaExpForm),
    Template(TemplateForm),
    MetaStmt(MetaStmtForm),
    /// a block of meta code
    MetaBlock,
    /// the declaration of a variable in a block of meta code
    Local {
        of: MetaType,
        name: Word,
    },
    Element(ElementForm),
    Hole(HoleForm),
    /// a call of a macro, with its result. `tail` is whether its pattern ends in a binder of a statement
    Call {
        number: MacroNo,
        result: MetaType,
        tail: bool,
    },
    Group(GroupForm),
}

impl Form {
    /// Whether two forms are equal.
    pub fn is_same(self, other: Form) -> bool
        ensures { result ≡ one_form self other }
    {
        self == other
    }
}
