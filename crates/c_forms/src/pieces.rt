//! What the rows of the table are made of.

use c_tokens::Class;

/// What may stand in a place.
#[derive(Clone, Copy, PartialEq, Eq)]
pub enum Sort {
    /// an expression; it has levels
    Exp,
    /// an integer constant
    Num,
    /// an identifier that is a part, whatever it stands for elsewhere
    Id,
    /// an identifier that a declarator declares
    DeclaredId,
    /// a parameter of an identifier list (6.5.4.3)
    ParameterId,
    /// an enumerator's name (6.5.2.2)
    EnumeratorId,
    /// a string literal that is a part
    Literal,
    TypeName,
    /// any specifier or qualifier
    Spec,
    /// a type specifier or qualifier
    PlainSpec,
    Qualifier,
    /// specifiers as a tree of kind spec
    Specs,
    Member,
    Enumerator,
    /// a declarator with a name; it has levels, as the next three
    Declarator,
    /// a declarator without a name
    AbstractDeclarator,
    /// a declarator with or without a name
    ParamDeclarator,
    /// a declarator with a name, or nothing
    MemberName,
    /// a declarator inside one, with a name if that has one
    InnerDeclarator,
    Params,
    Param,
    Init,
    Decl,
    Stmt,
    /// a compound statement
    Block,
    /// a declaration or a statement of a block
    BlockItem,
    Item,
    /// an expression of meta code; it has levels
    MetaExp,
    Template,
    /// a template of one tree
    Shape,
    MetaStmt,
    MetaBlock,
    Local,
    Element,
    /// `kind::name` of a pattern
    Binder,
    /// what a repetition or option of a pattern holds
    Repeated,
    /// an argument of a macro's call: a tree, or the rounds of a repetition or option
    Argument,
    /// a round: an argument, or several of them
    Round,
    Rounds,
    List,
    Row,
    InitDeclarator,
    Initializer,
    MemberDeclarator,
    Width,
    Members,
    Enumerators,
    EnumeratorValue,
    ElsePart,
    MetaElsePart,
    Assignment,
    MetaValue,
    MetaParam,
}

/// Whether and how often a part stands. All the parts of a repetition are one part of the node, a list.
#[derive(Clone, Copy)]
pub enum Repetition {
    /// absent or there
    Optional,
    /// there wherever it can be
    Greedy,
    /// there where the optional part before it is absent, otherwise absent or there
    Due,
    /// one or more, as many as there can be
    All,
    /// as many as there can be
    Any,
    /// one after the other, with a separator between two, or none; `least` is 0 or 1
    Many { separator: Option<Class>, least: u8 },
    /// the same with elements that may be placeholders and calls for lists of their kind
    Spliced { separator: Option<Class>, least: u8 },
    /// one or more such elements with the separator between; after a separator, an element or the token `end`
    Ended { separator: Class, end: Class },
}

/// What happens to the scopes where no token stands.
#[derive(Clone, Copy)]
pub enum Event {
    /// a scope begins
    Enter,
    /// the innermost scope ends
    Leave,
    /// the specifiers of a declaration begin
    Begin,
    /// `typedef` is one of them
    Typedef,
    /// a type specifier is one of them
    Typed,
    /// a type specifier is one of them that allows no other
    SoleType,
    /// the declarator's name is declared as the specifiers say
    Declare,
    /// the declarator's name is declared as a value
    DeclareValue,
    /// what is known of the specifiers is put aside
    Aside,
    /// it is taken up again
    Resume,
    /// no declaration may follow in the block
    Statements,
    /// nothing that follows stands next to the declarator's name
    Seal,
    /// the parameters end
    Close,
    /// the declarator that follows must be a function's, since no specifiers stand before it (6.7.1)
    FunctionDue,
    /// the body of a function begins
    Open,
    /// the body of a function ends
    Shut,
}

/// A piece of a row: what stands one after the other in the spelling of a node.
#[derive(Clone, Copy)]
pub enum Piece {
    /// a token
    Token(Class),
    /// this token or none; it is no part of the tree
    Maybe(Class),
    /// the token that the form holds: its operator, keyword, word, constant or literal
    Own,
    /// the tokens of the type that the form holds
    TypeTokens,
    /// the word that names the kind that the form holds
    KindName,
    /// a part of a sort, of this level or a higher one where the sort has levels
    One(Sort, u8),
    /// a list of such parts
    Group(Repetition, Sort, u8),
    /// all other parts, each of a sort
    Rest(Sort),
    /// parts of any sort
    Anything,
    /// no token
    Then(Event),
}

/// How the reader comes to a form.
#[derive(Clone, Copy)]
pub enum Role {
    /// it is one token, which the form holds
    Leafed,
    /// it begins with a token of its own
    Prefixed,
    /// the token after an opening parenthesis decides for it
    Entered,
    /// it goes on after a part of its own sort, with a token of its own
    Tailed,
    /// it begins with an expression
    Led,
    /// it begins with a word, and the token after it decides
    Marked,
    /// it begins with specifiers
    Declared,
    /// it stands where its sort is due, and its parts decide
    Due,
    /// it has no token
    Bare,
    /// a placeholder, or a macro's call by its pattern; the reader sees its beginning as a class of its own
    Carried,
}

/// What a node by itself counts.
#[derive(Clone, Copy)]
pub enum Counts {
    /// neither for size nor for height
    Nothing,
    /// for size
    Size,
    /// for size and for height
    SizeAndHeight,
}

/// The row of a form.
#[derive(Clone, Copy)]
pub struct Row {
    pub role: Role,
    /// how tightly it holds together; 17 is tightest, and that of all whose sort has no levels
    pub level: u8,
    pub counts: Counts,
    pub pieces: &'static [Piece],
}
