//! The pieces of each row. A constant is named after the form whose row it is, or after what several rows share.

use crate::pieces::Event::*;
use crate::pieces::Piece::{
    self, Anything, Group, KindName, Maybe, One, Own, Rest, Then, Token, TypeTokens,
};
use crate::pieces::Repetition::{self, All, Any, Due, Ended, Greedy, Many, Optional, Spliced};
use crate::pieces::Sort::*;
use c_tokens::{Class, Key, Mark, Punct};

const LEFT_BRACKET: Class = Class::Punct(Punct::LeftBracket);

const RIGHT_BRACKET: Class = Class::Punct(Punct::RightBracket);

const LEFT_PAREN: Class = Class::Punct(Punct::LeftParen);

const RIGHT_PAREN: Class = Class::Punct(Punct::RightParen);

const LEFT_BRACE: Class = Class::Punct(Punct::LeftBrace);

const RIGHT_BRACE: Class = Class::Punct(Punct::RightBrace);

const DOT: Class = Class::Punct(Punct::Dot);

const ARROW: Class = Class::Punct(Punct::Arrow);

const PLUS_PLUS: Class = Class::Punct(Punct::PlusPlus);

const MINUS_MINUS: Class = Class::Punct(Punct::MinusMinus);

const STAR: Class = Class::Punct(Punct::Star);

const QUESTION: Class = Class::Punct(Punct::Question);

const COLON: Class = Class::Punct(Punct::Colon);

const EQUAL: Class = Class::Punct(Punct::Equal);

const COMMA: Class = Class::Punct(Punct::Comma);

const SEMICOLON: Class = Class::Punct(Punct::Semicolon);

const ELLIPSIS: Class = Class::Punct(Punct::Ellipsis);

const BREAK_KEY: Class = Class::Key(Key::Break);

const CASE_KEY: Class = Class::Key(Key::Case);

const CONTINUE_KEY: Class = Class::Key(Key::Continue);

const DEFAULT_KEY: Class = Class::Key(Key::Default);

const DO_KEY: Class = Class::Key(Key::Do);

const ELSE_KEY: Class = Class::Key(Key::Else);

const ENUM_KEY: Class = Class::Key(Key::Enum);

const FOR_KEY: Class = Class::Key(Key::For);

const GOTO_KEY: Class = Class::Key(Key::Goto);

const IF_KEY: Class = Class::Key(Key::If);

const RETURN_KEY: Class = Class::Key(Key::Return);

const SIZEOF_KEY: Class = Class::Key(Key::Sizeof);

const SWITCH_KEY: Class = Class::Key(Key::Switch);

const WHILE_KEY: Class = Class::Key(Key::While);

const SYNTAX_MARK: Class = Class::Mark(Mark::Syntax);

const META_MARK: Class = Class::Mark(Mark::Meta);

const MATCH_MARK: Class = Class::Mark(Mark::Match);

const HOLE_MARK: Class = Class::Mark(Mark::Hole);

const BIND_MARK: Class = Class::Mark(Mark::Bind);

const PATTERN_OPEN: Class = Class::Mark(Mark::PatternOpen);

const PATTERN_CLOSE: Class = Class::Mark(Mark::PatternClose);

const GROUP_OPEN: Class = Class::Mark(Mark::GroupOpen);

const GROUP_CLOSE: Class = Class::Mark(Mark::GroupClose);

const QUOTE_PAREN: Class = Class::Mark(Mark::QuoteParen);

const QUOTE_BRACE: Class = Class::Mark(Mark::QuoteBrace);

const ONE_OR_MORE: Class = Class::Mark(Mark::OneOrMore);

const ZERO_OR_MORE: Class = Class::Mark(Mark::ZeroOrMore);

const ONE_OR_MORE_BETWEEN: Class = Class::Mark(Mark::OneOrMoreBetween);

const ZERO_OR_MORE_BETWEEN: Class = Class::Mark(Mark::ZeroOrMoreBetween);

const MAYBE: Class = Class::Mark(Mark::Maybe);

const ANY: Repetition = Many {
    separator: None,
    least: 0,
};

const SOME: Repetition = Many {
    separator: None,
    least: 1,
};

const ANY_WITH_COMMAS: Repetition = Many {
    separator: Some(COMMA),
    least: 0,
};

const SPLICED: Repetition = Spliced {
    separator: None,
    least: 0,
};

const SPLICED_SOME: Repetition = Spliced {
    separator: None,
    least: 1,
};

const SPLICED_WITH_COMMAS: Repetition = Spliced {
    separator: Some(COMMA),
    least: 0,
};

const SPLICED_SOME_WITH_COMMAS: Repetition = Spliced {
    separator: Some(COMMA),
    least: 1,
};

const PARAMETERS: Repetition = Ended {
    separator: COMMA,
    end: ELLIPSIS,
};

const INITIALIZERS: Repetition = Ended {
    separator: COMMA,
    end: RIGHT_BRACE,
};

// Expressions (6.3)

pub const TOKEN_EXP: &[Piece] = &[Own];

pub const STR: &[Piece] = &[Group(SOME, Literal, 0)];

pub const INDEX: &[Piece] = &[
    One(Exp, 16),
    Token(LEFT_BRACKET),
    One(Exp, 1),
    Token(RIGHT_BRACKET),
];

pub const APPLY: &[Piece] = &[
    One(Exp, 16),
    Token(LEFT_PAREN),
    Group(SPLICED_WITH_COMMAS, Exp, 2),
    Token(RIGHT_PAREN),
];

pub const FIELD: &[Piece] = &[One(Exp, 16), Token(DOT), One(Id, 0)];

pub const ARROW_OF: &[Piece] = &[One(Exp, 16), Token(ARROW), One(Id, 0)];

pub const POST_INC: &[Piece] = &[One(Exp, 16), Token(PLUS_PLUS)];

pub const POST_DEC: &[Piece] = &[One(Exp, 16), Token(MINUS_MINUS)];

pub const PRE_INC: &[Piece] = &[Token(PLUS_PLUS), One(Exp, 15)];

pub const PRE_DEC: &[Piece] = &[Token(MINUS_MINUS), One(Exp, 15)];

pub const UNARY: &[Piece] = &[Own, One(Exp, 14)];

pub const SIZEOF_EXP: &[Piece] = &[Token(SIZEOF_KEY), One(Exp, 15)];

pub const SIZEOF_TYPE: &[Piece] = &[
    Token(SIZEOF_KEY),
    Token(LEFT_PAREN),
    Then(Aside),
    One(TypeName, 0),
    Then(Resume),
    Token(RIGHT_PAREN),
];

pub const CAST: &[Piece] = &[
    Token(LEFT_PAREN),
    Then(Aside),
    One(TypeName, 0),
    Then(Resume),
    Token(RIGHT_PAREN),
    One(Exp, 14),
];

pub const BINARY_13: &[Piece] = &[One(Exp, 13), Own, One(Exp, 14)];

pub const BINARY_12: &[Piece] = &[One(Exp, 12), Own, One(Exp, 13)];

pub const BINARY_11: &[Piece] = &[One(Exp, 11), Own, One(Exp, 12)];

pub const BINARY_10: &[Piece] = &[One(Exp, 10), Own, One(Exp, 11)];

pub const BINARY_9: &[Piece] = &[One(Exp, 9), Own, One(Exp, 10)];

pub const BINARY_8: &[Piece] = &[One(Exp, 8), Own, One(Exp, 9)];

pub const BINARY_7: &[Piece] = &[One(Exp, 7), Own, One(Exp, 8)];

pub const BINARY_6: &[Piece] = &[One(Exp, 6), Own, One(Exp, 7)];

pub const BINARY_5: &[Piece] = &[One(Exp, 5), Own, One(Exp, 6)];

pub const BINARY_4: &[Piece] = &[One(Exp, 4), Own, One(Exp, 5)];

pub const CONDITIONAL: &[Piece] = &[
    One(Exp, 4),
    Token(QUESTION),
    One(Exp, 1),
    Token(COLON),
    One(Exp, 3),
];

pub const ASSIGN: &[Piece] = &[One(Exp, 15), Own, One(Exp, 2)];

pub const COMMA_OF: &[Piece] = &[One(Exp, 1), Token(COMMA), One(Exp, 2)];

// Type names and specifiers (6.5.1 to 6.5.3, 6.5.5)

pub const TYPE_NAME: &[Piece] = &[Group(All, PlainSpec, 0), One(AbstractDeclarator, 1)];

pub const SPECS: &[Piece] = &[Group(All, PlainSpec, 0)];

pub const TOKEN_SPEC: &[Piece] = &[Own];

pub const TYPEDEF_KEY: &[Piece] = &[Own, Then(Typedef)];

pub const BASIC_TYPE: &[Piece] = &[Own, Then(Typed)];

pub const TYPEDEF_NAME: &[Piece] = &[Own, Then(SoleType)];

pub const STRUCT_OF: &[Piece] = &[
    Own,
    Then(Aside),
    Group(Optional, Id, 0),
    Group(Due, Members, 0),
    Then(Resume),
    Then(SoleType),
];

pub const ENUM_OF: &[Piece] = &[
    Token(ENUM_KEY),
    Then(Aside),
    Group(Optional, Id, 0),
    Group(Due, Enumerators, 0),
    Then(Resume),
    Then(SoleType),
];

pub const MEMBERS: &[Piece] = &[
    Token(LEFT_BRACE),
    Group(SPLICED_SOME, Member, 0),
    Token(RIGHT_BRACE),
];

pub const MEMBER: &[Piece] = &[
    Group(All, PlainSpec, 0),
    Group(SPLICED_SOME_WITH_COMMAS, MemberDeclarator, 0),
    Token(SEMICOLON),
    Then(Begin),
];

pub const MEMBER_DECLARATOR: &[Piece] = &[One(MemberName, 1), Group(Due, Width, 0)];

pub const WIDTH: &[Piece] = &[Token(COLON), Then(Aside), One(Exp, 3), Then(Resume)];

pub const ENUMERATORS: &[Piece] = &[
    Token(LEFT_BRACE),
    Group(SPLICED_SOME_WITH_COMMAS, Enumerator, 0),
    Token(RIGHT_BRACE),
];

pub const ENUMERATOR: &[Piece] = &[
    One(EnumeratorId, 0),
    Group(Optional, EnumeratorValue, 0),
    Then(DeclareValue),
];

pub const ENUMERATOR_VALUE: &[Piece] = &[Token(EQUAL), Then(Aside), One(Exp, 3), Then(Resume)];

// Declarators and initializers (6.5.4, 6.5.5, 6.5.7)

pub const NAMED: &[Piece] = &[One(DeclaredId, 0)];

pub const ABSENT: &[Piece] = &[];

pub const POINTER: &[Piece] = &[
    Token(STAR),
    Group(ANY, Qualifier, 0),
    One(InnerDeclarator, 1),
    Then(Seal),
];

pub const ARRAY_OF: &[Piece] = &[
    One(InnerDeclarator, 2),
    Token(LEFT_BRACKET),
    Then(Aside),
    Group(Optional, Exp, 3),
    Then(Resume),
    Then(Seal),
    Token(RIGHT_BRACKET),
];

pub const FUNCTION_OF: &[Piece] = &[
    One(InnerDeclarator, 2),
    Token(LEFT_PAREN),
    Then(Aside),
    Then(Enter),
    One(Params, 0),
    Token(RIGHT_PAREN),
    Then(Close),
];

pub const IDS: &[Piece] = &[Group(ANY_WITH_COMMAS, ParameterId, 0)];

pub const TYPED: &[Piece] = &[Group(PARAMETERS, Param, 0)];

pub const TYPED_AND_MORE: &[Piece] = &[Group(PARAMETERS, Param, 0), Token(COMMA), Token(ELLIPSIS)];

pub const PARAM: &[Piece] = &[
    Group(All, Spec, 0),
    One(ParamDeclarator, 1),
    Then(DeclareValue),
    Then(Begin),
];

pub const INIT_ONE: &[Piece] = &[One(Exp, 2)];

pub const BRACES: &[Piece] = &[
    Token(LEFT_BRACE),
    Group(INITIALIZERS, Init, 0),
    Maybe(COMMA),
    Token(RIGHT_BRACE),
];

pub const DECL: &[Piece] = &[
    Group(All, Spec, 0),
    Group(SPLICED_WITH_COMMAS, InitDeclarator, 0),
    Token(SEMICOLON),
    Then(Begin),
];

pub const INIT_DECLARATOR: &[Piece] = &[
    One(Declarator, 1),
    Then(Declare),
    Group(Optional, Initializer, 0),
];

pub const INITIALIZER: &[Piece] = &[Token(EQUAL), Then(Aside), One(Init, 0), Then(Resume)];

// Statements (6.6)

pub const LABEL: &[Piece] = &[One(Id, 0), Token(COLON), One(Stmt, 0)];

pub const CASE: &[Piece] = &[Token(CASE_KEY), One(Exp, 3), Token(COLON), One(Stmt, 0)];

pub const DEFAULT: &[Piece] = &[Token(DEFAULT_KEY), Token(COLON), One(Stmt, 0)];

pub const EXPRESS: &[Piece] = &[One(Exp, 1), Token(SEMICOLON)];

pub const EMPTY: &[Piece] = &[Token(SEMICOLON)];

pub const BLOCK: &[Piece] = &[
    Token(LEFT_BRACE),
    Then(Enter),
    Group(SPLICED, BlockItem, 0),
    Then(Leave),
    Token(RIGHT_BRACE),
];

pub const IF: &[Piece] = &[
    Token(IF_KEY),
    Token(LEFT_PAREN),
    One(Exp, 1),
    Token(RIGHT_PAREN),
    One(Stmt, 0),
    Group(Greedy, ElsePart, 0),
];

pub const ELSE_PART: &[Piece] = &[Token(ELSE_KEY), One(Stmt, 0)];

pub const SWITCH: &[Piece] = &[
    Token(SWITCH_KEY),
    Token(LEFT_PAREN),
    One(Exp, 1),
    Token(RIGHT_PAREN),
    One(Stmt, 0),
];

pub const WHILE: &[Piece] = &[
    Token(WHILE_KEY),
    Token(LEFT_PAREN),
    One(Exp, 1),
    Token(RIGHT_PAREN),
    One(Stmt, 0),
];

pub const DO: &[Piece] = &[
    Token(DO_KEY),
    One(Stmt, 0),
    Token(WHILE_KEY),
    Token(LEFT_PAREN),
    One(Exp, 1),
    Token(RIGHT_PAREN),
    Token(SEMICOLON),
];

pub const FOR: &[Piece] = &[
    Token(FOR_KEY),
    Token(LEFT_PAREN),
    Group(Optional, Exp, 1),
    Token(SEMICOLON),
    Group(Optional, Exp, 1),
    Token(SEMICOLON),
    Group(Optional, Exp, 1),
    Token(RIGHT_PAREN),
    One(Stmt, 0),
];

pub const GOTO: &[Piece] = &[Token(GOTO_KEY), One(Id, 0), Token(SEMICOLON)];

pub const CONTINUE: &[Piece] = &[Token(CONTINUE_KEY), Token(SEMICOLON)];

pub const BREAK: &[Piece] = &[Token(BREAK_KEY), Token(SEMICOLON)];

pub const RETURN: &[Piece] = &[Token(RETURN_KEY), Group(Optional, Exp, 1), Token(SEMICOLON)];

// External declarations (6.7), and definitions of macros, functions and variables

pub const FUNCTION: &[Piece] = &[
    Group(Any, Spec, 0),
    One(Declarator, 1),
    Then(Open),
    Group(ANY, Decl, 0),
    One(Block, 0),
    Then(Shut),
];

pub const DECLARATION: &[Piece] = &[One(Decl, 0)];

pub const SYNTAX: &[Piece] = &[
    Token(SYNTAX_MARK),
    TypeTokens,
    Own,
    Token(PATTERN_OPEN),
    Group(ANY, Element, 0),
    Token(PATTERN_CLOSE),
    One(MetaBlock, 0),
];

pub const META_FUNCTION: &[Piece] = &[
    Token(META_MARK),
    TypeTokens,
    Own,
    Token(LEFT_PAREN),
    Group(ANY_WITH_COMMAS, MetaParam, 0),
    Token(RIGHT_PAREN),
    One(MetaBlock, 0),
];

pub const META_VARIABLE: &[Piece] = &[
    Token(META_MARK),
    TypeTokens,
    Own,
    Group(Optional, MetaValue, 0),
    Token(SEMICOLON),
];

pub const META_PARAM: &[Piece] = &[TypeTokens, Own];

pub const META_VALUE: &[Piece] = &[Token(EQUAL), One(MetaExp, 1)];

// Patterns

pub const ELEMENT_LITERAL: &[Piece] = &[Own];

pub const ELEMENT_BIND: &[Piece] = &[Token(BIND_MARK), One(Binder, 0)];

pub const ELEMENT_ONE_OR_MORE: &[Piece] = &[Token(ONE_OR_MORE), One(Repeated, 0)];

pub const ELEMENT_ZERO_OR_MORE: &[Piece] = &[Token(ZERO_OR_MORE), One(Repeated, 0)];

pub const ELEMENT_ONE_OR_MORE_BETWEEN: &[Piece] = &[
    Token(ONE_OR_MORE_BETWEEN),
    Own,
    One(Repeated, 0),
];

pub const ELEMENT_ZERO_OR_MORE_BETWEEN: &[Piece] = &[
    Token(ZERO_OR_MORE_BETWEEN),
    Own,
    One(Repeated, 0),
];

pub const ELEMENT_MAYBE: &[Piece] = &[Token(MAYBE), Own, One(Repeated, 0)];

pub const BINDER: &[Piece] = &[KindName, Token(COLON), Token(COLON), Own];

pub const ELEMENTS: &[Piece] = &[
    Token(GROUP_OPEN),
    Group(ANY, Element, 0),
    Token(GROUP_CLOSE),
];

// Meta code

pub const TOKEN_META_EXP: &[Piece] = &[Own];

pub const META_UNARY: &[Piece] = &[Own, One(MetaExp, 14)];

pub const META_BINARY_13: &[Piece] = &[One(MetaExp, 13), Own, One(MetaExp, 14)];

pub const META_BINARY_12: &[Piece] = &[One(MetaExp, 12), Own, One(MetaExp, 13)];

pub const META_BINARY_11: &[Piece] = &[One(MetaExp, 11), Own, One(MetaExp, 12)];

pub const META_BINARY_10: &[Piece] = &[One(MetaExp, 10), Own, One(MetaExp, 11)];

pub const META_BINARY_9: &[Piece] = &[One(MetaExp, 9), Own, One(MetaExp, 10)];

pub const META_BINARY_8: &[Piece] = &[One(MetaExp, 8), Own, One(MetaExp, 9)];

pub const META_BINARY_7: &[Piece] = &[One(MetaExp, 7), Own, One(MetaExp, 8)];

pub const META_BINARY_6: &[Piece] = &[One(MetaExp, 6), Own, One(MetaExp, 7)];

pub const META_BINARY_5: &[Piece] = &[One(MetaExp, 5), Own, One(MetaExp, 6)];

pub const META_BINARY_4: &[Piece] = &[One(MetaExp, 4), Own, One(MetaExp, 5)];

pub const CHOOSE: &[Piece] = &[
    One(MetaExp, 4),
    Token(QUESTION),
    One(MetaExp, 1),
    Token(COLON),
    One(MetaExp, 3),
];

pub const NAMED_CALL: &[Piece] = &[
    Own,
    Token(LEFT_PAREN),
    Group(ANY_WITH_COMMAS, MetaExp, 3),
    Token(RIGHT_PAREN),
];

pub const QUOTE: &[Piece] = &[One(Template, 0)];

pub const TEMPLATE_PARENS: &[Piece] = &[Token(QUOTE_PAREN), One(Exp, 1), Token(RIGHT_PAREN)];

pub const TEMPLATE_BRACES: &[Piece] = &[
    Token(QUOTE_BRACE),
    Group(SPLICED, BlockItem, 0),
    Token(RIGHT_BRACE),
];

pub const TEMPLATE_ID: &[Piece] = &[Own, Token(LEFT_BRACE), One(Id, 0), Token(RIGHT_BRACE)];

pub const TEMPLATE_NUM: &[Piece] = &[Own, Token(LEFT_BRACE), One(Num, 0), Token(RIGHT_BRACE)];

pub const TEMPLATE_EXP: &[Piece] = &[Own, Token(LEFT_BRACE), One(Exp, 2), Token(RIGHT_BRACE)];

pub const TEMPLATE_STMT: &[Piece] = &[Own, Token(LEFT_BRACE), One(Stmt, 0), Token(RIGHT_BRACE)];

pub const TEMPLATE_DECL: &[Piece] = &[Own, Token(LEFT_BRACE), One(Decl, 0), Token(RIGHT_BRACE)];

pub const TEMPLATE_ITEM: &[Piece] = &[Own, Token(LEFT_BRACE), One(Item, 0), Token(RIGHT_BRACE)];

pub const TEMPLATE_SPEC: &[Piece] = &[Own, Token(LEFT_BRACE), One(Specs, 0), Token(RIGHT_BRACE)];

pub const TEMPLATE_PARAM: &[Piece] = &[Own, Token(LEFT_BRACE), One(Param, 0), Token(RIGHT_BRACE)];

pub const TEMPLATE_MEMBER: &[Piece] = &[Own, Token(LEFT_BRACE), One(Member, 0), Token(RIGHT_BRACE)];

pub const TEMPLATE_IDS: &[Piece] = &[
    Own,
    Token(LEFT_BRACKET),
    Token(RIGHT_BRACKET),
    Token(LEFT_BRACE),
    Group(SPLICED_WITH_COMMAS, Id, 0),
    Token(RIGHT_BRACE),
];

pub const TEMPLATE_NUMS: &[Piece] = &[
    Own,
    Token(LEFT_BRACKET),
    Token(RIGHT_BRACKET),
    Token(LEFT_BRACE),
    Group(SPLICED_WITH_COMMAS, Num, 0),
    Token(RIGHT_BRACE),
];

pub const TEMPLATE_EXPS: &[Piece] = &[
    Own,
    Token(LEFT_BRACKET),
    Token(RIGHT_BRACKET),
    Token(LEFT_BRACE),
    Group(SPLICED_WITH_COMMAS, Exp, 2),
    Token(RIGHT_BRACE),
];

pub const TEMPLATE_STMTS: &[Piece] = &[
    Own,
    Token(LEFT_BRACKET),
    Token(RIGHT_BRACKET),
    Token(LEFT_BRACE),
    Group(SPLICED, Stmt, 0),
    Token(RIGHT_BRACE),
];

pub const TEMPLATE_DECLS: &[Piece] = &[
    Own,
    Token(LEFT_BRACKET),
    Token(RIGHT_BRACKET),
    Token(LEFT_BRACE),
    Group(SPLICED, Decl, 0),
    Token(RIGHT_BRACE),
];

pub const TEMPLATE_ITEMS: &[Piece] = &[
    Own,
    Token(LEFT_BRACKET),
    Token(RIGHT_BRACKET),
    Token(LEFT_BRACE),
    Group(SPLICED, Item, 0),
    Token(RIGHT_BRACE),
];

pub const TEMPLATE_SPECS: &[Piece] = &[
    Own,
    Token(LEFT_BRACKET),
    Token(RIGHT_BRACKET),
    Token(LEFT_BRACE),
    Group(SPLICED_WITH_COMMAS, Specs, 0),
    Token(RIGHT_BRACE),
];

pub const TEMPLATE_PARAMS: &[Piece] = &[
    Own,
    Token(LEFT_BRACKET),
    Token(RIGHT_BRACKET),
    Token(LEFT_BRACE),
    Group(SPLICED_WITH_COMMAS, Param, 0),
    Token(RIGHT_BRACE),
];

pub const TEMPLATE_MEMBERS: &[Piece] = &[
    Own,
    Token(LEFT_BRACKET),
    Token(RIGHT_BRACKET),
    Token(LEFT_BRACE),
    Group(SPLICED, Member, 0),
    Token(RIGHT_BRACE),
];

pub const VALUE: &[Piece] = &[One(MetaExp, 1), Token(SEMICOLON)];

pub const SET: &[Piece] = &[Own, Token(EQUAL), One(MetaExp, 1), Token(SEMICOLON)];

pub const ASSIGNMENT: &[Piece] = &[Own, Token(EQUAL), One(MetaExp, 1)];

pub const META_IF: &[Piece] = &[
    Token(IF_KEY),
    Token(LEFT_PAREN),
    One(MetaExp, 1),
    Token(RIGHT_PAREN),
    One(MetaStmt, 0),
    Group(Greedy, MetaElsePart, 0),
];

pub const META_ELSE_PART: &[Piece] = &[Token(ELSE_KEY), One(MetaStmt, 0)];

pub const META_WHILE: &[Piece] = &[
    Token(WHILE_KEY),
    Token(LEFT_PAREN),
    One(MetaExp, 1),
    Token(RIGHT_PAREN),
    One(MetaStmt, 0),
];

pub const META_DO: &[Piece] = &[
    Token(DO_KEY),
    One(MetaStmt, 0),
    Token(WHILE_KEY),
    Token(LEFT_PAREN),
    One(MetaExp, 1),
    Token(RIGHT_PAREN),
    Token(SEMICOLON),
];

pub const META_FOR: &[Piece] = &[
    Token(FOR_KEY),
    Token(LEFT_PAREN),
    Group(Optional, Assignment, 0),
    Token(SEMICOLON),
    Group(Optional, MetaExp, 1),
    Token(SEMICOLON),
    Group(Optional, Assignment, 0),
    Token(RIGHT_PAREN),
    One(MetaStmt, 0),
];

pub const META_RETURN: &[Piece] = &[Token(RETURN_KEY), One(MetaExp, 1), Token(SEMICOLON)];

pub const MATCH: &[Piece] = &[
    Token(MATCH_MARK),
    Token(LEFT_PAREN),
    One(MetaExp, 1),
    Token(RIGHT_PAREN),
    One(Shape, 0),
    One(MetaStmt, 0),
    Token(ELSE_KEY),
    One(MetaStmt, 0),
];

pub const META_BLOCK: &[Piece] = &[
    Token(LEFT_BRACE),
    Group(ANY, Local, 0),
    Group(ANY, MetaStmt, 0),
    Token(RIGHT_BRACE),
];

pub const LOCAL: &[Piece] = &[
    TypeTokens,
    Own,
    Group(Optional, MetaValue, 0),
    Token(SEMICOLON),
];

// Placeholders and calls

pub const HOLE_VARIABLE: &[Piece] = &[Token(HOLE_MARK), Own];

pub const HOLE_COMPUTED: &[Piece] = &[
    Token(HOLE_MARK),
    Own,
    Token(LEFT_PAREN),
    One(MetaExp, 1),
    Token(RIGHT_PAREN),
];

pub const HOLE_COMPUTED_LIST: &[Piece] = &[
    Token(HOLE_MARK),
    Own,
    Token(LEFT_BRACKET),
    Token(RIGHT_BRACKET),
    Token(LEFT_PAREN),
    One(MetaExp, 1),
    Token(RIGHT_PAREN),
];

pub const HOLE_BINDER: &[Piece] = &[Token(BIND_MARK), KindName, Token(COLON), Token(COLON), Own];

pub const CALL: &[Piece] = &[Own, Rest(Argument)];

// Groups

pub const PART_TOKEN: &[Piece] = &[Own];

pub const LITERAL: &[Piece] = &[Own];

pub const LIST: &[Piece] = &[Anything];

pub const ROUNDS: &[Piece] = &[Rest(Round)];

pub const ROW: &[Piece] = &[Rest(Argument)];
