//! Nodes that are refused, with the rule that each breaks.

use crate::checks::{Refused, refused};
use crate::leaves::*;
use crate::nodes::*;
use crate::step::Step::{Binary, Call, Hole, List, Many, MetaUnary, Node, One, Rounds, Unary};
use c_forms::{
    BinaryOperator, DeclaratorForm, ElementForm, ExpForm, Form, GroupForm, ItemForm, MetaStmtForm,
    MetaUnaryOperator, Rule, StmtForm, UnaryOperator,
};
use c_tokens::{Base, Kind, MacroNo, Mark, MetaType, Shape, Word};

/// Parts that a row does not ask for.
pub static WRONG_PARTS: &[Refused] = refused! {
    // a part too few, and one too many
    [A, Node(Form::Exp(ExpForm::Index), 1)] Rule::Parts;
    [A, B, Node(Form::Exp(ExpForm::PostInc), 2)] Rule::Parts;
    [A, Node(Form::Exp(ExpForm::Name(Word(1))), 1)] Rule::Parts;
    [Node(Form::Exp(ExpForm::Str), 0)] Rule::Parts;
    [Node(Form::MetaStmt(MetaStmtForm::Return), 0)] Rule::Parts;
    [A, EMPTY, Node(Form::Stmt(StmtForm::If), 2)] Rule::Parts;
    [X, NAMED, Node(Form::Declarator(DeclaratorForm::ArrayOf), 1)] Rule::Parts;
    [X, NAMED, Node(Form::Group(GroupForm::InitDeclarator), 1)] Rule::Parts;
    // another sort than is due
    [A, B, FIELD] Rule::Parts;
    [A, Hole(Kind::Exp, false, 1), ARROW] Rule::Parts;
    [X, Unary(UnaryOperator::Minus)] Rule::Parts;
    [EMPTY, Unary(UnaryOperator::Minus)] Rule::Parts;
    [P, Unary(UnaryOperator::Minus)] Rule::Parts;
    [A, MetaUnary(MetaUnaryOperator::Minus)] Rule::Parts;
    [A, Call(1, Kind::Stmt, false, false, 1), Unary(UnaryOperator::Not)] Rule::Parts;
    [A, RETURN] Rule::Parts;
    [A, A, APPLY] Rule::Parts;
    [INT, List(1), X, NAMED, POINTER] Rule::Parts;
    [X, NAMED, A, WIDTH, List(1), INIT_DECLARATOR] Rule::Parts;
    [INT, List(1), SPECS, List(0), DECL] Rule::Parts;
    [List(0), X, NAMED, List(0), IDS, FUNCTION_OF, List(0), EMPTY, FUNCTION] Rule::Parts;
    [List(0), X, NAMED, List(0), IDS, FUNCTION_OF, List(0), Hole(Kind::Stmt, false, 1), FUNCTION] Rule::Parts;
    [A, One(Kind::Num)] Rule::Parts;
    [INT, List(1), One(Kind::Spec)] Rule::Parts;
    [INT, List(1), List(0), DECL, One(Kind::Item)] Rule::Parts;
    [A, B, EXPRESS, List(2), Many(Kind::Exp)] Rule::Parts;
    [P, List(0), Many(Kind::Exp), META_EMPTY, META_EMPTY, MATCH] Rule::Parts;
    [P, EMPTY, META_WHILE] Rule::Parts;
    [List(0), List(0), EMPTY, List(1), META_BLOCK] Rule::Parts;
    [LITERAL_PLUS, ONE_OR_MORE] Rule::Parts;
    [BINDER_1, BIND, ONE_OR_MORE] Rule::Parts;
    [A, EXPRESS, STMT_OF] Rule::Parts;
    // an element too few or too many in a list
    [List(0), STR] Rule::Parts;
    [List(0), MEMBERS] Rule::Parts;
    [List(0), ENUMERATORS] Rule::Parts;
    [List(0), INIT_BRACES] Rule::Parts;
    [List(0), TYPED] Rule::Parts;
    [List(0), ABSENT, TYPE_NAME] Rule::Parts;
    [List(0), SPECS] Rule::Parts;
    [List(0), List(0), DECL] Rule::Parts;
    [INT, List(1), List(0), MEMBER] Rule::Parts;
    [A, B, List(2), RETURN] Rule::Parts;
    [X, NAMED, A, B, List(2), ARRAY_OF] Rule::Parts;
    [X, Y, List(2), List(0), STRUCT] Rule::Parts;
    [A, EMPTY, EMPTY, ELSE_PART, EMPTY, ELSE_PART, List(2), IF] Rule::Parts;
    [P, META_VALUE, Q, META_VALUE, List(2), LOCAL_1] Rule::Parts;
};

/// Placeholders, calls and specifiers where none of their kind may stand.
pub static MISPLACED: &[Refused] = refused! {
    // a list where one tree is due, or where no list is spliced in
    [Hole(Kind::Exp, true, 1), A, Binary(BinaryOperator::Add)] Rule::Parts;
    [Hole(Kind::Id, true, 1), NAMED] Rule::Parts;
    [Hole(Kind::Id, true, 1), List(1), IDS] Rule::Parts;
    [
        List(0), X, NAMED, Y, List(1), IDS, FUNCTION_OF, Hole(Kind::Decl, true, 1), List(1), List(0), BLOCK, FUNCTION
    ] Rule::Parts;
    [Hole(Kind::Exp, true, 1), Call(1, Kind::Exp, false, false, 1)] Rule::Parts;
    [A, Hole(Kind::Exp, true, 1), ROW_2] Rule::Parts;
    [Hole(Kind::Exp, true, 1), List(1), RETURN] Rule::Parts;
    [Hole(Kind::Spec, true, 1), List(1), List(0), DECL] Rule::Parts;
    [Hole(Kind::Spec, true, 1), List(1), SPECS] Rule::Parts;
    [Hole(Kind::Decl, true, 1), DECLARATION] Rule::Parts;
    [A, Hole(Kind::Stmt, true, 1), List(0), IF] Rule::Parts;
    // a list of another kind
    [A, Hole(Kind::Stmt, true, 1), List(1), APPLY] Rule::Parts;
    [INT, List(1), Hole(Kind::Exp, true, 1), List(1), DECL] Rule::Parts;
    [Hole(Kind::Param, true, 1), MEMBERS] Rule::Parts;
    [Hole(Kind::Item, true, 1), List(1), BLOCK] Rule::Parts;
    // a placeholder for one tree where it is no such tree
    [INT, List(1), Hole(Kind::Id, false, 1), List(1), DECL] Rule::Parts;
    [Hole(Kind::Spec, false, 1), One(Kind::Spec)] Rule::Parts;
    [Hole(Kind::Item, false, 1), DECLARATION] Rule::Parts;
    // a storage class where none may stand
    [STATIC, INT, List(2), ABSENT, TYPE_NAME] Rule::Parts;
    [STATIC, INT, List(2), SPECS] Rule::Parts;
    [STATIC, INT, List(2), X, NAMED, List(0), MEMBER_DECLARATOR, List(1), MEMBER] Rule::Parts;
    // a binder alone stands after `$$`
    [List(0), ELEMENTS, BIND] Rule::Parts;
    // what is no argument of a call, by itself and in a round
    [A, List(1), Call(1, Kind::Exp, false, false, 1)] Rule::Parts;
    [A, B, ROW_2, Call(1, Kind::Exp, false, false, 1)] Rule::Parts;
    [META_EMPTY, Rounds(1)] Rule::Parts;
    [A, WIDTH, Rounds(1)] Rule::Parts;
    [A, List(1), Rounds(1)] Rule::Parts;
    [Hole(Kind::Exp, true, 1), Rounds(1)] Rule::Parts;
    [A, ROW_1, ROW_1] Rule::Parts;
};

/// The rules of specifiers and declarators.
pub static BROKEN_DECLARATIONS: &[Refused] = refused! {
    [T, INT, List(2), List(0), DECL] Rule::SoleType;
    [INT, TYPEDEF, T, List(3), List(0), DECL] Rule::SoleType;
    [T, U, List(2), X, NAMED, PARAM] Rule::SoleType;
    [INT, TAG, List(1), List(0), STRUCT, List(2), ABSENT, TYPE_NAME] Rule::SoleType;
    [TAG, List(1), List(0), ENUM, INT, List(2), SPECS] Rule::SoleType;
    [Hole(Kind::Spec, false, 1), INT, List(2), List(0), DECL] Rule::SoleType;
    [INT, A, Call(1, Kind::Spec, false, false, 1), List(2), List(0), DECL] Rule::SoleType;
    [INT, T, List(2), X, NAMED, List(0), MEMBER_DECLARATOR, List(1), MEMBER] Rule::SoleType;
    [INT, T, List(2), X, NAMED, List(0), IDS, FUNCTION_OF, List(0), List(0), BLOCK, FUNCTION] Rule::SoleType;
    [CONST, List(1), SPECS] Rule::NoType;
    [CONST, VOLATILE, List(2), SPECS] Rule::NoType;
    [List(0), List(0), STRUCT] Rule::TagOrBody;
    [List(0), List(0), UNION] Rule::TagOrBody;
    [List(0), List(0), ENUM] Rule::TagOrBody;
    [ABSENT, List(0), MEMBER_DECLARATOR] Rule::NameOrWidth;
    [List(0), ABSENT, POINTER, List(0), MEMBER_DECLARATOR] Rule::NameOrWidth;
    [List(0), ABSENT, POINTER, INT_1, WIDTH, List(1), MEMBER_DECLARATOR] Rule::NameOrWidth;
    [ABSENT, List(0), INIT_DECLARATOR] Rule::NoName;
    [ABSENT, List(0), ARRAY_OF, A, INIT, INITIALIZER, List(1), INIT_DECLARATOR] Rule::NoName;
    [List(0), ABSENT, List(0), IDS, FUNCTION_OF, List(0), List(0), BLOCK, FUNCTION] Rule::NoName;
    [INT, List(1), X, NAMED, TYPE_NAME] Rule::Name;
    [INT, List(1), List(0), X, NAMED, List(0), ARRAY_OF, POINTER, TYPE_NAME] Rule::Name;
    [ABSENT, X, List(1), IDS, FUNCTION_OF] Rule::AbstractIds;
    [List(0), ABSENT, POINTER, X, Y, List(2), IDS, FUNCTION_OF] Rule::AbstractIds;
    [INT, List(1), X, NAMED, List(0), List(0), BLOCK, FUNCTION] Rule::NoFunction;
    // int *x[] {}
    [INT, List(1), List(0), X, NAMED, List(0), ARRAY_OF, POINTER, List(0), List(0), BLOCK, FUNCTION] Rule::NoFunction;
    // int (*x)() {}
    [
        INT, List(1), List(0), X, NAMED, POINTER, List(0), IDS, FUNCTION_OF, List(0), List(0), BLOCK, FUNCTION
    ] Rule::NoFunction;
};

/// The rules of statements.
pub static BROKEN_STATEMENTS: &[Refused] = refused! {
    [A, B, EMPTY, List(0), IF, EMPTY, ELSE_PART, List(1), IF] Rule::OpenPart;
    [A, B, C, EMPTY, List(0), IF, WHILE, EMPTY, ELSE_PART, List(1), IF] Rule::OpenPart;
    [A, LABEL, B, EMPTY, List(0), IF, LABEL_OF, EMPTY, ELSE_PART, List(1), IF] Rule::OpenPart;
    // the first part has an else, and in its else-part an if without one
    [A, B, EMPTY, C, EMPTY, List(0), IF, ELSE_PART, List(1), IF, EMPTY, ELSE_PART, List(1), IF] Rule::OpenPart;
    [A, B, EMPTY, List(0), IF, Call(1, Kind::Stmt, false, true, 1), EMPTY, ELSE_PART, List(1), IF] Rule::OpenPart;
    [P, Q, META_EMPTY, List(0), META_IF, META_EMPTY, META_ELSE_PART, List(1), META_IF] Rule::OpenPart;
    [P, A, PARENS, Q, META_EMPTY, List(0), META_IF, META_EMPTY, MATCH] Rule::OpenPart;
    [P, A, PARENS, Q, R, META_EMPTY, List(0), META_IF, META_WHILE, META_EMPTY, MATCH] Rule::OpenPart;
    [EMPTY, INT, List(1), List(0), DECL, List(2), BLOCK] Rule::LateDeclaration;
    [Hole(Kind::Stmt, true, 1), Hole(Kind::Decl, true, 2), List(2), BLOCK] Rule::LateDeclaration;
    [EMPTY, Hole(Kind::Decl, false, 1), List(2), BLOCK] Rule::LateDeclaration;
    [EMPTY, A, Call(1, Kind::Decl, true, false, 1), List(2), BLOCK] Rule::LateDeclaration;
    [INT, List(1), List(0), DECL, EMPTY, INT, List(1), List(0), DECL, List(3), BLOCK] Rule::LateDeclaration;
    [EMPTY, INT, List(1), List(0), DECL, List(2), BRACES] Rule::LateDeclaration;
};

const DEEP: MetaType = MetaType {
    base: Base::Int,
    lists: 4,
};

const EXP_LIST: MetaType = MetaType {
    base: Base::Tree(Kind::Exp),
    lists: 1,
};

const STMT_LISTS: MetaType = MetaType {
    base: Base::Tree(Kind::Stmt),
    lists: 2,
};

const AN_INT: MetaType = MetaType {
    base: Base::Int,
    lists: 0,
};

const W: Word = Word(51);

/// The rules of definitions and calls.
pub static BROKEN_DEFINITIONS: &[Refused] = refused! {
    [List(0), Node(Form::Local { of: DEEP, name: W }, 1)] Rule::MetaType;
    [Node(Form::Group(GroupForm::MetaParam { of: DEEP, name: W }), 0)] Rule::MetaType;
    [List(0), Node(Form::Item(ItemForm::MetaVariable { of: DEEP, name: W }), 1)] Rule::MetaType;
    [
        List(0), List(0), List(0), META_BLOCK, Node(Form::Item(ItemForm::MetaFunction { result: DEEP, name: W }), 2)
    ] Rule::MetaType;
    [
        List(0), List(0), List(0), META_BLOCK, Node(Form::Item(ItemForm::Syntax { result: AN_INT, name: W }), 2)
    ] Rule::MetaType;
    [
        List(0), List(0), List(0), META_BLOCK, Node(Form::Item(ItemForm::Syntax { result: EXP_LIST, name: W }), 2)
    ] Rule::MetaType;
    [
        List(0), List(0), List(0), META_BLOCK, Node(Form::Item(ItemForm::Syntax { result: STMT_LISTS, name: W }), 2)
    ] Rule::MetaType;
    [A, Call(1, Kind::Exp, true, false, 1)] Rule::MetaType;
    [A, Call(1, Kind::Id, false, false, 1)] Rule::MetaType;
    [A, Call(1, Kind::Param, true, false, 1)] Rule::MetaType;
    [Node(Form::Call { number: MacroNo(1), result: AN_INT, tail: false }, 0)] Rule::MetaType;
    [Node(Form::Call { number: MacroNo(1), result: STMT_LISTS, tail: false }, 0)] Rule::MetaType;
    [Node(Form::Element(ElementForm::Literal(Shape::Int(W))), 0)] Rule::PatternToken;
    [Node(Form::Element(ElementForm::Literal(Shape::Mark(Mark::Hole))), 0)] Rule::PatternToken;
    [Node(Form::Element(ElementForm::Literal(Shape::End)), 0)] Rule::PatternToken;
    [BINDER_1, Node(Form::Element(ElementForm::OneOrMoreBetween(Shape::Str(W))), 1)] Rule::PatternToken;
    [BINDER_1, Node(Form::Element(ElementForm::ZeroOrMoreBetween(Shape::Char(W))), 1)] Rule::PatternToken;
    [BINDER_1, Node(Form::Element(ElementForm::Maybe(Shape::Float(W))), 1)] Rule::PatternToken;
};
