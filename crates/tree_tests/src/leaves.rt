//! Steps without parts, with words of their own.

use crate::step::Step::{self, Id, Name, Node, Type};
use c_forms::{
    ElementForm, ExpForm, Form, GroupForm, HoleForm, ItemForm, MetaExpForm, MetaStmtForm,
};
use c_tokens::{Base, Key, Kind, MetaType, Punct, Shape, Word};

// Expressions that are words

pub const A: Step = Name(1, 0);

pub const B: Step = Name(2, 0);

pub const C: Step = Name(3, 0);

pub const D: Step = Name(4, 0);

pub const E: Step = Name(5, 0);

// Typedef names

pub const T: Step = Type(31, 0);

pub const U: Step = Type(32, 0);

// Identifiers of declarators, members, tags and labels

pub const X: Step = Id(11, 0);

pub const Y: Step = Id(12, 0);

pub const Z: Step = Id(13, 0);

pub const M: Step = Id(5, 0);

pub const N: Step = Id(6, 0);

pub const TAG: Step = Id(21, 0);

pub const TAG_2: Step = Id(22, 0);

pub const LABEL: Step = Id(41, 0);

pub const LABEL_2: Step = Id(42, 0);

// Constants and literals

pub const INT_1: Step = Node(Form::Exp(ExpForm::Int(Word(1))), 0);

pub const INT_2: Step = Node(Form::Exp(ExpForm::Int(Word(2))), 0);

pub const FLOAT_1: Step = Node(Form::Exp(ExpForm::Float(Word(1))), 0);

pub const FLOAT_2: Step = Node(Form::Exp(ExpForm::Float(Word(2))), 0);

pub const CHAR_1: Step = Node(Form::Exp(ExpForm::Char(Word(1))), 0);

pub const CHAR_2: Step = Node(Form::Exp(ExpForm::Char(Word(2))), 0);

pub const LITERAL_1: Step = Node(Form::Literal(Word(1)), 0);

pub const LITERAL_2: Step = Node(Form::Literal(Word(2)), 0);

pub const LITERAL_3: Step = Node(Form::Literal(Word(3)), 0);

// Meta code

pub const P: Step = Node(Form::MetaExp(MetaExpForm::Variable(Word(51))), 0);

pub const Q: Step = Node(Form::MetaExp(MetaExpForm::Variable(Word(52))), 0);

pub const R: Step = Node(Form::MetaExp(MetaExpForm::Variable(Word(53))), 0);

pub const META_INT_1: Step = Node(Form::MetaExp(MetaExpForm::Int(Word(1))), 0);

pub const META_INT_2: Step = Node(Form::MetaExp(MetaExpForm::Int(Word(2))), 0);

pub const TEXT_1: Step = Node(Form::MetaExp(MetaExpForm::Text(Word(1))), 0);

pub const TEXT_2: Step = Node(Form::MetaExp(MetaExpForm::Text(Word(2))), 0);

const INT_TYPE: MetaType = MetaType {
    base: Base::Int,
    lists: 0,
};

const TEXT_TYPE: MetaType = MetaType {
    base: Base::Text,
    lists: 0,
};

const EXP_TYPE: MetaType = MetaType {
    base: Base::Tree(Kind::Exp),
    lists: 0,
};

const STMT_TYPE: MetaType = MetaType {
    base: Base::Tree(Kind::Stmt),
    lists: 0,
};

const STMT_LIST: MetaType = MetaType {
    base: Base::Tree(Kind::Stmt),
    lists: 1,
};

pub const CALL_1: Step = Node(Form::MetaExp(MetaExpForm::Named(Word(61))), 1);

pub const CALL_2: Step = Node(Form::MetaExp(MetaExpForm::Named(Word(62))), 1);

pub const SET_1: Step = Node(Form::MetaStmt(MetaStmtForm::Set(Word(51))), 1);

pub const SET_2: Step = Node(Form::MetaStmt(MetaStmtForm::Set(Word(52))), 1);

pub const ASSIGN_1: Step = Node(Form::Group(GroupForm::Assignment(Word(51))), 1);

pub const ASSIGN_2: Step = Node(Form::Group(GroupForm::Assignment(Word(52))), 1);

pub const LOCAL_1: Step = Node(
    Form::Local {
        of: INT_TYPE,
        name: Word(51),
    },
    1,
);

pub const LOCAL_2: Step = Node(
    Form::Local {
        of: INT_TYPE,
        name: Word(52),
    },
    1,
);

pub const LOCAL_3: Step = Node(
    Form::Local {
        of: TEXT_TYPE,
        name: Word(51),
    },
    1,
);

// Definitions

pub const SYNTAX_1: Step = Node(
    Form::Item(ItemForm::Syntax {
        result: EXP_TYPE,
        name: Word(71),
    }),
    2,
);

pub const SYNTAX_2: Step = Node(
    Form::Item(ItemForm::Syntax {
        result: EXP_TYPE,
        name: Word(72),
    }),
    2,
);

pub const SYNTAX_3: Step = Node(
    Form::Item(ItemForm::Syntax {
        result: STMT_LIST,
        name: Word(71),
    }),
    2,
);

pub const META_FUNCTION_1: Step = Node(
    Form::Item(ItemForm::MetaFunction {
        result: INT_TYPE,
        name: Word(61),
    }),
    2,
);

pub const META_FUNCTION_2: Step = Node(
    Form::Item(ItemForm::MetaFunction {
        result: INT_TYPE,
        name: Word(62),
    }),
    2,
);

pub const META_FUNCTION_3: Step = Node(
    Form::Item(ItemForm::MetaFunction {
        result: STMT_LIST,
        name: Word(61),
    }),
    2,
);

pub const META_VARIABLE_1: Step = Node(
    Form::Item(ItemForm::MetaVariable {
        of: INT_TYPE,
        name: Word(51),
    }),
    1,
);

pub const META_VARIABLE_2: Step = Node(
    Form::Item(ItemForm::MetaVariable {
        of: INT_TYPE,
        name: Word(52),
    }),
    1,
);

pub const META_VARIABLE_3: Step = Node(
    Form::Item(ItemForm::MetaVariable {
        of: TEXT_TYPE,
        name: Word(51),
    }),
    1,
);

pub const META_PARAM_1: Step = Node(
    Form::Group(GroupForm::MetaParam {
        of: INT_TYPE,
        name: Word(51),
    }),
    0,
);

pub const META_PARAM_2: Step = Node(
    Form::Group(GroupForm::MetaParam {
        of: INT_TYPE,
        name: Word(52),
    }),
    0,
);

pub const META_PARAM_3: Step = Node(
    Form::Group(GroupForm::MetaParam {
        of: TEXT_TYPE,
        name: Word(51),
    }),
    0,
);

// Patterns

const PLUS: Shape = Shape::Punct(Punct::Plus);

const ELSE: Shape = Shape::Key(Key::Else);

const UNTIL: Shape = Shape::Word(Word(81));

pub const LITERAL_PLUS: Step = Node(Form::Element(ElementForm::Literal(PLUS)), 0);

pub const LITERAL_ELSE: Step = Node(Form::Element(ElementForm::Literal(ELSE)), 0);

pub const LITERAL_UNTIL: Step = Node(Form::Element(ElementForm::Literal(UNTIL)), 0);

pub const ONE_OR_MORE_PLUS: Step = Node(Form::Element(ElementForm::OneOrMoreBetween(PLUS)), 1);

pub const ONE_OR_MORE_ELSE: Step = Node(Form::Element(ElementForm::OneOrMoreBetween(ELSE)), 1);

pub const ZERO_OR_MORE_PLUS: Step = Node(Form::Element(ElementForm::ZeroOrMoreBetween(PLUS)), 1);

pub const ZERO_OR_MORE_ELSE: Step = Node(Form::Element(ElementForm::ZeroOrMoreBetween(ELSE)), 1);

pub const MAYBE_PLUS: Step = Node(Form::Element(ElementForm::Maybe(PLUS)), 1);

pub const MAYBE_ELSE: Step = Node(Form::Element(ElementForm::Maybe(ELSE)), 1);

pub const MAYBE_UNTIL: Step = Node(Form::Element(ElementForm::Maybe(UNTIL)), 1);

pub const BINDER_1: Step = Node(
    Form::Group(GroupForm::Binder {
        kind: Kind::Exp,
        name: Word(91),
    }),
    0,
);

pub const BINDER_2: Step = Node(
    Form::Group(GroupForm::Binder {
        kind: Kind::Exp,
        name: Word(92),
    }),
    0,
);

pub const BINDER_3: Step = Node(
    Form::Group(GroupForm::Binder {
        kind: Kind::Stmt,
        name: Word(91),
    }),
    0,
);

// Placeholders of code and of shapes

pub const EXP_OF: Step = Node(
    Form::Hole(HoleForm::Computed {
        kind: Kind::Exp,
        is_list: false,
    }),
    1,
);

pub const STMT_OF: Step = Node(
    Form::Hole(HoleForm::Computed {
        kind: Kind::Stmt,
        is_list: false,
    }),
    1,
);

pub const STMTS_OF: Step = Node(
    Form::Hole(HoleForm::Computed {
        kind: Kind::Stmt,
        is_list: true,
    }),
    1,
);

pub const ANY_EXP_1: Step = Node(
    Form::Hole(HoleForm::Binder {
        kind: Kind::Exp,
        name: Word(91),
    }),
    0,
);

pub const ANY_EXP_2: Step = Node(
    Form::Hole(HoleForm::Binder {
        kind: Kind::Exp,
        name: Word(92),
    }),
    0,
);

pub const ANY_STMT: Step = Node(
    Form::Hole(HoleForm::Binder {
        kind: Kind::Stmt,
        name: Word(91),
    }),
    0,
);
