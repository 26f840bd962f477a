//! Definitions, patterns, and placeholders and calls with parts.

use crate::checks::{Row, rows};
use crate::leaves::*;
use crate::nodes::*;
use crate::step::Step::{Call, Hole, Id, List, MetaUnary, Rounds};
use c_forms::MetaUnaryOperator;
use c_tokens::Kind;

/// Definitions of macros, and of functions and variables of meta code.
pub static DEFINITIONS: &[Row] = rows! {
    [List(0), List(0), List(0), META_BLOCK, SYNTAX_1] 2 1 false false;
    [List(0), List(0), List(0), META_BLOCK, SYNTAX_2] 2 1 false false;
    [List(0), List(0), List(0), META_BLOCK, SYNTAX_3] 2 1 false false;
    [LITERAL_PLUS, List(1), List(0), List(0), META_BLOCK, SYNTAX_1] 2 1 false false;
    [LITERAL_PLUS, BINDER_1, BIND, List(2), List(0), P, META_RETURN, List(1), META_BLOCK, SYNTAX_1] 4 1 false false;
    [List(0), List(0), List(0), META_BLOCK, META_FUNCTION_1] 2 1 false false;
    [List(0), List(0), List(0), META_BLOCK, META_FUNCTION_2] 2 1 false false;
    [List(0), List(0), List(0), META_BLOCK, META_FUNCTION_3] 2 1 false false;
    [META_PARAM_1, META_PARAM_2, List(2), List(0), List(0), META_BLOCK, META_FUNCTION_1] 2 1 false false;
    [META_PARAM_2, META_PARAM_1, List(2), List(0), List(0), META_BLOCK, META_FUNCTION_1] 2 1 false false;
    [META_PARAM_3, META_PARAM_2, List(2), List(0), List(0), META_BLOCK, META_FUNCTION_1] 2 1 false false;
    [List(0), META_VARIABLE_1] 1 0 false false;
    [List(0), META_VARIABLE_2] 1 0 false false;
    [List(0), META_VARIABLE_3] 1 0 false false;
    [P, META_VALUE, List(1), META_VARIABLE_1] 2 0 false false;
    [Q, META_VALUE, List(1), META_VARIABLE_1] 2 0 false false;
    [META_PARAM_1] 0 0 true false;
    [META_PARAM_2] 0 0 true false;
    [META_PARAM_3] 0 0 true false;
    [P, META_VALUE] 1 0 true false;
    [Q, META_VALUE] 1 0 true false;
    [P, ASSIGN_1] 1 0 true false;
    [P, ASSIGN_2] 1 0 true false;
};

/// Elements of patterns.
pub static PATTERNS: &[Row] = rows! {
    [LITERAL_PLUS] 0 0 true false;
    [LITERAL_ELSE] 0 0 true false;
    [LITERAL_UNTIL] 0 0 true false;
    [BINDER_1] 0 0 true false;
    [BINDER_2] 0 0 true false;
    [BINDER_3] 0 0 true false;
    [BINDER_1, BIND] 0 0 true false;
    [BINDER_2, BIND] 0 0 true false;
    [List(0), ELEMENTS] 0 0 true false;
    [LITERAL_PLUS, List(1), ELEMENTS] 0 0 true false;
    [LITERAL_PLUS, BINDER_1, BIND, List(2), ELEMENTS] 0 0 true false;
    [BINDER_1, ONE_OR_MORE] 1 1 true false;
    [BINDER_2, ONE_OR_MORE] 1 1 true false;
    [LITERAL_PLUS, List(1), ELEMENTS, ONE_OR_MORE] 1 1 true false;
    [BINDER_1, ZERO_OR_MORE] 1 1 true false;
    [BINDER_2, ZERO_OR_MORE] 1 1 true false;
    [BINDER_1, ONE_OR_MORE_PLUS] 1 1 true false;
    [BINDER_1, ONE_OR_MORE_ELSE] 1 1 true false;
    [BINDER_2, ONE_OR_MORE_ELSE] 1 1 true false;
    [BINDER_1, ZERO_OR_MORE_PLUS] 1 1 true false;
    [BINDER_1, ZERO_OR_MORE_ELSE] 1 1 true false;
    [BINDER_2, ZERO_OR_MORE_ELSE] 1 1 true false;
    [BINDER_1, MAYBE_PLUS] 1 1 true false;
    [BINDER_1, MAYBE_ELSE] 1 1 true false;
    [BINDER_1, MAYBE_UNTIL] 1 1 true false;
    [BINDER_2, MAYBE_UNTIL] 1 1 true false;
    [BINDER_1, BIND, BINDER_2, ZERO_OR_MORE, List(2), ELEMENTS, ONE_OR_MORE] 2 2 true false;
};

/// Placeholders and calls with parts.
pub static CARRIED: &[Row] = rows! {
    [P, EXP_OF] 2 1 false false;
    [Q, EXP_OF] 2 1 false false;
    [P, STMT_OF] 2 1 false false;
    [P, STMTS_OF] 2 1 false false;
    [Q, STMTS_OF] 2 1 false false;
    [P, MetaUnary(MetaUnaryOperator::Not), EXP_OF] 3 2 false false;
    [ANY_EXP_1] 1 1 false false;
    [ANY_EXP_2] 1 1 false false;
    [ANY_STMT] 1 1 false false;
    [Hole(Kind::Exp, false, 91)] 1 1 false false;
    [A, B, ROW_2] 2 0 true false;
    [B, A, ROW_2] 2 0 true false;
    [A, ROW_1] 1 0 true false;
    [A, B, ROW_2, C, D, ROW_2, Rounds(2), Call(1, Kind::Exp, false, false, 1)] 5 1 false false;
    [A, B, ROW_2, C, D, ROW_2, Rounds(2)] 4 0 true false;
    [Rounds(0)] 0 0 true false;
    [A, Rounds(1)] 1 0 true false;
    [A, Rounds(1), B, Rounds(1), Rounds(2)] 2 0 true false;
    [INT, List(1), SPECS, X, A, Call(1, Kind::Exp, false, false, 3)] 3 1 false false;
    [T, List(1), SPECS, X, A, Call(1, Kind::Exp, false, false, 3)] 3 1 false false;
    [Rounds(0), A, EMPTY, List(0), IF, Call(1, Kind::Stmt, false, true, 2)] 4 2 false true;
    [Rounds(0), A, EMPTY, List(0), IF, Call(1, Kind::Stmt, false, false, 2)] 4 2 false false;
    [Rounds(0), A, EMPTY, EMPTY, ELSE_PART, List(1), IF, Call(1, Kind::Stmt, false, true, 2)] 5 2 false false;
};

/// Calls of macros and their arguments.
pub static CALLS: &[Row] = rows! {
    [A, Call(1, Kind::Exp, false, true, 1)] 2 1 false false;
    [Call(1, Kind::Exp, false, false, 0)] 1 1 false false;
    [A, B, Call(1, Kind::Exp, false, false, 2)] 3 1 false false;
    [B, A, Call(1, Kind::Exp, false, false, 2)] 3 1 false false;
    [A, Call(1, Kind::Exp, false, false, 1), Call(1, Kind::Exp, false, false, 1)] 3 2 false false;
    [A, B, List(2)] 2 0 true false;
    [B, A, List(2)] 2 0 true false;
    [A, List(1)] 1 0 true false;
    [Id(1, 0)] 0 0 true false;
    [Id(2, 0)] 0 0 true false;
    [INT, List(1), X, NAMED, List(0), INIT_DECLARATOR, List(1), DECL] 3 0 true false;
    [INT, List(1), Y, NAMED, List(0), INIT_DECLARATOR, List(1), DECL] 3 0 true false;
    [T, List(1), SPECS] 1 0 true false;
    [U, List(1), SPECS] 1 0 true false;
    [INT, List(1), X, NAMED, PARAM] 3 0 true false;
    [INT, List(1), Y, NAMED, PARAM] 3 0 true false;
    [INT, List(1), X, NAMED, List(0), MEMBER_DECLARATOR, List(1), MEMBER] 3 0 true false;
    [INT, List(1), Y, NAMED, List(0), MEMBER_DECLARATOR, List(1), MEMBER] 3 0 true false;
};
