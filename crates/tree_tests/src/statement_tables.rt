//! Statements and external declarations.

use crate::checks::{Row, rows};
use crate::leaves::*;
use crate::nodes::*;
use crate::step::Step::{Call, Hole, List};
use c_tokens::Kind;

/// Blocks, labelled statements, expression statements, choices and loops (6.6.1 to 6.6.5).
pub static STATEMENTS: &[Row] = rows! {
    [List(0), BLOCK] 1 1 true false;
    [A, EXPRESS, List(1), BLOCK] 3 1 true false;
    [INT, List(1), X, NAMED, List(0), INIT_DECLARATOR, List(1), DECL, A, EXPRESS, List(2), BLOCK] 6 1 true false;
    [INT, List(1), Y, NAMED, List(0), INIT_DECLARATOR, List(1), DECL, A, EXPRESS, List(2), BLOCK] 6 1 true false;
    [INT, List(1), X, NAMED, List(0), INIT_DECLARATOR, List(1), DECL, B, EXPRESS, List(2), BLOCK] 6 1 true false;
    [A, EXPRESS, B, EXPRESS, List(2), BLOCK] 5 1 true false;
    [B, EXPRESS, A, EXPRESS, List(2), BLOCK] 5 1 true false;
    [A, EXPRESS, List(1), BLOCK, List(1), BLOCK] 4 2 true false;
    [LABEL, A, EXPRESS, LABEL_OF] 3 1 true false;
    [LABEL_2, A, EXPRESS, LABEL_OF] 3 1 true false;
    [LABEL, B, EXPRESS, LABEL_OF] 3 1 true false;
    [Hole(Kind::Id, false, 1), A, EXPRESS, LABEL_OF] 4 2 false false;
    [A, B, EXPRESS, CASE] 4 1 true false;
    [C, B, EXPRESS, CASE] 4 1 true false;
    [A, C, EXPRESS, CASE] 4 1 true false;
    [A, EXPRESS, DEFAULT] 3 1 true false;
    [B, EXPRESS, DEFAULT] 3 1 true false;
    [A, EXPRESS] 2 0 true false;
    [B, EXPRESS] 2 0 true false;
    [EMPTY] 1 0 true false;
    [A, B, EXPRESS, List(0), IF] 4 1 true true;
    [C, B, EXPRESS, List(0), IF] 4 1 true true;
    [A, C, EXPRESS, List(0), IF] 4 1 true true;
    [A, B, EXPRESS, SWITCH] 4 1 true false;
    [C, B, EXPRESS, SWITCH] 4 1 true false;
    [A, C, EXPRESS, SWITCH] 4 1 true false;
    [A, B, EXPRESS, WHILE] 4 1 true false;
    [C, B, EXPRESS, WHILE] 4 1 true false;
    [A, C, EXPRESS, WHILE] 4 1 true false;
    [A, B, EXPRESS, C, EXPRESS, ELSE_PART, List(1), IF] 6 1 true false;
    [D, B, EXPRESS, C, EXPRESS, ELSE_PART, List(1), IF] 6 1 true false;
    [A, D, EXPRESS, C, EXPRESS, ELSE_PART, List(1), IF] 6 1 true false;
    [A, B, EXPRESS, D, EXPRESS, ELSE_PART, List(1), IF] 6 1 true false;
    [A, EXPRESS, B, DO] 4 1 true false;
    [C, EXPRESS, B, DO] 4 1 true false;
    [A, EXPRESS, C, DO] 4 1 true false;
    [A, List(1), B, List(1), C, List(1), D, EXPRESS, FOR] 6 1 true false;
    [E, List(1), B, List(1), C, List(1), D, EXPRESS, FOR] 6 1 true false;
    [A, List(1), E, List(1), C, List(1), D, EXPRESS, FOR] 6 1 true false;
    [A, List(1), B, List(1), E, List(1), D, EXPRESS, FOR] 6 1 true false;
    [A, List(1), B, List(1), C, List(1), E, EXPRESS, FOR] 6 1 true false;
    [A, List(1), List(0), List(0), D, EXPRESS, FOR] 4 1 true false;
    [List(0), A, List(1), List(0), D, EXPRESS, FOR] 4 1 true false;
    [List(0), List(0), A, List(1), D, EXPRESS, FOR] 4 1 true false;
    [List(0), List(0), List(0), D, EXPRESS, FOR] 3 1 true false;
};

/// Jumps, placeholders and calls, and statements over them (6.6.6).
pub static JUMPS: &[Row] = rows! {
    [LABEL, GOTO] 1 0 true false;
    [LABEL_2, GOTO] 1 0 true false;
    [Hole(Kind::Id, false, 1), GOTO] 2 1 false false;
    [CONTINUE] 1 0 true false;
    [BREAK] 1 0 true false;
    [A, List(1), RETURN] 2 0 true false;
    [B, List(1), RETURN] 2 0 true false;
    [List(0), RETURN] 1 0 true false;
    [Hole(Kind::Stmt, false, 1)] 1 1 false false;
    [Hole(Kind::Stmt, false, 2)] 1 1 false false;
    [Hole(Kind::Stmt, true, 1)] 1 1 false false;
    [A, Call(1, Kind::Stmt, false, false, 1)] 2 1 false false;
    [A, Call(3, Kind::Stmt, false, false, 1)] 2 1 false false;
    [C, Call(1, Kind::Stmt, false, false, 1)] 2 1 false false;
    [A, Call(1, Kind::Stmt, true, false, 1)] 2 1 false false;
    [A, Call(1, Kind::Stmt, false, true, 1)] 2 1 false false;
    [A, EMPTY, List(0), IF] 3 1 true true;
    [LABEL, A, EMPTY, List(0), IF, LABEL_OF] 4 2 true true;
    [A, A, EMPTY, List(0), IF, CASE] 5 2 true true;
    [A, EMPTY, List(0), IF, DEFAULT] 4 2 true true;
    [B, A, EMPTY, List(0), IF, List(0), IF] 5 2 true true;
    [B, EMPTY, A, EMPTY, List(0), IF, ELSE_PART, List(1), IF] 6 2 true true;
    [A, A, EMPTY, List(0), IF, SWITCH] 5 2 true true;
    [A, A, EMPTY, List(0), IF, WHILE] 5 2 true true;
    [List(0), List(0), List(0), A, EMPTY, List(0), IF, FOR] 4 2 true true;
    [A, EMPTY, List(0), IF, A, DO] 5 2 true false;
    [A, EMPTY, List(0), IF, List(1), BLOCK] 4 2 true false;
    [LABEL, List(0), List(0), List(0), A, EMPTY, List(0), IF, FOR, LABEL_OF, DEFAULT] 6 4 true true;
    [A, EMPTY, List(0), IF, Call(1, Kind::Stmt, false, true, 1)] 4 2 false true;
    [A, EMPTY, List(0), IF, Call(1, Kind::Stmt, false, false, 1)] 4 2 false false;
    [EMPTY, Call(1, Kind::Stmt, false, true, 1)] 2 1 false false;
    [A, EMPTY, List(0), IF, A, Call(1, Kind::Stmt, false, true, 2)] 5 2 false false;
};

/// External declarations (6.7).
pub static ITEMS: &[Row] = rows! {
    [
        T, List(1), X, NAMED, INT, List(1), Y, NAMED, PARAM, List(1), TYPED, FUNCTION_OF, List(0), A, EXPRESS,
        List(1), BLOCK, FUNCTION
    ] 11 1 true false;
    [
        U, List(1), X, NAMED, INT, List(1), Y, NAMED, PARAM, List(1), TYPED, FUNCTION_OF, List(0), A, EXPRESS,
        List(1), BLOCK, FUNCTION
    ] 11 1 true false;
    [
        T, List(1), Z, NAMED, INT, List(1), Y, NAMED, PARAM, List(1), TYPED, FUNCTION_OF, List(0), A, EXPRESS,
        List(1), BLOCK, FUNCTION
    ] 11 1 true false;
    [
        T, List(1), X, NAMED, INT, List(1), Y, NAMED, PARAM, List(1), TYPED, FUNCTION_OF, List(0), List(0), BLOCK,
        FUNCTION
    ] 9 1 true false;
    [
        List(0), X, NAMED, Y, List(1), IDS, FUNCTION_OF, INT, List(1), Y, NAMED, List(0), INIT_DECLARATOR, List(1),
        DECL, List(1), A, EXPRESS, List(1), BLOCK, FUNCTION
    ] 10 1 true false;
    [
        List(0), X, NAMED, Y, List(1), IDS, FUNCTION_OF, INT, List(1), Z, NAMED, List(0), INIT_DECLARATOR, List(1),
        DECL, List(1), A, EXPRESS, List(1), BLOCK, FUNCTION
    ] 10 1 true false;
    [INT, List(1), X, NAMED, List(0), INIT_DECLARATOR, List(1), DECL, DECLARATION] 4 0 true false;
    [INT, List(1), Y, NAMED, List(0), INIT_DECLARATOR, List(1), DECL, DECLARATION] 4 0 true false;
    [Hole(Kind::Item, false, 1)] 1 1 false false;
    [Hole(Kind::Item, false, 2)] 1 1 false false;
    [Hole(Kind::Item, true, 1)] 1 1 false false;
    [A, Call(1, Kind::Item, false, false, 1)] 2 1 false false;
    [A, Call(3, Kind::Item, false, false, 1)] 2 1 false false;
    [C, Call(1, Kind::Item, false, false, 1)] 2 1 false false;
    [A, Call(1, Kind::Item, true, false, 1)] 2 1 false false;
};
