//! Declarators, parameters, initializers and declarations.

use crate::checks::{Row, rows};
use crate::leaves::*;
use crate::nodes::*;
use crate::step::Step::{Call, Hole, List};
use c_tokens::Kind;

/// Declarators, parameters, initializers and declarations (6.5, 6.5.4, 6.5.7).
pub static DECLARATORS: &[Row] = rows! {
    [X, NAMED] 1 0 true false;
    [Y, NAMED] 1 0 true false;
    [Hole(Kind::Id, false, 1), NAMED] 2 1 false false;
    [ABSENT] 1 0 true false;
    [CONST, List(1), X, NAMED, POINTER] 3 1 true false;
    [VOLATILE, List(1), X, NAMED, POINTER] 3 1 true false;
    [CONST, List(1), Y, NAMED, POINTER] 3 1 true false;
    [List(0), X, NAMED, POINTER] 2 1 true false;
    [List(0), List(0), X, NAMED, POINTER, POINTER] 3 2 true false;
    [X, NAMED, A, List(1), ARRAY_OF] 3 1 true false;
    [Y, NAMED, A, List(1), ARRAY_OF] 3 1 true false;
    [X, NAMED, B, List(1), ARRAY_OF] 3 1 true false;
    [X, NAMED, List(0), ARRAY_OF] 2 1 true false;
    [X, NAMED, Hole(Kind::Exp, false, 1), List(1), ARRAY_OF] 3 2 false false;
    [X, NAMED, INT, List(1), Y, NAMED, PARAM, List(1), TYPED, FUNCTION_OF] 6 1 true false;
    [Z, NAMED, INT, List(1), Y, NAMED, PARAM, List(1), TYPED, FUNCTION_OF] 6 1 true false;
    [X, NAMED, INT, List(1), Z, NAMED, PARAM, List(1), TYPED, FUNCTION_OF] 6 1 true false;
    [X, NAMED, Y, List(1), IDS, FUNCTION_OF] 3 1 true false;
    [X, NAMED, List(0), IDS, FUNCTION_OF] 3 1 true false;
    [List(0), IDS] 1 0 true false;
    [X, List(1), IDS] 1 0 true false;
    [X, Y, List(2), IDS] 1 0 true false;
    [Y, X, List(2), IDS] 1 0 true false;
    [Hole(Kind::Id, false, 1), List(1), IDS] 2 1 false false;
    [INT, List(1), X, NAMED, PARAM, List(1), TYPED] 4 0 true false;
    [INT, List(1), Y, NAMED, PARAM, List(1), TYPED] 4 0 true false;
    [INT, List(1), X, NAMED, PARAM, List(1), TYPED_AND_MORE] 4 0 true false;
    [INT, List(1), X, NAMED, PARAM, INT, List(1), Y, NAMED, PARAM, List(2), TYPED] 7 0 true false;
    [INT, List(1), Y, NAMED, PARAM, INT, List(1), X, NAMED, PARAM, List(2), TYPED] 7 0 true false;
    [T, List(1), X, NAMED, PARAM] 3 0 true false;
    [U, List(1), X, NAMED, PARAM] 3 0 true false;
    [T, List(1), Y, NAMED, PARAM] 3 0 true false;
    [T, List(1), ABSENT, PARAM] 3 0 true false;
    [Hole(Kind::Param, false, 1)] 1 1 false false;
    [Hole(Kind::Param, false, 2)] 1 1 false false;
    [A, INIT] 2 0 true false;
    [B, INIT] 2 0 true false;
    [A, INIT, B, INIT, List(2), INIT_BRACES] 5 1 true false;
    [B, INIT, A, INIT, List(2), INIT_BRACES] 5 1 true false;
    [A, INIT, List(1), INIT_BRACES] 3 1 true false;
    [A, INIT, List(1), INIT_BRACES, List(1), INIT_BRACES] 4 2 true false;
    [X, NAMED, A, INIT, INITIALIZER, List(1), INIT_DECLARATOR] 3 0 true false;
    [Y, NAMED, A, INIT, INITIALIZER, List(1), INIT_DECLARATOR] 3 0 true false;
    [X, NAMED, B, INIT, INITIALIZER, List(1), INIT_DECLARATOR] 3 0 true false;
    [X, NAMED, List(0), INIT_DECLARATOR] 1 0 true false;
    [T, List(1), X, NAMED, List(0), INIT_DECLARATOR, List(1), DECL] 3 0 true false;
    [U, List(1), X, NAMED, List(0), INIT_DECLARATOR, List(1), DECL] 3 0 true false;
    [T, List(1), Y, NAMED, List(0), INIT_DECLARATOR, List(1), DECL] 3 0 true false;
    [STATIC, INT, List(2), X, NAMED, List(0), INIT_DECLARATOR, List(1), DECL] 4 0 true false;
    [EXTERN, INT, List(2), X, NAMED, List(0), INIT_DECLARATOR, List(1), DECL] 4 0 true false;
    [
        T, List(1), X, NAMED, List(0), INIT_DECLARATOR, Y, NAMED, List(0), INIT_DECLARATOR, List(2), DECL
    ] 4 0 true false;
    [Hole(Kind::Decl, false, 1)] 1 1 false false;
    [Hole(Kind::Decl, false, 2)] 1 1 false false;
    [Hole(Kind::Decl, true, 1)] 1 1 false false;
    [A, Call(1, Kind::Decl, false, false, 1)] 2 1 false false;
    [A, Call(3, Kind::Decl, false, false, 1)] 2 1 false false;
    [C, Call(1, Kind::Decl, false, false, 1)] 2 1 false false;
    [A, Call(1, Kind::Decl, true, false, 1)] 2 1 false false;
    [INT, List(1), Y, NAMED, PARAM, List(1), TYPED_AND_MORE] 4 0 true false;
};
