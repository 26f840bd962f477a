//! Blocks as the scopes take them.

use crate::nodes::*;
use crate::step::Step::{Binary, Id, List, Name, Type};
use crate::walk::{Answer, F, S, T, Walk, X, walks};
use c_forms::BinaryOperator;

/// Blocks and statements.
pub static BLOCKS: &[Walk] = walks! {
    // typedef int T; void f(void) { int T; T * x; }
    []
        [TYPEDEF, INT, List(2), Id(T, 0), NAMED, List(0), INIT_DECLARATOR, List(1), DECL, DECLARATION]
        [
            VOID, List(1), Id(F, 0), NAMED, VOID, List(1), ABSENT, PARAM, List(1), TYPED, FUNCTION_OF, List(0),
            INT, List(1), Id(T, 1), NAMED, List(0), INIT_DECLARATOR, List(1), DECL, Name(T, 2), Name(X, 3),
            Binary(BinaryOperator::Multiply), EXPRESS, List(2), BLOCK, FUNCTION
        ]
        => Answer::Holds, [(T, true), (F, false)];
    // void f(void) { int T; { T *x; } } where T is a type
    [T]
        [
            VOID, List(1), Id(F, 0), NAMED, VOID, List(1), ABSENT, PARAM, List(1), TYPED, FUNCTION_OF, List(0),
            INT, List(1), Id(T, 1), NAMED, List(0), INIT_DECLARATOR, List(1), DECL, Type(T, 2), List(1),
            List(0), Id(X, 3), NAMED, POINTER, List(0), INIT_DECLARATOR, List(1), DECL, List(1), BLOCK, List(2),
            BLOCK, FUNCTION
        ]
        => Answer::NoType(T, 2), [];
    // typedef int T; void f(void) { T *x; }
    []
        [TYPEDEF, INT, List(2), Id(T, 0), NAMED, List(0), INIT_DECLARATOR, List(1), DECL, DECLARATION]
        [
            VOID, List(1), Id(F, 0), NAMED, VOID, List(1), ABSENT, PARAM, List(1), TYPED, FUNCTION_OF, List(0),
            Type(T, 1), List(1), List(0), Id(X, 2), NAMED, POINTER, List(0), INIT_DECLARATOR, List(1), DECL,
            List(1), BLOCK, FUNCTION
        ]
        => Answer::Holds, [(T, true)];
    // void f(void) { T * x; } as an expression, where T is a type
    [T]
        [
            VOID, List(1), Id(F, 0), NAMED, VOID, List(1), ABSENT, PARAM, List(1), TYPED, FUNCTION_OF, List(0),
            Name(T, 1), Name(X, 2), Binary(BinaryOperator::Multiply), EXPRESS, List(1), BLOCK, FUNCTION
        ]
        => Answer::NoValue(T, 1), [];
    // typedef int T; void f(void) { { int T; { T x; } } } with T in line 3 at column 23
    []
        [TYPEDEF, INT, List(2), Id(T, 0), NAMED, List(0), INIT_DECLARATOR, List(1), DECL, DECLARATION]
        [
            VOID, List(1), Id(F, 0), NAMED, VOID, List(1), ABSENT, PARAM, List(1), TYPED, FUNCTION_OF, List(0),
            INT, List(1), Id(T, 1), NAMED, List(0), INIT_DECLARATOR, List(1), DECL, Type(T, 22), List(1),
            Id(X, 24), NAMED, List(0), INIT_DECLARATOR, List(1), DECL, List(1), BLOCK, List(2), BLOCK, List(1),
            BLOCK, FUNCTION
        ]
        => Answer::NoType(T, 22), [(T, true)];
    // void f(void) { { int T; } { T x; } } where T is a type
    [T]
        [
            VOID, List(1), Id(F, 0), NAMED, VOID, List(1), ABSENT, PARAM, List(1), TYPED, FUNCTION_OF, List(0),
            INT, List(1), Id(T, 1), NAMED, List(0), INIT_DECLARATOR, List(1), DECL, List(1), BLOCK, Type(T, 2),
            List(1), Id(X, 3), NAMED, List(0), INIT_DECLARATOR, List(1), DECL, List(1), BLOCK, List(2), BLOCK,
            FUNCTION
        ]
        => Answer::Holds, [];
    // void f(void) { { typedef int s; } { s x; } }
    []
        [
            VOID, List(1), Id(F, 0), NAMED, VOID, List(1), ABSENT, PARAM, List(1), TYPED, FUNCTION_OF, List(0),
            TYPEDEF, INT, List(2), Id(S, 1), NAMED, List(0), INIT_DECLARATOR, List(1), DECL, List(1), BLOCK,
            Type(S, 2), List(1), Id(X, 3), NAMED, List(0), INIT_DECLARATOR, List(1), DECL, List(1), BLOCK,
            List(2), BLOCK, FUNCTION
        ]
        => Answer::NoType(S, 2), [];
    // void f(void) { T: goto T; } where T is a type
    [T]
        [
            VOID, List(1), Id(F, 0), NAMED, VOID, List(1), ABSENT, PARAM, List(1), TYPED, FUNCTION_OF, List(0),
            Id(T, 1), Id(T, 2), GOTO, LABEL_OF, List(1), BLOCK, FUNCTION
        ]
        => Answer::Holds, [(T, true)];
    // void f(void) { do T; while (x); } where T and x are types
    [T, X]
        [
            VOID, List(1), Id(F, 0), NAMED, VOID, List(1), ABSENT, PARAM, List(1), TYPED, FUNCTION_OF, List(0),
            Name(T, 1), EXPRESS, Name(X, 2), DO, List(1), BLOCK, FUNCTION
        ]
        => Answer::NoValue(T, 1), [];
    // void f(void) { for (s; ; x) T; } where T and x are types
    [T, X]
        [
            VOID, List(1), Id(F, 0), NAMED, VOID, List(1), ABSENT, PARAM, List(1), TYPED, FUNCTION_OF, List(0),
            Name(S, 1), List(1), List(0), Name(X, 2), List(1), Name(T, 3), EXPRESS, FOR, List(1), BLOCK,
            FUNCTION
        ]
        => Answer::NoValue(X, 2), [];
};
