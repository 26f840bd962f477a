//! Functions and their parameters, and macros, as the scopes take them.

use crate::nodes::*;
use crate::step::Step::{Call, Hole, Id, List, Name, Type};
use crate::walk::{Answer, F, S, T, Walk, X, walks};
use c_tokens::Kind;

/// Parameters.
pub static PARAMETERS: &[Walk] = walks! {
    // int f(int (T)); where T is a type
    [T]
        [
            INT, List(1), Id(F, 2), NAMED, INT, List(1), ABSENT, Type(T, 1), List(1), ABSENT, PARAM, List(1),
            TYPED, FUNCTION_OF, PARAM, List(1), TYPED, FUNCTION_OF, List(0), INIT_DECLARATOR, List(1), DECL,
            DECLARATION
        ]
        => Answer::Holds, [(T, true), (F, false)];
    // int f(int (T)); read so where T is none
    []
        [
            INT, List(1), Id(F, 2), NAMED, INT, List(1), ABSENT, Type(T, 1), List(1), ABSENT, PARAM, List(1),
            TYPED, FUNCTION_OF, PARAM, List(1), TYPED, FUNCTION_OF, List(0), INIT_DECLARATOR, List(1), DECL,
            DECLARATION
        ]
        => Answer::NoType(T, 1), [];
    // int f(int T); T x; where T is a type
    [T]
        [
            INT, List(1), Id(F, 2), NAMED, INT, List(1), Id(T, 1), NAMED, PARAM, List(1), TYPED, FUNCTION_OF,
            List(0), INIT_DECLARATOR, List(1), DECL, DECLARATION
        ]
        [Type(T, 3), List(1), Id(X, 4), NAMED, List(0), INIT_DECLARATOR, List(1), DECL, DECLARATION]
        => Answer::Holds, [];
    // int f(int T, T x); where T is a type
    [T]
        [
            INT, List(1), Id(F, 4), NAMED, INT, List(1), Id(T, 1), NAMED, PARAM, Type(T, 2), List(1), Id(X, 3),
            NAMED, PARAM, List(2), TYPED, FUNCTION_OF, List(0), INIT_DECLARATOR, List(1), DECL, DECLARATION
        ]
        => Answer::NoType(T, 2), [];
    // int f(const T); where T is a type
    [T]
        [
            INT, List(1), Id(F, 2), NAMED, CONST, List(1), Id(T, 1), NAMED, PARAM, List(1), TYPED, FUNCTION_OF,
            List(0), INIT_DECLARATOR, List(1), DECL, DECLARATION
        ]
        => Answer::NoValue(T, 1), [];
    // int f(const T); where T is none
    []
        [
            INT, List(1), Id(F, 2), NAMED, CONST, List(1), Id(T, 1), NAMED, PARAM, List(1), TYPED, FUNCTION_OF,
            List(0), INIT_DECLARATOR, List(1), DECL, DECLARATION
        ]
        => Answer::Holds, [];
    // void f(int T) { T; } where T is a type
    [T]
        [
            VOID, List(1), Id(F, 0), NAMED, INT, List(1), Id(T, 1), NAMED, PARAM, List(1), TYPED, FUNCTION_OF,
            List(0), Name(T, 2), EXPRESS, List(1), BLOCK, FUNCTION
        ]
        => Answer::Holds, [(T, true)];
    // void f(int T) { T x; } where T is a type
    [T]
        [
            VOID, List(1), Id(F, 0), NAMED, INT, List(1), Id(T, 1), NAMED, PARAM, List(1), TYPED, FUNCTION_OF,
            List(0), Type(T, 2), List(1), Id(X, 3), NAMED, List(0), INIT_DECLARATOR, List(1), DECL, List(1),
            BLOCK, FUNCTION
        ]
        => Answer::NoType(T, 2), [];
    // void f(enum { T } x) { T; } where T is a type
    [T]
        [
            VOID, List(1), Id(F, 0), NAMED, List(0), Id(T, 0), List(0), ENUMERATOR, List(1), ENUMERATORS,
            List(1), ENUM, List(1), Id(X, 1), NAMED, PARAM, List(1), TYPED, FUNCTION_OF, List(0), Name(T, 2),
            EXPRESS, List(1), BLOCK, FUNCTION
        ]
        => Answer::Holds, [(T, true)];
    // void f(struct { enum { T } s; } x) { T; } where T is a type
    [T]
        [
            VOID, List(1), Id(F, 0), NAMED, List(0), List(0), Id(T, 0), List(0), ENUMERATOR, List(1),
            ENUMERATORS, List(1), ENUM, List(1), Id(S, 1), NAMED, List(0), MEMBER_DECLARATOR, List(1), MEMBER,
            List(1), MEMBERS, List(1), STRUCT, List(1), Id(X, 2), NAMED, PARAM, List(1), TYPED, FUNCTION_OF,
            List(0), Name(T, 3), EXPRESS, List(1), BLOCK, FUNCTION
        ]
        => Answer::Holds, [(T, true)];
    // void f(int x(int T)) { T s; } where T is a type
    [T]
        [
            VOID, List(1), Id(F, 0), NAMED, INT, List(1), Id(X, 2), NAMED, INT, List(1), Id(T, 1), NAMED, PARAM,
            List(1), TYPED, FUNCTION_OF, PARAM, List(1), TYPED, FUNCTION_OF, List(0), Type(T, 3), List(1),
            Id(S, 4), NAMED, List(0), INIT_DECLARATOR, List(1), DECL, List(1), BLOCK, FUNCTION
        ]
        => Answer::Holds, [];
};

/// Function definitions.
pub static FUNCTIONS: &[Walk] = walks! {
    // int f(x) int x; { x; } where x is no type
    []
        [
            INT, List(1), Id(F, 0), NAMED, Id(X, 1), List(1), IDS, FUNCTION_OF, INT, List(1), Id(X, 2), NAMED,
            List(0), INIT_DECLARATOR, List(1), DECL, List(1), Name(X, 3), EXPRESS, List(1), BLOCK, FUNCTION
        ]
        => Answer::Holds, [];
    // int f(T) int T; { } where T is a type
    [T]
        [
            INT, List(1), Id(F, 0), NAMED, Id(T, 1), List(1), IDS, FUNCTION_OF, INT, List(1), Id(T, 2), NAMED,
            List(0), INIT_DECLARATOR, List(1), DECL, List(1), List(0), BLOCK, FUNCTION
        ]
        => Answer::NoValue(T, 1), [];
    // int f(x) T x; { } where T is a type
    [T]
        [
            INT, List(1), Id(F, 0), NAMED, Id(X, 1), List(1), IDS, FUNCTION_OF, Type(T, 2), List(1), Id(X, 3),
            NAMED, List(0), INIT_DECLARATOR, List(1), DECL, List(1), List(0), BLOCK, FUNCTION
        ]
        => Answer::Holds, [];
    // int f(x) T x; { } where T is none
    []
        [
            INT, List(1), Id(F, 0), NAMED, Id(X, 1), List(1), IDS, FUNCTION_OF, Type(T, 2), List(1), Id(X, 3),
            NAMED, List(0), INIT_DECLARATOR, List(1), DECL, List(1), List(0), BLOCK, FUNCTION
        ]
        => Answer::NoType(T, 2), [];
    // int f(x) typedef int x; { x s; }
    []
        [
            INT, List(1), Id(F, 0), NAMED, Id(X, 1), List(1), IDS, FUNCTION_OF, TYPEDEF, INT, List(2), Id(X, 2),
            NAMED, List(0), INIT_DECLARATOR, List(1), DECL, List(1), Type(X, 3), List(1), Id(S, 4), NAMED,
            List(0), INIT_DECLARATOR, List(1), DECL, List(1), BLOCK, FUNCTION
        ]
        => Answer::Holds, [(X, false)];
    // int f(x) typedef int x; { x; }
    []
        [
            INT, List(1), Id(F, 0), NAMED, Id(X, 1), List(1), IDS, FUNCTION_OF, TYPEDEF, INT, List(2), Id(X, 2),
            NAMED, List(0), INIT_DECLARATOR, List(1), DECL, List(1), Name(X, 3), EXPRESS, List(1), BLOCK,
            FUNCTION
        ]
        => Answer::NoValue(X, 3), [];
    // T() { } where T is a type
    [T]
        [List(0), Id(T, 1), NAMED, List(0), IDS, FUNCTION_OF, List(0), List(0), BLOCK, FUNCTION]
        => Answer::NoValue(T, 1), [];
    // T() { } where T is none
    []
        [List(0), Id(T, 1), NAMED, List(0), IDS, FUNCTION_OF, List(0), List(0), BLOCK, FUNCTION]
        => Answer::Holds, [];
    // int T(void) { T; } where T is a type before it
    [T]
        [
            INT, List(1), Id(T, 1), NAMED, VOID, List(1), ABSENT, PARAM, List(1), TYPED, FUNCTION_OF, List(0),
            Name(T, 2), EXPRESS, List(1), BLOCK, FUNCTION
        ]
        => Answer::Holds, [(T, false)];
    // T f(void) { } where T is a type
    [T]
        [
            Type(T, 1), List(1), Id(F, 2), NAMED, VOID, List(1), ABSENT, PARAM, List(1), TYPED, FUNCTION_OF,
            List(0), List(0), BLOCK, FUNCTION
        ]
        => Answer::Holds, [];
    // T f(void) { } where T is none
    []
        [
            Type(T, 1), List(1), Id(F, 2), NAMED, VOID, List(1), ABSENT, PARAM, List(1), TYPED, FUNCTION_OF,
            List(0), List(0), BLOCK, FUNCTION
        ]
        => Answer::NoType(T, 1), [];
};

/// Calls of macros and placeholders.
pub static MACROS: &[Walk] = walks! {
    // a call with `int T;` for its argument, where T is a type
    [T]
        [
            INT, List(1), Id(T, 1), NAMED, List(0), INIT_DECLARATOR, List(1), DECL,
            Call(0, Kind::Decl, false, false, 1)
        ]
        => Answer::Holds, [(T, true)];
    // a call with the expression `T` for its argument, where T is a type
    [T]
        [Name(T, 1), Call(0, Kind::Item, false, false, 1)]
        => Answer::NoValue(T, 1), [];
    // a placeholder for an external declaration
    [T]
        [Hole(Kind::Item, false, 0)]
        => Answer::Holds, [(T, true)];
};
