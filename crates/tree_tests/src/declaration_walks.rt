//! Declarations and members as the scopes take them.

use crate::nodes::*;
use crate::step::Step::{Id, List, Name, Type};
use crate::walk::{Answer, S, T, Walk, X, walks};

/// Declarations outside of functions.
pub static DECLARATIONS: &[Walk] = walks! {
    // typedef int T; T x;
    []
        [TYPEDEF, INT, List(2), Id(T, 1), NAMED, List(0), INIT_DECLARATOR, List(1), DECL, DECLARATION]
        [Type(T, 1), List(1), Id(X, 2), NAMED, List(0), INIT_DECLARATOR, List(1), DECL, DECLARATION]
        => Answer::Holds, [(T, true), (X, false)];
    // T x;
    []
        [Type(T, 1), List(1), Id(X, 2), NAMED, List(0), INIT_DECLARATOR, List(1), DECL, DECLARATION]
        => Answer::NoType(T, 1), [];
    // int T; T x; where T is a type before it
    [T]
        [INT, List(1), Id(T, 1), NAMED, List(0), INIT_DECLARATOR, List(1), DECL, DECLARATION]
        [Type(T, 2), List(1), Id(X, 3), NAMED, List(0), INIT_DECLARATOR, List(1), DECL, DECLARATION]
        => Answer::NoType(T, 2), [];
    // int x; typedef int x; x s;
    []
        [INT, List(1), Id(X, 1), NAMED, List(0), INIT_DECLARATOR, List(1), DECL, DECLARATION]
        [TYPEDEF, INT, List(2), Id(X, 2), NAMED, List(0), INIT_DECLARATOR, List(1), DECL, DECLARATION]
        [Type(X, 3), List(1), Id(S, 4), NAMED, List(0), INIT_DECLARATOR, List(1), DECL, DECLARATION]
        => Answer::Holds, [];
    // int T = T; where T is a type before it
    [T]
        [
            INT, List(1), Id(T, 1), NAMED, Name(T, 2), INIT, INITIALIZER, List(1), INIT_DECLARATOR, List(1),
            DECL, DECLARATION
        ]
        => Answer::Holds, [(T, false)];
    // int x = T; where T is a type
    [T]
        [
            INT, List(1), Id(X, 1), NAMED, Name(T, 2), INIT, INITIALIZER, List(1), INIT_DECLARATOR, List(1),
            DECL, DECLARATION
        ]
        => Answer::NoValue(T, 2), [];
    // int T, x = T; where T is a type before it
    [T]
        [
            INT, List(1), Id(T, 1), NAMED, List(0), INIT_DECLARATOR, Id(X, 2), NAMED, Name(T, 3), INIT,
            INITIALIZER, List(1), INIT_DECLARATOR, List(2), DECL, DECLARATION
        ]
        => Answer::Holds, [];
    // typedef int x, *s;
    []
        [
            TYPEDEF, INT, List(2), Id(X, 1), NAMED, List(0), INIT_DECLARATOR, List(0), Id(S, 2), NAMED, POINTER,
            List(0), INIT_DECLARATOR, List(2), DECL, DECLARATION
        ]
        => Answer::Holds, [(X, true), (S, true)];
    // int T[sizeof (T)]; where T is a type before it
    [T]
        [
            INT, List(1), Id(T, 1), NAMED, Type(T, 2), List(1), ABSENT, TYPE_NAME, SIZEOF_TYPE, List(1),
            ARRAY_OF, List(0), INIT_DECLARATOR, List(1), DECL, DECLARATION
        ]
        => Answer::Holds, [(T, false)];
    // int T, x = sizeof (T); where T is a type before it, and still after the refusal
    [T]
        [
            INT, List(1), Id(T, 1), NAMED, List(0), INIT_DECLARATOR, Id(X, 2), NAMED, Type(T, 3), List(1),
            ABSENT, TYPE_NAME, SIZEOF_TYPE, INIT, INITIALIZER, List(1), INIT_DECLARATOR, List(2), DECL,
            DECLARATION
        ]
        => Answer::NoType(T, 3), [(T, true)];
    // const T; where T is a type
    [T]
        [CONST, List(1), Id(T, 1), NAMED, List(0), INIT_DECLARATOR, List(1), DECL, DECLARATION]
        => Answer::NoValue(T, 1), [];
    // const T; where T is none
    []
        [CONST, List(1), Id(T, 1), NAMED, List(0), INIT_DECLARATOR, List(1), DECL, DECLARATION]
        => Answer::Holds, [];
    // const x[T]; where x and T are types
    [X, T]
        [
            CONST, List(1), Id(X, 1), NAMED, Name(T, 2), List(1), ARRAY_OF, List(0), INIT_DECLARATOR, List(1),
            DECL, DECLARATION
        ]
        => Answer::NoValue(X, 1), [];
    // int x = sizeof (T); where T is a type
    [T]
        [
            INT, List(1), Id(X, 1), NAMED, Type(T, 2), List(1), ABSENT, TYPE_NAME, SIZEOF_TYPE, INIT,
            INITIALIZER, List(1), INIT_DECLARATOR, List(1), DECL, DECLARATION
        ]
        => Answer::Holds, [];
    // int x = sizeof (T); where T is none
    []
        [
            INT, List(1), Id(X, 1), NAMED, Type(T, 2), List(1), ABSENT, TYPE_NAME, SIZEOF_TYPE, INIT,
            INITIALIZER, List(1), INIT_DECLARATOR, List(1), DECL, DECLARATION
        ]
        => Answer::NoType(T, 2), [];
    // int x = (T) s; where T is a type
    [T]
        [
            INT, List(1), Id(X, 1), NAMED, Type(T, 2), List(1), ABSENT, TYPE_NAME, Name(S, 3), CAST, INIT,
            INITIALIZER, List(1), INIT_DECLARATOR, List(1), DECL, DECLARATION
        ]
        => Answer::Holds, [];
    // int x = (T) s; where T is none
    []
        [
            INT, List(1), Id(X, 1), NAMED, Type(T, 2), List(1), ABSENT, TYPE_NAME, Name(S, 3), CAST, INIT,
            INITIALIZER, List(1), INIT_DECLARATOR, List(1), DECL, DECLARATION
        ]
        => Answer::NoType(T, 2), [];
};

/// Structures, unions and enumerations.
pub static STRUCTURES: &[Walk] = walks! {
    // struct { int T; } x; where T is a type
    [T]
        [
            List(0), INT, List(1), Id(T, 1), NAMED, List(0), MEMBER_DECLARATOR, List(1), MEMBER, List(1),
            MEMBERS, List(1), STRUCT, List(1), Id(X, 2), NAMED, List(0), INIT_DECLARATOR, List(1), DECL,
            DECLARATION
        ]
        => Answer::Holds, [(T, true)];
    // struct { const T; } x; where T is a type
    [T]
        [
            List(0), CONST, List(1), Id(T, 1), NAMED, List(0), MEMBER_DECLARATOR, List(1), MEMBER, List(1),
            MEMBERS, List(1), STRUCT, List(1), Id(X, 2), NAMED, List(0), INIT_DECLARATOR, List(1), DECL,
            DECLARATION
        ]
        => Answer::NoValue(T, 1), [];
    // struct { const T; } x; where T is none
    []
        [
            List(0), CONST, List(1), Id(T, 1), NAMED, List(0), MEMBER_DECLARATOR, List(1), MEMBER, List(1),
            MEMBERS, List(1), STRUCT, List(1), Id(X, 2), NAMED, List(0), INIT_DECLARATOR, List(1), DECL,
            DECLARATION
        ]
        => Answer::Holds, [];
    // struct { T s; } x; where T is a type
    [T]
        [
            List(0), Type(T, 1), List(1), Id(S, 2), NAMED, List(0), MEMBER_DECLARATOR, List(1), MEMBER, List(1),
            MEMBERS, List(1), STRUCT, List(1), Id(X, 3), NAMED, List(0), INIT_DECLARATOR, List(1), DECL,
            DECLARATION
        ]
        => Answer::Holds, [];
    // struct { T s; } x; where T is none
    []
        [
            List(0), Type(T, 1), List(1), Id(S, 2), NAMED, List(0), MEMBER_DECLARATOR, List(1), MEMBER, List(1),
            MEMBERS, List(1), STRUCT, List(1), Id(X, 3), NAMED, List(0), INIT_DECLARATOR, List(1), DECL,
            DECLARATION
        ]
        => Answer::NoType(T, 1), [];
    // int x = s.T; where T is a type
    [T]
        [
            INT, List(1), Id(X, 1), NAMED, Name(S, 2), Id(T, 3), FIELD, INIT, INITIALIZER, List(1),
            INIT_DECLARATOR, List(1), DECL, DECLARATION
        ]
        => Answer::Holds, [];
    // struct T x; where T is a type
    [T]
        [
            Id(T, 1), List(1), List(0), STRUCT, List(1), Id(X, 2), NAMED, List(0), INIT_DECLARATOR, List(1),
            DECL, DECLARATION
        ]
        => Answer::Holds, [(T, true)];
    // enum { T } x; where T is a type
    [T]
        [
            List(0), Id(T, 0), List(0), ENUMERATOR, List(1), ENUMERATORS, List(1), ENUM, List(1), Id(X, 2),
            NAMED, List(0), INIT_DECLARATOR, List(1), DECL, DECLARATION
        ]
        => Answer::Holds, [(T, false)];
    // enum { T = sizeof (T) } x; where T is a type before it
    [T]
        [
            List(0), Id(T, 0), Type(T, 1), List(1), ABSENT, TYPE_NAME, SIZEOF_TYPE, ENUMERATOR_VALUE, List(1),
            ENUMERATOR, List(1), ENUMERATORS, List(1), ENUM, List(1), Id(X, 2), NAMED, List(0), INIT_DECLARATOR,
            List(1), DECL, DECLARATION
        ]
        => Answer::Holds, [(T, false)];
};
