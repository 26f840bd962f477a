//! Specifiers, members and enumerators.

use crate::checks::{Row, rows};
use crate::leaves::*;
use crate::nodes::*;
use crate::step::Step::{Call, Hole, List};
use c_tokens::Kind;

/// Specifiers, members and enumerators (6.5.1 to 6.5.3).
pub static SPECIFIERS: &[Row] = rows! {
    [TYPEDEF] 1 0 true false;
    [EXTERN] 1 0 true false;
    [STATIC] 1 0 true false;
    [AUTO] 1 0 true false;
    [REGISTER] 1 0 true false;
    [CONST] 1 0 true false;
    [VOLATILE] 1 0 true false;
    [VOID] 1 0 true false;
    [CHAR] 1 0 true false;
    [SHORT] 1 0 true false;
    [INT] 1 0 true false;
    [LONG] 1 0 true false;
    [FLOAT] 1 0 true false;
    [DOUBLE] 1 0 true false;
    [SIGNED] 1 0 true false;
    [UNSIGNED] 1 0 true false;
    [T] 1 0 true false;
    [U] 1 0 true false;
    [
        TAG, List(1), INT, List(1), X, NAMED, List(0), MEMBER_DECLARATOR, List(1), MEMBER, List(1), MEMBERS, List(1),
        STRUCT
    ] 4 1 true false;
    [
        TAG, List(1), INT, List(1), X, NAMED, List(0), MEMBER_DECLARATOR, List(1), MEMBER, List(1), MEMBERS, List(1),
        UNION
    ] 4 1 true false;
    [
        TAG_2, List(1), INT, List(1), X, NAMED, List(0), MEMBER_DECLARATOR, List(1), MEMBER, List(1), MEMBERS,
        List(1), STRUCT
    ] 4 1 true false;
    [
        TAG, List(1), INT, List(1), Y, NAMED, List(0), MEMBER_DECLARATOR, List(1), MEMBER, List(1), MEMBERS, List(1),
        STRUCT
    ] 4 1 true false;
    [
        List(0), INT, List(1), X, NAMED, List(0), MEMBER_DECLARATOR, List(1), MEMBER, List(1), MEMBERS, List(1),
        STRUCT
    ] 4 1 true false;
    [
        TAG, List(1), INT, List(1), X, NAMED, List(0), MEMBER_DECLARATOR, List(1), MEMBER, INT, List(1), Y, NAMED,
        List(0), MEMBER_DECLARATOR, List(1), MEMBER, List(2), MEMBERS, List(1), STRUCT
    ] 7 1 true false;
    [TAG, List(1), List(0), STRUCT] 1 1 true false;
    [TAG, List(1), List(0), UNION] 1 1 true false;
    [TAG_2, List(1), List(0), STRUCT] 1 1 true false;
    [Hole(Kind::Id, false, 1), List(1), List(0), STRUCT] 2 2 false false;
    [
        TAG, List(1), X, List(0), ENUMERATOR, Y, List(0), ENUMERATOR, List(2), ENUMERATORS, List(1), ENUM
    ] 3 1 true false;
    [
        TAG_2, List(1), X, List(0), ENUMERATOR, Y, List(0), ENUMERATOR, List(2), ENUMERATORS, List(1), ENUM
    ] 3 1 true false;
    [
        TAG, List(1), Y, List(0), ENUMERATOR, X, List(0), ENUMERATOR, List(2), ENUMERATORS, List(1), ENUM
    ] 3 1 true false;
    [List(0), X, List(0), ENUMERATOR, List(1), ENUMERATORS, List(1), ENUM] 2 1 true false;
    [TAG, List(1), List(0), ENUM] 1 1 true false;
    [TAG_2, List(1), List(0), ENUM] 1 1 true false;
    [Hole(Kind::Id, false, 1), List(1), List(0), ENUM] 2 2 false false;
    [Hole(Kind::Spec, false, 1)] 1 1 false false;
    [Hole(Kind::Spec, false, 2)] 1 1 false false;
    [Hole(Kind::Spec, true, 1)] 1 1 false false;
    [A, Call(1, Kind::Spec, false, false, 1)] 2 1 false false;
    [A, Call(3, Kind::Spec, false, false, 1)] 2 1 false false;
    [C, Call(1, Kind::Spec, false, false, 1)] 2 1 false false;
    [List(0)] 0 0 true true;
    [UNSIGNED, List(1)] 1 0 true false;
    [UNSIGNED, LONG, List(2)] 2 0 true false;
    [CONST, T, List(2)] 2 0 true false;
    [VOLATILE, T, List(2)] 2 0 true false;
    [CONST, U, List(2)] 2 0 true false;
    [T, CONST, List(2)] 2 0 true false;
    [TAG, List(1), List(0), STRUCT, List(1)] 1 1 true false;
    [X, NAMED, A, WIDTH, List(1), MEMBER_DECLARATOR] 2 0 true false;
    [Y, NAMED, A, WIDTH, List(1), MEMBER_DECLARATOR] 2 0 true false;
    [X, NAMED, B, WIDTH, List(1), MEMBER_DECLARATOR] 2 0 true false;
    [ABSENT, A, WIDTH, List(1), MEMBER_DECLARATOR] 2 0 true false;
    [X, NAMED, List(0), MEMBER_DECLARATOR] 1 0 true false;
    [T, List(1), X, NAMED, List(0), MEMBER_DECLARATOR, List(1), MEMBER] 3 0 true false;
    [U, List(1), X, NAMED, List(0), MEMBER_DECLARATOR, List(1), MEMBER] 3 0 true false;
    [T, List(1), Y, NAMED, List(0), MEMBER_DECLARATOR, List(1), MEMBER] 3 0 true false;
    [
        T, List(1), X, NAMED, List(0), MEMBER_DECLARATOR, Y, NAMED, List(0), MEMBER_DECLARATOR, List(2), MEMBER
    ] 4 0 true false;
    [Hole(Kind::Member, false, 1)] 1 1 false false;
    [Hole(Kind::Member, false, 2)] 1 1 false false;
    [X, List(0), ENUMERATOR] 1 0 true false;
    [Y, List(0), ENUMERATOR] 1 0 true false;
    [X, A, ENUMERATOR_VALUE, List(1), ENUMERATOR] 2 0 true false;
    [X, B, ENUMERATOR_VALUE, List(1), ENUMERATOR] 2 0 true false;
    [Y, A, ENUMERATOR_VALUE, List(1), ENUMERATOR] 2 0 true false;
    [Hole(Kind::Id, false, 1), List(0), ENUMERATOR] 2 1 false false;
};
