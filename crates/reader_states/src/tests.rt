//! What is known after events, as the rows of declarations and blocks bring them.

use crate::Attempt;
use c_forms::Event;
use c_forms::Event::*;
use c_tokens::{Class, Shape, Word};
use scope_tables::{ScopeTable, WordClass};
use std::test::Fail;

#[derive(Clone, Copy)]
enum Step {
    Happens(Event),
    /// the declarator's name
    Named(u32),
}

use Step::{Happens, Named};

/// What is known after some steps.
#[derive(Clone, Copy)]
struct Case {
    steps: &'static [Step],
    /// whether each of the three words is a type
    types: [bool; 3],
    is_late: bool,
}

const T: u32 = 0;

const F: u32 = 1;
/// it is a type before the first step
const X: u32 = 2;

/// The steps of the C text above each case.
static CASES: &[Case] = &[
    // typedef int T;
    Case {
        steps: &[
            Happens(Typedef),
            Happens(Typed),
            Named(T),
            Happens(Declare),
            Happens(Begin),
        ],
        types: [true, false, true],
        is_late: false,
    },
    // int T, X; where X is no type any more
    Case {
        steps: &[
            Happens(Typed),
            Named(T),
            Happens(Declare),
            Named(X),
            Happens(Declare),
            Happens(Begin),
        ],
        types: [false, false, false],
        is_late: false,
    },
    // int: no type may follow
    Case {
        steps: &[Happens(Typed)],
        types: [false, false, false],
        is_late: false,
    },
    // int T[sizeof( where types may stand again
    Case {
        steps: &[Happens(Typed), Named(T), Happens(Aside)],
        types: [false, false, true],
        is_late: false,
    },
    // int F(int X) { return
    Case {
        steps: &[
            Happens(Typed),
            Named(F),
            Happens(Aside),
            Happens(Enter),
            Happens(Typed),
            Named(X),
            Happens(DeclareValue),
            Happens(Begin),
            Happens(Close),
            Happens(Open),
            Happens(Enter),
            Happens(Statements),
        ],
        types: [false, false, false],
        is_late: true,
    },
    // int F(int X); leaves X a type
    Case {
        steps: &[
            Happens(Typed),
            Named(F),
            Happens(Aside),
            Happens(Enter),
            Happens(Typed),
            Named(X),
            Happens(DeclareValue),
            Happens(Begin),
            Happens(Close),
            Happens(Declare),
            Happens(Begin),
        ],
        types: [false, false, true],
        is_late: false,
    },
    // int F(int X) { ; } leaves X a type
    Case {
        steps: &[
            Happens(Typed),
            Named(F),
            Happens(Aside),
            Happens(Enter),
            Happens(Typed),
            Named(X),
            Happens(DeclareValue),
            Happens(Begin),
            Happens(Close),
            Happens(Open),
            Happens(Enter),
            Happens(Statements),
            Happens(Leave),
            Happens(Shut),
        ],
        types: [false, false, true],
        is_late: false,
    },
    // ; { typedef int T; int X; in a block after a statement
    Case {
        steps: &[
            Happens(Statements),
            Happens(Enter),
            Happens(Typedef),
            Happens(Typed),
            Named(T),
            Happens(Declare),
            Happens(Begin),
            Happens(Typed),
            Named(X),
            Happens(Declare),
            Happens(Begin),
        ],
        types: [true, false, false],
        is_late: false,
    },
    // ; { typedef int T; } in a block after a statement
    Case {
        steps: &[
            Happens(Statements),
            Happens(Enter),
            Happens(Typedef),
            Happens(Typed),
            Named(T),
            Happens(Declare),
            Happens(Begin),
            Happens(Leave),
        ],
        types: [false, false, true],
        is_late: true,
    },
    // the end of more scopes than were entered
    Case {
        steps: &[Happens(Leave), Happens(Leave), Happens(Resume)],
        types: [false, false, false],
        is_late: false,
    },
];

#[test]
fn events_change_what_is_known_and_are_taken_back(rt: HostRuntime) -> Result<(), Fail> {
    for case in CASES {
        let mut table = ScopeTable::new(rt.alloc());
        table.declare(Word(X), true)?;
        let mut attempt = Attempt::begin(rt.alloc(), table);
        for step in case.steps {
            match *step {
                Happens(event) => attempt.happens(event)?,
                Named(word) => attempt.note(Shape::Word(Word(word))),
            }
        }
        for (word, is_type) in (0..).zip(case.types) {
            let class = attempt.class(Shape::Word(Word(word)));
            assert_eq!(rt; class != Class::Word.number(), is_type);
        }
        assert_eq!(rt; attempt.is_late(), case.is_late);
        let table = attempt.take_back();
        assert_eq!(rt; table.steps(), 1);
        assert_eq!(rt; table.class(Word(X)), WordClass::TypeName);
    }
    Ok(())
}
