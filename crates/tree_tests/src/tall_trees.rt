//! What no clause says: that trees can be made, the highest too, and compared, copied and let go, any number of them.

use c_forms::{ExpForm, Form, GroupForm};
use c_tokens::{Element, Kind, Span, Word};
use c_trees::{Parts, Tree, is_same};
use checked_trees::{TreeStop, bindings, checked};
use sqlite_items::Items;
use std::alloc::Global;
use std::slice;
use std::test::Fail;

const HERE: Span = Span { start: 0, end: 1 };

fn leaf(alloc: Global, form: ExpForm) -> Result<Tree, TreeStop> {
    checked(alloc, Form::Exp(form), HERE, Parts::new())
}

/// `name[0][1][2]..`, as high as it is asked to be.
fn chain(alloc: Global, height: u32) -> Result<Tree, TreeStop> {
    let mut tree = leaf(alloc, ExpForm::Name(Word(0)))?;
    for number in 0..height {
        let at = leaf(alloc, ExpForm::Int(Word(number)))?;
        tree = checked(alloc, Form::Exp(ExpForm::Index), HERE, Parts::two(tree, at))?;
    }
    Ok(tree)
}

#[test]
fn highest_trees(rt: HostRuntime) -> Result<(), Fail> {
    let alloc = rt.alloc();
    let one = chain(alloc, 1000)?;
    let other = chain(alloc, 1000)?;
    let copy = one.copy()?;
    assert_eq!(rt; one.height(), 1000);
    assert_eq!(rt; one.size(), 2001);
    assert!(rt; is_same(&one, &other));
    assert!(rt; is_same(&one, &copy));
    assert!(rt; !is_same(&one, &chain(alloc, 999)?));
    assert!(rt; chain(alloc, 1001).is_err());
    Ok(())
}

/// A million nodes, of which only a thousand are there at a time.
#[test]
fn million_nodes(rt: HostRuntime) -> Result<(), Fail> {
    let alloc = rt.alloc();
    let mut total: u64 = 0;
    for _ in 0..1000 {
        total = total.saturating_add(chain(alloc, 500)?.size());
    }
    assert_eq!(rt; total, 1_001_000);
    Ok(())
}

fn binder(name: u32) -> Element {
    Element::Bind {
        kind: Kind::Exp,
        name: Word(name),
        span: HERE,
    }
}

#[test]
fn two_binders_in_three_rounds(rt: HostRuntime) -> Result<(), Fail> {
    let alloc = rt.alloc();
    let pattern = Element::Repeat {
        least: 0,
        sep: None,
        body: Items::from_vec(vec![in alloc; binder(0), binder(1)]?),
        span: HERE,
    };
    let mut rounds = Parts::new();
    for _ in 0..3 {
        let parts = Parts::two(chain(alloc, 0)?, chain(alloc, 1)?);
        let round = checked(alloc, Form::Group(GroupForm::Row), HERE, parts)?;
        rounds.push(alloc, round)?;
    }
    let part = checked(alloc, Form::Group(GroupForm::Rounds), HERE, rounds)?;
    let all = bindings(alloc, slice::from_ref(&pattern), slice::from_ref(&part))?;
    assert_eq!(rt; all.len(), 2);
    for (height, list) in all.as_slice().iter().enumerate() {
        assert_eq!(rt; list.parts().len(), 3);
        assert_eq!(rt; list.height() as usize, height);
    }
    Ok(())
}
