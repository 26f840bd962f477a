//! Each table of trees.

use crate::checks::{first_not_refused, first_wrong};
use crate::nodes::PRE_INC;
use crate::{
    broken_tables, declarator_tables, expression_tables, macro_tables, meta_tables,
    specifier_tables, statement_tables,
};
use c_forms::{ExpForm, Form};
use c_tokens::{Span, Word};
use c_trees::{Parts, Tree};
use checked_trees::{TreeStop, checked};
use std::alloc::Global;
use std::test::Fail;

#[test]
fn trees_of_c(rt: HostRuntime) -> Result<(), Fail> {
    let alloc = rt.alloc();
    assert_eq!(rt; first_wrong(alloc, expression_tables::OPERANDS), Ok(None));
    assert_eq!(rt; first_wrong(alloc, expression_tables::OPERATIONS), Ok(None));
    assert_eq!(rt; first_wrong(alloc, specifier_tables::SPECIFIERS), Ok(None));
    assert_eq!(rt;
        first_wrong(alloc, declarator_tables::DECLARATORS),
        Ok(None)
    );
    assert_eq!(rt; first_wrong(alloc, statement_tables::STATEMENTS), Ok(None));
    assert_eq!(rt; first_wrong(alloc, statement_tables::JUMPS), Ok(None));
    assert_eq!(rt; first_wrong(alloc, statement_tables::ITEMS), Ok(None));
    Ok(())
}

#[test]
fn trees_of_the_macro_notation(rt: HostRuntime) -> Result<(), Fail> {
    let alloc = rt.alloc();
    assert_eq!(rt; first_wrong(alloc, macro_tables::CALLS), Ok(None));
    assert_eq!(rt; first_wrong(alloc, macro_tables::CARRIED), Ok(None));
    assert_eq!(rt; first_wrong(alloc, macro_tables::DEFINITIONS), Ok(None));
    assert_eq!(rt; first_wrong(alloc, macro_tables::PATTERNS), Ok(None));
    assert_eq!(rt; first_wrong(alloc, meta_tables::META_EXPRESSIONS), Ok(None));
    assert_eq!(rt; first_wrong(alloc, meta_tables::TEMPLATES), Ok(None));
    assert_eq!(rt; first_wrong(alloc, meta_tables::LIST_TEMPLATES), Ok(None));
    assert_eq!(rt; first_wrong(alloc, meta_tables::META_STATEMENTS), Ok(None));
    Ok(())
}

#[test]
fn broken_rules(rt: HostRuntime) -> Result<(), Fail> {
    let alloc = rt.alloc();
    assert_eq!(rt; first_not_refused(alloc, broken_tables::WRONG_PARTS), None);
    assert_eq!(rt; first_not_refused(alloc, broken_tables::MISPLACED), None);
    assert_eq!(rt;
        first_not_refused(alloc, broken_tables::BROKEN_DECLARATIONS),
        None
    );
    assert_eq!(rt;
        first_not_refused(alloc, broken_tables::BROKEN_STATEMENTS),
        None
    );
    assert_eq!(rt;
        first_not_refused(alloc, broken_tables::BROKEN_DEFINITIONS),
        None
    );
    Ok(())
}

/// `++` so many times before a word.
fn tower(alloc: Global, floors: u32) -> Result<Tree, TreeStop> {
    let span = Span { start: 0, end: 1 };
    let word = Form::Exp(ExpForm::Name(Word(1)));
    let mut tree = checked(alloc, word, span, Parts::new())?;
    for _ in 0..floors {
        tree = checked(alloc, PRE_INC.order().form, span, Parts::one(tree))?;
    }
    Ok(tree)
}

#[test]
fn the_greatest_height(rt: HostRuntime) -> Result<(), Fail> {
    let alloc = rt.alloc();
    match tower(alloc, 1_000) {
        Ok(tree) => assert_eq!(rt; (tree.height(), tree.size()), (1_000, 1_001)),
        Err(stop) => assert_eq!(rt; Some(stop), None),
    }
    assert_eq!(rt; tower(alloc, 1_001).err(), Some(TreeStop::Tall));
    Ok(())
}
