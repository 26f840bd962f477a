//! Fresh and given names.

use crate::{NameStop, Names, is_name};
use c_tokens::{Word, Words};
use std::test::Fail;

#[test]
fn texts_that_are_names(rt: HostRuntime) -> Result<(), Fail> {
    assert!(rt; is_name(b"a"));
    assert!(rt; is_name(b"_9"));
    assert!(rt; is_name(b"whiles"));
    assert!(rt; !is_name(b""));
    assert!(rt; !is_name(b"9a"));
    assert!(rt; !is_name(b"a b"));
    assert!(rt; !is_name(b"while"));
    let longest = vec![in rt.alloc(); b'a'; 1023]?;
    assert!(rt; is_name(&longest));
    let too_long = vec![in rt.alloc(); b'a'; 1024]?;
    assert!(rt; !is_name(&too_long));
    Ok(())
}

#[test]
fn the_least_number_that_is_free(rt: HostRuntime) -> Result<(), Fail> {
    let mut words = Words::new(rt.alloc());
    words.number(b"t_0")?;
    let mut names = Names::of(rt.alloc(), words);
    assert!(rt; names.words().len() < 9);
    let first = names.fresh(b"t");
    assert!(rt; first.is_ok());
    assert!(rt; names.words().find(b"t_1").is_some());
    assert!(rt; names.words().len() < 9);
    assert_eq!(rt; names.fresh(b"9"), Err(NameStop::BadName));
    assert!(rt; names.words().len() < 9);
    assert!(rt; names.fresh(b"t").is_ok());
    assert!(rt; names.words().find(b"t_2").is_some());
    assert!(rt; names.words().find(b"t_3").is_none());
    let words = names.into_words();
    assert!(rt; words.len() < 9);
    Ok(())
}

#[test]
fn a_fresh_name_is_given_once(rt: HostRuntime) -> Result<(), Fail> {
    let mut names = Names::of(rt.alloc(), Words::new(rt.alloc()));
    assert!(rt; names.words().len() < 9);
    assert!(rt; names.fresh(b"t").is_ok());
    assert!(rt; names.words().len() < 9);
    assert_eq!(rt; names.make(b"t_0"), Err(NameStop::Taken));
    assert!(rt; names.words().len() < 9);
    assert_eq!(rt; names.make(b"do"), Err(NameStop::BadName));
    assert!(rt; names.words().len() < 9);
    assert!(rt; names.make(b"t_1").is_ok());
    Ok(())
}

#[test]
fn constants_are_no_names(rt: HostRuntime) -> Result<(), Fail> {
    let mut words = Words::new(rt.alloc());
    words.number(b"a")?;
    assert!(rt; words.len() < 9);
    let mut names = Names::of(rt.alloc(), words);
    assert_eq!(rt; names.constant(b"10")?, Word(1));
    assert!(rt; names.words().len() < 9);
    assert_eq!(rt; names.constant(b"\"a\"")?, Word(2));
    assert!(rt; names.words().len() < 9);
    assert_eq!(rt; names.constant(b"10")?, Word(1));
    assert_eq!(rt; names.words().len(), 3);
    Ok(())
}

#[test]
fn joined_names(rt: HostRuntime) -> Result<(), Fail> {
    let mut words = Words::new(rt.alloc());
    let a = words.number(b"a")?;
    assert!(rt; (a.0 as usize) < words.len());
    assert!(rt; words.len() < 9);
    let mut names = Names::of(rt.alloc(), words);
    let ending = vec![in rt.alloc(); b'b'; 1023]?;
    assert_eq!(rt; names.join(a, &ending), Err(NameStop::BadName));
    assert!(rt; names.words().len() < 9);
    assert!(rt; (a.0 as usize) < names.words().len());
    assert_eq!(rt; names.join(a, b""), Ok(a));
    assert!(rt; names.words().len() < 9);
    assert!(rt; (a.0 as usize) < names.words().len());
    assert!(rt; names.join(a, b"_text").is_ok());
    assert!(rt; names.words().find(b"a_text").is_some());
    Ok(())
}
