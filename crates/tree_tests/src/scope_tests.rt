//! The scopes on whole external declarations.

use crate::walk::first_other;
use crate::{block_walks, declaration_walks, function_walks};
use std::test::Fail;

#[test]
fn walks(rt: HostRuntime) -> Result<(), Fail> {
    let alloc = rt.alloc();
    assert_eq!(rt; first_other(alloc, declaration_walks::DECLARATIONS)?, None);
    assert_eq!(rt; first_other(alloc, declaration_walks::STRUCTURES)?, None);
    assert_eq!(rt; first_other(alloc, block_walks::BLOCKS)?, None);
    assert_eq!(rt; first_other(alloc, function_walks::PARAMETERS)?, None);
    assert_eq!(rt; first_other(alloc, function_walks::FUNCTIONS)?, None);
    assert_eq!(rt; first_other(alloc, function_walks::MACROS)?, None);
    Ok(())
}
