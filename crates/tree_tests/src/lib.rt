//! Tests of the syntax trees and of the scopes, over trees that tables tell.
#![tactic(auto)]

pub use c_trees::Tree;
pub use scopes::Scopes;

#[cfg(test)]
mod block_walks;
#[cfg(test)]
mod broken_tables;
#[cfg(test)]
mod build;
#[cfg(test)]
mod checks;
#[cfg(test)]
mod declaration_walks;
#[cfg(test)]
mod declarator_tables;
#[cfg(test)]
mod expression_tables;
#[cfg(test)]
mod function_walks;
#[cfg(test)]
mod leaves;
#[cfg(test)]
mod macro_tables;
#[cfg(test)]
mod meta_tables;
#[cfg(test)]
mod nodes;
#[cfg(test)]
mod scope_tests;
#[cfg(test)]
mod specifier_tables;
#[cfg(test)]
mod statement_tables;
#[cfg(test)]
mod step;
#[cfg(test)]
mod tall_trees;
#[cfg(test)]
mod tests;
#[cfg(test)]
mod walk;
