//! Trees of which it is known where they may stand.

ghost use Rattle.std.specs.Prelude.{◌≡◌, true, false, nat_lt, IfOk, IfErr};
ghost use Rattle.c_forms.specs.Measures.{level};
ghost use Rattle.c_forms.specs.Opens.{ends_open};
ghost use Rattle.c_forms.specs.Places.{stands};
ghost use Rattle.c_forms.specs.declared.pieces.Sort.TheVariants as sort;

use c_forms::Sort;
use c_trees::{Tree, ends_open};
use form_places::stands;
use form_rows::level;
use std::marker::Model;

/// An expression, or what stands for one.
#[derive(Drop)]
pub struct Exp {
    tree: Tree,
}

impl Model for Exp {
    ghost use Rattle.std.specs.Prelude.{◌≡◌, true};
    ghost use Rattle.c_forms.specs.Forests.{Plain, plain_code};
    ghost use Rattle.c_forms.specs.Places.{stands};
    ghost use Rattle.c_forms.specs.declared.pieces.Sort.TheVariants as sort;

    ghost Value = { Plain };

    ghost coded = { plain_code };

    ghost view = { λ a. a.tree };

    ghost invariant = { λ a. stands a.tree.form sort.Exp ≡ true };
}

impl Exp {
    /// The tree as an expression. One that may not stand as an expression is given back.
    pub fn from_tree(tree: Tree) -> Result<Exp, Tree>
        ensures ok { IfOk result (λ exp. exp ≡ tree) }
        ensures stands { IfOk result (λ exp. stands tree.form sort.Exp ≡ true) }
        ensures back { IfErr result (λ back. back ≡ tree) }
        ensures not_so { IfErr result (λ back. stands tree.form sort.Exp ≡ false) }
    {
        if stands(tree.form(), Sort::Exp) {
            Ok(Exp { tree })
        } else {
            Err(tree)
        }
    }

    pub fn tree(&self) -> &Tree
        ensures value { result.now ≡ self.now }
        ensures stands { stands self.now.form sort.Exp ≡ true }
    {
        &self.tree
    }

    pub fn into_tree(self) -> Tree
        ensures value { result ≡ self }
        ensures stands { stands self.form sort.Exp ≡ true }
    {
        let Exp { tree } = self;
        tree
    }

    /// How tightly it holds together, from 1 to 17 (6.3).
    pub fn level(&self) -> u8
        ensures { result ≡ level self.now.form }
    {
        level(self.tree.form())
    }

    /// Whether it stands in parentheses where a level or a higher one is due.
    pub fn needs_parens(&self, place: u8) -> bool
        ensures { result ≡ nat_lt (level self.now.form) place }
    {
        self.level() < place
    }
}

/// A statement, or what stands for one.
#[derive(Drop)]
pub struct Stmt {
    tree: Tree,
}

impl Model for Stmt {
    ghost use Rattle.std.specs.Prelude.{◌≡◌, true};
    ghost use Rattle.c_forms.specs.Forests.{Plain, plain_code};
    ghost use Rattle.c_forms.specs.Places.{stands};
    ghost use Rattle.c_forms.specs.declared.pieces.Sort.TheVariants as sort;

    ghost Value = { Plain };

    ghost coded = { plain_code };

    ghost view = { λ a. a.tree };

    ghost invariant = { λ a. stands a.tree.form sort.Stmt ≡ true };
}

impl Stmt {
    /// The tree as a statement. One that may not stand as a statement is given back.
    pub fn from_tree(tree: Tree) -> Result<Stmt, Tree>
        ensures ok { IfOk result (λ stmt. stmt ≡ tree) }
        ensures stands { IfOk result (λ stmt. stands tree.form sort.Stmt ≡ true) }
        ensures back { IfErr result (λ back. back ≡ tree) }
        ensures not_so { IfErr result (λ back. stands tree.form sort.Stmt ≡ false) }
    {
        if stands(tree.form(), Sort::Stmt) {
            Ok(Stmt { tree })
        } else {
            Err(tree)
        }
    }

    pub fn tree(&self) -> &Tree
        ensures value { result.now ≡ self.now }
        ensures stands { stands self.now.form sort.Stmt ≡ true }
    {
        &self.tree
    }

    pub fn into_tree(self) -> Tree
        ensures value { result ≡ self }
        ensures stands { stands self.form sort.Stmt ≡ true }
    {
        let Stmt { tree } = self;
        tree
    }

    /// Whether it ends open: an `else` after it would belong to a part of it (6.6.4.1).
    pub fn ends_open(&self) -> bool
        ensures { result ≡ ends_open self.now }
    {
        ends_open(&self.tree)
    }
}

/// An external declaration, a definition of the macro notation, or what stands for one.
#[derive(Drop)]
pub struct Item {
    tree: Tree,
}

impl Model for Item {
    ghost use Rattle.std.specs.Prelude.{◌≡◌, true};
    ghost use Rattle.c_forms.specs.Forests.{Plain, plain_code};
    ghost use Rattle.c_forms.specs.Places.{stands};
    ghost use Rattle.c_forms.specs.declared.pieces.Sort.TheVariants as sort;

    ghost Value = { Plain };

    ghost coded = { plain_code };

    ghost view = { λ a. a.tree };

    ghost invariant = { λ a. stands a.tree.form sort.Item ≡ true };
}

impl Item {
    /// The tree as an item. One that may not stand as an item is given back.
    pub fn from_tree(tree: Tree) -> Result<Item, Tree>
        ensures ok { IfOk result (λ item. item ≡ tree) }
        ensures stands { IfOk result (λ item. stands tree.form sort.Item ≡ true) }
        ensures back { IfErr result (λ back. back ≡ tree) }
        ensures not_so { IfErr result (λ back. stands tree.form sort.Item ≡ false) }
    {
        if stands(tree.form(), Sort::Item) {
            Ok(Item { tree })
        } else {
            Err(tree)
        }
    }

    pub fn tree(&self) -> &Tree
        ensures value { result.now ≡ self.now }
        ensures stands { stands self.now.form sort.Item ≡ true }
    {
        &self.tree
    }

    pub fn into_tree(self) -> Tree
        ensures value { result ≡ self }
        ensures stands { stands self.form sort.Item ≡ true }
    {
        let Item { tree } = self;
        tree
    }
}
