//! Trees that are shared.

ghost use Rattle.std.specs.Prelude.{◌≡◌, ◌+◌, ◌≤◌, ◌<◌, [], true, IfOk};
ghost use Rattle.c_forms.specs.Measures.{star};
ghost use Rattle.c_forms.specs.Forests.{empty, forest, node};
ghost use Rattle.c_trees.specs.Valid.{asks_for, valid, valid_tree};
ghost use Rattle.c_forms.specs.Measures.{pieces};
ghost use Rattle.c_forms.specs.Rules.{is_right};
ghost use Rattle.c_forms.specs.declared.forms.Form.TheVariants as a_form;
ghost use Rattle.c_forms.specs.declared.forms.GroupForm.TheVariants as a_group;
ghost use Rattle.c_trees.specs.Counts.{capped, count, count_tree, high, high_tree, pure, pure_tree};

use crate::parts::Parts;
use c_forms::{Form, GroupForm};
use c_tokens::{Memory, Span};
use form_rows::{is_plain, star, weight};
use std::alloc::Global;
use std::marker::Model;
use std::rc::Rc;

/// The greatest height of a tree.
pub const MAX_HEIGHT: u32 = 1000;

#[cycle(tree)]
#[derive(Drop)]
struct Node {
    form: Form,
    span: Span,
    parts: Parts,
    size: u64,
    height: u32,
    is_pure: bool,
}

#[cycle(tree)]
#[derive(Drop)]
enum Held {
    Leaf { form: Form, span: Span },
    Branch(Rc<Node>),
}

/// A tree. Its nodes are shared between its copies, and given back with the last of them.
/// A tree without parts takes no memory.
#[cycle(tree)]
#[derive(Drop)]
pub struct Tree {
    held: Held,
}

impl Model for Tree {
    ghost use Rattle.std.specs.Prelude.{◌≡◌, ◌≤◌};
    ghost use Rattle.c_forms.specs.Forests.{Plain, plain_code};

    ghost Value = { Plain };

    ghost coded = { plain_code };

    ghost use Rattle.c_trees.specs.Deep.{deep_whole};
    ghost use Rattle.c_trees.specs.Views.{plain, Keeps};

    ghost view = { λ a. plain a.held };

    ghost invariant = { λ a. Keeps a.held };

    ghost size = { deep_whole };

    ghost use Rattle.c_trees.specs.Falls.{falls};

    ghost size_decreases = { λ a h. falls a.held };
}

impl Tree {
    /// The form of its node.
    pub fn form(&self) -> Form
        ensures { result ≡ self.now.form }
    {
        match &self.held {
            Held::Leaf { form, .. } => *form,
            Held::Branch(node) => node.as_ref().form,
        }
    }

    pub fn span(&self) -> Span
        ensures { result ≡ self.now.span }
    {
        match &self.held {
            Held::Leaf { span, .. } => *span,
            Held::Branch(node) => node.as_ref().span,
        }
    }

    pub fn parts(&self) -> &[Tree]
        ensures { forest result.now ≡ self.now.parts }
    {
        match &self.held {
            Held::Leaf { .. } => &[],
            Held::Branch(node) => node.as_ref().parts.as_slice(),
        }
    }

    /// Its parts, where its form asks for a number of them, as in `let [left, right] = tree.exact_parts::<2>();`.
    pub fn exact_parts<const N: usize>(&self) -> &[Tree; N]
        requires { asks_for N (pieces self.now.form) ≡ true }
        ensures { forest result.now ≡ self.now.parts }
    {
        let _height = self.height();
        match self.parts().as_array() {
            Some(parts) => parts,
            None => unreachable!(),
        }
    }

    /// The number of its nodes, or 2^64 - 1 where there are more.
    pub fn size(&self) -> u64
        ensures { result ≡ capped (count_tree self.now) }
    {
        match &self.held {
            Held::Leaf { form, .. } => weight(*form) as u64,
            Held::Branch(node) => node.as_ref().size,
        }
    }

    /// The number of its starred nodes on the longest way down.
    pub fn height(&self) -> u32
        ensures value { result ≡ high_tree self.now }
        ensures low { result ≤ 1000 }
        ensures valid { valid_tree self.now ≡ true }
    {
        match &self.held {
            Held::Leaf { form, .. } => star(*form),
            Held::Branch(node) => node.as_ref().height,
        }
    }

    /// Whether it has neither a placeholder nor a call of a macro.
    pub fn is_pure(&self) -> bool
        ensures { result ≡ pure_tree self.now }
    {
        match &self.held {
            Held::Leaf { form, .. } => is_plain(*form),
            Held::Branch(node) => node.as_ref().is_pure,
        }
    }

    /// Whether no node in it breaks a rule: no other trees are made.
    pub fn is_valid(&self) -> bool
        ensures value { result ≡ valid_tree self.now }
        ensures always { result ≡ true }
    {
        self.height() <= MAX_HEIGHT
    }

    /// The same tree. It takes no memory, and fails only where it has as many owners as can be counted.
    pub fn copy(&self) -> Result<Tree, Memory>
        ensures { IfOk result (λ copy. copy ≡ self.now) }
    {
        match &self.held {
            Held::Leaf { form, span } => Ok(Tree {
                held: Held::Leaf {
                    form: *form,
                    span: *span,
                },
            }),
            Held::Branch(node) => match Rc::clone(node) {
                Ok(node) => Ok(Tree {
                    held: Held::Branch(node),
                }),
                Err(_) => Err(Memory),
            },
        }
    }

    /// A tree without parts. It takes no memory.
    pub fn leaf(form: Form, span: Span) -> Tree
        requires low { star form ≤ 1000 }
        requires right { is_right form empty ≡ true }
        ensures { result ≡ node form span [] }
    {
        Tree {
            held: Held::Leaf { form, span },
        }
    }

    /// A node over its parts.
    pub fn new(alloc: Global, form: Form, span: Span, parts: Parts) -> Result<Tree, Memory>
        requires low { star form + high (forest parts) ≤ 1000 }
        requires right { is_right form (forest parts) ≡ true }
        ensures { IfOk result (λ made. made ≡ node form span parts) }
    {
        let kept = together(parts.as_slice());
        Tree::over(alloc, form, span, parts, kept)
    }

    /// A list of trees, as high as the highest of them.
    pub fn list(alloc: Global, span: Span, parts: Parts) -> Result<Tree, Memory>
        ensures { IfOk result (λ made. made ≡ node (a_form.Group a_group.List) span parts) }
    {
        let kept = together(parts.as_slice());
        Tree::over(alloc, Form::Group(GroupForm::List), span, parts, kept)
    }

    /// A node over parts that keep this together.
    fn over(alloc: Global, form: Form, span: Span, parts: Parts, kept: Kept) -> Result<Tree, Memory>
        requires size { kept.size ≡ capped (count (forest parts)) }
        requires height { kept.height ≡ high (forest parts) }
        requires pure { kept.is_pure ≡ pure (forest parts) }
        requires valid { valid (forest parts) ≡ true }
        requires low { star form + high (forest parts) ≤ 1000 }
        requires right { is_right form (forest parts) ≡ true }
        ensures { IfOk result (λ made. made ≡ node form span parts) }
    {
        if parts.is_empty() {
            return Ok(Tree::leaf(form, span));
        }
        let node = Node {
            form,
            span,
            parts,
            size: kept.size.saturating_add(weight(form) as u64),
            height: kept.height + star(form),
            is_pure: kept.is_pure && is_plain(form),
        };
        match Rc::new(alloc, node) {
            Ok(node) => Ok(Tree {
                held: Held::Branch(node),
            }),
            Err(_) => Err(Memory),
        }
    }
}

/// The height of a node of a form over its parts.
pub fn height_over(form: Form, parts: &[Tree]) -> u32
    ensures { result ≡ star form + high (forest parts.now) }
{
    star(form) + together(parts).height
}

/// What trees side by side keep.
#[derive(Clone, Copy)]
struct Kept {
    size: u64,
    height: u32,
    is_pure: bool,
}

fn together(all: &[Tree]) -> Kept
    ensures size { result.size ≡ capped (count (forest all.now)) }
    ensures height { result.height ≡ high (forest all.now) }
    ensures low { result.height ≤ 1000 }
    ensures pure { result.is_pure ≡ pure (forest all.now) }
    ensures valid { valid (forest all.now) ≡ true }
{
    let mut size: u64 = 0;
    let mut height: u32 = 0;
    let mut is_pure = true;
    for one in all {
        size = size.saturating_add(one.size());
        height = height.max(one.height());
        is_pure = is_pure && one.is_pure();
    }
    Kept {
        size,
        height,
        is_pure,
    }
}
