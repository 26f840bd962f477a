//! Trees while they are read.

ghost use Rattle.std.specs.Prelude.{◌≡◌, [], IfOk};
ghost use Rattle.c_forms.specs.Forests.{forest, node};

use crate::drafts::Drafts;
use c_forms::Form;
use c_tokens::{Memory, Span};
use std::alloc::Global;
use std::boxed::Box;
use std::marker::Model;

#[cycle(draft)]
#[derive(Drop)]
struct Node {
    form: Form,
    span: Span,
    parts: Drafts,
}

#[cycle(draft)]
#[derive(Drop)]
enum Held {
    Leaf { form: Form, span: Span },
    Branch(Box<Node>),
}

/// A tree of which nothing is known but what it is: neither that it is valid nor how high it is.
/// Its spans count tokens. A draft without parts takes no memory.
#[cycle(draft)]
#[derive(Drop)]
pub struct Draft {
    held: Held,
}

impl Model for Draft {
    ghost use Rattle.c_forms.specs.Forests.{Plain, plain_code};

    ghost Value = { Plain };

    ghost coded = { plain_code };

    ghost use Rattle.c_trees.specs.Deep.{deep_whole};
    ghost use Rattle.draft_trees.specs.Views.{plain};

    ghost view = { λ a. plain a.held };

    ghost size = { deep_whole };

    ghost use Rattle.draft_trees.specs.Falls.{falls};

    ghost size_decreases = { λ a h. falls a.held };
}

impl Draft {
    /// The form of its node.
    pub fn form(&self) -> Form
        ensures { result ≡ self.now.form }
    {
        match &self.held {
            Held::Leaf { form, .. } => *form,
            Held::Branch(node) => node.form,
        }
    }

    pub fn span(&self) -> Span
        ensures { result ≡ self.now.span }
    {
        match &self.held {
            Held::Leaf { span, .. } => *span,
            Held::Branch(node) => node.span,
        }
    }

    pub fn parts(&self) -> &[Draft]
        ensures { forest result.now ≡ self.now.parts }
    {
        match &self.held {
            Held::Leaf { .. } => &[],
            Held::Branch(node) => node.parts.as_slice(),
        }
    }

    /// A draft without parts. It takes no memory.
    pub fn leaf(form: Form, span: Span) -> Draft
        ensures { result ≡ node form span [] }
    {
        Draft {
            held: Held::Leaf { form, span },
        }
    }

    /// A node over its parts.
    pub fn new(alloc: Global, form: Form, span: Span, parts: Drafts) -> Result<Draft, Memory>
        ensures { IfOk result (λ made. made ≡ node form span parts) }
    {
        if parts.is_empty() {
            return Ok(Draft::leaf(form, span));
        }
        match Box::new(alloc, Node { form, span, parts }) {
            Ok(node) => Ok(Draft {
                held: Held::Branch(node),
            }),
            Err(_) => Err(Memory),
        }
    }
}
