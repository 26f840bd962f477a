//! What is read: drafts of trees, and how high they are as they are spelled.

ghost use Rattle.std.specs.Prelude.{◌≡◌, ◌≢◌, ◌<◌, ◌≤◌, ◌^◌, ◌+◌, ◌-◌, ◌∷◌, [], max, IfOk, IfErr, OnOk, true, false};
ghost use Rattle.c_reader.specs.declared.refusal.Refusal.TheVariants as refusal;
ghost use Rattle.c_syntax.specs.Grammar as grammar;
ghost use Rattle.c_syntax.specs.Reading as reading;
ghost use Rattle.table_parser.specs.Founds.{is_none};

use c_forms::{DeclaratorForm, Form, GroupForm};
use c_reader::Refusal;
use c_tokens::Span;
use draft_trees::{Draft, Drafts};
use form_decisions::is_starred;
use std::alloc::Global;
use std::marker::Model;

/// A tree, and its height as it is spelled: each pair of parentheses that is added counts one.
#[derive(Drop)]
pub struct Found {
    tree: Draft,
    height: usize,
}

impl Model for Found {
    ghost use Rattle.c_reader.specs.Readers as readers;
    ghost use Rattle.table_parser.specs.Codes.{found_code};

    ghost Value = { readers.Found };

    ghost coded = { found_code };

    ghost view = { λ f. record { tree = f.tree; height = f.height } };
}

impl Found {
    /// The node of one token, of a form that does not count for the height.
    pub fn leaf(form: Form, place: usize) -> Found
        requires place { place < 2 ^ 32 - 1 }
        requires low { reading.is_starred form ≡ false }
        ensures { result ≡ reading.node form place (place + 1) reading.nothing }
    {
        Found {
            tree: Draft::leaf(form, spanned(place, place + 1)),
            height: 0,
        }
    }

    /// A declarator that is absent, before a place (ISO/IEC 9899:1990, 6.5.5).
    pub fn absent(place: usize) -> Found
        requires place { place < 2 ^ 32 - 1 }
        ensures { result ≡ grammar.absent_at place }
    {
        Found {
            tree: Draft::leaf(
                Form::Declarator(DeclaratorForm::Absent),
                spanned(place, place),
            ),
            height: 0,
        }
    }

    /// Whether it is a declarator that is absent.
    pub fn is_absent(&self) -> bool
        ensures { result ≡ reading.is_absent self.now.tree }
    {
        match self.form() {
            Form::Declarator(form) => match form {
                DeclaratorForm::Absent => true,
                _ => false,
            },
            _ => false,
        }
    }

    pub fn into_draft(self) -> Draft
        ensures { result ≡ self.tree }
    {
        self.tree
    }

    pub fn height(&self) -> usize
        ensures { result ≡ self.now.height }
    {
        self.height
    }

    /// The form of its node.
    pub fn form(&self) -> Form
        ensures { result ≡ self.now.tree.form }
    {
        self.tree.form()
    }

    /// As a part of a node that counts for the height.
    pub fn deeper(self) -> Found
        requires { self.height < 2 ^ 32 }
        ensures { result ≡ reading.deeper self }
    {
        Found {
            tree: self.tree,
            height: self.height + 1,
        }
    }
}

/// Trees side by side, and the height that they have as parts.
#[derive(Drop)]
pub struct Listed {
    trees: Drafts,
    height: usize,
}

impl Model for Listed {
    ghost use Rattle.c_syntax.specs.Reading as reading;
    ghost use Rattle.table_parser.specs.Codes.{listed_code};

    ghost Value = { reading.Listed };

    ghost coded = { listed_code };

    ghost view = { λ g. record { trees = g.trees; height = g.height } };
}

impl Listed {
    /// No trees.
    pub fn nothing() -> Listed
        ensures { result ≡ reading.nothing }
    {
        Listed {
            trees: Drafts::new(),
            height: 0,
        }
    }

    pub fn one(found: Found) -> Listed
        ensures { result ≡ reading.one found }
    {
        Listed {
            trees: Drafts::one(found.tree),
            height: found.height,
        }
    }

    /// And one more after them.
    pub fn push(&mut self, alloc: Global, found: Found) -> Result<(), Refusal>
        ensures pushed { OnOk result (self.new ≡ reading.joined self.old (reading.one found)) }
        ensures refused { IfErr result (λ e. e ≡ refusal.Memory) }
    {
        match self.trees.push(alloc, found.tree) {
            Ok(()) => {
                self.height = self.height.max(found.height);
                Ok(())
            }
            Err(_) => Err(Refusal::Memory),
        }
    }
}

/// The elements of a list so far, and the place after the last.
#[derive(Drop)]
pub struct Gathered {
    trees: Drafts,
    height: usize,
    last: usize,
    /// whether the separator was read after it, before an end
    is_ended: bool,
}

impl Model for Gathered {
    ghost use Rattle.c_syntax.specs.Reading as reading;
    ghost use Rattle.table_parser.specs.Codes.{gathered_code};

    ghost Value = { reading.Gathered };

    ghost coded = { gathered_code };

    ghost view = { λ g. record { trees = g.trees; height = g.height; last = g.last; is_ended = g.is_ended } };
}

impl Gathered {
    /// No elements, from a place on.
    pub fn none_at(place: usize) -> Gathered
        ensures { result ≡ reading.none_at place }
    {
        Gathered {
            trees: Drafts::new(),
            height: 0,
            last: place,
            is_ended: false,
        }
    }

    pub fn is_empty(&self) -> bool
        ensures { result ≡ is_none self.now.trees }
    {
        self.trees.is_empty()
    }

    pub fn is_ended(&self) -> bool
        ensures { result ≡ self.now.is_ended }
    {
        self.is_ended
    }

    /// The separator was read after the last element, before an end.
    pub fn mark_ended(&mut self)
        ensures { self.new ≡ reading.ended self.old }
    {
        self.is_ended = true;
    }

    /// And one more element, before a place.
    pub fn push(&mut self, alloc: Global, found: Found, place: usize) -> Result<(), Refusal>
        ensures pushed { OnOk result (self.new ≡ reading.with_last self.old found place) }
        ensures refused { IfErr result (λ e. e ≡ refusal.Memory) }
    {
        match self.trees.push(alloc, found.tree) {
            Ok(()) => {
                self.height = self.height.max(found.height);
                self.last = place;
                self.is_ended = false;
                Ok(())
            }
            Err(_) => Err(Refusal::Memory),
        }
    }

    /// The list of the elements, from a place on.
    pub fn list_from(self, alloc: Global, start: usize) -> Result<Found, Refusal>
        requires start { start < 2 ^ 32 }
        requires last { self.last < 2 ^ 32 }
        ensures list { IfOk result (λ found. found ≡ reading.list_from start self) }
        ensures refused { IfErr result (λ e. e ≡ refusal.Memory) }
    {
        match Draft::new(
            alloc,
            Form::Group(GroupForm::List),
            spanned(start, self.last),
            self.trees,
        ) {
            Ok(tree) => Ok(Found {
                tree,
                height: self.height,
            }),
            Err(_) => Err(Refusal::Memory),
        }
    }
}

/// The node of a form over parts, from a place to another.
pub fn node(
    alloc: Global,
    form: Form,
    start: usize,
    end: usize,
    parts: Listed,
) -> Result<Found, Refusal>
    requires start { start < 2 ^ 32 }
    requires end { end < 2 ^ 32 }
    ensures node { IfOk result (λ found. found ≡ reading.node form start end parts) }
    ensures refused { IfErr result (λ e. e ≡ refusal.Memory) }
{
    let height = if is_starred(form) {
        parts.height.max(1)
    } else {
        parts.height
    };
    match Draft::new(alloc, form, spanned(start, end), parts.trees) {
        Ok(tree) => Ok(Found { tree, height }),
        Err(_) => Err(Refusal::Memory),
    }
}

/// From a token to the one before another.
fn spanned(start: usize, end: usize) -> Span
    requires start { start < 2 ^ 32 }
    requires end { end < 2 ^ 32 }
    ensures { result ≡ reading.spanned start end }
{
    Span {
        start: start as u32,
        end: end as u32,
    }
}
