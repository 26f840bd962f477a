//! Trees as tables tell them: a list of steps in postfix order, each of which takes its parts from a stack
//! and puts its tree there.

use c_forms::{
    AssignmentOperator, BinaryOperator, ExpForm, Form, GroupForm, HoleForm, MetaExpForm,
    MetaUnaryOperator, SpecForm, TemplateForm, UnaryOperator,
};
use c_tokens::{Base, Kind, MacroNo, MetaType, Word};

/// One step.
#[derive(Clone, Copy)]
pub enum Step {
    /// An expression that is a word, and its place.
    Name(u32, u32),
    /// A typedef name, and its place.
    Type(u32, u32),
    /// An identifier that is a part, and its place.
    Id(u32, u32),
    /// A placeholder for a variable: its kind, whether it stands for a list, and its word.
    Hole(Kind, bool, u32),
    /// A call of the macro with a number, which gives a tree of a kind or a list of them and whose pattern ends in a
    /// statement or not, over so many arguments.
    Call(u32, Kind, bool, bool, usize),
    /// A list of so many trees.
    List(usize),
    Rounds(usize),
    Unary(UnaryOperator),
    Binary(BinaryOperator),
    Assign(AssignmentOperator),
    MetaUnary(MetaUnaryOperator),
    MetaBinary(BinaryOperator),
    /// A template of one tree.
    One(Kind),
    /// A template of a list of trees.
    Many(Kind),
    /// A node of a form over so many parts.
    Node(Form, usize),
}

/// A node that is to be made.
#[derive(Clone, Copy)]
pub struct Order {
    pub form: Form,
    /// How many parts it takes.
    pub count: usize,
    pub place: u32,
}

fn over(form: Form, count: usize) -> Order {
    Order {
        form,
        count,
        place: 0,
    }
}

fn word_at(form: Form, place: u32) -> Order {
    Order {
        form,
        count: 0,
        place,
    }
}

fn call(number: u32, kind: Kind, is_list: bool, tail: bool) -> Form {
    Form::Call {
        number: MacroNo(number),
        result: MetaType {
            base: Base::Tree(kind),
            lists: if is_list { 1 } else { 0 },
        },
        tail,
    }
}

impl Step {
    /// The node that the step makes.
    pub fn order(self) -> Order {
        match self {
            Step::Name(word, place) => word_at(Form::Exp(ExpForm::Name(Word(word))), place),
            Step::Type(word, place) => word_at(Form::Spec(SpecForm::Typedef(Word(word))), place),
            Step::Id(word, place) => word_at(Form::Id(Word(word)), place),
            Step::Hole(kind, is_list, word) => {
                let name = Word(word);
                over(
                    Form::Hole(HoleForm::Variable {
                        kind,
                        is_list,
                        name,
                    }),
                    0,
                )
            }
            Step::Call(number, kind, is_list, tail, count) => {
                over(call(number, kind, is_list, tail), count)
            }
            Step::List(count) => over(Form::Group(GroupForm::List), count),
            Step::Rounds(count) => over(Form::Group(GroupForm::Rounds), count),
            Step::Unary(operator) => over(Form::Exp(ExpForm::Unary(operator)), 1),
            Step::Binary(operator) => over(Form::Exp(ExpForm::Binary(operator)), 2),
            Step::Assign(operator) => over(Form::Exp(ExpForm::Assign(operator)), 2),
            Step::MetaUnary(operator) => over(Form::MetaExp(MetaExpForm::Unary(operator)), 1),
            Step::MetaBinary(operator) => over(Form::MetaExp(MetaExpForm::Binary(operator)), 2),
            Step::One(kind) => over(Form::Template(TemplateForm::One(kind)), 1),
            Step::Many(kind) => over(Form::Template(TemplateForm::Many(kind)), 1),
            Step::Node(form, count) => over(form, count),
        }
    }
}
