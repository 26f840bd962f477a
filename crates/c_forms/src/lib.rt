//! The forms of the nodes of C and of the macro notation, and the table that says how each is spelled
//! (ISO/IEC 9899:1990, 6.3 to 6.7).
#![tactic(auto)]

mod forms;
mod operators;
mod pieces;
mod places;
mod rules;
pub mod table;

pub use forms::{
    DeclaratorForm, ElementForm, ExpForm, Form, GroupForm, HoleForm, InitForm, ItemForm,
    MetaExpForm, MetaStmtForm, ParamsForm, SpecForm, StmtForm, TemplateForm,
};
pub use operators::{
    AssignmentOperator, BasicType, BinaryOperator, MetaUnaryOperator, StorageClass, StructOrUnion,
    TypeQualifier, UnaryOperator,
};
pub use pieces::{Counts, Event, Piece, Repetition, Role, Row, Sort};
pub use places::Occupant;
pub use rules::Rule;
