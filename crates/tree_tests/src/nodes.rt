//! Steps over trees.

use crate::step::Step::{self, Node};
use c_forms::{
    BasicType, DeclaratorForm, ElementForm, ExpForm, Form, GroupForm, InitForm, ItemForm,
    MetaExpForm, MetaStmtForm, ParamsForm, SpecForm, StmtForm, StorageClass, StructOrUnion,
    TemplateForm, TypeQualifier,
};

// Expressions

pub const STR: Step = Node(Form::Exp(ExpForm::Str), 1);

pub const INDEX: Step = Node(Form::Exp(ExpForm::Index), 2);

pub const APPLY: Step = Node(Form::Exp(ExpForm::Apply), 2);

pub const FIELD: Step = Node(Form::Exp(ExpForm::Field), 2);

pub const ARROW: Step = Node(Form::Exp(ExpForm::Arrow), 2);

pub const POST_INC: Step = Node(Form::Exp(ExpForm::PostInc), 1);

pub const POST_DEC: Step = Node(Form::Exp(ExpForm::PostDec), 1);

pub const PRE_INC: Step = Node(Form::Exp(ExpForm::PreInc), 1);

pub const PRE_DEC: Step = Node(Form::Exp(ExpForm::PreDec), 1);

pub const SIZEOF_EXP: Step = Node(Form::Exp(ExpForm::SizeofExp), 1);

pub const SIZEOF_TYPE: Step = Node(Form::Exp(ExpForm::SizeofType), 1);

pub const CAST: Step = Node(Form::Exp(ExpForm::Cast), 2);

pub const CONDITIONAL: Step = Node(Form::Exp(ExpForm::Conditional), 3);

pub const COMMA: Step = Node(Form::Exp(ExpForm::Comma), 2);

// Specifiers

pub const TYPE_NAME: Step = Node(Form::TypeName, 2);

pub const SPECS: Step = Node(Form::Specs, 1);

pub const TYPEDEF: Step = Node(Form::Spec(SpecForm::Storage(StorageClass::Typedef)), 0);

pub const EXTERN: Step = Node(Form::Spec(SpecForm::Storage(StorageClass::Extern)), 0);

pub const STATIC: Step = Node(Form::Spec(SpecForm::Storage(StorageClass::Static)), 0);

pub const AUTO: Step = Node(Form::Spec(SpecForm::Storage(StorageClass::Auto)), 0);

pub const REGISTER: Step = Node(Form::Spec(SpecForm::Storage(StorageClass::Register)), 0);

pub const CONST: Step = Node(Form::Spec(SpecForm::Qualifier(TypeQualifier::Const)), 0);

pub const VOLATILE: Step = Node(Form::Spec(SpecForm::Qualifier(TypeQualifier::Volatile)), 0);

pub const VOID: Step = Node(Form::Spec(SpecForm::Basic(BasicType::Void)), 0);

pub const CHAR: Step = Node(Form::Spec(SpecForm::Basic(BasicType::Char)), 0);

pub const SHORT: Step = Node(Form::Spec(SpecForm::Basic(BasicType::Short)), 0);

pub const INT: Step = Node(Form::Spec(SpecForm::Basic(BasicType::Int)), 0);

pub const LONG: Step = Node(Form::Spec(SpecForm::Basic(BasicType::Long)), 0);

pub const FLOAT: Step = Node(Form::Spec(SpecForm::Basic(BasicType::Float)), 0);

pub const DOUBLE: Step = Node(Form::Spec(SpecForm::Basic(BasicType::Double)), 0);

pub const SIGNED: Step = Node(Form::Spec(SpecForm::Basic(BasicType::Signed)), 0);

pub const UNSIGNED: Step = Node(Form::Spec(SpecForm::Basic(BasicType::Unsigned)), 0);

pub const STRUCT: Step = Node(Form::Spec(SpecForm::StructOf(StructOrUnion::Struct)), 2);

pub const UNION: Step = Node(Form::Spec(SpecForm::StructOf(StructOrUnion::Union)), 2);

pub const ENUM: Step = Node(Form::Spec(SpecForm::EnumOf), 2);

pub const MEMBERS: Step = Node(Form::Group(GroupForm::Members), 1);

pub const MEMBER: Step = Node(Form::Member, 2);

pub const MEMBER_DECLARATOR: Step = Node(Form::Group(GroupForm::MemberDeclarator), 2);

pub const WIDTH: Step = Node(Form::Group(GroupForm::Width), 1);

pub const ENUMERATORS: Step = Node(Form::Group(GroupForm::Enumerators), 1);

pub const ENUMERATOR: Step = Node(Form::Enumerator, 2);

pub const ENUMERATOR_VALUE: Step = Node(Form::Group(GroupForm::EnumeratorValue), 1);

// Declarators and declarations

pub const NAMED: Step = Node(Form::Declarator(DeclaratorForm::Named), 1);

pub const ABSENT: Step = Node(Form::Declarator(DeclaratorForm::Absent), 0);

pub const POINTER: Step = Node(Form::Declarator(DeclaratorForm::Pointer), 2);

pub const ARRAY_OF: Step = Node(Form::Declarator(DeclaratorForm::ArrayOf), 2);

pub const FUNCTION_OF: Step = Node(Form::Declarator(DeclaratorForm::FunctionOf), 2);

pub const IDS: Step = Node(Form::Params(ParamsForm::Ids), 1);

pub const TYPED: Step = Node(Form::Params(ParamsForm::Typed), 1);

pub const TYPED_AND_MORE: Step = Node(Form::Params(ParamsForm::TypedAndMore), 1);

pub const PARAM: Step = Node(Form::Param, 2);

pub const INIT: Step = Node(Form::Init(InitForm::One), 1);

pub const INIT_BRACES: Step = Node(Form::Init(InitForm::Braces), 1);

pub const DECL: Step = Node(Form::Decl, 2);

pub const INIT_DECLARATOR: Step = Node(Form::Group(GroupForm::InitDeclarator), 2);

pub const INITIALIZER: Step = Node(Form::Group(GroupForm::Initializer), 1);

// Statements

pub const LABEL_OF: Step = Node(Form::Stmt(StmtForm::Label), 2);

pub const CASE: Step = Node(Form::Stmt(StmtForm::Case), 2);

pub const DEFAULT: Step = Node(Form::Stmt(StmtForm::Default), 1);

pub const EXPRESS: Step = Node(Form::Stmt(StmtForm::Express), 1);

pub const EMPTY: Step = Node(Form::Stmt(StmtForm::Empty), 0);

pub const BLOCK: Step = Node(Form::Stmt(StmtForm::Block), 1);

pub const IF: Step = Node(Form::Stmt(StmtForm::If), 3);

pub const ELSE_PART: Step = Node(Form::Group(GroupForm::ElsePart), 1);

pub const SWITCH: Step = Node(Form::Stmt(StmtForm::Switch), 2);

pub const WHILE: Step = Node(Form::Stmt(StmtForm::While), 2);

pub const DO: Step = Node(Form::Stmt(StmtForm::Do), 2);

pub const FOR: Step = Node(Form::Stmt(StmtForm::For), 4);

pub const GOTO: Step = Node(Form::Stmt(StmtForm::Goto), 1);

pub const CONTINUE: Step = Node(Form::Stmt(StmtForm::Continue), 0);

pub const BREAK: Step = Node(Form::Stmt(StmtForm::Break), 0);

pub const RETURN: Step = Node(Form::Stmt(StmtForm::Return), 1);

pub const FUNCTION: Step = Node(Form::Item(ItemForm::Function), 4);

pub const DECLARATION: Step = Node(Form::Item(ItemForm::Declaration), 1);

pub const ROW_1: Step = Node(Form::Group(GroupForm::Row), 1);

pub const ROW_2: Step = Node(Form::Group(GroupForm::Row), 2);

// Meta code

pub const CHOOSE: Step = Node(Form::MetaExp(MetaExpForm::Choose), 3);

pub const QUOTE: Step = Node(Form::MetaExp(MetaExpForm::Quote), 1);

pub const PARENS: Step = Node(Form::Template(TemplateForm::Parens), 1);

pub const BRACES: Step = Node(Form::Template(TemplateForm::Braces), 1);

pub const META_EMPTY: Step = Node(Form::MetaStmt(MetaStmtForm::Empty), 0);

pub const VALUE: Step = Node(Form::MetaStmt(MetaStmtForm::Value), 1);

pub const META_IF: Step = Node(Form::MetaStmt(MetaStmtForm::If), 3);

pub const META_ELSE_PART: Step = Node(Form::Group(GroupForm::MetaElsePart), 1);

pub const META_WHILE: Step = Node(Form::MetaStmt(MetaStmtForm::While), 2);

pub const META_DO: Step = Node(Form::MetaStmt(MetaStmtForm::Do), 2);

pub const META_FOR: Step = Node(Form::MetaStmt(MetaStmtForm::For), 4);

pub const META_BREAK: Step = Node(Form::MetaStmt(MetaStmtForm::Break), 0);

pub const META_CONTINUE: Step = Node(Form::MetaStmt(MetaStmtForm::Continue), 0);

pub const META_RETURN: Step = Node(Form::MetaStmt(MetaStmtForm::Return), 1);

pub const MATCH: Step = Node(Form::MetaStmt(MetaStmtForm::Match), 4);

pub const META_BLOCK: Step = Node(Form::MetaBlock, 2);

pub const META_VALUE: Step = Node(Form::Group(GroupForm::MetaValue), 1);

// Patterns

pub const BIND: Step = Node(Form::Element(ElementForm::Bind), 1);

pub const ONE_OR_MORE: Step = Node(Form::Element(ElementForm::OneOrMore), 1);

pub const ZERO_OR_MORE: Step = Node(Form::Element(ElementForm::ZeroOrMore), 1);

pub const ELEMENTS: Step = Node(Form::Group(GroupForm::Elements), 1);
