//! The tokens that forms hold.

ghost use Rattle.std.specs.Prelude.{◌≡◌, None, Some};
ghost use Rattle.c_forms.specs.Tokens as tokens;

use c_forms::{
    AssignmentOperator, BasicType, BinaryOperator, ElementForm, ExpForm, Form, GroupForm, HoleForm,
    ItemForm, MetaExpForm, MetaStmtForm, MetaUnaryOperator, SpecForm, StorageClass, StructOrUnion,
    TemplateForm, TypeQualifier, UnaryOperator,
};
use c_tokens::{Key, Kind, Mark, Punct, Shape};

fn unary_token(operator: UnaryOperator) -> Punct
    ensures { result ≡ tokens.unary_token operator }
{
    match operator {
        UnaryOperator::Address => Punct::Ampersand,
        UnaryOperator::Dereference => Punct::Star,
        UnaryOperator::Plus => Punct::Plus,
        UnaryOperator::Minus => Punct::Minus,
        UnaryOperator::Complement => Punct::Tilde,
        UnaryOperator::Not => Punct::Exclamation,
    }
}

fn binary_token(operator: BinaryOperator) -> Punct
    ensures { result ≡ tokens.binary_token operator }
{
    match operator {
        BinaryOperator::LogicalOr => Punct::BarBar,
        BinaryOperator::LogicalAnd => Punct::AmpersandAmpersand,
        BinaryOperator::BitOr => Punct::Bar,
        BinaryOperator::BitXor => Punct::Caret,
        BinaryOperator::BitAnd => Punct::Ampersand,
        BinaryOperator::Equal => Punct::EqualEqual,
        BinaryOperator::NotEqual => Punct::NotEqual,
        BinaryOperator::Less => Punct::Less,
        BinaryOperator::Greater => Punct::Greater,
        BinaryOperator::LessEqual => Punct::LessEqual,
        BinaryOperator::GreaterEqual => Punct::GreaterEqual,
        BinaryOperator::ShiftLeft => Punct::ShiftLeft,
        BinaryOperator::ShiftRight => Punct::ShiftRight,
        BinaryOperator::Add => Punct::Plus,
        BinaryOperator::Subtract => Punct::Minus,
        BinaryOperator::Multiply => Punct::Star,
        BinaryOperator::Divide => Punct::Slash,
        BinaryOperator::Remainder => Punct::Percent,
    }
}

fn assignment_token(operator: AssignmentOperator) -> Punct
    ensures { result ≡ tokens.assignment_token operator }
{
    match operator {
        AssignmentOperator::Assign => Punct::Equal,
        AssignmentOperator::Multiply => Punct::StarEqual,
        AssignmentOperator::Divide => Punct::SlashEqual,
        AssignmentOperator::Remainder => Punct::PercentEqual,
        AssignmentOperator::Add => Punct::PlusEqual,
        AssignmentOperator::Subtract => Punct::MinusEqual,
        AssignmentOperator::ShiftLeft => Punct::ShiftLeftEqual,
        AssignmentOperator::ShiftRight => Punct::ShiftRightEqual,
        AssignmentOperator::BitAnd => Punct::AmpersandEqual,
        AssignmentOperator::BitXor => Punct::CaretEqual,
        AssignmentOperator::BitOr => Punct::BarEqual,
    }
}

fn meta_unary_token(operator: MetaUnaryOperator) -> Punct
    ensures { result ≡ tokens.meta_unary_token operator }
{
    match operator {
        MetaUnaryOperator::Plus => Punct::Plus,
        MetaUnaryOperator::Minus => Punct::Minus,
        MetaUnaryOperator::Complement => Punct::Tilde,
        MetaUnaryOperator::Not => Punct::Exclamation,
    }
}

fn storage_token(class: StorageClass) -> Key
    ensures { result ≡ tokens.storage_token class }
{
    match class {
        StorageClass::Typedef => Key::Typedef,
        StorageClass::Extern => Key::Extern,
        StorageClass::Static => Key::Static,
        StorageClass::Auto => Key::Auto,
        StorageClass::Register => Key::Register,
    }
}

fn qualifier_token(qualifier: TypeQualifier) -> Key
    ensures { result ≡ tokens.qualifier_token qualifier }
{
    match qualifier {
        TypeQualifier::Const => Key::Const,
        TypeQualifier::Volatile => Key::Volatile,
    }
}

fn basic_token(basic: BasicType) -> Key
    ensures { result ≡ tokens.basic_token basic }
{
    match basic {
        BasicType::Void => Key::Void,
        BasicType::Char => Key::Char,
        BasicType::Short => Key::Short,
        BasicType::Int => Key::Int,
        BasicType::Long => Key::Long,
        BasicType::Float => Key::Float,
        BasicType::Double => Key::Double,
        BasicType::Signed => Key::Signed,
        BasicType::Unsigned => Key::Unsigned,
    }
}

fn group_token(group: StructOrUnion) -> Key
    ensures { result ≡ tokens.group_token group }
{
    match group {
        StructOrUnion::Struct => Key::Struct,
        StructOrUnion::Union => Key::Union,
    }
}

fn kind_token(kind: Kind) -> Mark
    ensures { result ≡ tokens.kind_token kind }
{
    match kind {
        Kind::Id => Mark::Id,
        Kind::Num => Mark::Num,
        Kind::Exp => Mark::Exp,
        Kind::Stmt => Mark::Stmt,
        Kind::Decl => Mark::Decl,
        Kind::Item => Mark::Item,
        Kind::Spec => Mark::Spec,
        Kind::Param => Mark::Param,
        Kind::Member => Mark::Member,
    }
}

fn template_token(kind: Kind) -> Mark
    ensures { result ≡ tokens.template_token kind }
{
    match kind {
        Kind::Id => Mark::QuoteId,
        Kind::Num => Mark::QuoteNum,
        Kind::Exp => Mark::QuoteExp,
        Kind::Stmt => Mark::QuoteStmt,
        Kind::Decl => Mark::QuoteDecl,
        Kind::Item => Mark::QuoteItem,
        Kind::Spec => Mark::QuoteSpec,
        Kind::Param => Mark::QuoteParam,
        Kind::Member => Mark::QuoteMember,
    }
}

fn held_by_exp(form: ExpForm) -> Option<Shape>
    ensures { result ≡ tokens.held_by_exp form }
{
    match form {
        ExpForm::Name(word) => Some(Shape::Word(word)),
        ExpForm::Int(word) => Some(Shape::Int(word)),
        ExpForm::Float(word) => Some(Shape::Float(word)),
        ExpForm::Char(word) => Some(Shape::Char(word)),
        ExpForm::Unary(operator) => Some(Shape::Punct(unary_token(operator))),
        ExpForm::Binary(operator) => Some(Shape::Punct(binary_token(operator))),
        ExpForm::Assign(operator) => Some(Shape::Punct(assignment_token(operator))),
        _ => None,
    }
}

fn held_by_spec(form: SpecForm) -> Option<Shape>
    ensures { result ≡ tokens.held_by_spec form }
{
    match form {
        SpecForm::Storage(class) => Some(Shape::Key(storage_token(class))),
        SpecForm::Qualifier(qualifier) => Some(Shape::Key(qualifier_token(qualifier))),
        SpecForm::Basic(basic) => Some(Shape::Key(basic_token(basic))),
        SpecForm::Typedef(word) => Some(Shape::Word(word)),
        SpecForm::StructOf(group) => Some(Shape::Key(group_token(group))),
        _ => None,
    }
}

fn held_by_item(form: ItemForm) -> Option<Shape>
    ensures { result ≡ tokens.held_by_item form }
{
    match form {
        ItemForm::Syntax { name, .. } => Some(Shape::Word(name)),
        ItemForm::MetaFunction { name, .. } => Some(Shape::Word(name)),
        ItemForm::MetaVariable { name, .. } => Some(Shape::Word(name)),
        _ => None,
    }
}

fn held_by_meta_exp(form: MetaExpForm) -> Option<Shape>
    ensures { result ≡ tokens.held_by_meta_exp form }
{
    match form {
        MetaExpForm::Int(word) => Some(Shape::Int(word)),
        MetaExpForm::Text(word) => Some(Shape::Str(word)),
        MetaExpForm::Variable(word) => Some(Shape::Word(word)),
        MetaExpForm::Unary(operator) => Some(Shape::Punct(meta_unary_token(operator))),
        MetaExpForm::Binary(operator) => Some(Shape::Punct(binary_token(operator))),
        MetaExpForm::Named(word) => Some(Shape::Word(word)),
        _ => None,
    }
}

fn held_by_template(form: TemplateForm) -> Option<Shape>
    ensures { result ≡ tokens.held_by_template form }
{
    match form {
        TemplateForm::One(kind) => Some(Shape::Mark(template_token(kind))),
        TemplateForm::Many(kind) => Some(Shape::Mark(template_token(kind))),
        _ => None,
    }
}

fn held_by_meta_stmt(form: MetaStmtForm) -> Option<Shape>
    ensures { result ≡ tokens.held_by_meta_stmt form }
{
    match form {
        MetaStmtForm::Set(word) => Some(Shape::Word(word)),
        _ => None,
    }
}

fn held_by_element(form: ElementForm) -> Option<Shape>
    ensures { result ≡ tokens.held_by_element form }
{
    match form {
        ElementForm::Literal(shape) => Some(shape),
        ElementForm::OneOrMoreBetween(shape) => Some(shape),
        ElementForm::ZeroOrMoreBetween(shape) => Some(shape),
        ElementForm::Maybe(shape) => Some(shape),
        _ => None,
    }
}

fn held_by_hole(form: HoleForm) -> Option<Shape>
    ensures { result ≡ tokens.held_by_hole form }
{
    match form {
        HoleForm::Variable { name, .. } => Some(Shape::Word(name)),
        HoleForm::Computed { kind, .. } => Some(Shape::Mark(kind_token(kind))),
        HoleForm::Binder { name, .. } => Some(Shape::Word(name)),
    }
}

fn held_by_group(form: GroupForm) -> Option<Shape>
    ensures { result ≡ tokens.held_by_group form }
{
    match form {
        GroupForm::Assignment(word) => Some(Shape::Word(word)),
        GroupForm::MetaParam { name, .. } => Some(Shape::Word(name)),
        GroupForm::Binder { name, .. } => Some(Shape::Word(name)),
        _ => None,
    }
}

/// The token that a form holds, where it holds one and that token is known without the table of macros.
pub fn held(form: Form) -> Option<Shape>
    ensures { result ≡ tokens.held form }
{
    match form {
        Form::Exp(form) => held_by_exp(form),
        Form::Spec(form) => held_by_spec(form),
        Form::Item(form) => held_by_item(form),
        Form::Id(word) => Some(Shape::Word(word)),
        Form::Literal(word) => Some(Shape::Str(word)),
        Form::MetaExp(form) => held_by_meta_exp(form),
        Form::Template(form) => held_by_template(form),
        Form::MetaStmt(form) => held_by_meta_stmt(form),
        Form::Local { name, .. } => Some(Shape::Word(name)),
        Form::Element(form) => held_by_element(form),
        Form::Hole(form) => held_by_hole(form),
        Form::Group(form) => held_by_group(form),
        _ => None,
    }
}
