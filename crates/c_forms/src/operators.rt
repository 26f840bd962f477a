//! Operators and keywords in trees.

/// An operator before its operand (ISO/IEC 9899:1990, 6.3.3).
#[derive(Clone, Copy, PartialEq, Eq)]
pub enum UnaryOperator {
    /// `&`
    Address,
    /// `*`
    Dereference,
    Plus,
    Minus,
    /// `~`
    Complement,
    /// `!`
    Not,
}

/// An operator between two operands, other than an assignment and the comma
/// (ISO/IEC 9899:1990, 6.3.5 to 6.3.14).
#[derive(Clone, Copy, PartialEq, Eq)]
pub enum BinaryOperator {
    LogicalOr,
    LogicalAnd,
    BitOr,
    BitXor,
    BitAnd,
    Equal,
    NotEqual,
    Less,
    Greater,
    LessEqual,
    GreaterEqual,
    ShiftLeft,
    ShiftRight,
    Add,
    Subtract,
    Multiply,
    Divide,
    Remainder,
}

/// `=` and the operators of compound assignment (ISO/IEC 9899:1990, 6.3.16).
#[derive(Clone, Copy, PartialEq, Eq)]
pub enum AssignmentOperator {
    Assign,
    Multiply,
    Divide,
    Remainder,
    Add,
    Subtract,
    ShiftLeft,
    ShiftRight,
    BitAnd,
    BitXor,
    BitOr,
}

/// A storage-class specifier (ISO/IEC 9899:1990, 6.5.1).
#[derive(Clone, Copy, PartialEq, Eq)]
pub enum StorageClass {
    Typedef,
    Extern,
    Static,
    Auto,
    Register,
}

/// A type qualifier (ISO/IEC 9899:1990, 6.5.3).
#[derive(Clone, Copy, PartialEq, Eq)]
pub enum TypeQualifier {
    Const,
    Volatile,
}

/// A keyword of a basic type (ISO/IEC 9899:1990, 6.5.2).
#[derive(Clone, Copy, PartialEq, Eq)]
pub enum BasicType {
    Void,
    Char,
    Short,
    Int,
    Long,
    Float,
    Double,
    Signed,
    Unsigned,
}

/// Whether members are kept side by side or over one another (ISO/IEC 9899:1990, 6.5.2.1).
#[derive(Clone, Copy, PartialEq, Eq)]
pub enum StructOrUnion {
    Struct,
    Union,
}

/// An operator of meta code before its operand.
#[derive(Clone, Copy, PartialEq, Eq)]
pub enum MetaUnaryOperator {
    Plus,
    Minus,
    /// `~`
    Complement,
    /// `!`
    Not,
}
