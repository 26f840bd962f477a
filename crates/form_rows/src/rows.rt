//! The row of a form.

ghost use Rattle.std.specs.Prelude.{◌≡◌};
ghost use Rattle.c_forms.specs.Rows as rows;
ghost use Rattle.c_forms.specs.Rows.{shown};

use c_forms::Counts::{self, Nothing, Size, SizeAndHeight};
use c_forms::Role::{
    self, Bare, Carried, Declared, Due, Entered, Leafed, Led, Marked, Prefixed, Tailed,
};
use c_forms::table::*;
use c_forms::{
    BinaryOperator, DeclaratorForm, ElementForm, ExpForm, Form, GroupForm, HoleForm, InitForm,
    ItemForm, MetaExpForm, MetaStmtForm, ParamsForm, Piece, Row, SpecForm, StmtForm, StorageClass,
    TemplateForm,
};
use c_tokens::Kind;

fn of(role: Role, level: u8, counts: Counts, pieces: &'static [Piece]) -> Row
    ensures { shown result ≡ rows.line role level counts pieces.now }
{
    Row {
        role,
        level,
        counts,
        pieces,
    }
}

fn template_row(kind: Kind) -> Row
    ensures { shown result ≡ rows.template_row kind }
{
    match kind {
        Kind::Id => of(Due, 17, Nothing, TEMPLATE_ID),
        Kind::Num => of(Due, 17, Nothing, TEMPLATE_NUM),
        Kind::Exp => of(Due, 17, Nothing, TEMPLATE_EXP),
        Kind::Stmt => of(Due, 17, Nothing, TEMPLATE_STMT),
        Kind::Decl => of(Due, 17, Nothing, TEMPLATE_DECL),
        Kind::Item => of(Due, 17, Nothing, TEMPLATE_ITEM),
        Kind::Spec => of(Due, 17, Nothing, TEMPLATE_SPEC),
        Kind::Param => of(Due, 17, Nothing, TEMPLATE_PARAM),
        Kind::Member => of(Due, 17, Nothing, TEMPLATE_MEMBER),
    }
}

fn list_template_row(kind: Kind) -> Row
    ensures { shown result ≡ rows.list_template_row kind }
{
    match kind {
        Kind::Id => of(Due, 17, Nothing, TEMPLATE_IDS),
        Kind::Num => of(Due, 17, Nothing, TEMPLATE_NUMS),
        Kind::Exp => of(Due, 17, Nothing, TEMPLATE_EXPS),
        Kind::Stmt => of(Due, 17, Nothing, TEMPLATE_STMTS),
        Kind::Decl => of(Due, 17, Nothing, TEMPLATE_DECLS),
        Kind::Item => of(Due, 17, Nothing, TEMPLATE_ITEMS),
        Kind::Spec => of(Due, 17, Nothing, TEMPLATE_SPECS),
        Kind::Param => of(Due, 17, Nothing, TEMPLATE_PARAMS),
        Kind::Member => of(Due, 17, Nothing, TEMPLATE_MEMBERS),
    }
}

fn binary_row(operator: BinaryOperator) -> Row
    ensures { shown result ≡ rows.binary_row operator }
{
    match operator {
        BinaryOperator::LogicalOr => of(Tailed, 4, SizeAndHeight, BINARY_4),
        BinaryOperator::LogicalAnd => of(Tailed, 5, SizeAndHeight, BINARY_5),
        BinaryOperator::BitOr => of(Tailed, 6, SizeAndHeight, BINARY_6),
        BinaryOperator::BitXor => of(Tailed, 7, SizeAndHeight, BINARY_7),
        BinaryOperator::BitAnd => of(Tailed, 8, SizeAndHeight, BINARY_8),
        BinaryOperator::Equal | BinaryOperator::NotEqual => of(Tailed, 9, SizeAndHeight, BINARY_9),
        BinaryOperator::Less
        | BinaryOperator::Greater
        | BinaryOperator::LessEqual
        | BinaryOperator::GreaterEqual => of(Tailed, 10, SizeAndHeight, BINARY_10),
        BinaryOperator::ShiftLeft | BinaryOperator::ShiftRight => of(
            Tailed,
            11,
            SizeAndHeight,
            BINARY_11,
        ),
        BinaryOperator::Add | BinaryOperator::Subtract => of(Tailed, 12, SizeAndHeight, BINARY_12),
        BinaryOperator::Multiply | BinaryOperator::Divide | BinaryOperator::Remainder => of(
            Tailed,
            13,
            SizeAndHeight,
            BINARY_13,
        ),
    }
}

fn meta_binary_row(operator: BinaryOperator) -> Row
    ensures { shown result ≡ rows.meta_binary_row operator }
{
    match operator {
        BinaryOperator::LogicalOr => of(Tailed, 4, SizeAndHeight, META_BINARY_4),
        BinaryOperator::LogicalAnd => of(Tailed, 5, SizeAndHeight, META_BINARY_5),
        BinaryOperator::BitOr => of(Tailed, 6, SizeAndHeight, META_BINARY_6),
        BinaryOperator::BitXor => of(Tailed, 7, SizeAndHeight, META_BINARY_7),
        BinaryOperator::BitAnd => of(Tailed, 8, SizeAndHeight, META_BINARY_8),
        BinaryOperator::Equal | BinaryOperator::NotEqual => of(
            Tailed,
            9,
            SizeAndHeight,
            META_BINARY_9,
        ),
        BinaryOperator::Less
        | BinaryOperator::Greater
        | BinaryOperator::LessEqual
        | BinaryOperator::GreaterEqual => of(Tailed, 10, SizeAndHeight, META_BINARY_10),
        BinaryOperator::ShiftLeft | BinaryOperator::ShiftRight => of(
            Tailed,
            11,
            SizeAndHeight,
            META_BINARY_11,
        ),
        BinaryOperator::Add | BinaryOperator::Subtract => of(
            Tailed,
            12,
            SizeAndHeight,
            META_BINARY_12,
        ),
        BinaryOperator::Multiply | BinaryOperator::Divide | BinaryOperator::Remainder => of(
            Tailed,
            13,
            SizeAndHeight,
            META_BINARY_13,
        ),
    }
}

fn exp_row(form: ExpForm) -> Row
    ensures { shown result ≡ rows.exp_row form }
{
    match form {
        ExpForm::Name(_) | ExpForm::Int(_) | ExpForm::Float(_) | ExpForm::Char(_) => of(
            Leafed, 17, Size, TOKEN_EXP,
        ),
        ExpForm::Str => of(Due, 17, Nothing, STR),
        ExpForm::Index => of(Tailed, 16, SizeAndHeight, INDEX),
        ExpForm::Apply => of(Tailed, 16, SizeAndHeight, APPLY),
        ExpForm::Field => of(Tailed, 16, SizeAndHeight, FIELD),
        ExpForm::Arrow => of(Tailed, 16, SizeAndHeight, ARROW_OF),
        ExpForm::PostInc => of(Tailed, 16, SizeAndHeight, POST_INC),
        ExpForm::PostDec => of(Tailed, 16, SizeAndHeight, POST_DEC),
        ExpForm::PreInc => of(Prefixed, 15, SizeAndHeight, PRE_INC),
        ExpForm::PreDec => of(Prefixed, 15, SizeAndHeight, PRE_DEC),
        ExpForm::Unary(_) => of(Prefixed, 15, SizeAndHeight, UNARY),
        ExpForm::SizeofExp => of(Prefixed, 15, SizeAndHeight, SIZEOF_EXP),
        ExpForm::SizeofType => of(Entered, 15, SizeAndHeight, SIZEOF_TYPE),
        ExpForm::Cast => of(Entered, 14, SizeAndHeight, CAST),
        ExpForm::Binary(operator) => binary_row(operator),
        ExpForm::Conditional => of(Tailed, 3, SizeAndHeight, CONDITIONAL),
        ExpForm::Assign(_) => of(Tailed, 2, SizeAndHeight, ASSIGN),
        ExpForm::Comma => of(Tailed, 1, SizeAndHeight, COMMA_OF),
    }
}

fn storage_row(class: StorageClass) -> Row
    ensures { shown result ≡ rows.storage_row class }
{
    match class {
        StorageClass::Typedef => of(Leafed, 17, Size, TYPEDEF_KEY),
        _ => of(Leafed, 17, Size, TOKEN_SPEC),
    }
}

fn spec_row(form: SpecForm) -> Row
    ensures { shown result ≡ rows.spec_row form }
{
    match form {
        SpecForm::Storage(class) => storage_row(class),
        SpecForm::Qualifier(_) => of(Leafed, 17, Size, TOKEN_SPEC),
        SpecForm::Basic(_) => of(Leafed, 17, Size, BASIC_TYPE),
        SpecForm::Typedef(_) => of(Due, 17, Size, TYPEDEF_NAME),
        SpecForm::StructOf(_) => of(Prefixed, 17, SizeAndHeight, STRUCT_OF),
        SpecForm::EnumOf => of(Prefixed, 17, SizeAndHeight, ENUM_OF),
    }
}

fn declarator_row(form: DeclaratorForm) -> Row
    ensures { shown result ≡ rows.declarator_row form }
{
    match form {
        DeclaratorForm::Named => of(Due, 17, Size, NAMED),
        DeclaratorForm::Absent => of(Bare, 17, Size, ABSENT),
        DeclaratorForm::Pointer => of(Prefixed, 1, SizeAndHeight, POINTER),
        DeclaratorForm::ArrayOf => of(Tailed, 2, SizeAndHeight, ARRAY_OF),
        DeclaratorForm::FunctionOf => of(Tailed, 2, SizeAndHeight, FUNCTION_OF),
    }
}

fn params_row(form: ParamsForm) -> Row
    ensures { shown result ≡ rows.params_row form }
{
    match form {
        ParamsForm::Ids => of(Due, 17, Size, IDS),
        ParamsForm::Typed => of(Due, 17, Size, TYPED),
        ParamsForm::TypedAndMore => of(Due, 17, Size, TYPED_AND_MORE),
    }
}

fn init_row(form: InitForm) -> Row
    ensures { shown result ≡ rows.init_row form }
{
    match form {
        InitForm::One => of(Due, 17, Size, INIT_ONE),
        InitForm::Braces => of(Prefixed, 17, SizeAndHeight, BRACES),
    }
}

fn stmt_row(form: StmtForm) -> Row
    ensures { shown result ≡ rows.stmt_row form }
{
    match form {
        StmtForm::Label => of(Marked, 17, SizeAndHeight, LABEL),
        StmtForm::Case => of(Prefixed, 17, SizeAndHeight, CASE),
        StmtForm::Default => of(Prefixed, 17, SizeAndHeight, DEFAULT),
        StmtForm::Express => of(Led, 17, Size, EXPRESS),
        StmtForm::Empty => of(Prefixed, 17, Size, EMPTY),
        StmtForm::Block => of(Prefixed, 17, SizeAndHeight, BLOCK),
        StmtForm::If => of(Prefixed, 17, SizeAndHeight, IF),
        StmtForm::Switch => of(Prefixed, 17, SizeAndHeight, SWITCH),
        StmtForm::While => of(Prefixed, 17, SizeAndHeight, WHILE),
        StmtForm::Do => of(Prefixed, 17, SizeAndHeight, DO),
        StmtForm::For => of(Prefixed, 17, SizeAndHeight, FOR),
        StmtForm::Goto => of(Prefixed, 17, Size, GOTO),
        StmtForm::Continue => of(Prefixed, 17, Size, CONTINUE),
        StmtForm::Break => of(Prefixed, 17, Size, BREAK),
        StmtForm::Return => of(Prefixed, 17, Size, RETURN),
    }
}

fn item_row(form: ItemForm) -> Row
    ensures { shown result ≡ rows.item_row form }
{
    match form {
        ItemForm::Function => of(Declared, 17, Size, FUNCTION),
        ItemForm::Declaration => of(Declared, 17, Size, DECLARATION),
        ItemForm::Syntax { .. } => of(Due, 17, Size, SYNTAX),
        ItemForm::MetaFunction { .. } => of(Due, 17, Size, META_FUNCTION),
        ItemForm::MetaVariable { .. } => of(Due, 17, Size, META_VARIABLE),
    }
}

fn meta_exp_row(form: MetaExpForm) -> Row
    ensures { shown result ≡ rows.meta_exp_row form }
{
    match form {
        MetaExpForm::Int(_) | MetaExpForm::Text(_) | MetaExpForm::Variable(_) => of(
            Leafed,
            17,
            Size,
            TOKEN_META_EXP,
        ),
        MetaExpForm::Unary(_) => of(Prefixed, 15, SizeAndHeight, META_UNARY),
        MetaExpForm::Binary(operator) => meta_binary_row(operator),
        MetaExpForm::Choose => of(Tailed, 3, SizeAndHeight, CHOOSE),
        MetaExpForm::Named(_) => of(Marked, 17, SizeAndHeight, NAMED_CALL),
        MetaExpForm::Quote => of(Due, 17, SizeAndHeight, QUOTE),
    }
}

fn template_form_row(form: TemplateForm) -> Row
    ensures { shown result ≡ rows.template_form_row form }
{
    match form {
        TemplateForm::Parens => of(Prefixed, 17, Nothing, TEMPLATE_PARENS),
        TemplateForm::Braces => of(Prefixed, 17, SizeAndHeight, TEMPLATE_BRACES),
        TemplateForm::One(kind) => template_row(kind),
        TemplateForm::Many(kind) => list_template_row(kind),
    }
}

fn meta_stmt_row(form: MetaStmtForm) -> Row
    ensures { shown result ≡ rows.meta_stmt_row form }
{
    match form {
        MetaStmtForm::Empty => of(Prefixed, 17, Size, EMPTY),
        MetaStmtForm::Value => of(Led, 17, Size, VALUE),
        MetaStmtForm::Set(_) => of(Marked, 17, Size, SET),
        MetaStmtForm::If => of(Prefixed, 17, SizeAndHeight, META_IF),
        MetaStmtForm::While => of(Prefixed, 17, SizeAndHeight, META_WHILE),
        MetaStmtForm::Do => of(Prefixed, 17, SizeAndHeight, META_DO),
        MetaStmtForm::For => of(Prefixed, 17, SizeAndHeight, META_FOR),
        MetaStmtForm::Break => of(Prefixed, 17, Size, BREAK),
        MetaStmtForm::Continue => of(Prefixed, 17, Size, CONTINUE),
        MetaStmtForm::Return => of(Prefixed, 17, Size, META_RETURN),
        MetaStmtForm::Match => of(Prefixed, 17, SizeAndHeight, MATCH),
    }
}

fn element_row(form: ElementForm) -> Row
    ensures { shown result ≡ rows.element_row form }
{
    match form {
        ElementForm::Literal(_) => of(Leafed, 17, Nothing, ELEMENT_LITERAL),
        ElementForm::Bind => of(Prefixed, 17, Nothing, ELEMENT_BIND),
        ElementForm::OneOrMore => of(Prefixed, 17, SizeAndHeight, ELEMENT_ONE_OR_MORE),
        ElementForm::ZeroOrMore => of(Prefixed, 17, SizeAndHeight, ELEMENT_ZERO_OR_MORE),
        ElementForm::OneOrMoreBetween(_) => of(Due, 17, SizeAndHeight, ELEMENT_ONE_OR_MORE_BETWEEN),
        ElementForm::ZeroOrMoreBetween(_) => of(
            Due,
            17,
            SizeAndHeight,
            ELEMENT_ZERO_OR_MORE_BETWEEN,
        ),
        ElementForm::Maybe(_) => of(Due, 17, SizeAndHeight, ELEMENT_MAYBE),
    }
}

fn hole_row(form: HoleForm) -> Row
    ensures { shown result ≡ rows.hole_row form }
{
    match form {
        HoleForm::Variable { .. } => of(Carried, 17, SizeAndHeight, HOLE_VARIABLE),
        HoleForm::Computed { is_list, .. } => {
            if is_list {
                of(Carried, 17, SizeAndHeight, HOLE_COMPUTED_LIST)
            } else {
                of(Carried, 17, SizeAndHeight, HOLE_COMPUTED)
            }
        }
        HoleForm::Binder { .. } => of(Carried, 17, SizeAndHeight, HOLE_BINDER),
    }
}

fn group_row(form: GroupForm) -> Row
    ensures { shown result ≡ rows.group_row form }
{
    match form {
        GroupForm::List => of(Bare, 17, Nothing, LIST),
        GroupForm::Rounds => of(Bare, 17, Nothing, ROUNDS),
        GroupForm::Row => of(Bare, 17, Nothing, ROW),
        GroupForm::InitDeclarator => of(Due, 17, Nothing, INIT_DECLARATOR),
        GroupForm::Initializer => of(Due, 17, Nothing, INITIALIZER),
        GroupForm::MemberDeclarator => of(Due, 17, Nothing, MEMBER_DECLARATOR),
        GroupForm::Width => of(Due, 17, Nothing, WIDTH),
        GroupForm::Members => of(Due, 17, Nothing, MEMBERS),
        GroupForm::Enumerators => of(Due, 17, Nothing, ENUMERATORS),
        GroupForm::EnumeratorValue => of(Due, 17, Nothing, ENUMERATOR_VALUE),
        GroupForm::ElsePart => of(Due, 17, Nothing, ELSE_PART),
        GroupForm::MetaElsePart => of(Due, 17, Nothing, META_ELSE_PART),
        GroupForm::Assignment(_) => of(Due, 17, Nothing, ASSIGNMENT),
        GroupForm::MetaValue => of(Due, 17, Nothing, META_VALUE),
        GroupForm::MetaParam { .. } => of(Due, 17, Nothing, META_PARAM),
        GroupForm::Binder { .. } => of(Due, 17, Nothing, BINDER),
        GroupForm::Elements => of(Due, 17, Nothing, ELEMENTS),
    }
}

/// The row of a form.
pub fn row(form: Form) -> Row
    ensures { shown result ≡ rows.row form }
{
    match form {
        Form::Exp(form) => exp_row(form),
        Form::TypeName => of(Declared, 17, Size, TYPE_NAME),
        Form::Specs => of(Declared, 17, Nothing, SPECS),
        Form::Spec(form) => spec_row(form),
        Form::Member => of(Declared, 17, Size, MEMBER),
        Form::Enumerator => of(Due, 17, Size, ENUMERATOR),
        Form::Declarator(form) => declarator_row(form),
        Form::Params(form) => params_row(form),
        Form::Param => of(Declared, 17, Size, PARAM),
        Form::Init(form) => init_row(form),
        Form::Decl => of(Declared, 17, Size, DECL),
        Form::Stmt(form) => stmt_row(form),
        Form::Item(form) => item_row(form),
        Form::Id(_) => of(Due, 17, Nothing, PART_TOKEN),
        Form::Literal(_) => of(Due, 17, Size, LITERAL),
        Form::MetaExp(form) => meta_exp_row(form),
        Form::Template(form) => template_form_row(form),
        Form::MetaStmt(form) => meta_stmt_row(form),
        Form::MetaBlock => of(Due, 17, SizeAndHeight, META_BLOCK),
        Form::Local { .. } => of(Due, 17, Size, LOCAL),
        Form::Element(form) => element_row(form),
        Form::Hole(form) => hole_row(form),
        Form::Call { .. } => of(Carried, 17, SizeAndHeight, CALL),
        Form::Group(form) => group_row(form),
    }
}
