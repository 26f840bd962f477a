//! Which declarators a sort allows, and which specifiers may stand beside others.

ghost use Rattle.std.specs.Prelude.{◌≡◌};
ghost use Rattle.c_forms.specs.Rules as rules;
ghost use Rattle.c_forms.specs.Tokens as tokens;
ghost use Rattle.c_forms.specs.declared.pieces.Sort.TheVariants as sort;
ghost use Rattle.c_reader.specs.Readers.{here};
ghost use Rattle.c_syntax.specs.Allowed as allowed;
ghost use Rattle.c_syntax.specs.Grammar as grammar;
ghost use Rattle.table_parser.specs.Cursors.{seen};

use c_forms::{Form, Sort, SpecForm};
use c_tokens::{Class, Punct, Shape};
use form_decisions::specifier_begun;
use reader_states::Attempt;
use table_parser::words::is_type_word;
use table_parser::{Cursor, Seen};

/// Whether a declarator of a sort may be absent (ISO/IEC 9899:1990, 6.5.5).
pub(crate) fn may_be_absent(due: Sort) -> bool
    ensures { result ≡ grammar.may_be_absent due }
{
    match due {
        Sort::Declarator => false,
        _ => true,
    }
}

/// Whether a declarator of a sort may have a name.
pub(crate) fn may_be_named(due: Sort) -> bool
    ensures { result ≡ grammar.may_be_named due }
{
    match due {
        Sort::AbstractDeclarator => false,
        _ => true,
    }
}

/// Whether parentheses where a declarator begins are always around a declarator.
pub(crate) fn is_nameable(due: Sort) -> bool
    ensures { result ≡ grammar.is_nameable due }
{
    match due {
        Sort::Declarator | Sort::MemberName => true,
        _ => false,
    }
}

/// The sort of a declarator in parentheses.
pub(crate) fn parenthesized_sort(due: Sort) -> Sort
    ensures { result ≡ grammar.parenthesized_sort due }
{
    match due {
        Sort::MemberName => Sort::Declarator,
        _ => due,
    }
}

/// Whether a declarator that may have no name begins there, after an opening parenthesis: if not,
/// parameters do (6.5.5).
pub(crate) fn begins_parenthesized(cursor: &Cursor<'_>) -> bool
    ensures { result ≡ grammar.begins_parenthesized (here cursor.now.input) }
{
    cursor.shows(Class::Punct(Punct::Star))
        || cursor.shows(Class::Punct(Punct::LeftBracket))
        || cursor.shows(Class::Punct(Punct::LeftParen))
}

/// Whether it is a type specifier, or stands for one.
fn is_type(form: Form) -> bool
    ensures { result ≡ rules.is_type form }
{
    match form {
        Form::Spec(SpecForm::Storage(_)) | Form::Spec(SpecForm::Qualifier(_)) => false,
        Form::Spec(_) | Form::Hole(_) | Form::Call { .. } => true,
        _ => false,
    }
}

/// Whether it is a type specifier that allows no other (6.5.2).
fn is_sole(form: Form) -> bool
    ensures { result ≡ rules.is_sole form }
{
    match form {
        Form::Spec(SpecForm::Typedef(_))
        | Form::Spec(SpecForm::StructOf(_))
        | Form::Spec(SpecForm::EnumOf) => true,
        Form::Hole(_) | Form::Call { .. } => true,
        _ => false,
    }
}

/// Whether a specifier may stand beside those that were read (6.5.2).
pub(crate) fn may_stand(attempt: &Attempt, form: Form) -> bool
    ensures { result ≡ allowed.may_stand attempt.now.state form }
{
    if !is_type(form) {
        true
    } else if is_sole(form) {
        !attempt.has_type()
    } else {
        !attempt.is_sole()
    }
}

fn typedef_of(shape: Shape) -> Option<Form>
    ensures { result ≡ grammar.typedef_of shape }
{
    match shape {
        Shape::Word(word) => Some(Form::Spec(SpecForm::Typedef(word))),
        _ => None,
    }
}

/// The form of a specifier that begins with a token.
#[tactic(auto, using(crate::proofs::Specs::key_form))]
pub(crate) fn spec_of(due: Sort, token: Seen) -> Option<Form>
    requires due { tokens.begun due ≡ tokens.begun sort.Spec }
    ensures { result ≡ grammar.spec_of due (grammar.is_type_word (seen token)) (seen token) }
{
    if is_type_word(token) {
        typedef_of(token.shape)
    } else {
        specifier_begun(token.shape)
    }
}
