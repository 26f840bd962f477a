//! Words that were read before it is known what they are.

ghost use Rattle.std.specs.Prelude.{◌≡◌, ◌<◌, ◌-◌, ◌^◌};
ghost use Rattle.c_syntax.specs.Grammar as grammar;

use c_forms::{ExpForm, Form, SpecForm};
use c_tokens::Shape;
use table_parser::Found;

/// A word that is an expression (ISO/IEC 9899:1990, 6.3.1).
pub fn name_leaf(place: usize, shape: Shape) -> Found
    requires place { place < 2 ^ 32 - 1 }
    ensures { result ≡ grammar.name_leaf place shape }
{
    match shape {
        Shape::Word(word) => Found::leaf(Form::Exp(ExpForm::Name(word)), place),
        _ => Found::absent(place),
    }
}

/// A word that is a label (6.6.1).
pub fn id_leaf(place: usize, shape: Shape) -> Found
    requires place { place < 2 ^ 32 - 1 }
    ensures { result ≡ grammar.id_leaf place shape }
{
    match shape {
        Shape::Word(word) => Found::leaf(Form::Id(word), place),
        _ => Found::absent(place),
    }
}

/// A word that is a typedef name (6.5.6).
pub fn typedef_leaf(place: usize, shape: Shape) -> Found
    requires place { place < 2 ^ 32 - 1 }
    ensures { result ≡ grammar.typedef_leaf place shape }
{
    match shape {
        Shape::Word(word) => Found::leaf(Form::Spec(SpecForm::Typedef(word)), place),
        _ => Found::absent(place),
    }
}
