//! Lists that contracts see as their items.

ghost use Rattle.std.specs.Prelude.{◌≡◌};

use std::marker::Model;

/// A list of values that is made from a `Vec`. Contracts see it as its items in order.
#[derive(Debug, Drop)]
pub struct List<T> {
    contents: Vec<T>,
}

impl<T> Model for List<T> {
    ghost use Rattle.std.specs.Coded.{coded_list};
    ghost use Rattle.std.specs.Prelude as prelude;

    ghost Value = { prelude.List T };

    ghost coded = { coded_list T.code };

    ghost view = { λ list. list.contents.items };
}

impl<T> List<T> {
    pub fn from_vec(items: Vec<T>) -> List<T>
        ensures { result ≡ items.items }
    {
        List { contents: items }
    }

    pub fn items(&self) -> &[T]
        ensures { result.now ≡ self.now }
    {
        &self.contents
    }

    /// The items, to be taken one by one. It takes no memory.
    pub fn into_vec(self) -> Vec<T>
        ensures { result.items ≡ self }
    {
        let List { contents } = self;
        contents
    }
}

/// Bytes of a text.
pub type Bytes = List<u8>;
