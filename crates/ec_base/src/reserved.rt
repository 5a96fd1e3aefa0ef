//! Lists that have room for one more element.
ghost use Rattle.std.specs.Prelude.{◌≡◌, [], ◌∷◌, ◌++◌, OnErr, IfErr, IfOk};

use crate::list::List;
use std::marker::Model;

/// A list with room for one more element, which then takes no memory. Contracts see it as the list of its elements.
#[derive(Debug, Drop)]
pub struct Reserved<T> {
    items: Vec<T>,
}

impl<T> Model for Reserved<T> {
    ghost use Rattle.std.specs.Prelude.{List as Sequence, ◌<◌, vec_len, vec_capacity};
    ghost use Rattle.std.specs.Coded.{coded_list};

    ghost Value = { Sequence T };

    ghost coded = { coded_list T.code };

    ghost view = { λ it. it.items.items };

    ghost invariant = { λ it. vec_len it.items < vec_capacity it.items };
}

impl<T: Drop> List<T> {
    /// The list, with room for one more element. Where there is no memory for it, the list is given back as it was.
    pub fn reserve(self) -> Result<Reserved<T>, List<T>>
        ensures ok { IfOk result (λ reserved. reserved ≡ self) }
        ensures err { IfErr result (λ list. list ≡ self) }
    {
        let mut items = self.into_vec();
        match items.reserve(1) {
            Ok(()) => Ok(Reserved { items }),
            Err(_) => Err(List::from_vec(items)),
        }
    }
}

impl<T: Drop> Reserved<T> {
    /// The list with `item` at its end.
    pub fn push_reserved(self, item: T) -> List<T>
        ensures { result ≡ self ++ item ∷ [] }
    {
        let Reserved { mut items } = self;
        items.push_reserved(item);
        List::from_vec(items)
    }

    /// The list, without a further element.
    pub fn into_list(self) -> List<T>
        ensures { result ≡ self }
    {
        let Reserved { items } = self;
        List::from_vec(items)
    }
}
