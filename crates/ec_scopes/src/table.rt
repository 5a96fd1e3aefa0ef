//! Tables from names to values.

ghost use Rattle.std.specs.Prelude.{◌≡◌, IfOk, OnOk, is_some, option_map, [], length, slice_get};
ghost use Rattle.std.specs.Option.{option_copied};
ghost use Rattle.ec_typing_defs.specs.Tables.{find, put};
ghost use Rattle.ec_scopes.specs.Offsets.{place_of};

use ec_base::OutOfMemory;
use indexmap::IndexMap;
use std::alloc::Global;
use std::marker::Model;

/// A table from names to values, in which a name is found by its hash. Contracts see the list of its pairs, in the order in
/// which the names came.
#[derive(Drop)]
pub struct Table<V> {
    inner: IndexMap<Vec<u8>, V>,
}

impl<V> Model for Table<V> {
    ghost use Rattle.std.specs.Prelude.{List, ℕ, map};
    ghost use Rattle.std.specs.Coded.{coded_list, coded×, coded_ℕ};

    ghost Value = { List (List ℕ × V) };

    ghost coded = { coded_list (coded× (coded_list coded_ℕ) V.code) };

    ghost view = { λ t. map (λ e. (e.0.items, e.1)) t.inner.entries };
}

impl<V: Drop> Table<V> {
    /// The empty table. It takes no memory.
    pub fn new(alloc: Global) -> Table<V>
        ensures { result ≡ [] }
    {
        Table {
            inner: IndexMap::new(alloc),
        }
    }

    /// What the name stands for.
    pub fn get(&self, name: &[u8]) -> Option<&V>
        ensures { option_copied result ≡ find name.now self.now }
    {
        self.inner.get(name)
    }

    /// Lets the name stand for the value, and says whether it stood for one before.
    pub fn put(&mut self, alloc: Global, name: &[u8], value: V) -> Result<bool, OutOfMemory>
        ensures ok { OnOk result (self.new ≡ put name.now value self.old) }
        ensures was { IfOk result (λ b. b ≡ is_some (find name.now self.old)) }
    {
        let key = Vec::from_slice(alloc, name)?;
        Ok(self.inner.insert(key, value)?.is_some())
    }

    /// How many names there are.
    pub fn len(&self) -> usize
        ensures { result ≡ length self.now }
    {
        self.inner.len()
    }

    /// The number of the name.
    pub fn place(&self, name: &[u8]) -> Option<usize>
        ensures { result ≡ place_of name.now self.now }
    {
        self.inner.get_index_of(name)
    }

    /// The name of this number.
    pub fn name_at(&self, i: usize) -> Option<&[u8]>
        ensures { option_copied result ≡ option_map (λ e. e.0) (slice_get self.now i) }
    {
        match self.inner.get_index(i) {
            Some((name, _)) => Some(name.as_slice()),
            None => None,
        }
    }

    /// What the name of this number stands for.
    pub fn value_at(&self, i: usize) -> Option<&V>
        ensures { option_copied result ≡ option_map (λ e. e.1) (slice_get self.now i) }
    {
        match self.inner.get_index(i) {
            Some((_, value)) => Some(value),
            None => None,
        }
    }
}
