//! Descriptors by their names.

ghost use Rattle.std.specs.Prelude.{◌≡◌, ◌≤◌, ◌-◌, [], length, None, Some, option_map, slice_set, IfErr, IsSome, OnErr, OnOk};
ghost use Rattle.ec_call_defs.specs.Areas.{area_named, item_at, items_of, raised_to, resized, with_area, within};
ghost use Rattle.ec_call_defs.specs.Descriptors.{or_new};
ghost use Rattle.ec_descriptors.specs.Calls.{Changes, count_set, counted, deallocated, filled, item_found, item_seen, item_set};
ghost use Rattle.ec_descriptors.specs.Changes.{changed};
ghost use Rattle.ec_descriptors.specs.Views.{items_view};

use crate::changes::{Change, change_at, change_of};
use crate::items::{AreaItem, item_within, made_items, resize, within};
use crate::stop::AreaStop;
use ec_base::{Bytes, List, OutOfMemory};
use ec_ctypes::Item;
use ec_link::Col;
use ec_transfer_defs::Finding;
use indexmap::IndexMap;
use std::alloc::Global;
use std::marker::Model;

/// Descriptors, in the order in which their names were new. A name is found by its hash, and names compare byte for byte.
#[derive(Drop)]
pub struct Areas {
    named: IndexMap<Vec<u8>, List<AreaItem>>,
}

impl Model for Areas {
    ghost use Rattle.ec_call_defs.specs.Areas.{Areas as Named};
    ghost use Rattle.ec_descriptors.specs.Views.{areas_view};

    ghost Value = { Named };

    ghost view = { λ it. areas_view it.named.entries };
}

impl Areas {
    /// No descriptor. It takes no memory.
    pub fn new(alloc: Global) -> Areas
        ensures { result ≡ [] }
    {
        Areas {
            named: IndexMap::new(alloc),
        }
    }

    /// The items of a descriptor, or `None` where there is none of the name. It takes no memory.
    pub fn items(&self, name: &[u8]) -> Option<&[AreaItem]>
        ensures { option_map (λ items. items_view items.now) result ≡ area_named name.now self.now }
    {
        match self.named.get(name) {
            Some(items) => Some(items.as_slice()),
            None => None,
        }
    }

    /// Puts items under a name: in the place of those that are there, or behind all others.
    fn put(&mut self, name: &[u8], items: List<AreaItem>) -> Result<(), OutOfMemory>
        ensures ok { OnOk result (self.new ≡ with_area name.now (items_view items) self.old) }
        ensures err { OnErr result (self.new ≡ self.old) }
    {
        let key = Vec::from_slice(*self.named.allocator(), name)?;
        self.named.insert(key, items)?;
        Ok(())
    }

    /// Makes an empty descriptor, in the place of one that is there. After want of memory nothing is changed.
    pub fn allocate(&mut self, name: &[u8]) -> Result<(), OutOfMemory>
        ensures ok { OnOk result (self.new ≡ with_area name.now [] self.old) }
        ensures err { OnErr result (self.new ≡ self.old) }
    {
        let empty = List::new(*self.named.allocator());
        self.put(name, empty)
    }

    /// Takes a descriptor away, or finds that there is none of the name. It takes no memory.
    pub fn deallocate(&mut self, name: &[u8]) -> Result<(), AreaStop>
        ensures { Changes result self.old self.new (deallocated name.now self.old) }
    {
        match self.items(name) {
            None => return Err(AreaStop::Found(Finding::NoDescriptor)),
            Some(_) => {}
        }
        let _ = self.named.shift_remove(name);
        Ok(())
    }

    /// Fills a descriptor with a row under its columns, or finds that there is none of the name. After want of memory nothing
    /// is changed.
    pub fn fill(
        &mut self,
        name: &[u8],
        cols: &[Col],
        fields: &[Option<Bytes>],
    ) -> Result<(), AreaStop>
        ensures { Changes result self.old self.new (filled name.now cols.now fields.now self.old) }
    {
        match self.items(name) {
            None => return Err(AreaStop::Found(Finding::NoDescriptor)),
            Some(_) => {}
        }
        match made_items(*self.named.allocator(), cols, fields) {
            Err(_) => Err(AreaStop::OutOfMemory),
            Ok(items) => match self.put(name, items) {
                Err(_) => Err(AreaStop::OutOfMemory),
                Ok(()) => Ok(()),
            },
        }
    }

    /// How many items a descriptor has, or that there is none of the name. It takes no memory.
    pub fn count(&self, name: &[u8]) -> Result<u64, AreaStop>
        ensures { result ≡ counted name.now self.now }
    {
        match self.items(name) {
            Some(items) => Ok(items.len() as u64),
            None => Err(AreaStop::Found(Finding::NoDescriptor)),
        }
    }

    /// The item of an index, the first being 1; or that there is no descriptor of the name, or that the index isn't one from
    /// 1 to the count. It takes no memory.
    pub fn item(&self, name: &[u8], index: i64) -> Result<&AreaItem, AreaStop>
        ensures item { item_seen result ≡ item_found name.now index self.now }
        ensures out { (items : _) → area_named name.now self.now ≡ Some items
            → IfErr result (λ stop. within 1 (length items) index ≡ None) }
    {
        match self.items(name) {
            Some(items) => item_within(items, index),
            None => Err(AreaStop::Found(Finding::NoDescriptor)),
        }
    }

    /// Sets the count of a descriptor that is there.
    fn resize_named(&mut self, name: &[u8], count: usize) -> Result<(), OutOfMemory>
        requires { IsSome (area_named name.now self.old) }
        ensures ok { OnOk result ((items : _) → area_named name.now self.old ≡ Some items
            → self.new ≡ with_area name.now (resized count items) self.old) }
        ensures err { OnErr result (self.new ≡ self.old) }
    {
        match self.named.get_mut(name) {
            Some(items) => resize(items, count),
            None => unreachable!(),
        }
    }

    /// Sets the count of a descriptor, from 0 to 1,000: the first items stay. After want of memory nothing is changed.
    pub fn set_count(&mut self, name: &[u8], count: i64) -> Result<(), AreaStop>
        ensures { Changes result self.old self.new (count_set name.now count self.old) }
    {
        match self.items(name) {
            None => return Err(AreaStop::Found(Finding::NoDescriptor)),
            Some(_) => {}
        }
        match within(0, 1000, count) {
            None => Err(AreaStop::Found(Finding::DescriptorIndex)),
            Some(count) => match self.resize_named(name, count as usize) {
                Err(_) => Err(AreaStop::OutOfMemory),
                Ok(()) => Ok(()),
            },
        }
    }

    /// Changes an item of a descriptor that is there.
    fn change_named(&mut self, name: &[u8], index: usize, change: Change) -> Result<(), OutOfMemory>
        requires named { IsSome (area_named name.now self.old) }
        requires index { 1 ≤ index }
        ensures ok { OnOk result ((items : _) → area_named name.now self.old ≡ Some items
            → self.new ≡ with_area name.now (slice_set (raised_to index items) (index - 1)
            (changed change (or_new (item_at index items)))) self.old) }
        ensures err { OnErr result (self.new ≡ self.old) }
    {
        match self.named.get_mut(name) {
            Some(items) => change_at(items, index, change),
            None => unreachable!(),
        }
    }

    /// Sets DATA, INDICATOR or TYPE of an item, of an index from 1 to 1,000, to a text or NULL. It raises the count where
    /// there are fewer items. A text of INDICATOR or TYPE that is no `int` changes nothing, nor does want of memory.
    pub fn set_item(
        &mut self,
        name: &[u8],
        index: i64,
        what: Item,
        text: Option<Bytes>,
    ) -> Result<(), AreaStop>
        ensures { Changes result self.old self.new (item_set name.now index what text self.old) }
    {
        match self.items(name) {
            None => return Err(AreaStop::Found(Finding::NoDescriptor)),
            Some(_) => {}
        }
        let Some(at) = within(1, 1000, index) else {
            return Err(AreaStop::Found(Finding::DescriptorIndex));
        };
        let Some(change) = change_of(what, text) else {
            return Err(AreaStop::Found(Finding::NotAnInteger));
        };
        match self.change_named(name, at as usize, change) {
            Err(_) => Err(AreaStop::OutOfMemory),
            Ok(()) => Ok(()),
        }
    }
}
