//! Items of a descriptor, each with its member.

ghost use Rattle.std.specs.Prelude.{◌≡◌, IfOk};
ghost use Rattle.ec_arguments.specs.Reading as spec;
ghost use Rattle.ec_cut.specs.Cases.{one_item};
ghost use Rattle.ec_cut.specs.Reads.{Reads};
ghost use Rattle.ec_cut.specs.Views.{item_view, items_view};

use crate::arguments::{Front, Member};
use crate::lists::{End, at_end, pass};
use crate::members::next_member;
use crate::pointers::{Literal, Pointer};
use crate::reading::next_symbol;
use ec_base::{List, OutOfMemory};
use ec_ctypes::{Item, Sym};
use std::alloc::Global;

/// The item of a symbol.
fn item_of(sym: Sym) -> Option<Item>
    ensures { result ≡ spec.item_of sym }
{
    match sym {
        Sym::ItemData => Some(Item::Content),
        Sym::ItemIndicator => Some(Item::Indicator),
        Sym::ItemName => Some(Item::Label),
        Sym::ItemType => Some(Item::Code),
        Sym::ItemOctets => Some(Item::Octets),
        _ => None,
    }
}

fn next_item<B: Literal + Copy, A: Pointer + Copy>(
    front: &mut Front<'_, B, A>,
) -> Option<(Item, Member<B, A>)>
    ensures { Reads B.bytes A.view (item_view B.bytes A.view) one_item front.old result front.new }
{
    let sym = next_symbol(front)?;
    let item = item_of(sym)?;
    let member = next_member(front)?;
    Some((item, member))
}

/// The items up to their end, fewer than so many.
pub(crate) fn next_items<B: Literal + Copy, A: Pointer + Copy>(
    alloc: Global,
    most: usize,
    front: &mut Front<'_, B, A>,
) -> Result<Option<List<(Item, Member<B, A>)>>, OutOfMemory>
    ensures { IfOk result (λ read. Reads B.bytes A.view (items_view B.bytes A.view)
        (spec.next_items most) front.old read front.new) }
{
    let mut found = List::new(alloc);
    for _turn in 0..most {
        if at_end(End::Items, front) {
            pass(front);
            return Ok(Some(found));
        }
        match next_item(front) {
            None => return Ok(None),
            Some(item) => found.push(item)?,
        }
    }
    Ok(None)
}
