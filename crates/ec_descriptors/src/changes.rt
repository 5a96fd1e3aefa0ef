//! What SET DESCRIPTOR changes of an item (PostgreSQL manual, chapter ECPG, section "SET DESCRIPTOR").

ghost use Rattle.std.specs.Prelude.{◌≡◌, ◌≤◌, ◌-◌, option_map, slice_set, OnErr, OnOk};
ghost use Rattle.std.specs.Option.{option_copied};
ghost use Rattle.ec_call_defs.specs.Areas.{item_at, number_as, raised_to, set_item};
ghost use Rattle.ec_call_defs.specs.Descriptors.{or_new};
ghost use Rattle.ec_ctypes.specs.declared.embedded.emb.Item.TheVariants as kinds;
ghost use Rattle.ec_ctypes.specs.declared.types.arith.Arith.TheVariants.{Int};
ghost use Rattle.ec_meaning_defs.specs.evaluation.State.{Item as ItemData};
ghost use Rattle.ec_descriptors.specs.Changes.{changed};
ghost use Rattle.ec_descriptors.specs.Views.{item_view, items_view};

use crate::items::{AreaItem, raise};
use ec_base::{Bytes, List, OutOfMemory};
use ec_convert::number_in;
use ec_ctypes::{Arith, Item};

/// What is changed of an item.
#[derive(Debug, Drop)]
pub(crate) enum Change {
    /// It has this content.
    Content(Option<Bytes>),
    /// It is NULL.
    Null,
    /// Nothing is.
    Nothing,
    /// Its type has this code.
    Code(i32),
}

/// A text as a number of type `int`. NULL is none.
fn int_in(text: &Option<Bytes>) -> Option<i128>
    ensures { result ≡ number_as Int text.now }
{
    match text {
        None => None,
        Some(text) => number_in(Arith::Int, text.as_slice()),
    }
}

/// What the text of INDICATOR changes: a negative number makes the item NULL, and another one leaves it.
fn indicated(text: &Option<Bytes>) -> Option<Change>
    ensures { (it : ItemData) → option_map (λ change. changed change it) result
        ≡ set_item kinds.Indicator text.now it }
{
    match int_in(text) {
        None => None,
        Some(number) => {
            if number < 0 {
                Some(Change::Null)
            } else {
                Some(Change::Nothing)
            }
        }
    }
}

/// What the text of TYPE changes.
fn coded(text: &Option<Bytes>) -> Option<Change>
    ensures { (it : ItemData) → option_map (λ change. changed change it) result
        ≡ set_item kinds.Code text.now it }
{
    match int_in(text) {
        None => None,
        Some(number) => match i32::try_from(number) {
            Ok(code) => Some(Change::Code(code)),
            Err(_) => unreachable!(),
        },
    }
}

/// What the text of an item changes, or `None` where it is no `int` as INDICATOR or TYPE. NAME and RETURNED_OCTET_LENGTH
/// aren't set.
pub(crate) fn change_of(what: Item, text: Option<Bytes>) -> Option<Change>
    ensures { (it : ItemData) → option_map (λ change. changed change it) result
        ≡ set_item what text it }
{
    match what {
        Item::Content => Some(Change::Content(text)),
        Item::Indicator => indicated(&text),
        Item::Code => coded(&text),
        Item::Label => None,
        Item::Octets => None,
    }
}

/// Changes an item.
fn change_item(item: &mut AreaItem, change: Change)
    ensures { item_view item.new ≡ changed change (item_view item.old) }
{
    match change {
        Change::Content(text) => item.content = text,
        Change::Null => item.content = None,
        Change::Nothing => {}
        Change::Code(code) => item.code = code,
    }
}

/// Changes the item of an index, the first being 1. It raises the count where there are fewer. After want of memory the
/// items are as they were.
pub(crate) fn change_at(
    items: &mut List<AreaItem>,
    index: usize,
    change: Change,
) -> Result<(), OutOfMemory>
    requires { 1 ≤ index }
    ensures ok { OnOk result (items_view items.new
        ≡ slice_set (raised_to index (items_view items.old)) (index - 1)
        (changed change (or_new (item_at index (items_view items.old))))) }
    ensures err { OnErr result (items.new ≡ items.old) }
{
    raise(items, index)?;
    match items.get_mut(index - 1) {
        Some(item) => change_item(item, change),
        None => unreachable!(),
    }
    Ok(())
}
