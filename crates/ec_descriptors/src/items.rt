//! The items of a descriptor.

ghost use Rattle.std.specs.Prelude.{◌≡◌, ◌≤◌, ◌^◌, ◌<◌, ◌++◌, length, None, IfErr, IfOk, IfSome, OnErr, OnOk};
ghost use Rattle.ec_call_defs.specs.Areas.{contents, items_of, new_item, raised_to, resized, within};
ghost use Rattle.ec_descriptors.specs.Calls.{item_of, item_seen};
ghost use Rattle.ec_descriptors.specs.Views.{item_view, items_view};

use crate::stop::AreaStop;
use ec_base::{Bytes, List, OutOfMemory};
use ec_link::Col;
use ec_transfer_defs::Finding;
use std::alloc::Global;

/// An item of a descriptor (PostgreSQL manual, chapter ECPG, section "Using Descriptor Areas").
#[derive(Debug, Drop)]
pub struct AreaItem {
    /// DATA, or `None` for NULL.
    pub content: Option<Bytes>,
    /// NAME: that of the column that the item came from.
    pub label: Bytes,
    /// TYPE: the code of the item's type.
    pub code: i32,
}

/// A new item: NULL, without a name, of type 12. It takes no memory.
pub(crate) fn new_item(alloc: Global) -> AreaItem
    ensures { item_view result ≡ new_item }
{
    AreaItem {
        content: None,
        label: Bytes::new(alloc),
        code: 12,
    }
}

/// Raises the count of items to this one, by new items behind the others. After want of memory they are as they were.
pub(crate) fn raise(items: &mut List<AreaItem>, count: usize) -> Result<(), OutOfMemory>
    ensures ok { OnOk result (items_view items.new ≡ raised_to count (items_view items.old)) }
    ensures err { OnErr result (items.new ≡ items.old) }
{
    let alloc = items.allocator();
    let before = items.len();
    let mut left = count.saturating_sub(before);
    while 0 < left {
        match items.push(new_item(alloc)) {
            Ok(()) => left -= 1,
            Err(stop) => {
                items.truncate(before);
                return Err(stop);
            }
        }
    }
    Ok(())
}

/// Sets the count of items: the first ones stay. After want of memory they are as they were.
pub(crate) fn resize(items: &mut List<AreaItem>, count: usize) -> Result<(), OutOfMemory>
    ensures ok { OnOk result (items_view items.new ≡ resized count (items_view items.old)) }
    ensures err { OnErr result (items.new ≡ items.old) }
{
    if count < items.len() {
        items.truncate(count);
        return Ok(());
    }
    raise(items, count)
}

/// A number from the first to the second.
pub fn within(low: u64, high: u64, number: i64) -> Option<u64>
    ensures within { result ≡ within low high number }
    ensures from { IfSome result (λ n. low ≤ n) }
    ensures to { IfSome result (λ n. n ≤ high) }
{
    let wide = number as i128;
    if low as i128 <= wide && wide <= high as i128 {
        Some(number.unsigned_abs())
    } else {
        None
    }
}

/// The item of an index, the first being 1.
pub(crate) fn item_within(items: &[AreaItem], index: i64) -> Result<&AreaItem, AreaStop>
    ensures item { item_seen result ≡ item_of index (items_view items.now) }
    ensures out { IfErr result (λ stop. within 1 (length items.now) index ≡ None) }
{
    match within(1, items.len() as u64, index) {
        None => Err(AreaStop::Found(Finding::DescriptorIndex)),
        Some(at) => match items.get(at as usize - 1) {
            Some(item) => Ok(item),
            None => unreachable!(),
        },
    }
}

/// A field, once more.
pub(crate) fn field_copy(alloc: Global, field: &Option<Bytes>) -> Result<Option<Bytes>, OutOfMemory>
    ensures { IfOk result (λ copy. copy ≡ field.now) }
{
    match field {
        None => Ok(None),
        Some(text) => Ok(Some(Bytes::from_slice(alloc, text.as_slice())?)),
    }
}

/// The item of a field under its column.
fn made_item(alloc: Global, col: &Col, field: &Option<Bytes>) -> Result<AreaItem, OutOfMemory>
    ensures { IfOk result (λ item. item_view item
        ≡ record { content = field.now; label = col.now.name; code = col.now.code }) }
{
    let content = field_copy(alloc, field)?;
    let label = Bytes::from_slice(alloc, col.name.as_slice())?;
    Ok(AreaItem {
        content,
        label,
        code: col.code,
    })
}

/// The items of a row, under its columns.
pub(crate) fn made_items(
    alloc: Global,
    cols: &[Col],
    fields: &[Option<Bytes>],
) -> Result<List<AreaItem>, OutOfMemory>
    ensures { IfOk result (λ made. items_view made ≡ items_of cols.now fields.now) }
{
    let mut made = List::new(alloc);
    let mut left = fields;
    for col in cols {
        let [field, more @ ..] = left else {
            return Ok(made);
        };
        made.push(made_item(alloc, col, field)?)?;
        left = more;
    }
    Ok(made)
}

/// Puts the contents of items behind parameters.
pub fn with_contents(
    params: List<Option<Bytes>>,
    items: &[AreaItem],
) -> Result<List<Option<Bytes>>, OutOfMemory>
    ensures { IfOk result (λ all. all ≡ params ++ contents (items_view items.now)) }
{
    let alloc = params.allocator();
    let mut all = params;
    for item in items {
        all.push(field_copy(alloc, &item.content)?)?;
    }
    Ok(all)
}
