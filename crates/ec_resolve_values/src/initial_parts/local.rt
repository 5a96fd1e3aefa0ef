//! The stores of an object of a function, each of one part.

ghost use Rattle.std.specs.Prelude.{◌≡◌, IfOk, map};
ghost use Rattle.ec_code.specs.Views.{expression_view, expressions_view};
ghost use Rattle.ec_meaning_defs.specs.resolved.Resolved.{slot as object_at};
ghost use Rattle.ec_memory_defs.specs.Kinds.{kind_type};
ghost use Rattle.ec_resolving_defs.specs.Initializers.{part_stored, parts_stored, place_in_object, scalar_part, struct_part, text_part};
ghost use Rattle.ec_resolve_values.specs.initial_parts.Parts.{part_view, parts_view, stored_each};

use crate::initial_parts::part::Part;
use ec_base::{Bytes, List, OutOfMemory, beside};
use ec_code::{Binary, Expression, Leaf, Unary};
use ec_memory_defs::Kind;
use std::alloc::Global;

/// The place of a part in the object that stands at `slot`.
fn place_at(alloc: Global, slot: u32, offset: u64) -> Result<Expression, OutOfMemory>
    ensures { IfOk result (λ e. expression_view e ≡ place_in_object offset (object_at slot)) }
{
    let object = Expression::leaf(alloc, Leaf::Slot(slot));
    if offset == 0 {
        return Ok(object);
    }
    object.unary(Unary::Member(offset))
}

/// A value is stored in a part.
fn scalar_store(
    alloc: Global,
    slot: u32,
    offset: u64,
    kind: Kind,
    value: Expression,
) -> Result<Expression, OutOfMemory>
    ensures { IfOk result (λ e. expression_view e
        ≡ part_stored (object_at slot)
        (scalar_part offset (kind_type kind) (expression_view value))) }
{
    let (value, place) = beside(value, place_at(alloc, slot, offset))?;
    Expression::binary(alloc, Binary::Store(kind), place, value)
}

/// The bytes of a literal are put into a part.
fn text_store(
    alloc: Global,
    slot: u32,
    offset: u64,
    bytes: Bytes,
) -> Result<Expression, OutOfMemory>
    ensures { IfOk result (λ e. expression_view e
        ≡ part_stored (object_at slot) (text_part offset bytes)) }
{
    let (bytes, place) = beside(bytes, place_at(alloc, slot, offset))?;
    place.unary(Unary::Put(bytes))
}

/// A struct is copied into a part.
fn struct_store(
    alloc: Global,
    slot: u32,
    offset: u64,
    size: u64,
    address: Expression,
) -> Result<Expression, OutOfMemory>
    ensures { IfOk result (λ e. expression_view e
        ≡ part_stored (object_at slot) (struct_part offset size (expression_view address))) }
{
    let (address, place) = beside(address, place_at(alloc, slot, offset))?;
    Expression::binary(alloc, Binary::Copy(size), place, address)
}

/// The store of one part.
fn store_of(alloc: Global, slot: u32, part: Part) -> Result<Expression, OutOfMemory>
    ensures { IfOk result (λ e. expression_view e
        ≡ part_stored (object_at slot) (part_view part)) }
{
    match part {
        Part::Scalar {
            offset,
            kind,
            value,
        } => scalar_store(alloc, slot, offset, kind, value),
        Part::Text { offset, bytes } => text_store(alloc, slot, offset, bytes),
        Part::Struct {
            offset,
            size,
            address,
        } => struct_store(alloc, slot, offset, size, address),
    }
}

/// The stores, one by one.
fn each_store(alloc: Global, slot: u32, parts: List<Part>) -> Result<List<Expression>, OutOfMemory>
    ensures { IfOk result (λ es. map expression_view es
        ≡ stored_each (object_at slot) (parts_view parts)) }
{
    let mut stores = List::with_capacity(alloc, parts.len())?;
    for part in parts {
        let store = store_of(alloc, slot, part)?;
        stores.push(store)?;
    }
    Ok(stores)
}

/// The stores that initialize the object at `slot` of a function, in the order of the parts (ISO/IEC 9899:1999, 6.7.8, 19
/// and 23), as a declaration with an initializer has them. The one error is want of memory.
pub fn stores(alloc: Global, slot: u32, parts: List<Part>) -> Result<List<Expression>, OutOfMemory>
    ensures { IfOk result (λ es. expressions_view es
        ≡ parts_stored (object_at slot) (parts_view parts)) }
{
    let stores = each_store(alloc, slot, parts)?;
    Ok(stores)
}
