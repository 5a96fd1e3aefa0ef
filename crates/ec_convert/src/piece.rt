//! The bytes that a field stores in an element.

ghost use Rattle.std.specs.Prelude.{◌≡◌, ◌≤◌, ◌<◌, ◌^◌, ◌++◌, ℕ, length, replicate, pos, Ok, Err, IfOk, OnErr};
ghost use Rattle.std.specs.Int.{w32};
ghost use Rattle.ec_bytes.specs.Scalars.{signed_bytes};
ghost use Rattle.ec_ctypes.specs.declared.types.arith.Arith.TheVariants.{Int};
ghost use Rattle.ec_ctypes.specs.Arithmetic.{IsValue};
ghost use Rattle.ec_convert.specs.Elements.{held_by};
ghost use Rattle.ec_convert.specs.Pieces.{piece_bytes, IsPiece, bytes_or, IsBounded};
ghost use Rattle.ec_memory.specs.Store.{outcome};
ghost use Rattle.ec_memory_defs.specs.Memory.{put};
ghost use Rattle.ec_transfer_defs.specs.Conversion.{field_bytes, is_cut, integer_bytes, number_bytes, truth_bytes, field_number};
ghost use Rattle.ec_transfer_defs.specs.Hosts.{characters, counted};

use crate::element::Element;
use crate::numbers::number_in;
use ec_base::Trap;
use ec_bytes::{Flag, I8, I16, I32, I64, Ptr, Scalar, U8, U16, U32, U64};
use ec_ctypes::Arith;
use ec_memory::Store;
use ec_transfer_defs::Finding;

/// The bytes that a field stores, by what is taken of the field.
#[derive(Clone, Copy, Debug)]
pub(crate) enum Piece {
    /// The bytes of a number.
    Number(Arith, i128),
    /// So many bytes of the field, and so many zero bytes.
    Text(usize, u64),
    /// How many bytes of the field are taken, these, and so many zero bytes.
    Counted(u32, u64),
}

/// What a field stores in an element, or what is wrong with it.
pub(crate) fn piece_of(element: Element, field: &[u8]) -> Result<Piece, Finding>
    requires { IsBounded (held_by element) }
    ensures bytes { bytes_or field.now result ≡ field_bytes (held_by element) field.now }
    ensures fits { IfOk result (IsPiece field.now) }
{
    match element {
        Element::Integer(ty) => number_piece(ty, field),
        Element::Truth => truth_piece(field),
        Element::Characters(n) => Ok(array_piece(n, field)),
        Element::Pointed => Ok(Piece::Text(field.len(), 1)),
        Element::Counted(n) => Ok(counted_piece(n as u32, field)),
    }
}

/// The bytes of the number that a field is.
fn number_piece(ty: Arith, field: &[u8]) -> Result<Piece, Finding>
    ensures bytes { bytes_or field.now result ≡ number_bytes ty (field_number field.now) }
    ensures fits { IfOk result (IsPiece field.now) }
{
    match number_in(ty, field) {
        Some(number) => Ok(Piece::Number(ty, number)),
        None if ty.is_signed() => Err(Finding::NotAnInteger),
        None => Err(Finding::NotUnsigned),
    }
}

/// The byte of the truth value that a field is.
fn truth_piece(field: &[u8]) -> Result<Piece, Finding>
    ensures bytes { bytes_or field.now result ≡ truth_bytes field.now }
    ensures fits { IfOk result (IsPiece field.now) }
{
    match field {
        [b't'] => Ok(Piece::Number(Arith::Bool, 1)),
        [b'f'] => Ok(Piece::Number(Arith::Bool, 0)),
        _ => Err(Finding::NotABool),
    }
}

/// A field in a char array: with a zero byte where there is room for it.
fn array_piece(n: u64, field: &[u8]) -> Piece
    ensures bytes { Ok (piece_bytes field.now result) ≡ field_bytes (characters n) field.now }
    ensures fits { IsPiece field.now result }
{
    if (field.len() as u64) < n {
        Piece::Text(field.len(), 1)
    } else {
        Piece::Text(n as usize, 0)
    }
}

/// A field in a VARCHAR, with its length and zero bytes to the end.
fn counted_piece(n: u32, field: &[u8]) -> Piece
    requires { n ≤ 2 ^ 24 }
    ensures bytes { Ok (piece_bytes field.now result) ≡ field_bytes (counted n) field.now }
    ensures fits { IsPiece field.now result }
{
    if field.len() < n as usize {
        Piece::Counted(field.len() as u32, n as u64 - field.len() as u64)
    } else {
        Piece::Counted(n, 0)
    }
}

/// Whether a field loses bytes in an element.
pub(crate) fn is_cut(element: Element, field: &[u8]) -> bool
    ensures { result ≡ is_cut (held_by element) field.now }
{
    match element {
        Element::Characters(n) => n < field.len() as u64,
        Element::Counted(n) => n < field.len() as u64,
        Element::Integer(_) => false,
        Element::Truth => false,
        Element::Pointed => false,
    }
}

/// Puts a piece at a pointer, as one access.
pub(crate) fn put_piece(store: &mut Store, at: Ptr, piece: Piece, field: &[u8]) -> Result<(), Trap>
    requires { IsPiece field.now piece }
    ensures outcome { outcome result store.new
        ≡ put store.old at.0 (piece_bytes field.now piece) }
    ensures unchanged { OnErr result (store.new ≡ store.old) }
{
    match piece {
        Piece::Number(ty, number) => put_number(store, at, ty, number),
        Piece::Text(taken, zeros) => put_text(store, at, &field[..taken], zeros),
        Piece::Counted(taken, zeros) => put_counted(store, at, &field[..taken as usize], zeros),
    }
}

/// Puts a text, and zero bytes behind it. All of its bytes are lent, after one test of them.
fn put_text(store: &mut Store, at: Ptr, text: &[u8], zeros: u64) -> Result<(), Trap>
    requires { zeros ≤ 2 ^ 24 }
    ensures outcome { outcome result store.new ≡ put store.old at.0 (text.now ++ replicate zeros 0) }
    ensures unchanged { OnErr result (store.new ≡ store.old) }
{
    let length = text.len() as u64;
    let mut bytes = store.lend(at, length + zeros)?;
    bytes.put(0, text);
    bytes.fill(length, zeros, 0);
    Ok(())
}

/// Puts the length of a text, the text, and zero bytes behind it. All bytes of the VARCHAR are lent, after one test of
/// them: the length is set as an element, and the text is put behind it.
fn put_counted(store: &mut Store, at: Ptr, text: &[u8], zeros: u64) -> Result<(), Trap>
    requires length { length text.now < 2 ^ 31 }
    requires zeros { zeros ≤ 2 ^ 24 }
    ensures outcome { outcome result store.new ≡ put store.old at.0
        (integer_bytes Int (pos (length text.now)) ++ text.now ++ replicate zeros 0) }
    ensures unchanged { OnErr result (store.new ≡ store.old) }
{
    let length = text.len() as u64;
    let mut bytes = store.lend(at, 4 + length + zeros)?;
    bytes.set(0, counted_length(length));
    bytes.put(4, text);
    bytes.fill(4 + length, zeros, 0);
    Ok(())
}

/// A length as an `int`.
fn counted_length(length: u64) -> I32
    requires { length < 2 ^ 31 }
    ensures { signed_bytes w32 result.0 ≡ integer_bytes Int (pos length) }
{
    I32(length as i32)
}

/// Puts the bytes of a number at a pointer.
pub(crate) fn put_number(store: &mut Store, at: Ptr, ty: Arith, number: i128) -> Result<(), Trap>
    requires { IsValue ty number }
    ensures outcome { outcome result store.new ≡ put store.old at.0 (integer_bytes ty number) }
    ensures unchanged { OnErr result (store.new ≡ store.old) }
{
    match ty {
        Arith::Bool => set_element(store, at, Flag(number != 0)),
        Arith::Char => set_element(store, at, I8(number as i8)),
        Arith::UChar => set_element(store, at, U8(number as u8)),
        Arith::Short => set_element(store, at, I16(number as i16)),
        Arith::UShort => set_element(store, at, U16(number as u16)),
        Arith::Int => set_element(store, at, I32(number as i32)),
        Arith::UInt => set_element(store, at, U32(number as u32)),
        Arith::Long | Arith::LLong => set_element(store, at, I64(number as i64)),
        Arith::ULong | Arith::ULLong => set_element(store, at, U64(number as u64)),
    }
}

/// Sets the element at a pointer. It alone is tested, and none of its neighbours.
fn set_element<T: Scalar>(store: &mut Store, at: Ptr, value: T) -> Result<(), Trap>
    ensures outcome { outcome result store.new ≡ put store.old at.0 (T.encode value) }
    ensures unchanged { OnErr result (store.new ≡ store.old) }
{
    let mut element = store.elements::<T>(at, 1, T::SIZE as u64)?;
    element.set(0, value);
    Ok(())
}
