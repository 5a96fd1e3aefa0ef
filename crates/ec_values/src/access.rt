//! Loads and stores of values in machine words.

ghost use Rattle.std.specs.Prelude.{◌≡◌, OnErr};
ghost use Rattle.ec_memory_defs.specs.Kinds.{kind_type};
ghost use Rattle.ec_memory_defs.specs.Memory.{load, number, store as stored};
ghost use Rattle.ec_memory_defs.specs.declared.kind.Kind.TheVariants as kind;
ghost use Rattle.ec_memory.specs.Store.{outcome, seen};
ghost use Rattle.ec_values.specs.Words.{word_view};

use crate::word::Word;
use ec_base::Trap;
use ec_bytes::{Ptr, U8, U16, U32, U64};
use ec_memory::{Store, Value};
use ec_memory_defs::Kind;

/// The value at a pointer, read as one access (ISO/IEC 9899:1999, 6.3.2.1). The traps are `Null`, `Dead`, `Outside` and
/// `Unset`.
#[inline(always)]
pub fn load(store: &Store, ptr: Ptr, kind: Kind) -> Result<Word, Trap>
    ensures { seen word_view result ≡ load store.now ptr.0 (kind_type kind) }
{
    match kind {
        Kind::Int => match store.load_int(ptr) {
            Ok(number) => Ok(Word::Signed(number as i64)),
            Err(trap) => Err(trap),
        },
        _ => load_other(store, ptr, kind),
    }
}

/// The same of any type.
#[inline(never)]
fn load_other(store: &Store, ptr: Ptr, kind: Kind) -> Result<Word, Trap>
    ensures { seen word_view result ≡ load store.now ptr.0 (kind_type kind) }
{
    match store.load_kind(ptr, kind) {
        Ok(Value::Int(number)) => Ok(Word::of_number(number)),
        Ok(Value::Ptr(ptr)) => Ok(Word::Address(ptr)),
        Err(trap) => Err(trap),
    }
}

/// Stores a value at a pointer, as one access (6.5.16): as many of its low bytes as the type has. The traps are `Null`,
/// `Dead` and `Outside`, after which nothing is changed.
#[inline(always)]
pub fn store(store: &mut Store, ptr: Ptr, kind: Kind, value: Word) -> Result<(), Trap>
    ensures outcome { outcome result store.new
        ≡ stored store.old ptr.0 (kind_type kind) (word_view value) }
    ensures unchanged { OnErr result (store.new ≡ store.old) }
{
    match kind {
        Kind::Int => match value {
            Word::Signed(amount) => store_int(store, ptr, amount),
            _ => store_other(store, ptr, kind, value),
        },
        _ => store_other(store, ptr, kind, value),
    }
}

/// The same of any type.
#[inline(never)]
fn store_other(store: &mut Store, ptr: Ptr, kind: Kind, value: Word) -> Result<(), Trap>
    ensures outcome { outcome result store.new
        ≡ stored store.old ptr.0 (kind_type kind) (word_view value) }
    ensures unchanged { OnErr result (store.new ≡ store.old) }
{
    let number = value.number();
    match kind {
        Kind::Bool => store.write(ptr, U8(number.rem_euclid(1 << 8) as u8)),
        Kind::Char => store.write(ptr, U8(number.rem_euclid(1 << 8) as u8)),
        Kind::UChar => store.write(ptr, U8(number.rem_euclid(1 << 8) as u8)),
        Kind::Short => store.write(ptr, U16(number.rem_euclid(1 << 16) as u16)),
        Kind::UShort => store.write(ptr, U16(number.rem_euclid(1 << 16) as u16)),
        Kind::Int => store.write(ptr, U32(number.rem_euclid(1 << 32) as u32)),
        Kind::UInt => store.write(ptr, U32(number.rem_euclid(1 << 32) as u32)),
        Kind::Long => store.write(ptr, U64(number.rem_euclid(1 << 64) as u64)),
        Kind::ULong => store.write(ptr, U64(number.rem_euclid(1 << 64) as u64)),
        Kind::LLong => store.write(ptr, U64(number.rem_euclid(1 << 64) as u64)),
        Kind::ULLong => store.write(ptr, U64(number.rem_euclid(1 << 64) as u64)),
        Kind::Ptr => store.write(ptr, U64(number.rem_euclid(1 << 64) as u64)),
    }
}

/// Stores a number in an `int` at a pointer, as `store` does: its low four bytes.
#[inline(always)]
pub fn store_int(store: &mut Store, ptr: Ptr, amount: i64) -> Result<(), Trap>
    ensures outcome { outcome result store.new
        ≡ stored store.old ptr.0 (kind_type kind.Int) (number amount) }
    ensures unchanged { OnErr result (store.new ≡ store.old) }
{
    store.write(ptr, U32((amount as i128).rem_euclid(1 << 32) as u32))
}

/// The same in a `long`: its eight bytes.
#[inline(always)]
pub fn store_long(store: &mut Store, ptr: Ptr, amount: i64) -> Result<(), Trap>
    ensures outcome { outcome result store.new
        ≡ stored store.old ptr.0 (kind_type kind.Long) (number amount) }
    ensures unchanged { OnErr result (store.new ≡ store.old) }
{
    store.write(ptr, U64((amount as i128).rem_euclid(1 << 64) as u64))
}

/// The same in a `char`: its lowest byte.
#[inline(always)]
pub fn store_char(store: &mut Store, ptr: Ptr, amount: i64) -> Result<(), Trap>
    ensures outcome { outcome result store.new
        ≡ stored store.old ptr.0 (kind_type kind.Char) (number amount) }
    ensures unchanged { OnErr result (store.new ≡ store.old) }
{
    store.write(ptr, U8((amount as i128).rem_euclid(1 << 8) as u8))
}
