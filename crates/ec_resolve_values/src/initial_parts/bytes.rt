//! The bytes of values (ISO/IEC 9899:1999, 6.2.6).

ghost use Rattle.std.specs.Prelude.{◌≡◌, IfOk};
ghost use Rattle.ec_memory_defs.specs.Kinds.{kind_type};
ghost use Rattle.ec_memory_defs.specs.Memory.{encoded, little_endian_bytes, scalar_size};
ghost use Rattle.ec_values.specs.Words.{word_view};
ghost use Rattle.ec_resolve_values.specs.initial_parts.Known.{low_part};

use ec_base::{Bytes, List, OutOfMemory};
use ec_memory_defs::Kind;
use ec_values::Word;
use std::alloc::Global;

/// How many bytes a value of this type has.
fn size_of(kind: Kind) -> u64
    ensures { result ≡ scalar_size (kind_type kind) }
{
    match kind {
        Kind::Bool => 1,
        Kind::Char => 1,
        Kind::UChar => 1,
        Kind::Short => 2,
        Kind::UShort => 2,
        Kind::Int => 4,
        Kind::UInt => 4,
        Kind::Long => 8,
        Kind::ULong => 8,
        Kind::LLong => 8,
        Kind::ULLong => 8,
        Kind::Ptr => 8,
    }
}

/// The low bytes of a number, as many as the type has.
fn low_part(kind: Kind, number: i128) -> u64
    ensures { result ≡ low_part (kind_type kind) number }
{
    match kind {
        Kind::Bool => number.rem_euclid(1 << 8) as u64,
        Kind::Char => number.rem_euclid(1 << 8) as u64,
        Kind::UChar => number.rem_euclid(1 << 8) as u64,
        Kind::Short => number.rem_euclid(1 << 16) as u64,
        Kind::UShort => number.rem_euclid(1 << 16) as u64,
        Kind::Int => number.rem_euclid(1 << 32) as u64,
        Kind::UInt => number.rem_euclid(1 << 32) as u64,
        Kind::Long => number.rem_euclid(1 << 64) as u64,
        Kind::ULong => number.rem_euclid(1 << 64) as u64,
        Kind::LLong => number.rem_euclid(1 << 64) as u64,
        Kind::ULLong => number.rem_euclid(1 << 64) as u64,
        Kind::Ptr => number.rem_euclid(1 << 64) as u64,
    }
}

/// So many bytes of a number, the least significant one first.
fn little_endian(alloc: Global, count: u64, number: u64) -> Result<Bytes, OutOfMemory>
    ensures { IfOk result (λ bytes. bytes ≡ little_endian_bytes count number) }
{
    let mut bytes = List::new(alloc);
    let mut left = count;
    let mut rest = number;
    while left > 0 {
        bytes.push((rest % 256) as u8)?;
        rest /= 256;
        left -= 1;
    }
    Ok(bytes)
}

/// The bytes of a value of this type.
pub fn encoded(alloc: Global, kind: Kind, word: Word) -> Result<Bytes, OutOfMemory>
    ensures { IfOk result (λ bytes. bytes ≡ encoded (kind_type kind) (word_view word)) }
{
    little_endian(alloc, size_of(kind), low_part(kind, word.number()))
}
