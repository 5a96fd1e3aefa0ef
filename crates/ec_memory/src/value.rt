//! The values that are loaded and stored.

ghost use Rattle.std.specs.Prelude.{◌≡◌, ℕ, ◌<◌, List, length, slice_index, refl};
ghost use Rattle.ec_ctypes.specs.declared.types.arith.Arith.TheVariants as arith;
ghost use Rattle.ec_memory_defs.specs.Memory.{ScalarType, integer_type, pointer_type, scalar_size, Fits, decoded, encoded};
ghost use Rattle.ec_memory.specs.Values.{value_view, number_in};

use ec_bytes::{Flag, I8, I16, I32, I64, Ptr, Scalar, U8, U16, U32, U64};

/// A value of a scalar type of C (ISO/IEC 9899:1999, 6.2.5): a number, or a pointer.
#[derive(Clone, Copy, Debug, PartialEq, Eq)]
pub enum Value {
    /// The value of an integer type.
    Int(i128),
    /// The value of a pointer type.
    Ptr(Ptr),
}

/// A scalar that stands for the values of a type of C.
pub(crate) trait Held: Scalar {
    ghost kind: { ScalarType };

    /// The value that the scalar stands for.
    fn value(self) -> Value
        ensures { (bytes : List ℕ) → length bytes ≡ Self.SIZE →
            ((i : ℕ) → slice_index bytes i < 256)
            → self ≡ Self.decode bytes → value_view result ≡ decoded kind bytes };

    /// The scalar that stands for a value of the type.
    fn of(value: Value) -> Self
        requires { Fits kind (value_view value) }
        ensures { Self.encode result ≡ encoded kind (value_view value) };

    ghost kind_size: { scalar_size kind ≡ Self.SIZE };
}

impl Held for Flag {
    ghost kind = { integer_type arith.Bool };

    fn value(self) -> Value {
        Value::Int(self.0 as i128)
    }

    fn of(value: Value) -> Flag {
        Flag(number(value) != 0)
    }

    ghost kind_size = { refl };
}

impl Held for I8 {
    ghost kind = { integer_type arith.Char };

    fn value(self) -> Value {
        Value::Int(self.0 as i128)
    }

    fn of(value: Value) -> I8 {
        I8(number(value) as i8)
    }

    ghost kind_size = { refl };
}

impl Held for U8 {
    ghost kind = { integer_type arith.UChar };

    fn value(self) -> Value {
        Value::Int(self.0 as i128)
    }

    fn of(value: Value) -> U8 {
        U8(number(value) as u8)
    }

    ghost kind_size = { refl };
}

impl Held for I16 {
    ghost kind = { integer_type arith.Short };

    fn value(self) -> Value {
        Value::Int(self.0 as i128)
    }

    fn of(value: Value) -> I16 {
        I16(number(value) as i16)
    }

    ghost kind_size = { refl };
}

impl Held for U16 {
    ghost kind = { integer_type arith.UShort };

    fn value(self) -> Value {
        Value::Int(self.0 as i128)
    }

    fn of(value: Value) -> U16 {
        U16(number(value) as u16)
    }

    ghost kind_size = { refl };
}

impl Held for I32 {
    ghost kind = { integer_type arith.Int };

    fn value(self) -> Value {
        Value::Int(self.0 as i128)
    }

    fn of(value: Value) -> I32 {
        I32(number(value) as i32)
    }

    ghost kind_size = { refl };
}

impl Held for U32 {
    ghost kind = { integer_type arith.UInt };

    fn value(self) -> Value {
        Value::Int(self.0 as i128)
    }

    fn of(value: Value) -> U32 {
        U32(number(value) as u32)
    }

    ghost kind_size = { refl };
}

impl Held for I64 {
    ghost kind = { integer_type arith.Long };

    fn value(self) -> Value {
        Value::Int(self.0 as i128)
    }

    fn of(value: Value) -> I64 {
        I64(number(value) as i64)
    }

    ghost kind_size = { refl };
}

impl Held for U64 {
    ghost kind = { integer_type arith.ULong };

    fn value(self) -> Value {
        Value::Int(self.0 as i128)
    }

    fn of(value: Value) -> U64 {
        U64(number(value) as u64)
    }

    ghost kind_size = { refl };
}

impl Held for Ptr {
    ghost kind = { pointer_type };

    fn value(self) -> Value {
        Value::Ptr(self)
    }

    fn of(value: Value) -> Ptr {
        match value {
            Value::Ptr(ptr) => ptr,
            Value::Int(_) => Ptr(0),
        }
    }

    ghost kind_size = { refl };
}

/// The number that a value is; a pointer is none.
fn number(value: Value) -> i128
    ensures { result ≡ number_in (value_view value) }
{
    match value {
        Value::Int(number) => number,
        Value::Ptr(_) => 0,
    }
}
