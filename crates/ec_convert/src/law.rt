//! What conversions promise together.

ghost use Rattle.std.specs.Prelude.{◌≡◌, ℤ, Ok};
ghost use Rattle.std.specs.Fmt.{signed_decimal};
ghost use Rattle.ec_ctypes.specs.declared.types.arith.Arith.{Arith};
ghost use Rattle.ec_ctypes.specs.Arithmetic.{IsValue};
ghost use Rattle.ec_transfer_defs.specs.Conversion.{field_bytes, integer_bytes};
ghost use Rattle.ec_transfer_defs.specs.Hosts.{integer};

/// A number that a host gives as a parameter is stored as the same bytes when it comes back as a field.
pub fn numbers_come_back()
    ensures { (t : Arith) (z : ℤ) → IsValue t z
        → field_bytes (integer t) (signed_decimal z) ≡ Ok (integer_bytes t z) }
{}
