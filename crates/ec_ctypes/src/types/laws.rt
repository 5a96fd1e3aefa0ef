//! What holds of every conversion, each as the contract of a function that does nothing.
ghost use Rattle.std.specs.Prelude.{◌≡◌, ℤ, pos, negsuc, ◌-◌, ◌^◌};
ghost use Rattle.ec_ctypes.specs.declared.types.arith.Arith.{Arith};
ghost use Rattle.ec_ctypes.specs.declared.types.arith.Arith.TheVariants.{Bool as Boolean, Char, UChar, Short, UShort, Int, UInt, Long, ULong, LLong, ULLong};
ghost use Rattle.ec_ctypes.specs.Arithmetic.{converted, promoted, usual_type, Converts, WrapsBetween};

/// Each number has one value of each integer type to which it converts (ISO/IEC 9899:1999, 6.3.1.2 and 6.3.1.3).
pub fn one_conversion()
    ensures one { (to : Arith) (value got : ℤ) → Converts to value got → got ≡ converted to value }
    ensures exists { (to : Arith) (value : ℤ) → Converts to value (converted to value) }
{}

/// Worked examples of conversions of numbers, of promotions and of common types. `negsuc n` is the number -n - 1.
pub fn conversion_examples()
    ensures bool_0 { converted Boolean (pos 0) ≡ pos 0 }
    ensures bool_256 { converted Boolean (pos 256) ≡ pos 1 }
    ensures bool_negative { converted Boolean (negsuc 0) ≡ pos 1 }
    ensures char_200 { converted Char (pos 200) ≡ negsuc 55 }
    ensures uint_negative { converted UInt (negsuc 0) ≡ pos 4294967295 }
    ensures ullong_negative { converted ULLong (negsuc 0) ≡ pos 18446744073709551615 }
    ensures long_2_to_63 { converted Long (pos (2 ^ 63)) ≡ negsuc (2 ^ 63 - 1) }
    ensures char_edges { WrapsBetween Char (negsuc 127) (pos 127) }
    ensures uchar_edges { WrapsBetween UChar (pos 0) (pos 255) }
    ensures short_edges { WrapsBetween Short (negsuc 32767) (pos 32767) }
    ensures ushort_edges { WrapsBetween UShort (pos 0) (pos 65535) }
    ensures int_edges { WrapsBetween Int (negsuc 2147483647) (pos 2147483647) }
    ensures uint_edges { WrapsBetween UInt (pos 0) (pos 4294967295) }
    ensures long_edges { WrapsBetween Long (negsuc (2 ^ 63 - 1)) (pos (2 ^ 63 - 1)) }
    ensures ulong_edges { WrapsBetween ULong (pos 0) (pos 18446744073709551615) }
    ensures llong_edges { WrapsBetween LLong (negsuc (2 ^ 63 - 1)) (pos (2 ^ 63 - 1)) }
    ensures ullong_edges { WrapsBetween ULLong (pos 0) (pos 18446744073709551615) }
    ensures bool_promoted { promoted Boolean ≡ Int }
    ensures char_promoted { promoted Char ≡ Int }
    ensures uchar_promoted { promoted UChar ≡ Int }
    ensures short_promoted { promoted Short ≡ Int }
    ensures ushort_promoted { promoted UShort ≡ Int }
    ensures int_promoted { promoted Int ≡ Int }
    ensures uint_promoted { promoted UInt ≡ UInt }
    ensures long_promoted { promoted Long ≡ Long }
    ensures ulong_promoted { promoted ULong ≡ ULong }
    ensures llong_promoted { promoted LLong ≡ LLong }
    ensures ullong_promoted { promoted ULLong ≡ ULLong }
    ensures uint_with_long { usual_type UInt Long ≡ Long }
    ensures ulong_with_llong { usual_type ULong LLong ≡ ULLong }
    ensures uint_with_int { usual_type UInt Int ≡ UInt }
    ensures ushort_with_short { usual_type UShort Short ≡ Int }
    ensures char_with_char { usual_type Char Char ≡ Int }
    ensures ulong_with_int { usual_type ULong Int ≡ ULong }
    ensures llong_with_uint { usual_type LLong UInt ≡ LLong }
{}
