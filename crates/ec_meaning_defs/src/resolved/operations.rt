//! What operations give and when they trap, as the contracts of functions that do nothing.

ghost use Rattle.std.specs.Prelude.{◌≡◌, ◌+◌, ◌-◌, ◌^◌, true, false, pos, negsuc, [], Ok, Err};
ghost use Rattle.ec_base.specs.declared.stop.Trap.TheVariants as trap;
ghost use Rattle.ec_ctypes.specs.declared.types.arith.Arith.TheVariants as arith;
ghost use Rattle.ec_memory_defs.specs.Memory.{number, address, integer_type, pointer_type};
ghost use Rattle.ec_meaning_defs.specs.resolved.Operations.{is_true, value_as, plus, minus, times, divided, remainder, bits_and, bits_or, bits_xor, equal, unequal, less, greater, at_most, at_least, negated, flipped, compare, integers, shift_left, pointer_plus, plus_pointer, pointer_minus, pointers_apart, gives, traps, misfit};
ghost use Rattle.ec_meaning_defs.specs.resolved.OperationExamples.{on, left, right, order, first, second, with};

/// Values as values of another type keep their low bits, but for bool; pointers and numbers go by way of unsigned long.
pub fn value_examples()
    ensures narrower { value_as (integer_type arith.Char) (number (pos 456)) ≡ number (negsuc 55) }
    ensures unsigned { value_as (integer_type arith.UInt) (number (negsuc 0))
        ≡ number (pos (2 ^ 32 - 1)) }
    ensures bool_of_256 { value_as (integer_type arith.Bool) (number (pos 256)) ≡ number (pos 1) }
    ensures bool_of_pointer { value_as (integer_type arith.Bool) (address (2 ^ 32))
        ≡ number (pos 1) }
    ensures bool_of_null { value_as (integer_type arith.Bool) (address 0) ≡ number (pos 0) }
    ensures int_of_pointer { value_as (integer_type arith.Int) (address (2 ^ 32 + 5))
        ≡ number (pos 5) }
    ensures pointer_of_negative { value_as pointer_type (number (negsuc 0)) ≡ address (2 ^ 64 - 1) }
    ensures pointer_of_pointer { value_as pointer_type (address 7) ≡ address 7 }
    ensures true_number { is_true (number (negsuc 0)) ≡ true }
    ensures false_number { is_true (number (pos 0)) ≡ false }
    ensures true_pointer { is_true (address (2 ^ 32)) ≡ true }
    ensures false_pointer { is_true (address 0) ≡ false }
{}

/// Sums, differences, products, quotients and remainders: signed ones trap where they don't fit, unsigned ones wrap.
pub fn integer_examples()
    ensures sum { on arith.Int plus (pos (2 ^ 31 - 2)) (pos 1) ≡ gives (number (pos (2 ^ 31 - 1))) }
    ensures sum_overflows { on arith.Int plus (pos (2 ^ 31 - 1)) (pos 1) ≡ traps trap.Overflow }
    ensures sum_of_long { on arith.Long plus (pos (2 ^ 31 - 1)) (pos 1)
        ≡ gives (number (pos (2 ^ 31))) }
    ensures sum_wraps { on arith.UInt plus (pos (2 ^ 32 - 1)) (pos 1) ≡ gives (number (pos 0)) }
    ensures difference_overflows { on arith.Int minus (negsuc (2 ^ 31 - 1)) (pos 1)
        ≡ traps trap.Overflow }
    ensures difference_wraps { on arith.ULong minus (pos 0) (pos 1)
        ≡ gives (number (pos (2 ^ 64 - 1))) }
    ensures product_overflows { on arith.LLong times (pos (2 ^ 32)) (pos (2 ^ 31))
        ≡ traps trap.Overflow }
    ensures product_wraps { on arith.UInt times (pos (2 ^ 16)) (pos (2 ^ 16 + 1))
        ≡ gives (number (pos (2 ^ 16))) }
    ensures quotient_cut { on arith.Int divided (negsuc 6) (pos 2) ≡ gives (number (negsuc 2)) }
    ensures quotient_overflows { on arith.Int divided (negsuc (2 ^ 31 - 1)) (negsuc 0)
        ≡ traps trap.Overflow }
    ensures quotient_by_zero { on arith.Int divided (pos 1) (pos 0) ≡ traps trap.Zero }
    ensures unsigned_by_zero { on arith.UInt divided (pos 1) (pos 0) ≡ traps trap.Zero }
    ensures remainder_has_the_left_sign { on arith.Int remainder (negsuc 6) (pos 2)
        ≡ gives (number (negsuc 0)) }
    ensures remainder_of_positive { on arith.Int remainder (pos 7) (negsuc 1)
        ≡ gives (number (pos 1)) }
    ensures remainder_overflows { on arith.Int remainder (negsuc (2 ^ 31 - 1)) (negsuc 0)
        ≡ traps trap.Overflow }
    ensures remainder_by_zero { on arith.ULong remainder (pos 1) (pos 0) ≡ traps trap.Zero }
    ensures negated { negated arith.Int (pos 5) ≡ Ok (negsuc 4) }
    ensures negated_overflows { negated arith.Int (negsuc (2 ^ 31 - 1)) ≡ Err trap.Overflow }
    ensures negated_wraps { negated arith.UInt (pos 1) ≡ Ok (pos (2 ^ 32 - 1)) }
    ensures of_pointer { with (integers arith.Int plus) (address first) (number (pos 1)) ≡ misfit }
{}

/// Bits are those of two's complement.
pub fn bit_examples()
    ensures ands { on arith.Int bits_and (negsuc 0) (pos 12) ≡ gives (number (pos 12)) }
    ensures negative_and { on arith.Int bits_and (negsuc 3) (negsuc 5) ≡ gives (number (negsuc 7)) }
    ensures ors { on arith.Int bits_or (negsuc 7) (pos 3) ≡ gives (number (negsuc 4)) }
    ensures xors { on arith.Long bits_xor (negsuc 0) (pos 1) ≡ gives (number (negsuc 1)) }
    ensures unsigned_xor { on arith.UInt bits_xor (pos (2 ^ 32 - 1)) (pos 1)
        ≡ gives (number (pos (2 ^ 32 - 2))) }
    ensures flips { flipped arith.Int (pos 0) ≡ negsuc 0 }
    ensures flips_unsigned { flipped arith.UInt (pos 0) ≡ pos (2 ^ 32 - 1) }
    ensures flips_least { flipped arith.Int (negsuc (2 ^ 31 - 1)) ≡ pos (2 ^ 31 - 1) }
{}

/// The amount of a shift is tested first; a left shift of a negative number, or one that doesn't fit, overflows.
pub fn shift_examples()
    ensures shifts { left arith.Int (pos 3) (pos 4) ≡ gives (number (pos 48)) }
    ensures by_the_width { left arith.Int (pos 0) (pos 32) ≡ traps trap.Shift }
    ensures by_less { left arith.Int (negsuc 0) (negsuc 0) ≡ traps trap.Shift }
    ensures of_negative { left arith.Int (negsuc 0) (pos 0) ≡ traps trap.Overflow }
    ensures too_far { left arith.Int (pos 1) (pos 31) ≡ traps trap.Overflow }
    ensures of_long { left arith.Long (pos 1) (pos 31) ≡ gives (number (pos (2 ^ 31))) }
    ensures unsigned { left arith.UInt (pos 3) (pos 31) ≡ gives (number (pos (2 ^ 31))) }
    ensures back { right arith.Int (pos 49) (pos 4) ≡ gives (number (pos 3)) }
    ensures back_keeps_the_sign { right arith.Int (negsuc 4) (pos 1) ≡ gives (number (negsuc 2)) }
    ensures back_by_the_width { right arith.UInt (pos 1) (pos 32) ≡ traps trap.Shift }
    ensures of_pointer { with (shift_left arith.Int) (address first) (number (pos 1)) ≡ misfit }
{}

/// Comparisons give 0 or 1; pointers compare as numbers, whatever they lead to.
pub fn comparison_examples()
    ensures equals { order equal (negsuc 0) (negsuc 0) ≡ gives (number (pos 1)) }
    ensures differs { order unequal (negsuc 0) (negsuc 0) ≡ gives (number (pos 0)) }
    ensures is_less { order less (negsuc 1) (negsuc 0) ≡ gives (number (pos 1)) }
    ensures is_not_less { order less (pos 2) (pos 2) ≡ gives (number (pos 0)) }
    ensures is_greater { order greater (pos 2) (negsuc 2) ≡ gives (number (pos 1)) }
    ensures is_at_most { order at_most (pos 2) (pos 2) ≡ gives (number (pos 1)) }
    ensures is_at_least { order at_least (pos 1) (pos 2) ≡ gives (number (pos 0)) }
    ensures pointers { with (compare less) (address (first + 4)) (address second)
        ≡ gives (number (pos 1)) }
    ensures with_null { with (compare unequal) (address second) (address 0)
        ≡ gives (number (pos 1)) }
    ensures of_both_kinds { with (compare equal) (address 0) (number (pos 0)) ≡ misfit }
{}

/// Pointers move by elements within their objects and to the end; the number may stand on the left.
pub fn pointer_examples()
    ensures further { with (pointer_plus 2) (address first) (number (pos 2))
        ≡ gives (address (first + 4)) }
    ensures too_far { with (pointer_plus 2) (address first) (number (pos 3)) ≡ traps trap.Outside }
    ensures number_first { with (plus_pointer 2) (number (pos 1)) (address first)
        ≡ gives (address (first + 2)) }
    ensures back { with (pointer_minus 1) (address (first + 4)) (number (pos 3))
        ≡ gives (address (first + 1)) }
    ensures back_by_less { with (pointer_minus 1) (address first) (number (negsuc 3))
        ≡ gives (address (first + 4)) }
    ensures too_far_back { with (pointer_minus 1) (address first) (number (pos 1))
        ≡ traps trap.Outside }
    ensures null { with (pointer_plus 1) (address 0) (number (pos 0)) ≡ traps trap.Null }
    ensures dead { with (pointer_plus 1) (address second) (number (pos 0)) ≡ traps trap.Dead }
    ensures apart { with (pointers_apart 2) (address first) (address (first + 4))
        ≡ gives (number (negsuc 1)) }
    ensures of_two_objects { with (pointers_apart 1) (address first) (address second)
        ≡ traps trap.Outside }
    ensures of_two_numbers { with (pointer_plus 1) (number (pos 1)) (number (pos 1)) ≡ misfit }
{}
