//! What passes between hosts and statements, as the contracts of functions that do nothing.

ghost use Rattle.std.specs.Prelude.{◌≡◌, ◌+◌, ◌-◌, ◌^◌, true, false, pos, negsuc, [], ◌∷◌, ◌++◌, Some, None, Ok, Err, replicate, length, codes};
ghost use Rattle.ec_base.specs.declared.stop.Trap.TheVariants as trap;
ghost use Rattle.ec_ctypes.specs.declared.checked.library.Sym.TheVariants as sym;
ghost use Rattle.ec_ctypes.specs.declared.types.arith.Arith.TheVariants as arith;
ghost use Rattle.ec_memory_defs.specs.Cells.{set_cells, filled_cells, unset_cells};
ghost use Rattle.ec_memory_defs.specs.Memory.{alive, ended, pointer_to, span};
ghost use Rattle.ec_transfer_defs.specs.declared.finding.Finding.TheVariants as found;
ghost use Rattle.ec_transfer_defs.specs.Hosts.{holding, integer, truth, characters, pointed, counted};
ghost use Rattle.ec_transfer_defs.specs.Conversion.{field_bytes, field_stored, parameter, told_length, trapped, refused};
ghost use Rattle.ec_transfer_defs.specs.Area.{IsArea, area_reset, area_raised, area_warned, area_noticed, area_counted, in_sqlerrmc, text_length, message_on};
ghost use Rattle.ec_transfer_defs.specs.Examples.{one_of, with_nines, to_second, sevens, refused_int, alone, beside, shorts_at, told_by_shorts, left_by};

/// The symbols of types, and the lengths that tell char arrays from char pointers.
pub fn symbol_examples()
    ensures char_array { holding sym.Char 5 ≡ Some (characters 5) }
    ensures char_pointer { holding sym.Char 0 ≡ Some pointed }
    ensures unsigned_array { holding sym.UnsignedChar 1 ≡ Some (characters 1) }
    ensures unsigned_pointer { holding sym.UnsignedChar 0 ≡ Some pointed }
    ensures varchar { holding sym.Varchar 5 ≡ Some (counted 5) }
    ensures long_long { holding sym.UnsignedLongLong 0 ≡ Some (integer arith.ULLong) }
    ensures no_type { holding sym.Const 0 ≡ None }
{}

/// What a field is worth to each integer type, at its edges.
pub fn edge_examples()
    ensures short_low { field_bytes (integer arith.Short) (codes "-32768") ≡ Ok (0 ∷ 128 ∷ []) }
    ensures short_high { field_bytes (integer arith.Short) (codes "32767") ≡ Ok (255 ∷ 127 ∷ []) }
    ensures short_below { field_bytes (integer arith.Short) (codes "-32769")
        ≡ Err found.NotAnInteger }
    ensures short_above { field_bytes (integer arith.Short) (codes "32768")
        ≡ Err found.NotAnInteger }
    ensures ushort_high { field_bytes (integer arith.UShort) (codes "65535") ≡ Ok (255 ∷ 255 ∷ []) }
    ensures ushort_above { field_bytes (integer arith.UShort) (codes "65536")
        ≡ Err found.NotUnsigned }
    ensures ushort_below { field_bytes (integer arith.UShort) (codes "-1") ≡ Err found.NotUnsigned }
    ensures int_low { field_bytes (integer arith.Int) (codes "-2147483648")
        ≡ Ok (0 ∷ 0 ∷ 0 ∷ 128 ∷ []) }
    ensures int_high { field_bytes (integer arith.Int) (codes "2147483647")
        ≡ Ok (255 ∷ 255 ∷ 255 ∷ 127 ∷ []) }
    ensures int_below { field_bytes (integer arith.Int) (codes "-2147483649")
        ≡ Err found.NotAnInteger }
    ensures int_above { field_bytes (integer arith.Int) (codes "2147483648")
        ≡ Err found.NotAnInteger }
    ensures uint_high { field_bytes (integer arith.UInt) (codes "4294967295")
        ≡ Ok (255 ∷ 255 ∷ 255 ∷ 255 ∷ []) }
    ensures uint_above { field_bytes (integer arith.UInt) (codes "4294967296")
        ≡ Err found.NotUnsigned }
    ensures long_low { field_bytes (integer arith.Long) (codes "-9223372036854775808")
        ≡ Ok (0 ∷ 0 ∷ 0 ∷ 0 ∷ 0 ∷ 0 ∷ 0 ∷ 128 ∷ []) }
    ensures long_high { field_bytes (integer arith.LLong) (codes "9223372036854775807")
        ≡ Ok (255 ∷ 255 ∷ 255 ∷ 255 ∷ 255 ∷ 255 ∷ 255 ∷ 127 ∷ []) }
    ensures long_below { field_bytes (integer arith.LLong) (codes "-9223372036854775809")
        ≡ Err found.NotAnInteger }
    ensures long_above { field_bytes (integer arith.Long) (codes "9223372036854775808")
        ≡ Err found.NotAnInteger }
    ensures ulong_high { field_bytes (integer arith.ULong) (codes "18446744073709551615")
        ≡ Ok (255 ∷ 255 ∷ 255 ∷ 255 ∷ 255 ∷ 255 ∷ 255 ∷ 255 ∷ []) }
    ensures ulong_above { field_bytes (integer arith.ULLong) (codes "18446744073709551616")
        ≡ Err found.NotUnsigned }
{}

/// Fields that are numbers, and fields that are none.
pub fn number_examples()
    ensures plus { field_bytes (integer arith.Int) (codes "+5") ≡ Ok (5 ∷ 0 ∷ 0 ∷ 0 ∷ []) }
    ensures minus_zero { field_bytes (integer arith.Int) (codes "-0") ≡ Ok (0 ∷ 0 ∷ 0 ∷ 0 ∷ []) }
    ensures unsigned_minus_zero { field_bytes (integer arith.UInt) (codes "-0")
        ≡ Ok (0 ∷ 0 ∷ 0 ∷ 0 ∷ []) }
    ensures leading_zeros { field_bytes (integer arith.Short)
        (codes "000000000000000000000000000000000000000007")
        ≡ Ok (7 ∷ 0 ∷ []) }
    ensures twenty_one_digits { field_bytes (integer arith.ULong) (codes "100000000000000000000")
        ≡ Err found.NotUnsigned }
    ensures empty { field_bytes (integer arith.Int) [] ≡ Err found.NotAnInteger }
    ensures empty_unsigned { field_bytes (integer arith.UInt) [] ≡ Err found.NotUnsigned }
    ensures sign_alone { field_bytes (integer arith.Int) (codes "-") ≡ Err found.NotAnInteger }
    ensures two_signs { field_bytes (integer arith.Int) (codes "+-5") ≡ Err found.NotAnInteger }
    ensures blank_before { field_bytes (integer arith.Int) (codes " 5") ≡ Err found.NotAnInteger }
    ensures blank_behind { field_bytes (integer arith.Int) (codes "5 ") ≡ Err found.NotAnInteger }
    ensures letter_behind { field_bytes (integer arith.Int) (codes "12x") ≡ Err found.NotAnInteger }
    ensures point { field_bytes (integer arith.Int) (codes "1.0") ≡ Err found.NotAnInteger }
    ensures zero_byte_behind { field_bytes (integer arith.Int) (53 ∷ 0 ∷ [])
        ≡ Err found.NotAnInteger }
    ensures no_text { field_bytes (integer arith.Int) (53 ∷ 255 ∷ []) ≡ Err found.NotAnInteger }
    ensures true_letter { field_bytes truth (codes "t") ≡ Ok (1 ∷ []) }
    ensures false_letter { field_bytes truth (codes "f") ≡ Ok (0 ∷ []) }
    ensures large_letter { field_bytes truth (codes "T") ≡ Err found.NotABool }
    ensures word { field_bytes truth (codes "true") ≡ Err found.NotABool }
    ensures digit { field_bytes truth (codes "1") ≡ Err found.NotABool }
    ensures no_letter { field_bytes truth [] ≡ Err found.NotABool }
{}

/// Char arrays and VARCHARs of fields that are shorter than they are, as long, and longer. What a field does not reach
/// stays in an array, and is zero in a VARCHAR.
pub fn text_examples()
    ensures empty { left_by (one_of (codes "xyz")) (alone (characters 3)) (Some [])
        ≡ (Ok false, one_of (0 ∷ codes "yz")) }
    ensures much_shorter { left_by (one_of (codes "xyz")) (alone (characters 3)) (Some (codes "a"))
        ≡ (Ok false, one_of (codes "a" ++ 0 ∷ codes "z")) }
    ensures shorter { left_by (one_of (codes "xyz")) (alone (characters 3)) (Some (codes "ab"))
        ≡ (Ok false, one_of (codes "ab" ++ 0 ∷ [])) }
    ensures as_long { left_by (one_of (codes "xyz")) (alone (characters 3)) (Some (codes "abc"))
        ≡ (Ok false, one_of (codes "abc")) }
    ensures longer { left_by (one_of (codes "xyz")) (alone (characters 3)) (Some (codes "abcd"))
        ≡ (Ok true, one_of (codes "abc")) }
    ensures one_byte { left_by (one_of (codes "x")) (alone (characters 1)) (Some (codes "a"))
        ≡ (Ok false, one_of (codes "a")) }
    ensures one_byte_empty { left_by (one_of (codes "x")) (alone (characters 1)) (Some [])
        ≡ (Ok false, one_of (0 ∷ [])) }
    ensures zero_byte_within { left_by (one_of (codes "xyz"))
        (alone (characters 3)) (Some (97 ∷ 0 ∷ 98 ∷ []))
        ≡ (Ok false, one_of (97 ∷ 0 ∷ 98 ∷ [])) }
    ensures varchar { left_by (one_of (replicate 8 9)) (alone (counted 4)) (Some (codes "ab"))
        ≡ (Ok false, one_of (2 ∷ 0 ∷ 0 ∷ 0 ∷ 97 ∷ 98 ∷ 0 ∷ 0 ∷ [])) }
    ensures varchar_full { left_by (one_of (replicate 8 9))
        (alone (counted 4)) (Some (codes "abcd"))
        ≡ (Ok false, one_of (4 ∷ 0 ∷ 0 ∷ 0 ∷ codes "abcd")) }
    ensures varchar_cut { left_by (one_of (replicate 8 9))
        (alone (counted 4)) (Some (codes "abcde"))
        ≡ (Ok true, one_of (4 ∷ 0 ∷ 0 ∷ 0 ∷ codes "abcd")) }
    ensures varchar_zero_byte { left_by (one_of (replicate 8 9))
        (alone (counted 4)) (Some (97 ∷ 0 ∷ 98 ∷ []))
        ≡ (Ok false, one_of (3 ∷ 0 ∷ 0 ∷ 0 ∷ 97 ∷ 0 ∷ 98 ∷ 0 ∷ [])) }
    ensures varchar_outside { left_by (one_of (replicate 7 9))
        (alone (counted 4)) (Some (codes "a"))
        ≡ (Err (trapped trap.Outside), one_of (replicate 7 9)) }
    ensures too_short { left_by (one_of (codes "xy")) (alone (characters 3)) (Some (codes "ab"))
        ≡ (Err (trapped trap.Outside), one_of (codes "xy")) }
    ensures behind_the_zero_byte { left_by (one_of (codes "xy"))
        (alone (characters 3)) (Some (codes "a"))
        ≡ (Ok false, one_of (codes "a" ++ 0 ∷ [])) }
{}

/// Char pointers, whose text takes all bytes of a field and a zero byte or stays as it is.
pub fn pointer_examples()
    ensures fits { left_by (alive (set_cells (to_second 0))
        ∷ alive (unset_cells 3) ∷ []) (alone pointed) (Some (codes "ab"))
        ≡ (
          Ok false,
          alive (set_cells (to_second 0))
              ∷ alive (set_cells (codes "ab" ++ 0 ∷ [])) ∷ [],
        ) }
    ensures no_room_for_the_zero_byte { left_by (alive (set_cells (to_second 0))
        ∷ alive (unset_cells 2) ∷ []) (alone pointed) (Some (codes "ab"))
        ≡ (
          Err (trapped trap.Outside),
          alive (set_cells (to_second 0))
              ∷ alive (unset_cells 2) ∷ [],
        ) }
    ensures null { left_by (one_of (replicate 8 0)) (alone pointed) (Some [])
        ≡ (Err (trapped trap.Null), one_of (replicate 8 0)) }
    ensures unset { left_by (alive (unset_cells 8) ∷ []) (alone pointed) (Some [])
        ≡ (Err (trapped trap.Unset), alive (unset_cells 8) ∷ []) }
    ensures dead { left_by (alive (set_cells (to_second 0)) ∷ ended ∷ []) (alone pointed) (Some [])
        ≡ (Err (trapped trap.Dead), alive (set_cells (to_second 0)) ∷ ended ∷ []) }
{}

/// Indicators: -1 for NULL, the whole length of a value that is cut, and else 0. The value is stored first.
pub fn indicator_examples()
    ensures null_alone { left_by (one_of (7 ∷ 7 ∷ [])) (alone (integer arith.Short)) None
        ≡ (Err (refused (negsuc 212)), one_of (7 ∷ 7 ∷ [])) }
    ensures null_short { left_by (with_nines (7 ∷ 7 ∷ []) 2)
        (beside arith.Short (integer arith.Short)) None
        ≡ (Ok false, alive (set_cells (7 ∷ 7 ∷ [])) ∷ alive (set_cells (255 ∷ 255 ∷ [])) ∷ []) }
    ensures null_of_nothing { left_by (with_nines [] 4) (beside arith.Int (integer arith.Long)) None
        ≡ (Ok false, alive [] ∷ alive (filled_cells 4 255) ∷ []) }
    ensures zero { left_by (with_nines (7 ∷ 7 ∷ []) 8)
        (beside arith.Long (integer arith.Short)) (Some (codes "1"))
        ≡ (Ok false, alive (set_cells (1 ∷ 0 ∷ [])) ∷ alive (filled_cells 8 0) ∷ []) }
    ensures whole_length { left_by (with_nines (codes "xyz") 4)
        (beside arith.Int (characters 3)) (Some (codes "abcdef"))
        ≡ (Ok true, alive (set_cells (codes "abc")) ∷ alive (set_cells (6 ∷ 0 ∷ 0 ∷ 0 ∷ [])) ∷ []) }
    ensures refused_field { left_by (with_nines (7 ∷ 7 ∷ []) 2)
        (beside arith.Short (integer arith.Short)) (Some (codes "x"))
        ≡ (Err (refused (negsuc 203)), with_nines (7 ∷ 7 ∷ []) 2) }
    ensures refused_unsigned { left_by (one_of []) (alone (integer arith.ULong)) (Some (codes "x"))
        ≡ (Err (refused (negsuc 204)), one_of []) }
    ensures refused_bool { left_by (one_of []) (alone truth) (Some (codes "x"))
        ≡ (Err (refused (negsuc 210)), one_of []) }
    ensures value_stays { left_by (with_nines (7 ∷ 7 ∷ []) 1)
        (beside arith.Short (integer arith.Short)) (Some (codes "1"))
        ≡ (Err (trapped trap.Outside), with_nines (1 ∷ 0 ∷ []) 1) }
    ensures value_first { left_by (with_nines (7 ∷ []) 1)
        (beside arith.Int (integer arith.Short)) (Some (codes "1"))
        ≡ (Err (trapped trap.Outside), with_nines (7 ∷ []) 1) }
    ensures greatest_short { told_length arith.Short true 32768 ≡ pos 32767 }
    ensures nearly_short { told_length arith.Short true 32767 ≡ pos 32767 }
    ensures greatest_int { told_length arith.Int true (2 ^ 31) ≡ pos (2 ^ 31 - 1) }
    ensures greatest_long { told_length arith.Long true (2 ^ 24) ≡ pos (2 ^ 24) }
    ensures greatest_long_long { told_length arith.LLong true 70000 ≡ pos 70000 }
    ensures whole { told_length arith.Short false 70000 ≡ pos 0 }
{}

/// Later rows, which lie a step apart each.
pub fn row_examples()
    ensures second { field_stored (one_of (replicate 8 9)) (shorts_at (pointer_to 1 0) 4) 1
        (Some (codes "1"))
        ≡ (Ok false, one_of (9 ∷ 9 ∷ 9 ∷ 9 ∷ 1 ∷ 0 ∷ 9 ∷ 9 ∷ [])) }
    ensures outside { field_stored (one_of (replicate 8 9))
        (shorts_at (pointer_to 1 0) 4) 2 (Some (codes "1"))
        ≡ (Err (trapped trap.Outside), one_of (replicate 8 9)) }
    ensures far { field_stored (one_of (replicate 8 9))
        (shorts_at (pointer_to 1 0) (2 ^ 24)) 256 (Some (codes "1"))
        ≡ (Err (trapped trap.Outside), one_of (replicate 8 9)) }
    ensures null_far { field_stored (one_of (replicate 8 9)) (shorts_at 0 (2 ^ 24)) 256
        (Some (codes "1"))
        ≡ (Err (trapped trap.Null), one_of (replicate 8 9)) }
    ensures second_indicator { field_stored (one_of (replicate 4 9)) told_by_shorts 1 None
        ≡ (Ok false, one_of (9 ∷ 9 ∷ 255 ∷ 255 ∷ [])) }
{}

/// What hosts give as parameters.
pub fn parameter_examples()
    ensures int { parameter (one_of (254 ∷ 255 ∷ 255 ∷ 255 ∷ [])) (alone (integer arith.Int))
        ≡ Ok (Some (codes "-2")) }
    ensures unsigned { parameter (one_of (254 ∷ 255 ∷ [])) (alone (integer arith.UShort))
        ≡ Ok (Some (codes "65534")) }
    ensures least_long { parameter (one_of (0 ∷ 0 ∷ 0 ∷ 0 ∷ 0 ∷ 0 ∷ 0 ∷ 128 ∷ []))
        (alone (integer arith.Long))
        ≡ Ok (Some (codes "-9223372036854775808")) }
    ensures greatest_ulong { parameter (one_of (replicate 8 255)) (alone (integer arith.ULong))
        ≡ Ok (Some (codes "18446744073709551615")) }
    ensures true_bool { parameter (one_of (2 ∷ [])) (alone truth) ≡ Ok (Some (codes "t")) }
    ensures false_bool { parameter (one_of (0 ∷ [])) (alone truth) ≡ Ok (Some (codes "f")) }
    ensures unset { parameter (alive (unset_cells 4) ∷ []) (alone (integer arith.Int))
        ≡ Err trap.Unset }
    ensures array { parameter (one_of (codes "xyz")) (alone (characters 3))
        ≡ Ok (Some (codes "xyz")) }
    ensures array_to_zero { parameter (alive (set_cells (120 ∷ 0 ∷ []) ++ unset_cells 1) ∷ [])
        (alone (characters 3))
        ≡ Ok (Some (codes "x")) }
    ensures array_unset { parameter (alive (set_cells (codes "xy") ++ unset_cells 1) ∷ [])
        (alone (characters 3))
        ≡ Err trap.Unset }
    ensures pointer { parameter (alive (set_cells (to_second 1))
        ∷ alive (set_cells (codes "abc" ++ 0 ∷ [])) ∷ []) (alone pointed)
        ≡ Ok (Some (codes "bc")) }
    ensures pointer_without_end { parameter (alive (set_cells (to_second 1))
        ∷ alive (set_cells (codes "abc")) ∷ []) (alone pointed)
        ≡ Err trap.Outside }
    ensures varchar { parameter (one_of (4 ∷ 0 ∷ 0 ∷ 0 ∷ 97 ∷ 98 ∷ 0 ∷ 100 ∷ 9 ∷ []))
        (alone (counted 5))
        ≡ Ok (Some (codes "ab")) }
    ensures varchar_full { parameter (one_of (5 ∷ 0 ∷ 0 ∷ 0 ∷ codes "abcde")) (alone (counted 5))
        ≡ Ok (Some (codes "abcde")) }
    ensures varchar_over { parameter (one_of (6 ∷ 0 ∷ 0 ∷ 0 ∷ codes "abcdef")) (alone (counted 5))
        ≡ Err trap.BadLen }
    ensures varchar_negative { parameter (one_of (255 ∷ 255 ∷ 255 ∷ 255 ∷ codes "abcde"))
        (alone (counted 5))
        ≡ Err trap.BadLen }
    ensures varchar_empty { parameter (alive (set_cells (replicate 4 0) ++ unset_cells 5) ∷ [])
        (alone (counted 5))
        ≡ Ok (Some []) }
    ensures varchar_short { parameter
        (alive (set_cells (1 ∷ 0 ∷ 0 ∷ 0 ∷ 97 ∷ []) ++ unset_cells 4) ∷ []) (alone (counted 5))
        ≡ Ok (Some (codes "a")) }
    ensures null { parameter (alive []
        ∷ alive (filled_cells 2 255) ∷ []) (beside arith.Short (integer arith.Int))
        ≡ Ok None }
    ensures null_int { parameter (alive []
        ∷ alive (set_cells (0 ∷ 0 ∷ 0 ∷ 128 ∷ [])) ∷ []) (beside arith.Int truth)
        ≡ Ok None }
    ensures null_long { parameter (alive []
        ∷ alive (filled_cells 8 255) ∷ []) (beside arith.Long truth)
        ≡ Ok None }
    ensures null_long_long { parameter (alive []
        ∷ alive (filled_cells 8 255) ∷ []) (beside arith.LLong truth)
        ≡ Ok None }
    ensures positive { parameter (with_nines (1 ∷ []) 2) (beside arith.Short truth)
        ≡ Ok (Some (codes "t")) }
    ensures indicator_first { parameter (alive []
        ∷ alive (unset_cells 2) ∷ []) (beside arith.Short truth)
        ≡ Err trap.Unset }
{}

/// The communication area behind each call of the library.
pub fn area_examples()
    ensures reset_front { span (area_reset sevens) (pointer_to 1 0) 28
        ≡ Ok (codes "SQLCA   " ++ (0 ∷ 1 ∷ 0 ∷ 0 ∷ 0 ∷ 0 ∷ 0 ∷ 0 ∷ []) ++ replicate 12 0) }
    ensures reset_message { span (area_reset sevens) (pointer_to 1 28) 152
        ≡ Ok (replicate 150 0 ++ 7 ∷ 7 ∷ []) }
    ensures reset_rest { span (area_reset sevens) (pointer_to 1 180) 76
        ≡ Ok (codes "NOT SET " ++ (7 ∷ 7 ∷ 7 ∷ 7 ∷ [])
        ++ replicate 56 0 ++ codes "00000" ++ 7 ∷ 7 ∷ 7 ∷ []) }
    ensures raised_code { span refused_int (pointer_to 1 8) 20
        ≡ Ok (replicate 8 7 ++ (52 ∷ 255 ∷ 255 ∷ 255 ∷ 255 ∷ 255 ∷ 255 ∷ 255 ∷ [])
        ++ 35 ∷ 0 ∷ 0 ∷ 0 ∷ []) }
    ensures raised_message { span refused_int (pointer_to 1 28) 152
        ≡ Ok (codes "not a number of type int on line 12" ++ replicate 115 0 ++ 7 ∷ 7 ∷ []) }
    ensures raised_state { span refused_int (pointer_to 1 180) 76
        ≡ Ok (replicate 68 7 ++ codes "42804" ++ 7 ∷ 7 ∷ 7 ∷ []) }
    ensures long_message { in_sqlerrmc (message_on (replicate 147 97) 5)
        ≡ replicate 147 97 ++ codes " o" ++ 0 ∷ [] }
    ensures longer_message { in_sqlerrmc (message_on (replicate 200 97) 5)
        ≡ replicate 149 97 ++ 0 ∷ [] }
    ensures zero_byte_within { text_length (in_sqlerrmc (message_on (97 ∷ 0 ∷ 98 ∷ []) 5)) ≡ 1 }
    ensures warned { span (area_warned sevens) (pointer_to 1 239) 10
        ≡ Ok (7 ∷ codes "WW" ++ replicate 7 7) }
    ensures noticed { span (area_noticed sevens) (pointer_to 1 239) 10
        ≡ Ok (7 ∷ codes "W" ++ 7 ∷ codes "W" ++ replicate 6 7) }
    ensures counted { span (area_counted sevens 258) (pointer_to 1 207) 10
        ≡ Ok (7 ∷ 2 ∷ 1 ∷ 0 ∷ 0 ∷ 0 ∷ 0 ∷ 0 ∷ 0 ∷ 7 ∷ []) }
    ensures low_bits { area_counted sevens (2 ^ 64 + 3) ≡ area_counted sevens 3 }
    ensures others_stay { area_warned (alive (filled_cells 256 7) ∷ ended
        ∷ alive (filled_cells 3 7) ∷ [])
        ≡ alive (filled_cells 240 7 ++ filled_cells 2 87 ++ filled_cells 14 7) ∷ ended
        ∷ alive (filled_cells 3 7) ∷ [] }
{}
