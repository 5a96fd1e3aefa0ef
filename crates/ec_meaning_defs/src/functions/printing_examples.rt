//! What `printf` puts, as the contracts of functions that do nothing.

ghost use Rattle.std.specs.Prelude.{◌≡◌, ◌+◌, ◌*◌, ◌^◌, ◌-◌, pos, negsuc, [], ◌∷◌, Some, None, Ok};
ghost use Rattle.ec_base.specs.declared.stop.Trap.TheVariants as trap;
ghost use Rattle.ec_memory_defs.specs.Memory.{number, address};
ghost use Rattle.ec_meaning_defs.specs.functions.Examples.{shown, puts_text, puts_trap, abc, xyz, a_unset, gone};

/// Integers: each is read in the width and with the sign of its directive, whatever its own sign.
pub fn integer_examples()
    ensures decimal { shown "%d" (number (pos 120) ∷ []) ≡ puts_text "120" }
    ensures zero { shown "%d%x%o" (number (pos 0) ∷ number (pos 0) ∷ number (pos 0) ∷ [])
        ≡ puts_text "000" }
    ensures least { shown "%i" (number (negsuc (2 ^ 31 - 1)) ∷ []) ≡ puts_text "-2147483648" }
    ensures signed_of_unsigned { shown "%d" (number (pos (2 ^ 32 - 1)) ∷ []) ≡ puts_text "-1" }
    ensures unsigned_of_signed { shown "%u" (number (negsuc 0) ∷ []) ≡ puts_text "4294967295" }
    ensures hexadecimal { shown "%x %X" (number (negsuc 0) ∷ number (pos 48879) ∷ [])
        ≡ puts_text "ffffffff BEEF" }
    ensures octal { shown "%o" (number (pos 64) ∷ []) ≡ puts_text "100" }
    ensures wide { shown "%ld" (number (negsuc (2 ^ 63 - 1)) ∷ [])
        ≡ puts_text "-9223372036854775808" }
    ensures wide_unsigned { shown "%llu" (number (negsuc 0) ∷ [])
        ≡ puts_text "18446744073709551615" }
    ensures wide_octal { shown "%lo" (number (negsuc 0) ∷ []) ≡ puts_text "1777777777777777777777" }
{}

/// Fields: zeros stand behind the sign, `-` overrides `0`, and `0` pads texts and characters with blanks.
pub fn field_examples()
    ensures blanks { shown "%5d|" (number (negsuc 6) ∷ []) ≡ puts_text "   -7|" }
    ensures zeros { shown "%05d|" (number (negsuc 6) ∷ []) ≡ puts_text "-0007|" }
    ensures minus { shown "%-5d|" (number (negsuc 6) ∷ []) ≡ puts_text "-7   |" }
    ensures minus_overrides { shown "%-05d|" (number (negsuc 6) ∷ []) ≡ puts_text "-7   |" }
    ensures too_narrow { shown "%1d|" (number (pos 123) ∷ []) ≡ puts_text "123|" }
    ensures text { shown "%5s|%-5s|" (address abc ∷ address abc ∷ []) ≡ puts_text "  abc|abc  |" }
    ensures text_with_zero { shown "%05s|" (address abc ∷ []) ≡ puts_text "  abc|" }
    ensures character { shown "%3c|%-3c|%03c|" (number (pos 65) ∷ number (pos 66) ∷ number (pos
        67) ∷ [])
        ≡ puts_text "  A|B  |  C|" }
    ensures character_keeps_low_bits { shown "%c" (number (pos (256 * 7 + 65)) ∷ [])
        ≡ puts_text "A" }
    ensures width_of_argument { shown "%*d|" (number (pos 4) ∷ number (pos 7) ∷ [])
        ≡ puts_text "   7|" }
    ensures negative_width { shown "%*d|" (number (negsuc 3) ∷ number (pos 7) ∷ [])
        ≡ puts_text "7   |" }
    ensures negative_width_with_zero { shown "%0*d|" (number (negsuc 3) ∷ number (pos 7) ∷ [])
        ≡ puts_text "7   |" }
    ensures several { shown "%5d|%-3s|%.1s|%x\n" (number (negsuc 6) ∷ address abc ∷ address abc ∷
        number (negsuc 0) ∷ [])
        ≡ puts_text "   -7|abc|a|ffffffff\n" }
{}

/// Texts: a byte behind the precision is not read, a negative precision is none, and a precision of 0 reads nothing.
pub fn text_examples()
    ensures whole { shown "%s" (address abc ∷ []) ≡ puts_text "abc" }
    ensures no_end { shown "%s" (address xyz ∷ []) ≡ puts_trap trap.Outside }
    ensures within { shown "%.3s" (address xyz ∷ []) ≡ puts_text "xyz" }
    ensures one_too_many { shown "%.4s" (address xyz ∷ []) ≡ puts_trap trap.Outside }
    ensures before_the_unset { shown "%.1s" (address a_unset ∷ []) ≡ puts_text "a" }
    ensures unset { shown "%.2s" (address a_unset ∷ []) ≡ puts_trap trap.Unset }
    ensures longer { shown "%.9s" (address abc ∷ []) ≡ puts_text "abc" }
    ensures nothing_of_null { shown "%.0s|" (address 0 ∷ []) ≡ puts_text "|" }
    ensures null { shown "%s" (address 0 ∷ []) ≡ puts_trap trap.Null }
    ensures dead { shown "%s" (address gone ∷ []) ≡ puts_trap trap.Dead }
    ensures precision_of_argument { shown "%.*s" (number (pos 2) ∷ address abc ∷ [])
        ≡ puts_text "ab" }
    ensures negative_precision { shown "%.*s" (number (negsuc 0) ∷ address abc ∷ [])
        ≡ puts_text "abc" }
    ensures width_before_precision { shown "%*.*s|" (number (pos 4) ∷ number (pos 2) ∷ address abc
        ∷ [])
        ≡ puts_text "  ab|" }
{}

/// The first text that traps ends it, and nothing is put before all is read.
pub fn order_examples()
    ensures nothing_before { shown "%d %s" (number (pos 1) ∷ address 0 ∷ []) ≡ puts_trap trap.Null }
    ensures first_text { shown "%s%s" (address gone ∷ address 0 ∷ []) ≡ puts_trap trap.Dead }
    ensures second_text { shown "%s%s" (address abc ∷ address 0 ∷ []) ≡ puts_trap trap.Null }
    ensures too_few { shown "%d" [] ≡ None }
    ensures too_many { shown "a" (number (pos 1) ∷ []) ≡ None }
    ensures pointer_for_number { shown "%d" (address abc ∷ []) ≡ None }
    ensures number_for_text { shown "%s" (number (pos 1) ∷ []) ≡ None }
{}
