//! Formats taken apart, as the contracts of functions that do nothing.

ghost use Rattle.std.specs.Prelude.{◌≡◌, true, false, [], ◌∷◌, ◌++◌, Some, None, codes};
ghost use Rattle.ec_meaning_defs.specs.functions.Formats.{absent, given, from_argument, signed_decimal, unsigned_decimal, hexadecimal, capital_hexadecimal, octal, plain, integer, character, text, format_parts};

/// Parts of formats. A format ends at its first zero byte, a `0` before the width is a flag, and each flag may be repeated.
pub fn format_examples()
    ensures nothing { format_parts [] ≡ Some [] }
    ensures plain_bytes { format_parts (codes "a b\n") ≡ Some (plain (codes "a b\n") ∷ []) }
    ensures percent { format_parts (codes "5%% a") ≡ Some (plain (codes "5% a") ∷ []) }
    ensures zero_byte { format_parts (codes "a" ++ 0 ∷ codes "%y") ≡ Some (plain (codes "a") ∷ []) }
    ensures styles { format_parts (codes "%d%i%u")
        ≡ Some (integer (record { minus = false; zeros = false; width = absent }) false
        signed_decimal ∷ integer (record { minus = false; zeros = false; width = absent }) false
        signed_decimal ∷ integer (record { minus = false; zeros = false; width = absent }) false
        unsigned_decimal ∷ []) }
    ensures wide { format_parts (codes "%lx%llX%lo")
        ≡ Some (integer (record { minus = false; zeros = false; width = absent }) true hexadecimal
        ∷ integer (record { minus = false; zeros = false; width = absent }) true
        capital_hexadecimal ∷ integer (record { minus = false; zeros = false; width = absent })
        true octal ∷ []) }
    ensures flags { format_parts (codes "%-00-12d")
        ≡ Some (integer (record { minus = true; zeros = true; width = given 12 }) false
        signed_decimal ∷ []) }
    ensures zero_is_a_flag { format_parts (codes "%05d")
        ≡ Some (integer (record { minus = false; zeros = true; width = given 5 }) false
        signed_decimal ∷ []) }
    ensures longest_width { format_parts (codes "%999c")
        ≡ Some (character (record { minus = false; zeros = false; width = given 999 }) ∷ []) }
    ensures amounts { format_parts (codes "<%*.*s>")
        ≡ Some (plain (codes "<") ∷ text (record {
          minus = false;
          zeros = false;
          width =
              from_argument;
        }) from_argument ∷ plain (codes ">") ∷ []) }
    ensures precision { format_parts (codes "%.00012s")
        ≡ Some (text (record { minus = false; zeros = false; width = absent }) (given 12) ∷ []) }
    ensures largest_amount { format_parts (codes "%.18446744073709551616s")
        ≡ Some (text (record { minus = false; zeros = false; width = absent })
        (given 18446744073709551615) ∷ []) }
{}

/// What is no format.
pub fn refused_formats()
    ensures ends_at_percent { format_parts (codes "a%") ≡ None }
    ensures zero_byte_in_directive { format_parts (codes "%" ++ 0 ∷ codes "d") ≡ None }
    ensures long_width { format_parts (codes "%1000d") ≡ None }
    ensures empty_precision { format_parts (codes "%.s") ≡ None }
    ensures precision_of_integer { format_parts (codes "%.3d") ≡ None }
    ensures precision_of_character { format_parts (codes "%.1c") ≡ None }
    ensures wide_text { format_parts (codes "%ls") ≡ None }
    ensures wide_character { format_parts (codes "%lc") ≡ None }
    ensures three_letters { format_parts (codes "%llld") ≡ None }
    ensures flagged_percent { format_parts (codes "%-%") ≡ None }
    ensures other_flag { format_parts (codes "%+d") ≡ None }
    ensures other_letter { format_parts (codes "%f") ≡ None }
    ensures flag_behind_width { format_parts (codes "%5-d") ≡ None }
{}
