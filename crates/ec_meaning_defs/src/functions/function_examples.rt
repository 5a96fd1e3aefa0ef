//! What calls of the known functions do, as the contracts of functions that do nothing.

ghost use Rattle.std.specs.Prelude.{◌≡◌, ℕ, ◌+◌, ◌^◌, ◌≤◌, pos, negsuc, List, [], ◌∷◌, ◌++◌, length, replicate, Some, None, codes};
ghost use Rattle.ec_base.specs.declared.stop.Trap.TheVariants as trap;
ghost use Rattle.ec_memory_defs.specs.Cells.{set_cells, unset_cells};
ghost use Rattle.ec_memory_defs.specs.Memory.{alive, pointer_to, number, address};
ghost use Rattle.ec_meaning_defs.specs.functions.Formats.{plain};
ghost use Rattle.ec_meaning_defs.specs.functions.Functions.{standard_output, standard_error, print, puts, putchar, strlen, strcmp, strncmp, memcmp, strcpy, strncpy, strcat, memcpy, memset, exit, sqlprint, answers, traps, ends, misfit, count_of, effect_of};
ghost use Rattle.ec_meaning_defs.specs.functions.Examples.{objects, error_object, long_error, called, with_room, abc, abd, xyz, a_unset, gone, room};

/// What is put on the outputs.
pub fn putting_examples()
    ensures print { called (print standard_output (plain (codes "ab") ∷ [])) []
        ≡ answers (Some (number (pos 2))) objects (codes "ab") [] }
    ensures print_error { called (print standard_error (plain (codes "ab") ∷ [])) []
        ≡ answers (Some (number (pos 2))) objects [] (codes "ab") }
    ensures print_too_much { (bytes : List ℕ) → 2 ^ 31 ≤ length bytes → count_of bytes
        ≡ number (pos 2147483647) }
    ensures print_other { called (print standard_output []) (number (pos 1) ∷ []) ≡ misfit }
    ensures puts { called puts (address abc ∷ [])
        ≡ answers (Some (number (pos 1))) objects (codes "abc\n") [] }
    ensures puts_whole { called puts (address xyz ∷ []) ≡ traps trap.Outside }
    ensures putchar { called putchar (number (negsuc 0) ∷ [])
        ≡ answers (Some (number (pos 255))) objects (255 ∷ []) [] }
    ensures error { called sqlprint [] ≡ answers None objects [] (codes "SQL error: bad\n") }
    ensures error_below { effect_of sqlprint (error_object 4294967295 "" ∷ []) []
        ≡ answers None (error_object 4294967295 "" ∷ []) [] (codes "SQL error: \n") }
    ensures error_above { effect_of sqlprint (error_object 150 "bad" ∷ []) [] ≡ traps trap.Outside }
    ensures error_at_most { effect_of sqlprint (long_error 150 ∷ []) []
        ≡ answers None (long_error 150 ∷ []) [] (codes "SQL error: " ++ replicate 149 120 ++ 10 ∷
        []) }
    ensures error_with_argument { called sqlprint (number (pos 1) ∷ []) ≡ misfit }
{}

/// Comparisons read the first one's byte before the second one's, and stop early.
pub fn comparing_examples()
    ensures length { called strlen (address abc ∷ [])
        ≡ answers (Some (number (pos 3))) objects [] [] }
    ensures length_without_end { called strlen (address xyz ∷ []) ≡ traps trap.Outside }
    ensures length_of_number { called strlen (number (pos 1) ∷ []) ≡ misfit }
    ensures less { called strcmp (address abc ∷ address abd ∷ [])
        ≡ answers (Some (number (negsuc 0))) objects [] [] }
    ensures greater { called strcmp (address abd ∷ address abc ∷ [])
        ≡ answers (Some (number (pos 1))) objects [] [] }
    ensures equal { called strcmp (address abc ∷ address abc ∷ [])
        ≡ answers (Some (number (pos 0))) objects [] [] }
    ensures prefix { called strcmp (address (abc + 3) ∷ address abc ∷ [])
        ≡ answers (Some (number (negsuc 0))) objects [] [] }
    ensures stops_at_a_difference { called strcmp (address xyz ∷ address abc ∷ [])
        ≡ answers (Some (number (pos 1))) objects [] [] }
    ensures first_before_second { called strcmp (address gone ∷ address 0 ∷ []) ≡ traps trap.Dead }
    ensures second_behind_first { called strcmp (address xyz ∷ address 0 ∷ []) ≡ traps trap.Null }
    ensures second_unset { called strcmp (address abc ∷ address a_unset ∷ []) ≡ traps trap.Unset }
    ensures front { called strncmp (address abc ∷ address abd ∷ number (pos 2) ∷ [])
        ≡ answers (Some (number (pos 0))) objects [] [] }
    ensures front_of_nothing { called strncmp (address 0 ∷ address gone ∷ number (pos 0) ∷ [])
        ≡ answers (Some (number (pos 0))) objects [] [] }
    ensures front_ends { called strncmp (address (abc + 3) ∷ address (abd + 3) ∷ number (pos 9) ∷
        [])
        ≡ answers (Some (number (pos 0))) objects [] [] }
    ensures bytes_go_on { called memcmp (address (abc + 3) ∷ address (abd + 3) ∷ number (pos 2) ∷
        [])
        ≡ traps trap.Outside }
    ensures bytes { called memcmp (address abc ∷ address abd ∷ number (pos 3) ∷ [])
        ≡ answers (Some (number (negsuc 0))) objects [] [] }
    ensures bytes_of_nothing { called memcmp (address 0 ∷ address 0 ∷ number (pos 0) ∷ [])
        ≡ answers (Some (number (pos 0))) objects [] [] }
    ensures bytes_are_unsigned { effect_of memcmp (alive (set_cells (200 ∷ 100 ∷ [])) ∷ [])
        (address (pointer_to 1 0) ∷ address (pointer_to 1 1) ∷ number (pos 1) ∷ [])
        ≡ answers (Some (number (pos 1))) (alive (set_cells (200 ∷ 100 ∷ [])) ∷ []) [] [] }
{}

/// Copies read their source wholly, and then write as one access.
pub fn copying_examples()
    ensures text { called strcpy (address room ∷ address abc ∷ [])
        ≡ answers (Some (address room)) (with_room (set_cells (codes "abc" ++ 0 ∷ []) ++
        unset_cells 2)) [] [] }
    ensures text_too_long { called strcpy (address (room + 3) ∷ address abc ∷ [])
        ≡ traps trap.Outside }
    ensures source_first { called strcpy (address 0 ∷ address gone ∷ []) ≡ traps trap.Dead }
    ensures front { called strncpy (address room ∷ address abc ∷ number (pos 2) ∷ [])
        ≡ answers (Some (address room)) (with_room (set_cells (codes "ab") ++ unset_cells 4)) []
        [] }
    ensures front_filled { called strncpy (address room ∷ address (abc + 2) ∷ number (pos 3) ∷ [])
        ≡ answers (Some (address room)) (with_room (set_cells (99 ∷ 0 ∷ 0 ∷ []) ++ unset_cells 3))
        [] [] }
    ensures nothing_of_null { called strncpy (address room ∷ address 0 ∷ number (pos 0) ∷ [])
        ≡ answers (Some (address room)) objects [] [] }
    ensures nothing_to_null { called strncpy (address 0 ∷ address abc ∷ number (pos 0) ∷ [])
        ≡ traps trap.Null }
    ensures appended { called strcat (address (room + 6) ∷ address abc ∷ []) ≡ traps trap.Outside }
    ensures destination_first { called strcat (address room ∷ address gone ∷ [])
        ≡ traps trap.Unset }
    ensures then_the_source { called strcat (address abc ∷ address gone ∷ []) ≡ traps trap.Dead }
    ensures no_room { called strcat (address abc ∷ address abd ∷ []) ≡ traps trap.Outside }
    ensures nothing_appended { called strcat (address abc ∷ address (abd + 3) ∷ [])
        ≡ answers (Some (address abc)) objects [] [] }
    ensures bytes { called memcpy (address room ∷ address a_unset ∷ number (pos 2) ∷ [])
        ≡ answers (Some (address room)) (with_room (set_cells (97 ∷ []) ++ unset_cells 5)) [] [] }
    ensures bytes_source_first { called memcpy (address 0 ∷ address gone ∷ number (pos 1) ∷ [])
        ≡ traps trap.Dead }
    ensures no_bytes { called memcpy (address room ∷ address 0 ∷ number (pos 0) ∷ [])
        ≡ traps trap.Null }
    ensures filled { called memset (address (room + 1) ∷ number (pos 321) ∷ number (pos 2) ∷ [])
        ≡ answers (Some (address (room + 1))) (with_room (unset_cells 1 ++ set_cells (65 ∷ 65 ∷
        []) ++ unset_cells 3)) [] [] }
    ensures filled_with_nothing { called memset (address gone ∷ number (pos 1) ∷ number (pos 0) ∷
        [])
        ≡ traps trap.Dead }
{}

/// `exit` keeps the low 8 bits.
pub fn ending_examples()
    ensures three { called exit (number (pos 3) ∷ []) ≡ ends 3 }
    ensures low_bits { called exit (number (pos 256) ∷ []) ≡ ends 0 }
    ensures negative { called exit (number (negsuc 0) ∷ []) ≡ ends 255 }
    ensures without_status { called exit [] ≡ misfit }
{}
