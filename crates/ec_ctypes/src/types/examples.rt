ghost use Rattle.std.specs.Prelude.{◌≡◌, ◌+◌, ◌^◌, [], Some, None, codes};
ghost use Rattle.ec_ctypes.specs.declared.types.arith.Arith.TheVariants.{Bool, Char, Int, Long, Short};
ghost use Rattle.ec_ctypes.specs.trees.Types.{void, arithmetic, pointer, array, structure};
ghost use Rattle.ec_ctypes.specs.Layout.{shape_of, member_of};
ghost use Rattle.ec_ctypes.specs.LayoutExamples.{row, sized, examples};
ghost use Rattle.ec_ctypes.specs.SqlcaStructs.{sqlca_structs};

/// Worked examples of sizes, alignments and offsets (ISO/IEC 9899:1999, 6.5.3.4 and 6.7.2.1): a struct is aligned as
/// its widest member, each member stands at the next multiple of its alignment, and the size is rounded up.
pub fn layout_examples()
    ensures char_int { shape_of examples (structure 0) ≡ sized 8 4 }
    ensures char_int_c { member_of examples 0 (codes "c") ≡ Some (0, arithmetic Char) }
    ensures char_int_n { member_of examples 0 (codes "n") ≡ Some (4, arithmetic Int) }
    ensures char_int_other { member_of examples 0 (codes "m") ≡ None }
    ensures nested { shape_of examples (structure 1) ≡ sized 16 4 }
    ensures nested_inner { member_of examples 1 (codes "inner") ≡ Some (4, structure 0) }
    ensures nested_last { member_of examples 1 (codes "d") ≡ Some (12, arithmetic Char) }
    ensures array_of_structs { shape_of examples (array (structure 0) 10) ≡ sized 80 4 }
    ensures array_of_arrays { shape_of examples (array (row Short 3) 4) ≡ sized 24 2 }
    ensures varchar { shape_of examples (structure 2) ≡ sized 12 4 }
    ensures varchar_arr { member_of examples 2 (codes "arr") ≡ Some (4, row Char 5) }
    ensures bool_short { shape_of examples (structure 3) ≡ sized 6 2 }
    ensures bool_short_b { member_of examples 3 (codes "b") ≡ Some (2, arithmetic Short) }
    ensures bool_short_c { member_of examples 3 (codes "c") ≡ Some (4, arithmetic Bool) }
    ensures char_long { shape_of examples (structure 4) ≡ sized 16 8 }
    ensures char_long_n { member_of examples 4 (codes "n") ≡ Some (8, arithmetic Long) }
    ensures rows { shape_of examples (structure 6) ≡ sized 64 8 }
    ensures rows_s { member_of examples 6 (codes "s") ≡ Some (56, arithmetic Short) }
    ensures pointer_to_unlisted { shape_of examples (pointer (structure 5)) ≡ sized 8 8 }
    ensures nothing { shape_of examples void ≡ None }
    ensures no_length { shape_of examples (row Char 0) ≡ None }
    ensures no_members { shape_of examples (structure 5) ≡ None }
    ensures holds_itself { shape_of examples (structure 7) ≡ None }
    ensures holds_a_later_one { shape_of examples (structure 8) ≡ None }
    ensures no_such_struct { shape_of examples (structure 10) ≡ None }
    ensures sqlca { shape_of sqlca_structs (structure 1) ≡ sized 256 8 }
    ensures sqlcode { member_of sqlca_structs 1 (codes "sqlcode") ≡ Some (16, arithmetic Long) }
    ensures sqlerrm { member_of sqlca_structs 1 (codes "sqlerrm") ≡ Some (24, structure 0) }
    ensures sqlerrmc { member_of sqlca_structs 0 (codes "sqlerrmc") ≡ Some (4, row Char 150) }
    ensures sqlerrp { member_of sqlca_structs 1 (codes "sqlerrp") ≡ Some (180, row Char 8) }
    ensures sqlerrd { member_of sqlca_structs 1 (codes "sqlerrd") ≡ Some (192, row Long 6) }
    ensures sqlwarn { member_of sqlca_structs 1 (codes "sqlwarn") ≡ Some (240, row Char 8) }
    ensures sqlstate { member_of sqlca_structs 1 (codes "sqlstate") ≡ Some (248, row Char 5) }
    ensures at_the_limit { shape_of [] (row Char 16777216) ≡ sized (2 ^ 24) 1 }
    ensures above_the_limit { shape_of [] (row Char 16777217) ≡ sized (2 ^ 24 + 1) 1 }
{}
