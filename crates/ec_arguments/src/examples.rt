//! Which lists are calls, as the contracts of functions that do nothing.

ghost use Rattle.std.specs.Prelude.{◌≡◌, ◌+◌, ◌^◌, true, false, [], ◌∷◌, Some, None, codes};
ghost use Rattle.ec_ctypes.specs.declared.checked.library.LibName.TheVariants as library;
ghost use Rattle.ec_ctypes.specs.declared.checked.library.Sym.TheVariants as sym;
ghost use Rattle.ec_ctypes.specs.declared.embedded.emb.Item.TheVariants as item;
ghost use Rattle.ec_arguments.specs.Arguments.{symbol, literal, null, int_constant, long_constant, pointer, stray, absent, word, held, constant, descriptor, prepared, immediate, opening, run, connect, disconnect, set_connection, set_autocommit, control, prepare, deallocate, allocate_descriptor, deallocate_descriptor, get_count, set_count, get_items, set_items};
ghost use Rattle.ec_arguments.specs.Examples.{cut_of, ten, told, const, area, select, ends_inputs, ends_outputs, with_inputs, with_outputs, selects, alone, beside, on_7, gives_7};

/// The lists of ECPGdo: the line is an int, what follows the last symbol isn't taken, and each member has ten values.
pub fn list_examples()
    ensures nothing { with_inputs (λ rest. rest) ≡ selects [] [] }
    ensures one_output { with_outputs (ten sym.Int 500 0 1 4)
        ≡ selects [] (alone sym.Int 500 0 1 4 ∷ []) }
    ensures one_input { with_inputs (ten sym.Int 500 0 1 4)
        ≡ selects (alone sym.Int 500 0 1 4 ∷ []) [] }
    ensures in_order { select (ten sym.Int 500 0 1 4 (const (codes "a") 0 1 0 (ends_inputs
        (ten sym.Bool 600 0 2 1 (ten sym.Short 601 0 1 2 ends_outputs)))))
        ≡ selects (alone sym.Int 500 0 1 4 ∷ constant (codes "a") ∷ [])
        (alone sym.Bool 600 0 2 1 ∷ alone sym.Short 601 0 1 2 ∷ []) }
    ensures long_line { cut_of library.Do (long_constant 3 ∷ null ∷ symbol sym.StatementNormal ∷
        literal [] ∷ ends_inputs ends_outputs)
        ≡ None }
    ensures more_behind { select (ends_inputs (symbol sym.EndOfOutputs ∷ null ∷ [])) ≡ None }
    ensures no_end { select (ends_inputs []) ≡ None }
    ensures turned_round { select (symbol sym.EndOfOutputs ∷ symbol sym.EndOfInputs ∷ []) ≡ None }
    ensures nine_values { with_outputs (λ rest. symbol sym.Int ∷ pointer 500 ∷ long_constant 0 ∷
        long_constant 1 ∷ long_constant 4 ∷ symbol sym.NoIndicator ∷ null ∷ long_constant 0 ∷
        long_constant 0 ∷ rest)
        ≡ None }
    ensures int_numbers { with_outputs (λ rest. symbol sym.Int ∷ pointer 500 ∷ int_constant 0 ∷
        long_constant 1 ∷ long_constant 4 ∷ symbol sym.NoIndicator ∷ null ∷ long_constant 0 ∷
        long_constant 0 ∷ long_constant 0 ∷ rest)
        ≡ None }
    ensures a_stray { with_outputs (λ rest. symbol sym.Int ∷ stray ∷ long_constant 0 ∷
        long_constant 1 ∷ long_constant 4 ∷ symbol sym.NoIndicator ∷ null ∷ long_constant 0 ∷
        long_constant 0 ∷ long_constant 0 ∷ rest)
        ≡ None }
    ensures null_value { with_outputs (λ rest. symbol sym.Char ∷ null ∷ long_constant 4 ∷
        long_constant 1 ∷ long_constant 4 ∷ symbol sym.NoIndicator ∷ null ∷ long_constant 0 ∷
        long_constant 0 ∷ long_constant 0 ∷ rest)
        ≡ None }
    ensures literal_value { with_inputs (λ rest. symbol sym.Char ∷ literal (codes "a") ∷
        long_constant 4 ∷ long_constant 1 ∷ long_constant 4 ∷ symbol sym.NoIndicator ∷ null ∷
        long_constant 0 ∷ long_constant 0 ∷ long_constant 0 ∷ rest)
        ≡ None }
{}

/// The numbers of a host: a length for texts alone, one element or more, and a distance of at least an element's size.
pub fn number_examples()
    ensures any_pointer { with_inputs (ten sym.Char 500 4 1 4)
        ≡ selects (alone sym.Char 500 4 1 4 ∷ []) [] }
    ensures wide_step { with_outputs (ten sym.Int 500 0 2 8)
        ≡ selects [] (alone sym.Int 500 0 2 8 ∷ []) }
    ensures narrow_step { with_outputs (ten sym.Int 500 0 2 3) ≡ None }
    ensures a_length { with_outputs (ten sym.Int 500 4 1 4) ≡ None }
    ensures no_element { with_outputs (ten sym.Int 500 0 0 4) ≡ None }
    ensures array_input { with_inputs (ten sym.Int 500 0 2 4) ≡ None }
    ensures long_step { with_outputs (ten sym.LongLong 500 0 1 7) ≡ None }
    ensures bool_step { with_outputs (ten sym.Bool 500 0 3 1)
        ≡ selects [] (alone sym.Bool 500 0 3 1 ∷ []) }
    ensures char_array { with_outputs (ten sym.UnsignedChar 500 5 2 5)
        ≡ selects [] (alone sym.UnsignedChar 500 5 2 5 ∷ []) }
    ensures char_array_step { with_outputs (ten sym.UnsignedChar 500 5 2 4) ≡ None }
    ensures char_pointer { with_outputs (ten sym.Char 500 0 1 8)
        ≡ selects [] (alone sym.Char 500 0 1 8 ∷ []) }
    ensures char_pointer_step { with_outputs (ten sym.Char 500 0 1 7) ≡ None }
    ensures varchar { with_outputs (ten sym.Varchar 500 5 1 12)
        ≡ selects [] (alone sym.Varchar 500 5 1 12 ∷ []) }
    ensures varchar_step { with_outputs (ten sym.Varchar 500 5 1 11) ≡ None }
    ensures varchar_empty { with_outputs (ten sym.Varchar 500 0 1 12) ≡ None }
    ensures greatest { with_outputs (ten sym.Short 500 0 (2 ^ 24) (2 ^ 24))
        ≡ selects [] (alone sym.Short 500 0 (2 ^ 24) (2 ^ 24) ∷ []) }
    ensures great_count { with_outputs (ten sym.Short 500 0 (2 ^ 24 + 1) 2) ≡ None }
    ensures great_step { with_outputs (ten sym.Short 500 0 1 (2 ^ 24 + 1)) ≡ None }
    ensures great_length { with_outputs (ten sym.Char 500 (2 ^ 24 + 1) 1 (2 ^ 24 + 1)) ≡ None }
    ensures no_type { with_outputs (ten sym.NoIndicator 500 0 1 8) ≡ None }
{}

/// The indicators of a host: of four types, and at least as many as there are elements.
pub fn indicator_examples()
    ensures short { with_outputs (told 1 sym.Short 1 2)
        ≡ selects [] (beside 1 sym.Short 1 2 ∷ []) }
    ensures long_long { with_inputs (told 1 sym.LongLong 1 8)
        ≡ selects (beside 1 sym.LongLong 1 8 ∷ []) [] }
    ensures more { with_outputs (told 2 sym.Int 3 4) ≡ selects [] (beside 2 sym.Int 3 4 ∷ []) }
    ensures fewer { with_outputs (told 2 sym.Int 1 4) ≡ None }
    ensures none { with_outputs (told 1 sym.Int 0 4) ≡ None }
    ensures step { with_outputs (told 1 sym.Long 1 7) ≡ None }
    ensures unsigned { with_outputs (told 1 sym.UnsignedInt 1 4) ≡ None }
    ensures of_chars { with_outputs (told 1 sym.Char 1 8) ≡ None }
    ensures great { with_outputs (told 1 sym.Int (2 ^ 24 + 1) 4) ≡ None }
    ensures absent_with_pointer { with_outputs (told 1 sym.NoIndicator 0 0) ≡ None }
    ensures a_length { with_outputs (λ rest. symbol sym.Int ∷ pointer 500 ∷ long_constant 0 ∷
        long_constant 1 ∷ long_constant 4 ∷ symbol sym.Int ∷ pointer 700 ∷ long_constant 1 ∷
        long_constant 1 ∷ long_constant 4 ∷ rest)
        ≡ None }
    ensures without_pointer { with_outputs (λ rest. symbol sym.Int ∷ pointer 500 ∷ long_constant 0
        ∷ long_constant 1 ∷ long_constant 4 ∷ symbol sym.Int ∷ null ∷ long_constant 0 ∷
        long_constant 1 ∷ long_constant 4 ∷ rest)
        ≡ None }
{}

/// Constants and descriptors: where they stand, and with which numbers.
pub fn place_examples()
    ensures constant_input { with_inputs (const (codes "42") 0 1 0)
        ≡ selects (constant (codes "42") ∷ []) [] }
    ensures constant_output { with_outputs (const (codes "42") 0 1 0) ≡ None }
    ensures constant_length { with_inputs (const (codes "42") 2 1 0) ≡ None }
    ensures constant_count { with_inputs (const (codes "42") 0 2 0) ≡ None }
    ensures constant_step { with_inputs (const (codes "42") 0 1 1) ≡ None }
    ensures pointed_constant { with_inputs (ten sym.Const 50 0 1 0) ≡ None }
    ensures last_input { with_inputs (λ rest. const (codes "1") 0 1 0 (area (literal (codes "d"))
        rest))
        ≡ selects (constant (codes "1") ∷ descriptor (word (codes "d")) ∷ []) [] }
    ensures first_input { with_inputs (λ rest. area (literal (codes "d")) (const (codes "1") 0 1 0
        rest))
        ≡ None }
    ensures only_output { with_outputs (area (pointer 50))
        ≡ selects [] (descriptor (held 50) ∷ []) }
    ensures further_output { with_outputs (λ rest. area (pointer 50) (ten sym.Int 500 0 1 4 rest))
        ≡ None }
    ensures output_behind { with_outputs (λ rest. ten sym.Int 500 0 1 4 (area (pointer 50) rest))
        ≡ None }
    ensures unnamed { with_outputs (area null) ≡ None }
    ensures named_by_no_text { with_outputs (area (pointer 500)) ≡ None }
    ensures descriptor_numbers { with_outputs (ten sym.Descriptor 50 1 1 0) ≡ None }
{}

/// The four kinds of statement of ECPGdo.
pub fn statement_examples()
    ensures prepared { on_7 library.Do (literal (codes "c") ∷ symbol sym.StatementExecute ∷
        literal (codes "p") ∷ ends_inputs ends_outputs)
        ≡ gives_7 (run (word (codes "c")) (prepared (codes "p")) [] []) }
    ensures immediate { on_7 library.Do (pointer 9 ∷ symbol sym.StatementExecImmediate ∷ pointer 8
        ∷ ends_inputs ends_outputs)
        ≡ gives_7 (run (held 9) (immediate (held 8)) [] []) }
    ensures opening { on_7 library.Do (null ∷ symbol sym.StatementOpen ∷ literal (codes "h") ∷
        literal (codes "p") ∷ ends_inputs ends_outputs)
        ≡ gives_7 (run absent (opening (codes "h") (codes "p")) [] []) }
    ensures no_text { on_7 library.Do (null ∷ symbol sym.StatementExecImmediate ∷ null ∷
        ends_inputs ends_outputs)
        ≡ None }
    ensures pointed_name { on_7 library.Do (null ∷ symbol sym.StatementExecute ∷ pointer 9 ∷
        ends_inputs ends_outputs)
        ≡ None }
    ensures connection_by_no_text { on_7 library.Do (pointer 500 ∷ symbol sym.StatementNormal ∷
        literal [] ∷ ends_inputs ends_outputs)
        ≡ None }
    ensures no_statement { on_7 library.Do (null ∷ symbol sym.EndOfInputs ∷ ends_outputs) ≡ None }
{}

/// The calls on connections and prepared statements. NULL is a connection, a user, a password or the name of a new
/// connection.
pub fn connection_examples()
    ensures connects { on_7 library.Connect (literal (codes "db") ∷ null ∷ pointer 3 ∷ null ∷ [])
        ≡ gives_7 (connect (word (codes "db")) absent (held 3) absent) }
    ensures no_target { on_7 library.Connect (null ∷ null ∷ null ∷ null ∷ []) ≡ None }
    ensures three_texts { on_7 library.Connect (literal [] ∷ null ∷ null ∷ []) ≡ None }
    ensures disconnects { on_7 library.Disconnect (literal (codes "CURRENT") ∷ [])
        ≡ gives_7 (disconnect (word (codes "CURRENT"))) }
    ensures disconnects_none { on_7 library.Disconnect (null ∷ []) ≡ None }
    ensures sets { on_7 library.SetConn (pointer 5 ∷ []) ≡ gives_7 (set_connection (held 5)) }
    ensures sets_none { on_7 library.SetConn (null ∷ []) ≡ None }
    ensures on { on_7 library.SetCommit (literal (codes "on") ∷ null ∷ [])
        ≡ gives_7 (set_autocommit true absent) }
    ensures off { on_7 library.SetCommit (literal (codes "off") ∷ pointer 5 ∷ [])
        ≡ gives_7 (set_autocommit false (held 5)) }
    ensures upper_case { on_7 library.SetCommit (literal (codes "ON") ∷ null ∷ []) ≡ None }
    ensures controls { on_7 library.Trans (null ∷ literal (codes "commit") ∷ [])
        ≡ gives_7 (control absent (codes "commit")) }
    ensures prepares { on_7 library.Prepare (null ∷ literal (codes "p") ∷ pointer 9 ∷ [])
        ≡ gives_7 (prepare absent (codes "p") (held 9)) }
    ensures prepares_nothing { on_7 library.Prepare (null ∷ literal (codes "p") ∷ null ∷ [])
        ≡ None }
    ensures deallocates { on_7 library.Deallocate (null ∷ literal (codes "p") ∷ [])
        ≡ gives_7 (deallocate absent (codes "p")) }
    ensures nothing_behind { on_7 library.Deallocate (null ∷ literal (codes "p") ∷ null ∷ [])
        ≡ None }
{}

/// The calls on descriptors. A host that is set from or stored into has one element.
pub fn descriptor_examples()
    ensures allocates { on_7 library.AllocateDesc (literal (codes "d") ∷ [])
        ≡ gives_7 (allocate_descriptor (word (codes "d"))) }
    ensures deallocates { on_7 library.DeallocateDesc (pointer 4 ∷ [])
        ≡ gives_7 (deallocate_descriptor (held 4)) }
    ensures no_name { on_7 library.AllocateDesc (null ∷ []) ≡ None }
    ensures gets_count { on_7 library.GetDescHeader (pointer 4 ∷ ten sym.Int 500 0 1 4 [])
        ≡ gives_7 (get_count (held 4) (alone sym.Int 500 0 1 4)) }
    ensures gets_into_constant { on_7 library.GetDescHeader (pointer 4 ∷ const [] 0 1 0 [])
        ≡ None }
    ensures gets_into_array { on_7 library.GetDescHeader (pointer 4 ∷ ten sym.Int 500 0 2 4 [])
        ≡ None }
    ensures sets_count { on_7 library.SetDescHeader (pointer 4 ∷ const (codes "2") 0 1 0 [])
        ≡ gives_7 (set_count (held 4) (constant (codes "2"))) }
    ensures sets_by_descriptor { on_7 library.SetDescHeader (pointer 4 ∷ area (pointer 4) [])
        ≡ None }
    ensures gets_items { on_7 library.GetDesc (pointer 4 ∷ const (codes "1") 0 1 0 (symbol
        sym.ItemData ∷ ten sym.Int 500 0 1 4 (symbol sym.ItemName ∷ ten sym.Char 501 9 1 9 (symbol
        sym.EndOfItems ∷ []))))
        ≡ gives_7 (get_items (held 4) (constant (codes "1")) ((
          item.Content,
          alone sym.Int 500 0 1
              4,
        ) ∷ (item.Label, alone sym.Char 501 9 1 9) ∷ [])) }
    ensures gets_no_items { on_7 library.GetDesc (pointer 4 ∷ const (codes "1") 0 1 0 (symbol
        sym.EndOfItems ∷ []))
        ≡ gives_7 (get_items (held 4) (constant (codes "1")) []) }
    ensures unended_items { on_7 library.GetDesc (pointer 4 ∷ const (codes "1") 0 1 0 []) ≡ None }
    ensures sets_items { on_7 library.SetDesc (pointer 4 ∷ const (codes "1") 0 1 0 (symbol
        sym.ItemType ∷ const (codes "4") 0 1 0 (symbol sym.EndOfItems ∷ [])))
        ≡ gives_7 (set_items (held 4) (constant (codes "1")) ((item.Code, constant (codes "4")) ∷
        [])) }
    ensures sets_name { on_7 library.SetDesc (pointer 4 ∷ const (codes "1") 0 1 0 (symbol
        sym.ItemName ∷ const (codes "4") 0 1 0 (symbol sym.EndOfItems ∷ [])))
        ≡ None }
    ensures sets_length { on_7 library.SetDesc (pointer 4 ∷ const (codes "1") 0 1 0 (symbol
        sym.ItemOctets ∷ const (codes "4") 0 1 0 (symbol sym.EndOfItems ∷ [])))
        ≡ None }
    ensures no_item { on_7 library.SetDesc (pointer 4 ∷ const (codes "1") 0 1 0 (symbol sym.Int ∷
        const (codes "4") 0 1 0 (symbol sym.EndOfItems ∷ [])))
        ≡ None }
{}
