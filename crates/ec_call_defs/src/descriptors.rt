//! Calls on descriptors, as the contracts of functions that do nothing.
#![tactic(none)]

ghost use Rattle.std.specs.Prelude.{◌≡◌, true, false, pos, negsuc, [], ◌∷◌, ◌++◌, Some, None, codes, replicate};
ghost use Rattle.ec_arguments.specs.Arguments.{absent, word, held, constant, descriptor, normal, run, allocate_descriptor, deallocate_descriptor, get_count, set_count, get_items, set_items};
ghost use Rattle.ec_base.specs.declared.stop.Trap.TheVariants as trap;
ghost use Rattle.ec_ctypes.specs.declared.embedded.emb.Item.TheVariants as item;
ghost use Rattle.ec_link.specs.declared.reply.Reply.TheVariants as reply;
ghost use Rattle.ec_link.specs.declared.reply.Tx.TheVariants as tx;
ghost use Rattle.ec_call_defs.specs.Areas.{new_item};
ghost use Rattle.ec_call_defs.specs.Examples.{ready, state, bytes, small, from, column, rows_of, done, int_in, int_told, chars_in, halts, does, over_ready, text_sent, well, fails, descriptors_left, seven, d, of_d};
ghost use Rattle.ec_call_defs.specs.Outcomes.{trapped};

/// Rows into a descriptor, and items as inputs.
pub fn area_examples()
    ensures one_row { descriptors_left (run absent (normal (codes "s")) [] (d ∷ [])) (state (ready ∷
        []) (of_d []) [] (from 0 (rows_of (codes "a" ∷ codes "b" ∷ []) ((Some (codes "7") ∷ None ∷
        []) ∷ [])) ∷ []))
        ≡ of_d (seven ∷ record { content = None; label = codes "b"; code = pos 4 } ∷ []) }
    ensures more_rows { does (run absent (normal (codes "s")) [] (d ∷ [])) (state (ready ∷ [])
        (of_d []) [] (from 0 (column (codes "7" ∷ codes "8" ∷ [])) ∷ []))
        ≡ fails (negsuc 202) (codes "21000") (pos 2) [] (text_sent [] ∷ []) }
    ensures more_rows_keep { descriptors_left (run absent (normal (codes "s")) [] (d ∷ [])) (state
        (ready ∷ []) (of_d (seven ∷ [])) [] (from 0 (column (codes "8" ∷ codes "9" ∷ [])) ∷ []))
        ≡ of_d (seven ∷ []) }
    ensures no_row { does (run absent (normal (codes "s")) [] (d ∷ [])) (state (ready ∷ []) (of_d
        []) [] (from 0 (column []) ∷ []))
        ≡ fails (pos 100) (codes "02000") (pos 0) [] (text_sent [] ∷ []) }
    ensures done_into { does (run absent (normal (codes "s")) [] (d ∷ [])) (state (ready ∷ []) (of_d
        []) [] (from 0 (done (Some 1)) ∷ []))
        ≡ fails (negsuc 200) (codes "07002") (pos 1) [] (text_sent [] ∷ []) }
    ensures as_input { does (run absent (normal (codes "s")) (constant (codes "1") ∷ d ∷ []) [])
        (state (ready ∷ []) (of_d (seven ∷ new_item ∷ [])) [] (from 0 (done None) ∷ []))
        ≡ well (pos 0) [] (text_sent (Some (codes "1") ∷ Some (codes "7") ∷ None ∷ []) ∷ []) }
    ensures unknown_output { does (run absent (normal (codes "s")) [] (d ∷ [])) (over_ready [] [])
        ≡ fails (negsuc 239) (codes "33000") (pos 0) [] [] }
{}

/// Descriptors and their counts.
pub fn count_examples()
    ensures allocates { descriptors_left (allocate_descriptor (word (codes "e"))) (state [] (of_d
        (seven ∷ [])) [] [])
        ≡ (codes "d", seven ∷ []) ∷ (codes "e", []) ∷ [] }
    ensures anew { descriptors_left (allocate_descriptor (word (codes "d"))) (state [] (of_d (seven
        ∷ [])) [] [])
        ≡ of_d [] }
    ensures deallocates { descriptors_left (deallocate_descriptor (word (codes "d"))) (state []
        (of_d (seven ∷ [])) [] [])
        ≡ [] }
    ensures unknown { does (deallocate_descriptor (word (codes "e"))) (state [] (of_d []) [] [])
        ≡ fails (negsuc 239) (codes "33000") (pos 0) [] [] }
    ensures counts { does (get_count (word (codes "d")) (int_in 2)) (state [] (of_d (seven ∷
        new_item ∷ [])) (bytes (small 9) ∷ []) [])
        ≡ well (pos 0) (bytes (small 2) ∷ []) [] }
    ensures more { descriptors_left (set_count (word (codes "d")) (constant (codes "2"))) (state []
        (of_d (seven ∷ [])) [] [])
        ≡ of_d (seven ∷ new_item ∷ []) }
    ensures fewer { descriptors_left (set_count (word (codes "d")) (constant (codes "0"))) (state []
        (of_d (seven ∷ [])) [] [])
        ≡ of_d [] }
    ensures too_many { does (set_count (word (codes "d")) (constant (codes "1001"))) (state [] (of_d
        []) [] [])
        ≡ fails (negsuc 240) (codes "07009") (pos 0) [] [] }
    ensures negative { does (set_count (word (codes "d")) (constant (codes "-1"))) (state [] (of_d
        []) [] [])
        ≡ fails (negsuc 240) (codes "07009") (pos 0) [] [] }
    ensures no_number { does (set_count (word (codes "d")) (constant (codes "x"))) (state [] (of_d
        []) [] [])
        ≡ fails (negsuc 203) (codes "42804") (pos 0) [] [] }
    ensures no_long { does (set_count (word (codes "d")) (constant (codes "9223372036854775808")))
        (state [] (of_d []) [] [])
        ≡ fails (negsuc 203) (codes "42804") (pos 0) [] [] }
    ensures area_first { does (set_count (word (codes "e")) (constant (codes "x"))) (state [] (of_d
        []) [] [])
        ≡ fails (negsuc 239) (codes "33000") (pos 0) [] [] }
    ensures value_first { does (set_count (word (codes "e")) (int_in 2)) (state [] [] [] [])
        ≡ (halts (trapped trap.Dead), pos 0, codes "00000", pos 0, [], []) }
{}

/// Items that are got: each as a field with its text.
pub fn getting_examples()
    ensures content { does (get_items (word (codes "d")) (constant (codes "1")) ((
      item.Content,
      int_in 2,
    ) ∷ (item.Octets, int_in 3) ∷ (item.Code, int_in 4) ∷ (
      item.Label,
      chars_in 5 0 2 1
          2,
    ) ∷ (item.Indicator, int_in 6) ∷ [])) (state [] (of_d (seven ∷ [])) (replicate 5 (bytes
        (small 9))) [])
        ≡ well (pos 0) (bytes (small 7) ∷ bytes (small 1) ∷ bytes (small 4) ∷ bytes (97 ∷ 0 ∷ 0 ∷ 0
        ∷ []) ∷ bytes (small 0) ∷ []) [] }
    ensures null { does (get_items (word (codes "d")) (constant (codes "1")) ((
      item.Indicator,
      int_in 2,
    ) ∷ (item.Content, int_in 3) ∷ (item.Octets, int_in 4) ∷ (item.Code, int_in 5) ∷
        [])) (state [] (of_d (new_item ∷ [])) (replicate 4 (bytes (small 9))) [])
        ≡ well (pos 0) (bytes (replicate 4 255) ∷ bytes (small 9) ∷ bytes (small 0) ∷ bytes (small
        12) ∷ []) [] }
    ensures null_alone { does (get_items (word (codes "d")) (constant (codes "1")) ((
      item.Content,
      int_in 2,
    ) ∷ [])) (state [] (of_d (new_item ∷ [])) (bytes (small 9) ∷ []) [])
        ≡ fails (negsuc 212) (codes "22002") (pos 0) (bytes (small 9) ∷ []) [] }
    ensures null_told { does (get_items (word (codes "d")) (constant (codes "1")) ((
      item.Content,
      int_told 2 3,
    ) ∷ [])) (state [] (of_d (new_item ∷ [])) (bytes (small 9) ∷ bytes (small 9) ∷
        []) [])
        ≡ well (pos 0) (bytes (small 9) ∷ bytes (replicate 4 255) ∷ []) [] }
    ensures own_indicator_first { does (get_items (word (codes "d")) (constant (codes "1"))
        ((item.Content, int_told 2 3) ∷ (item.Indicator, int_in 4) ∷ [])) (state [] (of_d (new_item
        ∷ [])) (replicate 3 (bytes (small 9))) [])
        ≡ well (pos 0) (bytes (small 9) ∷ bytes (replicate 4 255) ∷ bytes (replicate 4 255) ∷ [])
        [] }
    ensures above { does (get_items (word (codes "d")) (constant (codes "2")) ((
      item.Content,
      int_in
          2,
    ) ∷ [])) (state [] (of_d (seven ∷ [])) (bytes (small 9) ∷ []) [])
        ≡ fails (negsuc 240) (codes "07009") (pos 0) (bytes (small 9) ∷ []) [] }
    ensures below { does (get_items (word (codes "d")) (constant (codes "0")) []) (state [] (of_d
        (seven ∷ [])) [] [])
        ≡ fails (negsuc 240) (codes "07009") (pos 0) [] [] }
    ensures null_index { does (get_items (word (codes "d")) (int_told 2 3) []) (state [] (of_d
        (seven ∷ [])) (bytes (small 1) ∷ bytes (replicate 4 255) ∷ []) [])
        ≡ fails (negsuc 203) (codes "42804") (pos 0) (bytes (small 1) ∷ bytes (replicate 4 255) ∷
        []) [] }
    ensures unknown { does (get_items (word (codes "e")) (constant (codes "x")) []) (state [] (of_d
        []) [] [])
        ≡ fails (negsuc 239) (codes "33000") (pos 0) [] [] }
    ensures first_code_ends { does (get_items (word (codes "d")) (constant (codes "1"))
        ((item.Octets, int_in 2) ∷ (item.Label, int_in 3) ∷ (item.Code, int_in 4) ∷ [])) (state []
        (of_d (seven ∷ [])) (replicate 3 (bytes (small 9))) [])
        ≡ fails (negsuc 203) (codes "42804") (pos 0) (bytes (small 1) ∷ bytes (small 9) ∷ bytes
        (small 9) ∷ []) [] }
{}

/// Items that are set: the index is tested before them, and each by itself.
pub fn setting_examples()
    ensures content { descriptors_left (set_items (word (codes "d")) (constant (codes "1"))
        ((item.Content, constant (codes "x")) ∷ (item.Code, constant (codes "-5")) ∷ [])) (state []
        (of_d (seven ∷ [])) [] [])
        ≡ of_d (record { content = Some (codes "x"); label = codes "a"; code = negsuc 4 } ∷ []) }
    ensures raises { descriptors_left (set_items (word (codes "d")) (constant (codes "3"))
        ((item.Content, constant (codes "x")) ∷ [])) (state [] (of_d (seven ∷ [])) [] [])
        ≡ of_d (seven ∷ new_item ∷ record new_item { content = Some (codes "x") } ∷ []) }
    ensures nulls { descriptors_left (set_items (word (codes "d")) (constant (codes "1"))
        ((item.Indicator, constant (codes "-3")) ∷ [])) (state [] (of_d (seven ∷ [])) [] [])
        ≡ of_d (record seven { content = None } ∷ []) }
    ensures leaves { descriptors_left (set_items (word (codes "d")) (constant (codes "1"))
        ((item.Indicator, constant (codes "0")) ∷ [])) (state [] (of_d (seven ∷ [])) [] [])
        ≡ of_d (seven ∷ []) }
    ensures no_int { does (set_items (word (codes "d")) (constant (codes "2")) ((
      item.Code,
      constant
          (codes "2147483648"),
    ) ∷ [])) (state [] (of_d (seven ∷ [])) [] [])
        ≡ fails (negsuc 203) (codes "42804") (pos 0) [] [] }
    ensures no_int_changes_nothing { descriptors_left (set_items (word (codes "d")) (constant (codes
        "2")) ((item.Code, constant (codes "x")) ∷ [])) (state [] (of_d (seven ∷ [])) [] [])
        ≡ of_d (seven ∷ []) }
    ensures first_stays { descriptors_left (set_items (word (codes "d")) (constant (codes "1"))
        ((item.Content, constant (codes "x")) ∷ (item.Code, constant (codes "x")) ∷ [])) (state []
        (of_d (seven ∷ [])) [] [])
        ≡ of_d (record seven { content = Some (codes "x") } ∷ []) }
    ensures index_first { does (set_items (word (codes "d")) (constant (codes "1001")) ((
      item.Code,
      constant (codes "x"),
    ) ∷ [])) (state [] (of_d []) [] [])
        ≡ fails (negsuc 240) (codes "07009") (pos 0) [] [] }
    ensures below { does (set_items (word (codes "d")) (constant (codes "0")) []) (state [] (of_d
        []) [] [])
        ≡ fails (negsuc 240) (codes "07009") (pos 0) [] [] }
    ensures values_before_codes { does (set_items (word (codes "e")) (constant (codes "x"))
        ((item.Content, int_in 2) ∷ [])) (state [] [] [] [])
        ≡ (halts (trapped trap.Dead), pos 0, codes "00000", pos 0, [], []) }
{}
