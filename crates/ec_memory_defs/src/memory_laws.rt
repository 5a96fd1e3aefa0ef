//! What memory does, as the contracts of functions that do nothing.

ghost use Rattle.std.specs.Prelude.{◌≡◌, ℕ, ◌+◌, ◌<◌, ◌≤◌, ◌^◌, ◌-◌, pos, negsuc, [], ◌∷◌, length, Some, None, Ok, Err};
ghost use Rattle.std.specs.declared.cmp.Ordering.TheVariants.{Less, Equal, Greater};
ghost use Rattle.ec_base.specs.declared.stop.Trap.TheVariants as trap;
ghost use Rattle.ec_ctypes.specs.declared.types.arith.Arith.TheVariants as arith;
ghost use Rattle.ec_memory_defs.specs.Memory.{Memory, alive, ended, text_up_to, difference, order, make_zeroed, pointer_to, integer_type, pointer_type, number, address, load, store, span, text_at, moved, make, end_to, copy, unset, fill, live_bytes, last_number, little_endian_bytes};
ghost use Rattle.ec_memory_defs.specs.MemoryExamples.{three_objects, first, second, third};

/// The traps of accesses, in their order: Null, Dead, Outside, Unset.
pub fn access_examples()
    ensures null { load three_objects 0 (integer_type arith.Int) ≡ Err trap.Null }
    ensures null_before_outside { load three_objects 100 (integer_type arith.Int) ≡ Err trap.Null }
    ensures dead { load three_objects second (integer_type arith.Char) ≡ Err trap.Dead }
    ensures never_made { load three_objects (pointer_to 4 0) (integer_type arith.Char)
        ≡ Err trap.Dead }
    ensures dead_before_outside { load three_objects (second + 100) (integer_type arith.Char)
        ≡ Err trap.Dead }
    ensures outside_before_unset { load three_objects (first + 2) (integer_type arith.Int)
        ≡ Err trap.Outside }
    ensures unset { load three_objects first (integer_type arith.Int) ≡ Err trap.Unset }
    ensures within { load three_objects first (integer_type arith.Short) ≡ Ok (number (pos 513)) }
    ensures nothing_at_the_end { span three_objects (first + 4) 0 ≡ Ok [] }
    ensures nothing_beyond { span three_objects (first + 5) 0 ≡ Err trap.Outside }
    ensures nothing_at_null { span three_objects 0 0 ≡ Err trap.Null }
    ensures nothing_of_the_dead { span three_objects second 0 ≡ Err trap.Dead }
{}

/// Texts are read byte by byte, up to their zero byte.
pub fn text_examples()
    ensures text { text_at three_objects third ≡ Ok (104 ∷ []) }
    ensures empty { text_at three_objects (third + 1) ≡ Ok [] }
    ensures behind { text_at three_objects (third + 2) ≡ Err trap.Outside }
    ensures unset_first { text_at three_objects first ≡ Err trap.Unset }
    ensures no_end { text_at three_objects (first + 3) ≡ Err trap.Outside }
    ensures null { text_at three_objects 0 ≡ Err trap.Null }
    ensures dead { text_at three_objects second ≡ Err trap.Dead }
{}

/// Texts of at most so many bytes: what stands behind these is not read.
pub fn front_examples()
    ensures zero_byte { text_up_to three_objects third 2 ≡ Ok (104 ∷ []) }
    ensures length { text_up_to three_objects third 1 ≡ Ok (104 ∷ []) }
    ensures zero_at_once { text_up_to three_objects (third + 1) 9 ≡ Ok [] }
    ensures before_the_unset { text_up_to three_objects first 2 ≡ Ok (1 ∷ 2 ∷ []) }
    ensures unset { text_up_to three_objects first 3 ≡ Err trap.Unset }
    ensures before_the_end { text_up_to three_objects (first + 3) 1 ≡ Ok (4 ∷ []) }
    ensures no_end { text_up_to three_objects (first + 3) 2 ≡ Err trap.Outside }
    ensures behind { text_up_to three_objects (third + 2) 1 ≡ Err trap.Outside }
    ensures null { text_up_to three_objects 0 1 ≡ Err trap.Null }
    ensures dead { text_up_to three_objects second 1 ≡ Err trap.Dead }
    ensures none_of_null { text_up_to three_objects 0 0 ≡ Ok [] }
    ensures none_of_the_dead { text_up_to three_objects second 0 ≡ Ok [] }
{}

/// Differences and the order of pointers, which test no object.
pub fn two_pointer_examples()
    ensures forward { difference (first + 4) first 2 ≡ Ok (pos 2) }
    ensures back { difference first (first + 4) 2 ≡ Ok (negsuc 1) }
    ensures cut { difference (first + 3) first 2 ≡ Ok (pos 1) }
    ensures cut_towards_zero { difference first (first + 3) 2 ≡ Ok (negsuc 0) }
    ensures other_object { difference (first + 4) second 1 ≡ Err trap.Outside }
    ensures null { difference 0 first 1 ≡ Err trap.Outside }
    ensures both_null { difference 0 0 4 ≡ Ok (pos 0) }
    ensures never_made { difference (pointer_to 9 7) (pointer_to 9 3) 4 ≡ Ok (pos 1) }
    ensures within { order first (first + 1) ≡ Less }
    ensures later_object { order second (first + 4) ≡ Greater }
    ensures null_first { order 0 first ≡ Less }
    ensures same { order third third ≡ Equal }
{}

/// Pointers move within their object and to its end.
pub fn pointer_examples()
    ensures one_past { moved three_objects first (pos 2) 2 ≡ Ok (first + 4) }
    ensures too_far { moved three_objects first (pos 5) 1 ≡ Err trap.Outside }
    ensures back { moved three_objects (first + 4) (negsuc 3) 1 ≡ Ok first }
    ensures too_far_back { moved three_objects (first + 4) (negsuc 4) 1 ≡ Err trap.Outside }
    ensures index_of_any_size { moved three_objects first (pos (2 ^ 127 - 1)) 8 ≡ Err trap.Outside }
    ensures no_wrap { moved three_objects first (pos (2 ^ 64)) 1 ≡ Err trap.Outside }
    ensures null { moved three_objects 0 (pos 0) 1 ≡ Err trap.Null }
    ensures dead { moved three_objects second (pos 0) 1 ≡ Err trap.Dead }
    ensures dead_before_outside { moved three_objects second (pos 9) 1 ≡ Err trap.Dead }
{}

/// What loaded bytes are worth, and which bytes are stored.
pub fn value_examples()
    ensures char_is_signed { load (alive (Some 200 ∷ []) ∷ []) first (integer_type arith.Char)
        ≡ Ok (number (negsuc 55)) }
    ensures unsigned { load (alive (Some 200 ∷ []) ∷ []) first (integer_type arith.UChar)
        ≡ Ok (number (pos 200)) }
    ensures any_byte_is_true { load (alive (Some 2 ∷ []) ∷ []) first (integer_type arith.Bool)
        ≡ Ok (number (pos 1)) }
    ensures zero_is_false { load (alive (Some 0 ∷ []) ∷ []) first (integer_type arith.Bool)
        ≡ Ok (number (pos 0)) }
    ensures stored { store three_objects first (integer_type arith.Short) (number (negsuc 1))
        ≡ Ok (alive (Some 254 ∷ Some 255 ∷ None ∷ Some 4 ∷ [])
        ∷ ended ∷ alive (Some 104 ∷ Some 0 ∷ []) ∷ []) }
    ensures pointers { little_endian_bytes 8 third ≡ 0 ∷ 0 ∷ 0 ∷ 0 ∷ 3 ∷ 0 ∷ 0 ∷ 0 ∷ [] }
    ensures filled { fill three_objects (first + 1) 2 9
        ≡ Ok (alive (Some 1 ∷ Some 9 ∷ Some 9 ∷ Some 4 ∷ [])
        ∷ ended ∷ alive (Some 104 ∷ Some 0 ∷ []) ∷ []) }
    ensures made_unset { unset three_objects third 1 ≡ Ok
        (alive (Some 1 ∷ Some 2 ∷ None ∷ Some 4 ∷ []) ∷ ended ∷ alive (None ∷ Some 0 ∷ []) ∷ []) }
    ensures copied { copy three_objects third (first + 1) 2 ≡ Ok
        (alive (Some 1 ∷ Some 2 ∷ None ∷ Some 4 ∷ []) ∷ ended ∷ alive (Some 2 ∷ None ∷ []) ∷ []) }
    ensures overlapping { copy three_objects (first + 1) first 3
        ≡ Ok (alive (Some 1 ∷ Some 1 ∷ Some 2 ∷ None ∷ [])
        ∷ ended ∷ alive (Some 104 ∷ Some 0 ∷ []) ∷ []) }
    ensures source_first { copy three_objects 0 second 1 ≡ Err trap.Dead }
{}

/// Objects are made and end, and no number is used again.
pub fn object_examples()
    ensures numbered { make three_objects 2
        ≡ Ok (
          pointer_to 4 0,
          alive (Some 1 ∷ Some 2 ∷ None ∷ Some 4 ∷ []) ∷ ended
              ∷ alive (Some 104 ∷ Some 0 ∷ []) ∷ alive (None ∷ None ∷ []) ∷ [],
        ) }
    ensures zeroed { make_zeroed (ended ∷ []) 2
        ≡ Ok (second, ended ∷ alive (Some 0 ∷ Some 0 ∷ []) ∷ []) }
    ensures last { last_number three_objects ≡ 3 }
    ensures ended_behind { end_to three_objects 1
        ≡ alive (Some 1 ∷ Some 2 ∷ None ∷ Some 4 ∷ []) ∷ ended ∷ ended ∷ [] }
    ensures not_again { make (end_to three_objects 0) 1
        ≡ Ok (pointer_to 4 0, ended ∷ ended ∷ ended ∷ alive (None ∷ []) ∷ []) }
    ensures too_many_bytes { (m : Memory) (size : ℕ) →
        2 ^ 28 < live_bytes m + size → make m size ≡ Err trap.Spent }
    ensures too_many_objects { (m : Memory) (size : ℕ) →
        2 ^ 32 ≤ length m + 1 → make m size ≡ Err trap.Spent }
{}
