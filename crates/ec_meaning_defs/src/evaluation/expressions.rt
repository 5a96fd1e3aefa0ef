//! What expressions do, as the contracts of functions that do nothing.

ghost use Rattle.std.specs.Prelude.{◌≡◌, ◌-◌, ◌^◌, true, false, pos, negsuc, [], ◌∷◌, codes};
ghost use Rattle.ec_base.specs.declared.stop.Trap.TheVariants as trap;
ghost use Rattle.ec_ctypes.specs.declared.types.arith.Arith.TheVariants as arith;
ghost use Rattle.ec_meaning_defs.specs.functions.Functions.{strlen};
ghost use Rattle.ec_memory_defs.specs.Memory.{number, address, integer_type, pointer_type, pointer_to};
ghost use Rattle.ec_meaning_defs.specs.resolved.Operations.{plus, minus, integers, pointer_plus, pointer_minus};
ghost use Rattle.ec_meaning_defs.specs.resolved.Resolved.{slot, constant, member, load, whole, store, copy, put as put_bytes, convert, negate, flip, not, both, either, call, known, faulty};
ghost use Rattle.ec_meaning_defs.specs.evaluation.State.{exited, trapped, stuck};
ghost use Rattle.ec_meaning_defs.specs.evaluation.Examples.{int, char, short, unsigned, bool, null, lit, below, get, set, add, divide, increase, bump, read_as, set_as, element, args, put, print_int, at, does, gives, program, with_functions, function, global, shows, ends};

/// Operands and arguments go from left to right, and the place of an assignment before its value.
pub fn order_examples()
    ensures operands { shows 0 (program [] (does (add (put 97) (put 98)) ∷ []))
        ≡ (codes "ab", exited 0) }
    ensures arguments { shows 1 (with_functions (function (int ∷ int ∷ []) [] [] ∷ []) (program []
        (does (call 1 false (args (put 97 ∷ put 98 ∷ []))) ∷ [])))
        ≡ (codes "ab", exited 0) }
    ensures place_first { shows 0 (program (8 ∷ []) (does (set (element (slot 0) (add (put 97)
        (below 96))) (put 98)) ∷ []))
        ≡ (codes "ab", exited 0) }
    ensures place_traps_first { ends 0 (program (4 ∷ 4 ∷ []) (at 3 (set (element (slot 0) (lit 2))
        (get (slot 1))) ∷ []))
        ≡ trapped trap.Outside 3 }
    ensures value_before_the_store { ends 0 (program (4 ∷ []) (at 3 (set null (get (slot 0))) ∷
        []))
        ≡ trapped trap.Unset 3 }
    ensures answers_what_is_stored { ends 0 (program (4 ∷ 4 ∷ []) (gives (set (slot 0) (set (slot
        1) (lit 6))) ∷ []))
        ≡ exited 6 }
{}

/// `a op= b`: the place, its old value, `b`, the operation, the store.
pub fn update_examples()
    ensures old_value_first { ends 0 (program (4 ∷ []) (does (set (slot 0) (lit 1)) ∷ does
        (increase (slot 0) (set (slot 0) (lit 5))) ∷ gives (get (slot 0)) ∷ []))
        ≡ exited 6 }
    ensures reads_before { ends 0 (program (4 ∷ []) (at 2 (increase (slot 0) (divide (lit 1) (lit
        0))) ∷ []))
        ≡ trapped trap.Unset 2 }
    ensures place_before { shows 0 (program (8 ∷ []) (at 2 (increase (element (slot 0) (add (put
        97) (below 96))) (put 98)) ∷ []))
        ≡ (97 ∷ [], trapped trap.Unset 2) }
    ensures overflows { ends 0 (program (4 ∷ []) (does (set (slot 0) (lit (2 ^ 31 - 1))) ∷ at 2
        (increase (slot 0) (lit 1)) ∷ []))
        ≡ trapped trap.Overflow 2 }
{}

/// `++` and `--`: before, they answer the new value, behind, the old one. A narrow type is widened, and keeps its low bits.
pub fn bump_examples()
    ensures behind { shows 0 (program (4 ∷ []) (does (set (slot 0) (lit 5)) ∷ does (print_int
        (bump int int (integers arith.Int plus) true (slot 0))) ∷ does (print_int (get (slot 0)))
        ∷ []))
        ≡ (codes "5;6;", exited 0) }
    ensures before { shows 0 (program (4 ∷ []) (does (set (slot 0) (lit 5)) ∷ does (print_int
        (bump int int (integers arith.Int minus) false (slot 0))) ∷ does (print_int (get (slot
        0))) ∷ []))
        ≡ (codes "4;4;", exited 0) }
    ensures of_int { ends 0 (program (4 ∷ []) (does (set (slot 0) (lit (2 ^ 31 - 1))) ∷ at 2 (bump
        int int (integers arith.Int plus) true (slot 0)) ∷ []))
        ≡ trapped trap.Overflow 2 }
    ensures of_char { shows 0 (program (1 ∷ []) (does (set_as char (slot 0) 127) ∷ does (bump char
        int (integers arith.Int plus) true (slot 0)) ∷ does (print_int (read_as char (slot 0))) ∷
        []))
        ≡ (codes "-128;", exited 0) }
    ensures of_short { shows 0 (program (2 ∷ []) (does (set_as short (slot 0) 32767) ∷ does
        (print_int (bump short int (integers arith.Int plus) false (slot 0))) ∷ []))
        ≡ (codes "-32768;", exited 0) }
    ensures of_unsigned { shows 0 (program (4 ∷ []) (does (set_as unsigned (slot 0) 0) ∷ does
        (print_int (bump unsigned unsigned (integers arith.UInt minus) false (slot 0))) ∷ []))
        ≡ (codes "-1;", exited 0) }
    ensures of_true { shows 0 (program (1 ∷ []) (does (set_as bool (slot 0) 1) ∷ does (print_int
        (bump bool int (integers arith.Int plus) false (slot 0))) ∷ []))
        ≡ (codes "1;", exited 0) }
    ensures of_false { shows 0 (program (1 ∷ []) (does (set_as bool (slot 0) 0) ∷ does (print_int
        (bump bool int (integers arith.Int minus) false (slot 0))) ∷ []))
        ≡ (codes "1;", exited 0) }
    ensures of_pointer { ends 0 (program (8 ∷ 8 ∷ []) (does (set (element (slot 0) (lit 1)) (lit
        7)) ∷ does (store pointer_type (slot 1) (slot 0)) ∷ does (bump pointer_type pointer_type
        (pointer_plus 4) true (slot 1)) ∷ gives (get (load pointer_type (slot 1))) ∷ []))
        ≡ exited 7 }
    ensures past_the_end { ends 0 (program (4 ∷ 8 ∷ []) (does (store pointer_type (slot 1) (slot
        0)) ∷ at 2 (bump pointer_type pointer_type (pointer_plus 4) true (slot 1)) ∷ at 3 (bump
        pointer_type pointer_type (pointer_plus 4) true (slot 1)) ∷ []))
        ≡ trapped trap.Outside 3 }
    ensures before_the_start { ends 0 (program (4 ∷ 8 ∷ []) (does (store pointer_type (slot 1)
        (slot 0)) ∷ at 2 (bump pointer_type pointer_type (pointer_minus 4) true (slot 1)) ∷ []))
        ≡ trapped trap.Outside 2 }
{}

/// `&&` and `||` stop early and give 0 or 1.
pub fn logical_examples()
    ensures both { ends 0 (program [] (gives (add (lit 10) (both (lit 2) (lit 3))) ∷ []))
        ≡ exited 11 }
    ensures both_stops { ends 0 (program [] (gives (add (lit 10) (both (lit 0) (divide (lit 1)
        (lit 0)))) ∷ []))
        ≡ exited 10 }
    ensures both_goes_on { ends 0 (program [] (gives (both (lit 1) (divide (lit 1) (lit 0))) ∷
        []))
        ≡ trapped trap.Zero 1 }
    ensures either { ends 0 (program [] (gives (add (lit 10) (either (lit 0) (lit 4))) ∷ []))
        ≡ exited 11 }
    ensures either_stops { ends 0 (program [] (gives (add (lit 10) (either (lit 4) (divide (lit 1)
        (lit 0)))) ∷ []))
        ≡ exited 11 }
    ensures either_goes_on { ends 0 (program [] (gives (either (lit 0) (divide (lit 1) (lit 0))) ∷
        []))
        ≡ trapped trap.Zero 1 }
    ensures of_pointers { ends 0 (program (4 ∷ []) (gives (both (slot 0) (not null)) ∷ []))
        ≡ exited 1 }
    ensures not_number { ends 0 (program [] (gives (add (not (lit 5)) (add (not (lit 0)) (lit
        10))) ∷ []))
        ≡ exited 11 }
{}

/// Conversions keep the low bits, bool is 0 or 1, and `-` and `~` go by their type.
pub fn conversion_examples()
    ensures narrower { shows 0 (program (1 ∷ []) (does (set_as char (slot 0) 456) ∷ does
        (print_int (read_as char (slot 0))) ∷ []))
        ≡ (codes "-56;", exited 0) }
    ensures to_bool { shows 0 (program (1 ∷ []) (does (set_as bool (slot 0) 256) ∷ does (print_int
        (read_as bool (slot 0))) ∷ []))
        ≡ (codes "1;", exited 0) }
    ensures any_byte_is_true { shows 0 (program (1 ∷ []) (does (set_as char (slot 0) 2) ∷ does
        (print_int (read_as bool (slot 0))) ∷ []))
        ≡ (codes "1;", exited 0) }
    ensures pointer_as_int { shows 0 (program (4 ∷ []) (does (print_int (convert pointer_type int
        (element (slot 0) (lit 1)))) ∷ []))
        ≡ (codes "4;", exited 0) }
    ensures number_as_pointer { ends 0 (program [] (at 2 (get (convert (integer_type arith.Long)
        pointer_type (lit (2 ^ 32 - 1)))) ∷ []))
        ≡ trapped trap.Null 2 }
    ensures negated { ends 0 (program [] (gives (negate arith.Int (below 6)) ∷ [])) ≡ exited 7 }
    ensures negated_overflows { ends 0 (program [] (at 4 (negate arith.Int (below (2 ^ 31 - 1))) ∷
        []))
        ≡ trapped trap.Overflow 4 }
    ensures flipped { ends 0 (program [] (gives (flip arith.Int (below 6)) ∷ [])) ≡ exited 6 }
{}

/// A place has no test of its own; a member or an element that is taken has those of a pointer that moves.
pub fn place_examples()
    ensures of_null { ends 0 (program (8 ∷ []) (does (store pointer_type (slot 0) null) ∷ []))
        ≡ exited 0 }
    ensures member_of_null { ends 0 (program [] (at 2 (member 0 null) ∷ [])) ≡ trapped trap.Null 2 }
    ensures member_at_the_end { ends 0 (program (4 ∷ []) (at 2 (member 4 (slot 0)) ∷ at 3 (get
        (member 4 (slot 0))) ∷ []))
        ≡ trapped trap.Outside 3 }
    ensures member_behind { ends 0 (program (4 ∷ []) (at 2 (member 5 (slot 0)) ∷ []))
        ≡ trapped trap.Outside 2 }
    ensures element_before { ends 0 (program (4 ∷ []) (at 2 (element (slot 0) (below 0)) ∷ []))
        ≡ trapped trap.Outside 2 }
    ensures never_made { ends 0 (program [] (at 2 (get (constant (address (pointer_to 9 0)))) ∷
        []))
        ≡ trapped trap.Dead 2 }
    ensures without_a_place { ends 0 (program [] (gives (get (slot 3)) ∷ [])) ≡ stuck }
    ensures number_as_a_place { ends 0 (program [] (gives (get (lit 3)) ∷ [])) ≡ stuck }
    ensures with_a_fault { shows 0 (program [] (does (put 97) ∷ gives faulty ∷ []))
        ≡ (codes "a", stuck) }
{}

/// Structs are copied by their cells, unset ones too. As a statement a struct is an access to all of it.
pub fn struct_examples()
    ensures copied { ends 0 (program (8 ∷ 8 ∷ []) (does (set (slot 0) (lit 7)) ∷ does (copy 8
        (slot 1) (slot 0)) ∷ gives (get (slot 1)) ∷ []))
        ≡ exited 7 }
    ensures unset_cells { ends 0 (program (8 ∷ 8 ∷ []) (does (set (slot 0) (lit 7)) ∷ at 2 (copy 8
        (slot 1) (slot 0)) ∷ at 3 (get (member 4 (slot 1))) ∷ []))
        ≡ trapped trap.Unset 3 }
    ensures again { ends 0 (program (4 ∷ 4 ∷ 4 ∷ []) (does (set (slot 0) (lit 7)) ∷ does (copy 4
        (slot 2) (copy 4 (slot 1) (slot 0))) ∷ gives (get (slot 2)) ∷ []))
        ≡ exited 7 }
    ensures source_first { ends 0 (program [] (at 2 (copy 4 null (constant (address (pointer_to 9
        0)))) ∷ []))
        ≡ trapped trap.Dead 2 }
    ensures place_before_source { shows 0 (program (8 ∷ 8 ∷ []) (does (copy 4 (element (slot 0)
        (add (put 97) (below 96))) (element (slot 1) (add (put 98) (below 97)))) ∷ []))
        ≡ (codes "ab", exited 0) }
    ensures looked_at { ends 0 (program (8 ∷ []) (does (whole 8 (slot 0)) ∷ [])) ≡ exited 0 }
    ensures looked_at_beyond { ends 0 (program (8 ∷ []) (at 2 (whole 8 (member 4 (slot 0))) ∷ []))
        ≡ trapped trap.Outside 2 }
    ensures looked_at_null { ends 0 (program [] (at 2 (whole 8 null) ∷ [])) ≡ trapped trap.Null 2 }
    ensures bytes_put { ends 0 (program (3 ∷ []) (does (put_bytes (104 ∷ 105 ∷ 0 ∷ []) (slot 0)) ∷
        gives (known strlen (args (slot 0 ∷ []))) ∷ []))
        ≡ exited 2 }
{}
