//! What `switch` and `?:` do, as the contracts of functions that do nothing.

ghost use Rattle.std.specs.Prelude.{◌≡◌, true, false, pos, [], ◌∷◌, Some, None, codes};
ghost use Rattle.ec_base.specs.declared.stop.Trap.TheVariants as trap;
ghost use Rattle.ec_memory_defs.specs.Cells.{unset_cells};
ghost use Rattle.ec_memory_defs.specs.Memory.{alive, ended, pointer_type};
ghost use Rattle.ec_meaning_defs.specs.resolved.Operations.{compare, greater};
ghost use Rattle.ec_meaning_defs.specs.resolved.Resolved.{named, default, slot, load, not, operate, choice, call, on_line, nothing, declare, initialize, block, choose, loop, leave, next, goto, label, select, embedded_statement};
ghost use Rattle.ec_meaning_defs.specs.evaluation.State.{exited, trapped, turns_spent, stuck};
ghost use Rattle.ec_meaning_defs.specs.evaluation.Examples.{lit, below, get, set, add, divide, is_less, increase, null, args, put, print_int, all, at, does, gives, when, while, braces, program, with_functions, function, global, shows, ends, leaves, breaking, passing, ends_with};

/// `switch` goes to the case of its operand's value, from there on through the cases behind it, and out at a `break`.
pub fn switch_examples()
    ensures from_case_to_break { shows 0 (program [] (select (lit 2) (braces (label (when 1) (does (set global (lit 1))) ∷ label (when 2) (does (set global (add (get global) (lit 2)))) ∷ label (when 3) (does (set global (add (get global) (lit 4)))) ∷ leave ∷ label default (does (set global (lit 9))) ∷ [])) ∷ does (print_int (choice (operate (compare greater) (get global) (lit 5)) (lit 1) (lit 0))) ∷ gives (get global) ∷ [])) ≡ (codes "1;", exited 6) }
    ensures default_in_the_middle { shows 0 (program [] (select (lit 5) (braces (label (when 1) (does (put 97)) ∷ label default (does (put 98)) ∷ label (when 2) (does (put 99)) ∷ [])) ∷ [])) ≡ (codes "bc", exited 0) }
    ensures case_behind_default { shows 0 (program [] (select (lit 2) (braces (label (when 1) (does (put 97)) ∷ label default (does (put 98)) ∷ label (when 2) (does (put 99)) ∷ [])) ∷ [])) ≡ (codes "c", exited 0) }
    ensures neither { shows 0 (program [] (select (lit 5) (braces (label (when 1) (does (put 97)) ∷ [])) ∷ does (put 98) ∷ [])) ≡ (codes "b", exited 0) }
    ensures neither_makes_no_object { leaves 0 (program [] (select (lit 5) (block (4 ∷ []) (all (label (when 1) nothing ∷ []))) ∷ [])) ≡ [] }
    ensures below_zero { shows 0 (program [] (select (below 2) (braces (label (when 3) (does (put 97)) ∷ label default (does (put 98)) ∷ [])) ∷ [])) ≡ (codes "b", exited 0) }
    ensures without_a_block { shows 0 (program [] (select (lit 1) (label (when 1) (does (put 97))) ∷ [])) ≡ (codes "a", exited 0) }
    ensures two_labels { shows 0 (program [] (select (lit 2) (braces (label (when 1) (label (when 2) (does (put 97))) ∷ [])) ∷ [])) ≡ (codes "a", exited 0) }
    ensures operand_first { shows 0 (program [] (select (put 97) (braces (does (put 98) ∷ label (when 97) (does (put 99)) ∷ [])) ∷ [])) ≡ (codes "ac", exited 0) }
    ensures trap_in_the_operand { ends 0 (program [] (on_line 3 (select (divide (lit 1) (lit 0)) (on_line 4 (label default (on_line 5 nothing)))) ∷ [])) ≡ trapped trap.Zero 3 }
    ensures of_a_pointer { ends 0 (program [] (select null nothing ∷ [])) ≡ stuck }
{}

/// What is passed while a case is looked for does nothing. The objects of the body are there, and unset.
pub fn passed_examples()
    ensures initializer { ends 0 (program [] (select (lit 1) (block (4 ∷ []) (all (initialize 0 4 (args (set (slot 0) (lit 5) ∷ [])) ∷ label (when 1) (on_line 4 (gives (get (slot 0)))) ∷ []))) ∷ [])) ≡ trapped trap.Unset 4 }
    ensures objects { leaves 0 (program [] (select (lit 1) (block (4 ∷ 2 ∷ []) (all (declare 0 4 ∷ label (when 1) (gives (lit 0)) ∷ declare 1 2 ∷ []))) ∷ [])) ≡ alive (unset_cells 4) ∷ alive (unset_cells 2) ∷ [] }
    ensures objects_end { leaves 0 (program [] (select (lit 1) (block (4 ∷ []) (all (declare 0 4 ∷ label (when 1) leave ∷ []))) ∷ [])) ≡ ended ∷ [] }
    ensures used_behind { ends 0 (program [] (select (lit 1) (block (4 ∷ []) (all (declare 0 4 ∷ label (when 1) (does (set (slot 0) (lit 6))) ∷ gives (get (slot 0)) ∷ []))) ∷ [])) ≡ exited 6 }
    ensures statements { shows 0 (program [] (select (lit 1) (braces (does (put 97) ∷ leave ∷ choose (put 98) (does (put 99)) nothing ∷ label (when 1) (does (put 100)) ∷ [])) ∷ [])) ≡ (codes "d", exited 0) }
    ensures into_a_branch { shows 0 (program [] (select (lit 1) (braces (choose (put 97) (does (put 98)) (label (when 1) (does (put 99))) ∷ does (put 100) ∷ [])) ∷ [])) ≡ (codes "cd", exited 0) }
    ensures into_a_loop { shows 1 (program [] (select (lit 1) (while (is_less (get global) (lit 2)) (braces (does (put 97) ∷ label (when 1) (does (put 98)) ∷ does (increase global (lit 1)) ∷ []))) ∷ [])) ≡ (codes "bab", exited 0) }
{}

/// A `switch` in a `switch` isn't entered for a case of the outer one; a `goto` enters one without its operand.
pub fn nested_examples()
    ensures inner { shows 0 (program [] (select (lit 1) (braces (label (when 1) (select (lit 3) (braces (label (when 2) (does (put 97)) ∷ label (when 3) (does (put 98)) ∷ leave ∷ []))) ∷ does (put 99) ∷ leave ∷ label (when 2) (does (put 100)) ∷ [])) ∷ [])) ≡ (codes "bc", exited 0) }
    ensures not_entered { shows 0 (program [] (select (lit 3) (braces (select (lit 3) (label (when 3) (does (put 97))) ∷ label default (does (put 98)) ∷ [])) ∷ [])) ≡ (codes "b", exited 0) }
    ensures by_goto { shows 1 (program [] (goto 9 ∷ select (put 97) (braces (label (when 1) (does (put 98)) ∷ label (named 9) (does (put 99)) ∷ leave ∷ does (put 100) ∷ [])) ∷ does (put 101) ∷ [])) ≡ (codes "ce", exited 0) }
    ensures goto_out { shows 1 (program [] (select (lit 1) (braces (label (when 1) (does (put 97)) ∷ goto 9 ∷ does (put 98) ∷ [])) ∷ does (put 99) ∷ label (named 9) (does (put 100)) ∷ [])) ≡ (codes "ad", exited 0) }
    ensures continues_the_loop { shows 2 (program [] (while (is_less (get global) (lit 2)) (braces (does (increase global (lit 1)) ∷ select (lit 1) (label (when 1) next) ∷ does (put 97) ∷ [])) ∷ does (put 98) ∷ [])) ≡ (codes "b", exited 0) }
    ensures breaks_the_switch { shows 2 (program [] (while (is_less (get global) (lit 2)) (braces (does (increase global (lit 1)) ∷ select (lit 1) (label (when 1) leave) ∷ does (put 97) ∷ [])) ∷ does (put 98) ∷ [])) ≡ (codes "aab", exited 0) }
    ensures breaks_a_loop_within { shows 1 (program [] (select (lit 1) (braces (label (when 1) (while (lit 1) leave) ∷ does (put 97) ∷ [])) ∷ [])) ≡ (codes "a", exited 0) }
    ensures returns { ends 0 (program [] (select (lit 1) (label (when 1) (gives (lit 4))) ∷ [])) ≡ exited 4 }
{}

/// An embedded statement whose action is `break` ends the `switch` round it.
pub fn breaking_examples()
    ensures breaks { ends_with breaking 3 (program [] (while (is_less (get global) (lit 2)) (braces (select (get global) (braces (label (when 0) (embedded_statement 0) ∷ does (set global (lit 7)) ∷ [])) ∷ does (increase global (lit 1)) ∷ [])) ∷ gives (get global) ∷ [])) ≡ exited 2 }
    ensures needs_three_turns { ends_with breaking 2 (program [] (while (is_less (get global) (lit 2)) (braces (select (get global) (braces (label (when 0) (embedded_statement 0) ∷ does (set global (lit 7)) ∷ [])) ∷ does (increase global (lit 1)) ∷ [])) ∷ gives (get global) ∷ [])) ≡ turns_spent }
    ensures goes_on { ends_with passing 2 (program [] (while (is_less (get global) (lit 2)) (braces (select (get global) (braces (label (when 0) (embedded_statement 0) ∷ does (set global (lit 7)) ∷ [])) ∷ does (increase global (lit 1)) ∷ [])) ∷ gives (get global) ∷ [])) ≡ exited 8 }
    ensures needs_two_turns { ends_with passing 1 (program [] (while (is_less (get global) (lit 2)) (braces (select (get global) (braces (label (when 0) (embedded_statement 0) ∷ does (set global (lit 7)) ∷ [])) ∷ does (increase global (lit 1)) ∷ [])) ∷ gives (get global) ∷ [])) ≡ turns_spent }
{}

/// `a ? b : c` evaluates its first operand, and then one of the others.
pub fn choice_examples()
    ensures second { shows 0 (program [] (gives (choice (put 1) (put 97) (put 98)) ∷ []))
        ≡ (1 ∷ 97 ∷ [], exited 97) }
    ensures third { shows 0 (program [] (gives (choice (put 0) (put 97) (put 98)) ∷ []))
        ≡ (0 ∷ 98 ∷ [], exited 98) }
    ensures of_pointers { ends 0 (program (4 ∷ 4 ∷ []) (does (set (slot 1) (lit 5)) ∷ gives (get
        (choice null (slot 0) (slot 1))) ∷ []))
        ≡ exited 5 }
    ensures trap_in_the_first { ends 0 (program [] (at 2 (choice (divide (lit 1) (lit 0)) (lit 1)
        (lit 1)) ∷ []))
        ≡ trapped trap.Zero 2 }
    ensures trap_in_the_other { ends 0 (program [] (gives (choice (lit 0) (divide (lit 1) (lit 0))
        (lit 3)) ∷ []))
        ≡ exited 3 }
    ensures of_voids { shows 2 (with_functions (function [] [] (does (put 97) ∷ []) ∷ function []
        [] (does (put 98) ∷ []) ∷ []) (program [] (does (choice (lit 0) (call 1 false (args []))
        (call 2 false (args []))) ∷ []))
        )
        ≡ (codes "b", exited 0) }
{}
