//! What statements do, as the contracts of functions that do nothing.

ghost use Rattle.std.specs.Prelude.{◌≡◌, true, false, pos, [], ◌∷◌, Some, None, codes};
ghost use Rattle.ec_base.specs.declared.stop.Trap.TheVariants as trap;
ghost use Rattle.ec_memory_defs.specs.Cells.{set_cells, unset_cells};
ghost use Rattle.ec_memory_defs.specs.Memory.{alive, ended, pointer_type};
ghost use Rattle.ec_meaning_defs.specs.resolved.Resolved.{named, slot, member, load, store, not, call, on_line, nothing, declare, initialize, block, choose, loop, leave, next, return, goto, label};
ghost use Rattle.ec_meaning_defs.specs.evaluation.State.{exited, trapped, turns_spent};
ghost use Rattle.ec_meaning_defs.specs.evaluation.Examples.{int, lit, get, set, add, divide, is_less, increase, args, put, print_int, all, at, does, gives, while, braces, program, with_functions, function, global, shows, ends, leaves};

/// A local is unset, and again each time its declaration is reached; with an initializer it is filled with zeros first.
pub fn declaration_examples()
    ensures unset { ends 0 (program (4 ∷ []) (on_line 3 (declare 0 4) ∷ on_line 4 (gives (get
        (slot 0))) ∷ []))
        ≡ trapped trap.Unset 4 }
    ensures unset_again { ends 1 (program (4 ∷ []) (label (named 1) (declare 0 4) ∷ choose (not (get
        global)) (braces (does (set (slot 0) (lit 5)) ∷ does (set global (lit 1)) ∷ goto 1 ∷ []))
        nothing ∷ on_line 5 (gives (get (slot 0))) ∷ []))
        ≡ trapped trap.Unset 5 }
    ensures kept_behind { ends 1 (program (4 ∷ []) (declare 0 4 ∷ label (named 1) nothing ∷ choose (not
        (get global)) (braces (does (set (slot 0) (lit 5)) ∷ does (set global (lit 1)) ∷ goto 1 ∷
        [])) nothing ∷ gives (get (slot 0)) ∷ []))
        ≡ exited 5 }
    ensures zeros_first { ends 0 (program (8 ∷ []) (initialize 0 8 (args (set (slot 0) (add (get
        (slot 0)) (lit 3)) ∷ [])) ∷ gives (add (get (slot 0)) (get (member 4 (slot 0)))) ∷ []))
        ≡ exited 3 }
    ensures stores_in_order { shows 0 (program (8 ∷ []) (initialize 0 8 (args (set (slot 0) (put
        97) ∷ set (member 4 (slot 0)) (put 98) ∷ [])) ∷ []))
        ≡ (codes "ab", exited 0) }
    ensures initialized_again { shows 2 (program [] (while (is_less (get global) (lit 2)) (block
        (4 ∷ []) (all (initialize 0 4 (args (set (slot 0) (lit 7) ∷ [])) ∷ does (increase global
        (lit 1)) ∷ does (increase (slot 0) (get global)) ∷ does (print_int (get (slot 0))) ∷ [])))
        ∷ []))
        ≡ (codes "8;9;", exited 0) }
    ensures passed_by { ends 1 (program (4 ∷ []) (goto 1 ∷ initialize 0 4 (args (set (slot 0) (lit
        5) ∷ [])) ∷ label (named 1) (on_line 4 (gives (get (slot 0)))) ∷ []))
        ≡ trapped trap.Unset 4 }
    ensures line_of_a_declaration { ends 0 (program (4 ∷ []) (on_line 2 (initialize 0 4 (args (set
        (slot 0) (divide (lit 1) (lit 0)) ∷ []))) ∷ []))
        ≡ trapped trap.Zero 2 }
{}

/// The objects of a block end on every way out of it; a pointer to one leads nowhere then.
pub fn block_examples()
    ensures at_its_end { leaves 0 (program [] (block (4 ∷ 1 ∷ []) (all []) ∷ []))
        ≡ ended ∷ ended ∷ [] }
    ensures by_break { leaves 1 (program [] (while (lit 1) (block (4 ∷ []) (all (leave ∷ []))) ∷
        []))
        ≡ ended ∷ [] }
    ensures by_continue { leaves 1 (program [] (while (not (get global)) (block (4 ∷ []) (all
        (does (set global (lit 1)) ∷ next ∷ []))) ∷ []))
        ≡ ended ∷ [] }
    ensures by_goto { leaves 1 (program [] (block (4 ∷ []) (all (goto 1 ∷ [])) ∷ label (named 1) nothing ∷
        []))
        ≡ ended ∷ [] }
    ensures by_return { leaves 1 (with_functions (function [] [] (block (4 ∷ []) (all (return None
        ∷ [])) ∷ []) ∷ []) (program [] (does (call 1 false (args [])) ∷ [])))
        ≡ ended ∷ [] }
    ensures each_time_anew { leaves 2 (program [] (while (is_less (get global) (lit 2)) (block (1
        ∷ []) (all (does (increase global (lit 1)) ∷ []))) ∷ []))
        ≡ ended ∷ ended ∷ [] }
    ensures pointer_behind { ends 0 (program (8 ∷ []) (block (4 ∷ []) (all (does (store
        pointer_type (slot 0) (slot 1)) ∷ [])) ∷ at 5 (get (load pointer_type (slot 0))) ∷ []))
        ≡ trapped trap.Dead 5 }
    ensures in_order { leaves 0 (program (1 ∷ 2 ∷ []) [])
        ≡ alive (unset_cells 1) ∷ alive (unset_cells 2) ∷ [] }
    ensures kept_by_an_inner_goto { ends 1 (program [] (block (4 ∷ []) (all (does (set (slot 0)
        (lit 6)) ∷ braces (goto 1 ∷ []) ∷ label (named 1) (gives (get (slot 0))) ∷ [])) ∷ []))
        ≡ exited 6 }
{}

/// `goto` goes out of blocks and into them, and into loops without their condition and without a turn.
pub fn goto_examples()
    ensures into_a_loop { ends 2 (program [] (goto 1 ∷ while (is_less (get global) (lit 3))
        (braces (does (increase global (lit 10)) ∷ label (named 1) (does (increase global (lit 1))) ∷ []))
        ∷ gives (get global) ∷ []))
        ≡ exited 12 }
    ensures one_turn_is_too_few { ends 1 (program [] (goto 1 ∷ while (is_less (get global) (lit
        3)) (braces (does (increase global (lit 10)) ∷ label (named 1) (does (increase global (lit 1))) ∷
        [])) ∷ gives (get global) ∷ []))
        ≡ turns_spent }
    ensures into_a_for { shows 3 (program [] (goto 1 ∷ loop true (Some (is_less (get global) (lit
        3))) (Some (increase global (lit 1))) (braces (does (put 97) ∷ label (named 1) (does (put 98)) ∷
        [])) ∷ []))
        ≡ (codes "babab", exited 0) }
    ensures into_a_do { shows 1 (program [] (goto 1 ∷ loop false (Some (lit 0)) None (braces (does
        (put 97) ∷ label (named 1) (does (put 98)) ∷ [])) ∷ []))
        ≡ (codes "b", exited 0) }
    ensures into_a_branch { shows 1 (program [] (goto 1 ∷ choose (lit 0) (braces (does (put 97) ∷
        label (named 1) (does (put 98)) ∷ [])) (does (put 99)) ∷ does (put 100) ∷ []))
        ≡ (codes "bd", exited 0) }
    ensures into_the_other { shows 1 (program [] (goto 1 ∷ choose (lit 1) (does (put 97)) (label (named 1)
        (does (put 98))) ∷ []))
        ≡ (codes "b", exited 0) }
    ensures into_a_block { leaves 1 (program [] (goto 1 ∷ block (4 ∷ []) (all (initialize 0 4
        (args (set (slot 0) (lit 5) ∷ [])) ∷ label (named 1) (gives (lit 0)) ∷ [])) ∷ []))
        ≡ alive (unset_cells 4) ∷ [] }
    ensures past_expressions { shows 1 (program [] (goto 1 ∷ does (put 97) ∷ label (named 1) (does (put
        98)) ∷ []))
        ≡ (codes "b", exited 0) }
    ensures out_of_two_loops { shows 3 (program [] (while (lit 1) (while (lit 1) (braces (does
        (put 97) ∷ goto 1 ∷ []))) ∷ label (named 1) (does (put 98)) ∷ []))
        ≡ (codes "ab", exited 0) }
    ensures back { shows 2 (program [] (label (named 1) (does (increase global (lit 1))) ∷ does (print_int
        (get global)) ∷ choose (is_less (get global) (lit 3)) (goto 1) nothing ∷ []))
        ≡ (codes "1;2;3;", exited 0) }
    ensures label_of_a_label { shows 1 (program [] (goto 2 ∷ label (named 1) (label (named 2) (does (put 97))) ∷
        []))
        ≡ (codes "a", exited 0) }
{}

/// Loops, `break` and `continue`.
pub fn loop_examples()
    ensures tested_first { shows 0 (program [] (while (lit 0) (does (put 97)) ∷ []))
        ≡ ([], exited 0) }
    ensures tested_behind { shows 1 (program [] (loop false (Some (lit 0)) None (does (put 97)) ∷
        []))
        ≡ (codes "a", exited 0) }
    ensures behind_each_body { shows 2 (program [] (loop true (Some (is_less (get global) (lit
        2))) (Some (increase global (lit 1))) (does (print_int (get global))) ∷ []))
        ≡ (codes "0;1;", exited 0) }
    ensures without_a_test { shows 1 (program [] (loop true None (Some (put 98)) (braces (does
        (put 97) ∷ leave ∷ [])) ∷ []))
        ≡ (codes "a", exited 0) }
    ensures continued { shows 2 (program [] (loop true (Some (is_less (get global) (lit 2))) (Some
        (increase global (lit 1))) (braces (does (put 97) ∷ next ∷ does (put 98) ∷ [])) ∷ []))
        ≡ (codes "aa", exited 0) }
    ensures continued_do { shows 1 (program [] (loop false (Some (put 0)) None (braces (next ∷
        does (put 97) ∷ [])) ∷ []))
        ≡ (0 ∷ [], exited 0) }
    ensures inner_break { shows 3 (program [] (loop true (Some (not (get global))) (Some (increase
        global (lit 1))) (braces (while (lit 1) leave ∷ does (put 97) ∷ [])) ∷ []))
        ≡ (codes "a", exited 0) }
    ensures returns { ends 1 (program [] (while (lit 1) (gives (lit 4)) ∷ [])) ≡ exited 4 }
    ensures pointer_as_a_test { shows 0 (program (4 ∷ []) (choose (slot 0) (does (put 97)) (does
        (put 98)) ∷ []))
        ≡ (codes "a", exited 0) }
{}

/// Turns: a started body of a loop, a taken `goto`, a called function. Each is taken where it is due, and not before.
pub fn turn_examples()
    ensures forever { shows 3 (program [] (while (lit 1) (does (put 120)) ∷ []))
        ≡ (codes "xxx", turns_spent) }
    ensures without_turns { shows 0 (program [] (while (lit 1) (does (put 120)) ∷ []))
        ≡ ([], turns_spent) }
    ensures test_before_the_turn { shows 0 (program [] (while (put 97) (does (put 120)) ∷ []))
        ≡ (codes "a", turns_spent) }
    ensures do_before_its_body { shows 0 (program [] (loop false (Some (put 97)) None (does (put
        120)) ∷ []))
        ≡ ([], turns_spent) }
    ensures last_test_needs_none { shows 1 (program [] (while (is_less (get global) (lit 1)) (does
        (increase global (lit 1))) ∷ does (put 97) ∷ []))
        ≡ (codes "a", exited 0) }
    ensures arguments_before_the_turn { shows 0 (with_functions (function (int ∷ []) [] (does (put
        98) ∷ []) ∷ []) (program [] (does (call 1 false (args (put 97 ∷ []))) ∷ [])))
        ≡ (codes "a", turns_spent) }
    ensures objects_behind_the_turn { leaves 0 (with_functions (function (int ∷ []) (4 ∷ []) [] ∷
        []) (program [] (does (call 1 false (args (lit 1 ∷ []))) ∷ [])))
        ≡ [] }
    ensures goto_where_it_stands { leaves 0 (program [] (block (4 ∷ []) (all (goto 1 ∷ [])) ∷
        label (named 1) nothing ∷ []))
        ≡ alive (unset_cells 4) ∷ [] }
    ensures goto_that_is_not_taken { ends 0 (program [] (choose (lit 0) (goto 1) nothing ∷ label (named 1)
        (gives (lit 3)) ∷ []))
        ≡ exited 3 }
    ensures main_needs_none { ends 0 (program [] (gives (lit 3) ∷ [])) ≡ exited 3 }
    ensures known_functions_need_none { shows 0 (program [] (does (put 97) ∷ []))
        ≡ (codes "a", exited 0) }
{}

/// The line of a trap is that of the innermost statement that was started.
pub fn line_examples()
    ensures inner { ends 1 (program [] (on_line 2 (while (lit 1) (on_line 3 (braces (at 4 (divide
        (lit 1) (lit 0)) ∷ [])))) ∷ []))
        ≡ trapped trap.Zero 4 }
    ensures test_behind_a_body { ends 1 (program [] (on_line 2 (while (divide (lit 1) (is_less
        (get global) (lit 1))) (at 3 (increase global (lit 1)))) ∷ []))
        ≡ trapped trap.Zero 2 }
    ensures in_a_function { ends 1 (with_functions (function [] [] (at 7 (divide (lit 1) (lit 0))
        ∷ []) ∷ []) (program [] (at 2 (call 1 false (args [])) ∷ [])))
        ≡ trapped trap.Zero 7 }
    ensures behind_a_function { ends 1 (with_functions (function [] [] (on_line 7 (gives (lit 0))
        ∷ []) ∷ []) (program [] (at 2 (divide (lit 1) (call 1 true (args []))) ∷ [])))
        ≡ trapped trap.Zero 2 }
    ensures behind_a_goto { ends 1 (program [] (on_line 2 (goto 1) ∷ on_line 4 (label (named 1) (at 5
        (divide (lit 1) (lit 0)))) ∷ []))
        ≡ trapped trap.Zero 5 }
{}
