//! What calls and whole runs do, as the contracts of functions that do nothing.

ghost use Rattle.std.specs.Prelude.{◌≡◌, ℕ, true, false, pos, List, [], ◌∷◌, ◌++◌, map, Some, None, Err, codes};
ghost use Rattle.ec_base.specs.declared.stop.Trap.TheVariants as trap;
ghost use Rattle.ec_meaning_defs.specs.functions.Functions.{exit};
ghost use Rattle.ec_memory_defs.specs.Cells.{set_cells, unset_cells};
ghost use Rattle.ec_memory_defs.specs.Memory.{ScalarType, ValueData, number, alive, ended, make, scalar_size, with_object};
ghost use Rattle.ec_meaning_defs.specs.resolved.Programs.{Function, sqlca_bytes};
ghost use Rattle.ec_meaning_defs.specs.resolved.Resolved.{Stms, slot, call, known, on_line, nothing, block, choose, loop, not, return, embedded_statement, library_call, no_exps, exps};
ghost use Rattle.ec_meaning_defs.specs.evaluation.State.{State, exited, trapped, turns_spent, waits, stuck};
ghost use Rattle.ec_meaning_defs.specs.evaluation.Results.{Res, over};
ghost use Rattle.ec_meaning_defs.specs.evaluation.Evaluate.{Context, Step, World};
ghost use Rattle.ec_meaning_defs.specs.evaluation.Execute.{run, called};
ghost use Rattle.ec_meaning_defs.specs.evaluation.Whole.{opened, opening_state, program_meaning, without_atoms};
ghost use Rattle.ec_meaning_defs.specs.evaluation.Examples.{int, lit, below, get, set, add, is_less, increase, args, put, print_int, all, at, does, gives, while, braces, program, with_functions, main_with, function, global, run_of, shows, ends, leaves, asking_run, broken};
ghost use Rattle.ec_link.specs.declared.reply.Reply.TheVariants.{Broken};
ghost use Rattle.ec_link.specs.declared.request.Request.TheVariants.{Close};

/// Calls by value, and recursion. All parameters are made, then stored, before the objects of the body.
pub fn call_examples()
    ensures result { ends 1 (with_functions (function (int ∷ int ∷ []) [] (gives (add (get (slot
        0)) (get (slot 1))) ∷ []) ∷ []) (program [] (gives (call 1 true (args (lit 3 ∷ lit 4 ∷
        []))) ∷ [])))
        ≡ exited 7 }
    ensures by_value { ends 1 (with_functions (function (int ∷ []) [] (does (increase (slot 0)
        (lit 1)) ∷ []) ∷ []) (program (4 ∷ []) (does (set (slot 0) (lit 3)) ∷ does (call 1 false
        (args (get (slot 0) ∷ []))) ∷ gives (get (slot 0)) ∷ [])))
        ≡ exited 3 }
    ensures own_objects { leaves 1 (with_functions (function (int ∷ []) (2 ∷ []) (does (known exit
        (args (lit 0 ∷ []))) ∷ []) ∷ []) (program (1 ∷ []) (does (call 1 false (args (lit 513 ∷
        []))) ∷ [])))
        ≡ alive (unset_cells 1) ∷ alive (set_cells (1 ∷ 2 ∷ 0 ∷ 0 ∷ [])) ∷ alive (unset_cells 2) ∷
        [] }
    ensures recursion { ends 4 (with_functions (function (int ∷ []) [] (choose (get (slot 0))
        (gives (add (get (slot 0)) (call 1 true (args (add (get (slot 0)) (below 0) ∷ [])))))
        (gives (lit 0)) ∷ []) ∷ []) (program [] (gives (call 1 true (args (lit 3 ∷ []))) ∷ [])))
        ≡ exited 6 }
    ensures one_turn_each { ends 3 (with_functions (function (int ∷ []) [] (choose (get (slot 0))
        (gives (add (get (slot 0)) (call 1 true (args (add (get (slot 0)) (below 0) ∷ [])))))
        (gives (lit 0)) ∷ []) ∷ []) (program [] (gives (call 1 true (args (lit 3 ∷ []))) ∷ [])))
        ≡ turns_spent }
    ensures of_nothing { ends 1 (program [] (does (call 5 false (args [])) ∷ [])) ≡ stuck }
    ensures of_other_arguments { ends 1 (with_functions (function (int ∷ []) [] [] ∷ []) (program
        [] (does (call 1 false (args [])) ∷ [])))
        ≡ stuck }
{}

/// A function with a result that ends without one traps at the calling statement, where its value is used.
pub fn no_value_examples()
    ensures used { ends 1 (with_functions (function [] [] (on_line 7 nothing ∷ []) ∷ []) (program
        [] (at 3 (call 1 true (args [])) ∷ [])))
        ≡ trapped trap.NoValue 3 }
    ensures not_used { shows 1 (with_functions (function [] [] (at 7 (put 97) ∷ []) ∷ []) (program
        [] (at 3 (call 1 false (args [])) ∷ at 4 (put 98) ∷ [])))
        ≡ (codes "ab", exited 0) }
    ensures after_the_body { shows 1 (with_functions (function [] [] (at 7 (put 97) ∷ []) ∷ [])
        (program [] (at 3 (call 1 true (args [])) ∷ [])))
        ≡ (codes "a", trapped trap.NoValue 3) }
    ensures objects_ended_before { leaves 1 (with_functions (function [] (1 ∷ []) [] ∷ [])
        (program [] (at 3 (call 1 true (args [])) ∷ [])))
        ≡ ended ∷ [] }
{}

/// The first `main` ends the run, with the objects of that moment alive; so does `exit`, anywhere. A second `main` is a function.
pub fn ending_examples()
    ensures without_return { ends 0 (program [] []) ≡ exited 0 }
    ensures low_bits { ends 0 (program [] (gives (lit 259) ∷ [])) ≡ exited 3 }
    ensures alive_at_return { leaves 0 (program (1 ∷ []) (block (2 ∷ []) (all (gives (lit 0) ∷
        [])) ∷ []))
        ≡ alive (unset_cells 1) ∷ alive (unset_cells 2) ∷ [] }
    ensures alive_at_the_end { leaves 0 (program (1 ∷ []) (block (2 ∷ []) (all []) ∷ []))
        ≡ alive (unset_cells 1) ∷ ended ∷ [] }
    ensures exits_in_a_function { shows 1 (with_functions (function [] [] (does (known exit (args
        (lit 260 ∷ []))) ∷ []) ∷ []) (program [] (does (call 1 false (args [])) ∷ does (put 97) ∷
        [])))
        ≡ ([], exited 4) }
    ensures exits_in_a_loop { ends 1 (program [] (while (lit 1) (does (known exit (args (lit 2 ∷
        [])))) ∷ []))
        ≡ exited 2 }
    ensures second_main { shows 1 (program [] (choose (get global) (gives (lit 5)) nothing ∷ does
        (set global (lit 1)) ∷ does (print_int (call 0 true (args []))) ∷ gives (lit 6) ∷ []))
        ≡ (codes "5;", exited 6) }
    ensures second_without_return { shows 1 (program [] (choose (is_less (get global) (lit 1))
        (braces (does (set global (lit 1)) ∷ does (print_int (call 0 true (args []))) ∷ gives (lit
        6) ∷ [])) nothing ∷ []))
        ≡ (codes "0;", exited 6) }
    ensures no_main { (run_of (record { globals = []; literals = []; functions = []; main = 0 })
        9).ending
        ≡ stuck }
{}

/// What is there when a program is opened: `sqlca`, the globals, the literals, and the objects of `main`.
pub fn opening_examples()
    ensures memory { (run_of (record {
      globals = record { size = 2; values = (1, 7 ∷ []) ∷ [] } ∷
          [];
      literals = codes "a" ∷ [];
      functions = main_with (1 ∷ []) [] ∷ [];
      main = 0;
    })
        0).memory
        ≡ alive (set_cells sqlca_bytes) ∷ alive (set_cells (0 ∷ 7 ∷ [])) ∷ alive (set_cells (97 ∷
        0 ∷ [])) ∷ alive (unset_cells 1) ∷ [] }
    ensures ready { (opening_state (Some (3, codes "db")) [] 5).current ≡ Some (codes "db") }
    ensures not_ready { (opening_state None [] 5).connections ≡ [] }
{}

/// Objects that can't be made: at a block its line, at a call the line of the calling statement, at the opening line 1.
pub fn spent_examples()
    ensures block { (step : Step) (w : World) (c : Context) (size : ℕ) (sizes : List ℕ) (b : Stms)
        (s : State) → make s.memory size ≡ Err trap.Spent → run step w c (block (size ∷ sizes) b)
        s ≡ over (trapped trap.Spent c.line) s }
    ensures parameter { (step : Step) (w : World) (line : ℕ) (kind : ScalarType) (kinds : List
        ScalarType) (f : Function) (vs : List ValueData) (s : State) → f.parameters ≡ kind ∷ kinds
        → make s.memory (scalar_size kind) ≡ Err trap.Spent → called step w line (Some f) vs s ≡
        over (trapped trap.Spent line) s }
    ensures opening { (bytes : List ℕ) (more : List (List ℕ)) (s : State) (k : State → Res) →
        with_object s.memory (set_cells bytes) ≡ Err trap.Spent → opened (bytes ∷ more) s k ≡ over
        (trapped trap.Spent 1) s }
{}

/// Embedded statements and calls of the library: here each takes a turn, makes a request, and takes its answer or waits for
/// it.
pub fn step_examples()
    ensures answered { (asking_run (program [] (embedded_statement 0 ∷ gives (lit 3) ∷ [])) 1
        (broken ∷ [])).ending
        ≡ exited 3 }
    ensures said { (asking_run (program [] (embedded_statement 0 ∷ [])) 1 (broken ∷
        [])).conversation
        ≡ record { slot = None; request = Close; reply = Broken } ∷ [] }
    ensures waits { (asking_run (program [] (embedded_statement 0 ∷ embedded_statement 1 ∷ [])) 2
        (broken ∷ [])).ending
        ≡ waits None Close }
    ensures without_a_turn { (asking_run (program [] (embedded_statement 0 ∷ [])) 0 (broken ∷
        [])).ending
        ≡ turns_spent }
    ensures library_call { (asking_run (program [] (does (library_call 0 no_exps) ∷ gives (lit 3)
        ∷ [])) 1 (broken ∷ [])).ending
        ≡ exited 3 }
    ensures behind_a_body { (asking_run (program [] (loop true (Some (not (get global))) (Some
        (library_call 0 no_exps)) (does (set global (lit 1))) ∷ [])) 2 []).ending
        ≡ waits None Close }
    ensures pointers_before_a_call { (asking_run (program [] (does (library_call 0
        (exps (set global (lit 4)) no_exps)) ∷ gives (get global) ∷ [])) 1 (broken ∷ [])).ending
        ≡ exited 4 }
    ensures library_call_without_the_step { ends 9 (program [] (does (library_call 0 no_exps) ∷ []))
        ≡ stuck }
    ensures without_the_step { ends 9 (program [] (embedded_statement 0 ∷ [])) ≡ stuck }
{}
