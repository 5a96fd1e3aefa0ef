//! What holds of every statement.

ghost use Rattle.std.specs.Prelude.{◌≡◌, ℕ, true, false, List, Some, slice_get};
ghost use Rattle.ec_arguments.specs.Arguments.{name_of};
ghost use Rattle.ec_arguments.specs.Writing.{arguments};
ghost use Rattle.ec_ctypes.specs.trees.Types.{StructData};
ghost use Rattle.ec_meaning_defs.specs.evaluation.State.{State};
ghost use Rattle.ec_meaning_defs.specs.evaluation.Evaluate.{World, Context, Step};
ghost use Rattle.ec_meaning_defs.specs.resolved.Resolved.{Exp};
ghost use Rattle.ec_call_defs.specs.Steps.{called, settled, library_step};
ghost use Rattle.ec_call_defs.specs.Library.{call_done};
ghost use Rattle.ec_direct_defs.specs.Statements.{Statement};
ghost use Rattle.ec_direct_defs.specs.Executing.{statement_done};
ghost use Rattle.ec_sim_statement_laws.specs.statement.Calls.{call_of, cut_of, keeps_rules, HasTargets};
ghost use Rattle.ec_sim_statement_laws.specs.statement.Lives.{LeavesTidy};
ghost use Rattle.ec_sim_statement_laws.specs.statement.Steps.{stepped_alone};
ghost use Rattle.ec_sim_statement_laws.specs.statement.Tests.{tests_stms};
ghost use Rattle.ec_sim_statement_laws.specs.statement.Blocks.{block_stm, any_calls_library};
ghost use Rattle.ec_ctypes.specs.trees.Checked.{TypedData};
ghost use Rattle.ec_memory_defs.specs.Memory.{last_number};
ghost use Rattle.ec_meaning_defs.specs.evaluation.Results.{closing};
ghost use Rattle.ec_direct_defs.specs.Direct.{executed_at};
ghost use Rattle.ec_resolving_defs.specs.Storage.{ActionForms, StatementForm, LibraryCall};
ghost use Rattle.ec_meaning_defs.specs.evaluation.Execute.{run, run_all};
ghost use Rattle.ec_direct_defs.specs.Handling.{handled};

/// Once its places are known, a statement does what the call does that is written for it, in every state.
#[tactic(none)]
pub fn calls_do_what_statements_do()
    ensures { (structs : List StructData) (line : ℕ) (x : Statement ℕ) → HasTargets x
        → (s : State) → call_done line (call_of structs x) s ≡ statement_done structs line x s }
{}

/// A statement whose places are expressions does what its call of the library does with the arguments that are written for
/// it, whatever the step, the tasks and the place where it stands, in every state: both evaluate the same expressions in
/// the same order, take a turn, and go on alike.
#[tactic(none)]
pub fn written_calls_do_what_statements_do()
    ensures { (step : Step) (w : World) (c : Context) (structs : List StructData) (line : ℕ)
        (x : Statement Exp) → keeps_rules structs x ≡ true → HasTargets x → (s : State)
        → called step w c (name_of (call_of structs x)) (arguments (cut_of structs line x)) s
        ≡ stepped_alone step w c structs line x s }
{}

/// The tests that are written behind a call, each an `if` over a member of `sqlca` on the statement's line, do what the
/// actions for NOT FOUND, SQLWARNING and SQLERROR do, in every memory, also in one whose area can't be read.
#[tactic(none)]
pub fn tests_do_what_handlers_do()
    ensures { (step : Step) (w : World) (c : Context) (line : ℕ) (actions : ActionForms) (s : State)
        → run_all step w c (tests_stms line actions) s
        ≡ handled step w (record c { line = line }) actions s }
{}

/// The block that is written for a statement, its call and the tests behind it, does what the statement does with its
/// handlers where it stands, from every state, and then ends the objects that were made since.
#[tactic(none)]
pub fn blocks_do_what_statements_do()
    ensures { (calls : List LibraryCall) (k : ℕ) (w : World) (c : Context) (t : TypedData)
        (forms : List StatementForm) (f : StatementForm) (x : Statement Exp)
        → slice_get calls k
        ≡ Some (name_of (call_of t.structs x), arguments (cut_of t.structs c.line x))
        → keeps_rules t.structs x ≡ true → HasTargets x → any_calls_library f.actions ≡ false
        → (s : State) → run (library_step calls) w c (block_stm c.line k f.actions) s
        ≡ closing (last_number s.memory) (executed_at t forms w c c.line f (Some x) s) }
{}

/// A statement makes no object and ends none, whatever is answered, unless the run is over.
#[tactic(none)]
pub fn statements_make_no_object()
    ensures { (structs : List StructData) (line messages : ℕ) (x : Statement ℕ) (s : State)
        → LeavesTidy s.memory (settled line (statement_done structs messages x s)) }
{}
