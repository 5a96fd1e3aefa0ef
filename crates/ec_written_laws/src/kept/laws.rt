//! What holds of programs that a phase accepts, as the contracts of functions that do nothing.

ghost use Rattle.std.specs.Prelude.{◌≡◌, ℕ, Bool, true, false, List, Result, Ok};
ghost use Rattle.ec_ctypes.specs.trees.Checked.{MarkData, TypedData};
ghost use Rattle.ec_ctypes.specs.trees.Units.{UnitData};
ghost use Rattle.ec_written_laws.specs.kept.Phases.{by_sections, by_checks};
ghost use Rattle.ec_host_defs.specs.sections.Answers.{hosts_answer};
ghost use Rattle.ec_written_laws.specs.source.Kept.{written, is_kept};
ghost use Rattle.ec_typing_defs.specs.Answers.{check_answer};

/// Where the phase of declare sections finds no fault, VARCHAR is the type of what a declaration declares, and of nothing else.
pub fn sections_keep_varchars()
    ensures { (u : UnitData) (hosts : List ℕ) → hosts_answer u ≡ Ok hosts
        → is_kept by_sections u ≡ true }
{}

/// Where the checks find no fault, each call is by a name, and no tag is EXEC, in any case of letters.
pub fn checks_keep_calls_and_tags()
    ensures { (written : Bool) (u : UnitData) (hosts : List ℕ) (handlers : List MarkData)
        (t : TypedData) → check_answer written u hosts handlers ≡ Ok t
        → is_kept by_checks u ≡ true }
{}

/// A source in which both phases find no fault keeps what written C asks.
pub fn phases_keep_what_is_written()
    ensures { (u : UnitData) (hosts : List ℕ) (handlers : List MarkData) (t : TypedData)
        → hosts_answer u ≡ Ok hosts → check_answer false u hosts handlers ≡ Ok t
        → is_kept written u ≡ true }
{}
