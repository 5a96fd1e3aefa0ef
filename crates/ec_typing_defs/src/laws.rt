//! What holds of the answer for every program, as the contract of a function that does nothing.

ghost use Rattle.std.specs.Prelude.{◌≡◌, ℕ, Bool, List, [], Ok, Err};
ghost use Rattle.ec_base.specs.declared.stop.Stop.{Stop};
ghost use Rattle.ec_ctypes.specs.trees.Units.{UnitData};
ghost use Rattle.ec_ctypes.specs.trees.Checked.{MarkData, TypedData};
ghost use Rattle.ec_language.specs.First.{Violation, IsFirst, IsAmong};
ghost use Rattle.ec_typing_defs.specs.Answers.{violations, check_answer, checked, typed_of};

use ec_language::first_is_first;

/// A program is refused for the first of its violations, and has types where it has none.
pub fn answers_are_first()
    ensures refused { (written : Bool) (u : UnitData) (hosts : List ℕ) (handlers : List MarkData)
        (stop : Stop) → check_answer written u hosts handlers ≡ Err stop → (v : Violation)
        × IsFirst (IsAmong (violations written u)) v × (v.stop ≡ stop) }
    ensures typed { (written : Bool) (u : UnitData) (hosts : List ℕ) (handlers : List MarkData)
        (typed : TypedData) → check_answer written u hosts handlers ≡ Ok typed
        → (violations written u ≡ [])
        × (typed ≡ typed_of u hosts handlers (checked written u).world) }
{
    first_is_first();
}
