//! What holds of a call that is written for a statement.

ghost use Rattle.std.specs.Prelude.{◌≡◌, ℕ, Bool, map};
ghost use Rattle.ec_base.specs.declared.line.Line.{Line};
ghost use Rattle.ec_arguments.specs.Arguments.{Call};
ghost use Rattle.ec_arguments.specs.Writing.{arguments};
ghost use Rattle.ec_ctypes.specs.trees.Exprs.{ExprData};
ghost use Rattle.ec_meaning_defs.specs.resolved.Resolved.{Exp};
ghost use Rattle.ec_resolving_defs.specs.Storage.{Storage};
ghost use Rattle.ec_typing_defs.specs.Worlds.{Place, World};
ghost use Rattle.ec_phases_defs.specs.written.Calls.{argument_with, call_with};
ghost use Rattle.ec_sim_world_laws.specs.call.Calls.{cut_of, StandsThere, IsMade, next_at, place_passed, IsMadeAlone};

use ec_sim_statement_laws::argument::written_arguments_are_resolved;

/// The arguments of a call with other pointers are its arguments with these pointers, each in its place.
#[tactic(none)]
pub fn arguments_keep_their_places()
    ensures { (g : ExprData → Exp) (line : ℕ) (c : Call ExprData)
        → map (argument_with g) (arguments (cut_of line c))
        ≡ arguments (cut_of line (call_with g c)) }
{}

/// A call of the library that is written for a statement is resolved to that call, with what its pointers are resolved to:
/// as an expression it has no value, as a statement it does this call alone. The checks find nothing wrong in it, and nothing
/// else is made or known behind it.
#[tactic(none)]
pub fn written_calls_are_resolved()
    ensures expressions { (at : Place) (t : Storage) (w : World) (g : ExprData → Exp)
        (is_text : ExprData → Bool) (line : ℕ) (c : Call ExprData)
        → StandsThere at t w g is_text line c → IsMade at t w g line c }
    ensures statements { (t : Storage) (w : World) (g : ExprData → Exp)
        (is_text : ExprData → Bool) (line : Line) (c : Call ExprData)
        → StandsThere (next_at w line) t (place_passed w) g is_text line.0 c
        → IsMadeAlone t w g line c }
{
    written_arguments_are_resolved();
}
