//! What the checks see of the pointers in a written call.

ghost use Rattle.std.specs.Prelude.{List};
ghost use Rattle.ec_arguments.specs.Arguments.{Arg};
ghost use Rattle.ec_ctypes.specs.trees.Exprs.{ExprData};
ghost use Rattle.ec_ctypes.specs.trees.Types.{TyData};
ghost use Rattle.ec_meaning_defs.specs.resolved.Resolved.{Exp};
ghost use Rattle.ec_resolving_defs.specs.Storage.{Storage};
ghost use Rattle.ec_typing_defs.specs.Worlds.{Place, World};
ghost use Rattle.ec_sim_statement_laws.specs.argument.Arguments.{AreArguments};
ghost use Rattle.ec_sim_statement_laws.specs.argument.Pointers.{IsPointer};
ghost use Rattle.ec_sim_world_laws.specs.call.Calls.{IsSeen, AreSeen};
ghost use Rattle.ec_sim_world_laws.specs.call.Pointers.{IsSimple, AreSimple, text_there};

/// A name with its suffixes, or the address of one, that is resolved to a pointer has no fault, and the checks see by the type
/// of the pointer whether it may lead to a text. So it is with all pointers among the arguments of a call.
#[tactic(none)]
pub fn pointers_are_seen()
    ensures one { (at : Place) (s : Storage) (w : World) (e : ExprData) (t : TyData) (x : Exp)
        → IsSimple e → IsPointer at s w e t x → IsSeen at w (text_there at w) e }
    ensures all { (at : Place) (s : Storage) (w : World) (g : ExprData → Exp)
        (xs : List (Arg ExprData)) → AreArguments at s w g xs → AreSimple xs
        → AreSeen at w (text_there at w) xs }
{}
