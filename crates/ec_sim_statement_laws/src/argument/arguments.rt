//! What holds of all arguments of a call.

ghost use Rattle.std.specs.Prelude.{◌≡◌, List, None, codes};
ghost use Rattle.ec_arguments.specs.Arguments.{Arg};
ghost use Rattle.ec_ctypes.specs.trees.Exprs.{ExprData};
ghost use Rattle.ec_meaning_defs.specs.resolved.Resolved.{Exp};
ghost use Rattle.ec_resolving_defs.specs.Storage.{Storage};
ghost use Rattle.ec_typing_defs.specs.Worlds.{Place, World, look_up};
ghost use Rattle.ec_sim_statement_laws.specs.argument.Arguments.{AreArguments, AreResolved};

/// The arguments of a call of the library that are written for it are resolved to themselves, with the pointers to which
/// their expressions are resolved in the place of these, and without making anything: symbols, literals, numbers and NULL
/// are what they were.
#[tactic(none)]
pub fn written_arguments_are_resolved()
    ensures { (at : Place) (s : Storage) (w : World) (g : ExprData → Exp)
        (written : List (Arg ExprData))
        → look_up (codes "NULL") w ≡ None → AreArguments at s w g written
        → AreResolved at s w g written }
{}
