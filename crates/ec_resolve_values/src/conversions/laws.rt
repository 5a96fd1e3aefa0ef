//! That what is made of scalars is what the definitions make of values of their types.

ghost use Rattle.std.specs.Prelude.{◌≡◌, Bool, Some, pos};
ghost use Rattle.ec_ctypes.specs.declared.tree.expr.BinOp.{BinOp as Operator};
ghost use Rattle.ec_ctypes.specs.declared.tree.expr.UnOp.{UnOp as Sign};
ghost use Rattle.ec_ctypes.specs.declared.types.arith.Arith.TheVariants.{Int};
ghost use Rattle.ec_ctypes.specs.trees.Types.{TyData};
ghost use Rattle.ec_memory_defs.specs.Memory.{number};
ghost use Rattle.ec_meaning_defs.specs.resolved.Resolved.{Exp, constant};
ghost use Rattle.ec_resolving_defs.specs.Conversions as form;
ghost use Rattle.ec_typing_defs.specs.Worlds.{World};
ghost use Rattle.ec_resolve_values.specs.conversions.Scalars.{binary_of, bumped_of, compound_of, element_of, scalar_in, unary_of};

/// What operators make of values depends on what `Scalar` has of their types alone.
pub fn operators_know_scalars()
    ensures binary { (w : World) (op : Operator) (s t : TyData) (x y : Exp)
        → form.binary_exp w op s x t y ≡ binary_of op (scalar_in w s) x (scalar_in w t) y }
    ensures element { (w : World) (s t : TyData) (x y : Exp)
        → form.element_exp w s x t y ≡ element_of (scalar_in w s) x (scalar_in w t) y }
    ensures unary { (w : World) (op : Sign) (t : TyData) (e : Exp)
        → form.unary_exp op t e ≡ unary_of op (scalar_in w t) e }
    ensures compound { (w : World) (op : Operator) (old : Bool) (s t : TyData) (x y : Exp)
        → form.compound w op old s x t y ≡ compound_of op old (scalar_in w s) x (scalar_in w t) y }
    ensures bumped { (w : World) (before up : Bool) (t : TyData) (x : Exp)
        → form.bumped w before up t x
        ≡ bumped_of before up (scalar_in w t) x (constant (number (pos 1))) }
{}
