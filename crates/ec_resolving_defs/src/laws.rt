//! What holds of every program, as the contract of a function that does nothing.

ghost use Rattle.std.specs.Prelude.{◌≡◌, ℕ, Bool, List, Option};
ghost use Rattle.ec_ctypes.specs.trees.Types.{TyData};
ghost use Rattle.ec_ctypes.specs.trees.Exprs.{ExprData, ExprList, BaseData, DimList, InitData, DeclData};
ghost use Rattle.ec_ctypes.specs.trees.Stmts.{StmtData};
ghost use Rattle.ec_ctypes.specs.trees.Units.{UnitData};
ghost use Rattle.ec_typing_defs.specs.Known.{ArgumentsData};
ghost use Rattle.ec_typing_defs.specs.Statements.{Around};
ghost use Rattle.ec_typing_defs.specs.Worlds.{Place};
ghost use Rattle.ec_typing_defs.specs.Expressions as expressions;
ghost use Rattle.ec_typing_defs.specs.Initializers as initializers;
ghost use Rattle.ec_typing_defs.specs.Statements as statements;
ghost use Rattle.ec_typing_defs.specs.Programs as programs;
ghost use Rattle.ec_resolving_defs.specs.Operands.{operands_of};
ghost use Rattle.ec_resolving_defs.specs.Expressions.{expr, args, base, lengths};
ghost use Rattle.ec_resolving_defs.specs.Initializers.{initializer};
ghost use Rattle.ec_resolving_defs.specs.Statements.{declaration, statement};
ghost use Rattle.ec_resolving_defs.specs.Programs.{tops_rule, walked};
ghost use Rattle.ec_resolving_defs.specs.Agreement.{Finds, around_of, itself, nothing_of, type_of, operand_of};

/// Resolving finds what the checks find, wherever things are: of each expression its operand, of each type, length and
/// initializer its type, and behind each part the same is known. So the types of a resolved program are those of the checks.
pub fn operands_are_those_of_the_checks()
    ensures expressions { (at : Place) (e : ExprData)
        → Finds operand_of (expr at e) (expressions.expr at e) }
    ensures arguments { (at : Place) (forms : ArgumentsData) (es : ExprList)
        → Finds operands_of (args at forms es) (expressions.args at forms es) }
    ensures types { (at : Place) (b : BaseData) → Finds itself (base at b) (expressions.base at b) }
    ensures lengths { (at : Place) (ds : DimList)
        → Finds itself (lengths at ds) (expressions.lengths at ds) }
    ensures initializers { (at : Place) (global : Bool) (t : Option TyData) (i : InitData)
        → Finds type_of (initializer at global t i) (initializers.initializer at global t i) }
    ensures declarations { (global : Bool) (d : DeclData)
        → Finds nothing_of (declaration global d) (statements.declaration global d) }
    ensures statements { (a : Around) (s : StmtData)
        → Finds nothing_of (statement (around_of a) s) (statements.statement a s) }
    ensures programs { (written : Bool) (u : UnitData)
        → (walked written u).world
        ≡ (programs.tops_rule u.embs u.tops (programs.start written u)).world }
{}
