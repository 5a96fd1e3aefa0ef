//! The plain reading answers as the grammar has it, as the contracts of functions that do nothing.

ghost use Rattle.std.specs.Prelude.{◌≡◌, ◌⊎◌, ◌↔◌, Bool, List, Result, Ok, Err};
ghost use Rattle.ec_base.specs.declared.fault.FaultKind.{FaultKind};
ghost use Rattle.ec_base.specs.declared.fault.LimitKind.{LimitKind};
ghost use Rattle.ec_base.specs.declared.fault.LimitKind.TheVariants.{L3};
ghost use Rattle.ec_base.specs.declared.line.Line.{Line};
ghost use Rattle.ec_base.specs.declared.stop.Stop.{Stop};
ghost use Rattle.ec_base.specs.declared.stop.Stop.TheVariants.{Refused, Limit};
ghost use Rattle.ec_ctypes.specs.trees.Tokens.{TokenData};
ghost use Rattle.ec_ctypes.specs.trees.Units.{UnitData};
ghost use Rattle.ec_grammar.specs.ReadUnit.{answer};
ghost use Rattle.ec_language.specs.First.{Reads, HasTree, PassesLimit, IsReadAs};
ghost use Rattle.ec_language.specs.Grammar.{Derives};
ghost use Rattle.ec_language.specs.Letters.{Text};
ghost use Rattle.ec_language.specs.Productions.{placed, unit};
ghost use Rattle.ec_language.specs.Syntax.{EndsOnce, TreeOrStop};

/// What the plain reading answers of tokens is what the grammar has of them: the tree, the dead token's line, or the limit
/// that is passed. And there is no other answer, so that tokens have one tree at most.
pub fn readings_are_exact()
    ensures answered { (ts : List TokenData) → EndsOnce ts → TreeOrStop ts (answer ts) }
    ensures one_answer { (ts : List TokenData) (a : Result UnitData Stop) → EndsOnce ts
        → TreeOrStop ts a → a ≡ answer ts }
{}

/// A text has one reading at most, as a source and as written C: its tree, or what refuses it. (That it has one is the law
/// `each_text_is_read` of `ec_language`.)
pub fn readings_are_single()
    ensures { (written : Bool) (text : Text) (a other : Result UnitData Stop) → Reads written text a
        → Reads written text other → a ≡ other }
{}

/// Limits aside tokens have one tree at most, and where they have one, they are read as that tree, or the limit L3 is
/// passed: none of them is dead.
pub fn derived_trees_are_read()
    ensures single { (ts : List TokenData) (u v : UnitData)
        → Derives unit (placed ts) u → Derives unit (placed ts) v → u ≡ v }
    ensures read { (ts : List TokenData) (u : UnitData) (a : Result UnitData Stop)
        → EndsOnce ts → Derives unit (placed ts) u → TreeOrStop ts a
        → (a ≡ Ok u) ⊎ (a ≡ Err (Limit L3)) }
{}

/// Limits aside a text has one tree at most. A text that has one is read as that tree, or is refused for a limit that it
/// passes, and has no fault. It is read as its tree exactly where it passes no limit.
pub fn trees_are_read()
    ensures single { (written : Bool) (text : Text) (u v : UnitData)
        → HasTree written text u → HasTree written text v → u ≡ v }
    ensures read { (written : Bool) (text : Text) (u : UnitData) (a : Result UnitData Stop)
        → (h : HasTree written text u) → Reads written text a → IsReadAs h a }
    ensures no_fault { (written : Bool) (text : Text) (u : UnitData) (kind : FaultKind)
        (line : Line) → HasTree written text u → Reads written text (Err (Refused kind line)) → ⊥ }
    ensures agree { (written : Bool) (text : Text) (u : UnitData) (h : HasTree written text u)
        → Reads written text (Ok u) ↔ ((kind : LimitKind) → PassesLimit h kind → ⊥) }
    ensures aside { (written : Bool) (text : Text) (u : UnitData)
        → Reads written text (Ok u) → HasTree written text u }
{}
