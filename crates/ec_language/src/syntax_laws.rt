//! What is computed of the syntax is what the grammar derives, as the contracts of functions that do nothing.

ghost use Rattle.std.specs.Prelude.{◌≡◌, ◌↔◌, true, List, Some, Ok, Err};
ghost use Rattle.ec_base.specs.declared.stop.Stop.{Stop};
ghost use Rattle.ec_ctypes.specs.trees.Tokens.{TokenData};
ghost use Rattle.ec_ctypes.specs.trees.Units.{UnitData};
ghost use Rattle.ec_language.specs.Grammar.{PlacedTokens, Limits, DerivesWithin, FrontWithin, Derives, Front};
ghost use Rattle.ec_language.specs.Productions.{Sym, Value, productions};
ghost use Rattle.ec_language.specs.ReadSyntax.{trees, fits, unreached, IsAmong};
ghost use Rattle.ec_language.specs.Syntax.{EndsOnce, TreeOrStop};
ghost use Rattle.ec_language.specs.SyntaxAnswer.{trees_of, syntax_stop, read_syntax};
ghost use Rattle.ec_language.specs.Unlimited.{UnlimitedMakes, OneOf, DerivesUnlimited};

/// The trees of a list are exactly those that are derived, and the lists that pass the test are exactly the fronts,
/// within limits and without. A derivation without levels and counts is one within limits that are high enough, and is
/// made by one of the productions of elements that are derived.
pub fn grammar_laws()
    ensures derived { (limits : Limits) (s : Sym) (w : PlacedTokens) (v : Value s)
        → DerivesWithin limits s w v ↔ IsAmong v (trees limits s w) }
    ensures front { (limits : Limits) (s : Sym) (u : PlacedTokens)
        → FrontWithin limits s u ↔ (fits limits s u ≡ true) }
    ensures unlimited { (s : Sym) (w : PlacedTokens) (v : Value s)
        → Derives s w v ↔ DerivesUnlimited s w v }
    ensures made { (s : Sym) (w : PlacedTokens) (v : Value s)
        → DerivesUnlimited s w v ↔ OneOf (UnlimitedMakes DerivesUnlimited w v) (productions s) }
    ensures front_of_any_limits { (s : Sym) (u : PlacedTokens) → Front s u
        ↔ (fits (unreached u) s u ≡ true) }
{}

/// Tokens have a tree or a stop and never both, and both are computed.
pub fn answer_laws()
    ensures tree { (ts : List TokenData) (u : UnitData)
        → TreeOrStop ts (Ok u) ↔ IsAmong u (trees_of ts) }
    ensures stop { (ts : List TokenData) (s : Stop) → TreeOrStop ts (Err s)
        ↔ (syntax_stop ts ≡ Some s) }
    ensures one_of_both { (ts : List TokenData) (u : UnitData) (s : Stop) → TreeOrStop ts (Ok u)
        → TreeOrStop ts (Err s) → ⊥ }
    ensures answered { (ts : List TokenData) → EndsOnce ts → TreeOrStop ts (read_syntax ts) }
{}
