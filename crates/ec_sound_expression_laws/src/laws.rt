//! What holds of the resolved forms of expressions, as the contracts of functions that do nothing.

ghost use Rattle.std.specs.Prelude.{ℕ, List, Bool};
ghost use Rattle.ec_resolving_defs.specs.Storage.{LibraryCall};
ghost use Rattle.ec_sound_defs.specs.Sound.{Signature};
ghost use Rattle.ec_sound_expression_laws.specs.Laws.{ExpressionsFit, ArgumentsFit};

/// Where each name in scope stands for an object in scope or for a function with its signature, an expression with which
/// nothing is wrong is resolved to a form that fits its type, or to one that is done without a value.
pub fn expressions_fit()
    ensures expressions { (gs : List Signature) (calls : List LibraryCall) (n : ℕ) (written : Bool)
        → ExpressionsFit gs calls n written }
    ensures arguments { (gs : List Signature) (calls : List LibraryCall) (n : ℕ) (written : Bool)
        → ArgumentsFit gs calls n written }
{}
