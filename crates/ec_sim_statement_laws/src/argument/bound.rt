//! What is bound for a statement, and its places.

ghost use Rattle.std.specs.Prelude.{List, Option};
ghost use Rattle.ec_ctypes.specs.trees.Embedded.{EmbData};
ghost use Rattle.ec_ctypes.specs.trees.Exprs.{ExprData};
ghost use Rattle.ec_language.specs.Letters.{Text};
ghost use Rattle.ec_host_defs.specs.Programs.{ProgramData};
ghost use Rattle.ec_meaning_defs.specs.resolved.Resolved.{Exp};
ghost use Rattle.ec_resolving_defs.specs.Storage.{ReferenceForm};
ghost use Rattle.ec_direct_defs.specs.Statements.{Around, text_option};
ghost use Rattle.ec_sim_statement_laws.specs.argument.Bound.{cursor_of, OptionIs, KindIs, IsCall};

/// The call that is written for a statement, with the places to which its pointers lead, is the call of the statement by its
/// places, where each pointer leads to the place of its leaf: of any statement but a directive.
#[tactic(none)]
pub fn calls_are_those_of_their_places()
    ensures { (p : ProgramData) (g : ExprData → Exp) (prepared : Option Text) (d : Option EmbData)
        (rs : List ReferenceForm) (e : EmbData) (x : Around) → OptionIs p g e.at x
        → KindIs p g e (cursor_of prepared d e x.denoted rs) (text_option p e.at x).left
        → IsCall p g prepared d rs e x }
{}
