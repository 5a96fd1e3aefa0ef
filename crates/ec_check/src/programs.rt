//! Programs (ISO/IEC 9899:1999, 6.9).
#![tactic(auto, using(ec_scopes::proofs::Steps::noting), unfolding(ec_typing_defs::specs::Worlds::chain, ec_typing_defs::specs::Worlds::pure, ec_typing_defs::specs::Programs::main_rule))]

ghost use Rattle.std.specs.Prelude.{◌≡◌, map};
ghost use Rattle.ec_ctypes.specs.views.Embedded.{emb_view};
ghost use Rattle.ec_ctypes.specs.views.Units.{top_view, unit_view};
ghost use Rattle.ec_scopes.specs.Seen.{world_of, Does};
ghost use Rattle.ec_typing_defs.specs.Programs as rule;

use crate::declarations::declaration;
use crate::defined::has_main;
use crate::functions::function_rule;
use ec_base::{FaultKind, OutOfMemory};
use ec_ctypes::{Top, Unit};
use ec_embedded_rules::directive_rule;
use ec_embedded_rules::parts::Statements;
use ec_scopes::Checker;

// What stands at the top level.
fn top_rule(checker: &mut Checker, embedded: &Statements<'_>, top: &Top) -> Result<(), OutOfMemory>
    ensures { Does (λ u. u) (rule.top_rule (map emb_view embedded.now) (top_view top.now)
        (world_of checker.old)) checker.old result checker.new }
{
    match top {
        Top::Include(_) => Ok(()),
        Top::Directive(n) => directive_rule(checker, embedded, *n),
        Top::Decl(d) => declaration(checker, true, d),
        Top::Func(f) => function_rule(checker, embedded, f.get()),
        Top::Mark(_, _) => Ok(()),
    }
}

fn tops_rule(
    checker: &mut Checker,
    embedded: &Statements<'_>,
    tops: &[Top],
) -> Result<(), OutOfMemory>
    ensures { Does (λ u. u) (rule.tops_rule (map emb_view embedded.now) (map top_view tops.now)
        (world_of checker.old)) checker.old result checker.new }
{
    for top in tops {
        top_rule(checker, embedded, top)?;
    }
    Ok(())
}

/// The program, whose embedded statements these are. F20 stands at its end.
pub fn unit_rule(
    checker: &mut Checker,
    unit: &Unit,
    embedded: &Statements<'_>,
) -> Result<(), OutOfMemory>
    requires { embedded.now ≡ unit.now.embs }
    ensures { Does (λ u. u) (rule.unit_rule (unit_view unit.now) (world_of checker.old))
        checker.old result checker.new }
{
    let tops = unit.tops.as_slice();
    tops_rule(checker, embedded, tops)?;
    let at = checker.place(unit.last)?;
    checker.demand(at, FaultKind::F20, has_main(tops));
    Ok(())
}
