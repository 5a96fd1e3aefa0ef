//! The actions that hold at embedded statements (PostgreSQL manual, "Setting Callbacks").
#![tactic(auto, using(ec_scopes::proofs::Steps::noting), unfolding(ec_typing_defs::specs::Worlds::chain, ec_typing_defs::specs::Worlds::pure))]

ghost use Rattle.std.specs.Prelude.{◌≡◌, Some, map};
ghost use Rattle.ec_base.specs.declared.fault.FaultKind.TheVariants.{F30};
ghost use Rattle.ec_ctypes.specs.views.Embedded.{action_view, emb_view};
ghost use Rattle.ec_ctypes.specs.views.Exprs.{exprs_view};
ghost use Rattle.ec_embedded_rules.specs.Calls.{called};
ghost use Rattle.ec_scopes.specs.Entries.{place_view};
ghost use Rattle.ec_scopes.specs.Seen.{world_of, Does};
ghost use Rattle.ec_typing_defs.specs.statement_parts.Handlers.{handler};
ghost use Rattle.ec_typing_defs.specs.Embedded as rule;
ghost use Rattle.ec_typing_defs.specs.Worlds.{instead};

use crate::parts::is_directive;
use crate::surroundings::Around;
use ec_base::{FaultKind, OutOfMemory};
use ec_ctypes::{Action, Cond, Emb, Expr};
use ec_scopes::{Checker, Place};
use ec_walk::call;

// A call that an action makes. Whatever is found in it is F30.
fn call_rule(checker: &mut Checker, at: Place, name: &[u8], es: &[Expr]) -> Result<(), OutOfMemory>
    ensures { Does (λ u. u) (instead (place_view at) F30
        (called (place_view at) name.now (exprs_view es.now)) (world_of checker.old))
        checker.old result checker.new }
{
    let aside = checker.set_aside();
    let _found = call(checker, at, name, es)?;
    checker.put_back(aside, at, FaultKind::F30);
    Ok(())
}

// An action: F30 where it names no label of the function, no loop stands round the statement, or its call may not stand
// there.
fn action_rule(
    checker: &mut Checker,
    a: Around<'_>,
    at: Place,
    action: &Action,
) -> Result<(), OutOfMemory>
    ensures { Does (λ u. u) (rule.action_rule a.entry.in_loop a.entry.labels.now (place_view at)
        (Some (action_view action.now)) (world_of checker.old)) checker.old result checker.new }
{
    match action {
        Action::Continue => Ok(()),
        Action::Print => Ok(()),
        Action::Stop => Ok(()),
        Action::Goto(label) => {
            let is_there = a.labels.get(label.as_slice()).is_some();
            checker.demand(at, FaultKind::F30, is_there);
            Ok(())
        }
        Action::Break | Action::Next => {
            checker.demand(at, FaultKind::F30, a.in_loop);
            Ok(())
        }
        Action::Call(name, es) => call_rule(checker, at, name.as_slice(), es.as_slice()),
    }
}

// The action that holds for a condition at a statement, if there is one.
fn handler_rule(
    checker: &mut Checker,
    a: Around<'_>,
    at: Place,
    e: &Emb,
    cond: Cond,
) -> Result<(), OutOfMemory>
    ensures { Does (λ u. u) (rule.action_rule a.entry.in_loop a.entry.labels.now (place_view at)
        (handler (map emb_view a.entry.embedded.now) (emb_view e.now).place cond)
        (world_of checker.old)) checker.old result checker.new }
{
    match a.embedded.action(e.place, cond) {
        Some(action) => action_rule(checker, a, at, action),
        None => Ok(()),
    }
}

// The actions that hold at a statement.
fn actions_rule(checker: &mut Checker, a: Around<'_>, at: Place, e: &Emb) -> Result<(), OutOfMemory>
    ensures { Does (λ u. u) (rule.actions_rule (map emb_view a.entry.embedded.now) a.entry.in_loop
        a.entry.labels.now (place_view at) (emb_view e.now) (world_of checker.old))
        checker.old result checker.new }
{
    handler_rule(checker, a, at, e, Cond::NotFound)?;
    handler_rule(checker, a, at, e, Cond::Warning)?;
    handler_rule(checker, a, at, e, Cond::Error)
}

/// The actions that hold at a statement. A directive is not executed.
pub(crate) fn handlers_rule(
    checker: &mut Checker,
    a: Around<'_>,
    at: Place,
    e: &Emb,
) -> Result<(), OutOfMemory>
    ensures { Does (λ u. u) (rule.handlers_rule (map emb_view a.entry.embedded.now)
        a.entry.in_loop a.entry.labels.now (place_view at) (emb_view e.now)
        (world_of checker.old)) checker.old result checker.new }
{
    if is_directive(e) {
        Ok(())
    } else {
        actions_rule(checker, a, at, e)
    }
}
