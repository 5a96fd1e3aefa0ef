//! The references of embedded statements (PostgreSQL manual, "Using Host Variables").
#![tactic(auto, using(ec_scopes::proofs::Steps::noting), unfolding(ec_typing_defs::specs::Worlds::chain, ec_typing_defs::specs::Worlds::pure, ec_typing_defs::specs::Worlds::ask, ec_typing_defs::specs::Embedded::reference_rule, ec_typing_defs::specs::Embedded::members_rule))]

ghost use Rattle.std.specs.Prelude.{◌≡◌, map};
ghost use Rattle.ec_ctypes.specs.views.Exprs.{expr_view};
ghost use Rattle.ec_embedded_rules.specs.parts.Views.{reference_view};
ghost use Rattle.ec_rules.specs.Seen.{operand_view};
ghost use Rattle.ec_scopes.specs.Entries.{place_view, type_view};
ghost use Rattle.ec_scopes.specs.Seen.{world_of, IsDone, Does};
ghost use Rattle.ec_typing_defs.specs.Embedded as rule;
ghost use Rattle.ec_typing_defs.specs.Worlds.{look_up};

use crate::parts::Reference;
use ec_base::{LimitKind, OutOfMemory};
use ec_ctypes::{Expr, Ty};
use ec_known::is_known_function;
use ec_rules::Operand;
use ec_scopes::{Checker, Entry, Place};
use ec_walk::expr;

// Whether the name is that of a function here.
fn is_function(checker: &Checker, name: &[u8]) -> bool
    ensures { result ≡ rule.is_function_entry name.now (look_up name.now (world_of checker.now)) }
{
    match checker.look_up(name) {
        Some(Entry::Object { .. }) => false,
        Some(Entry::Function { .. }) => true,
        None => is_known_function(name),
    }
}

// Whether it is the name of a function, and nothing else.
#[tactic(auto, using(ec_ctypes::specs::declared::tree::expr::Expr::the_lemmas))]
fn is_function_name(checker: &Checker, e: &Expr) -> bool
    ensures { result ≡ rule.is_function_name (world_of checker.now) (expr_view e.now) }
{
    match e {
        Expr::Name(name) => is_function(checker, name.as_slice()),
        Expr::Int(_, _) => false,
        Expr::Char(_) => false,
        Expr::Str(_) => false,
        Expr::Unary(_, _) => false,
        Expr::Binary(_, _, _) => false,
        Expr::Assign(_, _, _) => false,
        Expr::Bump { .. } => false,
        Expr::Call(_, _) => false,
        Expr::CallOther(_, _) => false,
        Expr::Index(_, _) => false,
        Expr::Member(_, _) => false,
        Expr::Arrow(_, _) => false,
        Expr::Cast(_, _, _) => false,
        Expr::SizeType(_, _) => false,
        Expr::SizeExpr(_) => false,
    }
}

// A reference is an expression. Of a function's name alone nothing is said here.
fn reference_rule(checker: &mut Checker, at: Place, e: &Expr) -> Result<Operand, OutOfMemory>
    ensures { Does operand_view (rule.reference_rule (place_view at) (expr_view e.now)
        (world_of checker.old)) checker.old result checker.new }
{
    if is_function_name(checker, e) {
        Ok(Operand::unknown())
    } else {
        expr(checker, at, e)
    }
}

// L5 for a host that stands for more members than one may.
fn members_rule(checker: &mut Checker, at: Place, is_host: bool, ty: &Option<Ty>)
    ensures { IsDone (rule.members_rule (place_view at) is_host (type_view ty.now)
        (world_of checker.old)) checker.old checker.new tt }
{
    let few = checker.has_few_members(ty);
    checker.keep_within(at, LimitKind::L5, !is_host || few);
}

/// References, one after the other.
pub(crate) fn references_rule(
    checker: &mut Checker,
    at: Place,
    all: &[Reference<'_>],
) -> Result<(), OutOfMemory>
    ensures { Does (λ u. u) (rule.references_rule (place_view at) (map reference_view all.now)
        (world_of checker.old)) checker.old result checker.new }
{
    for one in all {
        let o = reference_rule(checker, at, one.value)?;
        members_rule(checker, at, one.is_host, &o.ty);
    }
    Ok(())
}
