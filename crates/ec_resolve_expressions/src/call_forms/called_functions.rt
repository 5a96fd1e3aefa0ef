//! Whether functions are called for the arguments of a call.

ghost use Rattle.std.specs.Prelude.{◌≡◌};
ghost use Rattle.ec_ctypes.specs.views.Exprs.{expr_view, exprs_view};
ghost use Rattle.ec_resolving_defs.specs.Calling as rule;

use ec_ctypes::Expr;

/// Whether a function is called in the expression, evaluated or not.
#[tactic(auto, using(ec_ctypes::specs::declared::tree::expr::Expr::the_lemmas))]
fn calls_function(e: &Expr) -> bool
    ensures { result ≡ rule.calls_function (expr_view e.now) }
{
    match e {
        Expr::Unary(_, a) => calls_function(a.get()),
        Expr::Binary(_, a, b) => calls_function(a.get()) || calls_function(b.get()),
        Expr::Assign(_, a, b) => calls_function(a.get()) || calls_function(b.get()),
        Expr::Bump { of, .. } => calls_function(of.get()),
        Expr::Call(_, _) | Expr::CallOther(_, _) => true,
        Expr::Index(a, b) => calls_function(a.get()) || calls_function(b.get()),
        Expr::Member(a, _) => calls_function(a.get()),
        Expr::Arrow(a, _) => calls_function(a.get()),
        Expr::Cast(_, _, a) => calls_function(a.get()),
        Expr::SizeExpr(a) => calls_function(a.get()),
        Expr::Int(_, _) | Expr::Char(_) | Expr::Str(_) | Expr::Name(_) | Expr::SizeType(_, _) => {
            false
        }
    }
}

/// Whether one is called in any of these.
pub(crate) fn any_calls_function(es: &[Expr]) -> bool
    ensures { result ≡ rule.any_calls_function (exprs_view es.now) }
{
    for e in es {
        if calls_function(e) {
            return true;
        }
    }
    false
}
