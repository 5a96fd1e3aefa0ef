//! Expressions that lean to the left.

ghost use Rattle.std.specs.Prelude.{◌≡◌, option_map};
ghost use Rattle.std.specs.Option.{option_copied};
ghost use Rattle.ec_ctypes.specs.views.Exprs.{expr_view};
ghost use Rattle.ec_walk.specs.Spines.{left_of};

use ec_ctypes::Expr;
use ec_known::is_identifier;

/// The part that is looked at first, where all else stands behind it.
#[tactic(auto, using(ec_ctypes::specs::declared::tree::expr::Expr::the_lemmas))]
pub(crate) fn left_of(e: &Expr) -> Option<&Expr>
    ensures { option_map expr_view (option_copied result) ≡ left_of (expr_view e.now) }
{
    match e {
        Expr::Unary(_, of) => Some(of.get()),
        Expr::Binary(_, a, _) => Some(a.get()),
        Expr::Bump { of, .. } => Some(of.get()),
        Expr::CallOther(f, _) => {
            if is_identifier(f.get()) {
                None
            } else {
                Some(f.get())
            }
        }
        Expr::Index(a, _) => Some(a.get()),
        Expr::Member(of, _) => Some(of.get()),
        Expr::Arrow(of, _) => Some(of.get()),
        Expr::SizeExpr(of) => Some(of.get()),
        Expr::Int(_, _) => None,
        Expr::Char(_) => None,
        Expr::Str(_) => None,
        Expr::Name(_) => None,
        Expr::Assign(_, _, _) => None,
        Expr::Call(_, _) => None,
        Expr::Cast(_, _, _) => None,
        Expr::SizeType(_, _) => None,
    }
}
