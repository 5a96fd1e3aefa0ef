//! Expressions of which nothing is wanted but what they do (ISO/IEC 9899:1999, 6.8.3).
#![tactic(auto, using(ec_code::specs::declared::expression::Expression::the_lemmas, ec_code::specs::declared::expression::Full::the_lemmas))]

ghost use Rattle.std.specs.Prelude.{◌≡◌, IfOk};
ghost use Rattle.ec_code.specs.Views.{expression_view, full_view, head_view};
ghost use Rattle.ec_ctypes.specs.views.Exprs.{expr_view};
ghost use Rattle.ec_resolving_defs.specs.Operands as rule;
ghost use Rattle.ec_scopes.specs.Seen.{world_of};
ghost use Rattle.ec_type_rules.specs.Views.{type_view};
ghost use Rattle.ec_resolve_forms.specs.Seen.{found_view};

use crate::found::Found;
use crate::values::discarded;
use ec_base::OutOfMemory;
use ec_code::{Expression, Full, Head};
use ec_ctypes::{Expr, Ty};
use ec_scopes::Checker;
use ec_type_rules::is_void;

/// The head, whose value isn't used if it is a call.
fn head_without_use(head: Head) -> Head
    ensures { head_view result ≡ rule.without_use (head_view head) }
{
    match head {
        Head::Call(function, _, arguments) => Head::Call(function, false, arguments),
        Head::Begun(plain) => Head::Begun(plain),
        Head::Known(known, arguments) => Head::Known(known, arguments),
        Head::LibraryCall(number, pointers) => Head::LibraryCall(number, pointers),
        Head::Choice(test, first, second) => Head::Choice(test, first, second),
    }
}

/// The same of an expression that holds a call: it is a call itself where no step is behind its head.
fn full_without_use(full: Full) -> Full
    ensures { full_view result ≡ rule.without_use (full_view full) }
{
    let Full { head, steps } = full;
    if steps.is_empty() {
        Full {
            head: head_without_use(head),
            steps,
        }
    } else {
        Full { head, steps }
    }
}

/// The expression, whose value isn't used if it is a call of a function.
fn without_use(exp: Expression) -> Expression
    ensures { expression_view result ≡ rule.without_use (expression_view exp) }
{
    match exp {
        Expression::Full(full) => Expression::Full(full_without_use(full)),
        Expression::Plain(plain) => Expression::Plain(plain),
    }
}

/// Whether this is a call, or one that is cast to `void` once.
fn is_call_alone(e: &Expr, ty: &Option<Ty>) -> bool
    ensures { result ≡ rule.is_call_alone (expr_view e.now) (type_view ty.now) }
{
    match e {
        Expr::Call(_, _) => true,
        Expr::Cast(_, _, of) => match ty {
            Some(ty) => matches!(of.get(), Expr::Call(_, _)) && is_void(ty),
            None => false,
        },
        _ => false,
    }
}

/// An expression of which nothing is wanted but what it does: a statement, or the first or third part of a `for`.
pub fn done_alone(checker: &Checker, e: &Expr, f: Found) -> Result<Expression, OutOfMemory>
    ensures { IfOk result (λ made. expression_view made
        ≡ rule.done_alone (world_of checker.now) (expr_view e.now) (found_view f)) }
{
    let alone = is_call_alone(e, &f.operand.ty);
    let made = discarded(checker, f)?;
    if alone {
        Ok(without_use(made))
    } else {
        Ok(made)
    }
}
