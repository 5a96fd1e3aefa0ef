//! Constants, and the literals of calls of the library.
#![tactic(auto, using(ec_ctypes::specs::declared::tree::expr::Expr::the_lemmas), unfolding(ec_typing_defs::specs::Worlds::chain, ec_resolving_defs::specs::Storage::chain, ec_resolving_defs::specs::Storage::pure, ec_resolving_defs::specs::Storage::checks, ec_resolving_defs::specs::Expressions::library_literal))]

ghost use Rattle.std.specs.Prelude.{◌≡◌, IfOk, false, pos};
ghost use Rattle.ec_ctypes.specs.views.Exprs.{expr_view};
ghost use Rattle.ec_ctypes.specs.views.Types.{ty_view};
ghost use Rattle.ec_resolve_forms.specs.Seen.{found_view, from, Reaches};
ghost use Rattle.ec_known.specs.Forms.{arguments_view};
ghost use Rattle.ec_memory_defs.specs.Memory.{number};
ghost use Rattle.ec_meaning_defs.specs.resolved.Resolved.{constant};
ghost use Rattle.ec_resolving_defs.specs.Expressions as walk;
ghost use Rattle.ec_resolving_defs.specs.Operands as rule;
ghost use Rattle.ec_scopes.specs.Entries.{place_view};
ghost use Rattle.ec_typing_defs.specs.Operands as checked;
ghost use Rattle.ec_typing_defs.specs.Types.{int_type};

use ec_base::OutOfMemory;
use ec_code::{Expression, Leaf};
use ec_ctypes::{Expr, Ty, copy_ty};
use ec_known::Arguments;
use ec_resolve_forms::{Found, Resolver};
use ec_resolve_values::conversions::faulty;
use ec_rules::{Operand, value_rule as checked_value};
use ec_scopes::Place;
use ec_values::Word;
use ec_walk::expr as checked_expr;
use std::alloc::Global;

/// An integer constant of this type.
pub(crate) fn integer(alloc: Global, value: u64, ty: &Ty) -> Result<Found, OutOfMemory>
    ensures { IfOk result (λ f. found_view f ≡ rule.found
        (checked.integer_operand (ty_view ty.now) (pos value))
        (constant (number (pos value))) false) }
{
    let ty = copy_ty(alloc, ty)?;
    Ok(Found {
        operand: Operand::integer(ty, i128::from(value)),
        exp: Expression::leaf(alloc, Leaf::Constant(Word::Unsigned(value))),
        is_address: false,
    })
}

/// A character constant.
pub(crate) fn character(alloc: Global, value: i8) -> Found
    ensures { found_view result ≡ rule.found (checked.integer_operand int_type value)
        (constant (number value)) false }
{
    Found {
        operand: Operand::integer(Ty::Int, i128::from(value)),
        exp: Expression::leaf(alloc, Leaf::Constant(Word::Signed(i64::from(value)))),
        is_address: false,
    }
}

/// Whether this is a literal as an argument of a call of the library.
pub(crate) fn is_library_literal(forms: Arguments, e: &Expr) -> bool
    ensures { result ≡ rule.is_library_literal (arguments_view forms) (expr_view e.now) }
{
    match forms {
        Arguments::WithSymbols => matches!(e, Expr::Str(_)),
        Arguments::AllExpressions => false,
        Arguments::StreamFirst => false,
    }
}

/// A literal as an argument of a call of the library, which makes no object.
pub(crate) fn library_literal(
    resolver: &mut Resolver,
    at: Place,
    e: &Expr,
) -> Result<Found, OutOfMemory>
    ensures { Reaches found_view (from (walk.library_literal (place_view at) (expr_view e.now))
        resolver.old) result resolver.new }
{
    let alloc = resolver.checker.alloc();
    let found = checked_expr(&mut resolver.checker, at, e)?;
    let operand = checked_value(&mut resolver.checker, at, found);
    Ok(Found {
        operand,
        exp: faulty(alloc),
        is_address: false,
    })
}
