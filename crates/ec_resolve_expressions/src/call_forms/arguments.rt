//! The arguments of calls of the library, by their forms.

ghost use Rattle.std.specs.Prelude.{◌≡◌, ◌∷◌, ◌++◌, IfOk, List as Sequence, map};
ghost use Rattle.ec_code.specs.Views.{expression_view};
ghost use Rattle.ec_ctypes.specs.Texts.{symbol_text};
ghost use Rattle.ec_ctypes.specs.views.Exprs.{expr_view, exprs_view};
ghost use Rattle.ec_ctypes.specs.views.Types.{ty_view};
ghost use Rattle.ec_resolve_forms.specs.Seen.{found_view, founds_view};
ghost use Rattle.ec_resolving_defs.specs.Operands as rule;
ghost use Rattle.ec_resolve_values.specs.storage.Stored.{argument_view};
ghost use Rattle.ec_type_rules.specs.Views.{type_view};
ghost use Rattle.ec_typing_defs.specs.Known.{symbols};
ghost use Rattle.ec_typing_defs.specs.Library.{named_among};

use crate::call_forms::symbols::symbol_named;
use ec_base::{List, OutOfMemory};
use ec_code::Expression;
use ec_ctypes::{Expr, Ty};
use ec_resolve_forms::Found;
use ec_resolve_values::storage::Argument;
use std::alloc::Global;

/// A pointer, or what no call takes.
fn pointer_argument(ty: &Option<Ty>, exp: Expression) -> Argument
    ensures { argument_view result
        ≡ rule.pointer_argument (type_view ty.now) (expression_view exp) }
{
    match ty {
        Some(Ty::Ptr(_)) => Argument::Pointer(exp),
        Some(_) => Argument::Stray,
        None => Argument::Stray,
    }
}

/// An integer constant of this type.
fn constant_argument(value: u64, of: &Ty) -> Argument
    ensures { argument_view result ≡ rule.constant_argument value (ty_view of.now) }
{
    match of {
        Ty::Int => Argument::Int(value),
        Ty::Long => Argument::Long(value),
        _ => Argument::Stray,
    }
}

/// A name, which is a symbol, `NULL` or an expression.
fn name_argument(name: &[u8], f: Found) -> Argument
    ensures { argument_view result ≡ rule.name_argument name.now
        (named_among symbol_text name.now symbols) (found_view f) }
{
    let Found { operand, exp, .. } = f;
    match symbol_named(name) {
        Some(symbol) => Argument::Symbol(symbol),
        None => {
            if name == b"NULL".as_slice() {
                Argument::Null
            } else {
                pointer_argument(&operand.ty, exp)
            }
        }
    }
}

/// An argument, by its form.
fn argument_of(alloc: Global, e: &Expr, f: Found) -> Result<Argument, OutOfMemory>
    ensures { IfOk result (λ a. argument_view a
        ≡ rule.argument_of (expr_view e.now) (found_view f)) }
{
    match e {
        Expr::Name(name) => Ok(name_argument(name.as_slice(), f)),
        Expr::Str(text) => Ok(Argument::Literal(List::from_slice(alloc, text.as_slice())?)),
        Expr::Int(value, of) => Ok(constant_argument(*value, of)),
        _ => {
            let Found { operand, exp, .. } = f;
            Ok(pointer_argument(&operand.ty, exp))
        }
    }
}

/// One argument more. What has no form is left out.
fn push_argument<'a>(
    alloc: Global,
    arguments: &mut List<Argument>,
    forms: &'a [Expr],
    f: Found,
) -> Result<&'a [Expr], OutOfMemory>
    ensures { IfOk result (λ more. (rest : Sequence rule.Found)
        → map argument_view arguments.old
        ++ rule.arguments_of_call (exprs_view forms.now) (found_view f ∷ rest)
        ≡ map argument_view arguments.new ++ rule.arguments_of_call (exprs_view more.now) rest) }
{
    match forms {
        [] => Ok(forms),
        [form, more @ ..] => {
            let argument = argument_of(alloc, form, f)?;
            arguments.push(argument)?;
            Ok(more)
        }
    }
}

/// The arguments of a call of the library, which have these forms.
pub(crate) fn arguments_of_call(
    alloc: Global,
    forms: &[Expr],
    fs: List<Found>,
) -> Result<List<Argument>, OutOfMemory>
    ensures { IfOk result (λ arguments. map argument_view arguments
        ≡ rule.arguments_of_call (exprs_view forms.now) (founds_view fs)) }
{
    let mut arguments = List::with_capacity(alloc, fs.len())?;
    let mut left = forms;
    for f in fs {
        left = push_argument(alloc, &mut arguments, left, f)?;
    }
    Ok(arguments)
}
