//! Arguments of calls (ISO/IEC 9899:1999, 6.5.2.2).

ghost use Rattle.std.specs.Prelude.{◌≡◌, ◌∷◌, ◌++◌, IfOk, List as Sequence, map};
ghost use Rattle.ec_code.specs.Views.{expression_view, expressions_view};
ghost use Rattle.ec_resolving_defs.specs.Conversions as form;
ghost use Rattle.ec_resolving_defs.specs.Operands as rule;
ghost use Rattle.ec_type_rules.specs.Views.{type_view};
ghost use Rattle.ec_resolve_forms.specs.Arguments.{passed_list, promoted_list};
ghost use Rattle.ec_resolve_forms.specs.Seen.{found_view, founds_view};

use crate::found::Found;
use ec_base::{List, OutOfMemory};
use ec_code::Expression;
use ec_ctypes::Ty;
use ec_resolve_values::conversions::{converted, known_conversion, promotion};
use std::alloc::Global;

/// An argument as a value of its parameter's type, as by assignment.
fn passed_one(alloc: Global, param: &Option<Ty>, f: Found) -> Result<Expression, OutOfMemory>
    ensures { IfOk result (λ e. expression_view e ≡ form.as_known_type
        (found_view f).operand.type (type_view param.now) (found_view f).exp) }
{
    let conversion = known_conversion(&f.operand.ty, param);
    converted(alloc, conversion, f.exp)
}

/// An argument of a format, whose type is promoted.
fn promoted_one(alloc: Global, f: Found) -> Result<Expression, OutOfMemory>
    ensures { IfOk result (λ e. expression_view e
        ≡ form.promoted_value (found_view f).operand.type (found_view f).exp) }
{
    let conversion = promotion(&f.operand.ty);
    converted(alloc, conversion, f.exp)
}

/// The arguments of a format, one by one.
fn promoted_each(alloc: Global, fs: List<Found>) -> Result<List<Expression>, OutOfMemory>
    ensures { IfOk result (λ es. map expression_view es ≡ promoted_list (founds_view fs)) }
{
    let mut arguments = List::with_capacity(alloc, fs.len())?;
    for f in fs {
        let argument = promoted_one(alloc, f)?;
        arguments.push(argument)?;
    }
    Ok(arguments)
}

/// The arguments of a format.
pub fn promoted(alloc: Global, fs: List<Found>) -> Result<List<Expression>, OutOfMemory>
    ensures { IfOk result (λ es. expressions_view es
        ≡ rule.exps_of (promoted_list (founds_view fs))) }
{
    promoted_each(alloc, fs)
}

/// One argument more. What has no parameter is left out.
fn pass_next<'a>(
    alloc: Global,
    arguments: &mut List<Expression>,
    params: &'a [Option<Ty>],
    f: Found,
) -> Result<&'a [Option<Ty>], OutOfMemory>
    ensures { IfOk result (λ more. (rest : Sequence rule.Found)
        → map expression_view arguments.old
        ++ passed_list (map type_view params.now) (found_view f ∷ rest)
        ≡ map expression_view arguments.new ++ passed_list (map type_view more.now) rest) }
{
    match params {
        [] => Ok(params),
        [param, more @ ..] => {
            let argument = passed_one(alloc, param, f)?;
            arguments.push(argument)?;
            Ok(more)
        }
    }
}

/// The arguments of a function with these parameters, one by one.
fn passed_each(
    alloc: Global,
    params: &[Option<Ty>],
    fs: List<Found>,
) -> Result<List<Expression>, OutOfMemory>
    ensures { IfOk result (λ es. map expression_view es
        ≡ passed_list (map type_view params.now) (founds_view fs)) }
{
    let mut arguments = List::with_capacity(alloc, fs.len())?;
    let mut left = params;
    for f in fs {
        left = pass_next(alloc, &mut arguments, left, f)?;
    }
    Ok(arguments)
}

/// The arguments of a function with these parameters.
pub fn passed(
    alloc: Global,
    params: &[Option<Ty>],
    fs: List<Found>,
) -> Result<List<Expression>, OutOfMemory>
    ensures { IfOk result (λ es. expressions_view es
        ≡ rule.passed (map type_view params.now) (founds_view fs)) }
{
    passed_each(alloc, params, fs)
}
