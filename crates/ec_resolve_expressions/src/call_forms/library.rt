//! Calls of the library (PostgreSQL manual, chapter ECPG).
#![tactic(auto, unfolding(ec_resolving_defs::specs::Storage::chain, ec_resolving_defs::specs::Storage::pure, ec_resolving_defs::specs::Storage::stored, ec_resolving_defs::specs::Storage::arrange))]

ghost use Rattle.std.specs.Prelude.{◌≡◌, ◌∷◌, ◌++◌, [], true, IfOk, OnOk, map};
ghost use Rattle.ec_code.specs.Views.{expression_view, expressions_view};
ghost use Rattle.ec_ctypes.specs.views.Exprs.{exprs_view};
ghost use Rattle.ec_resolve_forms.specs.Seen.{founds_view, from, Reaches};
ghost use Rattle.ec_resolving_defs.specs.Calling.{any_calls_function};
ghost use Rattle.ec_resolving_defs.specs.Operands as rule;
ghost use Rattle.ec_resolving_defs.specs.Operands.{evaluated_before, left_of, without_pointer};
ghost use Rattle.ec_resolve_values.specs.storage.Stored.{argument_view};
ghost use Rattle.ec_resolve_expressions.specs.call_forms.Parting.{pointer_in, pointers_in};

use crate::call_forms::arguments::arguments_of_call;
use crate::call_forms::called_functions::any_calls_function;
use ec_base::{List, OutOfMemory};
use ec_code::Expression;
use ec_ctypes::{Expr, LibName};
use ec_resolve_forms::{Found, Resolver};
use ec_resolve_values::conversions::faulty;
use ec_resolve_values::storage::{Argument, LibraryCall};
use std::alloc::Global;

/// The arguments of a call, and the pointers that are evaluated before it.
struct SplitArguments {
    left: List<Argument>,
    pointers: List<Expression>,
}

/// One argument more. A pointer is taken out of it.
fn part_one(
    alloc: Global,
    left: &mut List<Argument>,
    pointers: &mut List<Expression>,
    argument: Argument,
) -> Result<(), OutOfMemory>
    ensures left { OnOk result (map argument_view left.new
        ≡ map argument_view left.old ++ without_pointer (argument_view argument) ∷ []) }
    ensures pointers { OnOk result (map expression_view pointers.new
        ≡ map expression_view pointers.old ++ pointer_in (argument_view argument)) }
{
    match argument {
        Argument::Pointer(expression) => {
            pointers.push(expression)?;
            left.push(Argument::Before)
        }
        Argument::Before => {
            pointers.push(faulty(alloc))?;
            left.push(Argument::Before)
        }
        Argument::Symbol(symbol) => left.push(Argument::Symbol(symbol)),
        Argument::Literal(bytes) => left.push(Argument::Literal(bytes)),
        Argument::Null => left.push(Argument::Null),
        Argument::Int(number) => left.push(Argument::Int(number)),
        Argument::Long(number) => left.push(Argument::Long(number)),
        Argument::Stray => left.push(Argument::Stray),
    }
}

/// Takes the pointers of a call's arguments out, in their order.
fn without_pointers(alloc: Global, arguments: List<Argument>) -> Result<SplitArguments, OutOfMemory>
    ensures left { IfOk result (λ made. map argument_view made.left
        ≡ map without_pointer (map argument_view arguments)) }
    ensures pointers { IfOk result (λ made. map expression_view made.pointers
        ≡ pointers_in (map argument_view arguments)) }
{
    let mut left = List::new(alloc);
    let mut pointers = List::new(alloc);
    for argument in arguments {
        part_one(alloc, &mut left, &mut pointers, argument)?;
    }
    Ok(SplitArguments { left, pointers })
}

/// What is left of a call's arguments whose pointers are evaluated before it, and these.
#[tactic(auto, using(crate::proofs::call_forms_lemmas::Parting::ordered))]
fn taken_out(alloc: Global, arguments: List<Argument>) -> Result<SplitArguments, OutOfMemory>
    ensures left { IfOk result (λ made. map argument_view made.left
        ≡ left_of true (map argument_view arguments)) }
    ensures pointers { IfOk result (λ made. expressions_view made.pointers
        ≡ evaluated_before true (map argument_view arguments)) }
{
    let SplitArguments { left, pointers } = without_pointers(alloc, arguments)?;
    Ok(SplitArguments { left, pointers })
}

/// The arguments of a call with these forms, and its pointers where functions are called for them.
fn split(
    alloc: Global,
    forms: &[Expr],
    arguments: List<Argument>,
) -> Result<SplitArguments, OutOfMemory>
    ensures left { IfOk result (λ made. map argument_view made.left
        ≡ left_of (any_calls_function (exprs_view forms.now)) (map argument_view arguments)) }
    ensures pointers { IfOk result (λ made. expressions_view made.pointers
        ≡ evaluated_before (any_calls_function (exprs_view forms.now))
        (map argument_view arguments)) }
{
    if any_calls_function(forms) {
        return taken_out(alloc, arguments);
    }
    Ok(SplitArguments {
        left: arguments,
        pointers: List::new(alloc),
    })
}

/// A call of the library, by its number among these.
pub(crate) fn library_called(
    resolver: &mut Resolver,
    name: LibName,
    forms: &[Expr],
    fs: List<Found>,
) -> Result<Expression, OutOfMemory>
    ensures { Reaches expression_view (from (rule.library_exp name (exprs_view forms.now)
        (founds_view fs)) resolver.old) result resolver.new }
{
    let alloc = resolver.checker.alloc();
    let number = resolver.storage.calls()?;
    let arguments = arguments_of_call(alloc, forms, fs)?;
    let SplitArguments { left, pointers } = split(alloc, forms, arguments)?;
    resolver.storage.add_call(LibraryCall {
        name,
        arguments: left,
    })?;
    Ok(Expression::library_call(alloc, number, pointers))
}
