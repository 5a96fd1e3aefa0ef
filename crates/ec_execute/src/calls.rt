//! The calls of the library in a program, as they are made.

ghost use Rattle.std.specs.Prelude.{◌≡◌, IfSome, map};
ghost use Rattle.ec_calling.specs.Views as made;
ghost use Rattle.ec_code.specs.Views.{expression_view};
ghost use Rattle.ec_arguments.specs.Arguments.{pointer};
ghost use Rattle.ec_resolve_values.specs.storage.Stored as stored;

use ec_base::List;
use ec_calling::{Argument, Call};
use ec_code::Expression;
use ec_resolve_values::storage::{Argument as Stored, LibraryCall};
use std::alloc::Global;

// A pointer. There is none by an expression that holds a call.
fn pointer_of(expression: Expression) -> Option<Argument>
    ensures { IfSome result (λ argument. made.argument_view argument
        ≡ pointer (expression_view expression)) }
{
    match expression {
        Expression::Plain(plain) => Some(Argument::Pointer(plain)),
        Expression::Full(_) => None,
    }
}

// An argument.
fn argument_of(argument: Stored) -> Option<Argument>
    ensures { IfSome result (λ given. made.argument_view given ≡ stored.argument_view argument) }
{
    match argument {
        Stored::Symbol(symbol) => Some(Argument::Symbol(symbol)),
        Stored::Literal(bytes) => Some(Argument::Literal(bytes)),
        Stored::Null => Some(Argument::Null),
        Stored::Int(number) => Some(Argument::Int(number)),
        Stored::Long(number) => Some(Argument::Long(number)),
        Stored::Pointer(expression) => pointer_of(expression),
        Stored::Before => Some(Argument::Before),
        Stored::Stray => Some(Argument::Stray),
    }
}

// The arguments of a call.
fn arguments_of(alloc: Global, arguments: List<Stored>) -> Option<List<Argument>>
    ensures { IfSome result (λ given. map made.argument_view given
        ≡ map stored.argument_view arguments) }
{
    let mut given = List::new(alloc);
    for argument in arguments {
        let Some(one) = argument_of(argument) else {
            return None;
        };
        match given.push(one) {
            Ok(()) => {}
            Err(_) => return None,
        }
    }
    Some(given)
}

// A call.
fn call_of(alloc: Global, call: LibraryCall) -> Option<Call>
    ensures { IfSome result (λ given. made.call_view given ≡ stored.call_view call) }
{
    let LibraryCall { name, arguments } = call;
    match arguments_of(alloc, arguments) {
        Some(arguments) => Some(Call { name, arguments }),
        None => None,
    }
}

/// The calls of a program, by their numbers. There are none without memory for them, and none where a call is made for a
/// pointer that isn't evaluated before.
pub(crate) fn calls_of(alloc: Global, calls: List<LibraryCall>) -> Option<List<Call>>
    ensures { IfSome result (λ given. map made.call_view given ≡ map stored.call_view calls) }
{
    let mut given = List::new(alloc);
    for call in calls {
        let Some(one) = call_of(alloc, call) else {
            return None;
        };
        match given.push(one) {
            Ok(()) => {}
            Err(_) => return None,
        }
    }
    Some(given)
}
