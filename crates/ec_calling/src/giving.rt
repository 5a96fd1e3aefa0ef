//! The arguments of a call, evaluated.

ghost use Rattle.std.specs.Prelude.{◌≡◌, true, ◌∷◌, ◌++◌, [], map, option_map, List};
ghost use Rattle.ec_bytes.specs.declared.scalar.address.Ptr.{Ptr};
ghost use Rattle.ec_arguments.specs.Arguments.{pointer};
ghost use Rattle.ec_code.specs.Views.{plain_view};
ghost use Rattle.ec_call_defs.specs.Steps.{given_first};
ghost use Rattle.ec_calling.specs.Giving.{Gives, GivesOne, TakesValue, all_seen, seen, with_value};
ghost use Rattle.ec_calling.specs.Views.{argument_view};
ghost use Rattle.ec_memory_defs.specs.Memory.{Memory};
ghost use Rattle.ec_meaning_defs.specs.resolved.Resolved.{constant};
ghost use Rattle.ec_values.specs.Words.{word_view};

use crate::address::Address;
use crate::call::Argument;
use ec_base::List;
use ec_bytes::Ptr;
use ec_code::Plain;
use ec_cut::Argument as Given;
use ec_memory::Store;
use ec_plain::evaluate;
use ec_values::{Stop, Word};
use std::alloc::Global;

// A pointer, evaluated.
fn pointer<'p>(
    store: &mut Store,
    scope: &[Ptr],
    expression: &'p Plain,
) -> Result<Given<&'p [u8], Address>, Stop>
    ensures { GivesOne scope.now (pointer (plain_view expression.now)) store.old store.new result }
{
    match evaluate(store, scope, expression).get() {
        Ok(Word::Address(ptr)) => Ok(Given::Pointer(Address(ptr))),
        Ok(Word::Signed(_)) => Err(Stop::Misfit),
        Ok(Word::Unsigned(_)) => Err(Stop::Misfit),
        Err(stop) => Err(stop),
    }
}

// The pointer of this value.
fn valued<'p>(value: Word) -> Result<Given<&'p [u8], Address>, Stop>
    ensures { (scope : List Ptr) (m : Memory) →
        GivesOne scope (pointer (constant (word_view value))) m m result }
{
    match value {
        Word::Address(ptr) => Ok(Given::Pointer(Address(ptr))),
        Word::Signed(_) => Err(Stop::Misfit),
        Word::Unsigned(_) => Err(Stop::Misfit),
    }
}

// An argument, evaluated. Where it is a pointer it may have a value already.
fn one<'p>(
    store: &mut Store,
    scope: &[Ptr],
    argument: &'p Argument,
    value: Option<Word>,
) -> Result<Given<&'p [u8], Address>, Stop>
    ensures { GivesOne scope.now (with_value (option_map word_view value)
        (argument_view argument.now)) store.old store.new result }
{
    match argument {
        Argument::Symbol(symbol) => Ok(Given::Symbol(*symbol)),
        Argument::Literal(bytes) => Ok(Given::Literal(bytes.as_slice())),
        Argument::Null => Ok(Given::Null),
        Argument::Int(number) => Ok(Given::Int(*number)),
        Argument::Long(number) => Ok(Given::Long(*number)),
        Argument::Pointer(expression) => match value {
            Some(value) => valued(value),
            None => pointer(store, scope, expression),
        },
        Argument::Before => match value {
            Some(value) => valued(value),
            None => Err(Stop::Misfit),
        },
        Argument::Stray => Err(Stop::Misfit),
    }
}

// The value that an argument has, which is the first of these where it is a pointer, and those of the arguments behind it.
fn value_of<'v>(argument: &Argument, values: &'v [Word]) -> (Option<Word>, &'v [Word])
    ensures { TakesValue values.now (argument_view argument.now) result.0 result.1.now }
{
    match values {
        [] => (None, values),
        [first, more @ ..] => match argument {
            Argument::Pointer(_) | Argument::Before => (Some(*first), more),
            _ => (None, values),
        },
    }
}

// Keeps an argument behind others, if they were kept and there is memory.
fn keep<'p>(
    given: &mut List<Given<&'p [u8], Address>>,
    argument: Given<&'p [u8], Address>,
    kept: bool,
) -> bool
    ensures before { result ≡ true → kept ≡ true }
    ensures behind { result ≡ true →
        all_seen given.new ≡ all_seen given.old ++ seen argument.entry ∷ [] }
{
    if !kept {
        return false;
    }
    match given.push(argument) {
        Ok(()) => true,
        Err(_) => false,
    }
}

/// The arguments of a call whose first pointers have these values, evaluated in their order, or
/// what stops the run at one of them. Where there is no memory for them all are evaluated, and none
/// is given.
pub(crate) fn give<'p>(
    alloc: Global,
    store: &mut Store,
    scope: &[Ptr],
    arguments: &'p [Argument],
    values: &[Word],
) -> Result<Option<List<Given<&'p [u8], Address>>>, Stop>
    ensures { Gives scope.now (given_first (map word_view values.now)
        (map argument_view arguments.now)) store.old store.new result }
{
    let mut given = List::new(alloc);
    let mut kept = true;
    let mut left = values;
    for argument in arguments {
        let (value, behind) = value_of(argument, left);
        left = behind;
        match one(store, scope, argument, value) {
            Ok(found) => kept = keep(&mut given, found, kept),
            Err(stop) => return Err(stop),
        }
    }
    if kept { Ok(Some(given)) } else { Ok(None) }
}
