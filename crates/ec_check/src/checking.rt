//! The checks of a whole program.

ghost use Rattle.std.specs.Prelude.{◌≡◌, IfOk};
ghost use Rattle.ec_ctypes.specs.views.Checked.{handlers_view};
ghost use Rattle.ec_ctypes.specs.views.Units.{unit_view};
ghost use Rattle.ec_language.specs.First.{stop_at};
ghost use Rattle.ec_scopes.specs.Seen.{world_of, notes_of};
ghost use Rattle.ec_check.specs.typed.Orders.{IsNumbered};
ghost use Rattle.ec_typing_defs.specs.Answers as spec;
ghost use Rattle.ec_whenever.specs.Tables.{AnswersFor};
ghost use Rattle.ec_check.specs.Answers.{Checks};

use crate::defined::add_defined;
use crate::programs::unit_rule;
use crate::structs::definitions;
use crate::typed::{Numbered, make_numbered};
use ec_base::{OutOfMemory, Stop};
use ec_ctypes::{HandlerTable, HostTable, Typed, Unit};
use ec_embedded_rules::parts::Statements;
use ec_scopes::{Checker, Table};
use std::alloc::Global;

// What is known behind a program, and the first of its violations.
fn checked(
    alloc: Global,
    unit: &Unit,
    handlers: &HandlerTable,
    written: bool,
) -> Result<Checker, OutOfMemory>
    requires { AnswersFor (handlers_view handlers.now) (unit_view unit.now).embs }
    ensures world { IfOk result (λ checker. world_of checker
        ≡ (spec.checked written (unit_view unit.now)).world) }
    ensures first { IfOk result (λ checker. stop_at (notes_of checker)
        ≡ spec.stop_of_unit written (unit_view unit.now)) }
{
    let mut defined = Table::new(alloc);
    add_defined(alloc, unit.tops.as_slice(), &mut defined)?;
    let mut checker = Checker::start(alloc, written, defined)?;
    let embedded = Statements::new(alloc, unit.embs.as_slice(), handlers)?;
    unit_rule(&mut checker, unit, &embedded)?;
    Ok(checker)
}

// The structs and the types of the declarations, by their numbers.
fn found(alloc: Global, checker: &Checker) -> Result<Numbered, OutOfMemory>
    ensures { IfOk result (λ n. IsNumbered n.structs n.names (world_of checker.now)) }
{
    let structs = definitions(alloc, checker.struct_rows())?;
    make_numbered(alloc, structs.as_slice(), checker.closed(), checker.types())
}

/// Checks a program, as written C or not: the first of its violations, or the program with its types. The tables of the
/// hosts and of the handlers are those of the program, and stand in the answer.
pub fn check(
    alloc: Global,
    unit: Unit,
    hosts: HostTable,
    handlers: HandlerTable,
    written: bool,
) -> Result<Typed, Stop>
    requires { AnswersFor (handlers_view handlers) (unit_view unit).embs }
    ensures { Checks written (unit_view unit) hosts.hosts (handlers_view handlers) result }
{
    let checker = checked(alloc, &unit, &handlers, written)?;
    match checker.first() {
        Some(stop) => return Err(stop),
        None => {}
    }
    let Numbered { structs, names } = match found(alloc, &checker) {
        Ok(numbered) => numbered,
        Err(_) => return Err(Stop::OutOfMemory),
    };
    Ok(Typed {
        unit,
        structs,
        names,
        hosts,
        handlers,
        denoted: checker.into_denoted(),
    })
}
