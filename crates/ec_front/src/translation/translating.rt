//! Sources, translated to C.

ghost use Rattle.std.specs.Prelude.{◌≡◌, true, IfOk, Ok};
ghost use Rattle.ec_ctypes.specs.views.Checked.{handlers_view, typed_view};
ghost use Rattle.ec_phases_defs.specs.Sources.{bound_program};
ghost use Rattle.ec_phases_defs.specs.translation.Translations.{text_of_program, translated};
ghost use Rattle.ec_whenever.specs.Tables.{is_sorted};
ghost use Rattle.ec_front.specs.translation.Answers.{TellsTranslation, IsOnlyTranslation, Is, program};

use crate::source::read_checked;
use crate::translation::binding::bound_statements;
use ec_base::{Bytes, List, OutOfMemory, Stop};
use ec_ctypes::{Bound, Typed};
use ec_cwrite::write;
use ec_expand::expand;
use ec_phases_defs::statements_have_places;
use ec_phases_defs::translation::translations_are_single;
use std::alloc::Global;

// The C that is written for a program, by what is bound for its statements.
fn written(alloc: Global, typed: &Typed, bounds: &List<Bound>) -> Result<Bytes, OutOfMemory>
    requires { is_sorted (handlers_view typed.now.handlers) ≡ true }
    ensures { IfOk result (λ text. text ≡ text_of_program (program typed.now bounds.now)) }
{
    let unit = expand(alloc, typed, bounds)?;
    write(&unit)
}

// The C that is written for a program.
fn translate_checked(alloc: Global, typed: &Typed) -> Result<Bytes, Stop>
    requires { is_sorted (handlers_view typed.now.handlers) ≡ true }
    ensures { Is (translated (bound_program (Ok (typed_view typed.now)))) result }
{
    match bound_statements(alloc, typed) {
        Ok(bounds) => match written(alloc, typed, &bounds) {
            Ok(text) => Ok(text),
            Err(_) => Err(Stop::OutOfMemory),
        },
        Err(stop) => Err(stop),
    }
}

/// The C that is written of a source (PostgreSQL manual, 36.17, "Internals").
///
/// # Errors
///
/// What the first phase that finds something refuses the source for: as of `read_checked`, and then the fault of the first
/// statement that has one in its hosts or its cursor (F21 to F28).
pub fn translate(alloc: Global, text: &[u8]) -> Result<Bytes, Stop>
    ensures answer { TellsTranslation text.now result }
    ensures only { IsOnlyTranslation text.now result }
{
    translations_are_single();
    statements_have_places();
    match read_checked(alloc, text) {
        Ok(typed) => translate_checked(alloc, &typed),
        Err(stop) => Err(stop),
    }
}
