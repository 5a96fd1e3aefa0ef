//! The executable of a source.

ghost use Rattle.std.specs.Prelude.{◌≡◌, Ok};
ghost use Rattle.ec_phases_defs.specs.translation.Translations.{IsTranslation};
ghost use Rattle.ec_execute.specs.source.Answers.{TellsRunnable};

use crate::{Executable, read_program};
use ec_base::Stop;
use ec_front::translation::translate;
use ec_phases_defs::translation::translations_are_single;
use ec_sim_source_laws::run::written_texts_are_run;
use std::alloc::Global;

// The executable of the C that is written of a source. It is the source that is refused where what is written passes a limit.
fn read_back(alloc: Global, text: &[u8], written: &[u8]) -> Result<Executable, Stop>
    requires { IsTranslation text.now (Ok written.now) }
    ensures { TellsRunnable text.now result }
{
    written_texts_are_run();
    translations_are_single();
    match read_program(alloc, written) {
        Ok(executable) => Ok(executable),
        Err(stop) => Err(stop),
    }
}

/// The executable of a source: it is read, written as C, and that is read back. It means what the source means.
///
/// # Errors
///
/// What `translate` refuses the source for. Of a source that is accepted: the limits L2, L3 and L6 where the C that is written
/// passes one.
pub fn read_source(alloc: Global, text: &[u8]) -> Result<Executable, Stop>
    ensures { TellsRunnable text.now result }
{
    match translate(alloc, text) {
        Ok(written) => read_back(alloc, text, written.as_slice()),
        Err(stop) => Err(stop),
    }
}
