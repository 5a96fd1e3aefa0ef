//! The C that is written of a source.

ghost use Rattle.std.specs.Prelude.{IfOk};
ghost use Rattle.ec_front.specs.translation.Answers.{TellsTranslation, IsOnlyTranslation};
ghost use Rattle.ec_execute.specs.source.Meanings.{KeepsMeaning};

use crate::source::laws::translations_keep_meanings;
use ec_base::{Bytes, Stop};
use ec_front::translation::translate;
use std::alloc::Global;

/// The C that is written of a source (PostgreSQL manual, 36.17, "Internals"). It means what the source means.
///
/// # Errors
///
/// What `translate` refuses the source for.
#[tactic(none)]
pub fn translate_source(alloc: Global, text: &[u8]) -> Result<Bytes, Stop>
    ensures answer { TellsTranslation text.now result }
    ensures only { IsOnlyTranslation text.now result }
    ensures means { IfOk result (λ written. KeepsMeaning text.now written) }
{
    translations_keep_meanings();
    translate(alloc, text)
}
