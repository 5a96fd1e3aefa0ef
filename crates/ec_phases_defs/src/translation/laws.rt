//! What holds of translations.

ghost use Rattle.ec_phases_defs.specs.translation.Laws.{HasOneTranslation, HasTranslation};

use crate::sources_are_read;

/// Each text has one translation, or is refused for one reason.
#[tactic(none)]
pub fn translations_are_single()
    ensures one { HasOneTranslation }
    ensures there { HasTranslation }
{
    sources_are_read();
}
