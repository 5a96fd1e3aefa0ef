//! What holds of the C that is written of a source.

ghost use Rattle.std.specs.Prelude.{◌≡◌, true, Ok};
ghost use Rattle.ec_language.specs.Letters.{Text, each};
ghost use Rattle.ec_phases_defs.specs.translation.Translations.{IsTranslation};
ghost use Rattle.ec_writing_defs.specs.Shapes.{is_byte};
ghost use Rattle.ec_execute.specs.source.Meanings.{KeepsMeaning};

use ec_phases_defs::translation::translations_are_single;
use ec_sim_source_laws::run::{written_texts_are_run, written_texts_mean_the_same};

/// What is written of a source is read as its written program, and means what the source means; where the source is run, it is run too.
#[tactic(none)]
pub fn translations_keep_meanings()
    ensures { (text written : Text) → each is_byte text ≡ true → IsTranslation text (Ok written)
        → KeepsMeaning text written }
{
    written_texts_are_run();
    written_texts_mean_the_same();
    translations_are_single();
}
