//! The order of embedded statements in the text.

ghost use Rattle.std.specs.Prelude.{◌≡◌, map};
ghost use Rattle.ec_ctypes.specs.views.Embedded.{emb_view};
ghost use Rattle.ec_whenever.specs.Tables.{are_in_order};

use ec_ctypes::Emb;

/// Whether the statements stand in the order of the text, as those of a program do.
pub fn are_in_order(embs: &[Emb]) -> bool
    ensures { result ≡ are_in_order (map emb_view embs.now) }
{
    let mut left = embs;
    while let [first, second, ..] = left {
        if first.place >= second.place {
            return false;
        }
        left = &left[1..];
    }
    true
}
