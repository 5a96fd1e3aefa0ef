//! Look-ups through scopes, of which the last is the innermost one.

ghost use Rattle.std.specs.Prelude.{◌≡◌, option_map};
ghost use Rattle.std.specs.Option.{option_copied};
ghost use Rattle.ec_typing_defs.specs.Worlds as rule;
ghost use Rattle.ec_scopes.specs.Entries.{entry_view, outer_view};

use crate::entries::{Entry, Scope};

/// What the name stands for in the scopes.
pub(crate) fn name_in<'a>(scopes: &'a [Scope], name: &[u8]) -> Option<&'a Entry>
    ensures { option_map entry_view (option_copied result)
        ≡ rule.look_up_in (outer_view scopes.now) name.now }
{
    let mut left = scopes.len();
    while left > 0 {
        left -= 1;
        if let Some(entry) = scopes[left].names.get(name) {
            return Some(entry);
        }
    }
    None
}

/// The struct of the tag in the scopes.
pub(crate) fn tag_in(scopes: &[Scope], tag: &[u8]) -> Option<u32>
    ensures { result ≡ rule.tag_in (outer_view scopes.now) tag.now }
{
    let mut left = scopes.len();
    while left > 0 {
        left -= 1;
        if let Some(k) = scopes[left].tags.get(tag) {
            return Some(*k);
        }
    }
    None
}
