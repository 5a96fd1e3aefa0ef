//! How many members a host stands for, as far as it counts.

ghost use Rattle.std.specs.Prelude.{◌≡◌, ◌+◌, nat_le};
ghost use Rattle.ec_typing_defs.specs.Embedded.{max_members};
ghost use Rattle.ec_scopes.specs.Counts.{counted};

/// The most members that a host stands for.
const MOST: u32 = 1000;

/// All numbers above the limit are one.
fn counted(n: u32) -> u32
    ensures { result ≡ counted n }
{
    if n <= MOST { n } else { MOST + 1 }
}

/// Both together.
pub(crate) fn joined_count(a: u32, b: u32) -> u32
    ensures { result ≡ counted (a + b) }
{
    counted(a.saturating_add(b))
}

/// Whether a host may stand for so many.
pub(crate) fn is_few(n: u32) -> bool
    ensures { result ≡ nat_le n max_members }
{
    n <= MOST
}
