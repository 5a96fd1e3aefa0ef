ghost use Rattle.std.specs.Prelude.{◌≡◌};
ghost use Rattle.ec_link.specs.SlotState.{is_free, is_ready};

use crate::link::Link;
use ec_base::Name;

/// A place for a link in a rack, with the name of its server.
#[derive(Drop)]
pub enum Slot {
    /// The link can be connected.
    Free(Name, Box<dyn Link>),
    /// The link is a program's first connection.
    Ready(Name, Box<dyn Link>),
    /// The link is in a connection.
    Taken(Name),
    /// The link was closed.
    Dropped(Name),
}

impl Slot {
    ghost use Rattle.ec_link.specs.Slot.{state_of};

    /// Whether the link is a program's first connection, and was not taken.
    pub fn is_ready(&self) -> bool
        ensures { result ≡ is_ready (state_of self.now) }
    {
        matches!(self, Slot::Ready(..))
    }

    /// Whether the link can be connected, and its server has that name.
    pub fn is_free(&self, target: &[u8]) -> bool
        ensures { result ≡ is_free target.now (state_of self.now) }
    {
        match self {
            Slot::Free(name, _) => name.as_slice() == target,
            _ => false,
        }
    }
}
