//! The slot that a run is connected to when it begins.

ghost use Rattle.std.specs.Prelude.{◌≡◌, ◌≤◌, ◌<◌, ◌^◌, IfOk, length};
ghost use Rattle.ec_link.specs.Slot.{states};
ghost use Rattle.ec_link.specs.SlotState.{ready_slot};
ghost use Rattle.ec_stepper.specs.Ready.{ready_view};

use ec_base::{Name, OutOfMemory};
use ec_link::Slot;

/// A slot, and the name of its server.
#[derive(Drop)]
pub struct Ready {
    pub slot: u32,
    pub name: Name,
}

/// The first slot that is ready.
pub(crate) fn first_ready(slots: &[Slot]) -> Result<Option<Ready>, OutOfMemory>
    requires { length slots.now < 2 ^ 32 }
    ensures { IfOk result (λ found. ready_view found ≡ ready_slot (states slots.now)) }
{
    let mut rest = slots;
    let mut number = 0;
    while let [slot, more @ ..] = rest {
        if let Slot::Ready(name, _) = slot {
            return Ok(Some(Ready {
                slot: number,
                name: name.clone()?,
            }));
        }
        rest = more;
        number += 1;
    }
    Ok(None)
}
