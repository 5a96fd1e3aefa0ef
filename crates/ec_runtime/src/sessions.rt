//! The connections of a library.

ghost use Rattle.std.specs.Prelude.{◌≡◌, IfOk, OnOk, OnErr, map, option_map, reverse, None, []};
ghost use Rattle.ec_link.specs.Rack.{slots_of, log_of};
ghost use Rattle.ec_link.specs.Slot.{states};
ghost use Rattle.ec_link.specs.SlotState.{ready_slot};
ghost use Rattle.ec_runtime.specs.Calling.{conns_of, Closes, Holds, Opens};
ghost use Rattle.ec_runtime.specs.Racks.{AllTaken, GivesAll};

use crate::connecting::keep;
use crate::open::Open;
use ec_base::{List, Name, OutOfMemory};
use ec_link::{Rack, Slot, Tx};
use std::alloc::Global;

/// The connections of a library that are open.
///
/// It can't be dropped, since its connections have to be given back.
pub(crate) struct Sessions {
    /// The connections, in the order in which they were opened. No two have one name.
    pub(crate) sessions: Vec<Open>,
    /// The name of the current one.
    pub(crate) current: Option<Name>,
}

/// The name of the first slot that is ready.
fn ready_name(slots: &[Slot]) -> Result<Option<Name>, OutOfMemory>
    ensures { IfOk result (λ name. name
        ≡ option_map (λ found. found.1) (ready_slot (states slots.now))) }
{
    let mut rest = slots;
    while let [slot, more @ ..] = rest {
        if let Slot::Ready(name, _) = slot {
            return Ok(Some(name.clone()?));
        }
        rest = more;
    }
    Ok(None)
}

/// Gives connections back, the one opened last first.
fn give_all(sessions: Vec<Open>, rack: &mut Rack)
    requires { AllTaken (states (slots_of rack.old)) (map (λ o. o.conn) sessions.items) }
    ensures gives { GivesAll (slots_of rack.old) (reverse (map (λ o. o.conn) sessions.items))
        (slots_of rack.new) }
    ensures log { log_of rack.new ≡ log_of rack.old }
{
    let mut sessions = sessions;
    while let Some(session) = sessions.pop() {
        let Open {
            name: _,
            conn,
            autocommit: _,
            told: _,
            prepared: _,
        } = session;
        rack.give_back(conn);
    }
    sessions.destroy_empty();
}

impl Sessions {
    /// No connection. It takes no memory.
    pub(crate) fn new(alloc: Global) -> Sessions
        ensures connections { conns_of result ≡ [] }
        ensures current { result.current ≡ None }
    {
        Sessions {
            sessions: Vec::new(alloc),
            current: None,
        }
    }

    /// Opens the connection that a program begins with: the link of the slot that is ready becomes it, with the target's
    /// name. Autocommit is on, and the server is in no transaction. Where no slot is ready nothing is changed, and so it is
    /// after want of memory.
    pub(crate) fn open_ready(&mut self, rack: &mut Rack) -> Result<(), OutOfMemory>
        requires { conns_of self.old ≡ [] }
        ensures ok { OnOk result (Opens (slots_of rack.old) self.new (slots_of rack.new)) }
        ensures err { OnErr result (slots_of rack.new ≡ slots_of rack.old) }
        ensures unopened { OnErr result (conns_of self.new ≡ []) }
        ensures log { log_of rack.new ≡ log_of rack.old }
        ensures holds { Holds self.new rack.new }
    {
        let alloc = rack.slots().allocator();
        let Some(name) = ready_name(rack.slots().as_slice())? else {
            self.current = None;
            return Ok(());
        };
        let current = name.clone()?;
        self.sessions.reserve(1)?;
        match rack.take_ready() {
            Some(conn) => {
                let session = Open {
                    name,
                    conn,
                    autocommit: true,
                    told: Tx::Idle,
                    prepared: List::new(alloc),
                };
                keep(self, session, current);
                Ok(())
            }
            None => unreachable!(),
        }
    }

    /// Gives the connections back: the slot of each is free again, and nothing is asked.
    pub(crate) fn finish(self, rack: &mut Rack)
        requires { Holds self rack.old }
        ensures closes { Closes (slots_of rack.old) self (slots_of rack.new) }
        ensures log { log_of rack.new ≡ log_of rack.old }
    {
        let Sessions {
            sessions,
            current: _,
        } = self;
        give_all(sessions, rack);
    }
}
