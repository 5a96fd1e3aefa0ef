ghost use Rattle.std.specs.Prelude.{◌≡◌, ℕ, List, None, Some, ◌-◌, ◌^◌, ◌<◌, ◌≤◌, [], ◌∷◌, ◌++◌, length, option_copied, IfErr, OnErr, OnOk, IfOk, MatchBool, MatchOption, IfSome, IsSome, option_map, slice_set, take};
ghost use Rattle.ec_link.specs.Conn.{slot_of, link_of};
ghost use Rattle.ec_link.specs.Logged.{IsAsk, growth_of, last_reply_of};
ghost use Rattle.ec_link.specs.Slot.{states};
ghost use Rattle.ec_link.specs.SlotState.{Slots, TakenAt, ready_slot};
ghost use Rattle.ec_link.specs.Told.{told_at, KeepsTalks, SparesDropped};

use crate::connection::Conn;
use crate::link::Link;
use crate::logged::Logged;
use crate::reply::Reply;
use crate::request::Request;
use crate::slot::Slot;
use ec_base::{List, Name, OutOfMemory};
use std::alloc::Global;

/// The links of a program, and the log of what was said over them.
#[derive(Drop)]
pub struct Rack {
    pub(crate) slots: List<Slot>,
    pub(crate) log: List<Logged>,
    ghost numbered: { length slots < 2 ^ 32 },
}

impl Rack {
    ghost use Rattle.ec_link.specs.Rack.{slots_of, log_of};
    ghost use Rattle.ec_link.specs.Calls.{TakesReady, GivesBack, AsksOnce, Asks};

    /// A rack without slots. It takes no memory.
    pub fn new(alloc: Global) -> Rack
        ensures slots { slots_of result ≡ [] }
        ensures log { log_of result ≡ [] }
    {
        Rack {
            slots: List::new(alloc),
            log: List::new(alloc),
        }
    }

    /// The slots.
    pub fn slots(&self) -> &List<Slot>
        ensures { result.now ≡ slots_of self.now }
    {
        &self.slots
    }

    /// What was said, in order.
    pub fn log(&self) -> &List<Logged>
        ensures { result.now ≡ log_of self.now }
    {
        &self.log
    }

    /// The reply of the last exchange, or `None` where nothing was said.
    pub fn last_reply(&self) -> Option<&Reply>
        ensures { option_copied result ≡ last_reply_of (log_of self.now) }
    {
        match self.log.last() {
            Some(logged) => Some(&logged.reply),
            None => None,
        }
    }

    /// Whether a slot is ready.
    pub fn has_ready(&self) -> bool
        ensures { MatchBool result (IsSome (ready_slot (states (slots_of self.now))))
            (ready_slot (states (slots_of self.now)) ≡ None) }
    {
        first_ready(self.slots.as_slice()).is_some()
    }

    /// Adds the link of a program's first connection. For want of memory it is handed back.
    #[tactic(auto, using(std::proofs::lemmas::List::set_at))]
    pub fn add_ready(
        &mut self,
        target: Name,
        link: Box<dyn Link>,
    ) -> Result<(), (Name, Box<dyn Link>)>
        requires first { ready_slot (states (slots_of self.old)) ≡ None }
        requires room { length (slots_of self.old) < 2 ^ 32 - 1 }
        ensures ok { OnOk result
            (slots_of self.new ≡ slots_of self.old ++ Slot.Ready target link ∷ []) }
        ensures err { OnErr result (slots_of self.new ≡ slots_of self.old) }
        ensures handed_back { IfErr result (λ back. back ≡ (target, link)) }
        ensures log { log_of self.new ≡ log_of self.old }
    {
        let Some(at) = self.add_empty() else {
            return Err((target, link));
        };
        self.slots.set(at, Slot::Ready(target, link));
        Ok(())
    }

    /// Adds a link that can be connected. For want of memory it is handed back.
    #[tactic(auto, using(std::proofs::lemmas::List::set_at))]
    pub fn add(&mut self, target: Name, link: Box<dyn Link>) -> Result<(), (Name, Box<dyn Link>)>
        requires { length (slots_of self.old) < 2 ^ 32 - 1 }
        ensures ok { OnOk result
            (slots_of self.new ≡ slots_of self.old ++ Slot.Free target link ∷ []) }
        ensures err { OnErr result (slots_of self.new ≡ slots_of self.old) }
        ensures handed_back { IfErr result (λ back. back ≡ (target, link)) }
        ensures log { log_of self.new ≡ log_of self.old }
    {
        let Some(at) = self.add_empty() else {
            return Err((target, link));
        };
        self.slots.set(at, Slot::Free(target, link));
        Ok(())
    }

    // Adds a slot to be overwritten, and gives its number, or `None` for want of memory.
    fn add_empty(&mut self) -> Option<usize>
        requires { length (slots_of self.old) < 2 ^ 32 - 1 }
        ensures added { MatchOption result (slots_of self.new ≡ slots_of self.old)
            (λ at. (at ≡ length (slots_of self.old))
            × (slots_of self.new ≡ slots_of self.old ++ Slot.Taken [] ∷ [])) }
        ensures log { log_of self.new ≡ log_of self.old }
    {
        let at = self.slots.len();
        let empty = Slot::Taken(Name::new());
        match self.slots.push(empty) {
            Ok(()) => Some(at),
            Err(_) => None,
        }
    }

    /// Takes the link out of the first ready slot, or gives `None` where there is none. It takes no memory.
    pub fn take_ready(&mut self) -> Option<Conn>
        ensures taken { MatchOption result
            ((ready_slot (states (slots_of self.old)) ≡ None)
            × (slots_of self.new ≡ slots_of self.old))
            (TakesReady (slots_of self.old) (slots_of self.new)) }
        ensures now_taken { IfSome result
            (λ conn. TakenAt (states (slots_of self.new)) (slot_of conn)) }
        ensures log { log_of self.new ≡ log_of self.old }
        ensures talks { IfSome result (λ conn.
            KeepsTalks (told_at talk (slots_of self.old) [])
            (told_at talk (slots_of self.new) (conn ∷ [])) []) }
        ensures dropped { SparesDropped (states (slots_of self.old))
            (states (slots_of self.new)) [] }
    {
        let at = first_ready(self.slots.as_slice())?;
        let empty = Slot::Taken(Name::new());
        match self.slots.replace(at, empty) {
            Slot::Ready(name, link) => {
                self.slots.set(at, Slot::Taken(name));
                Some(Conn {
                    slot: at as u32,
                    link,
                })
            }
            _ => unreachable!(),
        }
    }

    /// Asks the server of a connection, and logs the request with its reply.
    ///
    /// There is room for both before the link is asked. After want of memory the link was not asked, or had none
    /// itself.
    pub fn ask(&mut self, conn: &mut Conn, request: Request) -> Result<(), OutOfMemory>
        requires taken { TakenAt (states (slots_of self.old)) (slot_of conn.old) }
        requires asks { IsAsk request }
        ensures slots { slots_of self.new ≡ slots_of self.old }
        ensures slot { slot_of conn.new ≡ slot_of conn.old }
        ensures still_taken { TakenAt (states (slots_of self.new)) (slot_of conn.new) }
        ensures ok { OnOk result
            (AsksOnce talk faults request (log_of self.old) conn.old (log_of self.new) conn.new) }
        ensures err { OnErr result (log_of self.new ≡ log_of self.old) }
        ensures unasked { OnErr result (talk (link_of conn.new) ≡ talk (link_of conn.old)) }
        ensures later { faults (link_of conn.old) ≤ faults (link_of conn.new) }

        // The same as one of many asks, and what follows of the talks and of the slots.
        ensures as_asks { Asks talk faults self.old conn.old self.new conn.new
            (growth_of (log_of self.old) (log_of self.new)) }
        ensures talks { KeepsTalks
            (told_at talk (slots_of self.old) (conn.old ∷ []))
            (told_at talk (slots_of self.new) (conn.new ∷ []))
            (growth_of (log_of self.old) (log_of self.new)) }
        ensures dropped { SparesDropped (states (slots_of self.old))
            (states (slots_of self.new)) (growth_of (log_of self.old) (log_of self.new)) }
        ensures exchanged { Slots (states (slots_of self.old))
            (growth_of (log_of self.old) (log_of self.new)) (states (slots_of self.new)) }
    {
        push_blank(&mut self.log)?;
        match conn.exchange(request) {
            Ok(logged) => {
                set_last(&mut self.log, logged);
                Ok(())
            }
            Err(refused) => {
                drop_last(&mut self.log);
                Err(refused)
            }
        }
    }

    /// Puts the link of a connection back into its slot, which is free again. Nothing is asked. It takes no memory.
    pub fn give_back(&mut self, conn: Conn)
        requires { TakenAt (states (slots_of self.old)) (slot_of conn) }
        ensures given { GivesBack (slots_of self.old) (slots_of self.new) conn }
        ensures log { log_of self.new ≡ log_of self.old }
        ensures talks { KeepsTalks (told_at talk (slots_of self.old) (conn ∷ []))
            (told_at talk (slots_of self.new) []) [] }
        ensures dropped { SparesDropped (states (slots_of self.old))
            (states (slots_of self.new)) [] }
    {
        let Conn { slot, link } = conn;
        let at = slot as usize;
        let empty = Slot::Taken(Name::new());
        match self.slots.replace(at, empty) {
            Slot::Taken(name) => self.slots.set(at, Slot::Free(name, link)),
            _ => unreachable!(),
        }
    }
}

// The number of the first slot that is ready.
fn first_ready(slots: &[Slot]) -> Option<usize>
    ensures first { result ≡ option_map (λ found. found.0) (ready_slot (states slots.now)) }
    ensures within { IfSome result (λ at. at < length slots.now) }
{
    for (at, slot) in slots.iter().enumerate() {
        if slot.is_ready() {
            return Some(at);
        }
    }
    None
}

// Makes room for an exchange, by one that is to be overwritten.
pub(crate) fn push_blank(log: &mut List<Logged>) -> Result<(), OutOfMemory>
    ensures ok { OnOk result ((blank : _) × (log.new ≡ log.old ++ blank ∷ [])) }
    ensures err { OnErr result (log.new ≡ log.old) }
{
    log.push(Logged {
        slot: None,
        request: Request::Close,
        reply: Reply::Broken,
    })
}

// Puts an exchange in the place of the last one.
pub(crate) fn set_last(log: &mut List<Logged>, logged: Logged)
    requires { 0 < length log.old }
    ensures { log.new ≡ slice_set log.old (length log.old - 1) logged }
{
    let last = log.len() - 1;
    log.set(last, logged);
}

// Takes the last exchange away.
pub(crate) fn drop_last(log: &mut List<Logged>)
    ensures { log.new ≡ take (length log.old - 1) log.old }
{
    let _ = log.pop();
}
