// How connections are opened and closed.
ghost use Rattle.std.specs.Prelude.{◌≡◌, ◌≢◌, None, ◌≤◌, ◌<◌, [], ◌∷◌, Some, length, IfErr, IfOk, IfSome, IsSomeAnd, MatchOption, OnErr, OnOk, slice_get, slice_set};
ghost use Rattle.ec_link.specs.Conn.{slot_of, link_of, opened, handed_back};
ghost use Rattle.ec_link.specs.Logged.{IsConnect, growth_of, last_reply_of, target_of};
ghost use Rattle.ec_link.specs.Rack.{slots_of, log_of};
ghost use Rattle.ec_link.specs.Reply.{is_connected};
ghost use Rattle.ec_link.specs.Slot.{states};
ghost use Rattle.ec_link.specs.SlotState.{Slots, TakenAt, free_slot};
ghost use Rattle.ec_link.specs.Told.{told_at, KeepsTalks, SparesDropped};
ghost use Rattle.ec_link.specs.declared.reply.Reply.TheVariants.{Connected};

use crate::connection::Conn;
use crate::link::Link;
use crate::logged::Logged;
use crate::rack::{Rack, drop_last, push_blank, set_last};
use crate::reply::Reply;
use crate::request::Request;
use crate::slot::Slot;
use ec_base::{Name, OutOfMemory};

impl Rack {
    ghost use Rattle.ec_link.specs.Calls.{TakesFree, DropsSlot, Connects, OpensNone, Unsaid, Closes};

    /// Asks the first free link of a server to open a connection, and logs the request with its reply.
    ///
    /// The link of the answer said that the connection is open, and its slot is taken. Another answer than `Connected`
    /// leaves the link in its slot, and without such a slot `NoTarget` is logged. There is room for the exchange before
    /// the link is asked. After want of memory nothing was said.
    pub fn connect(&mut self, request: Request) -> Result<Option<Conn>, OutOfMemory>
        requires { IsConnect request }
        ensures ok { IfOk result (λ answer. MatchOption answer
            (OpensNone talk faults request self.old self.new)
            (Connects talk faults request self.old self.new)) }
        ensures err { OnErr result (Unsaid talk faults request self.old self.new) }

        // What follows of the connection, of the last reply, of the talks and of the slots.
        ensures now_taken { IfOk result (λ answer. IfSome answer
            (λ conn. TakenAt (states (slots_of self.new)) (slot_of conn))) }
        ensures last { IfOk result (λ answer. IsSomeAnd (last_reply_of (log_of self.new))
            (λ reply. MatchOption answer (reply ≢ Connected) (λ _. reply ≡ Connected))) }
        ensures talks { KeepsTalks (told_at talk (slots_of self.old) [])
            (told_at talk (slots_of self.new) (opened result))
            (growth_of (log_of self.old) (log_of self.new)) }
        ensures dropped { SparesDropped (states (slots_of self.old))
            (states (slots_of self.new)) (growth_of (log_of self.old) (log_of self.new)) }
        ensures exchanged { Slots (states (slots_of self.old))
            (growth_of (log_of self.old) (log_of self.new)) (states (slots_of self.new)) }
    {
        push_blank(&mut self.log)?;
        let Some(mut conn) = self.take_free(request.target()) else {
            set_last(
                &mut self.log,
                Logged {
                    slot: None,
                    request,
                    reply: Reply::NoTarget,
                },
            );
            return Ok(None);
        };
        match conn.exchange(request) {
            Ok(logged) => {
                let connected = logged.reply.is_connected();
                set_last(&mut self.log, logged);
                if connected {
                    return Ok(Some(conn));
                }
                self.give_back(conn);
                Ok(None)
            }
            Err(refused) => {
                drop_last(&mut self.log);
                self.give_back(conn);
                Err(refused)
            }
        }
    }

    /// Asks the server of a connection to close it, logs that with the reply, and lets the link go, whatever the reply.
    /// The slot is not used again.
    ///
    /// There is room for the exchange before the link is asked. For want of memory nothing was said, and the connection
    /// is handed back.
    pub fn close(&mut self, conn: Conn) -> Result<(), Conn>
        requires { TakenAt (states (slots_of self.old)) (slot_of conn) }
        ensures ok { OnOk result (Closes talk faults self.old conn self.new) }
        ensures slots { OnErr result (slots_of self.new ≡ slots_of self.old) }
        ensures log { OnErr result (log_of self.new ≡ log_of self.old) }
        ensures slot { IfErr result (λ back. slot_of back ≡ slot_of conn) }
        ensures unasked { IfErr result (λ back. talk (link_of back) ≡ talk (link_of conn)) }
        ensures later { IfErr result (λ back. faults (link_of conn) ≤ faults (link_of back)) }

        // What follows of the connection, of the talks and of the slots.
        ensures still_taken { IfErr result
            (λ back. TakenAt (states (slots_of self.new)) (slot_of back)) }
        ensures talks { KeepsTalks (told_at talk (slots_of self.old) (conn ∷ []))
            (told_at talk (slots_of self.new) (handed_back result))
            (growth_of (log_of self.old) (log_of self.new)) }
        ensures dropped { SparesDropped (states (slots_of self.old))
            (states (slots_of self.new)) (growth_of (log_of self.old) (log_of self.new)) }
        ensures exchanged { Slots (states (slots_of self.old))
            (growth_of (log_of self.old) (log_of self.new)) (states (slots_of self.new)) }
    {
        let mut conn = conn;
        let Ok(()) = push_blank(&mut self.log) else {
            return Err(conn);
        };
        match conn.exchange(Request::Close) {
            Ok(logged) => {
                set_last(&mut self.log, logged);
                self.drop_link(conn);
                Ok(())
            }
            Err(_) => {
                drop_last(&mut self.log);
                Err(conn)
            }
        }
    }

    // Takes the link out of the first slot that is free for a server, or gives `None` where there is none.
    fn take_free(&mut self, target: &[u8]) -> Option<Conn>
        ensures taken { MatchOption result
            ((free_slot target.now (states (slots_of self.old)) ≡ None)
            × (slots_of self.new ≡ slots_of self.old))
            (TakesFree target.now (slots_of self.old) (slots_of self.new)) }
        ensures now_taken { IfSome result
            (λ conn. TakenAt (states (slots_of self.new)) (slot_of conn)) }
        ensures log { log_of self.new ≡ log_of self.old }
    {
        let at = first_free(self.slots.as_slice(), target)?;
        let empty = Slot::Taken(Name::new());
        match self.slots.replace(at, empty) {
            Slot::Free(name, link) => {
                self.slots.set(at, Slot::Taken(name));
                Some(Conn {
                    slot: at as u32,
                    link,
                })
            }
            _ => unreachable!(),
        }
    }

    // Lets the link of a connection go. Its slot was taken.
    fn drop_link(&mut self, conn: Conn)
        requires { TakenAt (states (slots_of self.old)) (slot_of conn) }
        ensures slots { DropsSlot (slot_of conn) (slots_of self.old) (slots_of self.new) }
        ensures log { log_of self.new ≡ log_of self.old }
    {
        let Conn { slot, link: _ } = conn;
        let at = slot as usize;
        let empty = Slot::Taken(Name::new());
        match self.slots.replace(at, empty) {
            Slot::Taken(name) => self.slots.set(at, Slot::Dropped(name)),
            _ => unreachable!(),
        }
    }
}

// The number of the first slot that is free for a server.
fn first_free(slots: &[Slot], target: &[u8]) -> Option<usize>
    ensures first { result ≡ free_slot target.now (states slots.now) }
    ensures within { IfSome result (λ at. at < length slots.now) }
{
    for (at, slot) in slots.iter().enumerate() {
        if slot.is_free(target) {
            return Some(at);
        }
    }
    None
}
