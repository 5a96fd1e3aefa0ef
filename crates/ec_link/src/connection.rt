ghost use Rattle.std.specs.Prelude.{◌≡◌, ◌≤◌, Some, IfOk, OnErr};
ghost use Rattle.ec_base.specs.Causes.{Rose};
ghost use Rattle.ec_link.specs.declared.reply.Reply.TheVariants.{Broken};
ghost use Rattle.ec_link.specs.Link.{talk_after};

use crate::link::Link;
use crate::logged::Logged;
use crate::request::Request;
use ec_base::OutOfMemory;

/// A connection: the link of a taken slot. A rack makes it, and takes it back.
pub struct Conn {
    pub(crate) slot: u32,
    pub(crate) link: Box<dyn Link>,
}

impl Conn {
    ghost use Rattle.ec_link.specs.Conn.{slot_of, link_of};

    /// The number of its slot. It takes no memory.
    pub fn slot(&self) -> u32
        ensures { result ≡ slot_of self.now }
    {
        self.slot
    }

    // Asks the link, and gives the exchange.
    pub(crate) fn exchange(&mut self, request: Request) -> Result<Logged, OutOfMemory>
        ensures slot { slot_of self.new ≡ slot_of self.old }
        ensures stands { IfOk result
            (λ x. (x.slot ≡ Some (slot_of self.old)) × (x.request ≡ request)) }
        ensures told { IfOk result
            (λ x. talk (link_of self.new) ≡ talk_after (talk (link_of self.old)) request x.reply) }
        ensures err { OnErr result (talk (link_of self.new) ≡ talk (link_of self.old)) }
        ensures later { faults (link_of self.old) ≤ faults (link_of self.new) }
        ensures broken { IfOk result
            (λ x. x.reply ≡ Broken → Rose (faults (link_of self.old)) (faults (link_of self.new))) }
    {
        let reply = self.link.ask(&request)?;
        let slot = Some(self.slot);
        Ok(Logged {
            slot,
            request,
            reply,
        })
    }
}
