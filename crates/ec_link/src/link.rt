ghost use Rattle.std.specs.Prelude.{ℕ, List, ◌≡◌, ◌≤◌, IfOk, OnErr};
ghost use Rattle.std.specs.declared.option.Option.{Option};
ghost use Rattle.ec_base.specs.Causes.{Rose};
ghost use Rattle.ec_link.specs.Link.{talk_after};

use crate::reply::Reply;
use crate::request::Request;
use ec_base::OutOfMemory;

/// A connection to a server, as the rack sees it.
pub trait Link: Drop {
    ghost use Rattle.ec_link.specs.declared.request.Request.{Request};
    ghost use Rattle.ec_link.specs.declared.reply.Reply.{Reply};

    /// What was said over the link: each request with its reply, in order, where the link tells it.
    ghost talk: { Self → Option (List (Request × Reply)) };

    /// How often the link broke. The count never falls, and stays at the last value of `u64`.
    ghost faults: { Self → ℕ };

    /// Asks the server, and gives its reply.
    ///
    /// After want of memory nothing was said.
    fn ask(&mut self, req: &Request) -> Result<Reply, OutOfMemory>
        ensures told { IfOk result
            (λ reply. talk self.new ≡ talk_after (talk self.old) req.now reply) }
        ensures err { OnErr result (talk self.new ≡ talk self.old) }
        ensures later { faults self.old ≤ faults self.new }
        ensures broken { IfOk result
            (λ reply. reply ≡ Reply.Broken → Rose (faults self.old) (faults self.new)) };
}
