ghost use Rattle.std.specs.Prelude.{◌≡◌, ◌≤◌, [], false, IfOk, OnOk, OnErr, drop, if◌then◌else◌};
ghost use Rattle.ec_base.specs.Causes.{Rose, one_more};
ghost use Rattle.ec_link.specs.Link.{talk_after};
ghost use Rattle.ec_link.specs.MemLink.{breaks_next, refuses_next, next_reply, after_ask, after_refusal};

use crate::link::Link;
use crate::reply::Reply;
use crate::request::Request;
use ec_base::{List, OutOfMemory};
use std::alloc::Global;
use std::marker::Model;

/// A link in memory, which gives the replies of a list in order. It tells its talk.
///
/// Every ask has a number, counted from 0. The asks that are named to break are answered by `Broken`, and take no reply;
/// so are the asks after the last reply. Those that are named to be refused are answered by want of memory, take no
/// reply, and are no part of the talk; of an ask that is named twice that holds. A number that reached the last value of
/// `u64` stays there.
#[derive(Debug, Drop)]
pub struct MemLink {
    replies: List<Reply>,
    given: usize,
    breaks: List<u64>,
    refusals: List<u64>,
    asks: u64,
    said: List<(Request, Reply)>,
    broke: u64,
}

impl Model for MemLink {
    ghost use Rattle.std.specs.Prelude.{drop};
    ghost use Rattle.ec_link.specs.MemLink.{Script};

    ghost Value = { Script };

    ghost view = { λ it. record {
      replies = drop it.given it.replies;
      breaks = it.breaks;
      refusals = it.refusals;
      asks = it.asks;
      said = it.said;
      broke = it.broke;
    } };
}

impl MemLink {
    /// A link that gives these replies, and breaks at the asks with these numbers.
    pub fn new(alloc: Global, replies: List<Reply>, breaks: &[u64]) -> Result<MemLink, OutOfMemory>
        ensures { IfOk result (λ link. link ≡ record {
          replies = replies;
          breaks = breaks.now;
          refusals = [];
          asks = 0;
          said = [];
          broke = 0;
        }) }
    {
        MemLink::with_refusals(alloc, replies, breaks, &[])
    }

    /// A link that gives these replies, breaks at the asks with the first numbers, and finds no memory at those with the
    /// second ones. A number that is in both lists is refused.
    pub fn with_refusals(
        alloc: Global,
        replies: List<Reply>,
        breaks: &[u64],
        refusals: &[u64],
    ) -> Result<MemLink, OutOfMemory>
        ensures { IfOk result (λ link. link ≡ record {
          replies = replies;
          breaks = breaks.now;
          refusals = refusals.now;
          asks = 0;
          said = [];
          broke = 0;
        }) }
    {
        Ok(MemLink {
            replies,
            given: 0,
            breaks: List::from_slice(alloc, breaks)?,
            refusals: List::from_slice(alloc, refusals)?,
            asks: 0,
            said: List::new(alloc),
            broke: 0,
        })
    }

    /// What was said over the link.
    pub fn said(&self) -> &List<(Request, Reply)>
        ensures { result.now ≡ self.now.said }
    {
        &self.said
    }

    /// How often the link broke.
    pub fn broke(&self) -> u64
        ensures { result ≡ self.now.broke }
    {
        self.broke
    }

    // Whether the next ask is named to break.
    fn breaks_next(&self) -> bool
        ensures { result ≡ breaks_next self.now }
    {
        self.breaks.as_slice().contains(&self.asks)
    }

    // Whether the next ask is named to be refused.
    fn refuses_next(&self) -> bool
        ensures { result ≡ refuses_next self.now }
    {
        self.refusals.as_slice().contains(&self.asks)
    }

    // A copy of the reply to the next ask, where it is not refused.
    fn next_reply(&self) -> Result<Reply, OutOfMemory>
        ensures reply { IfOk result (λ reply. reply ≡ next_reply self.now) }
        ensures refused { OnOk result (refuses_next self.now ≡ false) }
    {
        if self.refuses_next() {
            return Err(OutOfMemory);
        }
        if self.breaks_next() {
            return Ok(Reply::Broken);
        }
        match self.replies.get(self.given) {
            Some(reply) => Ok(reply.clone()?),
            None => Ok(Reply::Broken),
        }
    }

    // Passes over the next reply, if there is one.
    #[tactic(auto, using(crate::proofs::Replies::drop_next, crate::proofs::Replies::drop_end))]
    fn pass(&mut self)
        ensures { self.new ≡ record self.old { replies = drop 1 self.old.replies } }
    {
        if self.given < self.replies.len() {
            self.given += 1;
        }
    }

    // Counts an ask.
    fn count(&mut self)
        ensures { self.new ≡ after_refusal self.old }
    {
        self.asks = self.asks.saturating_add(1);
    }

    // Counts an answer that told of a broken connection or not.
    fn count_broken(&mut self, broke: bool)
        ensures counts { self.new ≡ record self.old {
          broke = if broke then one_more self.old.broke else self.old.broke;
        } }
        ensures later { self.old.broke ≤ self.new.broke }
    {
        if broke {
            self.broke = self.broke.saturating_add(1);
        }
    }
}

impl Link for MemLink {
    ghost use Rattle.std.specs.Prelude.{Some};

    ghost talk = { λ it. Some it.said };

    ghost faults = { λ it. it.broke };

    fn ask(&mut self, req: &Request) -> Result<Reply, OutOfMemory>
        ensures told { IfOk result
            (λ reply. Some self.new.said ≡ talk_after (Some self.old.said) req.now reply) }
        ensures err { OnErr result (Some self.new.said ≡ Some self.old.said) }
        ensures later { self.old.broke ≤ self.new.broke }
        ensures broken { IfOk result
            (λ reply. reply ≡ Reply.Broken → Rose self.old.broke self.new.broke) }
        ensures reply { IfOk result (λ reply. reply ≡ next_reply self.old) }
        ensures refused { OnOk result (refuses_next self.old ≡ false) }
        ensures after { OnOk result (self.new ≡ after_ask self.old req.now) }
        ensures counted { OnErr result (self.new ≡ after_refusal self.old) }
    {
        let named = self.breaks_next();
        let answer = self.next_reply();
        self.count();
        let reply = answer?;
        self.said.push((req.clone()?, reply.clone()?))?;
        if !named {
            self.pass();
        }
        self.count_broken(reply.is_broken());
        Ok(reply)
    }
}
