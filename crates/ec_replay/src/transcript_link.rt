//! A link over what a transcript records of a slot.
ghost use Rattle.std.specs.Prelude.{◌≡◌, ◌≤◌, ◌<◌, [], ◌∷◌, ◌++◌, length, IfOk, OnOk, OnErr, drop, take, if◌then◌else◌};
ghost use Rattle.ec_base.specs.Causes.{Rose, one_more};
ghost use Rattle.ec_link.specs.Link.{talk_after};
ghost use Rattle.ec_link.specs.Logged.{is_slot, talk_of};
ghost use Rattle.ec_replay.specs.Part.{recorded, reply_to, left_after, replaying, after_ask};

use crate::same::is_same;
use ec_base::{List, OutOfMemory};
use ec_link::{Link, Logged, Reply, Request};
use ec_transcript::Transcript;
use std::alloc::Global;
use std::marker::Model;

/// A link that replays what a transcript records of a slot. It tells its talk.
///
/// It gives the recorded replies in order, each to the request that it is recorded for. From the first request on that
/// isn't the next one recorded, because it differs or because none is left, every answer is `Broken`. Its count of
/// faults rises with each `Broken`, also with one that is recorded, and stays at the last value of `u64`.
#[derive(Debug, Drop)]
pub struct TranscriptLink {
    // What was said, and behind it what may be said yet.
    exchanges: List<(Request, Reply)>,
    // How much of that was said.
    given: usize,
    broke: u64,
}

impl Model for TranscriptLink {
    ghost use Rattle.std.specs.Prelude.{◌≤◌, length, drop, take};
    ghost use Rattle.ec_replay.specs.Part.{Replaying};

    ghost Value = { Replaying };

    ghost view = { λ it. record {
      left = drop it.given it.exchanges;
      said = take it.given it.exchanges;
      broke = it.broke;
    } };

    ghost invariant = { λ it. it.given ≤ length it.exchanges };
}

// Whether an exchange was made over a slot.
fn is_of(x: &Logged, slot: u32) -> bool
    ensures { result ≡ is_slot slot x.now.slot }
{
    match x.slot {
        Some(it) => it == slot,
        None => false,
    }
}

// A copy of the exchanges that were made over a slot, in order.
fn part_of(alloc: Global, log: &[Logged], slot: u32) -> Result<List<(Request, Reply)>, OutOfMemory>
    ensures { IfOk result (λ part. part ≡ talk_of slot log.now) }
{
    let mut part = List::new(alloc);
    for x in log {
        if is_of(x, slot) {
            part.push((x.request.clone()?, x.reply.clone()?))?;
        }
    }
    Ok(part)
}

impl TranscriptLink {
    /// A link over the part of a slot, whose number is counted from 0. It takes time as the transcript is long, and
    /// memory as the part is.
    pub fn new(
        alloc: Global,
        transcript: &Transcript,
        slot: u32,
    ) -> Result<TranscriptLink, OutOfMemory>
        requires { slot < length transcript.now.slots }
        ensures { IfOk result (λ link. link ≡ replaying (talk_of slot transcript.now.log)) }
    {
        Ok(TranscriptLink {
            exchanges: part_of(alloc, transcript.log.as_slice(), slot)?,
            given: 0,
            broke: 0,
        })
    }

    /// What was said over the link.
    pub fn said(&self) -> &[(Request, Reply)]
        ensures { result.now ≡ self.now.said }
    {
        &self.exchanges.as_slice()[..self.given]
    }

    /// How often the link broke.
    pub fn broke(&self) -> u64
        ensures { result ≡ self.now.broke }
    {
        self.broke
    }

    // A copy of the reply that is recorded for a request, if the next exchange is of it.
    fn recorded(&self, request: &Request) -> Result<Option<Reply>, OutOfMemory>
        ensures { IfOk result (λ it. it ≡ recorded self.now.left request.now) }
    {
        match self.exchanges.get(self.given) {
            Some((next, reply)) if is_same(next, request) => Ok(Some(reply.clone()?)),
            _ => Ok(None),
        }
    }

    // Puts a request without a recorded reply in the place of all that is left, as one that broke.
    fn differ(&mut self, request: &Request) -> Result<(), OutOfMemory>
        ensures ok { OnOk result
            (self.new ≡ record self.old { left = (request.now, Reply.Broken) ∷ [] }) }
        ensures err { OnErr result (self.new ≡ self.old) }
    {
        let exchange = (request.clone()?, Reply::Broken);
        if self.given < self.exchanges.len() {
            self.exchanges.set(self.given, exchange);
            self.exchanges.truncate(self.given + 1);
            return Ok(());
        }
        self.exchanges.push(exchange)
    }

    // The reply to a request, which is then the next exchange.
    fn answer(&mut self, request: &Request) -> Result<Reply, OutOfMemory>
        ensures reply { IfOk result (λ reply. reply ≡ reply_to self.old.left request.now) }
        ensures next { IfOk result (λ reply. self.new ≡ record self.old {
          left = (request.now, reply) ∷ left_after self.old.left request.now;
        }) }
        ensures err { OnErr result (self.new ≡ self.old) }
    {
        match self.recorded(request)? {
            Some(reply) => Ok(reply),
            None => {
                self.differ(request)?;
                Ok(Reply::Broken)
            }
        }
    }

    // Passes over the next exchange.
    fn pass(&mut self)
        ensures { self.new ≡ record self.old {
          left = drop 1 self.old.left;
          said = self.old.said ++ take 1 self.old.left;
        } }
    {
        if self.given < self.exchanges.len() {
            self.given += 1;
        }
    }

    // Counts an answer that told of a broken connection or not.
    fn count_broken(&mut self, broke: bool)
        ensures counts { self.new ≡ record self.old {
          broke = if broke then one_more self.old.broke else self.old.broke;
        } }
        ensures later { self.old.broke ≤ self.new.broke }
    {
        if broke {
            self.broke = self.broke.saturating_add(1);
        }
    }
}

impl Link for TranscriptLink {
    ghost use Rattle.std.specs.Prelude.{Some};

    ghost talk = { λ it. Some it.said };

    ghost faults = { λ it. it.broke };

    fn ask(&mut self, req: &Request) -> Result<Reply, OutOfMemory>
        ensures told { IfOk result
            (λ reply. Some self.new.said ≡ talk_after (Some self.old.said) req.now reply) }
        ensures err { OnErr result (Some self.new.said ≡ Some self.old.said) }
        ensures later { self.old.broke ≤ self.new.broke }
        ensures broken { IfOk result
            (λ reply. reply ≡ Reply.Broken → Rose self.old.broke self.new.broke) }
        ensures reply { IfOk result (λ reply. reply ≡ reply_to self.old.left req.now) }
        ensures after { OnOk result (self.new ≡ after_ask self.old req.now) }
        ensures same { OnErr result (self.new ≡ self.old) }
    {
        let reply = self.answer(req)?;
        self.pass();
        self.count_broken(reply.is_broken());
        Ok(reply)
    }
}
