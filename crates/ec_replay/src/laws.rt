//! Laws of links that replay.
ghost use Rattle.ec_replay.specs.Laws.{IsEquality, SaysAgain, BreaksOff, TellsTalk};

/// Over the part of a slot, the requests that are recorded get the recorded replies; from the first one on that differs
/// each is answered by `Broken`; and a link tells what is so said over its part.
pub fn links_replay()
    ensures equality { IsEquality }
    ensures again { SaysAgain }
    ensures breaks { BreaksOff }
    ensures told { TellsTalk }
{}
