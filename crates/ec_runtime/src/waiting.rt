//! A call whose request waits for its answer.

use crate::order::Outputs;
use ec_base::{Bytes, Line, Name};
use ec_link::Request;

/// What a call does behind the answer to a request over a connection.
#[derive(Debug, Drop)]
pub(crate) enum Behind {
    /// `begin transaction` was due before this request of a statement, whose rows go there.
    Begun { request: Request, outputs: Outputs },
    /// The rows of a statement go there.
    Replied(Outputs),
    Controlled,
    /// Autocommit is set behind `commit`.
    Committed(bool),
    /// A text is kept under its name.
    Kept { name: Name, text: Bytes },
    /// The text under a name is forgotten.
    Forgotten(Name),
}

/// Where a request goes, and what is done with its answer.
#[derive(Debug, Drop)]
pub(crate) enum Waits {
    /// Over the connection at a place.
    Over { at: usize, behind: Behind },
    /// For a connection of this name.
    Connecting(Name),
    /// The connection at a place is closed.
    ClosingOne(usize),
    /// The connection that was opened last is closed, and then the others.
    ClosingAll,
}

/// A request that waits for its answer.
#[derive(Debug, Drop)]
pub(crate) struct Waiting {
    pub(crate) request: Request,
    pub(crate) waits: Waits,
}

/// A call whose request waits.
#[derive(Debug, Drop)]
pub(crate) struct UnderWay {
    /// The line that is told with its codes.
    pub(crate) line: Line,
    pub(crate) waiting: Waiting,
}
