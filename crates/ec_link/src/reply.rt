ghost use Rattle.std.specs.Prelude.{◌≡◌};

use crate::copies::list_copy;
use crate::table::Table;
use ec_base::Bytes;
use std::alloc::AllocError;

/// Whether a server is in a transaction.
#[derive(Clone, Copy, Debug, PartialEq, Eq)]
pub enum Tx {
    /// In none.
    Idle,
    /// In one.
    Active,
    /// In one that failed and can only be rolled back.
    Failed,
}

/// A state of the SQL standard: five characters.
#[derive(Clone, Copy, Debug, PartialEq, Eq)]
pub struct SqlState(pub [u8; 5]);

/// What a server answers. A reply without a `tx` leaves the one that was told last.
#[derive(Debug, Drop)]
pub enum Reply {
    /// The connection is open.
    Connected,
    /// There is no such server.
    NoTarget,
    /// The rows of a query, and whether the server gave a notice with them.
    Rows {
        table: Table,
        tx: Tx,
        notice: bool,
    },
    /// A statement without rows is done. The count is there for INSERT, UPDATE and DELETE. The server gave a notice with
    /// it or none.
    Done {
        count: Option<u64>,
        tx: Tx,
        notice: bool,
    },
    /// The server refused the statement.
    Refused {
        state: SqlState,
        message: Bytes,
        tx: Tx,
    },
    /// The connection broke.
    Broken,
}

impl Reply {
    ghost use Rattle.ec_link.specs.Reply.{is_broken, is_connected};

    /// Whether the connection is open.
    pub fn is_connected(&self) -> bool
        ensures { result ≡ is_connected self.now }
    {
        matches!(self, Reply::Connected)
    }

    /// Whether the connection broke.
    pub fn is_broken(&self) -> bool
        ensures { result ≡ is_broken self.now }
    {
        matches!(self, Reply::Broken)
    }
}

impl Clone for Reply {
    ghost is_clone = { λ it copy. copy ≡ it };

    fn clone(&self) -> Result<Reply, AllocError> {
        match self {
            Reply::Connected => Ok(Reply::Connected),
            Reply::NoTarget => Ok(Reply::NoTarget),
            Reply::Rows { table, tx, notice } => Ok(Reply::Rows {
                table: table.clone()?,
                tx: *tx,
                notice: *notice,
            }),
            Reply::Done { count, tx, notice } => Ok(Reply::Done {
                count: *count,
                tx: *tx,
                notice: *notice,
            }),
            Reply::Refused { state, message, tx } => Ok(Reply::Refused {
                state: *state,
                message: list_copy(message)?,
                tx: *tx,
            }),
            Reply::Broken => Ok(Reply::Broken),
        }
    }
}
