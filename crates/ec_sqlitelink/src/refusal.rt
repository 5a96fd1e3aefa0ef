//! Why a request is not done.
ghost use Rattle.std.specs.Prelude.{◌≡◌, IfOk};

use ec_base::{Bytes, OutOfMemory};
use ec_link::SqlState;
use sqlite::{Constraint, Error, ErrorCode};
use sqlite_resolve::CompileError;
use std::alloc::{AllocError, AllocFailed, Global};
use std::fmt;

/// The state of a key that is there already: `unique_violation`.
const REPEATED_KEY: SqlState = SqlState(*b"23505");

/// The state of everything else: `internal_error`.
const REFUSED: SqlState = SqlState(*b"XX000");

/// What the server refuses.
#[derive(Clone, Copy, Debug)]
pub enum Refusal {
    /// SQLite refused the statement.
    Sqlite(Error),
    /// The text is not UTF-8.
    NoText,
    /// An answer has a float.
    Float,
    /// Rows of an answer have not as many fields as it has columns.
    Ragged,
    /// A cursor is declared for a statement that is no query.
    NoQuery,
    /// A form of DECLARE, FETCH or CLOSE that is left out.
    LeftOut,
    /// A cursor of that name is there.
    CursorExists,
    /// No cursor has that name.
    NoCursor,
    /// No prepared statement has that name.
    NotPrepared,
    /// A savepoint or a chain outside of a transaction.
    NoTransaction,
    /// Transaction control has parameters.
    Parameters,
}

impl Refusal {
    /// The state that is told.
    pub fn state(&self) -> SqlState {
        match self {
            Refusal::Sqlite(
                Error::SqliteFailure(
                    ErrorCode::ConstraintViolation(Constraint::PrimaryKey | Constraint::Unique),
                ),
            ) => REPEATED_KEY,
            _ => REFUSED,
        }
    }

    /// Whether a value has a type that SQLite would convert, and the crate doesn't.
    pub fn is_mismatch(&self) -> bool {
        matches!(
            self,
            Refusal::Sqlite(Error::SqliteFailure(ErrorCode::TypeMismatch))
        )
    }

    /// The message that is told.
    pub fn message(&self, alloc: Global) -> Result<Bytes, OutOfMemory> {
        let text = format!(in alloc; "{self}")?;
        Bytes::from_slice(alloc, text.as_bytes())
    }
}

impl fmt::Display for Refusal {
    fn fmt<W: fmt::Write>(&self, f: &mut fmt::Formatter<W>) -> fmt::Result {
        f.write_str(match self {
            Refusal::Sqlite(error) => return error.fmt(f),
            Refusal::NoText => "the statement is not UTF-8",
            Refusal::Float => "the answer has a float",
            Refusal::Ragged => "the rows of the answer have different lengths",
            Refusal::NoQuery => "a cursor needs a query",
            Refusal::LeftOut => "this form of a cursor statement is left out",
            Refusal::CursorExists => "the cursor exists already",
            Refusal::NoCursor => "no such cursor",
            Refusal::NotPrepared => "no such prepared statement",
            Refusal::NoTransaction => "it can only be used in a transaction",
            Refusal::Parameters => "transaction control takes no parameters",
        })
    }
}

/// Why a request has no answer of SQLite.
#[derive(Clone, Copy, Debug)]
pub enum Stop {
    /// It is refused.
    Refused(Refusal),
    /// The disk does not give or take what is needed.
    Disk,
    /// There was no memory left.
    OutOfMemory,
}

impl From<Error> for Stop {
    fn from(error: Error) -> Stop {
        match error {
            Error::SqliteFailure(ErrorCode::OutOfMemory)
            | Error::SqlInputError(CompileError::OutOfMemory) => Stop::OutOfMemory,
            Error::SqliteFailure(
                ErrorCode::CannotOpen
                | ErrorCode::SystemIoFailure
                | ErrorCode::DiskFull
                | ErrorCode::Closed,
            ) => Stop::Disk,
            _ => Stop::Refused(Refusal::Sqlite(error)),
        }
    }
}

impl From<Refusal> for Stop {
    fn from(refusal: Refusal) -> Stop {
        Stop::Refused(refusal)
    }
}

impl From<OutOfMemory> for Stop {
    fn from(_refused: OutOfMemory) -> Stop {
        Stop::OutOfMemory
    }
}

impl From<AllocError> for Stop {
    fn from(_refused: AllocError) -> Stop {
        Stop::OutOfMemory
    }
}

impl<T: Drop> From<AllocFailed<T>> for Stop {
    fn from(_refused: AllocFailed<T>) -> Stop {
        Stop::OutOfMemory
    }
}
