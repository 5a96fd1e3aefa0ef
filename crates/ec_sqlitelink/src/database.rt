//! An open database.

use crate::refusal::{Refusal, Stop};
use crate::sheet::Sheet;
use crate::statement::changes_rows;
use sqlite::types::ValueRef;
use sqlite::{Alter, Connection, Error, File, FileStore, MemStore, Statement};
use std::alloc::Global;

/// What a statement for SQLite came to.
#[derive(Debug, Drop)]
pub enum Outcome {
    /// It showed rows.
    Shown(Sheet),
    /// It changed so many rows.
    Changed(usize),
}

/// A connection to a database in memory or in a file.
#[derive(Drop)]
pub enum Database {
    Memory(Connection<MemStore>),
    File(Connection<FileStore<File>>),
}

impl Database {
    /// An empty database in memory.
    pub fn in_memory(alloc: Global) -> Result<Database, Stop> {
        Ok(Database::Memory(Connection::open_in_memory(alloc)?))
    }

    /// The database in a file, which is made where there is none.
    pub fn in_file(rt: &HostRuntime, path: &str) -> Result<Database, Stop> {
        Ok(Database::File(Connection::open(rt, path)?))
    }

    /// Whether it is in no transaction.
    pub fn is_idle(&self) -> bool {
        match self {
            Database::Memory(conn) => conn.is_autocommit(),
            Database::File(conn) => conn.is_autocommit(),
        }
    }

    /// Runs one statement.
    pub fn run(
        &mut self,
        alloc: Global,
        text: &str,
        params: &[ValueRef<'_>],
    ) -> Result<Outcome, Stop> {
        match self {
            Database::Memory(conn) => run(alloc, conn, text, params),
            Database::File(conn) => run(alloc, conn, text, params),
        }
    }

    /// How many columns the answer of a statement has, which may be 0. It isn't run.
    pub fn columns(&mut self, text: &str) -> Result<usize, Stop> {
        let statement = match self {
            Database::Memory(conn) => conn.prepare(text)?,
            Database::File(conn) => conn.prepare(text)?,
        };
        Ok(statement.column_count())
    }

    /// Closes it, which rolls back its transaction and leaves a file whole.
    pub fn close(self) -> Result<(), Stop> {
        match self {
            Database::Memory(_) => Ok(()),
            Database::File(conn) => Ok(conn.close()?),
        }
    }
}

// Runs one statement. Rows with a float are refused, and what was changed to show them is undone.
fn run<S: Alter>(
    alloc: Global,
    conn: &mut Connection<S>,
    text: &str,
    params: &[ValueRef<'_>],
) -> Result<Outcome, Stop> {
    let statement = conn.prepare(text)?;
    if statement.column_count() == 0 {
        Ok(Outcome::Changed(statement.execute(conn, params)?))
    } else if changes_rows(text.as_bytes()) {
        change_and_show(alloc, conn, &statement, params)
    } else {
        show(alloc, conn, &statement, params)
    }
}

// Runs a statement that shows rows.
fn show<S: Alter>(
    alloc: Global,
    conn: &mut Connection<S>,
    statement: &Statement,
    params: &[ValueRef<'_>],
) -> Result<Outcome, Stop> {
    let rows = statement.query_all(conn, params)?;
    Ok(Outcome::Shown(Sheet::new(alloc, statement.column_names(), rows.as_slice())?))
}

// Runs a statement that changes rows and shows some, behind a savepoint of its own.
fn change_and_show<S: Alter>(
    alloc: Global,
    conn: &mut Connection<S>,
    statement: &Statement,
    params: &[ValueRef<'_>],
) -> Result<Outcome, Stop> {
    conn.execute_batch("SAVEPOINT shown")?;
    let outcome = show_and_keep(alloc, conn, statement, params);
    if outcome.is_err() {
        // After some failures the whole transaction is rolled back already, and the savepoint is gone.
        let _ = conn.execute_batch("ROLLBACK TO shown; RELEASE shown");
    }
    outcome
}

// Runs a statement that shows rows, and keeps what it changed.
fn show_and_keep<S: Alter>(
    alloc: Global,
    conn: &mut Connection<S>,
    statement: &Statement,
    params: &[ValueRef<'_>],
) -> Result<Outcome, Stop> {
    let outcome = show(alloc, conn, statement, params)?;
    conn.execute_batch("RELEASE shown")?;
    Ok(outcome)
}
