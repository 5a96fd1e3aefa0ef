//! A session with a database: what it has prepared, its cursors, and the answers to requests.

use crate::bound::{bound, bound_whole, has_whole};
use crate::control::Control;
use crate::cursor::Cursor;
use crate::database::{Database, Outcome};
use crate::marks::with_marks;
use crate::refusal::{Refusal, Stop};
use crate::sheet::Sheet;
use crate::statement::{Amount, Statement, read_statement};
use ec_base::{Bytes, OutOfMemory};
use ec_link::{Request, Table, Tx};
use std::alloc::Global;

/// Where a database is.
#[derive(Drop)]
pub enum Location {
    /// In memory.
    Memory,
    /// In the file at a path.
    File(HostRuntime, String),
    /// In a file whose path is no text.
    Nowhere,
}

/// What a request is answered with, if it is done.
#[derive(Debug, Drop)]
pub enum Answer {
    Connected,
    Rows(Table),
    Done(Option<u64>),
}

// A text under a name, with its marks written for SQLite.
#[derive(Debug, Drop)]
struct Prepared {
    name: Bytes,
    text: Bytes,
}

/// A session. Its database is opened at the first request.
#[derive(Drop)]
pub struct Session {
    alloc: Global,
    location: Location,
    database: Option<Database>,
    prepared: Vec<Prepared>,
    cursors: Vec<Cursor>,
}

impl Session {
    /// A session with a database that is not opened.
    pub fn new(alloc: Global, location: Location) -> Session {
        Session {
            alloc,
            location,
            database: None,
            prepared: Vec::new(alloc),
            cursors: Vec::new(alloc),
        }
    }

    /// The allocator that it takes its memory from.
    pub fn allocator(&self) -> Global {
        self.alloc
    }

    /// Whether the database is in a transaction.
    pub fn tx(&self) -> Tx {
        match &self.database {
            Some(database) if !database.is_idle() => Tx::Active,
            _ => Tx::Idle,
        }
    }

    /// Does what is asked.
    pub fn answer(&mut self, req: &Request) -> Result<Answer, Stop> {
        let database = self.open()?;
        if let Request::Close = req {
            return self.close(database);
        }
        let mut database = database;
        let answer = self.ask(&mut database, req);
        self.database = Some(database);
        answer
    }

    // Takes the database, which is opened where it isn't open.
    fn open(&mut self) -> Result<Database, Stop> {
        if let Some(database) = self.database.take() {
            return Ok(database);
        }
        match &self.location {
            Location::Memory => Database::in_memory(self.alloc),
            Location::File(rt, path) => Database::in_file(rt, path.as_str()),
            Location::Nowhere => Err(Stop::Disk),
        }
    }

    // Closes the database.
    fn close(&mut self, database: Database) -> Result<Answer, Stop> {
        self.prepared.clear();
        self.cursors.clear();
        database.close()?;
        Ok(Answer::Done(None))
    }

    // Does what is asked other than to close.
    fn ask(&mut self, database: &mut Database, req: &Request) -> Result<Answer, Stop> {
        match req {
            Request::Connect { .. } => self.connect(database),
            Request::Text { text, params } => {
                let text = with_marks(self.alloc, text.as_slice())?;
                self.run(database, text.as_slice(), params.as_slice())
            }
            Request::Prepare { name, text } => self.prepare(
                database,
                name.as_slice(),
                text.as_slice(),
            ),
            Request::Exec { name, params } => {
                let text = self.prepared_text(name.as_slice())?;
                self.run(database, text.as_slice(), params.as_slice())
            }
            Request::Deallocate { name } => self.deallocate(name.as_slice()),
            Request::Close => Ok(Answer::Done(None)),
        }
    }

    // A new connection: what another one left is forgotten and rolled back.
    fn connect(&mut self, database: &mut Database) -> Result<Answer, Stop> {
        self.prepared.clear();
        self.cursors.clear();
        if !database.is_idle() {
            database.run(self.alloc, "ROLLBACK", &[])?;
        }
        Ok(Answer::Connected)
    }

    // Runs a statement, whose marks are written for SQLite.
    fn run(
        &mut self,
        database: &mut Database,
        text: &[u8],
        params: &[Option<Bytes>],
    ) -> Result<Answer, Stop> {
        match read_statement(text) {
            Statement::Declare {
                name,
                is_held,
                query,
            } => self.declare(database, name, is_held, query, params),
            Statement::Fetch { name, amount } => self.fetch(name, amount),
            Statement::Close { name } => self.forget(name),
            Statement::LeftOut => Err(Stop::Refused(Refusal::LeftOut)),
            Statement::Control(_) if !params.is_empty() => {
                Err(Stop::Refused(Refusal::Parameters))
            }
            Statement::Control(control) => self.control(database, control),
            Statement::Plain { is_counted } => self.run_plain(database, text, is_counted, params),
        }
    }

    // Does what is asked of transactions, as PostgreSQL does: where one is open none begins, and where none is open none
    // ends, which is no error; a chain and savepoints need one.
    fn control(&mut self, database: &mut Database, control: Control<'_>) -> Result<Answer, Stop> {
        match (control, database.is_idle()) {
            (Control::Begin, true) => self.step(database, b"BEGIN")?,
            (Control::Commit { chain }, false) => self.end(database, b"COMMIT", chain)?,
            (Control::Rollback { chain }, false) => self.end(database, b"ROLLBACK", chain)?,
            (Control::Savepoint(name), false) => self.point(database, b"SAVEPOINT ", name)?,
            (Control::RollbackTo(name), false) => self.point(database, b"ROLLBACK TO ", name)?,
            (Control::Release(name), false) => self.point(database, b"RELEASE ", name)?,
            (
                Control::Begin
                | Control::Commit { chain: false }
                | Control::Rollback { chain: false },
                _,
            ) => {}
            _ => return Err(Stop::Refused(Refusal::NoTransaction)),
        }
        Ok(Answer::Done(None))
    }

    // Ends the transaction, and begins the next one where they are chained.
    fn end(&mut self, database: &mut Database, text: &[u8], chain: bool) -> Result<(), Stop> {
        self.step(database, text)?;
        if chain {
            self.step(database, b"BEGIN")?;
        }
        Ok(())
    }

    // Runs a statement on the savepoint with that name.
    fn point(&mut self, database: &mut Database, text: &[u8], name: &[u8]) -> Result<(), Stop> {
        let text = with_name(self.alloc, text, name)?;
        self.step(database, text.as_slice())
    }

    // Runs a statement of SQLite that shows nothing.
    fn step(&mut self, database: &mut Database, text: &[u8]) -> Result<(), Stop> {
        let _ = self.outcome(database, text, &[])?;
        Ok(())
    }

    // What a statement of SQLite comes to. Cursors end with their transaction.
    fn outcome(
        &mut self,
        database: &mut Database,
        text: &[u8],
        params: &[Option<Bytes>],
    ) -> Result<Outcome, Stop> {
        let was_idle = database.is_idle();
        let outcome = run_twice(self.alloc, database, as_text(text)?, params);
        if !was_idle && database.is_idle() {
            self.end_cursors();
        }
        outcome
    }

    // Runs a statement of SQLite.
    fn run_plain(
        &mut self,
        database: &mut Database,
        text: &[u8],
        is_counted: bool,
        params: &[Option<Bytes>],
    ) -> Result<Answer, Stop> {
        match self.outcome(database, text, params)? {
            Outcome::Shown(sheet) => Ok(Answer::Rows(sheet.into_table()?)),
            Outcome::Changed(count) if is_counted => Ok(Answer::Done(Some(count as u64))),
            Outcome::Changed(_) => Ok(Answer::Done(None)),
        }
    }

    // Forgets the cursors that end with their transaction.
    fn end_cursors(&mut self) {
        self.cursors.retain(|cursor| !cursor.ends());
    }

    // The place of the cursor with that name.
    fn cursor_at(&self, name: &[u8]) -> Result<usize, Stop> {
        match self.cursors.iter().position(|cursor| cursor.is_named(name)) {
            Some(at) => Ok(at),
            None => Err(Stop::Refused(Refusal::NoCursor)),
        }
    }

    // Declares a cursor, and keeps its whole answer.
    fn declare(
        &mut self,
        database: &mut Database,
        name: &[u8],
        is_held: bool,
        query: &[u8],
        params: &[Option<Bytes>],
    ) -> Result<Answer, Stop> {
        if self.cursor_at(name).is_ok() {
            return Err(Stop::Refused(Refusal::CursorExists));
        }
        let answer = self.query(database, query, params)?;
        let ends = !is_held && !database.is_idle();
        let cursor = Cursor::new(self.alloc, name, ends, answer)?;
        self.cursors.push(cursor)?;
        Ok(Answer::Done(None))
    }

    // The answer of a query. Another statement isn't run.
    fn query(
        &mut self,
        database: &mut Database,
        query: &[u8],
        params: &[Option<Bytes>],
    ) -> Result<Sheet, Stop> {
        if database.columns(as_text(query)?)? == 0 {
            return Err(Stop::Refused(Refusal::NoQuery));
        }
        match self.outcome(database, query, params)? {
            Outcome::Shown(sheet) => Ok(sheet),
            Outcome::Changed(_) => Err(Stop::Refused(Refusal::NoQuery)),
        }
    }

    // Takes rows of a cursor.
    fn fetch(&mut self, name: &[u8], amount: Amount) -> Result<Answer, Stop> {
        let alloc = self.alloc;
        let at = self.cursor_at(name)?;
        match self.cursors.get_mut(at) {
            Some(cursor) => Ok(Answer::Rows(cursor.fetch(alloc, amount)?)),
            None => Err(Stop::Refused(Refusal::NoCursor)),
        }
    }

    // Forgets a cursor.
    fn forget(&mut self, name: &[u8]) -> Result<Answer, Stop> {
        let _ = self.cursor_at(name)?;
        self.cursors.retain(|cursor| !cursor.is_named(name));
        Ok(Answer::Done(None))
    }

    // Prepares a text, in place of one of that name. SQLite has to take it as it stands.
    fn prepare(
        &mut self,
        database: &mut Database,
        name: &[u8],
        text: &[u8],
    ) -> Result<Answer, Stop> {
        let text = with_marks(self.alloc, text)?;
        if let Statement::Plain { .. } = read_statement(text.as_slice()) {
            let _ = database.columns(as_text(text.as_slice())?)?;
        }
        let entry = Prepared {
            name: Bytes::from_slice(self.alloc, name)?,
            text,
        };
        self.prepared.retain(|it| it.name.as_slice() != name);
        self.prepared.push(entry)?;
        Ok(Answer::Done(None))
    }

    // A copy of the text that is prepared under a name.
    fn prepared_text(&self, name: &[u8]) -> Result<Bytes, Stop> {
        match self.prepared.iter().find(|it| it.name.as_slice() == name) {
            Some(entry) => Ok(entry.text.clone()?),
            None => Err(Stop::Refused(Refusal::NotPrepared)),
        }
    }

    // Forgets what is prepared under a name.
    fn deallocate(&mut self, name: &[u8]) -> Result<Answer, Stop> {
        let before = self.prepared.len();
        self.prepared.retain(|it| it.name.as_slice() != name);
        if self.prepared.len() == before {
            return Err(Stop::Refused(Refusal::NotPrepared));
        }
        Ok(Answer::Done(None))
    }
}

// Runs a statement, with its parameters as texts. Where it is refused for a mismatch of types, which leaves the database as
// it was, it is run once more, with those that are whole numbers as numbers.
fn run_twice(
    alloc: Global,
    database: &mut Database,
    text: &str,
    params: &[Option<Bytes>],
) -> Result<Outcome, Stop> {
    let texts = bound(alloc, params)?;
    match database.run(alloc, text, texts.as_slice()) {
        Err(Stop::Refused(refusal)) if refusal.is_mismatch() && has_whole(params) => {
            let numbers = bound_whole(alloc, params)?;
            database.run(alloc, text, numbers.as_slice())
        }
        outcome => outcome,
    }
}

// A statement on a name, which is written in quotes, since any word may be one.
fn with_name(alloc: Global, text: &[u8], name: &[u8]) -> Result<Bytes, OutOfMemory> {
    let mut written = Bytes::from_slice(alloc, text)?;
    written.push(b'"')?;
    written.extend_from_slice(name)?;
    written.push(b'"')?;
    Ok(written)
}

// The text as SQLite takes it.
fn as_text(text: &[u8]) -> Result<&str, Stop> {
    match std::str::from_utf8(text) {
        Ok(text) => Ok(text),
        Err(_) => Err(Stop::Refused(Refusal::NoText)),
    }
}
