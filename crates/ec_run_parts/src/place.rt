//! The slots of a row, each with the link that is made for it.

use crate::line::{Word, cut, first_field, number, quoted, unescaped, word_of};
use crate::setup::{Stop, set_numbers};
use ec_base::{Bytes, List, Name};
use ec_link::{Col, MemLink, Reply, Row, SqlState, Table, Tx};
use std::alloc::Global;
use std::mem;

/// A slot: whether it is ready, its name, the replies of its link, and the asks that break and that are refused.
#[derive(Drop)]
pub struct Place {
    pub ready: bool,
    pub name: Name,
    pub breaks: List<u64>,
    pub refusals: List<u64>,
    replies: List<Reply>,
    // Rows of which not all lines are taken: the state, and whether there is a notice.
    open: Option<(Tx, bool)>,
    cols: List<Col>,
    rows: List<Row>,
}

// The state that a letter names.
fn told(word: &[u8]) -> Option<Tx> {
    match word.first() {
        Some(b'I') => Some(Tx::Idle),
        Some(b'A') => Some(Tx::Active),
        Some(b'F') => Some(Tx::Failed),
        _ => None,
    }
}

// Whether a reply ends with a notice.
fn noticed(word: &[u8]) -> Option<bool> {
    match word_of(word) {
        Some(Word::Notice) => Some(true),
        _ => { if word.is_empty() { Some(false) } else { None } }
    }
}

// The state of the standard that a word is.
fn state(word: &[u8]) -> Option<SqlState> {
    match (
        word.first(),
        word.get(1),
        word.get(2),
        word.get(3),
        word.get(4),
    ) {
        (Some(a), Some(b), Some(c), Some(d), Some(e)) => Some(SqlState([*a, *b, *c, *d, *e])),
        _ => None,
    }
}

impl Place {
    /// A slot whose link has no replies.
    pub fn new(alloc: Global, ready: bool, name: Name) -> Place {
        Place {
            ready,
            name,
            breaks: List::new(alloc),
            refusals: List::new(alloc),
            replies: List::new(alloc),
            open: None,
            cols: List::new(alloc),
            rows: List::new(alloc),
        }
    }

    // Makes a reply of the rows that are open.
    fn close(&mut self) -> Result<(), Stop> {
        let alloc = self.replies.allocator();
        if let Some((tx, notice)) = self.open.take() {
            let cols = mem::replace(&mut self.cols, List::new(alloc));
            let rows = mem::replace(&mut self.rows, List::new(alloc));
            let table = Table::new(cols, rows).ok_or(Stop::Form)?;
            self.replies.push(Reply::Rows { table, tx, notice })?;
        }
        Ok(())
    }

    /// Takes a line that belongs to the slot.
    pub fn take(&mut self, alloc: Global, word: Word, rest: &[u8]) -> Result<(), Stop> {
        match word {
            Word::Breaks => set_numbers(alloc, &mut self.breaks, rest),
            Word::Refusals => set_numbers(alloc, &mut self.refusals, rest),
            Word::Reply => self.reply(alloc, rest),
            Word::Column => self.col(alloc, rest),
            Word::Fields => self.row(alloc, rest),
            _ => Err(Stop::Form),
        }
    }

    // Puts a reply behind the others.
    fn add(&mut self, reply: Reply) -> Result<(), Stop> {
        self.replies.push(reply).map_err(|_| Stop::OutOfMemory)
    }

    // Opens rows, whose lines are to come.
    fn begin(&mut self, line: &[u8]) -> Result<(), Stop> {
        let (word, rest) = cut(line, b' ');
        let tx = told(word).ok_or(Stop::Form)?;
        let notice = noticed(rest).ok_or(Stop::Form)?;
        self.open = Some((tx, notice));
        Ok(())
    }

    /// Takes the line of a reply, behind its `< `.
    fn reply(&mut self, alloc: Global, line: &[u8]) -> Result<(), Stop> {
        self.close()?;
        let (text, rest) = cut(line, b' ');
        match word_of(text) {
            Some(Word::Connected) => self.add(Reply::Connected),
            Some(Word::NoTarget) => self.add(Reply::NoTarget),
            Some(Word::Broken) => self.add(Reply::Broken),
            Some(Word::Rows) => self.begin(rest),
            Some(Word::Done) => self.done(rest),
            Some(Word::Refused) => self.refused(alloc, rest),
            _ => Err(Stop::Form),
        }
    }

    // `done`: the state, the count or `-`, and whether there is a notice.
    fn done(&mut self, line: &[u8]) -> Result<(), Stop> {
        let (word, rest) = cut(line, b' ');
        let tx = told(word).ok_or(Stop::Form)?;
        let (word, rest) = cut(rest, b' ');
        let count = number(word);
        let notice = noticed(rest).ok_or(Stop::Form)?;
        self.replies.push(Reply::Done { count, tx, notice })?;
        Ok(())
    }

    // `refused`: the state, that of the standard, and the message.
    fn refused(&mut self, alloc: Global, line: &[u8]) -> Result<(), Stop> {
        let (word, rest) = cut(line, b' ');
        let tx = told(word).ok_or(Stop::Form)?;
        let (word, rest) = cut(rest, b' ');
        let state = state(word).ok_or(Stop::Form)?;
        let message = quoted(alloc, rest)?.ok_or(Stop::Form)?;
        self.replies.push(Reply::Refused { state, message, tx })?;
        Ok(())
    }

    /// Takes the line of a column, behind its `c `: its name and its code.
    fn col(&mut self, alloc: Global, line: &[u8]) -> Result<(), Stop> {
        let (text, rest) = first_field(line).ok_or(Stop::Form)?;
        let name = unescaped(alloc, text.ok_or(Stop::Form)?)?;
        let name = Name::from_slice(alloc, name.as_slice())?;
        let code = number(rest).ok_or(Stop::Form)?;
        let code = i32::try_from(code).map_err(|_| Stop::Form)?;
        self.cols.push(Col { name, code })?;
        Ok(())
    }

    /// Takes the line of a row, behind its `r `: its fields.
    fn row(&mut self, alloc: Global, line: &[u8]) -> Result<(), Stop> {
        let mut row = Row::new(alloc);
        let mut rest = line;
        // No line has more fields than bytes.
        for _ in 0..line.len() {
            if let Some((field, behind)) = first_field(rest) {
                let field: Option<Bytes> = match field {
                    Some(text) => Some(unescaped(alloc, text)?),
                    None => None,
                };
                row.push(field)?;
                rest = behind;
            }
        }
        self.rows.push(row)?;
        Ok(())
    }

    /// The link of the slot.
    pub fn link(mut self, alloc: Global) -> Result<(Name, MemLink), Stop> {
        self.close()?;
        let Place {
            name,
            breaks,
            refusals,
            replies,
            ..
        } = self;
        let link = MemLink::with_refusals(alloc, replies, breaks.as_slice(), refusals.as_slice())?;
        Ok((name, link))
    }
}
