//! What a text for the server asks for, as far as the link has to know it.

use crate::control::{Control, is_end, read_control};
use crate::words::{Word, Words};

/// How many rows a FETCH takes.
#[derive(Clone, Copy, Debug, PartialEq, Eq)]
pub enum Amount {
    All,
    Rows(u64),
}

/// A text for the server. The statements of cursors are not SQLite's, and are answered by the link.
#[derive(Clone, Copy)]
pub enum Statement<'a> {
    /// Declare a cursor for a query. One that is held outlives its transaction.
    Declare {
        name: &'a [u8],
        is_held: bool,
        query: &'a [u8],
    },
    /// Take rows of a cursor.
    Fetch {
        name: &'a [u8],
        amount: Amount,
    },
    /// Forget a cursor.
    Close {
        name: &'a [u8],
    },
    /// A statement of a cursor in a form that is left out.
    LeftOut,
    /// Transaction control.
    Control(Control<'a>),
    /// A statement for SQLite. The rows that it changes are counted or not.
    Plain {
        is_counted: bool,
    },
}

/// The words with which a statement begins that tells how many rows it changed.
const COUNTED: [&[u8]; 4] = [b"INSERT", b"UPDATE", b"DELETE", b"REPLACE"];

/// What the text asks for.
pub fn read_statement(text: &[u8]) -> Statement<'_> {
    let mut words = Words::new(text);
    if words.take(b"DECLARE") {
        declaration(words).unwrap_or(Statement::LeftOut)
    } else if words.take(b"FETCH") {
        fetch(words).unwrap_or(Statement::LeftOut)
    } else if words.take(b"CLOSE") {
        close(words).unwrap_or(Statement::LeftOut)
    } else if let Some(control) = read_control(text) {
        Statement::Control(control)
    } else {
        Statement::Plain {
            is_counted: is_counted(words.next()),
        }
    }
}

/// Whether a statement changes rows, by its first word.
pub fn changes_rows(text: &[u8]) -> bool {
    is_counted(Words::new(text).next())
}

// Whether a statement tells how many rows it changed, by its first word.
fn is_counted(first: Option<Word<'_>>) -> bool {
    let Some(first) = first else {
        return false;
    };
    for word in COUNTED.iter() {
        if first.is(word) {
            return true;
        }
    }
    false
}

// A name, if one is left.
fn take_name<'a>(words: &mut Words<'a>) -> Option<&'a [u8]> {
    let name = words.next()?.text();
    if name.is_empty() { None } else { Some(name) }
}

// `name [BINARY] [INSENSITIVE | ASENSITIVE] [[NO] SCROLL] CURSOR [{WITH | WITHOUT} HOLD] FOR query`.
fn declaration(mut words: Words<'_>) -> Option<Statement<'_>> {
    let name = take_name(&mut words)?;
    let _ = words.take(b"BINARY");
    let _ = words.take(b"INSENSITIVE") || words.take(b"ASENSITIVE");
    let _ = words.take(b"NO");
    let _ = words.take(b"SCROLL");
    let is_cursor = words.take(b"CURSOR");
    let is_held = words.take(b"WITH");
    let has_hold = is_held || words.take(b"WITHOUT");
    let is_whole = is_cursor && (!has_hold || words.take(b"HOLD")) && words.take(b"FOR");
    if !is_whole {
        return None;
    }
    Some(Statement::Declare {
        name,
        is_held,
        query: words.rest(),
    })
}

// `[NEXT | ALL | count] [FROM | IN] name`. A word alone is the name.
fn fetch(mut words: Words<'_>) -> Option<Statement<'_>> {
    let mut names = words;
    let name = take_name(&mut names)?;
    if is_end(names) {
        return fetched(name, Amount::Rows(1), names);
    }
    let amount = read_amount(&mut words)?;
    let _ = words.take(b"FROM") || words.take(b"IN");
    let name = take_name(&mut words)?;
    fetched(name, amount, words)
}

// A FETCH with nothing behind its name.
fn fetched<'a>(name: &'a [u8], amount: Amount, rest: Words<'a>) -> Option<Statement<'a>> {
    if !is_end(rest) {
        return None;
    }
    Some(Statement::Fetch { name, amount })
}

// How many rows are taken: one where no word says it. A count is one or more.
fn read_amount(words: &mut Words<'_>) -> Option<Amount> {
    if words.take(b"ALL") {
        return Some(Amount::All);
    }
    let mut behind = *words;
    let count = behind.next()?.text();
    if !count.first()?.is_ascii_digit() {
        let _ = words.take(b"NEXT");
        return Some(Amount::Rows(1));
    }
    *words = behind;
    match std::str::from_utf8(count).ok()?.parse::<u64>() {
        Ok(count) if count > 0 => Some(Amount::Rows(count)),
        _ => None,
    }
}

// `name`.
fn close(mut words: Words<'_>) -> Option<Statement<'_>> {
    let name = take_name(&mut words)?;
    if !is_end(words) {
        return None;
    }
    Some(Statement::Close { name })
}
