//! Cursors, each with the whole answer of its query.

use crate::refusal::Stop;
use crate::sheet::Sheet;
use crate::statement::Amount;
use ec_base::{Bytes, List};
use ec_link::{Row, Table};
use std::alloc::Global;

/// A cursor.
#[derive(Debug, Drop)]
pub struct Cursor {
    name: Bytes,
    // Whether it ends with its transaction.
    ends: bool,
    // The columns of its answer, and the rows that are left, the next one last.
    left: Sheet,
}

impl Cursor {
    /// A cursor before the first row of its answer.
    pub fn new(alloc: Global, name: &[u8], ends: bool, answer: Sheet) -> Result<Cursor, Stop> {
        let Sheet { cols, rows } = answer;
        Ok(Cursor {
            name: Bytes::from_slice(alloc, name)?,
            ends,
            left: Sheet {
                cols,
                rows: reversed(alloc, rows)?,
            },
        })
    }

    /// Whether it has that name, in any case of letters.
    pub fn is_named(&self, name: &[u8]) -> bool {
        self.name.as_slice().eq_ignore_ascii_case(name)
    }

    /// Whether it ends with its transaction.
    pub fn ends(&self) -> bool {
        self.ends
    }

    /// Takes the next rows.
    pub fn fetch(&mut self, alloc: Global, amount: Amount) -> Result<Table, Stop> {
        let most = match amount {
            Amount::All => u64::MAX,
            Amount::Rows(count) => count,
        };
        let mut rows = List::new(alloc);
        for _ in 0..most {
            let Some(row) = self.left.rows.pop() else {
                break;
            };
            rows.push(row)?;
        }
        let cols = self.left.cols.clone()?;
        Sheet { cols, rows }.into_table()
    }
}

// The rows from the last to the first.
fn reversed(alloc: Global, mut rows: List<Row>) -> Result<List<Row>, Stop> {
    let mut reversed = List::new(alloc);
    while let Some(row) = rows.pop() {
        reversed.push(row)?;
    }
    Ok(reversed)
}
