//! Rows of SQLite as the columns and rows of a reply.

use crate::bound::field;
use crate::refusal::{Refusal, Stop};
use ec_base::{List, Name};
use ec_link::{Col, Row, Table};
use sqlite::types::{self, ValueRef};
use std::alloc::Global;

/// The code of whole numbers, SQL's INTEGER.
const INTEGER: i32 = 4;

/// The code of texts and bytes, SQL's CHARACTER VARYING.
const VARYING: i32 = 12;

/// Columns and rows.
#[derive(Debug, Drop)]
pub struct Sheet {
    pub cols: List<Col>,
    pub rows: List<Row>,
}

impl Sheet {
    /// The columns of these names, and the rows with their fields.
    pub fn new(alloc: Global, names: &[types::Bytes], rows: &[sqlite::Row]) -> Result<Sheet, Stop> {
        let mut cols = List::new(alloc);
        for (at, name) in names.iter().enumerate() {
            cols.push(Col {
                name: Name::from_slice(alloc, name.as_slice())?,
                code: code(rows, at),
            })?;
        }
        let mut fields = List::new(alloc);
        for row in rows {
            fields.push(fields_of(alloc, row)?)?;
        }
        Ok(Sheet { cols, rows: fields })
    }

    /// The table of a reply.
    pub fn into_table(self) -> Result<Table, Stop> {
        match Table::new(self.cols, self.rows) {
            Some(table) => Ok(table),
            None => Err(Stop::Refused(Refusal::Ragged)),
        }
    }
}

// The code of a column: that of whole numbers where it has some and no other values but NULL.
fn code(rows: &[sqlite::Row], at: usize) -> i32 {
    let mut code = VARYING;
    for row in rows {
        match row.get_ref(at) {
            Ok(ValueRef::Int(_)) => code = INTEGER,
            Ok(ValueRef::Null) => {}
            _ => return VARYING,
        }
    }
    code
}

// The fields of a row.
fn fields_of(alloc: Global, row: &sqlite::Row) -> Result<Row, Stop> {
    let mut fields = Row::new(alloc);
    for at in 0..row.column_count() {
        fields.push(field(alloc, row.get_ref(at)?)?)?;
    }
    Ok(fields)
}
