ghost use Rattle.std.specs.Prelude.{◌≡◌, ◌≢◌, ◌↔◌, length, All, Any, IfNone, IfSome, IsSome, MatchBool};
ghost use Rattle.ec_link.specs.Table.{IsRectangular};

use crate::copies::{list_copy, rows_copy};
use ec_base::{Bytes, List, Name};
use std::alloc::AllocError;
use std::marker::Model;

/// A column of an answer: its name, and the code of its type.
#[derive(Debug, Drop)]
pub struct Col {
    pub name: Name,
    pub code: i32,
}

impl Clone for Col {
    ghost is_clone = { λ it copy. copy ≡ it };

    fn clone(&self) -> Result<Col, AllocError> {
        Ok(Col {
            name: self.name.clone()?,
            code: self.code,
        })
    }
}

/// A row: a field for each column, a text or None for NULL.
pub type Row = List<Option<Bytes>>;

/// Columns and rows, with as many fields in each row as there are columns.
#[derive(Debug, Drop)]
pub struct Table {
    cols: List<Col>,
    rows: List<Row>,
}

impl Model for Table {
    ghost use Rattle.ec_link.specs.Table.{Sheet, IsRectangular};

    ghost Value = { Sheet };

    ghost view = { λ table. record { cols = table.cols; rows = table.rows } };

    ghost invariant = { λ table. IsRectangular table.cols table.rows };
}

impl Clone for Table {
    ghost is_clone = { λ it copy. copy ≡ it };

    fn clone(&self) -> Result<Table, AllocError> {
        Ok(Table {
            cols: list_copy(&self.cols)?,
            rows: rows_copy(&self.rows)?,
        })
    }
}

impl Table {
    /// A table of these columns and rows, or `None` where a row has another number of fields. It takes no memory.
    pub fn new(cols: List<Col>, rows: List<Row>) -> Option<Table>
        ensures made { IfSome result (λ table. table ≡ record { cols = cols; rows = rows }) }
        ensures fits { IsSome result ↔ IsRectangular cols rows }
        ensures refused { IfNone result (Any (λ row. length row ≢ length cols) rows) }
    {
        if !is_rectangular(&cols, &rows) {
            return None;
        }
        Some(Table { cols, rows })
    }

    /// The columns.
    pub fn cols(&self) -> &List<Col>
        ensures value { result.now ≡ self.now.cols }
        ensures rectangular { IsRectangular self.now.cols self.now.rows }
    {
        &self.cols
    }

    /// The rows.
    pub fn rows(&self) -> &List<Row>
        ensures value { result.now ≡ self.now.rows }
        ensures rectangular { IsRectangular self.now.cols self.now.rows }
    {
        &self.rows
    }
}

// Whether each row has as many fields as there are columns.
fn is_rectangular(cols: &List<Col>, rows: &List<Row>) -> bool
    ensures { MatchBool result (IsRectangular cols.now rows.now)
        (Any (λ row. length row ≢ length cols.now) rows.now) }
{
    let width = cols.len();
    rows.as_slice().iter().all(|row| row.len() == width)
}
