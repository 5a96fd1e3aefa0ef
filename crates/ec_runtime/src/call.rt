//! A call of the library, cut.

use crate::host::Host;
use crate::inputs::{GivenText, Input, TextArg};
use ec_base::{Bytes, Line, List, Name};
use ec_ctypes::Item;

/// A call.
#[derive(Debug, Drop)]
pub struct Call {
    /// The line that is told with its codes.
    pub line: Line,
    pub kind: Kind,
}

/// What is called (PostgreSQL manual, chapter ECPG, section "Managing Database Connections").
#[derive(Debug, Drop)]
pub enum Kind {
    /// A call over the connection of a name, or without one over the current connection.
    Over(TextArg, Act),
    /// ECPGconnect.
    Connect(Connect),
    /// ECPGdisconnect, with the name of a connection, `CURRENT` or `ALL`.
    Disconnect(GivenText),
    /// ECPGsetconn, with the name of a connection.
    SetConnection(GivenText),
    /// A call on the descriptor of a name.
    Describe(GivenText, Describe),
}

/// What is called on a descriptor (section "Using Descriptor Areas").
#[derive(Debug, Drop)]
pub enum Describe {
    /// ECPGallocate_desc.
    Allocate,
    /// ECPGdeallocate_desc.
    Deallocate,
    /// ECPGget_desc_header, with the host that the count is stored into.
    GetCount(Host),
    /// ECPGset_desc_header, with the count.
    SetCount(Input),
    /// ECPGget_desc, with the index, and each item with the host that it is stored into.
    GetItems(Input, List<(Item, Host)>),
    /// ECPGset_desc, with the index, and each item with its value.
    SetItems(Input, List<(Item, Input)>),
}

/// What CONNECT is given.
#[derive(Debug, Drop)]
pub struct Connect {
    /// The name of the server.
    pub target: GivenText,
    pub user: TextArg,
    pub password: TextArg,
    /// The name of the connection. Without one it has the name of the server.
    pub name: TextArg,
}

/// What is called over a connection (PostgreSQL manual, chapter ECPG).
#[derive(Debug, Drop)]
pub enum Act {
    /// ECPGdo.
    Run(Statement),
    /// ECPGtrans, with the text of the transaction control.
    Control(Bytes),
    /// ECPGsetcommit: whether each statement is a transaction by itself.
    Autocommit(bool),
    /// ECPGprepare, with the name and the text, whose marks `?` become parameters (section "Dynamic SQL", PREPARE).
    Prepare { name: Name, text: GivenText },
    /// ECPGdeallocate, with the name (section "Dynamic SQL", DEALLOCATE).
    Deallocate(Name),
}

/// The text of a statement.
#[derive(Debug, Drop)]
pub enum Wanted {
    /// A text that is sent as it stands.
    Normal(Bytes),
    /// The statement that is prepared under a name (section "Dynamic SQL", EXECUTE).
    Prepared(Name),
    /// The text of EXECUTE IMMEDIATE, which is known when it runs.
    Immediate(GivenText),
    /// A cursor for the statement that is prepared under a name (section "Dynamic SQL", OPEN): what stands before the
    /// text of that statement.
    Opening { head: Bytes, name: Name },
}

/// Where the rows of a statement go.
#[derive(Debug, Drop)]
pub enum Destination {
    /// Into hosts, or nowhere if there is none.
    Hosts(List<Host>),
    /// Into the descriptor of a name.
    Area(GivenText),
}

/// A statement, with the values that it is given, the name of a descriptor whose contents are given behind them, and where
/// its rows go.
#[derive(Debug, Drop)]
pub struct Statement {
    pub wanted: Wanted,
    pub ins: List<Input>,
    pub area: Option<GivenText>,
    pub outs: Destination,
}
