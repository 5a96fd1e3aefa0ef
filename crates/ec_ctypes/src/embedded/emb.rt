use crate::embedded::{Host, Input, Ins, Outs, Part, TextArg};
use crate::tree::Expr;
use ec_base::{Boxed, Bytes, Line, List, Name};

/// An item of a descriptor (PostgreSQL manual, "Using Descriptor Areas").
#[derive(Clone, Copy, Debug, PartialEq, Eq)]
pub enum Item {
    /// DATA
    Content,
    /// INDICATOR
    Indicator,
    /// NAME
    Label,
    /// TYPE
    Code,
    /// RETURNED_OCTET_LENGTH
    Octets,
}

/// A condition of WHENEVER (PostgreSQL manual, "Setting Callbacks").
#[derive(Clone, Copy, Debug, PartialEq, Eq)]
pub enum Cond {
    NotFound,
    Warning,
    Error,
}

/// An action of WHENEVER (PostgreSQL manual, "Setting Callbacks").
#[derive(Debug, Drop)]
pub enum Action {
    /// CONTINUE
    Continue,
    /// GOTO, with a label
    Goto(Name),
    /// SQLPRINT
    Print,
    /// STOP
    Stop,
    /// DO BREAK
    Break,
    /// DO CONTINUE
    Next,
    /// DO or CALL, with a function and its arguments
    Call(Name, List<Expr>),
}

/// An embedded statement or directive.
#[derive(Debug, Drop)]
pub struct Emb {
    pub line: Line,
    /// The place of its token.
    pub place: u32,
    /// The connection that AT names.
    pub at: Option<Boxed<TextArg>>,
    pub kind: EmbKind,
}

/// What an embedded statement does.
#[derive(Debug, Drop)]
pub enum EmbKind {
    Connect {
        target: TextArg,
        name: Option<Boxed<TextArg>>,
        user: Option<Boxed<TextArg>>,
        password: Option<Boxed<TextArg>>,
    },
    SetConnection(TextArg),
    Disconnect(TextArg),
    /// SET AUTOCOMMIT, to ON or not.
    Autocommit(bool),
    /// Transaction control, by its text.
    Trans(Bytes),
    /// A statement that passes to the server.
    Text {
        parts: List<Part>,
        outs: Outs,
    },
    /// DECLARE of a cursor for a statement, or for a prepared name.
    Declare {
        cursor: Name,
        parts: List<Part>,
        prepared: Option<Name>,
    },
    OpenCursor {
        cursor: Name,
        ins: Ins,
    },
    Immediate(TextArg),
    Prepare {
        name: Name,
        text: TextArg,
    },
    Execute {
        name: Name,
        ins: Ins,
        outs: Boxed<Outs>,
    },
    Deallocate(Name),
    /// ALLOCATE DESCRIPTOR
    Allocate(TextArg),
    /// DEALLOCATE DESCRIPTOR
    Free(TextArg),
    /// GET DESCRIPTOR, of the count
    GetCount(TextArg, Boxed<Host>),
    /// GET DESCRIPTOR, of items
    Get {
        area: TextArg,
        index: Boxed<Input>,
        items: List<(Item, Host)>,
    },
    /// SET DESCRIPTOR, of the count
    SetCount(TextArg, Boxed<Input>),
    /// SET DESCRIPTOR, of items
    Set {
        area: TextArg,
        index: Boxed<Input>,
        items: List<(Item, Input)>,
    },
    Whenever(Cond, Action),
    IncludeSqlca,
}
