//! The resolved parts of embedded statements (PostgreSQL manual, "Using Host Variables" and "Setting Callbacks").

use ec_base::List;
use ec_code::Expression;
use ec_ctypes::Ty;

/// A reference of an embedded statement: its type, if it has one, and its address.
#[derive(Debug, Drop)]
pub struct Reference {
    pub ty: Option<Ty>,
    pub place: Expression,
}

/// What is done where the condition of a WHENEVER holds.
#[derive(Debug, Drop)]
pub enum Action {
    /// The program goes on.
    Pass,
    /// A jump to a label, by its number.
    Jump(u32),
    /// The message is printed.
    Print,
    /// The program ends.
    Stop,
    /// `break`
    Leave,
    /// `continue`
    Next,
    /// A call whose value isn't used.
    Call(Expression),
}

/// The actions for the three conditions.
#[derive(Debug, Drop)]
pub struct Actions {
    /// NOT FOUND.
    pub none_found: Action,
    /// SQLWARNING.
    pub warning: Action,
    /// SQLERROR.
    pub error: Action,
}

/// An embedded statement by its number: its references in the order of its tree, and its actions.
#[derive(Debug, Drop)]
pub struct EmbeddedForm {
    pub number: u32,
    pub references: List<Reference>,
    pub actions: Actions,
}
