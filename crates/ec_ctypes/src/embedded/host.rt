use crate::tree::Expr;
use ec_base::{Boxed, Bytes, List};

/// A reference to a host variable, with its indicator.
#[derive(Debug, Drop)]
pub struct Host {
    pub value: Expr,
    pub indicator: Option<Boxed<Expr>>,
}

/// A name or text that a statement is given: a connection, a descriptor, a target, a statement's text.
#[derive(Debug, Drop)]
pub enum TextArg {
    Word(Bytes),
    Host(Boxed<Expr>),
    /// A host with an indicator, which is a fault.
    HostWithIndicator(Boxed<Expr>, Boxed<Expr>),
}

/// A value that a statement sends.
#[derive(Debug, Drop)]
pub enum Input {
    Host(Host),
    /// The text of a constant.
    Const(Bytes),
}

/// The values of a USING list, or the descriptor that has them.
#[derive(Debug, Drop)]
pub enum Ins {
    Listed(List<Input>),
    Area(TextArg),
}

/// Where an answer is stored.
#[derive(Debug, Drop)]
pub enum Outs {
    Nothing,
    Listed(List<Host>),
    Area(TextArg),
}

/// A part of a text that is sent.
#[derive(Debug, Drop)]
pub enum Part {
    Bytes(Bytes),
    Host(Boxed<Host>),
}
