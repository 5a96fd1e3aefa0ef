//! Arguments, and the calls that they are cut into.

use ec_base::List;
use ec_ctypes::{Item, Sym};

/// An argument, by what it is. The bytes of a literal are a `B`, and a pointer is an `A`.
#[derive(Clone, Copy, Debug)]
pub enum Argument<B, A> {
    Symbol(Sym),
    Literal(B),
    Null,
    /// A constant of type `int`.
    Int(u64),
    /// A constant of type `long`.
    Long(u64),
    Pointer(A),
    /// Anything else, which no call takes.
    Stray,
}

/// The arguments that are left.
#[derive(Drop)]
pub(crate) struct Front<'r, B, A> {
    pub(crate) rest: &'r [Argument<B, A>],
}

/// A text: none, the bytes of a literal, or those that a pointer leads to.
#[derive(Clone, Copy, Debug)]
pub enum Text<B, A> {
    Absent,
    Word(B),
    Held(A),
}

/// The indicators of a host: their symbol, the pointer to the first one, how many there are, and how many bytes lie
/// between the beginnings of two neighbours.
#[derive(Clone, Copy, Debug)]
pub struct Indicator<A> {
    pub sym: Sym,
    pub value: A,
    pub count: u64,
    pub step: u64,
}

/// A host: its symbol, the pointer to its first element, the length of a text, how many elements there are, how many bytes
/// lie between the beginnings of two neighbours, and its indicators.
#[derive(Clone, Copy, Debug)]
pub struct Place<A> {
    pub sym: Sym,
    pub value: A,
    pub size: u64,
    pub count: u64,
    pub step: u64,
    pub ind: Option<Indicator<A>>,
}

/// A member of a list of inputs or of outputs.
#[derive(Clone, Copy, Debug)]
pub enum Member<B, A> {
    Host(Place<A>),
    /// A value that the statement names itself.
    Constant(B),
    /// The name of a descriptor.
    Descriptor(Text<B, A>),
}

/// What ECPGdo runs.
#[derive(Clone, Copy, Debug)]
pub enum Statement<B, A> {
    Normal(B),
    /// The statement that is prepared under a name.
    Prepared(B),
    /// A text that is known when it runs.
    Immediate(Text<B, A>),
    /// A cursor for a prepared statement: the head of its text, and the name.
    Opening(B, B),
}

/// A call, without its line.
#[derive(Debug, Drop)]
pub enum Call<B, A> {
    /// The connection, the statement, the inputs and the outputs.
    Run(Text<B, A>, Statement<B, A>, List<Member<B, A>>, List<Member<B, A>>),
    /// The target, the user, the password and the name.
    Connect(Text<B, A>, Text<B, A>, Text<B, A>, Text<B, A>),
    Disconnect(Text<B, A>),
    SetConnection(Text<B, A>),
    /// Whether each statement is a transaction by itself, and the connection.
    SetAutocommit(bool, Text<B, A>),
    /// The connection, and the text of the transaction control.
    Control(Text<B, A>, B),
    /// The connection, the name and the text.
    Prepare(Text<B, A>, B, Text<B, A>),
    /// The connection and the name.
    Deallocate(Text<B, A>, B),
    AllocateDescriptor(Text<B, A>),
    DeallocateDescriptor(Text<B, A>),
    /// The descriptor, and what its count is stored into or set from.
    GetCount(Text<B, A>, Member<B, A>),
    SetCount(Text<B, A>, Member<B, A>),
    /// The descriptor, the index and the items.
    GetItems(Text<B, A>, Member<B, A>, List<(Item, Member<B, A>)>),
    SetItems(Text<B, A>, Member<B, A>, List<(Item, Member<B, A>)>),
}

/// A call with its line, which its messages name.
#[derive(Debug, Drop)]
pub struct Cut<B, A> {
    pub line: u64,
    pub call: Call<B, A>,
}
