/// A symbol that stands as an argument of a library call.
#[derive(Clone, Copy, Debug, PartialEq, Eq)]
pub enum Sym {
    Char,
    UnsignedChar,
    Short,
    UnsignedShort,
    Int,
    UnsignedInt,
    Long,
    UnsignedLong,
    LongLong,
    UnsignedLongLong,
    Bool,
    Varchar,
    Const,
    Descriptor,
    NoIndicator,
    /// The end of the inputs.
    EndOfInputs,
    /// The end of the outputs.
    EndOfOutputs,
    StatementNormal,
    StatementExecute,
    StatementExecImmediate,
    StatementOpen,
    ItemData,
    ItemIndicator,
    ItemName,
    ItemType,
    ItemOctets,
    EndOfItems,
}

/// A call of the library.
#[derive(Clone, Copy, Debug, PartialEq, Eq)]
pub enum LibName {
    Do,
    Connect,
    Disconnect,
    SetConn,
    SetCommit,
    Trans,
    Prepare,
    Deallocate,
    AllocateDesc,
    DeallocateDesc,
    GetDescHeader,
    SetDescHeader,
    GetDesc,
    SetDesc,
}
