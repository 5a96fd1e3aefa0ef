//! What the library finds wrong.

ghost use Rattle.std.specs.Prelude.{◌≡◌};
ghost use Rattle.ec_transfer_defs.specs.Codes.{code_of, state_of, text_of_finding};

use ec_link::SqlState;

/// What the library finds wrong by itself with a statement or its answer. A server's refusal has the state and the
/// text that the server gave.
#[derive(Clone, Copy, Debug, PartialEq, Eq)]
pub enum Finding {
    /// There is no row, or no row any more.
    NoData,
    /// There are fewer columns than targets.
    TooManyTargets,
    /// There are more columns than targets.
    TooFewTargets,
    /// There are more rows than a target has elements.
    TooManyRows,
    /// A field is no number of a signed type.
    NotAnInteger,
    /// A field is no number of an unsigned type.
    NotUnsigned,
    /// A field is no truth value.
    NotABool,
    /// A field is NULL, and its target has no indicator.
    NullWithoutIndicator,
    /// There is no connection of this name, or no current one.
    NoConnection,
    /// There is no prepared statement of this name.
    NoStatement,
    /// There is no descriptor of this name.
    NoDescriptor,
    /// A descriptor has no item of this number.
    DescriptorIndex,
    /// The connection broke.
    ConnectionBroken,
    /// The server answered with what no request but another one asks for.
    ReplyOutOfPlace,
    /// A transaction did not begin or end.
    ControlRefused,
    /// There is no connection to the target.
    NotConnected,
}

impl Finding {
    /// What stands in `sqlcode`.
    pub fn code(self) -> i64
        ensures { result ≡ code_of self }
    {
        match self {
            Finding::NoData => 100,
            Finding::TooManyTargets => -201,
            Finding::TooFewTargets => -202,
            Finding::TooManyRows => -203,
            Finding::NotAnInteger => -204,
            Finding::NotUnsigned => -205,
            Finding::NotABool => -211,
            Finding::NullWithoutIndicator => -213,
            Finding::NoConnection => -220,
            Finding::NoStatement => -230,
            Finding::NoDescriptor => -240,
            Finding::DescriptorIndex => -241,
            Finding::ConnectionBroken | Finding::ReplyOutOfPlace => -400,
            Finding::ControlRefused => -401,
            Finding::NotConnected => -402,
        }
    }

    /// What stands in `sqlstate`.
    pub fn state(self) -> SqlState
        ensures { result.0 ≡ state_of self }
    {
        let state = match self {
            Finding::NoData => b"02000",
            Finding::TooManyTargets | Finding::TooFewTargets => b"07002",
            Finding::TooManyRows => b"21000",
            Finding::NotAnInteger | Finding::NotUnsigned | Finding::NotABool => b"42804",
            Finding::NullWithoutIndicator => b"22002",
            Finding::NoConnection => b"08003",
            Finding::NoStatement => b"26000",
            Finding::NoDescriptor => b"33000",
            Finding::DescriptorIndex => b"07009",
            Finding::ConnectionBroken => b"08006",
            Finding::ReplyOutOfPlace => b"08P01",
            Finding::ControlRefused => b"08007",
            Finding::NotConnected => b"08001",
        };
        SqlState(*state)
    }

    /// The text of the message.
    pub fn text(self) -> &'static [u8]
        ensures { result.now ≡ text_of_finding self }
    {
        match self {
            Finding::NoData => b"no data found",
            Finding::TooManyTargets => b"too many targets",
            Finding::TooFewTargets => b"too few targets",
            Finding::TooManyRows => b"too many rows",
            Finding::NotAnInteger => b"not a number of type int",
            Finding::NotUnsigned => b"not a number of an unsigned type",
            Finding::NotABool => b"not a bool",
            Finding::NullWithoutIndicator => b"null value without indicator",
            Finding::NoConnection => b"no such connection",
            Finding::NoStatement => b"no such statement",
            Finding::NoDescriptor => b"no such descriptor",
            Finding::DescriptorIndex => b"descriptor index out of range",
            Finding::ConnectionBroken => b"connection broken",
            Finding::ReplyOutOfPlace => b"reply out of place",
            Finding::ControlRefused => b"transaction control refused",
            Finding::NotConnected => b"could not connect",
        }
    }
}
