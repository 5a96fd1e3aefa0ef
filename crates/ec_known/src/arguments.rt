//! The arguments of calls that are no expressions: `stdout` and `stderr` where a stream is wanted, and the symbols of
//! the library in written C.

ghost use Rattle.std.specs.Prelude.{◌≡◌, map, slice_get};
ghost use Rattle.std.specs.Option.{option_copied};
ghost use Rattle.ec_ctypes.specs.views.Exprs.{expr_view, exprs_view};
ghost use Rattle.ec_typing_defs.specs.Known as spec;
ghost use Rattle.ec_typing_defs.specs.Tables as tables;
ghost use Rattle.ec_known.specs.Forms.{arguments_view};

use crate::functions::takes_stream;
use crate::words::is_one_of;
use ec_ctypes::Expr;

/// Which arguments of a call are no expressions.
#[derive(Clone, Copy)]
pub enum Arguments {
    /// None of them.
    AllExpressions,
    /// The first, if it is a stream.
    StreamFirst,
    /// Those that are symbols of the library.
    WithSymbols,
}

/// Whether this is a name, as the function of a call that is kept apart may be.
pub fn is_identifier(e: &Expr) -> bool
    ensures { result ≡ spec.is_identifier (expr_view e.now) }
{
    matches!(e, Expr::Name(_))
}

// `stdout` or `stderr`.
fn is_stream(e: &Expr) -> bool
    ensures { result ≡ spec.is_stream (expr_view e.now) }
{
    match e {
        Expr::Name(name) => is_one_of(&["stdout", "stderr"], name.as_slice()),
        _ => false,
    }
}

fn is_library_call(name: &[u8]) -> bool
    ensures { result ≡ tables.is_one_of spec.library_calls name.now }
{
    is_one_of(
        &[
            "ECPGdo",
            "ECPGconnect",
            "ECPGdisconnect",
            "ECPGsetconn",
            "ECPGsetcommit",
            "ECPGtrans",
            "ECPGprepare",
            "ECPGdeallocate",
            "ECPGallocate_desc",
            "ECPGdeallocate_desc",
            "ECPGget_desc_header",
            "ECPGset_desc_header",
            "ECPGget_desc",
            "ECPGset_desc",
        ],
        name,
    )
}

fn is_symbol_name(name: &[u8]) -> bool
    ensures { result ≡ tables.is_one_of spec.library_symbols name.now }
{
    is_one_of(
        &[
            "ECPGt_char",
            "ECPGt_unsigned_char",
            "ECPGt_short",
            "ECPGt_unsigned_short",
            "ECPGt_int",
            "ECPGt_unsigned_int",
            "ECPGt_long",
            "ECPGt_unsigned_long",
            "ECPGt_long_long",
            "ECPGt_unsigned_long_long",
            "ECPGt_bool",
            "ECPGt_varchar",
            "ECPGt_const",
            "ECPGt_descriptor",
            "ECPGt_NO_INDICATOR",
            "ECPGt_EOIT",
            "ECPGt_EORT",
            "ECPGst_normal",
            "ECPGst_execute",
            "ECPGst_exec_immediate",
            "ECPGst_open",
            "ECPGd_data",
            "ECPGd_indicator",
            "ECPGd_name",
            "ECPGd_type",
            "ECPGd_ret_octet",
            "ECPGd_EODT",
        ],
        name,
    )
}

fn is_symbol(e: &Expr) -> bool
    ensures { result ≡ spec.is_symbol (expr_view e.now) }
{
    match e {
        Expr::Name(name) => is_symbol_name(name.as_slice()),
        _ => false,
    }
}

impl Arguments {
    /// Whether this, as the first of the arguments, is no expression.
    pub fn is_no_expression(self, e: &Expr) -> bool
        ensures { result ≡ spec.is_no_expression (arguments_view self) (expr_view e.now) }
    {
        match self {
            Arguments::AllExpressions => false,
            Arguments::StreamFirst => is_stream(e),
            Arguments::WithSymbols => is_symbol(e),
        }
    }

    /// Which of the arguments behind the first are no expressions.
    pub fn behind_first(self) -> Arguments
        ensures { arguments_view result ≡ spec.behind_first_argument (arguments_view self) }
    {
        match self {
            Arguments::WithSymbols => Arguments::WithSymbols,
            Arguments::AllExpressions | Arguments::StreamFirst => Arguments::AllExpressions,
        }
    }
}

/// Which arguments of a call of this name are no expressions. The symbols of the library are known in written C alone,
/// as arguments of its calls.
pub fn arguments_of(written: bool, name: &[u8]) -> Arguments
    ensures { arguments_view result ≡ spec.arguments_of written name.now }
{
    if takes_stream(name) {
        Arguments::StreamFirst
    } else if written && is_library_call(name) {
        Arguments::WithSymbols
    } else {
        Arguments::AllExpressions
    }
}

/// Whether the first argument is a stream.
pub fn has_stream(arguments: &[Expr]) -> bool
    ensures { result ≡ spec.has_stream (exprs_view arguments.now) }
{
    match arguments {
        [] => false,
        [first, ..] => is_stream(first),
    }
}

fn literal_in(e: &Expr) -> Option<&[u8]>
    ensures { option_copied result ≡ spec.literal_in (expr_view e.now) }
{
    match e {
        Expr::Str(bytes) => Some(bytes.as_slice()),
        _ => None,
    }
}

// The argument behind so many others.
fn argument_at(count: usize, arguments: &[Expr]) -> Option<&Expr>
    ensures { option_copied result ≡ slice_get arguments.now count }
{
    arguments.get(count)
}

/// The bytes of the literal that stands behind so many arguments, or `None` where no literal does.
pub fn literal_at(count: usize, arguments: &[Expr]) -> Option<&[u8]>
    ensures { option_copied result ≡ spec.literal_at count (exprs_view arguments.now) }
{
    match argument_at(count, arguments) {
        Some(e) => literal_in(e),
        None => None,
    }
}
