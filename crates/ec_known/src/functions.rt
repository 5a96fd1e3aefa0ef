//! The known functions (ISO/IEC 9899:1999, 7.19 to 7.21; PostgreSQL manual, 34.8.1 for sqlprint).

ghost use Rattle.std.specs.Prelude.{◌≡◌, map, Some, option_map, is_some, IfOk};
ghost use Rattle.ec_ctypes.specs.views.Types.{ty_view};
ghost use Rattle.ec_typing_defs.specs.Known as spec;
ghost use Rattle.ec_typing_defs.specs.Tables.{find, is_one_of};
ghost use Rattle.ec_known.specs.Functions.{simple_type, signature_view, known_view, row_view};

use crate::words::is_word;
use ec_base::{Boxed, List, OutOfMemory};
use ec_ctypes::Ty;
use std::alloc::Global;

// The types of the known functions' parameters and results.
#[derive(Clone, Copy)]
enum Simple {
    Void,
    Int,
    Size,
    /// `char *`
    Text,
    /// `void *`
    Memory,
}

#[derive(Clone, Copy)]
enum Signature {
    /// A result and parameters.
    Plain(Simple, &'static [Simple]),
    /// A format behind so many other arguments, and arguments behind it.
    Formatted(usize),
}

/// A known function.
#[derive(Drop)]
pub enum Known {
    /// The type of its result, and those of its parameters.
    Plain(Ty, List<Ty>),
    /// It takes a format behind so many other arguments, and its result is an int.
    Formatted(usize),
}

static FUNCTIONS: [(&'static str, Signature); 15] = [
    ("printf", Signature::Formatted(0)),
    ("fprintf", Signature::Formatted(1)),
    ("puts", Signature::Plain(Simple::Int, &[Simple::Text])),
    ("putchar", Signature::Plain(Simple::Int, &[Simple::Int])),
    ("strlen", Signature::Plain(Simple::Size, &[Simple::Text])),
    (
        "strcmp",
        Signature::Plain(Simple::Int, &[Simple::Text, Simple::Text]),
    ),
    (
        "strncmp",
        Signature::Plain(Simple::Int, &[Simple::Text, Simple::Text, Simple::Size]),
    ),
    (
        "memcmp",
        Signature::Plain(Simple::Int, &[Simple::Memory, Simple::Memory, Simple::Size]),
    ),
    (
        "strcpy",
        Signature::Plain(Simple::Text, &[Simple::Text, Simple::Text]),
    ),
    (
        "strncpy",
        Signature::Plain(Simple::Text, &[Simple::Text, Simple::Text, Simple::Size]),
    ),
    (
        "strcat",
        Signature::Plain(Simple::Text, &[Simple::Text, Simple::Text]),
    ),
    (
        "memcpy",
        Signature::Plain(
            Simple::Memory,
            &[Simple::Memory, Simple::Memory, Simple::Size],
        ),
    ),
    (
        "memset",
        Signature::Plain(Simple::Memory, &[Simple::Memory, Simple::Int, Simple::Size]),
    ),
    ("exit", Signature::Plain(Simple::Void, &[Simple::Int])),
    ("sqlprint", Signature::Plain(Simple::Void, &[])),
];

// The signature in the first row with this name.
fn signature_in(rows: &[(&'static str, Signature)], name: &[u8]) -> Option<Signature>
    ensures { option_map signature_view result ≡ find name.now (map row_view rows.now) }
{
    for (function, signature) in rows {
        if is_word(function, name) {
            return Some(*signature);
        }
    }
    None
}

// The signature of the known function of this name.
fn signature_of(name: &[u8]) -> Option<Signature>
    ensures { option_map signature_view result ≡ spec.known_function name.now }
{
    signature_in(&FUNCTIONS, name)
}

/// Whether a known function has this name.
pub fn is_known_function(name: &[u8]) -> bool
    ensures { result ≡ is_some (spec.known_function name.now) }
{
    signature_of(name).is_some()
}

impl Simple {
    // The type.
    fn ty(self, alloc: Global) -> Result<Ty, OutOfMemory>
        ensures { IfOk result (λ ty. ty_view ty ≡ simple_type self) }
    {
        Ok(match self {
            Simple::Void => Ty::Void,
            Simple::Int => Ty::Int,
            Simple::Size => Ty::ULong,
            Simple::Text => Ty::Ptr(Boxed::new(alloc, Ty::Char)?),
            Simple::Memory => Ty::Ptr(Boxed::new(alloc, Ty::Void)?),
        })
    }
}

// These types.
fn types(alloc: Global, simple: &[Simple]) -> Result<List<Ty>, OutOfMemory>
    ensures { IfOk result (λ types. map ty_view types ≡ map simple_type simple.now) }
{
    let mut types = List::new(alloc);
    for one in simple {
        types.push(one.ty(alloc)?)?;
    }
    Ok(types)
}

/// The known function of this name, or `None` where there is none. The one error is want of memory.
pub fn known_function(alloc: Global, name: &[u8]) -> Result<Option<Known>, OutOfMemory>
    ensures { IfOk result (λ known. option_map known_view known ≡ spec.known_function name.now) }
{
    match signature_of(name) {
        None => Ok(None),
        Some(Signature::Formatted(n)) => Ok(Some(Known::Formatted(n))),
        Some(Signature::Plain(result_type, parameters)) => {
            let parameters = types(alloc, parameters)?;
            Ok(Some(Known::Plain(result_type.ty(alloc)?, parameters)))
        }
    }
}

/// The types, each as one that is there. The one error is want of memory.
pub fn optional_types(alloc: Global, types: List<Ty>) -> Result<List<Option<Ty>>, OutOfMemory>
    ensures { IfOk result (λ all. map (option_map ty_view) all ≡ map Some (map ty_view types)) }
{
    let mut all = List::with_capacity(alloc, types.len())?;
    for ty in types {
        all.push(Some(ty))?;
    }
    Ok(all)
}

/// Whether the first argument of this function is a stream.
pub fn takes_stream(name: &[u8]) -> bool
    ensures { result ≡ spec.takes_stream name.now }
{
    is_word("fprintf", name)
}

// Whether a known function has this name.
pub fn is_function_name(name: &[u8]) -> bool
    ensures { result ≡ is_one_of (spec.names_in spec.known_functions) name.now }
{
    signature_of(name).is_some()
}
