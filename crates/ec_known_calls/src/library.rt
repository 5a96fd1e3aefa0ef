//! Calls of the library, which are known in written C (PostgreSQL manual, chapter ECPG).

ghost use Rattle.std.specs.Prelude.{◌≡◌, IfOk, option_map};
ghost use Rattle.ec_ctypes.specs.Texts.{symbol_text, library_text};
ghost use Rattle.ec_ctypes.specs.views.Exprs.{expr_view, exprs_view};
ghost use Rattle.ec_ctypes.specs.views.Types.{ty_view};
ghost use Rattle.ec_typing_defs.specs.Known as known;
ghost use Rattle.ec_typing_defs.specs.Library as spec;
ghost use Rattle.ec_known_calls.specs.Library.{seen, all_seen};
ghost use Rattle.ec_known_calls.specs.Taking.{types_view};

use crate::formats::is_character;
use ec_base::{List, OutOfMemory};
use ec_ctypes::{Expr, LibName, Sym, Ty};
use ec_cut::{Argument, cut};
use ec_known::is_word;
use std::alloc::Global;

static SYMBOLS: [Sym; 27] = [
    Sym::Char,
    Sym::UnsignedChar,
    Sym::Short,
    Sym::UnsignedShort,
    Sym::Int,
    Sym::UnsignedInt,
    Sym::Long,
    Sym::UnsignedLong,
    Sym::LongLong,
    Sym::UnsignedLongLong,
    Sym::Bool,
    Sym::Varchar,
    Sym::Const,
    Sym::Descriptor,
    Sym::NoIndicator,
    Sym::EndOfInputs,
    Sym::EndOfOutputs,
    Sym::StatementNormal,
    Sym::StatementExecute,
    Sym::StatementExecImmediate,
    Sym::StatementOpen,
    Sym::ItemData,
    Sym::ItemIndicator,
    Sym::ItemName,
    Sym::ItemType,
    Sym::ItemOctets,
    Sym::EndOfItems,
];

static CALLS: [LibName; 14] = [
    LibName::Do,
    LibName::Connect,
    LibName::Disconnect,
    LibName::SetConn,
    LibName::SetCommit,
    LibName::Trans,
    LibName::Prepare,
    LibName::Deallocate,
    LibName::AllocateDesc,
    LibName::DeallocateDesc,
    LibName::GetDescHeader,
    LibName::SetDescHeader,
    LibName::GetDesc,
    LibName::SetDesc,
];

// The first of these symbols that has this name.
fn symbol_among(symbols: &[Sym], name: &[u8]) -> Option<Sym>
    ensures { result ≡ spec.named_among symbol_text name.now symbols.now }
{
    for symbol in symbols {
        if is_word(symbol.text(), name) {
            return Some(*symbol);
        }
    }
    None
}

// The symbol of this name.
fn symbol_named(name: &[u8]) -> Option<Sym>
    ensures { result ≡ spec.named_among symbol_text name.now known.symbols }
{
    symbol_among(&SYMBOLS, name)
}

// The first of these calls that has this name.
fn call_among(calls: &[LibName], name: &[u8]) -> Option<LibName>
    ensures { result ≡ spec.named_among library_text name.now calls.now }
{
    for call in calls {
        if is_word(call.text(), name) {
            return Some(*call);
        }
    }
    None
}

/// The call of the library of this name, which is known in written C alone.
pub fn library_call(written: bool, name: &[u8]) -> Option<LibName>
    ensures { result ≡ spec.library_call written name.now }
{
    if written {
        return call_among(&CALLS, name);
    }
    None
}

// Whether a pointer to this type may lead to a text.
fn points_to_text(of: &Ty) -> bool
    ensures { result ≡ spec.points_to_text (ty_view of.now) }
{
    match of.arith() {
        Some(a) => is_character(a),
        None => false,
    }
}

// A pointer, or what no call takes.
fn pointer_argument<'a>(ty: &'a Option<Ty>) -> Argument<&'a [u8], bool>
    ensures { seen result ≡ spec.pointer_argument (option_map ty_view ty.now) }
{
    match ty {
        None => Argument::Pointer(true),
        Some(Ty::Ptr(of)) => Argument::Pointer(points_to_text(of.get())),
        Some(_) => Argument::Stray,
    }
}

// An integer constant.
fn constant_argument<'a>(value: u64, of: &'a Ty) -> Argument<&'a [u8], bool>
    ensures { seen result ≡ spec.constant_argument value (ty_view of.now) }
{
    match of {
        Ty::Int => Argument::Int(value),
        Ty::Long => Argument::Long(value),
        _ => Argument::Stray,
    }
}

// A name that is no symbol.
fn other_name<'a>(name: &'a [u8], ty: &'a Option<Ty>) -> Argument<&'a [u8], bool>
    ensures { seen result ≡ spec.other_name name.now (option_map ty_view ty.now) }
{
    if is_word("NULL", name) {
        return Argument::Null;
    }
    pointer_argument(ty)
}

// A name.
fn name_argument<'a>(name: &'a [u8], ty: &'a Option<Ty>) -> Argument<&'a [u8], bool>
    ensures { seen result ≡ spec.name_argument name.now
        (spec.named_among symbol_text name.now known.symbols) (option_map ty_view ty.now) }
{
    match symbol_named(name) {
        Some(symbol) => Argument::Symbol(symbol),
        None => other_name(name, ty),
    }
}

// An argument, by its form and its type.
fn argument_of<'a>(e: &'a Expr, ty: &'a Option<Ty>) -> Argument<&'a [u8], bool>
    ensures { seen result ≡ spec.argument_of (expr_view e.now) (option_map ty_view ty.now) }
{
    match e {
        Expr::Name(name) => name_argument(name.as_slice(), ty),
        Expr::Str(bytes) => Argument::Literal(bytes.as_slice()),
        Expr::Int(value, of) => constant_argument(*value, of),
        _ => pointer_argument(ty),
    }
}

// The arguments of a call, by their forms and their types.
fn arguments_of_call<'a>(
    alloc: Global,
    forms: &'a [Expr],
    types: &'a [Option<Ty>],
) -> Result<List<Argument<&'a [u8], bool>>, OutOfMemory>
    ensures { IfOk result (λ list. all_seen list
        ≡ spec.arguments_of_call (exprs_view forms.now) (types_view types.now)) }
{
    let mut list = List::with_capacity(alloc, forms.len())?;
    let mut i = 0;
    while i < forms.len() && i < types.len() {
        list.push(argument_of(&forms[i], &types[i]))?;
        i += 1;
    }
    Ok(list)
}

/// Whether a call of the library takes these arguments, which have these forms and types. Where a type isn't known, an
/// argument may be whatever pointer is needed. The one error is want of memory.
pub fn cuts(
    alloc: Global,
    name: LibName,
    forms: &[Expr],
    types: &[Option<Ty>],
) -> Result<bool, OutOfMemory>
    ensures { IfOk result (λ cuts. cuts
        ≡ spec.cuts name (exprs_view forms.now) (types_view types.now)) }
{
    let list = arguments_of_call(alloc, forms, types)?;
    let found = cut(alloc, name, list.as_slice())?;
    Ok(found.is_some())
}
