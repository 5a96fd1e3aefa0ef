//! What one expression stores (ISO/IEC 9899:1999, 6.7.8, 11, 13 and 14).
#![tactic(auto, unfolding(ec_resolving_defs::specs::Initializers::stored_at, ec_resolving_defs::specs::Storage::chain, ec_resolving_defs::specs::Storage::pure, ec_resolving_defs::specs::Storage::checks, ec_resolving_defs::specs::Storage::ask, ec_resolving_defs::specs::Storage::arrange))]

ghost use Rattle.std.specs.Prelude.{◌≡◌, ◌++◌, ◌∷◌, [], IfOk, Some};
ghost use Rattle.std.specs.Option.{option_copied};
ghost use Rattle.ec_code.specs.Views.{expression_view};
ghost use Rattle.ec_resolve_values.specs.conversions.Forms.{converted as converted_by};
ghost use Rattle.ec_ctypes.specs.views.Exprs.{expr_view};
ghost use Rattle.ec_ctypes.specs.views.Types.{ty_view};
ghost use Rattle.ec_resolve_forms.specs.Seen.{found_view, from, mapped, IsReached};
ghost use Rattle.ec_memory_defs.specs.Kinds.{kind_type};
ghost use Rattle.ec_meaning_defs.specs.resolved.Resolved.{Exp};
ghost use Rattle.ec_resolving_defs.specs.Conversions.{as_known_type};
ghost use Rattle.ec_resolving_defs.specs.Initializers as of;
ghost use Rattle.ec_resolving_defs.specs.Initializers.{scalar_part, text_part};
ghost use Rattle.ec_scopes.specs.Entries.{type_view};
ghost use Rattle.ec_scopes.specs.Seen.{world_of};
ghost use Rattle.ec_typing_defs.specs.Known.{literal_in};
ghost use Rattle.ec_resolve_initials.specs.Filled.{literal_front, parts_behind};
ghost use Rattle.ec_resolve_values.specs.initial_parts.Parts.{parts_view};

use ec_base::{Bytes, List, OutOfMemory};
use ec_code::Expression;
use ec_ctypes::{Expr, Ty};
use ec_memory_defs::Kind;
use ec_resolve_forms::{Found, Resolver, size_of};
use ec_resolve_values::conversions::{Conversion, converted, type_conversion};
use ec_resolve_values::initial_parts::Part;
use ec_rules::is_text_for;
use ec_scopes::Checker;
use std::alloc::Global;

/// The parts that are stored so far, in order.
pub type Parts = List<Part>;

/// The bytes of a literal.
fn literal_in(e: &Expr) -> Option<&[u8]>
    ensures { option_copied result ≡ literal_in (expr_view e.now) }
{
    match e {
        Expr::Str(bytes) => Some(bytes.as_slice()),
        _ => None,
    }
}

/// The bytes that an array of this length takes, which is 0 where it is left out. The zero byte behind them is there already.
fn literal_front(length: u64, text: &[u8]) -> &[u8]
    ensures { result.now ≡ literal_front length text.now }
{
    if length == 0 || length >= text.len() as u64 {
        text
    } else {
        &text[..length as usize]
    }
}

/// The bytes of a literal that an array of this type takes.
fn text_for(alloc: Global, ty: &Ty, text: &[u8]) -> Result<Bytes, OutOfMemory>
    ensures { IfOk result (λ bytes. bytes ≡ of.text_for (ty_view ty.now) (Some text.now)) }
{
    match ty {
        Ty::Array(_, length) => Ok(List::from_slice(alloc, literal_front(*length, text))?),
        _ => Ok(List::new(alloc)),
    }
}

/// The bytes of an expression that an array of this type takes: there are none but of a literal.
fn expression_text(alloc: Global, ty: &Ty, e: &Expr) -> Result<Bytes, OutOfMemory>
    ensures { IfOk result (λ bytes. bytes
        ≡ of.text_for (ty_view ty.now) (literal_in (expr_view e.now))) }
{
    match literal_in(e) {
        Some(text) => text_for(alloc, ty, text),
        None => Ok(List::new(alloc)),
    }
}

/// The bytes of a literal are stored.
fn store_text(
    alloc: Global,
    offset: u64,
    ty: &Ty,
    e: &Expr,
    parts: &mut Parts,
) -> Result<(), OutOfMemory>
    ensures { IfOk result (λ _. parts_view parts.new ≡ parts_view parts.old
        ++ text_part offset (of.text_for (ty_view ty.now) (literal_in (expr_view e.now))) ∷ []) }
{
    let bytes = expression_text(alloc, ty, e)?;
    parts.push(Part::Text { offset, bytes })?;
    Ok(())
}

/// How a value becomes one of a known type.
fn conversion_to(from: &Option<Ty>, to: &Ty) -> Conversion
    ensures { (e : Exp) → converted_by result e
        ≡ as_known_type (type_view from.now) (Some (ty_view to.now)) e }
{
    match from {
        Some(from) => type_conversion(from, to),
        None => Conversion::Missing,
    }
}

/// A value is stored, converted so.
fn store_scalar(
    alloc: Global,
    offset: u64,
    kind: Kind,
    conversion: Conversion,
    exp: Expression,
    parts: &mut Parts,
) -> Result<(), OutOfMemory>
    ensures { IfOk result (λ _. parts_view parts.new ≡ parts_view parts.old
        ++ scalar_part offset (kind_type kind)
        (converted_by conversion (expression_view exp)) ∷ []) }
{
    let value = converted(alloc, conversion, exp)?;
    parts.push(Part::Scalar {
        offset,
        kind,
        value,
    })?;
    Ok(())
}

/// A value is stored as one of this type: a struct is copied, and what has no scalar type isn't stored.
fn store_value(
    checker: &Checker,
    offset: u64,
    ty: &Ty,
    f: Found,
    parts: &mut Parts,
) -> Result<(), OutOfMemory>
    ensures { IfOk result (λ _. parts_view parts.new ≡ parts_view parts.old
        ++ of.value_stored (world_of checker.now) offset (ty_view ty.now) (found_view f)) }
{
    let alloc = checker.alloc();
    match ty {
        Ty::Struct(_) => {
            let size = size_of(checker, ty);
            parts.push(Part::Struct {
                offset,
                size,
                address: f.exp,
            })?;
            Ok(())
        }
        _ => match Kind::of(ty) {
            None => Ok(()),
            Some(kind) => {
                let conversion = conversion_to(&f.operand.ty, ty);
                store_scalar(alloc, offset, kind, conversion, f.exp, parts)
            }
        },
    }
}

/// An expression is stored at an offset as a value of a type, if this is known. A literal that initializes an array of
/// characters makes no object.
pub fn store_at(
    resolver: &mut Resolver,
    offset: u64,
    ty: &Option<Ty>,
    e: &Expr,
    f: Found,
    parts: &mut Parts,
) -> Result<(), OutOfMemory>
    ensures { IfOk result (λ _. IsReached
        (mapped (parts_behind (parts_view parts.old))
        (from (of.stored_at offset (type_view ty.now) (expr_view e.now) (found_view f))
        resolver.old))
        resolver.new (parts_view parts.new)) }
{
    match ty {
        None => Ok(()),
        Some(ty) => {
            if is_text_for(&f.operand, ty) {
                resolver.storage.take_back_literal();
                store_text(resolver.checker.alloc(), offset, ty, e, parts)
            } else {
                store_value(&resolver.checker, offset, ty, f, parts)
            }
        }
    }
}
