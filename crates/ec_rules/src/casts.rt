//! Casts (ISO/IEC 9899:1999, 6.5.4) and sizes (6.5.3.4).
#![tactic(auto, using(ec_scopes::proofs::Steps::noting), unfolding(ec_typing_defs::specs::Worlds::chain, ec_typing_defs::specs::Worlds::pure, ec_typing_defs::specs::Worlds::ask, ec_typing_defs::specs::Worlds::note, ec_typing_defs::specs::Worlds::demand, ec_typing_defs::specs::Worlds::keep_within, ec_typing_defs::specs::Operands::value_rule, ec_typing_defs::specs::Operands::scalar_cast, ec_typing_defs::specs::Operands::cast_rule, ec_typing_defs::specs::Operands::size_rule))]

ghost use Rattle.std.specs.Prelude.{◌≡◌, Option, Some};
ghost use Rattle.ec_ctypes.specs.views.Types.{ty_view};
ghost use Rattle.ec_scopes.specs.Entries.{place_view, type_view};
ghost use Rattle.ec_scopes.specs.Seen.{world_of, IsDone, Does};
ghost use Rattle.ec_ctypes.specs.declared.types.sizes.Shape.{Shape as ShapeData};
ghost use Rattle.ec_scopes.specs.Measures.{measured};
ghost use Rattle.ec_type_rules.specs.Views.{constant_view};
ghost use Rattle.ec_typing_defs.specs.Types.{size_type};
ghost use Rattle.ec_typing_defs.specs.Constants.{trapping};
ghost use Rattle.ec_typing_defs.specs.Operands as rule;
ghost use Rattle.ec_rules.specs.Seen.{operand_view, void_cast};

use crate::faults::{allowed, fault, typed};
use crate::operand::Operand;
use crate::values::value_rule;
use ec_base::FaultKind;
use ec_ctypes::Ty;
use ec_scopes::{Checker, Measure, Place};
use ec_type_rules::{Constant, cast_constant, is_void, may_be_cast};

/// A cast (ISO/IEC 9899:1999, 6.5.4, 2). To `void` it takes any expression and needs no value; else it takes a scalar to
/// a scalar type, or F14.
pub fn cast_rule(checker: &mut Checker, at: Place, to: Option<Ty>, o: Operand) -> Operand
    ensures { IsDone (rule.cast_rule (place_view at) (type_view to) (operand_view o)
        (world_of checker.old)) checker.old checker.new (operand_view result) }
{
    match to {
        None => Operand::unknown(),
        Some(to) if is_void(&to) => void_cast(&o),
        Some(to) => {
            let value = value_rule(checker, at, o);
            scalar_cast(checker, at, to, value)
        }
    }
}

/// A cast to `void`.
fn void_cast(o: &Operand) -> Operand
    ensures { operand_view result ≡ void_cast (operand_view o.now) }
{
    match &o.ty {
        None => Operand::unknown(),
        Some(_) => Operand::computed(Some(Ty::Void)),
    }
}

/// A cast of a value to another type than `void`.
fn scalar_cast(checker: &mut Checker, at: Place, to: Ty, o: Operand) -> Operand
    ensures { IsDone (rule.scalar_cast (place_view at) (ty_view to) (operand_view o)
        (world_of checker.old)) checker.old checker.new (operand_view result) }
{
    let Operand { ty, constant, .. } = o;
    match ty {
        None => Operand::unknown(),
        Some(from) => {
            let constant = cast_value(&to, constant, &from);
            let allows = may_be_cast(&to, &from);
            let mut answer = typed(checker, at, allowed(allows, to));
            answer.constant = constant;
            answer
        }
    }
}

/// What a cast is as a constant.
fn cast_value(to: &Ty, constant: Constant, from: &Ty) -> Constant
    ensures { constant_view result
        ≡ rule.cast_value (ty_view to.now) (constant_view constant) (ty_view from.now) }
{
    match (to.arith(), from.arith()) {
        (Some(a), Some(_)) => cast_constant(a, constant),
        (Some(_), None) => Constant::Variable,
        (None, Some(_)) => Constant::Variable,
        (None, None) => Constant::Variable,
    }
}

/// `sizeof` of a type (ISO/IEC 9899:1999, 6.5.3.4): F14 where it is incomplete.
pub fn size_rule(checker: &mut Checker, at: Place, ty: Option<Ty>) -> Operand
    ensures { IsDone (rule.size_rule (place_view at) (type_view ty) (world_of checker.old))
        checker.old checker.new (operand_view result) }
{
    match ty {
        None => Operand::unknown(),
        Some(ty) => {
            if !checker.is_complete(&ty) {
                return fault(checker, at, FaultKind::F14);
            }
            size_operand(checker.shape(&ty))
        }
    }
}

/// The size of a complete type. One that is larger than the limit has none, and where a member has no type, nothing is
/// known.
fn size_operand(measure: Measure) -> Operand
    ensures { (shape : Option ShapeData) → measure ≡ measured shape
        → operand_view result ≡ rule.size_operand shape }
{
    match measure {
        Measure::Unknown => Operand::unknown(),
        Measure::Within(shape) => Operand::integer(Ty::ULong, i128::from(shape.size)),
        Measure::TooLarge => size_without_value(),
    }
}

/// The size of a type that is larger than the limit.
fn size_without_value() -> Operand
    ensures { operand_view result
        ≡ record (rule.computed (Some size_type)) { constant = trapping } }
{
    let mut size = Operand::computed(Some(Ty::ULong));
    size.constant = Constant::Trapping;
    size
}
