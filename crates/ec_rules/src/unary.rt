//! Unary operators (ISO/IEC 9899:1999, 6.5.3).
#![tactic(auto, using(ec_scopes::proofs::Steps::noting), unfolding(ec_typing_defs::specs::Worlds::chain, ec_typing_defs::specs::Worlds::pure, ec_typing_defs::specs::Worlds::ask, ec_typing_defs::specs::Worlds::note, ec_typing_defs::specs::Worlds::demand, ec_typing_defs::specs::Worlds::keep_within, ec_typing_defs::specs::Operands::address_rule, ec_typing_defs::specs::Operands::target_rule, ec_typing_defs::specs::Operands::sign_rule))]

ghost use Rattle.std.specs.Prelude.{◌≡◌};
ghost use Rattle.ec_scopes.specs.Entries.{place_view, type_view};
ghost use Rattle.ec_scopes.specs.Seen.{world_of, IsDone, Does};
ghost use Rattle.ec_ctypes.specs.views.Types.{ty_view};
ghost use Rattle.ec_type_rules.specs.Views.{constant_view};
ghost use Rattle.ec_typing_defs.specs.Operands as rule;
ghost use Rattle.ec_rules.specs.Seen.{operand_view};

use crate::faults::{allowed, fault, typed};
use crate::operand::Operand;
use ec_base::{Boxed, FaultKind, OutOfMemory};
use ec_ctypes::{Ty, UnOp};
use ec_scopes::{Checker, Place};
use ec_type_rules::{Constant, is_scalar, is_void, sign_type, unary_constant};

/// `&` (ISO/IEC 9899:1999, 6.5.3.2): F15 where the operand is no place. `&*p` is p, also where p points to `void`.
pub fn address_rule(checker: &mut Checker, at: Place, o: Operand) -> Result<Operand, OutOfMemory>
    ensures { Does operand_view (rule.address_rule (place_view at) (operand_view o)
        (world_of checker.old)) checker.old result checker.new }
{
    let Operand {
        ty,
        is_place,
        is_target,
        is_global,
        is_fixed,
        ..
    } = o;
    match ty {
        None => Ok(Operand::unknown()),
        Some(_) if !(is_place || is_target) => Ok(fault(checker, at, FaultKind::F15)),
        Some(ty) => Ok(Operand {
            ty: Some(Ty::Ptr(Boxed::new(checker.alloc(), ty)?)),
            is_place: false,
            is_target: false,
            constant: Constant::Variable,
            is_global: false,
            is_fixed: is_global || (is_target && is_fixed),
            literal: None,
        }),
    }
}

/// `*` of a pointer, or F14 (ISO/IEC 9899:1999, 6.5.3.2, 2).
fn target_rule(checker: &mut Checker, at: Place, o: Operand) -> Operand
    ensures { IsDone (rule.target_rule (place_view at) (operand_view o) (world_of checker.old))
        checker.old checker.new (operand_view result) }
{
    let Operand { ty, is_fixed, .. } = o;
    match ty {
        None => Operand::unknown(),
        Some(Ty::Ptr(to)) => target(is_fixed, to.into_inner()),
        Some(_) => fault(checker, at, FaultKind::F14),
    }
}

/// What a pointer points to, by whether the pointer may initialize an object at file level.
fn target(is_fixed: bool, ty: Ty) -> Operand
    ensures { operand_view result ≡ rule.target is_fixed (ty_view ty) }
{
    let is_place = !is_void(&ty);
    Operand {
        ty: Some(ty),
        is_place,
        is_target: true,
        constant: Constant::Variable,
        is_global: false,
        is_fixed,
        literal: None,
    }
}

/// `+`, `-`, `~` and `!` (ISO/IEC 9899:1999, 6.5.3.3).
fn sign_rule(checker: &mut Checker, at: Place, op: UnOp, o: Operand) -> Operand
    ensures { IsDone (rule.sign_rule (place_view at) op (operand_view o) (world_of checker.old))
        checker.old checker.new (operand_view result) }
{
    let Operand { ty, constant, .. } = o;
    match ty {
        None => Operand::unknown(),
        Some(ty) => {
            let constant = sign_constant(op, &ty, constant);
            let mut answer = typed(checker, at, unary_type(op, &ty));
            answer.constant = constant;
            answer
        }
    }
}

/// The type of `!` of a scalar, which is `int` (ISO/IEC 9899:1999, 6.5.3.3, 1 and 5), and of `+`, `-` and `~` of an
/// integer.
fn unary_type(op: UnOp, ty: &Ty) -> Option<Ty>
    ensures { type_view result ≡ rule.unary_type op (ty_view ty.now) }
{
    match op {
        UnOp::Not => allowed(is_scalar(ty), Ty::Int),
        _ => sign_type(ty),
    }
}

/// What `+`, `-`, `~` or `!` is as a constant.
fn sign_constant(op: UnOp, ty: &Ty, constant: Constant) -> Constant
    ensures { constant_view result
        ≡ rule.sign_constant op (ty_view ty.now) (constant_view constant) }
{
    match ty.arith() {
        Some(a) => unary_constant(op, a, constant),
        None => Constant::Variable,
    }
}

/// A unary operator but `&`.
pub fn unary_rule(checker: &mut Checker, at: Place, op: UnOp, o: Operand) -> Operand
    ensures { IsDone (rule.unary_rule (place_view at) op (operand_view o) (world_of checker.old))
        checker.old checker.new (operand_view result) }
{
    match op {
        UnOp::Deref => target_rule(checker, at, o),
        _ => sign_rule(checker, at, op, o),
    }
}
