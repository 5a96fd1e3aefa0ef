//! The lengths of VARCHARs.

ghost use Rattle.std.specs.Prelude.{◌≡◌};
ghost use Rattle.ec_ctypes.specs.views.Exprs.{expr_view, expr_option_view, dim_of, dims_view};
ghost use Rattle.ec_ctypes.specs.views.Types.{ty_view};
ghost use Rattle.ec_declare.specs.Seen.{plain_option_view};
ghost use Rattle.ec_host_defs.specs.sections.Lengths as spec;
ghost use Rattle.ec_typing_defs.specs.Types as rule;

use ec_ctypes::{Arith, BinOp, Expr, Ty, UnOp, promote, usual};
use ec_type_rules::{Constant, binary_constant, unary_constant};

/// A constant with its type.
#[derive(Clone, Copy, Debug)]
pub(crate) struct PlainConstant {
    pub ty: Arith,
    pub value: Constant,
}

/// An integer constant.
fn plain_integer(value: u64, ty: &Ty) -> Option<PlainConstant>
    ensures { plain_option_view result ≡ spec.plain_integer value (ty_view ty.now) }
{
    match ty.arith() {
        Some(ty) => Some(PlainConstant {
            ty,
            value: Constant::Known(value as i128),
        }),
        None => None,
    }
}

/// A unary operation.
fn plain_unary(op: UnOp, operand: Option<PlainConstant>) -> Option<PlainConstant>
    ensures { plain_option_view result ≡ spec.plain_unary op (plain_option_view operand) }
{
    let operand = operand?;
    let ty = match op {
        UnOp::Addr | UnOp::Deref => return None,
        UnOp::Not => Arith::Int,
        UnOp::Plus | UnOp::Minus | UnOp::Flip => promote(operand.ty),
    };
    Some(PlainConstant {
        ty,
        value: unary_constant(op, operand.ty, operand.value),
    })
}

/// The type of an operation of two integers.
fn integer_operation(op: BinOp, a: Arith, b: Arith) -> Arith
    ensures { result ≡ rule.integer_operation op a b }
{
    match op {
        BinOp::Or | BinOp::And | BinOp::Eq | BinOp::Ne => Arith::Int,
        BinOp::Lt | BinOp::Gt | BinOp::Le | BinOp::Ge => Arith::Int,
        BinOp::Shl | BinOp::Shr => promote(a),
        _ => usual(a, b),
    }
}

/// A binary operation.
fn plain_binary(
    op: BinOp,
    left: Option<PlainConstant>,
    right: Option<PlainConstant>,
) -> Option<PlainConstant>
    ensures { plain_option_view result
        ≡ spec.plain_binary op (plain_option_view left) (plain_option_view right) }
{
    let left = left?;
    let right = right?;
    Some(PlainConstant {
        ty: integer_operation(op, left.ty, right.ty),
        value: binary_constant(op, left.ty, right.ty, left.value, right.value),
    })
}

/// The value of an expression that is made of integer and character constants and operators alone.
fn plain(expr: &Expr) -> Option<PlainConstant>
    ensures { plain_option_view result ≡ spec.plain (expr_view expr.now) }
{
    match expr {
        Expr::Int(value, ty) => plain_integer(*value, ty),
        Expr::Char(value) => Some(PlainConstant {
            ty: Arith::Int,
            value: Constant::Known(*value as i128),
        }),
        Expr::Unary(op, operand) => plain_unary(*op, plain(operand.get())),
        Expr::Binary(op, left, right) => {
            plain_binary(*op, plain(left.get()), plain(right.get()))
        }
        _ => None,
    }
}

/// Whether the value is 1 or more.
fn is_length_value(value: Option<PlainConstant>) -> bool
    ensures { result ≡ spec.is_length_value (plain_option_view value) }
{
    match value {
        Some(plain) => match plain.value {
            Constant::Known(value) => value > 0,
            _ => false,
        },
        None => false,
    }
}

/// Whether this is a constant of 1 or more.
fn is_length(dim: &Option<Expr>) -> bool
    ensures { result ≡ spec.is_length (dim_of (expr_option_view dim.now)) }
{
    match dim {
        Some(length) => is_length_value(plain(length)),
        None => false,
    }
}

/// Whether the last of these lengths is a constant of 1 or more.
pub(crate) fn ends_in_length(dims: &[Option<Expr>]) -> bool
    ensures { result ≡ spec.ends_in_length (dims_view dims.now) }
{
    let mut left = dims;
    while let [dim, rest @ ..] = left {
        if rest.is_empty() {
            return is_length(dim);
        }
        left = rest;
    }
    false
}
