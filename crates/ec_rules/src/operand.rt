//! What is found out about an expression.

ghost use Rattle.std.specs.Prelude.{◌≡◌, IfOk};
ghost use Rattle.ec_ctypes.specs.views.Types.{ty_view};
ghost use Rattle.ec_scopes.specs.Entries.{type_view};
ghost use Rattle.ec_typing_defs.specs.Operands as rule;
ghost use Rattle.ec_rules.specs.Seen.{operand_view};

use ec_base::{Boxed, OutOfMemory};
use ec_ctypes::Ty;
use ec_type_rules::Constant;
use std::alloc::Global;

/// What is found out about an expression.
#[derive(Debug, Drop)]
pub struct Operand {
    /// Its type as C gives it, before an array is a pointer. There is none where a part has a fault.
    pub ty: Option<Ty>,
    /// Whether it is an lvalue (ISO/IEC 9899:1999, 6.3.2.1, 1).
    pub is_place: bool,
    /// Whether it is the result of `*`, whose address may be taken whatever its type (ISO/IEC 9899:1999, 6.5.3.2, 1).
    pub is_target: bool,
    /// What it is as an integer constant expression (ISO/IEC 9899:1999, 6.6, 6).
    pub constant: Constant,
    /// Whether it is the name of an object at file level.
    pub is_global: bool,
    /// Whether it may initialize an object at file level though it is no integer constant: a literal, `NULL`, the address
    /// of a global, the name of a global array. Of the result of `*`, whether its address may.
    pub is_fixed: bool,
    /// The number of bytes of a string literal.
    pub literal: Option<u64>,
}

impl Operand {
    /// A value of this type, of which nothing more is known.
    pub fn computed(ty: Option<Ty>) -> Operand
        ensures { operand_view result ≡ rule.computed (type_view ty) }
    {
        Operand {
            ty,
            is_place: false,
            is_target: false,
            constant: Constant::Variable,
            is_global: false,
            is_fixed: false,
            literal: None,
        }
    }

    /// An expression of which nothing is known, since a part has a fault.
    pub fn unknown() -> Operand
        ensures { operand_view result ≡ rule.unknown }
    {
        Operand::computed(None)
    }

    /// An integer constant, a character constant (ISO/IEC 9899:1999, 6.4.4.4, 10), `true` or `false`.
    pub fn integer(ty: Ty, value: i128) -> Operand
        ensures { operand_view result ≡ rule.integer_operand (ty_view ty) value }
    {
        Operand {
            ty: Some(ty),
            is_place: false,
            is_target: false,
            constant: Constant::Known(value),
            is_global: false,
            is_fixed: false,
            literal: None,
        }
    }

    /// An object.
    pub fn object(is_global: bool, ty: Option<Ty>) -> Operand
        ensures { operand_view result ≡ rule.object_operand is_global (type_view ty) }
    {
        Operand {
            ty,
            is_place: true,
            is_target: false,
            constant: Constant::Variable,
            is_global,
            is_fixed: false,
            literal: None,
        }
    }

    /// A string literal of so many bytes: an array of `char` with a zero byte at its end (ISO/IEC 9899:1999, 6.4.5, 5;
    /// 6.5.1, 4).
    pub fn literal(alloc: Global, length: u64) -> Result<Operand, OutOfMemory>
        ensures { IfOk result (λ o. operand_view o ≡ rule.literal_operand length) }
    {
        match length.checked_add(1) {
            Some(count) => Ok(Operand {
                ty: Some(Ty::Array(Boxed::new(alloc, Ty::Char)?, count)),
                is_place: true,
                is_target: false,
                constant: Constant::Variable,
                is_global: false,
                is_fixed: true,
                literal: Some(length),
            }),
            // Out of reach, which isn't proved: a literal has fewer bytes than its source, which has at most 2^24.
            None => Err(OutOfMemory),
        }
    }

    /// `NULL`, a null pointer (ISO/IEC 9899:1999, 7.17), here of type `void *`, and no integer.
    pub(crate) fn null_pointer(alloc: Global) -> Result<Operand, OutOfMemory>
        ensures { IfOk result (λ o. operand_view o ≡ rule.null_operand) }
    {
        Ok(Operand {
            ty: Some(Ty::Ptr(Boxed::new(alloc, Ty::Void)?)),
            is_place: false,
            is_target: false,
            constant: Constant::Variable,
            is_global: false,
            is_fixed: true,
            literal: None,
        })
    }

    /// Whether it is the integer constant 0, which is a null pointer (ISO/IEC 9899:1999, 6.3.2.3, 3).
    pub fn is_null(&self) -> bool
        ensures { result ≡ rule.is_null (operand_view self.now) }
    {
        self.constant.is_known_zero()
    }
}
