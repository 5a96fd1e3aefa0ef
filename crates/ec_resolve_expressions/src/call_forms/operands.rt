//! What is found out about arguments, apart from their forms.

ghost use Rattle.std.specs.Prelude.{◌≡◌, IfOk};
ghost use Rattle.ec_resolve_forms.specs.Seen.{founds_view};
ghost use Rattle.ec_resolving_defs.specs.Operands as rule;
ghost use Rattle.ec_rules.specs.Seen.{operand_view, operands_view};

use ec_base::{List, OutOfMemory};
use ec_resolve_forms::Found;
use ec_rules::{Operand, copy_type};
use std::alloc::Global;

/// A copy of what is found out about an expression.
fn copied(alloc: Global, operand: &Operand) -> Result<Operand, OutOfMemory>
    ensures { IfOk result (λ copy. operand_view copy ≡ operand_view operand.now) }
{
    Ok(Operand {
        ty: copy_type(alloc, &operand.ty)?,
        is_place: operand.is_place,
        is_target: operand.is_target,
        constant: operand.constant,
        is_global: operand.is_global,
        is_fixed: operand.is_fixed,
        literal: operand.literal,
    })
}

/// What is found out about these arguments, without their forms.
pub(crate) fn operands_of(alloc: Global, fs: &[Found]) -> Result<List<Operand>, OutOfMemory>
    ensures { IfOk result (λ operands. operands_view operands
        ≡ rule.operands_of (founds_view fs.now)) }
{
    let mut operands = List::with_capacity(alloc, fs.len())?;
    for f in fs {
        let operand = copied(alloc, &f.operand)?;
        operands.push(operand)?;
    }
    Ok(operands)
}
