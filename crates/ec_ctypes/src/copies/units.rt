ghost use Rattle.std.specs.Prelude.{◌≡◌, IfOk};

use crate::copies::exprs::{copy_base, copy_dims};
use crate::copies::lists::copy_tag;
use crate::tree::Param;
use ec_base::OutOfMemory;
use std::alloc::Global;

/// A copy of a parameter.
pub fn copy_param(alloc: Global, param: &Param) -> Result<Param, OutOfMemory>
    ensures { IfOk result (λ copy. copy ≡ param.now) }
{
    let name = copy_tag(&param.name)?;
    let dims = copy_dims(alloc, &param.dims)?;
    Ok(Param {
        base: copy_base(alloc, &param.base)?,
        stars: param.stars,
        name,
        dims,
        section: param.section,
    })
}
