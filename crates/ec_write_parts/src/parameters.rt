//! Parameters of functions, from the tree that was read.

ghost use Rattle.std.specs.Prelude.{◌≡◌, ◌++◌, [], ◌∷◌, drop, map, OnOk};
ghost use Rattle.ec_ctypes.specs.views.Units.{param_view};
ghost use Rattle.ec_cwrite.specs.Writes.{Writes};
ghost use Rattle.ec_write_parts.specs.Written.{param_of};
ghost use Rattle.ec_writing_defs.specs.Programs.{param_chunks, some_params_chunks, params_inside, params_chunks};

use crate::expressions::{put_base, put_dims};
use ec_base::{Bytes, Line, OutOfMemory};
use ec_ctypes::{Param, Punct};
use ec_cwrite::{push_comma, push_mark, push_param_name, push_word};
use std::alloc::Global;

/// A parameter.
fn put_param(alloc: Global, out: &mut Bytes, line: Line, param: &Param) -> Result<(), OutOfMemory>
    ensures { OnOk result (Writes out.old out.new (param_chunks
        (param_of line.0 (param_view param.now)))) }
{
    put_base(alloc, out, line, &param.base)?;
    push_param_name(out, param.stars, &param.name)?;
    put_dims(alloc, out, line, &param.dims)?;
    Ok(())
}

/// Parameters, one after the other.
fn put_some_params(
    alloc: Global,
    out: &mut Bytes,
    line: Line,
    params: &[Param],
) -> Result<(), OutOfMemory>
    ensures { OnOk result (Writes out.old out.new (some_params_chunks
        (map (param_of line.0) (map param_view params.now)))) }
{
    for (at, param) in params.iter().enumerate() {
        push_comma(out, at > 0)?;
        put_param(alloc, out, line, param)?;
    }
    Ok(())
}

/// What stands in the parentheses of a function: `void` where it has no parameters.
fn put_params_inside(
    alloc: Global,
    out: &mut Bytes,
    line: Line,
    params: &[Param],
) -> Result<(), OutOfMemory>
    ensures { OnOk result (Writes out.old out.new (params_inside
        (map (param_of line.0) (map param_view params.now)))) }
{
    match params {
        [] => push_word(out, b"void"),
        [_, ..] => put_some_params(alloc, out, line, params),
    }
}

/// The parameters of a function on this line.
pub fn put_params(
    alloc: Global,
    out: &mut Bytes,
    line: Line,
    params: &[Param],
) -> Result<(), OutOfMemory>
    ensures { OnOk result (Writes out.old out.new (params_chunks
        (map (param_of line.0) (map param_view params.now)))) }
{
    push_mark(out, Punct::LeftParen)?;
    put_params_inside(alloc, out, line, params)?;
    push_mark(out, Punct::RightParen)?;
    Ok(())
}
