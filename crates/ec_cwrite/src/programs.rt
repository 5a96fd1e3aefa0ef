//! Functions and programs, put at the end of a text.

ghost use Rattle.std.specs.Prelude.{◌≡◌, ◌++◌, [], ◌∷◌, drop, map, option_map, Some, OnOk, IfOk};
ghost use Rattle.ec_ctypes.specs.trees.Units.{include_top, decl_top, func_top};
ghost use Rattle.ec_ctypes.specs.views.Exprs.{decl_view};
ghost use Rattle.ec_ctypes.specs.views.Stmts.{stmts_view};
ghost use Rattle.ec_ctypes.specs.views.Units.{param_view, func_view, top_view, unit_view};
ghost use Rattle.ec_cwrite.specs.Writes.{Writes};
ghost use Rattle.ec_writing_defs.specs.Programs.{param_name, param_chunks, some_params_chunks, params_inside, params_chunks, body_chunks, func_chunks, top_chunks, tops_chunks, written_text};

use crate::expressions::{
    push_base, push_comma, push_decl, push_dims, push_stars, push_stars_behind,
};
use crate::statements::push_block;
use crate::text::{push_blank, push_include, push_line, push_line_end, push_mark, push_word};
use ec_base::{Bytes, List, Name, OutOfMemory};
use ec_ctypes::{Decl, Func, Param, Punct, Stmt, Top, Unit};

/// A blank, stars and a name.
fn push_stars_and_name(out: &mut Bytes, stars: u32, name: &[u8]) -> Result<(), OutOfMemory>
    ensures { OnOk result (Writes out.old out.new (param_name stars (Some name.now))) }
{
    push_blank(out)?;
    push_stars(out, stars)?;
    push_word(out, name)?;
    Ok(())
}

/// The stars and the name of a parameter, if it has one.
pub fn push_param_name(out: &mut Bytes, stars: u32, name: &Option<Name>) -> Result<(), OutOfMemory>
    ensures { OnOk result (Writes out.old out.new (param_name stars name.now)) }
{
    match name {
        Some(name) => push_stars_and_name(out, stars, name.as_slice()),
        None => push_stars_behind(out, stars),
    }
}

/// A parameter.
fn push_param(out: &mut Bytes, param: &Param) -> Result<(), OutOfMemory>
    ensures { OnOk result (Writes out.old out.new (param_chunks (param_view param.now))) }
{
    push_base(out, &param.base)?;
    push_param_name(out, param.stars, &param.name)?;
    push_dims(out, param.dims.as_slice())?;
    Ok(())
}

/// Parameters, one after the other.
fn push_some_params(out: &mut Bytes, params: &[Param]) -> Result<(), OutOfMemory>
    ensures { OnOk result (Writes out.old out.new (some_params_chunks
        (map param_view params.now))) }
{
    for (at, param) in params.iter().enumerate() {
        push_comma(out, at > 0)?;
        push_param(out, param)?;
    }
    Ok(())
}

/// What stands in the parentheses of a function: `void` where it has no parameters.
fn push_params_inside(out: &mut Bytes, params: &[Param]) -> Result<(), OutOfMemory>
    ensures { OnOk result (Writes out.old out.new (params_inside (map param_view params.now))) }
{
    match params {
        [] => push_word(out, b"void"),
        [_, ..] => push_some_params(out, params),
    }
}

/// The parameters of a function.
fn push_params(out: &mut Bytes, params: &[Param]) -> Result<(), OutOfMemory>
    ensures { OnOk result (Writes out.old out.new (params_chunks (map param_view params.now))) }
{
    push_mark(out, Punct::LeftParen)?;
    push_params_inside(out, params)?;
    push_mark(out, Punct::RightParen)?;
    Ok(())
}

/// The body of a function, or the semicolon of a declaration.
fn push_body(out: &mut Bytes, body: &Option<List<Stmt>>) -> Result<(), OutOfMemory>
    ensures { OnOk result (Writes out.old out.new (body_chunks (option_map stmts_view body.now))) }
{
    match body {
        Some(stmts) => {
            push_line_end(out)?;
            push_block(out, stmts.as_slice())?;
            Ok(())
        }
        None => push_mark(out, Punct::Semicolon),
    }
}

/// A function, without its line.
fn push_func(out: &mut Bytes, func: &Func) -> Result<(), OutOfMemory>
    ensures { OnOk result (Writes out.old out.new (func_chunks (func_view func.now))) }
{
    push_base(out, &func.base)?;
    push_blank(out)?;
    push_stars(out, func.stars)?;
    push_word(out, func.name.as_slice())?;
    push_params(out, func.params.as_slice())?;
    push_body(out, &func.body)?;
    Ok(())
}

/// A function on its line.
fn push_func_top(out: &mut Bytes, func: &Func) -> Result<(), OutOfMemory>
    ensures { OnOk result (Writes out.old out.new (top_chunks (func_top (func_view func.now)))) }
{
    push_line(out, func.line)?;
    push_func(out, func)?;
    push_line_end(out)?;
    Ok(())
}

/// A declaration on its line.
fn push_decl_top(out: &mut Bytes, decl: &Decl) -> Result<(), OutOfMemory>
    ensures { OnOk result (Writes out.old out.new (top_chunks (decl_top (decl_view decl.now)))) }
{
    push_line(out, decl.line)?;
    push_decl(out, decl)?;
    push_line_end(out)?;
    Ok(())
}

/// An `#include` line, which has no line `#line` before it.
pub fn push_include_top(out: &mut Bytes, bytes: &[u8]) -> Result<(), OutOfMemory>
    ensures { OnOk result (Writes out.old out.new (top_chunks (include_top bytes.now))) }
{
    push_include(out, bytes)?;
    push_line_end(out)?;
    Ok(())
}

/// What stands at the top level. Directives and marks are no C and leave nothing.
fn push_top(out: &mut Bytes, top: &Top) -> Result<(), OutOfMemory>
    ensures { OnOk result (Writes out.old out.new (top_chunks (top_view top.now))) }
{
    match top {
        Top::Include(bytes) => push_include_top(out, bytes.as_slice()),
        Top::Decl(decl) => push_decl_top(out, decl),
        Top::Func(func) => push_func_top(out, func.get()),
        Top::Directive(_) | Top::Mark(_, _) => Ok(()),
    }
}

/// All that stands at the top level.
fn push_tops(out: &mut Bytes, tops: &[Top]) -> Result<(), OutOfMemory>
    ensures { OnOk result (Writes out.old out.new (tops_chunks (map top_view tops.now))) }
{
    for top in tops {
        push_top(out, top)?;
    }
    Ok(())
}

/// The written C of a program, as its layout has it (`docs/LANGUAGE.md`). It takes time and memory by the length of the
/// text, and a stack by the depth of the tree.
pub fn write(unit: &Unit) -> Result<Bytes, OutOfMemory>
    ensures { IfOk result (λ text. text ≡ written_text (unit_view unit.now)) }
{
    let mut out = Bytes::new(unit.tops.allocator());
    out.extend_from_slice(b"#include <ecpglib.h>\n#include <sqlca.h>\n")?;
    push_tops(&mut out, unit.tops.as_slice())?;
    Ok(out)
}
