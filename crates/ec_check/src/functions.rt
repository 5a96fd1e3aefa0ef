//! Functions (ISO/IEC 9899:1999, 6.7.5.3 and 6.9.1).
#![tactic(auto, using(ec_scopes::proofs::Steps::noting), unfolding(ec_typing_defs::specs::Worlds::chain, ec_typing_defs::specs::Worlds::pure, ec_typing_defs::specs::Worlds::ask, ec_typing_defs::specs::Programs::result_rule, ec_typing_defs::specs::Programs::plain_param, ec_typing_defs::specs::Programs::begin_function, ec_typing_defs::specs::Worlds::know_better))]

ghost use Rattle.std.specs.Prelude.{◌≡◌, ◌||◌, map, Some, None, option_map, is_some, IfOk};
ghost use Rattle.ec_ctypes.specs.views.Embedded.{emb_view};
ghost use Rattle.ec_ctypes.specs.views.Types.{ty_view};
ghost use Rattle.ec_ctypes.specs.views.Stmts.{stmts_view};
ghost use Rattle.ec_ctypes.specs.views.Units.{param_view, func_view};
ghost use Rattle.ec_scopes.specs.Entries.{place_view, type_view, entry_view};
ghost use Rattle.ec_scopes.specs.Seen.{world_of, IsDone, Does};
ghost use Rattle.ec_typing_defs.specs.Programs as rule;
ghost use Rattle.ec_typing_defs.specs.Tables.{find};
ghost use Rattle.ec_typing_defs.specs.Worlds.{function};
ghost use Rattle.ec_check.specs.Functions.{types_view, numbered_as, function_begins, function_known, function_inside};

use crate::labels::add_all_labels;
use crate::objects::type_or_void;
use crate::statements::statements;
use ec_base::{Boxed, FaultKind, List, Name, OutOfMemory};
use ec_ctypes::{Func, Param, Stmt, Ty};
use ec_embedded_rules::Around;
use ec_embedded_rules::parts::Statements;
use ec_rules::{complete_rule, copy_type, declared_type, elements_rule, within_rule};
use ec_scopes::{Checker, Entry, Place, Table};
use ec_type_rules::{is_structure, is_void, same_type};
use ec_walk::{base, lengths};
use std::alloc::Global;

fn may_be_result(ty: &Option<Ty>) -> bool
    ensures { result ≡ rule.may_be_result (type_view ty.now) }
{
    match ty {
        Some(ty) => !is_structure(ty),
        None => true,
    }
}

fn may_be_param(ty: &Option<Ty>) -> bool
    ensures { result ≡ rule.may_be_param (type_view ty.now) }
{
    match ty {
        Some(ty) => !(is_structure(ty) || is_void(ty)),
        None => true,
    }
}

// The type, if it may be taken.
fn kept(ty: Option<Ty>, fits: bool) -> Option<Ty>
    ensures { type_view result ≡ rule.kept (type_view ty) fits }
{
    if fits { ty } else { None }
}

// A result is no struct by value, which ISO C would allow, or F14.
fn result_rule(checker: &mut Checker, at: Place, ty: Option<Ty>) -> Option<Ty>
    ensures { IsDone (rule.result_rule (place_view at) (type_view ty) (world_of checker.old))
        checker.old checker.new (type_view result) }
{
    let fits = may_be_result(&ty);
    checker.demand(at, FaultKind::F14, fits);
    kept(ty, fits)
}

// A parameter is no struct by value, which ISO C would allow, and not void, or F14.
fn plain_param(checker: &mut Checker, at: Place, ty: Option<Ty>) -> Option<Ty>
    ensures { IsDone (rule.plain_param (place_view at) (type_view ty) (world_of checker.old))
        checker.old checker.new (type_view result) }
{
    let fits = may_be_param(&ty);
    checker.demand(at, FaultKind::F14, fits);
    kept(ty, fits)
}

fn pointer_to(alloc: Global, ty: Option<Ty>) -> Result<Option<Ty>, OutOfMemory>
    ensures { IfOk result (λ made. type_view made ≡ rule.pointer_to (type_view ty)) }
{
    match ty {
        None => Ok(None),
        Some(ty) => Ok(Some(Ty::Ptr(Boxed::new(alloc, ty)?))),
    }
}

// A parameter that is written as an array of these is a pointer to its elements, whose type is complete (ISO/IEC
// 9899:1999, 6.7.5.2, 1 and 6.7.5.3, 7).
fn array_param(
    checker: &mut Checker,
    at: Place,
    element: Option<Ty>,
) -> Result<Option<Ty>, OutOfMemory>
    ensures { Does type_view (rule.array_param (place_view at) (type_view element)
        (world_of checker.old)) checker.old result checker.new }
{
    within_rule(checker, at, &element);
    let ty = complete_rule(checker, at, element);
    pointer_to(checker.alloc(), ty)
}

// The type of a parameter, where these are the lengths behind its name.
fn param_type(
    checker: &mut Checker,
    at: Place,
    ty: Option<Ty>,
    stars: u32,
    sizes: &[Option<u64>],
) -> Result<Option<Ty>, OutOfMemory>
    ensures { Does type_view (rule.param_type (place_view at) (type_view ty) stars sizes.now
        (world_of checker.old)) checker.old result checker.new }
{
    match sizes {
        [] => {
            let whole = declared_type(checker.alloc(), ty, stars, sizes)?;
            Ok(plain_param(checker, at, whole))
        }
        [_, inner @ ..] => {
            let element = declared_type(checker.alloc(), ty, stars, inner)?;
            array_param(checker, at, element)
        }
    }
}

// The name of a parameter, which it has in a definition, or F14 (ISO/IEC 9899:1999, 6.9.1, 5).
fn declare_param(
    checker: &mut Checker,
    at: Place,
    is_defined: bool,
    name: &Option<Name>,
    number: u32,
    ty: Option<Ty>,
) -> Result<(), OutOfMemory>
    ensures { Does (λ u. u) (rule.declare_param (place_view at) is_defined name.now number
        (type_view ty) (world_of checker.old)) checker.old result checker.new }
{
    match name {
        Some(name) => {
            let entry = Entry::Object {
                number,
                is_global: false,
                ty,
            };
            checker.declare(at, name.as_slice(), entry)
        }
        None => {
            checker.demand(at, FaultKind::F14, !is_defined);
            Ok(())
        }
    }
}

// One declaration more, of this type.
fn number_as(checker: &mut Checker, ty: &Option<Ty>) -> Result<(), OutOfMemory>
    ensures { Does (λ u. u) (numbered_as (type_view ty.now) (world_of checker.old))
        checker.old result checker.new }
{
    let copy = copy_type(checker.alloc(), ty)?;
    checker.number_as(type_or_void(copy))
}

// A parameter.
fn param(
    checker: &mut Checker,
    at: Place,
    is_defined: bool,
    p: &Param,
) -> Result<Option<Ty>, OutOfMemory>
    ensures { Does type_view (rule.param (place_view at) is_defined (param_view p.now)
        (world_of checker.old)) checker.old result checker.new }
{
    let b = base(checker, at, &p.base)?;
    let sizes = lengths(checker, at, p.dims.as_slice())?;
    elements_rule(checker, at, &b, p.stars, sizes.as_slice());
    let ty = param_type(checker, at, b, p.stars, sizes.as_slice())?;
    let number = checker.next_number()?;
    let copy = copy_type(checker.alloc(), &ty)?;
    declare_param(checker, at, is_defined, &p.name, number, copy)?;
    number_as(checker, &ty)?;
    Ok(ty)
}

// The parameters of a function, with their types.
fn params(
    checker: &mut Checker,
    at: Place,
    is_defined: bool,
    ps: &[Param],
) -> Result<List<Option<Ty>>, OutOfMemory>
    ensures { Does types_view (rule.params (place_view at) is_defined (map param_view ps.now)
        (world_of checker.old)) checker.old result checker.new }
{
    let mut types = List::new(checker.alloc());
    for p in ps {
        let ty = param(checker, at, is_defined, p)?;
        types.push(ty)?;
    }
    Ok(types)
}

// The same, as far as both are known.
fn agrees(a: &Option<Ty>, b: &Option<Ty>) -> bool
    ensures { result ≡ rule.agrees (type_view a.now) (type_view b.now) }
{
    match (a, b) {
        (Some(a), Some(b)) => same_type(a, b),
        _ => true,
    }
}

fn all_agree(a: &[Option<Ty>], b: &[Option<Ty>]) -> bool
    ensures { result ≡ rule.all_agree (types_view a.now) (types_view b.now) }
{
    let mut left = a;
    let mut right = b;
    while let [s, more @ ..] = left {
        match right {
            [] => return false,
            [t, others @ ..] => {
                if !agrees(s, t) {
                    return false;
                }
                left = more;
                right = others;
            }
        }
    }
    right.is_empty()
}

fn are_known(types: &[Option<Ty>]) -> bool
    ensures { result ≡ rule.are_known (types_view types.now) }
{
    for ty in types {
        if ty.is_none() {
            return false;
        }
    }
    true
}

// Whether functions with these results and parameters are one type, or have as many parameters where a type is missing.
fn is_same_function(r: &Option<Ty>, ps: &[Option<Ty>], s: &Option<Ty>, qs: &[Option<Ty>]) -> bool
    ensures { result ≡ rule.is_same_function (type_view r.now) (types_view ps.now)
        (type_view s.now) (types_view qs.now) }
{
    if ps.len() != qs.len() {
        return false;
    }
    let known = r.is_some() && s.is_some() && are_known(ps) && are_known(qs);
    !known || (agrees(r, s) && all_agree(ps, qs))
}

// Copies of these types.
fn copied_types(alloc: Global, types: &[Option<Ty>]) -> Result<List<Option<Ty>>, OutOfMemory>
    ensures { IfOk result (λ copy. copy ≡ types.now) }
{
    let mut copy = List::with_capacity(alloc, types.len())?;
    for ty in types {
        copy.push(copy_type(alloc, ty)?)?;
    }
    Ok(copy)
}

fn copied_params(
    alloc: Global,
    params: &Option<List<Option<Ty>>>,
) -> Result<Option<List<Option<Ty>>>, OutOfMemory>
    ensures { IfOk result (λ copy. copy ≡ params.now) }
{
    match params {
        None => Ok(None),
        Some(types) => Ok(Some(copied_types(alloc, types.as_slice())?)),
    }
}

// A copy of what a name stands for.
fn copied(alloc: Global, entry: &Entry) -> Result<Entry, OutOfMemory>
    ensures { IfOk result (λ copy. copy ≡ entry.now) }
{
    match entry {
        Entry::Object {
            number,
            is_global,
            ty,
        } => Ok(Entry::Object {
            number: *number,
            is_global: *is_global,
            ty: copy_type(alloc, ty)?,
        }),
        Entry::Function {
            number,
            is_done,
            result,
            params,
        } => {
            let kept = copied_params(alloc, params)?;
            Ok(Entry::Function {
                number: *number,
                is_done: *is_done,
                result: copy_type(alloc, result)?,
                params: kept,
            })
        }
    }
}

// What the name stands for in the innermost scope.
fn entry_before(checker: &Checker, name: &[u8]) -> Result<Option<Entry>, OutOfMemory>
    ensures { IfOk result (λ entry. option_map entry_view entry
        ≡ find name.now (world_of checker.now).here.names) }
{
    match checker.entry_here(name) {
        None => Ok(None),
        Some(entry) => Ok(Some(copied(checker.alloc(), entry)?)),
    }
}

// Whether a definition stands so far.
fn is_done(before: &Option<Entry>) -> bool
    ensures { result ≡ rule.is_done (option_map entry_view before.now) }
{
    match before {
        Some(Entry::Function { is_done, .. }) => *is_done,
        Some(Entry::Object { .. }) => false,
        None => false,
    }
}

// Whether a function may be declared again, with the same type, and defined once (ISO/IEC 9899:1999, 6.7, 4 and 6.9, 5).
fn may_follow(defines: bool, r: &Option<Ty>, ps: &[Option<Ty>], before: &Option<Entry>) -> bool
    ensures { result ≡ rule.may_follow defines (type_view r.now) (types_view ps.now)
        (option_map entry_view before.now) }
{
    match before {
        None => true,
        Some(Entry::Object { .. }) => false,
        Some(
            Entry::Function {
                is_done,
                result,
                params,
                ..
            },
        ) => match params {
            None => !(*is_done && defines),
            Some(qs) => { !(*is_done && defines) && is_same_function(r, ps, result, qs.as_slice()) }
        },
    }
}

// The body of a function, if it has one.
fn body_rule(
    checker: &mut Checker,
    embedded: &Statements<'_>,
    r: &Option<Ty>,
    body: &Option<List<Stmt>>,
) -> Result<(), OutOfMemory>
    ensures { Does (λ u. u) (rule.body_rule (map emb_view embedded.now) (type_view r.now)
        (option_map stmts_view body.now) (world_of checker.old)) checker.old result checker.new }
{
    match body {
        None => Ok(()),
        Some(ss) => {
            let mut labels = Table::new(checker.alloc());
            add_all_labels(checker.alloc(), ss.as_slice(), &mut labels)?;
            checker.no_labels();
            let around = Around {
                embedded,
                is_body: false,
                in_loop: false,
                labels: &labels,
                result: r,
            };
            statements(checker, around, ss.as_slice())
        }
    }
}

// What a function's name stands for, as far as it is known before its parameters.
fn begun_function(
    alloc: Global,
    number: u32,
    is_done: bool,
    r: &Option<Ty>,
) -> Result<Entry, OutOfMemory>
    ensures { IfOk result
        (λ entry. entry_view entry ≡ function number is_done (type_view r.now) None) }
{
    Ok(Entry::Function {
        number,
        is_done,
        result: copy_type(alloc, r)?,
        params: None,
    })
}

// What a function's name stands for behind its parameters.
fn known_function(
    alloc: Global,
    number: u32,
    is_done: bool,
    r: &Option<Ty>,
    params: List<Option<Ty>>,
) -> Result<Entry, OutOfMemory>
    ensures { IfOk result (λ entry. entry_view entry
        ≡ function number is_done (type_view r.now) (Some (types_view params))) }
{
    let kept = copy_type(alloc, r)?;
    Ok(Entry::Function {
        number,
        is_done,
        result: kept,
        params: Some(params),
    })
}

// Whether this is a definition.
fn defines(f: &Func) -> bool
    ensures { result ≡ is_some (func_view f.now).body }
{
    match &f.body {
        Some(_) => true,
        None => false,
    }
}

// Whether a definition stands behind this declaration or definition.
fn is_done_with(before: &Option<Entry>, f: &Func) -> bool
    ensures { result ≡ (rule.is_done (option_map entry_view before.now)
        || is_some (func_view f.now).body) }
{
    is_done(before) || defines(f)
}

// The name of a function stands for it with its parameters; F10 where it may not be declared again so.
fn know_function(
    checker: &mut Checker,
    f: &Func,
    at: Place,
    r: &Option<Ty>,
    number: u32,
    before: &Option<Entry>,
    types: List<Option<Ty>>,
) -> Result<(), OutOfMemory>
    ensures { Does (λ u. u) (function_known (func_view f.now) (place_view at) (type_view r.now)
        number (option_map entry_view before.now) (types_view types) (world_of checker.old))
        checker.old result checker.new }
{
    let follows = may_follow(defines(f), r, types.as_slice(), before);
    let done = is_done_with(before, f);
    let entry = known_function(checker.alloc(), number, done, r, types)?;
    checker.know_outside(f.name.as_slice(), entry)?;
    checker.demand(at, FaultKind::F10, follows);
    Ok(())
}

// The parameters and the body of a function, in a scope of their own.
fn function_inside(
    checker: &mut Checker,
    embedded: &Statements<'_>,
    f: &Func,
    at: Place,
    r: &Option<Ty>,
    number: u32,
    before: &Option<Entry>,
) -> Result<(), OutOfMemory>
    ensures { Does (λ u. u) (function_inside (map emb_view embedded.now) (func_view f.now)
        (place_view at) (type_view r.now) number (option_map entry_view before.now)
        (world_of checker.old)) checker.old result checker.new }
{
    checker.enter()?;
    let types = params(checker, at, defines(f), f.params.as_slice())?;
    know_function(checker, f, at, r, number, before, types)?;
    body_rule(checker, embedded, r, &f.body)?;
    checker.leave();
    Ok(())
}

// The name of a function stands for it before its parameters.
fn begin_function(
    checker: &mut Checker,
    f: &Func,
    at: Place,
    r: &Option<Ty>,
    number: u32,
    before: &Option<Entry>,
) -> Result<(), OutOfMemory>
    ensures { Does (λ u. u) (function_begins (func_view f.now) (place_view at) (type_view r.now)
        number (option_map entry_view before.now) (world_of checker.old))
        checker.old result checker.new }
{
    let name = f.name.as_slice();
    let done = is_done_with(before, f);
    let entry = begun_function(checker.alloc(), number, done, r)?;
    checker.know_better(name, entry)?;
    checker.free_name(at, name);
    number_as(checker, r)
}

/// A function, which is a place. Its parameters and its body are one scope (ISO/IEC 9899:1999, 6.2.1, 4).
pub fn function_rule(
    checker: &mut Checker,
    embedded: &Statements<'_>,
    f: &Func,
) -> Result<(), OutOfMemory>
    ensures { Does (λ u. u) (rule.function_rule (map emb_view embedded.now) (func_view f.now)
        (world_of checker.old)) checker.old result checker.new }
{
    let at = checker.place(f.line)?;
    let b = base(checker, at, &f.base)?;
    let none: [Option<u64>; 0] = [];
    let whole = declared_type(checker.alloc(), b, f.stars, &none)?;
    let r = result_rule(checker, at, whole);
    let number = checker.next_number()?;
    let before = entry_before(checker, f.name.as_slice())?;
    begin_function(checker, f, at, &r, number, &before)?;
    function_inside(checker, embedded, f, at, &r, number, &before)
}
