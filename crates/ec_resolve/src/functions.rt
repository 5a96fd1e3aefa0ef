//! Functions (ISO/IEC 9899:1999, 6.9.1).
#![tactic(auto, unfolding(ec_resolving_defs::specs::Storage::chain, ec_resolving_defs::specs::Storage::pure, ec_resolving_defs::specs::Storage::checks, ec_resolving_defs::specs::Storage::ask, ec_resolving_defs::specs::Storage::stored, ec_resolving_defs::specs::Storage::arrange))]

ghost use Rattle.std.specs.Prelude.{◌≡◌, [], length, map, option_map, IfOk, List, Option};
ghost use Rattle.ec_ctypes.specs.trees.Types.{TyData};
ghost use Rattle.ec_ctypes.specs.views.Stmts.{stmts_view};
ghost use Rattle.ec_ctypes.specs.views.Units.{func_view};
ghost use Rattle.ec_resolve_forms.specs.Seen.{from, Reaches};
ghost use Rattle.ec_memory_defs.specs.Kinds.{kind_type};
ghost use Rattle.ec_resolving_defs.specs.Programs as rule;
ghost use Rattle.ec_resolving_defs.specs.Storage.{in_block};
ghost use Rattle.ec_scopes.specs.Entries.{place_view, type_view};
ghost use Rattle.ec_values.specs.Words.{word_view};
ghost use Rattle.ec_resolve.specs.Functions.{body_option_view, function_begun, function_inside, function_of, function_parts, sizes_alone};

use crate::params::params;
use ec_base::{List, OutOfMemory};
use ec_code::{Function, ObjectSize};
use ec_ctypes::{Func, Stmt, Ty};
use ec_memory_defs::Kind;
use ec_resolve_expressions::base;
use ec_resolve_forms::Resolver;
use ec_resolve_parts::{
    begin_function, defines, is_done_with, know_function, parameter_kinds, result_rule,
};
use ec_resolve_statements::{Body, function_body};
use ec_resolve_values::storage::Site;
use ec_rules::declared_type;
use ec_scopes::Place;
use ec_values::Word;

/// What `main` gives where it ends without `return` (ISO/IEC 9899:1999, 5.1.2.2.3).
fn value_at_end(name: &[u8]) -> Option<Word>
    ensures { option_map word_view result ≡ rule.value_at_end name.now }
{
    if name == b"main".as_slice() {
        Some(Word::Signed(0))
    } else {
        None
    }
}

/// The body of a function, if it has one.
fn body_rule(
    resolver: &mut Resolver,
    r: &Option<Ty>,
    body: &Option<List<Stmt>>,
) -> Result<Option<Body>, OutOfMemory>
    ensures { Reaches body_option_view
        (from (rule.body_rule [] (type_view r.now) (option_map stmts_view body.now)) resolver.old)
        result resolver.new }
{
    match body {
        None => Ok(None),
        Some(ss) => {
            let made = function_body(resolver, r, ss.as_slice())?;
            Ok(Some(made))
        }
    }
}

/// One function more, if this defines one, whose parameters have types of these scalar types.
fn function_made(
    resolver: &mut Resolver,
    name: &[u8],
    parameters: List<Kind>,
    body: Option<Body>,
) -> Result<(), OutOfMemory>
    ensures { (types : List (Option TyData)) → map kind_type parameters
        ≡ map rule.parameter_kind types → Reaches (λ u. u)
        (from (rule.function_made name.now types (body_option_view body)) resolver.old)
        result resolver.new }
{
    match body {
        None => Ok(()),
        Some(body) => {
            let Body {
                objects,
                statements,
            } = body;
            resolver.storage.add_function(Function {
                parameters,
                objects,
                body: statements,
                otherwise: value_at_end(name),
            })?;
            Ok(())
        }
    }
}

/// The parameters and the body of a function.
fn in_function(
    resolver: &mut Resolver,
    f: &Func,
    at: Place,
    r: &Option<Ty>,
    number: u32,
    is_done: bool,
) -> Result<(), OutOfMemory>
    ensures { Reaches (λ u. u)
        (from (rule.in_function [] (place_view at) (func_view f.now) number is_done
        (type_view r.now)) resolver.old)
        result resolver.new }
{
    let name = f.name.as_slice();
    let types = params(resolver, at, defines(f), f.params.as_slice())?;
    let kinds = parameter_kinds(resolver.checker.alloc(), types.as_slice())?;
    know_function(&mut resolver.checker, name, r, number, is_done, types)?;
    let body = body_rule(resolver, r, &f.body)?;
    function_made(resolver, name, kinds, body)
}

/// How many parameters a function has.
fn count_of_params(f: &Func) -> Result<u32, OutOfMemory>
    ensures { IfOk result (λ n. n ≡ length (func_view f.now).params) }
{
    let count = f.params.as_slice().len();
    if count > u32::MAX as usize {
        // Out of reach, which isn't proved: a source has at most 2^22 tokens, so it has fewer parameters.
        return Err(OutOfMemory);
    }
    Ok(count as u32)
}

/// The same in a block of the parameters: the sizes of these.
fn function_block(
    resolver: &mut Resolver,
    f: &Func,
    at: Place,
    r: &Option<Ty>,
    number: u32,
    is_done: bool,
) -> Result<List<ObjectSize>, OutOfMemory>
    ensures { Reaches sizes_alone
        (from (in_block (length (func_view f.now).params)
        (rule.in_function [] (place_view at) (func_view f.now) number is_done
        (type_view r.now))) resolver.old)
        result resolver.new }
{
    let count = count_of_params(f)?;
    let outer = resolver.storage.enter_block(count)?;
    in_function(resolver, f, at, r, number, is_done)?;
    Ok(resolver.storage.leave_block(outer))
}

/// The name of a function stands for it before its parameters.
#[tactic(auto, unfolding(ec_resolving_defs::specs::Storage::chain, ec_resolving_defs::specs::Storage::checks, ec_resolving_defs::specs::Storage::arrange, ec_typing_defs::specs::Worlds::chain))]
fn function_begun(
    resolver: &mut Resolver,
    f: &Func,
    r: &Option<Ty>,
    number: u32,
    is_done: bool,
) -> Result<(), OutOfMemory>
    ensures { Reaches (λ u. u)
        (from (function_begun (func_view f.now).name (type_view r.now) number is_done)
        resolver.old)
        result resolver.new }
{
    begin_function(&mut resolver.checker, f.name.as_slice(), r, number, is_done)?;
    resolver.storage.add_site(Site::Nowhere)?;
    resolver.checker.enter()?;
    Ok(())
}

/// What the name of a function stands for, and its parameters and body in a scope of their own.
fn function_inside(
    resolver: &mut Resolver,
    f: &Func,
    at: Place,
    r: &Option<Ty>,
    number: u32,
    is_done: bool,
) -> Result<(), OutOfMemory>
    ensures { Reaches (λ u. u)
        (from (function_inside (func_view f.now) (place_view at) (type_view r.now) number is_done)
        resolver.old)
        result resolver.new }
{
    function_begun(resolver, f, r, number, is_done)?;
    let _sizes = function_block(resolver, f, at, r, number, is_done)?;
    resolver.checker.leave();
    Ok(())
}

/// A function with a result of this type, if it is known.
fn function_of(
    resolver: &mut Resolver,
    f: &Func,
    at: Place,
    r: &Option<Ty>,
) -> Result<(), OutOfMemory>
    ensures { Reaches (λ u. u)
        (from (function_of (func_view f.now) (place_view at) (type_view r.now)) resolver.old)
        result resolver.new }
{
    let number = resolver.checker.next_number()?;
    let is_done = is_done_with(&resolver.checker, f);
    function_inside(resolver, f, at, r, number, is_done)
}

/// A function, part by part.
fn function_parts(resolver: &mut Resolver, f: &Func) -> Result<(), OutOfMemory>
    ensures { Reaches (λ u. u) (from (function_parts (func_view f.now)) resolver.old)
        result resolver.new }
{
    let at = resolver.checker.place(f.line)?;
    let b = base(resolver, at, &f.base)?;
    let none: [Option<u64>; 0] = [];
    let whole = declared_type(resolver.checker.alloc(), b, f.stars, &none)?;
    let r = result_rule(&mut resolver.checker, at, whole);
    function_of(resolver, f, at, &r)
}

/// A function: what its name stands for, and its form, where this defines it.
pub(crate) fn function_rule(resolver: &mut Resolver, f: &Func) -> Result<(), OutOfMemory>
    ensures { Reaches (λ u. u) (from (rule.function_rule [] (func_view f.now)) resolver.old)
        result resolver.new }
{
    function_parts(resolver, f)
}
