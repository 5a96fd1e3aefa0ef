//! The walk itself, in which each function stops at a number of levels.
#![tactic(auto, using(ec_walk::proofs::Trees::seeing, ec_ctypes::specs::declared::tree::expr::Expr::the_lemmas), unfolding(ec_resolving_defs::specs::Storage::chain, ec_resolving_defs::specs::Storage::pure, ec_resolving_defs::specs::Storage::checks, ec_resolving_defs::specs::Storage::ask))]

ghost use Rattle.std.specs.Prelude.{◌≡◌, [], map, None, true};
ghost use Rattle.ec_ctypes.specs.trees.Exprs.{assign, call};
ghost use Rattle.ec_ctypes.specs.views.Exprs.{expr_view, expr_option_view, exprs_view, dim_of, base_view, dims_view, init_view, inits_view, init_option_view, decl_view, decls_view, declarator_view};
ghost use Rattle.ec_resolve_forms.specs.Seen.{found_view, from, Reaches};
ghost use Rattle.ec_known.specs.Forms.{arguments_view};
ghost use Rattle.ec_resolving_defs.specs.Expressions as rule;
ghost use Rattle.ec_scopes.specs.Entries.{place_view, named_view, type_view};
ghost use Rattle.ec_resolve_expressions.specs.Behind.{argument, behind, other_call};
ghost use Rattle.ec_walk.specs.Spines.{left_of};

use crate::call_forms::call_rule;
use crate::dims::{last_apart, last_of};
use crate::leaves::{character, integer, is_library_literal, library_literal};
use crate::members::{is_varchar, member_named};
use crate::spines::left_of;
use ec_base::{List, OutOfMemory};
use ec_ctypes::{Base, BinOp, Decl, Declarator, Expr, Init, Ty, UnOp};
use ec_known::{Arguments, arguments_of, is_identifier};
use ec_resolve_forms::members::{arrow_rule, member_rule};
use ec_resolve_forms::{
    Found, Resolver, address_rule, assign_rule, binary_rule, bump_rule, cast_rule, compound_rule,
    index_rule, literal_rule, name_rule, size_rule, unary_rule, value_rule,
};
use ec_rules::{copy_type, declared_type, length_rule};
use ec_scopes::{Place, Table};
use ec_walk::base as checked_base;

/// What is found of an expression. One that leans to the left is gone down by a loop, and up by another.
#[cycle(walk)]
pub(crate) fn expr_within(
    resolver: &mut Resolver,
    at: Place,
    e: &Expr,
    levels: u32,
) -> Result<Found, OutOfMemory>
    ensures { Reaches found_view
        (from (rule.expr (place_view at) (expr_view e.now)) resolver.old)
        result resolver.new }
{
    if levels == 0 {
        // Out of reach, which isn't proved: `LEVELS` are more than the nesting of a source makes.
        return Err(OutOfMemory);
    }
    let mut above: List<&Expr> = List::new(resolver.checker.alloc());
    let mut first = e;
    while let Some(left) = left_of(first) {
        above.push(first)?;
        first = left;
    }
    let mut f = leaf(resolver, at, first, levels - 1)?;
    while let Some(next) = above.pop() {
        f = behind(resolver, at, next, f, levels - 1)?;
    }
    Ok(f)
}

/// An expression that leans to no side.
#[cycle(walk)]
fn leaf(resolver: &mut Resolver, at: Place, e: &Expr, levels: u32) -> Result<Found, OutOfMemory>
    requires { left_of (expr_view e.now) ≡ None }
    ensures { Reaches found_view
        (from (rule.expr (place_view at) (expr_view e.now)) resolver.old)
        result resolver.new }
{
    match e {
        Expr::Int(n, ty) => integer(resolver.checker.alloc(), *n, ty),
        Expr::Char(c) => Ok(character(resolver.checker.alloc(), *c)),
        Expr::Str(text) => literal_rule(resolver, text.as_slice()),
        Expr::Name(name) => name_rule(resolver, at, name.as_slice()),
        Expr::Assign(op, a, b) => {
            let f = assigned(resolver, at, op, a.get(), b.get(), levels)?;
            Ok(f)
        }
        Expr::Call(name, es) => {
            let f = call_within(resolver, at, name.as_slice(), es.get().as_slice(), levels)?;
            Ok(f)
        }
        Expr::CallOther(called, es) => {
            if is_identifier(called.get()) {
                let f = other_call(resolver, at, es.as_slice(), levels)?;
                Ok(f)
            } else {
                unreachable!()
            }
        }
        Expr::Cast(base, stars, of) => {
            let b = base_within(resolver, at, base.get(), levels)?;
            let to = declared_type(resolver.checker.alloc(), b, *stars, &[])?;
            let f = expr_within(resolver, at, of.get(), levels)?;
            cast_rule(resolver, at, to, f)
        }
        Expr::SizeType(base, stars) => {
            let b = base_within(resolver, at, base.get(), levels)?;
            let ty = declared_type(resolver.checker.alloc(), b, *stars, &[])?;
            Ok(size_rule(resolver, at, ty))
        }
        Expr::Unary(_, _) => unreachable!(),
        Expr::Binary(_, _, _) => unreachable!(),
        Expr::Bump { .. } => unreachable!(),
        Expr::Index(_, _) => unreachable!(),
        Expr::Member(_, _) => unreachable!(),
        Expr::Arrow(_, _) => unreachable!(),
        Expr::SizeExpr(_) => unreachable!(),
    }
}

/// An assignment, which may be a compound one.
#[cycle(walk)]
fn assigned(
    resolver: &mut Resolver,
    at: Place,
    op: &Option<BinOp>,
    a: &Expr,
    b: &Expr,
    levels: u32,
) -> Result<Found, OutOfMemory>
    ensures { Reaches found_view
        (from (rule.expr (place_view at) (assign op.now (expr_view a.now) (expr_view b.now)))
        resolver.old) result resolver.new }
{
    let x = expr_within(resolver, at, a, levels)?;
    let p = expr_within(resolver, at, b, levels)?;
    let y = value_rule(resolver, at, p)?;
    match op {
        None => assign_rule(resolver, at, x, y),
        Some(op) => compound_rule(resolver, at, *op, x, y),
    }
}

/// A call of what is no name of a function: a fault.
#[cycle(walk)]
fn other_call(
    resolver: &mut Resolver,
    at: Place,
    es: &[Expr],
    levels: u32,
) -> Result<Found, OutOfMemory>
    ensures { Reaches found_view
        (from (other_call (place_view at) (exprs_view es.now)) resolver.old)
        result resolver.new }
{
    let _fs = args(resolver, at, Arguments::AllExpressions, es, levels)?;
    Ok(Found::none(resolver.checker.alloc()))
}

/// A call of the function of a name.
#[cycle(walk)]
pub(crate) fn call_within(
    resolver: &mut Resolver,
    at: Place,
    name: &[u8],
    es: &[Expr],
    levels: u32,
) -> Result<Found, OutOfMemory>
    ensures { Reaches found_view
        (from (rule.expr (place_view at) (call name.now (exprs_view es.now))) resolver.old)
        result resolver.new }
{
    let forms = arguments_of(resolver.checker.written(), name);
    let fs = args(resolver, at, forms, es, levels)?;
    let f = call_rule(resolver, at, name, es, fs)?;
    Ok(f)
}

/// An expression behind what is found of its left part.
#[cycle(walk)]
fn behind(
    resolver: &mut Resolver,
    at: Place,
    e: &Expr,
    f: Found,
    levels: u32,
) -> Result<Found, OutOfMemory>
    ensures { Reaches found_view
        (from (behind (place_view at) (expr_view e.now) (found_view f)) resolver.old)
        result resolver.new }
{
    match e {
        Expr::Unary(UnOp::Addr, _) => address_rule(resolver, at, f),
        Expr::Unary(op, _) => {
            let x = value_rule(resolver, at, f)?;
            unary_rule(resolver, at, *op, x)
        }
        Expr::Binary(op, _, b) => {
            let x = value_rule(resolver, at, f)?;
            let p = expr_within(resolver, at, b.get(), levels)?;
            let y = value_rule(resolver, at, p)?;
            binary_rule(resolver, at, *op, x, y)
        }
        Expr::Bump { before, up, .. } => bump_rule(resolver, at, *before, *up, f),
        Expr::CallOther(_, es) => {
            let made = other_call(resolver, at, es.as_slice(), levels)?;
            Ok(made)
        }
        Expr::Index(_, b) => {
            let x = value_rule(resolver, at, f)?;
            let p = expr_within(resolver, at, b.get(), levels)?;
            let y = value_rule(resolver, at, p)?;
            index_rule(resolver, at, x, y)
        }
        Expr::Member(_, name) => member_rule(resolver, at, f, name.as_slice()),
        Expr::Arrow(_, name) => {
            let x = value_rule(resolver, at, f)?;
            arrow_rule(resolver, at, x, name.as_slice())
        }
        Expr::SizeExpr(_) => Ok(size_rule(resolver, at, f.operand.ty)),
        Expr::Int(_, _)
        | Expr::Char(_)
        | Expr::Str(_)
        | Expr::Name(_)
        | Expr::Assign(_, _, _)
        | Expr::Call(_, _)
        | Expr::Cast(_, _, _)
        | Expr::SizeType(_, _) => Ok(f),
    }
}

/// The arguments of a call.
#[cycle(walk)]
fn args(
    resolver: &mut Resolver,
    at: Place,
    forms: Arguments,
    es: &[Expr],
    levels: u32,
) -> Result<List<Found>, OutOfMemory>
    ensures { Reaches (map found_view)
        (from (rule.args (place_view at) (arguments_view forms) (exprs_view es.now)) resolver.old)
        result resolver.new }
{
    let mut fs = List::new(resolver.checker.alloc());
    let mut forms = forms;
    for e in es {
        let f = argument(resolver, at, forms, e, levels)?;
        fs.push(f)?;
        forms = forms.behind_first();
    }
    Ok(fs)
}

/// An argument of a call, which may be no expression.
#[cycle(walk)]
fn argument(
    resolver: &mut Resolver,
    at: Place,
    forms: Arguments,
    e: &Expr,
    levels: u32,
) -> Result<Found, OutOfMemory>
    ensures { Reaches found_view
        (from (argument (place_view at) (arguments_view forms) (expr_view e.now)) resolver.old)
        result resolver.new }
{
    if forms.is_no_expression(e) {
        return Ok(Found::none(resolver.checker.alloc()));
    }
    if is_library_literal(forms, e) {
        return library_literal(resolver, at, e);
    }
    let f = expr_within(resolver, at, e, levels)?;
    value_rule(resolver, at, f)
}

/// The type that a declaration begins with.
#[cycle(walk)]
pub(crate) fn base_within(
    resolver: &mut Resolver,
    at: Place,
    base: &Base,
    levels: u32,
) -> Result<Option<Ty>, OutOfMemory>
    ensures { Reaches type_view
        (from (rule.base (place_view at) (base_view base.now)) resolver.old)
        result resolver.new }
{
    if levels == 0 {
        // Out of reach, as in `expr_within`.
        return Err(OutOfMemory);
    }
    match base {
        Base::Words(_) => {
            let ty = checked_base(&mut resolver.checker, at, base)?;
            Ok(ty)
        }
        Base::Varchar => Ok(None),
        Base::Tag(tag) => Ok(resolver.checker.tag_rule(at, tag.as_slice())),
        Base::Struct(tag, ds) => {
            let k = resolver.checker.begin_struct(at, tag)?;
            let ms = members(resolver, ds.get().as_slice(), levels - 1)?;
            let ty = resolver.checker.end_struct(at, tag, k, ms)?;
            Ok(ty)
        }
    }
}

/// The members of a struct.
#[cycle(walk)]
fn members(
    resolver: &mut Resolver,
    ds: &[Decl],
    levels: u32,
) -> Result<Table<Option<Ty>>, OutOfMemory>
    ensures { Reaches (named_view type_view)
        (from (rule.members (decls_view ds.now) []) resolver.old)
        result resolver.new }
{
    let mut members = Table::new(resolver.checker.alloc());
    for d in ds {
        member_decl(resolver, d, &mut members, levels)?;
    }
    Ok(members)
}

/// The members of one declaration.
#[cycle(walk)]
fn member_decl(
    resolver: &mut Resolver,
    d: &Decl,
    members: &mut Table<Option<Ty>>,
    levels: u32,
) -> Result<(), OutOfMemory>
    ensures { Reaches (λ _. named_view type_view members.new)
        (from (rule.member_decl (decl_view d.now)
        (named_view type_view members.old)) resolver.old)
        result resolver.new }
{
    let at = resolver.checker.place(d.line)?;
    let ty = base_within(resolver, at, &d.base, levels)?;
    let varchar = is_varchar(&d.base);
    for item in d.items.as_slice() {
        member_item(resolver, at, varchar, &ty, item, members, levels)?;
    }
    Ok(())
}

/// One member.
#[cycle(walk)]
fn member_item(
    resolver: &mut Resolver,
    at: Place,
    varchar: bool,
    ty: &Option<Ty>,
    item: &Declarator,
    members: &mut Table<Option<Ty>>,
    levels: u32,
) -> Result<(), OutOfMemory>
    ensures { Reaches (λ _. named_view type_view members.new)
        (from (rule.member_item (place_view at) varchar (type_view ty.now)
        (declarator_view item.now) (named_view type_view members.old)) resolver.old)
        result resolver.new }
{
    if varchar {
        varchar_item(resolver, at, ty, item, members, levels)?;
        return Ok(());
    }
    let sizes = lengths_within(resolver, at, item.dims.as_slice(), levels)?;
    init_parts(resolver, at, &item.init, levels)?;
    let of = copy_type(resolver.checker.alloc(), ty)?;
    let whole = declared_type(resolver.checker.alloc(), of, item.stars, sizes.as_slice())?;
    member_named(
        &mut resolver.checker,
        at,
        item.name.as_slice(),
        whole,
        members,
    )?;
    Ok(())
}

/// One VARCHAR as a member, whatever type stands there.
#[cycle(walk)]
fn varchar_item(
    resolver: &mut Resolver,
    at: Place,
    ty: &Option<Ty>,
    item: &Declarator,
    members: &mut Table<Option<Ty>>,
    levels: u32,
) -> Result<(), OutOfMemory>
    ensures { Reaches (λ _. named_view type_view members.new)
        (from (rule.member_item (place_view at) true (type_view ty.now)
        (declarator_view item.now) (named_view type_view members.old)) resolver.old)
        result resolver.new }
{
    let _other = ty;
    let n = last_length_within(resolver, at, item.dims.as_slice(), levels)?;
    let own = resolver.checker.varchar_member(at, n)?;
    let sizes = outer_lengths_within(resolver, at, item.dims.as_slice(), levels)?;
    init_parts(resolver, at, &item.init, levels)?;
    let whole = declared_type(resolver.checker.alloc(), own, item.stars, sizes.as_slice())?;
    member_named(
        &mut resolver.checker,
        at,
        item.name.as_slice(),
        whole,
        members,
    )?;
    Ok(())
}

/// The last length of an array.
#[cycle(walk)]
pub(crate) fn last_length_within(
    resolver: &mut Resolver,
    at: Place,
    dims: &[Option<Expr>],
    levels: u32,
) -> Result<Option<u64>, OutOfMemory>
    ensures { Reaches (λ n. n)
        (from (rule.last_length (place_view at) (dims_view dims.now)) resolver.old)
        result resolver.new }
{
    let (_outer, last) = last_apart(dims);
    let ns = lengths_within(resolver, at, last, levels)?;
    Ok(last_of(ns.as_slice()))
}

/// The lengths of an array but the last.
#[cycle(walk)]
pub(crate) fn outer_lengths_within(
    resolver: &mut Resolver,
    at: Place,
    dims: &[Option<Expr>],
    levels: u32,
) -> Result<List<Option<u64>>, OutOfMemory>
    ensures { Reaches (λ ns. ns)
        (from (rule.outer_lengths (place_view at) (dims_view dims.now)) resolver.old)
        result resolver.new }
{
    let (outer, _last) = last_apart(dims);
    let ns = lengths_within(resolver, at, outer, levels)?;
    Ok(ns)
}

/// The lengths of an array.
#[cycle(walk)]
pub(crate) fn lengths_within(
    resolver: &mut Resolver,
    at: Place,
    dims: &[Option<Expr>],
    levels: u32,
) -> Result<List<Option<u64>>, OutOfMemory>
    ensures { Reaches (λ ns. ns)
        (from (rule.lengths (place_view at) (dims_view dims.now)) resolver.old)
        result resolver.new }
{
    let mut lengths = List::new(resolver.checker.alloc());
    for dim in dims {
        let n = length_at(resolver, at, dim, levels)?;
        lengths.push(n)?;
    }
    Ok(lengths)
}

/// The length of an array, which may be left out.
#[cycle(walk)]
fn length_at(
    resolver: &mut Resolver,
    at: Place,
    dim: &Option<Expr>,
    levels: u32,
) -> Result<Option<u64>, OutOfMemory>
    ensures { Reaches (λ n. n)
        (from (rule.length_at (place_view at) (dim_of (expr_option_view dim.now))) resolver.old)
        result resolver.new }
{
    match dim {
        None => Ok(Some(0)),
        Some(e) => {
            let f = expr_within(resolver, at, e, levels)?;
            let x = value_rule(resolver, at, f)?;
            let n = length_rule(&mut resolver.checker, at, &x.operand)?;
            Ok(n)
        }
    }
}

/// The expressions of an initializer that stands where none may, if there is one.
#[cycle(walk)]
fn init_parts(
    resolver: &mut Resolver,
    at: Place,
    init: &Option<Init>,
    levels: u32,
) -> Result<(), OutOfMemory>
    ensures { Reaches (λ u. u)
        (from (rule.init_parts (place_view at) (init_option_view init.now)) resolver.old)
        result resolver.new }
{
    match init {
        None => Ok(()),
        Some(init) => {
            init_exprs(resolver, at, init, levels)?;
            Ok(())
        }
    }
}

/// The expressions of an initializer.
#[cycle(walk)]
fn init_exprs(
    resolver: &mut Resolver,
    at: Place,
    init: &Init,
    levels: u32,
) -> Result<(), OutOfMemory>
    ensures { Reaches (λ u. u)
        (from (rule.init_exprs (place_view at) (init_view init.now)) resolver.old)
        result resolver.new }
{
    match init {
        Init::One(e) => {
            let f = expr_within(resolver, at, e, levels)?;
            let _x = value_rule(resolver, at, f)?;
            Ok(())
        }
        Init::Many(is) => {
            init_list(resolver, at, is.as_slice(), levels)?;
            Ok(())
        }
    }
}

/// The expressions of initializers one after the other.
#[cycle(walk)]
fn init_list(
    resolver: &mut Resolver,
    at: Place,
    inits: &[Init],
    levels: u32,
) -> Result<(), OutOfMemory>
    ensures { Reaches (λ u. u)
        (from (rule.all_init_exprs (place_view at) (inits_view inits.now)) resolver.old)
        result resolver.new }
{
    if levels == 0 {
        // Out of reach, as in `expr_within`.
        return Err(OutOfMemory);
    }
    for init in inits {
        init_exprs(resolver, at, init, levels - 1)?;
    }
    Ok(())
}
