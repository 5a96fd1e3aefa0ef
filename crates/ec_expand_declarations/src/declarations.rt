//! Expressions and declarations as they are written on a line.

ghost use Rattle.std.specs.Prelude.{◌≡◌, IfOk, OnOk};
ghost use Rattle.ec_ctypes.specs.views.Exprs.{expr_view, exprs_view, base_view, decl_view, decls_view, declarator_view, declarators_view, dims_view, init_view, inits_view, init_option_view};
ghost use Rattle.ec_expansion_defs.specs.Declarations as written;
ghost use Rattle.ec_expand_declarations.specs.Lists.{IsBehind, plain_decl, is_varchar_decl};

use crate::varchar::varchar_decl;
use ec_base::{Boxed, Line, List, Name, OutOfMemory};
use ec_ctypes::{Base, Decl, Declarator, Expr, Init, copy_base, copy_ty};
use std::alloc::Global;

/// An expression: the members of each struct in it have this line.
#[cycle(declarations)]
pub fn written_expr(alloc: Global, line: Line, expr: &Expr) -> Result<Expr, OutOfMemory>
    ensures { IfOk result (λ e. expr_view e ≡ written.written_expr line.0 (expr_view expr.now)) }
{
    match expr {
        Expr::Int(value, ty) => Ok(Expr::Int(*value, copy_ty(alloc, ty)?)),
        Expr::Char(value) => Ok(Expr::Char(*value)),
        Expr::Str(bytes) => Ok(Expr::Str(List::from_slice(alloc, bytes.as_slice())?)),
        Expr::Name(name) => Ok(Expr::Name(name.clone()?)),
        Expr::Unary(op, a) => Ok(Expr::Unary(*op, boxed(alloc, line, a)?)),
        Expr::Binary(op, a, b) => {
            Ok(Expr::Binary(*op, boxed(alloc, line, a)?, boxed(alloc, line, b)?))
        }
        Expr::Assign(op, a, b) => {
            Ok(Expr::Assign(*op, boxed(alloc, line, a)?, boxed(alloc, line, b)?))
        }
        Expr::Bump { before, up, of } => Ok(Expr::Bump {
            before: *before,
            up: *up,
            of: boxed(alloc, line, of)?,
        }),
        Expr::Call(name, args) => {
            let args = Boxed::new(alloc, written_exprs(alloc, line, args.get())?)?;
            Ok(Expr::Call(name.clone()?, args))
        }
        Expr::CallOther(function, args) => Ok(Expr::CallOther(
            boxed(alloc, line, function)?,
            written_exprs(alloc, line, args)?,
        )),
        Expr::Index(a, b) => Ok(Expr::Index(boxed(alloc, line, a)?, boxed(alloc, line, b)?)),
        Expr::Member(a, name) => Ok(Expr::Member(boxed(alloc, line, a)?, name.clone()?)),
        Expr::Arrow(a, name) => Ok(Expr::Arrow(boxed(alloc, line, a)?, name.clone()?)),
        Expr::Cast(base, stars, a) => {
            let base = boxed_base(alloc, line, base)?;
            Ok(Expr::Cast(base, *stars, boxed(alloc, line, a)?))
        }
        Expr::SizeType(base, stars) => Ok(Expr::SizeType(boxed_base(alloc, line, base)?, *stars)),
        Expr::SizeExpr(a) => Ok(Expr::SizeExpr(boxed(alloc, line, a)?)),
    }
}

#[cycle(declarations)]
fn boxed(alloc: Global, line: Line, expr: &Boxed<Expr>) -> Result<Boxed<Expr>, OutOfMemory>
    ensures { IfOk result (λ e. expr_view e ≡ written.written_expr line.0 (expr_view expr.now)) }
{
    Ok(Boxed::new(alloc, written_expr(alloc, line, expr.get())?)?)
}

#[cycle(declarations)]
fn boxed_base(alloc: Global, line: Line, base: &Boxed<Base>) -> Result<Boxed<Base>, OutOfMemory>
    ensures { IfOk result (λ b. base_view b ≡ written.written_base line.0 (base_view base.now)) }
{
    Ok(Boxed::new(alloc, written_base(alloc, line, base.get())?)?)
}

#[cycle(declarations)]
fn written_exprs(alloc: Global, line: Line, exprs: &List<Expr>) -> Result<List<Expr>, OutOfMemory>
    ensures { IfOk result (λ es. exprs_view es ≡ written.written_exprs line.0
        (exprs_view exprs.now)) }
{
    let mut list = List::new(alloc);
    for expr in exprs.as_slice() {
        list.push(written_expr(alloc, line, expr)?)?;
    }
    Ok(list)
}

/// What a declaration begins with.
#[cycle(declarations)]
pub fn written_base(alloc: Global, line: Line, base: &Base) -> Result<Base, OutOfMemory>
    ensures { IfOk result (λ b. base_view b ≡ written.written_base line.0 (base_view base.now)) }
{
    match base {
        Base::Words(_) => copy_base(alloc, base),
        Base::Varchar => Ok(Base::Varchar),
        Base::Tag(_) => copy_base(alloc, base),
        Base::Struct(tag, members) => {
            let members = Boxed::new(alloc, written_members(alloc, line, members.get())?)?;
            Ok(Base::Struct(copy_tag(alloc, tag)?, members))
        }
    }
}

/// Members, each on this line. A VARCHAR is a struct without a tag, in a declaration of its own.
#[cycle(declarations)]
fn written_members(
    alloc: Global,
    line: Line,
    members: &List<Decl>,
) -> Result<List<Decl>, OutOfMemory>
    ensures { IfOk result (λ ds. decls_view ds ≡ written.written_members line.0
        (decls_view members.now)) }
{
    let mut list = List::new(alloc);
    for member in members.as_slice() {
        push_member(alloc, line, member, &mut list)?;
    }
    Ok(list)
}

#[cycle(declarations)]
fn push_member(
    alloc: Global,
    line: Line,
    member: &Decl,
    list: &mut List<Decl>,
) -> Result<(), OutOfMemory>
    ensures { OnOk result (IsBehind list.old list.new (written.written_member line.0
        (decl_view member.now))) }
{
    if is_varchar(member) {
        push_varchars(alloc, line, &member.items, list)?;
    } else {
        list.push(without_varchars(alloc, line, member)?)?;
    }
    Ok(())
}

#[cycle(declarations)]
fn push_varchars(
    alloc: Global,
    line: Line,
    items: &List<Declarator>,
    list: &mut List<Decl>,
) -> Result<(), OutOfMemory>
    ensures { OnOk result (IsBehind list.old list.new (written.varchar_members_of line.0
        (declarators_view items.now))) }
{
    for item in items.as_slice() {
        let item = written_declarator(alloc, line, item)?;
        list.push(varchar_decl(alloc, line, None, item)?)?;
    }
    Ok(())
}

/// A declaration of no VARCHARs.
#[cycle(declarations)]
pub fn without_varchars(alloc: Global, line: Line, declared: &Decl) -> Result<Decl, OutOfMemory>
    ensures { IfOk result (λ d. decl_view d ≡ plain_decl line.0 (decl_view declared.now)) }
{
    let items = written_declarators(alloc, line, &declared.items)?;
    Ok(Decl {
        base: written_base(alloc, line, &declared.base)?,
        items,
        section: false,
        line,
    })
}

#[cycle(declarations)]
pub fn written_declarators(
    alloc: Global,
    line: Line,
    items: &List<Declarator>,
) -> Result<List<Declarator>, OutOfMemory>
    ensures { IfOk result (λ ds. declarators_view ds ≡ written.written_declarators line.0
        (declarators_view items.now)) }
{
    let mut list = List::new(alloc);
    for item in items.as_slice() {
        list.push(written_declarator(alloc, line, item)?)?;
    }
    Ok(list)
}

/// A declarator, with its array lengths and its initializer.
#[cycle(declarations)]
pub fn written_declarator(
    alloc: Global,
    line: Line,
    item: &Declarator,
) -> Result<Declarator, OutOfMemory>
    ensures { IfOk result (λ d. declarator_view d ≡ written.written_declarator line.0
        (declarator_view item.now)) }
{
    Ok(Declarator {
        stars: item.stars,
        name: copy_name(&item.name)?,
        dims: written_dims(alloc, line, &item.dims)?,
        init: written_initializer(alloc, line, &item.init)?,
    })
}

/// Array lengths, of which one may be left out.
#[cycle(declarations)]
pub fn written_dims(
    alloc: Global,
    line: Line,
    dims: &List<Option<Expr>>,
) -> Result<List<Option<Expr>>, OutOfMemory>
    ensures { IfOk result (λ ds. dims_view ds ≡ written.written_dims line.0 (dims_view dims.now)) }
{
    let mut list = List::new(alloc);
    for dim in dims.as_slice() {
        let length = match dim {
            Some(length) => Some(written_expr(alloc, line, length)?),
            None => None,
        };
        list.push(length)?;
    }
    Ok(list)
}

#[cycle(declarations)]
fn written_initializer(
    alloc: Global,
    line: Line,
    init: &Option<Init>,
) -> Result<Option<Init>, OutOfMemory>
    ensures { IfOk result (λ i. init_option_view i ≡ written.written_initializer line.0
        (init_option_view init.now)) }
{
    match init {
        Some(init) => Ok(Some(written_init(alloc, line, init)?)),
        None => Ok(None),
    }
}

#[cycle(declarations)]
fn written_init(alloc: Global, line: Line, init: &Init) -> Result<Init, OutOfMemory>
    ensures { IfOk result (λ i. init_view i ≡ written.written_init line.0 (init_view init.now)) }
{
    match init {
        Init::One(expr) => Ok(Init::One(written_expr(alloc, line, expr)?)),
        Init::Many(inits) => Ok(Init::Many(written_inits(alloc, line, inits)?)),
    }
}

#[cycle(declarations)]
fn written_inits(alloc: Global, line: Line, inits: &List<Init>) -> Result<List<Init>, OutOfMemory>
    ensures { IfOk result (λ is. inits_view is ≡ written.written_inits line.0
        (inits_view inits.now)) }
{
    let mut list = List::new(alloc);
    for init in inits.as_slice() {
        list.push(written_init(alloc, line, init)?)?;
    }
    Ok(list)
}

/// Whether a declaration is one of VARCHARs.
pub fn is_varchar(declared: &Decl) -> bool
    ensures { result ≡ is_varchar_decl (decl_view declared.now) }
{
    match declared.base {
        Base::Words(_) => false,
        Base::Varchar => true,
        Base::Tag(_) => false,
        Base::Struct(_, _) => false,
    }
}

// A copy of a name.
fn copy_name(name: &Name) -> Result<Name, OutOfMemory>
    ensures { IfOk result (λ copy. copy ≡ name.now) }
{
    Ok(name.clone()?)
}

// A tag that may be left out.
fn copy_tag(alloc: Global, tag: &Option<Boxed<Name>>) -> Result<Option<Boxed<Name>>, OutOfMemory>
    ensures { IfOk result (λ copy. copy ≡ tag.now) }
{
    match tag {
        Some(name) => Ok(Some(Boxed::new(alloc, name.get().clone()?)?)),
        None => Ok(None),
    }
}
