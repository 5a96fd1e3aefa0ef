ghost use Rattle.std.specs.Prelude.{◌≡◌, IfOk};

use crate::copies::lists::{boxed_tag, copy_bytes, copy_name, copy_words};
use crate::copies::types::copy_ty;
use crate::tree::{Base, Decl, Declarator, Expr, Init};
use ec_base::{Boxed, List, OutOfMemory};
use std::alloc::Global;

/// A copy of an expression.
#[cycle(copies)]
pub fn copy_expr(alloc: Global, expr: &Expr) -> Result<Expr, OutOfMemory>
    ensures { IfOk result (λ copy. copy ≡ expr.now) }
{
    Ok(match expr {
        Expr::Int(value, ty) => Expr::Int(*value, copy_ty(alloc, ty)?),
        Expr::Char(value) => Expr::Char(*value),
        Expr::Str(bytes) => Expr::Str(copy_bytes(alloc, bytes)?),
        Expr::Name(name) => Expr::Name(copy_name(name)?),
        Expr::Unary(op, a) => Expr::Unary(*op, copy_boxed(alloc, a)?),
        Expr::Binary(op, a, b) => Expr::Binary(*op, copy_boxed(alloc, a)?, copy_boxed(alloc, b)?),
        Expr::Assign(op, a, b) => Expr::Assign(*op, copy_boxed(alloc, a)?, copy_boxed(alloc, b)?),
        Expr::Bump { before, up, of } => Expr::Bump {
            before: *before,
            up: *up,
            of: copy_boxed(alloc, of)?,
        },
        Expr::Call(name, args) => Expr::Call(
            copy_name(name)?,
            Boxed::new(alloc, copy_exprs(alloc, args.get())?)?,
        ),
        Expr::CallOther(function, args) => {
            Expr::CallOther(copy_boxed(alloc, function)?, copy_exprs(alloc, args)?)
        }
        Expr::Index(a, b) => Expr::Index(copy_boxed(alloc, a)?, copy_boxed(alloc, b)?),
        Expr::Member(a, name) => Expr::Member(copy_boxed(alloc, a)?, copy_name(name)?),
        Expr::Arrow(a, name) => Expr::Arrow(copy_boxed(alloc, a)?, copy_name(name)?),
        Expr::Cast(base, stars, a) => {
            Expr::Cast(boxed_base(alloc, base)?, *stars, copy_boxed(alloc, a)?)
        }
        Expr::SizeType(base, stars) => Expr::SizeType(boxed_base(alloc, base)?, *stars),
        Expr::SizeExpr(a) => Expr::SizeExpr(copy_boxed(alloc, a)?),
    })
}

#[cycle(copies)]
fn copy_boxed(alloc: Global, expr: &Boxed<Expr>) -> Result<Boxed<Expr>, OutOfMemory>
    ensures { IfOk result (λ copy. copy ≡ expr.now) }
{
    Ok(Boxed::new(alloc, copy_expr(alloc, expr.get())?)?)
}

#[cycle(copies)]
fn boxed_base(alloc: Global, base: &Boxed<Base>) -> Result<Boxed<Base>, OutOfMemory>
    ensures { IfOk result (λ copy. copy ≡ base.now) }
{
    Ok(Boxed::new(alloc, copy_base(alloc, base.get())?)?)
}

/// A copy of a list of expressions.
#[cycle(copies)]
pub fn copy_exprs(alloc: Global, exprs: &List<Expr>) -> Result<List<Expr>, OutOfMemory>
    ensures { IfOk result (λ copy. copy ≡ exprs.now) }
{
    let mut copy = List::new(alloc);
    for expr in exprs.as_slice() {
        copy.push(copy_expr(alloc, expr)?)?;
    }
    Ok(copy)
}

/// A copy of what a declaration begins with.
#[cycle(copies)]
pub fn copy_base(alloc: Global, base: &Base) -> Result<Base, OutOfMemory>
    ensures { IfOk result (λ copy. copy ≡ base.now) }
{
    Ok(match base {
        Base::Words(words) => Base::Words(copy_words(alloc, words)?),
        Base::Varchar => Base::Varchar,
        Base::Tag(tag) => Base::Tag(copy_name(tag)?),
        Base::Struct(tag, members) => {
            Base::Struct(
                boxed_tag(alloc, tag)?,
                Boxed::new(alloc, copy_decls(alloc, members.get())?)?,
            )
        }
    })
}

#[cycle(copies)]
fn copy_decls(alloc: Global, decls: &List<Decl>) -> Result<List<Decl>, OutOfMemory>
    ensures { IfOk result (λ copy. copy ≡ decls.now) }
{
    let mut copy = List::new(alloc);
    for decl in decls.as_slice() {
        copy.push(copy_decl(alloc, decl)?)?;
    }
    Ok(copy)
}

/// A copy of a declaration.
#[cycle(copies)]
pub fn copy_decl(alloc: Global, decl: &Decl) -> Result<Decl, OutOfMemory>
    ensures { IfOk result (λ copy. copy ≡ decl.now) }
{
    let items = copy_declarators(alloc, &decl.items)?;
    Ok(Decl {
        base: copy_base(alloc, &decl.base)?,
        items,
        section: decl.section,
        line: decl.line,
    })
}

#[cycle(copies)]
fn copy_declarators(
    alloc: Global,
    declarators: &List<Declarator>,
) -> Result<List<Declarator>, OutOfMemory>
    ensures { IfOk result (λ copy. copy ≡ declarators.now) }
{
    let mut copy = List::new(alloc);
    for declarator in declarators.as_slice() {
        copy.push(copy_declarator(alloc, declarator)?)?;
    }
    Ok(copy)
}

#[cycle(copies)]
fn copy_declarator(alloc: Global, declarator: &Declarator) -> Result<Declarator, OutOfMemory>
    ensures { IfOk result (λ copy. copy ≡ declarator.now) }
{
    Ok(Declarator {
        stars: declarator.stars,
        name: copy_name(&declarator.name)?,
        dims: copy_dims(alloc, &declarator.dims)?,
        init: match &declarator.init {
            Some(init) => Some(copy_init(alloc, init)?),
            None => None,
        },
    })
}

/// A copy of array lengths.
#[cycle(copies)]
pub fn copy_dims(
    alloc: Global,
    dims: &List<Option<Expr>>,
) -> Result<List<Option<Expr>>, OutOfMemory>
    ensures { IfOk result (λ copy. copy ≡ dims.now) }
{
    let mut copy = List::new(alloc);
    for dim in dims.as_slice() {
        let length = match dim {
            Some(length) => Some(copy_expr(alloc, length)?),
            None => None,
        };
        copy.push(length)?;
    }
    Ok(copy)
}

/// A copy of an initializer.
#[cycle(copies)]
pub fn copy_init(alloc: Global, init: &Init) -> Result<Init, OutOfMemory>
    ensures { IfOk result (λ copy. copy ≡ init.now) }
{
    Ok(match init {
        Init::One(expr) => Init::One(copy_expr(alloc, expr)?),
        Init::Many(inits) => Init::Many(copy_inits(alloc, inits)?),
    })
}

#[cycle(copies)]
fn copy_inits(alloc: Global, inits: &List<Init>) -> Result<List<Init>, OutOfMemory>
    ensures { IfOk result (λ copy. copy ≡ inits.now) }
{
    let mut copy = List::new(alloc);
    for init in inits.as_slice() {
        copy.push(copy_init(alloc, init)?)?;
    }
    Ok(copy)
}
