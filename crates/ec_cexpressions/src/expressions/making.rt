//! Makes expressions of their parts.

ghost use Rattle.std.specs.Prelude.{◌≡◌, true, false, codes, IfOk};
ghost use Rattle.ec_ctypes.specs.trees.Exprs as tree;
ghost use Rattle.ec_ctypes.specs.views.Exprs.{expr_view, base_view};
ghost use Rattle.ec_ctypes.specs.views.Tokens.{tok_view};
ghost use Rattle.ec_language.specs.Productions as spec;
ghost use Rattle.ec_language.specs.Productions.{bytes_in, number_in, type_in, character_in};
ghost use Rattle.ec_grammar.specs.ReadExpressions.{called_by};
ghost use Rattle.ec_cursor.specs.Parts.{each_expr};
ghost use Rattle.ec_cexpressions.specs.Primaries.{primary_view};

use crate::expressions::primary::Primary;
use ec_base::{Boxed, List, Name, OutOfMemory, beside};
use ec_ctypes::{Base, BinOp, Expr, Tok, Ty, UnOp, copy_ty};
use ec_cursor::{copy_name, copy_text};
use std::alloc::Global;

/// The integer constant that a token is.
#[tactic(auto, using(ec_ctypes::specs::declared::tree::expr::Expr::the_lemmas))]
pub fn integer(alloc: Global, tok: &Tok) -> Result<Expr, OutOfMemory>
    ensures { IfOk result (λ e. expr_view e
        ≡ tree.integer (number_in (tok_view tok.now)) (type_in (tok_view tok.now))) }
{
    match tok {
        Tok::Int(value, ty) => Ok(Expr::Int(*value, copy_ty(alloc, ty)?)),
        Tok::Emb(number, _) => Ok(Expr::Int(*number as u64, Ty::Void)),
        _ => Ok(Expr::Int(0, Ty::Void)),
    }
}

/// The character constant that a token is.
#[tactic(auto, using(ec_ctypes::specs::declared::tree::expr::Expr::the_lemmas))]
pub fn character(tok: &Tok) -> Expr
    ensures { expr_view result ≡ tree.character (character_in (tok_view tok.now)) }
{
    match tok {
        Tok::Char(value) => Expr::Char(*value),
        _ => Expr::Char(0),
    }
}

/// The string literal that a token is.
#[tactic(auto, using(ec_ctypes::specs::declared::tree::expr::Expr::the_lemmas))]
pub fn string(alloc: Global, tok: &Tok) -> Result<Expr, OutOfMemory>
    ensures { IfOk result (λ e. expr_view e ≡ tree.string (bytes_in (tok_view tok.now))) }
{
    Ok(Expr::Str(copy_text(alloc, tok)?))
}

/// A member of the communication area.
#[tactic(auto, using(ec_ctypes::specs::declared::tree::expr::Expr::the_lemmas))]
fn area_member(alloc: Global, member: &[u8]) -> Result<Primary, OutOfMemory>
    ensures { IfOk result (λ x. primary_view x ≡ record {
      expression = tree.member (tree.identifier (codes "sqlca")) member.now;
      is_name = false;
    }) }
{
    let member = Name::from_slice(alloc, member)?;
    let area = Name::from_slice(alloc, b"sqlca".as_slice())?;
    let area = Boxed::new(alloc, Expr::Name(area))?;
    Ok(Primary::Other(Expr::Member(area, member)))
}

/// The name that a token is, or the member of the communication area that `SQLCODE` or `SQLSTATE` stands for (PostgreSQL
/// manual, 34.8.3).
pub fn named(alloc: Global, tok: &Tok) -> Result<Primary, OutOfMemory>
    ensures { IfOk result (λ x. primary_view x ≡ spec.named (bytes_in (tok_view tok.now))) }
{
    let word = copy_name(alloc, tok)?;
    if word.as_slice() == b"SQLCODE".as_slice() {
        return area_member(alloc, b"sqlcode".as_slice());
    }
    if word.as_slice() == b"SQLSTATE".as_slice() {
        return area_member(alloc, b"sqlstate".as_slice());
    }
    Ok(Primary::Name(word))
}

#[tactic(auto, using(ec_ctypes::specs::declared::tree::expr::Expr::the_lemmas))]
pub fn unary(alloc: Global, op: UnOp, a: Expr) -> Result<Expr, OutOfMemory>
    ensures { IfOk result (λ e. expr_view e ≡ tree.unary op (expr_view a)) }
{
    Ok(Expr::Unary(op, Boxed::new(alloc, a)?))
}

#[tactic(auto, using(ec_ctypes::specs::declared::tree::expr::Expr::the_lemmas))]
pub fn binary(alloc: Global, op: BinOp, a: Expr, b: Expr) -> Result<Expr, OutOfMemory>
    ensures { IfOk result (λ e. expr_view e ≡ tree.binary op (expr_view a) (expr_view b)) }
{
    let (b, a) = beside(b, Boxed::new(alloc, a))?;
    Ok(Expr::Binary(op, a, Boxed::new(alloc, b)?))
}

#[tactic(auto, using(ec_ctypes::specs::declared::tree::expr::Expr::the_lemmas))]
pub fn assign(alloc: Global, op: Option<BinOp>, a: Expr, b: Expr) -> Result<Expr, OutOfMemory>
    ensures { IfOk result (λ e. expr_view e ≡ tree.assign op (expr_view a) (expr_view b)) }
{
    let (b, a) = beside(b, Boxed::new(alloc, a))?;
    Ok(Expr::Assign(op, a, Boxed::new(alloc, b)?))
}

#[tactic(auto, using(ec_ctypes::specs::declared::tree::expr::Expr::the_lemmas))]
pub fn bump(alloc: Global, before: bool, up: bool, a: Expr) -> Result<Expr, OutOfMemory>
    ensures { IfOk result (λ e. expr_view e ≡ tree.bump before up (expr_view a)) }
{
    Ok(Expr::Bump {
        before,
        up,
        of: Boxed::new(alloc, a)?,
    })
}

#[tactic(auto, using(ec_ctypes::specs::declared::tree::expr::Expr::the_lemmas))]
pub fn index(alloc: Global, a: Expr, b: Expr) -> Result<Expr, OutOfMemory>
    ensures { IfOk result (λ e. expr_view e ≡ tree.index (expr_view a) (expr_view b)) }
{
    let (b, a) = beside(b, Boxed::new(alloc, a))?;
    Ok(Expr::Index(a, Boxed::new(alloc, b)?))
}

#[tactic(auto, using(ec_ctypes::specs::declared::tree::expr::Expr::the_lemmas))]
pub fn member(alloc: Global, a: Expr, name: Name) -> Result<Expr, OutOfMemory>
    ensures { IfOk result (λ e. expr_view e ≡ tree.member (expr_view a) name) }
{
    Ok(Expr::Member(Boxed::new(alloc, a)?, name))
}

#[tactic(auto, using(ec_ctypes::specs::declared::tree::expr::Expr::the_lemmas))]
pub fn arrow(alloc: Global, a: Expr, name: Name) -> Result<Expr, OutOfMemory>
    ensures { IfOk result (λ e. expr_view e ≡ tree.arrow (expr_view a) name) }
{
    Ok(Expr::Arrow(Boxed::new(alloc, a)?, name))
}

/// A call, by its name where what is called is a bare name.
#[tactic(auto, using(ec_ctypes::specs::declared::tree::expr::Expr::the_lemmas))]
pub fn call(alloc: Global, called: Primary, arguments: List<Expr>) -> Result<Expr, OutOfMemory>
    ensures { IfOk result (λ e. expr_view e
        ≡ called_by (primary_view called) (each_expr arguments)) }
{
    match called {
        Primary::Name(name) => Ok(Expr::Call(name, Boxed::new(alloc, arguments)?)),
        Primary::Other(other) => Ok(Expr::CallOther(Boxed::new(alloc, other)?, arguments)),
    }
}

#[tactic(auto, using(ec_ctypes::specs::declared::tree::expr::Expr::the_lemmas))]
pub fn cast(alloc: Global, base: Base, stars: u32, a: Expr) -> Result<Expr, OutOfMemory>
    ensures { IfOk result (λ e. expr_view e ≡ tree.cast (base_view base) stars (expr_view a)) }
{
    let (a, base) = beside(a, Boxed::new(alloc, base))?;
    Ok(Expr::Cast(base, stars, Boxed::new(alloc, a)?))
}

#[tactic(auto, using(ec_ctypes::specs::declared::tree::expr::Expr::the_lemmas))]
pub fn size_type(alloc: Global, base: Base, stars: u32) -> Result<Expr, OutOfMemory>
    ensures { IfOk result (λ e. expr_view e ≡ tree.size_type (base_view base) stars) }
{
    Ok(Expr::SizeType(Boxed::new(alloc, base)?, stars))
}

#[tactic(auto, using(ec_ctypes::specs::declared::tree::expr::Expr::the_lemmas))]
pub fn size_expr(alloc: Global, a: Expr) -> Result<Expr, OutOfMemory>
    ensures { IfOk result (λ e. expr_view e ≡ tree.size_expr (expr_view a)) }
{
    Ok(Expr::SizeExpr(Boxed::new(alloc, a)?))
}
