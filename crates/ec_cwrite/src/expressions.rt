//! Expressions, and the declarations that may stand in them, put at the end of a text.

ghost use Rattle.std.specs.Prelude.{◌≡◌, ◌++◌, [], ◌∷◌, drop, Some, None, OnOk};
ghost use Rattle.ec_ctypes.specs.trees.Exprs.{tagged, struct_base, many};
ghost use Rattle.ec_ctypes.specs.views.Exprs.{expr_view, exprs_view, base_view, decl_view, decls_view, declarator_view, declarators_view, dims_view, init_view, inits_view, init_option_view};
ghost use Rattle.ec_cwrite.specs.Lists.{comma_chunks, lead_chunks, dim_part};
ghost use Rattle.ec_cwrite.specs.Writes.{Writes};
ghost use Rattle.ec_writing_defs.specs.Expressions.{at_height, before_dot, word_chunks, more_word_chunks, star_chunks, stars_behind, struct_head, base_chunks, members_chunks, type_chunks, in_parens, arguments, expr_chunks, list_chunks, dims_chunks, init_chunks, inits_chunks, initializer_chunks, declarator_chunks, declarators_chunks, decl_chunks};

use crate::marks::{
    OR, POSTFIX, height_of, mark_of, mark_of_assignment, mark_of_bump, mark_of_unary, rank_height,
    right_height,
};
use crate::text::{push_blank, push_character, push_integer, push_mark, push_string, push_word};
use ec_base::{Boxed, Bytes, Name, OutOfMemory};
use ec_ctypes::{Base, Decl, Declarator, Expr, Init, Punct};

/// Words behind a first one.
fn push_more_words(out: &mut Bytes, words: &[Name]) -> Result<(), OutOfMemory>
    ensures { OnOk result (Writes out.old out.new (more_word_chunks words.now)) }
{
    for word in words {
        push_blank(out)?;
        push_word(out, word.as_slice())?;
    }
    Ok(())
}

/// The words of a type.
fn push_words(out: &mut Bytes, words: &[Name]) -> Result<(), OutOfMemory>
    ensures { OnOk result (Writes out.old out.new (word_chunks words.now)) }
{
    match words {
        [] => Ok(()),
        [first, rest @ ..] => {
            push_word(out, first.as_slice())?;
            push_more_words(out, rest)?;
            Ok(())
        }
    }
}

/// A struct by its tag.
fn push_tag(out: &mut Bytes, tag: &[u8]) -> Result<(), OutOfMemory>
    ensures { OnOk result (Writes out.old out.new (base_chunks (tagged tag.now))) }
{
    push_word(out, b"struct")?;
    push_blank(out)?;
    push_word(out, tag)?;
    Ok(())
}

/// Stars, one after the other.
pub fn push_stars(out: &mut Bytes, stars: u32) -> Result<(), OutOfMemory>
    ensures { OnOk result (Writes out.old out.new (star_chunks stars)) }
{
    for done in 0..stars {
        push_mark(out, Punct::Star)?;
    }
    Ok(())
}

/// Stars behind a type.
pub fn push_stars_behind(out: &mut Bytes, stars: u32) -> Result<(), OutOfMemory>
    ensures { OnOk result (Writes out.old out.new (stars_behind stars)) }
{
    if stars > 0 {
        push_blank(out)?;
        push_stars(out, stars)?;
    }
    Ok(())
}

/// An array length that is left out.
fn push_open_length(out: &mut Bytes) -> Result<(), OutOfMemory>
    ensures { OnOk result (Writes out.old out.new (dim_part None)) }
{
    push_mark(out, Punct::LeftBracket)?;
    push_mark(out, Punct::RightBracket)?;
    Ok(())
}

/// `struct`, and its tag if it has one.
fn push_struct_head(out: &mut Bytes, tag: &Option<Boxed<Name>>) -> Result<(), OutOfMemory>
    ensures { OnOk result (Writes out.old out.new (struct_head tag.now)) }
{
    push_word(out, b"struct")?;
    if let Some(tag) = tag {
        push_blank(out)?;
        push_word(out, tag.get().as_slice())?;
    }
    Ok(())
}

/// A comma, where there is one.
pub fn push_comma(out: &mut Bytes, further: bool) -> Result<(), OutOfMemory>
    ensures { OnOk result (Writes out.old out.new (comma_chunks further)) }
{
    if further {
        push_mark(out, Punct::Comma)?;
        push_blank(out)?;
    }
    Ok(())
}

/// What stands before a declarator.
fn push_lead(out: &mut Bytes, further: bool) -> Result<(), OutOfMemory>
    ensures { OnOk result (Writes out.old out.new (lead_chunks further)) }
{
    if further {
        push_mark(out, Punct::Comma)?;
    }
    push_blank(out)?;
    Ok(())
}

/// An expression.
#[cycle(exprs)]
pub fn push_expr(out: &mut Bytes, expr: &Expr) -> Result<(), OutOfMemory>
    ensures { OnOk result (Writes out.old out.new (expr_chunks (expr_view expr.now))) }
{
    match expr {
        Expr::Int(n, ty) => push_integer(out, *n, ty),
        Expr::Char(value) => push_character(out, *value),
        Expr::Str(bytes) => push_string(out, bytes.as_slice()),
        Expr::Name(name) => push_word(out, name.as_slice()),
        Expr::Unary(op, a) => {
            push_mark(out, mark_of_unary(*op))?;
            push_at(out, POSTFIX, a.get())?;
            Ok(())
        }
        Expr::Binary(op, a, b) => {
            push_at(out, rank_height(*op), a.get())?;
            push_blank(out)?;
            push_mark(out, mark_of(*op))?;
            push_blank(out)?;
            push_at(out, right_height(*op), b.get())?;
            Ok(())
        }
        Expr::Assign(op, a, b) => {
            push_at(out, OR, a.get())?;
            push_blank(out)?;
            push_mark(out, mark_of_assignment(*op))?;
            push_blank(out)?;
            push_expr(out, b.get())?;
            Ok(())
        }
        Expr::Bump { before, up, of } => {
            if *before {
                push_mark(out, mark_of_bump(*up))?;
                push_at(out, POSTFIX, of.get())?;
                Ok(())
            } else {
                push_at(out, POSTFIX, of.get())?;
                push_mark(out, mark_of_bump(*up))?;
                Ok(())
            }
        }
        Expr::Call(function, args) => {
            push_word(out, function.as_slice())?;
            push_arguments(out, args.get().as_slice())?;
            Ok(())
        }
        Expr::CallOther(function, args) => {
            push_at(out, POSTFIX, function.get())?;
            push_arguments(out, args.as_slice())?;
            Ok(())
        }
        Expr::Index(a, b) => {
            push_at(out, POSTFIX, a.get())?;
            push_mark(out, Punct::LeftBracket)?;
            push_expr(out, b.get())?;
            push_mark(out, Punct::RightBracket)?;
            Ok(())
        }
        Expr::Member(a, name) => {
            push_before_dot(out, a.get())?;
            push_mark(out, Punct::Dot)?;
            push_word(out, name.as_slice())?;
            Ok(())
        }
        Expr::Arrow(a, name) => {
            push_at(out, POSTFIX, a.get())?;
            push_mark(out, Punct::Arrow)?;
            push_word(out, name.as_slice())?;
            Ok(())
        }
        Expr::Cast(base, stars, a) => {
            push_type(out, base.get(), *stars)?;
            push_at(out, POSTFIX, a.get())?;
            Ok(())
        }
        Expr::SizeType(base, stars) => {
            push_word(out, b"sizeof")?;
            push_type(out, base.get(), *stars)?;
            Ok(())
        }
        Expr::SizeExpr(a) => {
            push_word(out, b"sizeof")?;
            push_blank(out)?;
            push_at(out, POSTFIX, a.get())?;
            Ok(())
        }
    }
}

/// An expression in parentheses.
#[cycle(exprs)]
fn push_in_parens(out: &mut Bytes, expr: &Expr) -> Result<(), OutOfMemory>
    ensures { OnOk result (Writes out.old out.new (in_parens (expr_chunks (expr_view expr.now)))) }
{
    push_mark(out, Punct::LeftParen)?;
    push_expr(out, expr)?;
    push_mark(out, Punct::RightParen)?;
    Ok(())
}

/// An expression at a place that binds so tight.
#[cycle(exprs)]
fn push_at(out: &mut Bytes, height: u8, expr: &Expr) -> Result<(), OutOfMemory>
    ensures { OnOk result (Writes out.old out.new (at_height height (expr_view expr.now)
        (expr_chunks (expr_view expr.now)))) }
{
    if height_of(expr) < height {
        push_in_parens(out, expr)
    } else {
        push_expr(out, expr)
    }
}

/// An expression before `.`.
#[cycle(exprs)]
fn push_before_dot(out: &mut Bytes, expr: &Expr) -> Result<(), OutOfMemory>
    ensures { OnOk result (Writes out.old out.new (before_dot (expr_view expr.now) (expr_chunks
        (expr_view expr.now)))) }
{
    match expr {
        Expr::Int(_, _) => push_in_parens(out, expr),
        _ => push_at(out, POSTFIX, expr),
    }
}

/// Arguments in parentheses.
#[cycle(exprs)]
fn push_arguments(out: &mut Bytes, exprs: &[Expr]) -> Result<(), OutOfMemory>
    ensures { OnOk result (Writes out.old out.new (arguments (list_chunks
        (exprs_view exprs.now)))) }
{
    push_mark(out, Punct::LeftParen)?;
    push_list(out, exprs)?;
    push_mark(out, Punct::RightParen)?;
    Ok(())
}

/// A list of expressions.
#[cycle(exprs)]
fn push_list(out: &mut Bytes, exprs: &[Expr]) -> Result<(), OutOfMemory>
    ensures { OnOk result (Writes out.old out.new (list_chunks (exprs_view exprs.now))) }
{
    for (at, expr) in exprs.iter().enumerate() {
        push_comma(out, at > 0)?;
        push_expr(out, expr)?;
    }
    Ok(())
}

/// What a declaration begins with. VARCHAR is no C and leaves nothing.
#[cycle(exprs)]
pub fn push_base(out: &mut Bytes, base: &Base) -> Result<(), OutOfMemory>
    ensures { OnOk result (Writes out.old out.new (base_chunks (base_view base.now))) }
{
    match base {
        Base::Words(words) => push_words(out, words.as_slice()),
        Base::Varchar => Ok(()),
        Base::Tag(tag) => push_tag(out, tag.as_slice()),
        Base::Struct(tag, members) => push_struct(out, members.get().as_slice(), tag),
    }
}

/// A struct with its members, on one line.
#[cycle(exprs)]
fn push_struct(
    out: &mut Bytes,
    members: &[Decl],
    tag: &Option<Boxed<Name>>,
) -> Result<(), OutOfMemory>
    ensures { OnOk result (Writes out.old out.new (base_chunks (struct_base tag.now
        (decls_view members.now)))) }
{
    push_struct_head(out, tag)?;
    push_blank(out)?;
    push_mark(out, Punct::LeftBrace)?;
    push_members(out, members)?;
    push_blank(out)?;
    push_mark(out, Punct::RightBrace)?;
    Ok(())
}

/// Members, each with a blank before it.
#[cycle(exprs)]
fn push_members(out: &mut Bytes, members: &[Decl]) -> Result<(), OutOfMemory>
    ensures { OnOk result (Writes out.old out.new (members_chunks (decls_view members.now))) }
{
    for member in members {
        push_blank(out)?;
        push_decl(out, member)?;
    }
    Ok(())
}

/// A type in parentheses.
#[cycle(exprs)]
fn push_type(out: &mut Bytes, base: &Base, stars: u32) -> Result<(), OutOfMemory>
    ensures { OnOk result (Writes out.old out.new (type_chunks (base_view base.now) stars)) }
{
    push_mark(out, Punct::LeftParen)?;
    push_base(out, base)?;
    push_stars_behind(out, stars)?;
    push_mark(out, Punct::RightParen)?;
    Ok(())
}

/// A declaration or a member, without its line.
#[cycle(exprs)]
pub fn push_decl(out: &mut Bytes, decl: &Decl) -> Result<(), OutOfMemory>
    ensures { OnOk result (Writes out.old out.new (decl_chunks (decl_view decl.now))) }
{
    push_base(out, &decl.base)?;
    push_declarators(out, decl.items.as_slice())?;
    push_mark(out, Punct::Semicolon)?;
    Ok(())
}

/// Declarators, all on one line.
#[cycle(exprs)]
pub fn push_declarators(out: &mut Bytes, items: &[Declarator]) -> Result<(), OutOfMemory>
    ensures { OnOk result (Writes out.old out.new (declarators_chunks
        (declarators_view items.now))) }
{
    for (at, item) in items.iter().enumerate() {
        push_lead(out, at > 0)?;
        push_declarator(out, item)?;
    }
    Ok(())
}

/// A name that is declared.
#[cycle(exprs)]
fn push_declarator(out: &mut Bytes, item: &Declarator) -> Result<(), OutOfMemory>
    ensures { OnOk result (Writes out.old out.new (declarator_chunks (declarator_view item.now))) }
{
    push_stars(out, item.stars)?;
    push_word(out, item.name.as_slice())?;
    push_dims(out, item.dims.as_slice())?;
    push_initializer(out, &item.init)?;
    Ok(())
}

/// Array lengths.
#[cycle(exprs)]
pub fn push_dims(out: &mut Bytes, dims: &[Option<Expr>]) -> Result<(), OutOfMemory>
    ensures { OnOk result (Writes out.old out.new (dims_chunks (dims_view dims.now))) }
{
    for dim in dims {
        match dim {
            Some(length) => push_length(out, length)?,
            None => push_open_length(out)?,
        }
    }
    Ok(())
}

/// An array length in its brackets.
#[cycle(exprs)]
fn push_length(out: &mut Bytes, length: &Expr) -> Result<(), OutOfMemory>
    ensures { OnOk result (Writes out.old out.new (dim_part (Some length.now))) }
{
    push_mark(out, Punct::LeftBracket)?;
    push_at(out, OR, length)?;
    push_mark(out, Punct::RightBracket)?;
    Ok(())
}

/// An initializer behind `=`, where there is one.
#[cycle(exprs)]
fn push_initializer(out: &mut Bytes, init: &Option<Init>) -> Result<(), OutOfMemory>
    ensures { OnOk result (Writes out.old out.new (initializer_chunks
        (init_option_view init.now))) }
{
    if let Some(init) = init {
        push_blank(out)?;
        push_mark(out, Punct::Assign)?;
        push_blank(out)?;
        push_init(out, init)?;
    }
    Ok(())
}

/// An initializer.
#[cycle(exprs)]
fn push_init(out: &mut Bytes, init: &Init) -> Result<(), OutOfMemory>
    ensures { OnOk result (Writes out.old out.new (init_chunks (init_view init.now))) }
{
    match init {
        Init::One(expr) => push_expr(out, expr),
        Init::Many(inits) => push_braces(out, inits.as_slice()),
    }
}

/// Initializers in braces.
#[cycle(exprs)]
fn push_braces(out: &mut Bytes, inits: &[Init]) -> Result<(), OutOfMemory>
    ensures { OnOk result (Writes out.old out.new (init_chunks (many (inits_view inits.now)))) }
{
    push_mark(out, Punct::LeftBrace)?;
    push_inits(out, inits)?;
    push_mark(out, Punct::RightBrace)?;
    Ok(())
}

/// Initializers, one after the other.
#[cycle(exprs)]
fn push_inits(out: &mut Bytes, inits: &[Init]) -> Result<(), OutOfMemory>
    ensures { OnOk result (Writes out.old out.new (inits_chunks (inits_view inits.now))) }
{
    for (at, init) in inits.iter().enumerate() {
        push_comma(out, at > 0)?;
        push_init(out, init)?;
    }
    Ok(())
}
