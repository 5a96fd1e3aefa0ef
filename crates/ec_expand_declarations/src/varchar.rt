//! The struct that a VARCHAR is (PostgreSQL manual, 36.4.4).

ghost use Rattle.std.specs.Prelude.{◌≡◌, IfOk, codes, false};
ghost use Rattle.ec_ctypes.specs.views.Exprs.{decl_view, decls_view, declarator_view, declarators_view, dims_view};
ghost use Rattle.ec_expansion_defs.specs.Declarations as written;
ghost use Rattle.ec_expand_declarations.specs.Lists.{varchar_of};

use ec_base::{Boxed, Line, List, Name, OutOfMemory};
use ec_ctypes::{Base, Decl, Declarator, Expr};
use std::alloc::Global;

// A member `word name` with these array lengths.
fn plain_member(
    alloc: Global,
    line: Line,
    word: &[u8],
    name: &[u8],
    dims: List<Option<Expr>>,
) -> Result<Decl, OutOfMemory>
    ensures { IfOk result (λ d. decl_view d ≡ written.plain_member line.0 word.now name.now
        (dims_view dims)) }
{
    let mut items = List::new(alloc);
    items.push(Declarator {
        stars: 0,
        name: Name::from_slice(alloc, name)?,
        dims,
        init: None,
    })?;
    let mut words = List::new(alloc);
    words.push(Name::from_slice(alloc, word)?)?;
    Ok(Decl {
        base: Base::Words(words),
        items,
        section: false,
        line,
    })
}

// A list of one declarator.
fn alone(alloc: Global, item: Declarator) -> Result<List<Declarator>, OutOfMemory>
    ensures { IfOk result (λ items. declarators_view items ≡ written.one_declarator
        (declarator_view item)) }
{
    let mut items = List::new(alloc);
    items.push(item)?;
    Ok(items)
}

// `int len; char arr[N];`
fn members(alloc: Global, line: Line, length: List<Option<Expr>>) -> Result<List<Decl>, OutOfMemory>
    ensures { IfOk result
        (λ ds. decls_view ds ≡ written.varchar_members line.0 (dims_view length)) }
{
    let mut members = List::new(alloc);
    let text = plain_member(alloc, line, b"char", b"arr", length)?;
    members.push(plain_member(alloc, line, b"int", b"len", List::new(alloc))?)?;
    members.push(text)?;
    Ok(members)
}

// The last array length, taken off the others.
#[tactic(auto, using(crate::proofs::Dims::outer_popped, crate::proofs::Dims::last_popped))]
fn take_last(
    alloc: Global,
    dims: &mut List<Option<Expr>>,
) -> Result<List<Option<Expr>>, OutOfMemory>
    ensures outer { IfOk result
        (λ last. dims_view dims.new ≡ written.outer_dims (dims_view dims.old)) }
    ensures last { IfOk result (λ last. dims_view last ≡ written.last_dim (dims_view dims.old)) }
{
    let mut last = List::new(alloc);
    match dims.pop() {
        Some(length) => {
            last.push(length)?;
            Ok(last)
        }
        None => Ok(last),
    }
}

/// The declaration of a VARCHAR: the last of its array lengths is that of its text.
pub fn varchar_decl(
    alloc: Global,
    line: Line,
    tag: Option<Boxed<Name>>,
    item: Declarator,
) -> Result<Decl, OutOfMemory>
    ensures { IfOk result (λ d. decl_view d ≡ varchar_of line.0 tag (declarator_view item)) }
{
    let Declarator {
        stars,
        name,
        mut dims,
        init,
    } = item;
    let length = take_last(alloc, &mut dims)?;
    let members = Boxed::new(alloc, members(alloc, line, length)?)?;
    let item = Declarator {
        stars,
        name,
        dims,
        init,
    };
    Ok(Decl {
        base: Base::Struct(tag, members),
        items: alone(alloc, item)?,
        section: false,
        line,
    })
}
