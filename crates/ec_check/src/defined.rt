//! The functions that a program defines, and its `main` (ISO/IEC 9899:1999, 5.1.2.2.1).

ghost use Rattle.std.specs.Prelude.{◌≡◌, map, OnOk};
ghost use Rattle.ec_ctypes.specs.views.Exprs.{base_view};
ghost use Rattle.ec_ctypes.specs.views.Units.{param_view, func_view, top_view};
ghost use Rattle.ec_typing_defs.specs.Programs as rule;
ghost use Rattle.ec_scopes.specs.Entries.{type_view};
ghost use Rattle.ec_check.specs.Mains.{is_int_type, is_named_main, is_main_top};

use ec_base::OutOfMemory;
use ec_ctypes::{Base, Func, Param, Top, Ty};
use ec_scopes::Table;
use ec_type_rules::{same_type, words_type};
use std::alloc::Global;

// Whether this is `int`, written in one way or another.
fn is_int(b: &Base, stars: u32) -> bool
    ensures { result ≡ rule.is_int (base_view b.now) stars }
{
    match b {
        Base::Words(words) => stars == 0 && is_int_type(words_type(words.as_slice())),
        _ => false,
    }
}

fn is_int_type(ty: Option<Ty>) -> bool
    ensures { result ≡ is_int_type (type_view ty) }
{
    match ty {
        Some(ty) => same_type(&ty, &Ty::Int),
        None => false,
    }
}

// A definition of a function of this name.
fn is_named_main(f: &Func) -> bool
    ensures { result ≡ is_named_main (func_view f.now) }
{
    f.name.as_slice() == b"main".as_slice() && f.body.is_some()
}

fn has_no_params(params: &[Param]) -> bool
    ensures { result ≡ rule.has_no_params (map param_view params.now) }
{
    match params {
        [] => true,
        [_, ..] => false,
    }
}

// The definition of an `int main` without parameters.
fn is_main(f: &Func) -> bool
    ensures { result ≡ rule.is_main (func_view f.now) }
{
    is_named_main(f) && is_int(&f.base, f.stars) && has_no_params(f.params.as_slice())
}

fn is_main_top(top: &Top) -> bool
    ensures { result ≡ is_main_top (top_view top.now) }
{
    match top {
        Top::Func(f) => is_main(f.get()),
        _ => false,
    }
}

/// Whether the program defines an `int main` without parameters.
pub fn has_main(tops: &[Top]) -> bool
    ensures { result ≡ rule.has_main (map top_view tops.now) }
{
    for top in tops {
        if is_main_top(top) {
            return true;
        }
    }
    false
}

fn add_if_defined(alloc: Global, top: &Top, defined: &mut Table<()>) -> Result<(), OutOfMemory>
    ensures { OnOk result (defined.new ≡ rule.with_defined (top_view top.now) defined.old) }
{
    match top {
        Top::Func(f) => {
            let f = f.get();
            if f.body.is_some() {
                let _before = defined.put(alloc, f.name.as_slice(), ())?;
            }
            Ok(())
        }
        _ => Ok(()),
    }
}

/// Adds the functions that are defined.
pub fn add_defined(alloc: Global, tops: &[Top], defined: &mut Table<()>) -> Result<(), OutOfMemory>
    ensures { OnOk result (defined.new ≡ rule.defined_in (map top_view tops.now) defined.old) }
{
    for top in tops {
        add_if_defined(alloc, top, defined)?;
    }
    Ok(())
}
