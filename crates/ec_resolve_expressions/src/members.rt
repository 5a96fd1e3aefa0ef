//! Members of structs (ISO/IEC 9899:1999, 6.7.2.1).

ghost use Rattle.std.specs.Prelude.{◌≡◌, IfOk};
ghost use Rattle.ec_ctypes.specs.views.Exprs.{base_view};
ghost use Rattle.ec_typing_defs.specs.Expressions as rule;
ghost use Rattle.ec_scopes.specs.Entries.{place_view, named_view, type_view};
ghost use Rattle.ec_scopes.specs.Seen.{world_of, IsDone};

use ec_base::{FaultKind, OutOfMemory};
use ec_ctypes::{Base, Ty};
use ec_rules::{complete_rule, within_rule};
use ec_scopes::{Checker, Place, Table};

/// Whether this is the type of a VARCHAR.
#[tactic(auto, using(ec_ctypes::specs::declared::tree::decl::Base::the_lemmas))]
pub(crate) fn is_varchar(base: &Base) -> bool
    ensures { result ≡ rule.is_varchar (base_view base.now) }
{
    match base {
        Base::Varchar => true,
        Base::Words(_) => false,
        Base::Tag(_) => false,
        Base::Struct(_, _) => false,
    }
}

/// One member more: its type is complete, it has no name of another, and no reserved one.
pub(crate) fn member_named(
    checker: &mut Checker,
    at: Place,
    name: &[u8],
    ty: Option<Ty>,
    members: &mut Table<Option<Ty>>,
) -> Result<(), OutOfMemory>
    ensures { IfOk result (λ u. IsDone (rule.member_named (place_view at) name.now (type_view ty)
        (named_view type_view members.old) (world_of checker.old)) checker.old checker.new
        (named_view type_view members.new)) }
{
    within_rule(checker, at, &ty);
    let complete = complete_rule(checker, at, ty);
    let before = members.put(checker.alloc(), name, complete)?;
    checker.demand(at, FaultKind::F10, !before);
    checker.free_name(at, name);
    Ok(())
}
