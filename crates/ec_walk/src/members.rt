//! Types by words, and members of structs (ISO/IEC 9899:1999, 6.7.2 and 6.7.2.1).

ghost use Rattle.std.specs.Prelude.{◌≡◌, IfOk};
ghost use Rattle.ec_ctypes.specs.views.Exprs.{base_view, init_option_view};
ghost use Rattle.ec_typing_defs.specs.Expressions as rule;
ghost use Rattle.ec_typing_defs.specs.Types.{words_type};
ghost use Rattle.ec_scopes.specs.Entries.{place_view, named_view, type_view};
ghost use Rattle.ec_scopes.specs.Seen.{world_of, IsDone};

use ec_base::{FaultKind, Name, OutOfMemory};
use ec_ctypes::{Base, Init, Ty};
use ec_rules::{complete_rule, within_rule};
use ec_scopes::{Checker, Place, Table};
use ec_type_rules::words_type;

/// The type of type words; F14 where they make none.
#[tactic(auto, using(ec_scopes::proofs::Steps::noting), unfolding(ec_typing_defs::specs::Worlds::chain, ec_typing_defs::specs::Worlds::pure, ec_typing_defs::specs::Worlds::note, ec_typing_defs::specs::Expressions::type_or_fault))]
pub(crate) fn words_rule(checker: &mut Checker, at: Place, words: &[Name]) -> Option<Ty>
    ensures { IsDone (rule.type_or_fault (place_view at) (words_type words.now)
        (world_of checker.old)) checker.old checker.new (type_view result) }
{
    let ty = words_type(words);
    if ty.is_none() {
        checker.note(at, FaultKind::F14);
    }
    ty
}

/// Whether this is the type of a VARCHAR.
#[tactic(auto, using(ec_ctypes::specs::declared::tree::decl::Base::the_lemmas))]
pub(crate) fn is_varchar(base: &Base) -> bool
    ensures { result ≡ rule.is_varchar (base_view base.now) }
{
    match base {
        Base::Varchar => true,
        Base::Words(_) => false,
        Base::Tag(_) => false,
        Base::Struct(_, _) => false,
    }
}

/// Whether there is an initializer.
pub(crate) fn has_init(init: &Option<Init>) -> bool
    ensures { result ≡ rule.has_init (init_option_view init.now) }
{
    match init {
        Some(_) => true,
        None => false,
    }
}

/// One member more: its type is complete, it has no name of another, and no reserved one.
pub(crate) fn member_named(
    checker: &mut Checker,
    at: Place,
    name: &[u8],
    ty: Option<Ty>,
    members: &mut Table<Option<Ty>>,
) -> Result<(), OutOfMemory>
    ensures { IfOk result
        (λ u. IsDone
        (rule.member_named (place_view at) name.now (type_view ty)
        (named_view type_view members.old) (world_of checker.old)) checker.old checker.new
        (named_view type_view members.new)) }
{
    within_rule(checker, at, &ty);
    let complete = complete_rule(checker, at, ty);
    let before = members.put(checker.alloc(), name, complete)?;
    checker.demand(at, FaultKind::F10, !before);
    checker.free_name(at, name);
    Ok(())
}
