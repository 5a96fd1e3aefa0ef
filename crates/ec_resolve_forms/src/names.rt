//! Names and string literals (ISO/IEC 9899:1999, 6.4.5 and 6.5.1).
#![tactic(auto, unfolding(ec_resolving_defs::specs::Storage::chain, ec_resolving_defs::specs::Storage::pure, ec_resolving_defs::specs::Storage::checks, ec_resolving_defs::specs::Storage::ask, ec_resolving_defs::specs::Storage::stored, ec_resolving_defs::specs::Storage::arrange))]

ghost use Rattle.std.specs.Prelude.{◌≡◌};
ghost use Rattle.ec_code.specs.Trees.{leaf_view};
ghost use Rattle.ec_resolving_defs.specs.Operands as rule;
ghost use Rattle.ec_scopes.specs.Entries.{place_view};
ghost use Rattle.ec_scopes.specs.Seen.{world_of};
ghost use Rattle.ec_resolve_values.specs.storage.Stored.{storage_of};
ghost use Rattle.ec_typing_defs.specs.Worlds.{look_up};
ghost use Rattle.ec_resolve_forms.specs.Seen.{found_view, from, Reaches};

use crate::found::Found;
use crate::resolver::Resolver;
use ec_base::OutOfMemory;
use ec_bytes::Ptr;
use ec_code::{Expression, Leaf};
use ec_resolve_values::storage::{Storage, site_leaf};
use ec_rules::{Operand, name_rule as checked_name};
use ec_scopes::{Checker, Entry, Place};
use ec_values::Word;

/// A name that is known without a declaration.
fn predefined(name: &[u8]) -> Leaf
    ensures { leaf_view result ≡ rule.predefined_exp name.now }
{
    if name == b"sqlca".as_slice() {
        Leaf::Object(1)
    } else if name == b"NULL".as_slice() {
        Leaf::Constant(Word::Address(Ptr(0)))
    } else if name == b"true".as_slice() {
        Leaf::Constant(Word::Signed(1))
    } else if name == b"false".as_slice() {
        Leaf::Constant(Word::Signed(0))
    } else {
        Leaf::Faulty
    }
}

/// The object that a name stands for, or the value of a predefined one.
fn named(checker: &Checker, storage: &Storage, name: &[u8]) -> Leaf
    ensures { leaf_view result ≡ rule.named_exp (storage_of storage.now).sites name.now
        (look_up name.now (world_of checker.now)) }
{
    match checker.look_up(name) {
        Some(Entry::Object { number, .. }) => site_leaf(storage.site(*number)),
        Some(Entry::Function { .. }) => Leaf::Faulty,
        None => predefined(name),
    }
}

/// A name: the address of an object, or the value of a predefined name.
pub fn name_rule(resolver: &mut Resolver, at: Place, name: &[u8]) -> Result<Found, OutOfMemory>
    ensures { Reaches found_view (from (rule.name_rule (place_view at) name.now) resolver.old)
        result resolver.new }
{
    let alloc = resolver.checker.alloc();
    let leaf = named(&resolver.checker, &resolver.storage, name);
    let operand = checked_name(&mut resolver.checker, at, name)?;
    let is_address = operand.is_place;
    Ok(Found {
        operand,
        exp: Expression::leaf(alloc, leaf),
        is_address,
    })
}

/// A string literal, which is an object of its own.
pub fn literal_rule(resolver: &mut Resolver, text: &[u8]) -> Result<Found, OutOfMemory>
    ensures { Reaches found_view (from (rule.literal_rule text.now) resolver.old)
        result resolver.new }
{
    let alloc = resolver.checker.alloc();
    let leaf = resolver.storage.literal_object()?;
    resolver.storage.add_literal(text)?;
    let operand = Operand::literal(alloc, text.len() as u64)?;
    Ok(Found {
        operand,
        exp: Expression::leaf(alloc, leaf),
        is_address: true,
    })
}
