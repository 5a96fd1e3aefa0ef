//! The structs of VARCHARs (PostgreSQL manual, "VARCHAR").

ghost use Rattle.std.specs.Prelude.{◌≡◌, Some, IfOk, OnOk};
ghost use Rattle.ec_ctypes.specs.trees.Types.{structure};
ghost use Rattle.ec_ctypes.specs.views.Types.{ty_view};
ghost use Rattle.ec_typing_defs.specs.Expressions as rule;
ghost use Rattle.ec_typing_defs.specs.Operands.{array_of};
ghost use Rattle.ec_typing_defs.specs.Tables.{put};
ghost use Rattle.ec_typing_defs.specs.Types.{char_type};
ghost use Rattle.ec_scopes.specs.Entries.{place_view, named_view, type_view};
ghost use Rattle.ec_scopes.specs.Seen.{world_of, Does};
ghost use Rattle.ec_scopes.specs.Structs.{varchar_closing};

use crate::measures::Measure;
use crate::places::Place;
use crate::state::Checker;
use crate::table::Table;
use ec_base::{Boxed, FaultKind, LimitKind, List, Name, OutOfMemory};
use ec_ctypes::Ty;
use std::alloc::Global;

/// One member more.
pub(crate) fn put_member(
    alloc: Global,
    members: &mut Table<Option<Ty>>,
    name: &[u8],
    ty: Option<Ty>,
) -> Result<(), OutOfMemory>
    ensures { OnOk result (named_view type_view members.new
        ≡ put name.now (type_view ty) (named_view type_view members.old)) }
{
    let _before = members.put(alloc, name, ty)?;
    Ok(())
}

/// An array of this many characters, if that is known.
fn characters(alloc: Global, length: Option<u64>) -> Result<Option<Ty>, OutOfMemory>
    ensures { IfOk result (λ t. type_view t ≡ array_of length (Some char_type)) }
{
    match length {
        Some(n) => Ok(Some(Ty::Array(Boxed::new(alloc, Ty::Char)?, n))),
        None => Ok(None),
    }
}

/// The members of a VARCHAR of this many characters: its length and the characters.
fn varchar_members(alloc: Global, length: Option<u64>) -> Result<Table<Option<Ty>>, OutOfMemory>
    ensures { IfOk result (λ ms. named_view type_view ms ≡ rule.varchar_members length) }
{
    let mut members = Table::new(alloc);
    put_member(alloc, &mut members, b"len".as_slice(), Some(Ty::Int))?;
    let text = characters(alloc, length)?;
    put_member(alloc, &mut members, b"arr".as_slice(), text)?;
    Ok(members)
}

/// The struct of this number as a type.
fn struct_type(k: u32) -> Ty
    ensures { ty_view result ≡ structure k }
{
    Ty::Struct(k)
}

/// A last length that is left out is none.
fn capacity(length: Option<u64>) -> Option<u64>
    ensures { result ≡ rule.capacity length }
{
    match length {
        Some(n) if n > 0 => Some(n),
        _ => None,
    }
}

/// The tag of a VARCHAR of this name that is no member.
fn varchar_tag(alloc: Global, name: &[u8]) -> Result<Name, OutOfMemory>
    ensures { IfOk result (λ tag. tag ≡ rule.varchar_tag name.now) }
{
    let mut text = List::from_slice(alloc, b"varchar_".as_slice())?;
    text.extend_from_slice(name)?;
    Name::from_slice(alloc, text.as_slice())
}

#[tactic(auto, using(crate::proofs::Steps::noting), unfolding(ec_typing_defs::specs::Worlds::chain, ec_typing_defs::specs::Worlds::pure, ec_typing_defs::specs::Worlds::ask, ec_typing_defs::specs::Worlds::change, ec_typing_defs::specs::Worlds::demand, ec_typing_defs::specs::Worlds::keep_within, ec_typing_defs::specs::Worlds::new_struct, ec_typing_defs::specs::Expressions::varchar_struct, ec_typing_defs::specs::Expressions::varchar_object, ec_typing_defs::specs::Expressions::varchar_member))]
impl Checker {
    // A VARCHAR's struct with these members: its number, and what is known of its size.
    fn closed_varchar(
        &mut self,
        tag: Option<Name>,
        members: Table<Option<Ty>>,
    ) -> Result<(u32, Measure), OutOfMemory>
        ensures { Does (λ r. r) (varchar_closing tag (named_view type_view members)
            (world_of self.old)) self.old result self.new }
    {
        let made = self.structs.push_closed(tag, true, members)?;
        Ok(made)
    }

    /// The struct of a VARCHAR, which is closed at once: its number. L1 where it is larger than the limit.
    pub fn varchar_struct(
        &mut self,
        at: Place,
        tag: Option<Name>,
        length: Option<u64>,
    ) -> Result<u32, OutOfMemory>
        ensures { Does (λ k. k) (rule.varchar_struct (place_view at) tag length
            (world_of self.old)) self.old result self.new }
    {
        let members = varchar_members(self.alloc, capacity(length))?;
        let (k, measure) = self.closed_varchar(tag, members)?;
        self.keep_within(at, LimitKind::L1, measure.is_small());
        Ok(k)
    }

    /// The type of a VARCHAR that is no member. It declares its tag; F10 where this scope has the tag already.
    pub fn varchar_object(
        &mut self,
        at: Place,
        name: &[u8],
        length: Option<u64>,
    ) -> Result<Option<Ty>, OutOfMemory>
        ensures { Does type_view (rule.varchar_object (place_view at) name.now length
            (world_of self.old)) self.old result self.new }
    {
        let tag = varchar_tag(self.alloc, name)?;
        let own = Name::from_slice(self.alloc, tag.as_slice())?;
        let k = self.varchar_struct(at, Some(own), length)?;
        let before = self.tag_here(tag.as_slice()).is_some();
        self.put_tag(tag.as_slice(), k)?;
        self.demand(at, FaultKind::F10, !before);
        Ok(Some(struct_type(k)))
    }

    /// The type of a VARCHAR that is a member. It has no tag.
    pub fn varchar_member(
        &mut self,
        at: Place,
        length: Option<u64>,
    ) -> Result<Option<Ty>, OutOfMemory>
        ensures { Does type_view (rule.varchar_member (place_view at) length
            (world_of self.old)) self.old result self.new }
    {
        let k = self.varchar_struct(at, None, length)?;
        Ok(Some(Ty::Struct(k)))
    }
}
