//! Structs by their tags, and their members (ISO/IEC 9899:1999, 6.7.2.1 and 6.7.2.3).

ghost use Rattle.std.specs.Prelude.{◌≡◌, Some, option_map, IfOk, IfSome};
ghost use Rattle.std.specs.Option.{option_copied};
ghost use Rattle.ec_ctypes.specs.views.Types.{ty_view};
ghost use Rattle.ec_typing_defs.specs.Worlds as world;
ghost use Rattle.ec_typing_defs.specs.Expressions as rule;
ghost use Rattle.ec_scopes.specs.Entries.{place_view, named_view, type_view};
ghost use Rattle.ec_scopes.specs.Measures.{measured};
ghost use Rattle.ec_scopes.specs.Offsets.{offset_among};
ghost use Rattle.ec_scopes.specs.Seen.{world_of, IsDone, Does};
ghost use Rattle.ec_scopes.specs.Structs.{begun_at, members_view, struct_closing};

use crate::measures::Measure;
use crate::places::Place;
use crate::state::Checker;
use crate::structs::Members;
use crate::table::Table;
use ec_base::{Boxed, FaultKind, LimitKind, Name, OutOfMemory};
use ec_ctypes::Ty;
use std::alloc::Global;

#[tactic(auto, using(crate::proofs::Steps::noting), unfolding(ec_typing_defs::specs::Worlds::chain, ec_typing_defs::specs::Worlds::pure, ec_typing_defs::specs::Worlds::ask, ec_typing_defs::specs::Worlds::change, ec_typing_defs::specs::Worlds::note, ec_typing_defs::specs::Worlds::demand, ec_typing_defs::specs::Worlds::new_struct, ec_typing_defs::specs::Worlds::set_struct, ec_typing_defs::specs::Expressions::tagged_struct, ec_typing_defs::specs::Expressions::begin_struct, ec_typing_defs::specs::Expressions::end_struct, ec_typing_defs::specs::Expressions::tag_rule, crate::specs::Seen::world_of, crate::specs::Seen::notes_of))]
impl Checker {
    /// The members of the struct of this number.
    pub fn members_of(&self, k: u32) -> Option<&Members>
        ensures { option_map members_view (option_copied result)
            ≡ world.members_of k (world_of self.now) }
    {
        self.structs.members_of(k)
    }

    /// The offset of the member of this name in the struct of this number (ISO/IEC 9899:1999, 6.7.2.1), if it is kept: if each
    /// member of the struct has a size within the limit, and this is one of them.
    pub fn offset(&self, k: u32, name: &[u8]) -> Option<u64>
        ensures { IfSome result (λ offset. offset_among (world.shapes_in (world_of self.now))
            name.now (world.members_of k (world_of self.now)) ≡ Some offset) }
    {
        self.structs.offset(k, name)
    }

    /// Whether a type is complete (ISO/IEC 9899:1999, 6.2.5).
    pub fn is_complete(&self, ty: &Ty) -> bool
        ensures { result ≡ world.is_complete (world_of self.now) (ty_view ty.now) }
    {
        self.structs.is_complete(ty)
    }

    /// What is known of the size of a type.
    pub fn shape(&self, ty: &Ty) -> Measure
        ensures { result ≡ measured (world.shape_in (world_of self.now) (ty_view ty.now)) }
    {
        self.structs.measure(ty)
    }

    /// Whether no array type in this one is larger than the limit, as far as sizes are known.
    pub fn arrays_within(&self, ty: &Ty) -> bool
        ensures { result ≡ world.arrays_within (world_of self.now) (ty_view ty.now) }
    {
        self.structs.arrays_within(ty)
    }

    /// The type of the struct that the tag stands for; F11 where there is none.
    pub fn tag_rule(&mut self, at: Place, tag: &[u8]) -> Option<Ty>
        ensures { IsDone (rule.tag_rule (place_view at) tag.now
            (world_of self.old)) self.old self.new (type_view result) }
    {
        match self.tag_up(tag) {
            Some(k) => Some(Ty::Struct(k)),
            None => {
                self.note(at, FaultKind::F11);
                None
            }
        }
    }

    // One struct more, whose members are begun or not listed so far.
    fn new_struct(&mut self, tag: Option<Name>, is_begun: bool) -> Result<u32, OutOfMemory>
        ensures { Does (λ k. k) (world.new_struct (world.struct_named tag (begun_at is_begun))
            (world_of self.old)) self.old result self.new }
    {
        let k = self.structs.push(tag, is_begun)?;
        Ok(k)
    }

    /// A new struct, which the tag stands for from here on.
    pub fn tagged_struct(&mut self, tag: &[u8], is_begun: bool) -> Result<u32, OutOfMemory>
        ensures { Does (λ k. k) (rule.tagged_struct tag.now
            (begun_at is_begun) (world_of self.old)) self.old result self.new }
    {
        let name = Name::from_slice(self.alloc, tag)?;
        let k = self.new_struct(Some(name), is_begun)?;
        self.put_tag(tag, k)?;
        Ok(k)
    }

    // The members of this struct, which were not listed so far, begin.
    fn begin_listing(&mut self, k: u32, tag: Name)
        requires { world.members_of k (world_of self.old) ≡ Some world.unlisted }
        ensures { IsDone (world.set_struct k (world.struct_named (Some tag) world.begun)
            (world_of self.old)) self.old self.new tt }
    {
        self.structs.begin(k, tag);
    }

    // The members of the struct of this tag and number begin; F10 where they were listed before.
    fn begin_again(&mut self, at: Place, tag: &[u8], k: u32) -> Result<u32, OutOfMemory>
        ensures { Does (λ k. k) (rule.begin_again (place_view at) tag.now k
            (world.members_of k (world_of self.old)) (world_of self.old)) self.old result self.new }
    {
        let unlisted = match self.members_of(k) {
            Some(members) => members.are_unlisted(),
            None => false,
        };
        if unlisted {
            let name = Name::from_slice(self.alloc, tag)?;
            self.begin_listing(k, name);
            return Ok(k);
        }
        self.note(at, FaultKind::F10);
        let new = self.tagged_struct(tag, true)?;
        Ok(new)
    }

    // The members of a struct of this tag begin.
    fn begin_tagged(&mut self, at: Place, tag: &[u8]) -> Result<u32, OutOfMemory>
        ensures { Does (λ k. k) (rule.begin_struct (place_view at)
            (Some tag.now) (world_of self.old)) self.old result self.new }
    {
        self.free_tag(at, tag);
        match self.tag_here(tag) {
            None => {
                let k = self.tagged_struct(tag, true)?;
                Ok(k)
            }
            Some(before) => {
                let k = self.begin_again(at, tag, before)?;
                Ok(k)
            }
        }
    }

    /// The members of a struct begin: its number. F12 where its tag is reserved, and F10 where this scope has listed its
    /// members already.
    pub fn begin_struct(&mut self, at: Place, tag: &Option<Boxed<Name>>) -> Result<u32, OutOfMemory>
        ensures { Does (λ k. k) (rule.begin_struct (place_view at) tag.now
            (world_of self.old)) self.old result self.new }
    {
        match tag {
            None => {
                let k = self.new_struct(None, true)?;
                Ok(k)
            }
            Some(tag) => {
                let k = self.begin_tagged(at, tag.get().as_slice())?;
                Ok(k)
            }
        }
    }

    // This struct closes with these members: what is known of its size.
    fn close_struct(
        &mut self,
        k: u32,
        tag: Option<Name>,
        varchar: bool,
        members: Table<Option<Ty>>,
    ) -> Result<Measure, OutOfMemory>
        ensures { Does (λ m. m) (struct_closing k tag varchar
            (named_view type_view members) (world_of self.old)) self.old result self.new }
    {
        let measure = self.structs.close(k, tag, varchar, members)?;
        Ok(measure)
    }

    /// The members of a struct are these: it is complete (ISO/IEC 9899:1999, 6.7.2.1). L1 where it is larger than the limit.
    pub fn end_struct(
        &mut self,
        at: Place,
        tag: &Option<Boxed<Name>>,
        k: u32,
        members: Table<Option<Ty>>,
    ) -> Result<Option<Ty>, OutOfMemory>
        ensures { Does type_view (rule.end_struct (place_view at) tag.now k
            (named_view type_view members) (world_of self.old)) self.old result self.new }
    {
        let tag = copy_tag(self.alloc, tag)?;
        let measure = self.close_struct(k, tag, false, members)?;
        self.keep_within(at, LimitKind::L1, measure.is_small());
        Ok(Some(Ty::Struct(k)))
    }
}

/// A copy of a tag, if there is one.
fn copy_tag(alloc: Global, tag: &Option<Boxed<Name>>) -> Result<Option<Name>, OutOfMemory>
    ensures { IfOk result (λ copy. copy ≡ tag.now) }
{
    match tag {
        None => Ok(None),
        Some(tag) => Ok(Some(Name::from_slice(alloc, tag.get().as_slice())?)),
    }
}
