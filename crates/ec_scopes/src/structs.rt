//! The structs of a program, by their numbers (ISO/IEC 9899:1999, 6.7.2.1 and 6.7.2.3).

ghost use Rattle.std.specs.Prelude.{◌≡◌, ◌++◌, ◌∷◌, [], length, option_map, slice_get, slice_set, Option, Some, OnOk, IfOk, IfSome};
ghost use Rattle.ec_ctypes.specs.declared.types.sizes.Shape.{Shape as ShapeData};
ghost use Rattle.std.specs.Option.{option_copied};
ghost use Rattle.ec_ctypes.specs.views.Types.{ty_view};
ghost use Rattle.ec_typing_defs.specs.Worlds as rule;
ghost use Rattle.ec_scopes.specs.Entries.{named_view, type_view};
ghost use Rattle.ec_scopes.specs.Structs.{members_view, infos, begun_at, closed_of, shape_by, members_at, complete_in, arrays_within_in, measure_in, member_shape, is_begun, opened, shapes_of, stands_by, IsKeptAt};
ghost use Rattle.ec_scopes.specs.Offsets.{offset_among, starts, IsPlaced};
ghost use Rattle.ec_scopes.specs.Counts.{counted, member_stands, members_among};
ghost use Rattle.ec_typing_defs.specs.Expressions as expressions;
ghost use Rattle.ec_scopes.specs.declared.measures.Measure.TheVariants as measures;
ghost use Rattle.ec_scopes.specs.Measures.{measured, IsSmallMeasure};
ghost use Rattle.ec_ctypes.specs.trees.Types.{structure};

use crate::counts::joined_count;
use crate::measures::{
    LIMIT, Measure, joined_measure, repeated_measure, rounded_measure, scalar_measure,
};
use crate::shared::Shared;
use crate::table::Table;
use ec_base::{List, Name, OutOfMemory};
use ec_ctypes::{Shape, Ty};
use std::alloc::Global;
use std::marker::Model;

/// The members of a struct.
#[derive(Drop)]
pub enum Members {
    /// They are not listed so far.
    Unlisted,
    /// They are being listed.
    Begun,
    /// These are they, with their types. Where a type has a fault there is none.
    Listed(Shared<Table<Option<Ty>>>),
}

impl Members {
    ghost use Rattle.ec_scopes.specs.Structs.{are_unlisted};

    /// Whether they are not listed so far.
    pub fn are_unlisted(&self) -> bool
        ensures { result ≡ are_unlisted self.now }
    {
        match self {
            Members::Unlisted => true,
            Members::Begun => false,
            Members::Listed(_) => false,
        }
    }
}

/// A struct.
#[derive(Drop)]
pub struct StructRow {
    pub tag: Option<Name>,
    /// Whether it is that of a VARCHAR.
    pub varchar: bool,
    pub members: Members,
    /// What is known of its size.
    pub measure: Measure,
    /// How many members a host of it stands for, inner structs too: up to 1000, or 1001 for all above.
    pub stands_for: u32,
    /// Where its members stand, in their order, if each of them has a size within the limit.
    pub offsets: List<u64>,
}

impl StructRow {
    /// Where the member of this name stands, if that is kept of each member.
    fn offset(&self, name: &[u8]) -> Option<u64>
        ensures { IfSome result (IsKeptAt self.now name.now) }
    {
        match &self.members {
            Members::Listed(members) => {
                let members = members.get();
                if self.offsets.len() != members.len() {
                    return None;
                }
                match members.place(name) {
                    Some(i) => self.offsets.get(i).copied(),
                    None => None,
                }
            }
            Members::Unlisted => None,
            Members::Begun => None,
        }
    }
}

/// The structs of a program, numbered as they are met, and the numbers of those whose members are closed, in this order. Each
/// is measured once, as its members close, and so are the offsets of its members found.
#[derive(Drop)]
pub struct StructTable {
    rows: List<StructRow>,
    closed: List<u32>,
}

impl Model for StructTable {
    ghost use Rattle.std.specs.Prelude.{ℕ, List as Sequence};
    ghost use Rattle.ec_scopes.specs.declared.structs.StructRow.{StructRow as Row};
    ghost use Rattle.ec_scopes.specs.Structs.{IsKept};
    ghost use Rattle.std.specs.Coded.{codes};
    ghost use Rattle.ec_ctypes.specs.contracts.types.ty.Ty as ty;

    ghost Value = { Sequence Row × Sequence ℕ };

    ghost coded = { Prim.hlevel (codes, ty.the_row.coded) };

    ghost view = { λ it. (it.rows, it.closed) };

    ghost invariant = { λ it. IsKept it.rows it.closed };
}

impl StructTable {
    /// No structs. They take no memory.
    pub fn new(alloc: Global) -> StructTable
        ensures { result ≡ ([], []) }
    {
        StructTable {
            rows: List::new(alloc),
            closed: List::new(alloc),
        }
    }

    /// The structs as they were met.
    pub fn rows(&self) -> &[StructRow]
        ensures { result.now ≡ self.now.0 }
    {
        self.rows.as_slice()
    }

    /// The struct of this number.
    pub fn get(&self, k: u32) -> Option<&StructRow>
        ensures { option_copied result ≡ slice_get self.now.0 k }
    {
        self.rows.get(k as usize)
    }

    /// One struct more, whose members are begun or not listed so far. It gets the next number.
    pub fn push(&mut self, tag: Option<Name>, is_begun: bool) -> Result<u32, OutOfMemory>
        ensures number { IfOk result (λ k. k ≡ length self.old.0) }
        ensures infos { OnOk result (infos self.new.0 self.new.1
            ≡ infos self.old.0 self.old.1 ++ rule.struct_named tag (begun_at is_begun) ∷ []) }
        ensures closed { OnOk result (self.new.1 ≡ self.old.1) }
    {
        let k = self.rows.len();
        if k > u32::MAX as usize {
            // Out of reach, which isn't proved: each struct takes a token, of which a source has at most 2^22.
            return Err(OutOfMemory);
        }
        let row = open_row(self.rows.allocator(), tag, is_begun);
        self.rows.push(row)?;
        Ok(k as u32)
    }

    /// The numbers of those whose members are closed, in this order.
    pub fn closed(&self) -> &[u32]
        ensures { result.now ≡ self.now.1 }
    {
        self.closed.as_slice()
    }

    /// The members of the struct of this number.
    pub fn members_of(&self, k: u32) -> Option<&Members>
        ensures { option_map members_view (option_copied result)
            ≡ members_at self.now.0 self.now.1 k }
    {
        match self.rows.get(k as usize) {
            Some(row) => Some(&row.members),
            None => None,
        }
    }

    /// The members of a struct of this tag, which were not listed so far, begin.
    pub fn begin(&mut self, k: u32, tag: Name)
        requires { members_at self.old.0 self.old.1 k ≡ Some rule.unlisted }
        ensures infos { infos self.new.0 self.new.1
            ≡ slice_set (infos self.old.0 self.old.1) k (rule.struct_named (Some tag) rule.begun) }
        ensures closed { self.new.1 ≡ self.old.1 }
    {
        if (k as usize) < self.rows.len() {
            let row = open_row(self.rows.allocator(), Some(tag), true);
            self.rows.set(k as usize, row);
        }
    }

    /// Whether the members of this struct are begun and not closed.
    fn is_begun(&self, k: u32) -> bool
        ensures { result ≡ is_begun (slice_get self.now.0 k) }
    {
        match self.rows.get(k as usize) {
            Some(row) => matches!(row.members, Members::Begun),
            None => false,
        }
    }

    /// The members of a struct close, and what is known of its size. They have to be begun, else there is no memory for it.
    pub fn close(
        &mut self,
        k: u32,
        tag: Option<Name>,
        varchar: bool,
        members: Table<Option<Ty>>,
    ) -> Result<Measure, OutOfMemory>
        ensures infos { OnOk result (infos self.new.0 self.new.1
            ≡ slice_set (infos self.old.0 self.old.1) k
            (closed_of tag varchar (named_view type_view members) (infos self.old.0 self.old.1))) }
        ensures closed { OnOk result (self.new.1 ≡ self.old.1 ++ k ∷ []) }
        ensures measure { IfOk result (λ m. m
            ≡ measured (shape_by (infos self.old.0 self.old.1) (named_view type_view members))) }
    {
        if !self.is_begun(k) {
            // Out of reach, which isn't proved: only a struct that was begun here closes, and it closes once.
            return Err(OutOfMemory);
        }
        let measure = self.struct_measure(&members);
        let stands_for = self.host_count(varchar, &members);
        let offsets = self.offsets(&members)?;
        let alloc = self.rows.allocator();
        let members = Shared::new(alloc, members)?;
        self.closed.push(k)?;
        self.rows.set(
            k as usize,
            StructRow {
                tag,
                varchar,
                members: Members::Listed(members),
                measure,
                stands_for,
                offsets,
            },
        );
        Ok(measure)
    }

    /// One struct more, which has these members as soon as it is met: its number, and what is known of its size.
    pub fn push_closed(
        &mut self,
        tag: Option<Name>,
        varchar: bool,
        members: Table<Option<Ty>>,
    ) -> Result<(u32, Measure), OutOfMemory>
        ensures number { IfOk result (λ r. r.0 ≡ length (infos self.old.0 self.old.1)) }
        ensures infos { OnOk result (infos self.new.0 self.new.1
            ≡ infos self.old.0 self.old.1 ++ closed_of tag varchar
            (named_view type_view members) (infos self.old.0 self.old.1) ∷ []) }
        ensures closed { OnOk result
            (self.new.1 ≡ self.old.1 ++ length (infos self.old.0 self.old.1) ∷ []) }
        ensures measure { IfOk result (λ r. r.1
            ≡ measured (shape_by (infos self.old.0 self.old.1) (named_view type_view members))) }
    {
        let k = self.push(None, true)?;
        let measure = self.close(k, tag, varchar, members)?;
        Ok((k, measure))
    }

    /// What is known of the size of a type.
    pub fn measure(&self, ty: &Ty) -> Measure
        ensures measure { result ≡ measure_in (infos self.now.0 self.now.1) (ty_view ty.now) }
        ensures small { IsSmallMeasure result }
    {
        match ty {
            Ty::Void => Measure::Unknown,
            Ty::Bool | Ty::Char | Ty::UChar => scalar_measure(1),
            Ty::Short | Ty::UShort => scalar_measure(2),
            Ty::Int | Ty::UInt => scalar_measure(4),
            Ty::Long | Ty::ULong | Ty::LLong | Ty::ULLong | Ty::Ptr(_) => scalar_measure(8),
            Ty::Array(of, n) => {
                if *n == 0 {
                    return Measure::Unknown;
                }
                repeated_measure(*n, self.measure(of.get()))
            }
            Ty::Struct(k) => self.measure_at(*k),
        }
    }

    /// What is known of the size of the struct of this number.
    fn measure_at(&self, k: u32) -> Measure
        ensures measure { result ≡ measure_in (infos self.now.0 self.now.1) (structure k) }
        ensures small { IsSmallMeasure result }
    {
        match self.rows.get(k as usize) {
            Some(row) => row.measure,
            None => Measure::Unknown,
        }
    }

    /// What is known of the size of a struct with these members.
    fn struct_measure(&self, members: &Table<Option<Ty>>) -> Measure
        ensures measure { result
            ≡ measured (shape_by (infos self.now.0 self.now.1) (named_view type_view members.now)) }
        ensures small { IsSmallMeasure result }
    {
        if members.len() == 0 {
            return Measure::Unknown;
        }
        let mut all = Measure::Within(Shape { size: 0, align: 1 });
        let mut i = 0;
        while i < members.len() {
            all = joined_measure(all, self.member_measure(members, i));
            i += 1;
        }
        rounded_measure(all)
    }

    /// What is known of the size of the member of this number.
    fn member_measure(&self, members: &Table<Option<Ty>>, i: usize) -> Measure
        ensures measure { result
            ≡ measured (member_shape (infos self.now.0 self.now.1)
            (option_map (λ e. e.1) (slice_get members.now i))) }
        ensures small { IsSmallMeasure result }
    {
        match members.value_at(i) {
            Some(Some(ty)) => self.measure(ty),
            Some(None) => Measure::Unknown,
            None => Measure::Unknown,
        }
    }

    /// Where these members stand, if each of them has a size within the limit.
    fn offsets(&self, members: &Table<Option<Ty>>) -> Result<List<u64>, OutOfMemory>
        ensures { IfOk result (λ offsets. length offsets ≡ length members.now → offsets
            ≡ starts (shapes_of (infos self.now.0 self.now.1)) 0
            (named_view type_view members.now)) }
    {
        let alloc = self.rows.allocator();
        let mut offsets = List::new(alloc);
        let mut used = 0;
        let mut i = 0;
        while i < members.len() {
            match placed(used, self.member_measure(members, i)) {
                Some(place) => {
                    offsets.push(place.0)?;
                    used = place.1;
                }
                None => return Ok(List::new(alloc)),
            }
            i += 1;
        }
        Ok(offsets)
    }

    /// The offset of the member of this name in the struct of this number, if it is kept: if each member of the struct has a size
    /// within the limit, and this is one of them.
    pub fn offset(&self, k: u32, name: &[u8]) -> Option<u64>
        ensures { IfSome result (λ offset. offset_among (shapes_of (infos self.now.0 self.now.1))
            name.now (members_at self.now.0 self.now.1 k) ≡ Some offset) }
    {
        match self.rows.get(k as usize) {
            Some(row) => row.offset(name),
            None => None,
        }
    }

    /// How many members a host of this type stands for.
    fn stands_for(&self, ty: &Ty) -> u32
        ensures { result ≡ counted (expressions.stands_for (infos self.now.0 self.now.1)
            (ty_view ty.now)) }
    {
        match ty {
            Ty::Struct(k) => self.stands_for_at(*k),
            _ => 1,
        }
    }

    /// How many members a host of the struct of this number stands for.
    fn stands_for_at(&self, k: u32) -> u32
        ensures { result ≡ counted (expressions.stands_for (infos self.now.0 self.now.1)
            (structure k)) }
    {
        match self.rows.get(k as usize) {
            Some(row) => row.stands_for,
            None => 0,
        }
    }

    /// How many members a host of this type stands for. An array of structs stands for the members of one of them.
    pub fn members_in(&self, ty: &Ty) -> u32
        ensures { result ≡ counted (members_among (infos self.now.0 self.now.1)
            (ty_view ty.now)) }
    {
        match ty {
            Ty::Array(of, _) => self.stands_for(of.get()),
            _ => self.stands_for(ty),
        }
    }

    /// How many members a host of a struct with these members stands for. That of a VARCHAR stands for itself.
    fn host_count(&self, varchar: bool, members: &Table<Option<Ty>>) -> u32
        ensures { result ≡ counted (stands_by varchar (infos self.now.0 self.now.1)
            (named_view type_view members.now)) }
    {
        if varchar {
            1
        } else {
            self.members_count(members)
        }
    }

    /// How many members these stand for.
    fn members_count(&self, members: &Table<Option<Ty>>) -> u32
        ensures { result ≡ counted (expressions.stands_for_all (infos self.now.0 self.now.1)
            (named_view type_view members.now)) }
    {
        let mut all = 0;
        for i in 0..members.len() {
            all = joined_count(all, self.member_count(members, i));
        }
        all
    }

    /// How many members the one of this number stands for.
    fn member_count(&self, members: &Table<Option<Ty>>, i: usize) -> u32
        ensures { result ≡ counted (member_stands (infos self.now.0 self.now.1)
            (option_map (λ e. e.1) (slice_get members.now i))) }
    {
        match members.value_at(i) {
            Some(Some(ty)) => self.stands_for(ty),
            Some(None) => 1,
            None => 0,
        }
    }

    /// Whether no array type in this one is larger than the limit.
    #[tactic(auto, using(crate::proofs::Sizes::small_within))]
    pub fn arrays_within(&self, ty: &Ty) -> bool
        ensures { result ≡ arrays_within_in (infos self.now.0 self.now.1) (ty_view ty.now) }
    {
        match ty {
            Ty::Array(of, _) => { self.measure(ty).is_small() && self.arrays_within(of.get()) }
            _ => true,
        }
    }

    /// Whether a type is complete (ISO/IEC 9899:1999, 6.2.5).
    pub fn is_complete(&self, ty: &Ty) -> bool
        ensures { result ≡ complete_in (infos self.now.0 self.now.1) (ty_view ty.now) }
    {
        match ty {
            Ty::Void => false,
            Ty::Array(of, n) => *n > 0 && self.is_complete(of.get()),
            Ty::Struct(k) => matches!(self.members_of(*k), Some(Members::Listed(_))),
            _ => true,
        }
    }
}

/// A struct whose members are begun or not listed so far.
fn open_row(alloc: Global, tag: Option<Name>, is_begun: bool) -> StructRow
    ensures opened { opened result ≡ rule.struct_named tag (begun_at is_begun) }
    ensures measure { result.measure ≡ measures.Unknown }
    ensures count { result.stands_for ≡ 0 }
    ensures offsets { result.offsets ≡ [] }
{
    let members = if is_begun {
        Members::Begun
    } else {
        Members::Unlisted
    };
    StructRow {
        tag,
        varchar: false,
        members,
        measure: Measure::Unknown,
        stands_for: 0,
        offsets: List::new(alloc),
    }
}

/// Where a member stands behind so many bytes, and how many there are with it, if it has a size and they are within the limit.
fn placed(used: u64, member: Measure) -> Option<(u64, u64)>
    requires small { IsSmallMeasure member }
    ensures { IfSome result (λ place. (o : Option ShapeData) → member ≡ measured o →
        IsPlaced used o place) }
{
    match member {
        Measure::Unknown => None,
        Measure::TooLarge => None,
        Measure::Within(shape) => {
            if used > LIMIT {
                return None;
            }
            let offset = used.next_multiple_of(shape.align);
            Some((offset, offset + shape.size))
        }
    }
}
