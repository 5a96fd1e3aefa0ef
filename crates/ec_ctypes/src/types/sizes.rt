ghost use Rattle.std.specs.Prelude.{◌≡◌, ◌+◌, ◌<◌, ◌≤◌, ◌^◌, Some, option_map, IsSome, IfSome, MatchOption, IfOk, IfErr};
ghost use Rattle.std.specs.Int.{next_multiple_of};
ghost use Rattle.ec_ctypes.specs.Layout.{with_member, limited, IsSmall, IsElement};
ghost use Rattle.ec_ctypes.specs.Sizes.{shape_in, shape_at, shape_behind, members_in, named_in, member_in, IsWithinLimit, HasShape, PassesLimit, AreElements, AreTooMany};
ghost use Rattle.ec_ctypes.specs.views.Types.{ty_view};

use crate::types::{Structs, Ty};
use ec_base::{LimitKind, Name};

/// How many bytes a type takes, and to what it is aligned (ISO/IEC 9899:1999, 6.5.3.4).
#[derive(Clone, Copy, Debug, PartialEq, Eq)]
pub struct Shape {
    pub size: u64,
    pub align: u64,
}

/// The greatest size of a type, in bytes.
const LIMIT: u64 = 16_777_216;

/// The size and the alignment of a complete type, in bytes (ISO/IEC 9899:1999, 6.5.3.4 and 6.7.2.1).
///
/// # Errors
///
/// `LimitKind::L1` where the type has more than 2^24 bytes.
pub fn layout(structs: &Structs, ty: &Ty) -> Result<Shape, LimitKind>
    requires complete { IsSome (shape_in structs.now ty.now) }
    ensures shape { IfOk result (HasShape (shape_in structs.now ty.now)) }
    ensures limit { IfErr result (PassesLimit (shape_in structs.now ty.now)) }
{
    type_shape(structs, ty).ok_or(LimitKind::L1)
}

/// The offset in bytes and the type of a struct's member of this name, or `None` where the struct has no such member
/// (ISO/IEC 9899:1999, 6.5.2.3 and 6.7.2.1). The struct is complete and has at most 2^24 bytes.
pub fn member<'a>(structs: &'a Structs, id: u32, name: &Name) -> Option<(u64, &'a Ty)>
    requires complete { IsSome (shape_at structs.now id) }
    requires small { IfSome (shape_at structs.now id) IsWithinLimit }
    ensures { option_map (λ m. (m.0, ty_view m.1.now)) result ≡ member_in structs.now id name.now }
{
    let members = structs.as_slice().get(id as usize)?.members.as_slice();
    find_member(structs, members, name)
}

// The offset and the type of the member of this name, of members that end within the limit.
fn find_member<'a>(
    structs: &Structs,
    members: &'a [(Name, Ty)],
    name: &Name,
) -> Option<(u64, &'a Ty)>
    requires { IsSome (limited (members_in structs.now members.now)) }
    ensures { option_map (λ m. (m.0, ty_view m.1.now)) result
        ≡ named_in structs.now members.now name.now }
{
    let mut before = Shape { size: 0, align: 1 };
    for (title, ty) in members {
        let shape = type_shape(structs, ty)?;
        if *title == *name {
            return Some((start(before.size, shape.align), ty));
        }
        before = joined(before, shape)?;
    }
    None
}

/// The size and the alignment of a type, in bytes, or `None` where it has none, since it is not complete, or where it has
/// more than 2^24 bytes (ISO/IEC 9899:1999, 6.2.5, 6.5.3.4 and 6.7.2.1). So it is also the test of what `layout` and
/// `member` ask of their callers.
pub fn type_shape(structs: &Structs, ty: &Ty) -> Option<Shape>
    ensures shape { result ≡ limited (shape_in structs.now ty.now) }
    ensures small { IfSome result IsSmall }
{
    let (count, element) = elements(ty)?;
    let shape = element_shape(structs, element)?;
    within(count * shape.size, shape.align)
}

// How many elements an array of arrays has in all, and their type. A type that is no array is one element.
fn elements<'a>(ty: &'a Ty) -> Option<(u64, &'a Ty)>
    ensures { MatchOption result (AreTooMany ty.now) (λ all. AreElements ty.now all.0 all.1.now) }
{
    let mut count: u64 = 1;
    let mut element = ty;
    while let Ty::Array(inner, more) = element {
        if *more == 0 || *more > LIMIT {
            return None;
        }
        count *= *more;
        if count > LIMIT {
            return None;
        }
        element = inner.get();
    }
    Some((count, element))
}

// The shape of a type that is no array.
fn element_shape(structs: &Structs, ty: &Ty) -> Option<Shape>
    requires { IsElement (ty_view ty.now) }
    ensures shape { result ≡ limited (shape_in structs.now ty.now) }
    ensures small { IfSome result IsSmall }
{
    match ty {
        Ty::Void | Ty::Array(_, _) => None,
        Ty::Bool | Ty::Char | Ty::UChar => within(1, 1),
        Ty::Short | Ty::UShort => within(2, 2),
        Ty::Int | Ty::UInt => within(4, 4),
        Ty::Long | Ty::ULong | Ty::LLong | Ty::ULLong | Ty::Ptr(_) => within(8, 8),
        Ty::Struct(id) => structs.shape(*id),
    }
}

// The shape of a struct with these members, behind these structs.
pub(crate) fn struct_shape(structs: &Structs, members: &[(Name, Ty)]) -> Option<Shape>
    ensures { result ≡ limited (shape_behind structs.now members.now) }
{
    if members.is_empty() {
        return None;
    }
    let all = members_shape(structs, members)?;
    within(start(all.size, all.align), all.align)
}

// The bytes up to the end of the last member, and the widest alignment of a member.
fn members_shape(structs: &Structs, members: &[(Name, Ty)]) -> Option<Shape>
    ensures shape { result ≡ limited (members_in structs.now members.now) }
    ensures small { IfSome result IsSmall }
{
    let mut all = Shape { size: 0, align: 1 };
    for (_, ty) in members {
        let member = type_shape(structs, ty)?;
        all = joined(all, member)?;
    }
    Some(all)
}

// The members so far, and one more behind them.
fn joined(before: Shape, member: Shape) -> Option<Shape>
    requires before { IsSmall before }
    requires member { IsSmall member }
    ensures shape { result ≡ limited (Some (with_member before member)) }
    ensures small { IfSome result IsSmall }
{
    within(
        start(before.size, member.align) + member.size,
        before.align.max(member.align),
    )
}

// Where something of this alignment starts behind `used` bytes.
fn start(used: u64, align: u64) -> u64
    requires used { used ≤ 2 ^ 24 }
    requires positive { 0 < align }
    requires align { align ≤ 8 }
    ensures start { result ≡ next_multiple_of used align }
    ensures small { result ≤ 2 ^ 24 + 8 }
{
    used.next_multiple_of(align)
}

// A shape of this size, or `None` where the size is above the limit.
fn within(size: u64, align: u64) -> Option<Shape>
    requires positive { 0 < align }
    requires align { align ≤ 8 }
    ensures shape { result ≡ limited (Some (record { size = size; align = align })) }
    ensures small { IfSome result IsSmall }
{
    if size > LIMIT {
        None
    } else {
        Some(Shape { size, align })
    }
}
