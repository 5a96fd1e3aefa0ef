//! Going through the members of a struct and of the structs that it holds, without recursion.

ghost use Rattle.std.specs.Prelude.{◌≡◌, ◌<◌, ◌+◌, ◌-◌, nat_le, [], ◌∷◌, ◌++◌, false, true, drop, map, length, slice_get, Some, None, IfOk, OnOk, option_map};
ghost use Rattle.std.specs.Option.{option_copied};
ghost use Rattle.ec_ctypes.specs.views.Types.{ty_view, member_view, structs_view};
ghost use Rattle.ec_host_defs.specs.Elements as elements;
ghost use Rattle.ec_host_defs.specs.Leaves as hosts;
ghost use Rattle.ec_leaves.specs.Adding.{added};
ghost use Rattle.ec_leaves.specs.Going as spec;
ghost use Rattle.ec_leaves.specs.Seen.{leaf_view, leaf_at};

use crate::elements::{definition, is_element, plain_struct};
use crate::parts::{Frame, Leaf, Step, Turn, Walk};
use ec_base::{List, Name, OutOfMemory};
use ec_ctypes::{Structs, Ty, copy_ty};
use std::alloc::Global;

/// The members that lead to a place.
type Path = List<(u32, Name)>;

/// The members that lead into a struct, and one of its own behind them.
fn path_to(alloc: Global, outer: &[Step], id: u32, name: &Name) -> Result<Path, OutOfMemory>
    ensures { IfOk result (λ path. path ≡ spec.path_of outer.now ++ (id, name.now) ∷ []) }
{
    let mut path = List::new(alloc);
    for step in outer {
        let copy = step.name.clone()?;
        path.push((step.id, copy))?;
    }
    let copy = name.clone()?;
    path.push((id, copy))?;
    Ok(path)
}

/// The leaf at the end of these members.
fn leaf_of(alloc: Global, frame: Frame, path: Path, ty: &Ty) -> Result<Leaf, OutOfMemory>
    ensures { IfOk result (λ leaf. leaf_view leaf ≡ leaf_at frame (path, ty_view ty.now)) }
{
    let whole = copy_ty(alloc, ty)?;
    let element = copy_ty(alloc, ty)?;
    match frame {
        Frame::Single => Ok(Leaf {
            in_first: false,
            path,
            whole,
            element,
            count: 1,
            apart: copy_ty(alloc, ty)?,
        }),
        Frame::Many(id, count) => Ok(Leaf {
            in_first: true,
            path,
            whole,
            element,
            count,
            apart: Ty::Struct(id),
        }),
    }
}

/// The member at this place of the struct of this number.
fn member_at(structs: &Structs, id: u32, at: usize) -> Option<&(Name, Ty)>
    ensures { option_map member_view (option_copied result)
        ≡ slice_get (spec.members_of (structs_view structs.now) id) at }
{
    match definition(structs, id) {
        Some(definition) => member_in(definition.members.as_slice(), at),
        None => None,
    }
}

/// The member at this place.
fn member_in(members: &[(Name, Ty)], at: usize) -> Option<&(Name, Ty)>
    ensures { option_map member_view (option_copied result)
        ≡ slice_get (map member_view members.now) at }
{
    members.get(at)
}

/// The number behind this, where it can be counted.
fn behind(at: usize) -> Result<usize, OutOfMemory>
    ensures { IfOk result (λ next. next ≡ at + 1) }
{
    match at.checked_add(1) {
        Some(next) => Ok(next),
        // Out of reach, which isn't proved: the members are in a list.
        None => Err(OutOfMemory),
    }
}

/// Goes back to the struct round the one that is gone through, which has no member left.
fn leave(structs: &Structs, frame: Frame, walk: &mut Walk) -> Turn
    requires left { drop walk.old.next (spec.members_of (structs_view structs.now) walk.old.id)
        ≡ [] }
    requires depth { length walk.old.outer < length (structs_view structs.now) }
    ensures turned { spec.Turned (structs_view structs.now) frame result walk.old walk.new }
    ensures depth { length walk.new.outer < length (structs_view structs.now) }
{
    match walk.outer.pop() {
        Some(step) => {
            walk.id = step.id;
            walk.next = step.next;
            Turn::Goes
        }
        None => Turn::Ended,
    }
}

/// Adds the leaf that the next member is.
fn add_leaf(
    alloc: Global,
    structs: &Structs,
    frame: Frame,
    walk: &mut Walk,
    member: &(Name, Ty),
    next: usize,
) -> Result<Turn, OutOfMemory>
    requires left { drop walk.old.next (spec.members_of (structs_view structs.now) walk.old.id)
        ≡ member_view member.now
        ∷ drop next (spec.members_of (structs_view structs.now) walk.old.id) }
    requires element { elements.is_element (structs_view structs.now) (ty_view member.now.1)
        ≡ true }
    requires depth { length walk.old.outer < length (structs_view structs.now) }
    ensures turned { IfOk result (λ turn. spec.Turned (structs_view structs.now) frame turn
        walk.old walk.new) }
    ensures depth { length walk.new.outer < length (structs_view structs.now) }
{
    let path = path_to(alloc, walk.outer.as_slice(), walk.id, &member.0)?;
    let leaf = leaf_of(alloc, frame, path, &member.1)?;
    walk.leaves.push(leaf)?;
    walk.next = next;
    Ok(Turn::Goes)
}

/// Whether no struct may lie in the one that is gone through: there are no more of them.
fn is_deepest(structs: &Structs, walk: &Walk) -> bool
    ensures { result ≡ nat_le (length (structs_view structs.now) - length walk.now.outer) 1 }
{
    structs.as_slice().len().saturating_sub(walk.outer.len()) <= 1
}

/// Goes into the struct of this number, which the next member is.
fn enter(
    structs: &Structs,
    frame: Frame,
    walk: &mut Walk,
    member: &(Name, Ty),
    next: usize,
    inner: u32,
) -> Result<Turn, OutOfMemory>
    requires left { drop walk.old.next (spec.members_of (structs_view structs.now) walk.old.id)
        ≡ member_view member.now
        ∷ drop next (spec.members_of (structs_view structs.now) walk.old.id) }
    requires other { elements.is_element (structs_view structs.now) (ty_view member.now.1)
        ≡ false }
    requires inner { elements.plain_struct (structs_view structs.now) (ty_view member.now.1)
        ≡ Some inner }
    requires depth { length walk.old.outer < length (structs_view structs.now) }
    ensures turned { IfOk result (λ turn. spec.Turned (structs_view structs.now) frame turn
        walk.old walk.new) }
    ensures depth { OnOk result (length walk.new.outer < length (structs_view structs.now)) }
{
    if is_deepest(structs, walk) {
        return Ok(Turn::NoHost);
    }
    let name = member.0.clone()?;
    let id = walk.id;
    walk.outer.push(Step { id, name, next })?;
    walk.id = inner;
    walk.next = 0;
    Ok(Turn::Goes)
}

/// Goes through this member, which is the next one.
fn pass(
    alloc: Global,
    structs: &Structs,
    frame: Frame,
    walk: &mut Walk,
    member: &(Name, Ty),
) -> Result<Turn, OutOfMemory>
    requires there { slice_get (spec.members_of (structs_view structs.now) walk.old.id)
        walk.old.next ≡ Some (member_view member.now) }
    requires depth { length walk.old.outer < length (structs_view structs.now) }
    ensures turned { IfOk result (λ turn. spec.Turned (structs_view structs.now) frame turn
        walk.old walk.new) }
    ensures depth { OnOk result (length walk.new.outer < length (structs_view structs.now)) }
{
    let next = behind(walk.next)?;
    if is_element(structs, &member.1) {
        return add_leaf(alloc, structs, frame, walk, member, next);
    }
    match plain_struct(structs, &member.1) {
        Some(inner) => enter(structs, frame, walk, member, next, inner),
        None => Ok(Turn::NoHost),
    }
}

/// Goes through the next member, or back where none is left.
fn turn(
    alloc: Global,
    structs: &Structs,
    frame: Frame,
    walk: &mut Walk,
) -> Result<Turn, OutOfMemory>
    requires depth { length walk.old.outer < length (structs_view structs.now) }
    ensures turned { IfOk result (λ turn. spec.Turned (structs_view structs.now) frame turn
        walk.old walk.new) }
    ensures depth { OnOk result (length walk.new.outer < length (structs_view structs.now)) }
{
    match member_at(structs, walk.id, walk.next) {
        Some(member) => pass(alloc, structs, frame, walk, member),
        None => Ok(leave(structs, frame, walk)),
    }
}

/// Goes through all members that are left, and says whether all have leaves.
fn run(alloc: Global, structs: &Structs, frame: Frame, walk: &mut Walk) -> Result<bool, OutOfMemory>
    requires { length walk.old.outer < length (structs_view structs.now) }
    ensures { IfOk result (λ has. added has (map leaf_view walk.new.leaves)
        ≡ spec.whole (structs_view structs.now) frame walk.old) }
{
    for _turn in 0..u64::MAX {
        match turn(alloc, structs, frame, walk)? {
            Turn::Goes => {}
            Turn::Ended => return Ok(true),
            Turn::NoHost => return Ok(false),
        }
    }
    // Out of reach, which isn't proved: a walk ends, and 2^64 turns take centuries.
    Err(OutOfMemory)
}

/// The leaves of the struct of this number.
pub(crate) fn struct_leaves(
    alloc: Global,
    structs: &Structs,
    frame: Frame,
    id: u32,
) -> Result<Option<List<Leaf>>, OutOfMemory>
    ensures { IfOk result (λ found. option_map (map leaf_view) found
        ≡ option_map (map (leaf_at frame)) (hosts.ways (structs_view structs.now) id)) }
{
    let Some(_definition) = definition(structs, id) else {
        return Ok(None);
    };
    let mut walk = Walk {
        outer: List::new(alloc),
        id,
        next: 0,
        leaves: List::new(alloc),
    };
    let has = run(alloc, structs, frame, &mut walk)?;
    if has { Ok(Some(walk.leaves)) } else { Ok(None) }
}
