//! Objects of blocks and functions, and turns.

ghost use Rattle.std.specs.Prelude.{◌≡◌, ◌≢◌, ◌≤◌, ◌+◌, ◌^◌, ◌↔◌, ◌⊎◌, ℕ, ℤ, ◌++◌, [], ◌∷◌, List, length, drop, map, OnOk, OnErr, MatchOption, Some, None, Ok, Err, slice_get};
ghost use Rattle.std.specs.Option.{option_map};
ghost use Rattle.ec_code.specs.Views.{size_view};
ghost use Rattle.ec_meaning_defs.specs.evaluation.Results.{Res, made, given, tried, turn};
ghost use Rattle.ec_meaning_defs.specs.evaluation.State.{State};
ghost use Rattle.ec_memory_defs.specs.Kinds.{kind_type};
ghost use Rattle.ec_memory_defs.specs.declared.kind.Kind.{Kind as KindData};
ghost use Rattle.ec_base.specs.declared.stop.Trap.TheVariants as trap;
ghost use Rattle.ec_memory.specs.declared.store.MakeStop.TheVariants as stops;
ghost use Rattle.ec_memory_defs.specs.Memory.{make, scalar_size, with_object};
ghost use Rattle.ec_plain.specs.Answered.{at, ending_of, scope_view};
ghost use Rattle.ec_values.specs.Words.{word_view};
ghost use Rattle.ec_memory.specs.Room.{HasRoom, int_cells};
ghost use Rattle.ec_machine.specs.Arguments.{HasMade, IsInt, MakesArguments, with_arguments};
ghost use Rattle.ec_machine.specs.Frames.{Grown, objects_of};
ghost use Rattle.ec_machine.specs.declared.stop.Stop.TheVariants as ways;
ghost use Rattle.ec_machine.specs.Goes.{IsNoRoom, IsOver, Makes, Passes};

use crate::scope::Scope;
use crate::stop::{End, Stop};
use ec_base::{Line, Trap};
use ec_bytes::Ptr;
use ec_code::{Function, ObjectSize};
use ec_memory::{MakeStop, Store};
use ec_memory_defs::Kind;
use ec_values::{Stop as NoValue, Word, store as stored};

/// Takes a turn, if one is left.
pub fn take_turn(turns: &mut u64) -> Result<(), Stop>
    ensures turn { (s : State) (go : State → Res) → Passes result
        (turn (record s { turns = turns.old }) go) (go (record s { turns = turns.new })) (record s
        { turns = turns.new }) }
    ensures fewer { turns.new ≤ turns.old }
    ensures taken { OnOk result (turns.old ≡ turns.new + 1) }
    ensures memory { result ≢ Err ways.OutOfMemory }
{
    if *turns == 0 {
        return Err(Stop::Over(End::TurnsSpent));
    }
    *turns -= 1;
    Ok(())
}

/// How the run ends where a value is missing, on this line.
pub fn stopped(line: Line, why: NoValue) -> Stop
    ensures { IsOver result (ending_of line.0 why) }
{
    match why {
        NoValue::Trap(trap) => Stop::Over(End::Trapped(trap, line)),
        NoValue::Misfit => Stop::Over(End::Stuck),
    }
}

/// How the run ends where no object was made, on this line.
pub fn no_room(line: Line, why: MakeStop) -> Stop
    ensures { IsNoRoom line.0 why result }
{
    match why {
        MakeStop::Spent => Stop::Over(End::Trapped(Trap::Spent, line)),
        MakeStop::OutOfMemory => Stop::OutOfMemory,
    }
}

/// The object at a place among those in scope.
pub fn place(scope: &Scope, slot: u32) -> Option<Ptr>
    ensures { option_map (λ p. p.0) result ≡ slice_get (scope_view (objects_of scope.now)) slot }
{
    scope.objects().get(slot as usize).copied()
}

/// Makes an object, and puts it behind the others.
#[inline(always)]
pub fn make_object(store: &mut Store, scope: &mut Scope, size: u64) -> Result<(), MakeStop>
    requires some { 1 ≤ size }
    requires small { size ≤ 2 ^ 24 }
    ensures made { (line : ℕ) (s : State) (go : List ℕ → State → Res) → Makes line result
        (tried line (make store.old size) (at s store.old) (λ r. go (scope_view (objects_of
        scope.old) ++ r.0 ∷ []) (at s r.1)))
        (go (scope_view (objects_of scope.new)) (at s store.new)) (at s store.new) }
    ensures grown { OnOk result (Grown scope.old.pointers scope.new.pointers) }
{
    match store.make(size) {
        Ok(ptr) => {
            scope.push(ptr)?;
            Ok(())
        }
        Err(MakeStop::Spent) => Err(MakeStop::Spent),
        Err(MakeStop::OutOfMemory) => Err(MakeStop::OutOfMemory),
    }
}

/// Makes objects of these sizes, and puts them behind the others.
pub fn make_objects(
    store: &mut Store,
    scope: &mut Scope,
    sizes: &[ObjectSize],
) -> Result<(), MakeStop>
    ensures made { (line : ℕ) (s : State) (go : List ℕ → State → Res) → Makes line result
        (made line (map size_view sizes.now) (scope_view (objects_of scope.old)) (at s store.old)
        go)
        (go (scope_view (objects_of scope.new)) (at s store.new)) (at s store.new) }
    ensures grown { OnOk result (Grown scope.old.pointers scope.new.pointers) }
{
    for size in sizes {
        match make_object(store, scope, size.bytes) {
            Ok(()) => (),
            Err(why) => return Err(why),
        }
    }
    Ok(())
}

/// Makes an object of this type, and puts it behind the others.
#[inline(always)]
fn make_parameter(store: &mut Store, scope: &mut Scope, kind: Kind) -> Result<(), MakeStop>
    ensures made { (line : ℕ) (s : State) (go : List ℕ → State → Res) → Makes line result
        (tried line (make store.old (scalar_size (kind_type kind))) (at s store.old) (λ r. go
        (scope_view (objects_of scope.old) ++ r.0 ∷ []) (at s r.1)))
        (go (scope_view (objects_of scope.new)) (at s store.new)) (at s store.new) }
    ensures grown { OnOk result (Grown scope.old.pointers scope.new.pointers) }
{
    make_object(store, scope, size_of(kind))
}

/// Makes an object of the first of these types, if there is one, and puts it behind the others.
#[inline(always)]
fn make_first(store: &mut Store, scope: &mut Scope, kinds: &[Kind]) -> Result<(), MakeStop>
    ensures made { (line : ℕ) (s : State) (go : List ℕ → State → Res) (kind : KindData) →
        slice_get kinds.now 0 ≡ Some kind → Makes line result
        (tried line (make store.old (scalar_size (kind_type kind))) (at s store.old) (λ r. go
        (scope_view (objects_of scope.old) ++ r.0 ∷ []) (at s r.1)))
        (go (scope_view (objects_of scope.new)) (at s store.new)) (at s store.new) }
    ensures none { slice_get kinds.now 0 ≡ None →
        (result ≡ Ok tt) × (store.new ≡ store.old) × (scope.new ≡ scope.old) }
    ensures grown { OnOk result (Grown scope.old.pointers scope.new.pointers) }
{
    match first_kind(kinds) {
        Some(kind) => make_parameter(store, scope, kind),
        None => Ok(()),
    }
}

/// The first of these types.
#[inline(always)]
fn first_kind(kinds: &[Kind]) -> Option<Kind>
    ensures { result ≡ slice_get kinds.now 0 }
{
    kinds.first().copied()
}

/// Makes objects of these types, and puts them behind the others.
fn make_parameters(store: &mut Store, scope: &mut Scope, kinds: &[Kind]) -> Result<(), MakeStop>
    ensures made { (line : ℕ) (s : State) (go : List ℕ → State → Res) → Makes line result
        (made line (map scalar_size (map kind_type kinds.now)) (scope_view (objects_of scope.old))
        (at s store.old) go)
        (go (scope_view (objects_of scope.new)) (at s store.new)) (at s store.new) }
    ensures grown { OnOk result (Grown scope.old.pointers scope.new.pointers) }
{
    let mut kinds = kinds;
    while let [_, more_kinds @ ..] = kinds {
        match make_first(store, scope, kinds) {
            Ok(()) => (),
            Err(why) => return Err(why),
        }
        kinds = more_kinds;
    }
    Ok(())
}

/// The size of a value of a type.
#[inline(always)]
fn size_of(kind: Kind) -> u64
    ensures value { result ≡ scalar_size (kind_type kind) }
    ensures some { 1 ≤ result }
{
    match kind {
        Kind::Bool => 1,
        Kind::Char => 1,
        Kind::UChar => 1,
        Kind::Short => 2,
        Kind::UShort => 2,
        Kind::Int => 4,
        Kind::UInt => 4,
        Kind::Long => 8,
        Kind::ULong => 8,
        Kind::LLong => 8,
        Kind::ULLong => 8,
        Kind::Ptr => 8,
    }
}

/// Makes the objects of a function: its parameters with these values, and the objects of its body.
#[inline(never)]
pub(crate) fn make_locals(
    store: &mut Store,
    scope: &mut Scope,
    line: Line,
    function: &Function,
    values: &[Word],
) -> Result<(), Stop>
    ensures made { (s : State) (go : List ℕ → State → Res) → Passes result
        (with_arguments line.0 function.now.parameters (map word_view values.now)
        (scope_view (objects_of scope.old)) (at s store.old)
        (λ ps t. made line.0 (map size_view function.now.objects) ps t go))
        (go (scope_view (objects_of scope.new)) (at s store.new)) (at s store.new) }
    ensures grown { OnOk result (Grown scope.old.pointers scope.new.pointers) }
{
    match make_arguments(store, scope, line, function.parameters.as_slice(), values) {
        Ok(()) => (),
        Err(stop) => return Err(stop),
    }
    match function.objects.as_slice() {
        [] => Ok(()),
        sizes => match make_objects(store, scope, sizes) {
            Ok(()) => Ok(()),
            Err(why) => Err(no_room(line, why)),
        },
    }
}

/// Makes parameters of these types with these values, and puts them behind the others.
#[inline(always)]
fn make_arguments(
    store: &mut Store,
    scope: &mut Scope,
    line: Line,
    kinds: &[Kind],
    values: &[Word],
) -> Result<(), Stop>
    ensures made { MakesArguments line.0 kinds.now (map word_view values.now) result
        store.old scope.old store.new scope.new }
    ensures grown { OnOk result (Grown scope.old.pointers scope.new.pointers) }
{
    if store.has_room(kinds.len()) {
        make_ints(store, scope, line, kinds, values)
    } else {
        make_any(store, scope, line, kinds, values)
    }
}

/// The same where there is room for all. Those of `int` are made with their values, up to the first of another type.
#[inline(always)]
fn make_ints(
    store: &mut Store,
    scope: &mut Scope,
    line: Line,
    kinds: &[Kind],
    values: &[Word],
) -> Result<(), Stop>
    requires room { HasRoom store.old (length kinds.now) }
    ensures made { MakesArguments line.0 kinds.now (map word_view values.now) result
        store.old scope.old store.new scope.new }
    ensures grown { OnOk result (Grown scope.old.pointers scope.new.pointers) }
{
    let mut kinds = kinds;
    let mut values = values;
    while let [kind, more_kinds @ ..] = kinds {
        match values {
            [] => return make_any(store, scope, line, kinds, values),
            [value, more_values @ ..] => match int_of(*kind, *value) {
                Some(number) => {
                    match make_int(store, scope, number) {
                        Ok(()) => (),
                        Err(why) => return Err(no_room(line, why)),
                    }
                    kinds = more_kinds;
                    values = more_values;
                }
                None => return make_any(store, scope, line, kinds, values),
            },
        }
    }
    if values.is_empty() {
        Ok(())
    } else {
        Err(Stop::Over(End::Stuck))
    }
}

/// The number that a parameter gets from this value, if it is an `int` and the value a signed number that `int` has.
#[inline(always)]
fn int_of(kind: Kind, value: Word) -> Option<i32>
    ensures { MatchOption result ((z : ℤ) → IsInt kind value z → ⊥) (IsInt kind value) }
{
    match kind {
        Kind::Int => match value {
            Word::Signed(number) => i32::try_from(number).ok(),
            _ => None,
        },
        _ => None,
    }
}

/// Makes an `int` with this value, and puts it behind the others. After an error the scope is as it was, but an object
/// for which the scope had no memory is left in the store.
#[inline(always)]
fn make_int(store: &mut Store, scope: &mut Scope, value: i32) -> Result<(), MakeStop>
    ensures made { OnOk result (HasMade value store.old scope.old store.new scope.new) }
    ensures spent { (result ≡ Err stops.Spent)
        ↔ (with_object store.old (int_cells value) ≡ Err trap.Spent) }
    ensures left { OnErr result ((store.new ≡ store.old)
        ⊎ ((p : ℕ) × (with_object store.old (int_cells value) ≡ Ok (p, store.new)))) }
    ensures unplaced { OnErr result (scope.new ≡ scope.old) }
{
    match store.make_int(value) {
        Ok(ptr) => {
            scope.push(ptr)?;
            Ok(())
        }
        Err(MakeStop::Spent) => Err(MakeStop::Spent),
        Err(MakeStop::OutOfMemory) => Err(MakeStop::OutOfMemory),
    }
}

/// The same of any types and values: all parameters are made, and then the values are stored in them.
#[inline(never)]
fn make_any(
    store: &mut Store,
    scope: &mut Scope,
    line: Line,
    kinds: &[Kind],
    values: &[Word],
) -> Result<(), Stop>
    ensures made { MakesArguments line.0 kinds.now (map word_view values.now) result
        store.old scope.old store.new scope.new }
    ensures grown { OnOk result (Grown scope.old.pointers scope.new.pointers) }
{
    let before = scope.objects().len();
    match make_parameters(store, scope, kinds) {
        Ok(()) => (),
        Err(why) => return Err(no_room(line, why)),
    }
    give_arguments(store, line, kinds, behind(scope.objects(), before), values)
}

/// The objects behind the first.
fn behind(objects: &[Ptr], before: usize) -> &[Ptr]
    ensures { result.now ≡ drop before objects.now }
{
    &objects[before.min(objects.len())..]
}

/// Stores arguments in parameters of these types, in order.
fn give_arguments(
    store: &mut Store,
    line: Line,
    kinds: &[Kind],
    pointers: &[Ptr],
    values: &[Word],
) -> Result<(), Stop>
    ensures given { (s : State) (go : State → Res) → Passes result
        (given line.0 (map kind_type kinds.now) (scope_view pointers.now) (map word_view
        values.now) (at s store.old) go)
        (go (at s store.new)) (at s store.new) }
    ensures memory { result ≢ Err ways.OutOfMemory }
{
    let mut kinds = kinds;
    let mut pointers = pointers;
    let mut values = values;
    while let [kind, more_kinds @ ..] = kinds {
        match pointers {
            [] => return Err(Stop::Over(End::Stuck)),
            [ptr, more_pointers @ ..] => match values {
                [] => return Err(Stop::Over(End::Stuck)),
                [value, more_values @ ..] => {
                    match stored(store, *ptr, *kind, *value) {
                        Ok(()) => (),
                        Err(trap) => return Err(Stop::Over(End::Trapped(trap, line))),
                    }
                    kinds = more_kinds;
                    pointers = more_pointers;
                    values = more_values;
                }
            },
        }
    }
    if pointers.is_empty() && values.is_empty() {
        Ok(())
    } else {
        Err(Stop::Over(End::Stuck))
    }
}
