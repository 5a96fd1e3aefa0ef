//! Loads and stores of scalars.

ghost use Rattle.std.specs.Prelude.{◌≡◌, ◌+◌, ◌≤◌, ◌+ℤ◌, ℕ, List, IfOk, IfSome, OnErr, IsSome, MatchOption, None, Some, Ok, length};
ghost use Rattle.ec_ctypes.specs.Arithmetic.{IsValue};
ghost use Rattle.ec_ctypes.specs.declared.types.arith.Arith.TheVariants as arith;
ghost use Rattle.ec_ctypes.specs.views.Types.{ty_view};
ghost use Rattle.ec_memory_defs.specs.Memory.{ScalarType, ValueData, scalar_type, Fits, decoded, encoded, number, span, put, load, store};
ghost use Rattle.ec_memory_defs.specs.Kinds.{kind_type};
ghost use Rattle.ec_memory_defs.specs.declared.kind.Kind.TheVariants as kind;
ghost use Rattle.ec_bytes.specs.Scalars.{AreBytes, signed_bytes, signed_of};
ghost use Rattle.std.specs.Int.{w32};
ghost use Rattle.ec_memory.specs.Near.{IsNear};
ghost use Rattle.ec_memory.specs.Store.{outcome, seen};
ghost use Rattle.ec_memory.specs.Sums.{Adds, AddsAt, HasNoSum, HasNoSumAt};
ghost use Rattle.ec_memory.specs.Values.{value_view};

use crate::place::{reach, reach_near};
use crate::store::Store;
use crate::value::{Held, Value};
use ec_base::Trap;
use ec_bytes::{Flag, I8, I16, I32, I64, Ptr, Region, Scalar, U8, U16, U32, U64};
use ec_ctypes::Ty;
use ec_memory_defs::Kind;

impl Store {
    /// The value at a pointer, read as one access (ISO/IEC 9899:1999, 6.2.6, 6.3.2.1). `ty` is its type: an integer type or a
    /// pointer type. The byte of the lowest value comes first, signed numbers are in two's complement, and any byte but 0
    /// is a true `_Bool`. The traps are `Null`, `Dead`, `Outside` and `Unset`.
    pub fn load(&self, ptr: Ptr, ty: &Ty) -> Result<Value, Trap>
        requires { IsSome (scalar_type (ty_view ty.now)) }
        ensures { (s : ScalarType) → scalar_type (ty_view ty.now) ≡ Some s
            → seen value_view result ≡ load self.now ptr.0 s }
    {
        match Kind::of(ty) {
            Some(kind) => self.load_kind(ptr, kind),
            None => unreachable!(),
        }
    }

    /// The same by the kind of the type.
    #[inline(always)]
    pub fn load_kind(&self, ptr: Ptr, kind: Kind) -> Result<Value, Trap>
        ensures { seen value_view result ≡ load self.now ptr.0 (kind_type kind) }
    {
        match kind {
            Kind::Bool => self.load_scalar::<Flag>(ptr),
            Kind::Char => self.load_scalar::<I8>(ptr),
            Kind::UChar => self.load_scalar::<U8>(ptr),
            Kind::Short => self.load_scalar::<I16>(ptr),
            Kind::UShort => self.load_scalar::<U16>(ptr),
            Kind::Int => self.load_scalar::<I32>(ptr),
            Kind::UInt => self.load_scalar::<U32>(ptr),
            Kind::Long | Kind::LLong => self.load_scalar::<I64>(ptr),
            Kind::ULong | Kind::ULLong => self.load_scalar::<U64>(ptr),
            Kind::Ptr => self.load_scalar::<Ptr>(ptr),
        }
    }

    /// The number of an `int` at a pointer, read as one access. The traps are `Null`, `Dead`, `Outside` and `Unset`.
    #[inline(always)]
    pub fn load_int(&self, ptr: Ptr) -> Result<i32, Trap>
        ensures { seen number result ≡ load self.now ptr.0 (kind_type kind.Int) }
    {
        Ok(self.read::<I32>(ptr)?.0)
    }

    /// The same of a `long`.
    #[inline(always)]
    pub fn load_long(&self, ptr: Ptr) -> Result<i64, Trap>
        ensures { seen number result ≡ load self.now ptr.0 (kind_type kind.Long) }
    {
        Ok(self.read::<I64>(ptr)?.0)
    }

    /// The same of a `char`.
    #[inline(always)]
    pub fn load_char(&self, ptr: Ptr) -> Result<i8, Trap>
        ensures { seen number result ≡ load self.now ptr.0 (kind_type kind.Char) }
    {
        Ok(self.read::<I8>(ptr)?.0)
    }

    /// The number of an `int` at a pointer, found without a search. There is none unless the pointer leads to the start of the
    /// object that is the `behind`th from the end of those that are alive, the last being 1, and `load_int` gives it.
    #[inline(always)]
    pub fn load_int_near(&self, ptr: Ptr, behind: usize) -> Option<i32>
        ensures value { IfSome result
            (λ value. load self.now ptr.0 (kind_type kind.Int) ≡ Ok (number value)) }
        ensures near { IfSome result (λ _. IsNear self.now ptr.0 behind) }
        ensures none { result ≡ None → IsNear self.now ptr.0 behind
            → (it : ValueData) → load self.now ptr.0 (kind_type kind.Int) ≡ Ok it → ⊥ }
    {
        Some(self.read_near::<I32>(ptr, behind)?.0)
    }

    /// The same of a `long` and `load_long`.
    #[inline(always)]
    pub fn load_long_near(&self, ptr: Ptr, behind: usize) -> Option<i64>
        ensures value { IfSome result
            (λ value. load self.now ptr.0 (kind_type kind.Long) ≡ Ok (number value)) }
        ensures near { IfSome result (λ _. IsNear self.now ptr.0 behind) }
        ensures none { result ≡ None → IsNear self.now ptr.0 behind
            → (it : ValueData) → load self.now ptr.0 (kind_type kind.Long) ≡ Ok it → ⊥ }
    {
        Some(self.read_near::<I64>(ptr, behind)?.0)
    }

    /// Adds a number to the `int` at a pointer, and gives that from before (ISO/IEC 9899:1999, 6.5.16.2), without a search.
    /// There is none, and nothing is changed, where `load_int_near` gives none, and where `int` doesn't have the sum.
    #[inline(always)]
    pub fn add_int_near(&mut self, ptr: Ptr, behind: usize, by: i64) -> Option<i32>
        ensures sum { IfSome result (λ before. Adds self.old ptr.0 before by self.new) }
        ensures near { IfSome result (λ _. IsNear self.old ptr.0 behind) }
        ensures none { result ≡ None → IsNear self.old ptr.0 behind → HasNoSum self.old ptr.0 by }
        ensures unchanged { result ≡ None → self.new ≡ self.old }
    {
        match reach_near(&self.alive, ptr, 4, behind) {
            Some(at) => add_at(&mut self.cells, at, by),
            None => None,
        }
    }

    /// Stores `value` at a pointer, as one access (ISO/IEC 9899:1999, 6.2.6, 6.5.16). `ty` is its type: an integer type of
    /// which it is one of the values, or a pointer type. The traps are `Null`, `Dead` and `Outside`.
    pub fn store(&mut self, ptr: Ptr, ty: &Ty, value: Value) -> Result<(), Trap>
        requires scalar { IsSome (scalar_type (ty_view ty.now)) }
        requires fits { (s : ScalarType) → scalar_type (ty_view ty.now) ≡ Some s
            → Fits s (value_view value) }
        ensures outcome { (s : ScalarType) → scalar_type (ty_view ty.now) ≡ Some s
            → outcome result self.new ≡ store self.old ptr.0 s (value_view value) }
        ensures unchanged { OnErr result (self.new ≡ self.old) }
    {
        match Kind::of(ty) {
            Some(kind) => self.store_kind(ptr, kind, value),
            None => unreachable!(),
        }
    }

    /// The same by the kind of the type.
    #[inline(always)]
    pub fn store_kind(&mut self, ptr: Ptr, kind: Kind, value: Value) -> Result<(), Trap>
        requires { Fits (kind_type kind) (value_view value) }
        ensures outcome { outcome result self.new
            ≡ store self.old ptr.0 (kind_type kind) (value_view value) }
        ensures unchanged { OnErr result (self.new ≡ self.old) }
    {
        match kind {
            Kind::Bool => self.store_scalar::<Flag>(ptr, value),
            Kind::Char => self.store_scalar::<I8>(ptr, value),
            Kind::UChar => self.store_scalar::<U8>(ptr, value),
            Kind::Short => self.store_scalar::<I16>(ptr, value),
            Kind::UShort => self.store_scalar::<U16>(ptr, value),
            Kind::Int => self.store_scalar::<I32>(ptr, value),
            Kind::UInt => self.store_scalar::<U32>(ptr, value),
            Kind::Long => self.store_scalar::<I64>(ptr, value),
            Kind::ULong => self.store_scalar::<U64>(ptr, value),
            Kind::LLong => self.store_scalar::<I64>(ptr, value),
            Kind::ULLong => self.store_scalar::<U64>(ptr, value),
            Kind::Ptr => self.store_scalar::<Ptr>(ptr, value),
        }
    }

    /// The value at a pointer that a scalar stands for.
    #[inline(always)]
    fn load_scalar<T: Held>(&self, ptr: Ptr) -> Result<Value, Trap>
        ensures { seen value_view result ≡ load self.now ptr.0 T.kind }
    {
        match self.read::<T>(ptr) {
            Ok(scalar) => Ok(scalar.value()),
            Err(trap) => Err(trap),
        }
    }

    /// Stores the scalar that stands for a value.
    #[inline(always)]
    fn store_scalar<T: Held>(&mut self, ptr: Ptr, value: Value) -> Result<(), Trap>
        requires { Fits T.kind (value_view value) }
        ensures outcome { outcome result self.new ≡ store self.old ptr.0 T.kind (value_view value) }
        ensures unchanged { OnErr result (self.new ≡ self.old) }
    {
        self.write(ptr, T::of(value))
    }

    /// The scalar at a pointer, read as one access. The traps are `Null`, `Dead`, `Outside` and `Unset`.
    #[inline(always)]
    pub fn read<T: Scalar>(&self, ptr: Ptr) -> Result<T, Trap>
        ensures value { result ≡ seen T.decode (span self.now ptr.0 T.SIZE) }
        ensures bytes { IfOk result
            (λ _. (bytes : List ℕ) → span self.now ptr.0 T.SIZE ≡ Ok bytes → AreBytes bytes) }
    {
        let at = reach(&self.alive, ptr, T::SIZE as u128)?;
        match self.cells.view::<T>(at).get() {
            Some(value) => Ok(value),
            None => Err(Trap::Unset),
        }
    }

    /// The scalar at a pointer, found without a search, if it leads to the start of the object that is so many places from
    /// the end of those that are alive, and `read` gives one.
    #[inline(always)]
    fn read_near<T: Scalar>(&self, ptr: Ptr, behind: usize) -> Option<T>
        ensures value { IfSome result
            (λ scalar. Ok scalar ≡ seen T.decode (span self.now ptr.0 T.SIZE)) }
        ensures bytes { IfSome result
            (λ _. (bytes : List ℕ) → span self.now ptr.0 T.SIZE ≡ Ok bytes → AreBytes bytes) }
        ensures near { IfSome result (λ _. IsNear self.now ptr.0 behind) }
        ensures none { result ≡ None → IsNear self.now ptr.0 behind
            → (bytes : List ℕ) → span self.now ptr.0 T.SIZE ≡ Ok bytes → ⊥ }
    {
        match reach_near(&self.alive, ptr, T::SIZE, behind) {
            Some(at) => self.cells.view::<T>(at).get(),
            None => None,
        }
    }

    /// Puts the bytes of a scalar at a pointer, as one access. The traps are `Null`, `Dead` and `Outside`.
    #[inline(always)]
    pub fn write<T: Scalar>(&mut self, ptr: Ptr, value: T) -> Result<(), Trap>
        ensures outcome { outcome result self.new ≡ put self.old ptr.0 (T.encode value) }
        ensures unchanged { OnErr result (self.new ≡ self.old) }
    {
        let at = reach(&self.alive, ptr, T::SIZE as u128)?;
        self.cells.view_mut::<T>(at).set(value);
        Ok(())
    }
}

/// Adds a number to the `int` that the cells from `at` on hold, and gives that from before, if its bytes are set and `int`
/// has the sum.
#[inline(always)]
fn add_at(cells: &mut Region, at: usize, by: i64) -> Option<i32>
    requires { at + 4 ≤ length cells.old }
    ensures sum { MatchOption result (HasNoSumAt cells.old at by)
        (λ before. AddsAt cells.old at before by cells.new) }
    ensures unchanged { result ≡ None → cells.new ≡ cells.old }
    ensures length { length cells.new ≡ length cells.old }
{
    match cells.view::<I32>(at).get() {
        Some(scalar) => {
            let before = number_in(scalar);
            match sum_of(before, by) {
                Some(sum) => {
                    let new = scalar_of(sum);
                    cells.view_mut::<I32>(at).set(new);
                    Some(before)
                }
                None => None,
            }
        }
        None => None,
    }
}

/// The scalar that stands for a number.
#[inline(always)]
pub(crate) fn scalar_of(amount: i32) -> I32
    ensures { signed_bytes w32 result.0 ≡ encoded (kind_type kind.Int) (number amount) }
{
    I32(amount)
}

/// The number that a scalar stands for.
#[inline(always)]
fn number_in(scalar: I32) -> i32
    ensures { (bytes : List ℕ) → length bytes ≡ 4 → AreBytes bytes
        → scalar ≡ record { 0 = signed_of w32 bytes }
        → number result ≡ decoded (kind_type kind.Int) bytes }
{
    scalar.0
}

/// The sum, where `int` has it.
#[inline(always)]
fn sum_of(before: i32, by: i64) -> Option<i32>
    ensures { MatchOption result (IsValue arith.Int (before +ℤ by) → ⊥)
        (λ sum. sum ≡ before +ℤ by) }
{
    let sum = (before as i64).checked_add(by)?;
    if i32::MIN as i64 <= sum && sum <= i32::MAX as i64 {
        Some(sum as i32)
    } else {
        None
    }
}
