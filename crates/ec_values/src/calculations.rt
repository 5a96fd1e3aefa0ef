//! Operations on two values, and on one.

ghost use Rattle.std.specs.Prelude.{◌≡◌, ◌-◌, ◌^◌, ◌≤ℤ◌, pos, negsuc, neg_ℤ, int_div, IfOk};
ghost use Rattle.ec_ctypes.specs.Arithmetic.{converted};
ghost use Rattle.ec_memory_defs.specs.Kinds.{kind_type};
ghost use Rattle.ec_memory_defs.specs.Memory.{difference, moved, number, number_of, pointer_type};
ghost use Rattle.ec_memory.specs.Store.{seen};
ghost use Rattle.ec_meaning_defs.specs.resolved.Operations.{address_worked, calculated, compared, number_worked, on_numbers, on_pointer, pointers_worked, shifted_left, shifted_right, value_as, worked};
ghost use Rattle.ec_values.specs.Operations.{comparison_view, operation_view, operator_view};
ghost use Rattle.ec_values.specs.Words.{HasWord, flipped_word, negated_word, word_view, worked_by};

use crate::arithmetic::{
    calculated, compares, flipped, negated, opposite, shifted_left, shifted_right,
};
use crate::operation::{Comparison, IntegerOperator, Operation};
use crate::word::{Stop, Word};
use ec_base::Trap;
use ec_bytes::Ptr;
use ec_ctypes::{Arith, convert as converted};
use ec_memory::Store;
use ec_memory_defs::Kind;

/// What an operation gives for two values. Pointers move within their objects.
pub fn work(operation: Operation, store: &Store, a: Word, b: Word) -> Result<Word, Stop>
    ensures { worked_by result
        ≡ worked (operation_view operation) store.now (word_view a) (word_view b) }
{
    match operation {
        Operation::Integers(ty, operator) => integers(ty, operator, a, b),
        Operation::ShiftLeft(ty) => shift_left(ty, a, b),
        Operation::ShiftRight(ty) => shift_right(ty, a, b),
        Operation::Compare(comparison) => compare(comparison, a, b),
        Operation::PointerPlus(size) => plus(store, a, b, size),
        Operation::PlusPointer(size) => plus(store, b, a, size),
        Operation::PointerMinus(size) => minus(store, a, b, size),
        Operation::PointersApart(size) => apart(a, b, size),
    }
}

/// Two integers of one type.
fn integers(ty: Arith, operator: IntegerOperator, a: Word, b: Word) -> Result<Word, Stop>
    ensures { worked_by result ≡ on_numbers
        (λ x y. number_worked (calculated ty (operator_view operator) x y))
        (word_view a) (word_view b) }
{
    match (a, b) {
        (Word::Address(_), _) => Err(Stop::Misfit),
        (_, Word::Address(_)) => Err(Stop::Misfit),
        _ => of_result(calculated(ty, operator, a.number(), b.number())),
    }
}

/// A left shift.
fn shift_left(ty: Arith, a: Word, b: Word) -> Result<Word, Stop>
    ensures { worked_by result ≡ on_numbers
        (λ x y. number_worked (shifted_left ty x y)) (word_view a) (word_view b) }
{
    match (a, b) {
        (Word::Address(_), _) => Err(Stop::Misfit),
        (_, Word::Address(_)) => Err(Stop::Misfit),
        _ => of_result(shifted_left(ty, a.number(), b.number())),
    }
}

/// A right shift.
fn shift_right(ty: Arith, a: Word, b: Word) -> Result<Word, Stop>
    ensures { worked_by result ≡ on_numbers
        (λ x y. number_worked (shifted_right ty x y)) (word_view a) (word_view b) }
{
    match (a, b) {
        (Word::Address(_), _) => Err(Stop::Misfit),
        (_, Word::Address(_)) => Err(Stop::Misfit),
        _ => of_result(shifted_right(ty, a.number(), b.number())),
    }
}

/// Two numbers, or two pointers, which compare as numbers.
fn compare(comparison: Comparison, a: Word, b: Word) -> Result<Word, Stop>
    ensures { worked_by result
        ≡ compared (comparison_view comparison) (word_view a) (word_view b) }
{
    match (a, b) {
        (Word::Address(p), Word::Address(q)) => {
            Ok(Word::truth(compares(comparison, p.0 as i128, q.0 as i128)))
        }
        (Word::Address(_), _) => Err(Stop::Misfit),
        (_, Word::Address(_)) => Err(Stop::Misfit),
        _ => Ok(Word::truth(compares(comparison, a.number(), b.number()))),
    }
}

/// A pointer and a number of elements.
fn plus(store: &Store, a: Word, b: Word, size: u64) -> Result<Word, Stop>
    ensures { worked_by result ≡ on_pointer
        (λ p n. address_worked (moved store.now p n size)) (word_view a) (word_view b) }
{
    match (a, b) {
        (Word::Address(_), Word::Address(_)) => Err(Stop::Misfit),
        (Word::Address(ptr), _) => of_pointer(store.move_ptr_wide(ptr, b.number(), size)),
        _ => Err(Stop::Misfit),
    }
}

/// The same back.
fn minus(store: &Store, a: Word, b: Word, size: u64) -> Result<Word, Stop>
    ensures { worked_by result ≡ on_pointer
        (λ p n. address_worked (moved store.now p (neg_ℤ n) size)) (word_view a) (word_view b) }
{
    match (a, b) {
        (Word::Address(_), Word::Address(_)) => Err(Stop::Misfit),
        (Word::Address(ptr), _) => of_pointer(store.move_ptr_wide(ptr, opposite(b.number()), size)),
        _ => Err(Stop::Misfit),
    }
}

/// How many elements lie between two pointers.
fn apart(a: Word, b: Word, size: u64) -> Result<Word, Stop>
    ensures { worked_by result ≡ pointers_worked size (word_view a) (word_view b) }
{
    match (a, b) {
        (Word::Address(p), Word::Address(q)) => of_result(difference(p, q, size)),
        _ => Err(Stop::Misfit),
    }
}

/// The same as a number.
fn difference(p: Ptr, q: Ptr, size: u64) -> Result<i128, Trap>
    ensures value { result ≡ difference p.0 q.0 size }
    ensures bounds { IfOk result HasWord }
{
    if p.0 / (1 << 32) != q.0 / (1 << 32) {
        return Err(Trap::Outside);
    }
    let bytes = (p.0 % (1 << 32)) as i128 - (q.0 % (1 << 32)) as i128;
    Ok(elements(bytes, size))
}

/// A number, or a trap.
#[inline(always)]
fn of_result(outcome: Result<i128, Trap>) -> Result<Word, Stop>
    requires { IfOk outcome HasWord }
    ensures { worked_by result ≡ number_worked outcome }
{
    match outcome {
        Ok(number) => Ok(Word::of_number(number)),
        Err(trap) => Err(Stop::Trap(trap)),
    }
}

/// A pointer, or a trap.
#[inline(always)]
fn of_pointer(outcome: Result<Ptr, Trap>) -> Result<Word, Stop>
    ensures { worked_by result ≡ address_worked (seen (λ to. to.0) outcome) }
{
    match outcome {
        Ok(ptr) => Ok(Word::Address(ptr)),
        Err(trap) => Err(Stop::Trap(trap)),
    }
}

/// `-a`
pub fn negate(ty: Arith, a: Word) -> Result<Word, Stop>
    ensures { worked_by result ≡ negated_word ty (word_view a) }
{
    match a {
        Word::Address(_) => Err(Stop::Misfit),
        _ => of_result(negated(ty, a.number())),
    }
}

/// `~a`
pub fn flip(ty: Arith, a: Word) -> Result<Word, Stop>
    ensures { worked_by result ≡ flipped_word ty (word_view a) }
{
    match a {
        Word::Address(_) => Err(Stop::Misfit),
        _ => Ok(Word::of_number(flipped(ty, a.number()))),
    }
}

/// A value as one of another type (ISO/IEC 9899:1999, 6.3.1.2, 6.3.1.3 and 6.3.2.3). A number becomes a pointer, and a
/// pointer a number, by way of `unsigned long`.
pub fn convert(to: Kind, a: Word) -> Word
    ensures { word_view result ≡ value_as (kind_type to) (word_view a) }
{
    match to {
        Kind::Bool => integer_as(Arith::Bool, a),
        Kind::Char => integer_as(Arith::Char, a),
        Kind::UChar => integer_as(Arith::UChar, a),
        Kind::Short => integer_as(Arith::Short, a),
        Kind::UShort => integer_as(Arith::UShort, a),
        Kind::Int => integer_as(Arith::Int, a),
        Kind::UInt => integer_as(Arith::UInt, a),
        Kind::Long => integer_as(Arith::Long, a),
        Kind::ULong => integer_as(Arith::ULong, a),
        Kind::LLong => integer_as(Arith::LLong, a),
        Kind::ULLong => integer_as(Arith::ULLong, a),
        Kind::Ptr => pointer_as(a),
    }
}

/// A value as an integer.
#[inline(always)]
fn integer_as(ty: Arith, a: Word) -> Word
    ensures { word_view result ≡ number (converted ty (number_of (word_view a))) }
{
    Word::of_number(converted(ty, a.number()))
}

/// A value as a pointer.
#[inline(always)]
fn pointer_as(a: Word) -> Word
    ensures { word_view result ≡ value_as pointer_type (word_view a) }
{
    match a {
        Word::Address(_) => a,
        _ => Word::Address(Ptr(a.number().rem_euclid(1 << 64) as u64)),
    }
}

/// How many elements of `size` bytes so many bytes are, cut towards zero.
fn elements(bytes: i128, size: u64) -> i128
    requires low { negsuc (2 ^ 32 - 1) ≤ℤ bytes }
    requires high { bytes ≤ℤ pos (2 ^ 32 - 1) }
    ensures value { result ≡ int_div bytes (pos size) }
    ensures bounds { HasWord result }
{
    if size == 0 {
        return 0;
    }
    bytes / size as i128
}
