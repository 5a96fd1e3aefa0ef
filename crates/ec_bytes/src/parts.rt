//! Reads and writes of a part of a slice.

ghost use Rattle.std.specs.Prelude.{◌≡◌, ◌==◌, ◌+◌, ◌<◌, ◌≤◌, ◌++◌, true, not, length, replicate, take, drop, slice_index};
ghost use Rattle.std.specs.List.{list_all};
ghost use Rattle.ec_memory_defs.specs.Cells.{part_of, written};
ghost use Rattle.ec_bytes.specs.Bits.{marks_of, Inside};
ghost use Rattle.ec_bytes.specs.Region.{cells_of, run_of};
ghost use Rattle.ec_bytes.specs.Scalars.{AreBytes};

use crate::bits::{all_set, few_set};
use crate::scalar::Scalar;

/// The `n` items from `at` on.
pub(crate) fn part<T>(items: &[T], at: usize, n: usize) -> &[T]
    requires { at + n ≤ length items.now }
    ensures items { result.now ≡ take n (drop at items.now) }
    ensures length { length result.now ≡ n }
{
    &items[at..][..n]
}

/// How many of the `n` bytes from `at` on are set and not 0, up to the first that is not. Mostly all before a zero byte
/// are set.
pub(crate) fn run_length(memory: &[u8], room: usize, at: usize, n: usize) -> usize
    requires { Inside room memory.now at n }
    ensures bound { result ≤ n }
    ensures run { take result (part_of memory.now at n)
        ≡ run_of (cells_of (part_of memory.now at n) (part_of (marks_of room memory.now) at n)) }
{
    let count = before_zero(memory, at, n);
    if all_set(memory, room, at, count) {
        count
    } else {
        run_by_cells(memory, room, at, n)
    }
}

/// The same, cell by cell.
#[inline(never)]
fn run_by_cells(memory: &[u8], room: usize, at: usize, n: usize) -> usize
    requires { Inside room memory.now at n }
    ensures bound { result ≤ n }
    ensures run { take result (part_of memory.now at n)
        ≡ run_of (cells_of (part_of memory.now at n) (part_of (marks_of room memory.now) at n)) }
{
    let mut count = 0;
    while count < n && few_set(memory, room, at + count, 1) && memory[at + count] != 0 {
        count += 1;
    }
    count
}

/// How many of the `n` bytes from `at` on stand before the first that is 0.
fn before_zero(memory: &[u8], at: usize, n: usize) -> usize
    requires { at + n ≤ length memory.now }
    ensures within { result ≤ n }
    ensures none { list_all (λ byte. not (byte == 0)) (part_of memory.now at result) ≡ true }
    ensures end { result < n → slice_index memory.now (at + result) ≡ 0 }
{
    let mut count = eights_before_zero(memory, at, n);
    while count < n && memory[at + count] != 0 {
        count += 1;
    }
    count
}

/// How many of them there are in whole groups of eight, which are compared at once.
fn eights_before_zero(memory: &[u8], at: usize, n: usize) -> usize
    requires { at + n ≤ length memory.now }
    ensures within { result ≤ n }
    ensures none { list_all (λ byte. not (byte == 0)) (part_of memory.now at result) ≡ true }
{
    let mut count = 0;
    while n - count >= 8 && none_zero(part(memory, at + count, 8)) {
        count += 8;
    }
    count
}

/// Whether none of these bytes is 0. Eight of them are compared at once.
fn none_zero(bytes: &[u8]) -> bool
    ensures { result ≡ list_all (λ byte. not (byte == 0)) bytes.now }
{
    match bytes {
        [a, b, c, d, e, f, g, h] => {
            (*a != 0)
                & (*b != 0)
                & (*c != 0)
                & (*d != 0)
                & (*e != 0)
                & (*f != 0)
                & (*g != 0)
                & (*h != 0)
        }
        others => others.iter().all(|byte| *byte != 0),
    }
}

/// Makes each of the `n` bytes from `at` on `byte`.
pub(crate) fn spread(bytes: &mut [u8], at: usize, n: usize, byte: u8)
    requires { at + n ≤ length bytes.old }
    ensures { bytes.new ≡ written bytes.old at (replicate n byte) }
{
    bytes[at..at + n].fill(byte);
}

/// Writes `piece` from `at` on.
pub(crate) fn put(bytes: &mut [u8], at: usize, piece: &[u8])
    requires { at + length piece.now ≤ length bytes.old }
    ensures { bytes.new ≡ written bytes.old at piece.now }
{
    bytes[at..at + piece.len()].copy_from_slice(piece);
}

/// The value of the first bytes.
pub(crate) fn decode<T: Scalar>(bytes: &[u8]) -> T
    requires { T.SIZE ≤ length bytes.now }
    ensures value { result ≡ T.decode (take T.SIZE bytes.now) }
    ensures bytes { AreBytes bytes.now }
{
    T::get_le(bytes)
}

/// Writes the bytes of `value` from `at` on.
pub(crate) fn encode<T: Scalar>(bytes: &mut [u8], at: usize, value: T)
    requires { at + T.SIZE ≤ length bytes.old }
    ensures { bytes.new ≡ written bytes.old at (T.encode value) }
{
    value.put_le(&mut bytes[at..]);
}

/// Copies the `n` items from `from` on to those from `to` on, as they were before.
pub(crate) fn shift<T: Copy>(items: &mut [T], from: usize, to: usize, n: usize)
    requires source { from + n ≤ length items.old }
    requires target { to + n ≤ length items.old }
    ensures { items.new ≡ written items.old to (take n (drop from items.old)) }
{
    items.copy_within(from..from + n, to);
}
