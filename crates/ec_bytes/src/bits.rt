//! The marks of a region's cells: a bit for each, behind the room for their bytes. A byte has those of eight cells, the
//! first in its lowest bit. Up to eight of them lie in two bytes, and are read or written at once.

ghost use Rattle.std.specs.Prelude.{◌≡◌, ◌==◌, ℕ, ◌+◌, ◌-◌, ◌*◌, ◌^◌, ◌<◌, ◌≤◌, true, length, replicate, take, drop, slice_index, slice_set, ◌%◌, ◌/◌};
ghost use Rattle.std.specs.List.{list_all};
ghost use Rattle.std.specs.Int.{w64, to_le_bytes};
ghost use Rattle.ec_memory_defs.specs.Cells.{part_of, written};
ghost use Rattle.ec_bytes.specs.Bits.{low_bits, bits_of, marks_of, mark_of, are_set, byte_of, with_word, with_bits, all_bits, Inside};

use crate::parts::{part, put, spread};

/// The number of which the `n` lowest bits are 1, and no other.
#[inline(always)]
fn ones(n: usize) -> u32
    requires { n ≤ 8 }
    ensures value { result ≡ 2 ^ n - 1 }
    ensures small { result < 256 }
{
    (1 << n) - 1
}

/// The number of two bytes, the lower one first.
#[inline(always)]
fn word_at(memory: &[u8], place: usize) -> u32
    requires { place + 1 < length memory.now }
    ensures word { result
        ≡ slice_index memory.now (place + 1) * 256 + slice_index memory.now place }
    ensures low { slice_index memory.now place < 256 }
    ensures fits { result < 65536 }
{
    let low = memory[place];
    let high = memory[place + 1];
    u32::from(high) * 256 + u32::from(low)
}

/// Writes it.
#[inline(always)]
fn put_word(memory: &mut [u8], place: usize, word: u32)
    requires room { place + 1 < length memory.old }
    requires fits { word < 65536 }
    ensures { memory.new ≡ with_word memory.old place word }
{
    memory[place] = (word % 256) as u8;
    memory[place + 1] = (word / 256) as u8;
}

/// The number with the `n` bits from the `from`-th on, and no other.
#[inline(always)]
fn mask(n: usize, from: usize) -> u32
    requires { (n ≤ 8) × (from < 8) }
    ensures value { result ≡ (2 ^ n - 1) * 2 ^ from }
    ensures small { result < 32768 }
{
    ones(n) << from
}

/// `word` with `bits` for the `n` bits from the `from`-th on.
#[inline(always)]
fn with_field(word: u32, n: usize, from: usize, bits: u32) -> u32
    requires place { (n ≤ 8) × (from < 8) }
    requires fits { (word < 65536) × (bits < 2 ^ n) }
    ensures value { result ≡ with_bits word n from bits }
    ensures fits { result < 65536 }
{
    let cleared = mask(n, from);
    (word | cleared) - cleared + (bits << from)
}

/// `word` with each of the `n` bits from the `from`-th on set, or none.
#[inline(always)]
fn with_all(word: u32, n: usize, from: usize, set: bool) -> u32
    requires place { (n ≤ 8) × (from < 8) }
    requires fits { word < 65536 }
    ensures value { result ≡ with_bits word n from (all_bits n set) }
    ensures fits { result < 65536 }
{
    let marks = mask(n, from);
    let all = word | marks;
    if set { all } else { all - marks }
}

/// The `n` marks from `at` on, the first in the lowest bit.
#[inline(always)]
fn bits_at(memory: &[u8], room: usize, at: usize, n: usize) -> u32
    requires few { (1 ≤ n) × (n ≤ 8) }
    requires inside { Inside room memory.now at n }
    ensures bits { low_bits n result ≡ take n (drop at (marks_of room memory.now)) }
    ensures fits { result < 2 ^ n }
{
    let word = word_at(memory, room + at / 8);
    (word >> (at % 8)) & ones(n)
}

/// Makes the `n` marks from `at` on those of `bits`.
#[inline(always)]
fn put_bits(memory: &mut [u8], room: usize, at: usize, n: usize, bits: u32)
    requires few { (1 ≤ n) × (n ≤ 8) }
    requires fits { bits < 2 ^ n }
    requires inside { Inside room memory.old at n }
    ensures marks { marks_of room memory.new
        ≡ written (marks_of room memory.old) at (low_bits n bits) }
    ensures bytes { take room memory.new ≡ take room memory.old }
    ensures length { length memory.new ≡ length memory.old }
{
    let place = room + at / 8;
    let word = with_field(word_at(memory, place), n, at % 8, bits);
    put_word(memory, place, word);
}

/// Makes each of the `n` marks from `at` on `set`.
#[inline(always)]
fn mark_few(memory: &mut [u8], room: usize, at: usize, n: usize, set: bool)
    requires few { (1 ≤ n) × (n ≤ 8) }
    requires inside { Inside room memory.old at n }
    ensures marks { marks_of room memory.new
        ≡ written (marks_of room memory.old) at (replicate n (mark_of set)) }
    ensures bytes { take room memory.new ≡ take room memory.old }
    ensures length { length memory.new ≡ length memory.old }
{
    let place = room + at / 8;
    let word = with_all(word_at(memory, place), n, at % 8, set);
    put_word(memory, place, word);
}

/// Whether each of the `n` marks from `at` on is set.
#[inline(always)]
pub(crate) fn few_set(memory: &[u8], room: usize, at: usize, n: usize) -> bool
    requires few { (1 ≤ n) × (n ≤ 8) }
    requires inside { Inside room memory.now at n }
    ensures { result ≡ are_set room memory.now at n }
{
    bits_at(memory, room, at, n) == ones(n)
}

/// The number of eight bytes, the lowest first.
#[inline(always)]
fn wide_at(memory: &[u8], place: usize) -> u64
    requires { place + 8 ≤ length memory.now }
    ensures { low_bits 64 result ≡ bits_of (part_of memory.now place 8) }
{
    match part(memory, place, 8) {
        [a, b, c, d, e, f, g, h] => u64::from_le_bytes([*a, *b, *c, *d, *e, *f, *g, *h]),
        _ => 0,
    }
}

/// Writes it.
#[inline(always)]
fn put_wide(memory: &mut [u8], place: usize, word: u64)
    requires { place + 8 ≤ length memory.old }
    ensures { memory.new ≡ written memory.old place (to_le_bytes w64 word) }
{
    put(memory, place, &word.to_le_bytes());
}

/// The number of which the `n` lowest bits are 1, and no other.
#[inline(always)]
fn wide_ones(n: usize) -> u64
    requires { n ≤ 56 }
    ensures { result ≡ 2 ^ n - 1 }
{
    (1 << n) - 1
}

/// `word` with each of the `n` bits from the `from`-th on set, or none.
#[inline(always)]
fn wide_with_all(word: u64, n: usize, from: usize, set: bool) -> u64
    requires { (n ≤ 56) × (from < 8) }
    ensures { result ≡ with_bits word n from (all_bits n set) }
{
    let marks = wide_ones(n) << from;
    let all = word | marks;
    if set { all } else { all - marks }
}

/// Makes each of the `n` marks from `at` on `set`: at most 56, at once.
#[inline(always)]
fn mark_wide(memory: &mut [u8], room: usize, at: usize, n: usize, set: bool)
    requires few { (1 ≤ n) × (n ≤ 56) }
    requires inside { Inside room memory.old at n }
    ensures marks { marks_of room memory.new
        ≡ written (marks_of room memory.old) at (replicate n (mark_of set)) }
    ensures bytes { take room memory.new ≡ take room memory.old }
    ensures length { length memory.new ≡ length memory.old }
{
    let place = room + at / 8;
    let word = wide_with_all(wide_at(memory, place), n, at % 8, set);
    put_wide(memory, place, word);
}

/// Whether each of the `n` marks from `at` on is set, of which there are at most 56.
#[inline(always)]
fn wide_set(memory: &[u8], room: usize, at: usize, n: usize) -> bool
    requires few { (1 ≤ n) × (n ≤ 56) }
    requires inside { Inside room memory.now at n }
    ensures { result ≡ are_set room memory.now at n }
{
    let ones = wide_ones(n);
    (wide_at(memory, room + at / 8) >> (at % 8)) & ones == ones
}

/// The same, where there may be none.
#[inline(always)]
fn mark_up_to(memory: &mut [u8], room: usize, at: usize, n: usize, set: bool)
    requires few { n ≤ 8 }
    requires inside { Inside room memory.old at n }
    ensures marks { marks_of room memory.new
        ≡ written (marks_of room memory.old) at (replicate n (mark_of set)) }
    ensures bytes { take room memory.new ≡ take room memory.old }
    ensures length { length memory.new ≡ length memory.old }
{
    if n > 0 {
        mark_few(memory, room, at, n, set);
    }
}

/// The same, where there are more: up to a whole byte, whole bytes, and the rest.
#[inline(never)]
fn mark_many(memory: &mut [u8], room: usize, at: usize, n: usize, set: bool)
    requires many { 8 < n }
    requires inside { Inside room memory.old at n }
    ensures marks { marks_of room memory.new
        ≡ written (marks_of room memory.old) at (replicate n (mark_of set)) }
    ensures bytes { take room memory.new ≡ take room memory.old }
    ensures length { length memory.new ≡ length memory.old }
{
    let head = (8 - at % 8) % 8;
    mark_up_to(memory, room, at, head, set);
    let whole = (n - head) / 8;
    let byte = whole_byte(set);
    spread(memory, room + (at + head) / 8, whole, byte);
    let done = head + 8 * whole;
    mark_up_to(memory, room, at + done, n - done, set);
}

/// The same: 56 at a time.
#[inline(always)]
fn mark_more(memory: &mut [u8], room: usize, at: usize, n: usize, set: bool)
    requires many { 56 < n }
    requires inside { Inside room memory.old at n }
    ensures marks { marks_of room memory.new
        ≡ written (marks_of room memory.old) at (replicate n (mark_of set)) }
    ensures bytes { take room memory.new ≡ take room memory.old }
    ensures length { length memory.new ≡ length memory.old }
{
    let mut done = 0;
    while n - done > 56 {
        mark_wide(memory, room, at + done, 56, set);
        done += 56;
    }
    mark_wide(memory, room, at + done, n - done, set);
}

/// The byte of eight marks that are all set, or none.
fn whole_byte(set: bool) -> u8
    ensures { result ≡ byte_of set }
{
    if set { 255 } else { 0 }
}

/// Makes each of the `n` marks from `at` on `set`.
#[inline(always)]
pub(crate) fn mark(memory: &mut [u8], room: usize, at: usize, n: usize, set: bool)
    requires { Inside room memory.old at n }
    ensures marks { marks_of room memory.new
        ≡ written (marks_of room memory.old) at (replicate n (mark_of set)) }
    ensures bytes { take room memory.new ≡ take room memory.old }
    ensures length { length memory.new ≡ length memory.old }
{
    if n <= 8 {
        mark_up_to(memory, room, at, n, set)
    } else if n <= 56 {
        mark_wide(memory, room, at, n, set)
    } else if n <= 224 {
        mark_more(memory, room, at, n, set)
    } else {
        mark_many(memory, room, at, n, set)
    }
}

/// Whether each of more than eight marks is set.
#[inline(never)]
fn many_set(memory: &[u8], room: usize, at: usize, n: usize) -> bool
    requires many { 8 < n }
    requires inside { Inside room memory.now at n }
    ensures { result ≡ are_set room memory.now at n }
{
    let mut done = 0;
    while n - done > 56 {
        if !wide_set(memory, room, at + done, 56) {
            return false;
        }
        done += 56;
    }
    wide_set(memory, room, at + done, n - done)
}

/// Whether each of the `n` marks from `at` on is set.
#[inline(always)]
pub(crate) fn all_set(memory: &[u8], room: usize, at: usize, n: usize) -> bool
    requires { Inside room memory.now at n }
    ensures { result ≡ are_set room memory.now at n }
{
    if n == 0 {
        true
    } else if n <= 8 {
        few_set(memory, room, at, n)
    } else if n <= 56 {
        wide_set(memory, room, at, n)
    } else {
        many_set(memory, room, at, n)
    }
}

/// Makes the `n` marks from `to` on those from `from` on, as they were before. There are few.
#[inline(always)]
fn move_up_to(memory: &mut [u8], room: usize, from: usize, to: usize, n: usize)
    requires few { n ≤ 8 }
    requires source { Inside room memory.old from n }
    requires target { Inside room memory.old to n }
    ensures marks { marks_of room memory.new
        ≡ written (marks_of room memory.old) to (take n (drop from (marks_of room memory.old))) }
    ensures bytes { take room memory.new ≡ take room memory.old }
    ensures length { length memory.new ≡ length memory.old }
{
    if n > 0 {
        let bits = bits_at(memory, room, from, n);
        put_bits(memory, room, to, n, bits);
    }
}

/// The number, or 8 if it is more.
fn at_most_eight(n: usize) -> usize
    ensures { (result ≤ n) × (result ≤ 8) × (0 < n → 0 < result) }
{
    if n < 8 { n } else { 8 }
}

/// The same for many marks, to a place before.
fn move_down(memory: &mut [u8], room: usize, from: usize, to: usize, n: usize)
    requires before { to ≤ from }
    requires source { Inside room memory.old from n }
    requires target { Inside room memory.old to n }
    ensures marks { marks_of room memory.new
        ≡ written (marks_of room memory.old) to (take n (drop from (marks_of room memory.old))) }
    ensures bytes { take room memory.new ≡ take room memory.old }
    ensures length { length memory.new ≡ length memory.old }
{
    let mut done = 0;
    while done < n {
        let k = at_most_eight(n - done);
        move_up_to(memory, room, from + done, to + done, k);
        done += k;
    }
}

/// And to a place behind.
fn move_up(memory: &mut [u8], room: usize, from: usize, to: usize, n: usize)
    requires behind { from ≤ to }
    requires source { Inside room memory.old from n }
    requires target { Inside room memory.old to n }
    ensures marks { marks_of room memory.new
        ≡ written (marks_of room memory.old) to (take n (drop from (marks_of room memory.old))) }
    ensures bytes { take room memory.new ≡ take room memory.old }
    ensures length { length memory.new ≡ length memory.old }
{
    let mut left = n;
    while left > 0 {
        let k = at_most_eight(left);
        left -= k;
        move_up_to(memory, room, from + left, to + left, k);
    }
}

/// The same for many marks. Mostly all are set.
#[inline(never)]
fn move_many(memory: &mut [u8], room: usize, from: usize, to: usize, n: usize)
    requires source { Inside room memory.old from n }
    requires target { Inside room memory.old to n }
    ensures marks { marks_of room memory.new
        ≡ written (marks_of room memory.old) to (take n (drop from (marks_of room memory.old))) }
    ensures bytes { take room memory.new ≡ take room memory.old }
    ensures length { length memory.new ≡ length memory.old }
{
    if all_set(memory, room, from, n) {
        mark(memory, room, to, n, true)
    } else if to <= from {
        move_down(memory, room, from, to, n)
    } else {
        move_up(memory, room, from, to, n)
    }
}

/// Makes the `n` marks from `to` on those from `from` on, as they were before.
#[inline(always)]
pub(crate) fn move_marks(memory: &mut [u8], room: usize, from: usize, to: usize, n: usize)
    requires source { Inside room memory.old from n }
    requires target { Inside room memory.old to n }
    ensures marks { marks_of room memory.new
        ≡ written (marks_of room memory.old) to (take n (drop from (marks_of room memory.old))) }
    ensures bytes { take room memory.new ≡ take room memory.old }
    ensures length { length memory.new ≡ length memory.old }
{
    if n <= 8 {
        move_up_to(memory, room, from, to, n)
    } else {
        move_many(memory, room, from, to, n)
    }
}
