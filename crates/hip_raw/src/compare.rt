//! Comparisons of bytes, many at a time.
//!
//! Up to 128 bytes are the same where two blocks of one width are, the second ending where they end; beyond that stretches of 256 and
//! 128 bytes are taken one after another. An order compares up to 16 bytes by two numbers, the second of which may overlap the first,
//! and more of them by the first eight and then by the byte at which both go apart.
ghost use Rattle.std.specs.Prelude.{◌≡◌, ◌≢◌, ◌↔◌, ◌+◌, ◌*◌, ◌<◌, ◌≤◌, length, slice_index, IsTrue, min};
ghost use Rattle.std.specs.Cmp.Lexicographic.{slice_cmp};
ghost use Rattle.std.specs.Ordering.{nat_cmp};
ghost use Rattle.std.specs.Simd.Lanes.{chunk};
ghost use Rattle.std.specs.Slice.Scan.{big_endian};
ghost use Rattle.hip_raw.specs.Alike.{Alike, IsAlikeRun};

use std::cmp::Ordering;
use std::simd::prelude::*;

// Whether the N bytes from `i` on are the same.
#[inline(always)]
fn alike_at<const N: usize>(a: &[u8], b: &[u8], i: usize) -> bool
    requires lanes { (0 < N) × (N ≤ 64) }
    requires within { (i + N ≤ length a.now) × (i + N ≤ length b.now) }
    ensures { IsTrue result ↔ Alike a.now b.now i (i + N) }
{
    !Simd::<u8, N>::from_slice(&a[i..])
        .simd_ne(Simd::from_slice(&b[i..]))
        .any()
}

// Whether all bytes are the same, where two blocks of N cover them.
#[inline(always)]
fn equal_by_ends<const N: usize>(a: &[u8], b: &[u8]) -> bool
    requires lanes { (0 < N) × (N ≤ 64) }
    requires covered { (length a.now ≡ length b.now) × (N ≤ length a.now) × (length a.now ≤ 2 * N) }
    ensures { IsTrue result ↔ (a.now ≡ b.now) }
{
    alike_at::<N>(a, b, 0) & alike_at::<N>(a, b, a.len() - N)
}

/// Whether the bytes are the same.
#[inline(always)]
pub fn equal(a: &[u8], b: &[u8]) -> bool
    ensures { IsTrue result ↔ (a.now ≡ b.now) }
{
    if a.len() != b.len() {
        return false;
    }
    match a.len() {
        0 => a.len() == b.len(),
        1 => equal_by_ends::<1>(a, b),
        2..=3 => equal_by_ends::<2>(a, b),
        4..=7 => equal_by_ends::<4>(a, b),
        8..=15 => equal_by_ends::<8>(a, b),
        16..=31 => equal_by_ends::<16>(a, b),
        32..=64 => equal_by_ends::<32>(a, b),
        65..=128 => equal_by_ends::<64>(a, b),
        _ => equal_by_steps(a, b),
    }
}

// Like `equal`, but for many bytes. It isn't inlined, so that short ones are compared with no register saved.
#[inline(never)]
fn equal_by_steps(a: &[u8], b: &[u8]) -> bool
    requires level { length a.now ≡ length b.now }
    requires covered { 128 ≤ length a.now }
    ensures { IsTrue result ↔ (a.now ≡ b.now) }
{
    alike_steps(a, b, a.len()) == a.len()
}

// Whether the 128 bytes from `i` on are the same, by one test of all of them.
#[inline(always)]
fn alike_stretch(a: &[u8], b: &[u8], i: usize) -> bool
    requires within { (i + 128 ≤ length a.now) × (i + 128 ≤ length b.now) }
    ensures { IsTrue result ↔ Alike a.now b.now i (i + 128) }
{
    alike_at::<64>(a, b, i) & alike_at::<64>(a, b, i + 64)
}

// The number of the first `n` bytes that are the same, by stretches: all of them, or those before a stretch that isn't.
#[inline(always)]
fn alike_steps(a: &[u8], b: &[u8], n: usize) -> usize
    requires within { (n ≤ length a.now) × (n ≤ length b.now) }
    requires covered { 128 ≤ n }
    ensures front { (result ≤ n) × Alike a.now b.now 0 result }
    ensures apart { result < n → Alike a.now b.now 0 n → ⊥ }
{
    let last = n - 128;
    let mut at = 0;
    while 256 < n - at {
        if !(alike_stretch(a, b, at) & alike_stretch(a, b, at + 128)) {
            return at;
        }
        at += 256;
    }
    if at < last && !alike_stretch(a, b, at) {
        return at;
    }
    if alike_stretch(a, b, last) { n } else { last }
}

// The number of the N bytes from `i` on that are the same, from the first. With two lanes `trailing_zeros` of a mask, compared with 2, was
// compiled to a wrong answer by clang, so the least block has four.
#[inline(always)]
fn alike_run<const N: usize>(a: &[u8], b: &[u8], i: usize) -> usize
    requires lanes { (4 ≤ N) × (N ≤ 64) }
    requires within { (i + N ≤ length a.now) × (i + N ≤ length b.now) }
    ensures { IsAlikeRun a.now b.now i N result }
{
    let unlike = Simd::<u8, N>::from_slice(&a[i..])
        .simd_ne(Simd::from_slice(&b[i..]))
        .to_bitmask();
    if unlike == 0 {
        N
    } else {
        unlike.trailing_zeros() as usize
    }
}

// The number of the first `n` bytes that are the same, where those before `from` are, by blocks of N. The last block ends where they end.
#[inline(always)]
fn alike_from<const N: usize>(a: &[u8], b: &[u8], n: usize, from: usize) -> usize
    requires lanes { (4 ≤ N) × (N ≤ 64) }
    requires within { (n ≤ length a.now) × (n ≤ length b.now) × (N ≤ n) }
    requires front { (from ≤ n) × Alike a.now b.now 0 from }
    ensures { IsAlikeRun a.now b.now 0 n result }
{
    let last = n - N;
    let mut at = from;
    while at < last {
        if !alike_at::<N>(a, b, at) {
            return at + alike_run::<N>(a, b, at);
        }
        at += N;
    }
    last + alike_run::<N>(a, b, last)
}

// Like `alike_from`, but from the first byte on, and for 16 to 128 of them.
#[inline(always)]
fn alike_by_blocks(a: &[u8], b: &[u8], n: usize) -> usize
    requires within { (n ≤ length a.now) × (n ≤ length b.now) }
    requires covered { (16 ≤ n) × (n ≤ 128) }
    ensures { IsAlikeRun a.now b.now 0 n result }
{
    match n {
        0..=32 => alike_from::<16>(a, b, n, 0),
        33..=64 => alike_from::<32>(a, b, n, 0),
        _ => alike_from::<64>(a, b, n, 0),
    }
}

// Like `alike_by_blocks`, but for 128 bytes and more.
#[inline(always)]
fn alike_by_steps(a: &[u8], b: &[u8], n: usize) -> usize
    requires within { (n ≤ length a.now) × (n ≤ length b.now) × (128 ≤ n) }
    ensures { IsAlikeRun a.now b.now 0 n result }
{
    let at = alike_steps(a, b, n);
    if at == n {
        return n;
    }
    alike_from::<16>(a, b, n, at)
}

/// The length of the prefix that both have in common.
#[inline]
pub fn common_prefix(a: &[u8], b: &[u8]) -> usize
    ensures within { (result ≤ length a.now) × (result ≤ length b.now) }
    ensures same { Alike a.now b.now 0 result }
    ensures apart { result < length a.now → result < length b.now
        → slice_index a.now result ≢ slice_index b.now result }
{
    let both = a.len().min(b.len());
    match both {
        0..=3 => common_bytes(a, b, both),
        4..=7 => alike_from::<4>(a, b, both, 0),
        8..=15 => alike_from::<8>(a, b, both, 0),
        16..=128 => alike_from::<16>(a, b, both, 0),
        _ => alike_by_steps(a, b, both),
    }
}

// The number of the first `n` bytes that are the same, one by one.
#[inline(always)]
fn common_bytes(a: &[u8], b: &[u8], n: usize) -> usize
    requires within { (n ≤ length a.now) × (n ≤ length b.now) }
    ensures { IsAlikeRun a.now b.now 0 n result }
{
    let mut at = 0;
    while at < n && a[at] == b[at] {
        at += 1;
    }
    at
}

// The order of the bytes, where the first `both` of the shorter one's were compared and `at` of them are the same.
#[inline(always)]
#[tactic(auto, using(crate::proofs::Decided::by_byte))]
fn order_at(a: &[u8], b: &[u8], both: usize, at: usize) -> Ordering
    requires shorter { both ≡ min (length a.now) (length b.now) }
    requires run { IsAlikeRun a.now b.now 0 both at }
    ensures { result ≡ slice_cmp nat_cmp a.now b.now }
{
    if at < both {
        return a[at].cmp(&b[at]);
    }
    a.len().cmp(&b.len())
}

// The order of more than 16 bytes. It isn't inlined, so that short ones are compared with no register saved.
#[inline(never)]
fn order_by_blocks(a: &[u8], b: &[u8], both: usize) -> Ordering
    requires shorter { both ≡ min (length a.now) (length b.now) }
    requires covered { 16 ≤ both }
    ensures { result ≡ slice_cmp nat_cmp a.now b.now }
{
    if both > 128 {
        return order_by_steps(a, b, both);
    }
    order_at(a, b, both, alike_by_blocks(a, b, both))
}

// Like `order_by_blocks`, but for more than 128 bytes.
#[inline(never)]
fn order_by_steps(a: &[u8], b: &[u8], both: usize) -> Ordering
    requires shorter { both ≡ min (length a.now) (length b.now) }
    requires covered { 128 ≤ both }
    ensures { result ≡ slice_cmp nat_cmp a.now b.now }
{
    order_at(a, b, both, alike_by_steps(a, b, both))
}

// The number that the N bytes from `i` on spell, the first as its highest digit.
#[inline(always)]
fn number_at<const N: usize>(bytes: &[u8], i: usize) -> u64
    requires digits { N ≤ 8 }
    requires within { i + N ≤ length bytes.now }
    ensures { result ≡ big_endian 0 (chunk i N bytes.now) }
{
    let mut number = 0;
    for k in 0..N {
        number = number * 0x100 + u64::from(bytes[i + k]);
    }
    number
}

// The order by N bytes from `i` on that aren't all the same, where those before them are.
#[inline(always)]
#[tactic(auto, using(crate::proofs::Decided::by_number))]
fn order_apart<const N: usize>(a: &[u8], b: &[u8], i: usize) -> Ordering
    requires digits { N ≤ 8 }
    requires within { (i + N ≤ length a.now) × (i + N ≤ length b.now) }
    requires front { Alike a.now b.now 0 i }
    requires apart { Alike a.now b.now i (i + N) → ⊥ }
    ensures { result ≡ slice_cmp nat_cmp a.now b.now }
{
    number_at::<N>(a, i).cmp(&number_at::<N>(b, i))
}

// The order where two blocks of N cover the shorter one's bytes.
#[inline(always)]
fn order_by_ends<const N: usize>(a: &[u8], b: &[u8], both: usize) -> Ordering
    requires shorter { both ≡ min (length a.now) (length b.now) }
    requires covered { (0 < N) × (N ≤ 8) × (N ≤ both) × (both ≤ 2 * N) }
    ensures { result ≡ slice_cmp nat_cmp a.now b.now }
{
    if !alike_at::<N>(a, b, 0) {
        return order_apart::<N>(a, b, 0);
    }
    if !alike_at::<N>(a, b, both - N) {
        return order_apart::<N>(a, b, both - N);
    }
    order_at(a, b, both, both)
}

/// The lexicographic order of the bytes.
#[inline(always)]
pub fn order(a: &[u8], b: &[u8]) -> Ordering
    ensures { result ≡ slice_cmp nat_cmp a.now b.now }
{
    let both = a.len().min(b.len());
    if both < 8 {
        return order_short(a, b, both);
    }
    if both <= 16 {
        return order_by_ends::<8>(a, b, both);
    }
    if !alike_at::<8>(a, b, 0) {
        return order_apart::<8>(a, b, 0);
    }
    order_by_blocks(a, b, both)
}

// The order where up to seven bytes are in both.
#[inline(always)]
fn order_short(a: &[u8], b: &[u8], both: usize) -> Ordering
    requires shorter { both ≡ min (length a.now) (length b.now) }
    requires short { both < 8 }
    ensures { result ≡ slice_cmp nat_cmp a.now b.now }
{
    match both {
        0 => order_at(a, b, both, 0),
        1 => order_by_ends::<1>(a, b, both),
        2..=3 => order_by_ends::<2>(a, b, both),
        _ => order_by_ends::<4>(a, b, both),
    }
}
