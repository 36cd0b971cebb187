//! The meter, and the function by which bytes are copied.
ghost use Rattle.std.specs.Prelude.{◌≡◌, ◌+◌, ◌-◌, ◌^◌, ◌<◌, ◌≤◌, ◌++◌, drop, length, take, vec_len, vec_capacity, IfOk, IsOk, OnOk, OnErr};
ghost use Rattle.hip_raw.specs.Meter.{RisesAtLeast, RisesAtMost, count_from};

use std::alloc::{AllocError, Global};
use std::marker::Model;
use std::simd::prelude::*;

/// Counts the bytes that are copied. Only this crate counts bytes; [`Meter::add`] adds what another meter counted. It stays at
/// `u128::MAX`.
#[derive(Debug, Drop)]
pub struct Meter {
    copied: u128,
}

impl Model for Meter {
    ghost use Rattle.std.specs.Prelude.{ℕ, ◌<◌, ◌^◌};

    ghost Value = { ℕ };

    ghost view = { λ m. m.copied };

    ghost invariant = { λ m. m.copied < 2 ^ 128 };
}

impl Meter {
    /// A meter that has counted nothing.
    #[inline]
    pub fn new() -> Self
        ensures { result ≡ 0 }
    {
        Meter { copied: 0 }
    }

    /// The number of bytes that were counted.
    #[inline]
    pub fn copied(&self) -> u128
        ensures { result ≡ self.now }
    {
        self.copied
    }

    /// Adds what another meter counted.
    #[inline(always)]
    pub fn add(&mut self, other: &Meter)
        ensures counted { RisesAtMost self.old self.new other.now }
        ensures exact { self.new ≡ count_from self.old other.now }
    {
        self.copied = self.copied.saturating_add(other.copied);
    }

    #[inline(always)]
    pub(crate) fn count(&mut self, bytes: usize)
        ensures counted { RisesAtMost self.old self.new bytes }
        ensures exact { self.new ≡ count_from self.old bytes }
    {
        self.copied = self.copied.saturating_add(bytes as u128);
    }
}

impl Default for Meter {
    ghost is_default = { λ meter. meter ≡ 0 };

    #[inline]
    fn default() -> Self {
        Self::new()
    }
}

/// Copies `from` over `to` and counts its bytes. All bytes that the product copies go through it, some of them by its form `fill`. A clone
/// of an [`Inline`](crate::Inline) alone copies its array whole, as by a move, and counts its length.
#[inline(always)]
pub fn fill_counted(to: &mut [u8], from: &[u8], meter: &mut Meter)
    requires { length to.old ≡ length from.now }
    ensures items { to.new ≡ from.now }
    ensures counted { RisesAtMost meter.old meter.new (length from.now) }
    ensures exact { meter.new ≡ count_from meter.old (length from.now) }
{
    fill(to, from, from.len(), Copying::ByLanes, meter);
}

// How bytes are copied.
#[derive(Clone, Copy)]
pub(crate) enum Copying {
    // With no call. A handle's own array is filled so, since a call would keep it in memory, and lanes would keep its callers from being
    // inlined.
    Inlined,
    // Up to 64 bytes by lanes, which costs less than a call of the C library, and more by a call.
    ByLanes,
    // Up to a lane, by one load and one store, with no branch by the number of bytes. The list and the room go on behind them.
    AtOnce,
}

// [`fill_counted`] of the front of room by the first `len` bytes of a list, in one of these ways.
#[inline(always)]
pub(crate) fn fill(room: &mut [u8], list: &[u8], len: usize, copying: Copying, meter: &mut Meter)
    requires there { len ≤ length list.now }
    requires fits { len ≤ length room.old }
    requires lane { copying ≡ Copying.AtOnce →
        (len ≤ LANE) × ((LANE ≤ length list.now) × (LANE ≤ length room.old)) }
    ensures items { room.new ≡ take len list.now ++ drop len room.old }
    ensures counted { RisesAtMost meter.old meter.new len }
    ensures exact { meter.new ≡ count_from meter.old len }
{
    match copying {
        Copying::Inlined => room[..len].copy_from_slice(&list[..len]),
        Copying::ByLanes => copy_by_lanes(&mut room[..len], &list[..len]),
        Copying::AtOnce => move_within_lane(room, list, len),
    }
    meter.count(len);
}

// A copy by a call. Its code asks first whether both overlap, which takes 250 bytes, so it stands once.
#[inline(never)]
fn copy_apart(to: &mut [u8], from: &[u8])
    requires { length to.old ≡ length from.now }
    ensures { to.new ≡ from.now }
{
    to.copy_from_slice(from);
}

// Copies up to 64 bytes by lanes, and more by a call.
#[inline(always)]
fn copy_by_lanes(to: &mut [u8], from: &[u8])
    requires { length to.old ≡ length from.now }
    ensures { to.new ≡ from.now }
{
    let len = from.len();
    if len > 64 {
        copy_apart(to, from);
    } else if len >= 16 {
        if len >= 32 {
            move_ends::<32>(to, from);
        } else {
            move_ends::<16>(to, from);
        }
    } else if len >= 4 {
        if len >= 8 {
            move_ends::<8>(to, from);
        } else {
            move_ends::<4>(to, from);
        }
    } else if len >= 2 {
        move_ends::<2>(to, from);
    } else if len == 1 {
        move_ends::<1>(to, from);
    }
}

// Moves bytes that two blocks of N cover, of which the second ends where they end.
#[inline(always)]
fn move_ends<const N: usize>(to: &mut [u8], from: &[u8])
    requires level { length to.old ≡ length from.now }
    requires covered { (N ≤ length from.now) × (length from.now ≤ N + N) }
    ensures { to.new ≡ from.now }
{
    let last = from.len() - N;
    move_front::<N>(to, from);
    move_front::<N>(&mut to[last..], &from[last..]);
}

// Moves the first N bytes by one load and one store.
#[inline(always)]
fn move_front<const N: usize>(to: &mut [u8], from: &[u8])
    requires within { (N ≤ length to.old) × (N ≤ length from.now) }
    ensures { to.new ≡ take N from.now ++ drop N to.old }
{
    Simd::<u8, N>::from_slice(from).copy_to_slice(to);
}

/// The number of bytes that are moved at once by [`Copying::AtOnce`].
pub(crate) const LANE: usize = 16;

// The positions of a lane.
const POSITIONS: [u8; LANE] = [0, 1, 2, 3, 4, 5, 6, 7, 8, 9, 10, 11, 12, 13, 14, 15];

// Moves the first `len` bytes, by one load and one store: a lane is read, and the bytes behind them give way to those of the room.
#[inline(always)]
fn move_within_lane(room: &mut [u8], list: &[u8], len: usize)
    requires short { len ≤ LANE }
    requires goes_on { LANE ≤ length list.now }
    requires room { LANE ≤ length room.old }
    ensures { room.new ≡ take len list.now ++ drop len room.old }
{
    let is_moved = u8x16::from_array(POSITIONS).simd_lt(u8x16::splat(len as u8));
    let blended = is_moved.select(u8x16::from_slice(list), u8x16::from_slice(room));
    blended.copy_to_slice(room);
}

// [`fill_counted`] at a position of longer room, by lanes where the bytes are few. The answer says where they end.
#[inline(always)]
pub(crate) fn fill_at(room: &mut [u8], at: usize, bytes: &[u8], meter: &mut Meter) -> usize
    requires { at + length bytes.now ≤ length room.old }
    ensures end { result ≡ at + length bytes.now }
    ensures items { take result room.new ≡ take at room.old ++ bytes.now }
    ensures len { length room.new ≡ length room.old }
    ensures counted { RisesAtMost meter.old meter.new (length bytes.now) }
    ensures copied { RisesAtLeast meter.old meter.new (length bytes.now) }
{
    fill(&mut room[at..], bytes, bytes.len(), Copying::ByLanes, meter);
    at + bytes.len()
}

/// Appends these bytes to a vector. The new room is made of zeros and then filled. A refused vector stays as it was.
#[inline(always)]
pub fn extend_counted(
    vec: &mut Vec<u8>,
    addition: &[u8],
    meter: &mut Meter,
) -> Result<(), AllocError>
    ensures items { OnOk result (vec.new.items ≡ vec.old.items ++ addition.now) }
    ensures capacity { vec_capacity vec.old ≤ vec_capacity vec.new }
    ensures counted { RisesAtMost meter.old meter.new (length addition.now) }
    ensures exact { OnOk result (meter.new ≡ count_from meter.old (length addition.now)) }
    ensures memory { OnErr result (vec_capacity vec.old < vec_len vec.old + length addition.now) }
    ensures succeeds { vec_len vec.old + length addition.now ≤ vec_capacity vec.old → IsOk result }
    ensures err { OnErr result
        ((vec.new.items ≡ vec.old.items) × (vec_capacity vec.new ≡ vec_capacity vec.old)) }
    ensures refused_copies_nothing { OnErr result (meter.new ≡ meter.old) }
{
    if vec.capacity() - vec.len() < addition.len() {
        // A call that isn't inlined keeps in memory what it is lent, so it gets a meter of its own.
        let mut apart = Meter::new();
        let outcome = extend_grown(vec, addition, &mut apart);
        meter.add(&apart);
        return outcome;
    }
    extend_within(vec, addition, meter);
    Ok(())
}

// Like [`extend_counted`], where the vector has to grow.
#[cold]
#[inline(never)]
fn extend_grown(vec: &mut Vec<u8>, addition: &[u8], meter: &mut Meter) -> Result<(), AllocError>
    requires { vec_capacity vec.old < vec_len vec.old + length addition.now }
    ensures items { OnOk result (vec.new.items ≡ vec.old.items ++ addition.now) }
    ensures capacity { vec_capacity vec.old ≤ vec_capacity vec.new }
    ensures counted { RisesAtMost meter.old meter.new (length addition.now) }
    ensures exact { OnOk result (meter.new ≡ count_from meter.old (length addition.now)) }
    ensures err { OnErr result
        ((vec.new.items ≡ vec.old.items) × (vec_capacity vec.new ≡ vec_capacity vec.old)) }
    ensures refused_copies_nothing { OnErr result (meter.new ≡ meter.old) }
{
    vec.try_reserve(addition.len())?;
    extend_within(vec, addition, meter);
    Ok(())
}

/// Appends these bytes to a vector that has room for them.
#[inline(always)]
pub fn extend_within(vec: &mut Vec<u8>, addition: &[u8], meter: &mut Meter)
    requires { vec_len vec.old + length addition.now ≤ vec_capacity vec.old }
    ensures items { vec.new.items ≡ vec.old.items ++ addition.now }
    ensures capacity { vec_capacity vec.old ≤ vec_capacity vec.new }
    ensures counted { RisesAtMost meter.old meter.new (length addition.now) }
    ensures exact { meter.new ≡ count_from meter.old (length addition.now) }
{
    let start = vec.len();
    vec.resize(start + addition.len(), 0).unwrap();
    fill_counted(vec.slice_mut(start..), addition, meter);
}

/// A new vector of these bytes.
#[inline(always)]
pub fn copy_counted(alloc: Global, bytes: &[u8], meter: &mut Meter) -> Result<Vec<u8>, AllocError>
    ensures items { IfOk result (λ vec. vec.items ≡ bytes.now) }
    ensures counted { RisesAtMost meter.old meter.new (length bytes.now) }
    ensures exact { OnOk result (meter.new ≡ count_from meter.old (length bytes.now)) }
    ensures refused_copies_nothing { OnErr result (meter.new ≡ meter.old) }
{
    copy_with_capacity(alloc, bytes, bytes.len(), meter)
}

/// A new vector of these bytes with room for `capacity`.
#[inline(always)]
pub fn copy_with_capacity(
    alloc: Global,
    bytes: &[u8],
    capacity: usize,
    meter: &mut Meter,
) -> Result<Vec<u8>, AllocError>
    ensures items { IfOk result (λ vec. vec.items ≡ bytes.now) }
    ensures capacity { IfOk result (λ vec. capacity ≤ vec_capacity vec) }
    ensures counted { RisesAtMost meter.old meter.new (length bytes.now) }
    ensures exact { OnOk result (meter.new ≡ count_from meter.old (length bytes.now)) }
    ensures refused_copies_nothing { OnErr result (meter.new ≡ meter.old) }
{
    let mut vec = Vec::with_capacity(alloc, capacity)?;
    extend_counted(&mut vec, bytes, meter)?;
    Ok(vec)
}
