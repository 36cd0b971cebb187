//! Handles: clones, parts, owned copies, and writing in place. The input has 4096 bytes.
ghost use Rattle.std.specs.Prelude.{◌<◌, ◌≤◌};

use crate::ring::{Ring, look, mix};
use hipstr::bytes::HipByt;
use hipstr::{Backend, Rc, Unique};
use std::alloc::Global;

/// The number of bytes of the values that are cloned, cut and written.
const LONG: usize = 1024;

/// The number of bytes of an inline value, and of a short part.
const SHORT: usize = 10;

/// A copy of the first bytes of the input.
#[inline(always)]
fn copied<'b, B: Backend>(alloc: Global, input: &[u8], len: usize) -> Option<HipByt<'b, B>> {
    HipByt::from_slice(alloc, input.get(..len)?).ok()
}

/// The first bytes of the input, lent.
#[inline(always)]
fn lent<'b, B: Backend>(input: &'b [u8]) -> Option<HipByt<'b, B>> {
    Some(HipByt::borrowed(input.get(..LONG)?))
}

/// Each round puts a clone of the value.
#[inline(always)]
fn clones<B: Backend>(alloc: Global, value: Option<HipByt<'_, B>>, rounds: u64) -> Option<u64> {
    let value = value?;
    let mut ring = Ring::new(alloc).ok()?;
    for _ in 0..rounds {
        ring.put(value.clone(alloc).ok()?);
    }
    Some(ring.fold(0))
}

/// Where a part begins in a round.
#[inline(always)]
fn start_of(round: u64, places: u64) -> usize
    requires { 0 < places }
    ensures { result < places }
{
    (round.wrapping_mul(7) % places) as usize
}

/// Each round puts a part of `len` bytes of the value, which begins at one of so many places.
#[inline(always)]
fn parts<B: Backend>(
    alloc: Global,
    value: Option<HipByt<'_, B>>,
    len: usize,
    places: u64,
    rounds: u64,
) -> Option<u64>
    requires short { len ≤ 1000 }
    requires some_place { 0 < places }
    requires few_places { places ≤ 1000 }
{
    let value = value?;
    let mut ring = Ring::new(alloc).ok()?;
    for round in 0..rounds {
        let start = start_of(round, places);
        let Ok(part) = value.try_slice(alloc, start..start + len) else {
            return None;
        };
        ring.put(part);
    }
    Some(ring.fold(0))
}

/// Each round puts an owned value of `len` lent bytes.
#[inline(always)]
fn owned<B: Backend>(alloc: Global, input: &[u8], len: usize, rounds: u64) -> Option<u64>
    requires { len ≤ 1024 }
{
    if input.len() < 2048 {
        return None;
    }
    let mut ring = Ring::<B>::new(alloc).ok()?;
    for round in 0..rounds {
        let start = start_of(round, 500);
        let Ok(value) = HipByt::<B>::borrowed(&input[start..start + len]).into_owned(alloc) else {
            return None;
        };
        ring.put(value);
    }
    Some(ring.fold(0))
}

/// Each round writes one byte of a value that has its owner for itself.
#[inline(always)]
fn bytes_set<B: Backend>(alloc: Global, input: &[u8], rounds: u64) -> Option<u64> {
    let mut value = copied::<B>(alloc, input, LONG)?;
    for round in 0..rounds {
        let place = (round.wrapping_mul(37) % 1024) as usize;
        let bytes = value.to_mut_slice(alloc).ok()?;
        *bytes.get_mut(place)? = (round % 256) as u8;
    }
    let mut sum = 0;
    for byte in value.as_slice() {
        sum = mix(sum, u64::from(*byte));
    }
    Some(sum)
}

/// Adds 16 bytes to the lent vector, and cuts it back where it has become long.
#[inline(always)]
fn extend(vec: &mut Vec<u8>, addition: &[u8]) -> bool {
    let added = vec.extend_from_slice(addition).is_ok();
    if vec.len() > 4096 {
        vec.truncate(LONG);
    }
    added
}

/// The 16 bytes that a round adds.
#[inline(always)]
fn addition_of(input: &[u8], round: u64) -> Option<&[u8]> {
    let start = (round.wrapping_mul(16) % 1024) as usize;
    input.get(start..start + 16)
}

/// Adds bytes through the vector that is lent.
#[inline(always)]
fn append<B: Backend>(value: &mut HipByt<B>, alloc: Global, addition: &[u8]) -> Option<()> {
    let mut guard = value.mutate(alloc).ok()?;
    let added = extend(guard.as_mut_vec(), addition);
    guard.finish(alloc).ok()?;
    if added { Some(()) } else { None }
}

/// Each round adds bytes through the vector that is lent.
#[inline(always)]
fn appends<B: Backend>(alloc: Global, input: &[u8], rounds: u64) -> Option<u64> {
    let mut value = copied::<B>(alloc, input, LONG)?;
    for round in 0..rounds {
        append(&mut value, alloc, addition_of(input, round)?)?;
    }
    Some(look(0, value.as_slice()))
}

#[unsafe(no_mangle)]
pub extern "C" fn hip_clone_inline(alloc: Global, input: &[u8], rounds: u64) -> u64 {
    clones(alloc, copied::<Rc>(alloc, input, SHORT), rounds).unwrap_or(0)
}

#[unsafe(no_mangle)]
pub extern "C" fn hip_clone_borrowed(alloc: Global, input: &[u8], rounds: u64) -> u64 {
    clones(alloc, lent::<Rc>(input), rounds).unwrap_or(0)
}

#[unsafe(no_mangle)]
pub extern "C" fn hip_clone_alloc(alloc: Global, input: &[u8], rounds: u64) -> u64 {
    clones(alloc, copied::<Rc>(alloc, input, LONG), rounds).unwrap_or(0)
}

#[unsafe(no_mangle)]
pub extern "C" fn hip_slice10(alloc: Global, input: &[u8], rounds: u64) -> u64 {
    parts(alloc, copied::<Rc>(alloc, input, LONG), SHORT, 1000, rounds).unwrap_or(0)
}

#[unsafe(no_mangle)]
pub extern "C" fn hip_slice500(alloc: Global, input: &[u8], rounds: u64) -> u64 {
    parts(alloc, copied::<Rc>(alloc, input, LONG), 500, 500, rounds).unwrap_or(0)
}

#[unsafe(no_mangle)]
pub extern "C" fn hip_slice500_borrowed(alloc: Global, input: &[u8], rounds: u64) -> u64 {
    parts(alloc, lent::<Rc>(input), 500, 500, rounds).unwrap_or(0)
}

#[unsafe(no_mangle)]
pub extern "C" fn hip_into_owned10(alloc: Global, input: &[u8], rounds: u64) -> u64 {
    owned::<Rc>(alloc, input, SHORT, rounds).unwrap_or(0)
}

#[unsafe(no_mangle)]
pub extern "C" fn hip_into_owned1k(alloc: Global, input: &[u8], rounds: u64) -> u64 {
    owned::<Rc>(alloc, input, LONG, rounds).unwrap_or(0)
}

#[unsafe(no_mangle)]
pub extern "C" fn hip_set_byte(alloc: Global, input: &[u8], rounds: u64) -> u64 {
    bytes_set::<Rc>(alloc, input, rounds).unwrap_or(0)
}

#[unsafe(no_mangle)]
pub extern "C" fn hip_clone_inline_unique(alloc: Global, input: &[u8], rounds: u64) -> u64 {
    clones(alloc, copied::<Unique>(alloc, input, SHORT), rounds).unwrap_or(0)
}

#[unsafe(no_mangle)]
pub extern "C" fn hip_clone_borrowed_unique(alloc: Global, input: &[u8], rounds: u64) -> u64 {
    clones(alloc, lent::<Unique>(input), rounds).unwrap_or(0)
}

#[unsafe(no_mangle)]
pub extern "C" fn hip_clone_alloc_unique(alloc: Global, input: &[u8], rounds: u64) -> u64 {
    clones(alloc, copied::<Unique>(alloc, input, LONG), rounds).unwrap_or(0)
}

#[unsafe(no_mangle)]
pub extern "C" fn hip_slice10_unique(alloc: Global, input: &[u8], rounds: u64) -> u64 {
    parts(
        alloc,
        copied::<Unique>(alloc, input, LONG),
        SHORT,
        1000,
        rounds,
    )
    .unwrap_or(0)
}

#[unsafe(no_mangle)]
pub extern "C" fn hip_slice500_unique(alloc: Global, input: &[u8], rounds: u64) -> u64 {
    parts(
        alloc,
        copied::<Unique>(alloc, input, LONG),
        500,
        500,
        rounds,
    )
    .unwrap_or(0)
}

#[unsafe(no_mangle)]
pub extern "C" fn hip_into_owned1k_unique(alloc: Global, input: &[u8], rounds: u64) -> u64 {
    owned::<Unique>(alloc, input, LONG, rounds).unwrap_or(0)
}

#[unsafe(no_mangle)]
pub extern "C" fn hip_set_byte_unique(alloc: Global, input: &[u8], rounds: u64) -> u64 {
    bytes_set::<Unique>(alloc, input, rounds).unwrap_or(0)
}

#[unsafe(no_mangle)]
pub extern "C" fn hip_mutate_append(alloc: Global, input: &[u8], rounds: u64) -> u64 {
    appends::<Rc>(alloc, input, rounds).unwrap_or(0)
}

#[unsafe(no_mangle)]
pub extern "C" fn hip_mutate_append_unique(alloc: Global, input: &[u8], rounds: u64) -> u64 {
    appends::<Unique>(alloc, input, rounds).unwrap_or(0)
}
