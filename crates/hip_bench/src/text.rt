//! Texts: slices, pushes and pops of characters, and decoding. Where the input has to be a text and isn't, the answer is 0.
use crate::ring::{Ring, look, mix};
use hipstr::Rc;
use hipstr::bytes::HipByt;
use hipstr::string::HipStr;
use std::alloc::Global;
use std::str;

/// The number of positions of characters that slices begin at.
const STARTS: usize = 1010;

/// The positions of the first characters of a text.
fn starts(alloc: Global, text: &str) -> Option<Vec<usize>> {
    let mut starts = Vec::with_capacity(alloc, STARTS).ok()?;
    for start in 0..text.len() {
        if starts.len() == STARTS {
            break;
        }
        if text.is_char_boundary(start) {
            starts.push(start).ok()?;
        }
    }
    Some(starts)
}

/// Each round cuts eight characters.
fn sliced(alloc: Global, input: &[u8], rounds: u64) -> Option<u64> {
    let text = str::from_utf8(input).ok()?;
    let starts = starts(alloc, text)?;
    let value = HipStr::<Rc>::from_str(alloc, text).ok()?;
    let mut ring = Ring::new(alloc).ok()?;
    for round in 0..rounds {
        let first = (round % 1000) as usize;
        let range = *starts.get(first)?..*starts.get(first + 8)?;
        let Ok(part) = value.try_slice(alloc, range) else {
            return None;
        };
        ring.put(part.into_bytes());
    }
    Some(ring.fold(0))
}

/// Each round pushes every character of the input.
fn pushed(alloc: Global, input: &[u8], rounds: u64) -> Option<u64> {
    let text = str::from_utf8(input).ok()?;
    let mut sum = 0;
    for _ in 0..rounds {
        let mut value = HipStr::<Rc>::new();
        for c in text.chars() {
            value.push(alloc, c).ok()?;
        }
        sum = look(sum, value.as_bytes());
    }
    Some(sum)
}

/// Takes every character off, and adds their numbers.
fn popped(mut value: HipStr<'_, Rc>) -> u64 {
    let mut sum = 0u64;
    for _ in 0..u64::MAX {
        let Some(c) = value.pop() else {
            break;
        };
        sum = sum.wrapping_add(u64::from(u32::from(c)));
    }
    sum
}

/// Each round takes every character off a clone.
fn popped_rounds(alloc: Global, input: &[u8], rounds: u64) -> Option<u64> {
    let value = HipStr::<Rc>::from_str(alloc, str::from_utf8(input).ok()?).ok()?;
    let mut sum = 0;
    for _ in 0..rounds {
        sum = mix(sum, popped(value.clone(alloc).ok()?));
    }
    Some(sum)
}

/// One of two values, by turns.
fn turn<T>(round: u64, two: &(T, T)) -> &T {
    if round % 2 == 0 { &two.0 } else { &two.1 }
}

/// Two values that are copied from the input, each by itself.
fn two<'b>(alloc: Global, input: &[u8]) -> Option<(HipByt<'b, Rc>, HipByt<'b, Rc>)> {
    let first = HipByt::from_slice(alloc, input).ok()?;
    Some((first, HipByt::from_slice(alloc, input).ok()?))
}

/// Each round reads a clone of a value as a text: its length, or where it isn't one.
fn decoded(alloc: Global, input: &[u8], rounds: u64) -> Option<u64> {
    let two = two(alloc, input)?;
    let mut sum = 0;
    for round in 0..rounds {
        let bytes = turn(round, &two).clone(alloc).ok()?;
        sum = match HipStr::from_utf8(bytes) {
            Ok(text) => mix(sum, text.len() as u64),
            Err(error) => mix(
                sum,
                1u64.wrapping_add(error.utf8_error().valid_up_to() as u64),
            ),
        };
    }
    Some(sum)
}

/// Each round repairs a clone of a value.
fn repaired(alloc: Global, input: &[u8], rounds: u64) -> Option<u64> {
    let two = two(alloc, input)?;
    let mut sum = 0;
    for round in 0..rounds {
        let bytes = turn(round, &two).clone(alloc).ok()?;
        let text = HipStr::from_utf8_lossy(alloc, bytes).ok()?;
        sum = look(sum, text.as_bytes());
    }
    Some(sum)
}

/// The units of the input, two bytes each, the least first.
fn units(alloc: Global, input: &[u8]) -> Option<Vec<u16>> {
    let mut units = Vec::with_capacity(alloc, input.len() / 2).ok()?;
    for unit in input.chunks_exact(2) {
        let (low, high) = (*unit.first()?, *unit.last()?);
        units.push(u16::from_le_bytes([low, high])).ok()?;
    }
    Some(units)
}

/// Each round makes a text of the units.
fn read(alloc: Global, input: &[u8], rounds: u64) -> Option<u64> {
    let units = units(alloc, input)?;
    let mut sum = 0;
    for _ in 0..rounds {
        let text = HipStr::<Rc>::from_utf16(alloc, &units).ok()?;
        sum = look(sum, text.as_bytes());
    }
    Some(sum)
}

/// Like [`read`], where a unit without a partner becomes U+FFFD.
fn read_lossy(alloc: Global, input: &[u8], rounds: u64) -> Option<u64> {
    let units = units(alloc, input)?;
    let mut sum = 0;
    for _ in 0..rounds {
        let text = HipStr::<Rc>::from_utf16_lossy(alloc, &units).ok()?;
        sum = look(sum, text.as_bytes());
    }
    Some(sum)
}

#[unsafe(no_mangle)]
pub extern "C" fn hip_slice10_text(alloc: Global, input: &[u8], rounds: u64) -> u64 {
    sliced(alloc, input, rounds).unwrap_or(0)
}

#[unsafe(no_mangle)]
pub extern "C" fn hip_push_char(alloc: Global, input: &[u8], rounds: u64) -> u64 {
    pushed(alloc, input, rounds).unwrap_or(0)
}

#[unsafe(no_mangle)]
pub extern "C" fn hip_pop_chars(alloc: Global, input: &[u8], rounds: u64) -> u64 {
    popped_rounds(alloc, input, rounds).unwrap_or(0)
}

#[unsafe(no_mangle)]
pub extern "C" fn hip_utf8_ascii(alloc: Global, input: &[u8], rounds: u64) -> u64 {
    decoded(alloc, input, rounds).unwrap_or(0)
}

#[unsafe(no_mangle)]
pub extern "C" fn hip_utf8_mixed(alloc: Global, input: &[u8], rounds: u64) -> u64 {
    decoded(alloc, input, rounds).unwrap_or(0)
}

#[unsafe(no_mangle)]
pub extern "C" fn hip_utf8_error(alloc: Global, input: &[u8], rounds: u64) -> u64 {
    decoded(alloc, input, rounds).unwrap_or(0)
}

#[unsafe(no_mangle)]
pub extern "C" fn hip_lossy_valid(alloc: Global, input: &[u8], rounds: u64) -> u64 {
    repaired(alloc, input, rounds).unwrap_or(0)
}

#[unsafe(no_mangle)]
pub extern "C" fn hip_lossy_repair(alloc: Global, input: &[u8], rounds: u64) -> u64 {
    repaired(alloc, input, rounds).unwrap_or(0)
}

#[unsafe(no_mangle)]
pub extern "C" fn hip_utf16(alloc: Global, input: &[u8], rounds: u64) -> u64 {
    read(alloc, input, rounds).unwrap_or(0)
}

#[unsafe(no_mangle)]
pub extern "C" fn hip_utf16_lossy(alloc: Global, input: &[u8], rounds: u64) -> u64 {
    read_lossy(alloc, input, rounds).unwrap_or(0)
}
