//! Large values: ASCII case in place, and cuts at the end. The input has 1 MiB, or 64 KiB for cuts.
use crate::ring::{MEBIBYTE, mix, peek};
use hipstr::bytes::HipByt;
use hipstr::{Backend, Rc, Unique};
use std::alloc::Global;

/// Each round moves all letters of a value up, or down again.
#[inline(always)]
fn moved<B: Backend>(alloc: Global, input: &[u8], rounds: u64) -> Option<u64> {
    let mut value = HipByt::<B>::from_slice(alloc, input).ok()?;
    let mut sum = 0;
    for round in 0..rounds {
        if round % 2 == 0 {
            value.make_ascii_uppercase(alloc).ok()?;
        } else {
            value.make_ascii_lowercase(alloc).ok()?;
        }
        sum = peek(sum, value.as_slice(), round, MEBIBYTE);
    }
    Some(sum)
}

/// Each round moves all letters of a clone up.
#[inline(always)]
fn moved_in_clone<B: Backend>(alloc: Global, input: &[u8], rounds: u64) -> Option<u64> {
    let value = HipByt::<B>::from_slice(alloc, input).ok()?;
    let mut sum = 0;
    for round in 0..rounds {
        let mut clone = value.clone(alloc).ok()?;
        clone.make_ascii_uppercase(alloc).ok()?;
        sum = peek(sum, clone.as_slice(), round, MEBIBYTE);
    }
    Some(sum)
}

/// Each round takes all bytes of a clone off, from its end.
#[inline(always)]
fn popped(alloc: Global, input: &[u8], rounds: u64) -> Option<u64> {
    let value = HipByt::<Rc>::from_slice(alloc, input).ok()?;
    let mut sum = 0;
    for _ in 0..rounds {
        let mut clone = value.clone(alloc).ok()?;
        let mut bytes = 0u64;
        for _ in 0..u64::MAX {
            let Some(byte) = clone.pop() else {
                break;
            };
            bytes = bytes.wrapping_add(u64::from(byte));
        }
        sum = mix(sum, bytes);
    }
    Some(sum)
}

/// Each round cuts a clone shorter, by 16 bytes at a time.
#[inline(always)]
fn truncated(alloc: Global, input: &[u8], rounds: u64) -> Option<u64> {
    let value = HipByt::<Rc>::from_slice(alloc, input).ok()?;
    let mut sum = 0u64;
    for _ in 0..rounds {
        let mut clone = value.clone(alloc).ok()?;
        for _ in 0..u64::MAX {
            let Some(len) = clone.len().checked_sub(16) else {
                break;
            };
            clone.truncate(len);
            sum = sum.wrapping_add(clone.len() as u64);
            if let Some(last) = clone.as_slice().last() {
                sum = sum.wrapping_add(u64::from(*last));
            }
        }
    }
    Some(sum)
}

#[unsafe(no_mangle)]
pub extern "C" fn hip_upper(alloc: Global, input: &[u8], rounds: u64) -> u64 {
    moved::<Rc>(alloc, input, rounds).unwrap_or(0)
}

#[unsafe(no_mangle)]
pub extern "C" fn hip_upper_shared(alloc: Global, input: &[u8], rounds: u64) -> u64 {
    moved_in_clone::<Rc>(alloc, input, rounds).unwrap_or(0)
}

#[unsafe(no_mangle)]
pub extern "C" fn hip_upper_unique(alloc: Global, input: &[u8], rounds: u64) -> u64 {
    moved::<Unique>(alloc, input, rounds).unwrap_or(0)
}

#[unsafe(no_mangle)]
pub extern "C" fn hip_upper_shared_unique(alloc: Global, input: &[u8], rounds: u64) -> u64 {
    moved_in_clone::<Unique>(alloc, input, rounds).unwrap_or(0)
}

#[unsafe(no_mangle)]
pub extern "C" fn hip_pop_bytes(alloc: Global, input: &[u8], rounds: u64) -> u64 {
    popped(alloc, input, rounds).unwrap_or(0)
}

#[unsafe(no_mangle)]
pub extern "C" fn hip_truncate16(alloc: Global, input: &[u8], rounds: u64) -> u64 {
    truncated(alloc, input, rounds).unwrap_or(0)
}
