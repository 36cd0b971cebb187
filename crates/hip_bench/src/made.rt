//! Large values that are made of others. The input has 1 MiB, or 4 KiB for repetition.
use crate::ring::{MEBIBYTE, look, peek};
use hipstr::Rc;
use hipstr::bytes::HipByt;
use std::alloc::{AllocError, Global};

/// The separator of a join.
const SEPARATOR: &[u8] = b", ";

/// The input in parts of 16 bytes, lent.
fn parts_of(alloc: Global, input: &[u8]) -> Result<Vec<&[u8]>, AllocError> {
    let mut parts = Vec::new(alloc);
    for part in input.chunks(16) {
        parts.push(part)?;
    }
    Ok(parts)
}

/// A checksum with the value more that a round made.
#[inline(always)]
fn seen(sum: u64, value: HipByt<'_, Rc>, round: u64) -> u64 {
    let bytes = value.as_slice();
    peek(look(sum, bytes), bytes, round, MEBIBYTE)
}

/// Each round repeats 16 bytes.
fn repeated(alloc: Global, input: &[u8], rounds: u64) -> Option<u64> {
    let value = HipByt::from_slice(alloc, input.get(..16)?).ok()?;
    let mut sum = 0;
    for round in 0..rounds {
        sum = seen(sum, value.repeat(alloc, 65536).ok()?, round);
    }
    Some(sum)
}

/// Each round puts the parts of a list one behind another.
fn concatenated(alloc: Global, input: &[u8], rounds: u64) -> Option<u64> {
    let parts = parts_of(alloc, input).ok()?;
    let mut sum = 0;
    for round in 0..rounds {
        sum = seen(
            sum,
            HipByt::concat_slices(alloc, parts.as_slice()).ok()?,
            round,
        );
    }
    Some(sum)
}

/// Like [`concatenated`], with an iterator over the list.
fn concatenated_by_iterator(alloc: Global, input: &[u8], rounds: u64) -> Option<u64> {
    let parts = parts_of(alloc, input).ok()?;
    let mut sum = 0;
    for round in 0..rounds {
        sum = seen(
            sum,
            HipByt::concat(alloc, parts.iter().copied()).ok()?,
            round,
        );
    }
    Some(sum)
}

/// Each round joins the parts of a list.
fn joined(alloc: Global, input: &[u8], rounds: u64) -> Option<u64> {
    let parts = parts_of(alloc, input).ok()?;
    let mut sum = 0;
    for round in 0..rounds {
        sum = seen(
            sum,
            HipByt::join_slices(alloc, parts.as_slice(), SEPARATOR).ok()?,
            round,
        );
    }
    Some(sum)
}

/// Like [`joined`], with an iterator over the list.
fn joined_by_iterator(alloc: Global, input: &[u8], rounds: u64) -> Option<u64> {
    let parts = parts_of(alloc, input).ok()?;
    let mut sum = 0;
    for round in 0..rounds {
        sum = seen(
            sum,
            HipByt::join(alloc, parts.iter().copied(), SEPARATOR).ok()?,
            round,
        );
    }
    Some(sum)
}

#[unsafe(no_mangle)]
pub extern "C" fn hip_repeat(alloc: Global, input: &[u8], rounds: u64) -> u64 {
    repeated(alloc, input, rounds).unwrap_or(0)
}

#[unsafe(no_mangle)]
pub extern "C" fn hip_concat_slices(alloc: Global, input: &[u8], rounds: u64) -> u64 {
    concatenated(alloc, input, rounds).unwrap_or(0)
}

#[unsafe(no_mangle)]
pub extern "C" fn hip_concat_iter(alloc: Global, input: &[u8], rounds: u64) -> u64 {
    concatenated_by_iterator(alloc, input, rounds).unwrap_or(0)
}

#[unsafe(no_mangle)]
pub extern "C" fn hip_join_slices(alloc: Global, input: &[u8], rounds: u64) -> u64 {
    joined(alloc, input, rounds).unwrap_or(0)
}

#[unsafe(no_mangle)]
pub extern "C" fn hip_join_iter(alloc: Global, input: &[u8], rounds: u64) -> u64 {
    joined_by_iterator(alloc, input, rounds).unwrap_or(0)
}
