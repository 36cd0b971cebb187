//! Comparisons of eight pairs of equal values. The input has 4096 bytes.
use hipstr::LocalHipByt;
use std::alloc::Global;
use std::cmp::Ordering;

/// Eight pairs of values, each copied by itself.
fn pairs(
    alloc: Global,
    input: &[u8],
    len: usize,
) -> Option<Vec<(LocalHipByt<'static>, LocalHipByt<'static>)>> {
    let mut pairs = Vec::new(alloc);
    for k in 0..8usize {
        let bytes = input.get(300 * k..)?.get(..len)?;
        let first = LocalHipByt::from_slice(alloc, bytes).ok()?;
        let second = LocalHipByt::from_slice(alloc, bytes).ok()?;
        pairs.push((first, second)).ok()?;
    }
    Some(pairs)
}

/// Each round counts whether the values of a pair are equal.
#[inline(always)]
fn equal(alloc: Global, input: &[u8], len: usize, rounds: u64) -> Option<u64> {
    let pairs = pairs(alloc, input, len)?;
    let mut sum = 0u64;
    for round in 0..rounds {
        let (first, second) = pairs.get((round % 8) as usize)?;
        sum = sum.wrapping_add(u64::from(*first == *second));
    }
    Some(sum)
}

/// An order as a number.
#[inline(always)]
pub(crate) fn number_of(order: Ordering) -> u64 {
    match order {
        Ordering::Less => 0,
        Ordering::Equal => 1,
        Ordering::Greater => 2,
    }
}

/// Each round adds the order of the values of each pair.
#[inline(always)]
fn ordered(alloc: Global, input: &[u8], len: usize, rounds: u64) -> Option<u64> {
    let pairs = pairs(alloc, input, len)?;
    let mut sum = 0u64;
    for round in 0..rounds {
        let (first, second) = pairs.get((round % 8) as usize)?;
        sum = sum.wrapping_add(number_of(first.cmp(second)));
    }
    Some(sum)
}

#[unsafe(no_mangle)]
pub extern "C" fn hip_eq10(alloc: Global, input: &[u8], rounds: u64) -> u64 {
    equal(alloc, input, 10, rounds).unwrap_or(0)
}

#[unsafe(no_mangle)]
pub extern "C" fn hip_cmp10(alloc: Global, input: &[u8], rounds: u64) -> u64 {
    ordered(alloc, input, 10, rounds).unwrap_or(0)
}

#[unsafe(no_mangle)]
pub extern "C" fn hip_eq1k(alloc: Global, input: &[u8], rounds: u64) -> u64 {
    equal(alloc, input, 1024, rounds).unwrap_or(0)
}

#[unsafe(no_mangle)]
pub extern "C" fn hip_cmp1k(alloc: Global, input: &[u8], rounds: u64) -> u64 {
    ordered(alloc, input, 1024, rounds).unwrap_or(0)
}
