//! Growth by small pushes. The input has 4096 bytes.
use crate::ring::{MEBIBYTE, mix, peek};
use hipstr::bytes::HipByt;
use hipstr::{Backend, Rc, Unique};
use std::alloc::Global;

/// The number of bytes of a row of the input, from which the pushed ones are taken in turn.
const ROW: u64 = 4096;

/// Each round pushes a mebibyte, byte by byte.
#[inline(always)]
fn bytes_pushed<B: Backend>(alloc: Global, input: &[u8], rounds: u64) -> Option<u64> {
    if (input.len() as u64) < ROW {
        return None;
    }
    let mut sum = 0;
    for round in 0..rounds {
        let mut value = HipByt::<B>::new();
        for k in 0..MEBIBYTE {
            value.push(alloc, input[(k % ROW) as usize]).ok()?;
        }
        sum = mix(sum, value.len() as u64);
        sum = peek(sum, value.as_slice(), round, MEBIBYTE);
    }
    Some(sum)
}

/// Each round pushes four mebibytes, 16 bytes by 16.
#[inline(always)]
fn slices_pushed<B: Backend>(alloc: Global, input: &[u8], room: usize, rounds: u64) -> Option<u64> {
    if (input.len() as u64) < ROW {
        return None;
    }
    let mut sum = 0;
    for round in 0..rounds {
        let mut value = HipByt::<B>::with_capacity(alloc, room).ok()?;
        for k in 0..MEBIBYTE / 4 {
            let start = (k * 16 % ROW) as usize;
            value.push_slice(alloc, input.get(start..start + 16)?).ok()?;
        }
        sum = mix(sum, value.len() as u64);
        sum = peek(sum, value.as_slice(), round, 4 * MEBIBYTE);
    }
    Some(sum)
}

#[unsafe(no_mangle)]
pub extern "C" fn hip_push_byte(alloc: Global, input: &[u8], rounds: u64) -> u64 {
    bytes_pushed::<Rc>(alloc, input, rounds).unwrap_or(0)
}

#[unsafe(no_mangle)]
pub extern "C" fn hip_push16(alloc: Global, input: &[u8], rounds: u64) -> u64 {
    slices_pushed::<Rc>(alloc, input, 0, rounds).unwrap_or(0)
}

#[unsafe(no_mangle)]
pub extern "C" fn hip_push16_room(alloc: Global, input: &[u8], rounds: u64) -> u64 {
    slices_pushed::<Rc>(alloc, input, 4 << 20, rounds).unwrap_or(0)
}

#[unsafe(no_mangle)]
pub extern "C" fn hip_push_byte_unique(alloc: Global, input: &[u8], rounds: u64) -> u64 {
    bytes_pushed::<Unique>(alloc, input, rounds).unwrap_or(0)
}

#[unsafe(no_mangle)]
pub extern "C" fn hip_push16_unique(alloc: Global, input: &[u8], rounds: u64) -> u64 {
    slices_pushed::<Unique>(alloc, input, 0, rounds).unwrap_or(0)
}

#[unsafe(no_mangle)]
pub extern "C" fn hip_push16_room_unique(alloc: Global, input: &[u8], rounds: u64) -> u64 {
    slices_pushed::<Unique>(alloc, input, 4 << 20, rounds).unwrap_or(0)
}
