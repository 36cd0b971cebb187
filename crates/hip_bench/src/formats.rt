//! Borsh and JSON. Where the input has to be a text and isn't, the answer is 0.
use crate::ring::{MEBIBYTE, look, mix, peek};
use hipstr::bytes::HipByt;
use hipstr::string::HipStr;
use hipstr::{Rc, SliceSource, VecSink};
use serde_json::Value;
use std::alloc::Global;
use std::str;

/// A checksum with the bytes more that a round made.
#[inline(always)]
fn seen(sum: u64, bytes: &[u8], round: u64) -> u64 {
    peek(look(sum, bytes), bytes, round, MEBIBYTE)
}

/// Each round writes the form of the input into a new vector.
fn written(alloc: Global, input: &[u8], rounds: u64) -> Option<u64> {
    let value = HipByt::<Rc>::from_slice(alloc, input).ok()?;
    let mut sum = 0;
    for round in 0..rounds {
        let mut sink = VecSink::new(alloc);
        value.serialize(&mut sink).ok()?;
        sum = seen(sum, sink.into_vec().as_slice(), round);
    }
    Some(sum)
}

/// Each round reads a form, as bytes.
fn read(alloc: Global, input: &[u8], rounds: u64) -> Option<u64> {
    let mut sum = 0;
    for round in 0..rounds {
        let mut source = SliceSource::new(input);
        let value = HipByt::<Rc>::deserialize_reader(alloc, &mut source).ok()?;
        sum = seen(sum, value.as_slice(), round);
    }
    Some(sum)
}

/// Each round reads a form, as a text.
fn read_text(alloc: Global, input: &[u8], rounds: u64) -> Option<u64> {
    let mut sum = 0;
    for round in 0..rounds {
        let mut source = SliceSource::new(input);
        let value = HipStr::<Rc>::deserialize_reader(alloc, &mut source).ok()?;
        sum = seen(sum, value.as_bytes(), round);
    }
    Some(sum)
}

/// The number of items of an array, and the sum of its numbers.
fn added(value: &Value) -> Option<(usize, u64)> {
    let items = value.as_array()?;
    let mut sum = 0u64;
    for item in items {
        sum = sum.wrapping_add(item.as_u64()?);
    }
    Some((items.len(), sum))
}

/// Each round makes the JSON array of the input.
fn made(alloc: Global, input: &[u8], rounds: u64) -> Option<u64> {
    let value = HipByt::<Rc>::from_slice(alloc, input).ok()?;
    let mut sum = 0;
    for _ in 0..rounds {
        let (len, numbers) = added(&value.to_json(alloc).ok()?)?;
        sum = mix(mix(sum, len as u64), numbers);
    }
    Some(sum)
}

/// Each round reads the JSON array of the input.
fn taken(alloc: Global, input: &[u8], rounds: u64) -> Option<u64> {
    let array = HipByt::<Rc>::borrowed(input).to_json(alloc).ok()?;
    let mut sum = 0;
    for _ in 0..rounds {
        let value = HipByt::<Rc>::from_json(alloc, &array).ok()?;
        sum = look(sum, value.as_slice());
    }
    Some(sum)
}

/// Each round makes the JSON string of a text, and reads it.
fn taken_text(alloc: Global, input: &[u8], rounds: u64) -> Option<u64> {
    let text = HipStr::<Rc>::from_str(alloc, str::from_utf8(input).ok()?).ok()?;
    let mut sum = 0;
    for _ in 0..rounds {
        let value = HipStr::<Rc>::from_json(alloc, &text.to_json(alloc).ok()?).ok()?;
        sum = look(sum, value.as_bytes());
    }
    Some(sum)
}

#[unsafe(no_mangle)]
pub extern "C" fn hip_borsh_write(alloc: Global, input: &[u8], rounds: u64) -> u64 {
    written(alloc, input, rounds).unwrap_or(0)
}

#[unsafe(no_mangle)]
pub extern "C" fn hip_borsh_read(alloc: Global, input: &[u8], rounds: u64) -> u64 {
    read(alloc, input, rounds).unwrap_or(0)
}

#[unsafe(no_mangle)]
pub extern "C" fn hip_borsh_read_text(alloc: Global, input: &[u8], rounds: u64) -> u64 {
    read_text(alloc, input, rounds).unwrap_or(0)
}

#[unsafe(no_mangle)]
pub extern "C" fn hip_json_to(alloc: Global, input: &[u8], rounds: u64) -> u64 {
    made(alloc, input, rounds).unwrap_or(0)
}

#[unsafe(no_mangle)]
pub extern "C" fn hip_json_from(alloc: Global, input: &[u8], rounds: u64) -> u64 {
    taken(alloc, input, rounds).unwrap_or(0)
}

#[unsafe(no_mangle)]
pub extern "C" fn hip_json_text(alloc: Global, input: &[u8], rounds: u64) -> u64 {
    taken_text(alloc, input, rounds).unwrap_or(0)
}
