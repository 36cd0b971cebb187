//! The checksum of the workloads, and the ring that keeps their values alive.
ghost use Rattle.std.specs.Prelude.{◌<◌};

use hipstr::Backend;
use hipstr::bytes::HipByt;
use std::alloc::{AllocError, Global};

/// The number of values that a ring keeps.
const PLACES: u64 = 64;

/// The bytes in a mebibyte.
pub(crate) const MEBIBYTE: u64 = 1 << 20;

/// A checksum with one number more.
#[inline(always)]
pub(crate) fn mix(sum: u64, number: u64) -> u64 {
    sum.wrapping_mul(31).wrapping_add(number)
}

/// A checksum with a length, the first and the last byte more.
#[inline(always)]
pub(crate) fn look(sum: u64, bytes: &[u8]) -> u64 {
    let sum = mix(sum, bytes.len() as u64);
    match (bytes.first(), bytes.last()) {
        (Some(first), Some(last)) => mix(mix(sum, u64::from(*first)), u64::from(*last)),
        _ => sum,
    }
}

/// A checksum with the byte more that stands at a place, which moves on with each round.
#[inline(always)]
pub(crate) fn peek(sum: u64, bytes: &[u8], round: u64, places: u64) -> u64
    requires { 0 < places }
{
    let place = round.wrapping_mul(4099) % places;
    match bytes.get(place as usize) {
        Some(byte) => mix(sum, u64::from(*byte)),
        None => sum,
    }
}

/// Values that live until others take their places.
#[derive(Drop)]
pub(crate) struct Ring<'b, B: Backend> {
    values: Vec<HipByt<'b, B>>,
    puts: u64,
}

impl<'b, B: Backend> Ring<'b, B> {
    /// A ring of empty values.
    pub(crate) fn new(alloc: Global) -> Result<Self, AllocError> {
        let mut values = Vec::with_capacity(alloc, PLACES as usize)?;
        for _ in 0..PLACES {
            values.push(HipByt::new())?;
        }
        Ok(Ring { values, puts: 0 })
    }

    /// Stores a value, and lets go of the one that stood in its place.
    #[inline(always)]
    pub(crate) fn put(&mut self, value: HipByt<'b, B>) {
        let place = self.puts % PLACES;
        if let Some(old) = self.values.get_mut(place as usize) {
            *old = value;
        }
        self.puts = self.puts.wrapping_add(1);
    }

    /// A checksum with the number of puts and all values more.
    pub(crate) fn fold(&self, sum: u64) -> u64 {
        let mut sum = mix(sum, self.puts);
        for value in &self.values {
            sum = look(sum, value.as_slice());
        }
        sum
    }
}
