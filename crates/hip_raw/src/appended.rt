//! The outcome of an append, and the append to a vector.
ghost use Rattle.std.specs.Prelude.{◌≡◌, ◌+◌, ◌<◌, ◌≤◌, ◌++◌, length, take, vec_len, vec_capacity};
ghost use Rattle.hip_raw.specs.Appended.{OnDone, OnShared, OnMemory, OnRefused};
ghost use Rattle.hip_raw.specs.Meter.{RisesAtMost, count_from};

use crate::meter::{Meter, extend_counted, extend_within};
use std::alloc::AllocError;

/// The outcome of an append.
#[derive(Clone, Copy, Debug, PartialEq, Eq)]
pub enum Appended {
    /// The bytes stand at the end.
    Done,
    /// Others share the bytes, so none was written.
    Shared,
    /// Memory was refused, so nothing changed.
    Memory,
}

// Cuts the vector to `keep` bytes and puts the addition behind them. Room is reserved first, so a refusal changes nothing.
#[inline(always)]
pub(crate) fn append_to(
    vec: &mut Vec<u8>,
    keep: usize,
    addition: &[u8],
    meter: &mut Meter,
) -> Appended
    requires { keep ≤ vec_len vec.old }
    ensures items { OnDone result (vec.new.items ≡ take keep vec.old.items ++ addition.now) }
    ensures counted { RisesAtMost meter.old meter.new (length addition.now) }
    ensures exact { OnDone result (meter.new ≡ count_from meter.old (length addition.now)) }
    ensures capacity { vec_capacity vec.old ≤ vec_capacity vec.new }
    ensures unshared { OnShared result ⊥ }
    ensures memory { OnMemory result (vec_capacity vec.old < keep + length addition.now) }
    ensures refused { OnRefused result
        ((vec.new.items ≡ vec.old.items) × (vec_capacity vec.new ≡ vec_capacity vec.old)) }
    ensures refused_copies_nothing { OnRefused result (meter.new ≡ meter.old) }
{
    if keep < vec.len() {
        let mut apart = Meter::new();
        let answer = append_behind(vec, keep, addition, &mut apart);
        meter.add(&apart);
        return answer;
    }
    match extend_counted(vec, addition, meter) {
        Ok(()) => Appended::Done,
        Err(AllocError) => Appended::Memory,
    }
}

// Like [`append_to`], where bytes behind `keep` are cut off. It reserves room before it cuts, so that a refusal changes nothing.
#[cold]
#[inline(never)]
fn append_behind(vec: &mut Vec<u8>, keep: usize, addition: &[u8], meter: &mut Meter) -> Appended
    requires { keep ≤ vec_len vec.old }
    ensures items { OnDone result (vec.new.items ≡ take keep vec.old.items ++ addition.now) }
    ensures counted { RisesAtMost meter.old meter.new (length addition.now) }
    ensures exact { OnDone result (meter.new ≡ count_from meter.old (length addition.now)) }
    ensures capacity { vec_capacity vec.old ≤ vec_capacity vec.new }
    ensures unshared { OnShared result ⊥ }
    ensures memory { OnMemory result (vec_capacity vec.old < keep + length addition.now) }
    ensures refused { OnRefused result
        ((vec.new.items ≡ vec.old.items) × (vec_capacity vec.new ≡ vec_capacity vec.old)) }
    ensures refused_copies_nothing { OnRefused result (meter.new ≡ meter.old) }
{
    let Some(len) = keep.checked_add(addition.len()) else {
        return Appended::Memory;
    };
    if vec.try_reserve(len.saturating_sub(vec.len())).is_err() {
        return Appended::Memory;
    }
    vec.truncate(keep);
    extend_within(vec, addition, meter);
    Appended::Done
}
