//! The bytes that the owner of one handle copies as it grows, and the room that it has then.
use super::bytes::Bytes;
use super::suite::{Suite, run_on_unique};
use super::support::{LETTERS, equals, must};
use hip_bytes::{Kind, Meter};
use std::alloc::Global;
use std::process::Abort;

/// Room for 64 bytes, of which 60 are taken.
fn nearly_full<H: Bytes>(rt: &impl Abort, alloc: Global, meter: &mut Meter) -> H {
    let mut handle = must(rt, H::with_capacity(alloc, 64));
    must(rt, handle.push_slice_metered(alloc, &[b'x'; 30], meter));
    must(rt, handle.push_slice_metered(alloc, &[b'y'; 30], meter));
    handle
}

/// Asserts that the bytes that are kept move once, to twice the room that is needed.
fn overflows<H: Bytes>(rt: &impl Abort, alloc: Global, mut handle: H, meter: &mut Meter) {
    let capacity = handle.capacity();
    let mut addition = Vec::new(alloc);
    must(rt, addition.resize(capacity.saturating_sub(59), b'z'));
    must(
        rt,
        handle.push_slice_metered(alloc, addition.as_slice(), meter),
    );
    let is_doubled = handle.capacity() / 2 > capacity;
    equals(
        rt,
        &(meter.copied(), is_doubled),
        &(capacity as u128 + 61, true),
    );
}

struct Doubles;

impl Suite for Doubles {
    fn run<H: Bytes>(rt: &impl Abort, alloc: Global) {
        let mut meter = Meter::new();
        let handle = nearly_full::<H>(rt, alloc, &mut meter);
        equals(rt, &(handle.len(), meter.copied()), &(60, 60));
        overflows(rt, alloc, handle, &mut meter);
    }
}

#[test]
fn a_full_room_doubles(rt: HostRuntime) {
    run_on_unique::<Doubles>(&rt, rt.alloc());
}

struct GrowsOneByOne;

impl Suite for GrowsOneByOne {
    fn run<H: Bytes>(rt: &impl Abort, alloc: Global) {
        let mut meter = Meter::new();
        let mut handle = must(rt, H::with_capacity(alloc, 24));
        for _ in 0..10_000 {
            must(rt, handle.push_metered(alloc, b'x', &mut meter));
        }
        equals(
            rt,
            &(handle.len(), meter.copied() <= 30_000),
            &(10_000, true),
        );
    }
}

#[test]
fn bytes_one_by_one(rt: HostRuntime) {
    run_on_unique::<GrowsOneByOne>(&rt, rt.alloc());
}

struct GoesInAndOut;

impl Suite for GoesInAndOut {
    fn run<H: Bytes>(rt: &impl Abort, alloc: Global) {
        let mut vec = Vec::new(alloc);
        must(rt, vec.extend_from_slice(LETTERS));
        let handle = must(rt, H::from_vec(alloc, vec));
        let kind = handle.kind();
        let back = must(rt, handle.into_vec(alloc));
        equals(rt, &(kind, back.as_slice()), &(Kind::Allocated, LETTERS));
    }
}

#[test]
fn a_vector_goes_in_and_out(rt: HostRuntime) {
    run_on_unique::<GoesInAndOut>(&rt, rt.alloc());
}

/// Appends that fit, and a loan for writing, allocate nothing: the capacity stays.
struct IsFilled;

impl Suite for IsFilled {
    fn run<H: Bytes>(rt: &impl Abort, alloc: Global) {
        let mut handle = must(rt, H::with_capacity(alloc, 64));
        let before = handle.capacity();
        must(rt, handle.push_slice(alloc, &[b'x'; 30]));
        must(rt, handle.push_slice(alloc, &[b'y'; 34]));
        let lent = must(rt, handle.to_mut_slice(alloc)).len();
        equals(rt, &(lent, handle.capacity()), &(64, before));
    }
}

#[test]
fn room_is_kept(rt: HostRuntime) {
    run_on_unique::<IsFilled>(&rt, rt.alloc());
}
