//! Pushes, cuts in place and slices.
use super::bytes::Bytes;
use super::suite::{Suite, run_on_each};
use super::support::{LETTERS, equals, holds, is, must};
use hip_bytes::{Kind, Meter};
use std::alloc::Global;
use std::ops::Bound;
use std::process::Abort;

/// How a handle is made that calls then change.
#[derive(Clone, Copy)]
enum Start {
    Empty,
    Copied(&'static [u8]),
    Borrowed(&'static [u8]),
    Room(usize),
}

/// A call that changes a handle, and what it answers.
#[derive(Clone, Copy)]
enum Call {
    Push(u8),
    PushSlice(&'static [u8]),
    Truncate(usize),
    Pop(Option<u8>),
    Clear,
}

/// A call, and what the handle then holds, and where.
#[derive(Clone, Copy)]
struct Step(Call, &'static [u8], Kind);

const COPIED_GROWS: &[Step] = &[
    Step(Call::Push(b'b'), b"aaaaaaaaaaaaaaaaaaaaaab", Kind::Inline),
    Step(
        Call::PushSlice(b"c"),
        b"aaaaaaaaaaaaaaaaaaaaaabc",
        Kind::Allocated,
    ),
];

const LENT_GROWS: &[Step] = &[Step(
    Call::PushSlice(b"b"),
    b"aaaaaaaaaaaaaaaaaaaaaaab",
    Kind::Allocated,
)];

const EMPTY_GROWS: &[Step] = &[Step(Call::PushSlice(&[b'a'; 24]), &[b'a'; 24], Kind::Allocated)];

const COPIED_SHRINKS: &[Step] = &[
    Step(Call::Truncate(25), &[b'a'; 24], Kind::Allocated),
    Step(Call::Truncate(24), &[b'a'; 24], Kind::Allocated),
    Step(Call::Pop(Some(b'a')), &[b'a'; 23], Kind::Inline),
    Step(Call::Truncate(0), b"", Kind::Inline),
    Step(Call::Pop(None), b"", Kind::Inline),
];

const LENT_SHRINKS: &[Step] = &[
    Step(Call::PushSlice(b""), &[b'a'; 30], Kind::Borrowed),
    Step(Call::Truncate(5), b"aaaaa", Kind::Borrowed),
];

const NOTHING_IS_PUSHED: &[Step] = &[Step(Call::PushSlice(b""), b"abc", Kind::Borrowed)];

const ROOM_CLEARED: &[Step] = &[Step(Call::Clear, b"", Kind::Allocated)];

/// Handles, and the calls on each in turn.
const RUNS: &[(Start, &[Step])] = &[
    (Start::Copied(&[b'a'; 22]), COPIED_GROWS),
    (Start::Borrowed(&[b'a'; 23]), LENT_GROWS),
    (Start::Empty, EMPTY_GROWS),
    (Start::Copied(&[b'a'; 24]), COPIED_SHRINKS),
    (Start::Borrowed(&[b'a'; 30]), LENT_SHRINKS),
    (Start::Borrowed(b"abc"), NOTHING_IS_PUSHED),
    (Start::Room(42), ROOM_CLEARED),
];

fn made<H: Bytes>(rt: &impl Abort, alloc: Global, start: Start) -> H {
    match start {
        Start::Empty => H::new(),
        Start::Copied(bytes) => must(rt, H::from_slice(alloc, bytes)),
        Start::Borrowed(bytes) => H::borrowed(bytes),
        Start::Room(capacity) => must(rt, H::with_capacity(alloc, capacity)),
    }
}

fn perform<H: Bytes>(rt: &impl Abort, alloc: Global, handle: &mut H, call: Call) {
    match call {
        Call::Push(byte) => must(rt, handle.push(alloc, byte)),
        Call::PushSlice(bytes) => must(rt, handle.push_slice(alloc, bytes)),
        Call::Truncate(len) => handle.truncate(len),
        Call::Pop(answer) => equals(rt, &handle.pop(), &answer),
        Call::Clear => handle.clear(),
    }
}

fn runs<H: Bytes>(rt: &impl Abort, alloc: Global) {
    for (start, steps) in RUNS {
        let mut handle = made::<H>(rt, alloc, *start);
        for Step(call, items, kind) in *steps {
            perform(rt, alloc, &mut handle, *call);
            holds(rt, &handle, items, *kind);
        }
    }
}

/// A sole owner is written in place: each byte is copied once.
fn in_place<H: Bytes>(rt: &impl Abort, alloc: Global) {
    let mut room = must(rt, H::with_capacity(alloc, 200));
    let mut meter = Meter::new();
    must(rt, room.push_slice_metered(alloc, &[b'a'; 30], &mut meter));
    must(rt, room.push_slice_metered(alloc, &[b'b'; 30], &mut meter));
    must(rt, room.push_metered(alloc, b'c', &mut meter));
    equals(rt, &(meter.copied(), room.len()), &(61, 61));
}

/// A push of nothing leaves an allocated handle as it is, and copies nothing.
fn stays<H: Bytes>(rt: &impl Abort, alloc: Global, mut handle: H) {
    let (len, capacity) = (handle.len(), handle.capacity());
    let mut meter = Meter::new();
    must(rt, handle.push_slice_metered(alloc, b"", &mut meter));
    equals(
        rt,
        &(
            handle.kind(),
            handle.len(),
            handle.capacity(),
            meter.copied(),
        ),
        &(Kind::Allocated, len, capacity, 0),
    );
}

/// A push of nothing, on bytes that another handle shares, and on room in which nothing stands.
fn nothing_is_pushed<H: Bytes>(rt: &impl Abort, alloc: Global) {
    let letters = must(rt, H::from_slice(alloc, LETTERS));
    stays(rt, alloc, must(rt, letters.clone(alloc)));
    stays(rt, alloc, must(rt, H::with_capacity(alloc, 42)));
}

fn room_is_kept<H: Bytes>(rt: &impl Abort, alloc: Global) {
    let mut room = must(rt, H::with_capacity(alloc, 42));
    room.clear();
    equals(
        rt,
        &(room.is_normalized(), room.capacity() >= 42),
        &(false, true),
    );
    is(rt, must(rt, room.slice(alloc, 0..0)), b"", Kind::Inline);
}

fn lent_capacity<H: Bytes>(rt: &impl Abort) {
    let mut lent = H::borrowed(&[b'a'; 30]);
    lent.truncate(5);
    equals(rt, &lent.capacity(), &5);
}

/// Asserts that a part of three bytes was made, and what it holds.
fn part_is<H: Bytes, E: Drop>(rt: &impl Abort, part: Result<H, E>, items: &[u8]) {
    is(rt, must(rt, part), items, Kind::Inline);
}

fn slices_of_ranges<H: Bytes>(rt: &impl Abort, alloc: Global) {
    let handle = must(rt, H::inline(b"abc"));
    part_is(rt, handle.slice(alloc, 3..3), b"");
    part_is(rt, handle.slice_from(alloc, 3), b"");
    part_is(rt, handle.slice_to(alloc, 0), b"");
    part_is(rt, handle.slice_through(alloc, 1, 1), b"b");
    part_is(rt, handle.slice_full(alloc), b"abc");
}

fn unchecked_slices<H: Bytes>(rt: &impl Abort, alloc: Global) {
    let handle = must(rt, H::inline(b"abc"));
    part_is(rt, handle.slice_unchecked(alloc, 1..1), b"");
    part_is(rt, handle.slice_unchecked_through(alloc, 1), b"ab");
}

/// A slice of 23 bytes copies each into the new handle.
fn short_slice<H: Bytes>(rt: &impl Abort, alloc: Global) {
    let letters = must(rt, H::from_slice(alloc, LETTERS));
    let mut meter = Meter::new();
    let short = must(rt, letters.slice_metered(alloc, 0..23, &mut meter));
    drop(letters);
    is(rt, short, &LETTERS[..23], Kind::Inline);
    equals(rt, &meter.copied(), &23);
}

/// A slice of 24 bytes copies none where owners are shared, and outlives the handle that it was cut from.
fn long_slice<H: Bytes>(rt: &impl Abort, alloc: Global) {
    let letters = must(rt, H::from_slice(alloc, LETTERS));
    let mut meter = Meter::new();
    let long = must(
        rt,
        letters.slice_unchecked_metered(alloc, 0..24, &mut meter),
    );
    drop(letters);
    is(rt, long, &LETTERS[..24], Kind::Allocated);
    equals(rt, &meter.copied(), &if H::SHARES { 0 } else { 24 });
}

/// Two bounds that are a range of `abc`, and the part.
const PARTS: &[(Bound<usize>, Bound<usize>, &[u8])] = &[
    (Bound::Excluded(0), Bound::Included(2), b"bc"),
    (Bound::Excluded(2), Bound::Unbounded, b""),
];

fn bounded_parts<H: Bytes>(rt: &impl Abort, alloc: Global) {
    let handle = must(rt, H::inline(b"abc"));
    for (low, high, items) in PARTS {
        let part = must(rt, handle.try_slice_bounds(alloc, *low, *high));
        is(rt, part, items, Kind::Inline);
    }
}

struct InPlace;

impl Suite for InPlace {
    fn run<H: Bytes>(rt: &impl Abort, alloc: Global) {
        runs::<H>(rt, alloc);
        in_place::<H>(rt, alloc);
        nothing_is_pushed::<H>(rt, alloc);
        room_is_kept::<H>(rt, alloc);
        lent_capacity::<H>(rt);
    }
}

struct Slices;

impl Suite for Slices {
    fn run<H: Bytes>(rt: &impl Abort, alloc: Global) {
        slices_of_ranges::<H>(rt, alloc);
        unchecked_slices::<H>(rt, alloc);
        short_slice::<H>(rt, alloc);
        long_slice::<H>(rt, alloc);
        bounded_parts::<H>(rt, alloc);
    }
}

#[test]
fn cuts_and_pushes_in_place(rt: HostRuntime) {
    run_on_each::<InPlace>(&rt, rt.alloc());
}

#[test]
fn a_slice_outlives_its_source(rt: HostRuntime) {
    run_on_each::<Slices>(&rt, rt.alloc());
}
