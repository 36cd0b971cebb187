//! Repetitions, joins and room that is given back.
use super::bytes::Bytes;
use super::suite::{Suite, run_on_each};
use super::support::{LETTERS, equals, holds, is, must};
use hip_bytes::{GrowFault, Kind, Meter};
use std::alloc::Global;
use std::process::Abort;

/// Bytes, how often they are repeated, and what that makes, and where.
const REPEATED: &[(&[u8], usize, &[u8], Kind)] = &[
    (b"ab", 0, b"", Kind::Inline),
    (b"ab", 3, b"ababab", Kind::Inline),
    (b"ab", 12, b"abababababababababababab", Kind::Allocated),
    (b"", usize::MAX, b"", Kind::Inline),
];

fn repetitions<H: Bytes>(rt: &impl Abort, alloc: Global) {
    for (bytes, count, items, kind) in REPEATED {
        let handle = must(rt, H::from_slice(alloc, bytes));
        let repeated = must(rt, handle.repeat(alloc, *count));
        is(rt, repeated, items, *kind);
    }
}

/// Bytes, how often they can't be repeated, and why: a length that is no number, or one that no block has.
const REFUSED: &[(&[u8], usize, GrowFault)] = &[
    (b"ab", usize::MAX, GrowFault::TooLong),
    (b"ab", 1 << 63, GrowFault::TooLong),
    (b"a", usize::MAX, GrowFault::Memory),
];

fn too_long<H: Bytes>(rt: &impl Abort, alloc: Global) {
    for (bytes, count, fault) in REFUSED {
        let handle = must(rt, H::inline(bytes));
        equals(rt, &handle.repeat(alloc, *count).err(), &Some(*fault));
    }
}

fn once<H: Bytes>(rt: &impl Abort, alloc: Global) {
    let once = must(rt, H::borrowed(LETTERS).repeat(alloc, 1));
    is(rt, once, LETTERS, Kind::Borrowed);
}

/// Asserts the length of a value, and how many bytes were copied for it.
fn is_counted<H: Bytes>(rt: &impl Abort, counted: H, meter: &Meter, len: usize, copied: usize) {
    equals(rt, &(counted.len(), meter.copied()), &(len, copied as u128));
}

/// The number of bytes that are copied where `len` gather in a vector, which is copied to an owner that can't be shared.
fn gathered<H: Bytes>(len: usize) -> usize {
    if H::SHARES {
        len
    } else {
        len.saturating_mul(2)
    }
}

fn twice<H: Bytes>(rt: &impl Abort, alloc: Global) {
    let mut meter = Meter::new();
    let twice = must(
        rt,
        H::borrowed(LETTERS).repeat_metered(alloc, 2, &mut meter),
    );
    is_counted(rt, twice, &meter, 52, gathered::<H>(52));
}

const PIECES: [&[u8]; 3] = [b"ab", b"", b"c"];

fn joined_pieces<H: Bytes>(rt: &impl Abort, alloc: Global) {
    let joined = must(rt, H::join_slices(alloc, &PIECES, b"-"));
    is(rt, joined, b"ab--c", Kind::Inline);
    let joined = must(rt, H::join(alloc, PIECES, b"-"));
    is(rt, joined, b"ab--c", Kind::Inline);
    let none = must(rt, H::join_slices(alloc, &[], b"-"));
    is(rt, none, b"", Kind::Inline);
}

/// Three pieces, what they make, and where.
const CONCATENATED: &[([&[u8]; 3], &[u8], Kind)] = &[
    (PIECES, b"abc", Kind::Inline),
    ([b"", b"", b""], b"", Kind::Inline),
    ([&[b'a'; 11], b"", &[b'a'; 12]], &[b'a'; 23], Kind::Inline),
    (
        [&[b'a'; 12], &[b'a'; 12], b""],
        &[b'a'; 24],
        Kind::Allocated,
    ),
];

fn concatenated<H: Bytes>(rt: &impl Abort, alloc: Global) {
    for (pieces, items, kind) in CONCATENATED {
        is(rt, must(rt, H::concat_slices(alloc, pieces)), items, *kind);
        is(rt, must(rt, H::concat(alloc, *pieces)), items, *kind);
    }
    is(
        rt,
        must(rt, H::concat_slices(alloc, &[])),
        b"",
        Kind::Inline,
    );
}

const LINES: [&[u8]; 2] = [LETTERS, LETTERS];

const LETTERS_TWICE: &[u8] = b"abcdefghijklmnopqrstuvwxyz, abcdefghijklmnopqrstuvwxyz";

fn long_joins<H: Bytes>(rt: &impl Abort, alloc: Global) {
    let mut meter = Meter::new();
    let joined = must(rt, H::join_two_metered(alloc, LINES, b", ", &mut meter));
    holds(rt, &joined, LETTERS_TWICE, Kind::Allocated);
    let part = must(rt, joined.try_slice(alloc, 26..30));
    is(rt, part, b", ab", Kind::Inline);
    is_counted(rt, joined, &meter, 54, gathered::<H>(54));
}

fn long_joins_of_slices<H: Bytes>(rt: &impl Abort, alloc: Global) {
    let mut meter = Meter::new();
    let joined = must(rt, H::join_slices_metered(alloc, &LINES, b", ", &mut meter));
    holds(rt, &joined, LETTERS_TWICE, Kind::Allocated);
    is_counted(rt, joined, &meter, 54, 54);
}

/// The letters, in room that was 200 bytes and was given back to 100.
fn roomy<H: Bytes>(rt: &impl Abort, alloc: Global) -> H {
    let mut room = must(rt, H::with_capacity(alloc, 200));
    must(rt, room.push_slice(alloc, LETTERS));
    must(rt, room.shrink_to(alloc, 100));
    room
}

fn shrinks<H: Bytes>(rt: &impl Abort, alloc: Global) {
    let mut room = roomy::<H>(rt, alloc);
    let before = room.capacity();
    must(rt, room.shrink_to_fit(alloc));
    equals(
        rt,
        &(before >= 100, before <= 200, room.capacity() < 100),
        &(true, true, true),
    );
    is(rt, room, LETTERS, Kind::Allocated);
}

fn shrinks_into_the_handle<H: Bytes>(rt: &impl Abort, alloc: Global) {
    let mut room = roomy::<H>(rt, alloc);
    must(rt, room.shrink_to_fit(alloc));
    room.truncate(23);
    must(rt, room.shrink_to_fit(alloc));
    is(rt, room, &LETTERS[..23], Kind::Inline);
}

const TWENTY_FOUR: &[u8] = &[b'a'; 24];

/// Asserts that no more room is left than there was, and no less than was asked for, or is needed, where there was as much.
fn shrinks_to<H: Bytes>(rt: &impl Abort, alloc: Global, room: &mut H, least: usize) {
    let before = room.capacity();
    must(rt, room.shrink_to(alloc, least));
    let after = room.capacity();
    assert!(rt; (after <= before) & (before.min(least.max(24)) <= after));
    holds(rt, room, TWENTY_FOUR, Kind::Allocated);
}

/// 24 bytes in room for 100: asked for more room than there is, for half, and for none, they stay where they are.
fn shrinks_by_steps<H: Bytes>(rt: &impl Abort, alloc: Global) {
    let mut room = must(rt, H::with_capacity(alloc, 100));
    must(rt, room.push_slice(alloc, TWENTY_FOUR));
    for least in [usize::MAX, 50, 0] {
        shrinks_to(rt, alloc, &mut room, least);
    }
}

fn repetitions_on<H: Bytes>(rt: &impl Abort, alloc: Global) {
    repetitions::<H>(rt, alloc);
    too_long::<H>(rt, alloc);
    once::<H>(rt, alloc);
    twice::<H>(rt, alloc);
}

fn joins_on<H: Bytes>(rt: &impl Abort, alloc: Global) {
    joined_pieces::<H>(rt, alloc);
    concatenated::<H>(rt, alloc);
    long_joins::<H>(rt, alloc);
    long_joins_of_slices::<H>(rt, alloc);
}

struct Joins;

impl Suite for Joins {
    fn run<H: Bytes>(rt: &impl Abort, alloc: Global) {
        repetitions_on::<H>(rt, alloc);
        joins_on::<H>(rt, alloc);
        shrinks::<H>(rt, alloc);
        shrinks_by_steps::<H>(rt, alloc);
        shrinks_into_the_handle::<H>(rt, alloc);
    }
}

#[test]
fn joins_and_repetitions_lie_by_their_length(rt: HostRuntime) {
    run_on_each::<Joins>(&rt, rt.alloc());
}
