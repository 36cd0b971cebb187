//! Makers, views and clones.
use super::bytes::Bytes;
use super::suite::{Suite, run_on_each};
use super::support::{LETTERS, equals, holds, is, must, must_refuse};
use hip_bytes::{Kind, Meter};
use std::alloc::Global;
use std::cmp::Ordering;
use std::process::Abort;

/// Asserts where a handle that owns `len` bytes keeps them.
fn is_by_length<H: Bytes>(rt: &impl Abort, handle: H, len: usize) {
    let is_short = len <= 23;
    equals(
        rt,
        &(
            handle.len(),
            handle.is_inline(),
            handle.is_allocated(),
            handle.is_borrowed(),
        ),
        &(len, is_short, !is_short, false),
    );
    has_room(rt, handle, is_short);
}

fn has_room<H: Bytes>(rt: &impl Abort, handle: H, is_short: bool) {
    let room = if is_short {
        Ordering::Equal
    } else {
        Ordering::Greater
    };
    equals(
        rt,
        &(handle.is_normalized(), handle.capacity().cmp(&23)),
        &(true, room),
    );
}

const LETTERS_A: [&[u8]; 3] = [&[b'a'; 22], &[b'a'; 23], &[b'a'; 24]];

fn lengths_and_kinds<H: Bytes>(rt: &impl Abort, alloc: Global) {
    for bytes in LETTERS_A {
        let len = bytes.len();
        equals(rt, &H::try_inline(bytes).is_some(), &(len <= 23));
        is_by_length(rt, must(rt, H::from_slice(alloc, bytes)), len);
        let vec = must(rt, bytes.to_vec(alloc));
        is_by_length(rt, must(rt, H::from_vec(alloc, vec)), len);
    }
}

fn inline_values<H: Bytes>(rt: &impl Abort) {
    is(rt, H::default(), b"", Kind::Inline);
    let handle = must(rt, H::inline(b"abc"));
    equals(
        rt,
        &(H::inline_capacity(), handle.as_slice_of_trait()),
        &(23, b"abc".as_slice()),
    );
}

fn short_clone<H: Bytes>(rt: &impl Abort, alloc: Global) {
    let mut meter = Meter::new();
    let handle = must(rt, H::from_slice(alloc, b"a"));
    let clone = must(rt, handle.clone_metered(alloc, &mut meter));
    drop(handle);
    is(rt, clone, b"a", Kind::Inline);
    equals(rt, &meter.copied(), &1);
}

const STARS: &[u8] = &[b'*'; 42];

/// A clone outlives what it was cloned from, and is no borrowed value.
fn long_clone<H: Bytes>(rt: &impl Abort, alloc: Global) {
    let handle = must(rt, H::from_slice(alloc, STARS));
    let clone = must(rt, handle.clone(alloc));
    drop(handle);
    holds(rt, &clone, STARS, Kind::Allocated);
    assert!(rt; clone.as_borrowed().is_none());
    is(
        rt,
        must_refuse(rt, clone.into_borrowed()),
        STARS,
        Kind::Allocated,
    );
}

fn lent_bytes<H: Bytes>(rt: &impl Abort) {
    let lent = H::from_static(LETTERS);
    let shown = lent.as_borrowed();
    equals(
        rt,
        &(shown, lent.into_borrowed().ok()),
        &(Some(LETTERS), Some(LETTERS)),
    );
}

/// A part of lent bytes is lent too, until it is owned.
fn part_of_lent_bytes<H: Bytes>(rt: &impl Abort, alloc: Global) {
    let part = must(rt, H::borrowed(&[b'a'; 30]).try_slice(alloc, 5..10));
    equals(rt, &part.as_borrowed(), &Some(b"aaaaa".as_slice()));
    is(rt, must(rt, part.into_owned(alloc)), b"aaaaa", Kind::Inline);
}

fn least_and_greatest_room<H: Bytes>(rt: &impl Abort, alloc: Global) {
    assert!(rt; H::with_capacity(alloc, usize::MAX).is_err());
    let least = must(rt, H::with_capacity(alloc, 23));
    is(rt, least, b"", Kind::Inline);
}

struct Makers;

impl Suite for Makers {
    fn run<H: Bytes>(rt: &impl Abort, alloc: Global) {
        lengths_and_kinds::<H>(rt, alloc);
        inline_values::<H>(rt);
        short_clone::<H>(rt, alloc);
        long_clone::<H>(rt, alloc);
        lent_bytes::<H>(rt);
        part_of_lent_bytes::<H>(rt, alloc);
        least_and_greatest_room::<H>(rt, alloc);
    }
}

#[test]
fn bytes_lie_by_their_length(rt: HostRuntime) {
    run_on_each::<Makers>(&rt, rt.alloc());
}
