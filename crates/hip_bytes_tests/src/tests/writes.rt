//! Bytes that are lent for writing, and ASCII case.
use super::bytes::Bytes;
use super::suite::{Suite, run_on_each};
use super::support::{LETTERS, equals, holds, is, must};
use hip_bytes::{Kind, Meter};
use std::alloc::Global;
use std::process::Abort;

const CAPITALS: &[u8] = b"ABCDEFGHIJKLMNOPQRSTUVWXYZ";

/// Turns the bytes round where they are lent for writing, which they are where no other handle shares them.
fn turns_round<H: Bytes>(rt: &impl Abort, handle: &mut H) {
    let is_sole = !H::SHARES;
    equals(
        rt,
        &(
            handle.as_mut_slice().is_some(),
            handle.with_mut_slice_reverse().is_some(),
        ),
        &(is_sole, is_sole),
    );
}

/// Writes over the bytes, in a copy where they are shared, and says how many were copied.
fn written_over<H: Bytes>(rt: &impl Abort, alloc: Global, handle: &mut H) -> u128 {
    let mut meter = Meter::new();
    must(
        rt,
        handle.with_to_mut_slice_metered_uppercase(alloc, &mut meter),
    );
    let bytes = must(rt, handle.to_mut_slice(alloc));
    if let Some(first) = bytes.first_mut() {
        *first = b'!';
    }
    meter.copied()
}

/// A write through one handle doesn't show in its clone.
fn beside_a_clone<H: Bytes>(rt: &impl Abort, alloc: Global) {
    let mut whole = must(rt, H::from_slice(alloc, LETTERS));
    let clone = must(rt, whole.clone(alloc));
    turns_round(rt, &mut whole);
    let copied = written_over(rt, alloc, &mut whole);
    let (wanted, wanted_copied): (&[u8], u128) = if H::SHARES {
        (b"!BCDEFGHIJKLMNOPQRSTUVWXYZ", 26)
    } else {
        (b"!YXWVUTSRQPONMLKJIHGFEDCBA", 0)
    };
    equals(rt, &copied, &wanted_copied);
    is(rt, whole, wanted, Kind::Allocated);
    is(rt, clone, LETTERS, Kind::Allocated);
}

fn other_case<H: Bytes>(rt: &impl Abort, alloc: Global) {
    let letters = must(rt, H::from_slice(alloc, LETTERS));
    let upper = must(rt, letters.to_ascii_uppercase(alloc));
    let lower = must(rt, upper.to_ascii_lowercase(alloc));
    is(rt, upper, CAPITALS, Kind::Allocated);
    is(rt, lower, LETTERS, Kind::Allocated);
    is(rt, letters, LETTERS, Kind::Allocated);
}

fn case_of_lent_bytes<H: Bytes>(rt: &impl Abort, alloc: Global) {
    let mut lent = H::borrowed(b"[a\xE9Z]");
    assert!(rt; lent.as_mut_slice().is_none());
    must(rt, lent.make_ascii_uppercase(alloc));
    holds(rt, &lent, b"[A\xE9Z]", Kind::Inline);
    must(rt, lent.make_ascii_lowercase(alloc));
    is(rt, lent, b"[a\xE9z]", Kind::Inline);
}

/// Lent bytes are written over in a copy, by length, and are as they were.
fn over_lent_bytes<H: Bytes>(
    rt: &impl Abort,
    alloc: Global,
    bytes: &'static [u8],
    items: &[u8],
    kind: Kind,
) {
    let lent = H::borrowed(bytes);
    let mut written = must(rt, lent.clone(alloc));
    if let Some(first) = must(rt, written.to_mut_slice(alloc)).first_mut() {
        *first = b'b';
    }
    is(rt, written, items, kind);
    is(rt, lent, bytes, Kind::Borrowed);
}

fn in_the_handle<H: Bytes>(rt: &impl Abort) {
    let mut short = must(rt, H::inline(b"abc"));
    match short.as_mut_slice() {
        Some(bytes) => bytes.reverse(),
        None => panic!(rt; "bytes in the handle are lent"),
    }
    is(rt, short, b"cba", Kind::Inline);
}

struct Writes;

impl Suite for Writes {
    fn run<H: Bytes>(rt: &impl Abort, alloc: Global) {
        beside_a_clone::<H>(rt, alloc);
        other_case::<H>(rt, alloc);
        case_of_lent_bytes::<H>(rt, alloc);
        over_lent_bytes::<H>(
            rt,
            alloc,
            &[b'a'; 23],
            b"baaaaaaaaaaaaaaaaaaaaaa",
            Kind::Inline,
        );
        over_lent_bytes::<H>(
            rt,
            alloc,
            &[b'a'; 24],
            b"baaaaaaaaaaaaaaaaaaaaaaa",
            Kind::Allocated,
        );
        in_the_handle::<H>(rt);
    }
}

#[test]
fn no_write_shows_in_a_clone(rt: HostRuntime) {
    run_on_each::<Writes>(&rt, rt.alloc());
}
