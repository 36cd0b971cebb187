//! 32 spaces by each maker: equal wherever they lie, and different from a part of them.
use super::bytes::Bytes;
use super::suite::{Suite, run_on_each};
use super::support::{equals, holds, must};
use hip_bytes::Kind;
use std::alloc::Global;
use std::borrow::CowSlice;
use std::process::Abort;

const SPACES: &[u8] = &[0x20; 32];

/// Asserts that a value has the bytes, and equals a value of another backend and its clone.
fn is_spaces<H: Bytes>(rt: &impl Abort, alloc: Global, handle: &H) {
    let clone = must(rt, handle.clone(alloc));
    equals(
        rt,
        &(
            handle.eq_slice(SPACES),
            handle.eq_with(SPACES),
            *handle == clone,
        ),
        &(true, true, true),
    );
}

/// Asserts that a value differs from its first four bytes.
fn differs_from_front<H: Bytes>(rt: &impl Abort, alloc: Global, handle: &H) {
    let front = must(rt, handle.try_slice(alloc, 0..4));
    assert!(rt; *handle != front);
}

/// How a value of the bytes is made.
#[derive(Clone, Copy)]
enum Maker {
    Slice,
    Borrowed,
    Vector,
    LentCow,
    OwnedCow,
}

/// Each maker, and where its bytes lie.
const MAKERS: &[(Maker, Kind)] = &[
    (Maker::Slice, Kind::Allocated),
    (Maker::Borrowed, Kind::Borrowed),
    (Maker::Vector, Kind::Allocated),
    (Maker::LentCow, Kind::Borrowed),
    (Maker::OwnedCow, Kind::Allocated),
];

fn vector(rt: &impl Abort, alloc: Global) -> Vec<u8> {
    must(rt, SPACES.to_vec(alloc))
}

fn made<H: Bytes>(rt: &impl Abort, alloc: Global, maker: Maker) -> H {
    match maker {
        Maker::Slice => must(rt, H::from_slice(alloc, SPACES)),
        Maker::Borrowed => H::borrowed(SPACES),
        Maker::Vector => must(rt, H::from_vec(alloc, vector(rt, alloc))),
        Maker::LentCow => must(rt, H::from_cow(alloc, CowSlice::Borrowed(SPACES))),
        Maker::OwnedCow => must(rt, H::from_cow(alloc, CowSlice::Owned(vector(rt, alloc)))),
    }
}

/// Asserts that a value equals that of each maker.
fn equals_each<H: Bytes>(rt: &impl Abort, alloc: Global, handle: &H) {
    for (maker, _) in MAKERS {
        let other = made::<H>(rt, alloc, *maker);
        assert!(rt; *handle == other);
    }
}

struct Spaces;

impl Suite for Spaces {
    fn run<H: Bytes>(rt: &impl Abort, alloc: Global) {
        for (maker, kind) in MAKERS {
            let handle = made::<H>(rt, alloc, *maker);
            holds(rt, &handle, SPACES, *kind);
            is_spaces(rt, alloc, &handle);
            differs_from_front(rt, alloc, &handle);
            equals_each(rt, alloc, &handle);
        }
    }
}

#[test]
fn makers_of_the_same_bytes_are_equal(rt: HostRuntime) {
    run_on_each::<Spaces>(&rt, rt.alloc());
}
