//! Conversions into vectors and borrowed-or-owned values, and back.
use super::bytes::Bytes;
use super::suite::{Suite, run_on_each};
use super::support::{LETTERS, equals, is, must, must_refuse};
use hip_bytes::Kind;
use std::alloc::Global;
use std::borrow::CowSlice;
use std::process::Abort;

/// A value of so many letters `a`, from a vector.
fn from_letters<H: Bytes>(rt: &impl Abort, alloc: Global, count: usize) -> H {
    let vec = must(rt, vec![in alloc; b'a'; count]);
    must(rt, H::from_vec(alloc, vec))
}

fn is_vector(rt: &impl Abort, vec: Vec<u8>, items: &[u8]) {
    equals(rt, &vec.as_slice(), &items);
}

/// A vector of the bytes of any value, by a copy where need be.
fn vectors<H: Bytes>(rt: &impl Abort, alloc: Global) {
    let stars = must(rt, vec![in alloc; 0x2A; 42]);
    let long = must(rt, H::from_vec(alloc, stars));
    is_vector(rt, must(rt, long.into_vec_copied(alloc)), &[0x2A; 42]);
    let short = must(rt, H::from_slice(alloc, &[1, 2, 3]));
    is_vector(rt, must(rt, short.into_vec_copied(alloc)), &[1, 2, 3]);
}

fn lent_bytes_stay_so<H: Bytes>(rt: &impl Abort, alloc: Global) {
    match H::from_static(b"abc").into_cow(alloc) {
        Ok(CowSlice::Borrowed(bytes)) => equals(rt, &bytes, &b"abc".as_slice()),
        _ => panic!(rt; "lent bytes stay so"),
    }
}

fn copied_bytes_go_into_a_vector<H: Bytes>(rt: &impl Abort, alloc: Global) {
    match must(rt, H::from_slice(alloc, b"abc")).into_cow(alloc) {
        Ok(CowSlice::Owned(vec)) => is_vector(rt, vec, b"abc"),
        _ => panic!(rt; "copied bytes go into a vector"),
    }
}

/// Asserts that a value hands out no vector, and comes back as it was.
fn is_handed_back<H: Bytes>(rt: &impl Abort, alloc: Global, handle: H, items: &[u8], kind: Kind) {
    is(rt, must_refuse(rt, handle.into_vec(alloc)), items, kind);
}

/// Asserts that a value hands out its vector.
fn hands_out<H: Bytes>(rt: &impl Abort, alloc: Global, handle: H, items: &[u8]) {
    is_vector(rt, must(rt, handle.into_vec(alloc)), items);
}

/// A vector is handed out where no other handle shares the owner; else the value comes back.
fn of_a_shared_owner<H: Bytes>(rt: &impl Abort, alloc: Global) {
    let whole = from_letters::<H>(rt, alloc, 26);
    let clone = must(rt, whole.clone(alloc));
    if H::SHARES {
        is_handed_back(rt, alloc, clone, &[b'a'; 26], Kind::Allocated);
    } else {
        hands_out(rt, alloc, clone, &[b'a'; 26]);
    }
    hands_out(rt, alloc, whole, &[b'a'; 26]);
}

/// A value with no owner hands out none.
fn of_no_owner<H: Bytes>(rt: &impl Abort, alloc: Global) {
    let short = from_letters::<H>(rt, alloc, 3);
    is_handed_back(rt, alloc, short, b"aaa", Kind::Inline);
    is_handed_back(rt, alloc, H::borrowed(LETTERS), LETTERS, Kind::Borrowed);
}

fn owned<H: Bytes>(rt: &impl Abort, alloc: Global) {
    let owned = must(rt, H::borrowed(LETTERS).into_owned(alloc));
    is(rt, owned, LETTERS, Kind::Allocated);
}

struct Conversions;

impl Suite for Conversions {
    fn run<H: Bytes>(rt: &impl Abort, alloc: Global) {
        vectors::<H>(rt, alloc);
        lent_bytes_stay_so::<H>(rt, alloc);
        copied_bytes_go_into_a_vector::<H>(rt, alloc);
        owned::<H>(rt, alloc);
    }
}

#[test]
fn vectors_go_in_and_out(rt: HostRuntime) {
    run_on_each::<Conversions>(&rt, rt.alloc());
}

struct HandedBack;

impl Suite for HandedBack {
    fn run<H: Bytes>(rt: &impl Abort, alloc: Global) {
        of_a_shared_owner::<H>(rt, alloc);
        of_no_owner::<H>(rt, alloc);
    }
}

/// A body that always hands the value back is proved: no contract counts owners.
#[test]
fn a_shared_owner_hands_out_no_vector(rt: HostRuntime) {
    run_on_each::<HandedBack>(&rt, rt.alloc());
}
