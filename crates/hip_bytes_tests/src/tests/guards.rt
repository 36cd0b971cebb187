//! Bytes that are taken out, or lent out by a guard, as a vector.
use super::bytes::Bytes;
use super::suite::{Suite, run_on_each};
use super::support::{LETTERS, equals, holds, is, must, text_of};
use hip_bytes::{HipByt, Kind, Meter, Rc, mutate, with_mutated};
use std::alloc::Global;
use std::process::Abort;

/// Takes the bytes out, which leaves none, and puts them back with more behind them.
fn takes_and_puts<H: Bytes>(rt: &impl Abort, alloc: Global, handle: &mut H, addition: &[u8]) {
    let mut meter = Meter::new();
    let (mut vec, block) = must(rt, handle.lend_vec_metered(alloc, &mut meter));
    holds(rt, handle, b"", Kind::Inline);
    must(rt, vec.extend_from_slice(addition));
    must(rt, handle.put_back_metered(alloc, block, vec, &mut meter));
}

fn takes_a_vector<H: Bytes>(rt: &impl Abort, alloc: Global) {
    let mut handle = must(rt, H::from_slice(alloc, b"Hello, World!"));
    takes_and_puts(rt, alloc, &mut handle, b"!");
    holds(rt, &handle, b"Hello, World!!", Kind::Inline);
    takes_and_puts(rt, alloc, &mut handle, LETTERS);
    is(
        rt,
        handle,
        b"Hello, World!!abcdefghijklmnopqrstuvwxyz",
        Kind::Allocated,
    );
}

/// Adds the byte through the vector that is lent, and asserts what the handle then holds.
fn adds<H: Bytes>(
    rt: &impl Abort,
    alloc: Global,
    handle: &mut H,
    byte: u8,
    items: &[u8],
    kind: Kind,
) {
    let mut guard = must(rt, handle.mutate(alloc));
    must(rt, guard.as_mut_vec().push(byte));
    let lent = must(rt, guard.as_vec().as_slice().to_vec(alloc));
    must(rt, guard.finish(alloc));
    equals(rt, &lent.as_slice(), &items);
    holds(rt, handle, items, kind);
}

/// Adds a byte to the vector that is lent, and never writes it back: the handle is left with none.
fn lets_go<H: Bytes>(rt: &impl Abort, alloc: Global, handle: &mut H) {
    {
        let mut guard = must(rt, mutate(handle, alloc));
        must(rt, guard.as_mut_vec().push(b'!'));
    }
    holds(rt, handle, b"", Kind::Inline);
}

/// Cuts the vector that a closure is handed to five bytes.
fn shortens<H: Bytes>(rt: &impl Abort, alloc: Global, handle: &mut H) {
    must(
        rt,
        with_mutated(handle, alloc, |vec: &mut Vec<u8>| vec.truncate(5)),
    );
}

fn lends_a_vector<H: Bytes>(rt: &impl Abort, alloc: Global) {
    let mut handle = must(rt, H::from_slice(alloc, b"Hello, World!"));
    adds(
        rt,
        alloc,
        &mut handle,
        b'!',
        b"Hello, World!!",
        Kind::Inline,
    );
    lets_go(rt, alloc, &mut handle);
}

fn shows_a_vector<H: Bytes>(rt: &impl Abort, alloc: Global) {
    let mut handle = must(rt, H::inline(b"ab"));
    let guard = must(rt, handle.mutate(alloc));
    let text = must(rt, text_of(alloc, &guard));
    equals(rt, &text.as_str(), &"[97, 98]");
}

const MANY: &[u8] = &[b'a'; 42];

const ONE_MORE: &[u8] = b"aaaaaaaaaaaaaaaaaaaaaaaaaaaaaaaaaaaaaaaaaab";

/// A write through a guard doesn't show in a clone.
fn lends_a_shared_list<H: Bytes>(rt: &impl Abort, alloc: Global) {
    let mut handle = must(rt, H::from_slice(alloc, MANY));
    let clone = must(rt, handle.clone(alloc));
    adds(rt, alloc, &mut handle, b'b', ONE_MORE, Kind::Allocated);
    holds(rt, &clone, MANY, Kind::Allocated);
    lets_go(rt, alloc, &mut handle);
    is(rt, clone, MANY, Kind::Allocated);
}

const LETTERS_AND_ONE: &[u8] = b"abcdefghijklmnopqrstuvwxyz1";

const TAIL_AND_TWO: &[u8] = b"bcdefghijklmnopqrstuvwxyz12";

const TAIL_AND_THREE: &[u8] = b"bcdefghijklmnopqrstuvwxy3";

/// The letters and a digit, all but the first, of which no other handle is left.
fn sole_tail<H: Bytes>(rt: &impl Abort, alloc: Global) -> H {
    let mut handle = must(rt, H::from_slice(alloc, LETTERS));
    adds(
        rt,
        alloc,
        &mut handle,
        b'1',
        LETTERS_AND_ONE,
        Kind::Allocated,
    );
    must(rt, handle.try_slice(alloc, 1..))
}

fn lends_a_sole_list<H: Bytes>(rt: &impl Abort, alloc: Global) {
    let mut tail = sole_tail::<H>(rt, alloc);
    adds(rt, alloc, &mut tail, b'2', TAIL_AND_TWO, Kind::Allocated);
    tail.truncate(24);
    adds(rt, alloc, &mut tail, b'3', TAIL_AND_THREE, Kind::Allocated);
    shortens(rt, alloc, &mut tail);
    is(rt, tail, b"bcdef", Kind::Inline);
}

struct Guards;

impl Suite for Guards {
    fn run<H: Bytes>(rt: &impl Abort, alloc: Global) {
        takes_a_vector::<H>(rt, alloc);
        lends_a_vector::<H>(rt, alloc);
        shows_a_vector::<H>(rt, alloc);
        lends_a_shared_list::<H>(rt, alloc);
        lends_a_sole_list::<H>(rt, alloc);
    }
}

#[test]
fn a_closure_writes(rt: HostRuntime) {
    let mut handle = must(&rt, HipByt::<Rc>::from_slice(rt.alloc(), b"Hello"));
    let pushed = handle.with_mutated(rt.alloc(), |vec: &mut Vec<u8>| vec.push(b'!'));
    must(&rt, must(&rt, pushed));
    equals(&rt, &handle.as_slice(), &b"Hello!".as_slice());
}

#[test]
fn a_guard_writes_back_when_it_is_finished(rt: HostRuntime) {
    run_on_each::<Guards>(&rt, rt.alloc());
}
