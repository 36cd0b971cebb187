//! Ranges of an owner's bytes.
use super::support::{equals, must, must_refuse};
use hip_raw::{Allocated, Appended, Backend, Meter, Rc, Unique};
use std::alloc::Global;
use std::process::Abort;

const STARS: &[u8] = &[b'*'; 42];

/// Asserts what a range holds.
fn has<B: Backend>(rt: &impl Abort, bytes: &Allocated<B>, items: &[u8]) {
    equals(
        rt,
        &(bytes.as_slice(), bytes.len(), bytes.is_empty()),
        &(items, items.len(), items.is_empty()),
    );
}

fn holds_none<B: Backend>(rt: &impl Abort, alloc: Global) {
    let empty = must(rt, Allocated::<B>::new(alloc, Vec::new(alloc)));
    has(rt, &empty, b"");
}

/// Another range of the same bytes outlives the first, and takes on more. The meter is told after either.
fn holds_bytes<B: Backend>(rt: &impl Abort, alloc: Global, copied: u128) {
    let mut meter = Meter::new();
    let whole = must(
        rt,
        Allocated::<B>::from_slice_metered(alloc, STARS, &mut meter),
    );
    has(rt, &whole, STARS);
    equals(rt, &meter.copied(), &42);
    let copy = must(rt, whole.slice_unchecked_metered(alloc, 0..42, &mut meter));
    equals(rt, &meter.copied(), &copied);
    drop(whole);
    takes_one_more(rt, alloc, copy);
}

const STARS_AND_ONE: &[u8] = b"******************************************!";

fn takes_one_more<B: Backend>(rt: &impl Abort, alloc: Global, mut bytes: Allocated<B>) {
    has(rt, &bytes, STARS);
    equals(rt, &bytes.push_slice(alloc, b"!"), &Appended::Done);
    has(rt, &bytes, STARS_AND_ONE);
    must(rt, bytes.shrink_to(alloc, 0));
    has(rt, &bytes, STARS_AND_ONE);
}

#[test]
fn each_backend_holds_bytes(rt: HostRuntime) {
    holds_none::<Rc>(&rt, rt.alloc());
    holds_none::<Unique>(&rt, rt.alloc());
    holds_bytes::<Rc>(&rt, rt.alloc(), 42);
    holds_bytes::<Unique>(&rt, rt.alloc(), 84);
}

/// 42 bytes in a vector with room for 200.
fn roomy(rt: &impl Abort, alloc: Global) -> Vec<u8> {
    let mut vec = must(rt, Vec::with_capacity(alloc, 200));
    must(rt, vec.extend_from_slice(STARS));
    vec
}

/// Writes the first byte by a closure, and the last by its position.
fn writes_ends<B: Backend>(rt: &impl Abort, bytes: &mut Allocated<B>) {
    assert_eq!(rt; bytes.len(), 42);
    let written = bytes.with_mut_slice(|bytes| {
        bytes[0] = 65;
        bytes.len()
    });
    equals(rt, &written.ok(), &Some(42));
    assert!(rt; bytes.set(41, 66));
}

fn changes_case<B: Backend>(rt: &impl Abort, bytes: &mut Allocated<B>) {
    assert!(rt; bytes.make_ascii_lowercase());
    has(rt, bytes, b"a****************************************b");
    assert!(rt; bytes.make_ascii_uppercase());
    has(rt, bytes, b"A****************************************B");
}

fn writes_lent<B: Backend>(rt: &impl Abort, bytes: &mut Allocated<B>) {
    if let Some(lent) = bytes.as_mut_slice()
        && lent.len() > 1
    {
        lent[1] = 67;
    }
    has(rt, bytes, b"AC***************************************B");
}

/// Cuts off all but the first two bytes, appends three, and gives room back.
fn cuts_and_shrinks<B: Backend>(
    rt: &impl Abort,
    alloc: Global,
    bytes: &mut Allocated<B>,
    meter: &mut Meter,
) {
    bytes.truncate(2);
    let answer = bytes.push_slice_metered(alloc, b"xyz", meter);
    equals(
        rt,
        &(answer, meter.copied(), bytes.capacity() >= 200),
        &(Appended::Done, 3, true),
    );
    has(rt, bytes, b"ACxyz");
    must(rt, bytes.shrink_to_metered(alloc, 8, meter));
    equals(
        rt,
        &(
            bytes.capacity() >= 8,
            bytes.capacity() < 200,
            meter.copied(),
        ),
        &(true, true, 8),
    );
    has(rt, bytes, b"ACxyz");
}

/// `taken` bytes are copied where a vector is taken over, and `handed` where one of 5 bytes is handed out.
fn is_written_in_place<B: Backend>(rt: &impl Abort, alloc: Global, taken: u128, handed: u128) {
    let mut bytes = takes_over::<B>(rt, alloc, taken);
    writes_ends(rt, &mut bytes);
    changes_case(rt, &mut bytes);
    writes_lent(rt, &mut bytes);
    cuts_and_shrinks(rt, alloc, &mut bytes, &mut Meter::new());
    hands_out(rt, alloc, bytes, b"ACxyz", handed);
}

fn takes_over<B: Backend>(rt: &impl Abort, alloc: Global, taken: u128) -> Allocated<B> {
    let mut meter = Meter::new();
    let vec = roomy(rt, alloc);
    let bytes = must(rt, Allocated::<B>::new_metered(alloc, vec, &mut meter));
    has(rt, &bytes, STARS);
    equals(
        rt,
        &(bytes.capacity() >= 200, meter.copied()),
        &(true, taken),
    );
    bytes
}

/// Asserts that the only range of an owner hands out its vector, which copies so many bytes.
fn hands_out<B: Backend>(
    rt: &impl Abort,
    alloc: Global,
    bytes: Allocated<B>,
    items: &[u8],
    handed: u128,
) {
    let mut meter = Meter::new();
    let vec = must(rt, bytes.try_into_vec_metered(alloc, &mut meter));
    equals(rt, &(vec.as_slice(), meter.copied()), &(items, handed));
}

#[test]
fn a_sole_owner_is_written_in_place(rt: HostRuntime) {
    is_written_in_place::<Rc>(&rt, rt.alloc(), 0, 0);
    is_written_in_place::<Unique>(&rt, rt.alloc(), 42, 5);
}

/// Asserts that no byte is written, since another range shares the owner.
fn is_not_written<B: Backend>(rt: &impl Abort, alloc: Global, bytes: &mut Allocated<B>) {
    let mut meter = Meter::new();
    let answer = bytes.push_slice_metered(alloc, b"x", &mut meter);
    equals(rt, &(answer, meter.copied()), &(Appended::Shared, 0));
    let is_refused = bytes.with_mut_slice(|_| ()).is_err();
    let is_lent = bytes.as_mut_slice().is_some();
    assert_eq!(rt; bytes.len(), 42);
    equals(rt, &(is_refused, is_lent), &(true, false));
    assert!(rt; !bytes.set(0, 65));
    has(rt, bytes, STARS);
}

#[test]
fn a_shared_owner_is_not_written(rt: HostRuntime) {
    let mut bytes = must(&rt, Allocated::<Rc>::from_slice(rt.alloc(), STARS));
    {
        let _other = must(&rt, bytes.slice_unchecked(rt.alloc(), 0..5));
        is_not_written(&rt, rt.alloc(), &mut bytes);
    }
    assert_eq!(rt; bytes.len(), 42);
    assert!(rt; bytes.set(0, 65));
}

/// Asserts that a range hands out no vector, and gives it back.
fn handed_back<B: Backend>(
    rt: &impl Abort,
    alloc: Global,
    bytes: Allocated<B>,
    items: &[u8],
) -> Allocated<B> {
    let back = must_refuse(rt, bytes.try_into_vec(alloc));
    has(rt, &back, items);
    back
}

/// A slice with a position is handed back, and so is a shared owner, until the slice is dropped.
#[test]
fn a_vector_comes_back(rt: HostRuntime) {
    let alloc = rt.alloc();
    let vec = must(&rt, vec![in alloc; 0, 1, 2]);
    let whole = must(&rt, Allocated::<Rc>::new(alloc, vec));
    let slice = must(&rt, whole.slice_unchecked(alloc, 1..2));
    let slice = handed_back(&rt, alloc, slice, &[1]);
    let whole = handed_back(&rt, alloc, whole, &[0, 1, 2]);
    drop(slice);
    is_whole(&rt, alloc, whole);
}

fn is_whole<B: Backend>(rt: &impl Abort, alloc: Global, whole: Allocated<B>) {
    let vec = must(rt, whole.try_into_vec(alloc));
    equals(rt, &vec.as_slice(), &[0, 1, 2].as_slice());
}

/// Writes over the first byte, where no other range shares the owner, and says whether it did.
fn writes_held<B: Backend>(bytes: &mut Allocated<B>) -> bool {
    let Some(mut held) = bytes.sole() else {
        return false;
    };
    let written = held.with_mut_slice(|bytes| {
        if let Some(first) = bytes.first_mut() {
            *first = b'+';
        }
    });
    written.is_ok() && held.as_slice().first() == Some(&b'+')
}

fn is_held_when_sole<B: Backend>(rt: &impl Abort, alloc: Global) {
    let mut whole = must(rt, Allocated::<B>::from_slice(alloc, STARS));
    let other = must(rt, whole.slice_unchecked(alloc, 0..42));
    let alone = writes_held(&mut whole);
    let first = whole.as_slice().first().copied();
    equals(
        rt,
        &(alone, first),
        &(!B::SHARES, Some(if alone { b'+' } else { b'*' })),
    );
    has(rt, &other, STARS);
    drop(other);
    assert!(rt; writes_held(&mut whole));
    equals(rt, &whole.as_slice().first(), &Some(&b'+'));
}

#[test]
fn bytes_are_held_where_no_other_range_shares_them(rt: HostRuntime) {
    is_held_when_sole::<Rc>(&rt, rt.alloc());
    is_held_when_sole::<Unique>(&rt, rt.alloc());
}
