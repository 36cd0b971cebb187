//! The contracts of an owner of bytes.
use super::support::{equals, must, must_refuse};
use hip_raw::{Appended, Backend, Meter, Rc, Room, Unique};
use std::alloc::Global;
use std::process::Abort;

/// An owner of the byte 1, and one that is its part. `copied` bytes are copied for both.
fn parted<B: Backend>(rt: &impl Abort, alloc: Global, meter: &mut Meter, copied: u128) -> (B, B) {
    let vec = must(rt, vec![in alloc; 1]);
    let first = must(rt, B::own(alloc, vec, meter));
    let (second, position) = must(rt, first.part(alloc, 0, 1, meter));
    equals(rt, &(position, meter.copied()), &(0, copied));
    equals(
        rt,
        &(first.as_slice(), second.as_slice()),
        &([1].as_slice(), [1].as_slice()),
    );
    (first, second)
}

/// Asserts that an owner hands out its vector.
fn hands_out<B: Backend>(
    rt: &impl Abort,
    alloc: Global,
    owner: B,
    items: &[u8],
    meter: &mut Meter,
) {
    let vec = must(rt, owner.try_into_vec(alloc, meter));
    equals(rt, &vec.as_slice(), &items);
}

/// Writes the first byte, if the owner is a sole one and has one.
fn writes<B: Backend>(owner: &mut B, byte: u8) {
    if let Some(sole) = owner.writable()
        && let Some(first) = Room::as_mut_slice(sole).first_mut()
    {
        *first = byte;
    }
}

/// Where nothing is shared, both hand out the byte that they were given, and both are written in place.
fn both_are_sole(rt: &impl Abort, alloc: Global) {
    let mut meter = Meter::new();
    let (mut first, mut second) = parted::<Unique>(rt, alloc, &mut meter, 2);
    equals(
        rt,
        &(first.writable().is_some(), second.writable().is_some()),
        &(true, true),
    );
    hands_out(rt, alloc, first, &[1], &mut meter);
    hands_out(rt, alloc, second, &[1], &mut meter);
}

/// Asserts that a shared owner hands out no vector, and lets go of it.
fn lets_go<B: Backend>(rt: &impl Abort, alloc: Global, owner: B, meter: &mut Meter) {
    drop(must_refuse(rt, owner.try_into_vec(alloc, meter)));
}

/// Where one owner is shared, the first hands out the byte once the second is gone.
fn the_last_is_sole(rt: &impl Abort, alloc: Global) {
    let mut meter = Meter::new();
    let (mut first, mut second) = parted::<Rc>(rt, alloc, &mut meter, 0);
    equals(
        rt,
        &(first.writable().is_none(), second.writable().is_none()),
        &(true, true),
    );
    lets_go(rt, alloc, second, &mut meter);
    assert!(rt; first.writable().is_some());
    hands_out(rt, alloc, first, &[1], &mut meter);
    equals(rt, &meter.copied(), &0);
}

#[test]
fn an_owner_hands_out_the_byte_that_it_was_given(rt: HostRuntime) {
    both_are_sole(&rt, rt.alloc());
    the_last_is_sole(&rt, rt.alloc());
}

/// A write in a part that has an owner of its own doesn't show in the owner that it was taken from.
#[test]
fn an_owner_of_its_own_is_written_alone(rt: HostRuntime) {
    let alloc = rt.alloc();
    let (first, mut second) = parted::<Unique>(&rt, alloc, &mut Meter::new(), 2);
    writes(&mut second, 2);
    equals(
        &rt,
        &(first.as_slice(), second.as_slice()),
        &([1].as_slice(), [2].as_slice()),
    );
    hands_out(&rt, alloc, second, &[2], &mut Meter::new());
}

#[test]
fn the_last_owner_is_written_in_place(rt: HostRuntime) {
    let alloc = rt.alloc();
    let mut meter = Meter::new();
    let (mut first, second) = parted::<Rc>(&rt, alloc, &mut meter, 0);
    drop(second);
    equals(
        &rt,
        &first.append(alloc, 0, b"ab", &mut meter),
        &Appended::Done,
    );
    hands_out(&rt, alloc, first, b"ab", &mut meter);
    equals(&rt, &meter.copied(), &2);
}
