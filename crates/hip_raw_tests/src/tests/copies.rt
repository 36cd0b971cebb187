//! Counted copies, and vectors that are filled.
use super::support::{equals, must};
use hip_raw::{
    Allocated, Filling, Meter, OwnerFilling, Unique, copy_counted, copy_with_capacity,
    extend_counted, fill_counted,
};
use std::alloc::Global;
use std::process::Abort;

#[test]
fn room_is_filled(rt: HostRuntime) {
    let mut meter = Meter::default();
    let mut room = [0; 3];
    fill_counted(&mut room, b"abc", &mut meter);
    equals(&rt, &(room, meter.copied()), &([97, 98, 99], 3));
}

#[test]
fn copies_are_counted(rt: HostRuntime) {
    let stars = [b'*'; 42];
    let mut meter = Meter::new();
    fill_counted(&mut [0; 3], b"abc", &mut meter);
    let vec = must(&rt, copy_counted(rt.alloc(), &stars, &mut meter));
    equals(
        &rt,
        &(vec.as_slice(), meter.copied()),
        &(stars.as_slice(), 45),
    );
    let mut roomy = must(&rt, copy_with_capacity(rt.alloc(), b"abc", 30, &mut meter));
    must(&rt, extend_counted(&mut roomy, b"de", &mut meter));
    equals(
        &rt,
        &(roomy.as_slice(), roomy.capacity() >= 30, meter.copied()),
        &(b"abcde".as_slice(), true, 50),
    );
}

/// Six bytes, in room for six.
fn filled(rt: &impl Abort, alloc: Global, meter: &mut Meter) -> Filling {
    let mut filling = must(rt, Filling::with_capacity(alloc, 6));
    filling.push_slice_within(b"abc", meter);
    filling.push_front_within(2, meter);
    must(rt, filling.push_behind(b"", b"!", meter));
    filling
}

#[test]
fn a_vector_is_filled(rt: HostRuntime) {
    let mut meter = Meter::new();
    let mut filling = filled(&rt, rt.alloc(), &mut meter);
    equals(&rt, &(filling.len(), filling.capacity() >= 6), &(6, true));
    must(
        &rt,
        filling.push_behind(b", ", b"and more than six", &mut meter),
    );
    let mut sum = Meter::new();
    sum.add(&meter);
    sum.add(&meter);
    equals(
        &rt,
        &(filling.into_vec().as_slice(), sum.copied()),
        &(b"abcab!, and more than six".as_slice(), 50),
    );
}

#[test]
fn an_owner_is_filled_where_its_bytes_stay(rt: HostRuntime) {
    let mut meter = Meter::new();
    let mut filling = must(
        &rt,
        OwnerFilling::<Unique>::with_len(rt.alloc(), 7, &mut meter),
    );
    filling.push_behind_within(b"", b"abc", &mut meter);
    filling.push_behind_within(b", ", b"de", &mut meter);
    let filled = filling.into_allocated();
    equals(
        &rt,
        &(filled.as_slice(), filled.capacity(), meter.copied()),
        &(b"abc, de".as_slice(), 7, 7),
    );
    let empty = must(&rt, Allocated::<Unique>::with_capacity(rt.alloc(), 30));
    equals(&rt, &(empty.len(), empty.capacity() >= 30), &(0, true));
}
