//! Order, equality and maps.
use super::bytes::Bytes;
use super::maps::{found, found_in_order};
use super::suite::{Suite, run_on_each};
use super::support::{equals, must, text_of};
use std::alloc::Global;
use std::cmp::Ordering;
use std::process::Abort;

/// Values compare by their bytes, wherever these lie.
fn order<H: Bytes>(rt: &impl Abort, alloc: Global) {
    let lent = H::borrowed(b"abc");
    let copied = must(rt, H::from_slice(alloc, b"abd"));
    equals(
        rt,
        &(
            lent.cmp(&lent),
            lent.cmp(&copied),
            copied.cmp(&lent),
            lent < copied,
        ),
        &(Ordering::Equal, Ordering::Less, Ordering::Greater, true),
    );
}

fn order_of_slices<H: Bytes>(rt: &impl Abort) {
    let lent = H::from_static(b"abc");
    equals(
        rt,
        &(
            lent.cmp_slice(b"abc"),
            lent.cmp_slice(b"abd"),
            lent.eq_slice(b"abd"),
        ),
        &(Ordering::Equal, Ordering::Less, false),
    );
}

fn other_backend<H: Bytes>(rt: &impl Abort, alloc: Global) {
    let copied = must(rt, H::from_slice(alloc, b"abd"));
    equals(
        rt,
        &(copied.eq_with(b"abc"), copied.cmp_with(b"abc")),
        &(false, Ordering::Greater),
    );
}

fn debug<H: Bytes>(rt: &impl Abort, alloc: Global) {
    let said = must(rt, text_of(alloc, &H::borrowed(b"abc")));
    equals(rt, &said.as_str(), &"[97, 98, 99]");
}

fn found_by_hash<H: Bytes>(rt: &impl Abort, alloc: Global) {
    let key = must(rt, H::inline(b"abc"));
    let (same, other) = (H::borrowed(b"abc"), H::borrowed(b"abd"));
    let ages = found(alloc, key, &same, &other);
    equals(rt, &ages, &Some((Some(7), None)));
}

fn found_by_order<H: Bytes>(rt: &impl Abort, alloc: Global) {
    let key = must(rt, H::inline(b"abc"));
    let age = found_in_order(alloc, key, &H::borrowed(b"abc"));
    equals(rt, &age, &Some(7));
}

struct Comparisons;

impl Suite for Comparisons {
    fn run<H: Bytes>(rt: &impl Abort, alloc: Global) {
        order::<H>(rt, alloc);
        order_of_slices::<H>(rt);
        other_backend::<H>(rt, alloc);
        debug::<H>(rt, alloc);
        found_by_hash::<H>(rt, alloc);
        found_by_order::<H>(rt, alloc);
    }
}

#[test]
fn values_compare_by_their_bytes(rt: HostRuntime) {
    run_on_each::<Comparisons>(&rt, rt.alloc());
}
