//! Room that a name has, and what it gives back.
use super::name::Name;
use super::support::{equals, must};
use std::alloc::Global;
use std::process::Abort;

const LONG: &str = "aaaaaaaaaaaaaaaaaaaaaaaaaaaaaaaaaaaaaaaaaa";

fn rooms<N: Name>(rt: &impl Abort, alloc: Global) {
    let mut string = must(rt, String::with_capacity(alloc, 42));
    for _ in 0..10 {
        must(rt, string.push_str("abc"));
    }
    let taken = must(rt, N::from_string(alloc, string));
    let (copied, lent) = (must(rt, N::from_str(alloc, "abc")), N::from_static("abc"));
    equals(
        rt,
        &(copied.capacity(), lent.capacity(), taken.capacity() >= 30),
        &(23, 3, true),
    );
}

fn shrinks<N: Name>(rt: &impl Abort, alloc: Global) {
    for (text, least, most) in [("abc", 23, 23), (LONG, 42, usize::MAX)] {
        let mut name = must(rt, N::from_str(alloc, text));
        must(rt, name.shrink_to(alloc, 4));
        must(rt, name.shrink_to_fit(alloc));
        let room = name.capacity();
        equals(rt, &(room >= least, room <= most), &(true, true));
        equals(rt, &name.bytes(), &text.as_bytes());
    }
}

fn shrinks_lent<N: Name>(rt: &impl Abort, alloc: Global) {
    let mut name = N::from_static("abc");
    must(rt, name.shrink_to(alloc, 0));
    let room = name.capacity();
    must(rt, name.shrink_to_fit(alloc));
    equals(rt, &(room, name.capacity()), &(3, 3));
}

/// These tests of an OS string or of a path.
pub(crate) fn of_either<N: Name>(rt: &impl Abort, alloc: Global) {
    rooms::<N>(rt, alloc);
    shrinks::<N>(rt, alloc);
    shrinks_lent::<N>(rt, alloc);
}
