//! Bytes in the handle itself, and lent bytes.
use super::support::{equals, must};
use hip_raw::{Borrowed, Inline, Meter};
use std::process::Abort;

/// Asserts what the handle has, and how many bytes were copied so far.
fn has(rt: &impl Abort, inline: &Inline<23>, items: &[u8], meter: &Meter, copied: u128) {
    equals(
        rt,
        &(inline.as_slice(), inline.len(), meter.copied()),
        &(items, items.len(), copied),
    );
}

#[test]
fn inline_bytes(rt: HostRuntime) {
    let mut meter = Meter::new();
    let abc = must(&rt, Inline::<23>::new_metered(b"abc", &mut meter).ok_or(()));
    has(&rt, &abc, b"abc", &meter, 3);
    let mut copy = abc.clone_metered(&mut meter);
    has(&rt, &copy, b"abc", &meter, 6);
    copy.push_slice_unchecked_metered(b"def", &mut meter);
    has(&rt, &copy, b"abcdef", &meter, 9);
    has(&rt, &abc, b"abc", &meter, 9);
    equals(&rt, &abc.capacity(), &23);
}

#[test]
fn inline_writes(rt: HostRuntime) {
    let abcdef = Inline::<23>::new_unchecked(b"abcdef");
    let mut copy = must(&rt, abcdef.clone());
    copy.as_mut_slice()[0] = b'x';
    equals(&rt, &copy.as_slice(), &b"xbcdef".as_slice());
    copy.truncate(2);
    equals(
        &rt,
        &(copy.as_slice(), abcdef.as_slice()),
        &(b"xb".as_slice(), b"abcdef".as_slice()),
    );
}

#[test]
fn inline_limits(rt: HostRuntime) {
    let stars = [b'*'; 24];
    equals(
        &rt,
        &(
            Inline::<23>::new(&stars).is_none(),
            Inline::<23>::new(&stars[..23]).is_some(),
            Inline::<23>::empty().is_empty(),
        ),
        &(true, true, true),
    );
    let mut two = Inline::<23>::new_unchecked(b"ab");
    two.push_slice_unchecked(b"cd");
    equals(&rt, &two.as_slice(), &b"abcd".as_slice());
}

/// A list of each number of bytes that it can hold.
#[test]
fn inline_of_each_length(rt: HostRuntime) {
    let letters = b"abcdefghijklmnopqrstuvwxyzABCDEFGHIJKLMNOPQRSTUVWXYZ0123456789+/";
    for len in 0..65 {
        let inline = Inline::<64>::new_unchecked(&letters[..len]);
        equals(&rt, &inline.as_slice(), &&letters[..len]);
    }
}

const LETTERS: &[u8; 40] = b"abcdefghijklmnopqrstuvwxyzABCDEFGHIJKLMN";

/// The parts of a list from each position on, and of a handle's bytes, of each length that fits: near its end and far from it.
#[test]
fn inline_parts(rt: HostRuntime) {
    let letters = LETTERS.as_slice();
    for start in 0..41usize {
        for end in start..(start + 23).min(40) + 1 {
            let mut meter = Meter::new();
            let part = Inline::<23>::part_unchecked_metered(letters, start, end, &mut meter);
            has(
                &rt,
                &part,
                &letters[start..end],
                &meter,
                (end - start) as u128,
            );
        }
    }
    let whole = Inline::<23>::new_unchecked(&letters[..23]);
    for start in 0..24usize {
        for end in start..24 {
            let mut meter = Meter::new();
            let part = whole.slice_unchecked_metered(start, end, &mut meter);
            has(
                &rt,
                &part,
                &letters[start..end],
                &meter,
                (end - start) as u128,
            );
        }
    }
    let four = Inline::<4>::part_unchecked_metered(letters, 2, 6, &mut Meter::new());
    equals(&rt, &four.as_slice(), &b"cdef".as_slice());
}

#[test]
fn inline_zeros(rt: HostRuntime) {
    let five = Inline::<23>::zeroed(5);
    equals(
        &rt,
        &(five.as_slice(), Inline::<23>::zeroed(0).len()),
        &([0_u8; 5].as_slice(), 0),
    );
}

#[test]
fn borrowed_bytes(rt: HostRuntime) {
    let mut abc = Borrowed::new(b"abc");
    let copy = abc;
    abc.truncate(2);
    equals(
        &rt,
        &(abc.as_slice(), copy.len(), copy.is_empty()),
        &(b"ab".as_slice(), 3, false),
    );
}
