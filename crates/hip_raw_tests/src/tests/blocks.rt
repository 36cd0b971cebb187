//! Comparisons and ASCII case at each place of bytes of each length up to two blocks of 64 and a rest, beside loops that go byte by byte;
//! comparisons of some longer ones too.
ghost use Rattle.std.specs.Prelude.{◌≤◌};

use super::support::equals;
use hip_raw::{common_prefix, equal, make_ascii_lowercase, make_ascii_uppercase, order};
use std::cmp::Ordering;
use std::process::Abort;

/// The greatest length up to which each is tried.
const LONGEST: usize = 130;

/// Lengths of up to two stretches of 256 bytes, with blocks and rests behind them.
const LONGER: &[usize] = &[256, 257, 321, 512, 600];

/// The greatest of [`LONGER`].
const COMPARED: usize = 600;

/// Whether the bytes are the same, by a plain loop.
fn plainly_equal(a: &[u8], b: &[u8]) -> bool {
    for (x, y) in a.iter().zip(b) {
        if x != y {
            return false;
        }
    }
    a.len() == b.len()
}

/// The order of the bytes, by a plain loop.
fn plainly_ordered(a: &[u8], b: &[u8]) -> Ordering {
    for (x, y) in a.iter().zip(b) {
        if x != y {
            return x.cmp(y);
        }
    }
    a.len().cmp(&b.len())
}

/// The length of the prefix that both have in common, by a plain loop.
fn plainly_common(a: &[u8], b: &[u8]) -> usize {
    let mut common = 0usize;
    for (x, y) in a.iter().zip(b) {
        if x != y {
            return common;
        }
        common = common.saturating_add(1);
    }
    common
}

/// Asserts that `equal`, `order` and `common_prefix` agree with the plain loops, each way round.
fn compares(rt: &impl Abort, a: &[u8], b: &[u8]) {
    equals(
        rt,
        &(equal(a, b), equal(b, a)),
        &(plainly_equal(a, b), plainly_equal(b, a)),
    );
    equals(
        rt,
        &(order(a, b), order(b, a)),
        &(plainly_ordered(a, b), plainly_ordered(b, a)),
    );
    equals(
        rt,
        &(common_prefix(a, b), common_prefix(b, a)),
        &(plainly_common(a, b), plainly_common(b, a)),
    );
}

/// Bytes that go on from 7, so that no two near each other are the same.
fn counted() -> [u8; COMPARED] {
    let mut bytes = [7u8; COMPARED];
    for i in 1..COMPARED {
        bytes[i] = bytes[i - 1].wrapping_add(29);
    }
    bytes
}

/// Compares the first `len` bytes with themselves, and with those that differ from them at one place.
fn one_byte_differs_of(rt: &impl Abort, bytes: &[u8; COMPARED], len: usize) {
    let len = len.min(COMPARED);
    compares(rt, &bytes[..len], &bytes[..len]);
    for at in 0..len {
        let mut other = *bytes;
        other[at] = other[at].wrapping_add(100);
        compares(rt, &bytes[..len], &other[..len]);
    }
}

#[test]
fn one_byte_differs(rt: HostRuntime) {
    let bytes = counted();
    for len in 0..=LONGEST {
        one_byte_differs_of(&rt, &bytes, len);
    }
    for len in LONGER {
        one_byte_differs_of(&rt, &bytes, *len);
    }
}

/// Compares the first `len` bytes with those that differ from them at two places as far from either end: one has the least byte, the other
/// the greatest.
fn two_bytes_differ_of(rt: &impl Abort, bytes: &[u8; COMPARED], len: usize) {
    let len = len.min(COMPARED);
    for at in 0..len {
        let mut other = *bytes;
        other[at] = 0;
        other[len - 1 - at] = 0xFF;
        compares(rt, &bytes[..len], &other[..len]);
    }
}

#[test]
fn two_bytes_differ(rt: HostRuntime) {
    let bytes = counted();
    for len in 0..=LONGEST {
        two_bytes_differ_of(&rt, &bytes, len);
    }
    for len in LONGER {
        two_bytes_differ_of(&rt, &bytes, *len);
    }
}

/// The first `len` bytes, or all where there are fewer.
fn front_of(bytes: &[u8; COMPARED], len: usize) -> &[u8] {
    &bytes[..len.min(COMPARED)]
}

#[test]
fn one_ends_before_the_other(rt: HostRuntime) {
    let bytes = counted();
    for len in 0..=LONGEST {
        for front in 0..len {
            compares(&rt, front_of(&bytes, len), front_of(&bytes, front));
        }
    }
    for len in LONGER {
        for front in LONGER {
            compares(&rt, front_of(&bytes, *len), front_of(&bytes, *front));
        }
    }
}

/// A byte with an ASCII letter in the other case, by the ranges of the standard.
fn upper(byte: u8) -> u8 {
    match byte {
        b'a'..=b'z' => byte - 32,
        _ => byte,
    }
}

fn lower(byte: u8) -> u8 {
    match byte {
        b'A'..=b'Z' => byte + 32,
        _ => byte,
    }
}

/// Asserts that each byte of the first `len` is moved by itself.
fn moves_letters(rt: &impl Abort, bytes: &[u8; LONGEST], len: usize)
    requires { len ≤ 130 }
{
    let (mut ups, mut lows) = (*bytes, *bytes);
    make_ascii_uppercase(&mut ups[..len]);
    make_ascii_lowercase(&mut lows[..len]);
    for i in 0..LONGEST {
        let want = if i < len {
            (upper(bytes[i]), lower(bytes[i]))
        } else {
            (bytes[i], bytes[i])
        };
        equals(rt, &(ups[i], lows[i]), &want);
    }
}

#[test]
fn one_letter_at_each_place(rt: HostRuntime) {
    for len in 0..=LONGEST {
        for at in 0..len {
            let mut bytes = [b'!'; LONGEST];
            bytes[at] = b'q';
            bytes[len - 1 - at] = b'Z';
            moves_letters(&rt, &bytes, len);
        }
    }
}

#[test]
fn every_byte(rt: HostRuntime) {
    for first in 0..=255u8 {
        let mut bytes = [first; LONGEST];
        for i in 1..LONGEST {
            bytes[i] = bytes[i - 1].wrapping_add(1);
        }
        moves_letters(&rt, &bytes, LONGEST);
    }
}

/// Bytes at the edges of the letters, seven times over.
const EDGES: [u8; 10] = [0x40, 0x41, 0x5A, 0x5B, 0x60, 0x61, 0x7A, 0x7B, 0xC1, 0xE1];

const LOWERED: [u8; 10] = [0x40, 0x61, 0x7A, 0x5B, 0x60, 0x61, 0x7A, 0x7B, 0xC1, 0xE1];

const RAISED: [u8; 10] = [0x40, 0x41, 0x5A, 0x5B, 0x60, 0x41, 0x5A, 0x7B, 0xC1, 0xE1];

#[test]
fn the_edges_of_the_letters(rt: HostRuntime) {
    let mut lows = [0; 70];
    for i in 0..70 {
        lows[i] = EDGES[i % 10];
    }
    let mut ups = lows;
    make_ascii_lowercase(&mut lows);
    make_ascii_uppercase(&mut ups);
    for i in 0..70 {
        equals(&rt, &(lows[i], ups[i]), &(LOWERED[i % 10], RAISED[i % 10]));
    }
}
