//! Sets of characters of ASCII, beside Rust's own tests of a byte, and the bits of their marks.
use super::support::equals;
use super::walks::Walk::{Matches, RSplit, Split};
use super::walks::walks;
use hip_match::ascii_set::AsciiSet;
use hip_match::bits::{lowest, without_lowest};
use std::process::Abort;

const BLOCK: usize = 64;

/// Asserts that a set has these of the 64 bytes from `at` on.
fn marks(rt: &impl Abort, set: AsciiSet, bytes: &[u8; 256], at: usize, want: u64) {
    if at <= bytes.len() - BLOCK {
        equals(rt, &set.marks(bytes, at), &want);
    }
}

#[test]
fn each_byte_belongs_as_rust_tells_it(rt: HostRuntime) {
    let mut bytes = [0; 256];
    for byte in 0..=255u8 {
        bytes[byte as usize] = byte;
    }
    for block in 0..4 {
        let at = BLOCK * block;
        let (mut letters, mut digits, mut spaces, mut signs, mut others) = (0, 0, 0, 0, 0);
        for k in 0..BLOCK {
            let byte = bytes[at + k];
            let bit = 1u64 << k;
            if byte.is_ascii_alphabetic() {
                letters |= bit;
            }
            if byte.is_ascii_digit() {
                digits |= bit;
            }
            if byte.is_ascii_whitespace() {
                spaces |= bit;
            }
            if byte == b',' || byte == b'~' {
                signs |= bit;
            }
            if byte.is_ascii() && !byte.is_ascii_alphabetic() && !byte.is_ascii_whitespace() {
                others |= bit;
            }
        }
        let both = AsciiSet::alphabetic().union(AsciiSet::whitespace());
        marks(&rt, AsciiSet::new(), &bytes, at, 0);
        marks(&rt, AsciiSet::alphabetic(), &bytes, at, letters);
        marks(&rt, AsciiSet::alphanumeric(), &bytes, at, letters | digits);
        marks(&rt, AsciiSet::whitespace(), &bytes, at, spaces);
        marks(
            &rt,
            AsciiSet::new().with(b',').with(b'~'),
            &bytes,
            at,
            signs,
        );
        marks(&rt, both, &bytes, at, letters | spaces);
        marks(&rt, both.complement(), &bytes, at, others);
    }
}

#[test]
fn by_a_set_of_ascii(rt: HostRuntime) {
    let signs = AsciiSet::new().with(b',').with(b';');
    walks(&rt, Split, "a,bé;;😀", signs, &["a", "bé", "", "😀"]);
    walks(&rt, RSplit, "a,bé;;😀", signs, &["😀", "", "bé", "a"]);
    walks(&rt, Matches, "a,bé;;😀", signs, &[",", ";", ";"]);
    walks(&rt, Split, "a,b", AsciiSet::new(), &["a,b"]);
}

#[test]
fn the_lowest_bit(rt: HostRuntime) {
    equals(&rt, &lowest(0), &None);
    equals(&rt, &lowest(0b1010_0000), &Some(5));
    equals(&rt, &lowest(1 << 63), &Some(63));
    equals(&rt, &without_lowest(0b1010_0000), &0b1000_0000);
    equals(&rt, &without_lowest(u64::MAX), &(u64::MAX - 1));
    equals(&rt, &without_lowest(0), &0);
}
