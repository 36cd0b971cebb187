//! Ranges of bytes that needn't be UTF-8, with the answers of Rust's own `[u8]`, and of its `str` for lines, whose bytes past ASCII were
//! letters there.
use super::support::equals;
use hip_match::byte_lines::ByteLines;
use hip_match::bytes::{rsplit_once, split_once, trim_ascii, trim_ascii_end, trim_ascii_start};
use hip_match::marked_parts::SplitByte;
use hip_match::ranges::ByteRanges;
use std::process::Abort;

/// The longest row of bytes that are made: two blocks of 64 and a rest.
const LONGEST: usize = 130;

type Part = (usize, usize);

/// The end that the next range is drawn from.
#[derive(Clone, Copy)]
enum Ends {
    Front,
    Back,
    InTurn,
}

/// Asserts that these ranges are drawn, and then none.
fn draws<R: ByteRanges + Drop>(rt: &impl Abort, mut ranges: R, want: &[Part], ends: Ends)
    requires { R.ready ranges }
{
    let mut low = 0usize;
    let mut high = want.len();
    for turn in 0..=want.len() {
        let from_front = match ends {
            Ends::Front => true,
            Ends::Back => false,
            Ends::InTurn => turn % 2 == 0,
        };
        let drawn = if from_front {
            ranges.next()
        } else {
            ranges.next_back()
        };
        let expected = match (low < high, from_front) {
            (false, _) => None,
            (true, true) => want.get(low).copied(),
            (true, false) => want.get(high.saturating_sub(1)).copied(),
        };
        equals(rt, &drawn, &expected);
        if from_front {
            low = low.saturating_add(1);
        } else {
            high = high.saturating_sub(1);
        }
    }
}

fn splits(rt: &impl Abort, bytes: &[u8], byte: u8, want: &[Part]) {
    for ends in [Ends::Front, Ends::Back, Ends::InTurn] {
        draws(rt, SplitByte::between(bytes, byte), want, ends);
    }
}

fn has_lines(rt: &impl Abort, bytes: &[u8], want: &[Part]) {
    for ends in [Ends::Front, Ends::Back, Ends::InTurn] {
        draws(rt, ByteLines::new(bytes), want, ends);
    }
}

/// Bytes, a byte, and the ranges between.
#[derive(Clone, Copy)]
struct Split(&'static [u8], u8, &'static [Part]);

const SPLITS: &[Split] = &[
    Split(b"", b',', &[(0, 0)]),
    Split(b",", b',', &[(0, 0), (1, 1)]),
    Split(b"a", b',', &[(0, 1)]),
    Split(b"a,b", b',', &[(0, 1), (2, 3)]),
    Split(b",a,,b,", b',', &[(0, 0), (1, 2), (3, 3), (4, 5), (6, 6)]),
    Split(b"\xFF,\x80", b',', &[(0, 1), (2, 3)]),
    Split(b"\xC3,\xA9", b',', &[(0, 1), (2, 3)]),
    Split(b"a,\xF0\x9F,\x98", b',', &[(0, 1), (2, 4), (5, 6)]),
    Split(b"ab,cd\xFFef,g", b',', &[(0, 2), (3, 8), (9, 10)]),
    Split(b"\xFFa\xFF\xFF", 0xFF, &[(0, 0), (1, 2), (3, 3), (4, 4)]),
    Split(b"abc", 0xFF, &[(0, 3)]),
];

#[test]
fn parts_between_a_byte(rt: HostRuntime) {
    for Split(bytes, byte, want) in SPLITS {
        splits(&rt, bytes, *byte, want);
    }
}

/// Bytes, and the ranges of their lines.
#[derive(Clone, Copy)]
struct Lines(&'static [u8], &'static [Part]);

const LINES: &[Lines] = &[
    Lines(b"", &[]),
    Lines(b"\n", &[(0, 0)]),
    Lines(b"\n\n", &[(0, 0), (1, 1)]),
    Lines(b"a", &[(0, 1)]),
    Lines(b"a\n", &[(0, 1)]),
    Lines(b"a\r\n", &[(0, 1)]),
    Lines(b"a\r", &[(0, 2)]),
    Lines(b"\r", &[(0, 1)]),
    Lines(b"\r\n", &[(0, 0)]),
    Lines(b"\r\r\n", &[(0, 1)]),
    Lines(b"a\n\xFF\r\nb", &[(0, 1), (2, 3), (5, 6)]),
    Lines(b"\x80\n\n\xC3\xA9\r", &[(0, 1), (2, 2), (3, 6)]),
    Lines(b"a\r\nb\rc\n", &[(0, 1), (3, 6)]),
    Lines(b"\n\xF0", &[(0, 0), (1, 2)]),
];

#[test]
fn each_line(rt: HostRuntime) {
    for Lines(bytes, want) in LINES {
        has_lines(&rt, bytes, want);
    }
}

/// One byte at each place of bytes of each length.
#[test]
fn one_byte_at_each_place(rt: HostRuntime) {
    for len in 0..=LONGEST {
        for at in 0..len {
            let mut bytes = [0xA9; LONGEST];
            bytes[at] = b'\n';
            let bytes = &bytes[..len];
            let behind = at.saturating_add(1);
            splits(&rt, bytes, b'\n', &[(0, at), (behind, len)]);
            let lines = [(0, at), (behind, len)];
            let count = if behind < len { 2 } else { 1 };
            has_lines(&rt, bytes, &lines[..count]);
        }
    }
}

/// Bytes, and their ranges without white space at both ends, at the front, and at the end.
#[derive(Clone, Copy)]
struct Trims(&'static [u8], Part, Part, Part);

fn trim_rows() -> &'static [Trims] {
    &[
        Trims(b"", (0, 0), (0, 0), (0, 0)),
        Trims(b" ", (1, 1), (1, 1), (0, 0)),
        Trims(b"\t\n\x0C\r ", (5, 5), (5, 5), (0, 0)),
        Trims(b" a ", (1, 2), (1, 3), (0, 2)),
        Trims(b"\x0Ba\x0B", (0, 3), (0, 3), (0, 3)),
        Trims(b"\x85 a\xA0", (0, 4), (0, 4), (0, 4)),
        Trims(b" \xFF\t", (1, 2), (1, 3), (0, 2)),
        Trims(b"a b", (0, 3), (0, 3), (0, 3)),
        Trims(b"\n\n\xC2\xA0", (2, 4), (2, 4), (0, 4)),
    ]
}

#[test]
fn without_white_space(rt: HostRuntime) {
    for Trims(bytes, both, start, end) in trim_rows() {
        let found = (
            trim_ascii(bytes),
            trim_ascii_start(bytes),
            trim_ascii_end(bytes),
        );
        equals(&rt, &found, &(*both, *start, *end));
    }
}

/// Bytes, and the ranges before and behind the first `=`, and the last.
#[derive(Clone, Copy)]
struct Once(&'static [u8], Option<(Part, Part)>, Option<(Part, Part)>);

fn once_rows() -> &'static [Once] {
    &[
        Once(b"", None, None),
        Once(b"=", Some(((0, 0), (1, 1))), Some(((0, 0), (1, 1)))),
        Once(b"a", None, None),
        Once(b"a=b", Some(((0, 1), (2, 3))), Some(((0, 1), (2, 3)))),
        Once(b"=a=", Some(((0, 0), (1, 3))), Some(((0, 2), (3, 3)))),
        Once(
            b"\xFF=\x80=\xFF",
            Some(((0, 1), (2, 5))),
            Some(((0, 3), (4, 5))),
        ),
    ]
}

#[test]
fn splits_in_two(rt: HostRuntime) {
    for Once(bytes, first, last) in once_rows() {
        let found = (split_once(bytes, b'='), rsplit_once(bytes, b'='));
        equals(&rt, &found, &(*first, *last));
    }
}
