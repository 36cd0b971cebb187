//! ASCII white space at each place of texts of each length up to two blocks of 64 bytes and a rest, beside a plain search.
ghost use Rattle.std.specs.Prelude.{◌≡◌};

use super::support::equals;
use super::walks::lists;
use hip_match::ranges::RangesBack;
use hip_match::white_space::SplitAsciiWhitespace;
use std::process::Abort;
use std::str;

/// The longest text.
const LONGEST: usize = 130;

/// Whether a byte is ASCII white space by the list of Rust's documentation, which lacks the vertical tab.
fn is_space(byte: u8) -> bool {
    match byte {
        b' ' | b'\t' | b'\n' | b'\x0C' | b'\r' => true,
        _ => false,
    }
}

/// The first run of bytes without white space from `from` up to `to`.
fn first_run(bytes: &[u8], from: usize, to: usize) -> Option<(usize, usize)> {
    let mut start = None;
    for (i, byte) in bytes.iter().enumerate() {
        if i < from || to <= i {
            continue;
        }
        match (is_space(*byte), start) {
            (true, Some(start)) => return Some((start, i)),
            (false, None) => start = Some(i),
            _ => {}
        }
    }
    start.map(|start| (start, to))
}

/// Like [`first_run`], the last run.
fn last_run(bytes: &[u8], from: usize, to: usize) -> Option<(usize, usize)> {
    let mut last = None;
    let mut start = None;
    for (i, byte) in bytes.iter().enumerate() {
        if i < from || to <= i {
            continue;
        }
        match (is_space(*byte), start) {
            (true, Some(begun)) => {
                last = Some((begun, i));
                start = None;
            }
            (false, None) => start = Some(i),
            _ => {}
        }
    }
    match start {
        Some(start) => Some((start, to)),
        None => last,
    }
}

/// The ends that ranges are drawn from.
#[derive(Clone, Copy)]
enum Ends {
    Front,
    Back,
    InTurn,
}

/// Asserts that the ranges, drawn from these ends until none is left, are the runs of the text.
fn agrees<R: RangesBack + Drop>(rt: &impl Abort, text: &str, mut ranges: R, ends: Ends)
    requires { R.ready ranges }
{
    let bytes = text.as_bytes();
    let mut from = 0;
    let mut to = bytes.len();
    for turn in 0..=bytes.len() {
        let from_front = match ends {
            Ends::Front => true,
            Ends::Back => false,
            Ends::InTurn => turn % 2 == 0,
        };
        let (drawn, want) = if from_front {
            (ranges.next(), first_run(bytes, from, to))
        } else {
            (ranges.next_back(), last_run(bytes, from, to))
        };
        equals(rt, &drawn, &want);
        let Some((start, end)) = want else {
            return;
        };
        if from_front {
            from = end;
        } else {
            to = start;
        }
    }
}

/// Calls [`agrees`] with each end, and with both in turn.
fn agrees_each_way(rt: &impl Abort, text: &str) {
    for ends in [Ends::Front, Ends::Back, Ends::InTurn] {
        agrees(rt, text, SplitAsciiWhitespace::new(text), ends);
    }
}

#[test]
fn one_space_at_each_place(rt: HostRuntime) {
    for len in 0..=LONGEST {
        for at in 0..=len {
            let mut bytes = [b'a'; LONGEST];
            if at < LONGEST {
                bytes[at] = b' ';
            }
            let Ok(text) = str::from_utf8(&bytes[..len]) else {
                panic!(rt; "it is no text");
            };
            agrees_each_way(&rt, text);
        }
    }
}

/// White space of each kind, alone and in runs, beside bytes that are near to it: vertical tab, zero, those of characters past ASCII.
const MIXED: &str =
    "a b\tc\nd\x0Ce\rf\x0Bg  h\r\n\r\nвеч\u{a0}ер \u{85}\u{2003} no\0 white\x08space\x0E!\x1F here   but\x7F \u{109}\u{10a}\u{10c}\u{10d}\u{120} there \
    \t\t\t\t and\nwhat\nfollows is\none\x0Cword\ra\tline\u{3000}日本 語 and a last one  of words that go on over the end of\tblocks ";

#[test]
fn each_kind_from_each_start(rt: HostRuntime) {
    for start in 0..=MIXED.len() {
        if let Some(text) = MIXED.get(start..) {
            agrees_each_way(&rt, text);
        }
        if let Some(text) = MIXED.get(..start) {
            agrees_each_way(&rt, text);
        }
    }
}

/// 40 letters, a vertical tab, 40 letters, a space, 40 letters.
const THREE: &str =
    "aaaaaaaaaaaaaaaaaaaaaaaaaaaaaaaaaaaaaaaa\x0Bbbbbbbbbbbbbbbbbbbbbbbbbbbbbbbbbbbbbbbbb cccccccccccccccccccccccccccccccccccccccc";

#[test]
fn a_vertical_tab_parts_nothing(rt: HostRuntime) {
    lists(&rt, SplitAsciiWhitespace::new(THREE), &[(0, 81), (82, 122)]);
    let mut ranges = SplitAsciiWhitespace::new(THREE);
    equals(
        &rt,
        &(ranges.next_back(), ranges.next_back(), ranges.next_back()),
        &(Some((82, 122)), Some((0, 81)), None),
    );
}
