//! One match at each place of texts of each length up to two blocks of 64 bytes and a rest, from either end.
use super::walks::lists;
use hip_match::matches::Matches;
use hip_match::rmatches::RMatches;
use std::process::Abort;
use std::str;

/// The longest text.
const LONGEST: usize = 130;

/// Needles of one byte to five, and characters of two bytes to four. The dash of some is each other byte of the texts.
const NEEDLES: &[&str] = &[
    ",", "-a", "--b", " - ", "\0\0\0\0", "---c", " --> ", "é", "。", "😀",
];

/// Asserts that the only match of a text of `len` dashes, in which the needle stands from `at` on, is that one, if all of it is there.
fn one_match(rt: &impl Abort, len: usize, at: usize, needle: &'static str) {
    let mut bytes = [b'-'; LONGEST];
    for (i, byte) in needle.as_bytes().iter().enumerate() {
        if let Some(place) = bytes.get_mut(at.saturating_add(i)) {
            *place = *byte;
        }
    }
    let Some(part) = bytes.get(..len) else {
        return;
    };
    // The end of a text may leave a part of a character, which is no text.
    let Ok(text) = str::from_utf8(part) else {
        return;
    };
    let end = at.saturating_add(needle.len());
    let all = [(at, end)];
    let want = &all[..(end <= len) as usize];
    lists(rt, Matches::new(text, needle), want);
    lists(rt, RMatches::new(text, needle), want);
    let mut chars = needle.chars();
    if let (Some(only), None) = (chars.next(), chars.next()) {
        lists(rt, Matches::new(text, only), want);
        lists(rt, RMatches::new(text, only), want);
    }
}

#[test]
fn one_match_at_each_place(rt: HostRuntime) {
    for needle in NEEDLES {
        for len in 0..=LONGEST {
            for at in 0..=len {
                one_match(&rt, len, at, *needle);
            }
        }
    }
}
