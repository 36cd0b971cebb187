//! The benchmark of hip_match: walks over the ranges of a text, which bench/walks.rs measures beside those of Rust's `str`.
//!
//! Each function makes the same walk `rounds` times and answers the sum of the lengths of its ranges, one more for each. A C caller
//! passes a text as a pointer and a length. Where it isn't UTF-8, or the pattern lacks a character, the answer is 0.
#![tactic(auto)]

use hip_match::lines::Lines;
use hip_match::matches::Matches;
use hip_match::pattern::{OneChar, ReversePattern};
use hip_match::ranges::{Ranges, RangesBack};
use hip_match::rsplit::RSplit;
use hip_match::split::{Split, SplitInclusive};
use hip_match::trim::{trim_end_matches, trim_start_matches};
use hip_match::white_space::{SplitAsciiWhitespace, SplitWhitespace};
use std::str;

/// The sum over all ranges. It isn't inlined, so that no two walks share a loop.
#[inline(never)]
fn drained<R: Ranges + Drop>(mut ranges: R) -> u64
    requires { R.ready ranges }
{
    let mut sum = 0u64;
    while let Some((start, end)) = ranges.next() {
        sum = sum
            .wrapping_add((end as u64).wrapping_sub(start as u64))
            .wrapping_add(1);
    }
    sum
}

/// Like [`drained`], from the back.
#[inline(never)]
fn drained_back<R: RangesBack + Drop>(mut ranges: R) -> u64
    requires { R.ready ranges }
{
    let mut sum = 0u64;
    while let Some((start, end)) = ranges.next_back() {
        sum = sum
            .wrapping_add((end as u64).wrapping_sub(start as u64))
            .wrapping_add(1);
    }
    sum
}

fn length(range: (usize, usize)) -> u64 {
    (range.1 as u64)
        .wrapping_sub(range.0 as u64)
        .wrapping_add(1)
}

/// A walk by a pattern, from the numbers that the driver passes.
fn walk_by<P: ReversePattern + Copy>(walk: u32, text: &str, pattern: P) -> u64
    requires { P.can_search pattern }
{
    match walk {
        0 => drained(Split::new(text, pattern)),
        1 => drained(RSplit::new(text, pattern)),
        2 => drained(SplitInclusive::new(text, pattern)),
        3 => drained(Matches::new(text, pattern)),
        _ => 0,
    }
}

/// A walk or a trim by a pattern of one character.
fn walk_by_one<P: OneChar + Copy>(walk: u32, text: &str, pattern: P) -> u64
    requires { P.can_search pattern }
{
    match walk {
        4 => length(trim_start_matches(text, pattern)),
        5 => length(trim_end_matches(text, pattern)),
        _ => walk_by(walk, text, pattern),
    }
}

/// A walk by a text.
#[unsafe(no_mangle)]
pub extern "C" fn hip_walk_text(walk: u32, input: &[u8], pattern: &[u8], rounds: u64) -> u64 {
    let (Ok(text), Ok(pattern)) = (str::from_utf8(input), str::from_utf8(pattern)) else {
        return 0;
    };
    let mut sum = 0u64;
    for _ in 0..rounds {
        sum = sum.wrapping_add(walk_by(walk, text, pattern));
    }
    sum
}

/// A walk by the first character of a text.
#[unsafe(no_mangle)]
pub extern "C" fn hip_walk_char(walk: u32, input: &[u8], pattern: &[u8], rounds: u64) -> u64 {
    let (Ok(text), Ok(pattern)) = (str::from_utf8(input), str::from_utf8(pattern)) else {
        return 0;
    };
    let Some(one) = pattern.chars().next() else {
        return 0;
    };
    let mut sum = 0u64;
    for _ in 0..rounds {
        sum = sum.wrapping_add(walk_by_one(walk, text, one));
    }
    sum
}

/// A walk by the first two characters of a text.
#[unsafe(no_mangle)]
pub extern "C" fn hip_walk_set(walk: u32, input: &[u8], pattern: &[u8], rounds: u64) -> u64 {
    let (Ok(text), Ok(pattern)) = (str::from_utf8(input), str::from_utf8(pattern)) else {
        return 0;
    };
    let mut chars = pattern.chars();
    let (Some(one), Some(other)) = (chars.next(), chars.next()) else {
        return 0;
    };
    let set = [one, other];
    let mut sum = 0u64;
    for _ in 0..rounds {
        sum = sum.wrapping_add(walk_by_one(walk, text, &set));
    }
    sum
}

/// A walk without a pattern.
#[unsafe(no_mangle)]
pub extern "C" fn hip_walk(walk: u32, input: &[u8], rounds: u64) -> u64 {
    let Ok(text) = str::from_utf8(input) else {
        return 0;
    };
    let mut sum = 0u64;
    for _ in 0..rounds {
        let one = match walk {
            6 => drained(Lines::new(text)),
            7 => drained(SplitWhitespace::new(text)),
            8 => drained(SplitAsciiWhitespace::new(text)),
            9 => drained_back(SplitAsciiWhitespace::new(text)),
            _ => 0,
        };
        sum = sum.wrapping_add(one);
    }
    sum
}
