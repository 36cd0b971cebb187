//! Texts that are trimmed, stripped and parted. Where the input isn't a text, the answer is 0.
use crate::pieces::{owned, put};
use crate::ring::Ring;
use hipstr::Rc;
use hipstr::string::{HipStr, TextCuts};
use std::alloc::{AllocError, Global};

/// The characters on both sides of a line's content.
const MARGINS: &[char] = &['-', ' ', '\t'];

/// How a line is cut.
#[derive(Clone, Copy)]
enum Cut {
    Trim,
    TrimMatches,
    StripPrefix,
}

/// The part of a line that a cut leaves.
#[inline(always)]
fn left<'b>(
    line: &HipStr<'b, Rc>,
    alloc: Global,
    cut: Cut,
) -> Result<Option<HipStr<'b, Rc>>, AllocError> {
    match cut {
        Cut::Trim => Ok(Some(line.trim(alloc)?)),
        Cut::TrimMatches => Ok(Some(line.trim_matches(alloc, MARGINS)?)),
        Cut::StripPrefix => line.strip_prefix(alloc, "key="),
    }
}

/// The lines of the input.
pub(crate) fn lines<'b>(alloc: Global, input: &[u8]) -> Option<Vec<HipStr<'b, Rc>>> {
    let text = owned(alloc, input)?;
    text.lines(alloc).collect().ok()
}

/// Each round cuts every line.
#[inline(always)]
fn cut_lines(alloc: Global, input: &[u8], cut: Cut, rounds: u64) -> Option<u64> {
    let lines = lines(alloc, input)?;
    let mut ring = Ring::new(alloc).ok()?;
    let mut sum = 0u64;
    for _ in 0..rounds {
        for line in &lines {
            if let Some(piece) = left(line, alloc, cut).ok()? {
                sum = sum.wrapping_add(put(&mut ring, piece));
            }
        }
    }
    Some(ring.fold(sum))
}

/// Puts what lies before each comma.
fn walk<'b>(alloc: Global, text: HipStr<'b, Rc>, ring: &mut Ring<'b, Rc>) -> Option<u64> {
    let mut rest = text;
    let mut sum = 0u64;
    for _ in 0..u64::MAX {
        let Some((front, back)) = rest.split_once(alloc, ',').ok()? else {
            break;
        };
        sum = sum.wrapping_add(put(ring, front));
        rest = back;
    }
    Some(sum)
}

/// Each round goes from comma to comma by cuts at the first one.
fn walked(alloc: Global, input: &[u8], rounds: u64) -> Option<u64> {
    let text = owned(alloc, input)?;
    let mut ring = Ring::new(alloc).ok()?;
    let mut sum = 0u64;
    for _ in 0..rounds {
        sum = sum.wrapping_add(walk(alloc, text.clone(alloc).ok()?, &mut ring)?);
    }
    Some(ring.fold(sum))
}

#[unsafe(no_mangle)]
pub extern "C" fn hip_split_once_walk(alloc: Global, input: &[u8], rounds: u64) -> u64 {
    walked(alloc, input, rounds).unwrap_or(0)
}

#[unsafe(no_mangle)]
pub extern "C" fn hip_trim(alloc: Global, input: &[u8], rounds: u64) -> u64 {
    cut_lines(alloc, input, Cut::Trim, rounds).unwrap_or(0)
}

#[unsafe(no_mangle)]
pub extern "C" fn hip_trim_matches_set(alloc: Global, input: &[u8], rounds: u64) -> u64 {
    cut_lines(alloc, input, Cut::TrimMatches, rounds).unwrap_or(0)
}

#[unsafe(no_mangle)]
pub extern "C" fn hip_strip_prefix(alloc: Global, input: &[u8], rounds: u64) -> u64 {
    cut_lines(alloc, input, Cut::StripPrefix, rounds).unwrap_or(0)
}
