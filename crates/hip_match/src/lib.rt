//! Finding text: **each walk is a list of ranges of one text, declared as Rust's `str` tells it, and whatever is drawn of it from
//! either end is what that list has there.**
//!
//! - [`Pattern`] is what can be looked for: a `char`, `&str`, `&&str`, `&String`, `&[char]`, `&[char; N]`, an [`AsciiSet`], and by a
//!   [`CharPred`] a closure on characters, whose answers are a [`Chosen`] list, made by [`choose_by`] where types are open.
//!   [`ReversePattern`] is found from the end too, [`DoubleEndedPattern`] may be trimmed from both ends, each match of a [`OneChar`] is
//!   one character, and the clones of a [`ClonePattern`] are found where it is.
//! - [`marks`] finds the places that pass a test 64 at a time, from either end, for every walk; [`place_test`] and [`byte_test`] have the
//!   tests, and [`bits`] what is asked of the bits of a number.
//! - [`Ranges`] is a walk from its front, [`RangesBack`] from both ends, and the clones of [`CloneRanges`] give what they do: [`Split`],
//!   [`SplitInclusive`], [`SplitTerminator`], [`SplitN`], [`Matches`] and [`MatchIndices`] from a text's front, [`RSplit`],
//!   [`RSplitTerminator`], [`RSplitN`], [`RMatches`] and [`RMatchIndices`] from its end, [`Lines`], [`SplitWhitespace`],
//!   [`SplitAsciiWhitespace`] and [`SplitByte`].
//! - [`ByteRanges`] is a walk over bytes that needn't be UTF-8, from both ends: [`SplitByte`] and [`ByteLines`]. [`bytes`] trims them, and
//!   parts them at a byte.
//! - [`trim_start`], [`trim_end`], [`trim::trim`] and [`trim_matches`] with its kin, [`strip_prefix`], [`strip_suffix`], [`split_once`]
//!   and [`rsplit_once`] give one range or two.
//! - [`draw_into`] draws a walk by a script of [`End`]s.
//! - [`laws`] has what holds of the declared lists, each law as the contract of a function that does nothing.
//!
//! No call allocates, but the clone of a walk may, where a clone of its pattern may.
//!
//! The words of the contracts stand in `specs/`: `Occurrence` (where a pattern occurs, and what a search gives), `Characters` and `Texts`
//! (where sets of characters and texts occur), `Leftmost` and `Rightmost` (the lists of matches), `Pieces` (the parts between matches, and
//! lists in order), `Runs` (lines, and runs between white space), `Bytes` (where bytes that pass a test occur), `Trims` (what is removed from
//! the ends), `Draw` (what a script draws), `Joined` (pieces put together again), `Answers` (what a closure answers), `AsciiSets` and
//! `MarkedSets` (the characters of a set, and the places where they start), `Needles` (the bytes of a short needle), `Bits` (which bit is the
//! lowest), `Ready` and `Marks` (what a walk keeps of its places), `Clones` (what its clone keeps) and `Iterators` (what is said of a walk by
//! its type's own words); `Rows` has what they give for texts as one writes them down, and `CharLaws` and `TextLaws` what holds of the places
//! where characters and texts occur.
#![tactic(auto)]

pub mod ascii_set;
pub mod bits;
mod boundaries;
pub mod byte_lines;
pub mod byte_test;
pub mod bytes;
mod chars;
pub mod chosen;
pub mod draw;
pub mod indices;
pub mod laws;
pub mod lines;
pub mod marked_parts;
mod marked_set;
pub mod marks;
pub mod matches;
pub mod pattern;
pub mod place_test;
pub mod predicate;
pub mod ranges;
pub mod rmatches;
pub mod rsplit;
pub mod sets;
pub mod split;
pub mod texts;
pub mod trim;
pub mod white_space;

pub use ascii_set::AsciiSet;
pub use byte_lines::ByteLines;
pub use chosen::Chosen;
pub use draw::{End, draw_into};
pub use indices::{Indices, MatchIndices, RMatchIndices};
pub use lines::Lines;
pub use marked_parts::{MarkedParts, SplitByte};
pub use matches::Matches;
pub use pattern::{ClonePattern, DoubleEndedPattern, OneChar, Pattern, ReversePattern};
pub use predicate::{CharPred, choose_by};
pub use ranges::{ByteRanges, CloneByteRanges, CloneRanges, Ranges, RangesBack};
pub use rmatches::RMatches;
pub use rsplit::{RSplit, RSplitN, RSplitTerminator};
pub use split::{Split, SplitInclusive, SplitN, SplitTerminator};
pub use texts::TextSearcher;
pub use trim::{
    rsplit_once, split_once, strip_prefix, strip_suffix, trim_end, trim_end_matches, trim_matches,
    trim_start, trim_start_matches,
};
pub use white_space::{SplitAsciiWhitespace, SplitWhitespace};
