//! Patterns that are looked for in a text, and the iterators that its pieces come from.
//!
//! A [`Pattern`] is a text, a character, a set of characters, of ASCII ([`AsciiSet`]) or of any, or a closure over characters
//! ([`CharPred`]); a [`ReversePattern`] is looked for from the end too. [`OneChar`] and [`DoubleEndedPattern`] say of which patterns pieces
//! are drawn, and trims are made, at both ends.
//!
//! An iterator goes over the [`Ranges`] of a text, from both ends where it is one of [`RangesBack`], and gives the same ranges again where
//! it is one of [`CloneRanges`], as it is by a [`ClonePattern`]. It is the last parameter of an
//! [`IterWrapper`](crate::string::IterWrapper), which gives the pieces at these ranges.
pub use hip_match::ascii_set::AsciiSet;
pub use hip_match::chosen::Chosen;
pub use hip_match::indices::{Indices, MatchIndices, RMatchIndices};
pub use hip_match::lines::Lines;
pub use hip_match::marked_parts::{MarkedParts, SplitByte};
pub use hip_match::matches::Matches;
pub use hip_match::pattern::{ClonePattern, DoubleEndedPattern, OneChar, Pattern, ReversePattern};
pub use hip_match::predicate::{CharPred, choose_by};
pub use hip_match::ranges::{CloneRanges, Ranges, RangesBack};
pub use hip_match::rmatches::RMatches;
pub use hip_match::rsplit::{RSplit, RSplitN, RSplitTerminator};
pub use hip_match::split::{Split, SplitInclusive, SplitN, SplitTerminator};
pub use hip_match::white_space::{Runs, SplitAsciiWhitespace, SplitWhitespace};
