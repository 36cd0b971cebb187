//! The calls that take a text apart.
ghost use Rattle.std.specs.Prelude.{◌≡◌, IfSome};
ghost use Rattle.hip_match.specs.Leftmost.{leftmost};
ghost use Rattle.hip_match.specs.Occurrence.{IsCut};
ghost use Rattle.hip_match.specs.Pieces.{rsplit, rsplit_terminator, rsplitn};
ghost use Rattle.hip_match.specs.Pieces.{split, split_inclusive, split_terminator, splitn};
ghost use Rattle.hip_match.specs.Rightmost.{rightmost};
ghost use Rattle.hip_match.specs.Runs.{lines, split_whitespace, split_ascii_whitespace};
ghost use Rattle.hip_match.specs.Trims.{strip_prefix, strip_suffix, split_once, rsplit_once};
ghost use Rattle.hip_cuts.specs.Cut.{LeavesBetween, LeavesEnd, LeavesStart, found_in, space_ends};
ghost use Rattle.hip_cuts.specs.Cut.{OnceAnswers, OnceCosts, StripAnswers, StripCosts, TrimAnswers, TrimCosts};
ghost use Rattle.hip_cuts.specs.Cut.{OnceCounts, StripCounts, TrimCounts};
ghost use Rattle.hip_cuts.specs.Cut.{PartIfAny, PartIfAnyCosts, PartsIfAny, PartsIfAnyCosts};
ghost use Rattle.hip_cuts.specs.Walks.{GoesOver};

use crate::pieces::{PieceSource, Pieces};
use crate::pieces_at::PiecesAt;
use crate::walk::Walk;
use hip_match::indices::{MatchIndices, RMatchIndices};
use hip_match::lines::Lines;
use hip_match::matches::Matches;
use hip_match::pattern::{DoubleEndedPattern, Pattern, ReversePattern};
use hip_match::ranges::Ranges;
use hip_match::rmatches::RMatches;
use hip_match::rsplit::{RSplit, RSplitN, RSplitTerminator};
use hip_match::split::{Split, SplitInclusive, SplitN, SplitTerminator};
use hip_match::trim;
use hip_match::white_space::{SplitAsciiWhitespace, SplitWhitespace};
use hip_text::{Backend, HipStr, Meter};
use std::alloc::{AllocError, Global};

/// How a text is taken apart: by the calls of Rust's `str`, whose pieces are texts of the same kind of handle. Each is the source's part
/// at its range, so on a backend that shares owners it copies at most the bytes that a handle holds in itself, and none of a borrowed text.
pub trait TextCuts<B: Backend>: PieceSource {
    /// The parts between the occurrences of `pattern`, one more than there are occurrences.
    fn split<'h, P: Pattern>(&'h self, alloc: Global, pattern: P) -> Pieces<'h, Self, Split<'h, P>>
        requires { P.can_search pattern }
        ensures source { result.source ≡ Self.handle self.now }
        ensures rest { result.rest ≡ found_in (Self.handle self.now) split (P.ends pattern) };

    /// The parts that occurrences of `pattern` end, each with its occurrence, and what lies behind the last where that isn't empty.
    fn split_inclusive<'h, P: Pattern>(
        &'h self,
        alloc: Global,
        pattern: P,
    ) -> Pieces<'h, Self, SplitInclusive<'h, P>>
        requires { P.can_search pattern }
        ensures source { result.source ≡ Self.handle self.now }
        ensures rest { result.rest
            ≡ found_in (Self.handle self.now) split_inclusive (P.ends pattern) };

    /// The parts of [`TextCuts::split`] without the last where that is empty.
    fn split_terminator<'h, P: Pattern>(
        &'h self,
        alloc: Global,
        pattern: P,
    ) -> Pieces<'h, Self, SplitTerminator<'h, P>>
        requires { P.can_search pattern }
        ensures source { result.source ≡ Self.handle self.now }
        ensures rest { result.rest
            ≡ found_in (Self.handle self.now) split_terminator (P.ends pattern) };

    /// At most `count` parts. Where there are `count`, the last of them runs on to the end.
    fn splitn<'h, P: Pattern>(
        &'h self,
        alloc: Global,
        count: usize,
        pattern: P,
    ) -> Pieces<'h, Self, SplitN<'h, P>>
        requires { P.can_search pattern }
        ensures source { result.source ≡ Self.handle self.now }
        ensures rest { result.rest
            ≡ found_in (Self.handle self.now) (splitn count) (P.ends pattern) };

    /// The occurrences of `pattern`, leftmost first, none overlapping.
    fn matches<'h, P: Pattern>(
        &'h self,
        alloc: Global,
        pattern: P,
    ) -> Pieces<'h, Self, Matches<'h, P>>
        requires { P.can_search pattern }
        ensures source { result.source ≡ Self.handle self.now }
        ensures rest { result.rest ≡ found_in (Self.handle self.now) leftmost (P.ends pattern) };

    /// The matches of [`TextCuts::matches`], each with its position in front.
    fn match_indices<'h, P: Pattern>(
        &'h self,
        alloc: Global,
        pattern: P,
    ) -> Pieces<'h, Self, MatchIndices<'h, P>>
        requires { P.can_search pattern }
        ensures source { result.source ≡ Self.handle self.now }
        ensures rest { result.rest ≡ found_in (Self.handle self.now) leftmost (P.ends pattern) };

    /// The parts between the occurrences of `pattern` that are found from the end, last first.
    fn rsplit<'h, P: ReversePattern>(
        &'h self,
        alloc: Global,
        pattern: P,
    ) -> Pieces<'h, Self, RSplit<'h, P>>
        requires { P.can_search pattern }
        ensures source { result.source ≡ Self.handle self.now }
        ensures rest { result.rest ≡ found_in (Self.handle self.now) rsplit (P.ends pattern) };

    /// The parts of [`TextCuts::rsplit`] without the first where that is empty.
    fn rsplit_terminator<'h, P: ReversePattern>(
        &'h self,
        alloc: Global,
        pattern: P,
    ) -> Pieces<'h, Self, RSplitTerminator<'h, P>>
        requires { P.can_search pattern }
        ensures source { result.source ≡ Self.handle self.now }
        ensures rest { result.rest
            ≡ found_in (Self.handle self.now) rsplit_terminator (P.ends pattern) };

    /// At most `count` parts from the end. Where there are `count`, the last of them runs on to the front.
    fn rsplitn<'h, P: ReversePattern>(
        &'h self,
        alloc: Global,
        count: usize,
        pattern: P,
    ) -> Pieces<'h, Self, RSplitN<'h, P>>
        requires { P.can_search pattern }
        ensures source { result.source ≡ Self.handle self.now }
        ensures rest { result.rest
            ≡ found_in (Self.handle self.now) (rsplitn count) (P.ends pattern) };

    /// The occurrences of `pattern`, rightmost first, none overlapping.
    fn rmatches<'h, P: ReversePattern>(
        &'h self,
        alloc: Global,
        pattern: P,
    ) -> Pieces<'h, Self, RMatches<'h, P>>
        requires { P.can_search pattern }
        ensures source { result.source ≡ Self.handle self.now }
        ensures rest { result.rest ≡ found_in (Self.handle self.now) rightmost (P.ends pattern) };

    /// The matches of [`TextCuts::rmatches`], each with its position in front.
    fn rmatch_indices<'h, P: ReversePattern>(
        &'h self,
        alloc: Global,
        pattern: P,
    ) -> Pieces<'h, Self, RMatchIndices<'h, P>>
        requires { P.can_search pattern }
        ensures source { result.source ≡ Self.handle self.now }
        ensures rest { result.rest ≡ found_in (Self.handle self.now) rightmost (P.ends pattern) };

    /// The lines, without the line feed that ends them and one carriage return before it.
    fn lines<'h>(&'h self, alloc: Global) -> Pieces<'h, Self, Lines<'h>>
        ensures source { result.source ≡ Self.handle self.now }
        ensures rest { result.rest ≡ lines (Self.handle self.now).items };

    /// The longest runs without white space (Unicode's `White_Space`), none empty.
    fn split_whitespace<'h>(&'h self, alloc: Global) -> Pieces<'h, Self, SplitWhitespace<'h>>
        ensures source { result.source ≡ Self.handle self.now }
        ensures rest { result.rest ≡ split_whitespace (Self.handle self.now).items };

    /// The longest runs without ASCII white space, none empty.
    fn split_ascii_whitespace<'h>(
        &'h self,
        alloc: Global,
    ) -> Pieces<'h, Self, SplitAsciiWhitespace<'h>>
        ensures source { result.source ≡ Self.handle self.now }
        ensures rest { result.rest ≡ split_ascii_whitespace (Self.handle self.now).items };

    /// The pieces at `ranges`, which are ranges of this text, each with its position in front.
    fn pieces_at<'h, I: Ranges>(&'h self, alloc: Global, ranges: I) -> PiecesAt<'h, Self, I>
        requires ready { I.ready ranges }
        requires text { I.text ranges ≡ (Self.handle self.now).items }
        ensures { GoesOver ⟦<PiecesAt<'h, Self, I> as Walk>⟧ result
            (Self.handle self.now) (I.rest ranges) };

    /// The text without white space at its front and at its end.
    fn trim(&self, alloc: Global) -> Result<Self, AllocError>
        ensures trimmed { TrimAnswers Self.handle LeavesBetween space_ends
            (Self.handle self.now) result };

    /// [`TextCuts::trim`], counted.
    fn trim_metered(&self, alloc: Global, meter: &mut Meter) -> Result<Self, AllocError>
        ensures trimmed { TrimAnswers Self.handle LeavesBetween space_ends
            (Self.handle self.now) result }
        ensures counted { TrimCosts B.SHARES LeavesBetween space_ends
            (Self.handle self.now) meter.old meter.new }
        ensures copied { TrimCounts Self.handle B.SHARES
            (Self.handle self.now) result meter.old meter.new };

    /// The text without white space at its front.
    fn trim_start(&self, alloc: Global) -> Result<Self, AllocError>
        ensures trimmed { TrimAnswers Self.handle LeavesEnd space_ends
            (Self.handle self.now) result };

    /// [`TextCuts::trim_start`], counted.
    fn trim_start_metered(&self, alloc: Global, meter: &mut Meter) -> Result<Self, AllocError>
        ensures trimmed { TrimAnswers Self.handle LeavesEnd space_ends
            (Self.handle self.now) result }
        ensures counted { TrimCosts B.SHARES LeavesEnd space_ends
            (Self.handle self.now) meter.old meter.new }
        ensures copied { TrimCounts Self.handle B.SHARES
            (Self.handle self.now) result meter.old meter.new };

    /// The text without white space at its end.
    fn trim_end(&self, alloc: Global) -> Result<Self, AllocError>
        ensures trimmed { TrimAnswers Self.handle LeavesStart space_ends
            (Self.handle self.now) result };

    /// [`TextCuts::trim_end`], counted.
    fn trim_end_metered(&self, alloc: Global, meter: &mut Meter) -> Result<Self, AllocError>
        ensures trimmed { TrimAnswers Self.handle LeavesStart space_ends
            (Self.handle self.now) result }
        ensures counted { TrimCosts B.SHARES LeavesStart space_ends
            (Self.handle self.now) meter.old meter.new }
        ensures copied { TrimCounts Self.handle B.SHARES
            (Self.handle self.now) result meter.old meter.new };

    /// The text without the longest front of occurrences of `pattern`, and without the longest back of them in what is left.
    fn trim_matches<P: DoubleEndedPattern>(
        &self,
        alloc: Global,
        pattern: P,
    ) -> Result<Self, AllocError>
        requires { P.can_search pattern }
        ensures trimmed { TrimAnswers Self.handle LeavesBetween (P.ends pattern)
            (Self.handle self.now) result };

    /// [`TextCuts::trim_matches`], counted.
    fn trim_matches_metered<P: DoubleEndedPattern>(
        &self,
        alloc: Global,
        pattern: P,
        meter: &mut Meter,
    ) -> Result<Self, AllocError>
        requires { P.can_search pattern }
        ensures trimmed { TrimAnswers Self.handle LeavesBetween (P.ends pattern)
            (Self.handle self.now) result }
        ensures counted { TrimCosts B.SHARES LeavesBetween (P.ends pattern)
            (Self.handle self.now) meter.old meter.new }
        ensures copied { TrimCounts Self.handle B.SHARES
            (Self.handle self.now) result meter.old meter.new };

    /// The text without the longest front of occurrences of `pattern`. An empty pattern removes nothing.
    fn trim_start_matches<P: Pattern>(&self, alloc: Global, pattern: P) -> Result<Self, AllocError>
        requires { P.can_search pattern }
        ensures trimmed { TrimAnswers Self.handle LeavesEnd (P.ends pattern)
            (Self.handle self.now) result };

    /// [`TextCuts::trim_start_matches`], counted.
    fn trim_start_matches_metered<P: Pattern>(
        &self,
        alloc: Global,
        pattern: P,
        meter: &mut Meter,
    ) -> Result<Self, AllocError>
        requires { P.can_search pattern }
        ensures trimmed { TrimAnswers Self.handle LeavesEnd (P.ends pattern)
            (Self.handle self.now) result }
        ensures counted { TrimCosts B.SHARES LeavesEnd (P.ends pattern)
            (Self.handle self.now) meter.old meter.new }
        ensures copied { TrimCounts Self.handle B.SHARES
            (Self.handle self.now) result meter.old meter.new };

    /// The text without the longest back of occurrences of `pattern`. An empty pattern removes nothing.
    fn trim_end_matches<P: ReversePattern>(
        &self,
        alloc: Global,
        pattern: P,
    ) -> Result<Self, AllocError>
        requires { P.can_search pattern }
        ensures trimmed { TrimAnswers Self.handle LeavesStart (P.ends pattern)
            (Self.handle self.now) result };

    /// [`TextCuts::trim_end_matches`], counted.
    fn trim_end_matches_metered<P: ReversePattern>(
        &self,
        alloc: Global,
        pattern: P,
        meter: &mut Meter,
    ) -> Result<Self, AllocError>
        requires { P.can_search pattern }
        ensures trimmed { TrimAnswers Self.handle LeavesStart (P.ends pattern)
            (Self.handle self.now) result }
        ensures counted { TrimCosts B.SHARES LeavesStart (P.ends pattern)
            (Self.handle self.now) meter.old meter.new }
        ensures copied { TrimCounts Self.handle B.SHARES
            (Self.handle self.now) result meter.old meter.new };

    /// The text without one occurrence of `pattern` at its front, if there is one.
    fn strip_prefix<P: Pattern>(
        &self,
        alloc: Global,
        pattern: P,
    ) -> Result<Option<Self>, AllocError>
        requires { P.can_search pattern }
        ensures stripped { StripAnswers Self.handle strip_prefix (P.ends pattern)
            (Self.handle self.now) result };

    /// [`TextCuts::strip_prefix`], counted.
    fn strip_prefix_metered<P: Pattern>(
        &self,
        alloc: Global,
        pattern: P,
        meter: &mut Meter,
    ) -> Result<Option<Self>, AllocError>
        requires { P.can_search pattern }
        ensures stripped { StripAnswers Self.handle strip_prefix (P.ends pattern)
            (Self.handle self.now) result }
        ensures counted { StripCosts B.SHARES strip_prefix (P.ends pattern)
            (Self.handle self.now) meter.old meter.new }
        ensures copied { StripCounts Self.handle B.SHARES
            (Self.handle self.now) result meter.old meter.new };

    /// The text without one occurrence of `pattern` at its end, if there is one.
    fn strip_suffix<P: ReversePattern>(
        &self,
        alloc: Global,
        pattern: P,
    ) -> Result<Option<Self>, AllocError>
        requires { P.can_search pattern }
        ensures stripped { StripAnswers Self.handle strip_suffix (P.ends pattern)
            (Self.handle self.now) result };

    /// [`TextCuts::strip_suffix`], counted.
    fn strip_suffix_metered<P: ReversePattern>(
        &self,
        alloc: Global,
        pattern: P,
        meter: &mut Meter,
    ) -> Result<Option<Self>, AllocError>
        requires { P.can_search pattern }
        ensures stripped { StripAnswers Self.handle strip_suffix (P.ends pattern)
            (Self.handle self.now) result }
        ensures counted { StripCosts B.SHARES strip_suffix (P.ends pattern)
            (Self.handle self.now) meter.old meter.new }
        ensures copied { StripCounts Self.handle B.SHARES
            (Self.handle self.now) result meter.old meter.new };

    /// The text before the first occurrence of `pattern` and the text behind it, if there is one.
    fn split_once<P: Pattern>(
        &self,
        alloc: Global,
        pattern: P,
    ) -> Result<Option<(Self, Self)>, AllocError>
        requires { P.can_search pattern }
        ensures parts { OnceAnswers Self.handle split_once (P.ends pattern)
            (Self.handle self.now) result };

    /// [`TextCuts::split_once`], counted.
    fn split_once_metered<P: Pattern>(
        &self,
        alloc: Global,
        pattern: P,
        meter: &mut Meter,
    ) -> Result<Option<(Self, Self)>, AllocError>
        requires { P.can_search pattern }
        ensures parts { OnceAnswers Self.handle split_once (P.ends pattern)
            (Self.handle self.now) result }
        ensures counted { OnceCosts B.SHARES split_once (P.ends pattern)
            (Self.handle self.now) meter.old meter.new }
        ensures copied { OnceCounts Self.handle B.SHARES
            (Self.handle self.now) result meter.old meter.new };

    /// The text before the last occurrence of `pattern` and the text behind it, if there is one.
    fn rsplit_once<P: ReversePattern>(
        &self,
        alloc: Global,
        pattern: P,
    ) -> Result<Option<(Self, Self)>, AllocError>
        requires { P.can_search pattern }
        ensures parts { OnceAnswers Self.handle rsplit_once (P.ends pattern)
            (Self.handle self.now) result };

    /// [`TextCuts::rsplit_once`], counted.
    fn rsplit_once_metered<P: ReversePattern>(
        &self,
        alloc: Global,
        pattern: P,
        meter: &mut Meter,
    ) -> Result<Option<(Self, Self)>, AllocError>
        requires { P.can_search pattern }
        ensures parts { OnceAnswers Self.handle rsplit_once (P.ends pattern)
            (Self.handle self.now) result }
        ensures counted { OnceCosts B.SHARES rsplit_once (P.ends pattern)
            (Self.handle self.now) meter.old meter.new }
        ensures copied { OnceCounts Self.handle B.SHARES
            (Self.handle self.now) result meter.old meter.new };
}

impl<'b, B: Backend> TextCuts<B> for HipStr<'b, B> {
    #[inline]
    fn split<'h, P: Pattern>(
        &'h self,
        alloc: Global,
        pattern: P,
    ) -> Pieces<'h, Self, Split<'h, P>> {
        Pieces::new(self, alloc, Split::new(self.as_str(), pattern))
    }

    #[inline]
    fn split_inclusive<'h, P: Pattern>(
        &'h self,
        alloc: Global,
        pattern: P,
    ) -> Pieces<'h, Self, SplitInclusive<'h, P>> {
        Pieces::new(self, alloc, SplitInclusive::new(self.as_str(), pattern))
    }

    #[inline]
    fn split_terminator<'h, P: Pattern>(
        &'h self,
        alloc: Global,
        pattern: P,
    ) -> Pieces<'h, Self, SplitTerminator<'h, P>> {
        Pieces::new(self, alloc, SplitTerminator::new(self.as_str(), pattern))
    }

    #[inline]
    fn splitn<'h, P: Pattern>(
        &'h self,
        alloc: Global,
        count: usize,
        pattern: P,
    ) -> Pieces<'h, Self, SplitN<'h, P>> {
        Pieces::new(self, alloc, SplitN::new(self.as_str(), count, pattern))
    }

    #[inline]
    fn matches<'h, P: Pattern>(
        &'h self,
        alloc: Global,
        pattern: P,
    ) -> Pieces<'h, Self, Matches<'h, P>> {
        Pieces::new(self, alloc, Matches::new(self.as_str(), pattern))
    }

    #[inline]
    fn match_indices<'h, P: Pattern>(
        &'h self,
        alloc: Global,
        pattern: P,
    ) -> Pieces<'h, Self, MatchIndices<'h, P>> {
        Pieces::new(self, alloc, MatchIndices::new(self.as_str(), pattern))
    }

    #[inline]
    fn rsplit<'h, P: ReversePattern>(
        &'h self,
        alloc: Global,
        pattern: P,
    ) -> Pieces<'h, Self, RSplit<'h, P>> {
        Pieces::new(self, alloc, RSplit::new(self.as_str(), pattern))
    }

    #[inline]
    fn rsplit_terminator<'h, P: ReversePattern>(
        &'h self,
        alloc: Global,
        pattern: P,
    ) -> Pieces<'h, Self, RSplitTerminator<'h, P>> {
        Pieces::new(self, alloc, RSplitTerminator::new(self.as_str(), pattern))
    }

    #[inline]
    fn rsplitn<'h, P: ReversePattern>(
        &'h self,
        alloc: Global,
        count: usize,
        pattern: P,
    ) -> Pieces<'h, Self, RSplitN<'h, P>> {
        Pieces::new(self, alloc, RSplitN::new(self.as_str(), count, pattern))
    }

    #[inline]
    fn rmatches<'h, P: ReversePattern>(
        &'h self,
        alloc: Global,
        pattern: P,
    ) -> Pieces<'h, Self, RMatches<'h, P>> {
        Pieces::new(self, alloc, RMatches::new(self.as_str(), pattern))
    }

    #[inline]
    fn rmatch_indices<'h, P: ReversePattern>(
        &'h self,
        alloc: Global,
        pattern: P,
    ) -> Pieces<'h, Self, RMatchIndices<'h, P>> {
        Pieces::new(self, alloc, RMatchIndices::new(self.as_str(), pattern))
    }

    #[inline]
    fn lines<'h>(&'h self, alloc: Global) -> Pieces<'h, Self, Lines<'h>> {
        Pieces::new(self, alloc, Lines::new(self.as_str()))
    }

    #[inline]
    fn split_whitespace<'h>(&'h self, alloc: Global) -> Pieces<'h, Self, SplitWhitespace<'h>> {
        Pieces::new(self, alloc, SplitWhitespace::new(self.as_str()))
    }

    #[inline]
    fn split_ascii_whitespace<'h>(
        &'h self,
        alloc: Global,
    ) -> Pieces<'h, Self, SplitAsciiWhitespace<'h>> {
        Pieces::new(self, alloc, SplitAsciiWhitespace::new(self.as_str()))
    }

    #[inline]
    fn pieces_at<'h, I: Ranges>(&'h self, alloc: Global, ranges: I) -> PiecesAt<'h, Self, I> {
        PiecesAt::new(self, alloc, ranges)
    }

    #[inline]
    fn trim(&self, alloc: Global) -> Result<Self, AllocError> {
        self.trim_metered(alloc, &mut Meter::new())
    }

    #[inline]
    fn trim_metered(&self, alloc: Global, meter: &mut Meter) -> Result<Self, AllocError> {
        let (start, end) = trim::trim(self.as_str());
        self.part_metered(alloc, start, end, meter)
    }

    #[inline]
    fn trim_start(&self, alloc: Global) -> Result<Self, AllocError> {
        self.trim_start_metered(alloc, &mut Meter::new())
    }

    #[inline]
    fn trim_start_metered(&self, alloc: Global, meter: &mut Meter) -> Result<Self, AllocError> {
        let (start, end) = trim::trim_start(self.as_str());
        self.part_metered(alloc, start, end, meter)
    }

    #[inline]
    fn trim_end(&self, alloc: Global) -> Result<Self, AllocError> {
        self.trim_end_metered(alloc, &mut Meter::new())
    }

    #[inline]
    fn trim_end_metered(&self, alloc: Global, meter: &mut Meter) -> Result<Self, AllocError> {
        let (start, end) = trim::trim_end(self.as_str());
        self.part_metered(alloc, start, end, meter)
    }

    #[inline]
    fn trim_matches<P: DoubleEndedPattern>(
        &self,
        alloc: Global,
        pattern: P,
    ) -> Result<Self, AllocError> {
        self.trim_matches_metered(alloc, pattern, &mut Meter::new())
    }

    #[inline]
    fn trim_matches_metered<P: DoubleEndedPattern>(
        &self,
        alloc: Global,
        pattern: P,
        meter: &mut Meter,
    ) -> Result<Self, AllocError> {
        let (start, end) = trim::trim_matches(self.as_str(), pattern);
        self.part_metered(alloc, start, end, meter)
    }

    #[inline]
    fn trim_start_matches<P: Pattern>(
        &self,
        alloc: Global,
        pattern: P,
    ) -> Result<Self, AllocError> {
        self.trim_start_matches_metered(alloc, pattern, &mut Meter::new())
    }

    #[inline]
    fn trim_start_matches_metered<P: Pattern>(
        &self,
        alloc: Global,
        pattern: P,
        meter: &mut Meter,
    ) -> Result<Self, AllocError> {
        let (start, end) = trim::trim_start_matches(self.as_str(), pattern);
        self.part_metered(alloc, start, end, meter)
    }

    #[inline]
    fn trim_end_matches<P: ReversePattern>(
        &self,
        alloc: Global,
        pattern: P,
    ) -> Result<Self, AllocError> {
        self.trim_end_matches_metered(alloc, pattern, &mut Meter::new())
    }

    #[inline]
    fn trim_end_matches_metered<P: ReversePattern>(
        &self,
        alloc: Global,
        pattern: P,
        meter: &mut Meter,
    ) -> Result<Self, AllocError> {
        let (start, end) = trim::trim_end_matches(self.as_str(), pattern);
        self.part_metered(alloc, start, end, meter)
    }

    #[inline]
    fn strip_prefix<P: Pattern>(
        &self,
        alloc: Global,
        pattern: P,
    ) -> Result<Option<Self>, AllocError> {
        self.strip_prefix_metered(alloc, pattern, &mut Meter::new())
    }

    #[inline]
    fn strip_prefix_metered<P: Pattern>(
        &self,
        alloc: Global,
        pattern: P,
        meter: &mut Meter,
    ) -> Result<Option<Self>, AllocError> {
        part_at(
            self,
            alloc,
            trim::strip_prefix(self.as_str(), pattern),
            meter,
        )
    }

    #[inline]
    fn strip_suffix<P: ReversePattern>(
        &self,
        alloc: Global,
        pattern: P,
    ) -> Result<Option<Self>, AllocError> {
        self.strip_suffix_metered(alloc, pattern, &mut Meter::new())
    }

    #[inline]
    fn strip_suffix_metered<P: ReversePattern>(
        &self,
        alloc: Global,
        pattern: P,
        meter: &mut Meter,
    ) -> Result<Option<Self>, AllocError> {
        part_at(
            self,
            alloc,
            trim::strip_suffix(self.as_str(), pattern),
            meter,
        )
    }

    #[inline]
    fn split_once<P: Pattern>(
        &self,
        alloc: Global,
        pattern: P,
    ) -> Result<Option<(Self, Self)>, AllocError> {
        self.split_once_metered(alloc, pattern, &mut Meter::new())
    }

    #[inline]
    fn split_once_metered<P: Pattern>(
        &self,
        alloc: Global,
        pattern: P,
        meter: &mut Meter,
    ) -> Result<Option<(Self, Self)>, AllocError> {
        parts_at(self, alloc, trim::split_once(self.as_str(), pattern), meter)
    }

    #[inline]
    fn rsplit_once<P: ReversePattern>(
        &self,
        alloc: Global,
        pattern: P,
    ) -> Result<Option<(Self, Self)>, AllocError> {
        self.rsplit_once_metered(alloc, pattern, &mut Meter::new())
    }

    #[inline]
    fn rsplit_once_metered<P: ReversePattern>(
        &self,
        alloc: Global,
        pattern: P,
        meter: &mut Meter,
    ) -> Result<Option<(Self, Self)>, AllocError> {
        parts_at(
            self,
            alloc,
            trim::rsplit_once(self.as_str(), pattern),
            meter,
        )
    }
}

/// The part at a range, if there is one.
#[inline]
fn part_at<'b, B: Backend>(
    text: &HipStr<'b, B>,
    alloc: Global,
    range: Option<(usize, usize)>,
    meter: &mut Meter,
) -> Result<Option<HipStr<'b, B>>, AllocError>
    requires { IfSome range (IsCut text.now.items) }
    ensures part { PartIfAny (λ part. part) range text.now result }
    ensures counted { PartIfAnyCosts B.SHARES range text.now meter.old meter.new }
    ensures copied { StripCounts (λ part. part) B.SHARES text.now result meter.old meter.new }
{
    let Some((start, end)) = range else {
        return Ok(None);
    };
    Ok(Some(text.part_metered(alloc, start, end, meter)?))
}

/// The parts at two ranges, if there are any.
#[inline]
fn parts_at<'b, B: Backend>(
    text: &HipStr<'b, B>,
    alloc: Global,
    ranges: Option<((usize, usize), (usize, usize))>,
    meter: &mut Meter,
) -> Result<Option<(HipStr<'b, B>, HipStr<'b, B>)>, AllocError>
    requires { IfSome ranges
        (λ ranges. IsCut text.now.items ranges.0 × IsCut text.now.items ranges.1) }
    ensures parts { PartsIfAny (λ part. part) ranges text.now result }
    ensures counted { PartsIfAnyCosts B.SHARES ranges text.now meter.old meter.new }
    ensures copied { OnceCounts (λ part. part) B.SHARES text.now result meter.old meter.new }
{
    let Some((front, back)) = ranges else {
        return Ok(None);
    };
    let front = text.part_metered(alloc, front.0, front.1, meter)?;
    let back = text.part_metered(alloc, back.0, back.1, meter)?;
    Ok(Some((front, back)))
}
