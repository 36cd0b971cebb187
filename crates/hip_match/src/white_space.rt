//! The runs of a text between white space.
#![tactic(auto, using(crate::proofs::Rules::white_space))]

ghost use Rattle.std.specs.Prelude.{◌≡◌, IfSome};
ghost use Rattle.std.proofs.Common.{refl};
ghost use Rattle.std.specs.Char.{is_whitespace};
ghost use Rattle.hip_match.specs.Clones.{made_kept};
ghost use Rattle.hip_match.specs.Iterators.{Gives};
ghost use Rattle.hip_match.specs.Characters.{char_ends};
ghost use Rattle.hip_match.specs.CharLaws.{char_ends-spans, char_ends-one_start, char_ends-one_char};
ghost use Rattle.hip_match.specs.MarkedSets.{AreFirstPlaces};
ghost use Rattle.hip_match.specs.Searchers.{AreAhead, AreBehind};
ghost use Rattle.hip_match.specs.Runs.{nonempty, split_ascii_whitespace, split_whitespace};

use crate::ascii_set::AsciiSet;
use crate::byte_test::SpaceLeads;
use crate::chars::{CharSet, end_of, start_before};
use crate::marked_parts::MarkedParts;
use crate::marked_set::{MarkedSet, last_marked, next_marked};
use crate::marks::Marks;
use crate::pattern::{ClonePattern, DoubleEndedPattern, OneChar, Pattern, ReversePattern};
use crate::place_test::{Bytes, PlaceTest};
use crate::ranges::{CloneRanges, Ranges, RangesBack};
use crate::split::Split;

/// The characters of white space, by Unicode's `White_Space`.
#[derive(Clone, Copy)]
pub struct WhiteSpace;

impl CharSet for WhiteSpace {
    ghost belongs = { λ _. is_whitespace };

    #[inline]
    fn has(&self, c: char) -> bool {
        let code = c as u32;
        // Most letters past ASCII lie where no white space does.
        if code > 0xA0 && (code < 0x1680 || code > 0x3000) {
            return false;
        }
        c.is_whitespace()
    }
}

impl MarkedSet for WhiteSpace {
    type Test = Bytes<SpaceLeads>;

    ghost is_found_by = { λ _. AreFirstPlaces is_whitespace };

    ghost first_places = { λ _ _ found. found };

    #[inline(always)]
    fn end_at_mark(&self, _test: &Bytes<SpaceLeads>, text: &str, at: usize) -> Option<usize> {
        end_of(self, text, at)
    }
}

impl Pattern for WhiteSpace {
    type Searcher = Option<Marks<Bytes<SpaceLeads>>>;

    ghost ends = { λ _. char_ends is_whitespace };

    ghost is_ready = { λ _ m text from. AreAhead (AreFirstPlaces is_whitespace) (⟦<Bytes<SpaceLeads> as PlaceTest>⟧.places) m text from };

    ghost is_ready_back = { λ _ m text to. AreBehind (AreFirstPlaces is_whitespace) (⟦<Bytes<SpaceLeads> as PlaceTest>⟧.places) m text to };

    #[inline]
    fn searcher(&self, _text: &str, from: usize, to: usize) -> Option<Marks<Bytes<SpaceLeads>>> {
        Some(Marks::new(Bytes(SpaceLeads), from, to))
    }

    #[inline(always)]
    fn next_match_by(
        &self,
        searcher: &mut Option<Marks<Bytes<SpaceLeads>>>,
        text: &str,
        from: usize,
    ) -> Option<(usize, usize)> {
        next_marked(self, searcher, text, from)
    }

    #[inline]
    fn match_at(&self, text: &str, at: usize) -> Option<usize> {
        end_of(self, text, at)
    }

    ghost spans = { λ _. char_ends-spans is_whitespace };
}

impl ReversePattern for WhiteSpace {
    #[inline(always)]
    fn last_match_by(
        &self,
        searcher: &mut Option<Marks<Bytes<SpaceLeads>>>,
        text: &str,
        to: usize,
    ) -> Option<(usize, usize)> {
        last_marked(self, searcher, text, to)
    }

    #[inline]
    fn match_before(&self, text: &str, to: usize) -> Option<usize> {
        start_before(self, text, to)
    }

    ghost one_start = { λ _. char_ends-one_start is_whitespace };
}

impl OneChar for WhiteSpace {
    ghost one_char = { λ _. char_ends-one_char is_whitespace };
}

impl ClonePattern for WhiteSpace {
    ghost use Rattle.std.proofs.Common.{rules};

    ghost clones_keep = { Prim.search rules };
}

impl DoubleEndedPattern for WhiteSpace {}

/// The ranges that are not empty.
#[derive(Clone, Drop)]
pub struct Runs<R> {
    ranges: R,
}

impl<R: Ranges> Ranges for Runs<R> {
    ghost ready = { λ s. R.ready s.ranges };

    ghost text = { λ s. R.text s.ranges };

    ghost rest = { λ s. nonempty (R.rest s.ranges) };

    #[inline(always)]
    fn next(&mut self) -> Option<(usize, usize)> {
        while let Some((start, end)) = self.ranges.next() {
            if start < end {
                return Some((start, end));
            }
        }
        None
    }
}

impl<R: CloneRanges> CloneRanges for Runs<R> {
    ghost clone_keeps = { λ s copy is. made_kept {f = nonempty} refl
        (R.clone_keeps s.ranges copy.ranges is) };
}

impl<R: RangesBack> RangesBack for Runs<R> {
    #[inline(always)]
    fn next_back(&mut self) -> Option<(usize, usize)> {
        while let Some((start, end)) = self.ranges.next_back() {
            if start < end {
                return Some((start, end));
            }
        }
        None
    }
}

/// The longest runs of a text without white space, by Unicode's `White_Space`.
pub type SplitWhitespace<'h> = Runs<Split<'h, WhiteSpace>>;

impl<'h> Runs<Split<'h, WhiteSpace>> {
    /// The runs of `text` between white space.
    #[inline]
    pub fn new(text: &'h str) -> Self
        ensures ranges { Gives ⟦<Runs<Split<'h, WhiteSpace>> as Ranges>⟧ result text.now
            (split_whitespace text.now) }
    {
        Runs {
            ranges: Split::new(text, WhiteSpace),
        }
    }
}

/// The longest runs of a text without ASCII white space, to which U+000B doesn't belong.
pub type SplitAsciiWhitespace<'h> = Runs<MarkedParts<'h, AsciiSet>>;

impl<'h> Runs<MarkedParts<'h, AsciiSet>> {
    /// The runs of `text` between ASCII white space.
    #[inline]
    pub fn new(text: &'h str) -> Self
        ensures ranges { Gives ⟦<Runs<MarkedParts<'h, AsciiSet>> as Ranges>⟧ result text.now
            (split_ascii_whitespace text.now) }
    {
        Runs {
            ranges: MarkedParts::by(text, AsciiSet::whitespace()),
        }
    }
}
