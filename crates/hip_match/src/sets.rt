//! The patterns that are characters: one of them, or any of some.
ghost use Rattle.std.proofs.Common.{rules};
ghost use Rattle.std.specs.Prelude.{◌≡◌, ◌==◌, ◌+◌, ℕ, IfSome};
ghost use Rattle.std.specs.List.{list_any};
ghost use Rattle.hip_match.specs.AsciiSets.{in_set};
ghost use Rattle.hip_match.specs.Characters.{char_ends};
ghost use Rattle.hip_match.specs.CharLaws.{char_ends-spans, char_ends-one_start, char_ends-one_char};
ghost use Rattle.hip_match.specs.MarkedSets.{AreStarts};
ghost use Rattle.hip_match.specs.Marks.{stands};
ghost use Rattle.hip_match.specs.Needles.{bytes_of, reach_of};
ghost use Rattle.hip_match.specs.Searchers.{AreAhead, AreBehind, CharAhead, CharBehind};

use crate::ascii_set::AsciiSet;
use crate::chars::{CharSet, end_of, start_before};
use crate::marked_set::{MarkedSet, last_marked, next_marked};
use crate::marks::Marks;
use crate::pattern::{ClonePattern, DoubleEndedPattern, OneChar, Pattern, ReversePattern};
use crate::place_test::{Bytes, Needle, PlaceTest};

// The bytes of a character.
#[inline]
fn needle_of(c: char) -> Needle
    ensures { AreStarts (λ d. d == c) (reach_of result + 1) (stands (bytes_of result)) }
{
    if c.is_ascii() {
        return Needle::One(c as u8);
    }
    let mut room = [0; 4];
    Needle::new(c.encode_utf8(&mut room).as_bytes()).unwrap_or(Needle::One(0))
}

impl CharSet for char {
    ghost belongs = { λ c d. d == c };

    #[inline]
    fn has(&self, c: char) -> bool {
        c == *self
    }
}

impl Pattern for char {
    type Searcher = Marks<Needle>;

    ghost ends = { λ c. char_ends (λ d. d == c) };

    ghost is_ready = { CharAhead };

    ghost is_ready_back = { CharBehind };

    #[inline]
    fn searcher(&self, _text: &str, from: usize, to: usize) -> Marks<Needle> {
        Marks::new(needle_of(*self), from, to)
    }

    #[inline(always)]
    fn next_match_by(
        &self,
        searcher: &mut Marks<Needle>,
        text: &str,
        from: usize,
    ) -> Option<(usize, usize)> {
        let test = searcher.test;
        let at = searcher.front.next_needle(test, text.as_bytes(), from)?;
        Some((at, at + (test.reach() + 1)))
    }

    #[inline]
    fn match_at(&self, text: &str, at: usize) -> Option<usize> {
        end_of(self, text, at)
    }

    ghost spans = { λ c. char_ends-spans (λ d. d == c) };
}

impl ReversePattern for char {
    #[inline(always)]
    fn last_match_by(
        &self,
        searcher: &mut Marks<Needle>,
        text: &str,
        to: usize,
    ) -> Option<(usize, usize)> {
        let test = searcher.test;
        let at = searcher.back.last_needle(test, text.as_bytes(), to)?;
        Some((at, at + (test.reach() + 1)))
    }

    #[inline]
    fn match_before(&self, text: &str, to: usize) -> Option<usize> {
        start_before(self, text, to)
    }

    ghost one_start = { λ c. char_ends-one_start (λ d. d == c) };
}

impl OneChar for char {
    ghost one_char = { λ c. char_ends-one_char (λ d. d == c) };
}

impl ClonePattern for char {
    ghost clones_keep = { Prim.search rules };
}

impl DoubleEndedPattern for char {}

// The set, where all its characters are of ASCII.
fn ascii_set(set: &[char]) -> Option<AsciiSet>
    ensures { IfSome result (λ found. (d : ℕ) → in_set found d ≡ list_any (λ c. c == d) set.now) }
{
    let mut found = AsciiSet::new();
    let mut rest = set;
    while let [first, others @ ..] = rest {
        if !first.is_ascii() {
            return None;
        }
        found = found.with(*first as u8);
        rest = others;
    }
    Some(found)
}

impl<'a> CharSet for &'a [char] {
    ghost belongs = { λ s d. list_any (λ c. c == d) s.now };

    #[inline]
    fn has(&self, c: char) -> bool {
        let mut rest = *self;
        while let [first, others @ ..] = rest {
            if *first == c {
                return true;
            }
            rest = others;
        }
        false
    }
}

impl<'a> MarkedSet for &'a [char] {
    type Test = Bytes<AsciiSet>;

    ghost is_found_by = { λ s. AreStarts (λ d. list_any (λ c. c == d) s.now) 1 };

    ghost first_places = { λ _ _ found. found.first };

    #[inline(always)]
    fn end_at_mark(&self, _test: &Bytes<AsciiSet>, _text: &str, at: usize) -> Option<usize> {
        Some(at + 1)
    }
}

impl<'a> Pattern for &'a [char] {
    type Searcher = Option<Marks<Bytes<AsciiSet>>>;

    ghost ends = { λ s. char_ends (λ d. list_any (λ c. c == d) s.now) };

    ghost is_ready = { λ s m text from. AreAhead (AreStarts (λ d. list_any (λ c. c == d) s.now) 1) (⟦<Bytes<AsciiSet> as PlaceTest>⟧.places) m text from };

    ghost is_ready_back = { λ s m text to. AreBehind (AreStarts (λ d. list_any (λ c. c == d) s.now) 1) (⟦<Bytes<AsciiSet> as PlaceTest>⟧.places) m text to };

    #[inline]
    fn searcher(&self, _text: &str, from: usize, to: usize) -> Option<Marks<Bytes<AsciiSet>>> {
        Some(Marks::new(Bytes(ascii_set(*self)?), from, to))
    }

    #[inline(always)]
    fn next_match_by(
        &self,
        searcher: &mut Option<Marks<Bytes<AsciiSet>>>,
        text: &str,
        from: usize,
    ) -> Option<(usize, usize)> {
        next_marked(self, searcher, text, from)
    }

    #[inline]
    fn match_at(&self, text: &str, at: usize) -> Option<usize> {
        end_of(self, text, at)
    }

    ghost spans = { λ s. char_ends-spans (λ d. list_any (λ c. c == d) s.now) };
}

impl<'a> ReversePattern for &'a [char] {
    #[inline(always)]
    fn last_match_by(
        &self,
        searcher: &mut Option<Marks<Bytes<AsciiSet>>>,
        text: &str,
        to: usize,
    ) -> Option<(usize, usize)> {
        last_marked(self, searcher, text, to)
    }

    #[inline]
    fn match_before(&self, text: &str, to: usize) -> Option<usize> {
        start_before(self, text, to)
    }

    ghost one_start = { λ s. char_ends-one_start (λ d. list_any (λ c. c == d) s.now) };
}

impl<'a> OneChar for &'a [char] {
    ghost one_char = { λ s. char_ends-one_char (λ d. list_any (λ c. c == d) s.now) };
}

impl<'a> ClonePattern for &'a [char] {
    ghost clones_keep = { Prim.search rules };
}

impl<'a> DoubleEndedPattern for &'a [char] {}

impl<'a, const N: usize> Pattern for &'a [char; N] {
    type Searcher = Option<Marks<Bytes<AsciiSet>>>;

    ghost ends = { λ s. char_ends (λ d. list_any (λ c. c == d) s.now) };

    ghost is_ready = { λ s m text from. AreAhead (AreStarts (λ d. list_any (λ c. c == d) s.now) 1) (⟦<Bytes<AsciiSet> as PlaceTest>⟧.places) m text from };

    ghost is_ready_back = { λ s m text to. AreBehind (AreStarts (λ d. list_any (λ c. c == d) s.now) 1) (⟦<Bytes<AsciiSet> as PlaceTest>⟧.places) m text to };

    #[inline]
    fn searcher(&self, text: &str, from: usize, to: usize) -> Option<Marks<Bytes<AsciiSet>>> {
        let set: &[char] = *self;
        set.searcher(text, from, to)
    }

    #[inline(always)]
    fn next_match_by(
        &self,
        searcher: &mut Option<Marks<Bytes<AsciiSet>>>,
        text: &str,
        from: usize,
    ) -> Option<(usize, usize)> {
        let set: &[char] = *self;
        set.next_match_by(searcher, text, from)
    }

    #[inline]
    fn match_at(&self, text: &str, at: usize) -> Option<usize> {
        let set: &[char] = *self;
        set.match_at(text, at)
    }

    ghost spans = { λ s. char_ends-spans (λ d. list_any (λ c. c == d) s.now) };
}

impl<'a, const N: usize> ReversePattern for &'a [char; N] {
    #[inline(always)]
    fn last_match_by(
        &self,
        searcher: &mut Option<Marks<Bytes<AsciiSet>>>,
        text: &str,
        to: usize,
    ) -> Option<(usize, usize)> {
        let set: &[char] = *self;
        set.last_match_by(searcher, text, to)
    }

    #[inline]
    fn match_before(&self, text: &str, to: usize) -> Option<usize> {
        let set: &[char] = *self;
        set.match_before(text, to)
    }

    ghost one_start = { λ s. char_ends-one_start (λ d. list_any (λ c. c == d) s.now) };
}

impl<'a, const N: usize> OneChar for &'a [char; N] {
    ghost one_char = { λ s. char_ends-one_char (λ d. list_any (λ c. c == d) s.now) };
}

impl<'a, const N: usize> ClonePattern for &'a [char; N] {
    ghost clones_keep = { Prim.search rules };
}
