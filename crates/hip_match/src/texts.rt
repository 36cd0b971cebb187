//! Texts found in texts, by the marks of up to four of their bytes.

ghost use Rattle.std.proofs.Common.{rules};
ghost use Rattle.std.specs.Prelude.{◌≡◌, ◌↔◌, ◌+◌, ◌-◌, ◌<◌, ◌≤◌, ℕ, IsTrue, length, min, string_bytes, IfSome, MatchOption};
ghost use Rattle.std.specs.Str.{IsCharBoundary};
ghost use Rattle.memchr.specs.Find.{IsFirst, IsLast, OccursAt};
ghost use Rattle.hip_match.specs.Occurrence.{GoesOnAt, GoesOnBefore, IsNextMatch, IsLastMatch, start_of};
ghost use Rattle.hip_match.specs.Marks.{Ahead, Behind, PassesAt, stands};
ghost use Rattle.hip_match.specs.Needles.{bytes_of};
ghost use Rattle.hip_match.specs.Searchers.{FindsAhead, FindsBehind, IsPart};
ghost use Rattle.hip_match.specs.Texts.{text_ends};
ghost use Rattle.hip_match.specs.TextLaws.{text_ends-spans, text_ends-one_start};

use crate::marks::{BackMarks, FrontMarks};
use crate::pattern::{ClonePattern, Pattern, ReversePattern};
use crate::place_test::{Needle, PlaceTest};
use memchr::arch::all::packedpair::Pair;
use memchr::arch::all::{is_prefix, is_suffix};
use memchr::{memmem, memrchr};

/// Up to four bytes of a text, and the number of those before them.
#[derive(Clone, Copy)]
pub struct Part {
    needle: Needle,
    lead: usize,
}

/// The searcher of a text: a part of it for each end, and the marks that are left of that part.
#[derive(Clone, Copy)]
pub struct TextSearcher {
    first: Option<Part>,
    front: FrontMarks,
    last: Option<Part>,
    back: BackMarks,
}

// The number of places of a part that are tried before the search by `memchr` goes on.
const TRIES: usize = 4;

// The part of up to four bytes that ends at `at`, or begins the text where there are fewer.
#[inline]
fn part_at(needle: &[u8], at: usize) -> Option<Part>
    requires { at ≤ length needle.now }
    ensures { MatchOption result (length needle.now ≡ 0) (IsPart needle.now) }
{
    let lead = at.saturating_sub(4);
    Some(Part {
        needle: Needle::new(&needle[lead..])?,
        lead,
    })
}

// The parts by which a text is found from its front and from its back: each ends with the byte that is the rarest in most texts, where
// that stands first, or last.
#[inline]
fn parts_of(needle: &[u8]) -> (Option<Part>, Option<Part>)
    ensures first { MatchOption result.0 (length needle.now ≡ 0) (IsPart needle.now) }
    ensures last { MatchOption result.1 (length needle.now ≡ 0) (IsPart needle.now) }
{
    if needle.len() <= 4 {
        let whole = part_at(needle, 0);
        return (whole, whole);
    }
    let rarest = match Pair::new(needle) {
        Some(pair) => pair.index1() as usize,
        None => 0,
    };
    let last = memrchr(needle[rarest], needle).unwrap_or(rarest);
    (part_at(needle, rarest + 1), part_at(needle, last + 1))
}

// The searcher of `needle` over what lies between two places.
#[inline]
fn searcher_of(needle: &str, text: &str, from: usize, to: usize) -> TextSearcher
    ensures front { from ≤ length text.now → FindsAhead needle.now result text.now from }
    ensures back { to ≤ length text.now → FindsBehind needle.now result text.now to }
{
    let wanted = needle.as_bytes();
    let (first, last) = parts_of(wanted);
    let start = match first {
        Some(part) => text.len().min(from.saturating_add(part.lead)),
        None => from,
    };
    let stop = match last {
        Some(part) => to.saturating_sub(wanted.len() - 1 - part.lead),
        None => to,
    };
    TextSearcher {
        first,
        front: FrontMarks::new(start),
        last,
        back: BackMarks::new(stop),
    }
}

// Whether `needle` stands where a part of it does at `at`.
#[tactic(auto, using(crate::proofs::TextLemmas::whole))]
#[inline(always)]
fn stands_whole(bytes: &[u8], at: usize, needle: &[u8], part: Part) -> bool
    requires within { at ≤ length bytes.now }
    requires part { IsPart needle.now part }
    requires stands { PassesAt (stands (bytes_of part.needle)) bytes.now at }
    ensures { IsTrue result ↔ (part.lead ≤ at) × OccursAt bytes.now needle.now (at - part.lead) }
{
    needle.len() == part.needle.reach() + 1
        || part.lead <= at && is_prefix(&bytes[at - part.lead..], needle)
}

// The first place at or after `from` where the bytes of `needle` stand. Where a part of it misleads again and again, it is searched for.
#[inline(always)]
fn first_place(
    front: &mut FrontMarks,
    part: Part,
    bytes: &[u8],
    needle: &[u8],
    from: usize,
) -> Option<usize>
    requires within { from ≤ length bytes.now }
    requires part { IsPart needle.now part }
    requires ready { Ahead (stands (bytes_of part.needle)) bytes.now (min (length bytes.now) (from + part.lead)) front.old.next front.old.bits }
    ensures found { IsFirst (OccursAt bytes.now needle.now) from (length bytes.now) result }
    ensures ahead { IfSome result (λ k. Ahead (stands (bytes_of part.needle)) bytes.now
        (min (length bytes.now) (k + length needle.now + part.lead)) front.new.next front.new.bits) }
{
    let (len, width, lead) = (bytes.len(), needle.len(), part.lead);
    let mut past = from;
    let mut tries = 0;
    while tries < TRIES {
        let at = front.next_needle(part.needle, bytes, len.min(past + lead))?;
        let start = at - lead;
        if stands_whole(bytes, at, needle, part) {
            if width > 1 {
                front.skip_to(len.min(at + width));
            }
            return Some(start);
        }
        past = start + 1;
        tries += 1;
    }
    let start = past + memmem::find(&bytes[past..], needle)?;
    front.skip_to(len.min(start + width + lead));
    Some(start)
}

// The last place where the bytes of `needle` stand and end at or before `to`. It searches as `first_place` does.
#[inline(always)]
fn last_place(
    back: &mut BackMarks,
    part: Part,
    bytes: &[u8],
    needle: &[u8],
    to: usize,
) -> Option<usize>
    requires within { to ≤ length bytes.now }
    requires part { IsPart needle.now part }
    requires ready { Behind (stands (bytes_of part.needle)) bytes.now (to - (length needle.now - 1 - part.lead)) back.old.start back.old.bits }
    ensures found { IsLast (OccursAt bytes.now needle.now) 0 (to - (length needle.now - 1)) result }
    ensures behind { IfSome result (λ k. Behind (stands (bytes_of part.needle)) bytes.now
        (k - (length needle.now - 1 - part.lead)) back.new.start back.new.bits) }
{
    let rest = needle.len() - 1 - part.lead;
    let mut stop = to.saturating_sub(rest);
    let mut tries = 0;
    while tries < TRIES {
        let at = back.last_needle(part.needle, bytes, stop)?;
        if stands_whole(bytes, at, needle, part) {
            let start = at - part.lead;
            back.skip_to(start.saturating_sub(rest));
            return Some(start);
        }
        stop = at;
        tries += 1;
    }
    let start = memmem::rfind(&bytes[..bytes.len().min(stop + rest)], needle)?;
    back.skip_to(start.saturating_sub(rest));
    Some(start)
}

// The first occurrence of `needle` at or after `from`, by its searcher. An empty one has no parts.
#[tactic(auto, using(crate::proofs::TextLemmas::find_empty, crate::proofs::TextLemmas::next_match))]
#[inline(always)]
fn find_text(
    text: &str,
    needle: &str,
    searcher: &mut TextSearcher,
    from: usize,
) -> Option<(usize, usize)>
    requires boundary { IsCharBoundary text.now from }
    requires ready { FindsAhead needle.now searcher.old text.now from }
    ensures found { IsNextMatch (text_ends needle.now text.now) from result }
    ensures front { IfSome result (λ m. (k : ℕ) → GoesOnAt m k → FindsAhead needle.now searcher.new text.now k) }
    ensures back { (to : ℕ) → FindsBehind needle.now searcher.old text.now to → FindsBehind needle.now searcher.new text.now to }
{
    let wanted = needle.as_bytes();
    let Some(part) = searcher.first else {
        return Some((from, from));
    };
    let start = first_place(&mut searcher.front, part, text.as_bytes(), wanted, from)?;
    Some((start, start + wanted.len()))
}

// The end of the occurrence of `needle` that starts at `at`.
#[tactic(auto, using(crate::proofs::Rules::text_at))]
#[inline]
fn text_at(text: &str, needle: &str, at: usize) -> Option<usize>
    requires { IsCharBoundary text.now at }
    ensures { result ≡ text_ends needle.now text.now at }
{
    let wanted = needle.as_bytes();
    if is_prefix(&text.as_bytes()[at..], wanted) {
        return Some(at + wanted.len());
    }
    None
}

// The last occurrence of `needle` that ends at or before `to`, by its searcher. An empty one has no parts.
#[tactic(auto, using(crate::proofs::TextLemmas::rfind_empty, crate::proofs::TextLemmas::last_match))]
#[inline(always)]
fn rfind_text(
    text: &str,
    needle: &str,
    searcher: &mut TextSearcher,
    to: usize,
) -> Option<(usize, usize)>
    requires boundary { IsCharBoundary text.now to }
    requires ready { FindsBehind needle.now searcher.old text.now to }
    ensures found { IsLastMatch (text_ends needle.now text.now) to result }
    ensures back { IfSome result (λ m. (k : ℕ) → GoesOnBefore m k → FindsBehind needle.now searcher.new text.now k) }
    ensures front { (from : ℕ) → FindsAhead needle.now searcher.old text.now from → FindsAhead needle.now searcher.new text.now from }
{
    let wanted = needle.as_bytes();
    let Some(part) = searcher.last else {
        return Some((to, to));
    };
    let start = last_place(&mut searcher.back, part, text.as_bytes(), wanted, to)?;
    Some((start, start + wanted.len()))
}

// The start of the occurrence of `needle` that ends at `to`.
#[tactic(auto, using(crate::proofs::Rules::text_before))]
#[inline]
fn text_before(text: &str, needle: &str, to: usize) -> Option<usize>
    requires { IsCharBoundary text.now to }
    ensures { result ≡ start_of (text_ends needle.now text.now) to }
{
    let wanted = needle.as_bytes();
    if is_suffix(&text.as_bytes()[..to], wanted) {
        return Some(to - wanted.len());
    }
    None
}

impl<'p> Pattern for &'p str {
    type Searcher = TextSearcher;

    ghost ends = { λ p. text_ends p.now };

    ghost is_ready = { λ p s text from. FindsAhead p.now s text from };

    ghost is_ready_back = { λ p s text to. FindsBehind p.now s text to };

    #[inline]
    fn searcher(&self, text: &str, from: usize, to: usize) -> TextSearcher {
        searcher_of(*self, text, from, to)
    }

    #[inline(always)]
    fn next_match_by(
        &self,
        searcher: &mut TextSearcher,
        text: &str,
        from: usize,
    ) -> Option<(usize, usize)> {
        find_text(text, *self, searcher, from)
    }

    #[inline]
    fn match_at(&self, text: &str, at: usize) -> Option<usize> {
        text_at(text, *self, at)
    }

    ghost spans = { λ p. text_ends-spans p.now };
}

impl<'p> ClonePattern for &'p str {
    ghost clones_keep = { Prim.search rules };
}

impl<'p> ReversePattern for &'p str {
    #[inline(always)]
    fn last_match_by(
        &self,
        searcher: &mut TextSearcher,
        text: &str,
        to: usize,
    ) -> Option<(usize, usize)> {
        rfind_text(text, *self, searcher, to)
    }

    #[inline]
    fn match_before(&self, text: &str, to: usize) -> Option<usize> {
        text_before(text, *self, to)
    }

    ghost one_start = { λ p. text_ends-one_start p.now };
}

impl<'p, 'q> Pattern for &'q &'p str {
    type Searcher = TextSearcher;

    ghost ends = { λ p. text_ends p.now.now };

    ghost is_ready = { λ p s text from. FindsAhead p.now.now s text from };

    ghost is_ready_back = { λ p s text to. FindsBehind p.now.now s text to };

    #[inline]
    fn searcher(&self, text: &str, from: usize, to: usize) -> TextSearcher {
        searcher_of(**self, text, from, to)
    }

    #[inline(always)]
    fn next_match_by(
        &self,
        searcher: &mut TextSearcher,
        text: &str,
        from: usize,
    ) -> Option<(usize, usize)> {
        find_text(text, **self, searcher, from)
    }

    #[inline]
    fn match_at(&self, text: &str, at: usize) -> Option<usize> {
        text_at(text, **self, at)
    }

    ghost spans = { λ p. text_ends-spans p.now.now };
}

impl<'p, 'q> ClonePattern for &'q &'p str {
    ghost clones_keep = { Prim.search rules };
}

impl<'p, 'q> ReversePattern for &'q &'p str {
    #[inline(always)]
    fn last_match_by(
        &self,
        searcher: &mut TextSearcher,
        text: &str,
        to: usize,
    ) -> Option<(usize, usize)> {
        rfind_text(text, **self, searcher, to)
    }

    #[inline]
    fn match_before(&self, text: &str, to: usize) -> Option<usize> {
        text_before(text, **self, to)
    }

    ghost one_start = { λ p. text_ends-one_start p.now.now };
}

impl<'p> Pattern for &'p String {
    type Searcher = TextSearcher;

    ghost ends = { λ p. text_ends (string_bytes p.now) };

    ghost is_ready = { λ p s text from. FindsAhead (string_bytes p.now) s text from };

    ghost is_ready_back = { λ p s text to. FindsBehind (string_bytes p.now) s text to };

    #[inline]
    fn searcher(&self, text: &str, from: usize, to: usize) -> TextSearcher {
        searcher_of(self.as_str(), text, from, to)
    }

    #[inline(always)]
    fn next_match_by(
        &self,
        searcher: &mut TextSearcher,
        text: &str,
        from: usize,
    ) -> Option<(usize, usize)> {
        find_text(text, self.as_str(), searcher, from)
    }

    #[inline]
    fn match_at(&self, text: &str, at: usize) -> Option<usize> {
        text_at(text, self.as_str(), at)
    }

    ghost spans = { λ p. text_ends-spans (string_bytes p.now) };
}

impl<'p> ClonePattern for &'p String {
    ghost clones_keep = { Prim.search rules };
}

impl<'p> ReversePattern for &'p String {
    #[inline(always)]
    fn last_match_by(
        &self,
        searcher: &mut TextSearcher,
        text: &str,
        to: usize,
    ) -> Option<(usize, usize)> {
        rfind_text(text, self.as_str(), searcher, to)
    }

    #[inline]
    fn match_before(&self, text: &str, to: usize) -> Option<usize> {
        text_before(text, self.as_str(), to)
    }

    ghost one_start = { λ p. text_ends-one_start (string_bytes p.now) };
}
