//! Sets of characters, which a walk finds by the places where they start.

ghost use Rattle.std.specs.Prelude.{◌≡◌, ◌<◌, ◌≤◌, ℕ, Bool, List, IfSome, length};
ghost use Rattle.std.specs.Str.{IsCharBoundary};
ghost use Rattle.hip_match.specs.Characters.{char_ends};
ghost use Rattle.hip_match.specs.MarkedSets.{AreFirstPlaces};
ghost use Rattle.hip_match.specs.Marks.{PassesAt};
ghost use Rattle.hip_match.specs.Occurrence.{GoesOnAt, GoesOnBefore, IsLastMatch, IsNextMatch};
ghost use Rattle.hip_match.specs.Searchers.{AreAhead, AreBehind};

use crate::chars::{CharSet, first_of, last_of};
use crate::marks::Marks;
use crate::place_test::PlaceTest;

/// A set of characters that is found by the places where they start.
pub(crate) trait MarkedSet: CharSet + Drop {
    /// Tests the places where the characters start.
    type Test: PlaceTest;

    /// The characters are found by the places that pass such a test.
    ghost is_found_by: { Self → (List ℕ → ℕ → Bool) → Type 0 };

    /// Where the character at `at` ends, if it belongs. The place passes.
    fn end_at_mark(&self, test: &Self::Test, text: &str, at: usize) -> Option<usize>
        requires can { Self.can_test self.now }
        requires found { is_found_by self.now (⟦<Self::Test as PlaceTest>⟧.places test.now) }
        requires within { at < length text.now }
        requires boundary { IsCharBoundary text.now at }
        requires passes { PassesAt (⟦<Self::Test as PlaceTest>⟧.places test.now) text.now at }
        ensures { result ≡ char_ends (Self.belongs self.now) text.now at };

    /// The places by which the characters are found are where they start.
    ghost first_places: { (s : Self) (places : List ℕ → ℕ → Bool) → is_found_by s places → AreFirstPlaces (Self.belongs s) places };
}

// The first character of a set at or after `from`, by a walk's searcher.
#[inline(always)]
pub(crate) fn next_marked<S: MarkedSet>(
    set: &S,
    searcher: &mut Option<Marks<S::Test>>,
    text: &str,
    from: usize,
) -> Option<(usize, usize)>
    requires can { S.can_test set.now }
    requires ready { AreAhead (S.is_found_by set.now) (⟦<S::Test as PlaceTest>⟧.places) searcher.old text.now from }
    requires boundary { IsCharBoundary text.now from }
    ensures found { IsNextMatch (char_ends (S.belongs set.now) text.now) from result }
    ensures front { IfSome result (λ m. (k : ℕ) → GoesOnAt m k
        → AreAhead (S.is_found_by set.now) (⟦<S::Test as PlaceTest>⟧.places) searcher.new text.now k) }
    ensures back { (to : ℕ) → AreBehind (S.is_found_by set.now) (⟦<S::Test as PlaceTest>⟧.places) searcher.old text.now to
        → AreBehind (S.is_found_by set.now) (⟦<S::Test as PlaceTest>⟧.places) searcher.new text.now to }
{
    let Some(marks) = searcher else {
        return first_of(set, text, from);
    };
    let bytes = text.as_bytes();
    let mut past = from;
    while let Some(at) = marks.front.next(&marks.test, bytes, past) {
        if let Some(end) = set.end_at_mark(&marks.test, text, at) {
            return Some((at, end));
        }
        past = at + 1;
    }
    None
}

// The last character of a set at or before `to`, by a walk's searcher.
#[inline(always)]
pub(crate) fn last_marked<S: MarkedSet>(
    set: &S,
    searcher: &mut Option<Marks<S::Test>>,
    text: &str,
    to: usize,
) -> Option<(usize, usize)>
    requires can { S.can_test set.now }
    requires ready { AreBehind (S.is_found_by set.now) (⟦<S::Test as PlaceTest>⟧.places) searcher.old text.now to }
    requires boundary { IsCharBoundary text.now to }
    ensures found { IsLastMatch (char_ends (S.belongs set.now) text.now) to result }
    ensures back { IfSome result (λ m. (k : ℕ) → GoesOnBefore m k
        → AreBehind (S.is_found_by set.now) (⟦<S::Test as PlaceTest>⟧.places) searcher.new text.now k) }
    ensures front { (from : ℕ) → AreAhead (S.is_found_by set.now) (⟦<S::Test as PlaceTest>⟧.places) searcher.old text.now from
        → AreAhead (S.is_found_by set.now) (⟦<S::Test as PlaceTest>⟧.places) searcher.new text.now from }
{
    let Some(marks) = searcher else {
        return last_of(set, text, to);
    };
    let bytes = text.as_bytes();
    let mut past = to;
    while let Some(at) = marks.back.last(&marks.test, bytes, past) {
        if let Some(end) = set.end_at_mark(&marks.test, text, at) {
            return Some((at, end));
        }
        past = at;
    }
    None
}
