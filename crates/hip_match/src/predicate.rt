//! A closure as a pattern.
#![tactic(auto, using(crate::proofs::Rules::predicate))]

ghost use Rattle.std.specs.Prelude.{◌≡◌, ℕ, Bool};
ghost use Rattle.std.specs.Char.{IsScalar};
ghost use Rattle.hip_match.specs.Answers.{answer_at};
ghost use Rattle.hip_match.specs.Characters.{char_ends};
ghost use Rattle.hip_match.specs.CharLaws.{char_ends-spans, char_ends-one_start, char_ends-one_char};

use crate::chars::{CharSet, end_of, first_of, last_of, start_before};
use crate::chosen::{Chosen, choose};
use crate::pattern::{DoubleEndedPattern, OneChar, Pattern, ReversePattern};

/// The characters that a closure answers yes for.
#[derive(Clone, Drop)]
pub struct CharPred<F> {
    test: F,
    chosen: Chosen,
}

/// The answers for [`CharPred::with`], which the caller's proof chooses by what `seen` holds. No code can read them.
pub fn choose_by<T>(seen: &T) -> Chosen
    ghost passes: { ℕ → Bool }
    ensures { (c : ℕ) → IsScalar c → answer_at result.answers c ≡ passes c }
{
    let _ = seen;
    choose()
}

impl<F: Fn(char) -> bool> CharPred<F> {
    /// The characters that `test` passes, where `chosen` has its answers. A caller with type parameters makes those by [`choose_by`] in a function without any.
    pub fn with(test: F, chosen: Chosen) -> Self
        requires { (c : ℕ) → IsScalar c
            → F.pre test c
            × ((answer : Bool) → F.post test c answer → answer ≡ answer_at chosen.answers c) }
        ensures can { ⟦<CharPred<F> as Pattern>⟧.can_search result }
        ensures ends { ⟦<CharPred<F> as Pattern>⟧.ends result
            ≡ char_ends (λ c. answer_at chosen.answers c) }
        ensures chosen { (passes : ℕ → Bool)
            → ((c : ℕ) → IsScalar c → answer_at chosen.answers c ≡ passes c)
            → ⟦<CharPred<F> as Pattern>⟧.ends result ≡ char_ends passes }
    {
        CharPred { test, chosen }
    }

    /// The characters that `test` passes. It may be called on every character, and gives one answer for each.
    pub fn new(test: F) -> Self
        ghost passes: { ℕ → Bool }
        requires { (c : ℕ) → IsScalar c
            → F.pre test c × ((answer : Bool) → F.post test c answer → answer ≡ passes c) }
        ensures can { ⟦<CharPred<F> as Pattern>⟧.can_search result }
        ensures ends { ⟦<CharPred<F> as Pattern>⟧.ends result ≡ char_ends passes }
    {
        CharPred {
            test,
            chosen: choose(),
        }
    }
}

impl<F: Fn(char) -> bool> CharSet for CharPred<F> {
    ghost can_test = { λ p. (c : ℕ) → IsScalar c → F.pre p.test c × ((answer : Bool) → F.post p.test c answer → answer ≡ answer_at p.chosen.answers c) };

    ghost belongs = { λ p c. answer_at p.chosen.answers c };

    #[inline]
    fn has(&self, c: char) -> bool {
        (self.test)(c)
    }
}

impl<F: Fn(char) -> bool> Pattern for CharPred<F> {
    type Searcher = ();

    ghost can_search = { λ p. (c : ℕ) → IsScalar c → F.pre p.test c × ((answer : Bool) → F.post p.test c answer → answer ≡ answer_at p.chosen.answers c) };

    ghost ends = { λ p. char_ends (λ c. answer_at p.chosen.answers c) };

    #[inline]
    fn searcher(&self, _text: &str, _from: usize, _to: usize) {}

    #[inline]
    fn next_match_by(&self, _searcher: &mut (), text: &str, from: usize) -> Option<(usize, usize)> {
        first_of(self, text, from)
    }

    #[inline]
    fn match_at(&self, text: &str, at: usize) -> Option<usize> {
        end_of(self, text, at)
    }

    ghost spans = { λ p. char_ends-spans (λ c. answer_at p.chosen.answers c) };
}

impl<F: Fn(char) -> bool> ReversePattern for CharPred<F> {
    #[inline]
    fn last_match_by(&self, _searcher: &mut (), text: &str, to: usize) -> Option<(usize, usize)> {
        last_of(self, text, to)
    }

    #[inline]
    fn match_before(&self, text: &str, to: usize) -> Option<usize> {
        start_before(self, text, to)
    }

    ghost one_start = { λ p. char_ends-one_start (λ c. answer_at p.chosen.answers c) };
}

impl<F: Fn(char) -> bool> DoubleEndedPattern for CharPred<F> {}

impl<F: Fn(char) -> bool> OneChar for CharPred<F> {
    ghost one_char = { λ p. char_ends-one_char (λ c. answer_at p.chosen.answers c) };
}
