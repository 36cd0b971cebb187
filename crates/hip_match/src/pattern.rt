//! Patterns, which can be looked for in a text.
ghost use Rattle.std.specs.Prelude.{◌≡◌, ℕ, List, Option, Some, IfSome};
ghost use Rattle.std.specs.Option.{is_some};
ghost use Rattle.std.specs.Str.{IsUtf8, IsCharBoundary};
ghost use Rattle.hip_match.specs.Clones.{ClonesKeep};
ghost use Rattle.hip_match.specs.Occurrence.{IsNextMatch, IsLastMatch, IsCut, IsOneChar, start_of, GoesOnAt, GoesOnBefore};

/// A pattern that can be looked for in a text from its front.
///
/// A pattern occurs at most once from a given start. The positions are byte positions at character boundaries.
pub trait Pattern: Drop {
    /// The state that a walk keeps from one match to the next.
    type Searcher: Drop;

    /// The condition under which a search may be made: none but for a [`CharPred`](crate::predicate::CharPred), whose closure has to be callable.
    ghost can_search: { Self → Type 0 } = { λ _. Unit {0} };

    /// The end of the occurrence that starts at a place of a text, if one does.
    ghost ends: { Self → List ℕ → ℕ → Option ℕ };

    /// The searcher finds what starts in a text at a place or behind it.
    ghost is_ready: { Self → Self.Searcher → List ℕ → ℕ → Type 0 } = { λ _ _ _ _. Unit {0} };

    /// The searcher finds what ends in a text at a place or before it.
    ghost is_ready_back: { Self → Self.Searcher → List ℕ → ℕ → Type 0 } = { λ _ _ _ _. Unit {0} };

    /// The searcher of a walk over what lies from `from` up to `to`.
    fn searcher(&self, text: &str, from: usize, to: usize) -> Self::Searcher
        ensures front { IsCharBoundary text.now from → is_ready self.now result text.now from }
        ensures back { IsCharBoundary text.now to → is_ready_back self.now result text.now to };

    /// The occurrence that starts first at or after `from`, as its start and end.
    #[inline]
    fn next_match(&self, text: &str, from: usize) -> Option<(usize, usize)>
        requires can { can_search self.now }
        requires boundary { IsCharBoundary text.now from }
        ensures { IsNextMatch (ends self.now text.now) from result }
    {
        let mut searcher = self.searcher(text, from, text.len());
        self.next_match_by(&mut searcher, text, from)
    }

    /// Like `next_match`, but by a walk's searcher, which goes on behind the match.
    fn next_match_by(
        &self,
        searcher: &mut Self::Searcher,
        text: &str,
        from: usize,
    ) -> Option<(usize, usize)>
        requires can { can_search self.now }
        requires ready { is_ready self.now searcher.old text.now from }
        requires boundary { IsCharBoundary text.now from }
        ensures found { IsNextMatch (ends self.now text.now) from result }
        ensures front { IfSome result (λ m. (k : ℕ) → GoesOnAt m k
            → is_ready self.now searcher.new text.now k) }
        ensures back { (to : ℕ) → is_ready_back self.now searcher.old text.now to
            → is_ready_back self.now searcher.new text.now to };

    /// The end of the occurrence that starts at `at`.
    fn match_at(&self, text: &str, at: usize) -> Option<usize>
        requires can { can_search self.now }
        requires boundary { IsCharBoundary text.now at }
        ensures { result ≡ ends self.now text.now at };

    /// An occurrence lies between boundaries.
    ghost spans: { (p : Self) (t : List ℕ) (a b : ℕ) → IsUtf8 t → ends p t a ≡ Some b → IsCut t (a, b) };
}

/// A pattern that can be looked for from a text's end too. It occurs at most once to a given end.
pub trait ReversePattern: Pattern {
    /// Like `searcher`, but prepared for a walk that begins at the end.
    #[inline]
    fn reverse_searcher(&self, text: &str, from: usize, to: usize) -> Self::Searcher
        ensures front { IsCharBoundary text.now from → Self.is_ready self.now result text.now from }
        ensures back { IsCharBoundary text.now to → Self.is_ready_back self.now result text.now to }
    {
        self.searcher(text, from, to)
    }

    /// The occurrence that ends last at or before `to`, as its start and end.
    #[inline]
    fn last_match(&self, text: &str, to: usize) -> Option<(usize, usize)>
        requires can { Self.can_search self.now }
        requires boundary { IsCharBoundary text.now to }
        ensures { IsLastMatch (Self.ends self.now text.now) to result }
    {
        let mut searcher = self.reverse_searcher(text, 0, to);
        self.last_match_by(&mut searcher, text, to)
    }

    /// Like `last_match`, but by a walk's searcher, which goes on before the match.
    fn last_match_by(
        &self,
        searcher: &mut Self::Searcher,
        text: &str,
        to: usize,
    ) -> Option<(usize, usize)>
        requires can { Self.can_search self.now }
        requires ready { Self.is_ready_back self.now searcher.old text.now to }
        requires boundary { IsCharBoundary text.now to }
        ensures found { IsLastMatch (Self.ends self.now text.now) to result }
        ensures back { IfSome result (λ m. (k : ℕ) → GoesOnBefore m k
            → Self.is_ready_back self.now searcher.new text.now k) }
        ensures front { (from : ℕ) → Self.is_ready self.now searcher.old text.now from
            → Self.is_ready self.now searcher.new text.now from };

    /// The start of the occurrence that ends at `to`.
    fn match_before(&self, text: &str, to: usize) -> Option<usize>
        requires can { Self.can_search self.now }
        requires boundary { IsCharBoundary text.now to }
        ensures { result ≡ start_of (Self.ends self.now text.now) to };

    /// No two occurrences end at one place.
    ghost one_start: { (p : Self) (t : List ℕ) (a b c : ℕ) → IsUtf8 t → Self.ends p t a ≡ Some c → Self.ends p t b ≡ Some c → a ≡ b };
}

/// A pattern that may be trimmed from both ends of a text at once.
pub trait DoubleEndedPattern: ReversePattern {
    /// Whether an occurrence starts at `at`.
    #[inline]
    fn starts_at(&self, text: &str, at: usize) -> bool
        requires can { Self.can_search self.now }
        requires boundary { IsCharBoundary text.now at }
        ensures { result ≡ is_some (Self.ends self.now text.now at) }
    {
        self.match_at(text, at).is_some()
    }
}

/// A pattern each of whose occurrences is one character, so that the rightmost matches are the leftmost ones reversed.
pub trait OneChar: ReversePattern {
    /// Whether an occurrence ends at `to`.
    #[inline]
    fn ends_at(&self, text: &str, to: usize) -> bool
        requires can { Self.can_search self.now }
        requires boundary { IsCharBoundary text.now to }
        ensures { result ≡ is_some (start_of (Self.ends self.now text.now) to) }
    {
        self.match_before(text, to).is_some()
    }

    /// Each occurrence is one character.
    ghost one_char: { (p : Self) (t : List ℕ) (a b : ℕ) → IsUtf8 t → Self.ends p t a ≡ Some b → IsOneChar t (a, b) };
}

/// A pattern whose clones are found where it is.
pub trait ClonePattern: Pattern + Clone {
    /// A clone may be searched for where the pattern may, and occurs where it does.
    ghost clones_keep: { ClonesKeep Self.is_clone Self.can_search Self.ends };
}
