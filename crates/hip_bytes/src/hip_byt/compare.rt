//! Comparisons: they go by the bytes, whatever the kind.
ghost use Rattle.std.specs.Prelude.{◌≡◌, ◌↔◌, nat_eq, refl, Some, IsTrue};
ghost use Rattle.std.specs.Ordering.{nat_cmp};
ghost use Rattle.std.specs.Hash as fed;
ghost use Rattle.std.specs.Cmp.Lexicographic.{pointwise, slice_cmp, nat_list_eq_equiv, nat_list_cmp_total, texts_ties, texts_po};
ghost use Rattle.std.specs.Cmp.{partial_equiv_from_equiv, on_per, on_equiv, on_po, on_total};
ghost use Rattle.std.specs.Cmp.Rules.{hashing};
ghost use Rattle.std.proofs.Common.{rules};

use super::HipByt;
use hip_raw::{Backend, equal, order};
use std::cmp::Ordering;
use std::fmt;
use std::hash::{Hash, Hasher};

impl<'b, B: Backend> HipByt<'b, B> {
    /// Whether the bytes are these.
    #[inline]
    pub fn eq_slice(&self, other: &[u8]) -> bool
        ensures { IsTrue result ↔ (self.now.items ≡ other.now) }
    {
        equal(self.as_slice(), other)
    }

    /// The lexicographic order of the bytes and these.
    #[inline]
    pub fn cmp_slice(&self, other: &[u8]) -> Ordering
        ensures { result ≡ slice_cmp nat_cmp self.now.items other.now }
    {
        order(self.as_slice(), other)
    }

    /// Whether the bytes are those of a value on another backend.
    #[inline]
    pub fn eq_with<B2: Backend>(&self, other: &HipByt<'_, B2>) -> bool
        ensures { IsTrue result ↔ (self.now.items ≡ other.now.items) }
    {
        self.eq_slice(other.as_slice())
    }

    /// The lexicographic order of the bytes and those of a value on another backend.
    #[inline]
    pub fn cmp_with<B2: Backend>(&self, other: &HipByt<'_, B2>) -> Ordering
        ensures { result ≡ slice_cmp nat_cmp self.now.items other.now.items }
    {
        self.cmp_slice(other.as_slice())
    }
}

impl<'b, B: Backend> PartialEq for HipByt<'b, B> {
    ghost eq = { λ a b. pointwise nat_eq a.items b.items };

    ghost laws = { on_per (λ a. a.items) (partial_equiv_from_equiv nat_list_eq_equiv) };

    #[inline(always)]
    fn eq(&self, other: &Self) -> bool {
        equal(self.as_slice(), other.as_slice())
    }
}

impl<'b, B: Backend> Eq for HipByt<'b, B> {
    ghost laws = { on_equiv (λ a. a.items) nat_list_eq_equiv };
}

impl<'b, B: Backend> PartialOrd for HipByt<'b, B> {
    ghost partial_cmp = { λ a b. Some (slice_cmp nat_cmp a.items b.items) };

    ghost laws = { on_po (λ a. a.items) texts_po };

    #[inline]
    fn partial_cmp(&self, other: &Self) -> Option<Ordering> {
        Some(self.cmp(other))
    }
}

impl<'b, B: Backend> Ord for HipByt<'b, B> {
    ghost cmp = { λ a b. slice_cmp nat_cmp a.items b.items };

    ghost total = { on_total (λ a. a.items) nat_list_cmp_total };

    ghost matches_partial_cmp = { λ a b. refl };

    ghost matches_eq = { λ a b. texts_ties a.items b.items };

    #[inline(always)]
    fn cmp(&self, other: &Self) -> Ordering {
        order(self.as_slice(), other.as_slice())
    }
}

impl<'b, B: Backend> Hash for HipByt<'b, B> {
    ghost hash_input = { λ a. fed.slice fed.u8 a.items };

    ghost respects_eq = { Prim.search (hashing, rules) };

    #[inline]
    fn hash<H: Hasher>(&self, state: &mut H) {
        self.as_slice().hash(state);
    }
}

impl<'b, B: Backend> fmt::Debug for HipByt<'b, B> {
    fn fmt<W: fmt::Write>(&self, f: &mut fmt::Formatter<W>) -> fmt::Result {
        fmt::Debug::fmt(&self.as_slice(), f)
    }
}
