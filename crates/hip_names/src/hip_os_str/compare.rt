//! Comparisons: they go by the bytes, whatever the kind.
ghost use Rattle.std.specs.Prelude.{◌≡◌, ◌↔◌, nat_eq, refl, Some, IsTrue};
ghost use Rattle.std.specs.Ordering.{nat_cmp};
ghost use Rattle.std.specs.Hash as fed;
ghost use Rattle.std.specs.Cmp.Lexicographic.{pointwise, slice_cmp, nat_list_eq_equiv, nat_list_cmp_total, texts_ties, texts_po};
ghost use Rattle.std.specs.Cmp.{partial_equiv_from_equiv, on_per, on_equiv, on_po, on_total};
ghost use Rattle.std.specs.Cmp.Rules.{hashing};
ghost use Rattle.std.proofs.Common.{rules};
ghost use Rattle.hip_names.specs.Components.{components, path_order};

use super::HipOsStr;
use crate::order::{components_eq, path_cmp};
use bstr::ByteSlice;
use hip_bytes::Backend;
use std::cmp::Ordering;
use std::fmt;
use std::hash::{Hash, Hasher};

impl<'b, B: Backend> HipOsStr<'b, B> {
    /// Whether the bytes are these.
    #[inline]
    pub fn os_str_eq(&self, other: &[u8]) -> bool
        ensures { IsTrue result ↔ (self.now.items ≡ other.now) }
    {
        self.bytes.eq_slice(other)
    }

    /// The lexicographic order of the bytes and these.
    #[inline]
    pub fn os_str_cmp(&self, other: &[u8]) -> Ordering
        ensures { result ≡ slice_cmp nat_cmp self.now.items other.now }
    {
        self.bytes.cmp_slice(other)
    }

    /// Whether the bytes are a path with the components of this one.
    #[inline]
    pub fn path_eq(&self, other: &[u8]) -> bool
        ensures { IsTrue result ↔ (components self.now.items ≡ components other.now) }
    {
        components_eq(self.as_os_str(), other)
    }

    /// The order of this one and of the bytes as paths, by their components.
    #[inline]
    pub fn path_cmp(&self, other: &[u8]) -> Ordering
        ensures { result ≡ path_order self.now.items other.now }
    {
        path_cmp(self.as_os_str(), other)
    }
}

impl<'b, B: Backend> PartialEq for HipOsStr<'b, B> {
    ghost eq = { λ a b. pointwise nat_eq a.items b.items };

    ghost laws = { on_per (λ a. a.items) (partial_equiv_from_equiv nat_list_eq_equiv) };

    #[inline(always)]
    fn eq(&self, other: &Self) -> bool {
        self.bytes == other.bytes
    }
}

impl<'b, B: Backend> Eq for HipOsStr<'b, B> {
    ghost laws = { on_equiv (λ a. a.items) nat_list_eq_equiv };
}

impl<'b, B: Backend> PartialOrd for HipOsStr<'b, B> {
    ghost partial_cmp = { λ a b. Some (slice_cmp nat_cmp a.items b.items) };

    ghost laws = { on_po (λ a. a.items) texts_po };

    #[inline]
    fn partial_cmp(&self, other: &Self) -> Option<Ordering> {
        Some(self.cmp(other))
    }
}

impl<'b, B: Backend> Ord for HipOsStr<'b, B> {
    ghost cmp = { λ a b. slice_cmp nat_cmp a.items b.items };

    ghost total = { on_total (λ a. a.items) nat_list_cmp_total };

    ghost matches_partial_cmp = { λ a b. refl };

    ghost matches_eq = { λ a b. texts_ties a.items b.items };

    #[inline(always)]
    fn cmp(&self, other: &Self) -> Ordering {
        self.bytes.cmp(&other.bytes)
    }
}

impl<'b, B: Backend> Hash for HipOsStr<'b, B> {
    ghost hash_input = { λ a. fed.slice fed.u8 a.items };

    ghost respects_eq = { Prim.search (hashing, rules) };

    #[inline]
    fn hash<H: Hasher>(&self, state: &mut H) {
        self.bytes.hash(state);
    }
}

/// As that of a text, bytes that aren't UTF-8 as `\xff`.
impl<'b, B: Backend> fmt::Debug for HipOsStr<'b, B> {
    fn fmt<W: fmt::Write>(&self, f: &mut fmt::Formatter<W>) -> fmt::Result {
        fmt::Debug::fmt(&self.as_os_str().as_bstr(), f)
    }
}
