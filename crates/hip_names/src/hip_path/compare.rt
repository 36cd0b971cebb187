//! Comparisons: they go by the components, whatever the kind.
ghost use Rattle.std.specs.Prelude.{◌≡◌, ◌↔◌, refl, Some, IsTrue};
ghost use Rattle.std.specs.Cmp.{partial_equiv_from_equiv, partial_order_from_total, eq_by_cmp_equiv, on_per, on_equiv, on_po, on_total};
ghost use Rattle.std.specs.Ordering.{eq_by_cmp};
ghost use Rattle.hip_names.specs.Components.{components, path_order};
ghost use Rattle.hip_names.specs.Fed.{path_fed};
ghost use Rattle.hip_names.specs.PathParts.{BeginWith, EndWith};
ghost use Rattle.hip_names.specs.PathLaws.{path_fed_same, path_order_total};

use super::HipPath;
use crate::affix::{begins_with, ends_with};
use crate::fed::feed_path;
use crate::order::{components_eq, path_cmp};
use hip_bytes::Backend;
use std::cmp::Ordering;
use std::fmt;
use std::hash::{Hash, Hasher};

impl<'b, B: Backend> HipPath<'b, B> {
    /// Whether the bytes are a path with the same components.
    #[inline]
    pub fn path_eq(&self, other: &[u8]) -> bool
        ensures { IsTrue result ↔ (components self.now.items ≡ components other.now) }
    {
        components_eq(self.as_path(), other)
    }

    /// The order of this one and of the bytes as paths, by their components.
    #[inline]
    pub fn path_cmp(&self, other: &[u8]) -> Ordering
        ensures { result ≡ path_order self.now.items other.now }
    {
        path_cmp(self.as_path(), other)
    }

    /// Whether the components begin with those of the bytes as a path.
    #[inline]
    pub fn starts_with(&self, base: &[u8]) -> bool
        ensures { IsTrue result ↔ BeginWith (components self.now.items) (components base.now) }
    {
        begins_with(self.as_path(), base)
    }

    /// Whether the components end with those of the bytes as a path.
    #[inline]
    pub fn ends_with(&self, child: &[u8]) -> bool
        ensures { IsTrue result ↔ EndWith (components self.now.items) (components child.now) }
    {
        ends_with(self.as_path(), child)
    }

    /// Whether the bytes are these.
    #[inline]
    pub fn os_str_eq(&self, other: &[u8]) -> bool
        ensures { IsTrue result ↔ (self.now.items ≡ other.now) }
    {
        self.name.os_str_eq(other)
    }
}

impl<'b, B: Backend> PartialEq for HipPath<'b, B> {
    ghost eq = { λ a b. eq_by_cmp path_order a.items b.items };

    ghost laws = { on_per (λ a. a.items) (partial_equiv_from_equiv (eq_by_cmp_equiv path_order_total)) };

    #[inline]
    fn eq(&self, other: &Self) -> bool {
        path_cmp(self.as_path(), other.as_path()).is_eq()
    }
}

impl<'b, B: Backend> Eq for HipPath<'b, B> {
    ghost laws = { on_equiv (λ a. a.items) (eq_by_cmp_equiv path_order_total) };
}

impl<'b, B: Backend> PartialOrd for HipPath<'b, B> {
    ghost partial_cmp = { λ a b. Some (path_order a.items b.items) };

    ghost laws = { on_po (λ a. a.items) (partial_order_from_total path_order_total) };

    #[inline]
    fn partial_cmp(&self, other: &Self) -> Option<Ordering> {
        Some(self.cmp(other))
    }
}

impl<'b, B: Backend> Ord for HipPath<'b, B> {
    ghost cmp = { λ a b. path_order a.items b.items };

    ghost total = { on_total (λ a. a.items) path_order_total };

    ghost matches_partial_cmp = { λ a b. refl };

    ghost matches_eq = { λ a b. refl };

    #[inline]
    fn cmp(&self, other: &Self) -> Ordering {
        path_cmp(self.as_path(), other.as_path())
    }
}

impl<'b, B: Backend> Hash for HipPath<'b, B> {
    ghost hash_input = { λ a. path_fed a.items };

    ghost respects_eq = { λ a b. path_fed_same a.items b.items };

    #[inline]
    fn hash<H: Hasher>(&self, state: &mut H) {
        feed_path(self.as_path(), state);
    }
}

/// As that of the OS string.
impl<'b, B: Backend> fmt::Debug for HipPath<'b, B> {
    fn fmt<W: fmt::Write>(&self, f: &mut fmt::Formatter<W>) -> fmt::Result {
        fmt::Debug::fmt(&self.name, f)
    }
}
