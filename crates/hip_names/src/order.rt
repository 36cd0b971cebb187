//! The order of paths.
ghost use Rattle.std.specs.Prelude.{◌≡◌, ◌≤◌, ◌↔◌, drop, length, IsTrue};
ghost use Rattle.std.specs.Cmp.Lexicographic.{slice_cmp};
ghost use Rattle.hip_names.specs.Components.{component_order, components, names, path_order};
ghost use Rattle.hip_names.specs.Shared.{IsSharedFront};
ghost use Rattle.hip_names.specs.Shown.{to_come};

use crate::component::{Components, next_name};
use hip_raw::common_prefix;
use std::cmp::Ordering;

/// The order of two paths, by their components. Both are walked from the last slash before the first byte that differs; nothing is
/// allocated, and paths of the same bytes aren't walked at all.
#[tactic(auto, using(crate::proofs::Orders::fronts), unfolding(crate::specs::Components::path_order))]
#[inline]
pub fn path_cmp(left: &[u8], right: &[u8]) -> Ordering
    ensures { result ≡ path_order left.now right.now }
{
    if same_bytes(left, right) {
        return Ordering::Equal;
    }
    let front = shared_front(left, right);
    if front == 0 {
        return walk(Components::new(left), Components::new(right));
    }
    walk_names(behind(left, front), behind(right, front))
}

/// The bytes from a position on.
#[inline]
fn behind(path: &[u8], front: usize) -> &[u8]
    requires { front ≤ length path.now }
    ensures { result.now ≡ drop front path.now }
{
    &path[front..]
}

/// Whether these are the same bytes.
#[inline]
fn same_bytes(left: &[u8], right: &[u8]) -> bool
    ensures { IsTrue result ↔ (left.now ≡ right.now) }
{
    left == right
}

/// The length of the prefix that both have in common, up to its last slash.
#[inline]
fn shared_front(left: &[u8], right: &[u8]) -> usize
    ensures { IsSharedFront left.now right.now result }
{
    let mut front = common_prefix(left, right);
    while front > 0 && left[front - 1] != b'/' {
        front -= 1;
    }
    front
}

/// The order of the components that are to come on each side.
#[inline]
fn walk(mut left: Components<'_>, mut right: Components<'_>) -> Ordering
    ensures { result ≡ slice_cmp component_order (to_come left.entry) (to_come right.entry) }
{
    while let Some(a) = left.next() {
        let Some(b) = right.next() else {
            return Ordering::Greater;
        };
        match a.cmp(&b) {
            Ordering::Equal => {}
            other => return other,
        }
    }
    match right.next() {
        Some(_) => Ordering::Less,
        None => Ordering::Equal,
    }
}

/// The order of the components that the parts of two lists of bytes name.
#[inline]
fn walk_names(mut left: &[u8], mut right: &[u8]) -> Ordering
    ensures { result ≡ slice_cmp component_order (names left.entry.now) (names right.entry.now) }
{
    while let Some(a) = next_name(&mut left) {
        let Some(b) = next_name(&mut right) else {
            return Ordering::Greater;
        };
        match a.cmp(&b) {
            Ordering::Equal => {}
            other => return other,
        }
    }
    match next_name(&mut right) {
        Some(_) => Ordering::Less,
        None => Ordering::Equal,
    }
}

/// Whether two paths have the same components.
#[tactic(auto, using(crate::proofs::Orders::orders))]
#[inline]
pub fn components_eq(left: &[u8], right: &[u8]) -> bool
    ensures { IsTrue result ↔ (components left.now ≡ components right.now) }
{
    path_cmp(left, right).is_eq()
}
