//! Laws of paths and of their components: the contract of each function is the law.
ghost use Rattle.std.specs.Path.{path_join};
ghost use Rattle.std.specs.Prelude.{◌≡◌, ◌<◌, ◌++◌, ◌↔◌, IsTrue, false, length};
ghost use Rattle.hip_names.specs.Components.{component_order, components, names, path_order};
ghost use Rattle.hip_names.specs.PathParts.{has_root};
ghost use Rattle.hip_names.specs.Shown.{shown};

use crate::component::Component;
use crate::hip_path::HipPath;
use hip_bytes::Backend;
use std::cmp::Ordering;

/// Paths are equal exactly where their components are. (That equal ones hash alike is a law of [`HipPath`]'s `Hash`.)
#[tactic(auto, using(crate::proofs::Orders::orders))]
pub fn equality_by_components<'b, B: Backend>(left: &HipPath<'b, B>, right: &HipPath<'b, B>) -> bool
    ensures { IsTrue result ↔ (components left.now.items ≡ components right.now.items) }
{
    left == right
}

/// Paths are ordered as the lists of their components are.
pub fn order_by_components<'b, B: Backend>(
    left: &HipPath<'b, B>,
    right: &HipPath<'b, B>,
) -> Ordering
    ensures { result ≡ path_order left.now.items right.now.items }
{
    left.cmp(right)
}

/// Components are equal exactly where they are of the same sort and, if they are names, have the same bytes.
pub fn equality_of_components(left: Component<'_>, right: Component<'_>) -> bool
    ensures { IsTrue result ↔ (shown left.entry ≡ shown right.entry) }
{
    left == right
}

/// Components are ordered by their sort, the root before `.` before `..` before names, and names by their bytes.
pub fn order_of_components(left: Component<'_>, right: Component<'_>) -> Ordering
    ensures { result ≡ component_order (shown left.entry) (shown right.entry) }
{
    left.cmp(&right)
}

/// Where a path that isn't absolute is joined to one that isn't empty, its names stand behind the components of that.
#[tactic(auto, using(crate::proofs::Joins::joins))]
pub fn join_by_components(base: &[u8], path: &[u8])
    ensures { 0 < length base.now → has_root path.now ≡ false
        → components (path_join base.now path.now) ≡ components base.now ++ names path.now }
{}
