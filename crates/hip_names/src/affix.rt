//! Whether a path begins, or ends, with the components of another.
ghost use Rattle.std.specs.Prelude.{◌≡◌, ◌↔◌, IsTrue};
ghost use Rattle.hip_names.specs.Components.{components};
ghost use Rattle.hip_names.specs.PathParts.{BeginWith, EndWith};
ghost use Rattle.hip_names.specs.Shown.{shown};

use crate::component::{Component, Components};

/// Whether these are the same component.
#[inline]
fn is_same(left: Component<'_>, right: Component<'_>) -> bool
    ensures { IsTrue result ↔ (shown left.entry ≡ shown right.entry) }
{
    left == right
}

/// Whether the components of a path begin with those of another.
#[tactic(auto, using(crate::proofs::Affixes::fronts))]
pub(crate) fn begins_with(path: &[u8], front: &[u8]) -> bool
    ensures { IsTrue result ↔ BeginWith (components path.now) (components front.now) }
{
    let mut components = Components::new(path);
    let mut wanted = Components::new(front);
    while let Some(want) = wanted.next() {
        let Some(component) = components.next() else {
            return false;
        };
        if !is_same(component, want) {
            return false;
        }
    }
    true
}

/// Whether the components of a path end with those of another.
#[tactic(auto, using(crate::proofs::Affixes::backs))]
pub(crate) fn ends_with(path: &[u8], back: &[u8]) -> bool
    ensures { IsTrue result ↔ EndWith (components path.now) (components back.now) }
{
    let mut components = Components::new(path);
    let mut wanted = Components::new(back);
    while let Some(want) = wanted.next_back() {
        let Some(component) = components.next_back() else {
            return false;
        };
        if !is_same(component, want) {
            return false;
        }
    }
    true
}
