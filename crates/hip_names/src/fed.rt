//! The bytes that a path feeds a hasher.
ghost use Rattle.std.specs.Prelude.{◌≡◌, fold};
ghost use Rattle.hip_names.specs.Fed.{component_fed, component_text, path_fed};
ghost use Rattle.hip_names.specs.Shown.{shown};

use crate::component::{Component, Components};
use std::hash::Hasher;

/// The text of a component.
#[inline]
fn text_of(component: Component<'_>) -> &[u8]
    ensures { result.now ≡ component_text (shown component.entry) }
{
    match component {
        Component::RootDir => b"/",
        Component::CurDir => b".",
        Component::ParentDir => b"..",
        Component::Normal(name) => name,
    }
}

#[inline]
fn feed_component<H: Hasher>(component: Component<'_>, state: &mut H)
    ensures { state.new ≡ fold H.write state.old (component_fed (shown component.entry)) }
{
    let text = text_of(component);
    state.write_usize(text.len());
    state.write(text);
}

/// Feeds a path to a hasher, by its components.
#[tactic(auto, unfolding(crate::specs::Fed::path_fed))]
pub(crate) fn feed_path<H: Hasher>(path: &[u8], state: &mut H)
    ensures { state.new ≡ fold H.write state.old (path_fed path.now) }
{
    let mut components = Components::new(path);
    while let Some(component) = components.next() {
        feed_component(component, state);
    }
    state.write_usize(0);
}
