//! Paths, and their components.
pub use hip_names::{
    Component, Components, Display, GrowFault, HipPath, JsonFault, MutateFault, RefMut,
    components_eq, path_cmp,
};
