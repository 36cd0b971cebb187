//! OS strings.
pub use hip_names::{HipOsStr, JsonFault, MutateFault, RefMut};
