//! OS strings and paths: **an OS string is a handle of bytes, and a path is one that is compared by its components.**
//!
//! - [`HipOsStr`] is the OS string, generic in the [`Backend`] as [`HipByt`] is. On Unix an OS string is bytes, which needn't be UTF-8.
//! - [`HipPath`] is the path. [`HipPath::components`] gives its [`Component`]s; two paths are equal, and hash alike, where these are the
//!   same.
//! - [`HipPath::file_name`], [`HipPath::parent`] and their kin cut a part out of a path, as a handle; [`HipPath::join`] puts two together.
//! - [`path_cmp`] and [`components_eq`] compare paths that are plain bytes, without memory.
//!
//! The words of the contracts are those of hip_bytes, and `Components` (the components of a path, and their order), `PathParts` (the parts of a
//! path), `PathCuts` (the answers of calls that cut these), `Shown` and `Displayed` (what is seen of the iterator, and of a path that is printed),
//! `Fed` (what a path feeds a hasher), `Decode` (OS strings read as texts) and `JsonPath` (the JSON string of a path) of `specs/`.
#![tactic(auto)]

mod affix;
mod component;
mod fed;
mod hip_os_str;
mod hip_path;
mod join;
pub mod laws;
mod order;
mod parts;

pub use component::{Component, Components};
pub use hip_bytes::{
    Allocated, Appended, Backend, Block, Borrowed, Extent, GrowFault, HipByt, INLINE_CAPACITY,
    Inline, JsonFault, Kind, Length, Meter, MutateFault, Rc, RefMut, Room, Source, Span, Unique,
    Whole, mutate, with_mutated,
};
pub use hip_os_str::HipOsStr;
pub use hip_path::{Display, HipPath};
pub use hip_text::HipStr;
pub use order::{components_eq, path_cmp};
