//! Texts: **a text is a handle of bytes whose list is UTF-8, and each call says of it what the bytes' call says, and the boundary
//! where there is one.**
//!
//! - [`HipStr`] is the text, generic in the [`Backend`] as [`HipByt`] is.
//! - [`SliceError`] says why a range is none of a text, [`SliceRefusal`] why a call gave no slice.
//! - [`Writer`] is a text with its allocator, for `write!` and as a [`fmt::Write`](std::fmt::Write).
//!
//! The words of the contracts are those of hip_bytes, and `Boundary` (where a text may be cut), `Slice` and `SliceError` (ranges of a
//! text and their faults) and `BorshText` (a text's form that is read) of `specs/`.
#![tactic(auto)]

mod faults;
mod from_utf8_error;
mod hip_str;
pub mod laws;
mod ref_mut;
mod slice_error;
mod writer;

pub use faults::{BytesFault, Utf16Fault};
pub use from_utf8_error::FromUtf8Error;
pub use hip_bytes::{
    Allocated, Appended, Backend, Block, Borrowed, BorshFault, ByteSink, ByteSource, Extent,
    FromRead, Fuse, GrowFault, HipByt, INLINE_CAPACITY, Inline, IoFault, JsonFault, Kind, Length,
    Meter, MutateFault, Rc, Room, SliceSource, Sole, Span, ToWrite, Unique, VecSink, Whole,
    copy_counted, fill_counted,
};
pub use hip_str::HipStr;
pub use ref_mut::{RefMut, TextSource, mutate, mutate_metered, with_mutated, with_mutated_metered};
pub use slice_error::{SliceError, SliceErrorKind, SliceRefusal};
pub use writer::Writer;
