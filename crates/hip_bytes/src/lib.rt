//! Byte strings: **a handle is a list of bytes with a kind and a capacity, and each call says what it makes of them, when it may allocate,
//! and how many bytes it copies.**
//!
//! - [`HipByt`] is the handle, generic in the [`Backend`] that owns what doesn't fit the handle itself: [`Rc`] shares owners,
//!   [`Unique`] doesn't.
//! - [`Kind`] says where the bytes of a handle lie.
//! - [`SliceError`] says why a range is none of a handle's bytes, [`SliceRefusal`] why a call gave no slice, [`GrowFault`] why a list
//!   wasn't made.
//! - [`BorshFault`] says why a Borsh form wasn't written to a [`ByteSink`] or read from a [`ByteSource`], [`JsonFault`] why a JSON value
//!   wasn't read.
//! - [`RefMut`] lends a value of a [`Source`], as a handle is one, as a vector; [`mutate`] makes one in functions that are generic in
//!   the source. [`with_mutated`] lends the vector to a closure, and [`MutateFault`] says what a refusal left.
//! - [`Writer`] is a handle with its allocator, for `write!` and as an [`io::Write`](std::io::Write).
//! - [`Piece`] is what joins are made of, bytes or texts.
//! - What an implementor of [`Backend`], or a caller of the representations, names is handed on: [`Room`], [`Extent`], [`Span`],
//!   [`Whole`], [`Appended`], [`Block`], [`Inline`], [`Length`], [`Borrowed`], [`Allocated`], [`Sole`], [`fill_counted`],
//!   [`copy_counted`].
//!
//! A call that copies has a form with the suffix `_metered` and a last argument `&mut Meter`; the plain call is that form with a fresh
//! meter. Conversions from a `Cow`, and into a vector or a `Cow`, have none. A call that may allocate takes the allocator first, and a
//! refused one changes nothing.
//!
//! The words of the contracts stand in `specs/`: `Handle` (a handle as clauses see it), `Kinds` (the kind and the capacity that a call
//! gives), `Made` and `Change` (the answers of calls that make or change a handle), `Cost` (the bytes that a call copies, and where it may
//! need memory), `Range`, `Slice` and `SliceError` (ranges and their faults), `Join` (joins and repetitions), `Borsh` and `Json` (forms
//! that are written and read), `GrowFault`, `FormatFault` and `RefMut`.
#![tactic(auto)]

mod borsh_fault;
mod draft;
mod gathering;
mod grow_fault;
mod hip_byt;
mod json_fault;
mod kind;
pub mod laws;
mod mutate_fault;
mod piece;
mod range;
mod ref_mut;
mod slice_error;
mod writer;

pub use borsh_fault::BorshFault;
pub use grow_fault::GrowFault;
pub use hip_byt::HipByt;
pub use hip_raw::{
    Allocated, Appended, Backend, Block, Borrowed, ByteSink, ByteSource, Extent, Filling, FromRead,
    Fuse, Inline, IoFault, Length, Meter, Rc, Room, SliceSource, Sole, Span, ToWrite, Unique,
    VecSink, Whole, copy_counted, fill_counted,
};
pub use json_fault::JsonFault;
pub use kind::{INLINE_CAPACITY, Kind};
pub use mutate_fault::MutateFault;
pub use piece::Piece;
pub use range::{bound_of, end_of, range_of, start_of};
pub use ref_mut::{RefMut, Source, mutate, mutate_metered, with_mutated, with_mutated_metered};
pub use slice_error::{SliceError, SliceErrorKind, SliceRefusal};
pub use writer::Writer;
