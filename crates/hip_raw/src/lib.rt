//! The lowest layer of hipstr: **an owner is a list of bytes and a capacity, and every byte that is copied is counted.**
//!
//! - [`Meter`] counts copied bytes. [`fill_counted`] copies them, all but those of a cloned [`Inline`], which is copied whole. By it
//!   [`extend_counted`] appends to a vector, [`copy_counted`] and [`copy_with_capacity`] make one, a [`Filling`] gathers many
//!   parts in a vector, and an [`OwnerFilling`] in an owner.
//! - [`Backend`] is what an owner promises, to this crate and to any other implementor: [`Rc`], which many handles share, and
//!   [`Unique`], which has one, over a buffer of its own in raw memory. A sole owner lends a [`Room`], an append answers [`Appended`], and
//!   a vector that was taken out leaves a [`Block`]. The bytes of its owner's list that a handle shows are an [`Extent`]: a [`Span`], or
//!   always the [`Whole`], which takes no bytes.
//! - [`Inline`], [`Borrowed`] and [`Allocated`] are the three representations of a byte string: in the handle itself, with a
//!   [`Length`] that may be one byte, lent by another value, or a range of an owner's list. A [`Sole`] holds one that no other shares.
//! - [`equal`] and [`order`] are `==` and `cmp` of bytes, [`common_prefix`] is the length of the prefix that two slices have in common, and
//!   [`make_ascii_lowercase`] and [`make_ascii_uppercase`] move ASCII letters in place: each by blocks of up to 64 bytes.
//! - [`ByteSource`] and [`ByteSink`] are what bytes are read from and written to, seen as the bytes still to come, or written, and a count of
//!   failures: [`SliceSource`] and [`VecSink`] in memory, [`FromRead`] and [`ToWrite`] over readers and writers of the standard library. An
//!   [`IoFault`] says that a call failed, and moved nothing. A [`Fuse`] around a reader or a writer fails at one call, for tests.
//!
//! A call that copies has a form with the suffix `_metered` and a last argument `&mut Meter`; the plain call is that form with a fresh
//! meter. A call that allocates on some backend is passed the allocator first, and a refused one changes nothing. The calls of a
//! [`Filling`] and those on vectors have the meter alone: they have no uncounted form, and the vector has its allocator.
//!
//! The words of the contracts stand in `specs/`: `Held` (what a contract sees of an owner and of an allocated handle), `Meter` (what is
//! copied, and what growth is paid by), `Window` (a part of a list), `Appended` (facts by the answer of an append), `Allocated` (what
//! holds of a handle's range), `Buffer` and `Places` (what holds of a buffer, and of its row of places), `Block`, `Borrowed`, `Inline`,
//! `Alike` (where two lists have the same bytes), `Transfer` (what a read or a write does to the count of failures), `Sink`,
//! `Sources`, `Fuse` and `Sole`.
#![tactic(auto)]

mod allocated;
mod appended;
mod ascii_case;
mod backend;
mod block;
mod borrowed;
mod buffer;
mod byte_sink;
mod byte_source;
mod compare;
mod extent;
mod filling;
mod fuse;
mod inline;
mod io_fault;
mod meter;
mod owner_filling;
mod rc;
mod room;
mod sole;
mod unique;

pub use allocated::Allocated;
pub use appended::Appended;
pub use ascii_case::{make_ascii_lowercase, make_ascii_uppercase};
pub use backend::Backend;
pub use block::Block;
pub use borrowed::Borrowed;
pub use byte_sink::{ByteSink, ToWrite, VecSink};
pub use byte_source::{ByteSource, FromRead, SliceSource};
pub use compare::{common_prefix, equal, order};
pub use extent::{Extent, Span, Whole};
pub use filling::Filling;
pub use fuse::Fuse;
pub use inline::Inline;
pub use inline::length::{INLINE_CAPACITY, Length};
pub use io_fault::IoFault;
pub use meter::{
    Meter, copy_counted, copy_with_capacity, extend_counted, extend_within, fill_counted,
};
pub use owner_filling::OwnerFilling;
pub use rc::Rc;
pub use room::Room;
pub use sole::Sole;
pub use unique::Unique;
