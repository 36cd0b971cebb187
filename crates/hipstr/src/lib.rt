//! Byte strings, texts, OS strings and paths that are cheap to clone and to cut, ported from the Rust crate hipstr 0.8.0.
//!
//! **A handle is a list with a kind and a capacity; a call is a step of the list machine within a cost.** [`Pool`] keeps many
//! handles, and [`run`] performs a list of [`Command`]s on them. Its contract says that each [`Answer`] and every handle's bytes
//! are those of a machine that keeps one plain list for each handle, so that no write through one handle shows in another, and
//! that no more bytes are copied than the run costs.
//!
//! [`bytes`] has the byte strings themselves, [`HipByt`](bytes::HipByt) generic in the [`Backend`], with the calls that take them apart: owners are shared on [`Rc`], and not on
//! [`Unique`]. [`string`] has the texts, [`HipStr`](string::HipStr): byte strings that are UTF-8, with the calls that take them apart, and
//! [`pattern`] the patterns of these calls and the iterators that pieces come from. [`os_string`] has the OS strings,
//! [`HipOsStr`](os_string::HipOsStr), which needn't be UTF-8, and [`path`] the paths, [`HipPath`](path::HipPath), which are compared
//! and taken apart by their components. Anyone may implement [`Backend`]; the names that this takes, and the three representations of a byte string
//! ([`Inline`], [`Borrowed`], [`Allocated`]), are handed on here.
//!
//! Byte strings and texts are written to a [`ByteSink`] and read from a [`ByteSource`] in the form of Borsh; these, and their
//! implementors, stand here. All four types are made JSON values of the crate serde_json, and made of them.
//!
//! The words of `run`'s clauses are defined in `specs/`: `Slot` (the machine's state), `Step` (one command: its fault, its answer, what it
//! leaves, its cost, with `Cut`, `Ways` and `Parts` for texts that are taken apart and `Reason` for refusals) and `Run` (many commands).
//! `Amortised` and `Little` have what a run costs in all, and what parts cost where owners are shared.
#![tactic(auto)]

pub mod bits;
pub mod bytes;
mod command;
pub mod laws;
mod machine;
pub mod os_string;
pub mod path;
pub mod pattern;
mod pool;
pub mod string;
mod text;

pub use command::{Answer, Command, How, Pat, Reason, Side};
pub use hip_match::draw::End;
pub use hip_text::{
    Allocated, Appended, Backend, Block, Borrowed, ByteSink, ByteSource, Extent, FromRead, Fuse,
    Inline, IoFault, Kind, Length, Meter, Rc, Room, SliceSource, Sole, Span, ToWrite, Unique,
    VecSink, Whole, copy_counted, fill_counted,
};
pub use machine::run;
pub use pool::{MAX_SLOTS, Pool, Slot};

/// [`Rc`] under the name that it had before.
pub type Local = Rc;

/// A byte string whose owners are shared in one thread.
pub type LocalHipByt<'b> = hip_text::HipByt<'b, Rc>;

/// A text whose owners are shared in one thread.
pub type LocalHipStr<'b> = hip_text::HipStr<'b, Rc>;

/// An OS string whose owners are shared in one thread.
pub type LocalHipOsStr<'b> = hip_names::HipOsStr<'b, Rc>;

/// A path whose owners are shared in one thread.
pub type LocalHipPath<'b> = hip_names::HipPath<'b, Rc>;
