//! Records of fields: **each line of a text is a record, whose fields are the pieces of that line between a character.**
//!
//! - [`records`] gives them all.
//! - [`Records`](reader::Records) gives one line's fields at a time, so that no more than these are kept.
//!
//! A line ends at a line feed, and one carriage return before that goes with it. Fields are cut from the text itself, and no line is.
//! A field shares the text's memory as a slice does: one above 23 bytes raises its owner's count of handles, a shorter one is a copy of its
//! bytes, and from a borrowed text none copies any.
//!
//! The words of the contracts are those of hip_text and hip_match, and `Records` of `specs/`, whose `records_of` tells what the
//! records of a text are, as lists of bytes.
#![tactic(auto)]

mod all;
mod line;
pub mod reader;

pub use all::{records, records_metered};
