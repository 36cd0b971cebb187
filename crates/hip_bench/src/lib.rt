//! Workloads over byte strings, texts and paths, for a driver in C or Rust that measures them.
//!
//! Each function `hip_NAME(alloc, input, rounds)` makes its sources from the input, does the same work `rounds` times by the public
//! calls of hipstr, and answers a checksum of what it made. A call with no rounds costs what the sources cost. Where memory is
//! refused, or a workload can't take its parts from the input, the answer is 0. A C caller passes the input as a pointer and a length,
//! and nothing for `alloc`.
//!
//! The values of a `Ring` are kept until others take their places, so that no compiler can leave the work out. Nothing is claimed of
//! the answers but that each call is safe and ends.
#![tactic(auto)]

mod compare;
mod cuts;
mod formats;
mod growth;
mod handles;
mod intern;
mod large;
mod made;
mod paths;
mod pieces;
mod records;
mod ring;
mod text;
