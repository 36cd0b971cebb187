//! Tests of hip_raw, from outside of it: that its calls succeed where there is memory, that memory is really shared, that a sole owner
//! is written in place, and values that come from elsewhere.
//!
//! - `copies`: counted copies and vectors that are filled.
//! - `handles`: bytes in the handle itself, lent bytes.
//! - `allocated`: ranges of an owner's bytes.
//! - `owners`: the contracts of an owner.
//! - `fuses`: readers and writers that fail at one call.
//! - `blocks`: comparisons and ASCII case, which go by blocks of bytes.
//! - `support`: the ends of a test that a call brings about.
//!
//! `hip_bytes_tests` tells what costs time in a check of tests, and how to save it.
#![tactic(auto)]

#[cfg(test)]
mod tests;
