//! Tests of OS strings and paths, and of the Borsh forms and the JSON values of all four types, from outside of hip_bytes, hip_text and
//! hip_names: what no clause says, as that calls succeed where there is memory, exact bytes and texts, bad input of each kind, and values that
//! come from elsewhere. On either backend.
//!
//! - `handle`: the calls that the tests make on any handle, and on one that has a form or a JSON value.
//! - `name`: the calls that they make on an OS string and a path alike, and on an OS string alone, each by its own name.
//! - `hip_os_str`, `hip_path`, `hip_byt`, `hip_str`: these calls for any backend.
//! - `support`: the ends of a test, and the questions that several files ask of a value.
//! - `names`: hipstr's own tests of OS strings and paths.
//! - `rooms`: the room that they have, and give back.
//! - `calls`: conversions between types, rooms, orders, and components by themselves.
//! - `hostile`: paths that are hard to read, with the answers of Rust's `std::path`.
//! - `by_std`: 201 paths taken apart, and 200 pairs joined and tested, with the answers of Rust's `std::path`, which `answers` has.
//! - `maps`: keys of maps and sets.
//! - `decoding`: OS strings that are UTF-8, that aren't, and their repair.
//! - `borsh`: forms that are written and read, cut short, or that lie about their length.
//! - `streams`: readers and writers that are slow, that fail at one call, or that take nothing.
//! - `json`: values that are made, read and refused.
#![tactic(auto)]

#[cfg(test)]
mod tests;
