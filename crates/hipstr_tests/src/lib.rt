//! The tests of `hipstr`'s machine, `hip_script` and `hip_uses`, from outside of them: lists of commands on a pool of handles, scripts of
//! lines, and the five uses. The answers that they want come from elsewhere. They stand in one crate, since a crate on top of `hipstr`
//! takes 20 to 25 seconds before its first function.
//!
//! - `sessions`: lists of commands. `cuts`: texts that are cut once. `ways`: each way to take a text apart. These are tables.
//! - `runs`: all of them on both backends of hipstr, the ways by every script of up to six ends.
//! - `own_backend`: the same on a backend that a user wrote.
//! - `not_a_command`: the message for a line that is no command. `support` has the ends of a test.
//! - `plays`: scripts, bad lines, and readers and writers that fail, by `hip_script::play`.
//! - `uses`: template, tokens, queue, interner and table.
//! - `user`: functions of a pattern and over a closure, and a struct that keeps a walk, by the names of hipstr alone.
//!
//! `hip_bytes_tests` tells what costs time in a check of tests, and how to save it.
#![tactic(auto)]

#[cfg(test)]
mod tests;
#[cfg(test)]
mod user;
