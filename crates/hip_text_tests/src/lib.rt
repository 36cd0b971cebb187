//! Tests of texts, whole and taken apart, from outside of hip_text and hip_cuts: what no clause says, as that calls succeed where there is
//! memory, exact texts, and values that come from elsewhere, as the answers of Rust's own `str`. On either backend, but where texts are lent
//! and no owner is met.
//!
//! A test is proved safe before it runs, and each call and branch in it costs the prover time. So calls are rows of tables, which one
//! loop runs, and helpers answer whether what they saw is what is wanted, which a test asserts once.
//!
//! Of whole texts:
//!
//! - `text`: the calls that the tests make on texts, on their bytes and on the error of bytes that aren't one, each by its own name.
//! - `hip_str`: these calls for any backend; `faults`: why a call gave no part of a text.
//! - `support`: the ends of a test, and the assertions of several files.
//! - `suite`: the files below, run on each backend.
//! - `makers`: makers, conversions, pushes, `pop`, case, comparisons and guards.
//! - `carried`: hipstr's own tests, and worked cases.
//! - `decoding`: bytes that are UTF-8, that aren't, and their repair.
//! - `made`: joins and repetitions, and texts of units of UTF-16.
//! - `written`: values that are written at the end, and characters of an iterator.
//! - `errors`: ranges that are refused, and bytes that aren't a text.
//!
//! Of texts that are taken apart:
//!
//! - `fields`: a reader of fields as user code would write it, which is no test.
//! - `walks`: pieces that are drawn without a meter.
//! - `places`: matches with their positions.
//! - `cuts`: trims, strips and cuts at one match, without a meter.
//! - `kinds`: kinds of pieces, and how many bytes are copied for them.
//! - `closures`: patterns that are closures.
//! - `clones`: clones of walks that have given their first piece.
//! - `records`: records of fields over a text's lines, as Rust's `lines` and `split` answer.
#![tactic(auto)]

#[cfg(test)]
mod tests;
