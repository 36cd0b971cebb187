//! A pattern that a user of `hipstr` wrote, who names `hipstr` alone: a set of characters of ASCII, as a table of truths.
//!
//! - `table`: the set, and where it occurs.
//! - `front`: the set as a pattern that is looked for from a text's front, which is all that `split` and `matches` ask.
//! - `back`: the set as one that is looked for from the end too, for `rsplit`, for walks from both ends and for trims.
//! - `tests`: a text's own calls with it, against `str`'s with a closure.
#![tactic(auto)]

mod back;
mod front;
mod table;
#[cfg(test)]
mod tests;

pub use table::TruthTable;
