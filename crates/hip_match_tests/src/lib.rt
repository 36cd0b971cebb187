//! Tests of `hip_match`: calls on data, with the answers of Rust's own `str`.
//!
//! A test is proved safe before it runs, and each call and branch in it costs the prover time. So calls are rows of tables, which one
//! loop runs, and what is asserted of an iterator is one helper.
#![tactic(auto)]

#[cfg(test)]
mod tests;
