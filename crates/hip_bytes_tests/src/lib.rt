//! Tests of byte strings, from outside of hip_bytes: what no clause says, as that calls succeed where there is memory, exact texts, and
//! values that come from elsewhere. On either backend.
//!
//! - `makers`: makers, views and clones.
//! - `cuts`: pushes, cuts in place and slices.
//! - `errors`: ranges that are refused.
//! - `conversions`: into vectors and borrowed-or-owned values, and back.
//! - `spaces`: the same bytes, by each maker.
//! - `writes`: bytes that are lent for writing, and ASCII case.
//! - `guards`: bytes that are lent out as a vector.
//! - `owned_room`: the bytes that `Unique` copies as it grows, and its capacity.
//! - `joins`: repetitions, joins and room that is given back.
//! - `written`: values that are written at the end, and bytes of an iterator.
//! - `comparisons`: order, equality and maps.
//!
//! `bytes` has the calls that the tests make on a byte string, each by its own name, `hip_byt` implements them for any backend, and
//! `faults` tells why a call gave no part; `suite` runs tests on a backend; `support` has the assertions of several of them; `maps` looks
//! keys up that are byte strings.
//!
//! A test function is proved safe, and each branch in it, as a `?` or an assertion, costs seconds that grow with what stands before
//! it. So calls on data are rows of a table, which one loop runs, and what is asserted of a handle is one helper, in `support`. A
//! function that is generic in the backend is proved once, and takes longer than one that names it.
//!
//! Most of what stands before a branch is what contracts say of handles, and a test needs none of it, since it compares while it runs. So
//! tests call handles through the trait `bytes::Bytes`, whose methods say nothing, and `support::must` ends a test where a call was
//! refused, in place of a `?`. A method costs one to three seconds, and a test function as much. Each function that names a byte string as
//! `Bytes` takes seconds more, and a dozen where it is generic in the backend, so only the two of `suite` do.
//!
//! A function in which a table stands costs more than the square of what the table borrows: 24 rows with two slices each 1.2 seconds,
//! 48 rows 5, 94 rows 40. So a table has a function of its own that hands it out, and a long one several. A function that calls a map
//! whose keys are handles costs half a minute, one that is generic in the key 2 seconds.
#![tactic(auto)]

#[cfg(test)]
mod tests;
