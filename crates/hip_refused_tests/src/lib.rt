//! Each request for memory refused in turn. Where nothing refuses, a scenario runs once, with ample memory; `make refuse` loads
//! `bench/refuse.c` before the C library, which carries out the orders of `refusing`, and so runs it once for each of its requests.
//!
//! - `refusing`: the orders, and the loop over them.
//! - `lists`: lists of commands, and each command by itself. `commands` are the tables of them.
//! - `types`: the calls of each type, in tables.
//! - `errors`: the error of bytes that aren't a text.
//! - `walks`: walks over the pieces of a text.
//! - `fields`: records of fields, gathered and drawn.
//! - `plays`: a script.
//! - `rows`: calls that make no request, so that none can be refused.
//!
//! `calls` runs a call and compares what it left; `handle` has the calls of a handle, and `of_owners`, `of_bytes`, `of_texts` and
//! `of_names` implement them for the types; `outcomes` brings answers into one form, and `held` is how values are held.
//!
//! A scenario is a function of the number of the request that is refused. It makes its values, gives the order, calls, asks whether the
//! order was carried out, and compares what the call answered and left with what it has to be either way. So a refusal of memory fails it
//! where no request was refused. A test whose name ends in `take_none` or `takes_none` meets no request; each other meets some.
#![tactic(auto)]

#[cfg(test)]
mod tests;
