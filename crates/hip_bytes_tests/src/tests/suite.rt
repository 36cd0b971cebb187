//! Tests that are run on the byte strings of each backend. The proof that a byte string has the tests' calls costs seconds in each function
//! that needs it, and more in one that is generic in the backend, so these two name theirs.
use super::bytes::Bytes;
use hip_bytes::{HipByt, Rc, Unique};
use std::alloc::Global;
use std::process::Abort;

pub trait Suite {
    fn run<H: Bytes>(rt: &impl Abort, alloc: Global);
}

/// Runs a suite on shared owners, and on owners of one handle each.
pub(crate) fn run_on_each<S: Suite>(rt: &impl Abort, alloc: Global) {
    S::run::<HipByt<'static, Rc>>(rt, alloc);
    run_on_unique::<S>(rt, alloc);
}

/// Runs a suite on owners of one handle each alone.
pub(crate) fn run_on_unique<S: Suite>(rt: &impl Abort, alloc: Global) {
    S::run::<HipByt<'static, Unique>>(rt, alloc);
}
