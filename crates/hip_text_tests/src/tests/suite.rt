//! Tests that are run on the texts of each backend. The proof that a text has the tests' calls costs seconds in each function that needs
//! it, so only `run_on` does, for any backend. A test that names both backends costs seconds too, and `run_by_each` names them for others.
use super::text::Text;
use hip_text::{Backend, HipStr, Rc, Unique};
use std::alloc::Global;
use std::process::Abort;

pub trait Suite {
    fn run<T: Text>(rt: &impl Abort, alloc: Global);
}

/// Runs a suite on shared owners, and on owners of one handle each.
pub(crate) fn run_on_each<S: Suite>(rt: &impl Abort, alloc: Global) {
    run_on::<S, Rc>(rt, alloc);
    run_on::<S, Unique>(rt, alloc);
}

/// A test that makes its texts itself, for any backend.
pub trait OfBackend {
    fn run<B: Backend>(rt: &impl Abort, alloc: Global);
}

/// Runs a test with shared owners, and with owners of one handle each.
pub(crate) fn run_by_each<T: OfBackend>(rt: &impl Abort, alloc: Global) {
    T::run::<Rc>(rt, alloc);
    T::run::<Unique>(rt, alloc);
}

fn run_on<S: Suite, B: Backend>(rt: &impl Abort, alloc: Global) {
    S::run::<HipStr<'static, B>>(rt, alloc);
}
