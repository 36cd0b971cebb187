//! The comparison of what was printed.
use std::alloc::AllocError;
use std::process::Abort;

/// Whether this was printed.
fn is(printed: &Result<String, AllocError>, wanted: &str) -> bool {
    match printed {
        Ok(printed) => printed.as_str() == wanted,
        Err(AllocError) => false,
    }
}

/// Asserts the output for a text.
pub(crate) fn prints(
    rt: &impl Abort,
    text: &str,
    printed: &Result<String, AllocError>,
    wanted: &str,
) {
    assert!(rt; is(printed, wanted), "of {text:?}");
}
