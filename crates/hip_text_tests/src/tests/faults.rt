//! Why a call of the tests gave no part of a text.
use hip_text::SliceErrorKind;
use std::ops::Range;

/// A part of a text, or why there is none.
pub type Part<S> = Result<S, RangeFault>;

/// A `SliceError`, by the answers of its calls and by its texts.
#[derive(Drop)]
pub struct Told {
    pub source: String,
    pub kind: SliceErrorKind,
    pub start: usize,
    pub end: usize,
    pub range: Range<usize>,
    pub display: String,
    pub debug: String,
}

/// Why `try_slice_bounds` gave no part.
#[derive(Drop)]
pub enum Refusal {
    Slice(Told),
    Memory,
}

/// Why a call that takes no other place than one of the text's wasn't answered.
#[derive(Clone, Copy)]
pub enum RangeFault {
    /// It was no place of the text's, and the call wasn't made.
    Bad,
    Memory,
}
