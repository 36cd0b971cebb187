//! Why a call of the tests gave no part of a value.
use super::support::both_shown;
use hip_bytes::{Backend, HipByt, SliceError, SliceErrorKind, SliceRefusal};
use std::alloc::{AllocError, Global};
use std::ops::Range;

/// A part of a value, or why there is none.
pub type Part<S> = Result<S, RangeFault>;

/// Why a call that takes no other range than one of the value's gave none.
#[derive(Clone, Copy)]
pub enum RangeFault {
    /// It was no range of the value's, and the call wasn't made.
    Bad,
    Memory,
}

/// A part of a value, or what `try_slice` tells.
pub type Tried<S> = Result<S, Refusal>;

/// Why `try_slice` gave none.
#[derive(Drop)]
pub enum Refusal {
    Slice(Told),
    Memory,
}

/// A `SliceError`, by the answers of its calls and by its texts.
#[derive(Drop)]
pub struct Told {
    pub kind: SliceErrorKind,
    pub start: usize,
    pub end: usize,
    pub range: Range<usize>,
    pub source: Vec<u8>,
    pub display: String,
    pub debug: String,
}

fn told_by<B: Backend>(
    alloc: Global,
    error: SliceError<'_, 'static, B>,
) -> Result<Told, AllocError> {
    let (display, debug) = both_shown(alloc, &error)?;
    Ok(Told {
        kind: error.kind(),
        start: error.start(),
        end: error.end(),
        range: error.range(),
        source: error.source().as_slice().to_vec(alloc)?,
        display,
        debug,
    })
}

/// The part, or what the error tells.
pub(crate) fn part_or_told<B: Backend>(
    alloc: Global,
    outcome: Result<HipByt<'static, B>, SliceRefusal<'_, 'static, B>>,
) -> Tried<HipByt<'static, B>> {
    match outcome {
        Ok(part) => Ok(part),
        Err(SliceRefusal::Memory) => Err(Refusal::Memory),
        Err(SliceRefusal::Slice(error)) => match told_by(alloc, error) {
            Ok(told) => Err(Refusal::Slice(told)),
            Err(AllocError) => Err(Refusal::Memory),
        },
    }
}
