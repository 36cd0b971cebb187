//! Why a range of a text wasn't sliced.
ghost use Rattle.std.specs.Prelude.{◌≡◌, ◌&&◌, length, nat_eq, Some, ⊤};
ghost use Rattle.std.specs.Cmp.{partial_equiv_from_equiv, and_per, on_per, and_equiv, on_equiv, nat_eq_equiv};
ghost use Rattle.hip_text.specs.contracts.slice_error.SliceErrorKindPartialEq.TheImpl.Laws.{laws-law as kind_per};
ghost use Rattle.hip_text.specs.contracts.slice_error.SliceErrorKindEq.TheImpl.Laws.{laws-law as kind_equiv};
ghost use Rattle.std.specs.Cmp.Lexicographic.{pointwise, nat_list_eq_equiv};
ghost use Rattle.hip_text.specs.Slice.{IsErrorOf, text_slice_fault};
ghost use Rattle.hip_text.specs.SliceError.{error_kind, error_start, error_end, error_source, slice_error_text};

use crate::hip_str::HipStr;
use hip_bytes::{Backend, end_of, start_of};
use std::alloc::AllocError;
use std::error::Error;
use std::fmt;
use std::ops::{Bound, Range};

/// Which test a range failed. The tests have this order: the start against the length, the end against the length, the start
/// against the end, the start's boundary, the end's boundary.
#[derive(Clone, Copy, Debug, PartialEq, Eq)]
pub enum SliceErrorKind {
    /// The start comes after the end.
    StartGreaterThanEnd,
    /// The start is past the length.
    StartOutOfBounds,
    /// The end is past the length.
    EndOutOfBounds,
    /// The start lies within a character.
    StartNotACharBoundary,
    /// The end lies within a character.
    EndNotACharBoundary,
}

/// A range that is none of a text, and the text.
pub struct SliceError<'a, 'b, B: Backend> {
    kind: SliceErrorKind,
    start: usize,
    end: usize,
    source: &'a HipStr<'b, B>,
}

impl<'a, 'b, B: Backend> SliceError<'a, 'b, B> {
    /// The error of two bounds that are no range of the source. It isn't inlined, so that a range that is one doesn't pay for it.
    #[cold]
    #[inline(never)]
    pub(crate) fn of_bounds(
        kind: SliceErrorKind,
        low: Bound<usize>,
        high: Bound<usize>,
        source: &'a HipStr<'b, B>,
    ) -> Self
        requires { text_slice_fault low high source.now.items ≡ Some kind }
        ensures { IsErrorOf result source.now low high }
    {
        let start = start_of(low).unwrap_or(usize::MAX);
        let end = end_of(high, source.len()).unwrap_or(usize::MAX);
        SliceError {
            kind,
            start,
            end,
            source,
        }
    }

    /// Which test failed.
    #[inline]
    pub fn kind(&self) -> SliceErrorKind
        ensures { result ≡ error_kind self.now }
    {
        self.kind
    }

    /// Where the range starts. A start past `usize::MAX` is told as `usize::MAX`.
    #[inline]
    pub fn start(&self) -> usize
        ensures { result ≡ error_start self.now }
    {
        self.start
    }

    /// Where the range ends, not included. An end past `usize::MAX` is told as `usize::MAX`.
    #[inline]
    pub fn end(&self) -> usize
        ensures { result ≡ error_end self.now }
    {
        self.end
    }

    /// From the start to the end.
    #[inline]
    pub fn range(&self) -> Range<usize>
        ensures start { result.start ≡ error_start self.now }
        ensures end { result.end ≡ error_end self.now }
    {
        self.start..self.end
    }

    /// The value that was to be sliced.
    #[inline]
    pub fn source(&self) -> &'a HipStr<'b, B>
        ensures { result.now ≡ error_source self.now }
    {
        self.source
    }
}

impl<'a, 'b, B: Backend> Clone for SliceError<'a, 'b, B> {
    ghost is_clone = { λ error copy. copy ≡ error };

    ghost is_infallible = { λ _. ⊤ };

    fn clone(&self) -> Result<Self, AllocError> {
        Ok(*self)
    }
}

impl<'a, 'b, B: Backend> Copy for SliceError<'a, 'b, B> {}

impl<'a, 'b, B: Backend> PartialEq for SliceError<'a, 'b, B> {
    ghost eq = { λ a b. ⟦<SliceErrorKind as PartialEq>⟧.eq (error_kind a) (error_kind b) && (nat_eq (error_start a) (error_start b)
        && (nat_eq (error_end a) (error_end b) && pointwise nat_eq (error_source a).items (error_source b).items)) };

    ghost laws = { and_per (on_per error_kind kind_per) (and_per (on_per error_start (partial_equiv_from_equiv nat_eq_equiv))
        (and_per (on_per error_end (partial_equiv_from_equiv nat_eq_equiv)) (on_per (λ error. (error_source error).items) (partial_equiv_from_equiv nat_list_eq_equiv)))) };

    fn eq(&self, other: &Self) -> bool {
        self.kind == other.kind
            && self.start == other.start
            && self.end == other.end
            && self.source.as_bytes() == other.source.as_bytes()
    }
}

impl<'a, 'b, B: Backend> Eq for SliceError<'a, 'b, B> {
    ghost laws = { and_equiv (on_equiv error_kind kind_equiv) (and_equiv (on_equiv error_start nat_eq_equiv)
        (and_equiv (on_equiv error_end nat_eq_equiv) (on_equiv (λ error. (error_source error).items) nat_list_eq_equiv))) };
}

impl<'a, 'b, B: Backend> fmt::Display for SliceError<'a, 'b, B> {
    ghost output = { λ error. Some (slice_error_text (error_kind error) (error_start error) (error_end error) (error_source error).items) };

    fn fmt<W: fmt::Write>(&self, f: &mut fmt::Formatter<W>) -> fmt::Result {
        let (start, end) = (self.start, self.end);
        let text = self.source.as_str();
        match self.kind {
            SliceErrorKind::StartGreaterThanEnd => {
                write!(
                    f,
                    "range starts at {start} but ends at {end} when slicing `{text}`"
                )
            }
            SliceErrorKind::StartOutOfBounds => {
                write!(f, "range start index {start} is out of bounds of `{text}`")
            }
            SliceErrorKind::EndOutOfBounds => {
                write!(f, "range end index {end} is out of bounds of `{text}`")
            }
            SliceErrorKind::StartNotACharBoundary => {
                write!(
                    f,
                    "range start index {start} is not a char boundary of `{text}`"
                )
            }
            SliceErrorKind::EndNotACharBoundary => {
                write!(
                    f,
                    "range end index {end} is not a char boundary of `{text}`"
                )
            }
        }
    }
}

impl<'a, 'b, B: Backend> fmt::Debug for SliceError<'a, 'b, B> {
    fn fmt<W: fmt::Write>(&self, f: &mut fmt::Formatter<W>) -> fmt::Result {
        f.debug_struct("SliceError")
            .field("kind", &self.kind)
            .field("start", &self.start)
            .field("end", &self.end)
            .field("string", &self.source.as_str())
            .finish()
    }
}

impl<'a, 'b, B: Backend> Error for SliceError<'a, 'b, B> {}

impl From<hip_bytes::SliceErrorKind> for SliceErrorKind {
    ghost use Rattle.hip_text.specs.Slice.{as_text_fault};

    ghost from_gives = { λ kind fault. fault ≡ as_text_fault kind };

    fn from(kind: hip_bytes::SliceErrorKind) -> Self {
        match kind {
            hip_bytes::SliceErrorKind::StartGreaterThanEnd => SliceErrorKind::StartGreaterThanEnd,
            hip_bytes::SliceErrorKind::StartOutOfBounds => SliceErrorKind::StartOutOfBounds,
            hip_bytes::SliceErrorKind::EndOutOfBounds => SliceErrorKind::EndOutOfBounds,
        }
    }
}

/// Why a call that slices gave no slice.
#[derive(Clone, Copy, Debug)]
pub enum SliceRefusal<'a, 'b, B: Backend> {
    /// The range is none of the text.
    Slice(SliceError<'a, 'b, B>),
    /// Memory ran out, or an owner couldn't be shared once more.
    Memory,
}
