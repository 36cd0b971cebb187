//! Ranges, over whole numbers.
ghost use Rattle.std.specs.Prelude.{◌≡◌, ◌≤◌, ◌<◌, ◌^◌, MatchOption, IfOk, None};
ghost use Rattle.std.specs.Option.{SomeIff};
ghost use Rattle.std.specs.Range.Bound.{start_index, end_index, bound_map};
ghost use Rattle.hip_bytes.specs.Range.{slice_fault};

use crate::slice_error::SliceErrorKind;
use std::ops::Bound;

/// A bound by value.
#[inline]
pub fn bound_of(bound: Bound<&usize>) -> Bound<usize>
    ensures { result ≡ bound_map (λ number. number.now) bound.entry }
{
    match bound {
        Bound::Included(number) => Bound::Included(*number),
        Bound::Excluded(number) => Bound::Excluded(*number),
        Bound::Unbounded => Bound::Unbounded,
    }
}

/// The position at which a range starts, if it is a `usize`.
#[inline]
pub fn start_of(low: Bound<usize>) -> Option<usize>
    ensures { SomeIff result (start_index low < 2 ^ 64) (start_index low) }
{
    match low {
        Bound::Included(start) => Some(start),
        Bound::Excluded(before) => before.checked_add(1),
        Bound::Unbounded => Some(0),
    }
}

/// The position before which a range of `len` items ends, if it is a `usize`.
#[inline]
pub fn end_of(high: Bound<usize>, len: usize) -> Option<usize>
    ensures { SomeIff result (end_index high len < 2 ^ 64) (end_index high len) }
{
    match high {
        Bound::Included(last) => last.checked_add(1),
        Bound::Excluded(end) => Some(end),
        Bound::Unbounded => Some(len),
    }
}

/// The start and the end that two bounds have in a list of `len` items, or why they are no range of it.
#[inline]
pub fn range_of(
    low: Bound<usize>,
    high: Bound<usize>,
    len: usize,
) -> Result<(usize, usize), SliceErrorKind>
    ensures range { MatchOption (slice_fault low high len)
        (result ≡ Ok (start_index low, end_index high len))
        (λ kind. result ≡ Err kind) }
    ensures ordered { IfOk result (λ range. (range.0 ≤ range.1) × (range.1 ≤ len)) }
{
    let start = match start_of(low) {
        Some(start) if start <= len => start,
        _ => return Err(SliceErrorKind::StartOutOfBounds),
    };
    let end = match end_of(high, len) {
        Some(end) if end <= len => end,
        _ => return Err(SliceErrorKind::EndOutOfBounds),
    };
    if start > end {
        return Err(SliceErrorKind::StartGreaterThanEnd);
    }
    Ok((start, end))
}

/// The start and the end that two bounds have in a list of `len` items, of which they are a range.
#[inline]
pub(crate) fn sound_range(low: Bound<usize>, high: Bound<usize>, len: usize) -> (usize, usize)
    requires { slice_fault low high len ≡ None }
    ensures start { result.0 ≡ start_index low }
    ensures end { result.1 ≡ end_index high len }
    ensures ordered { result.0 ≤ result.1 }
    ensures in_bounds { result.1 ≤ len }
{
    range_of(low, high, len).unwrap()
}
