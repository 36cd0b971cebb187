//! Where the parts of a path lie.
ghost use Rattle.std.specs.Prelude.{◌≡◌, ◌≢◌, ◌≤◌, ◌<◌, ◌-◌, ◌+◌, ℕ, drop, [], length, None, Some, take, slice_range, slice_index, MatchOption};
ghost use Rattle.std.specs.Path.{is_name, parent_dir};
ghost use Rattle.std.specs.List.{after_last, before_last};
ghost use Rattle.std.specs.Str.{bytes_eq};
ghost use Rattle.hip_names.specs.Components.{names};
ghost use Rattle.hip_names.specs.LastName.{IsEnd, IsLastName};
ghost use Rattle.hip_names.specs.PathParts.{HasNoParent, IsParent, extension, file_name, file_stem, has_root, is_dot};

use crate::component::{Component, start_of};

/// The position behind the last such byte, or 0 where there is none.
#[inline]
pub(crate) fn behind_last(bytes: &[u8], byte: u8) -> usize
    ensures in_bytes { result ≤ length bytes.now }
    ensures none_behind { (k : ℕ) → result ≤ k → k < length bytes.now
        → slice_index bytes.now k ≢ byte }
    ensures there { 0 < result → slice_index bytes.now (result - 1) ≡ byte }
{
    let mut at = bytes.len();
    while at > 0 && bytes[at - 1] != byte {
        at -= 1;
    }
    at
}

/// Whether a part names something: it is neither empty nor `.`.
#[inline]
fn names_something(part: &[u8]) -> bool
    ensures { result ≡ is_name part.now }
{
    match part {
        [] | [b'.'] => false,
        _ => true,
    }
}

/// Whether a part is `..`.
#[inline]
fn is_parent_dir(part: &[u8]) -> bool
    ensures { result ≡ bytes_eq part.now parent_dir }
{
    match part {
        [b'.', b'.'] => true,
        _ => false,
    }
}

/// Where the last part that names something starts and ends.
#[tactic(auto, using(crate::proofs::LastNames::steps))]
pub(crate) fn last_name(path: &[u8]) -> Option<(usize, usize)>
    ensures { MatchOption result (names path.now ≡ [])
        (λ range. IsLastName path.now range.0 range.1) }
{
    let mut end = path.len();
    while end > 0 {
        let start = behind_last(&path[..end], b'/');
        if names_something(&path[start..end]) {
            return Some((start, end));
        }
        end = start.saturating_sub(1);
    }
    None
}

/// The length of a path without the slashes and dots behind its last component.
#[tactic(auto, using(crate::proofs::Trimmed::ends))]
fn trimmed_len(path: &[u8]) -> usize
    ensures { IsEnd path.now result }
{
    match last_name(path) {
        Some((_, end)) => end,
        None => match start_of(path) {
            Some(_) => 1,
            None => 0,
        },
    }
}

/// The length of the parent, where there is one.
#[tactic(auto, using(crate::proofs::Parents::parents))]
pub(crate) fn parent_len(path: &[u8]) -> Option<usize>
    ensures { MatchOption result (HasNoParent path.now)
        (λ len. (len ≤ length path.now) × IsParent path.now (take len path.now)) }
{
    match last_name(path) {
        Some((start, _)) => Some(trimmed_len(&path[..start])),
        None => match start_of(path) {
            Some(Component::CurDir) => Some(0),
            _ => None,
        },
    }
}

/// Where the file name starts and ends, if there is one.
#[tactic(auto, using(crate::proofs::Parents::files))]
pub(crate) fn file_name_range(path: &[u8]) -> Option<(usize, usize)>
    ensures { MatchOption result (file_name path.now ≡ None)
        (λ range. (range.0 ≤ range.1) × (range.1 ≤ length path.now)
        × (file_name path.now ≡ Some (slice_range path.now range.0 range.1))) }
{
    let (start, end) = last_name(path)?;
    if is_parent_dir(&path[start..end]) {
        None
    } else {
        Some((start, end))
    }
}

/// Whether the first component is the root.
#[tactic(auto, using(crate::proofs::Parents::roots))]
#[inline]
pub(crate) fn begins_with_root(path: &[u8]) -> bool
    ensures { result ≡ has_root path.now }
{
    matches!(start_of(path), Some(Component::RootDir))
}

/// The position behind the last dot of a name, where something stands before that.
#[tactic(auto, using(crate::proofs::Dots::dots))]
#[inline]
fn behind_dot(name: &[u8]) -> Option<usize>
    ensures { MatchOption result (before_last is_dot name.now ≡ [])
        (λ at. (1 < at) × (at ≤ length name.now)
        × (before_last is_dot name.now ≡ take (at - 1) name.now)
        × (after_last is_dot name.now ≡ drop at name.now)) }
{
    let at = behind_last(name, b'.');
    if at > 1 { Some(at) } else { None }
}

/// Where the file name's stem starts and ends, if there is one.
#[tactic(auto, using(crate::proofs::Dots::stems))]
pub(crate) fn file_stem_range(path: &[u8]) -> Option<(usize, usize)>
    ensures { MatchOption result (file_stem path.now ≡ None)
        (λ range. (range.0 ≤ range.1) × (range.1 ≤ length path.now)
        × (file_stem path.now ≡ Some (slice_range path.now range.0 range.1))) }
{
    let (start, end) = file_name_range(path)?;
    match behind_dot(&path[start..end]) {
        Some(at) => Some((start, start + at - 1)),
        None => Some((start, end)),
    }
}

/// Where the file name's extension starts and ends, if there is one.
#[tactic(auto, using(crate::proofs::Dots::extensions))]
pub(crate) fn extension_range(path: &[u8]) -> Option<(usize, usize)>
    ensures { MatchOption result (extension path.now ≡ None)
        (λ range. (range.0 ≤ range.1) × (range.1 ≤ length path.now)
        × (extension path.now ≡ Some (slice_range path.now range.0 range.1))) }
{
    let (start, end) = file_name_range(path)?;
    let at = behind_dot(&path[start..end])?;
    Some((start + at, end))
}
