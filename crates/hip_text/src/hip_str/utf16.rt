//! Texts of units of UTF-16.
ghost use Rattle.std.specs.Prelude.{ℕ, List, IfNone, IfOk, IfSome};
ghost use Rattle.std.specs.Char.Utf16.{utf16_lossy_chars};
ghost use Rattle.std.specs.Str.{encode_utf8_all};
ghost use Rattle.hip_bytes.specs.Kinds.{HoldsByLength};
ghost use Rattle.hip_text.specs.Utf16.{IsBehind, IsFirstUnpaired, IsUnpaired, Spells, Utf16Answers};

use super::HipStr;
use crate::faults::Utf16Fault;
use hip_bytes::Backend;
use std::alloc::{AllocError, Global};

impl<'b, B: Backend> HipStr<'b, B> {
    /// The text that these units spell, if no surrogate among them is without a partner.
    pub fn from_utf16(alloc: Global, units: &[u16]) -> Result<Self, Utf16Fault>
        ensures read { Utf16Answers units.now result }
    {
        let read: Result<Result<String, _>, AllocError> = String::from_utf16(alloc, units);
        let Ok(Ok(string)) = read else {
            return Err(match first_unpaired(units) {
                Some(at) => Utf16Fault::Unpaired(at),
                None => Utf16Fault::Memory,
            });
        };
        let Ok(text) = HipStr::from_string(alloc, string) else {
            return Err(Utf16Fault::Memory);
        };
        Ok(text)
    }

    /// The text that these units spell, with U+FFFD for each surrogate without a partner.
    pub fn from_utf16_lossy(alloc: Global, units: &[u16]) -> Result<Self, AllocError>
        ensures { IfOk result
            (λ text. HoldsByLength text (encode_utf8_all (utf16_lossy_chars units.now))) }
    {
        match HipStr::from_string(alloc, String::from_utf16_lossy(alloc, units)?) {
            Ok(text) => Ok(text),
            Err(_) => Err(AllocError),
        }
    }
}

/// Where the first surrogate stands that is without a partner.
#[cold]
fn first_unpaired(units: &[u16]) -> Option<usize>
    ensures none { IfNone result ((cs : List ℕ) × Spells units.now cs) }
    ensures some { IfSome result (IsFirstUnpaired units.now) }
{
    let mut rest = units;
    while let Some((unit, after)) = rest.split_first() {
        let Some(later) = behind(*unit, after) else {
            return Some(units.len() - rest.len());
        };
        rest = later;
    }
    None
}

/// The units behind the character that begins with this unit, unless that is a surrogate without a partner.
fn behind(unit: u16, after: &[u16]) -> Option<&[u16]>
    ensures some { IfSome result (λ rest. IsBehind unit after.now rest.now) }
    ensures none { IfNone result (IsUnpaired unit after.now) }
{
    if unit < 0xD800 || 0xE000 <= unit {
        return Some(after);
    }
    if 0xDC00 <= unit {
        return None;
    }
    let (low, rest) = after.split_first()?;
    if *low < 0xDC00 || 0xE000 <= *low {
        return None;
    }
    Some(rest)
}
