//! Texts of bytes that may not be one.
ghost use Rattle.std.specs.Prelude.{◌≡◌, IfErr, IfNone, IfOk, IfSome, IsOkAnd, IsUtf8};
ghost use Rattle.std.specs.Str.{encode_utf8_all};
ghost use Rattle.std.specs.Str.Lossy.{utf8_lossy};
ghost use Rattle.bstr.specs.Utf8.{lossy_chars};
ghost use Rattle.hip_bytes.specs.Kinds.{HoldsByLength};
ghost use Rattle.hip_text.specs.Decode.{FromUtf8Answers, IsCauseOf, ReadAnswers, refusal_of};

use super::HipStr;
use crate::faults::BytesFault;
use crate::from_utf8_error::FromUtf8Error;
use hip_bytes::{Backend, Filling, HipByt, Meter};
use simdutf8::is_utf8;
use std::alloc::{AllocError, Global};
use std::str;
use std::str::Utf8Error;

impl<'b, B: Backend> HipStr<'b, B> {
    /// The text of these bytes, in the same handle, where they are UTF-8. The error keeps bytes that aren't.
    #[tactic(auto, using(crate::proofs::Texts::texts))]
    #[inline]
    pub fn from_utf8(bytes: HipByt<'b, B>) -> Result<Self, FromUtf8Error<'b, B>>
        ensures utf8 { FromUtf8Answers bytes.entry result }
    {
        match fault_of(bytes.as_slice()) {
            None => Ok(HipStr { bytes }),
            Some(error) => Err(FromUtf8Error::new(bytes, error)),
        }
    }

    /// The text of these bytes, in the same handle where they are UTF-8; else a new one, in which each longest front of a character
    /// that isn't one, or byte that begins none, is U+FFFD. A refused value is handed back.
    #[tactic(auto, using(crate::proofs::Texts::texts))]
    pub fn from_utf8_lossy(alloc: Global, bytes: HipByt<'b, B>) -> Result<Self, HipByt<'b, B>>
        ensures valid { IsUtf8 bytes.entry.items → IsOkAnd result (λ text. text ≡ bytes.entry) }
        ensures repaired { ¬ (IsUtf8 bytes.entry.items)
            → IfOk result (λ text. HoldsByLength text
            (encode_utf8_all (lossy_chars bytes.entry.items))) }
        ensures handed_back { IfErr result (λ back. back ≡ bytes.entry) }
    {
        if is_utf8(bytes.as_slice()) {
            return Ok(HipStr { bytes });
        }
        let Ok(text) = repaired(alloc, bytes.as_slice()) else {
            return Err(bytes);
        };
        match HipByt::from_vec(alloc, text) {
            Ok(bytes) => Ok(HipStr { bytes }),
            Err(_) => Err(bytes),
        }
    }

    /// A copy of these bytes, where they are UTF-8, which is tested first.
    #[tactic(auto, using(crate::proofs::Texts::texts))]
    #[inline]
    pub fn try_from_slice(alloc: Global, bytes: &[u8]) -> Result<Self, BytesFault>
        ensures read { ReadAnswers bytes.now result }
    {
        if !is_utf8(bytes) {
            return Err(BytesFault::NotUtf8);
        }
        Ok(HipStr {
            bytes: HipByt::from_slice(alloc, bytes)?,
        })
    }

    /// The text of a vector, which is taken over where it is too long for the handle itself, where it is UTF-8, which is tested first. A
    /// refused vector is handed back.
    #[tactic(auto, using(crate::proofs::Texts::texts))]
    #[inline]
    pub fn try_from_vec(alloc: Global, vec: Vec<u8>) -> Result<Self, (BytesFault, Vec<u8>)>
        ensures read { ReadAnswers vec.items (refusal_of result) }
        ensures handed_back { IfErr result (λ refusal. refusal.1 ≡ vec) }
    {
        if fault_of(vec.as_slice()).is_some() {
            return Err((BytesFault::NotUtf8, vec));
        }
        match HipByt::from_vec(alloc, vec) {
            Ok(bytes) => Ok(HipStr { bytes }),
            Err(vec) => Err((BytesFault::Memory, vec)),
        }
    }
}

/// The fault of bytes that aren't UTF-8.
fn fault_of(bytes: &[u8]) -> Option<Utf8Error>
    ensures none { IfNone result (IsUtf8 bytes.now) }
    ensures some { IfSome result (λ error. ¬ (IsUtf8 bytes.now) × IsCauseOf bytes.now error) }
{
    if is_utf8(bytes) {
        return None;
    }
    str::from_utf8(bytes).err()
}

/// The text of these bytes, with U+FFFD for each fault. Room for as many bytes is taken at once.
fn repaired(alloc: Global, bytes: &[u8]) -> Result<Vec<u8>, AllocError>
    ensures repaired { IfOk result (λ text. text.items ≡ utf8_lossy bytes.now) }
    ensures utf8 { IfOk result (λ text. IsUtf8 text.items) }
{
    let mut meter = Meter::new();
    let mut text = Filling::with_capacity(alloc, bytes.len())?;
    for chunk in bytes.utf8_chunks() {
        let valid = chunk.valid().as_bytes();
        if chunk.invalid().is_empty() {
            text.push_slice(valid, &mut meter)?;
        } else {
            text.push_behind(valid, "\u{FFFD}".as_bytes(), &mut meter)?;
        }
    }
    Ok(text.into_vec())
}
