//! The range of bytes without ASCII white space at their ends, and the ranges before and behind a byte.

ghost use Rattle.std.specs.Prelude.{◌≡◌, ◌==◌, ◌≤◌, length, IfSome};
ghost use Rattle.std.specs.Char.{is_ascii_whitespace};
ghost use Rattle.hip_match.specs.Bytes.{IsWithin, byte_ends};
ghost use Rattle.hip_match.specs.Trims.{TrimsFront, TrimsBack, split_once, rsplit_once};

use crate::byte_test::{byte_before, byte_from};

// Where the longest front of white space ends.
#[tactic(auto, using(crate::proofs::Rules::bytes))]
#[inline]
fn front_of(bytes: &[u8]) -> usize
    ensures front { TrimsFront (byte_ends is_ascii_whitespace bytes.now) result }
    ensures within { result ≤ length bytes.now }
{
    let mut at = 0;
    while at < bytes.len() && bytes[at].is_ascii_whitespace() {
        at += 1;
    }
    at
}

// Where the longest back of white space starts, of what lies from `from` on.
#[tactic(auto, using(crate::proofs::Rules::bytes))]
#[inline]
fn back_of(bytes: &[u8], from: usize) -> usize
    requires { from ≤ length bytes.now }
    ensures back { TrimsBack (byte_ends is_ascii_whitespace bytes.now) from (length bytes.now) result }
    ensures within { result ≤ length bytes.now }
{
    let mut to = bytes.len();
    while from < to && bytes[to - 1].is_ascii_whitespace() {
        to -= 1;
    }
    to
}

/// The range without ASCII white space at its front.
#[inline]
pub fn trim_ascii_start(bytes: &[u8]) -> (usize, usize)
    ensures front { TrimsFront (byte_ends is_ascii_whitespace bytes.now) result.0 }
    ensures end { result.1 ≡ length bytes.now }
    ensures within { IsWithin bytes.now result }
{
    (front_of(bytes), bytes.len())
}

/// The range without ASCII white space at its end.
#[inline]
pub fn trim_ascii_end(bytes: &[u8]) -> (usize, usize)
    ensures start { result.0 ≡ 0 }
    ensures back { TrimsBack (byte_ends is_ascii_whitespace bytes.now) 0 (length bytes.now) result.1 }
    ensures within { IsWithin bytes.now result }
{
    (0, back_of(bytes, 0))
}

/// The range without ASCII white space at its front and at its end.
#[inline]
pub fn trim_ascii(bytes: &[u8]) -> (usize, usize)
    ensures front { TrimsFront (byte_ends is_ascii_whitespace bytes.now) result.0 }
    ensures back { TrimsBack (byte_ends is_ascii_whitespace bytes.now) result.0
        (length bytes.now) result.1 }
    ensures within { IsWithin bytes.now result }
{
    let start = front_of(bytes);
    (start, back_of(bytes, start))
}

/// The range before the first `byte` and the range behind it, if there is one.
#[tactic(auto, using(crate::proofs::ByteLemmas::once))]
#[inline]
pub fn split_once(bytes: &[u8], byte: u8) -> Option<((usize, usize), (usize, usize))>
    ensures value { result ≡ split_once (byte_ends (λ b. b == byte) bytes.now) (length bytes.now) }
    ensures within { IfSome result (λ parts. IsWithin bytes.now parts.0 × IsWithin bytes.now parts.1) }
{
    let at = byte_from(byte, bytes, 0)?;
    Some(((0, at), (at + 1, bytes.len())))
}

/// The range before the last `byte` and the range behind it, if there is one.
#[tactic(auto, using(crate::proofs::ByteLemmas::once_back))]
#[inline]
pub fn rsplit_once(bytes: &[u8], byte: u8) -> Option<((usize, usize), (usize, usize))>
    ensures value { result ≡ rsplit_once (byte_ends (λ b. b == byte) bytes.now) (length bytes.now) }
    ensures within { IfSome result (λ parts. IsWithin bytes.now parts.0 × IsWithin bytes.now parts.1) }
{
    let at = byte_before(byte, bytes, bytes.len())?;
    Some(((0, at), (at + 1, bytes.len())))
}
