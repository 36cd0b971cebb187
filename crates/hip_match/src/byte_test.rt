//! Tests of a byte, sixteen at a time.

ghost use Rattle.std.specs.Prelude.{◌≡◌, ◌==◌, ◌+◌, ◌≤◌, ℕ, Bool, length, IfSome};
ghost use Rattle.memchr.specs.Find.{IsFirst, IsLast, Passes};
ghost use Rattle.hip_match.specs.Marks.{AreMarks, by_byte, has_nibbles};
ghost use Rattle.hip_match.specs.declared.byte_test.TheConstants.{SPACE_COLUMNS, SPACE_ROWS};

use memchr::{memchr, memrchr};
use std::simd::prelude::*;

/// A test of a byte.
pub trait ByteTest: Copy {
    /// The bytes that pass.
    ghost passes: { Self → ℕ → Bool };

    /// Which of the sixteen bytes from `at` on pass, as a mask whose lowest bit is the first byte's.
    fn lanes(&self, bytes: &[u8], at: usize) -> u64
        requires { at + 16 ≤ length bytes.now }
        ensures { AreMarks (by_byte (passes self.now)) bytes.now at (at + 16) (at + 64) result };

    /// The only byte that passes, if the test is of one byte. A search for it passes long stretches.
    #[inline(always)]
    fn only(&self) -> Option<u8>
        ensures { IfSome result (λ byte. passes self.now ≡ (λ b. b == byte)) }
    {
        None
    }
}

/// One byte.
#[derive(Clone, Copy)]
pub struct OneByte(pub u8);

impl ByteTest for OneByte {
    ghost passes = { λ s byte. byte == s.0 };

    #[inline(always)]
    fn lanes(&self, bytes: &[u8], at: usize) -> u64 {
        u8x16::from_slice(&bytes[at..])
            .simd_eq(u8x16::splat(self.0))
            .to_bitmask()
    }

    #[inline(always)]
    fn only(&self) -> Option<u8> {
        Some(self.0)
    }
}

// The first place of a byte at or after `from`.
#[tactic(auto, using(crate::proofs::MarkLemmas::first_behind))]
#[inline(never)]
pub(crate) fn byte_from(byte: u8, bytes: &[u8], from: usize) -> Option<usize>
    requires { from ≤ length bytes.now }
    ensures { IsFirst (Passes (λ b. b == byte) bytes.now) from (length bytes.now) result }
{
    Some(from + memchr(byte, &bytes[from..])?)
}

// The last place of a byte before `to`.
#[inline(never)]
pub(crate) fn byte_before(byte: u8, bytes: &[u8], to: usize) -> Option<usize>
    requires { to ≤ length bytes.now }
    ensures { IsLast (Passes (λ b. b == byte) bytes.now) 0 to result }
{
    memrchr(byte, &bytes[..to])
}

// The columns of a table of ASCII: bit h of a row says whether the character `16 * h + low` belongs, for h below 8.
pub(crate) const ASCII_COLUMNS: [u8; 16] = [1, 2, 4, 8, 16, 32, 64, 128, 0, 0, 0, 0, 0, 0, 0, 0];

// Whether the row of a byte, told by its low four bits, has the column of its high four.
#[inline(always)]
pub(crate) fn has_nibbles(rows: &[u8; 16], columns: &[u8; 16], byte: u8) -> bool
    ensures { result ≡ has_nibbles rows.now columns.now byte }
{
    rows[(byte & 15) as usize] & columns[(byte >> 4) as usize] != 0
}

// Which of the sixteen bytes from `at` on have their column in their row.
#[inline(always)]
pub(crate) fn nibble_lanes(rows: &[u8; 16], columns: &[u8; 16], bytes: &[u8], at: usize) -> u64
    requires { at + 16 ≤ length bytes.now }
    ensures { AreMarks (by_byte (has_nibbles rows.now columns.now)) bytes.now at (at + 16) (at + 64) result }
{
    let lanes = u8x16::from_slice(&bytes[at..]);
    let rows = u8x16::from_array(*rows).swizzle_dyn_within::<16>(lanes & u8x16::splat(15));
    let columns = u8x16::from_array(*columns).swizzle_dyn_within::<16>(lanes >> u8x16::splat(4));
    (rows & columns).simd_ne(u8x16::splat(0)).to_bitmask()
}

// Tables for the bytes with which a character of Unicode's `White_Space` begins: those of ASCII, 0xC2, and 0xE1 to 0xE3.
const SPACE_ROWS: [u8; 16] = [2, 8, 12, 8, 0, 0, 0, 0, 0, 1, 1, 1, 1, 1, 0, 0];

const SPACE_COLUMNS: [u8; 16] = [1, 0, 2, 0, 0, 0, 0, 0, 0, 0, 0, 0, 4, 0, 8, 0];

/// The bytes with which a character of white space begins, and some others of which none is of ASCII.
#[derive(Clone, Copy)]
pub struct SpaceLeads;

impl ByteTest for SpaceLeads {
    ghost passes = { λ _. has_nibbles SPACE_ROWS SPACE_COLUMNS };

    #[inline(always)]
    fn lanes(&self, bytes: &[u8], at: usize) -> u64 {
        nibble_lanes(&SPACE_ROWS, &SPACE_COLUMNS, bytes, at)
    }
}
