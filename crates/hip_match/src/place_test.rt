//! Tests of a place of a text, sixteen at a time.

ghost use Rattle.std.specs.Prelude.{◌≡◌, ◌+◌, ◌<◌, ◌≤◌, ℕ, Bool, IsTrue, List, [], ◌∷◌, length, slice_index, take, MatchOption};
ghost use Rattle.std.specs.Int.{to_le_bytes, w32};
ghost use Rattle.memchr.specs.Find.{Nowhere};
ghost use Rattle.hip_match.specs.Marks.{AreMarks, PassesAt, by_byte, stands};
ghost use Rattle.hip_match.specs.Needles.{bytes_of, packed, reach_of};

use crate::byte_test::{ByteTest, OneByte, byte_before, byte_from};
use crate::marks::{BLOCK, is_clear};

/// A test of a place of a text, which reads the byte there and some behind it.
pub trait PlaceTest: Copy {
    /// The places of a text that pass.
    ghost places: { Self → List ℕ → ℕ → Bool };

    /// The number of bytes behind a place that are read with it.
    ghost reach: { Self → ℕ };

    /// The number of bytes behind a place that are read with it, at most 16. A place that passes has them, and passes in each text that is alike there.
    fn reach(&self) -> usize
        ensures value { result ≡ reach self.now }
        ensures few { result ≤ 16 }
        ensures fits { (t : List ℕ) (k : ℕ) → k < length t → PassesAt (places self.now) t k → k + result < length t }
        ensures alike { (t u : List ℕ) (k : ℕ) → k + result < length t → k + result < length u
            → ((i : ℕ) → k ≤ i → i ≤ k + result → slice_index t i ≡ slice_index u i) → places self.now t k ≡ places self.now u k };

    /// Which of the sixteen places from `at` on pass, as a mask whose lowest bit is the first place's.
    fn lanes(&self, bytes: &[u8], at: usize) -> u64
        requires { at + 16 + reach self.now ≤ length bytes.now }
        ensures { AreMarks (places self.now) bytes.now at (at + 16) (at + 64) result };

    /// A place from which on marks are worth reading: none passes from `from` on before it. Quick over long stretches where none does.
    #[inline(always)]
    fn pass(&self, bytes: &[u8], from: usize) -> Option<usize>
        requires { from ≤ length bytes.now }
        ensures { MatchOption result (Nowhere (PassesAt (places self.now) bytes.now) from (length bytes.now)) (λ start. (from ≤ start)
            × (start ≤ length bytes.now) × Nowhere (PassesAt (places self.now) bytes.now) from start) }
    {
        Some(from)
    }

    /// A place before which marks are worth reading: none passes from there on before `to`.
    #[inline(always)]
    fn pass_back(&self, bytes: &[u8], to: usize) -> Option<usize>
        requires { to + reach self.now ≤ length bytes.now }
        ensures { MatchOption result (Nowhere (PassesAt (places self.now) bytes.now) 0 to) (λ stop. (stop ≤ to)
            × Nowhere (PassesAt (places self.now) bytes.now) stop to) }
    {
        Some(to)
    }
}

/// The places whose byte passes a test.
#[derive(Clone, Copy)]
pub struct Bytes<T: ByteTest>(pub T);

impl<T: ByteTest> PlaceTest for Bytes<T> {
    ghost places = { λ s. by_byte (T.passes s.0) };

    ghost reach = { λ _. 0 };

    #[inline(always)]
    fn reach(&self) -> usize {
        0
    }

    #[inline(always)]
    fn lanes(&self, bytes: &[u8], at: usize) -> u64 {
        self.0.lanes(bytes, at)
    }

    #[inline(always)]
    fn pass(&self, bytes: &[u8], from: usize) -> Option<usize> {
        match self.0.only() {
            Some(byte) => byte_from(byte, bytes, from),
            None => Some(from),
        }
    }

    #[inline(always)]
    fn pass_back(&self, bytes: &[u8], to: usize) -> Option<usize> {
        match self.0.only() {
            Some(byte) => Some(byte_before(byte, bytes, to)? + 1),
            None => Some(to),
        }
    }
}

/// Two bytes that stand one after another.
#[derive(Clone, Copy)]
pub struct Pair(pub u8, pub u8);

impl PlaceTest for Pair {
    ghost places = { λ s. stands (s.0 ∷ s.1 ∷ []) };

    ghost reach = { λ _. 1 };

    #[inline(always)]
    fn reach(&self) -> usize {
        1
    }

    #[inline(always)]
    fn lanes(&self, bytes: &[u8], at: usize) -> u64 {
        OneByte(self.0).lanes(bytes, at) & OneByte(self.1).lanes(bytes, at + 1)
    }
}

// The number of blocks after which a needle's last byte is searched for.
const BLOCKS: usize = 16;

// The number whose bytes these are, the first the lowest.
#[tactic(auto, using(crate::proofs::Rules::word))]
#[inline(always)]
fn word_of(bytes: [u8; 4]) -> u32
    ensures { to_le_bytes w32 result ≡ bytes }
{
    u32::from_le_bytes(bytes)
}

/// One to four bytes that stand one after another.
#[derive(Clone, Copy)]
pub enum Needle {
    One(u8),
    Two(u8, u8),
    Three(u8, u8, u8),
    Four(u8, u8, u8, u8),
}

impl Needle {
    /// The needle of the first four of these bytes, or of all where they are fewer.
    #[inline]
    pub fn new(bytes: &[u8]) -> Option<Self>
        ensures { MatchOption result (length bytes.now ≡ 0) (λ n. bytes_of n ≡ take 4 bytes.now) }
    {
        match bytes.len() {
            0 => None,
            1 => Some(Needle::One(bytes[0])),
            2 => Some(Needle::Two(bytes[0], bytes[1])),
            3 => Some(Needle::Three(bytes[0], bytes[1], bytes[2])),
            _ => Some(Needle::Four(bytes[0], bytes[1], bytes[2], bytes[3])),
        }
    }

    // Its last byte.
    #[inline(always)]
    fn last(&self) -> u8
        ensures { (t : List ℕ) (k : ℕ) → PassesAt (stands (bytes_of self.now)) t k → slice_index t (k + reach_of self.now) ≡ result }
    {
        match *self {
            Needle::One(a) => a,
            Needle::Two(_, b) => b,
            Needle::Three(_, _, c) => c,
            Needle::Four(_, _, _, d) => d,
        }
    }

    /// Its bytes as one number, the first the lowest. A call takes that in a register; an enum's bytes would be stored one by one.
    #[inline(always)]
    pub(crate) fn word(&self) -> u32
        ensures { packed result (reach_of self.now) ≡ bytes_of self.now }
    {
        match *self {
            Needle::One(a) => word_of([a, 0, 0, 0]),
            Needle::Two(a, b) => word_of([a, b, 0, 0]),
            Needle::Three(a, b, c) => word_of([a, b, c, 0]),
            Needle::Four(a, b, c, d) => word_of([a, b, c, d]),
        }
    }

    // Whether its last two bytes stand at none of the 64 places that belong to those from `at` on.
    #[inline(always)]
    fn ends_nowhere(&self, bytes: &[u8], at: usize) -> bool
        requires { at + 64 + reach_of self.now ≤ length bytes.now }
        ensures { IsTrue result → Nowhere (PassesAt (stands (bytes_of self.now)) bytes.now) at (at + 64) }
    {
        match *self {
            Needle::One(_) => false,
            Needle::Two(a, b) => is_clear(&Pair(a, b), bytes, at),
            Needle::Three(_, b, c) => is_clear(&Pair(b, c), bytes, at + 1),
            Needle::Four(_, _, c, d) => is_clear(&Pair(c, d), bytes, at + 2),
        }
    }
}

impl PlaceTest for Needle {
    ghost places = { λ s. stands (bytes_of s) };

    ghost reach = { reach_of };

    #[inline(always)]
    fn reach(&self) -> usize {
        match *self {
            Needle::One(_) => 0,
            Needle::Two(_, _) => 1,
            Needle::Three(_, _, _) => 2,
            Needle::Four(_, _, _, _) => 3,
        }
    }

    #[inline(always)]
    fn lanes(&self, bytes: &[u8], at: usize) -> u64 {
        match *self {
            Needle::One(a) => OneByte(a).lanes(bytes, at),
            Needle::Two(a, b) => Pair(a, b).lanes(bytes, at),
            Needle::Three(a, b, c) => {
                OneByte(a).lanes(bytes, at) & Pair(b, c).lanes(bytes, at + 1)
            }
            Needle::Four(a, b, c, d) => {
                OneByte(a).lanes(bytes, at)
                    & (OneByte(b).lanes(bytes, at + 1) & Pair(c, d).lanes(bytes, at + 2))
            }
        }
    }

    // Every so many blocks its last byte is searched for, which passes a stretch without that byte sooner.
    #[inline(always)]
    fn pass(&self, bytes: &[u8], from: usize) -> Option<usize> {
        let reach = self.reach();
        let last = bytes.len().saturating_sub(BLOCK + reach);
        let mut start = from;
        let mut passed = 0usize;
        while start < last && self.ends_nowhere(bytes, start) {
            start += BLOCK;
            passed = passed.wrapping_add(1);
            if passed % BLOCKS == 0 {
                start = byte_from(self.last(), bytes, start + reach)? - reach;
            }
        }
        Some(start)
    }

    #[inline(always)]
    fn pass_back(&self, bytes: &[u8], to: usize) -> Option<usize> {
        let reach = self.reach();
        let mut stop = to;
        let mut passed = 0usize;
        while BLOCK <= stop && self.ends_nowhere(bytes, stop - BLOCK) {
            stop -= BLOCK;
            passed = passed.wrapping_add(1);
            if passed % BLOCKS == 0 {
                stop = (byte_before(self.last(), bytes, stop + reach)? + 1).saturating_sub(reach);
            }
        }
        Some(stop)
    }
}
