//! Where the class changes from one byte to the next, found 63 places at a time.
ghost use Rattle.std.specs.Prelude.{◌≡◌, ℕ, ◌+◌, ◌<◌, ◌≤◌, not, length, MatchOption};
ghost use Rattle.std.specs.Int.{bit_at};
ghost use Rattle.hipstr.specs.AsciiSets.{in_set};
ghost use Rattle.hip_uses.specs.Token.{is_word_or_digit, is_word_or_space};
ghost use Rattle.hip_uses.specs.Turns.{TurnsAhead, AreTurns, IsNextTurn, IsTail};

use hipstr::bits::{lowest, without_lowest};
use hipstr::pattern::AsciiSet;

// The white space and the marks.
#[inline(always)]
fn spaces_and_marks() -> AsciiSet
    ensures { (byte : ℕ) → byte < 256 → in_set result byte ≡ not (is_word_or_digit byte) }
{
    AsciiSet::alphanumeric().with(b'_').complement()
}

// The digits and the marks.
#[inline(always)]
fn digits_and_marks() -> AsciiSet
    ensures { (byte : ℕ) → byte < 256 → in_set result byte ≡ not (is_word_or_space byte) }
{
    AsciiSet::alphabetic()
        .with(b'_')
        .union(AsciiSet::whitespace())
        .complement()
}

// At which of the 63 places from `at` on a run ends: where one of both sets tells the next byte otherwise.
#[inline]
fn turns_at(bytes: &[u8], at: usize) -> u64
    requires { at + 64 ≤ length bytes.now }
    ensures turns { AreTurns bytes.now at result }
    ensures few { (k : ℕ) → 63 ≤ k → bit_at result k ≡ 0 }
{
    let spaces = spaces_and_marks().marks(bytes, at);
    let digits = digits_and_marks().marks(bytes, at);
    ((spaces ^ (spaces >> 1)) | (digits ^ (digits >> 1))) & (u64::MAX >> 1)
}

// The ends of runs among the places that were looked at, up to `upto`.
#[derive(Clone, Copy)]
pub(crate) struct Turns {
    pub(crate) upto: usize,
    turns: u64,
}

impl Turns {
    // No place was looked at.
    pub(crate) fn new(bytes: &[u8]) -> Self
        ensures { TurnsAhead bytes.now 0 result.upto result.turns }
    {
        Turns { upto: 0, turns: 0 }
    }

    // The first place at or after `from` at which a run ends. None is found in the tail, where fewer than 64 places are left.
    #[inline(always)]
    pub(crate) fn next(&mut self, bytes: &[u8], from: usize) -> Option<usize>
        requires { TurnsAhead bytes.now from self.old.upto self.old.turns }
        ensures found { MatchOption result
            (IsTail bytes.now from self.new.upto self.new.turns) (IsNextTurn bytes.now from) }
        ensures ahead { MatchOption result (TurnsAhead bytes.now from self.new.upto self.new.turns)
            (λ at. TurnsAhead bytes.now (at + 1) self.new.upto self.new.turns) }
    {
        loop {
            if let Some(first) = lowest(self.turns) {
                self.turns = without_lowest(self.turns);
                return Some(self.upto - 63 + first as usize);
            }
            if bytes.len() - self.upto < 64 {
                return None;
            }
            self.turns = turns_at(bytes, self.upto);
            self.upto += 63;
        }
    }
}
