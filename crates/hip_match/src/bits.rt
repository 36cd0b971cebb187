//! Numbers of 64 bits, bit by bit.
#![tactic(auto, using(crate::proofs::Rules::bits))]

ghost use Rattle.std.specs.Prelude.{◌≡◌, ◌≢◌, ◌-◌, ◌<◌, ◌≤◌, ℕ, MatchOption};
ghost use Rattle.std.specs.Int.{bit_at};
ghost use Rattle.hip_match.specs.Bits.{IsHighest, IsLowest};

/// The lowest bit that is set.
#[inline(always)]
pub fn lowest(m: u64) -> Option<u32>
    ensures { MatchOption result (m ≡ 0) (IsLowest m) }
{
    if m == 0 {
        None
    } else {
        Some(m.trailing_zeros())
    }
}

// The highest bit that is set.
#[inline(always)]
pub(crate) fn highest(m: u64) -> Option<u32>
    ensures { MatchOption result (m ≡ 0) (IsHighest m) }
{
    if m == 0 { None } else { Some(m.ilog2()) }
}

/// All bits but the lowest that is set.
#[inline(always)]
pub fn without_lowest(m: u64) -> u64
    ensures lowest { (r : ℕ) → IsLowest m r → bit_at result r ≡ 0 }
    ensures others { (r k : ℕ) → IsLowest m r → k ≢ r → bit_at result k ≡ bit_at m k }
{
    m & m.wrapping_sub(1)
}

// All bits but this one.
#[inline(always)]
pub(crate) fn without(m: u64, bit: u32) -> u64
    requires bound { bit < 64 }
    requires set { bit_at m bit ≡ 1 }
    ensures gone { bit_at result bit ≡ 0 }
    ensures others { (k : ℕ) → k ≢ bit → bit_at result k ≡ bit_at m k }
{
    m ^ (1 << bit)
}

// The bits from `by` on.
#[inline(always)]
pub(crate) fn bits_from(m: u64, by: usize) -> u64
    requires { by < 64 }
    ensures below { (k : ℕ) → k < by → bit_at result k ≡ 0 }
    ensures kept { (k : ℕ) → by ≤ k → bit_at result k ≡ bit_at m k }
{
    (m >> by) << by
}

// The bits below `count`.
#[inline(always)]
pub(crate) fn bits_below(m: u64, count: usize) -> u64
    requires { count < 64 }
    ensures kept { (k : ℕ) → k < count → bit_at result k ≡ bit_at m k }
    ensures above { (k : ℕ) → count ≤ k → bit_at result k ≡ 0 }
{
    m & ((1 << count) - 1)
}

// The bits of a number, `by` places higher.
#[inline(always)]
pub(crate) fn shifted_up(m: u64, by: usize) -> u64
    requires { by < 64 }
    ensures below { (k : ℕ) → k < by → bit_at result k ≡ 0 }
    ensures moved { (k : ℕ) → by ≤ k → k < 64 → bit_at result k ≡ bit_at m (k - by) }
{
    m << by
}
