//! The boundaries next to a place.

ghost use Rattle.std.specs.Prelude.{◌<◌, ◌≤◌, length};
ghost use Rattle.hip_match.specs.Ready.{IsNextBoundary, IsPreviousBoundary};

// The first boundary after `at`.
#[inline]
pub(crate) fn boundary_after(text: &str, at: usize) -> usize
    requires { at < length text.now }
    ensures { IsNextBoundary text.now at result }
{
    let bytes = text.as_bytes();
    for i in at + 1..bytes.len() {
        if bytes[i] < 0x80 || bytes[i] >= 0xC0 {
            return i;
        }
    }
    bytes.len()
}

// The last boundary before `at`.
#[tactic(auto, using(crate::proofs::Rules::boundaries))]
#[inline]
pub(crate) fn boundary_before(text: &str, at: usize) -> usize
    requires within { at ≤ length text.now }
    requires some { 0 < at }
    ensures { IsPreviousBoundary text.now at result }
{
    let bytes = text.as_bytes();
    for i in (1..at).rev() {
        if bytes[i] < 0x80 || bytes[i] >= 0xC0 {
            return i;
        }
    }
    0
}
