//! Ranges drawn from both ends by a script.
#![tactic(auto, using(crate::proofs::Rules::draw))]

ghost use Rattle.std.specs.Prelude.{◌≡◌, ◌≤◌, length, take, drop};
ghost use Rattle.hip_match.specs.Draw.{draw, left_by, TakesEnd};

use crate::ranges::RangesBack;

/// An end of a list of ranges.
#[derive(Clone, Copy, Debug, PartialEq, Eq)]
pub enum End {
    /// The first that is left.
    Front,
    /// The last that is left.
    Back,
}

// The range at one end of those that are left.
#[inline]
fn take_from<R: RangesBack>(ranges: &mut R, end: End) -> Option<(usize, usize)>
    requires { R.ready ranges.old }
    ensures taken { TakesEnd end (R.rest ranges.old) (R.rest ranges.new) result }
    ensures text { R.text ranges.new ≡ R.text ranges.old }
    ensures ready { R.ready ranges.new }
{
    match end {
        End::Front => ranges.next(),
        End::Back => ranges.next_back(),
    }
}

/// Draws ranges in the order of `script` until it or they end, writes them into the front of `drawn` and answers their number.
pub fn draw_into<R: RangesBack>(
    ranges: &mut R,
    script: &[End],
    drawn: &mut [(usize, usize)],
) -> usize
    requires ready { R.ready ranges.old }
    requires room { length script.now ≤ length drawn.old }
    ensures drawn { take result drawn.new ≡ draw (R.rest ranges.old) script.now }
    ensures others { drop result drawn.new ≡ drop result drawn.old }
    ensures count { result ≡ length (draw (R.rest ranges.old) script.now) }
    ensures rest { R.rest ranges.new ≡ left_by (R.rest ranges.old) script.now }
    ensures text { R.text ranges.new ≡ R.text ranges.old }
    ensures ready { R.ready ranges.new }
{
    let mut count = 0;
    for end in script {
        match take_from(ranges, *end) {
            Some(range) => {
                drawn[count] = range;
                count += 1;
            }
            None => break,
        }
    }
    count
}
