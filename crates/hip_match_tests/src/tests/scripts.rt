//! Ranges that scripts draw.
use super::support::equals;
use hip_match::draw::{End, draw_into};
use hip_match::lines::Lines;
use hip_match::ranges::{Ranges, RangesBack};
use hip_match::rsplit::{RSplit, RSplitTerminator};
use hip_match::split::{Split, SplitInclusive, SplitTerminator};
use hip_match::white_space::{SplitAsciiWhitespace, SplitWhitespace};
use std::process::Abort;

/// Asserts that the script, a bit for each end, draws these ranges and then none.
fn follows<R: RangesBack + Drop>(
    rt: &impl Abort,
    mut ranges: R,
    script: u8,
    mut left: &[(usize, usize)],
)
    requires { R.ready ranges }
{
    for step in [1u8, 2, 4, 8, 16, 32] {
        let (drawn, want) = if script & step == 0 {
            let first = left.first().copied();
            left = left.get(1..).unwrap_or_default();
            (ranges.next(), first)
        } else {
            let last = left.last().copied();
            left = left.get(..left.len().saturating_sub(1)).unwrap_or_default();
            (ranges.next_back(), last)
        };
        assert_eq!(rt; drawn, want, "script {script}");
    }
    equals(
        rt,
        &(ranges.next(), ranges.next_back(), ranges.next()),
        &(None, None, None),
    );
}

#[test]
fn every_script_of_six(rt: HostRuntime) {
    let parts = [(0, 1), (2, 3), (4, 5), (6, 7)];
    for script in 0u8..64 {
        follows(&rt, Split::new("a,b,c,d", ','), script, &parts);
    }
}

#[test]
fn drawn_by_a_script(rt: HostRuntime) {
    let mut ranges = Split::new("a,b,c,d", ',');
    let mut drawn = [(0, 0); 5];
    let script = [End::Front, End::Back, End::Back, End::Front, End::Front];
    equals(&rt, &draw_into(&mut ranges, &script, &mut drawn), &4);
    equals(
        &rt,
        &drawn.as_slice(),
        &[(0, 1), (6, 7), (4, 5), (2, 3), (0, 0)].as_slice(),
    );
}

/// Asserts the first range that is drawn from the back.
fn draws_last<R: RangesBack + Drop>(rt: &impl Abort, mut ranges: R, want: (usize, usize))
    requires { R.ready ranges }
{
    let mut drawn = [(0, 0)];
    equals(rt, &draw_into(&mut ranges, &[End::Back], &mut drawn), &1);
    equals(rt, &drawn[0], &want);
}

#[test]
fn drawn_from_each_iterator(rt: HostRuntime) {
    draws_last(&rt, SplitInclusive::new("a,b,", ','), (2, 4));
    draws_last(&rt, SplitTerminator::new("a,b,", ','), (2, 3));
    draws_last(&rt, RSplit::new("a,b,", ','), (0, 1));
    draws_last(&rt, RSplitTerminator::new("a,b,", ','), (0, 1));
    draws_last(&rt, Lines::new("a\nb\n"), (2, 3));
    draws_last(&rt, SplitWhitespace::new("a b "), (2, 3));
    draws_last(&rt, SplitAsciiWhitespace::new("a b "), (2, 3));
}
