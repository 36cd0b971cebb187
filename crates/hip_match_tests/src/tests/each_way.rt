//! Each pattern that occurs at each `é` alone, in each way that there is.
use super::cuts::{Cut, cuts, once, trims};
use super::support::equals;
use super::walks::{Walk, lists, walk_by_script, walks};
use hip_match::draw::{End, draw_into};
use hip_match::indices::{MatchIndices, RMatchIndices};
use hip_match::laws::{just_one_list_is_leftmost, just_one_list_is_rightmost, one_char_reverses};
use hip_match::matches::Matches;
use hip_match::pattern::{DoubleEndedPattern, OneChar, Pattern, ReversePattern};
use hip_match::ranges::RangesBack;
use hip_match::rmatches::RMatches;
use std::process::Abort;
use std::test::Fail;

/// The text in which the patterns are looked for.
pub(crate) const TEXT: &str = "ééaébé";

/// Each walk, with the texts that it gives.
pub(crate) fn each_walk() -> &'static [(Walk, &'static [&'static str])] {
    &[
        (Walk::Matches, &["é", "é", "é", "é"]),
        (Walk::MatchIndices, &["é", "é", "é", "é"]),
        (Walk::Split, &["", "", "a", "b", ""]),
        (Walk::SplitInclusive, &["é", "é", "aé", "bé"]),
        (Walk::SplitTerminator, &["", "", "a", "b"]),
        (Walk::SplitN(3), &["", "", "aébé"]),
        (Walk::RMatches, &["é", "é", "é", "é"]),
        (Walk::RMatchIndices, &["é", "é", "é", "é"]),
        (Walk::RSplit, &["", "b", "a", "", ""]),
        (Walk::RSplitTerminator, &["b", "a", "", ""]),
        (Walk::RSplitN(2), &["", "ééaéb"]),
    ]
}

/// A walk, the ends that a script draws from, and the texts that it draws.
#[derive(Clone, Copy)]
pub(crate) struct Drawn(pub Walk, pub &'static str, pub &'static [&'static str]);

/// Scripts of the walks that give pieces, with the texts that they draw.
pub(crate) fn each_drawn() -> &'static [Drawn] {
    &[
        Drawn(Walk::Split, "FBFBF", &["", "", "", "b", "a"]),
        Drawn(Walk::SplitInclusive, "FBFB", &["é", "bé", "é", "aé"]),
        Drawn(Walk::SplitTerminator, "BFBF", &["b", "", "a", ""]),
        Drawn(Walk::RSplit, "FBFBF", &["", "", "b", "", "a"]),
        Drawn(Walk::RSplitTerminator, "FBBF", &["b", "", "", "a"]),
    ]
}

/// The matches, drawn from the front and the back in turn.
const LEFTMOST: &[(usize, usize)] = &[(0, 2), (8, 10), (2, 4), (5, 7)];

/// The rightmost matches, drawn from the front and the back in turn.
const RIGHTMOST: &[(usize, usize)] = &[(8, 10), (0, 2), (5, 7), (2, 4)];

/// Each walk over matches, with the matches drawn from the front and the back in turn.
const TURNS: &[(Walk, &[(usize, usize)])] = &[
    (Walk::Matches, LEFTMOST),
    (Walk::MatchIndices, LEFTMOST),
    (Walk::RMatches, RIGHTMOST),
    (Walk::RMatchIndices, RIGHTMOST),
];

pub(crate) fn each_turn() -> &'static [(Walk, &'static [(usize, usize)])] {
    TURNS
}

/// Each call that takes matches off, with the range of the text that it leaves.
pub(crate) fn each_cut() -> &'static [(Cut, (usize, usize))] {
    &[
        (Cut::TrimStart, (4, 10)),
        (Cut::TrimEnd, (0, 8)),
        (Cut::StripPrefix, (2, 10)),
        (Cut::StripSuffix, (0, 8)),
    ]
}

/// Asserts the ranges, drawn from the front and the back in turn.
fn draws_by_turns<R: RangesBack + Drop>(rt: &impl Abort, mut ranges: R, want: &[(usize, usize)])
    requires { R.ready ranges }
{
    let mut drawn = [(0, 0); 5];
    let script = [End::Front, End::Back, End::Front, End::Back, End::Front];
    equals(rt, &draw_into(&mut ranges, &script, &mut drawn), &4);
    equals(rt, &&drawn[..4], &want);
}

/// Asserts which matches a walk draws from the front and the back in turn.
pub(crate) fn matches_by_turns<P: OneChar>(
    rt: &impl Abort,
    kind: Walk,
    pattern: P,
    want: &[(usize, usize)],
)
    requires { P.can_search pattern }
{
    match kind {
        Walk::Matches => draws_by_turns(rt, Matches::new(TEXT, pattern), want),
        Walk::MatchIndices => draws_by_turns(rt, MatchIndices::new(TEXT, pattern), want),
        Walk::RMatches => draws_by_turns(rt, RMatches::new(TEXT, pattern), want),
        Walk::RMatchIndices => draws_by_turns(rt, RMatchIndices::new(TEXT, pattern), want),
        Walk::Split
        | Walk::SplitInclusive
        | Walk::SplitTerminator
        | Walk::SplitN(_)
        | Walk::RSplit
        | Walk::RSplitTerminator
        | Walk::RSplitN(_) => panic!(rt; "it walks over no matches"),
    }
}

/// Asserts what the pattern's own calls answer.
pub(crate) fn searches<P: ReversePattern>(rt: &impl Abort, pattern: &P)
    requires { P.can_search pattern.now }
{
    equals(
        rt,
        &(
            pattern.next_match(TEXT, 4),
            pattern.match_at(TEXT, 2),
            pattern.match_at(TEXT, 4),
        ),
        &(Some((5, 7)), Some(4), None),
    );
    equals(
        rt,
        &(
            pattern.last_match(TEXT, 8),
            pattern.match_before(TEXT, 4),
            pattern.match_before(TEXT, 5),
        ),
        &(Some((5, 7)), Some(2), None),
    );
    // The laws' functions do nothing: such calls show that a caller can state them.
    just_one_list_is_leftmost(pattern, TEXT);
    just_one_list_is_rightmost(pattern, TEXT);
}

/// Asserts what the tests of a pattern of one character answer.
pub(crate) fn tests_at_a_place<P: OneChar + DoubleEndedPattern>(rt: &impl Abort, pattern: &P)
    requires { P.can_search pattern.now }
{
    equals(
        rt,
        &(
            pattern.starts_at(TEXT, 2),
            pattern.starts_at(TEXT, 4),
            pattern.ends_at(TEXT, 7),
            pattern.ends_at(TEXT, 8),
        ),
        &(true, false, true, false),
    );
    one_char_reverses(pattern, TEXT);
}

fn pattern_each_way<P: ReversePattern + Copy>(rt: &impl Abort, pattern: P)
    requires { P.can_search pattern }
{
    for (kind, want) in each_walk() {
        walks(rt, *kind, TEXT, pattern, want);
    }
    for (kind, want) in each_cut() {
        cuts(rt, *kind, TEXT, pattern, Some(*want));
    }
    once(rt, false, TEXT, pattern, Some(((0, 0), (2, 10))));
    once(rt, true, TEXT, pattern, Some(((0, 8), (10, 10))));
    searches(rt, &pattern);
}

fn pattern_from_both_ends<P: OneChar + Copy>(rt: &impl Abort, pattern: P)
    requires { P.can_search pattern }
{
    for Drawn(kind, script, want) in each_drawn() {
        walk_by_script(rt, *kind, TEXT, pattern, script, want);
    }
    for (kind, want) in each_turn() {
        matches_by_turns(rt, *kind, pattern, want);
    }
}

#[test]
fn by_a_text(rt: HostRuntime) -> Result<(), Fail> {
    let owned = String::from_str(rt.alloc(), "é")?;
    pattern_each_way(&rt, "é");
    pattern_each_way(&rt, &"é");
    pattern_each_way(&rt, &owned);
    Ok(())
}

#[test]
fn by_characters(rt: HostRuntime) {
    let wanted = ['x', 'é', 'y'];
    pattern_each_way(&rt, 'é');
    pattern_each_way(&rt, &wanted);
    pattern_each_way(&rt, wanted.as_slice());
    pattern_from_both_ends(&rt, 'é');
    pattern_from_both_ends(&rt, &wanted);
    pattern_from_both_ends(&rt, wanted.as_slice());
}

#[test]
fn at_a_place(rt: HostRuntime) {
    let wanted = ['x', 'é', 'y'];
    tests_at_a_place(&rt, &'é');
    tests_at_a_place(&rt, &wanted.as_slice());
    trims(&rt, TEXT, 'é', "aéb");
    trims(&rt, TEXT, wanted.as_slice(), "aéb");
    equals(
        &rt,
        &((&wanted).ends_at(TEXT, 7), (&wanted).ends_at(TEXT, 8)),
        &(true, false),
    );
    one_char_reverses(&&wanted, TEXT);
}
