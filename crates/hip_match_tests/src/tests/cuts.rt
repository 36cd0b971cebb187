//! Trims, strips and cuts at one match.
use super::support::equals;
use hip_match::pattern::{DoubleEndedPattern, ReversePattern};
use hip_match::trim::{
    rsplit_once, split_once, strip_prefix, strip_suffix, trim_end_matches, trim_matches,
    trim_start_matches,
};
use std::process::Abort;
use std::test::Fail;

/// A range of a text.
type Part = (usize, usize);

/// A call that takes a match off a text, or matches.
#[derive(Clone, Copy)]
pub(crate) enum Cut {
    TrimStart,
    TrimEnd,
    StripPrefix,
    StripSuffix,
}

/// Asserts what a call leaves of a text.
pub(crate) fn cuts<P: ReversePattern>(
    rt: &impl Abort,
    kind: Cut,
    text: &str,
    pattern: P,
    want: Option<Part>,
)
    requires { P.can_search pattern }
{
    let left = match kind {
        Cut::TrimStart => Some(trim_start_matches(text, pattern)),
        Cut::TrimEnd => Some(trim_end_matches(text, pattern)),
        Cut::StripPrefix => strip_prefix(text, pattern),
        Cut::StripSuffix => strip_suffix(text, pattern),
    };
    equals(rt, &left, &want);
}

/// Asserts what lies before a match and behind it.
pub(crate) fn once<P: ReversePattern>(
    rt: &impl Abort,
    from_end: bool,
    text: &str,
    pattern: P,
    want: Option<(Part, Part)>,
)
    requires { P.can_search pattern }
{
    let parts = if from_end {
        rsplit_once(text, pattern)
    } else {
        split_once(text, pattern)
    };
    equals(rt, &parts, &want);
}

/// Asserts what is left of a text without matches at its ends.
pub(crate) fn trims<P: DoubleEndedPattern>(rt: &impl Abort, text: &str, pattern: P, want: &str)
    requires { P.can_search pattern }
{
    let (start, end) = trim_matches(text, pattern);
    equals(rt, &&text[start..end], &want);
}

/// A call, its text and pattern, and what it leaves.
#[derive(Clone, Copy)]
struct Row<P>(Cut, &'static str, P, Option<Part>);

fn by_text_rows() -> &'static [Row<&'static str>] {
    &[
        Row(Cut::TrimStart, "xxx", "xx", Some((2, 3))),
        Row(Cut::TrimEnd, "xxx", "xx", Some((0, 1))),
        Row(Cut::TrimStart, "abc", "", Some((0, 3))),
        Row(Cut::TrimEnd, "abc", "", Some((0, 3))),
        Row(Cut::StripPrefix, "abc", "a", Some((1, 3))),
        Row(Cut::StripPrefix, "abc", "y", None),
        Row(Cut::StripSuffix, "éaé", "é", Some((0, 3))),
        Row(Cut::StripSuffix, "abc", "", Some((0, 3))),
    ]
}

#[test]
fn by_a_text(rt: HostRuntime) {
    for Row(kind, text, pattern, want) in by_text_rows() {
        cuts(&rt, *kind, text, *pattern, *want);
    }
}

fn by_one_rows() -> &'static [Row<char>] {
    &[
        Row(Cut::TrimStart, "xxaxx", 'x', Some((2, 5))),
        Row(Cut::TrimEnd, "xxaxx", 'x', Some((0, 3))),
        Row(Cut::StripPrefix, "aab", 'a', Some((1, 3))),
        Row(Cut::StripSuffix, "abc", 'x', None),
    ]
}

#[test]
fn by_a_character(rt: HostRuntime) {
    for Row(kind, text, pattern, want) in by_one_rows() {
        cuts(&rt, *kind, text, *pattern, *want);
    }
    trims(&rt, "xxaxx", 'x', "a");
    once(&rt, false, "abc", ',', None);
}

#[test]
fn by_other_patterns(rt: HostRuntime) {
    let text = "a😀b€cé";
    cuts(&rt, Cut::StripPrefix, text, &['a', 'b'], Some((1, 12)));
    cuts(&rt, Cut::StripSuffix, text, ['é'].as_slice(), Some((0, 10)));
    cuts(&rt, Cut::StripSuffix, text, &"é", Some((0, 10)));
    cuts(&rt, Cut::StripPrefix, text, &"a😀", Some((5, 12)));
    trims(&rt, "xyx", ['x', 'y'].as_slice(), "");
}

#[test]
fn by_an_owned_text(rt: HostRuntime) -> Result<(), Fail> {
    let comma = String::from_str(rt.alloc(), ", ")?;
    cuts(&rt, Cut::StripPrefix, "a, b,c", &comma, None);
    cuts(&rt, Cut::StripSuffix, "a, b,c", &comma, None);
    Ok(())
}

/// A text and a pattern, and what lies before and behind its first match, and its rightmost one.
#[derive(Clone, Copy)]
struct AtOne(&'static str, &'static str, (Part, Part), (Part, Part));

fn once_rows() -> &'static [AtOne] {
    &[
        AtOne("aaa", "aa", ((0, 0), (2, 3)), ((0, 1), (3, 3))),
        AtOne("abc", "", ((0, 0), (0, 3)), ((0, 3), (3, 3))),
    ]
}

#[test]
fn at_one_match(rt: HostRuntime) {
    for AtOne(text, pattern, first, last) in once_rows() {
        once(&rt, false, text, *pattern, Some(*first));
        once(&rt, true, text, *pattern, Some(*last));
    }
}
