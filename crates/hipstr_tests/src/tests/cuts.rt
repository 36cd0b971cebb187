//! Texts that are cut once: trims, strips, and parts before and behind a match. `runs` cuts them.
use hipstr::Command::{Once, Strip, Trim, TrimMatches};
use hipstr::Pat::{Char, Set, Text};
use hipstr::{Command, End, Side};

/// A text, a command that cuts it into slot 1, or into slots 1 and 2, and what it puts there, as Rust's `str` has it.
pub(crate) type Cut = (
    &'static str,
    Command<'static>,
    Option<&'static str>,
    Option<&'static str>,
);

/// White space at both ends, and what only looks like it.
const SPACED: &str = " \u{a0}\u{2003}a\u{85}";

const UNSPACED: &str = "\u{200b}a\u{feff}";

const TRIMMED: &[Cut] = &[
    (SPACED, Trim(0, 1, Side::Both), Some("a"), None),
    (SPACED, Trim(0, 1, Side::Start), Some("a\u{85}"), None),
    (
        SPACED,
        Trim(0, 1, Side::End),
        Some(" \u{a0}\u{2003}a"),
        None,
    ),
    (UNSPACED, Trim(0, 1, Side::Both), Some(UNSPACED), None),
    (
        "xxx",
        TrimMatches(0, 1, Side::Start, Text("xx")),
        Some("x"),
        None,
    ),
    (
        "xxx",
        TrimMatches(0, 1, Side::End, Text("xx")),
        Some("x"),
        None,
    ),
    (
        "abc",
        TrimMatches(0, 1, Side::Start, Text("")),
        Some("abc"),
        None,
    ),
    (
        "abc",
        TrimMatches(0, 1, Side::End, Text("")),
        Some("abc"),
        None,
    ),
    (
        "xxaxx",
        TrimMatches(0, 1, Side::Both, Char('x')),
        Some("a"),
        None,
    ),
    (
        "xxaxx",
        TrimMatches(0, 1, Side::Start, Char('x')),
        Some("axx"),
        None,
    ),
    (
        "xxaxx",
        TrimMatches(0, 1, Side::End, Char('x')),
        Some("xxa"),
        None,
    ),
    (
        "xyx",
        TrimMatches(0, 1, Side::Both, Set(&['x', 'y'])),
        Some(""),
        None,
    ),
];

pub(crate) fn trimmed() -> &'static [Cut] {
    TRIMMED
}

const STRIPPED: &[Cut] = &[
    ("abc", Strip(0, 1, End::Front, Text("a")), Some("bc"), None),
    ("abc", Strip(0, 1, End::Front, Text("y")), None, None),
    ("abc", Strip(0, 1, End::Front, Text("")), Some("abc"), None),
    ("abc", Strip(0, 1, End::Back, Text("")), Some("abc"), None),
    ("abc", Strip(0, 1, End::Back, Text("c")), Some("ab"), None),
    ("éaé", Strip(0, 1, End::Back, Text("é")), Some("éa"), None),
    ("éaé", Strip(0, 1, End::Front, Char('é')), Some("aé"), None),
    ("éaé", Strip(0, 1, End::Back, Char('x')), None, None),
    ("a", Strip(0, 1, End::Front, Text("a")), Some(""), None),
];

pub(crate) fn stripped() -> &'static [Cut] {
    STRIPPED
}

const PARTED: &[Cut] = &[
    (
        "aaa",
        Once(0, 1, 2, End::Front, Text("aa")),
        Some(""),
        Some("a"),
    ),
    (
        "aaa",
        Once(0, 1, 2, End::Back, Text("aa")),
        Some("a"),
        Some(""),
    ),
    (
        "a=b=c",
        Once(0, 1, 2, End::Front, Text("=")),
        Some("a"),
        Some("b=c"),
    ),
    (
        "a=b=c",
        Once(0, 1, 2, End::Back, Char('=')),
        Some("a=b"),
        Some("c"),
    ),
    ("ab", Once(0, 1, 2, End::Front, Text("=")), None, None),
    ("ab", Once(0, 1, 2, End::Back, Text("=")), None, None),
    (
        "abc",
        Once(0, 1, 2, End::Front, Text("")),
        Some(""),
        Some("abc"),
    ),
    (
        "abc",
        Once(0, 1, 2, End::Back, Text("")),
        Some("abc"),
        Some(""),
    ),
];

pub(crate) fn parted() -> &'static [Cut] {
    PARTED
}
