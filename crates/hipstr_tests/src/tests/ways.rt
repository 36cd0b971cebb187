//! Each way to take a text apart, and the pieces. `runs` draws them by every script of up to six ends.
use hipstr::{How, Pat};

/// A way, whether its pieces come from both ends, and all of them in the order of the front, which are those of Rust's `str`.
pub(crate) type Way = (How<'static>, bool, &'static [&'static str]);

/// A text, and ways in which it is taken apart.
pub(crate) type Taken = (&'static str, &'static [Way]);

// A branch of a function costs the square of what the function borrows, so these are parts of one table.

const LETTERS: Taken = (
    "a,b,c,d",
    &[
        (How::Split(Pat::Char(',')), true, &["a", "b", "c", "d"]),
        (
            How::Inclusive(Pat::Char(',')),
            true,
            &["a,", "b,", "c,", "d"],
        ),
        (How::Terminator(Pat::Char(',')), true, &["a", "b", "c", "d"]),
        (How::SplitN(3, Pat::Char(',')), false, &["a", "b", "c,d"]),
        (How::Matches(Pat::Char(',')), true, &[",", ",", ","]),
        (How::RSplit(Pat::Char(',')), true, &["d", "c", "b", "a"]),
    ],
);

const LETTERS_TOO: Taken = (
    "a,b,c,d",
    &[
        (
            How::RTerminator(Pat::Char(',')),
            true,
            &["d", "c", "b", "a"],
        ),
        (How::RSplitN(3, Pat::Char(',')), false, &["d", "c", "a,b"]),
        (How::RMatches(Pat::Char(',')), true, &[",", ",", ","]),
        (How::Lines, true, &["a,b,c,d"]),
        (How::Words, true, &["a,b,c,d"]),
        (How::AsciiWords, true, &["a,b,c,d"]),
    ],
);

const COMMAS: Taken = (
    ",,",
    &[
        (How::Split(Pat::Char(',')), true, &["", "", ""]),
        (How::Inclusive(Pat::Char(',')), true, &[",", ","]),
        (How::Terminator(Pat::Char(',')), true, &["", ""]),
        (How::SplitN(3, Pat::Char(',')), false, &["", "", ""]),
        (How::Matches(Pat::Char(',')), true, &[",", ","]),
        (How::RSplit(Pat::Char(',')), true, &["", "", ""]),
    ],
);

const COMMAS_TOO: Taken = (
    ",,",
    &[
        (How::RTerminator(Pat::Char(',')), true, &["", ""]),
        (How::RSplitN(3, Pat::Char(',')), false, &["", "", ""]),
        (How::RMatches(Pat::Char(',')), true, &[",", ","]),
        (How::Lines, true, &[",,"]),
        (How::Words, true, &[",,"]),
        (How::AsciiWords, true, &[",,"]),
    ],
);

const SPACES: Taken = (
    "a, ,b,",
    &[
        (
            How::Split(Pat::Set(&[',', ' '])),
            true,
            &["a", "", "", "b", ""],
        ),
        (How::Inclusive(Pat::Text(",")), false, &["a,", " ,", "b,"]),
        (
            How::Terminator(Pat::Set(&[',', ' '])),
            true,
            &["a", "", "", "b"],
        ),
        (How::SplitN(2, Pat::Text(", ")), false, &["a", ",b,"]),
        (How::Matches(Pat::Set(&['a', 'b'])), true, &["a", "b"]),
        (How::RSplit(Pat::Text(",")), false, &["", "b", " ", "a"]),
    ],
);

const SPACES_TOO: Taken = (
    "a, ,b,",
    &[
        (How::RTerminator(Pat::Text(",")), false, &["b", " ", "a"]),
        (How::RSplitN(2, Pat::Text(",")), false, &["", "a, ,b"]),
        (How::RMatches(Pat::Text(", ")), false, &[", "]),
        (How::Words, true, &["a,", ",b,"]),
        (How::AsciiWords, true, &["a,", ",b,"]),
    ],
);

/// Matches that overlap.
const OVERLAPPING: Taken = (
    "aaa",
    &[
        (How::Matches(Pat::Text("aa")), false, &["aa"]),
        (How::RMatches(Pat::Text("aa")), false, &["aa"]),
        (How::Split(Pat::Text("aa")), false, &["", "a"]),
        (How::RSplit(Pat::Text("aa")), false, &["", "a"]),
    ],
);

const OVERLAPPING_TOO: Taken = (
    "ababababa",
    &[(How::Matches(Pat::Text("aba")), false, &["aba", "aba"])],
);

/// An empty pattern, which matches at each boundary.
const BOUNDARIES: Taken = (
    "abc",
    &[
        (How::Split(Pat::Text("")), false, &["", "a", "b", "c", ""]),
        (How::Inclusive(Pat::Text("")), false, &["", "a", "b", "c"]),
        (How::Terminator(Pat::Text("")), false, &["", "a", "b", "c"]),
        (How::RSplit(Pat::Text("")), false, &["", "c", "b", "a", ""]),
        (How::RTerminator(Pat::Text("")), false, &["c", "b", "a", ""]),
    ],
);

const BOUNDARIES_TOO: Taken = (
    "é",
    &[
        (How::Split(Pat::Text("")), false, &["", "é", ""]),
        (How::SplitN(2, Pat::Text("")), false, &["", "é"]),
    ],
);

const NOTHING: Taken = (
    "",
    &[
        (How::Split(Pat::Text("")), false, &["", ""]),
        (How::Inclusive(Pat::Text("")), false, &[""]),
        (How::Terminator(Pat::Text("")), false, &[""]),
        (How::Matches(Pat::Text("")), false, &[""]),
        (How::Split(Pat::Char(',')), true, &[""]),
        (How::SplitN(1, Pat::Char(',')), false, &[""]),
        (How::Inclusive(Pat::Char(',')), true, &[]),
        (How::Lines, true, &[]),
        (How::Words, true, &[]),
    ],
);

const DOTS: Taken = (
    "A..B..",
    &[
        (How::Terminator(Pat::Char('.')), true, &["A", "", "B", ""]),
        (How::RTerminator(Pat::Char('.')), true, &["", "B", "", "A"]),
        (How::Terminator(Pat::Text(".")), false, &["A", "", "B", ""]),
        (How::RTerminator(Pat::Text(".")), false, &["", "B", "", "A"]),
    ],
);

const DOTS_ALONE: Taken = ("..", &[(How::Terminator(Pat::Char('.')), true, &["", ""])]);

const COUNTS: Taken = (
    "a,b,c",
    &[
        (How::SplitN(2, Pat::Char(',')), false, &["a", "b,c"]),
        (How::RSplitN(2, Pat::Char(',')), false, &["c", "a,b"]),
        (How::SplitN(0, Pat::Char(',')), false, &[]),
        (How::RSplitN(0, Pat::Char(',')), false, &[]),
        (How::SplitN(1, Pat::Char(',')), false, &["a,b,c"]),
        (How::RSplitN(1, Pat::Char(',')), false, &["a,b,c"]),
        (How::SplitN(9, Pat::Char(',')), false, &["a", "b", "c"]),
    ],
);

const COUNTS_TOO: Taken = (
    ",,a,b,,",
    &[
        (How::SplitN(3, Pat::Char(',')), false, &["", "", "a,b,,"]),
        (How::RSplitN(3, Pat::Char(',')), false, &["", "", ",,a,b"]),
    ],
);

const ENDED: Taken = (
    "é,ü,",
    &[
        (How::Split(Pat::Char(',')), true, &["é", "ü", ""]),
        (How::Inclusive(Pat::Char(',')), true, &["é,", "ü,"]),
        (How::Terminator(Pat::Char(',')), true, &["é", "ü"]),
        (How::RTerminator(Pat::Char(',')), true, &["ü", "é"]),
    ],
);

const LINES: Taken = (
    "x\r\ny\n\nz\r",
    &[(How::Lines, true, &["x", "y", "", "z\r"])],
);

const RUNS: Taken = (
    "a\x0Bb c",
    &[
        (How::Words, true, &["a", "b", "c"]),
        (How::AsciiWords, true, &["a\x0Bb", "c"]),
    ],
);

/// 81 bytes, of which a vertical tab is one, a space, and 40 bytes.
const LONG_RUNS: Taken = (
    "aaaaaaaaaaaaaaaaaaaaaaaaaaaaaaaaaaaaaaaa\x0Bbbbbbbbbbbbbbbbbbbbbbbbbbbbbbbbbbbbbbbbb cccccccccccccccccccccccccccccccccccccccc",
    &[(
        How::AsciiWords,
        true,
        &[
            "aaaaaaaaaaaaaaaaaaaaaaaaaaaaaaaaaaaaaaaa\x0Bbbbbbbbbbbbbbbbbbbbbbbbbbbbbbbbbbbbbbbbb",
            "cccccccccccccccccccccccccccccccccccccccc",
        ],
    )],
);

const ALL: &[Taken] = &[
    LETTERS,
    LETTERS_TOO,
    COMMAS,
    COMMAS_TOO,
    SPACES,
    SPACES_TOO,
    OVERLAPPING,
    OVERLAPPING_TOO,
    BOUNDARIES,
    BOUNDARIES_TOO,
    NOTHING,
    DOTS,
    COUNTS,
    COUNTS_TOO,
    ENDED,
    LINES,
    RUNS,
    DOTS_ALONE,
    LONG_RUNS,
];

pub(crate) fn all() -> &'static [Taken] {
    ALL
}
