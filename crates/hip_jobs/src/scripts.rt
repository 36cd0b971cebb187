//! Scripts of all commands are played.
use crate::digest::Digest;
use crate::made::{Numbers, text_of};
use hip_script::play::play_script;
use hipstr::Rc;
use std::alloc::{AllocError, Global};

/// The number of different lists of lines, and of those that a script has.
const LISTS: usize = 10_000;

const LISTS_OF_SCRIPT: usize = 4000;

/// The characters of literals, as they stand in a script.
const CHARACTERS: &[&str] = &[
    "a",
    "b",
    "c",
    "d",
    "e",
    "f",
    "g",
    " ",
    ",",
    ";",
    "-",
    "\\x20",
    "\\x0A",
    "\\x09",
    "\\xC3\\xA9",
    "\\xE8\\xAA\\x9E",
    "\\\"",
];

const PATTERNS: &[&str] = &[
    "char \",\"",
    "char \"a\"",
    "text \"ab\"",
    "any \",;\"",
    "text \"\\xC3\\xA9\"",
    "char \" \"",
];

const RANGES: &[&str] = &[
    "..", "3..", "..17", "2..=30", "5..9", "..=40", "12..90", "7..",
];

const WAYS: &[&str] = &[
    "split",
    "inclusive",
    "terminator",
    "matches",
    "rsplit",
    "rmatches",
];

const ENDS: &[&str] = &["F", "FF", "FBF", "BBB", "-", "FFFFFF"];

/// One of a list's words, or none where it has none.
fn one_of(numbers: &mut Numbers, words: &'static [&'static str]) -> &'static str {
    if words.is_empty() {
        return "";
    }
    words[numbers.below(words.len())]
}

/// A literal of up to so many characters. One in two is plain.
fn literal(alloc: Global, numbers: &mut Numbers, most: usize) -> Result<String, AllocError> {
    let mut literal = String::from_str(alloc, "\"")?;
    let plain = numbers.one_in(2);
    for _ in 0..numbers.below(most.max(1)) {
        literal.push_str(if plain {
            "x"
        } else {
            one_of(numbers, CHARACTERS)
        })?;
    }
    literal.push('"')?;
    Ok(literal)
}

/// Lines that make a value in a slot, half of them a text.
fn push_value(
    alloc: Global,
    lines: &mut String,
    numbers: &mut Numbers,
    slot: usize,
) -> Result<(), AllocError> {
    let verb = one_of(numbers, &["copy", "copy", "borrow", "borrow"]);
    let literal = literal(alloc, numbers, 120)?;
    write!(lines, "{verb} {slot} {literal}\n")?;
    if numbers.one_in(2) {
        write!(lines, "text {slot}\n")?;
    }
    Ok(())
}

/// A line that changes a slot, cuts it into another, or asks for something.
fn push_command(
    alloc: Global,
    lines: &mut String,
    numbers: &mut Numbers,
    s: usize,
    t: usize,
) -> Result<(), AllocError> {
    let range = one_of(numbers, RANGES);
    let pattern = one_of(numbers, PATTERNS);
    let way = one_of(numbers, WAYS);
    let ends = one_of(numbers, ENDS);
    let literal = literal(alloc, numbers, 60)?;
    match numbers.below(24) {
        0 => write!(lines, "clone {s} {t}\n"),
        1..=3 => write!(lines, "slice {s} {t} {range}\n"),
        4 | 5 => write!(lines, "push {t} {literal}\n"),
        6 => write!(lines, "pop {t}\n"),
        7 => write!(lines, "truncate {t} 50\n"),
        8 => write!(lines, "upper {t}\n"),
        9 => write!(lines, "set {t} 3 77\n"),
        10 => write!(lines, "repeat {s} {t} 3\ntruncate {t} 300\n"),
        11 => write!(lines, "text {t}\n"),
        12 => write!(lines, "trim {s} {t} both\n"),
        13 => write!(lines, "trimm {s} {t} start {pattern}\n"),
        14 => write!(lines, "strip {s} {t} front {pattern}\n"),
        15 | 16 => write!(lines, "pieces {s} {way} {pattern} {ends} {t}\n"),
        17 => write!(lines, "once {s} {t} 11 front {pattern}\n"),
        18 => write!(lines, "compare {s} {t}\n"),
        19 => write!(lines, "mutate {t} {literal}\n"),
        20 => write!(lines, "len {t}\nkind {t}\n"),
        21 => write!(lines, "show {t}\n"),
        22 => write!(lines, "fields {t} \",\"\n"),
        _ => write!(lines, "join {s} 2 \", \" {t}\ntruncate {t} 300\n"),
    }
}

/// Some lines that begin with a new value.
fn list(alloc: Global, numbers: &mut Numbers) -> Result<String, AllocError> {
    let mut lines = String::new(alloc);
    let slot = numbers.below(12);
    push_value(alloc, &mut lines, numbers, slot)?;
    for _ in 0..2 + numbers.below(4) {
        let other = numbers.below(12);
        push_command(alloc, &mut lines, numbers, slot, other)?;
    }
    Ok(lines)
}

/// The stock of lists.
fn lists(alloc: Global, numbers: &mut Numbers) -> Result<Vec<String>, AllocError> {
    let mut lists = Vec::new(alloc);
    for _ in 0..LISTS {
        lists.push(list(alloc, numbers)?)?;
    }
    Ok(lists)
}

/// Plays many scripts.
pub(crate) fn play_all(
    alloc: Global,
    rounds: usize,
    numbers: &mut Numbers,
    digest: &mut Digest,
) -> Option<()> {
    let stock = lists(alloc, numbers).ok()?;
    for _ in 0..rounds {
        let script = text_of(alloc, numbers, stock.as_slice(), LISTS_OF_SCRIPT).ok()?;
        let mut written = Vec::new(alloc);
        play_script::<Rc, _>(alloc, script.as_bytes(), &mut written).ok()?;
        digest.bytes(written.as_slice());
    }
    Some(())
}
