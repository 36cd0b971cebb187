//! Texts and what their records are, as Rust's `lines` and `split` answer.
use super::told::told;
use crate::tests::suite::{OfBackend, run_by_each};
use crate::tests::support::{equals, must};
use hip_cuts::{Backend, HipStr, Rc, Unique};
use hip_fields::records;
use std::alloc::Global;
use std::process::Abort;

/// A text, a character, and the records.
type Row = (&'static str, char, &'static str);

const ROWS: &[Row] = &[
    ("a,b\n\nc,,d\r\n", ',', "[a][b];[];[c][][d];"),
    ("", ',', ""),
    ("\n", ',', "[];"),
    ("\r\n", ',', "[];"),
    (",", ',', "[][];"),
    ("a\r\n,b", ',', "[a];[][b];"),
    ("a\rb\r\n", '\r', "[a][b];"),
    ("aéb", 'é', "[a][b];"),
    ("a,b;c", '\u{FFFD}', "[a,b;c];"),
    ("a,b\nc", '\n', "[a,b];[c];"),
    ("a\r\nb\rc\r", '\r', "[a];[b][c][];"),
    ("a\r\nb\rc\r", ',', "[a];[b\rc\r];"),
    ("a\r\r\n\rb\n", ',', "[a\r];[\rb];"),
    (
        "a\u{1F30D}b\u{1F30D}\n\u{1F30D}",
        '\u{1F30D}',
        "[a][b][];[][];",
    ),
    ("aéb\u{1F30D}c", 'é', "[a][b\u{1F30D}c];"),
    ("a,b\nin the mid", ',', "[a][b];[in the mid];"),
    ("one,two\n", ';', "[one,two];"),
];

/// Whether a text has these records, lent or copied.
fn has_records<B: Backend>(rt: &impl Abort, alloc: Global, row: Row) {
    let (text, separator, wanted) = row;
    let lent = must(rt, records(alloc, &HipStr::<B>::borrowed(text), separator));
    let copy = must(rt, HipStr::<B>::from_str(alloc, text));
    let cut = must(rt, records(alloc, &copy, separator));
    let lent = must(rt, told(alloc, &lent));
    let cut = must(rt, told(alloc, &cut));
    equals(
        rt,
        &(text, lent.as_str(), cut.as_str()),
        &(text, wanted, wanted),
    );
}

struct EachRow;

impl OfBackend for EachRow {
    fn run<B: Backend>(rt: &impl Abort, alloc: Global) {
        for row in ROWS {
            has_records::<B>(rt, alloc, *row);
        }
    }
}

#[test]
fn rows(rt: HostRuntime) {
    run_by_each::<EachRow>(&rt, rt.alloc());
}

/// Asserts how many records a text has, and how many fields and bytes are in the first.
fn counts<B: Backend>(rt: &impl Abort, alloc: Global, text: &str, wanted: (usize, usize, usize)) {
    let records = must(rt, records(alloc, &HipStr::<B>::borrowed(text), ','));
    let first = records.first().map_or(
        (0, 0),
        |fields| (fields.len(), fields.first().map_or(0, |field| field.len())),
    );
    equals(rt, &(records.len(), first.0, first.1), &wanted);
}

/// Ten thousand lines that are empty, and one of a mebibyte.
#[test]
fn long_texts(rt: HostRuntime) {
    let alloc = rt.alloc();
    let feeds = must(&rt, "\n".repeat(alloc, 10_000));
    let ends = must(&rt, "\r\n".repeat(alloc, 10_000));
    let line = must(&rt, "abcdefg,".repeat(alloc, 131_072));
    counts::<Rc>(&rt, alloc, feeds.as_str(), (10_000, 1, 0));
    counts::<Unique>(&rt, alloc, ends.as_str(), (10_000, 1, 0));
    counts::<Rc>(&rt, alloc, line.as_str(), (1, 131_073, 7));
}
