//! Walks by characters.
use super::walks::Walk::{RSplit, RSplitN, Split, SplitInclusive, SplitN, SplitTerminator};
use super::walks::{Row, walks};

fn by_one_rows() -> &'static [Row<char>] {
    &[
        Row(Split, "", ',', &[""]),
        Row(SplitTerminator, "", ',', &[]),
        Row(SplitInclusive, "", ',', &[]),
        Row(SplitN(9), "a,b,c", ',', &["a", "b", "c"]),
        Row(RSplitN(1), "a,b,c", ',', &["a,b,c"]),
        Row(Split, "a😀b€cé", '😀', &["a", "b€cé"]),
        Row(Split, "a😀b€cé", '€', &["a😀b", "cé"]),
        Row(Split, "a😀b€cé", 'é', &["a😀b€c", ""]),
        Row(RSplit, "a😀b€cé", '😀', &["b€cé", "a"]),
    ]
}

#[test]
fn by_a_character(rt: HostRuntime) {
    for Row(kind, text, pattern, want) in by_one_rows() {
        walks(&rt, *kind, text, *pattern, want);
    }
}

fn by_some_rows() -> &'static [Row<&'static [char]>] {
    &[
        Row(Split, "a😀b€cé", &['b', 'c'], &["a😀", "€", "é"]),
        Row(RSplit, "a😀b€cé", &['b', 'c'], &["é", "€", "a😀"]),
        Row(Split, "a😀b€cé", &[], &["a😀b€cé"]),
    ]
}

#[test]
fn by_some_characters(rt: HostRuntime) {
    for Row(kind, text, pattern, want) in by_some_rows() {
        walks(&rt, *kind, text, *pattern, want);
    }
}

#[test]
fn by_an_array_of_characters(rt: HostRuntime) {
    let wanted = ['😀', 'é'];
    walks(&rt, Split, "a😀b€cé", &wanted, &["a", "b€c", ""]);
    walks(&rt, RSplit, "a😀b€cé", &wanted, &["", "b€c", "a"]);
}
