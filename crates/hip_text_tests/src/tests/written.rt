//! Values that are written at the end, and characters that an iterator gives. These tests name the type: a call of a value's own `fmt` is
//! proved at it.
use super::support::{equals, must, must_refuse};
use hip_text::{Backend, HipStr, Kind, Meter, Rc, Unique, Writer};
use std::alloc::{AllocError, Global};
use std::fmt::{self, Write};
use std::process::Abort;

/// What a text holds, a name and a number that are written behind it, and what that makes, and where.
type Written = (&'static str, &'static str, i64, &'static str, Kind);

const WRITTEN: &[Written] = &[
    ("", "", 0, ": 0", Kind::Inline),
    ("é ", "漢", -42, "é 漢: -42", Kind::Inline),
    (
        "",
        "twenty-one characters",
        7,
        "twenty-one characters: 7",
        Kind::Allocated,
    ),
    (
        "longer than a handle holds: ",
        "n",
        i64::MIN,
        "longer than a handle holds: n: -9223372036854775808",
        Kind::Allocated,
    ),
];

fn is<B: Backend>(rt: &impl Abort, text: HipStr<'static, B>, items: &str, kind: Kind) {
    equals(rt, &(text.as_str(), text.kind()), &(items, kind));
}

fn values<B: Backend>(rt: &impl Abort, alloc: Global) {
    for (before, name, number, after, kind) in WRITTEN {
        let mut text = HipStr::<B>::borrowed(before);
        must(rt, text.write_fmt(alloc, format_args!("{name}: {number}")));
        is(rt, text, after, *kind);
    }
}

fn through_a_writer<B: Backend>(rt: &impl Abort, alloc: Global) {
    for (before, name, number, after, kind) in WRITTEN {
        let mut text = HipStr::<B>::borrowed(before);
        let mut out = text.writer(alloc);
        must(rt, write!(out, "{name}: "));
        must(rt, write!(out, "{number}"));
        is(rt, text, after, *kind);
    }
}

/// By the trait alone.
fn shows<W: Write>(out: &mut W, number: i64) -> fmt::Result {
    out.write_char('ß')?;
    writeln!(out, "{number:>4}")
}

/// By the trait, of a writer: it gets a proof where the writer is a parameter.
fn shows_in<B: Backend>(out: &mut Writer<'_, '_, B>, number: i64) -> fmt::Result {
    shows(out, number)
}

fn as_an_output<B: Backend>(rt: &impl Abort, alloc: Global) {
    let mut text = HipStr::<B>::borrowed("é");
    let mut out = Writer {
        text: &mut text,
        alloc,
    };
    must(rt, out.write_str("漢"));
    must(rt, shows_in(&mut out, -7));
    is(rt, text, "é漢ß  -7\n", Kind::Inline);
}

/// A value whose own `fmt` fails once something was written.
#[derive(Drop)]
struct Failing;

impl fmt::Display for Failing {
    fn fmt<W: Write>(&self, f: &mut fmt::Formatter<W>) -> fmt::Result {
        f.write_str("written and then taken back")?;
        Err(fmt::Error)
    }
}

fn refused<B: Backend>(rt: &impl Abort, alloc: Global) {
    let mut text = HipStr::<B>::borrowed("é");
    let error = must_refuse(rt, text.write_fmt(alloc, Failing));
    equals(rt, &error, &AllocError);
    is(rt, text, "é", Kind::Borrowed);
}

/// Each byte is gathered, and then pushed.
fn counted<B: Backend>(rt: &impl Abort, alloc: Global) {
    let mut meter = Meter::new();
    let mut text = HipStr::<B>::new();
    must(
        rt,
        text.write_fmt_metered(alloc, format_args!("{}-{}", 1, "é"), &mut meter),
    );
    equals(rt, &(text.as_str(), meter.copied()), &("1-é", 8));
}

fn of_an_iterator<B: Backend>(rt: &impl Abort, alloc: Global) {
    let none = must(rt, HipStr::<B>::from_chars(alloc, []));
    is(rt, none, "", Kind::Inline);
    let some = must(rt, HipStr::<B>::from_chars(alloc, "é漢😀z".chars()));
    is(rt, some, "é漢😀z", Kind::Inline);
    let many = must(rt, HipStr::<B>::from_chars(alloc, ['é'; 12]));
    is(rt, many, "éééééééééééé", Kind::Allocated);
}

fn extended<B: Backend>(rt: &impl Abort, alloc: Global) {
    let mut meter = Meter::new();
    let mut text = HipStr::<B>::borrowed("é");
    must(rt, text.extend_chars(alloc, []));
    equals(rt, &text.kind(), &Kind::Borrowed);
    must(rt, text.extend_chars(alloc, "漢😀".chars()));
    must(rt, text.extend_chars_metered(alloc, ['é', 'z'], &mut meter));
    equals(rt, &meter.copied(), &6);
    is(rt, text, "é漢😀éz", Kind::Inline);
}

fn values_on<B: Backend>(rt: &impl Abort, alloc: Global) {
    values::<B>(rt, alloc);
    through_a_writer::<B>(rt, alloc);
    as_an_output::<B>(rt, alloc);
    refused::<B>(rt, alloc);
    counted::<B>(rt, alloc);
}

#[test]
fn values_are_written_at_the_end(rt: HostRuntime) {
    values_on::<Rc>(&rt, rt.alloc());
    values_on::<Unique>(&rt, rt.alloc());
}

fn iterators_on<B: Backend>(rt: &impl Abort, alloc: Global) {
    of_an_iterator::<B>(rt, alloc);
    extended::<B>(rt, alloc);
}

#[test]
fn characters_of_an_iterator_are_gathered(rt: HostRuntime) {
    iterators_on::<Rc>(&rt, rt.alloc());
    iterators_on::<Unique>(&rt, rt.alloc());
}
