//! Values that are written at the end, and bytes that an iterator gives. These tests name the type: a call of a value's own `fmt` is proved
//! at it.
use super::support::{LETTERS, equals, must, must_refuse};
use hip_bytes::{Backend, HipByt, Kind, Meter, Rc, Unique, Writer};
use std::alloc::{AllocError, Global};
use std::fmt;
use std::io::Write;
use std::process::Abort;

/// What a handle holds, a name and a number that are written behind it, and what that makes, and where.
type Written = (&'static [u8], &'static str, u32, &'static [u8], Kind);

const WRITTEN: &[Written] = &[
    (b"", "", 0, b": 0", Kind::Inline),
    (b"a ", "count", 42, b"a count: 42", Kind::Inline),
    (
        b"",
        "twenty characters, x",
        7,
        b"twenty characters, x: 7",
        Kind::Inline,
    ),
    (
        b"",
        "twenty characters, xx",
        7,
        b"twenty characters, xx: 7",
        Kind::Allocated,
    ),
    (
        LETTERS,
        "n",
        u32::MAX,
        b"abcdefghijklmnopqrstuvwxyzn: 4294967295",
        Kind::Allocated,
    ),
];

fn is<B: Backend>(rt: &impl Abort, bytes: HipByt<'static, B>, items: &[u8], kind: Kind) {
    equals(rt, &(bytes.as_slice(), bytes.kind()), &(items, kind));
}

fn values<B: Backend>(rt: &impl Abort, alloc: Global) {
    for (before, name, number, after, kind) in WRITTEN {
        let mut bytes = HipByt::<B>::borrowed(before);
        must(rt, bytes.write_fmt(alloc, format_args!("{name}: {number}")));
        is(rt, bytes, after, *kind);
    }
}

fn through_a_writer<B: Backend>(rt: &impl Abort, alloc: Global) {
    for (before, name, number, after, kind) in WRITTEN {
        let mut bytes = HipByt::<B>::borrowed(before);
        let mut out = bytes.writer(alloc);
        must(rt, write!(out, "{name}: "));
        must(rt, write!(out, "{number}"));
        is(rt, bytes, after, *kind);
    }
}

fn as_an_output<B: Backend>(rt: &impl Abort, alloc: Global) {
    let mut bytes = HipByt::<B>::borrowed(b"a");
    let mut out = Writer {
        bytes: &mut bytes,
        alloc,
    };
    let count = must(rt, out.write(b"bc"));
    must(rt, out.write_all(LETTERS));
    must(rt, out.flush());
    equals(rt, &count, &2);
    is(rt, bytes, b"abcabcdefghijklmnopqrstuvwxyz", Kind::Allocated);
}

/// A value whose own `fmt` fails once something was written.
#[derive(Drop)]
struct Failing;

impl fmt::Display for Failing {
    fn fmt<W: fmt::Write>(&self, f: &mut fmt::Formatter<W>) -> fmt::Result {
        f.write_str("written and then taken back")?;
        Err(fmt::Error)
    }
}

fn refused<B: Backend>(rt: &impl Abort, alloc: Global) {
    let mut bytes = HipByt::<B>::borrowed(b"ab");
    let error = must_refuse(rt, bytes.write_fmt(alloc, Failing));
    equals(rt, &error, &AllocError);
    is(rt, bytes, b"ab", Kind::Borrowed);
}

/// Each byte is gathered, and then pushed.
fn counted<B: Backend>(rt: &impl Abort, alloc: Global) {
    let mut meter = Meter::new();
    let mut bytes = HipByt::<B>::new();
    must(
        rt,
        bytes.write_fmt_metered(alloc, format_args!("{}-{}", 1, "ab"), &mut meter),
    );
    equals(rt, &(bytes.as_slice(), meter.copied()), &(b"1-ab", 8));
}

fn of_an_iterator<B: Backend>(rt: &impl Abort, alloc: Global) {
    let none = must(rt, HipByt::<B>::from_bytes(alloc, []));
    is(rt, none, b"", Kind::Inline);
    let some = must(rt, HipByt::<B>::from_bytes(alloc, b'a'..b'f'));
    is(rt, some, b"abcde", Kind::Inline);
    let many = must(rt, HipByt::<B>::from_bytes(alloc, [b'a'; 24]));
    is(rt, many, &[b'a'; 24], Kind::Allocated);
}

fn extended<B: Backend>(rt: &impl Abort, alloc: Global) {
    let mut meter = Meter::new();
    let mut bytes = HipByt::<B>::borrowed(b"ab");
    must(rt, bytes.extend_bytes(alloc, []));
    equals(rt, &bytes.kind(), &Kind::Borrowed);
    must(rt, bytes.extend_bytes(alloc, b'c'..b'f'));
    must(rt, bytes.extend_bytes_metered(alloc, *b"fg", &mut meter));
    equals(rt, &meter.copied(), &4);
    is(rt, bytes, b"abcdefg", Kind::Inline);
}

fn values_on<B: Backend>(rt: &impl Abort, alloc: Global) {
    values::<B>(rt, alloc);
    through_a_writer::<B>(rt, alloc);
    as_an_output::<B>(rt, alloc);
    refused::<B>(rt, alloc);
    counted::<B>(rt, alloc);
}

#[test]
fn values_are_written_at_the_end(rt: HostRuntime) {
    values_on::<Rc>(&rt, rt.alloc());
    values_on::<Unique>(&rt, rt.alloc());
}

fn iterators_on<B: Backend>(rt: &impl Abort, alloc: Global) {
    of_an_iterator::<B>(rt, alloc);
    extended::<B>(rt, alloc);
}

#[test]
fn bytes_of_an_iterator_are_gathered(rt: HostRuntime) {
    iterators_on::<Rc>(&rt, rt.alloc());
    iterators_on::<Unique>(&rt, rt.alloc());
}
