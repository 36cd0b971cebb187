//! Forms that are written and read, cut short, or that lie about their length.
use super::handle::{Form, Handle};
use super::streams;
use super::support::{equals, kind_of_copy, must, must_refuse};
use hip_bytes::{
    BorshFault, ByteSink, ByteSource, FromRead, Fuse, HipByt, SliceSource, ToWrite, VecSink,
};
use hip_text::{HipStr, Rc, Unique};
use std::alloc::Global;
use std::process::Abort;

/// A text, and its form as the crate borsh 1.8.1 writes it (`borsh::to_vec`).
const TEXTS: &[(&str, &[u8])] = &[
    ("", b"\x00\x00\x00\x00"),
    ("123", b"\x03\x00\x00\x00\x31\x32\x33"),
    ("abc", b"\x03\x00\x00\x00\x61\x62\x63"),
    ("é", b"\x02\x00\x00\x00\xC3\xA9"),
    ("漢字", b"\x06\x00\x00\x00\xE6\xBC\xA2\xE5\xAD\x97"),
    ("😀", b"\x04\x00\x00\x00\xF0\x9F\x98\x80"),
    (
        "aaaaaaaaaaaaaaaaaaaaaaa",
        b"\x17\x00\x00\x00aaaaaaaaaaaaaaaaaaaaaaa",
    ),
    (
        "aaaaaaaaaaaaaaaaaaaaaaaa",
        b"\x18\x00\x00\x00aaaaaaaaaaaaaaaaaaaaaaaa",
    ),
    (
        "aaaaaaaaaaaaaaaaaaaaaaaaaaaaaaaaaaaaaaaaaa",
        b"\x2A\x00\x00\x00aaaaaaaaaaaaaaaaaaaaaaaaaaaaaaaaaaaaaaaaaa",
    ),
];

/// Bytes that are no text, or none that can be seen, and their form by the same crate.
const BYTES: &[(&[u8], &[u8])] = &[
    (b"\x00", b"\x01\x00\x00\x00\x00"),
    (b"a\xC3", b"\x02\x00\x00\x00\x61\xC3"),
    (b"\x80\x00\x7F", b"\x03\x00\x00\x00\x80\x00\x7F"),
    (
        b"\xFF\xFF\xFF\xFF\xFF",
        b"\x05\x00\x00\x00\xFF\xFF\xFF\xFF\xFF",
    ),
];

/// A number of bytes, and the first four of their form by the same crate, before the bytes themselves.
const LENGTHS: &[(usize, [u8; 4])] = &[
    (255, [255, 0, 0, 0]),
    (256, [0, 1, 0, 0]),
    (300, [44, 1, 0, 0]),
    (4096, [0, 16, 0, 0]),
    (4097, [1, 16, 0, 0]),
    (65535, [255, 255, 0, 0]),
    (65536, [0, 0, 1, 0]),
    (70000, [112, 17, 1, 0]),
];

/// Asserts the form of what these bytes make.
fn writes<F: Form>(rt: &impl Abort, alloc: Global, bytes: &'static [u8], form: &[u8]) {
    let mut sink = VecSink::new(alloc);
    must(rt, must(rt, F::lent(bytes)).serialize(&mut sink));
    let written = sink.into_vec();
    equals(rt, &written.as_slice(), &form);
}

/// Asserts what is read of a form that has a byte behind it, which is left.
fn reads<F: Form>(rt: &impl Abort, alloc: Global, form: &[u8], bytes: &[u8]) {
    let mut longer = must(rt, Vec::from_slice(alloc, form));
    must(rt, longer.push(b'z'));
    let mut source = SliceSource::new(longer.as_slice());
    let read = must(rt, F::deserialize_reader(alloc, &mut source));
    equals(
        rt,
        &(read.bytes(), read.kind()),
        &(bytes, kind_of_copy(bytes.len())),
    );
    equals(rt, &source.rest(), &b"z".as_slice());
}

/// Asserts why bytes aren't read, and that all of them are taken.
fn refuses<F: Form>(rt: &impl Abort, alloc: Global, bytes: &[u8], fault: BorshFault) {
    let mut source = SliceSource::new(bytes);
    let told = must_refuse(rt, F::deserialize_reader(alloc, &mut source));
    equals(rt, &(told, source.rest().len()), &(fault, 0));
}

/// Each form, and each that is cut short at each length.
fn forms<F: Form>(rt: &impl Abort, alloc: Global) {
    for (text, form) in TEXTS {
        let bytes = text.as_bytes();
        writes::<F>(rt, alloc, bytes, form);
        reads::<F>(rt, alloc, form, bytes);
        for len in 0..form.len() {
            refuses::<F>(rt, alloc, &form[..len], BorshFault::Truncated);
        }
    }
}

/// Forms of more than there is, read as bytes and as a text.
const TOO_SHORT: &[&[u8]] = &[b"\xFF\xFF\xFF\xFFa", b"\x04\x00\x00\x00\xF0\x9F\x98"];

fn too_short<F: Form>(rt: &impl Abort, alloc: Global) {
    for bytes in TOO_SHORT {
        refuses::<F>(rt, alloc, bytes, BorshFault::Truncated);
    }
}

/// Bytes, and the whole form of them, that are no text.
const NO_TEXTS: &[(&[u8], &[u8])] = &[
    (b"abc\xFFc", b"\x05\x00\x00\x00abc\xFFc"),
    (b"\xED\xA0\x80", b"\x03\x00\x00\x00\xED\xA0\x80"),
    (b"\xC0\x80", b"\x02\x00\x00\x00\xC0\x80"),
    (b"\xC3", b"\x01\x00\x00\x00\xC3"),
];

/// Many bytes, whose lengths take more than one byte, are written as they were read.
fn lengths<F: Form>(rt: &impl Abort, alloc: Global) {
    for (len, head) in LENGTHS {
        let mut form = must(rt, Vec::from_slice(alloc, head));
        must(rt, form.resize(len + 4, 0xFF));
        let mut source = SliceSource::new(form.as_slice());
        let read = must(rt, F::deserialize_reader(alloc, &mut source));
        equals(rt, &(read.bytes().len(), source.rest().len()), &(*len, 0));
        let mut sink = VecSink::new(alloc);
        must(rt, read.serialize(&mut sink));
        let written = sink.into_vec();
        equals(rt, &written.as_slice(), &form.as_slice());
    }
}

/// Two values in one sink are read in their order.
fn one_behind_another<F: Form, G: Form>(rt: &impl Abort, alloc: Global) {
    let mut sink = VecSink::new(alloc);
    must(rt, must(rt, F::lent(b"\xFF")).serialize(&mut sink));
    must(rt, must(rt, G::lent(b"\xC3\xA9")).serialize(&mut sink));
    let forms = sink.into_vec();
    let mut source = SliceSource::new(forms.as_slice());
    let first = must(rt, F::deserialize_reader(alloc, &mut source));
    let second = must(rt, G::deserialize_reader(alloc, &mut source));
    equals(
        rt,
        &(first.bytes(), second.bytes()),
        &(b"\xFF".as_slice(), b"\xC3\xA9".as_slice()),
    );
}

fn bytes<F: Form>(rt: &impl Abort, alloc: Global) {
    forms::<F>(rt, alloc);
    streams::all::<F>(rt, alloc);
    too_short::<F>(rt, alloc);
    for (bytes, form) in BYTES {
        writes::<F>(rt, alloc, bytes, form);
        reads::<F>(rt, alloc, form, bytes);
    }
    for (bytes, form) in NO_TEXTS {
        reads::<F>(rt, alloc, form, bytes);
    }
    lengths::<F>(rt, alloc);
}

fn texts<F: Form>(rt: &impl Abort, alloc: Global) {
    forms::<F>(rt, alloc);
    streams::all::<F>(rt, alloc);
    too_short::<F>(rt, alloc);
    for (_, form) in NO_TEXTS {
        refuses::<F>(rt, alloc, form, BorshFault::NotUtf8);
    }
}

#[test]
fn forms_are_written_and_read(rt: HostRuntime) {
    bytes::<HipByt<'static, Rc>>(&rt, rt.alloc());
    bytes::<HipByt<'static, Unique>>(&rt, rt.alloc());
    texts::<HipStr<'static, Rc>>(&rt, rt.alloc());
    texts::<HipStr<'static, Unique>>(&rt, rt.alloc());
}

#[test]
fn forms_stand_one_behind_another(rt: HostRuntime) {
    one_behind_another::<HipByt<'static, Rc>, HipStr<'static, Rc>>(&rt, rt.alloc());
    one_behind_another::<HipByt<'static, Unique>, HipStr<'static, Unique>>(&rt, rt.alloc());
}

/// Forms that are written to a writer and read from a reader of the standard library.
#[test]
fn by_writers_and_readers(rt: HostRuntime) {
    let mut form = Vec::new(rt.alloc());
    let text = HipStr::<Rc>::borrowed("漢字");
    must(&rt, text.serialize(&mut ToWrite::new(&mut form)));
    let wanted = b"\x06\x00\x00\x00\xE6\xBC\xA2\xE5\xAD\x97";
    equals(&rt, &form.as_slice(), &wanted.as_slice());
    let mut source = FromRead::new(form.as_slice());
    let read = must(
        &rt,
        HipStr::<Rc>::deserialize_reader(rt.alloc(), &mut source),
    );
    equals(&rt, &read.as_str(), &"漢字");
}
