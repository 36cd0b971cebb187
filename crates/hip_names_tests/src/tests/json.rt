//! Values that are made, read and refused.
use super::handle::{Handle, Json};
use super::support::{equals, kind_of_copy, must, must_refuse};
use hip_bytes::{HipByt, JsonFault};
use hip_names::{HipOsStr, HipPath};
use hip_text::{HipStr, Rc, Unique};
use serde_json::Value;
use std::alloc::Global;
use std::process::Abort;

/// A JSON text as a value.
fn value(rt: &impl Abort, alloc: Global, text: &str) -> Value {
    must(rt, Value::from_str(alloc, text))
}

/// Asserts the text of a value.
fn is_shown(rt: &impl Abort, alloc: Global, value: Value, wanted: &str) {
    let text = must(rt, value.to_string(alloc));
    equals(rt, &text.as_str(), &wanted);
}

/// Asserts which JSON text these bytes make.
fn makes<J: Json>(rt: &impl Abort, alloc: Global, bytes: &'static [u8], json: &str) {
    let made = must(rt, J::lent(bytes));
    is_shown(rt, alloc, must(rt, made.to_json(alloc)), json);
}

/// Asserts which bytes are read from a JSON text, and where they lie.
fn reads<J: Json>(rt: &impl Abort, alloc: Global, json: &str, bytes: &[u8]) {
    let read = must(rt, J::from_json(alloc, &value(rt, alloc, json)));
    assert_eq!(rt;
        (read.bytes(), read.kind()),
        (bytes, kind_of_copy(bytes.len())),
        "{json}"
    );
}

/// Asserts why a JSON text isn't read.
fn refuses<J: Json>(rt: &impl Abort, alloc: Global, json: &str, fault: JsonFault) {
    let told = must_refuse(rt, J::from_json(alloc, &value(rt, alloc, json)));
    assert_eq!(rt; told, fault, "{json}");
}

/// Bytes, and the texts of their values as a byte string and as an OS string.
const MADE: &[(&[u8], &str, &str)] = &[
    (b"", "[]", "{\"Unix\":[]}"),
    (b"ab", "[97,98]", "{\"Unix\":[97,98]}"),
    (b"\x01\x02\x03", "[1,2,3]", "{\"Unix\":[1,2,3]}"),
    (b"\x00\xFF", "[0,255]", "{\"Unix\":[0,255]}"),
];

/// JSON texts that are read as bytes.
const BYTES: &[(&str, &[u8])] = &[
    ("[]", b""),
    ("\"\"", b""),
    ("[1,2,3]", b"\x01\x02\x03"),
    ("\"\\u0001\\u0002\\u0003\"", b"\x01\x02\x03"),
    ("\"a\"", b"a"),
    ("\"ab\"", b"ab"),
    ("[97]", b"a"),
    ("[0,255]", b"\x00\xFF"),
    ("\"\\u0000é\"", b"\x00\xC3\xA9"),
    (
        "\"abcdefghijklmnopqrstuvwxyz\"",
        b"abcdefghijklmnopqrstuvwxyz",
    ),
    (
        "[1,2,3,4,5,6,7,8,9,10,11,12,13,14,15,16,17,18,19,20,21,22,23,24]",
        b"\x01\x02\x03\x04\x05\x06\x07\x08\x09\x0A\x0B\x0C\x0D\x0E\x0F\x10\x11\x12\x13\x14\x15\x16\x17\x18",
    ),
];

/// JSON texts that are no bytes, and the item that is told.
const NO_BYTES: &[(&str, Option<usize>)] = &[
    ("true", None),
    ("null", None),
    ("1", None),
    ("1.5", None),
    ("{}", None),
    ("{\"Unix\":[97]}", None),
    ("[1,256]", Some(1)),
    ("[1.0]", Some(0)),
    ("[1e0]", Some(0)),
    ("[-1]", Some(0)),
    ("[18446744073709551616]", Some(0)),
    ("[\"a\"]", Some(0)),
    ("[null]", Some(0)),
    ("[true]", Some(0)),
    ("[[1]]", Some(0)),
    ("[{}]", Some(0)),
    ("[1,2,3.5,-1]", Some(2)),
    (
        "[1,2,3,4,5,6,7,8,9,10,11,12,13,14,15,16,17,18,19,20,21,22,23,24,256,-1]",
        Some(24),
    ),
];

fn byte_strings<J: Json>(rt: &impl Abort, alloc: Global) {
    for (bytes, array, _) in MADE {
        makes::<J>(rt, alloc, bytes, array);
    }
    for (json, bytes) in BYTES {
        reads::<J>(rt, alloc, json, bytes);
    }
    for (json, at) in NO_BYTES {
        refuses::<J>(rt, alloc, json, JsonFault::NotJsonBytes(*at));
    }
}

/// JSON texts that are read as OS strings.
const NAMES: &[(&str, &[u8])] = &[
    ("{\"Unix\":[]}", b""),
    ("{\"Unix\":[97,98]}", b"ab"),
    ("{\"Unix\":[0,255]}", b"\x00\xFF"),
];

/// JSON texts that are no OS string.
const NO_NAMES: &[(&str, JsonFault)] = &[
    ("{\"Unix\":\"ab\"}", JsonFault::NotJsonBytes(None)),
    ("{\"Unix\":null}", JsonFault::NotJsonBytes(None)),
    ("{\"Unix\":1.5}", JsonFault::NotJsonBytes(None)),
    ("{\"Unix\":{\"Unix\":[97]}}", JsonFault::NotJsonBytes(None)),
    ("{\"Unix\":[1,256]}", JsonFault::NotJsonBytes(Some(1))),
    ("{\"Unix\":[[97]]}", JsonFault::NotJsonBytes(Some(0))),
    ("{\"Unix\":[97],\"x\":1}", JsonFault::NotJsonUnix),
    ("{\"A\":1,\"Unix\":[97]}", JsonFault::NotJsonUnix),
    ("{}", JsonFault::NotJsonUnix),
    ("{\"unix\":[97]}", JsonFault::NotJsonUnix),
    ("{\"Windows\":[97]}", JsonFault::NotJsonUnix),
    ("[97]", JsonFault::NotJsonUnix),
    ("\"Unix\"", JsonFault::NotJsonUnix),
    ("null", JsonFault::NotJsonUnix),
    ("0", JsonFault::NotJsonUnix),
];

fn os_strings<J: Json>(rt: &impl Abort, alloc: Global) {
    for (bytes, _, object) in MADE {
        makes::<J>(rt, alloc, bytes, object);
    }
    for (json, bytes) in NAMES {
        reads::<J>(rt, alloc, json, bytes);
    }
    for (json, fault) in NO_NAMES {
        refuses::<J>(rt, alloc, json, *fault);
    }
}

/// Texts, and those of their values.
const TEXTS: &[(&[u8], &str)] = &[
    (b"", "\"\""),
    (b"a", "\"a\""),
    (b"abc", "\"abc\""),
    (
        b"abcdefghijklmnopqrstuvwxyz",
        "\"abcdefghijklmnopqrstuvwxyz\"",
    ),
];

/// JSON texts that are no string.
const NO_TEXTS: &[&str] = &["0", "3", "null", "1.5", "[\"a\"]", "{}", "true"];

fn texts<J: Json>(rt: &impl Abort, alloc: Global) {
    for (text, json) in TEXTS {
        makes::<J>(rt, alloc, text, json);
        reads::<J>(rt, alloc, json, text);
    }
    for json in NO_TEXTS {
        refuses::<J>(rt, alloc, json, JsonFault::NotJsonString);
    }
}

#[test]
fn byte_strings_are_arrays(rt: HostRuntime) {
    byte_strings::<HipByt<'static, Rc>>(&rt, rt.alloc());
    byte_strings::<HipByt<'static, Unique>>(&rt, rt.alloc());
}

#[test]
fn os_strings_are_objects(rt: HostRuntime) {
    os_strings::<HipOsStr<'static, Rc>>(&rt, rt.alloc());
    os_strings::<HipOsStr<'static, Unique>>(&rt, rt.alloc());
}

#[test]
fn texts_and_paths_are_strings(rt: HostRuntime) {
    texts::<HipStr<'static, Rc>>(&rt, rt.alloc());
    texts::<HipStr<'static, Unique>>(&rt, rt.alloc());
    texts::<HipPath<'static, Rc>>(&rt, rt.alloc());
    texts::<HipPath<'static, Unique>>(&rt, rt.alloc());
}

#[test]
fn path_that_is_no_text(rt: HostRuntime) {
    let path = HipPath::from(HipOsStr::from(HipByt::<Rc>::borrowed(b"a\xFF")));
    let fault = must_refuse(&rt, path.to_json(rt.alloc()));
    equals(&rt, &fault, &JsonFault::NotUtf8);
}

/// Faults and their texts.
const FAULTS: &[(JsonFault, &str)] = &[
    (JsonFault::NotJsonBytes(None), "not a JSON array of bytes"),
    (
        JsonFault::NotJsonBytes(Some(12)),
        "not a byte at 12 of a JSON array",
    ),
    (
        JsonFault::NotJsonUnix,
        "not a JSON object with the one key Unix",
    ),
];

#[test]
fn fault_texts(rt: HostRuntime) {
    for (fault, text) in FAULTS {
        let shown = must(&rt, format!(in rt.alloc(); "{fault}"));
        equals(&rt, &shown.as_str(), &(*text));
    }
}
