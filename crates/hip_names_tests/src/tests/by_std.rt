//! Paths that are taken apart, tested and joined, with the answers of Rust's `std::path`.
use super::answers::{
    Pair, Path, pairs_0, pairs_1, pairs_2, pairs_3, pairs_4, pairs_5, pairs_6, pairs_7, pairs_8,
    paths_0, paths_1, paths_2, paths_3, paths_4, paths_5, paths_6, paths_7, paths_8,
};
use super::hostile::write;
use super::support::{equals, must};
use hip_names::{Backend, GrowFault, HipByt, HipOsStr, HipPath, Rc, Unique};
use std::alloc::{AllocError, Global};
use std::process::Abort;

/// Adds a part to what was told before it.
fn write_part(told: &mut Vec<u8>, part: Option<&[u8]>) -> Result<(), AllocError> {
    match part {
        Some(part) => {
            told.push(b'=')?;
            told.extend_from_slice(part)?;
        }
        None => told.push(b'-')?,
    }
    told.push(b'|')?;
    Ok(())
}

fn write_name<B: Backend>(
    told: &mut Vec<u8>,
    name: Option<HipOsStr<'_, B>>,
) -> Result<(), AllocError> {
    match name {
        Some(name) => write_part(told, Some(name.as_os_str())),
        None => write_part(told, None),
    }
}

fn write_path<B: Backend>(
    told: &mut Vec<u8>,
    path: Option<HipPath<'_, B>>,
) -> Result<(), AllocError> {
    match path {
        Some(path) => write_part(told, Some(path.as_path())),
        None => write_part(told, None),
    }
}

fn write_test(told: &mut Vec<u8>, test: bool) -> Result<(), AllocError> {
    told.push(if test { b'y' } else { b'n' })?;
    told.push(b'|')?;
    Ok(())
}

/// Adds the components, from the front and from the back.
fn write_components<B: Backend>(
    told: &mut Vec<u8>,
    path: &HipPath<'_, B>,
) -> Result<(), AllocError> {
    for component in path.components() {
        write(told, component)?;
    }
    told.push(b'<')?;
    for component in path.components().rev() {
        write(told, component)?;
    }
    Ok(())
}

/// Adds the parts of a path, and whether it is absolute.
fn write_parts<B: Backend>(
    alloc: Global,
    told: &mut Vec<u8>,
    path: &HipPath<'_, B>,
) -> Result<(), AllocError> {
    write_name(told, path.file_name(alloc)?)?;
    write_name(told, path.file_stem(alloc)?)?;
    write_name(told, path.extension(alloc)?)?;
    write_path(told, path.parent(alloc)?)?;
    write_test(told, path.is_absolute())
}

/// What is told of a path, as `answers` tells it.
fn told_of<B: Backend>(alloc: Global, path: &HipPath<'_, B>) -> Result<Vec<u8>, AllocError> {
    let mut told = Vec::new(alloc);
    write_parts(alloc, &mut told, path)?;
    write_components(&mut told, path)?;
    Ok(told)
}

/// What is told of a pair.
fn told_of_pair<B: Backend>(
    alloc: Global,
    path: &HipPath<'_, B>,
    other: &[u8],
) -> Result<Vec<u8>, GrowFault> {
    let mut told = Vec::new(alloc);
    let joined = path.join(alloc, other)?;
    write_part(&mut told, Some(joined.as_path()))?;
    write_test(&mut told, path.starts_with(other))?;
    write_test(&mut told, path.ends_with(other))?;
    Ok(told)
}

fn is(rt: &impl Abort, told: Vec<u8>, wanted: &[u8]) {
    equals(rt, &told.as_slice(), &wanted);
}

fn lent<B: Backend>(bytes: &[u8]) -> HipPath<'_, B> {
    HipPath::from(HipByt::borrowed(bytes))
}

/// Asserts what is told of a path that is lent, and of its copy.
fn is_taken_apart<B: Backend>(rt: &impl Abort, alloc: Global, row: Path) {
    let (bytes, wanted) = row;
    is(rt, must(rt, told_of(alloc, &lent::<B>(bytes))), wanted);
    let copy = HipPath::from(must(rt, HipByt::<B>::from_slice(alloc, bytes)));
    is(rt, must(rt, told_of(alloc, &copy)), wanted);
}

fn are_taken_apart<B: Backend>(rt: &impl Abort, alloc: Global, rows: &[Path]) {
    for row in rows {
        is_taken_apart::<B>(rt, alloc, *row);
    }
}

/// Asserts what is told of a pair.
fn is_paired<B: Backend>(rt: &impl Abort, alloc: Global, row: Pair) {
    let (bytes, other, wanted) = row;
    let told = told_of_pair(alloc, &lent::<B>(bytes), other);
    is(rt, must(rt, told), wanted);
}

fn are_paired<B: Backend>(rt: &impl Abort, alloc: Global, rows: &[Pair]) {
    for row in rows {
        is_paired::<B>(rt, alloc, *row);
    }
}

fn of_paths<B: Backend>(rt: &impl Abort, alloc: Global) {
    are_taken_apart::<B>(rt, alloc, paths_0());
    are_taken_apart::<B>(rt, alloc, paths_1());
    are_taken_apart::<B>(rt, alloc, paths_2());
    are_taken_apart::<B>(rt, alloc, paths_3());
    are_taken_apart::<B>(rt, alloc, paths_4());
    are_taken_apart::<B>(rt, alloc, paths_5());
    are_taken_apart::<B>(rt, alloc, paths_6());
    are_taken_apart::<B>(rt, alloc, paths_7());
    are_taken_apart::<B>(rt, alloc, paths_8());
}

fn of_pairs<B: Backend>(rt: &impl Abort, alloc: Global) {
    are_paired::<B>(rt, alloc, pairs_0());
    are_paired::<B>(rt, alloc, pairs_1());
    are_paired::<B>(rt, alloc, pairs_2());
    are_paired::<B>(rt, alloc, pairs_3());
    are_paired::<B>(rt, alloc, pairs_4());
    are_paired::<B>(rt, alloc, pairs_5());
    are_paired::<B>(rt, alloc, pairs_6());
    are_paired::<B>(rt, alloc, pairs_7());
    are_paired::<B>(rt, alloc, pairs_8());
}

#[test]
fn paths_are_taken_apart(rt: HostRuntime) {
    of_paths::<Rc>(&rt, rt.alloc());
    of_paths::<Unique>(&rt, rt.alloc());
}

#[test]
fn pairs_are_joined(rt: HostRuntime) {
    of_pairs::<Rc>(&rt, rt.alloc());
    of_pairs::<Unique>(&rt, rt.alloc());
}

/// The path with another file name, in the place of its own if it has one (`Path::with_file_name`).
fn with_file_name<'b, B: Backend>(
    alloc: Global,
    path: &HipPath<'b, B>,
    name: &[u8],
) -> Result<HipPath<'b, B>, GrowFault> {
    if path.file_name(alloc)?.is_some() {
        if let Some(parent) = path.parent(alloc)? {
            return parent.join(alloc, name);
        }
    }
    path.join(alloc, name)
}

/// A path, a name, and the path with that name.
type Renamed = (&'static [u8], &'static [u8], &'static [u8]);

const RENAMED: &[Renamed] = &[
    (b"/tmp/foo.txt", b"bar.txt", b"/tmp/bar.txt"),
    (b"/tmp", b"var", b"/var"),
    (b"a//b/.", b"c", b"a/c"),
    (b"a/..", b"c", b"a/../c"),
    (b"/", b"c", b"/c"),
    (b"", b"c", b"c"),
    (b"a/b", b"/c", b"/c"),
];

fn is_renamed<B: Backend>(rt: &impl Abort, alloc: Global, row: Renamed) {
    let (bytes, name, wanted) = row;
    let renamed = must(rt, with_file_name(alloc, &lent::<B>(bytes), name));
    equals(rt, &renamed.as_path(), &wanted);
}

#[test]
fn paths_are_renamed(rt: HostRuntime) {
    for row in RENAMED {
        is_renamed::<Rc>(&rt, rt.alloc(), *row);
        is_renamed::<Unique>(&rt, rt.alloc(), *row);
    }
}

/// A path, whether it is a text, and how it is printed.
type Printed = (&'static [u8], bool, &'static str);

const PRINTED: &[Printed] = &[
    (b"", true, ""),
    (b"/a//b", true, "/a//b"),
    (b"\xC3\xA9/c", true, "é/c"),
    (b"a/\xFF.txt", false, "a/\u{FFFD}.txt"),
    (b"\xE2\x82/\xE2\x82\xAC", false, "\u{FFFD}/€"),
];

/// Asserts that a path is the text as which it is printed, if it is one.
fn is_text<B: Backend>(rt: &impl Abort, path: &HipPath<'_, B>, is_text: bool, shown: &str) {
    match path.to_str() {
        Some(text) => assert!(rt; is_text && text == shown),
        None => assert!(rt; !is_text),
    }
}

fn printed<B: Backend>(alloc: Global, path: &HipPath<'_, B>) -> Result<String, AllocError> {
    let display = path.display();
    format!(in alloc; "{display}")
}

fn is_printed<B: Backend>(rt: &impl Abort, alloc: Global, row: Printed) {
    let (bytes, text, shown) = row;
    let path = lent::<B>(bytes);
    is_text(rt, &path, text, shown);
    equals(rt, &must(rt, printed(alloc, &path)).as_str(), &shown);
}

fn are_printed<B: Backend>(rt: &impl Abort, alloc: Global) {
    for row in PRINTED {
        is_printed::<B>(rt, alloc, *row);
    }
}

#[test]
fn paths_are_printed(rt: HostRuntime) {
    are_printed::<Rc>(&rt, rt.alloc());
    are_printed::<Unique>(&rt, rt.alloc());
}
