//! Paths that are hard to read, with the answers of Rust's `std::path`.
use super::handle::Handle;
use super::name::Name;
use super::support::{compared, equals, must};
use hip_names::{Backend, Component, Components, HipByt, HipOsStr, HipPath, Rc, Unique, path_cmp};
use std::alloc::{AllocError, Global};
use std::cmp::Ordering;
use std::process::Abort;

/// A path, what `Path::components` gives of it in Rust, and how `Path::cmp` puts it to the path of the row below (the last one's to that
/// of the first of all). A component is `R` for the root, `C` for `.`, `P` for `..` or `N` and a name, with a `|` behind it.
type Hostile = (&'static [u8], &'static [u8], Ordering);

const FIRST: &[Hostile] = &[
    (b"", b"", Ordering::Less),
    (b".", b"C|", Ordering::Less),
    (b"..", b"P|", Ordering::Less),
    (b"...", b"N...|", Ordering::Greater),
    (b"/", b"R|", Ordering::Equal),
    (b"//", b"R|", Ordering::Equal),
    (b"///", b"R|", Ordering::Equal),
    (b"/.", b"R|", Ordering::Less),
    (b"/..", b"R|P|", Ordering::Less),
    (b"/...", b"R|N...|", Ordering::Less),
    (b"./", b"C|", Ordering::Less),
    (b"../", b"P|", Ordering::Greater),
    (b".//", b"C|", Ordering::Less),
    (b"..//", b"P|", Ordering::Greater),
    (b"./.", b"C|", Ordering::Less),
    (b"./..", b"C|P|", Ordering::Less),
    (b"../.", b"P|", Ordering::Less),
    (b"../..", b"P|P|", Ordering::Greater),
    (b"././.", b"C|", Ordering::Greater),
    (b"/./", b"R|", Ordering::Less),
    (b"/../", b"R|P|", Ordering::Greater),
    (b"/./.", b"R|", Ordering::Less),
    (b"/../..", b"R|P|P|", Ordering::Greater),
    (b"//.", b"R|", Ordering::Less),
];

const SECOND: &[Hostile] = &[
    (b"//..", b"R|P|", Ordering::Less),
    (b".a", b"N.a|", Ordering::Greater),
    (b"..a", b"N..a|", Ordering::Greater),
    (b"...a", b"N...a|", Ordering::Less),
    (b"a.", b"Na.|", Ordering::Less),
    (b"a..", b"Na..|", Ordering::Greater),
    (b"a", b"Na|", Ordering::Equal),
    (b"a/", b"Na|", Ordering::Equal),
    (b"a//", b"Na|", Ordering::Equal),
    (b"a/.", b"Na|", Ordering::Equal),
    (b"a/./", b"Na|", Ordering::Equal),
    (b"a//.", b"Na|", Ordering::Less),
    (b"a/..", b"Na|P|", Ordering::Equal),
    (b"a/../", b"Na|P|", Ordering::Less),
    (b"a/...", b"Na|N...|", Ordering::Greater),
    (b"/a", b"R|Na|", Ordering::Equal),
    (b"//a", b"R|Na|", Ordering::Equal),
    (b"/./a", b"R|Na|", Ordering::Greater),
    (b"/../a", b"R|P|Na|", Ordering::Less),
    (b"./a", b"C|Na|", Ordering::Equal),
    (b"././a", b"C|Na|", Ordering::Equal),
    (b".//a", b"C|Na|", Ordering::Less),
    (b"../a", b"P|Na|", Ordering::Less),
    (b"a/b", b"Na|Nb|", Ordering::Equal),
];

const THIRD: &[Hostile] = &[
    (b"a//b", b"Na|Nb|", Ordering::Equal),
    (b"a/./b", b"Na|Nb|", Ordering::Equal),
    (b"a/.//b", b"Na|Nb|", Ordering::Equal),
    (b"a//./b", b"Na|Nb|", Ordering::Equal),
    (b"a//./b/", b"Na|Nb|", Ordering::Greater),
    (b"a/../b", b"Na|P|Nb|", Ordering::Less),
    (b"a/.b", b"Na|N.b|", Ordering::Greater),
    (b"a/..b", b"Na|N..b|", Ordering::Less),
    (b"a/b.", b"Na|Nb.|", Ordering::Less),
    (b"a./b", b"Na.|Nb|", Ordering::Greater),
    (b"/a/b", b"R|Na|Nb|", Ordering::Equal),
    (b"/a//b/", b"R|Na|Nb|", Ordering::Less),
    (b"/a/b/c", b"R|Na|Nb|Nc|", Ordering::Greater),
    (b"/a/./b/../c", b"R|Na|Nb|P|Nc|", Ordering::Less),
    (b"./a/../b", b"C|Na|P|Nb|", Ordering::Less),
    (b". /a", b"N. |Na|", Ordering::Greater),
    (b" ./a", b"N .|Na|", Ordering::Less),
    (b"a b", b"Na b|", Ordering::Greater),
    (b"\\a", b"N\\a|", Ordering::Less),
    (b"a\\b", b"Na\\b|", Ordering::Greater),
    (b"a:b", b"Na:b|", Ordering::Greater),
    (b"C:/a", b"NC:|Na|", Ordering::Greater),
    (b"-", b"N-|", Ordering::Less),
    (b"~", b"N~|", Ordering::Greater),
];

const FOURTH: &[Hostile] = &[
    (b"!/a", b"N!|Na|", Ordering::Less),
    (b"+/a", b"N+|Na|", Ordering::Less),
    (b"a!/b", b"Na!|Nb|", Ordering::Greater),
    (b"a/b!", b"Na|Nb!|", Ordering::Less),
    (b"a-b/c", b"Na-b|Nc|", Ordering::Greater),
    (b"a/c", b"Na|Nc|", Ordering::Less),
    (b"\xFF", b"N\xFF|", Ordering::Greater),
    (b"/\xFF", b"R|N\xFF|", Ordering::Less),
    (b"a/\xFF/b", b"Na|N\xFF|Nb|", Ordering::Less),
    (b"\xFF/.", b"N\xFF|", Ordering::Greater),
    (b".\xFF", b"N.\xFF|", Ordering::Greater),
    (b"..\xFF", b"N..\xFF|", Ordering::Less),
    (b"\xC3\xA9/\xC3", b"N\xC3\xA9|N\xC3|", Ordering::Greater),
    (b"\x80/..", b"N\x80|P|", Ordering::Greater),
    (b"\x00", b"N\x00|", Ordering::Greater),
    (b"/\x00/.", b"R|N\x00|", Ordering::Less),
    (b"../.", b"P|", Ordering::Less),
    (b"-/a", b"N-|Na|", Ordering::Less),
    (b"0/a", b"N0|Na|", Ordering::Less),
    (
        b"abc/def/ghi/jkl/mno/pqr/stu",
        b"Nabc|Ndef|Nghi|Njkl|Nmno|Npqr|Nstu|",
        Ordering::Less,
    ),
    (
        b"abc/def/ghi//jkl/./mno/pqr/stv",
        b"Nabc|Ndef|Nghi|Njkl|Nmno|Npqr|Nstv|",
        Ordering::Greater,
    ),
    (
        b"abc/def/ghi/jkl/mno/pqr",
        b"Nabc|Ndef|Nghi|Njkl|Nmno|Npqr|",
        Ordering::Greater,
    ),
];

/// Adds a component to what was written of those before it.
pub(crate) fn write(written: &mut Vec<u8>, component: Component) -> Result<(), AllocError> {
    let (letter, name) = match component {
        Component::RootDir => (b'R', &b""[..]),
        Component::CurDir => (b'C', &b""[..]),
        Component::ParentDir => (b'P', &b""[..]),
        Component::Normal(name) => (b'N', name),
    };
    written.push(letter)?;
    written.extend_from_slice(name)?;
    written.push(b'|')?;
    Ok(())
}

/// The components, written one behind another.
fn written(alloc: Global, components: Components) -> Result<Vec<u8>, AllocError> {
    let mut all = Vec::new(alloc);
    for component in components {
        write(&mut all, component)?;
    }
    Ok(all)
}

fn is(rt: &impl Abort, vec: Vec<u8>, wanted: &[u8]) {
    equals(rt, &vec.as_slice(), &wanted);
}

fn path_of<B: Backend>(bytes: &[u8]) -> HipPath<'_, B> {
    HipPath::from(HipOsStr::from(HipByt::borrowed(bytes)))
}

fn is_taken_apart<B: Backend>(rt: &impl Abort, alloc: Global, row: Hostile) {
    let (bytes, components, _) = row;
    let path = path_of::<B>(bytes);
    is(rt, must(rt, written(alloc, path.components())), components);
}

/// Asserts how the path of a row and that of the one below are ordered.
fn is_ordered<N: Name>(rt: &impl Abort, row: Hostile, next: Hostile) {
    let (path, other) = (must(rt, N::lent(row.0)), must(rt, N::lent(next.0)));
    let (order, turned, are_equal) = compared(&path, &other);
    let wanted = row.2;
    equals(
        rt,
        &(row.0, order, path_cmp(row.0, next.0), turned, are_equal),
        &(row.0, wanted, wanted, wanted.reverse(), wanted.is_eq()),
    );
}

fn are_taken_apart<B: Backend>(rt: &impl Abort, alloc: Global, rows: &[Hostile]) {
    for row in rows {
        is_taken_apart::<B>(rt, alloc, *row);
    }
}

/// Asserts the order of each row, of which the last is put to the first of those behind them.
fn are_ordered<N: Name>(rt: &impl Abort, rows: &[Hostile], behind: &[Hostile]) {
    for (i, row) in rows.iter().enumerate() {
        let next = rows.get(i + 1).or(behind.first()).unwrap_or(row);
        is_ordered::<N>(rt, *row, *next);
    }
}

// A function in which a table stands costs the square of its rows, so each part of it has one, of which those who go through it know
// nothing.

fn first() -> &'static [Hostile] {
    FIRST
}

fn second() -> &'static [Hostile] {
    SECOND
}

fn third() -> &'static [Hostile] {
    THIRD
}

fn fourth() -> &'static [Hostile] {
    FOURTH
}

/// Asserts how paths are ordered.
pub(crate) fn of_paths<N: Name>(rt: &impl Abort) {
    are_ordered::<N>(rt, first(), second());
    are_ordered::<N>(rt, second(), third());
    are_ordered::<N>(rt, third(), fourth());
    are_ordered::<N>(rt, fourth(), first());
}

fn hostile_paths<B: Backend>(rt: &impl Abort, alloc: Global) {
    are_taken_apart::<B>(rt, alloc, first());
    are_taken_apart::<B>(rt, alloc, second());
    are_taken_apart::<B>(rt, alloc, third());
    are_taken_apart::<B>(rt, alloc, fourth());
}

#[test]
fn hostile_paths_are_taken_apart(rt: HostRuntime) {
    hostile_paths::<Rc>(&rt, rt.alloc());
    hostile_paths::<Unique>(&rt, rt.alloc());
}
