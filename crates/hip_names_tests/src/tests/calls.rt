//! Conversions between types, rooms, orders of OS strings and of paths, and components by themselves.
use super::handle::Handle;
use super::name::{Name, OsStr};
use super::support::{compared, equals, must, text_of};
use hip_names::{Backend, Component, HipOsStr, HipPath, HipStr, Rc, Unique, components_eq};
use std::alloc::Global;
use std::borrow::{CowSlice, CowStr};
use std::cmp::Ordering;
use std::process::Abort;

const LETTERS: &str = "abcdefghijklmnopqrstuvwxyz";

fn is<N: Name>(rt: &impl Abort, name: N, text: &str) {
    equals(rt, &name.bytes(), &text.as_bytes());
}

/// Makes names of a clone of the text that a `Cow` makes, and of the text itself.
fn from_text<B: Backend>(rt: &impl Abort, alloc: Global, cow: CowStr<'static>) {
    let text = must(rt, HipStr::<B>::from_cow(alloc, cow));
    let (first, second) = (must(rt, text.clone(alloc)), must(rt, text.clone(alloc)));
    are_letters(rt, HipOsStr::from(first), HipPath::from(second));
    let name = HipOsStr::from(text);
    let clone = must(rt, name.clone(alloc));
    let there_and_back = HipOsStr::from(HipPath::from(clone));
    are_letters(rt, there_and_back, HipPath::from(name));
}

fn are_letters<B: Backend>(rt: &impl Abort, name: HipOsStr<'_, B>, path: HipPath<'_, B>) {
    let letters = LETTERS.as_bytes();
    equals(
        rt,
        &(name.as_os_str(), path.as_path(), path.as_os_str()),
        &(letters, letters, letters),
    );
}

/// Makes names of a text that is lent, and of one that is owned.
fn from_texts<B: Backend>(rt: &impl Abort, alloc: Global) {
    let string = must(rt, String::from_str(alloc, LETTERS));
    from_text::<B>(rt, alloc, CowStr::Owned(string));
    from_text::<B>(rt, alloc, CowStr::Borrowed(LETTERS));
}

/// A lent name becomes a lent `Cow`, a copied one an owned one.
fn into_cows<N: Name>(rt: &impl Abort, alloc: Global) {
    match must(rt, N::from_static("abc").into_cow(alloc)) {
        CowSlice::Borrowed(bytes) => equals(rt, &bytes, &b"abc".as_slice()),
        CowSlice::Owned(_) => panic!(rt; "it was copied"),
    }
    match must(rt, must(rt, N::from_str(alloc, "abc")).into_cow(alloc)) {
        CowSlice::Owned(vec) => equals(rt, &vec.as_slice(), &b"abc".as_slice()),
        CowSlice::Borrowed(_) => panic!(rt; "it wasn't copied"),
    }
}

fn no_room<N: Name>(rt: &impl Abort, alloc: Global) {
    let name = must(rt, N::with_capacity_push(alloc, 0, ""));
    equals(rt, &name.capacity(), &23);
    is(rt, name, "");
}

/// Room for 24 bytes is given back where there are fewer.
fn shrinks<N: Name>(rt: &impl Abort, alloc: Global) {
    let mut name = must(rt, N::with_capacity_push(alloc, 24, ""));
    must(rt, name.shrink_to_fit(alloc));
    equals(rt, &(name.capacity(), N::inline_capacity()), &(23, 23));
    let mut name = must(rt, N::with_capacity_push(alloc, 24, "a"));
    must(rt, name.shrink_to(alloc, 0));
    equals(rt, &name.capacity(), &23);
    is(rt, name, "a");
}

/// Two texts, and how they are ordered, by their bytes and as paths.
type Ordered = (&'static str, &'static str, Ordering, Ordering);

const ORDERED: &[Ordered] = &[
    ("abc", "abd", Ordering::Less, Ordering::Less),
    ("abc", "abc", Ordering::Equal, Ordering::Equal),
    ("ab", "abc", Ordering::Less, Ordering::Less),
    ("a//", "a/", Ordering::Greater, Ordering::Equal),
    ("./a", "a", Ordering::Less, Ordering::Less),
    ("a/./b", "a/b", Ordering::Less, Ordering::Equal),
    ("/./a", "/a", Ordering::Less, Ordering::Equal),
    (".", "", Ordering::Greater, Ordering::Greater),
    ("/a//b/", "/a/b/c", Ordering::Less, Ordering::Less),
    ("a/b", "a!/b", Ordering::Greater, Ordering::Less),
];

fn ordered_rows() -> &'static [Ordered] {
    ORDERED
}

fn orders_bytes<N: OsStr>(rt: &impl Abort) {
    for (left, right, order, _) in ordered_rows() {
        let name = N::from_static(left);
        equals(rt, &name.os_str_cmp(right.as_bytes()), &(*order));
    }
}

/// Asserts how a copied name and a lent one are ordered.
fn orders<N: Name>(rt: &impl Abort, alloc: Global) {
    for (left, right, by_bytes, by_components) in ordered_rows() {
        let copied = must(rt, N::from_str(alloc, left));
        let order = if N::IS_PATH { by_components } else { by_bytes };
        let (lent, other) = (N::from_static(left), N::from_static(right));
        let wanted = (*order, order.reverse(), order.is_eq());
        equals(
            rt,
            &(compared(&copied, &other), compared(&lent, &other)),
            &(wanted, wanted),
        );
    }
}

/// Asserts how a name and bytes are ordered, whatever it is, and whether they are equal.
fn orders_by_name<N: Name>(rt: &impl Abort, alloc: Global) {
    for (left, right, by_bytes, by_components) in ordered_rows() {
        let name = must(rt, N::from_str(alloc, left));
        let bytes = right.as_bytes();
        equals(
            rt,
            &(
                name.os_str_eq(bytes),
                name.path_eq(bytes),
                name.path_cmp(bytes),
            ),
            &(by_bytes.is_eq(), by_components.is_eq(), *by_components),
        );
        equals(
            rt,
            &components_eq(left.as_bytes(), bytes),
            &by_components.is_eq(),
        );
    }
}

/// The tests of an OS string or of a path.
pub(crate) fn of_either<N: Name>(rt: &impl Abort, alloc: Global) {
    into_cows::<N>(rt, alloc);
    no_room::<N>(rt, alloc);
    shrinks::<N>(rt, alloc);
    orders::<N>(rt, alloc);
    orders_by_name::<N>(rt, alloc);
}

fn rooms<N: OsStr>(rt: &impl Abort, alloc: Global) {
    let mut name = must(rt, N::with_capacity_push(alloc, 42, ""));
    equals(rt, &(name.is_empty(), name.capacity() >= 42), &(true, true));
    for _ in 0..42 {
        must(rt, name.push(alloc, "A"));
    }
    equals(
        rt,
        &(name.len(), name.bytes()),
        &(42, [b'A'; 42].as_slice()),
    );
}

fn pushes<N: OsStr>(rt: &impl Abort, alloc: Global) {
    let mut name = must(rt, N::from_str(alloc, "abc"));
    must(rt, name.push(alloc, "def"));
    is(rt, name, "abcdef");
}

/// The tests of an OS string alone.
pub(crate) fn of_os_strings<N: OsStr>(rt: &impl Abort, alloc: Global) {
    rooms::<N>(rt, alloc);
    pushes::<N>(rt, alloc);
    orders_bytes::<N>(rt);
}

/// Asserts that keys are ordered as they are listed.
fn are_ordered<K: Ord>(rt: &impl Abort, keys: &[K]) {
    for (i, left) in keys.iter().enumerate() {
        for (j, right) in keys.iter().enumerate() {
            let wanted = (i.cmp(&j), j.cmp(&i), i == j);
            equals(rt, &compared(left, right), &wanted);
        }
    }
}

/// Sorts of components are ordered, and names among themselves.
#[test]
fn components(rt: HostRuntime) {
    let all = [
        Component::RootDir,
        Component::CurDir,
        Component::ParentDir,
        Component::Normal(b""),
        Component::Normal(b"a"),
        Component::Normal(b"a."),
        Component::Normal(b"b"),
    ];
    are_ordered(&rt, &all);
    let said = must(&rt, text_of(rt.alloc(), &all[4]));
    equals(&rt, &said.as_str(), &"Normal([97])");
}

#[test]
fn texts_become_names(rt: HostRuntime) {
    from_texts::<Rc>(&rt, rt.alloc());
    from_texts::<Unique>(&rt, rt.alloc());
}

#[test]
fn closures_write(rt: HostRuntime) {
    let mut name = must(&rt, HipOsStr::<Rc>::from_str(rt.alloc(), "ab"));
    let pushed = name.with_mutated(rt.alloc(), |vec: &mut Vec<u8>| vec.push(b'c'));
    must(&rt, must(&rt, pushed));
    equals(&rt, &name.as_os_str(), &b"abc".as_slice());
    let mut path = must(&rt, HipPath::<Unique>::from_str(rt.alloc(), "a/"));
    let pushed = path.with_mutated(rt.alloc(), |vec: &mut Vec<u8>| vec.push(b'b'));
    must(&rt, must(&rt, pushed));
    equals(&rt, &path.as_path(), &b"a/b".as_slice());
}
