//! hipstr's own tests of texts, and worked cases.
use super::suite::{Suite, run_on_each};
use super::support::{equals, holds, is, must, reads};
use super::text::{Bytes, Text};
use hip_text::{Backend, HipStr, Kind, Meter, Rc, Unique};
use std::alloc::Global;
use std::borrow::CowStr;
use std::cmp::Ordering;
use std::process::Abort;

/// How a text is made.
#[derive(Clone, Copy)]
enum Way {
    Taken,
    Copied,
    Lent,
}

const LETTERS: &str = "abcdefghijklmnopqrstuvwxyz";

const LONG: &str = "aaaaaaaaaaaaaaaaaaaaaaaaaaaaaaaaaaaaaaaaaa";

const CAPITALS: &str = "AAAAAAAAAAAAAAAAAAAAAAAAAAAAAAAAAAAAAAAAAA";

const STARS: &str = "******************************************";

/// A way, the text that it makes here, and where its bytes lie then.
const WAYS: &[(Way, &str, Kind)] = &[
    (Way::Taken, LONG, Kind::Allocated),
    (Way::Taken, STARS, Kind::Allocated),
    (Way::Taken, LETTERS, Kind::Allocated),
    (Way::Copied, LETTERS, Kind::Allocated),
    (Way::Copied, "abc", Kind::Inline),
    (Way::Lent, "abc", Kind::Borrowed),
];

/// A text that was made in that way.
fn made<T: Text>(rt: &impl Abort, alloc: Global, way: Way, text: &'static str) -> T {
    match way {
        Way::Taken => must(
            rt,
            T::from_string(alloc, must(rt, String::from_str(alloc, text))),
        ),
        Way::Copied => must(rt, T::from_str(alloc, text)),
        Way::Lent => T::borrowed(text),
    }
}

fn into_strings<T: Text>(rt: &impl Abort, alloc: Global) {
    for (way, text, kind) in WAYS {
        let value = made::<T>(rt, alloc, *way, text);
        holds(rt, &value, text, *kind);
        let string = must(rt, value.into_string_copied(alloc));
        reads(rt, string.as_str(), text);
    }
}

/// Asserts what bytes hold, and where.
fn has<T: Text>(rt: &impl Abort, bytes: T::Bytes, text: &str, kind: Kind) {
    equals(
        rt,
        &(bytes.as_slice(), bytes.kind()),
        &(text.as_bytes(), kind),
    );
}

/// A text becomes bytes by the call of that name, and by `From`.
fn into_bytes<T: Text>(rt: &impl Abort, alloc: Global) {
    for (way, text, kind) in WAYS {
        has::<T>(
            rt,
            made::<T>(rt, alloc, *way, text).into_bytes(),
            text,
            *kind,
        );
        let bytes = made::<T>(rt, alloc, *way, text).into();
        equals(rt, &bytes.kind(), &(*kind));
        let vec = must(rt, bytes.into_vec_copied(alloc));
        let wanted = text.as_bytes();
        equals(rt, &vec.as_slice(), &wanted);
    }
}

fn into_cows<T: Text>(rt: &impl Abort, alloc: Global) {
    match must(rt, T::from_static("abc").into_cow(alloc)) {
        CowStr::Borrowed(lent) => reads(rt, lent, "abc"),
        CowStr::Owned(_) => panic!(rt; "it was copied"),
    }
    match must(rt, must(rt, T::from_str(alloc, "abc")).into_cow(alloc)) {
        CowStr::Owned(owned) => reads(rt, owned.as_str(), "abc"),
        CowStr::Borrowed(_) => panic!(rt; "it wasn't copied"),
    }
}

fn from_bytes<T: Text>(rt: &impl Abort, alloc: Global) {
    let lent = T::Bytes::borrowed(LETTERS.as_bytes());
    let text = must(rt, T::from_utf8(must(rt, lent.clone(alloc))));
    is(rt, text, LETTERS, Kind::Borrowed);
    is(rt, must(rt, T::from_utf8(lent)), LETTERS, Kind::Borrowed);
    let copied = must(rt, T::Bytes::from_slice(alloc, LETTERS.as_bytes()));
    is(rt, must(rt, T::from_utf8(copied)), LETTERS, Kind::Allocated);
}

fn from_slices<T: Text>(rt: &impl Abort, alloc: Global) {
    let copied = must(rt, T::try_from_slice(alloc, LETTERS.as_bytes()));
    is(rt, copied, LETTERS, Kind::Allocated);
}

fn from_vectors<T: Text>(rt: &impl Abort, alloc: Global) {
    let vec = must(rt, Vec::from_slice(alloc, LONG.as_bytes()));
    let taken = must(rt, T::try_from_vec(alloc, vec));
    is(rt, taken, LONG, Kind::Allocated);
}

/// A text, and how `bb` is ordered to it.
const ORDERED: &[(&str, Ordering)] = &[
    ("bc", Ordering::Less),
    ("ba", Ordering::Greater),
    ("bb", Ordering::Equal),
];

/// Texts compare by their bytes, also with what a string lends.
fn order<T: Text>(rt: &impl Abort, alloc: Global) {
    let bb = T::borrowed("bb");
    for (other, order) in ORDERED {
        let string = must(rt, String::from_str(alloc, other));
        let lent = string.as_str();
        equals(
            rt,
            &(
                bb.cmp(&T::borrowed(other)),
                bb.str_cmp(lent),
                bb.cmp_with(lent),
            ),
            &(*order, *order, *order),
        );
        equals(
            rt,
            &(
                bb.str_cmp(other),
                T::cmp_borrowed("bb", lent),
                T::cmp_borrowed(lent, "bb"),
            ),
            &(*order, *order, order.reverse()),
        );
    }
}

/// A copied text and a lent one are equal, either on the left, and to themselves, but not to a part.
fn equality_wherever_they_lie<T: Text>(rt: &impl Abort, alloc: Global) {
    let (copied, lent) = (
        must(rt, T::from_str(alloc, CAPITALS)),
        T::borrowed(CAPITALS),
    );
    equals(
        rt,
        &(
            copied == copied,
            lent == lent,
            copied == lent,
            lent == copied,
        ),
        &(true, true, true, true),
    );
    let front = must(rt, lent.slice(alloc, 0..4));
    equals(
        rt,
        &(lent == front, copied.str_eq(CAPITALS), front.as_str()),
        &(false, true, "AAAA"),
    );
}

fn equality<T: Text>(rt: &impl Abort, alloc: Global) {
    for (way, text, _) in WAYS {
        let value = made::<T>(rt, alloc, *way, text);
        let clone = must(rt, value.clone(alloc));
        equals(rt, &(value == clone, value.eq_with(text)), &(true, true));
    }
}

/// A slice outlives its source, and copies what fits the handle.
fn outlives<T: Text>(rt: &impl Abort, alloc: Global) {
    let source = must(rt, T::from_str(alloc, "Hello John"));
    let mut meter = Meter::new();
    let name = must(rt, source.slice_metered_from(alloc, 6, &mut meter));
    drop(source);
    equals(rt, &meter.copied(), &4);
    is(rt, name, "John", Kind::Inline);
}

/// The example of hipstr's own README.
fn example<T: Text>(rt: &impl Abort, alloc: Global) {
    let hello = T::from_static("Hello world");
    let clone = must(rt, hello.clone(alloc));
    is(rt, clone, "Hello world", Kind::Borrowed);
    let string = must(rt, String::from_str(alloc, "Hello John"));
    let source = must(rt, T::from_string(alloc, string));
    let name = must(rt, source.slice(alloc, 6..10));
    drop(source);
    equals(rt, &name.as_str().chars().count(), &4);
    is(rt, name, "John", Kind::Inline);
}

/// The number of `a` before the character that is pushed, the character, the length of the text then, and where it lies.
type Pushed = (usize, char, usize, Kind);

const AT_THE_LIMIT: &[Pushed] = &[
    (19, '😀', 23, Kind::Inline),
    (21, 'é', 23, Kind::Inline),
    (20, '😀', 24, Kind::Allocated),
    (22, 'é', 24, Kind::Allocated),
];

fn pushes<T: Text>(rt: &impl Abort, alloc: Global) {
    for (count, c, len, kind) in AT_THE_LIMIT {
        let mut text = must(rt, T::borrowed("a").repeat(alloc, *count));
        must(rt, text.push(alloc, *c));
        equals(
            rt,
            &(text.len(), text.kind(), text.pop()),
            &(*len, *kind, Some(*c)),
        );
    }
}

fn shortens<T: Text>(rt: &impl Abort, alloc: Global) {
    let mut text = must(rt, T::from_str(alloc, "aé😀"));
    for len in [9, 7] {
        must(rt, text.truncate(len));
        reads(rt, text.as_str(), "aé😀");
    }
    for last in [Some('😀'), Some('é'), Some('a'), None] {
        equals(rt, &text.pop(), &last);
    }
    let mut text = must(rt, T::from_str(alloc, "aé😀"));
    must(rt, text.truncate(3));
    reads(rt, text.as_str(), "aé");
}

struct Carried;

impl Suite for Carried {
    fn run<T: Text>(rt: &impl Abort, alloc: Global) {
        into_strings::<T>(rt, alloc);
        into_bytes::<T>(rt, alloc);
        into_cows::<T>(rt, alloc);
        from_bytes::<T>(rt, alloc);
        from_slices::<T>(rt, alloc);
        from_vectors::<T>(rt, alloc);
        order::<T>(rt, alloc);
        equality::<T>(rt, alloc);
        equality_wherever_they_lie::<T>(rt, alloc);
        outlives::<T>(rt, alloc);
        example::<T>(rt, alloc);
        pushes::<T>(rt, alloc);
        shortens::<T>(rt, alloc);
    }
}

#[test]
fn texts_are_their_bytes_wherever_they_lie(rt: HostRuntime) {
    run_on_each::<Carried>(&rt, rt.alloc());
}

/// A text that borrows from a string stays borrowed, beside one that borrows from elsewhere.
fn stays_borrowed<B: Backend>(rt: &impl Abort, alloc: Global) {
    let string = must(rt, String::from_str(alloc, "abc"));
    let text = must(
        rt,
        HipStr::<B>::from_cow(alloc, CowStr::Borrowed(string.as_str())),
    );
    let both = (text, HipStr::<B>::borrowed("abc"));
    equals(
        rt,
        &(both.0.is_borrowed(), both.1.is_borrowed(), both.0.as_str()),
        &(true, true, "abc"),
    );
}

#[test]
fn borrowed_from_a_string(rt: HostRuntime) {
    stays_borrowed::<Rc>(&rt, rt.alloc());
    stays_borrowed::<Unique>(&rt, rt.alloc());
}
