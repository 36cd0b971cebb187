//! hipstr's own tests of OS strings and of paths, each by its own calls.
use super::handle::Handle;
use super::name::{Name, OsStr};
use super::support::{are_equal, equals, must, text_of};
use super::{calls, decoding, hostile, maps, rooms};
use hip_names::{HipOsStr, HipPath, Kind, Rc, Unique};
use std::alloc::Global;
use std::cmp::Ordering;
use std::process::Abort;

const LETTERS: &str = "abcdefghijklmnopqrstuvwxyz";

const LONG: &str = "aaaaaaaaaaaaaaaaaaaaaaaaaaaaaaaaaaaaaaaaaa";

const CAPITALS: &str = "AAAAAAAAAAAAAAAAAAAAAAAAAAAAAAAAAAAAAAAAAA";

const STARS: &str = "******************************************";

/// How a name is made.
#[derive(Clone, Copy)]
enum Way {
    Taken,
    /// Taken over from a string with room for 42 bytes.
    TakenWithRoom,
    Copied,
    Lent,
}

/// A way, the text of the name that it makes here, and where its bytes lie then.
const WAYS: &[(Way, &str, Kind)] = &[
    (Way::Taken, LONG, Kind::Allocated),
    (Way::Taken, CAPITALS, Kind::Allocated),
    (Way::Taken, STARS, Kind::Allocated),
    (Way::Taken, LETTERS, Kind::Allocated),
    (Way::Copied, LONG, Kind::Allocated),
    (Way::Copied, CAPITALS, Kind::Allocated),
    (Way::Copied, LETTERS, Kind::Allocated),
    (Way::Copied, "abc", Kind::Inline),
    (Way::Lent, "abc", Kind::Borrowed),
];

/// A name that was made in that way.
fn made<N: Name>(rt: &impl Abort, alloc: Global, way: Way, text: &'static str) -> N {
    match way {
        Way::Taken => taken(rt, alloc, 0, text),
        Way::TakenWithRoom => taken(rt, alloc, 42, text),
        Way::Copied => must(rt, N::from_str(alloc, text)),
        Way::Lent => N::from_static(text),
    }
}

/// A name that takes over a string with room for `room` bytes.
fn taken<N: Name>(rt: &impl Abort, alloc: Global, room: usize, text: &str) -> N {
    let mut string = must(rt, String::with_capacity(alloc, room));
    must(rt, string.push_str(text));
    must(rt, N::from_string(alloc, string))
}

/// Asserts what a name holds, and where.
fn is<H: Handle>(rt: &impl Abort, name: H, text: &str, kind: Kind) {
    equals(rt, &name.bytes(), &text.as_bytes());
    equals(rt, &name.kind(), &Some(kind));
}

fn is_vector(rt: &impl Abort, vec: Vec<u8>, text: &str) {
    equals(rt, &vec.as_slice(), &text.as_bytes());
}

/// A clone outlives its source, and lies as that does.
fn makers<N: Name>(rt: &impl Abort, alloc: Global) {
    for (way, text, kind) in WAYS {
        let name = made::<N>(rt, alloc, *way, text);
        let clone = must(rt, name.clone(alloc));
        is(rt, name, text, *kind);
        is(rt, clone, text, *kind);
    }
}

fn is_empty<N: Name>(rt: &impl Abort, empty: N) {
    equals(
        rt,
        &(
            empty.os_str_eq(b""),
            empty.path_eq(b""),
            empty.path_cmp(b""),
        ),
        &(true, true, Ordering::Equal),
    );
    is(rt, empty, "", Kind::Inline);
}

fn plain<N: Name>(rt: &impl Abort) {
    is_empty(rt, N::new());
    is_empty(rt, N::default());
    is(rt, N::from_static(LETTERS), LETTERS, Kind::Borrowed);
    is(rt, N::borrowed("0123456789"), "0123456789", Kind::Borrowed);
}

/// A number of bytes that are copied, and where they lie then.
const LENGTHS: &[(usize, Kind)] = &[
    (0, Kind::Inline),
    (1, Kind::Inline),
    (23, Kind::Inline),
    (24, Kind::Allocated),
    (256, Kind::Allocated),
    (1024, Kind::Allocated),
];

fn lengths<N: Name>(rt: &impl Abort, alloc: Global) {
    for (len, kind) in LENGTHS {
        let mut text = String::new(alloc);
        for _ in 0..*len {
            must(rt, text.push('a'));
        }
        let name = must(rt, N::from_str(alloc, text.as_str()));
        is(rt, name, text.as_str(), *kind);
    }
}

/// A long name gives its vector, any other is handed back.
fn gives_vector<N: Name>(rt: &impl Abort, outcome: Result<Vec<u8>, N>, text: &str, kind: Kind) {
    match outcome {
        Ok(vec) => assert_eq!(rt; (vec.as_slice(), kind), (text.as_bytes(), Kind::Allocated)),
        Err(back) => {
            assert!(rt; kind != Kind::Allocated);
            is(rt, back, text, kind);
        }
    }
}

/// Vectors by each call that gives one.
fn into_vectors<N: Name>(rt: &impl Abort, alloc: Global) {
    for (way, text, kind) in WAYS {
        let name = made::<N>(rt, alloc, *way, text);
        gives_vector(rt, name.into_vec(alloc), text, *kind);
        let name = made::<N>(rt, alloc, *way, text);
        gives_vector(rt, name.into_os_string(alloc), text, *kind);
    }
}

/// A byte string lies where the name did.
fn into_byte_strings<N: Name>(rt: &impl Abort, alloc: Global) {
    for (way, text, kind) in WAYS {
        is(rt, made::<N>(rt, alloc, *way, text).into(), text, *kind);
    }
}

fn into_copies<N: Name>(rt: &impl Abort, alloc: Global) {
    for (way, text, _) in WAYS {
        let name = made::<N>(rt, alloc, *way, text);
        is_vector(rt, must(rt, name.into_vec_copied(alloc)), text);
    }
}

/// A name of the other type and back, of a clone and of the name itself.
fn there_and_back<N: Name>(rt: &impl Abort, alloc: Global) {
    for (way, text, kind) in WAYS {
        let name = made::<N>(rt, alloc, *way, text);
        let clone = must(rt, name.clone(alloc));
        is(rt, clone.there_and_back(), text, *kind);
        is(rt, name.there_and_back(), text, *kind);
    }
}

/// The text of a clone, and of the name itself, lies where the name did.
fn into_texts<N: Name>(rt: &impl Abort, alloc: Global) {
    for (way, text, kind) in WAYS {
        let name = made::<N>(rt, alloc, *way, text);
        let clone = must(rt, name.clone(alloc));
        let wanted = Some((true, *kind));
        equals(
            rt,
            &(clone.into_str_eq(text).ok(), name.into_str_eq(text).ok()),
            &(wanted, wanted),
        );
    }
}

/// Lent bytes are shown and handed out; any others are handed back, equal to a clone that was made before.
fn borrows<N: Name>(rt: &impl Abort, alloc: Global) {
    for (way, text, kind) in WAYS {
        let name = made::<N>(rt, alloc, *way, text);
        let clone = must(rt, name.clone(alloc));
        let is_lent = *kind == Kind::Borrowed;
        let lent = is_lent.then_some(text.as_bytes());
        equals(rt, &name.as_borrowed(), &lent);
        match name.into_borrowed() {
            Ok(bytes) => equals(rt, &Some(bytes), &lent),
            Err(back) => equals(rt, &(are_equal(&back, &clone), is_lent), &(true, false)),
        }
    }
}

/// A name is equal to its bytes, as bytes and as a path, and to another that was made alike, either on the left.
fn equalities<N: Name>(rt: &impl Abort, alloc: Global) {
    for (way, text, _) in WAYS {
        let name = made::<N>(rt, alloc, *way, text);
        let other = made::<N>(rt, alloc, *way, text);
        let bytes = text.as_bytes();
        equals(
            rt,
            &(
                name.os_str_eq(bytes),
                name.path_eq(bytes),
                name.path_cmp(bytes),
            ),
            &(true, true, Ordering::Equal),
        );
        assert!(rt; are_equal(&name, &other) & are_equal(&other, &name));
    }
}

/// Adds to the vector that `mutate` lends, and answers how `Debug` showed the guard before.
fn pushes_by_guard<N: Name>(
    rt: &impl Abort,
    alloc: Global,
    name: &mut N,
    addition: &str,
) -> String {
    let mut guard = must(rt, name.mutate(alloc));
    let shown = must(rt, text_of(alloc, &guard));
    let vec = guard.as_mut_vec();
    must(rt, vec.extend_from_slice(addition.as_bytes()));
    must(rt, guard.finish(alloc));
    shown
}

/// A way, the text of the name that it makes and where that lies, what is added through a guard, and what the name holds then, and where.
type Grown = (Way, &'static str, Kind, &'static str, &'static str, Kind);

const GROWN: &[Grown] = &[
    (
        Way::Lent,
        "abc",
        Kind::Borrowed,
        "def",
        "abcdef",
        Kind::Inline,
    ),
    (
        Way::Copied,
        "abc",
        Kind::Inline,
        "def",
        "abcdef",
        Kind::Inline,
    ),
    (
        Way::TakenWithRoom,
        LETTERS,
        Kind::Allocated,
        "0123456789",
        "abcdefghijklmnopqrstuvwxyz0123456789",
        Kind::Allocated,
    ),
];

/// Like [`GROWN`], for paths, to which a part is added.
const GROWN_PATHS: &[Grown] = &[
    (
        Way::Lent,
        "abc",
        Kind::Borrowed,
        "/def",
        "abc/def",
        Kind::Inline,
    ),
    (
        Way::Copied,
        "abc",
        Kind::Inline,
        "/def",
        "abc/def",
        Kind::Inline,
    ),
    (
        Way::TakenWithRoom,
        LETTERS,
        Kind::Allocated,
        "/0123456789",
        "abcdefghijklmnopqrstuvwxyz/0123456789",
        Kind::Allocated,
    ),
];

/// An only handle, and one whose clone, which was made before, keeps what it had.
fn guards<N: Name>(rt: &impl Abort, alloc: Global) {
    let rows = if N::IS_PATH { GROWN_PATHS } else { GROWN };
    for (way, text, before, addition, whole, after) in rows {
        let mut name = made::<N>(rt, alloc, *way, text);
        drop(pushes_by_guard(rt, alloc, &mut name, addition));
        is(rt, name, whole, *after);
        let mut name = made::<N>(rt, alloc, *way, text);
        let clone = must(rt, name.clone(alloc));
        drop(pushes_by_guard(rt, alloc, &mut name, addition));
        is(rt, name, whole, *after);
        is(rt, clone, text, *before);
    }
}

/// A guard is shown as the vector that it lends.
fn debugs_guards<N: Name>(rt: &impl Abort, alloc: Global) {
    for way in [Way::Copied, Way::Lent] {
        let mut name = made::<N>(rt, alloc, way, "abc");
        let guard = pushes_by_guard(rt, alloc, &mut name, "");
        equals(rt, &guard.as_str(), &"[97, 98, 99]");
    }
}

fn debugs<N: Name>(rt: &impl Abort, alloc: Global) {
    let said = must(rt, text_of(alloc, &N::from_static("abc")));
    equals(rt, &said.as_str(), &"\"abc\"");
}

/// Lent bytes are copied, any others stay where they lie.
fn owns<N: Name>(rt: &impl Abort, alloc: Global) {
    for (way, text, kind) in WAYS {
        let name = made::<N>(rt, alloc, *way, text);
        let owned_kind = match kind {
            Kind::Inline | Kind::Borrowed => Kind::Inline,
            Kind::Allocated => Kind::Allocated,
        };
        is(rt, must(rt, name.into_owned(alloc)), text, owned_kind);
    }
}

/// The first two of 42 stars, which were lent, and all of them, which were copied: their source may be let go.
fn outlives_its_source<N: Name>(rt: &impl Abort, alloc: Global) {
    let stars = must(rt, String::from_str(alloc, STARS));
    let lent = must(rt, stars.get(..2).ok_or("fewer than two"));
    let owned = must(rt, N::borrowed_into_owned(alloc, lent));
    let copied = must(rt, N::from_str(alloc, stars.as_str()));
    drop(stars);
    is(rt, owned, "**", Kind::Inline);
    is(
        rt,
        must(rt, copied.into_owned(alloc)),
        STARS,
        Kind::Allocated,
    );
}

fn on_makers<N: Name>(rt: &impl Abort, alloc: Global) {
    plain::<N>(rt);
    makers::<N>(rt, alloc);
    lengths::<N>(rt, alloc);
    owns::<N>(rt, alloc);
    outlives_its_source::<N>(rt, alloc);
    equalities::<N>(rt, alloc);
}

fn on_conversions<N: Name>(rt: &impl Abort, alloc: Global) {
    into_vectors::<N>(rt, alloc);
    into_byte_strings::<N>(rt, alloc);
    into_copies::<N>(rt, alloc);
    into_texts::<N>(rt, alloc);
    there_and_back::<N>(rt, alloc);
    borrows::<N>(rt, alloc);
}

fn on_changes<N: Name>(rt: &impl Abort, alloc: Global) {
    guards::<N>(rt, alloc);
    debugs_guards::<N>(rt, alloc);
    debugs::<N>(rt, alloc);
}

fn on<N: Name>(rt: &impl Abort, alloc: Global) {
    on_makers::<N>(rt, alloc);
    on_conversions::<N>(rt, alloc);
    on_changes::<N>(rt, alloc);
    calls::of_either::<N>(rt, alloc);
    rooms::of_either::<N>(rt, alloc);
    decoding::of_either::<N>(rt);
    maps::of_either::<N>(rt, alloc);
}

fn on_os_strings<N: OsStr>(rt: &impl Abort, alloc: Global) {
    on::<N>(rt, alloc);
    calls::of_os_strings::<N>(rt, alloc);
    decoding::of_os_strings::<N>(rt, alloc);
}

fn on_paths<N: Name>(rt: &impl Abort, alloc: Global) {
    on::<N>(rt, alloc);
    hostile::of_paths::<N>(rt);
}

// The proof that a type is a `Name` costs seconds, and more in a function that is generic in the backend.

#[test]
fn os_strings_are_handles_of_bytes(rt: HostRuntime) {
    on_os_strings::<HipOsStr<'static, Rc>>(&rt, rt.alloc());
    on_os_strings::<HipOsStr<'static, Unique>>(&rt, rt.alloc());
}

#[test]
fn paths_are_compared_by_components(rt: HostRuntime) {
    on_paths::<HipPath<'static, Rc>>(&rt, rt.alloc());
    on_paths::<HipPath<'static, Unique>>(&rt, rt.alloc());
}
