//! Makers, conversions, pushes, `pop`, case, comparisons and guards.
use super::suite::{Suite, run_on_each};
use super::support::{equals, holds, is, must, must_hold, must_refuse, reads};
use super::text::Text;
use hip_text::Kind;
use std::alloc::{AllocError, Global};
use std::borrow::CowStr;
use std::collections::HashMap;
use std::hash::Hash;
use std::process::Abort;

const LETTERS: &str = "abcdefghijklmnopqrstuvwxyz";

const STARS: &str = "******************************************";

fn makers<T: Text>(rt: &impl Abort, alloc: Global) {
    is(rt, T::new(), "", Kind::Inline);
    is(rt, T::from_static(LETTERS), LETTERS, Kind::Borrowed);
    is(rt, must(rt, T::from_str(alloc, "abc")), "abc", Kind::Inline);
}

/// Equal texts of three bytes, one of a hundred, and room that is asked for.
fn rooms<T: Text>(rt: &impl Abort, alloc: Global) {
    let (one, other) = (
        must(rt, T::from_str(alloc, "abc")),
        must(rt, T::from_str(alloc, "abc")),
    );
    equals(
        rt,
        &(one == other, one.capacity(), T::inline_capacity()),
        &(true, 23, 23),
    );
    let many = must(rt, T::borrowed("a").repeat(alloc, 100));
    let copied = must(rt, T::from_str(alloc, many.as_str()));
    equals(
        rt,
        &(copied.str_eq(many.as_str()), copied.len()),
        &(true, 100),
    );
    let room = must(rt, T::with_capacity(alloc, 42));
    must_hold(rt, room.capacity() >= 42);
    is(rt, room, "", Kind::Allocated);
}

/// A lent text comes out again, and a copy is handed back.
fn borrows<T: Text>(rt: &impl Abort, alloc: Global) {
    let lent = T::borrowed(LETTERS);
    equals(rt, &lent.capacity(), &26);
    reads(rt, must(rt, lent.into_borrowed()), LETTERS);
    let copied = must(rt, T::from_str(alloc, LETTERS));
    is(
        rt,
        must_refuse(rt, copied.into_borrowed()),
        LETTERS,
        Kind::Allocated,
    );
}

/// The values of two keys in a hash map that has 7 under `key`. It knows nothing of a key but its bounds.
fn ages_of<K: Hash + Eq + Drop>(
    alloc: Global,
    key: K,
    sought: (&K, &K),
) -> Result<(Option<i32>, Option<i32>), AllocError> {
    let mut ages = HashMap::new(alloc);
    ages.insert(key, 7)?;
    Ok((ages.get(sought.0).copied(), ages.get(sought.1).copied()))
}

fn keys<T: Text>(rt: &impl Abort, alloc: Global) {
    let key = must(rt, T::from_str(alloc, "é"));
    let (same, other) = (T::borrowed("é"), T::borrowed("e"));
    let ages = must(rt, ages_of(alloc, key, (&same, &other)));
    equals(rt, &ages, &(Some(7), None));
}

fn cuts<T: Text>(rt: &impl Abort, alloc: Global) {
    let long = must(rt, T::from_str(alloc, LETTERS));
    is(rt, must(rt, long.clone(alloc)), LETTERS, Kind::Allocated);
    is(rt, must(rt, long.slice(alloc, 6..9)), "ghi", Kind::Inline);
}

fn cows<T: Text>(rt: &impl Abort, alloc: Global) {
    let lent = must(rt, T::from_cow(alloc, CowStr::Borrowed(LETTERS)));
    is(rt, lent, LETTERS, Kind::Borrowed);
    let string = must(rt, String::from_str(alloc, LETTERS));
    let owned = must(rt, T::from_cow(alloc, CowStr::Owned(string)));
    is(rt, owned, LETTERS, Kind::Allocated);
}

fn strings<T: Text>(rt: &impl Abort, alloc: Global) {
    for text in [STARS, "abc"] {
        let made = must(rt, T::from_str(alloc, text));
        let string = must(rt, made.into_string_copied(alloc));
        reads(rt, string.as_str(), text);
    }
    let kept = must_refuse(rt, T::borrowed("abc").into_string(alloc));
    is(rt, kept, "abc", Kind::Borrowed);
}

fn pushes<T: Text>(rt: &impl Abort, alloc: Global) {
    let mut text = must(rt, T::from_str(alloc, "caf"));
    must(rt, text.push(alloc, 'é'));
    holds(rt, &text, "café", Kind::Inline);
    must(rt, text.push_str(alloc, LETTERS));
    equals(rt, &(text.len(), text.kind()), &(31, Kind::Allocated));
    must(rt, text.truncate(5));
    equals(rt, &(text.pop(), text.pop()), &(Some('é'), Some('f')));
    holds(rt, &text, "ca", Kind::Inline);
}

fn cases<T: Text>(rt: &impl Abort, alloc: Global) {
    let text = T::borrowed("Straße à la CARTE");
    let upper = must(rt, text.to_ascii_uppercase(alloc));
    is(rt, upper, "STRAßE à LA CARTE", Kind::Inline);
    let lower = must(rt, text.to_ascii_lowercase(alloc));
    is(rt, lower, "straße à la carte", Kind::Inline);
}

fn guards<T: Text>(rt: &impl Abort, alloc: Global) {
    let mut text = must(rt, T::from_str(alloc, "Hello, World!"));
    let lent = must(rt, text.mutate_push_str(alloc, "é"));
    reads(rt, lent.as_str(), "Hello, World!é");
    holds(rt, &text, "Hello, World!é", Kind::Inline);
    must(rt, text.mutate_push_str_drop(alloc, "!"));
    is(rt, text, "", Kind::Inline);
}

struct TextMakers;

impl Suite for TextMakers {
    fn run<T: Text>(rt: &impl Abort, alloc: Global) {
        makers::<T>(rt, alloc);
        rooms::<T>(rt, alloc);
        borrows::<T>(rt, alloc);
        keys::<T>(rt, alloc);
        cuts::<T>(rt, alloc);
        cows::<T>(rt, alloc);
        strings::<T>(rt, alloc);
        pushes::<T>(rt, alloc);
        cases::<T>(rt, alloc);
        guards::<T>(rt, alloc);
    }
}

#[test]
fn texts_lie_by_their_length(rt: HostRuntime) {
    run_on_each::<TextMakers>(&rt, rt.alloc());
}
