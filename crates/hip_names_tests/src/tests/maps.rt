//! Keys of maps and sets: paths by their components, OS strings by their bytes.
use super::name::Name;
use super::support::{equals, must};
use std::alloc::{AllocError, Global};
use std::collections::{BTreeMap, HashMap, HashSet};
use std::hash::Hash;
use std::process::Abort;

/// The value of `sought` in a hash map that has 7 under `key`.
fn found<K: Hash + Eq + Drop>(
    alloc: Global,
    key: K,
    sought: &K,
) -> Result<Option<i32>, AllocError> {
    let mut ages = HashMap::new(alloc);
    ages.insert(key, 7)?;
    Ok(ages.get(sought).copied())
}

/// The value of `sought` in an ordered map that has 7 under `key`.
fn found_in_order<K: Ord + Drop>(
    alloc: Global,
    key: K,
    sought: &K,
) -> Result<Option<i32>, AllocError> {
    let mut ages = BTreeMap::new(alloc);
    ages.insert(key, 7)?;
    Ok(ages.get(sought).copied())
}

/// Whether a set of two keys has `sought`.
fn is_in_set<K: Hash + Eq + Drop>(
    alloc: Global,
    first: K,
    second: K,
    sought: &K,
) -> Result<bool, AllocError> {
    let mut set = HashSet::new(alloc);
    set.insert(first)?;
    set.insert(second)?;
    Ok(set.contains(sought))
}

/// Asserts whether `sought` is found in a hash map and an ordered one that have another key, and in a set that has two.
fn is_told<K: Hash + Ord + Drop>(
    rt: &impl Abort,
    alloc: Global,
    keys: (K, K),
    pair: (K, K),
    sought: &K,
    is_found: bool,
) {
    let age = is_found.then_some(7);
    equals(rt, &must(rt, found(alloc, keys.0, sought)), &age);
    equals(rt, &must(rt, found_in_order(alloc, keys.1, sought)), &age);
    equals(
        rt,
        &must(rt, is_in_set(alloc, pair.0, pair.1, sought)),
        &is_found,
    );
}

/// A key, one that is sought, and whether it is found: as paths, and as OS strings.
const SOUGHT: &[(&str, &str, bool, bool)] = &[
    ("a/./b", "a//b", true, false),
    ("a/./b", "a/./b", true, true),
    ("a/./b", "a/b/", true, false),
    ("a/./b", "./a/b", false, false),
    ("a/./b", "/a/b", false, false),
    ("a", "a", true, true),
    ("a", "c", false, false),
];

fn copied<N: Name>(rt: &impl Abort, alloc: Global, text: &str) -> N {
    must(rt, N::from_str(alloc, text))
}

/// Asserts which keys are found.
pub(crate) fn of_either<N: Name>(rt: &impl Abort, alloc: Global) {
    for (key, name, as_path, as_bytes) in SOUGHT {
        let keys = (N::from_static(key), copied::<N>(rt, alloc, key));
        let pair = (copied::<N>(rt, alloc, key), copied::<N>(rt, alloc, "b"));
        let sought = N::from_static(name);
        let is_found = if N::IS_PATH { *as_path } else { *as_bytes };
        is_told(rt, alloc, keys, pair, &sought, is_found);
    }
}
