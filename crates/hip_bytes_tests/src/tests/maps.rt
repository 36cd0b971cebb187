//! Look-ups in maps, by keys that are byte strings.
//!
//! The contracts of a byte string's hash and order are long, and each function that calls a map of byte strings costs half a minute of
//! proof. So the calls of maps stand in functions that are generic in the key, and know nothing of it but its bounds.
use std::alloc::Global;
use std::collections::{BTreeMap, HashMap};
use std::hash::Hash;

/// The values of `same` and of `other` in a hash map that has 7 under `key`; `None` where memory was refused.
pub(crate) fn found<K: Hash + Eq + Drop>(
    alloc: Global,
    key: K,
    same: &K,
    other: &K,
) -> Option<(Option<i32>, Option<i32>)> {
    let mut ages = HashMap::new(alloc);
    ages.insert(key, 7).ok()?;
    Some((ages.get(same).copied(), ages.get(other).copied()))
}

/// The value of `sought` in an ordered map that has 7 under `key`; `None` where there is none, or memory was refused.
pub(crate) fn found_in_order<K: Ord + Drop>(alloc: Global, key: K, sought: &K) -> Option<i32> {
    let mut ages = BTreeMap::new(alloc);
    ages.insert(key, 7).ok()?;
    ages.get(sought).copied()
}
