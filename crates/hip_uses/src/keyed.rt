//! Maps by any key and any hasher. A function that is generic in the key is proved in seconds, where each that calls a map whose keys are handles takes
//! half a minute.
ghost use Rattle.std.specs.Prelude.{◌≡◌, OnErr, OnOk, None, Some, option_copied};
ghost use Rattle.std.specs.HashMap.{IsUnchanged, Updates, get};

use std::alloc::AllocError;
use std::collections::HashMap;
use std::hash::{BuildHasher, Hash};

/// The value under a key, if there is one.
pub(crate) fn found<'m, K: Hash + Eq, V, S: BuildHasher>(
    map: &'m HashMap<K, V, S>,
    key: &K,
) -> Option<&'m V>
    ensures { option_copied result ≡ get K.eq map.now key.now }
{
    map.get(key)
}

/// Puts a value under a key. Only a new key may allocate.
pub(crate) fn put<K: Hash + Eq + Drop, V: Drop, S: BuildHasher>(
    map: &mut HashMap<K, V, S>,
    key: K,
    value: V,
) -> Result<(), AllocError>
    ensures updated { OnOk result (Updates K.eq map.old map.new key (Some value)) }
    ensures refused { OnErr result (IsUnchanged map.old map.new) }
    ensures absent { OnErr result (get K.eq map.old key ≡ None) }
{
    match map.insert(key, value) {
        Ok(_) => Ok(()),
        Err(_) => Err(AllocError),
    }
}
