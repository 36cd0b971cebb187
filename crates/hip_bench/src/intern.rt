//! Interning: each word of a text becomes a key of a map. The input has words with one space between.
use crate::pieces::owned;
use crate::ring::mix;
use hipstr::Rc;
use hipstr::string::{HipStr, IterWrapper, TextCuts, Unnumbered};
use std::alloc::Global;
use std::collections::{BTreeMap, HashMap};
use std::hash::Hash;

// The contracts of a text's hash and order are long, and costly to prove with. So a map is called where nothing is known of its keys but
// their bounds.

/// A map from words to their numbers, which are given out from zero.
trait Numbers<K: Drop>: Drop {
    /// The number under which a word stands in the map, where it is put if it isn't there.
    fn number(&mut self, word: K) -> Option<u64>;

    /// The number of words.
    fn count(&self) -> u64;
}

#[derive(Drop)]
struct ByHash<K: Hash + Eq> {
    numbers: HashMap<K, u64>,
}

impl<K: Hash + Eq + Drop> Numbers<K> for ByHash<K> {
    #[inline]
    fn number(&mut self, word: K) -> Option<u64> {
        if let Some(number) = self.numbers.get(&word) {
            return Some(*number);
        }
        let next = self.count();
        self.numbers.insert(word, next).ok()?;
        Some(next)
    }

    #[inline]
    fn count(&self) -> u64 {
        self.numbers.len() as u64
    }
}

#[derive(Drop)]
struct ByOrder<K: Ord> {
    numbers: BTreeMap<K, u64>,
}

impl<K: Ord + Drop> Numbers<K> for ByOrder<K> {
    #[inline]
    fn number(&mut self, word: K) -> Option<u64> {
        if let Some(number) = self.numbers.get(&word) {
            return Some(*number);
        }
        let next = self.count();
        self.numbers.insert(word, next).ok()?;
        Some(next)
    }

    #[inline]
    fn count(&self) -> u64 {
        self.numbers.len() as u64
    }
}

/// Numbers the words of a walk by a map that is empty: the sum of all words' numbers, and how many different words there are.
#[inline]
fn numbered<'h, 'b, I: Unnumbered + Drop, N: Numbers<HipStr<'b, Rc>>>(
    words: IterWrapper<'h, 'b, Rc, I>,
    mut numbers: N,
) -> Option<(u64, u64)> {
    let mut sum = 0u64;
    for word in words {
        sum = sum.wrapping_add(numbers.number(word.ok()?)?);
    }
    Some((sum, numbers.count()))
}

/// Each round numbers the words by a hash map.
fn hashed_rounds(alloc: Global, input: &[u8], rounds: u64) -> Option<u64> {
    let text = owned(alloc, input)?;
    let mut total = 0;
    for _ in 0..rounds {
        let numbers = ByHash {
            numbers: HashMap::new(alloc),
        };
        let (sum, len) = numbered(text.split(alloc, ' '), numbers)?;
        total = mix(mix(total, sum), len);
    }
    Some(total)
}

/// Each round numbers the words by an ordered map.
fn sorted_rounds(alloc: Global, input: &[u8], rounds: u64) -> Option<u64> {
    let text = owned(alloc, input)?;
    let mut total = 0;
    for _ in 0..rounds {
        let numbers = ByOrder {
            numbers: BTreeMap::new(alloc),
        };
        let (sum, len) = numbered(text.split(alloc, ' '), numbers)?;
        total = mix(mix(total, sum), len);
    }
    Some(total)
}

#[unsafe(no_mangle)]
pub extern "C" fn hip_intern_hash(alloc: Global, input: &[u8], rounds: u64) -> u64 {
    hashed_rounds(alloc, input, rounds).unwrap_or(0)
}

#[unsafe(no_mangle)]
pub extern "C" fn hip_intern_btree(alloc: Global, input: &[u8], rounds: u64) -> u64 {
    sorted_rounds(alloc, input, rounds).unwrap_or(0)
}
