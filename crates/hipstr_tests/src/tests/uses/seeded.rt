//! Maps whose hashers are seeded: texts get the same numbers, and names the same values, by each of three seeds.
use super::super::support::{must, must_hold};
use hip_uses::intern::Interner;
use hip_uses::packed::Packed;
use hip_uses::template::{Values, fill, parse};
use hipstr::Rc;
use hipstr::string::HipStr;
use std::alloc::{AllocError, Global};
use std::hash::{BuildHasher, RandomState};
use std::io;
use std::io::ErrorKind;
use std::random::RandomSource;

/// A source that gives one byte again and again, or fails.
#[derive(Drop)]
struct Given(Option<u8>);

impl RandomSource for Given {
    fn fill_bytes(&self, buf: &mut [u8]) -> io::Result<()> {
        let Some(given) = self.0 else {
            return Err(io::Error::from(ErrorKind::Unsupported));
        };
        for byte in buf.iter_mut() {
            *byte = given;
        }
        Ok(())
    }
}

const SEEDS: [u8; 3] = [0, 7, 255];

const TEXT: &str =
    "one fish, two fish; red fish, a-word-of-more-than-23-bytes one, characters, internationalization, characters";

const NUMBERS: [u32; 17] = [0, 1, 2, 1, 3, 1, 4, 5, 6, 7, 8, 9, 10, 0, 11, 12, 11];

/// The numbers of the words of a text.
fn numbers<S: BuildHasher + Drop>(alloc: Global, hash_builder: S) -> Option<Vec<u32>> {
    let mut interner = Interner::<Rc, S>::with_hasher(alloc, hash_builder);
    interner.intern_words(alloc, &HipStr::borrowed(TEXT)).ok()
}

/// Whether the words of the text have their numbers.
fn is_numbered<S: BuildHasher + Drop>(alloc: Global, hash_builder: S) -> bool {
    numbers(alloc, hash_builder).is_some_and(|found| found.as_slice() == NUMBERS.as_slice())
}

/// A template that is filled by two values.
fn filled<S: BuildHasher + Drop>(alloc: Global, hash_builder: S) -> Result<bool, AllocError> {
    let mut values = Values::<Rc, S>::with_hasher(alloc, hash_builder);
    for (name, value) in [("name", "Ada"), ("town", "London")] {
        values.set(HipStr::from_static(name), HipStr::from_static(value))?;
    }
    let Ok(template) = parse(alloc, &HipStr::borrowed("{{name}} of {{town}}, {{name}}")) else {
        return Ok(false);
    };
    Ok(fill(alloc, &template, &values).is_ok_and(|text| text.str_eq("Ada of London, Ada")))
}

#[test]
fn any_seed_gives_the_same_numbers(rt: HostRuntime) {
    let alloc = rt.alloc();
    for seed in SEEDS {
        let state = must(&rt, RandomState::new(&Given(Some(seed))));
        must_hold(&rt, &("plain", seed), is_numbered(alloc, state));
        let packed = Packed {
            hash_builder: state,
        };
        must_hold(&rt, &("packed", seed), is_numbered(alloc, packed));
        must_hold(&rt, &("filled", seed), filled(alloc, state) == Ok(true));
    }
}

#[test]
fn a_source_that_fails_gives_no_seed(rt: HostRuntime) {
    assert!(rt; RandomState::new(&Given(None)).is_err());
}
