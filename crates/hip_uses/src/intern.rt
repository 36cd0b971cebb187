//! Texts that have numbers: each different text is kept once, and the first has number 0.
//!
//! - [`words`]: the numbers of the words of a text.
ghost use Rattle.std.specs.Prelude.{◌≡◌, ◌==◌, ◌≤◌, [], length, slice_get, Some, IfSome, MatchOption, map};
ghost use Rattle.hip_uses.specs.Number.{number_of, text_bytes};

pub use crate::fault::InternFault;
use crate::keyed::found;
use hipstr::Backend;
use hipstr::string::HipStr;
use std::alloc::Global;
use std::collections::HashMap;
use std::hash::{BuildHasher, BuildHasherDefault, FoldHasher};
use std::marker::Model;

mod adding;
pub mod words;

/// The different texts, in the order in which they came.
///
/// `S` makes the hashers of the texts. The default has a fixed seed; for texts from outside see [`Interner::with_hasher`].
#[derive(Drop)]
pub struct Interner<'b, B: Backend, S: BuildHasher = BuildHasherDefault<FoldHasher>> {
    numbers: HashMap<HipStr<'b, B>, u32, S>,
    texts: Vec<HipStr<'b, B>>,
}

impl<'b, B: Backend, S: BuildHasher> Model for Interner<'b, B, S> {
    ghost use Rattle.std.specs.Prelude.{◌≡◌, ℕ, List, map};
    ghost use Rattle.std.specs.HashMap.{get};
    ghost use Rattle.hipstr.specs.Handle.{Handle};
    ghost use Rattle.hip_uses.specs.Number.{text_bytes, number_of, same_text, StandOnce};

    ghost Value = { List (List ℕ) };

    ghost view = { λ interner. map text_bytes interner.texts.items };

    ghost invariant = { λ interner. StandOnce (map text_bytes interner.texts.items)
        × ((key : Handle) → get same_text interner.numbers key
        ≡ number_of key.items (map text_bytes interner.texts.items)) };
}

impl<'b, B: Backend> Interner<'b, B> {
    /// No texts yet, for texts that no other party chose.
    pub fn new(alloc: Global) -> Self
        ensures { result ≡ [] }
    {
        Interner::with_hasher(alloc, BuildHasherDefault::new())
    }
}

impl<'b, B: Backend, S: BuildHasher> Interner<'b, B, S> {
    /// No texts yet. With a `RandomState` of std, whose seed is drawn, no party outside can choose texts that share a hash.
    pub fn with_hasher(alloc: Global, hash_builder: S) -> Self
        ensures { result ≡ [] }
    {
        Interner {
            numbers: HashMap::with_hasher(alloc, hash_builder),
            texts: Vec::new(alloc),
        }
    }

    /// The number of different texts.
    pub fn len(&self) -> usize
        ensures { result ≡ length self.now }
    {
        self.texts.len()
    }

    pub fn is_empty(&self) -> bool
        ensures { result ≡ (length self.now == 0) }
    {
        self.texts.is_empty()
    }

    /// The number of a text, if it has one.
    pub fn find(&self, text: &HipStr<'b, B>) -> Option<u32>
        ensures { result ≡ number_of text.now.items self.now }
    {
        found(&self.numbers, text).copied()
    }

    /// Like `find`, but for a text that has no handle.
    pub(crate) fn number_of(&self, text: &str) -> Option<u32>
        ensures { result ≡ number_of text.now self.now }
    {
        found(&self.numbers, &HipStr::borrowed(text)).copied()
    }

    /// The texts, in the order of their numbers.
    pub fn texts(&self) -> &[HipStr<'b, B>]
        ensures { map text_bytes result.now ≡ self.now }
    {
        self.texts.as_slice()
    }

    /// The text of a number, if there is one.
    pub fn text(&self, number: u32) -> Option<&HipStr<'b, B>>
        ensures text { MatchOption result (length self.now ≤ number)
            (λ text. slice_get self.now number ≡ Some text.now.items) }
        ensures number { IfSome result (λ text.
            number_of text.now.items self.now ≡ Some number) }
    {
        self.texts.get(number as usize)
    }
}
