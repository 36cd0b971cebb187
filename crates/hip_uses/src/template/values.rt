//! The values of the names of a template's holes.
ghost use Rattle.std.specs.Prelude.{◌≡◌, ℕ, List, [], MatchOption, OnErr, OnOk, None, Some};
ghost use Rattle.hip_uses.specs.Template.{value_of, value_with};

use crate::keyed::{found, put};
use hipstr::Backend;
use hipstr::string::HipStr;
use std::alloc::{AllocError, Global};
use std::collections::HashMap;
use std::hash::{BuildHasher, BuildHasherDefault, FoldHasher};
use std::marker::Model;

/// The value of each name.
///
/// `S` makes the hashers of the names. The default has a fixed seed; for names from outside see [`Values::with_hasher`].
#[derive(Drop)]
pub struct Values<'b, B: Backend, S: BuildHasher = BuildHasherDefault<FoldHasher>> {
    values: HashMap<HipStr<'b, B>, HipStr<'b, B>, S>,
}

impl<'b, B: Backend, S: BuildHasher> Model for Values<'b, B, S> {
    ghost use Rattle.std.specs.Prelude.{List};
    ghost use Rattle.hipstr.specs.Handle.{Handle};

    ghost Value = { List (Handle × Handle) };

    ghost view = { λ values. values.values.entries };
}

impl<'b, B: Backend> Values<'b, B> {
    /// No values yet, for names that no other party chose.
    pub fn new(alloc: Global) -> Self
        ensures { result ≡ [] }
    {
        Values::with_hasher(alloc, BuildHasherDefault::new())
    }
}

impl<'b, B: Backend, S: BuildHasher> Values<'b, B, S> {
    /// No values yet. With a `RandomState` of std, whose seed is drawn, no party outside can choose names that share a hash.
    pub fn with_hasher(alloc: Global, hash_builder: S) -> Self
        ensures { result ≡ [] }
    {
        Values {
            values: HashMap::with_hasher(alloc, hash_builder),
        }
    }

    /// Puts a value under a name, in place of the one that was there. Only a new name may allocate.
    pub fn set(&mut self, name: HipStr<'b, B>, value: HipStr<'b, B>) -> Result<(), AllocError>
        ensures set { OnOk result ((other : List ℕ) → value_of self.new other
            ≡ value_with self.old name.entry.items value.entry other) }
        ensures refused { OnErr result (self.new ≡ self.old) }
        ensures absent { OnErr result (value_of self.old name.entry.items ≡ None) }
    {
        put(&mut self.values, name, value)
    }

    /// The value of this name, if it has one.
    pub fn get(&self, name: &HipStr<'b, B>) -> Option<&HipStr<'b, B>>
        ensures { MatchOption result (value_of self.now name.now.items ≡ None)
            (λ value. value_of self.now name.now.items ≡ Some value.now) }
    {
        found(&self.values, name)
    }
}
