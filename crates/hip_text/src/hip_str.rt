ghost use Rattle.std.specs.Prelude.{◌≡◌, IsUtf8};

use hip_bytes::{Backend, HipByt};
use std::marker::Model;

mod build;
mod compare;
mod convert;
mod cuts;
mod decode;
mod extend;
mod formats;
mod growth;
mod make;
mod mutate;
mod utf16;
mod views;
mod write;
mod written;

/// A text that is cheap to clone and to cut: a [`HipByt`] that is UTF-8.
pub struct HipStr<'b, B: Backend> {
    bytes: HipByt<'b, B>,
}

impl<'b, B: Backend> Drop for HipStr<'b, B> {
    #[inline]
    fn drop(self) {
        let HipStr { bytes: _ } = self;
    }
}

impl<'b, B: Backend> Model for HipStr<'b, B> {
    ghost use Rattle.std.specs.Prelude.{◌≡◌, true};
    ghost use Rattle.std.specs.Str.{is_utf8};
    ghost use Rattle.hip_bytes.specs.Handle.{Handle};

    ghost Value = { Handle };

    ghost view = { λ text. text.bytes };

    ghost invariant = { λ text. is_utf8 text.bytes.items ≡ true };
}

impl<'b, B: Backend> HipStr<'b, B> {
    /// The text of these bytes, which are UTF-8. [`HipStr::from_utf8`] tests it.
    #[tactic(auto, using(crate::proofs::Texts::texts))]
    #[inline]
    pub fn from_utf8_unchecked(bytes: HipByt<'b, B>) -> Self
        requires { IsUtf8 bytes.items }
        ensures { result ≡ bytes.entry }
    {
        HipStr { bytes }
    }

    /// The bytes.
    #[tactic(auto, using(crate::proofs::Texts::texts))]
    #[inline]
    pub fn into_bytes(self) -> HipByt<'b, B>
        ensures bytes { result ≡ self.entry }
        ensures utf8 { IsUtf8 result.items }
    {
        let HipStr { bytes } = self;
        bytes
    }
}
