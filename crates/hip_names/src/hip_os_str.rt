ghost use Rattle.std.specs.Prelude.{◌≡◌};

use hip_bytes::{Backend, HipByt};
use std::marker::Model;

mod compare;
mod convert;
mod cuts;
mod json;
mod make;
mod mutate;
mod views;

/// An OS string that is cheap to clone: a [`HipByt`] of any bytes.
pub struct HipOsStr<'b, B: Backend> {
    bytes: HipByt<'b, B>,
}

impl<'b, B: Backend> Drop for HipOsStr<'b, B> {
    #[inline]
    fn drop(self) {
        let HipOsStr { bytes: _ } = self;
    }
}

impl<'b, B: Backend> Model for HipOsStr<'b, B> {
    ghost use Rattle.hip_bytes.specs.Handle.{Handle};

    ghost Value = { Handle };

    ghost view = { λ name. name.bytes };
}
