ghost use Rattle.std.specs.Prelude.{◌≡◌};

use crate::hip_os_str::HipOsStr;
use hip_bytes::Backend;
use std::marker::Model;

mod compare;
mod convert;
mod display;
mod join;
mod json;
mod make;
mod mutate;
mod parts;
mod views;

pub use display::Display;

/// A path that is cheap to clone: a [`HipOsStr`] that is compared by its components.
pub struct HipPath<'b, B: Backend> {
    name: HipOsStr<'b, B>,
}

impl<'b, B: Backend> Drop for HipPath<'b, B> {
    #[inline]
    fn drop(self) {
        let HipPath { name: _ } = self;
    }
}

impl<'b, B: Backend> Model for HipPath<'b, B> {
    ghost use Rattle.hip_bytes.specs.Handle.{Handle};

    ghost Value = { Handle };

    ghost view = { λ path. path.name };
}
