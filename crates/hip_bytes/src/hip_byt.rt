ghost use Rattle.std.specs.Prelude.{◌≡◌};
ghost use Rattle.hip_bytes.specs.declared.kind.TheConstants.{INLINE_CAPACITY};

use crate::kind::{INLINE_CAPACITY, Kind};
use hip_raw::{Allocated, Backend, Borrowed, Inline};
use std::marker::Model;

mod borsh;
mod build;
mod compare;
mod convert;
mod cuts;
mod extend;
mod growth;
mod join;
mod json;
mod make;
mod mutate;
mod views;
mod write;
mod written;

/// Where the bytes of a handle lie.
#[derive(Drop)]
enum Repr<'b, B: Backend> {
    Inline(Inline<INLINE_CAPACITY, u8>),
    Borrowed(Borrowed<'b>),
    Allocated(Allocated<B>),
}

/// A [`Repr`] in a struct, from which a `&mut` can be lent.
#[derive(Drop)]
struct Bare<'b, B: Backend> {
    repr: Repr<'b, B>,
}

/// A string of bytes that is cheap to clone and to cut.
///
/// Up to [`INLINE_CAPACITY`] bytes lie in the handle itself, a borrowed value lends its bytes, and longer ones lie with an owner,
/// which on [`Rc`](hip_raw::Rc) many handles share.
pub struct HipByt<'b, B: Backend> {
    bare: Bare<'b, B>,
}

// Written out, so that a proof of a caller sees a call, and not what lies in the handle.
impl<'b, B: Backend> Drop for HipByt<'b, B> {
    #[inline]
    fn drop(self) {
        let HipByt { bare: _ } = self;
    }
}

impl<'b, B: Backend> Model for HipByt<'b, B> {
    ghost use Rattle.hip_bytes.specs.Handle.{Handle};

    ghost Value = { Handle };

    ghost use Rattle.hip_bytes.specs.Repr.{handle_of};

    ghost view = { λ h. handle_of h.bare.repr };
}

impl<'b, B: Backend> HipByt<'b, B> {
    ghost use Rattle.std.specs.Prelude.{◌≡◌};
    ghost use Rattle.hip_bytes.specs.Repr.{handle_of};

    #[inline]
    fn of(repr: Repr<'b, B>) -> Self
        ensures { result ≡ handle_of repr.entry }
    {
        HipByt {
            bare: Bare { repr },
        }
    }

    #[inline]
    fn into_repr(self) -> Repr<'b, B>
        ensures { handle_of result ≡ self.entry }
    {
        let HipByt { bare } = self;
        bare.repr
    }

    #[inline]
    pub(crate) fn from_inline(inline: Inline<INLINE_CAPACITY, u8>) -> Self
        ensures items { result.items ≡ inline }
        ensures kind { result.kind ≡ Kind.Inline }
        ensures capacity { result.capacity ≡ INLINE_CAPACITY }
    {
        HipByt::of(Repr::Inline(inline))
    }
}
