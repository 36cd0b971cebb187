//! Owners that share their bytes.
ghost use Rattle.std.specs.Prelude.{true, vec_capacity, refl};

use crate::appended::{Appended, append_to};
use crate::backend::Backend;
use crate::block::{Block, Left};
use crate::extent::Span;
use crate::meter::Meter;
use std::alloc::{AllocError, Global};
use std::marker::Model;
use std::{mem, rc};

/// An owner that many handles share: the standard `Rc` over a vector.
#[derive(Drop)]
pub struct Rc {
    vec: rc::Rc<Vec<u8>>,
}

impl Model for Rc {
    ghost use Rattle.std.specs.Prelude.{vec_capacity};
    ghost use Rattle.hip_raw.specs.Held.{Held};

    ghost Value = { Held };

    ghost view = { λ owner. record {
      items = owner.vec.value.items;
      capacity = vec_capacity owner.vec.value;
    } };
}

impl Backend for Rc {
    ghost items = { λ owner. owner.items };

    ghost capacity = { λ owner. owner.capacity };

    ghost SHARES = { true };

    const SHARES: bool = true;

    type Sole = Vec<u8>;

    type Extent = Span;

    ghost with_sole = { λ owner sole. record { items = sole.items; capacity = vec_capacity sole } };

    #[inline]
    fn own(alloc: Global, vec: Vec<u8>, _meter: &mut Meter) -> Result<Self, Vec<u8>> {
        match rc::Rc::new(alloc, vec) {
            Ok(vec) => Ok(Rc { vec }),
            Err(failed) => Err(failed.value),
        }
    }

    #[inline]
    fn try_into_vec(self, alloc: Global, meter: &mut Meter) -> Result<Vec<u8>, Self> {
        let (vec, _block) = self.try_take_vec(alloc, meter)?;
        Ok(vec)
    }

    #[inline]
    fn as_slice(&self) -> &[u8] {
        self.vec.as_slice()
    }

    #[inline]
    fn capacity(&self) -> usize {
        self.vec.capacity()
    }

    #[inline]
    fn part(
        &self,
        _alloc: Global,
        start: usize,
        _len: usize,
        _meter: &mut Meter,
    ) -> Result<(Self, usize), AllocError> {
        let vec = self.vec.clone()?;
        Ok((Rc { vec }, start))
    }

    #[inline]
    fn writable(&mut self) -> Option<&mut Vec<u8>> {
        rc::Rc::get_mut(&mut self.vec)
    }

    #[inline(always)]
    fn append(
        &mut self,
        _alloc: Global,
        keep: usize,
        addition: &[u8],
        meter: &mut Meter,
    ) -> Appended {
        match rc::Rc::get_mut(&mut self.vec) {
            Some(vec) => append_to(vec, keep, addition, meter),
            None => Appended::Shared,
        }
    }

    #[inline]
    fn own_in(
        alloc: Global,
        block: Block,
        vec: Vec<u8>,
        meter: &mut Meter,
    ) -> Result<Self, Vec<u8>> {
        let Block { left } = block;
        let Left::Shared(mut place) = left else {
            return Self::own(alloc, vec, meter);
        };
        match rc::Rc::get_mut(&mut place) {
            Some(empty) => {
                *empty = vec;
                Ok(Rc { vec: place })
            }
            None => Self::own(alloc, vec, meter),
        }
    }

    #[inline]
    fn try_take_vec(self, alloc: Global, _meter: &mut Meter) -> Result<(Vec<u8>, Block), Self> {
        let Rc { mut vec } = self;
        match rc::Rc::get_mut(&mut vec) {
            Some(place) => {
                let taken = mem::replace(place, Vec::new(alloc));
                Ok((
                    taken,
                    Block {
                        left: Left::Shared(vec),
                    },
                ))
            }
            None => Err(Rc { vec }),
        }
    }

    ghost sole_items = { λ owner sole. refl };

    ghost extents = { λ start len total whole. tt };

    ghost sole_capacity = { λ owner sole. refl };
}
