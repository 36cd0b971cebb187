//! Owners with one handle each.
ghost use Rattle.std.specs.Prelude.{false, refl};

use crate::appended::Appended;
use crate::backend::Backend;
use crate::block::{Block, Left};
use crate::buffer::Buffer;
use crate::extent::Whole;
use crate::meter::{Meter, copy_with_capacity};
use std::alloc::{AllocError, Global};
use std::marker::Model;

/// An owner with one handle, which is always written in place: a buffer of its own.
#[derive(Drop)]
pub struct Unique {
    buffer: Buffer,
}

impl Model for Unique {
    ghost use Rattle.hip_raw.specs.Held.{Held};

    ghost Value = { Held };

    ghost view = { λ owner. owner.buffer };
}

impl Backend for Unique {
    ghost items = { λ owner. owner.items };

    ghost capacity = { λ owner. owner.capacity };

    ghost SHARES = { false };

    const SHARES: bool = false;

    type Sole = Buffer;

    type Extent = Whole;

    ghost with_sole = { λ owner sole. sole };

    #[inline]
    fn own(alloc: Global, vec: Vec<u8>, meter: &mut Meter) -> Result<Self, Vec<u8>> {
        match Buffer::with_capacity(alloc, vec.capacity()) {
            Ok(mut buffer) => {
                buffer.put(0, vec.as_slice(), meter);
                Ok(Unique { buffer })
            }
            Err(AllocError) => Err(vec),
        }
    }

    #[inline]
    fn try_into_vec(self, alloc: Global, meter: &mut Meter) -> Result<Vec<u8>, Self> {
        let capacity = self.buffer.capacity();
        match copy_with_capacity(alloc, self.buffer.as_slice(), capacity, meter) {
            Ok(vec) => Ok(vec),
            Err(AllocError) => Err(self),
        }
    }

    #[inline]
    fn as_slice(&self) -> &[u8] {
        self.buffer.as_slice()
    }

    #[inline]
    fn capacity(&self) -> usize {
        self.buffer.capacity()
    }

    #[inline]
    fn part(
        &self,
        alloc: Global,
        start: usize,
        len: usize,
        meter: &mut Meter,
    ) -> Result<(Self, usize), AllocError> {
        let mut buffer = Buffer::with_capacity(alloc, len)?;
        buffer.put(0, &self.buffer.as_slice()[start..start + len], meter);
        Ok((Unique { buffer }, 0))
    }

    #[inline]
    fn writable(&mut self) -> Option<&mut Buffer> {
        // The call tells the proof the buffer's bound.
        let _small = self.buffer.capacity();
        Some(&mut self.buffer)
    }

    #[inline(always)]
    fn append(
        &mut self,
        alloc: Global,
        keep: usize,
        addition: &[u8],
        meter: &mut Meter,
    ) -> Appended {
        self.buffer.append(alloc, keep, addition, meter)
    }

    #[inline]
    fn copy_of(
        alloc: Global,
        bytes: &[u8],
        room: usize,
        meter: &mut Meter,
    ) -> Result<Self, AllocError> {
        let mut buffer = Buffer::with_capacity(alloc, room)?;
        buffer.put(0, bytes, meter);
        Ok(Unique { buffer })
    }

    #[inline]
    fn zeroed(alloc: Global, len: usize, _meter: &mut Meter) -> Result<Self, AllocError> {
        Ok(Unique {
            buffer: Buffer::zeroed(alloc, len)?,
        })
    }

    #[inline]
    fn own_in(
        alloc: Global,
        block: Block,
        vec: Vec<u8>,
        meter: &mut Meter,
    ) -> Result<Self, Vec<u8>> {
        let Block { left } = block;
        let Left::Sole(mut emptied) = left else {
            return Self::own(alloc, vec, meter);
        };
        if emptied.capacity() < vec.capacity() {
            return Self::own(alloc, vec, meter);
        }
        emptied.rewrite(vec.as_slice(), meter);
        Ok(Unique { buffer: emptied })
    }

    #[inline]
    fn try_take_vec(self, alloc: Global, meter: &mut Meter) -> Result<(Vec<u8>, Block), Self> {
        let capacity = self.buffer.capacity();
        match copy_with_capacity(alloc, self.buffer.as_slice(), capacity, meter) {
            Ok(vec) => {
                let Unique { buffer } = self;
                Ok((
                    vec,
                    Block {
                        left: Left::Sole(buffer),
                    },
                ))
            }
            Err(AllocError) => Err(self),
        }
    }

    ghost sole_items = { λ owner sole. refl };

    ghost extents = { λ start len total whole. whole refl };

    ghost sole_capacity = { λ owner sole. refl };
}
