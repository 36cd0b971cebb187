//! A backend that a user wrote, with public names alone, under `hipstr::run`: owners that share by the standard `Rc`, and
//! leave no block.
ghost use Rattle.std.specs.Prelude.{true, vec_capacity, refl};

use super::runs::on;
use hipstr::{Appended, Backend, Meter, Span, fill_counted};
use std::alloc::{AllocError, Global};
use std::marker::Model;
use std::rc;

#[derive(Drop)]
struct Shared {
    vec: rc::Rc<Vec<u8>>,
}

impl Model for Shared {
    ghost use Rattle.std.specs.Prelude.{vec_capacity};
    ghost use Rattle.hipstr.specs.Held.{Held};

    ghost Value = { Held };

    ghost view = { λ owner. record {
      items = owner.vec.value.items;
      capacity = vec_capacity owner.vec.value;
    } };
}

impl Backend for Shared {
    ghost items = { λ owner. owner.items };

    ghost capacity = { λ owner. owner.capacity };

    ghost SHARES = { true };

    const SHARES: bool = true;

    type Sole = Vec<u8>;

    type Extent = Span;

    ghost with_sole = { λ owner sole. record { items = sole.items; capacity = vec_capacity sole } };

    fn part(
        &self,
        _alloc: Global,
        start: usize,
        _len: usize,
        _meter: &mut Meter,
    ) -> Result<(Self, usize), AllocError> {
        let vec = self.vec.clone()?;
        Ok((Shared { vec }, start))
    }

    fn own(alloc: Global, vec: Vec<u8>, _meter: &mut Meter) -> Result<Self, Vec<u8>> {
        match rc::Rc::new(alloc, vec) {
            Ok(vec) => Ok(Shared { vec }),
            Err(failed) => Err(failed.value),
        }
    }

    fn as_slice(&self) -> &[u8] {
        self.vec.as_slice()
    }

    fn capacity(&self) -> usize {
        self.vec.capacity()
    }

    fn writable(&mut self) -> Option<&mut Vec<u8>> {
        rc::Rc::get_mut(&mut self.vec)
    }

    fn append(
        &mut self,
        _alloc: Global,
        keep: usize,
        addition: &[u8],
        meter: &mut Meter,
    ) -> Appended {
        let Some(vec) = rc::Rc::get_mut(&mut self.vec) else {
            return Appended::Shared;
        };
        if vec.try_reserve(addition.len()).is_err() {
            return Appended::Memory;
        }
        vec.truncate(keep);
        vec.resize(keep + addition.len(), 0).unwrap();
        fill_counted(vec.slice_mut(keep..), addition, meter);
        Appended::Done
    }

    fn try_into_vec(self, _alloc: Global, _meter: &mut Meter) -> Result<Vec<u8>, Self> {
        let Shared { vec } = self;
        match rc::Rc::try_unwrap(vec) {
            Ok(vec) => Ok(vec),
            Err(vec) => Err(Shared { vec }),
        }
    }

    ghost sole_items = { λ owner sole. refl };

    ghost sole_capacity = { λ owner sole. refl };

    ghost extents = { λ start len total whole. tt };
}

#[test]
fn runs_on_an_own_backend(rt: HostRuntime) {
    on::<Shared>(&rt, rt.alloc());
}
