//! Writing through a vector.
ghost use Rattle.std.specs.Prelude.{◌≡◌, ◌<◌, length, IfOk};
ghost use Rattle.hip_raw.specs.Meter.{RisesAtMost};
ghost use Rattle.hip_bytes.specs.Cost.{taken_cost};
ghost use Rattle.hip_bytes.specs.Kinds.{HoldsByLength, IsEmptyInline};
ghost use Rattle.std.specs.Vec.{vec_items};
ghost use Rattle.hip_bytes.specs.Mutated.{MutateAnswers, MutateCosts, TakesItems};
ghost use Rattle.hip_bytes.specs.RefMut.{lender, lent_items, lent_source};
ghost use Rattle.hip_bytes.specs.declared.kind.TheConstants.{INLINE_CAPACITY};

use super::{HipByt, Repr};
use crate::kind::INLINE_CAPACITY;
use crate::mutate_fault::MutateFault;
use crate::ref_mut::{RefMut, Source, mutate_metered, with_mutated_metered};
use hip_raw::{Allocated, Backend, Block, Meter, copy_counted};
use std::alloc::{AllocError, Global};
use std::mem;

impl<'b, B: Backend> Source for HipByt<'b, B> {
    ghost use Rattle.hip_bytes.specs.declared.kind.TheConstants.{INLINE_CAPACITY};

    ghost items = { λ handle. handle.items };

    ghost is_emptied = { IsEmptyInline };

    ghost has_put = { HoldsByLength };

    ghost put_cost = { taken_cost B.SHARES };

    ghost put_needs_memory = { λ len. INLINE_CAPACITY < len };

    #[inline]
    fn lend_vec_metered(
        &mut self,
        alloc: Global,
        meter: &mut Meter,
    ) -> Result<(Vec<u8>, Block), AllocError> {
        match mem::take(self).into_repr() {
            Repr::Allocated(allocated) => match allocated.try_take_vec_metered(alloc, meter) {
                Ok(lent) => return Ok(lent),
                Err(allocated) => *self = HipByt::of(Repr::Allocated(allocated)),
            },
            repr => *self = HipByt::of(repr),
        }
        let vec = copy_counted(alloc, self.as_slice(), meter)?;
        *self = HipByt::new();
        Ok((vec, Block::none()))
    }

    #[inline]
    fn put_back_metered(
        &mut self,
        alloc: Global,
        block: Block,
        vec: Vec<u8>,
        meter: &mut Meter,
    ) -> Result<(), Vec<u8>> {
        *self = if vec.len() <= INLINE_CAPACITY {
            HipByt::inline_metered(vec.as_slice(), meter)
        } else {
            HipByt::of(Repr::Allocated(Allocated::new_in_metered(alloc, block, vec, meter)?))
        };
        Ok(())
    }
}

impl<'b, B: Backend> HipByt<'b, B> {
    /// Lends the bytes out in a vector, which [`RefMut::finish`] writes back. Until then the value is empty. Where the bytes begin the
    /// list of an owner that no other handle shares, neither call allocates anything of its own. A refused call changes nothing, as
    /// [`Source::lend_vec_metered`] says of its own. What a guard leaves is known in functions that are generic in the [`Source`].
    pub fn mutate(&mut self, alloc: Global) -> Result<RefMut<'_, Self>, AllocError>
        ensures same_reference { IfOk result (λ guard. lender guard ≡ self.entry.ghost_name) }
        ensures items { IfOk result (λ guard. lent_items guard ≡ self.old.items) }
        ensures emptied { IfOk result (λ guard. IsEmptyInline (lent_source guard)) }
    {
        self.mutate_metered(alloc, &mut Meter::new())
    }

    /// [`HipByt::mutate`], counted.
    pub fn mutate_metered(
        &mut self,
        alloc: Global,
        meter: &mut Meter,
    ) -> Result<RefMut<'_, Self>, AllocError>
        ensures same_reference { IfOk result (λ guard. lender guard ≡ self.entry.ghost_name) }
        ensures items { IfOk result (λ guard. lent_items guard ≡ self.old.items) }
        ensures emptied { IfOk result (λ guard. IsEmptyInline (lent_source guard)) }
        ensures counted { RisesAtMost meter.old meter.new (length self.old.items) }
    {
        mutate_metered(self, alloc, meter)
    }

    /// Calls `f` with the bytes in a vector, and makes the value that of the vector which `f` leaves. Where no vector could be lent `f`
    /// isn't called and the value is as it was; where the vector couldn't be put back the value is empty.
    pub fn with_mutated<R: Drop, F: FnOnce(&mut Vec<u8>) -> R + Drop>(
        &mut self,
        alloc: Global,
        f: F,
    ) -> Result<R, MutateFault<R>>
        requires { TakesItems vec_items F.FnOnce f self.old.items }
        ensures { MutateAnswers vec_items F.FnOnce f self.old.items self.old self.new
            HoldsByLength IsEmptyInline (λ len. INLINE_CAPACITY < len) result }
    {
        self.with_mutated_metered(alloc, f, &mut Meter::new())
    }

    /// [`HipByt::with_mutated`], counted. What `f` copies isn't.
    pub fn with_mutated_metered<R: Drop, F: FnOnce(&mut Vec<u8>) -> R + Drop>(
        &mut self,
        alloc: Global,
        f: F,
        meter: &mut Meter,
    ) -> Result<R, MutateFault<R>>
        requires { TakesItems vec_items F.FnOnce f self.old.items }
        ensures mutated { MutateAnswers vec_items F.FnOnce f self.old.items self.old self.new
            HoldsByLength IsEmptyInline (λ len. INLINE_CAPACITY < len) result }
        ensures counted { MutateCosts vec_items F.FnOnce f self.old.items meter.old meter.new
            (taken_cost B.SHARES) result }
    {
        with_mutated_metered(self, alloc, f, meter)
    }
}
