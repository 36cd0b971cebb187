//! Writing through a vector.
ghost use Rattle.std.specs.Prelude.{◌≡◌, ◌<◌, IfOk};
ghost use Rattle.std.specs.Vec.{vec_items};
ghost use Rattle.hip_bytes.specs.Cost.{taken_cost};
ghost use Rattle.hip_bytes.specs.Kinds.{HoldsByLength, IsEmptyInline};
ghost use Rattle.hip_bytes.specs.Mutated.{MutateAnswers, TakesItems};
ghost use Rattle.hip_bytes.specs.RefMut.{lender, lent_items, lent_source};
ghost use Rattle.hip_bytes.specs.declared.kind.TheConstants.{INLINE_CAPACITY};

use super::HipOsStr;
use hip_bytes::{Backend, Block, Meter, MutateFault, RefMut, Source, mutate, with_mutated};
use std::alloc::{AllocError, Global};

impl<'b, B: Backend> Source for HipOsStr<'b, B> {
    ghost use Rattle.hip_bytes.specs.declared.kind.TheConstants.{INLINE_CAPACITY};

    ghost items = { λ name. name.items };

    ghost is_emptied = { IsEmptyInline };

    ghost has_put = { HoldsByLength };

    ghost put_cost = { taken_cost B.SHARES };

    ghost put_needs_memory = { λ len. INLINE_CAPACITY < len };

    #[inline]
    fn lend_vec_metered(
        &mut self,
        alloc: Global,
        meter: &mut Meter,
    ) -> Result<(Vec<u8>, Block), AllocError> {
        self.bytes.lend_vec_metered(alloc, meter)
    }

    #[inline]
    fn put_back_metered(
        &mut self,
        alloc: Global,
        block: Block,
        vec: Vec<u8>,
        meter: &mut Meter,
    ) -> Result<(), Vec<u8>> {
        self.bytes.put_back_metered(alloc, block, vec, meter)
    }
}

impl<'b, B: Backend> HipOsStr<'b, B> {
    /// Lends the bytes out in a vector, which [`RefMut::finish`] writes back. Until then the value is empty. Where the bytes begin the
    /// list of an owner that no other handle shares, neither call allocates anything of its own. A refused call changes nothing, as
    /// [`Source::lend_vec_metered`] says of its own. What a guard leaves is known in functions that are generic in the [`Source`].
    pub fn mutate(&mut self, alloc: Global) -> Result<RefMut<'_, Self>, AllocError>
        ensures same_reference { IfOk result (λ guard. lender guard ≡ self.entry.ghost_name) }
        ensures items { IfOk result (λ guard. lent_items guard ≡ self.old.items) }
        ensures emptied { IfOk result (λ guard. IsEmptyInline (lent_source guard)) }
    {
        mutate(self, alloc)
    }

    /// Calls `f` with the bytes in a vector, and makes the value that of the vector which `f` leaves. Where no vector could be lent `f`
    /// isn't called and the value is as it was; where the vector couldn't be put back the value is empty.
    pub fn with_mutated<R: Drop, F: FnOnce(&mut Vec<u8>) -> R + Drop>(
        &mut self,
        alloc: Global,
        f: F,
    ) -> Result<R, MutateFault<R>>
        requires { TakesItems vec_items F.FnOnce f self.old.items }
        ensures { MutateAnswers vec_items F.FnOnce f self.old.items self.old self.new
            HoldsByLength IsEmptyInline (λ len. INLINE_CAPACITY < len) result }
    {
        with_mutated(self, alloc, f)
    }
}
