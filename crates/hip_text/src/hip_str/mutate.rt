//! Writing through a `String`.
ghost use Rattle.std.specs.Prelude.{◌≡◌, ◌<◌, length, IfOk};
ghost use Rattle.std.specs.String.{string_bytes};
ghost use Rattle.hip_bytes.specs.Cost.{taken_cost};
ghost use Rattle.hip_bytes.specs.Kinds.{HoldsByLength, IsEmptyInline};
ghost use Rattle.hip_bytes.specs.Meter.{RisesAtMost};
ghost use Rattle.hip_bytes.specs.Mutated.{MutateAnswers, MutateCosts, TakesItems};
ghost use Rattle.hip_bytes.specs.declared.kind.TheConstants.{INLINE_CAPACITY};
ghost use Rattle.hip_text.specs.RefMut.{lender, lent_items, lent_source};

use super::HipStr;
use crate::ref_mut::{RefMut, TextSource, mutate_metered, with_mutated_metered};
use hip_bytes::{Backend, Block, Meter, MutateFault, Source};
use std::alloc::{AllocError, Global};

impl<'b, B: Backend> TextSource for HipStr<'b, B> {
    ghost use Rattle.hip_bytes.specs.declared.kind.TheConstants.{INLINE_CAPACITY};

    ghost items = { λ text. text.items };

    ghost is_emptied = { IsEmptyInline };

    ghost has_put = { HoldsByLength };

    ghost put_cost = { taken_cost B.SHARES };

    ghost put_needs_memory = { λ len. INLINE_CAPACITY < len };

    #[inline]
    fn lend_string_metered(
        &mut self,
        alloc: Global,
        meter: &mut Meter,
    ) -> Result<(String, Block), AllocError> {
        let (vec, block) = self.bytes.lend_vec_metered(alloc, meter)?;
        Ok((unsafe { String::from_utf8_unchecked(vec) }, block))
    }

    #[tactic(auto, using(crate::proofs::Texts::strings))]
    #[inline]
    fn put_back_metered(
        &mut self,
        alloc: Global,
        block: Block,
        string: String,
        meter: &mut Meter,
    ) -> Result<(), String> {
        let Err(vec) = self
            .bytes
            .put_back_metered(alloc, block, string.into_bytes(), meter)
        else {
            return Ok(());
        };
        Err(unsafe { String::from_utf8_unchecked(vec) })
    }
}

impl<'b, B: Backend> HipStr<'b, B> {
    /// Lends the text out in a `String`, which [`RefMut::finish`] writes back. Until then the value is empty. Where the bytes begin the
    /// list of an owner that no other handle shares, neither call allocates anything of its own. A refused call changes nothing, as
    /// [`TextSource::lend_string_metered`] says of its own. What a guard leaves is known in functions that are generic in the
    /// [`TextSource`].
    pub fn mutate(&mut self, alloc: Global) -> Result<RefMut<'_, Self>, AllocError>
        ensures same_reference { IfOk result (λ guard. lender guard ≡ self.entry.ghost_name) }
        ensures items { IfOk result (λ guard. lent_items guard ≡ self.old.items) }
        ensures emptied { IfOk result (λ guard. IsEmptyInline (lent_source guard)) }
    {
        self.mutate_metered(alloc, &mut Meter::new())
    }

    /// [`HipStr::mutate`], counted.
    pub fn mutate_metered(
        &mut self,
        alloc: Global,
        meter: &mut Meter,
    ) -> Result<RefMut<'_, Self>, AllocError>
        ensures same_reference { IfOk result (λ guard. lender guard ≡ self.entry.ghost_name) }
        ensures items { IfOk result (λ guard. lent_items guard ≡ self.old.items) }
        ensures emptied { IfOk result (λ guard. IsEmptyInline (lent_source guard)) }
        ensures counted { RisesAtMost meter.old meter.new (length self.old.items) }
    {
        mutate_metered(self, alloc, meter)
    }

    /// Calls `f` with the text in a `String`, and makes the value that of the `String` which `f` leaves. Where none could be lent `f`
    /// isn't called and the value is as it was; where it couldn't be put back the value is empty.
    pub fn with_mutated<R: Drop, F: FnOnce(&mut String) -> R + Drop>(
        &mut self,
        alloc: Global,
        f: F,
    ) -> Result<R, MutateFault<R, String>>
        requires { TakesItems string_bytes F.FnOnce f self.old.items }
        ensures { MutateAnswers string_bytes F.FnOnce f self.old.items self.old self.new
            HoldsByLength IsEmptyInline (λ len. INLINE_CAPACITY < len) result }
    {
        self.with_mutated_metered(alloc, f, &mut Meter::new())
    }

    /// [`HipStr::with_mutated`], counted. What `f` copies isn't.
    pub fn with_mutated_metered<R: Drop, F: FnOnce(&mut String) -> R + Drop>(
        &mut self,
        alloc: Global,
        f: F,
        meter: &mut Meter,
    ) -> Result<R, MutateFault<R, String>>
        requires { TakesItems string_bytes F.FnOnce f self.old.items }
        ensures mutated { MutateAnswers string_bytes F.FnOnce f self.old.items self.old self.new
            HoldsByLength IsEmptyInline (λ len. INLINE_CAPACITY < len) result }
        ensures counted { MutateCosts string_bytes F.FnOnce f self.old.items meter.old meter.new
            (taken_cost B.SHARES) result }
    {
        with_mutated_metered(self, alloc, f, meter)
    }
}
