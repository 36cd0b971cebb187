//! ASCII case.
ghost use Rattle.std.specs.Prelude.{◌+◌, length, map, OnOk};
ghost use Rattle.std.specs.Char.{to_ascii_lowercase, to_ascii_uppercase};
ghost use Rattle.hip_bytes.specs.Change.{WriteAnswers};
ghost use Rattle.hip_bytes.specs.Cost.{clone_cost, lent_count, write_cost};
ghost use Rattle.hip_bytes.specs.Made.{CopyAnswers};
ghost use Rattle.hip_bytes.specs.Meter.{RisesAtLeast, RisesAtMost};

use super::HipStr;
use hip_bytes::{Backend, Meter};
use std::alloc::{AllocError, Global};

impl<'b, B: Backend> HipStr<'b, B> {
    /// Moves the letters `A` to `Z` to `a` to `z`, and keeps every other character.
    #[inline]
    pub fn make_ascii_lowercase(&mut self, alloc: Global) -> Result<(), AllocError>
        ensures write { WriteAnswers B.SHARES self.old
            (map to_ascii_lowercase self.old.items) result self.new }
    {
        self.make_ascii_lowercase_metered(alloc, &mut Meter::new())
    }

    /// [`HipStr::make_ascii_lowercase`], counted.
    #[tactic(auto, using(crate::proofs::Cased::cased))]
    #[inline]
    pub fn make_ascii_lowercase_metered(
        &mut self,
        alloc: Global,
        meter: &mut Meter,
    ) -> Result<(), AllocError>
        ensures write { WriteAnswers B.SHARES self.old
            (map to_ascii_lowercase self.old.items) result self.new }
        ensures counted { RisesAtMost meter.old meter.new
            (write_cost B.SHARES self.old.kind (length self.old.items)) }
        ensures copied { OnOk result (RisesAtLeast meter.old meter.new
            (lent_count self.old.kind (length self.old.items))) }
    {
        self.bytes.make_ascii_lowercase_metered(alloc, meter)
    }

    /// A copy in which the letters `A` to `Z` are `a` to `z`.
    #[inline]
    pub fn to_ascii_lowercase(&self, alloc: Global) -> Result<Self, AllocError>
        ensures copy { CopyAnswers self.now (map to_ascii_lowercase self.now.items) result }
    {
        self.to_ascii_lowercase_metered(alloc, &mut Meter::new())
    }

    /// [`HipStr::to_ascii_lowercase`], counted.
    #[inline]
    pub fn to_ascii_lowercase_metered(
        &self,
        alloc: Global,
        meter: &mut Meter,
    ) -> Result<Self, AllocError>
        ensures copy { CopyAnswers self.now (map to_ascii_lowercase self.now.items) result }
        ensures counted { RisesAtMost meter.old meter.new
            (clone_cost B.SHARES self.now.kind (length self.now.items)
            + write_cost B.SHARES self.now.kind (length self.now.items)) }
    {
        let mut copy = self.clone_metered(alloc, meter)?;
        copy.make_ascii_lowercase_metered(alloc, meter)?;
        Ok(copy)
    }

    /// Moves the letters `a` to `z` to `A` to `Z`, and keeps every other character.
    #[inline]
    pub fn make_ascii_uppercase(&mut self, alloc: Global) -> Result<(), AllocError>
        ensures write { WriteAnswers B.SHARES self.old
            (map to_ascii_uppercase self.old.items) result self.new }
    {
        self.make_ascii_uppercase_metered(alloc, &mut Meter::new())
    }

    /// [`HipStr::make_ascii_uppercase`], counted.
    #[tactic(auto, using(crate::proofs::Cased::cased))]
    #[inline]
    pub fn make_ascii_uppercase_metered(
        &mut self,
        alloc: Global,
        meter: &mut Meter,
    ) -> Result<(), AllocError>
        ensures write { WriteAnswers B.SHARES self.old
            (map to_ascii_uppercase self.old.items) result self.new }
        ensures counted { RisesAtMost meter.old meter.new
            (write_cost B.SHARES self.old.kind (length self.old.items)) }
        ensures copied { OnOk result (RisesAtLeast meter.old meter.new
            (lent_count self.old.kind (length self.old.items))) }
    {
        self.bytes.make_ascii_uppercase_metered(alloc, meter)
    }

    /// A copy in which the letters `a` to `z` are `A` to `Z`.
    #[inline]
    pub fn to_ascii_uppercase(&self, alloc: Global) -> Result<Self, AllocError>
        ensures copy { CopyAnswers self.now (map to_ascii_uppercase self.now.items) result }
    {
        self.to_ascii_uppercase_metered(alloc, &mut Meter::new())
    }

    /// [`HipStr::to_ascii_uppercase`], counted.
    #[inline]
    pub fn to_ascii_uppercase_metered(
        &self,
        alloc: Global,
        meter: &mut Meter,
    ) -> Result<Self, AllocError>
        ensures copy { CopyAnswers self.now (map to_ascii_uppercase self.now.items) result }
        ensures counted { RisesAtMost meter.old meter.new
            (clone_cost B.SHARES self.now.kind (length self.now.items)
            + write_cost B.SHARES self.now.kind (length self.now.items)) }
    {
        let mut copy = self.clone_metered(alloc, meter)?;
        copy.make_ascii_uppercase_metered(alloc, meter)?;
        Ok(copy)
    }
}
