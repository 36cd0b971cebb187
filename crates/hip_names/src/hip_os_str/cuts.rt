//! Parts.
ghost use Rattle.std.specs.Prelude.{◌≡◌, ◌≤◌, ◌-◌, IfOk, length, slice_range};
ghost use Rattle.hip_raw.specs.Meter.{RisesAtMost};
ghost use Rattle.hip_bytes.specs.Cost.{cut_cost, PartCounts};
ghost use Rattle.hip_bytes.specs.Made.{CutAnswers};

use super::HipOsStr;
use hip_bytes::{Backend, Meter};
use std::alloc::{AllocError, Global};

impl<'b, B: Backend> HipOsStr<'b, B> {
    /// The part from `start` up to `end`, counted.
    #[inline]
    pub(crate) fn part_metered(
        &self,
        alloc: Global,
        start: usize,
        end: usize,
        meter: &mut Meter,
    ) -> Result<Self, AllocError>
        requires ordered { start ≤ end }
        requires in_bounds { end ≤ length self.now.items }
        ensures part { CutAnswers self.now (slice_range self.now.items start end) result }
        ensures counted { RisesAtMost meter.old meter.new
            (cut_cost B.SHARES self.now.kind (end - start)) }
        ensures copied { IfOk result
            (λ part. PartCounts B.SHARES self.now part meter.old meter.new) }
    {
        Ok(HipOsStr {
            bytes: self.bytes.part_metered(alloc, start, end, meter)?,
        })
    }
}
