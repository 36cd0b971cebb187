//! Joins.
ghost use Rattle.std.specs.Prelude.{◌≡◌, ◌++◌, Err, IfOk, length};
ghost use Rattle.std.specs.Path.{path_join};
ghost use Rattle.hip_raw.specs.Meter.{RisesAtLeast, RisesAtMost};
ghost use Rattle.hip_bytes.specs.Join.{join_cost};
ghost use Rattle.hip_bytes.specs.Made.{JoinAnswers};

use super::HipPath;
use crate::hip_os_str::HipOsStr;
use crate::join::{kept, separator};
use hip_bytes::{Backend, GrowFault, HipByt, Meter};
use std::alloc::Global;

impl<'b, B: Backend> HipPath<'b, B> {
    /// This path and another behind it, with a slash between them where there is none; the other alone where it is absolute.
    #[inline]
    pub fn join(&self, alloc: Global, path: &[u8]) -> Result<Self, GrowFault>
        ensures joined { JoinAnswers (path_join self.now.items path.now) result }
    {
        self.join_metered(alloc, path, &mut Meter::new())
    }

    /// [`HipPath::join`], counted.
    #[tactic(auto, unfolding(std::specs::Path::path_join))]
    pub fn join_metered(
        &self,
        alloc: Global,
        path: &[u8],
        meter: &mut Meter,
    ) -> Result<Self, GrowFault>
        ensures joined { JoinAnswers (path_join self.now.items path.now) result }
        ensures counted { RisesAtMost meter.old meter.new
            (join_cost B.SHARES (length (path_join self.now.items path.now))) }
        ensures copied { IfOk result
            (λ joined. RisesAtLeast meter.old meter.new (length joined.items)) }
        ensures refused_counts_none { result ≡ Err GrowFault.TooLong → meter.new ≡ meter.old }
    {
        let base = kept(self.as_path(), path);
        let bytes = joined_three(alloc, base, separator(base), path, meter)?;
        Ok(HipPath {
            name: HipOsStr::from(bytes),
        })
    }
}

/// Three lists one behind another.
#[inline]
fn joined_three<'b, 'x, B: Backend>(
    alloc: Global,
    first: &'x [u8],
    second: &'x [u8],
    third: &'x [u8],
    meter: &mut Meter,
) -> Result<HipByt<'b, B>, GrowFault>
    ensures joined { JoinAnswers (first.now ++ second.now ++ third.now) result }
    ensures counted { RisesAtMost meter.old meter.new
        (join_cost B.SHARES (length (first.now ++ second.now ++ third.now))) }
    ensures copied { IfOk result
        (λ joined. RisesAtLeast meter.old meter.new (length joined.items)) }
    ensures refused_counts_none { result ≡ Err GrowFault.TooLong → meter.new ≡ meter.old }
{
    HipByt::concat_slices_metered(alloc, &[first, second, third], meter)
}
