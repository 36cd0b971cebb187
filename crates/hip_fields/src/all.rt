//! All records of a text.
ghost use Rattle.std.specs.Prelude.{◌≡◌, [], IfOk, IsOk};
ghost use Rattle.hip_text.specs.Meter.{RisesAtMost};
ghost use Rattle.hip_match.specs.Runs.{lines};
ghost use Rattle.hip_fields.specs.Records.{AreRecords, records_cost, records_of};

use crate::reader::Records;
use hip_cuts::{Backend, HipStr, Meter};
use std::alloc::{AllocError, Global};

/// A record for each line of the text, with a field on either side of each `separator` of the line.
pub fn records<'b, B: Backend>(
    alloc: Global,
    source: &HipStr<'b, B>,
    separator: char,
) -> Result<Vec<Vec<HipStr<'b, B>>>, AllocError>
    ensures records { IfOk result (λ records.
        AreRecords source.now (records_of separator source.now.items) records.items) }
    ensures no_lines { lines source.now.items ≡ [] → IsOk result }
{
    records_metered(alloc, source, separator, &mut Meter::new())
}

/// [`records`], counted.
pub fn records_metered<'b, B: Backend>(
    alloc: Global,
    source: &HipStr<'b, B>,
    separator: char,
    meter: &mut Meter,
) -> Result<Vec<Vec<HipStr<'b, B>>>, AllocError>
    ensures records { IfOk result (λ records.
        AreRecords source.now (records_of separator source.now.items) records.items) }
    ensures no_lines { lines source.now.items ≡ [] → IsOk result }
    ensures counted { RisesAtMost meter.old meter.new
        (records_cost B.SHARES source.now.kind (records_of separator source.now.items)) }
{
    Records::new(source, separator).collect_metered(alloc, meter)
}
