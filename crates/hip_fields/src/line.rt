//! The fields of one line.
ghost use Rattle.std.specs.Prelude.{◌≡◌, slice_range, IfOk};
ghost use Rattle.hip_text.specs.Meter.{RisesAtMost};
ghost use Rattle.hip_match.specs.Joined.{parts_at};
ghost use Rattle.hip_match.specs.Occurrence.{IsCut};
ghost use Rattle.hip_fields.specs.Records.{AreFields, fields_cost, fields_of};

use hip_cuts::hip_match::marked_parts::SplitByte;
use hip_cuts::hip_match::ranges::Ranges;
use hip_cuts::hip_match::split::Split;
use hip_cuts::{Backend, HipStr, Meter};
use hip_text::laws::slice_of_slice;
use std::alloc::{AllocError, Global};

/// The parts of a text at ranges of one of its lines, which lies from `start` up to `end`, in a vector with room for `room` at least.
pub(crate) fn fields_at<'b, B: Backend, I: Ranges + Drop>(
    alloc: Global,
    source: &HipStr<'b, B>,
    start: usize,
    end: usize,
    mut ranges: I,
    room: usize,
    meter: &mut Meter,
) -> Result<Vec<HipStr<'b, B>>, AllocError>
    requires cut { IsCut source.now.items (start, end) }
    requires ready { I.ready ranges }
    requires text { I.text ranges ≡ slice_range source.now.items start end }
    ensures fields { IfOk result (λ fields.
        AreFields source.now (parts_at (slice_range source.now.items start end) (I.rest ranges)) fields.items) }
    ensures counted { RisesAtMost meter.old meter.new
        (fields_cost B.SHARES source.now.kind (parts_at (slice_range source.now.items start end) (I.rest ranges))) }
{
    let mut fields = Vec::with_capacity(alloc, room)?;
    while let Some((from, to)) = ranges.next() {
        slice_of_slice(source.as_str(), start, end, from, to);
        fields.push(source.part_metered(alloc, start + from, start + to, meter)?)?;
    }
    Ok(fields)
}

/// The fields of the line that lies from `start` up to `end`, in a vector with room for `room` at least.
pub(crate) fn fields_between<'b, B: Backend>(
    alloc: Global,
    source: &HipStr<'b, B>,
    start: usize,
    end: usize,
    separator: char,
    room: usize,
    meter: &mut Meter,
) -> Result<Vec<HipStr<'b, B>>, AllocError>
    requires cut { IsCut source.now.items (start, end) }
    ensures fields { IfOk result (λ fields.
        AreFields source.now (fields_of separator (slice_range source.now.items start end)) fields.items) }
    ensures counted { RisesAtMost meter.old meter.new
        (fields_cost B.SHARES source.now.kind
        (fields_of separator (slice_range source.now.items start end))) }
{
    let line = &source.as_str()[start..end];
    if separator.is_ascii() {
        let pieces = SplitByte::new(line, separator as u8);
        return fields_at(alloc, source, start, end, pieces, room, meter);
    }
    let pieces = Split::new(line, separator);
    fields_at(alloc, source, start, end, pieces, room, meter)
}
