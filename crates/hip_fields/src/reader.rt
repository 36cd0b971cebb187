//! Records, drawn one after another.
ghost use Rattle.std.specs.Prelude.{◌≡◌, [], map, IfOk, IsOk};
ghost use Rattle.hip_text.specs.Meter.{RisesAtMost};
ghost use Rattle.hip_match.specs.Joined.{parts_at};
ghost use Rattle.hip_fields.specs.Records.{AreRecords, FirstRecord, FirstRecordCosts, fields_of, records_cost, records_of};

use crate::line::fields_between;
use hip_cuts::hip_match::lines::Lines;
use hip_cuts::hip_match::ranges::Ranges;
use hip_cuts::{Backend, HipStr, Meter, PieceSource};
use std::alloc::{AllocError, Global};
use std::marker::Model;

/// The records of a text that are still to come, one for each of the lines that `I` gives. Seen as the text and the bytes of these
/// records' fields.
#[derive(Drop)]
pub struct Records<'h, S: PieceSource, I: Ranges> {
    source: &'h S,
    lines: I,
    separator: char,
    /// The number of fields of the last record.
    room: usize,
}

impl<'h, S: PieceSource, I: Ranges> Model for Records<'h, S, I> {
    ghost use Rattle.std.specs.Prelude.{◌≡◌, map};
    ghost use Rattle.hip_match.specs.Joined.{parts_at};
    ghost use Rattle.hip_fields.specs.Records.{RecordsLeft, fields_of};

    ghost Value = { RecordsLeft };

    ghost view = { λ records. record {
      source = S.handle records.source.now;
      rest = map (fields_of records.separator)
          (parts_at (S.handle records.source.now).items (I.rest records.lines));
    } };

    ghost invariant = { λ records. I.ready records.lines
        × (I.text records.lines ≡ (S.handle records.source.now).items) };
}

impl<'h, S: PieceSource, I: Ranges> Records<'h, S, I> {
    /// The records of `source`, one for each of `lines`, which are ranges of it.
    #[inline]
    pub(crate) fn over(source: &'h S, lines: I, separator: char) -> Self
        requires ready { I.ready lines }
        requires text { I.text lines ≡ (S.handle source.now).items }
        ensures source { result.source ≡ S.handle source.now }
        ensures rest { result.rest
            ≡ map (fields_of separator) (parts_at (S.handle source.now).items (I.rest lines)) }
    {
        Records {
            source,
            lines,
            separator,
            room: 0,
        }
    }
}

impl<'h, 'b, B: Backend> Records<'h, HipStr<'b, B>, Lines<'h>> {
    /// The records of `source`, a line each, with a field on either side of each `separator`.
    #[inline]
    pub fn new(source: &'h HipStr<'b, B>, separator: char) -> Self
        ensures source { result.source ≡ source.now }
        ensures rest { result.rest ≡ records_of separator source.now.items }
    {
        Records::over(source, Lines::new(source.as_str()), separator)
    }
}

impl<'h, 'b, B: Backend, I: Ranges + Drop> Records<'h, HipStr<'b, B>, I> {
    /// The first record that is left. One that is refused for memory has been passed.
    pub fn next_record(&mut self, alloc: Global) -> Option<Result<Vec<HipStr<'b, B>>, AllocError>>
        ensures first { FirstRecord self.old result self.new }
        ensures source { self.new.source ≡ self.old.source }
    {
        self.next_record_metered(alloc, &mut Meter::new())
    }

    /// [`Records::next_record`], counted.
    pub fn next_record_metered(
        &mut self,
        alloc: Global,
        meter: &mut Meter,
    ) -> Option<Result<Vec<HipStr<'b, B>>, AllocError>>
        ensures first { FirstRecord self.old result self.new }
        ensures counted { FirstRecordCosts B.SHARES self.old result self.new meter.old meter.new }
        ensures source { self.new.source ≡ self.old.source }
    {
        let (start, end) = self.lines.next()?;
        let drawn = fields_between(
            alloc,
            self.source,
            start,
            end,
            self.separator,
            self.room,
            meter,
        );
        self.room = count_of(&drawn);
        Some(drawn)
    }

    /// All records that are left, in a vector.
    pub fn collect(self, alloc: Global) -> Result<Vec<Vec<HipStr<'b, B>>>, AllocError>
        ensures records { IfOk result
            (λ records. AreRecords self.entry.source self.entry.rest records.items) }
        ensures none_left { self.entry.rest ≡ [] → IsOk result }
    {
        self.collect_metered(alloc, &mut Meter::new())
    }

    /// [`Records::collect`], counted.
    pub fn collect_metered(
        mut self,
        alloc: Global,
        meter: &mut Meter,
    ) -> Result<Vec<Vec<HipStr<'b, B>>>, AllocError>
        ensures records { IfOk result
            (λ records. AreRecords self.entry.source self.entry.rest records.items) }
        ensures none_left { self.entry.rest ≡ [] → IsOk result }
        ensures counted { RisesAtMost meter.old meter.new
            (records_cost B.SHARES self.entry.source.kind self.entry.rest) }
    {
        let mut records = Vec::new(alloc);
        while let Some(fields) = self.next_record_metered(alloc, meter) {
            records.push(fields?)?;
        }
        Ok(records)
    }
}

/// The number of fields that were drawn.
fn count_of<T, E>(drawn: &Result<Vec<T>, E>) -> usize {
    match drawn {
        Ok(fields) => fields.len(),
        Err(_) => 0,
    }
}
