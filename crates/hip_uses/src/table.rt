//! Tables: a header names the columns of the rows below it, a line each.
#![tactic(auto, using(crate::proofs::Tables::tables))]

ghost use Rattle.std.specs.Prelude.{◌≡◌, ◌∷◌, All, IfErr, IfOk, IfSome, MatchOption, length};
ghost use Rattle.hip_fields.specs.Records.{records_cost, records_of};
ghost use Rattle.hipstr.specs.Meter.{RisesAtMost};
ghost use Rattle.hip_uses.specs.Cells.{AllParts, HasCell, HasCellAt, HasNoCell, HasNoCellAt, IsFieldAt, IsFirstAt, IsNoColumn, ReadFails};

pub use crate::fault::TableFault;
use hip_fields::reader::Records;
use hipstr::string::HipStr;
use hipstr::{Backend, Meter};
use std::alloc::Global;
use std::marker::Model;

/// A header, and rows of as many fields.
#[derive(Drop)]
pub struct Table<'b, B: Backend> {
    header: Vec<HipStr<'b, B>>,
    rows: Vec<Vec<HipStr<'b, B>>>,
}

impl<'b, B: Backend> Model for Table<'b, B> {
    ghost use Rattle.std.specs.Prelude.{◌≡◌, ◌∷◌, All, map, vec_len};
    ghost use Rattle.hip_uses.specs.Cells.{Cells, texts_of};

    ghost Value = { Cells };

    ghost view = { λ table. record {
      header = texts_of table.header.items;
      rows = map (λ row. texts_of row.items) table.rows.items;
      fields = table.header.items ∷ map (λ row. row.items) table.rows.items;
    } };

    ghost invariant = { λ table.
        All (λ row. vec_len row ≡ vec_len table.header) table.rows.items };
}

impl<'b, B: Backend> Table<'b, B> {
    /// Reads a table. The first line is the header.
    pub fn read(alloc: Global, source: &HipStr<'b, B>, separator: char) -> Result<Self, TableFault>
        ensures read { IfOk result (λ table.
            table.header ∷ table.rows ≡ records_of separator source.now.items) }
        ensures even { IfOk result (λ table.
            All (λ row. length row ≡ length table.header) table.rows) }
        ensures fields { IfOk result (λ table. AllParts source.now table.fields) }
        ensures fault { IfErr result (ReadFails (records_of separator source.now.items)) }
    {
        Table::read_metered(alloc, source, separator, &mut Meter::new())
    }

    /// [`Table::read`], counted. Where owners are shared, each field copies at most the 23 bytes that a handle holds in itself, and none of
    /// a borrowed source.
    pub fn read_metered(
        alloc: Global,
        source: &HipStr<'b, B>,
        separator: char,
        meter: &mut Meter,
    ) -> Result<Self, TableFault>
        ensures read { IfOk result (λ table.
            table.header ∷ table.rows ≡ records_of separator source.now.items) }
        ensures even { IfOk result (λ table.
            All (λ row. length row ≡ length table.header) table.rows) }
        ensures fields { IfOk result (λ table. AllParts source.now table.fields) }
        ensures fault { IfErr result (ReadFails (records_of separator source.now.items)) }
        ensures counted { RisesAtMost meter.old meter.new
            (records_cost B.SHARES source.now.kind (records_of separator source.now.items)) }
    {
        let mut records = Records::new(source, separator);
        let Some(header) = records.next_record_metered(alloc, meter) else {
            return Err(TableFault::Empty);
        };
        let header = header?;
        let rows = records.collect_metered(alloc, meter)?;
        for (i, row) in rows.iter().enumerate() {
            if row.len() != header.len() {
                return Err(TableFault::Ragged(i + 2));
            }
        }
        Ok(Table { header, rows })
    }

    /// The number of rows below the header.
    pub fn len(&self) -> usize
        ensures { result ≡ length self.now.rows }
    {
        self.rows.len()
    }

    /// Which column has this name, the first where several have it.
    pub fn column(&self, name: &str) -> Option<usize>
        ensures { MatchOption result (IsNoColumn self.now.header name.now)
            (IsFirstAt self.now.header name.now) }
    {
        for (place, column) in self.header.iter().enumerate() {
            if column.str_eq(name) {
                return Some(place);
            }
        }
        None
    }

    /// The cell of a row in the column of this name.
    pub fn cell(&self, row: usize, name: &str) -> Option<&HipStr<'b, B>>
        ensures { MatchOption result (HasNoCell self.now row name.now)
            (λ cell. HasCell self.now row name.now cell.now.items) }
    {
        let column = self.column(name)?;
        self.cell_at(row, column)
    }

    /// The cell of a row in the column at a place, which [`Table::column`] finds once for many rows.
    pub fn cell_at(&self, row: usize, column: usize) -> Option<&HipStr<'b, B>>
        ensures cell { MatchOption result (HasNoCellAt self.now row column)
            (λ cell. HasCellAt self.now row column cell.now.items) }
        ensures field { IfSome result (λ cell. IsFieldAt self.now row column cell.now) }
    {
        let fields = self.rows.get(row)?;
        if fields.len() <= column {
            return None;
        }
        Some(&fields[column])
    }
}
