//! The cells of a column of a table.
ghost use Rattle.std.specs.Prelude.{◌≡◌, ◌<◌, length, IfErr, IfSome, IsUtf8, OnOk};
ghost use Rattle.std.specs.Io.KnownBytes.{Appends};
ghost use Rattle.hip_uses.specs.Column.{ColumnFails, IsColumn, cell_lines};
ghost use Rattle.hip_uses.specs.Tools.{InputFails, Tells, Writes, WritesNothing, of_table};

use crate::fault::{ToolFault, WriteFailed};
use crate::table::{Table, TableFault};
use crate::tools::input::read_text;
use crate::tools::print::print_line;
use hipstr::Backend;
use hipstr::string::HipStr;
use std::alloc::Global;
use std::io::{Read, Write};

/// Reads a table, whose fields stand between commas, and writes the cell of each row in the column of this name, a line each.
///
/// Each line is written at once, so `out` should be buffered; it isn't flushed.
pub fn write_column<B: Backend, R: Read, W: Write>(
    alloc: Global,
    column: &str,
    reader: &mut R,
    out: &mut W,
) -> Result<(), ToolFault>
    ensures read { IfSome (R.remaining reader.old) (λ input.
        Tells (ColumnFails column.now input) input result) }
    ensures written { OnOk result (IfSome (R.remaining reader.old) (λ input.
        Writes (IsColumn column.now input) (W.contents out.old) (W.contents out.new))) }
    ensures nothing { IfErr result (λ fault.
        WritesNothing fault (W.contents out.old) (W.contents out.new)) }
{
    let text = read_text::<B, R>(alloc, reader)?;
    write_column_of(alloc, column, &text, out)
}

/// Like [`write_column`], of a table that is in memory.
fn write_column_of<B: Backend, W: Write>(
    alloc: Global,
    column: &str,
    text: &HipStr<'_, B>,
    out: &mut W,
) -> Result<(), ToolFault>
    requires { IsUtf8 text.now.items }
    ensures fault { IfErr result
        (InputFails (ColumnFails column.now text.now.items) text.now.items) }
    ensures written { OnOk result
        (Writes (IsColumn column.now text.now.items) (W.contents out.old) (W.contents out.new)) }
    ensures nothing { IfErr result (λ fault.
        WritesNothing fault (W.contents out.old) (W.contents out.new)) }
{
    let table = match Table::read(alloc, text, ',') {
        Ok(table) => table,
        Err(fault) => return Err(table_fault(fault)),
    };
    let Some(place) = table.column(column) else {
        return Err(ToolFault::NoColumn(String::from_str(alloc, column)?));
    };
    print_cells(out, &table, place)?;
    Ok(())
}

/// The fault of a table as the tool's.
fn table_fault(fault: TableFault) -> ToolFault
    ensures { result ≡ of_table fault }
{
    match fault {
        TableFault::Memory => ToolFault::Memory,
        fault => ToolFault::Table(fault),
    }
}

/// Prints the cell of each row in the column at a place, a line each.
fn print_cells<B: Backend, W: Write>(
    out: &mut W,
    table: &Table<'_, B>,
    place: usize,
) -> Result<(), WriteFailed>
    requires { place < length table.now.header }
    ensures { OnOk result (Appends (W.contents out.old) (W.contents out.new)
        (cell_lines place table.now.rows)) }
{
    for row in 0..table.len() {
        let Some(cell) = table.cell_at(row, place) else {
            unreachable!();
        };
        print_line(out, cell.as_str())?;
    }
    Ok(())
}
