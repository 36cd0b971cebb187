//! Tables are read and their cells looked up; records of longer texts are gone through one after another.
use crate::digest::Digest;
use crate::made::{CYRILLIC, LATIN, Numbers, drawn, push_letters, push_word, text_of};
use hip_fields::reader::Records;
use hip_uses::table::Table;
use hipstr::Rc;
use hipstr::pattern::Ranges;
use hipstr::string::HipStr;
use std::alloc::{AllocError, Global};

/// The names of the columns, as many as a row has fields.
const COLUMNS: &[&str] = &[
    "id", "time", "level", "host", "service", "user", "method", "path", "status", "bytes", "agent",
    "note",
];

/// The number of different fields, of different rows, and of those that a table has.
const FIELDS: usize = 20_000;

const STOCK: usize = 10_000;

const ROWS: usize = 3000;

/// A field: of nothing, of 1 to 12 bytes, of Cyrillic letters, or of 24 to 60 bytes.
fn field(alloc: Global, numbers: &mut Numbers) -> Result<String, AllocError> {
    let mut field = String::new(alloc);
    match numbers.below(8) {
        0 | 1 => {}
        2 | 3 => {
            field.push_str("Mozilla/5.0 (X11; Linux)")?;
            let count = numbers.below(36);
            push_letters(&mut field, numbers, count)?;
        }
        4 => push_word(&mut field, numbers, CYRILLIC, 3)?,
        5 => push_word(&mut field, numbers, LATIN, 4)?,
        _ => {
            let count = 1 + numbers.below(12);
            push_letters(&mut field, numbers, count)?;
        }
    }
    Ok(field)
}

/// The stock of fields.
fn fields(alloc: Global, numbers: &mut Numbers) -> Result<Vec<String>, AllocError> {
    let mut fields = Vec::new(alloc);
    for _ in 0..FIELDS {
        fields.push(field(alloc, numbers)?)?;
    }
    Ok(fields)
}

/// A row of so many fields, with a character between two.
fn row(
    alloc: Global,
    numbers: &mut Numbers,
    fields: &[String],
    separator: char,
) -> Result<String, AllocError> {
    let mut row = String::new(alloc);
    for place in 0..COLUMNS.len() {
        if 0 < place {
            row.push(separator)?;
        }
        row.push_str(drawn(numbers, fields))?;
    }
    Ok(row)
}

/// The stock of rows.
fn rows(
    alloc: Global,
    numbers: &mut Numbers,
    fields: &[String],
    separator: char,
) -> Result<Vec<String>, AllocError> {
    let mut rows = Vec::new(alloc);
    for _ in 0..STOCK {
        rows.push(row(alloc, numbers, fields, separator)?)?;
    }
    Ok(rows)
}

/// A text of a header and rows.
fn table(
    alloc: Global,
    numbers: &mut Numbers,
    rows: &[String],
    separator: char,
) -> Result<String, AllocError> {
    let mut text = String::new(alloc);
    for (place, column) in COLUMNS.iter().enumerate() {
        if 0 < place {
            text.push(separator)?;
        }
        text.push_str(column)?;
    }
    text.push('\n')?;
    text.push_str(text_of(alloc, numbers, rows, ROWS)?.as_str())?;
    Ok(text)
}

/// Looks up three cells of each row.
fn look_up(table: &Table<'_, Rc>, digest: &mut Digest) {
    for row in 0..table.len() {
        for column in ["status", "id", "path"] {
            if let Some(cell) = table.cell(row, column) {
                digest.ends(cell.as_bytes());
            }
        }
    }
    if let Some(place) = table.column("note") {
        digest.number(place as u64);
    }
}

/// Goes through records, one after another.
fn go_through<'b, I: Ranges + Drop>(
    alloc: Global,
    mut records: Records<'_, HipStr<'b, Rc>, I>,
    digest: &mut Digest,
) -> Option<()> {
    while let Some(fields) = records.next_record(alloc) {
        for field in &fields.ok()? {
            digest.ends(field.as_bytes());
        }
    }
    Some(())
}

/// A table, whose cells are looked up.
fn read_table(
    alloc: Global,
    numbers: &mut Numbers,
    rows: &[String],
    digest: &mut Digest,
) -> Option<()> {
    let text = HipStr::from_string(alloc, table(alloc, numbers, rows, ',').ok()?).ok()?;
    let table = Table::read(alloc, &text, ',').ok()?;
    look_up(&table, digest);
    Some(())
}

/// A text of records, of which each is let go before the next.
fn read_records(
    alloc: Global,
    numbers: &mut Numbers,
    rows: &[String],
    digest: &mut Digest,
) -> Option<()> {
    let text = HipStr::from_string(alloc, table(alloc, numbers, rows, '\t').ok()?).ok()?;
    go_through(alloc, Records::new(&text, '\t'), digest)
}

/// Reads many tables and records.
pub(crate) fn read(
    alloc: Global,
    rounds: usize,
    numbers: &mut Numbers,
    digest: &mut Digest,
) -> Option<()> {
    let fields = fields(alloc, numbers).ok()?;
    let by_commas = rows(alloc, numbers, fields.as_slice(), ',').ok()?;
    let by_tabs = rows(alloc, numbers, fields.as_slice(), '\t').ok()?;
    for _ in 0..rounds {
        read_table(alloc, numbers, by_commas.as_slice(), digest)?;
        read_records(alloc, numbers, by_tabs.as_slice(), digest)?;
    }
    Some(())
}
