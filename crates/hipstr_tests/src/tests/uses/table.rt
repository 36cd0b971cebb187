//! Tables by `,`: the cells of the column `city`, a line each.
use super::support::prints;
use hip_uses::table::{Table, TableFault};
use hipstr::string::HipStr;
use hipstr::{Backend, Rc, Unique};
use std::alloc::{AllocError, Global};

const ROWS: [(&str, &str); 8] = [
    ("", "no header\n"),
    ("city", ""),
    (
        "name,city\nAda,London\r\nBlaise,Clermont-Ferrand",
        "London\nClermont-Ferrand\n",
    ),
    ("city,city\nfirst,second\n", "first\n"),
    ("name,town\nAda,London\n", "-\n"),
    (
        "name,city\nAda,London\nBlaise\n",
        "line 3: another number of fields than the header\n",
    ),
    (
        "name,city\nAda,London,1815\n",
        "line 2: another number of fields than the header\n",
    ),
    ("city,name\n,\n\u{e9}t\u{e9},\n", "\n\u{e9}t\u{e9}\n"),
];

fn cells<B: Backend>(alloc: Global, table: &Table<'_, B>) -> Result<String, AllocError> {
    let mut printed = String::new(alloc);
    for row in 0..table.len() {
        match table.cell(row, "city") {
            Some(cell) => writeln!(printed, "{cell}")?,
            None => printed.push_str("-\n")?,
        }
    }
    Ok(printed)
}

/// Like `cells`, but by the place of the column, which is found once.
fn cells_at<B: Backend>(alloc: Global, table: &Table<'_, B>) -> Result<String, AllocError> {
    let mut printed = String::new(alloc);
    let column = table.column("city").unwrap_or(usize::MAX);
    for row in 0..table.len() {
        match table.cell_at(row, column) {
            Some(cell) => writeln!(printed, "{cell}")?,
            None => printed.push_str("-\n")?,
        }
    }
    Ok(printed)
}

fn shown<B: Backend>(alloc: Global, text: &str, by_place: bool) -> Result<String, AllocError> {
    match Table::<B>::read(alloc, &HipStr::from_str(alloc, text)?, ',') {
        Ok(table) if by_place => cells_at(alloc, &table),
        Ok(table) => cells(alloc, &table),
        Err(fault) => format!(in alloc; "{fault}\n"),
    }
}

#[test]
fn finds_cells(rt: HostRuntime) {
    let alloc = rt.alloc();
    for (text, wanted) in ROWS {
        for by_place in [false, true] {
            prints(&rt, text, &shown::<Rc>(alloc, text, by_place), wanted);
            prints(&rt, text, &shown::<Unique>(alloc, text, by_place), wanted);
        }
    }
}
