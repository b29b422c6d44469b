// Lines in tables, each with what is told of it.
use cert_rows::{Row, RowFault, read_row, write_row};
use std::alloc::Global;
use text_base::OutOfMemory;

/// The line of a row without its line feed.
pub(crate) fn line_of(alloc: Global, row: &Row) -> Result<String, OutOfMemory> {
    match String::from_utf8(write_row(alloc, row)?) {
        Ok(line) => String::from_str(
            alloc,
            line.as_str().strip_suffix("\n").unwrap_or("no line feed"),
        ),
        Err(_) => String::from_str(alloc, "no UTF-8"),
    }
}

/// What is told of a line: the line of its row, `Syntax`, or the place of its first offence.
pub(crate) fn told(alloc: Global, line: &[u8]) -> Result<String, OutOfMemory> {
    match read_row(alloc, line) {
        Ok(row) => line_of(alloc, &row),
        Err(RowFault::Syntax) => String::from_str(alloc, "Syntax"),
        Err(RowFault::Shape { place }) => String::from_str(alloc, place.as_str()),
        Err(RowFault::OutOfMemory) => Err(OutOfMemory),
    }
}

/// Whether the row `WANT => LINE` of a table is what is told of the line. `=` for WANT is the line itself.
pub(crate) fn row_holds(alloc: Global, row: &str) -> Result<bool, OutOfMemory> {
    let Some((want, line)) = row.split_once(" => ") else {
        return Ok(false);
    };
    let told = told(alloc, line.as_bytes())?;
    Ok(told.as_str() == if want == "=" { line } else { want })
}
