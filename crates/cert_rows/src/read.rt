// Rows, read of lines.
ghost use Rattle.std.specs.Prelude.{◌≡◌, Ok, true, IfOk, IfSome, IsTrue};
ghost use Rattle.cert_rows.specs.Shapes.{is_shaped};
ghost use Rattle.cert_rows.specs.Read.{Answers, row_at};

use crate::fault::RowFault;
use crate::guess::guess;
use crate::rows::row_of;
use crate::shapes::has_shape;
use crate::write::row_text;
use goal_form::Row;
use json_walk::{ReadFail, Text, read_value};
use std::alloc::{AllocError, Global};

fn are_same(bytes: &[u8], others: &[u8]) -> bool
    ensures { IsTrue result → bytes.now ≡ others.now }
{
    bytes == others
}

/// Whether the line is that of the row, with its line feed or without.
fn is_written(alloc: Global, row: &Row, line: &[u8]) -> Result<bool, AllocError>
    requires { is_shaped row.now ≡ true }
    ensures { IfOk result (λ b. IsTrue b → row_at line.now ≡ Ok row.now) }
{
    let mut text = row_text(alloc, row, line.len())?;
    if are_same(line, text.as_str().as_bytes()) {
        return Ok(true);
    }
    text.push_str("\n")?;
    Ok(are_same(line, text.as_str().as_bytes()))
}

/// The row of a line that is exactly as `write_row` writes rows of nodes. A JSON value would take some twenty times the bytes
/// of the line, so none is made: the line of the row that is guessed is compared with this line.
fn quick_row(alloc: Global, line: &[u8]) -> Result<Option<Row>, AllocError>
    ensures { IfOk result (λ o. IfSome o (λ r. row_at line.now ≡ Ok r)) }
{
    let Some(row) = guess(alloc, line)? else {
        return Ok(None);
    };
    if has_shape(&row) && is_written(alloc, &row, line)? {
        return Ok(Some(row));
    }
    Ok(None)
}

/// The row of any line, read of its JSON value.
#[tactic(auto, unfolding(crate::specs::Read::row_at))]
fn full_row(alloc: Global, line: &[u8]) -> Result<Row, RowFault>
    ensures { Answers result (row_at line.now) }
{
    let value = match read_value(alloc, line) {
        Ok(value) => value,
        Err(ReadFail::Refused(_)) => return Err(RowFault::Syntax),
        Err(ReadFail::OutOfMemory) => return Err(RowFault::OutOfMemory),
    };
    let Ok(top) = Text::of(alloc, "") else {
        return Err(RowFault::OutOfMemory);
    };
    match row_of(alloc, &value, &top) {
        Ok(row) => Ok(row),
        Err(ReadFail::Refused(refusal)) => Err(RowFault::Shape {
            place: refusal.place,
        }),
        Err(ReadFail::OutOfMemory) => Err(RowFault::OutOfMemory),
    }
}

/// The row that the line is, with a line feed or without. A line that is no JSON is `Syntax`, one that is JSON and no row is
/// `Shape` at the place of its first offence: the verdict goes first, then the names of the members in byte order, then the
/// members in the order of their names. Blanks, spelling and order of members are free. Takes memory for the row and its text;
/// where the line is not as `write_row` writes it, or has a request, for its JSON value too.
pub fn read_row(alloc: Global, line: &[u8]) -> Result<Row, RowFault>
    ensures { Answers result (row_at line.now) }
{
    match quick_row(alloc, line) {
        Ok(Some(row)) => Ok(row),
        Ok(None) => full_row(alloc, line),
        Err(_) => Err(RowFault::OutOfMemory),
    }
}
