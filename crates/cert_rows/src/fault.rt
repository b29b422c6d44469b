// Faults of lines that are no rows.

use text_base::Text;

/// Why no row was read of a line.
#[derive(Debug, Drop)]
pub enum RowFault {
    /// The line is no JSON: no UTF-8, no JSON text, or nested past 127.
    Syntax,
    /// The line is JSON and no row: the first offence is at this place, a JSON pointer.
    Shape { place: Text },
    OutOfMemory,
}
