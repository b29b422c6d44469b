// Rows of the shape and rows of another one, made without a line.
use crate::told::{line_of, told};
use cert_rows::{Node, Row, RowBody, Words, has_shape, round_trip_law};
use sqlite_items::Items;
use std::alloc::Global;
use std::test::Fail;
use text_base::{Field, OutOfMemory, Text};

fn row_of(alloc: Global, nodes: Items<Node>, splits: u32, states: u32) -> Result<Row, OutOfMemory> {
    Ok(Row {
        route: Text::of(alloc, "")?,
        body: RowBody::Undecided {
            nodes,
            splits,
            states,
        },
    })
}

/// Whether the row has the shape and its line is read back, or has another and its line is refused at the place.
fn is_told(alloc: Global, row: &Row, fault: &str) -> Result<bool, OutOfMemory> {
    let line = line_of(alloc, row)?;
    let told = told(alloc, line.as_str().as_bytes())?;
    if has_shape(row) {
        return Ok(fault == "" && told.as_str() == line.as_str());
    }
    Ok(told.as_str() == fault)
}

#[test]
fn budgets_have_bounds(rt: HostRuntime) -> Result<(), Fail> {
    round_trip_law();
    for (splits, states, fault) in BUDGETS {
        let row = row_of(rt.alloc(), Items::new(rt.alloc()), *splits, *states)?;
        assert!(rt; is_told(rt.alloc(), &row, fault)?, "{splits} {states}");
    }
    Ok(())
}

/// Splits, states, and the place of the one that is out of its bounds.
const BUDGETS: &[(u32, u32, &str)] = &[
    (1, 16, ""),
    (65_536, 4_096, ""),
    (0, 16, "/splits"),
    (65_537, 16, "/splits"),
    (1, 15, "/states"),
    (1, 4_097, "/states"),
    (4_294_967_295, 4_294_967_295, "/splits"),
];

/// A leaf of one word on this header.
fn leaf_of(alloc: Global, header: &str, parent: u64, byte: u8) -> Result<Node, OutOfMemory> {
    let mut list = Items::new(alloc);
    list.push((parent, byte))?;
    Ok(Node::Closed {
        field: Field::Header(Text::of(alloc, header)?),
        words: Words { list },
    })
}

#[test]
fn leaves_have_names_and_words(rt: HostRuntime) -> Result<(), Fail> {
    for (header, parent, byte, fault) in LEAVES {
        let mut nodes = Items::new(rt.alloc());
        nodes.push(leaf_of(rt.alloc(), header, *parent, *byte)?)?;
        let row = row_of(rt.alloc(), nodes, 1, 16)?;
        assert!(rt;
            is_told(rt.alloc(), &row, fault)?,
            "{header} {parent} {byte}"
        );
    }
    Ok(())
}

/// A header, the prefix of the first word and its byte, and the place of the one that is no such.
const LEAVES: &[(&str, u64, u8, &str)] = &[
    ("x", 0, 32, ""),
    ("x", 0, 126, ""),
    ("x", 1, 32, "/nodes/0/2/0/0"),
    ("x", 18_446_744_073_709_551_615, 32, "/nodes/0/2/0/0"),
    ("x", 0, 31, "/nodes/0/2/0/1"),
    ("x", 0, 127, "/nodes/0/2/0/1"),
    ("host", 0, 32, "/nodes/0/1"),
    ("X", 0, 32, "/nodes/0/1"),
    ("", 0, 32, "/nodes/0/1"),
];
