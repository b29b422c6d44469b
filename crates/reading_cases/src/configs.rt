// Configurations with what is read of them, or their first offence.
use crate::action_rows::ACTION_TABLES;
use crate::host_rows::HOST_TABLES;
use crate::match_rows::MATCH_TABLES;
use crate::told::{Part, part_told};
use crate::trees::TREE_TABLES;
use json_walk::{ReadFail, Refusal};
use read_config::read_config;
use std::alloc::Global;
use std::test::Fail;
use text_base::OutOfMemory;

/// Rows `TEXT => OUTCOME`. TEXT stands between the two texts of a configuration. OUTCOME is the part that is told, or the
/// kind of the offence with its place below the one that is named.
pub(crate) type Table = (Part, &'static str, &'static str, &'static str, &'static str);

/// The kind of the offence, and its place where it isn't the one that is named.
pub(crate) fn refusal_told(
    alloc: Global,
    named: &str,
    refusal: &Refusal,
) -> Result<String, OutOfMemory> {
    match refusal.place.as_str().strip_prefix(named) {
        Some("") => format!(in alloc; "{:?}", refusal.kind),
        Some(below) => format!(in alloc; "{:?} {below}", refusal.kind),
        None => format!(in alloc;
            "{:?} elsewhere, at {}",
            refusal.kind,
            refusal.place.as_str()
        ),
    }
}

/// The part of the configuration that the text is, or its offence.
pub(crate) fn config_outcome(
    alloc: Global,
    part: Part,
    named: &str,
    text: &str,
) -> Result<String, OutOfMemory> {
    match read_config(alloc, text.as_bytes()) {
        Ok(config) => part_told(alloc, part, &config),
        Err(ReadFail::Refused(refusal)) => refusal_told(alloc, named, &refusal),
        Err(ReadFail::OutOfMemory) => Err(OutOfMemory),
    }
}

/// Fails with the first row of the table that doesn't hold.
fn all_hold(alloc: Global, table: Table) -> Result<(), Fail> {
    let (part, named, front, behind, rows) = table;
    for row in rows.lines() {
        let Some((text, want)) = row.split_once(" => ") else {
            return Err(Fail::new(row));
        };
        let text = format!(in alloc; "{front}{text}{behind}")?;
        let found = config_outcome(alloc, part, named, text.as_str())?;
        if found.as_str() != want {
            return Err(Fail::new(row));
        }
    }
    Ok(())
}

#[test]
fn configurations_are_read_or_have_an_offence(rt: HostRuntime) -> Result<(), Fail> {
    for tables in [HOST_TABLES, MATCH_TABLES, ACTION_TABLES, TREE_TABLES] {
        for table in tables {
            all_hold(rt.alloc(), *table)?;
        }
    }
    Ok(())
}
