// What the check says of whole rows.
ghost use Rattle.std.specs.Prelude.{◌<◌, length};
ghost use Rattle.cfg_types.specs.Lawful.{IsLawful};

use crate::made::{config, nodes_of, request_for};
use cert_check::check_row;
use cfg_types::Config;
use goal_form::{Row, RowBody};
use std::alloc::Global;
use std::test::Fail;
use text_base::{OutOfMemory, Text};

/// `reached TARGET`, `refuted NODES` or `undecided SPLITS STATES: NODES`.
fn body_of(alloc: Global, line: &str) -> Result<RowBody, OutOfMemory> {
    if let Some(target) = line.strip_prefix("reached ") {
        return Ok(RowBody::Reached(request_for(alloc, target)?));
    }
    if let Some(nodes) = line.strip_prefix("refuted ") {
        return Ok(RowBody::Refuted(nodes_of(alloc, nodes)?));
    }
    let (budgets, nodes) = line.split_once(": ").unwrap_or(("", ""));
    let mut numbers = budgets.split(' ').skip(1);
    Ok(RowBody::Undecided {
        nodes: nodes_of(alloc, nodes)?,
        splits: number(numbers.next()),
        states: number(numbers.next()),
    })
}

fn number(word: Option<&str>) -> u32 {
    word.unwrap_or("0").parse::<u32>().unwrap_or(0)
}

/// A row at the place of this route.
fn row_of(alloc: Global, place: u32, line: &str) -> Result<Row, OutOfMemory> {
    let place = format!(in alloc; "/virtual_hosts/0/routes/{place}")?;
    Ok(Row {
        route: Text::of(alloc, place.as_str())?,
        body: body_of(alloc, line)?,
    })
}

/// What the check says of a row for a route.
fn is_lawful(alloc: Global, config: &Config, route: u32, row: &Row) -> Result<bool, OutOfMemory>
    requires { IsLawful config.now }
{
    if route >= config.route_count() {
        return Ok(false);
    }
    check_row(alloc, config, route, row)
}

/// What the check says, the route, the route in whose place the row stands, and what the row shows.
const ROWS: [(bool, u32, u32, &str); 40] = [
    (true, 0, 0, "reached /ab"),
    (false, 0, 0, "reached /b"),
    (false, 1, 1, "reached /a/x"),
    (true, 2, 2, "reached /b?c"),
    (false, 2, 3, "reached /b"),
    (false, 3, 3, "reached /b"),
    (true, 4, 4, "reached /cd"),
    (false, 5, 5, "reached /h"),
    (true, 1, 1, "refuted s0 s1 b e b"),
    (false, 1, 2, "refuted s0 s1 b e b"),
    (false, 2, 2, "refuted s0 s1 b e b"),
    (false, 1, 1, "refuted s0 s1 b e"),
    (false, 1, 1, "refuted s0 s1 b e b b"),
    (false, 1, 1, "refuted s0 s1 b b"),
    (false, 1, 1, "refuted s0 s2 b e b"),
    (false, 1, 1, "refuted s0 s0 b e b"),
    (false, 1, 1, "refuted s0 s1 c e b"),
    (false, 1, 1, "refuted s0 s1 o e b"),
    (false, 1, 1, "refuted s0 s1 b parent b"),
    (false, 1, 1, "refuted s0 s1 b byte b"),
    (false, 1, 1, "refuted s0 s1 b short b"),
    (false, 1, 1, "refuted s0 s1 b twice b"),
    (false, 1, 1, "refuted b"),
    (true, 3, 3, "refuted s0 b b"),
    (false, 3, 3, "refuted s0 b s1 b b"),
    (false, 2, 2, "refuted s0 b b"),
    (true, 6, 6, "refuted s0 s1 s6 b h b b"),
    (false, 6, 6, "refuted s0 s1 s6 b c b b"),
    (false, 6, 6, "refuted s0 s1 s6 h b b b"),
    (false, 6, 6, "refuted s0 h b"),
    (true, 1, 1, "undecided 1 16: s0 o o"),
    (true, 1, 1, "undecided 1 4096: s0 o o"),
    (false, 1, 1, "undecided 1 15: s0 o o"),
    (false, 1, 1, "undecided 1 4097: s0 o o"),
    (false, 1, 1, "undecided 0 16: o"),
    (false, 1, 1, "undecided 2 16: s0 o o"),
    (false, 1, 1, "undecided 1 16: s0 o b"),
    (false, 1, 1, "undecided 65537 16: s0 o o"),
    (false, 1, 1, "undecided 4 16: s0 s1 b e b"),
    (false, 1, 2, "undecided 1 16: s0 o o"),
];

#[test]
fn lawful_rows_are_told_from_others(rt: HostRuntime) -> Result<(), Fail> {
    let config = config(rt.alloc())?;
    for (want, route, place, line) in ROWS {
        let row = row_of(rt.alloc(), place, line)?;
        assert_eq!(rt;
            is_lawful(rt.alloc(), &config, route, &row)?,
            want,
            "{line}"
        );
    }
    Ok(())
}
