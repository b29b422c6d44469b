// Which texts the terms of rules have.
use goal_form::valid_term;
use rx_auto::{Scratch, Table};
use rx_build::range;
use rx_term::{OutOfMemory, Term};
use std::alloc::Global;
use std::test::Fail;
use text_base::{Field, Text};

/// Whether the text is in the term, by a table that tests it.
pub(crate) fn is_in(alloc: Global, term: &Term, text: &[u8]) -> Result<bool, OutOfMemory> {
    let table = Table::build(alloc, term)?;
    let mut scratch = Scratch::new(alloc, table.room())?;
    Ok(table.matches(text, &mut scratch))
}

/// The first text of a row, with a `|` between any two, that is in the term and stands after `out`, or isn't and stands
/// after `in`.
fn wrong_text<'a>(alloc: Global, term: &Term, row: &'a str) -> Result<&'a str, OutOfMemory> {
    let mut wanted = true;
    for text in row.split('|') {
        match text {
            "in" => wanted = true,
            "out" => wanted = false,
            _ => {
                if is_in(alloc, term, text.as_bytes())? != wanted {
                    return Ok(text);
                }
            }
        }
    }
    Ok("none")
}

/// The start and the end of a range, and texts in it and out of it.
const RANGES: [(i64, i64, &str); 8] = [
    (-10, 0, "in|-1|-010|-10|out|0||+1|-0|-11|-|+|1|--1|-1x|- 1"),
    (0, 10, "in|9|+9|0|-0|0009|+000|out|10|-1|+10||+|-|9.0|++9"),
    (5, 5, "out|5|4|6||-5"),
    (5, 2, "out|2|3|4|5|"),
    (7, 8, "in|7|+07|out|8|6|-7|77"),
    (-1, 100, "in|-1|99|0|10|42|out|-2|100|-10|199|1000"),
    (
        i64::MIN,
        i64::MAX,
        "in|9223372036854775806|-9223372036854775808|+000000000000000000000000000000001|out|9223372036854775807|-9223372036854775809|9223372036854775808|92233720368547758060",
    ),
    (
        i64::MAX,
        i64::MIN,
        "out|9223372036854775807|-9223372036854775808|0",
    ),
];

/// A range has its start and not its end, after a sign or none, and any zeros before its digits.
#[test]
fn ranges_have_their_start_and_not_their_end(rt: HostRuntime) -> Result<(), Fail> {
    for (start, end, row) in RANGES {
        let term = range(rt.alloc(), start, end)?;
        assert_eq!(rt;
            wrong_text(rt.alloc(), &term, row)?,
            "none",
            "{start} {end}"
        );
    }
    Ok(())
}

/// The field of a name. Any other name is that of a header.
fn field_of(alloc: Global, name: &str) -> Result<Field, OutOfMemory> {
    Ok(match name {
        "authority" => Field::Authority,
        "target" => Field::Target,
        "method" => Field::Method,
        "proto" => Field::Proto,
        "random" => Field::Random,
        "runtime" => Field::Runtime,
        "internal" => Field::Internal,
        _ => Field::Header(Text::of(alloc, name)?),
    })
}

/// The first text of the row that isn't as it says of the field of this name.
fn wrong_valid<'a>(alloc: Global, name: &str, row: &'a str) -> Result<&'a str, OutOfMemory> {
    let field = field_of(alloc, name)?;
    let term = valid_term(alloc, &field)?;
    wrong_text(alloc, &term, row)
}

/// A field, and texts that are valid there and texts that aren't.
const VALID: [(&str, &str); 8] = [
    ("authority", "in|a.com|[::1]:80|out||a/b|a b"),
    ("target", "in|/|/a?b|out||a|/a#|/a b|/é"),
    ("method", "in|GET|a|out||G,T|G T"),
    ("proto", "in|http|https|out||httpss|HTTP"),
    ("random", "in|000000|123456|out||12345|1234567|12345a"),
    ("runtime", "in|k| |a |out||é"),
    ("internal", "in|true|out||false|tru|true "),
    ("x-a", "in||a|a b|a,b|out| | a|a |é"),
];

/// Each field has the texts that a request may have there.
#[test]
fn valid_terms_have_the_texts_of_their_fields(rt: HostRuntime) -> Result<(), Fail> {
    for (name, row) in VALID {
        assert_eq!(rt; wrong_valid(rt.alloc(), name, row)?, "none", "{name}");
    }
    Ok(())
}
