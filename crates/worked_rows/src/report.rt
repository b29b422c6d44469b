// Reports that `verify` accepts, and reports that it rejects with the number of the first row at fault.
use crate::calls::told;
use crate::reach::{PRESENCE, SHADOWED, table};
use check_core::Status;
use std::alloc::Global;
use std::test::Fail;

/// Whether `verify` writes this line of a table and its report, and ends with the line's status.
fn is_answered(alloc: Global, config: &str, report: &str, line: &str) -> Result<bool, Fail> {
    let (status, text) = told(alloc, "verify c t", config, report)?;
    let due = if line.starts_with(r#"{"accepted":"#) {
        Status::Done
    } else {
        Status::Rejected
    };
    let written = text.strip_suffix("\n").unwrap_or("no line feed");
    Ok(status == due && written == line)
}

/// The rows of a prefix and of a path behind it.
pub(crate) const ROWS: &str =
    r#"{"request":{"authority":"x","headers":[],"internal":false,"method":"GET","path":"/a","random_value":0,"runtime":"","ssl":false},"route":"/virtual_hosts/0/routes/0","verdict":"reached"}
{"nodes":[["s",0],["s",1],["b"],["e","target",[[0,32],[0,47],[2,33],[2,97],[4,32],[4,33],[4,47],[7,120],[8,63],[9,32]]],["b"]],"route":"/virtual_hosts/0/routes/1","verdict":"refuted"}
"#;

const FIRST: &str =
    r#"{"request":{"authority":"x","headers":[],"internal":false,"method":"GET","path":"/a","random_value":0,"runtime":"","ssl":false},"route":"/virtual_hosts/0/routes/0","verdict":"reached"}
"#;

/// A row of the second route, written with blanks and in another order.
const SPELLED: &str =
    r#" {"verdict" : "refuted", "route":"/virtual_hosts/0/routes/1","nodes":[["s",0],["s",1],["b"],["e","target",[[0,32],[0,47],[2,33],[2,97],[4,32],[4,33],[4,47],[7,120],[8,63],[9,32]]],["b"]]}
"#;

const UNFINISHED: &str =
    r#"{"nodes":[["s",0],["o"],["o"]],"route":"/virtual_hosts/0/routes/1","splits":1,"states":1000,"verdict":"undecided"}
"#;

/// A decided leaf stands behind an unfinished one.
const OUT_OF_ORDER: &str =
    r#"{"nodes":[["s",0],["o"],["b"]],"route":"/virtual_hosts/0/routes/1","splits":1,"states":1000,"verdict":"undecided"}
"#;

const NO_SPLITS: &str =
    r#"{"nodes":[["o"]],"route":"/virtual_hosts/0/routes/1","splits":0,"states":1000,"verdict":"undecided"}
"#;

/// A request that is sent to the first route.
const TAKEN: &str =
    r#"{"request":{"authority":"x","headers":[],"internal":false,"method":"GET","path":"/a/x","random_value":0,"runtime":"","ssl":false},"route":"/virtual_hosts/0/routes/1","verdict":"reached"}
"#;

#[test]
fn second_rows_are_judged(rt: HostRuntime) -> Result<(), Fail> {
    let alloc = rt.alloc();
    let config = table(alloc, SHADOWED)?;
    let rows = [
        (SPELLED, r#"{"accepted":2}"#),
        (UNFINISHED, r#"{"accepted":2}"#),
        (OUT_OF_ORDER, r#"{"rejected":2}"#),
        (NO_SPLITS, r#"{"rejected":2}"#),
        (TAKEN, r#"{"rejected":2}"#),
        (FIRST, r#"{"rejected":2}"#),
        ("{\n", r#"{"rejected":2}"#),
        ("\n", r#"{"rejected":2}"#),
        ("", r#"{"rejected":2}"#),
    ];
    for (second, line) in rows {
        let report = format!(in alloc; "{FIRST}{second}")?;
        assert!(rt;
            is_answered(alloc, config.as_str(), report.as_str(), line)?,
            "{second}"
        );
    }
    Ok(())
}

/// The third route takes nothing: a request has the header or hasn't.
const PRESENCE_ROWS: &str =
    r#"{"request":{"authority":"x","headers":[["x-a",""]],"internal":false,"method":"GET","path":"/","random_value":0,"runtime":"","ssl":false},"route":"/virtual_hosts/0/routes/0","verdict":"reached"}
{"request":{"authority":"x","headers":[],"internal":false,"method":"GET","path":"/","random_value":0,"runtime":"","ssl":false},"route":"/virtual_hosts/0/routes/1","verdict":"reached"}
{"nodes":[["s",0],["s",1],["b"],["b"],["b"]],"route":"/virtual_hosts/0/routes/2","verdict":"refuted"}
"#;

/// A host without routes, and no host, have an empty report.
#[test]
fn reports_are_judged(rt: HostRuntime) -> Result<(), Fail> {
    let alloc = rt.alloc();
    let rows = [
        (SHADOWED, ROWS, r#"{"accepted":2}"#),
        (PRESENCE, PRESENCE_ROWS, r#"{"accepted":3}"#),
        (PRESENCE, ROWS, r#"{"rejected":1}"#),
        (SHADOWED, SPELLED, r#"{"rejected":1}"#),
        (SHADOWED, "", r#"{"rejected":1}"#),
        ("", "", r#"{"accepted":0}"#),
        ("", ROWS, r#"{"rejected":1}"#),
    ];
    for (rules, report, line) in rows {
        let config = table(alloc, rules)?;
        assert!(rt;
            is_answered(alloc, config.as_str(), report, line)?,
            "{line} {report}"
        );
    }
    let no_host = r#"{"virtual_hosts":[]}"#;
    assert!(rt; is_answered(alloc, no_host, "", r#"{"accepted":0}"#)?);
    assert!(rt; is_answered(alloc, no_host, "\n", r#"{"rejected":1}"#)?);
    Ok(())
}

/// What stands in the place of a text of the rows, and which row is then at fault.
#[test]
fn damaged_rows_are_rejected(rt: HostRuntime) -> Result<(), Fail> {
    let alloc = rt.alloc();
    let config = table(alloc, SHADOWED)?;
    let damages = [
        ("[0,32]", "[11,32]", 2),
        ("[0,32]", "[0,31]", 2),
        (",[9,32]", "", 2),
        ("[9,32]", "[9,32],[0,32]", 2),
        (r#"["s",1]"#, r#"["s",2]"#, 2),
        (r#"["s",1]"#, r#"["s",0]"#, 2),
        (r#"["b"]"#, r#"["c","target"]"#, 2),
        (r#"["b"]"#, r#"["o"]"#, 2),
        (r#",["b"]],"#, "],", 2),
        (r#",["b"]],"#, r#",["b"],["b"]],"#, 2),
        ("routes/1", "routes/0", 2),
        (r#","ssl":false"#, "", 1),
        ("\"refuted\"}\n", "\"refuted\"}", 2),
        ("\"refuted\"}\n", "\"refuted\"}\n ", 3),
        ("\"refuted\"}\n", "\"refuted\"}\n\n", 3),
        ("\"refuted\"}\n", "\"refuted\"}\n{}\n", 3),
    ];
    for (text, other, row) in damages {
        let report = ROWS.replacen(alloc, text, other, 1)?;
        let line = format!(in alloc; "{}{row}{}", r#"{"rejected":"#, "}")?;
        assert!(rt;
            is_answered(alloc, config.as_str(), report.as_str(), line.as_str())?,
            "{text} {other}"
        );
    }
    Ok(())
}
