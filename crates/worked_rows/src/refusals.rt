// Refused configurations and test files: the line of each offence, with its kind and its place.
use crate::cases::{CONFIG, PASSING, outcome};
use check_core::Status;
use std::alloc::Global;
use std::test::Fail;
use text_base::OutOfMemory;

/// The line of an offence of this kind at this place of the file.
fn refusal_line(alloc: Global, file: &str, kind: &str, place: &str) -> Result<String, OutOfMemory> {
    format!(in alloc;
        "{}{kind}{}{place}{}{file}{}",
        r#"{"kind":""#, r#"","place":""#, r#"","refused":""#, "\"}\n"
    )
}

/// Whether the files are refused with this line.
pub(crate) fn is_refused(
    alloc: Global,
    config: &str,
    tests: &str,
    line: &str,
) -> Result<bool, OutOfMemory> {
    let (status, bytes) = outcome(alloc, &["check", "c", "t"], config, tests, 4096)?;
    Ok(status == Status::Refused && bytes.as_slice() == line.as_bytes())
}

/// Whether the text, as the configuration or the test file, is refused with this line.
fn is_told(alloc: Global, file: &str, text: &str, line: &str) -> Result<bool, OutOfMemory> {
    if file == "config" {
        is_refused(alloc, text, PASSING, line)
    } else {
        is_refused(alloc, CONFIG, text, line)
    }
}

/// Whether the line of the row `KIND PLACE: TEXT` is written, where TEXT stands between the two texts.
fn row_holds(
    alloc: Global,
    file: &str,
    row: &str,
    front: &str,
    behind: &str,
) -> Result<bool, OutOfMemory> {
    let Some((want, text)) = row.split_once(": ") else {
        return Ok(false);
    };
    let Some((kind, place)) = want.split_once(' ') else {
        return Ok(false);
    };
    let line = refusal_line(alloc, file, kind, place)?;
    let text = format!(in alloc; "{front}{text}{behind}")?;
    is_told(alloc, file, text.as_str(), line.as_str())
}

/// Fails with the first row that doesn't hold.
pub(crate) fn all_hold(
    alloc: Global,
    file: &str,
    rows: &str,
    front: &str,
    behind: &str,
) -> Result<(), Fail> {
    for row in rows.lines() {
        if !row_holds(alloc, file, row, front, behind)? {
            return Err(Fail::new(row));
        }
    }
    Ok(())
}

/// The first of two spellings of a field is met first, and its second is in conflict with it. A null name isn't there.
/// A member of no table is unknown, and its name stands escaped in the place.
const HOSTS: &str = r#"Syntax : {"name":"h
WrongKind /virtual_hosts/0: 7
UnknownField /virtual_hosts/0/foo: {"name":"h","domains":["*"],"foo":1}
UnknownField /virtual_hosts/0/a~1b~0: {"name":"h","domains":["*"],"a/b~":1}
Missing /virtual_hosts/0/name: {"name":null,"domains":["*"]}
Missing /virtual_hosts/0/domains: {"name":"h","domains":[]}
Conflict /virtual_hosts: {"name":"h","domains":["*"]}],"virtualHosts":[
BadText /virtual_hosts/0/domains/0: {"name":"h","domains":["a b"]}
Duplicate /virtual_hosts/1/domains/0: {"name":"g","domains":["A.com"]},{"name":"h","domains":["a.com"]}"#;

const RULES: &str = r#"Missing /virtual_hosts/0/routes/0/match: {}
BadText /virtual_hosts/0/routes/0/match/prefix: {"prefix":"/?"}
WrongKind /virtual_hosts/0/routes/0/match/case_sensitive: {"prefix":"/","case_sensitive":1}
Missing /virtual_hosts/0/routes/0/match/safe_regex/regex: {"safe_regex":{}}
TooMany /virtual_hosts/0/routes/0/match/safe_regex/regex: {"safe_regex":{"regex":"(a{255}){16}"}}
NotInProfile /virtual_hosts/0/routes/0/match/connect_matcher: {"connect_matcher":{}}
OutOfRange /virtual_hosts/0/routes/0/match/headers/0/range_match/start: {"prefix":"/","headers":[{"name":"n","range_match":{"start":"9223372036854775808"}}]}
NotInProfile /virtual_hosts/0/routes/0/match/headers/0/name: {"prefix":"/","headers":[{"name":"host"}]}
Conflict /virtual_hosts/0/routes/0/match/headers/0/present_match: {"prefix":"/","headers":[{"name":"n","exact_match":"","present_match":true}]}
BadText /virtual_hosts/0/routes/0/match/query_parameters/0/name: {"prefix":"/","query_parameters":[{"name":"a=b"}]}
OutOfRange /virtual_hosts/0/routes/0/match/runtime_fraction/default_value/denominator: {"prefix":"/","runtime_fraction":{"default_value":{"denominator":"TEN"}}}"#;

/// A method with a space, a header that stands for the target, and a test that expects nothing.
const TESTS: &str = r#"Syntax : [
Missing /tests/0/test_name: {"tests":[{}]}
Missing /tests/0/validate: {"tests":[{"test_name":"t","input":{"authority":"x.com","path":"/"},"validate":{}}]}
BadText /tests/0/input/method: {"tests":[{"test_name":"t","input":{"authority":"x.com","path":"/","method":"G T"},"validate":{"cluster_name":"a"}}]}
BadText /tests/0/input/additional_request_headers/0/key: {"tests":[{"test_name":"t","input":{"authority":"x.com","path":"/","additional_request_headers":[{"key":":path"}]},"validate":{"cluster_name":"a"}}]}
Missing /tests/0/validate: {"tests":[{"test_name":"t","input":{"authority":"x.com","path":"/"},"validate":{"request_header_matches":[]}}]}
WrongKind /tests/0/validate/virtual_cluster_name: {"tests":[{"test_name":"t","input":{"authority":"x.com","path":"/"},"validate":{"virtual_cluster_name":1}}]}"#;

#[test]
fn each_kind_of_offence_has_its_place(rt: HostRuntime) -> Result<(), Fail> {
    let alloc = rt.alloc();
    let front = r#"{"virtual_hosts":[{"name":"h","domains":["*"],"routes":[{"match":"#;
    let behind = r#","route":{"cluster":"a"}}]}]}"#;
    all_hold(alloc, "config", HOSTS, r#"{"virtual_hosts":["#, "]}")?;
    all_hold(alloc, "config", RULES, front, behind)?;
    all_hold(alloc, "tests", TESTS, "", "")?;
    Ok(())
}

/// The line tells the length of the longest front of the text that begins a pattern.
#[test]
fn bad_pattern_is_told_with_its_offset(rt: HostRuntime) -> Result<(), Fail> {
    let config =
        r#"{"virtual_hosts":[{"name":"h","domains":["*"],"routes":[{"match":{"safe_regex":{"regex":"(a"}},"route":{"cluster":"a"}}]}]}"#;
    let line = concat!(
        r#"{"at":2,"kind":"BadRegex","place":"/virtual_hosts/0/routes/0/match/safe_regex/regex","refused":"config"}"#,
        "\n"
    );
    assert!(rt; is_refused(rt.alloc(), config, PASSING, line)?);
    Ok(())
}
