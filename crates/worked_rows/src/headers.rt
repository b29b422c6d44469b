// Rules on headers that tests expect, edits of headers at four levels, and virtual clusters.
use crate::cases::{CONFIG, outcome};
use crate::rules::{all_pass, meets};
use check_core::Status;
use std::alloc::Global;
use std::test::Fail;

/// A rule on a header that isn't there.
const ABSENT: &str =
    r#"{"tests":[{"test_name":"t","input":{"authority":"x.com","path":"/"},"validate":{"request_header_matches":[{"name":"x"}]}}]}"#;

const ABSENT_LINES: &str =
    r#"{"failures":[{"field":"request_header_matches","index":0}],"test":"t","verdict":"fail"}
{"covered":1,"failed":1,"routes":1,"tests":1}
"#;

#[test]
fn failing_rule_is_told_by_its_index(rt: HostRuntime) -> Result<(), Fail> {
    let (status, bytes) = outcome(rt.alloc(), &["check", "c", "t"], CONFIG, ABSENT, 4096)?;
    assert_eq!(rt; bytes.as_slice(), ABSENT_LINES.as_bytes());
    assert!(rt; status == Status::TestsFailed);
    Ok(())
}

/// Fails with the first row `VALIDATE INPUT` whose test fails over the configuration.
fn all_meet(alloc: Global, config: &str, rows: &str) -> Result<(), Fail> {
    for row in rows.lines() {
        let Some((validate, input)) = row.split_once(' ') else {
            return Err(Fail::new(row));
        };
        if !meets(alloc, config, validate, input)? {
            return Err(Fail::new(row));
        }
    }
    Ok(())
}

/// `x` is set at all four levels, and a rewrite changes host and path.
const LEVELS: &str = r#""virtual_hosts":[{"name":"h","domains":["*"],
"request_headers_to_add":[{"header":{"key":"x","value":"host"},"append_action":"OVERWRITE_IF_EXISTS_OR_ADD"}],
"routes":[{"match":{"prefix":"/direct"},"direct_response":{"status":200},
"response_headers_to_add":[{"header":{"key":"s","value":"2"}}]},
{"match":{"prefix":"/a"},"route":{"prefix_rewrite":"/b","host_rewrite_literal":"y.com","weighted_clusters":{"clusters":[{"name":"c","weight":1,
"request_headers_to_add":[{"header":{"key":"x","value":"cluster"},"append_action":"OVERWRITE_IF_EXISTS_OR_ADD"}]}]}},
"request_headers_to_add":[{"header":{"key":"x","value":"route"},"append_action":"OVERWRITE_IF_EXISTS_OR_ADD"}],
"response_headers_to_add":[{"header":{"key":"s","value":"2"}}]}]}],
"request_headers_to_add":[{"header":{"key":"x","value":"config"},"append_action":"OVERWRITE_IF_EXISTS_OR_ADD"}]}"#;

const LEAST_SPECIFIC: &str =
    r#"{"request_header_matches":[{"name":"x","exact_match":"config"}]} {"authority":"x.com","path":"/a"}
{"request_header_matches":[{"name":":path","exact_match":"/b?q"},{"name":":authority","exact_match":"y.com"}]} {"authority":"x.com","path":"/a?q"}
{"request_header_matches":[{"name":":method","exact_match":"PUT"},{"name":"x-forwarded-proto","exact_match":"https"}]} {"authority":"x.com","path":"/a","method":"PUT","ssl":true}
{"request_header_matches":[{"name":"x","present_match":false},{"name":":path","exact_match":"/direct"}]} {"authority":"x.com","path":"/direct"}
{"request_header_matches":[{"name":":authority","exact_match":"x.com"}]} {"authority":"x.com","path":"/nowhere"}
{"response_header_matches":[{"name":"s","exact_match":"1,2"}]} {"authority":"x.com","path":"/a","additional_response_headers":[{"key":"s","value":"1"}]}
{"response_header_matches":[{"name":"s","exact_match":"2"},{"name":":path","present_match":false}]} {"authority":"x.com","path":"/direct"}
{"response_header_matches":[{"name":"s","exact_match":"1"}]} {"authority":"x.com","path":"/nowhere","additional_response_headers":[{"key":"s","value":"1"}]}"#;

const MOST_SPECIFIC: &str =
    r#"{"request_header_matches":[{"name":"x","exact_match":"cluster"}]} {"authority":"x.com","path":"/a"}"#;

/// The configuration's edits come last, or with the switch those of the weighted cluster. Rules look at what is sent on.
#[test]
fn rules_look_at_edited_headers(rt: HostRuntime) -> Result<(), Fail> {
    let alloc = rt.alloc();
    let config = format!(in alloc; "{}{LEVELS}", "{")?;
    all_meet(alloc, config.as_str(), LEAST_SPECIFIC)?;
    let switched = format!(in alloc;
        "{}{LEVELS}",
        r#"{"most_specific_header_mutations_wins":true,"#
    )?;
    all_meet(alloc, switched.as_str(), MOST_SPECIFIC)?;
    Ok(())
}

/// A host that removes the header that its route adds.
const REMOVED: &str =
    r#""virtual_hosts":[{"name":"h","domains":["*"],"request_headers_to_remove":["x"],
"routes":[{"match":{"prefix":"/"},"route":{"cluster":"a"},"request_headers_to_add":[{"header":{"key":"x","value":"1"}}]}]}]}"#;

const IS_ABSENT: &str =
    r#"{"request_header_matches":[{"name":"x","present_match":false}]} {"authority":"x.com","path":"/"}"#;

const IS_THERE: &str =
    r#"{"request_header_matches":[{"name":"x","exact_match":"1"}]} {"authority":"x.com","path":"/"}"#;

#[test]
fn host_removes_what_its_route_adds(rt: HostRuntime) -> Result<(), Fail> {
    let alloc = rt.alloc();
    let config = format!(in alloc; "{}{REMOVED}", "{")?;
    all_meet(alloc, config.as_str(), IS_ABSENT)?;
    let switched = format!(in alloc;
        "{}{REMOVED}",
        r#"{"most_specific_header_mutations_wins":true,"#
    )?;
    all_meet(alloc, switched.as_str(), IS_THERE)?;
    Ok(())
}

const CLUSTERS: &str = r#"{"virtual_hosts":[{"name":"h","domains":["*"],
"virtual_clusters":[{"name":"get","headers":[{"name":":method","exact_match":"GET"}]}],
"routes":[{"match":{"prefix":"/"},"route":{"cluster":"a"}}]}]}"#;

const CLUSTER_ROWS: &str = r#"get {"authority":"x.com","path":"/"}
other {"authority":"x.com","path":"/","method":"POST"}"#;

#[test]
fn virtual_clusters_are_named(rt: HostRuntime) -> Result<(), Fail> {
    all_pass(rt.alloc(), CLUSTERS, "virtual_cluster_name", CLUSTER_ROWS)?;
    Ok(())
}
