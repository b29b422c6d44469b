// Lists and texts of the longest length, and those that are longer by one.
use crate::configs::config_outcome;
use crate::told::Part;
use std::alloc::Global;
use std::test::Fail;
use text_base::OutOfMemory;

/// The piece so many times, between two texts.
pub(crate) fn repeated(
    alloc: Global,
    front: &str,
    piece: &str,
    count: usize,
    behind: &str,
) -> Result<String, OutOfMemory> {
    let pieces = piece.repeat(alloc, count)?;
    format!(in alloc; "{front}{pieces}{behind}")
}

const DOMAIN: &str = r#"{"virtual_hosts":[{"name":"h","domains":[""#;

const ROUTES: &str = r#"{"virtual_hosts":[{"name":"h","domains":["*"],"routes":["#;

const ROUTE: &str = r#"{"match":{"prefix":"/"},"route":{"cluster":"a"}},"#;

const LAST_ROUTE: &str = r#"{"match":{"prefix":"/"},"route":{"cluster":"a"}}]}]}"#;

const PREFIX: &str = r#"{"virtual_hosts":[{"name":"h","domains":["*"],"routes":[
{"route":{"cluster":"a"},"match":{"prefix":""#;

const HEADER: &str = r#"{"virtual_hosts":[{"name":"h","domains":["*"],"routes":[
{"route":{"cluster":"a"},"match":{"prefix":"/","headers":[{"name":""#;

const ADDED: &str = r#"{"request_headers_to_add":[{"header":{"key":""#;

const LONG: [(&str, &str, usize, &str, &str); 9] = [
    (DOMAIN, "a", 1_024, r#""]}]}"#, "taken"),
    (
        DOMAIN,
        "a",
        1_025,
        r#""]}]}"#,
        "TooMany /virtual_hosts/0/domains/0",
    ),
    (ROUTES, ROUTE, 999, LAST_ROUTE, "taken"),
    (
        ROUTES,
        ROUTE,
        1_000,
        LAST_ROUTE,
        "TooMany /virtual_hosts/0/routes",
    ),
    (PREFIX, "a", 4_096, r#""}}]}]}"#, "taken"),
    (
        PREFIX,
        "a",
        4_097,
        r#""}}]}]}"#,
        "TooMany /virtual_hosts/0/routes/0/match/prefix",
    ),
    (HEADER, "a", 1_024, r#""}]}}]}]}"#, "taken"),
    (
        HEADER,
        "a",
        1_025,
        r#""}]}}]}]}"#,
        "TooMany /virtual_hosts/0/routes/0/match/headers/0/name",
    ),
    (
        ADDED,
        "a",
        1_025,
        r#""}}]}"#,
        "TooMany /request_headers_to_add/0/header/key",
    ),
];

#[test]
fn long_texts_and_lists_are_too_many(rt: HostRuntime) -> Result<(), Fail> {
    let alloc = rt.alloc();
    for (front, piece, count, behind, want) in LONG {
        let text = repeated(alloc, front, piece, count, behind)?;
        let found = config_outcome(alloc, Part::Whole, "", text.as_str())?;
        assert_eq!(rt; found.as_str(), want, "{count}");
    }
    Ok(())
}

/// What is told of a host with so many domains and 1,000 routes.
fn domains_told(alloc: Global, count: usize) -> Result<String, OutOfMemory> {
    let mut domains = String::from_str(alloc, DOMAIN)?;
    for number in 1..count {
        let domain = format!(in alloc; "{number}{}", r#"",""#)?;
        domains.push_str(domain.as_str())?;
    }
    let routes = r#"*"],"routes":["#;
    domains.push_str(routes)?;
    let text = repeated(alloc, domains.as_str(), ROUTE, 999, LAST_ROUTE)?;
    config_outcome(alloc, Part::Whole, "", text.as_str())
}

#[test]
fn domains_are_limited(rt: HostRuntime) -> Result<(), Fail> {
    for (count, want) in [(4_000, "taken"), (4_001, "TooMany /virtual_hosts")] {
        let told = domains_told(rt.alloc(), count)?;
        assert_eq!(rt; told.as_str(), want, "{count}");
    }
    Ok(())
}
