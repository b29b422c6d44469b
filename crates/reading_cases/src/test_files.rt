// Test files with what is read of their first test, or their first offence.
use crate::configs::refusal_told;
use crate::limits::repeated;
use json_walk::ReadFail;
use sqlite_items::Items;
use std::alloc::Global;
use std::test::Fail;
use test_read::{Expect, Test, read_tests};
use text_base::{OutOfMemory, Parts, Text};

const FILES: &str = r#"{"tests": => Syntax
[] => WrongKind
{} => Missing /tests
{"tests":{}} => WrongKind /tests
{"tests":[],"test":1} => UnknownField /test
{"tests":[null]} => WrongKind /tests/0
{"tests":[{}]} => Missing /tests/0/test_name
{"tests":[{"test_name":1}]} => WrongKind /tests/0/test_name
{"tests":[{"test_name":true}]} => WrongKind /tests/0/test_name
{"tests":[{"test_name":"t","validate":{}}]} => Missing /tests/0/input
{"tests":[{"test_name":"t","input":{"authority":"x.com","path":"/"}}]} => Missing /tests/0/validate
{"tests":[{"testName":"t","test_name":"t"}]} => Conflict /tests/0/test_name
{"tests":[]} => no test"#;

const INPUTS: &str =
    r#"{"authority":"x.com","path":"/"} => name=t GET x.com / https=false internal=false random=0 runtime= headers; back; cluster=a virtual=absent host=absent authority=absent path=absent url=absent rules=0 and 0
7 => WrongKind
{"path":"/"} => Missing /authority
{"authority":"","path":"x","method":""} => BadText /authority
{"authority":"x.com","path":"a","method":"G T"} => BadText /path
{"authority":"x.com","path":"/","method":"G T"} => BadText /method
{"authority":"x.com","path":"/","runtime":"\u0001"} => BadText /runtime
{"authority":"","path":"/","ssl":"true"} => WrongKind /ssl
{"authority":"x.com","path":"/","random_value":"18446744073709551616"} => OutOfRange /random_value
{"authority":"x.com","path":"/","randomValue":1.5} => WrongKind /random_value
{"authority":"x.com","path":"/","headers":[]} => UnknownField /headers
{"authority":"x.com","path":"/","additional_request_headers":[{"key":":path"}]} => BadText /additional_request_headers/0/key
{"authority":"","path":"/","additional_request_headers":[{"key":"a"},{"key":"Host"}]} => BadText /additional_request_headers/1/key
{"authority":"","path":"/","additional_response_headers":[{"key":"X-Forwarded-Proto","value":" "}]} => BadText /additional_response_headers/0/key
{"authority":"x.com","path":"/","additional_response_headers":[{"key":"a","value":"b "}]} => BadText /additional_response_headers/0/value
{"authority":"x.com","path":"/","additional_request_headers":[{"key":"a","value":"é"}]} => BadText /additional_request_headers/0/value"#;

const EXPECTATIONS: &str = r#"{} => Missing
{"cluster_name":null} => Missing
[] => WrongKind
{"virtual_host_name":1} => WrongKind /virtual_host_name
{"virtualClusterName":1} => WrongKind /virtual_cluster_name
{"cluster_name":1,"virtual_cluster_name":2} => WrongKind /cluster_name
{"path_redirect":["x"]} => WrongKind /path_redirect
{"requestHeaderMatches":[],"response_header_matches":[]} => Missing
{"request_header_matches":[{"name":"a"},{}],"response_header_matches":[1]} => Missing /request_header_matches/1/name
{"response_header_matches":[{"name":"a b"}]} => BadText /response_header_matches/0/name
{"cluster":"a"} => UnknownField /cluster
{"clusterName":null,"cluster_name":"a"} => Conflict /cluster_name"#;

const FULL: &str =
    r#"{"testName":"é","input":{"authority":"x.com:80","path":"/a?b","method":"PUT","internal":true,"ssl":true,"randomValue":"18446744073709551615","runtime":"k","additional_request_headers":[{"key":"X-A","value":"1 2"},{"key":"x-b"}],"additionalResponseHeaders":[{"value":"","key":"Server"}]},"validate":{"cluster_name":"","virtualHostName":"h","hostRewrite":null,"path_rewrite":"/a","pathRedirect":"u","virtual_cluster_name":"v","request_header_matches":[{"name":"a"},{"name":"b"}],"responseHeaderMatches":[{"name":"c"}]}} => name=é PUT x.com:80 /a?b https=true internal=true random=18446744073709551615 runtime=k headers x-a:1 2 x-b:; back server:; cluster= virtual=v host=h authority=absent path=/a url=u rules=2 and 1"#;

/// Rows `TEXT => OUTCOME`. TEXT stands between the two texts of a test file. OUTCOME tells the first test, or the kind of
/// the offence with its place below the one that is named.
const TABLES: [(&str, &str, &str, &str); 4] = [
    ("", "", "", FILES),
    ("/tests/0/input", INPUT, EXPECTED, INPUTS),
    (
        "/tests/0/validate",
        r#"{"tests":[{"test_name":"t","input":{"authority":"x.com","path":"/"},"validate":"#,
        "}]}",
        EXPECTATIONS,
    ),
    ("", r#"{"tests":["#, "]}", FULL),
];

/// What stands before the input of the only test of a file.
const INPUT: &str = r#"{"tests":[{"test_name":"t","input":"#;

/// A lawful expectation and what stands behind it.
const EXPECTED: &str = r#","validate":{"cluster_name":"a"}}]}"#;

fn text_of(bytes: &[u8]) -> &str {
    match str::from_utf8(bytes) {
        Ok(text) => text,
        Err(_) => "no text",
    }
}

fn headers_told(alloc: Global, headers: &[(Items<u8>, Items<u8>)]) -> Result<String, OutOfMemory> {
    let mut told = String::new(alloc);
    for (name, value) in headers {
        let header = format!(in alloc;
            " {}:{}",
            text_of(name.as_slice()),
            text_of(value.as_slice())
        )?;
        told.push_str(header.as_str())?;
    }
    Ok(told)
}

fn parts_told(alloc: Global, parts: &Parts) -> Result<String, OutOfMemory> {
    let headers = headers_told(alloc, parts.headers.as_slice())?;
    format!(in alloc;
        "{} {} {} https={} internal={} random={} runtime={} headers{headers}",
        text_of(parts.method.as_slice()),
        text_of(parts.authority.as_slice()),
        text_of(parts.target.as_slice()),
        parts.https,
        parts.internal,
        parts.random,
        text_of(parts.runtime.as_slice())
    )
}

fn or_absent(expected: &Option<Text>) -> &str {
    match expected {
        Some(text) => text.as_str(),
        None => "absent",
    }
}

fn expectation_told(alloc: Global, expect: &Expect) -> Result<String, OutOfMemory> {
    format!(in alloc;
        "cluster={} virtual={} host={} authority={} path={} url={} rules={} and {}",
        or_absent(&expect.cluster_name),
        or_absent(&expect.virtual_cluster_name),
        or_absent(&expect.virtual_host_name),
        or_absent(&expect.host_rewrite),
        or_absent(&expect.path_rewrite),
        or_absent(&expect.path_redirect),
        expect.request_header_matches.len(),
        expect.response_header_matches.len()
    )
}

fn test_told(alloc: Global, test: &Test) -> Result<String, OutOfMemory> {
    let parts = parts_told(alloc, test.request.parts())?;
    let back = headers_told(alloc, test.response.list.as_slice())?;
    let expected = expectation_told(alloc, &test.expect)?;
    format!(in alloc;
        "name={} {parts}; back{back}; {expected}",
        test.name.as_str()
    )
}

fn first_told(alloc: Global, tests: &[Test]) -> Result<String, OutOfMemory> {
    match tests {
        [test, ..] => test_told(alloc, test),
        [] => String::from_str(alloc, "no test"),
    }
}

/// The first test of the file that the text is, or its offence.
fn file_outcome(alloc: Global, named: &str, text: &str) -> Result<String, OutOfMemory> {
    match read_tests(alloc, text.as_bytes()) {
        Ok(tests) => first_told(alloc, tests.as_slice()),
        Err(ReadFail::Refused(refusal)) => refusal_told(alloc, named, &refusal),
        Err(ReadFail::OutOfMemory) => Err(OutOfMemory),
    }
}

/// Fails with the first row that doesn't hold.
fn all_hold(alloc: Global, named: &str, front: &str, behind: &str, rows: &str) -> Result<(), Fail> {
    for row in rows.lines() {
        let Some((text, want)) = row.split_once(" => ") else {
            return Err(Fail::new(row));
        };
        let text = format!(in alloc; "{front}{text}{behind}")?;
        let found = file_outcome(alloc, named, text.as_str())?;
        if found.as_str() != want {
            return Err(Fail::new(row));
        }
    }
    Ok(())
}

#[test]
fn test_files_are_read_or_have_an_offence(rt: HostRuntime) -> Result<(), Fail> {
    for (named, front, behind, rows) in TABLES {
        all_hold(rt.alloc(), named, front, behind, rows)?;
    }
    Ok(())
}

const HEADERS: &str = r#"{"tests":[{"test_name":"t","input":{
"authority":"x.com","path":"/","additional_request_headers":["#;

#[test]
fn headers_are_limited(rt: HostRuntime) -> Result<(), Fail> {
    let alloc = rt.alloc();
    let behind = r#"{"key":""}]},"validate":{"cluster_name":"a"}}]}"#;
    for (count, want) in [(999, "BadText /999/key"), (1_000, "TooMany")] {
        let text = repeated(alloc, HEADERS, r#"{"key":"a"},"#, count, behind)?;
        let named = "/tests/0/input/additional_request_headers";
        let found = file_outcome(alloc, named, text.as_str())?;
        assert_eq!(rt; found.as_str(), want, "{count}");
    }
    Ok(())
}
