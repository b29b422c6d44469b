// Matcher trees: where they lead, and how deep they may be nested.
use crate::cases::PASSING;
use crate::refusals::is_refused;
use crate::rules::all_pass;
use std::alloc::Global;
use std::test::Fail;
use text_base::OutOfMemory;

/// A prefix map whose longer key leads to a list without an entry that holds.
const PREFIXES: &str = r#"{"virtual_hosts":[{"name":"h","domains":["*"],"matcher":{"matcher_tree":{
"input":{"typed_config":{"@type":"type.googleapis.com/envoy.type.matcher.v3.HttpRequestHeaderMatchInput","header_name":":path"}},
"prefix_match_map":{"map":{
"/a":{"action":{"typed_config":{"@type":"type.googleapis.com/envoy.config.route.v3.Route","match":{"prefix":"/"},"route":{"cluster":"c1"}}}},
"/a/b":{"matcher":{"matcher_list":{"matchers":[{
"predicate":{"single_predicate":{
"input":{"typed_config":{"@type":"type.googleapis.com/envoy.type.matcher.v3.HttpRequestHeaderMatchInput","header_name":":path"}},
"value_match":{"exact":"/"}}},
"on_match":{"action":{"typed_config":{"@type":"type.googleapis.com/envoy.config.route.v3.Route","match":{"prefix":"/"},"route":{"cluster":"c0"}}}}}]}}}}}},
"on_no_match":{"action":{"typed_config":{"@type":"type.googleapis.com/envoy.config.route.v3.RouteList","routes":[
{"match":{"path":"/x"},"route":{"cluster":"c2"}},{"match":{"prefix":"/"},"route":{"cluster":"c3"}}]}}}}}]}"#;

const PREFIX_ROWS: &str = r#" {"authority":"x.com","path":"/a/b/c"}
c1 {"authority":"x.com","path":"/a/c"}
c1 {"authority":"x.com","path":"/a"}
c2 {"authority":"x.com","path":"/x"}
c3 {"authority":"x.com","path":"/A"}"#;

/// An exact map over a query parameter, and a list for what it doesn't take.
const EXACT: &str = r#"{"virtual_hosts":[{"name":"h","domains":["*"],"matcher":{"matcher_tree":{
"input":{"name":"q","typed_config":{"@type":"type.googleapis.com/envoy.type.matcher.v3.HttpRequestQueryParamMatchInput","query_param":"k"}},
"exact_match_map":{"map":{
"":{"action":{"typed_config":{"@type":"type.googleapis.com/envoy.config.route.v3.Route","match":{"prefix":"/"},"route":{"cluster":"none"}}}},
"B":{"action":{"typed_config":{"@type":"type.googleapis.com/envoy.config.route.v3.Route","match":{"prefix":"/"},"route":{"cluster":"B"}}}},
"a":{"action":{"typed_config":{"@type":"type.googleapis.com/envoy.config.route.v3.Route","match":{"path":"/a"},"route":{"cluster":"a"}}}}}}},
"on_no_match":{"matcher":{"matcher_list":{"matchers":[
{"predicate":{"or_matcher":{"predicate":[
{"single_predicate":{
"input":{"typed_config":{"@type":"type.googleapis.com/envoy.type.matcher.v3.HttpRequestHeaderMatchInput","header_name":"X-A"}},
"value_match":{"prefix":"on"}}},
{"and_matcher":{"predicate":[
{"single_predicate":{
"input":{"typed_config":{"@type":"type.googleapis.com/envoy.type.matcher.v3.HttpRequestHeaderMatchInput","header_name":":method"}},
"value_match":{"safe_regex":{"regex":"P.*"}}}},
{"single_predicate":{
"input":{"typed_config":{"@type":"type.googleapis.com/envoy.type.matcher.v3.HttpRequestHeaderMatchInput","header_name":":authority"}},
"value_match":{"exact":"Y.com","ignore_case":true}}}]}}]}},
"on_match":{"action":{"typed_config":{"@type":"type.googleapis.com/envoy.config.route.v3.Route","match":{"prefix":"/"},"route":{"cluster":"some"}}}}},
{"predicate":{"not_matcher":{"single_predicate":{
"input":{"typed_config":{"@type":"type.googleapis.com/envoy.type.matcher.v3.HttpRequestHeaderMatchInput","header_name":"x-b"}},
"value_match":{"exact":"1"}}}},
"on_match":{"action":{"typed_config":{"@type":"type.googleapis.com/envoy.config.route.v3.Route","match":{"prefix":"/"},"route":{"cluster":"other"}}}}}]}}}}}]}"#;

/// An empty text isn't an absent one, a key keeps its letter case, and a route whose own match fails is no route.
const EXACT_ROWS: &str = r#"none {"authority":"x.com","path":"/?k"}
B {"authority":"x.com","path":"/?k=B&k=a"}
a {"authority":"x.com","path":"/a?k=a"}
 {"authority":"x.com","path":"/b?k=a"}
other {"authority":"x.com","path":"/?k=b"}
other {"authority":"x.com","path":"/"}
some {"authority":"x.com","path":"/","additional_request_headers":[{"key":"x-a","value":"only"}]}
some {"authority":"y.com","path":"/","method":"PUT"}
other {"authority":"y.com","path":"/","method":"GET"}
 {"authority":"x.com","path":"/","additional_request_headers":[{"key":"x-b","value":"1"}]}"#;

/// A tree takes one way, and what it takes decides. An absent text takes no entry and satisfies no predicate.
#[test]
fn trees_lead_to_routes(rt: HostRuntime) -> Result<(), Fail> {
    let alloc = rt.alloc();
    all_pass(alloc, PREFIXES, "cluster_name", PREFIX_ROWS)?;
    all_pass(alloc, EXACT, "cluster_name", EXACT_ROWS)?;
    Ok(())
}

/// A configuration whose matchers are nested in one another so many times, around the innermost one.
fn nested(alloc: Global, times: u32, innermost: &str) -> Result<String, OutOfMemory> {
    let mut text = format!(in alloc;
        "{}",
        r#"{"virtual_hosts":[{"name":"h","domains":["*"],"matcher":"#
    )?;
    for _ in 0..times {
        text.push_str(r#"{"on_no_match":{"matcher":"#)?;
    }
    text.push_str(innermost)?;
    for _ in 0..times {
        text.push_str("}}")?;
    }
    text.push_str("}]}")?;
    Ok(text)
}

/// The line of an offence of this kind at the thirteenth matcher.
fn thirteenth(alloc: Global, kind: &str) -> Result<String, OutOfMemory> {
    let mut line = format!(in alloc;
        "{}{kind}{}",
        r#"{"kind":""#, r#"","place":"/virtual_hosts/0/matcher"#
    )?;
    for _ in 0..12 {
        line.push_str("/on_no_match/matcher")?;
    }
    line.push_str("\",\"refused\":\"config\"}\n")?;
    Ok(line)
}

/// Twelve matchers may be nested. A thirteenth is refused whatever its members are, but it is an object.
#[test]
fn matchers_are_nested_twelve_deep(rt: HostRuntime) -> Result<(), Fail> {
    let alloc = rt.alloc();
    let twelve = nested(alloc, 11, "{}")?;
    all_pass(
        alloc,
        twelve.as_str(),
        "cluster_name",
        r#" {"authority":"x.com","path":"/"}"#,
    )?;
    for (kind, innermost) in [("TooDeep", r#"{"foo":1}"#), ("WrongKind", "7")] {
        let config = nested(alloc, 12, innermost)?;
        let line = thirteenth(alloc, kind)?;
        assert!(rt;
            is_refused(alloc, config.as_str(), PASSING, line.as_str())?,
            "{kind}"
        );
    }
    Ok(())
}
