// Matcher trees: the places of their routes, in route order, and what is refused in them.
use crate::configs::Table;
use crate::told::Part;
use read_config::read_config;
use std::test::Fail;

/// Maps of both kinds, a list and a list of routes.
const TREE: &str = r#"{"virtual_hosts":[{"name":"h","domains":["*"],"matcher":{"matcher_tree":{
"input":{"typed_config":{"@type":"type.googleapis.com/envoy.type.matcher.v3.HttpRequestHeaderMatchInput","header_name":":path"}},
"prefix_match_map":{"map":{
"/a":{"action":{"typed_config":{"@type":"type.googleapis.com/envoy.config.route.v3.Route","match":{"prefix":"/"},"route":{"cluster":"a"}}}},
"/a/b":{"matcher":{"matcher_list":{"matchers":[{"predicate":{"single_predicate":{"input":{"typed_config":{"@type":"type.googleapis.com/envoy.type.matcher.v3.HttpRequestHeaderMatchInput","header_name":":path"}},"value_match":{"exact":"/"}}},
"on_match":{"action":{"typed_config":{"@type":"type.googleapis.com/envoy.config.route.v3.Route","match":{"prefix":"/"},"route":{"cluster":"a"}}}}}]}}},
"/Z":{"matcher":{"matcher_tree":{"input":{"typed_config":{"@type":"type.googleapis.com/envoy.type.matcher.v3.HttpRequestHeaderMatchInput","header_name":":path"}},"exact_match_map":{"map":{
"z":{"action":{"typed_config":{"@type":"type.googleapis.com/envoy.config.route.v3.Route","match":{"prefix":"/"},"route":{"cluster":"a"}}}},
"Z":{"action":{"typed_config":{"@type":"type.googleapis.com/envoy.config.route.v3.Route","match":{"prefix":"/"},"route":{"cluster":"a"}}}}}}}}}}}},
"on_no_match":{"action":{"typed_config":{"@type":"type.googleapis.com/envoy.config.route.v3.RouteList","routes":[
{"match":{"path":"/x"},"route":{"cluster":"a"}},{"match":{"prefix":"/"},"route":{"cluster":"a"}}]}}}}}]}"#;

/// The longer key of a prefix map comes first; keys of one length, and those of an exact map, go in byte order.
const PLACES: &str =
    r#"/matcher_tree/prefix_match_map/map/~1a~1b/matcher/matcher_list/matchers/0/on_match/action/typed_config
/matcher_tree/prefix_match_map/map/~1Z/matcher/matcher_tree/exact_match_map/map/Z/action/typed_config
/matcher_tree/prefix_match_map/map/~1Z/matcher/matcher_tree/exact_match_map/map/z/action/typed_config
/matcher_tree/prefix_match_map/map/~1a/action/typed_config
/on_no_match/action/typed_config/routes/0
/on_no_match/action/typed_config/routes/1"#;

#[test]
fn routes_of_a_tree_have_their_places(rt: HostRuntime) -> Result<(), Fail> {
    let Ok(config) = read_config(rt.alloc(), TREE.as_bytes()) else {
        return Err(Fail::new("the configuration is refused"));
    };
    let count = config.route_count();
    for (number, place) in PLACES.lines().enumerate() {
        let at = number as u32;
        assert!(rt; at < count, "{place}");
        let found = config.route_at(at).place.as_str();
        let below = found.strip_prefix("/virtual_hosts/0/matcher");
        assert!(rt; below.is_some_and(|below| below == place), "{place}");
    }
    assert_eq!(rt; count, 6);
    Ok(())
}

/// Offences of trees: those of an extension's type come before its members, and lists and maps have members.
const OFFENCES: &str = r#"7 => WrongKind /matcher
{"matcherLists":{}} => UnknownField /matcher/matcherLists
{"matcher_list":{"matchers":[{"predicate":{"single_predicate":{"input":{"typed_config":{"@type":"type.googleapis.com/envoy.type.matcher.v3.HttpRequestHeaderMatchInput","header_name":"x"}},"value_match":{"exact":"1"}}},"on_match":{"matcher":{}}}]},"matcher_tree":{"input":{"typed_config":{"@type":"type.googleapis.com/envoy.type.matcher.v3.HttpRequestHeaderMatchInput","header_name":"x"}},"exact_match_map":{"map":{"a":{"matcher":{}}}}}} => Conflict /matcher/matcher_tree
{"matcher_list":{"matchers":[]}} => Missing /matcher/matcher_list/matchers
{"matcher_tree":{"input":{"typed_config":{"@type":"type.googleapis.com/envoy.type.matcher.v3.HttpRequestHeaderMatchInput","header_name":"x"}}}} => Missing /matcher/matcher_tree
{"matcher_tree":{"input":{"typed_config":{"@type":"type.googleapis.com/envoy.type.matcher.v3.HttpRequestHeaderMatchInput","header_name":"x"}},"exact_match_map":{"map":{}}}} => Missing /matcher/matcher_tree/exact_match_map/map
{"matcher_tree":{"input":{"typed_config":{"@type":"type.googleapis.com/envoy.type.matcher.v3.HttpRequestHeaderMatchInput","header_name":"x"}},"exact_match_map":{"map":{"é":{}}}}} => BadText /matcher/matcher_tree/exact_match_map/map/é
{"on_no_match":{"keep_matching":true}} => Missing /matcher/on_no_match
{"on_no_match":{"matcher":{},"keepMatching":true}} => NotInProfile /matcher/on_no_match/keep_matching
{"on_no_match":{"action":{"typed_config":{"foo":1}}}} => Missing /matcher/on_no_match/action/typed_config/@type
{"on_no_match":{"action":{"typed_config":{"@type":7}}}} => WrongKind /matcher/on_no_match/action/typed_config/@type
{"on_no_match":{"action":{"typed_config":{"@type":"type.googleapis.com/envoy.type.matcher.v3.HttpRequestHeaderMatchInput","foo":1}}}} => NotInProfile /matcher/on_no_match/action/typed_config/@type
{"matcher_list":{"matchers":[{"predicate":{"and_matcher":{"predicate":[{"single_predicate":{"input":{"typed_config":{"@type":"type.googleapis.com/envoy.type.matcher.v3.HttpRequestHeaderMatchInput","header_name":"x"}},"value_match":{"exact":"1"}}}]}},"on_match":{"matcher":{}}}]}} => OutOfRange /matcher/matcher_list/matchers/0/predicate/and_matcher/predicate
{"matcher_list":{"matchers":[{"predicate":{"not_matcher":{"not_matcher":{"not_matcher":{"not_matcher":{"not_matcher":{"not_matcher":{"not_matcher":{"not_matcher":{}}}}}}}}}}]}} => TooDeep /matcher/matcher_list/matchers/0/predicate/not_matcher/not_matcher/not_matcher/not_matcher/not_matcher/not_matcher/not_matcher/not_matcher
{},"routes":[{"match":{"prefix":"/"},"route":{"cluster":"a"}}] => Conflict /matcher"#;

pub(crate) const TREE_TABLES: &[Table] = &[(
    Part::Whole,
    "/virtual_hosts/0",
    r#"{"virtual_hosts":[{"name":"h","domains":["*"],"matcher":"#,
    "}]}",
    OFFENCES,
)];
