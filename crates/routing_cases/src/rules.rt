// Rules of routes on paths, headers, queries, fractions and gRPC, and what they see of requests.
use crate::replies::all_hold;
use std::test::Fail;

/// A separated prefix ends at a slash or with the path, and all rules of a route have to hold.
const PATHS: &str =
    r#"{"match":{"path_separated_prefix":"/api/dev"},"direct_response":{"status":200}}
direct 0 200 [] <- {"authority":"x.com","path":"/api/dev"}
direct 0 200 [] <- {"authority":"x.com","path":"/api/dev/"}
direct 0 200 [] <- {"authority":"x.com","path":"/api/dev?x=1"}
no route of 0 <- {"authority":"x.com","path":"/api/developer"}
no route of 0 <- {"authority":"x.com","path":"/API/dev"}
no route of 0 <- {"authority":"x.com","path":"/api/dev;v"}
{"match":{"prefix":"/A","case_sensitive":false,"headers":[{"name":"x","present_match":true}]},"direct_response":{"status":200}}
direct 0 200 [] <- {"authority":"x.com","path":"/ab","additional_request_headers":[{"key":"x","value":"1"}]}
no route of 0 <- {"authority":"x.com","path":"/ab","additional_request_headers":[{"key":"y","value":"1"}]}
no route of 0 <- {"authority":"x.com","path":"/b","additional_request_headers":[{"key":"x","value":"1"}]}"#;

/// A range has its start and not its end, an absent header is in no range unless it counts as empty, and the values
/// of a name are joined.
const HEADERS: &str =
    r#"{"match":{"prefix":"/","headers":[{"name":"n","range_match":{"start":-10,"end":0}}]},"direct_response":{"status":200}}
direct 0 200 [] <- {"authority":"x.com","path":"/","additional_request_headers":[{"key":"n","value":"-1"}]}
direct 0 200 [] <- {"authority":"x.com","path":"/","additional_request_headers":[{"key":"n","value":"-010"}]}
no route of 0 <- {"authority":"x.com","path":"/","additional_request_headers":[{"key":"n","value":"0"}]}
no route of 0 <- {"authority":"x.com","path":"/","additional_request_headers":[{"key":"n","value":"-11"}]}
no route of 0 <- {"authority":"x.com","path":"/","additional_request_headers":[{"key":"n","value":"+1"}]}
no route of 0 <- {"authority":"x.com","path":"/","additional_request_headers":[{"key":"n","value":""}]}
no route of 0 <- {"authority":"x.com","path":"/","additional_request_headers":[{"key":"n","value":"-"}]}
no route of 0 <- {"authority":"x.com","path":"/","additional_request_headers":[{"key":"n","value":"-1x"}]}
no route of 0 <- {"authority":"x.com","path":"/","additional_request_headers":[{"key":"n","value":"-18446744073709551617"}]}
no route of 0 <- {"authority":"x.com","path":"/"}
{"match":{"prefix":"/","headers":[{"name":"n","range_match":{"start":-10,"end":0},"invert_match":true}]},"direct_response":{"status":200}}
no route of 0 <- {"authority":"x.com","path":"/"}
{"match":{"prefix":"/","headers":[{"name":"n","range_match":{"start":-10,"end":0},"invert_match":true,"treat_missing_header_as_empty":true}]},"direct_response":{"status":200}}
direct 0 200 [] <- {"authority":"x.com","path":"/"}
{"match":{"prefix":"/","headers":[{"name":"x-a","exact_match":"1,2"}]},"direct_response":{"status":200}}
direct 0 200 [] <- {"authority":"x.com","path":"/","additional_request_headers":[{"key":"x-a","value":"1"},{"key":"x-a","value":"2"}]}
{"match":{"prefix":"/","headers":[{"name":"x-a","exact_match":"1"}]},"direct_response":{"status":200}}
no route of 0 <- {"authority":"x.com","path":"/","additional_request_headers":[{"key":"x-a","value":"1"},{"key":"x-a","value":"2"}]}
{"match":{"prefix":"/","headers":[{"name":":path","exact_match":"/"}]},"direct_response":{"status":200}}
direct 0 200 [] <- {"authority":"x.com","path":"/","additional_request_headers":[{"key":"x-a","value":"1"},{"key":"x-a","value":"2"}]}
{"match":{"prefix":"/","headers":[{"name":"x-forwarded-proto","exact_match":"http"}]},"direct_response":{"status":200}}
direct 0 200 [] <- {"authority":"x.com","path":"/","additional_request_headers":[{"key":"x-a","value":"1"},{"key":"x-a","value":"2"}]}
{"match":{"prefix":"/","headers":[{"name":"x","present_match":true,"invert_match":true}]},"direct_response":{"status":200}}
direct 0 200 [] <- {"authority":"x.com","path":"/","additional_request_headers":[{"key":"y","value":""}]}
no route of 0 <- {"authority":"x.com","path":"/","additional_request_headers":[{"key":"x","value":""}]}
{"match":{"prefix":"/","grpc":{}},"direct_response":{"status":200}}
direct 0 200 [] <- {"authority":"x.com","path":"/","additional_request_headers":[{"key":"content-type","value":"application/grpc"}]}
direct 0 200 [] <- {"authority":"x.com","path":"/","additional_request_headers":[{"key":"content-type","value":"application/grpc+proto"}]}
no route of 0 <- {"authority":"x.com","path":"/","additional_request_headers":[{"key":"content-type","value":"application/grpc-web"}]}"#;

/// Parts of the request are seen by the names of headers.
const PARTS: &str =
    r#"{"match":{"prefix":"/","headers":[{"name":":authority","exact_match":"x.com:80"},{"name":":path","exact_match":"/p;v?x=1?y"},{"name":":method","exact_match":"GET"},{"name":"x-forwarded-proto","exact_match":"http"},{"name":"x-envoy-internal","present_match":false},{"name":"x-a","present_match":false}]},"direct_response":{"status":200}}
direct 0 200 [] <- {"authority":"x.com:80","path":"/p;v?x=1?y"}
{"match":{"prefix":"/","headers":[{"name":"x-forwarded-proto","exact_match":"https"},{"name":"x-envoy-internal","exact_match":"true"}]},"direct_response":{"status":200}}
direct 0 200 [] <- {"authority":"x.com","path":"/","internal":true,"ssl":true}
no route of 0 <- {"authority":"x.com","path":"/"}
{"match":{"prefix":"/","headers":[{"name":"x-a","exact_match":"1,2,"},{"name":"x-b","exact_match":"only"},{"name":"x-e","exact_match":","},{"name":"x","present_match":false},{"name":"x-a1","present_match":false}]},"direct_response":{"status":200}}
direct 0 200 [] <- {"authority":"x.com","path":"/","additional_request_headers":[{"key":"x-a","value":"1"},{"key":"x-e","value":""},{"key":"x-a","value":"2"},{"key":"x-b","value":"only"},{"key":"x-e","value":""},{"key":"x-a","value":""}]}"#;

/// The first query element of a key counts, and the value is what follows the first `=`.
const QUERIES: &str =
    r#"{"match":{"prefix":"/","query_parameters":[{"name":"k","string_match":{"exact":"1"}}]},"direct_response":{"status":201}},{"match":{"prefix":"/","query_parameters":[{"name":"k","string_match":{"exact":"2"}}]},"direct_response":{"status":202}},{"match":{"prefix":"/","query_parameters":[{"name":"k","string_match":{"exact":"1=2?3"}}]},"direct_response":{"status":203}},{"match":{"prefix":"/","query_parameters":[{"name":"k","string_match":{"exact":""}}]},"direct_response":{"status":204}}
direct 1 202 [] <- {"authority":"x.com","path":"/?k=2&k=1"}
direct 0 201 [] <- {"authority":"x.com","path":"/?k=1&k=2"}
no route of 0 <- {"authority":"x.com","path":"/?kk=1"}
direct 3 204 [] <- {"authority":"x.com","path":"/?k"}
direct 2 203 [] <- {"authority":"x.com","path":"/?a=k&k=1=2?3"}
direct 3 204 [] <- {"authority":"x.com","path":"/?a&&k="}
no route of 0 <- {"authority":"x.com","path":"/?"}
no route of 0 <- {"authority":"x.com","path":"/k=1"}"#;

/// A fraction asks for its key and the random value, and one of 0 counts as 1.
const FRACTIONS: &str =
    r#"{"match":{"prefix":"/","runtime_fraction":{"default_value":{"numerator":25},"runtime_key":"k"}},"direct_response":{"status":200}}
direct 0 200 [] <- {"authority":"x.com","path":"/","runtime":"k","random_value":24}
no route of 0 <- {"authority":"x.com","path":"/","runtime":"k","random_value":125}
no route of 0 <- {"authority":"x.com","path":"/","random_value":24}
{"match":{"prefix":"/","runtime_fraction":{"default_value":{"numerator":0},"runtime_key":""}},"direct_response":{"status":200}}
direct 0 200 [] <- {"authority":"x.com","path":"/","random_value":100}
no route of 0 <- {"authority":"x.com","path":"/","random_value":101}"#;

/// The whole text has to match a pattern, whether or not case is ignored.
const PATTERNS: &str =
    r#"{"match":{"prefix":"/","headers":[{"name":"x","string_match":{"safe_regex":{"regex":"a"},"ignore_case":false}}]},"direct_response":{"status":200}}
direct 0 200 [] <- {"authority":"x.com","path":"/","additional_request_headers":[{"key":"x","value":"a"}]}
no route of 0 <- {"authority":"x.com","path":"/","additional_request_headers":[{"key":"x","value":"aa"}]}
no route of 0 <- {"authority":"x.com","path":"/","additional_request_headers":[{"key":"x","value":""}]}
{"match":{"prefix":"/","headers":[{"name":"x","string_match":{"safe_regex":{"regex":"a"},"ignore_case":true}}]},"direct_response":{"status":200}}
direct 0 200 [] <- {"authority":"x.com","path":"/","additional_request_headers":[{"key":"x","value":"a"}]}
no route of 0 <- {"authority":"x.com","path":"/","additional_request_headers":[{"key":"x","value":"A"}]}"#;

/// The first bad part of a request is told.
const BAD_PARTS: &str = r#"{"match":{"prefix":"/"},"direct_response":{"status":200}}
BadText /tests/0/input/path <- {"authority":"x.com","path":"a"}
BadText /tests/0/input/authority <- {"authority":"","path":"a"}
BadText /tests/0/input/authority <- {"authority":"x\u007fcom","path":"/"}
BadText /tests/0/input/path <- {"authority":"x.com","path":""}
BadText /tests/0/input/path <- {"authority":"x.com","path":"/#"}
BadText /tests/0/input/path <- {"authority":"x.com","path":"/ "}
direct 0 200 [] <- {"authority":"[::1]:80","path":"/~"}
BadText /tests/0/input/method <- {"authority":"x.com","path":"/","method":"G T","runtime":"\n"}
BadText /tests/0/input/runtime <- {"authority":"x.com","path":"/","method":"GET","runtime":"\n"}"#;

#[test]
fn rules_of_routes(rt: HostRuntime) -> Result<(), Fail> {
    for table in [
        PATHS, HEADERS, PARTS, QUERIES, FRACTIONS, PATTERNS, BAD_PARTS,
    ] {
        all_hold(rt.alloc(), table)?;
    }
    Ok(())
}
