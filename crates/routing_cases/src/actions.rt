// What is done with requests.
use crate::replies::all_hold;
use std::test::Fail;

/// Shares by the random value, rewritten prefixes, clusters and hosts out of headers, virtual clusters by the request as
/// received, redirects, and what no route is chosen for. The last table edits headers, but without a route nothing is edited.
const ACTIONS: &str =
    r#"{"match":{"prefix":"/"},"route":{"weighted_clusters":{"clusters":[{"name":"a","weight":30},{"name":"b","weight":0},{"name":"c","weight":70}]}}}
forward 0 a other h / [x-forwarded-proto=http;] [] <- {"authority":"h","path":"/","random_value":29}
forward 0 c other h / [x-forwarded-proto=http;] [] <- {"authority":"h","path":"/","random_value":30}
forward 0 c other h / [x-forwarded-proto=http;] [] <- {"authority":"h","path":"/","random_value":130}
forward 0 a other h / [x-forwarded-proto=http;] [] <- {"authority":"h","path":"/","random_value":"18446744073709551615"}
{"match":{"prefix":"/api"},"route":{"cluster":"c","prefix_rewrite":"/v2"}}
forward 0 c other h /v2/x?q=1 [x-forwarded-proto=http;] [] <- {"authority":"h","path":"/api/x?q=1"}
{"match":{"prefix":"/"},"route":{"cluster_header":"x-a"}}
forward 0 one other h / [x-forwarded-proto=http;x-a=one;x-a=two;] [] <- {"authority":"h","path":"/","additional_request_headers":[{"key":"x-a","value":"one"},{"key":"x-a","value":"two"}]}
{"match":{"prefix":"/"},"route":{"cluster_header":"x-b"}}
forward 0  other h / [x-forwarded-proto=http;x-a=one;x-a=two;] [] <- {"authority":"h","path":"/","additional_request_headers":[{"key":"x-a","value":"one"},{"key":"x-a","value":"two"}]}
{"match":{"prefix":"/"},"route":{"cluster_header":":method"}}
forward 0 GET other h / [x-forwarded-proto=http;x-a=one;x-a=two;] [] <- {"authority":"h","path":"/","additional_request_headers":[{"key":"x-a","value":"one"},{"key":"x-a","value":"two"}]}
{"match":{"prefix":"/"},"route":{"cluster_header":"x-forwarded-proto"}}
forward 0 http other h / [x-forwarded-proto=http;x-a=one;x-a=two;] [] <- {"authority":"h","path":"/","additional_request_headers":[{"key":"x-a","value":"one"},{"key":"x-a","value":"two"}]}
{"match":{"prefix":"/"},"route":{"cluster":"c","prefix_rewrite":"/v2/","host_rewrite_header":":path"}}
forward 0 c other /v2/p?q /v2/p?q [x-forwarded-proto=http;] [] <- {"authority":"h","path":"/p?q"}
{"virtual_hosts":[{"name":"h","domains":["*"],"virtual_clusters":[{"name":"get","headers":[{"name":":method","exact_match":"GET"}]},{"name":"all","headers":[{"name":"x","exact_match":"1"}]}],"routes":[{"match":{"prefix":"/"},"route":{"cluster":"c"},"request_headers_to_remove":["x"]}]}]}
forward 0 c get h / [x-forwarded-proto=http;] [] <- {"authority":"h","path":"/","additional_request_headers":[{"key":"x","value":"1"}]}
forward 0 c all h / [x-forwarded-proto=http;] [] <- {"authority":"h","path":"/","method":"POST","additional_request_headers":[{"key":"x","value":"1"}]}
forward 0 c other h / [x-forwarded-proto=http;] [] <- {"authority":"h","path":"/","method":"POST"}
{"match":{"prefix":"/old"},"redirect":{"https_redirect":true,"path_redirect":"/new?foo=1","strip_query":true}}
redirect 0 301 https://h/new?foo=1 [] <- {"authority":"h:80","path":"/old?bar=1"}
{"match":{"prefix":"/"},"redirect":{"https_redirect":true,"port_redirect":8443}}
redirect 0 301 https://h:8443/p?x [] <- {"authority":"h:8080","path":"/p?x"}
{"match":{"prefix":"/"},"redirect":{"https_redirect":true,"response_code":"FOUND"},"request_headers_to_add":[{"header":{"key":"x","value":"2"},"append_action":"OVERWRITE_IF_EXISTS_OR_ADD"}],"response_headers_to_add":[{"header":{"key":"x","value":"2"},"append_action":"OVERWRITE_IF_EXISTS_OR_ADD"}]}
redirect 0 302 https://h/p?q [x=2;] <- {"authority":"h","path":"/p?q"}
{"request_headers_to_add":[{"header":{"key":"x","value":"2"},"append_action":"OVERWRITE_IF_EXISTS_OR_ADD"}],"response_headers_to_add":[{"header":{"key":"x","value":"2"},"append_action":"OVERWRITE_IF_EXISTS_OR_ADD"}],"virtual_hosts":[{"name":"h","domains":["h","h:80"],"require_tls":"ALL","routes":[{"match":{"prefix":"/never"},"redirect":{"https_redirect":true}}]}]}
https 0 https://h:80/p?x=1 <- {"authority":"h:80","path":"/p?x=1"}
https 0 https://h/p?q <- {"authority":"h","path":"/p?q"}
no host <- {"authority":"g","path":"/p?q"}
no route of 0 <- {"authority":"h","path":"/p?q","ssl":true}"#;

#[test]
fn actions_of_routes(rt: HostRuntime) -> Result<(), Fail> {
    all_hold(rt.alloc(), ACTIONS)
}
