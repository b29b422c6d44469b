// Edits of headers.
use crate::replies::all_hold;
use std::test::Fail;

/// Additions by their kind: removals come before them, an empty value is passed over unless it is kept, and `%%`
/// becomes `%`.
const ADDITIONS: &str =
    r#"{"match":{"prefix":"/"},"direct_response":{"status":200},"response_headers_to_add":[{"header":{"key":"x","value":"3"},"append_action":"APPEND_IF_EXISTS_OR_ADD"}]}
direct 0 200 [x=1;x=2;x=3;] <- {"authority":"x.com","path":"/","additional_response_headers":[{"key":"x","value":"1"},{"key":"x","value":"2"}]}
direct 0 200 [x=3;] <- {"authority":"x.com","path":"/","additional_response_headers":[]}
{"match":{"prefix":"/"},"direct_response":{"status":200},"response_headers_to_add":[{"header":{"key":"x","value":"3"},"append_action":"ADD_IF_ABSENT"}]}
direct 0 200 [x=1;x=2;] <- {"authority":"x.com","path":"/","additional_response_headers":[{"key":"x","value":"1"},{"key":"x","value":"2"}]}
direct 0 200 [x=3;] <- {"authority":"x.com","path":"/","additional_response_headers":[]}
{"match":{"prefix":"/"},"direct_response":{"status":200},"response_headers_to_add":[{"header":{"key":"x","value":"3"},"append_action":"OVERWRITE_IF_EXISTS_OR_ADD"}]}
direct 0 200 [x=3;] <- {"authority":"x.com","path":"/","additional_response_headers":[{"key":"x","value":"1"},{"key":"x","value":"2"}]}
direct 0 200 [x=3;] <- {"authority":"x.com","path":"/","additional_response_headers":[]}
{"match":{"prefix":"/"},"direct_response":{"status":200},"response_headers_to_add":[{"header":{"key":"x","value":"3"},"append_action":"OVERWRITE_IF_EXISTS"}]}
direct 0 200 [x=3;] <- {"authority":"x.com","path":"/","additional_response_headers":[{"key":"x","value":"1"},{"key":"x","value":"2"}]}
direct 0 200 [] <- {"authority":"x.com","path":"/","additional_response_headers":[]}
{"match":{"prefix":"/"},"direct_response":{"status":200},"response_headers_to_add":[{"header":{"key":"x","value":"3"},"append_action":"APPEND_IF_EXISTS_OR_ADD"}],"response_headers_to_remove":["x"]}
direct 0 200 [x=3;] <- {"authority":"x.com","path":"/","additional_response_headers":[{"key":"x","value":"1"},{"key":"x","value":"2"}]}
{"match":{"prefix":"/"},"direct_response":{"status":200},"response_headers_to_add":[{"header":{"key":"x","value":"3"},"append_action":"ADD_IF_ABSENT"}],"response_headers_to_remove":["x"]}
direct 0 200 [x=3;] <- {"authority":"x.com","path":"/","additional_response_headers":[{"key":"x","value":"1"}]}
{"match":{"prefix":"/"},"direct_response":{"status":200},"response_headers_to_add":[{"header":{"key":"x","value":"3"},"append_action":"OVERWRITE_IF_EXISTS_OR_ADD"}],"response_headers_to_remove":["x"]}
direct 0 200 [x=3;] <- {"authority":"x.com","path":"/","additional_response_headers":[{"key":"x","value":"1"}]}
{"match":{"prefix":"/"},"direct_response":{"status":200},"response_headers_to_add":[{"header":{"key":"x","value":"3"},"append_action":"OVERWRITE_IF_EXISTS"}],"response_headers_to_remove":["x"]}
direct 0 200 [] <- {"authority":"x.com","path":"/","additional_response_headers":[{"key":"x","value":"1"}]}
{"match":{"prefix":"/"},"direct_response":{"status":200},"response_headers_to_add":[{"header":{"key":"x","value":""},"append_action":"APPEND_IF_EXISTS_OR_ADD"}]}
direct 0 200 [x=1;] <- {"authority":"x.com","path":"/","additional_response_headers":[{"key":"x","value":"1"}]}
{"match":{"prefix":"/"},"direct_response":{"status":200},"response_headers_to_add":[{"header":{"key":"x","value":""},"append_action":"OVERWRITE_IF_EXISTS_OR_ADD"}]}
direct 0 200 [x=1;] <- {"authority":"x.com","path":"/","additional_response_headers":[{"key":"x","value":"1"}]}
{"match":{"prefix":"/"},"direct_response":{"status":200},"response_headers_to_add":[{"header":{"key":"x","value":""},"append_action":"OVERWRITE_IF_EXISTS"}]}
direct 0 200 [x=1;] <- {"authority":"x.com","path":"/","additional_response_headers":[{"key":"x","value":"1"}]}
{"match":{"prefix":"/"},"direct_response":{"status":200},"response_headers_to_add":[{"header":{"key":"x","value":""},"append_action":"ADD_IF_ABSENT"}]}
direct 0 200 [] <- {"authority":"x.com","path":"/","additional_response_headers":[]}
{"match":{"prefix":"/"},"direct_response":{"status":200},"response_headers_to_add":[{"header":{"key":"x","value":"2"},"append_action":"APPEND_IF_EXISTS_OR_ADD"}]}
direct 0 200 [x=;x=1;x=2;] <- {"authority":"x.com","path":"/","additional_response_headers":[{"key":"x","value":""},{"key":"x","value":"1"}]}
{"match":{"prefix":"/"},"direct_response":{"status":200},"response_headers_to_add":[{"header":{"key":"x","value":""},"append_action":"OVERWRITE_IF_EXISTS_OR_ADD","keep_empty_value":true}]}
direct 0 200 [x=;] <- {"authority":"x.com","path":"/","additional_response_headers":[{"key":"x","value":"1"}]}
{"match":{"prefix":"/"},"direct_response":{"status":200},"response_headers_to_add":[{"header":{"key":"x","value":"%%a%%%"},"append_action":"APPEND_IF_EXISTS_OR_ADD"}]}
direct 0 200 [x=%a%%;] <- {"authority":"x.com","path":"/","additional_response_headers":[]}
{"match":{"prefix":"/"},"direct_response":{"status":200},"response_headers_to_add":[{"header":{"key":"x","value":"%"},"append_action":"APPEND_IF_EXISTS_OR_ADD"}]}
direct 0 200 [x=%;] <- {"authority":"x.com","path":"/","additional_response_headers":[]}
{"match":{"prefix":"/"},"direct_response":{"status":200},"response_headers_to_add":[{"header":{"key":"x","value":"%%%%"},"append_action":"APPEND_IF_EXISTS_OR_ADD"}]}
direct 0 200 [x=%%;] <- {"authority":"x.com","path":"/","additional_response_headers":[]}
{"match":{"prefix":"/"},"direct_response":{"status":200},"response_headers_to_add":[{"header":{"key":"x","value":"a%b%%"},"append_action":"APPEND_IF_EXISTS_OR_ADD"}]}
direct 0 200 [x=a%b%;] <- {"authority":"x.com","path":"/","additional_response_headers":[]}"#;

/// The levels from the share to the configuration, or back where the most specific wins. The values of a name keep
/// their order.
const LEVELS: &str =
    r#"{"virtual_hosts":[{"name":"h","domains":["*"],"routes":[{"match":{"prefix":"/"},"route":{"prefix_rewrite":"/v2/","weighted_clusters":{"clusters":[{"name":"c","weight":1,"request_headers_to_add":[{"header":{"key":"x","value":"cluster"},"append_action":"OVERWRITE_IF_EXISTS_OR_ADD"}],"response_headers_to_add":[{"header":{"key":"x","value":"cluster"},"append_action":"OVERWRITE_IF_EXISTS_OR_ADD"}]}]}}}]}]}
forward 0 c other h /v2/p?q [x-forwarded-proto=http;x=cluster;] [x=cluster;] <- {"authority":"h","path":"/p?q"}
{"virtual_hosts":[{"name":"h","domains":["*"],"routes":[{"match":{"prefix":"/"},"route":{"prefix_rewrite":"/v2/","weighted_clusters":{"clusters":[{"name":"c","weight":1,"request_headers_to_add":[{"header":{"key":"x","value":"cluster"},"append_action":"OVERWRITE_IF_EXISTS_OR_ADD"}],"response_headers_to_add":[{"header":{"key":"x","value":"cluster"},"append_action":"OVERWRITE_IF_EXISTS_OR_ADD"}]}]}},"request_headers_to_add":[{"header":{"key":"x","value":"route"},"append_action":"OVERWRITE_IF_EXISTS_OR_ADD"}],"response_headers_to_add":[{"header":{"key":"x","value":"route"},"append_action":"OVERWRITE_IF_EXISTS_OR_ADD"}]}]}]}
forward 0 c other h /v2/p?q [x-forwarded-proto=http;x=route;] [x=route;] <- {"authority":"h","path":"/p?q"}
{"virtual_hosts":[{"name":"h","domains":["*"],"routes":[{"match":{"prefix":"/"},"route":{"prefix_rewrite":"/v2/","weighted_clusters":{"clusters":[{"name":"c","weight":1,"request_headers_to_add":[{"header":{"key":"x","value":"cluster"},"append_action":"OVERWRITE_IF_EXISTS_OR_ADD"}],"response_headers_to_add":[{"header":{"key":"x","value":"cluster"},"append_action":"OVERWRITE_IF_EXISTS_OR_ADD"}]}]}},"request_headers_to_add":[{"header":{"key":"x","value":"route"},"append_action":"OVERWRITE_IF_EXISTS_OR_ADD"}],"response_headers_to_add":[{"header":{"key":"x","value":"route"},"append_action":"OVERWRITE_IF_EXISTS_OR_ADD"}]}],"request_headers_to_add":[{"header":{"key":"x","value":"host"},"append_action":"APPEND_IF_EXISTS_OR_ADD"}],"response_headers_to_add":[{"header":{"key":"x","value":"host"},"append_action":"APPEND_IF_EXISTS_OR_ADD"}]}]}
forward 0 c other h /v2/p?q [x-forwarded-proto=http;x=route;x=host;] [x=route;x=host;] <- {"authority":"h","path":"/p?q"}
{"request_headers_to_add":[{"header":{"key":"x","value":"config"},"append_action":"OVERWRITE_IF_EXISTS_OR_ADD"}],"response_headers_to_add":[{"header":{"key":"x","value":"config"},"append_action":"OVERWRITE_IF_EXISTS_OR_ADD"}],"virtual_hosts":[{"name":"h","domains":["*"],"routes":[{"match":{"prefix":"/"},"route":{"prefix_rewrite":"/v2/","weighted_clusters":{"clusters":[{"name":"c","weight":1,"request_headers_to_add":[{"header":{"key":"x","value":"cluster"},"append_action":"OVERWRITE_IF_EXISTS_OR_ADD"}],"response_headers_to_add":[{"header":{"key":"x","value":"cluster"},"append_action":"OVERWRITE_IF_EXISTS_OR_ADD"}]}]}},"request_headers_to_add":[{"header":{"key":"x","value":"route"},"append_action":"OVERWRITE_IF_EXISTS_OR_ADD"}],"response_headers_to_add":[{"header":{"key":"x","value":"route"},"append_action":"OVERWRITE_IF_EXISTS_OR_ADD"}]}],"request_headers_to_add":[{"header":{"key":"x","value":"host"},"append_action":"APPEND_IF_EXISTS_OR_ADD"}],"response_headers_to_add":[{"header":{"key":"x","value":"host"},"append_action":"APPEND_IF_EXISTS_OR_ADD"}]}]}
forward 0 c other h /v2/p?q [x-forwarded-proto=http;x=config;] [x=config;] <- {"authority":"h","path":"/p?q"}
{"request_headers_to_add":[{"header":{"key":"x","value":"4"},"append_action":"OVERWRITE_IF_EXISTS_OR_ADD"}],"response_headers_to_add":[{"header":{"key":"x","value":"4"},"append_action":"OVERWRITE_IF_EXISTS_OR_ADD"}],"virtual_hosts":[{"name":"h","domains":["*"],"routes":[{"match":{"prefix":"/"},"route":{"prefix_rewrite":"/v2/","weighted_clusters":{"clusters":[{"name":"c","weight":1,"request_headers_to_add":[{"header":{"key":"x","value":"1"},"append_action":"OVERWRITE_IF_EXISTS_OR_ADD"}],"response_headers_to_add":[{"header":{"key":"x","value":"1"},"append_action":"OVERWRITE_IF_EXISTS_OR_ADD"}]}]}},"request_headers_to_add":[{"header":{"key":"x","value":"2"},"append_action":"OVERWRITE_IF_EXISTS_OR_ADD"}],"response_headers_to_add":[{"header":{"key":"x","value":"2"},"append_action":"OVERWRITE_IF_EXISTS_OR_ADD"}]}],"request_headers_to_add":[{"header":{"key":"x","value":"3"},"append_action":"OVERWRITE_IF_EXISTS_OR_ADD"}],"response_headers_to_add":[{"header":{"key":"x","value":"3"},"append_action":"OVERWRITE_IF_EXISTS_OR_ADD"}]}]}
forward 0 c other h /v2/p?q [x-forwarded-proto=http;x=4;] [x=4;] <- {"authority":"h","path":"/p?q"}
{"request_headers_to_add":[{"header":{"key":"x","value":"4"},"append_action":"OVERWRITE_IF_EXISTS_OR_ADD"}],"response_headers_to_add":[{"header":{"key":"x","value":"4"},"append_action":"OVERWRITE_IF_EXISTS_OR_ADD"}],"most_specific_header_mutations_wins":true,"virtual_hosts":[{"name":"h","domains":["*"],"routes":[{"match":{"prefix":"/"},"route":{"prefix_rewrite":"/v2/","weighted_clusters":{"clusters":[{"name":"c","weight":1,"request_headers_to_add":[{"header":{"key":"x","value":"1"},"append_action":"OVERWRITE_IF_EXISTS_OR_ADD"}],"response_headers_to_add":[{"header":{"key":"x","value":"1"},"append_action":"OVERWRITE_IF_EXISTS_OR_ADD"}]}]}},"request_headers_to_add":[{"header":{"key":"x","value":"2"},"append_action":"OVERWRITE_IF_EXISTS_OR_ADD"}],"response_headers_to_add":[{"header":{"key":"x","value":"2"},"append_action":"OVERWRITE_IF_EXISTS_OR_ADD"}]}],"request_headers_to_add":[{"header":{"key":"x","value":"3"},"append_action":"OVERWRITE_IF_EXISTS_OR_ADD"}],"response_headers_to_add":[{"header":{"key":"x","value":"3"},"append_action":"OVERWRITE_IF_EXISTS_OR_ADD"}]}]}
forward 0 c other h /v2/p?q [x-forwarded-proto=http;x=1;] [x=1;] <- {"authority":"h","path":"/p?q"}
{"virtual_hosts":[{"name":"h","domains":["*"],"routes":[{"match":{"prefix":"/"},"route":{"prefix_rewrite":"/v2/","weighted_clusters":{"clusters":[{"name":"c","weight":1}]}},"request_headers_to_add":[{"header":{"key":"x","value":"2"},"append_action":"OVERWRITE_IF_EXISTS_OR_ADD"}],"response_headers_to_add":[{"header":{"key":"x","value":"2"},"append_action":"OVERWRITE_IF_EXISTS_OR_ADD"}]}],"request_headers_to_remove":["x"],"response_headers_to_remove":["x"]}]}
forward 0 c other h /v2/p?q [x-forwarded-proto=http;] [] <- {"authority":"h","path":"/p?q"}
{"most_specific_header_mutations_wins":true,"virtual_hosts":[{"name":"h","domains":["*"],"routes":[{"match":{"prefix":"/"},"route":{"prefix_rewrite":"/v2/","weighted_clusters":{"clusters":[{"name":"c","weight":1}]}},"request_headers_to_add":[{"header":{"key":"x","value":"2"},"append_action":"OVERWRITE_IF_EXISTS_OR_ADD"}],"response_headers_to_add":[{"header":{"key":"x","value":"2"},"append_action":"OVERWRITE_IF_EXISTS_OR_ADD"}]}],"request_headers_to_remove":["x"],"response_headers_to_remove":["x"]}]}
forward 0 c other h /v2/p?q [x-forwarded-proto=http;x=2;] [x=2;] <- {"authority":"h","path":"/p?q"}
{"virtual_hosts":[{"name":"h","domains":["*"],"routes":[{"match":{"prefix":"/"},"route":{"prefix_rewrite":"/v2/","weighted_clusters":{"clusters":[{"name":"c","weight":1}]}}}]}]}
forward 0 c other h /v2/ [x-forwarded-proto=http;x=2;x=1;y=;] [] <- {"authority":"h","path":"/","additional_request_headers":[{"key":"x","value":"2"},{"key":"y","value":""},{"key":"x","value":"1"}]}"#;

#[test]
fn edits_of_headers(rt: HostRuntime) -> Result<(), Fail> {
    for table in [ADDITIONS, LEVELS] {
        all_hold(rt.alloc(), table)?;
    }
    Ok(())
}
