// Rows of routes, of what they do and of the headers that they edit.
use crate::configs::Table;
use crate::told::Part;

const ROUTES: &str =
    r#"{"match":{"prefix":"/"},"redirect":{}} => place=/virtual_hosts/0/routes/0 name= scheme= host= port=0 path=kept code=301 strip=false added=0
{"name":"n","match":{"prefix":"/"},"route":{"cluster":"c"},"metadata":7} => place=/virtual_hosts/0/routes/0 name=n cluster=c rewrite= host=kept added=0
{"@type":"x"} => UnknownField /0/@type
{"route":{}} => Missing /0/match
{"match":{},"route":{"cluster":"a"}} => Missing /0/match
{"match":{"prefix":"/"},"filter_action":{}} => NotInProfile /0/filter_action
{"match":{"prefix":"/"}} => Missing /0
{"match":{"prefix":"/"},"route":{"cluster":"a"}},{"match":{"prefix":"/"}} => Missing /1
{"match":{"prefix":"/"},"route":{}} => Missing /0/route
{"match":{"prefix":"/"},"route":{"cluster":""}} => BadText /0/route/cluster
{"match":{"prefix":"/","cookies":[]},"route":{"cluster":"a"}} => NotInProfile /0/match/cookies"#;

const FORWARDS: &str = r#"{"timeout":"1s","cluster":"é"} => cluster=é rewrite= host=kept
{"cluster_header":"X-C","prefix_rewrite":"/a?b","host_rewrite_header":":authority"} => header=x-c rewrite=/a?b host=header::authority
{"cluster":"c","regex_rewrite":{}} => NotInProfile /regex_rewrite
{"cluster":"c","retryPolicy":null,"retry_policy":null} => Conflict /retry_policy"#;

const SHARES: &str =
    r#"{"clusters":[{"name":"a","weight":1},{"name":"b","weight":"2"}],"total_weight":3} => shares a:1 b:2 rewrite= host=kept
{"clusters":[{"name":"a","weight":0},{"name":"b","weight":1}],"total_weight":0} => shares a:0 b:1 rewrite= host=kept
{} => Missing /clusters
{"clusters":[]} => OutOfRange /clusters
{"clusters":[{"name":"a","weight":0}],"total_weight":-1} => OutOfRange /total_weight
{"clusters":[{"name":"a","weight":4294967295},{"name":"b","weight":1}]} => OutOfRange /clusters
{"clusters":[{"name":"a","weight":1}],"total_weight":2} => Conflict /total_weight
{"clusters":[{"name":"a"}]} => Missing /clusters/0/weight"#;

const REDIRECTS: &str = r#"{} => scheme= host= port=0 path=kept code=301 strip=false
{"httpsRedirect":true,"host_redirect":"h","port_redirect":8443,"path_redirect":"","response_code":"SEE_OTHER","strip_query":true} => scheme=https host=h port=8443 path=whole: code=303 strip=true
{"prefix_rewrite":"/b"} => scheme= host= port=0 path=prefix:/b code=301 strip=false
{"https_redirect":false,"scheme_redirect":"x"} => Conflict /scheme_redirect
{"https_redirect":false,"scheme_redirect":"x","strip_query":1} => WrongKind /strip_query
{"path_redirect":"/a","prefix_rewrite":"/b"} => Conflict /prefix_rewrite
{"path_redirect":"/a b"} => BadText /path_redirect
{"port_redirect":65536} => OutOfRange /port_redirect
{"response_code":"OK"} => OutOfRange /response_code
{"regex_rewrite":{}} => NotInProfile /regex_rewrite
{"regexRewrite":{}} => NotInProfile /regex_rewrite"#;

const RESPONSES: &str = r#"{"status":"599"} => status=599
{"status":199} => OutOfRange /status
{"status":600} => OutOfRange /status"#;

const ADDITIONS: &str =
    r#"{"header":{"key":"X-A","value":"%%"},"keepEmptyValue":true} => name=x-a value=%% how=Append keep=true added=1 removed=0 added_back=0 removed_back=0
{"header":{"key":"a","value":""},"append":false} => name=a value= how=Overwrite keep=false added=1 removed=0 added_back=0 removed_back=0
{"header":{"key":"a","rawValue":null},"append_action":"OVERWRITE_IF_EXISTS"} => name=a value= how=OverwriteIfThere keep=false added=1 removed=0 added_back=0 removed_back=0
{} => Missing /header
{"header":{}} => Missing /header/key
{"header":{"key":"Host"}} => BadText /header/key
{"header":{"key":"a","raw_value":"x"}} => NotInProfile /header/raw_value
{"header":{"key":"a"},"append_action":"ADD"} => OutOfRange /append_action
{"header":{"key":"a"},"append":true,"append_action":"ADD_IF_ABSENT"} => Conflict /append_action
{"header":{"key":"a"},"append":true,"append_action":"ADD_IF_ABSENT","keep_empty_value":1} => WrongKind /keep_empty_value"#;

pub(crate) const ACTION_TABLES: &[Table] = &[
    (
        Part::Route,
        "/virtual_hosts/0/routes",
        r#"{"virtual_hosts":[{"name":"h","domains":["*"],"routes":["#,
        "]}]}",
        ROUTES,
    ),
    (
        Part::Act,
        "/virtual_hosts/0/routes/0/route",
        r#"{"virtual_hosts":[{"name":"h","domains":["*"],"routes":[
{"match":{"prefix":"/"},"route":"#,
        "}]}]}",
        FORWARDS,
    ),
    (
        Part::Act,
        "/virtual_hosts/0/routes/0/route/weighted_clusters",
        r#"{"virtual_hosts":[{"name":"h","domains":["*"],"routes":[
{"match":{"prefix":"/"},"route":{"weighted_clusters":"#,
        "}}]}]}",
        SHARES,
    ),
    (
        Part::Act,
        "/virtual_hosts/0/routes/0/redirect",
        r#"{"virtual_hosts":[{"name":"h","domains":["*"],"routes":[
{"match":{"prefix":"/"},"redirect":"#,
        "}]}]}",
        REDIRECTS,
    ),
    (
        Part::Act,
        "/virtual_hosts/0/routes/0/direct_response",
        r#"{"virtual_hosts":[{"name":"h","domains":["*"],"routes":[
{"match":{"prefix":"/"},"direct_response":"#,
        "}]}]}",
        RESPONSES,
    ),
    (
        Part::Edits,
        "/request_headers_to_add/0",
        r#"{"request_headers_to_add":["#,
        "]}",
        ADDITIONS,
    ),
];
