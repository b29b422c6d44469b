// Rows of whole configurations, their header lists and their hosts.
use crate::configs::Table;
use crate::told::Part;

const CONFIGS: &str = r#"{"virtual_hosts":[{"name":"h => Syntax
[] => WrongKind
{} => name= hosts=0 wins=false port=false parameters=false
{"virtual_hosts":7} => WrongKind /virtual_hosts
{"virtualHosts":[],"virtual_hosts":[]} => Conflict /virtual_hosts
{"virtual_hosts":[],"virtualHosts":[]} => Conflict /virtual_hosts
{"@type":"type.googleapis.com/envoy.config.route.v3.VirtualHost"} => NotInProfile /@type
{"@type":"type.googleapis.com/envoy.config.route.v3.RouteConfiguration","name":"r","virtual_hosts":null} => name=r hosts=0 wins=false port=false parameters=false
{"ignorePathParametersInPathMatching":true} => NotInProfile /ignore_path_parameters_in_path_matching
{"ignore_port_in_host_matching":"true"} => WrongKind /ignore_port_in_host_matching
{"vhds":{}} => NotInProfile /vhds
{"name":"r","ignore_port_in_host_matching":true,"virtual_hosts":[{"name":"h","domains":["*"]}]} => name=r hosts=1 wins=false port=true parameters=false"#;

const LISTS: &str =
    r#"{"requestHeadersToAdd":[{"header":{"key":"X-A"}}],"request_headers_to_remove":["B"],"responseHeadersToRemove":null} => name=x-a value= how=Append keep=false added=1 removed=1 added_back=0 removed_back=0"#;

const HOSTS: &str = r#"7 => WrongKind /0
{"name":"h","domains":["*"],"foo":1} => UnknownField /0/foo
{"a/b~":1} => UnknownField /0/a~1b~0
{"zz":1,"Zz":1} => UnknownField /0/Zz
{"name":"h","domains":["*"],"a/b~":1} => UnknownField /0/a~1b~0
{"name":null,"domains":["*"]} => Missing /0/name
{"name":"","domains":["*"]} => BadText /0/name
{"name":"h"} => Missing /0/domains
{"name":"h","domains":[]} => Missing /0/domains
{"name":"h","domains":["a",null]} => WrongKind /0/domains/1
{"name":"h","domains":["a","b*c"]} => BadText /0/domains/1
{"name":"h","domains":[""]} => BadText /0/domains/0
{"name":"h","domains":["*"],"require_tls":"SOME"} => OutOfRange /0/require_tls
{"name":"h","domains":["*"],"require_tls":"NONE","virtual_clusters":[]} => name=h tls=No routes=0 any
{"name":"h","domains":["*"],"virtual_clusters":[{"name":"","headers":[]}]} => BadText /0/virtual_clusters/0/name
{"name":"h","domains":["*"],"virtualClusters":[{"name":"v","headers":[]},{"name":"v"}]} => Missing /0/virtual_clusters/1/headers
{"name":"h","domains":["*"],"matcher":{},"virtual_clusters":1} => WrongKind /0/virtual_clusters
{"name":"h","domains":["*"],"require_tls":"ALL"} => name=h tls=All routes=0 any
{"name":"h","domains":["*"],"matcher":[]} => WrongKind /0/matcher
{"name":"h","domains":["A.com"]},{"name":"g","domains":["a.com"]} => Duplicate /1/domains/0
{"name":"h","domains":["*.b","b","*.B"]},{"name":"g","domains":["b"]} => Duplicate /0/domains/2
{"name":"h","domains":["*.b","b.*","b","*"]},{"name":"h","domains":["B.c"]} => name=h tls=No routes=0 suffix .b prefix b. exact b any
{"name":"é","domains":["A.Com:80","*-B","c.*","*"],"routes":[{"match":{"prefix":"/"},"route":{"cluster":"a"}}]} => name=é tls=No routes=1 exact a.com:80 suffix -b prefix c. any"#;

pub(crate) const HOST_TABLES: &[Table] = &[
    (Part::Config, "", "", "", CONFIGS),
    (Part::Edits, "", "", "", LISTS),
    (
        Part::Host,
        "/virtual_hosts",
        r#"{"virtual_hosts":["#,
        "]}",
        HOSTS,
    ),
];
