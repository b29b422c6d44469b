// What is done with requests: shares of weighted clusters, rewrites, redirects and redirects to https.
use crate::rules::all_pass;
use std::alloc::Global;
use std::test::Fail;
use text_base::OutOfMemory;

/// Fails with the first row `WANT INPUT` whose test fails over a configuration of one host with one route.
fn all_hold(alloc: Global, tls: &str, route: &str, field: &str, rows: &str) -> Result<(), Fail> {
    let config = format!(in alloc;
        "{}{tls}{}{route}{}",
        r#"{"virtual_hosts":[{"name":"h","domains":["*"],"require_tls":""#,
        r#"","routes":["#,
        "]}]}"
    )?;
    all_pass(alloc, config.as_str(), field, rows)
}

const WEIGHTED: &str =
    r#"{"match":{"prefix":"/"},"route":{"weighted_clusters":{"clusters":[{"name":"a","weight":30},{"name":"b","weight":0},{"name":"c","weight":70}]}}}"#;

const SHARES: &str = r#"a {"authority":"x.com","path":"/","random_value":29}
c {"authority":"x.com","path":"/","random_value":30}
c {"authority":"x.com","path":"/","random_value":130}
a {"authority":"x.com","path":"/","random_value":"18446744073709551615"}"#;

/// The random value, modulo the sum of the weights, picks the share; a share of weight 0 is never picked.
#[test]
fn weights_pick_shares(rt: HostRuntime) -> Result<(), Fail> {
    all_hold(rt.alloc(), "NONE", WEIGHTED, "cluster_name", SHARES)?;
    Ok(())
}

const SECURE: &str =
    r#"{"match":{"prefix":"/"},"redirect":{"https_redirect":true,"path_redirect":"/new?foo=1","strip_query":true}}"#;

const SECURE_ROWS: &str = r#"https://h/new?foo=1 {"authority":"h:80","path":"/old?bar=1"}"#;

const OTHER_PORT: &str =
    r#"{"match":{"prefix":"/"},"redirect":{"https_redirect":true,"port_redirect":8443}}"#;

const OTHER_PORT_ROWS: &str = r#"https://h:8443/p?x {"authority":"h:8080","path":"/p?x"}"#;

/// The port of the proto is dropped with another scheme, and a set port takes the place of the authority's.
#[test]
fn redirects_have_whole_urls(rt: HostRuntime) -> Result<(), Fail> {
    let alloc = rt.alloc();
    let field = "path_redirect";
    all_hold(alloc, "NONE", SECURE, field, SECURE_ROWS)?;
    all_hold(alloc, "NONE", OTHER_PORT, field, OTHER_PORT_ROWS)?;
    Ok(())
}

const REWRITTEN: &str =
    r#"{"match":{"prefix":"/api"},"route":{"cluster":"a","prefix_rewrite":"/v2"}}"#;

const REWRITTEN_ROWS: &str = r#"/v2/x?q=1 {"authority":"x.com","path":"/api/x?q=1"}"#;

/// The matched prefix is swapped, and the rest of the path and the query stay.
#[test]
fn prefixes_are_rewritten(rt: HostRuntime) -> Result<(), Fail> {
    let alloc = rt.alloc();
    all_hold(alloc, "NONE", REWRITTEN, "path_rewrite", REWRITTEN_ROWS)?;
    Ok(())
}

const PLAIN: &str = r#"{"match":{"prefix":"/"},"route":{"cluster":"a"}}"#;

const SENT_TO_HTTPS: &str = r#"https://h:80/p?x=1 {"authority":"h:80","path":"/p?x=1"}"#;

const SECURE_ALREADY: &str = r#"a {"authority":"h:80","path":"/p?x=1","ssl":true}"#;

const INTERNAL: &str = r#"a {"authority":"h:80","path":"/p?x=1","internal":true}"#;

/// A host that needs TLS redirects what comes without it, unless it is internal and only external requests need it.
#[test]
fn hosts_may_need_tls(rt: HostRuntime) -> Result<(), Fail> {
    let alloc = rt.alloc();
    all_hold(alloc, "ALL", PLAIN, "path_redirect", SENT_TO_HTTPS)?;
    all_hold(alloc, "ALL", PLAIN, "cluster_name", SECURE_ALREADY)?;
    all_hold(alloc, "EXTERNAL_ONLY", PLAIN, "cluster_name", INTERNAL)?;
    Ok(())
}
