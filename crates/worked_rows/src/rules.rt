// Where requests are sent: domains of hosts, and rules on paths, headers, queries, fractions, gRPC and patterns.
use crate::cases::outcome;
use check_core::Status;
use std::alloc::Global;
use std::test::Fail;
use text_base::OutOfMemory;

/// Whether the test of this input passes over the configuration, where it expects what `validate` says.
pub(crate) fn meets(
    alloc: Global,
    config: &str,
    validate: &str,
    input: &str,
) -> Result<bool, OutOfMemory> {
    let tests = format!(in alloc;
        "{}{input}{}{validate}{}",
        r#"{"tests":[{"test_name":"t","input":"#, r#","validate":"#, "}]}"
    )?;
    let (status, _) = outcome(alloc, &["check", "c", "t"], config, tests.as_str(), 4096)?;
    Ok(status == Status::Done)
}

/// Whether the test of this input passes over the configuration, where it validates that the field is `want`.
fn passes(
    alloc: Global,
    config: &str,
    field: &str,
    want: &str,
    input: &str,
) -> Result<bool, OutOfMemory> {
    let validate = format!(in alloc; "{}{field}{}{want}{}", r#"{""#, r#"":""#, r#""}"#)?;
    meets(alloc, config, validate.as_str(), input)
}

/// Fails with the first row `WANT INPUT` whose test fails over the configuration, where WANT is what the field is to be.
pub(crate) fn all_pass(alloc: Global, config: &str, field: &str, rows: &str) -> Result<(), Fail> {
    for row in rows.lines() {
        let Some((want, input)) = row.split_once(' ') else {
            return Err(Fail::new(row));
        };
        if !passes(alloc, config, field, want, input)? {
            return Err(Fail::new(row));
        }
    }
    Ok(())
}

/// Fails with the first row `yes INPUT` or `no INPUT` that isn't so of a route with this rule.
fn all_hold(alloc: Global, rule: &str, rows: &str) -> Result<(), Fail> {
    let config = format!(in alloc;
        "{}{rule}{}",
        r#"{"virtual_hosts":[{"name":"h","domains":["*"],"routes":[{"match":"#,
        r#","route":{"cluster":"yes","timeout":"1s"}},{"match":{"prefix":"/"},"route":{"cluster":"no"}}]}]}"#
    )?;
    all_pass(alloc, config.as_str(), "cluster_name", rows)
}

const SEPARATED: &str = r#"{"path_separated_prefix":"/api/dev"}"#;

const SEPARATED_ROWS: &str = r#"yes {"authority":"x.com","path":"/api/dev"}
yes {"authority":"x.com","path":"/api/dev/"}
no {"authority":"x.com","path":"/api/developer"}
yes {"authority":"x.com","path":"/api/dev?x=1"}"#;

const RANGE: &str =
    r#"{"prefix":"/","headers":[{"name":"n","range_match":{"start":-10,"end":0}}]}"#;

const RANGE_ROWS: &str =
    r#"yes {"authority":"x.com","path":"/","additional_request_headers":[{"key":"n","value":"-1"}]}
no {"authority":"x.com","path":"/","additional_request_headers":[{"key":"n","value":"0"}]}
yes {"authority":"x.com","path":"/","additional_request_headers":[{"key":"n","value":"-010"}]}
no {"authority":"x.com","path":"/","additional_request_headers":[{"key":"n","value":"+1"}]}
no {"authority":"x.com","path":"/","additional_request_headers":[{"key":"n","value":""}]}
no {"authority":"x.com","path":"/"}"#;

const NO_RANGE: &str =
    r#"{"prefix":"/","headers":[{"name":"n","range_match":{"start":-10,"end":0},"invert_match":true}]}"#;

const NO_RANGE_ROWS: &str = r#"no {"authority":"x.com","path":"/"}
yes {"authority":"x.com","path":"/","additional_request_headers":[{"key":"n","value":"0"}]}"#;

const ABSENT: &str = r#"{"prefix":"/","headers":[{"name":"x","invert_match":true}]}"#;

const ABSENT_ROWS: &str = r#"yes {"authority":"x.com","path":"/"}
no {"authority":"x.com","path":"/","additional_request_headers":[{"key":"x"}]}"#;

const JOINED: &str = r#"{"prefix":"/","headers":[{"name":"X-A","exact_match":"1,2"}]}"#;

const JOINED_ROWS: &str =
    r#"yes {"authority":"x.com","path":"/","additional_request_headers":[{"key":"x-a","value":"1"},{"key":"X-a","value":"2"}]}
no {"authority":"x.com","path":"/","additional_request_headers":[{"key":"x-a","value":"1"}]}"#;

const QUERY: &str =
    r#"{"prefix":"/","query_parameters":[{"name":"k","string_match":{"exact":"1"}}]}"#;

const QUERY_ROWS: &str = r#"no {"authority":"x.com","path":"/?k=2&k=1"}
yes {"authority":"x.com","path":"/?k=1&k=2"}
no {"authority":"x.com","path":"/?kk=1"}
no {"authority":"x.com","path":"/?k"}"#;

const FRACTION: &str =
    r#"{"prefix":"/","runtime_fraction":{"default_value":{"numerator":25},"runtime_key":"k"}}"#;

const FRACTION_ROWS: &str = r#"yes {"authority":"x.com","path":"/","runtime":"k","random_value":24}
no {"authority":"x.com","path":"/","runtime":"k","random_value":25}
no {"authority":"x.com","path":"/","runtime":"k","random_value":"125"}
no {"authority":"x.com","path":"/","random_value":24}"#;

const NO_KEY: &str =
    r#"{"prefix":"/","runtime_fraction":{"default_value":{"numerator":0},"runtime_key":""}}"#;

const NO_KEY_ROWS: &str = r#"yes {"authority":"x.com","path":"/","random_value":100}"#;

const GRPC: &str = r#"{"prefix":"/","grpc":{}}"#;

const GRPC_ROWS: &str =
    r#"yes {"authority":"x.com","path":"/","additional_request_headers":[{"key":"content-type","value":"application/grpc+proto"}]}
no {"authority":"x.com","path":"/","additional_request_headers":[{"key":"content-type","value":"application/grpc-web"}]}"#;

/// Each rule with the requests on which it holds, and those on which it doesn't.
#[test]
fn rules_hold_on_their_requests(rt: HostRuntime) -> Result<(), Fail> {
    let alloc = rt.alloc();
    all_hold(alloc, SEPARATED, SEPARATED_ROWS)?;
    all_hold(alloc, RANGE, RANGE_ROWS)?;
    all_hold(alloc, NO_RANGE, NO_RANGE_ROWS)?;
    all_hold(alloc, ABSENT, ABSENT_ROWS)?;
    all_hold(alloc, JOINED, JOINED_ROWS)?;
    Ok(())
}

/// The same of rules on queries, on a random value and on gRPC.
#[test]
fn other_rules_hold_on_their_requests(rt: HostRuntime) -> Result<(), Fail> {
    let alloc = rt.alloc();
    all_hold(alloc, QUERY, QUERY_ROWS)?;
    all_hold(alloc, FRACTION, FRACTION_ROWS)?;
    all_hold(alloc, NO_KEY, NO_KEY_ROWS)?;
    all_hold(alloc, GRPC, GRPC_ROWS)?;
    Ok(())
}

const PATTERN: &str = r#"{"safe_regex":{"regex":"/[a-c]+"}}"#;

const PATTERN_ROWS: &str = r#"yes {"authority":"x.com","path":"/abc"}
yes {"authority":"x.com","path":"/abc?d"}
no {"authority":"x.com","path":"/abd"}
no {"authority":"x.com","path":"/"}"#;

const CASED: &str =
    r#"{"prefix":"/","headers":[{"name":"x","string_match":{"safe_regex":{"regex":"a"},"ignore_case":true}}]}"#;

const CASED_ROWS: &str =
    r#"yes {"authority":"x.com","path":"/","additional_request_headers":[{"key":"x","value":"a"}]}
no {"authority":"x.com","path":"/","additional_request_headers":[{"key":"x","value":"A"}]}"#;

const FOLDED: &str =
    r#"{"prefix":"/","headers":[{"name":"x","safe_regex_match":{"regex":"(?i)a"}}]}"#;

const FOLDED_ROWS: &str =
    r#"yes {"authority":"x.com","path":"/","additional_request_headers":[{"key":"x","value":"A"}]}"#;

const COMPLEMENT: &str =
    r#"{"prefix":"/","query_parameters":[{"name":"q","string_match":{"safe_regex":{"regex":"[^a]"}}}]}"#;

const COMPLEMENT_ROWS: &str = r#"yes {"authority":"x.com","path":"/?q=b"}
yes {"authority":"x.com","path":"/?q=^"}
no {"authority":"x.com","path":"/?q=a"}
no {"authority":"x.com","path":"/?q=bb"}"#;

/// The whole text has to match a pattern, and only its own flag ignores case.
#[test]
fn patterns_hold_on_their_requests(rt: HostRuntime) -> Result<(), Fail> {
    let alloc = rt.alloc();
    all_hold(alloc, PATTERN, PATTERN_ROWS)?;
    all_hold(alloc, CASED, CASED_ROWS)?;
    all_hold(alloc, FOLDED, FOLDED_ROWS)?;
    all_hold(alloc, COMPLEMENT, COMPLEMENT_ROWS)?;
    Ok(())
}

const DOMAINS: &str = r#"{"virtual_hosts":[
{"name":"behind","domains":["*.foo.com"],"routes":[{"match":{"prefix":"/"},"route":{"cluster":"a"}}]},
{"name":"longer","domains":["*-bar.foo.com"],"routes":[{"match":{"prefix":"/"},"route":{"cluster":"a"}}]},
{"name":"before","domains":["foo.*"],"routes":[{"match":{"prefix":"/"},"route":{"cluster":"a"}}]},
{"name":"any","domains":["*"],"routes":[{"match":{"prefix":"/"},"route":{"cluster":"a"}}]}]}"#;

const DOMAIN_ROWS: &str = r#"longer {"authority":"baz-bar.foo.com","path":"/"}
behind {"authority":"-bar.foo.com","path":"/"}
before {"authority":"FOO.com","path":"/"}
any {"authority":".foo.com","path":"/"}"#;

const PORTS: &str = r#"{"ignore_port_in_host_matching":true,"virtual_hosts":[
{"name":"h","domains":["a.com"],"routes":[{"match":{"prefix":"/"},"route":{"cluster":"a"}}]}]}"#;

const PORT_ROWS: &str = r#"h {"authority":"a.com:8080","path":"/"}
h {"authority":"a.com:","path":"/"}
 {"authority":"[::1]","path":"/"}"#;

/// The longest of the domains with `*` in front goes before those with `*` behind, letter case is no matter, and a port may be.
#[test]
fn hosts_are_chosen_by_their_domains(rt: HostRuntime) -> Result<(), Fail> {
    let alloc = rt.alloc();
    let name = "virtual_host_name";
    all_pass(alloc, DOMAINS, name, DOMAIN_ROWS)?;
    all_pass(alloc, PORTS, name, PORT_ROWS)?;
    Ok(())
}
