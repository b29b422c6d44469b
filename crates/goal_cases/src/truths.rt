// Goals at requests, beside where the requests are sent.
ghost use Rattle.std.specs.Prelude.{◌<◌, length};
ghost use Rattle.cfg_types.specs.Lawful.{IsLawful};
ghost use Rattle.cfg_types.specs.Order.{routes};

use crate::languages::is_in;
use crate::made::{config_of, tests_of};
use cfg_types::{Choice, Config};
use goal_build::goal;
use goal_form::{Atom, Atoms, Formula, Truth, value};
use req_model::Request;
use route_scan::{Router, Scan, choose_by_rules, room_of, rule_tests};
use rx_auto::Scratch;
use std::alloc::Global;
use std::test::Fail;
use test_read::Test;
use text_base::OutOfMemory;

/// Whether the atom is true at the request.
fn holds(alloc: Global, atom: &Atom, request: &Request) -> Result<bool, OutOfMemory> {
    match atom {
        Atom::Present(field) => Ok(request.see(field).is_some()),
        Atom::Within { field, term, .. } => match request.see(field) {
            None => Ok(false),
            Some(text) => is_in(alloc, term, text),
        },
    }
}

/// What the formula is worth where each atom is decided by the request.
pub(crate) fn truth_at(
    alloc: Global,
    formula: &Formula,
    atoms: &Atoms,
    request: &Request,
) -> Result<Truth, OutOfMemory> {
    let mut path = Vec::new(alloc);
    for (number, atom) in atoms.as_slice().iter().enumerate() {
        path.push((number as u32, holds(alloc, atom, request)?))?;
    }
    Ok(value(formula, &path))
}

/// Whether the goal of the route is true at the request.
fn is_reached(
    alloc: Global,
    config: &Config,
    route: u32,
    request: &Request,
) -> Result<bool, OutOfMemory>
    requires lawful { IsLawful config.now }
    requires within { route < length (routes config.now) }
{
    let goal = goal(alloc, config, route)?;
    Ok(truth_at(alloc, &goal.formula, &goal.atoms, request)? == Truth::Yes)
}

/// The routes whose goals are true at the request.
fn reached(alloc: Global, config: &Config, request: &Request) -> Result<String, OutOfMemory>
    requires { IsLawful config.now }
{
    let mut text = String::new(alloc);
    for route in 0..config.route_count() {
        if is_reached(alloc, config, route, request)? {
            let told = format!(in alloc; "{route}")?;
            text.push_str(told.as_str())?;
        }
    }
    Ok(text)
}

/// What is chosen for the request by rules.
fn choice_of(alloc: Global, config: &Config, request: &Request) -> Result<Choice, OutOfMemory> {
    let scan = Scan::build(alloc, config)?;
    let tests = rule_tests(alloc, config)?;
    let mut scratch = Scratch::new(alloc, room_of(&tests).max(scan.room()))?;
    Ok(choose_by_rules(&scan, &tests, request, &mut scratch))
}

/// The route that the request is sent to, if there is one.
fn sent(alloc: Global, config: &Config, request: &Request) -> Result<String, OutOfMemory> {
    match choice_of(alloc, config, request)? {
        Choice::Chosen { route } => format!(in alloc; "{route}"),
        _ => Ok(String::new(alloc)),
    }
}

/// The routes whose goals are true at the request, and where it is sent, each in brackets.
fn told_both(alloc: Global, config: &Config, request: &Request) -> Result<String, OutOfMemory>
    requires { IsLawful config.now }
{
    let reached = reached(alloc, config, request)?;
    let sent = sent(alloc, config, request)?;
    format!(in alloc; "[{}] [{}]", reached.as_str(), sent.as_str())
}

/// The same of the requests of tests.
fn told_all(alloc: Global, config: &Config, tests: &[Test]) -> Result<String, OutOfMemory>
    requires { IsLawful config.now }
{
    let mut text = String::new(alloc);
    for test in tests {
        let told = told_both(alloc, config, &test.request)?;
        text.push_str(told.as_str())?;
    }
    Ok(text)
}

/// The same of the request of this input by the configuration of this line.
fn both(alloc: Global, config: &str, input: &str) -> Result<String, Fail> {
    let config = config_of(alloc, config)?;
    let tests = tests_of(alloc, input)?;
    Ok(told_all(alloc, &config, tests.as_slice())?)
}

/// Whether the row `ROUTE <- INPUT` is so by the configuration. No route is `-`.
fn row_is_so(alloc: Global, config: &str, row: &str) -> Result<bool, Fail> {
    let Some((want, input)) = row.split_once(" <- ") else {
        return Ok(false);
    };
    let want = if want == "-" { "" } else { want };
    let want = format!(in alloc; "[{want}] [{want}]")?;
    Ok(both(alloc, config, input)?.as_str() == want.as_str())
}

/// Fails with the first row that isn't so by the configuration.
fn rows_are_so(alloc: Global, config: &str, rows: &str) -> Result<(), Fail> {
    for row in rows.lines() {
        if !row_is_so(alloc, config, row)? {
            return Err(Fail::new(row));
        }
    }
    Ok(())
}

/// Fails with the first row that isn't so. Each part of the table, after an empty line, is the line of a configuration and
/// rows.
fn all_are_sent(alloc: Global, table: &str) -> Result<(), Fail> {
    for part in table.split("\n\n") {
        let Some((config, rows)) = part.split_once('\n') else {
            return Err(Fail::new(part));
        };
        rows_are_so(alloc, config, rows)?;
    }
    Ok(())
}

/// Rules of all kinds, in lists.
const LISTS: &str =
    r#"{"match":{"prefix":"/a"},$to$},{"match":{"path":"/a/x"},$to$},{"match":{"path":"/b"},$to$}
0 <- {"authority":"h","path":"/a/x"}
2 <- {"authority":"h","path":"/b?a"}
- <- {"authority":"h","path":"/b/"}

{"match":{"prefix":"/","headers":[{"name":"x","exact_match":"1"}]},$to$},{"match":{"prefix":"/","headers":[{"name":"x","exact_match":"2","invert_match":true}]},$to$},{"match":{"prefix":"/","headers":[{"name":"y","exact_match":"1","invert_match":true,"treat_missing_header_as_empty":true}]},$to$}
0 <- {"authority":"h","path":"/","additional_request_headers":[{"key":"x","value":"1"}]}
1 <- {"authority":"h","path":"/","additional_request_headers":[{"key":"x","value":"3"}]}
1 <- {"authority":"h","path":"/","additional_request_headers":[{"key":"x","value":"1"},{"key":"x","value":"1"}]}
2 <- {"authority":"h","path":"/"}
- <- {"authority":"h","path":"/","additional_request_headers":[{"key":"y","value":"1"}]}

{"match":{"prefix":"/","runtime_fraction":{"default_value":{"numerator":0}}},$to$},{"match":{"prefix":"/","runtime_fraction":{"default_value":{"numerator":30},"runtime_key":"k"}},$to$},{"match":{"prefix":"/","query_parameters":[{"name":"k","string_match":{"exact":"1"}}]},$to$},{"match":{"prefix":"/","grpc":{}},$to$}
0 <- {"authority":"h","path":"/","random_value":200}
- <- {"authority":"h","path":"/","random_value":201}
- <- {"authority":"h","path":"/","random_value":29}
1 <- {"authority":"h","path":"/","random_value":5029,"runtime":"k"}
2 <- {"authority":"h","path":"/?l=1&k=1&k=2","random_value":30,"runtime":"k"}
- <- {"authority":"h","path":"/?k=2&k=1","random_value":30,"runtime":"l"}
- <- {"authority":"h","path":"/?kk=1&k","random_value":1}
3 <- {"authority":"h","path":"/?k","random_value":1,"additional_request_headers":[{"key":"content-type","value":"application/grpc+json"}]}
- <- {"authority":"h","path":"/","random_value":1,"additional_request_headers":[{"key":"content-type","value":"application/grpc-web"}]}

{"match":{"safe_regex":{"regex":"/[a-c]+"}},$to$},{"match":{"prefix":"/","headers":[{"name":"n","range_match":{"start":-10,"end":0}}]},$to$},{"match":{"path_separated_prefix":"/d"},$to$}
0 <- {"authority":"h","path":"/abc?d"}
1 <- {"authority":"h","path":"/d","additional_request_headers":[{"key":"n","value":"-010"}]}
2 <- {"authority":"h","path":"/d/","additional_request_headers":[{"key":"n","value":"0"}]}
- <- {"authority":"h","path":"/da"}"#;

/// Hosts with rivals, ports and https, and trees.
const HOSTS_AND_TREES: &str =
    r#"{"virtual_hosts":[{"name":"x","domains":["*.b.c"],"require_tls":"ALL","routes":[{"match":{"prefix":"/"},$to$}]},{"name":"y","domains":["a.b.c"],"require_tls":"EXTERNAL_ONLY","routes":[{"match":{"prefix":"/"},$to$}]},{"name":"z","domains":["a.*","*.c"],"routes":[{"match":{"prefix":"/"},$to$}]},{"name":"w","domains":["*"],"routes":[{"match":{"prefix":"/"},$to$}]}]}
0 <- {"authority":"x.B.c","path":"/","ssl":true}
- <- {"authority":"x.b.c","path":"/","internal":true}
1 <- {"authority":"A.b.c","path":"/","internal":true}
- <- {"authority":"a.b.c","path":"/"}
2 <- {"authority":"a.b","path":"/"}
2 <- {"authority":"b.c","path":"/"}
2 <- {"authority":"a.b.c:80","path":"/"}
3 <- {"authority":"b.c:80","path":"/"}

{"ignore_port_in_host_matching":true,"virtual_hosts":[{"name":"x","domains":["[::1]","*:9"],"routes":[{"match":{"prefix":"/"},$to$}]},{"name":"y","domains":["a.b","*b"],"routes":[{"match":{"prefix":"/"},$to$}]}]}
0 <- {"authority":"[::1]","path":"/"}
0 <- {"authority":"[::1]:80","path":"/"}
0 <- {"authority":"b:9:1","path":"/"}
1 <- {"authority":"a.b:","path":"/"}
1 <- {"authority":"B.B:80","path":"/"}
- <- {"authority":"b:9","path":"/"}

{"matcher_list":{"matchers":[{"predicate":{"not_matcher":{"single_predicate":{$header$:"x"}},"value_match":{"exact":"1"}}}},"on_match":{$route$:{"prefix":"/a"},$to$}}}},{"predicate":{"single_predicate":{$header$:"y"}},"value_match":{"safe_regex":{"regex":"a+"}}}},"on_match":{"matcher":{"matcher_tree":{$query$:"k"}},"exact_match_map":{"map":{"1":{$route$:{"prefix":"/"},$to$}}}}}}}}}]},"on_no_match":{$routes$:[{"match":{"path":"/b"},$to$},{"match":{"prefix":"/"},$to$}]}}}}
0 <- {"authority":"h","path":"/a"}
- <- {"authority":"h","path":"/b"}
1 <- {"authority":"h","path":"/b?k=1","additional_request_headers":[{"key":"x","value":"1"},{"key":"y","value":"aa"}]}
- <- {"authority":"h","path":"/b?k=2","additional_request_headers":[{"key":"x","value":"1"},{"key":"y","value":"aa"}]}
2 <- {"authority":"h","path":"/b?k=1","additional_request_headers":[{"key":"x","value":"1"}]}
3 <- {"authority":"h","path":"/a","additional_request_headers":[{"key":"x","value":"1"},{"key":"y","value":"b"}]}

{"matcher_tree":{$header$:":path"}},"prefix_match_map":{"map":{"/a":{$route$:{"prefix":"/"},$to$}}},"/a/b":{"matcher":{"matcher_list":{"matchers":[{"predicate":{"single_predicate":{$header$:":path"}},"value_match":{"exact":"/"}}},"on_match":{$route$:{"prefix":"/"},$to$}}}}]}}}}}},"on_no_match":{$route$:{"path":"/c"},$to$}}}}
- <- {"authority":"h","path":"/a/b/c"}
1 <- {"authority":"h","path":"/a/c"}
2 <- {"authority":"h","path":"/c?a"}
- <- {"authority":"h","path":"/"}"#;

#[test]
fn goals_are_true_where_requests_are_sent(rt: HostRuntime) -> Result<(), Fail> {
    for table in [LISTS, HOSTS_AND_TREES] {
        all_are_sent(rt.alloc(), table)?;
    }
    Ok(())
}
