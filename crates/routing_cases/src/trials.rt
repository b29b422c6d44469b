// Choices, and how many routes are tried for them.
ghost use Rattle.std.specs.Prelude.{◌≤◌};
ghost use Rattle.route_scan.specs.Tests.{AreTestsOf, most_room};

use crate::replies::{config_of, tests_of};
use cfg_types::{Choice, Config};
use req_model::Request;
use route_match::RouteTest;
use route_scan::{Router, Rules, Scan, room_of, rule_tests};
use rx_auto::Scratch;
use std::alloc::Global;
use std::test::Fail;
use text_base::OutOfMemory;

/// The choice over the tests of the routes, and how many of them were asked.
fn choice_over(
    scan: &Scan,
    tests: &[RouteTest],
    request: &Request,
    own: &mut Scratch,
    scratch: &mut Scratch,
) -> (Choice, u64)
    requires tests { AreTestsOf scan.now.table tests.now }
    requires room { most_room tests.now ≤ scratch.old }
    requires walks { scan.now.room ≤ own.old }
{
    let mut full = Rules {
        tests,
        request,
        scratch,
        tried: 0,
    };
    let choice = scan.choose(request, own, &mut full);
    (choice, full.tried)
}

/// The host `x` sends external requests to https, and `y` sends all. Both have a route for requests with the header
/// `a`, and one for those with `b`.
const TWO_HOSTS: &str =
    r#"{"virtual_hosts":[{"name":"x","domains":["x"],"require_tls":"EXTERNAL_ONLY","routes":[{"match":{"prefix":"/","headers":[{"name":"a"}]},"direct_response":{"status":200}},{"match":{"prefix":"/","headers":[{"name":"b"}]},"direct_response":{"status":201}}]},{"name":"y","domains":["y"],"require_tls":"ALL","routes":[{"match":{"prefix":"/","headers":[{"name":"a"}]},"direct_response":{"status":202}},{"match":{"prefix":"/","headers":[{"name":"b"}]},"direct_response":{"status":203}}]}]}"#;

/// What is chosen for the request, and how many routes are tried.
fn told_trials(alloc: Global, config: &Config, request: &Request) -> Result<String, OutOfMemory> {
    let scan = Scan::build(alloc, config)?;
    let tests = rule_tests(alloc, config)?;
    let mut own = Scratch::new(alloc, scan.room())?;
    let mut scratch = Scratch::new(alloc, room_of(&tests))?;
    let (choice, tried) = choice_over(&scan, &tests, request, &mut own, &mut scratch);
    format!(in alloc; "{choice:?} {tried}")
}

/// The same for the request of this input.
fn tried(alloc: Global, input: &str) -> Result<String, Fail> {
    let config = config_of(alloc, TWO_HOSTS)?;
    let mut text = String::new(alloc);
    for test in tests_of(alloc, input)?.as_slice() {
        let told = told_trials(alloc, &config, &test.request)?;
        text.push_str(told.as_str())?;
    }
    Ok(text)
}

/// The choice, and the number of the tried routes.
const TRIALS: &str =
    r#"Chosen { route: 0 } 1 <- {"authority":"x","path":"/","ssl":true,"additional_request_headers":[{"key":"a","value":"1"},{"key":"b","value":"1"}]}
Chosen { route: 1 } 2 <- {"authority":"x","path":"/","ssl":true,"additional_request_headers":[{"key":"b","value":"1"}]}
NoRoute { host: 0 } 2 <- {"authority":"x","path":"/","ssl":true}
Chosen { route: 2 } 1 <- {"authority":"y","path":"/","ssl":true,"additional_request_headers":[{"key":"a","value":"1"},{"key":"b","value":"1"}]}
Chosen { route: 3 } 2 <- {"authority":"y","path":"/","ssl":true,"additional_request_headers":[{"key":"b","value":"1"}]}
NoHost 0 <- {"authority":"z","path":"/","ssl":true,"additional_request_headers":[{"key":"a","value":"1"},{"key":"b","value":"1"}]}
Tls { host: 0 } 0 <- {"authority":"x","path":"/","additional_request_headers":[{"key":"a","value":"1"},{"key":"b","value":"1"}]}
Chosen { route: 0 } 1 <- {"authority":"x","path":"/","internal":true,"additional_request_headers":[{"key":"a","value":"1"},{"key":"b","value":"1"}]}
Tls { host: 1 } 0 <- {"authority":"y","path":"/","internal":true,"additional_request_headers":[{"key":"a","value":"1"},{"key":"b","value":"1"}]}
Chosen { route: 0 } 1 <- {"authority":"x","path":"/","ssl":true,"additional_request_headers":[{"key":"a","value":"1"}]}
NoRoute { host: 0 } 2 <- {"authority":"x","path":"/","ssl":true,"additional_request_headers":[{"key":"c","value":"1"}]}"#;

/// The first accepted route of the host is chosen, and none is tried where the request is sent to https.
#[test]
fn routes_are_tried_in_order(rt: HostRuntime) -> Result<(), Fail> {
    for row in TRIALS.lines() {
        let (want, input) = row.split_once(" <- ").ok_or(row)?;
        let tried = tried(rt.alloc(), input)?;
        assert_eq!(rt; tried.as_str(), want);
    }
    Ok(())
}
