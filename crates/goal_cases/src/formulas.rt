// The goals of routes of lists, told whole.
ghost use Rattle.cfg_types.specs.Lawful.{IsLawful};

use crate::made::config_of;
use crate::told::told_goal;
use cfg_types::Config;
use goal_build::goal;
use std::alloc::Global;
use std::test::Fail;
use text_base::OutOfMemory;

/// The goal of the route of this number, told whole.
fn goal_text(alloc: Global, config: &Config, route: u32) -> Result<String, OutOfMemory>
    requires { IsLawful config.now }
{
    if config.route_count() <= route {
        return Ok(String::new(alloc));
    }
    let goal = goal(alloc, config, route)?;
    told_goal(alloc, &goal)
}

/// The same by the configuration of this line.
fn goal_line(alloc: Global, config: &str, route: u32) -> Result<String, Fail> {
    let config = config_of(alloc, config)?;
    Ok(goal_text(alloc, &config, route)?)
}

/// Whether the goal of the route of this number is told so. What `-` stands for is left out.
fn row_is_so(alloc: Global, config: &str, route: u32, row: &str) -> Result<bool, Fail> {
    if row == "-" {
        return Ok(true);
    }
    let told = goal_line(alloc, config, route)?;
    Ok(told.as_str() == row)
}

/// Fails with the first goal that isn't so: the rows are those of the routes of this configuration, in order.
fn rows_are_so(alloc: Global, config: &str, rows: &str) -> Result<(), Fail> {
    let mut route = 0u32;
    for row in rows.lines() {
        if !row_is_so(alloc, config, route, row)? {
            return Err(Fail::new(row));
        }
        route = route.wrapping_add(1);
    }
    Ok(())
}

/// Fails with the first goal that isn't so. Each part of the table, after an empty line, is the line of a configuration and
/// the goals of its routes.
pub(crate) fn all_are_so(alloc: Global, table: &str) -> Result<(), Fail> {
    for part in table.split("\n\n") {
        let Some((config, rows)) = part.split_once('\n') else {
            return Err(Fail::new(part));
        };
        rows_are_so(alloc, config, rows)?;
    }
    Ok(())
}

/// The path comes first, then headers, queries, gRPC and the fraction. Only a pattern of the configuration is told as one.
const GUARDS: &str = r#"{"match":{"prefix":"/a"},$to$},{"match":{"path":"/a/x"},$to$}
all(any(all(yes)) all(0)); target in /a.*
all(any(all(yes)) all(0) not(all(1))); target in /a/x(()|?.*); target in /a.*

{"match":{"prefix":"/A","case_sensitive":false},$to$},{"match":{"path_separated_prefix":"/api"},$to$},{"match":{"safe_regex":{"regex":"/[a-c]+"}},$to$}
all(any(all(yes)) all(0)); target in /[Aa].*
all(any(all(yes)) all(0) not(all(1))); target in /api(()|[/?].*); target in /[Aa].*
all(any(all(yes)) all(0) not(all(1)) not(all(2))); target in pattern (/[a-c][a-c]*)(()|?.*); target in /[Aa].*; target in /api(()|[/?].*)

{"match":{"prefix":"/","headers":[{"name":"x","exact_match":"1"}]},$to$},{"match":{"prefix":"/"},$to$},{"match":{"prefix":"/","headers":[{"name":"x","exact_match":"1"},{"name":"x","safe_regex_match":{"regex":"1"}}]},$to$}
all(any(all(yes)) all(0 1)); target in /.*; header:x in 1
all(any(all(yes)) all(0) not(all(0 1))); target in /.*; header:x in 1
all(any(all(yes)) all(0 1 2) not(all(0 1)) not(all(0))); target in /.*; header:x in 1; header:x in pattern 1

{"match":{"prefix":"/","runtime_fraction":{"default_value":{"numerator":0},"runtime_key":"k"}},$to$},{"match":{"prefix":"/","runtime_fraction":{"default_value":{"numerator":25,"denominator":"MILLION"}}},$to$},{"match":{"prefix":"/","grpc":{},"headers":[{"name":":method","exact_match":"GET"}]},$to$}
all(any(all(yes)) all(0 all(1 2))); target in /.*; runtime in k; random in [0-9][0-9][0-9][0-9]00()
all(any(all(yes)) all(0 all(1)) not(all(0 all(2 3)))); target in /.*; random in 0000(0[0-9]|1[0-9]|2(0()|[1-3]()|4())); runtime in k; random in [0-9][0-9][0-9][0-9]00()
all(any(all(yes)) all(0 1 2) not(all(0 all(3 4))) not(all(0 all(5)))); target in /.*; method in GET; header:content-type in application/grpc|application/grpc+.*; runtime in k; random in [0-9][0-9][0-9][0-9]00(); random in 0000(0[0-9]|1[0-9]|2(0()|[1-3]()|4()))

{"match":{"prefix":"/","query_parameters":[{"name":"k","string_match":{"exact":"1"}},{"name":"k","present_match":true}]},$to$}
all(any(all(yes)) all(0 1 2)); target in /.*; target in [^?]*?(((()|[^&=k][^&=]*|k[^&=][^&=]*)(()|=[^&]*))&)*k=1(()|&.*); target in [^?]*?(((()|[^&=k][^&=]*|k[^&=][^&=]*)(()|=[^&]*))&)*k((()|&.*)|=[^&]*(()|&.*))"#;

/// An inverted rule asks for the header, unless a missing one counts as empty; what is always there isn't asked for.
const HEADERS: &str =
    r#"{"match":{"prefix":"/","headers":[{"name":"x","exact_match":"1","invert_match":true}]},$to$}
all(any(all(yes)) all(0 all(1 not(2)))); target in /.*; header:x; header:x in 1

{"match":{"prefix":"/","headers":[{"name":"x","exact_match":"1","treat_missing_header_as_empty":true}]},$to$}
all(any(all(yes)) all(0 any(1 all(not(2) no)))); target in /.*; header:x in 1; header:x

{"match":{"prefix":"/","headers":[{"name":"x","string_match":{"suffix":""},"treat_missing_header_as_empty":true,"invert_match":true}]},$to$}
all(any(all(yes)) all(0 not(any(1 all(not(2) yes))))); target in /.*; header:x in .*; header:x

{"match":{"prefix":"/","headers":[{"name":"x"},{"name":"y","present_match":true,"invert_match":true},{"name":"z","present_match":false}]},$to$}
all(any(all(yes)) all(0 1 not(2) not(3))); target in /.*; header:x; header:y; header:z

{"match":{"prefix":"/","headers":[{"name":":path","exact_match":"/","invert_match":true},{"name":":authority","present_match":true},{"name":"x-forwarded-proto","exact_match":"http"}]},$to$}
all(any(all(yes)) all(0 all(yes not(1)) yes 2)); target in /.*; target in /; proto in http

{"match":{"prefix":"/","headers":[{"name":"x-envoy-internal","exact_match":"true"},{"name":"x-envoy-internal","present_match":true,"invert_match":true}]},$to$}
all(any(all(yes)) all(0 1 not(2))); target in /.*; internal in true; internal

{"match":{"prefix":"/","headers":[{"name":"x","range_match":{"start":0,"end":10}}]},$to$}
all(any(all(yes)) all(0 1)); target in /.*; header:x in (()|+)0*([0-9]|!|!|!|!|!|!|!|!|!|!|!|!|!|!|!|!|!|!)|\-0*(0()|!|!|!|!|!|!|!|!|!|!|!|!|!|!|!|!|!|!)

{"match":{"prefix":"/","headers":[{"name":"x","range_match":{"start":5,"end":5},"invert_match":true}]},$to$}
all(any(all(yes)) all(0 all(1 not(2)))); target in /.*; header:x; header:x in (()|+)0*(!|!|!|!|!|!|!|!|!|!|!|!|!|!|!|!|!|!|!)|\-0*(!|!|!|!|!|!|!|!|!|!|!|!|!|!|!|!|!|!|!)"#;

/// A goal asks for the host, for the route's guard, and for no earlier guard.
#[test]
fn a_goal_is_its_guard_and_no_earlier_one(rt: HostRuntime) -> Result<(), Fail> {
    for table in [GUARDS, HEADERS] {
        all_are_so(rt.alloc(), table)?;
    }
    Ok(())
}

/// The rivals of a domain are those of other hosts that rank before it: of an earlier kind, or longer ones of its own.
const HOSTS: &str =
    r#"{"virtual_hosts":[{"name":"x","domains":["*.b.c"],"routes":[{"match":{"prefix":"/"},$to$}]},{"name":"y","domains":["a.B.c"],"routes":[{"match":{"prefix":"/"},$to$}]},{"name":"z","domains":["a.*","*c"],"routes":[{"match":{"prefix":"/"},$to$}]},{"name":"w","domains":["*"],"routes":[{"match":{"prefix":"/"},$to$}]}]}
all(any(all(0 not(1))) all(2)); authority in ..*\.[Bb]\.[Cc]; authority in [Aa]\.[Bb]\.[Cc]; target in /.*
all(any(all(0)) all(1)); authority in [Aa]\.[Bb]\.[Cc]; target in /.*
all(any(all(0 not(1)) all(2 not(1))) all(3)); authority in [Aa]\...*; authority in ..*\.[Bb]\.[Cc]|[Aa]\.[Bb]\.[Cc]; authority in ..*[Cc]; target in /.*
all(any(all(yes not(0))) all(1)); authority in ..*\.[Bb]\.[Cc]|[Aa]\.[Bb]\.[Cc]|[Aa]\...*|..*[Cc]; target in /.*

{"virtual_hosts":[{"name":"x","domains":["*.b"],"routes":[{"match":{"prefix":"/"},$to$}]},{"name":"y","domains":["*.c"],"routes":[{"match":{"prefix":"/"},$to$}]}]}
all(any(all(0)) all(1)); authority in ..*\.[Bb]; target in /.*
all(any(all(0)) all(1)); authority in ..*\.[Cc]; target in /.*

{"ignore_port_in_host_matching":true,"virtual_hosts":[{"name":"x","domains":["a","b:9"],"routes":[{"match":{"prefix":"/"},$to$}]},{"name":"y","domains":["*"],"routes":[{"match":{"prefix":"/"},$to$}]}]}
all(any(all(0) all(1)) all(2)); authority in [Aa]|[Aa]:[^:\]]*; authority in !|([Bb]:9):[^:\]]*; target in /.*
all(any(all(yes not(0))) all(1)); authority in ([Aa]|[Aa]:[^:\]]*)|!|([Bb]:9):[^:\]]*; target in /.*

{"virtual_hosts":[{"name":"x","domains":["*"],"require_tls":"EXTERNAL_ONLY","routes":[{"match":{"prefix":"/"},$to$}]}]}
all(any(all(yes)) any(0 1) all(2)); proto in https; internal; target in /.*

{"virtual_hosts":[{"name":"x","domains":["*"],"require_tls":"ALL","routes":[{"match":{"prefix":"/"},$to$}]}]}
all(any(all(yes)) 0 all(1)); proto in https; target in /.*"#;

#[test]
fn hosts_are_told_with_their_rivals(rt: HostRuntime) -> Result<(), Fail> {
    all_are_so(rt.alloc(), HOSTS)
}
