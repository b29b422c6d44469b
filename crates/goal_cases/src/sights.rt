// Sights of rules: what each tells as a formula, and what it answers.
ghost use Rattle.std.specs.Prelude.{All};
ghost use Rattle.cfg_types.specs.Lawful.{IsLawfulHost, IsLawfulRoute, IsLawfulHeader, IsLawfulQuery, IsLawfulFraction, IsLawfulPath, IsLawfulRule};

use crate::made::{config_of, tests_of};
use crate::told::told;
use crate::truths::truth_at;
use cfg_types::{Body, Fraction, HeaderRule, Host, PathRule, QueryRule, Route, RouteRule};
use goal_form::{Atoms, Formula, Sight, Truth};
use req_model::Request;
use route_match::{FractionTest, GrpcTest, HeaderTest, PathTest, QueryTest, RouteTest, Scratch};
use rule_form::{
    fraction_formula, grpc_formula, header_formula, path_formula, query_formula, rule_formula,
};
use rule_sight::{FractionSight, GrpcSight, HeaderSight, PathSight, QuerySight, RouteSight};
use std::alloc::Global;
use std::test::Fail;
use test_read::Test;
use text_base::OutOfMemory;

/// Whether the sight holds on the request.
fn holds_at<S: Sight>(alloc: Global, sight: &S, request: &Request) -> Result<bool, OutOfMemory> {
    let mut scratch = Scratch::new(alloc, sight.room())?;
    Ok(sight.holds(request, &mut scratch))
}

/// Whether the formula over the atoms is told so.
fn is_told(
    alloc: Global,
    formula: &Formula,
    atoms: &Atoms,
    want: &str,
) -> Result<bool, OutOfMemory> {
    let text = told(alloc, formula, atoms)?;
    Ok(text.as_str() == want)
}

/// Whether the sight holds on the request: `y` or `n`, or `?` where its formula isn't told so, or is true where the sight
/// doesn't hold, or the other way round.
fn sign_of<S: Sight>(
    alloc: Global,
    sight: &S,
    want: &str,
    request: &Request,
) -> Result<char, OutOfMemory>
    requires { S.lawful sight.now }
{
    let holds = holds_at(alloc, sight, request)?;
    let mut atoms = Atoms::new(alloc);
    let formula = sight.formula(alloc, &mut atoms)?;
    let same = is_told(alloc, &formula, &atoms, want)?;
    let truth = truth_at(alloc, &formula, &atoms, request)?;
    Ok(match truth {
        Truth::Yes if same && holds => 'y',
        Truth::No if same && !holds => 'n',
        _ => '?',
    })
}

/// The formula of the rule, told whole.
fn told_path(alloc: Global, rule: &PathRule, fold: bool) -> Result<String, OutOfMemory>
    requires { IsLawfulPath rule.now }
{
    let mut atoms = Atoms::new(alloc);
    let formula = path_formula(alloc, rule, fold, false, &mut atoms)?;
    told(alloc, &formula, &atoms)
}

fn path_sign(
    alloc: Global,
    rule: &PathRule,
    fold: bool,
    request: &Request,
) -> Result<char, OutOfMemory>
    requires { IsLawfulPath rule.now }
{
    let want = told_path(alloc, rule, fold)?;
    let test = PathTest::build(alloc, rule, fold, false)?;
    let sight = PathSight::of(&test, rule, fold, false);
    sign_of(alloc, &sight, want.as_str(), request)
}

fn told_header(alloc: Global, rule: &HeaderRule) -> Result<String, OutOfMemory>
    requires { IsLawfulHeader rule.now }
{
    let mut atoms = Atoms::new(alloc);
    let formula = header_formula(alloc, rule, &mut atoms)?;
    told(alloc, &formula, &atoms)
}

fn header_sign(alloc: Global, rule: &HeaderRule, request: &Request) -> Result<char, OutOfMemory>
    requires { IsLawfulHeader rule.now }
{
    let want = told_header(alloc, rule)?;
    let test = HeaderTest::build(alloc, rule)?;
    let sight = HeaderSight::of(&test, rule);
    sign_of(alloc, &sight, want.as_str(), request)
}

fn told_query(alloc: Global, rule: &QueryRule) -> Result<String, OutOfMemory>
    requires { IsLawfulQuery rule.now }
{
    let mut atoms = Atoms::new(alloc);
    let formula = query_formula(alloc, rule, &mut atoms)?;
    told(alloc, &formula, &atoms)
}

fn query_sign(alloc: Global, rule: &QueryRule, request: &Request) -> Result<char, OutOfMemory>
    requires { IsLawfulQuery rule.now }
{
    let want = told_query(alloc, rule)?;
    let test = QueryTest::build(alloc, rule)?;
    let sight = QuerySight::of(&test, rule);
    sign_of(alloc, &sight, want.as_str(), request)
}

fn told_grpc(alloc: Global) -> Result<String, OutOfMemory> {
    let mut atoms = Atoms::new(alloc);
    let formula = grpc_formula(alloc, &mut atoms)?;
    told(alloc, &formula, &atoms)
}

fn grpc_sign(alloc: Global, request: &Request) -> Result<char, OutOfMemory> {
    let want = told_grpc(alloc)?;
    let test = GrpcTest::build(alloc)?;
    let sight = GrpcSight::of(&test);
    sign_of(alloc, &sight, want.as_str(), request)
}

fn told_fraction(alloc: Global, rule: &Fraction) -> Result<String, OutOfMemory>
    requires { IsLawfulFraction rule.now }
{
    let mut atoms = Atoms::new(alloc);
    let formula = fraction_formula(alloc, rule, &mut atoms)?;
    told(alloc, &formula, &atoms)
}

fn fraction_sign(alloc: Global, rule: &Fraction, request: &Request) -> Result<char, OutOfMemory>
    requires { IsLawfulFraction rule.now }
{
    let want = told_fraction(alloc, rule)?;
    let test = FractionTest::build(alloc, rule)?;
    let sight = FractionSight::of(&test, rule);
    sign_of(alloc, &sight, want.as_str(), request)
}

fn told_rule(alloc: Global, rule: &RouteRule) -> Result<String, OutOfMemory>
    requires { IsLawfulRule rule.now }
{
    let mut atoms = Atoms::new(alloc);
    let formula = rule_formula(alloc, rule, false, &mut atoms)?;
    told(alloc, &formula, &atoms)
}

fn route_sign(alloc: Global, rule: &RouteRule, request: &Request) -> Result<char, OutOfMemory>
    requires { IsLawfulRule rule.now }
{
    let want = told_rule(alloc, rule)?;
    let test = RouteTest::build(alloc, rule, false)?;
    let sight = RouteSight::of(&test, rule, false);
    sign_of(alloc, &sight, want.as_str(), request)
}

/// Adds the signs of header rules.
fn add_headers(
    alloc: Global,
    text: &mut String,
    rules: &[HeaderRule],
    request: &Request,
) -> Result<(), OutOfMemory>
    requires { All IsLawfulHeader rules.now }
{
    for rule in rules {
        text.push(header_sign(alloc, rule, request)?)?;
    }
    Ok(())
}

/// Adds the signs of query rules.
fn add_queries(
    alloc: Global,
    text: &mut String,
    rules: &[QueryRule],
    request: &Request,
) -> Result<(), OutOfMemory>
    requires { All IsLawfulQuery rules.now }
{
    for rule in rules {
        text.push(query_sign(alloc, rule, request)?)?;
    }
    Ok(())
}

/// Adds the signs of the route's rule: of its path, its headers, its queries, gRPC, its fraction, and the whole.
fn add_signs(
    alloc: Global,
    text: &mut String,
    rule: &RouteRule,
    request: &Request,
) -> Result<(), OutOfMemory>
    requires { IsLawfulRule rule.now }
{
    text.push(path_sign(alloc, &rule.path, rule.fold, request)?)?;
    add_headers(alloc, text, rule.headers.as_slice(), request)?;
    add_queries(alloc, text, rule.queries.as_slice(), request)?;
    text.push(grpc_sign(alloc, request)?)?;
    if let Some(fraction) = &rule.fraction {
        text.push(fraction_sign(alloc, fraction, request)?)?;
    }
    text.push(route_sign(alloc, rule, request)?)
}

/// Adds the signs of the rules of routes.
fn add_routes(
    alloc: Global,
    text: &mut String,
    routes: &[Route],
    request: &Request,
) -> Result<(), OutOfMemory>
    requires { All IsLawfulRoute routes.now }
{
    for route in routes {
        add_signs(alloc, text, &route.rule, request)?;
    }
    Ok(())
}

/// Adds the signs of the rules of the routes that hosts have in lists.
fn add_hosts(
    alloc: Global,
    text: &mut String,
    hosts: &[Host],
    request: &Request,
) -> Result<(), OutOfMemory>
    requires { All IsLawfulHost hosts.now }
{
    for host in hosts {
        if let Body::List(routes) = &host.body {
            add_routes(alloc, text, routes.as_slice(), request)?;
        }
    }
    Ok(())
}

/// The signs of the rules of hosts at the requests of tests.
fn signs_at(alloc: Global, hosts: &[Host], tests: &[Test]) -> Result<String, OutOfMemory>
    requires { All IsLawfulHost hosts.now }
{
    let mut text = String::new(alloc);
    for test in tests {
        add_hosts(alloc, &mut text, hosts, &test.request)?;
    }
    Ok(text)
}

/// The signs of the rules of the configuration of this line at the request of this input.
fn signs(alloc: Global, config: &str, input: &str) -> Result<String, Fail> {
    let config = config_of(alloc, config)?;
    let tests = tests_of(alloc, input)?;
    Ok(signs_at(alloc, config.hosts.as_slice(), tests.as_slice())?)
}

/// A route with rules of all kinds.
const ROUTE: &str =
    r#"{"match":{"path_separated_prefix":"/A","case_sensitive":false,"headers":[{"name":"x","safe_regex_match":{"regex":"a+"}},{"name":"y","exact_match":"1","invert_match":true},{"name":"z","range_match":{"start":-5,"end":5},"treat_missing_header_as_empty":true,"invert_match":true}],"query_parameters":[{"name":"k","string_match":{"prefix":"v"}},{"name":"l","present_match":true}],"grpc":{},"runtime_fraction":{"default_value":{"numerator":50},"runtime_key":"r"}},$to$}"#;

/// The signs at requests.
const SIGNS: &str =
    r#"yyyyyyyyy {"authority":"h","path":"/a/b?l&k=v1","runtime":"r","random_value":149,"additional_request_headers":[{"key":"x","value":"aa"},{"key":"y","value":"2"},{"key":"content-type","value":"application/grpc"}]}
ynnnnnnnn {"authority":"h","path":"/A?k=w&k=v","random_value":49,"additional_request_headers":[{"key":"x","value":"b"},{"key":"z","value":"-5"}]}
nnnyyynyn {"authority":"h","path":"/ab?k=v&l=","runtime":"r","random_value":0,"additional_request_headers":[{"key":"y","value":"1"},{"key":"z","value":"5"},{"key":"content-type","value":"text/plain"}]}"#;

/// What a sight tells is the formula of its rule, which is true where the sight holds.
#[test]
fn sights_tell_their_rules(rt: HostRuntime) -> Result<(), Fail> {
    for row in SIGNS.lines() {
        let (want, input) = row.split_once(' ').ok_or(row)?;
        let signs = signs(rt.alloc(), ROUTE, input)?;
        assert_eq!(rt; signs.as_str(), want);
    }
    Ok(())
}
