// The parts of goals: domains, names of headers, the guards of a host, and laws.
ghost use Rattle.std.specs.Prelude.{◌<◌, length, All};
ghost use Rattle.cfg_types.specs.Lawful.{IsLawful, IsLawfulBody, IsLawfulHost};

use crate::made::config_of;
use crate::told::{told, told_goal};
use cfg_types::{Body, Config, Domain, Host};
use goal_build::{HostGoals, goal, goal_laws};
use goal_form::{Atoms, Formula, valid_term_law};
use host_pick::ranks_before;
use match_tree::{Guard, guard_laws, guards, route_guards};
use req_model::is_header_name;
use rule_form::rule_laws;
use rx_build::text_rule_law;
use std::alloc::Global;
use std::test::Fail;
use text_base::OutOfMemory;

/// A sign for each domain: whether this one ranks before it.
fn add_ranks(text: &mut String, domain: &Domain, domains: &[Domain]) -> Result<(), OutOfMemory> {
    for other in domains {
        text.push(if ranks_before(domain, other) {
            'y'
        } else {
            'n'
        })?;
    }
    text.push('\n')
}

/// Adds the domain as it is written.
fn add_written(alloc: Global, text: &mut String, domain: &Domain) -> Result<(), OutOfMemory> {
    let written = domain.written(alloc)?;
    text.push_str(written.as_str())
}

/// Each domain as it is written, and a sign for each domain.
fn add_domains(alloc: Global, text: &mut String, domains: &[Domain]) -> Result<(), OutOfMemory> {
    for domain in domains {
        add_written(alloc, text, domain)?;
        text.push(' ')?;
        add_ranks(text, domain, domains)?;
    }
    Ok(())
}

/// The domains of all hosts.
fn hosts_told(alloc: Global, hosts: &[Host]) -> Result<String, OutOfMemory> {
    let mut text = String::new(alloc);
    for host in hosts {
        add_domains(alloc, &mut text, host.domains.as_slice())?;
    }
    Ok(text)
}

/// The domains of all hosts of the configuration of this line.
fn domains_of(alloc: Global, config: &str) -> Result<String, Fail> {
    let config = config_of(alloc, config)?;
    Ok(hosts_told(alloc, config.hosts.as_slice())?)
}

const DOMAINS: &str =
    r#"{"virtual_hosts":[{"name":"h","domains":["a.B","*.c","*.dD","e.*","*","*.ff"]}]}"#;

const RANKS: &str = "a.b nyyyyy
*.c nnnyyn
*.dd nynyyn
e.* nnnnyn
* nnnnnn
*.ff nynyyn
";

#[test]
fn domains_are_written_and_ranked(rt: HostRuntime) -> Result<(), Fail> {
    assert_eq!(rt; domains_of(rt.alloc(), DOMAINS)?.as_str(), RANKS);
    for (name, want) in [
        ("x-a", true),
        ("content-type", true),
        ("hosts", true),
        ("host", false),
        ("x-forwarded-proto", false),
        ("x-envoy-internal", false),
        ("X-a", false),
        (":path", false),
        ("", false),
    ] {
        assert_eq!(rt; is_header_name(name.as_bytes()), want, "{name}");
    }
    Ok(())
}

/// The guards in order, each by its route and its formula.
fn told_guards(alloc: Global, guards: &[Guard], atoms: &Atoms) -> Result<String, OutOfMemory> {
    let mut text = String::new(alloc);
    for guard in guards {
        let formula = told(alloc, &guard.formula, atoms)?;
        let line = format!(in alloc; "{:?} {}\n", guard.route, formula.as_str())?;
        text.push_str(line.as_str())?;
    }
    Ok(text)
}

/// Rules that always hold, so many.
fn open_rules(alloc: Global, many: usize) -> Result<Vec<Formula>, OutOfMemory> {
    let mut rules = Vec::new(alloc);
    for _ in 0..many {
        rules.push(Formula::Yes)?;
    }
    Ok(rules)
}

/// The guards of a host over rules that always hold, of which the first is that of the route 5.
fn guards_over(alloc: Global, body: &Body) -> Result<String, OutOfMemory>
    requires { IsLawfulBody body.now }
{
    let rules = open_rules(alloc, body.routes(alloc)?.len())?;
    let mut atoms = Atoms::new(alloc);
    match body {
        Body::List(_) => {
            let guards = route_guards(alloc, 5, &rules)?;
            told_guards(alloc, guards.as_slice(), &atoms)
        }
        Body::Tree(tree) => {
            let guards = guards(alloc, tree, 5, &rules, &mut atoms)?;
            told_guards(alloc, guards.as_slice(), &atoms)
        }
    }
}

/// Whether the goal at this place of the host is the one of its route.
fn is_goal_of(
    alloc: Global,
    config: &Config,
    goals: &HostGoals,
    at: usize,
) -> Result<bool, OutOfMemory>
    requires lawful { IsLawful config.now }
    requires within { at < length goals.now.guards }
{
    let Some(route) = goals.route(at) else {
        return Ok(true);
    };
    if config.route_count() <= route {
        return Ok(false);
    }
    let own = told_goal(alloc, &goals.goal(alloc, at)?)?;
    let same = told_goal(alloc, &goal(alloc, config, route)?)?;
    Ok(own.as_str() == same.as_str())
}

/// Whether all these goals are those of their routes.
fn all_are_goals_of(alloc: Global, config: &Config, goals: &HostGoals) -> Result<bool, OutOfMemory>
    requires { IsLawful config.now }
{
    for at in 0..goals.count() {
        if !is_goal_of(alloc, config, goals, at)? {
            return Ok(false);
        }
    }
    Ok(true)
}

/// Whether all goals of the first host are those of its routes.
fn are_goals_of(alloc: Global, config: &Config) -> Result<bool, OutOfMemory>
    requires { IsLawful config.now }
{
    if config.hosts.is_empty() {
        return Ok(false);
    }
    let goals = HostGoals::build(alloc, config, 0, 0)?;
    all_are_goals_of(alloc, config, &goals)
}

/// The guards of each host.
fn guards_told(alloc: Global, hosts: &[Host]) -> Result<String, OutOfMemory>
    requires { All IsLawfulHost hosts.now }
{
    let mut text = String::new(alloc);
    for host in hosts {
        let told = guards_over(alloc, &host.body)?;
        text.push_str(told.as_str())?;
    }
    Ok(text)
}

/// The guards of each host, or nothing where a goal of the first host isn't its route's.
fn guards_in(alloc: Global, config: &Config) -> Result<String, OutOfMemory>
    requires { IsLawful config.now }
{
    if !are_goals_of(alloc, config)? {
        return Ok(String::new(alloc));
    }
    guards_told(alloc, config.hosts.as_slice())
}

/// The same of the configuration of this line.
fn guards_of(alloc: Global, config: &str) -> Result<String, Fail> {
    let config = config_of(alloc, config)?;
    Ok(guards_in(alloc, &config)?)
}

const HOSTS: &str =
    r#"{"virtual_hosts":[{"name":"x","domains":["*"],"matcher":{"matcher_list":{"matchers":[{"predicate":{"single_predicate":{$header$:"x"}},"value_match":{"exact":"1"}}},"on_match":{"matcher":{"matcher_tree":{$header$:"y"}},"prefix_match_map":{"map":{"a":{$route$:{"prefix":"/"},$to$}}},"ab":{$routes$:[{"match":{"prefix":"/"},$to$},{"match":{"path":"/"},$to$}]}}}}}}}}}]},"on_no_match":{$route$:{"prefix":"/"},$to$}}}}},{"name":"y","domains":["y"],"routes":[{"match":{"prefix":"/"},$to$},{"match":{"path":"/x"},$to$}]}]}"#;

const GUARDS: &str = "Some(5) all(0 all(1 yes)); header:x in 1; header:y in ab.*; header:y in a.*
Some(6) all(0 all(1 yes)); header:x in 1; header:y in ab.*; header:y in a.*
None all(0 all(1)); header:x in 1; header:y in ab.*; header:y in a.*
Some(7) all(0 all(2 yes)); header:x in 1; header:y in ab.*; header:y in a.*
None all(0 all(2)); header:x in 1; header:y in ab.*; header:y in a.*
None all(0); header:x in 1; header:y in ab.*; header:y in a.*
Some(8) yes; header:x in 1; header:y in ab.*; header:y in a.*
Some(5) yes
Some(6) yes
";

/// After an entry nothing is asked where the entry's condition is true, and each route's guard has its rule.
#[test]
fn guards_are_those_of_their_host(rt: HostRuntime) -> Result<(), Fail> {
    let guards = guards_of(rt.alloc(), HOSTS)?;
    assert_eq!(rt; guards.as_str(), GUARDS);
    rule_laws();
    guard_laws();
    goal_laws();
    text_rule_law();
    valid_term_law();
    Ok(())
}
