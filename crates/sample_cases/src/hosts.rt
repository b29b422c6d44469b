// The hosts of samples with their domains and their routes, in texts.
use cfg_types::{
    Act, Body, Config, Domain, HeaderForm, HeaderRule, Host, PathRule, Route, Target, TextForm,
};
use sample_make::make;
use std::alloc::Global;
use std::test::Fail;
use text_base::OutOfMemory;

/// A path rule in two parts, its form and its text.
fn path_parts(rule: &PathRule) -> (&'static str, &str) {
    match rule {
        PathRule::Prefix(text) => (" prefix ", text.as_str()),
        PathRule::Exact(text) => (" path ", text.as_str()),
        PathRule::Pattern(pattern) => (" regex ", pattern.text.as_str()),
        PathRule::Separated(text) => (" path_separated_prefix ", text.as_str()),
    }
}

/// The text that a header has to be equal to, or `?` where the rule is another one.
fn wanted_value(rule: &HeaderRule) -> &str {
    match &rule.form {
        HeaderForm::Value(value) => match &value.form {
            TextForm::Exact(text) => text.as_str(),
            _ => "?",
        },
        _ => "?",
    }
}

/// The cluster that is forwarded to, or `?` where something else is done.
fn cluster_of(act: &Act) -> &str {
    match act {
        Act::Forward(forward) => match &forward.to {
            Target::Cluster(name) => name.as_str(),
            _ => "?",
        },
        _ => "?",
    }
}

/// Adds a header rule: its name and the value that it wants.
fn add_header(text: &mut String, rule: &HeaderRule) -> Result<(), OutOfMemory> {
    text.push(' ')?;
    text.push_str(rule.name.as_str())?;
    text.push_str(" = ")?;
    text.push_str(wanted_value(rule))
}

/// Adds a line for a route: its place, its path rule, its header rules and its cluster.
fn add_route(text: &mut String, route: &Route) -> Result<(), OutOfMemory> {
    let (form, path) = path_parts(&route.rule.path);
    text.push_str(route.place.as_str())?;
    text.push_str(form)?;
    text.push_str(path)?;
    for rule in route.rule.headers.as_slice() {
        add_header(text, rule)?;
    }
    text.push_str(" to ")?;
    text.push_str(cluster_of(&route.act))?;
    text.push('\n')
}

/// The exact text of a domain, or `?` where it is a wildcard.
fn domain_text(domain: &Domain) -> &str {
    match domain {
        Domain::Exact(text) => text.as_str(),
        _ => "?",
    }
}

/// Adds a line for a host, with its domains, and one for each of its routes.
fn add_host(text: &mut String, host: &Host) -> Result<(), OutOfMemory> {
    text.push_str(host.name.as_str())?;
    for domain in host.domains.as_slice() {
        text.push(' ')?;
        text.push_str(domain_text(domain))?;
    }
    text.push('\n')?;
    if let Body::List(routes) = &host.body {
        for route in routes.as_slice() {
            add_route(text, route)?;
        }
    }
    Ok(())
}

/// The hosts from the one of number `first` on.
fn told_from(alloc: Global, config: &Config, first: usize) -> Result<String, OutOfMemory> {
    let mut text = String::new(alloc);
    for (at, host) in config.hosts.as_slice().iter().enumerate() {
        if first <= at {
            add_host(&mut text, host)?;
        }
    }
    Ok(text)
}

/// A sample by the number of its hosts, and its hosts from a number on.
const SAMPLES: [(u32, usize, &str); 3] = [
    (
        1,
        0,
        "s0 h0.test
/virtual_hosts/0/routes/0 prefix /a to c
/virtual_hosts/0/routes/1 path /a/x to c
/virtual_hosts/0/routes/2 prefix / x-k = 0 to c
/virtual_hosts/0/routes/3 path_separated_prefix /s to c
/virtual_hosts/0/routes/4 prefix / to c
",
    ),
    (
        12,
        10,
        "s10 h10.test
/virtual_hosts/10/routes/0 prefix /a to c
/virtual_hosts/10/routes/1 path /a/x to c
/virtual_hosts/10/routes/2 prefix / x-k = 10 to c
/virtual_hosts/10/routes/3 path_separated_prefix /s to c
/virtual_hosts/10/routes/4 prefix / to c
s11 h11.test
/virtual_hosts/11/routes/0 prefix /a to c
/virtual_hosts/11/routes/1 path /a/x to c
/virtual_hosts/11/routes/2 prefix / x-k = 11 to c
/virtual_hosts/11/routes/3 path_separated_prefix /s to c
/virtual_hosts/11/routes/4 prefix / to c
",
    ),
    (
        2000,
        1999,
        "s1999 h1999.test
/virtual_hosts/1999/routes/0 prefix /a to c
/virtual_hosts/1999/routes/1 path /a/x to c
/virtual_hosts/1999/routes/2 prefix / x-k = 1999 to c
/virtual_hosts/1999/routes/3 path_separated_prefix /s to c
/virtual_hosts/1999/routes/4 prefix / to c
",
    ),
];

/// Whether the sample of this many hosts, 1 to 2,000, is told so from a number on.
fn row_is_so(alloc: Global, count: u32, first: usize, row: &str) -> Result<bool, OutOfMemory> {
    if count < 1 || count > 2_000 {
        return Ok(false);
    }
    let config = make(alloc, count)?;
    let told = told_from(alloc, &config, first)?;
    Ok(told.as_str() == row)
}

#[test]
fn hosts_have_their_domain_and_five_routes(rt: HostRuntime) -> Result<(), Fail> {
    for (count, first, row) in SAMPLES {
        assert!(rt; row_is_so(rt.alloc(), count, first, row)?, "{count}");
    }
    Ok(())
}
