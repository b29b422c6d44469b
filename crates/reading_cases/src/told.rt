// What was read of a configuration as a short text.
use crate::rules_told::{form_told, fraction_told, header_told, query_told, rule_told};
use cfg_types::{
    Act, Addition, Body, Config, Domain, EditPair, Forward, Host, HostChange, PathTo, Redirect,
    Route, Share, Target,
};
use std::alloc::Global;
use text_base::OutOfMemory;

/// What is told of a configuration, of its first host and of that host's first route.
#[derive(Clone, Copy)]
pub(crate) enum Part {
    /// That it was taken.
    Whole,
    Config,
    Edits,
    Host,
    Route,
    Rule,
    HeaderRule,
    HeaderForm,
    QueryRule,
    Fraction,
    Act,
}

fn config_told(alloc: Global, config: &Config) -> Result<String, OutOfMemory> {
    format!(in alloc;
        "name={} hosts={} wins={} port={} parameters={}",
        config.name.as_str(),
        config.hosts.len(),
        config.specific_wins,
        config.ignore_port,
        config.ignore_params
    )
}

fn addition_told(alloc: Global, added: &Addition) -> Result<String, OutOfMemory> {
    format!(in alloc;
        "name={} value={} how={:?} keep={}",
        added.name.as_str(),
        added.value.as_str(),
        added.how,
        added.keep_empty
    )
}

pub(crate) fn edits_told(alloc: Global, edits: &EditPair) -> Result<String, OutOfMemory> {
    let first = match edits.request.add.as_slice() {
        [added, ..] => addition_told(alloc, added)?,
        [] => String::from_str(alloc, "none")?,
    };
    format!(in alloc;
        "{first} added={} removed={} added_back={} removed_back={}",
        edits.request.add.len(),
        edits.request.remove.len(),
        edits.response.add.len(),
        edits.response.remove.len()
    )
}

fn domain_told(alloc: Global, domain: &Domain) -> Result<String, OutOfMemory> {
    match domain {
        Domain::Exact(name) => format!(in alloc; " exact {}", name.as_str()),
        Domain::Suffix(name) => format!(in alloc; " suffix {}", name.as_str()),
        Domain::Prefix(name) => format!(in alloc; " prefix {}", name.as_str()),
        Domain::Any => String::from_str(alloc, " any"),
    }
}

fn host_told(alloc: Global, host: &Host) -> Result<String, OutOfMemory> {
    let mut told = format!(in alloc;
        "name={} tls={:?} routes={}",
        host.name.as_str(),
        host.tls,
        routes_of(host).len()
    )?;
    for domain in host.domains.as_slice() {
        let domain = domain_told(alloc, domain)?;
        told.push_str(domain.as_str())?;
    }
    Ok(told)
}

fn shares_told(alloc: Global, shares: &[Share]) -> Result<String, OutOfMemory> {
    let mut told = String::from_str(alloc, "shares")?;
    for share in shares {
        let share = format!(in alloc; " {}:{}", share.name.as_str(), share.weight)?;
        told.push_str(share.as_str())?;
    }
    Ok(told)
}

fn target_told(alloc: Global, target: &Target) -> Result<String, OutOfMemory> {
    match target {
        Target::Cluster(name) => format!(in alloc; "cluster={}", name.as_str()),
        Target::FromHeader(name) => format!(in alloc; "header={}", name.as_str()),
        Target::Weighted(shares) => shares_told(alloc, shares.as_slice()),
    }
}

fn host_change_told(alloc: Global, change: &HostChange) -> Result<String, OutOfMemory> {
    match change {
        HostChange::Keep => String::from_str(alloc, "kept"),
        HostChange::Literal(host) => format!(in alloc; "literal:{}", host.as_str()),
        HostChange::FromHeader(name) => format!(in alloc; "header:{}", name.as_str()),
    }
}

fn forward_told(alloc: Global, forward: &Forward) -> Result<String, OutOfMemory> {
    let to = target_told(alloc, &forward.to)?;
    let host = host_change_told(alloc, &forward.host)?;
    format!(in alloc;
        "{to} rewrite={} host={host}",
        forward.prefix_rewrite.as_str()
    )
}

fn path_to_told(alloc: Global, path: &PathTo) -> Result<String, OutOfMemory> {
    match path {
        PathTo::Keep => String::from_str(alloc, "kept"),
        PathTo::Whole(path) => format!(in alloc; "whole:{}", path.as_str()),
        PathTo::Prefix(path) => format!(in alloc; "prefix:{}", path.as_str()),
    }
}

fn redirect_told(alloc: Global, redirect: &Redirect) -> Result<String, OutOfMemory> {
    let path = path_to_told(alloc, &redirect.path)?;
    format!(in alloc;
        "scheme={} host={} port={} path={path} code={} strip={}",
        redirect.scheme.as_str(),
        redirect.host.as_str(),
        redirect.port,
        redirect.code,
        redirect.strip
    )
}

fn act_told(alloc: Global, act: &Act) -> Result<String, OutOfMemory> {
    match act {
        Act::Forward(forward) => forward_told(alloc, forward),
        Act::Redirect(redirect) => redirect_told(alloc, redirect),
        Act::Direct { status } => format!(in alloc; "status={status}"),
    }
}

pub(crate) fn route_told(alloc: Global, route: &Route) -> Result<String, OutOfMemory> {
    let act = act_told(alloc, &route.act)?;
    format!(in alloc;
        "place={} name={} {act} added={}",
        route.place.as_str(),
        route.name.as_str(),
        route.edits.request.add.len()
    )
}

/// The routes that a host lists.
fn routes_of(host: &Host) -> &[Route] {
    match &host.body {
        Body::List(routes) => routes.as_slice(),
        Body::Tree(_) => &[],
    }
}

/// The first header rule, or its form alone.
fn header_part_told(alloc: Global, part: Part, route: &Route) -> Result<String, OutOfMemory> {
    match (part, route.rule.headers.as_slice()) {
        (_, []) => String::from_str(alloc, "no header"),
        (Part::HeaderForm, [rule, ..]) => form_told(alloc, &rule.form),
        (_, [rule, ..]) => header_told(alloc, rule),
    }
}

fn first_query_told(alloc: Global, route: &Route) -> Result<String, OutOfMemory> {
    match route.rule.queries.as_slice() {
        [rule, ..] => query_told(alloc, rule),
        [] => String::from_str(alloc, "no query"),
    }
}

fn route_part_told(alloc: Global, part: Part, route: &Route) -> Result<String, OutOfMemory> {
    match part {
        Part::Act => act_told(alloc, &route.act),
        Part::Rule => rule_told(alloc, &route.rule),
        Part::HeaderRule | Part::HeaderForm => header_part_told(alloc, part, route),
        Part::QueryRule => first_query_told(alloc, route),
        Part::Fraction => match &route.rule.fraction {
            Some(fraction) => fraction_told(alloc, fraction),
            None => String::from_str(alloc, "no fraction"),
        },
        _ => route_told(alloc, route),
    }
}

fn host_part_told(alloc: Global, part: Part, host: &Host) -> Result<String, OutOfMemory> {
    match (part, routes_of(host)) {
        (Part::Host, _) | (_, []) => host_told(alloc, host),
        (_, [route, ..]) => route_part_told(alloc, part, route),
    }
}

/// The part as a short text.
pub(crate) fn part_told(alloc: Global, part: Part, config: &Config) -> Result<String, OutOfMemory> {
    match (part, config.hosts.as_slice()) {
        (Part::Whole, _) => String::from_str(alloc, "taken"),
        (Part::Edits, _) => edits_told(alloc, &config.edits),
        (Part::Config, _) | (_, []) => config_told(alloc, config),
        (_, [host, ..]) => host_part_told(alloc, part, host),
    }
}
