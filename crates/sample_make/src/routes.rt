// The routes of a host of the sample.
ghost use Rattle.std.specs.Prelude.{◌≡◌, ◌++◌, [], Some, IfOk, slice_get, codes, decimal, string_bytes};
ghost use Rattle.sample_make.specs.Samples.{without_edits, sample_act, sample_place, sample_route, sample_rule, sample_routes};

use cfg_types::{
    Act, EditPair, Edits, Forward, HeaderForm, HeaderRule, HostChange, PathRule, Route, RouteRule,
    Target, TextForm, TextRule,
};
use sqlite_items::Items;
use std::alloc::Global;
use text_base::{OutOfMemory, Text};

/// No header edits.
pub fn no_edits(alloc: Global) -> EditPair
    ensures { result ≡ without_edits }
{
    EditPair {
        request: Edits {
            remove: Items::new(alloc),
            add: Items::new(alloc),
        },
        response: Edits {
            remove: Items::new(alloc),
            add: Items::new(alloc),
        },
    }
}

/// Forwarding to the cluster `c`.
fn forward_act(alloc: Global) -> Result<Act, OutOfMemory>
    ensures { IfOk result (λ a. a ≡ sample_act) }
{
    Ok(Act::Forward(Forward {
        to: Target::Cluster(Text::of(alloc, "c")?),
        prefix_rewrite: Text::of(alloc, "")?,
        host: HostChange::Keep,
    }))
}

/// The place of route `at` of a host, as a JSON pointer.
fn place_text(alloc: Global, host: u32, at: u32) -> Result<String, OutOfMemory>
    ensures { IfOk result (λ s. string_bytes s ≡ codes "/virtual_hosts/" ++ (decimal host ++ (codes "/routes/" ++ decimal at))) }
{
    format!(in alloc; "/virtual_hosts/{host}/routes/{at}")
}

/// The same as a text of a configuration.
fn place_of(alloc: Global, host: u32, at: u32) -> Result<Text, OutOfMemory>
    ensures { IfOk result (λ t. t ≡ sample_place host at) }
{
    let text = place_text(alloc, host, at)?;
    Text::of(alloc, text.as_str())
}

/// The route with this path rule and these header rules.
fn route_of(
    alloc: Global,
    host: u32,
    at: u32,
    path: PathRule,
    headers: Items<HeaderRule>,
) -> Result<Route, OutOfMemory>
    ensures { IfOk result (λ r. r ≡ sample_route host at path headers) }
{
    Ok(Route {
        place: place_of(alloc, host, at)?,
        name: Text::of(alloc, "")?,
        rule: RouteRule {
            path,
            fold: false,
            headers,
            queries: Items::new(alloc),
            grpc: false,
            fraction: None,
        },
        act: forward_act(alloc)?,
        edits: no_edits(alloc),
    })
}

/// The route with this path rule alone.
fn plain_route(alloc: Global, host: u32, at: u32, path: PathRule) -> Result<Route, OutOfMemory>
    ensures { IfOk result (λ r. r ≡ sample_route host at path []) }
{
    route_of(alloc, host, at, path, Items::new(alloc))
}

/// The rule that the header `x-k` has the host's number.
fn number_rule(alloc: Global, host: u32) -> Result<HeaderRule, OutOfMemory>
    ensures { IfOk result (λ r. r ≡ sample_rule host) }
{
    let number = format!(in alloc; "{host}")?;
    Ok(HeaderRule {
        name: Text::of(alloc, "x-k")?,
        form: HeaderForm::Value(TextRule {
            form: TextForm::Exact(Text::of(alloc, number.as_str())?),
            fold: false,
        }),
        invert: false,
        missing_empty: false,
    })
}

/// The route that asks for the host's number in a header.
fn numbered_route(alloc: Global, host: u32) -> Result<Route, OutOfMemory>
    ensures { IfOk result (λ r. slice_get (sample_routes host) 2 ≡ Some r) }
{
    let mut headers = Items::new(alloc);
    headers.push(number_rule(alloc, host)?)?;
    route_of(
        alloc,
        host,
        2,
        PathRule::Prefix(Text::of(alloc, "/")?),
        headers,
    )
}

/// The five routes of a host.
pub fn routes_of(alloc: Global, host: u32) -> Result<Items<Route>, OutOfMemory>
    ensures { IfOk result (λ rs. rs ≡ sample_routes host) }
{
    let mut routes = Items::new(alloc);
    routes.push(plain_route(alloc, host, 0, PathRule::Prefix(Text::of(alloc, "/a")?))?)?;
    routes.push(plain_route(alloc, host, 1, PathRule::Exact(Text::of(alloc, "/a/x")?))?)?;
    routes.push(numbered_route(alloc, host)?)?;
    routes.push(plain_route(alloc, host, 3, PathRule::Separated(Text::of(alloc, "/s")?))?)?;
    routes.push(plain_route(alloc, host, 4, PathRule::Prefix(Text::of(alloc, "/")?))?)?;
    Ok(routes)
}
