// What is done with a request, by its choice and by the action of a chosen route.
ghost use Rattle.std.specs.Prelude.{◌≡◌, ◌<◌, ◌≤◌, true, Some, All, IfOk, length, slice_get};
ghost use Rattle.std.specs.List.{list_all};
ghost use Rattle.text_base.specs.Requests.{is_header};
ghost use Rattle.cfg_types.specs.Order.{routes};
ghost use Rattle.cfg_types.specs.Lawful.{IsLawful, IsLawfulPair};
ghost use Rattle.cfg_types.specs.Answers.{IsReply, IsSameReply, reply_at, host_of_route};
ghost use Rattle.cfg_types.specs.Conditions.{AreFewHeads, IsWithin};
ghost use Rattle.route_answer.specs.Levels.{pairs_of};
ghost use Rattle.route_answer.specs.Forwarded.{IsSentOn};

use crate::clusters::virtual_cluster;
use crate::headers::{request_heads, response_heads};
use crate::hosts::authority_of;
use crate::levels::{levels, picked_share};
use cfg_types::{Act, Choice, Config, EditPair, Forward, Host, Reply, Route};
use path_change::{cluster_of, new_target, redirect_url, tls_url};
use req_model::Request;
use sqlite_items::Items;
use std::alloc::Global;
use text_base::{Heads, OutOfMemory};

/// A request at the route that it is sent to.
#[derive(Clone, Copy)]
struct Sent<'a> {
    request: &'a Request,
    host: &'a Host,
    route: &'a Route,
    number: u32,
}

/// The host that owns the route of this number. Takes no memory.
fn host_at(config: &Config, number: u32) -> &Host
    requires lawful { IsLawful config.now }
    requires within { number < length (routes config.now) }
    ensures { host_of_route config.now number ≡ Some result.now }
{
    match config.hosts.get(config.host_of(number) as usize) {
        Some(host) => host,
        None => unreachable!(),
    }
}

/// Forwards the request: the path is rewritten first, then headers are edited by these levels, then the host is
/// rewritten.
fn forwarded(
    alloc: Global,
    sent: &Sent,
    forward: &Forward,
    levels: &[&EditPair],
    response_headers: Heads,
) -> Result<Reply, OutOfMemory>
    requires few { length levels.now ≤ 4 }
    requires lawful { All IsLawfulPair (pairs_of levels.now) }
    requires heads { AreFewHeads sent.now.request.now.headers }
    ensures { IfOk result (λ r. IsSentOn (pairs_of levels.now) sent.now.host.now sent.now.route.now sent.now.number forward.now sent.now.request.now response_headers r) }
{
    let target = new_target(alloc, sent.route, sent.request)?;
    let request_headers = request_heads(alloc, levels, sent.request)?;
    let authority = authority_of(
        alloc,
        &forward.host,
        sent.request,
        target.as_slice(),
        &request_headers,
    )?;
    Ok(Reply::Forward {
        route: sent.number,
        cluster: cluster_of(alloc, &forward.to, sent.request)?,
        virtual_cluster: virtual_cluster(alloc, sent.host.clusters.as_slice(), sent.request)?,
        target: Items::from_vec(target),
        authority,
        request_headers,
        response_headers,
    })
}

/// What the route of this number does.
fn routed(
    alloc: Global,
    config: &Config,
    number: u32,
    request: &Request,
    response: &Heads,
) -> Result<Reply, OutOfMemory>
    requires lawful { IsLawful config.now }
    requires within { number < length (routes config.now) }
    requires request { AreFewHeads request.now.headers }
    requires response { AreFewHeads response.now.list }
    requires valid { list_all is_header response.now.list ≡ true }
    ensures { IfOk result (λ r. IsSameReply r (reply_at config.now (host_of_route config.now number) (slice_get (routes config.now) number) number request.now response.now.list)) }
{
    let route = config.route_at(number);
    let host = host_at(config, number);
    let levels = levels(
        alloc,
        config,
        host,
        route,
        picked_share(&route.act, request),
    )?;
    let response_headers = response_heads(alloc, levels.as_slice(), response)?;
    match &route.act {
        Act::Forward(forward) => {
            let sent = Sent {
                request,
                host,
                route,
                number,
            };
            forwarded(alloc, &sent, forward, levels.as_slice(), response_headers)
        }
        Act::Redirect(redirect) => Ok(Reply::Redirect {
            route: number,
            code: redirect.code,
            url: Items::from_vec(redirect_url(alloc, route, request)?),
            response_headers,
        }),
        Act::Direct { status } => Ok(Reply::Direct {
            route: number,
            status: *status,
            response_headers,
        }),
    }
}

/// The reply to a request with this choice, where `response` is the headers of the response before edits. A chosen route
/// is one of the configuration's. Request and response have at most 1,000 headers each, with names of at most 1,024
/// bytes, and those of the response keep the rules of requests for headers.
pub fn answer(
    alloc: Global,
    config: &Config,
    choice: Choice,
    request: &Request,
    response: &Heads,
) -> Result<Reply, OutOfMemory>
    requires lawful { IsLawful config.now }
    requires within { IsWithin choice (length (routes config.now)) }
    requires request { AreFewHeads request.now.headers }
    requires response { AreFewHeads response.now.list }
    requires valid { list_all is_header response.now.list ≡ true }
    ensures { IfOk result (λ r. IsReply config.now choice request.now response.now.list r) }
{
    match choice {
        Choice::NoHost => Ok(Reply::NoHost),
        Choice::NoRoute { host } => Ok(Reply::NoRoute { host }),
        Choice::Tls { host } => Ok(Reply::Tls {
            host,
            url: Items::from_vec(tls_url(alloc, request)?),
        }),
        Choice::Chosen { route } => routed(alloc, config, route, request, response),
    }
}
