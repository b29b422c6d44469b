// The URLs of redirects.
ghost use Rattle.std.specs.Prelude.{◌≡◌, ◌++◌, codes, IfOk, IfSome, IsSome, OnOk, string_bytes};
ghost use Rattle.cfg_types.specs.Redirects as definition;
ghost use Rattle.path_change.specs.Paths.{redirect_of, path_to, keeps_query as query_stays};

use crate::pieces::{push_path, query_of};
use cfg_types::{Act, PathRule, PathTo, Redirect, Route};
use host_pick::host_text;
use req_model::Request;
use std::alloc::Global;
use text_base::{OutOfMemory, Parts};

/// The text, or the other one where it is empty.
fn or_text<'a>(text: &'a [u8], other: &'a [u8]) -> &'a [u8]
    ensures { result.now ≡ definition.or_text text.now other.now }
{
    if text.is_empty() { other } else { text }
}

fn proto_of(https: bool) -> &'static [u8]
    ensures { result.now ≡ definition.proto https }
{
    if https { b"https" } else { b"http" }
}

/// The port that a proto has by itself.
fn own_port(https: bool) -> &'static [u8]
    ensures { result.now ≡ definition.own_port https }
{
    if https { b":443" } else { b":80" }
}

fn without_ending<'a>(ending: &[u8], text: &'a [u8]) -> &'a [u8]
    ensures { result.now ≡ definition.without_ending ending.now text.now }
{
    if text.ends_with(ending) {
        &text[..text.len() - ending.len()]
    } else {
        text
    }
}

/// The scheme of the redirect, or else the request's proto.
fn scheme_of<'a>(redirect: &'a Redirect, parts: &'a Parts) -> &'a [u8]
    ensures { result.now ≡ definition.scheme_of redirect.now parts.now }
{
    or_text(redirect.scheme.as_bytes(), proto_of(parts.https))
}

/// The authority without its port where another one is set; then, where the scheme isn't the proto, without the port
/// that the proto has by itself.
fn kept_host<'a>(redirect: &Redirect, parts: &'a Parts) -> &'a [u8]
    ensures { result.now ≡ definition.kept_host redirect.now parts.now }
{
    let host = host_text(redirect.port != 0, parts.authority.as_slice());
    if scheme_of(redirect, parts) == proto_of(parts.https) {
        host
    } else {
        without_ending(own_port(parts.https), host)
    }
}

/// The port that the redirect sets, with its colon, or nothing.
fn port_text(alloc: Global, port: u16) -> Result<String, OutOfMemory>
    ensures { IfOk result (λ s. string_bytes s ≡ definition.port_part port) }
{
    if port == 0 {
        return Ok(String::new(alloc));
    }
    format!(in alloc; ":{port}")
}

/// Whether the request's query follows the path of the URL.
fn keeps_query(redirect: &Redirect) -> bool
    ensures { result ≡ query_stays redirect.now.path redirect.now.strip }
{
    match &redirect.path {
        PathTo::Whole(path) => !redirect.strip && !path.as_bytes().contains(&b'?'),
        PathTo::Keep | PathTo::Prefix(_) => !redirect.strip,
    }
}

/// Appends the path of the URL: the redirect's, or the request's with its matched prefix swapped, or the request's.
fn push_redirected(
    url: &mut Vec<u8>,
    rule: &PathRule,
    to: &PathTo,
    path: &[u8],
) -> Result<(), OutOfMemory>
    ensures { OnOk result (url.new.items ≡ url.old.items ++ path_to rule.now to.now path.now) }
{
    match to {
        PathTo::Keep => url.extend_from_slice(path),
        PathTo::Whole(text) => url.extend_from_slice(or_text(text.as_bytes(), path)),
        PathTo::Prefix(text) => push_path(url, rule, text.as_bytes(), path),
    }
}

/// Appends the target of the URL.
fn push_target(
    url: &mut Vec<u8>,
    rule: &PathRule,
    redirect: &Redirect,
    request: &Request,
) -> Result<(), OutOfMemory>
    ensures { OnOk result (url.new.items ≡ url.old.items ++ definition.target_part rule.now redirect.now.path redirect.now.strip request.now.target) }
{
    push_redirected(url, rule, &redirect.path, request.path_part())?;
    if !keeps_query(redirect) {
        return Ok(());
    }
    url.extend_from_slice(query_of(request))
}

/// Appends the port that the redirect sets.
fn push_port(alloc: Global, url: &mut Vec<u8>, port: u16) -> Result<(), OutOfMemory>
    ensures { OnOk result (url.new.items ≡ url.old.items ++ definition.port_part port) }
{
    let text = port_text(alloc, port)?;
    url.extend_from_slice(text.as_bytes())
}

/// What stands before the target in the URL.
fn origin_of(alloc: Global, redirect: &Redirect, parts: &Parts) -> Result<Vec<u8>, OutOfMemory>
    ensures { IfOk result (λ v. v.items ≡ definition.scheme_of redirect.now parts.now ++ codes "://" ++ definition.host_part redirect.now parts.now ++ definition.port_part redirect.now.port) }
{
    let host = or_text(redirect.host.as_bytes(), kept_host(redirect, parts));
    let mut url = Vec::from_slice(alloc, scheme_of(redirect, parts))?;
    url.extend_from_slice(b"://")?;
    url.extend_from_slice(host)?;
    push_port(alloc, &mut url, redirect.port)?;
    Ok(url)
}

/// The URL of a route that redirects: the scheme, `://`, the host, the port and the target.
pub fn redirect_url(alloc: Global, route: &Route, request: &Request) -> Result<Vec<u8>, OutOfMemory>
    requires { IsSome (redirect_of route.now.act) }
    ensures { IfOk result (λ v. IfSome (redirect_of route.now.act) (λ x. v.items ≡ definition.redirect_url route.now x request.now)) }
{
    let Act::Redirect(redirect) = &route.act else {
        unreachable!()
    };
    let mut url = origin_of(alloc, redirect, request.parts())?;
    push_target(&mut url, &route.rule.path, redirect, request)?;
    Ok(url)
}

/// The URL of a redirect to https: the authority as it stands with its port, and the target as received.
pub fn tls_url(alloc: Global, request: &Request) -> Result<Vec<u8>, OutOfMemory>
    ensures { IfOk result (λ v. v.items ≡ definition.tls_url request.now) }
{
    let parts = request.parts();
    let mut url = Vec::from_slice(alloc, b"https://")?;
    url.extend_from_slice(parts.authority.as_slice())?;
    url.extend_from_slice(parts.target.as_slice())?;
    Ok(url)
}
