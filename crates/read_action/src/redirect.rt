// Redirects and direct responses.
ghost use Rattle.std.specs.Prelude.{◌≡◌, map, IfOk};
ghost use Rattle.serde_json.specs.View.{view};
ghost use Rattle.json_tables.specs.declared.message.Message.TheVariants as messages;
ghost use Rattle.json_walk.specs.Outcome.{Gives};
ghost use Rattle.json_walk.specs.Members.{names_of};
ghost use Rattle.json_walk.specs.Numbers.{count};
ghost use Rattle.read_action.specs.Redirects.{scheme as scheme_of, schemes as schemes_of, origin as origin_of, path_to as path_to_of, paths_to as paths_to_of, response_codes, code_of as code_at, response_code, one_of_each as one_of_each_of, redirect_action, direct_response_action};

use cfg_types::{PathTo, Redirect};
use json_walk::{
    Message, Names, ReadFail, Reader, Text, Truth, alone, choice_of, count_of, members, optional,
    required, text_or_empty,
};
use read_match::{MatcherText, TargetText};
use serde_json::Value;
use std::alloc::{AllocError, Global};

#[tactic(auto, unfolding(crate::specs::Redirects::scheme))]
fn scheme(alloc: Global, https: Option<bool>, other: Option<Text>) -> Result<Text, AllocError>
    ensures { IfOk result (λ t. t ≡ scheme_of https other) }
{
    match https {
        Some(true) => Text::of(alloc, "https"),
        Some(false) => Text::of(alloc, ""),
        None => text_or_empty(alloc, other),
    }
}

/// The alternatives of the scheme, and the first that is there.
#[tactic(auto, unfolding(crate::specs::Redirects::schemes))]
fn schemes(alloc: Global, value: &Value, place: &Text, names: &Names) -> Result<Text, ReadFail>
    requires { names.now.spelled.items ≡ names_of messages.RedirectAction (view value.now) }
    ensures { Gives (λ t. t) result (schemes_of place.now (view value.now)) }
{
    const M: Message = Message::RedirectAction;
    let https = optional(alloc, value, place, names, M, 0, &Truth)?;
    let other = optional(alloc, value, place, names, M, 1, &MatcherText)?;
    Ok(scheme(alloc, https, other)?)
}

/// A whole number of 16 bits without a sign.
#[derive(Drop)]
struct Port;

impl Reader for Port {
    type Out = u16;

    ghost reads = { λ _. count 0 65535 };

    fn read(&self, alloc: Global, value: &Value, place: &Text) -> Result<u16, ReadFail> {
        let number = count_of(alloc, value, place, 0, u16::MAX as u64)?;
        Ok(number as u16)
    }
}

/// The scheme, the host and the port.
#[tactic(auto, unfolding(crate::specs::Redirects::origin))]
fn origin(
    alloc: Global,
    value: &Value,
    place: &Text,
    names: &Names,
) -> Result<(Text, Text, u16), ReadFail>
    requires { names.now.spelled.items ≡ names_of messages.RedirectAction (view value.now) }
    ensures { Gives (λ o. o) result (origin_of place.now (view value.now)) }
{
    const M: Message = Message::RedirectAction;
    let scheme = schemes(alloc, value, place, names)?;
    let host = optional(alloc, value, place, names, M, 2, &MatcherText)?;
    let port = optional(alloc, value, place, names, M, 3, &Port)?;
    let host = text_or_empty(alloc, host)?;
    Ok((scheme, host, port.unwrap_or(0)))
}

#[tactic(auto, unfolding(crate::specs::Redirects::path_to))]
fn path_to(whole: Option<Text>, prefix: Option<Text>) -> PathTo
    ensures { result ≡ path_to_of whole prefix }
{
    if let Some(path) = whole {
        return PathTo::Whole(path);
    }
    if let Some(path) = prefix {
        return PathTo::Prefix(path);
    }
    PathTo::Keep
}

/// The alternatives of the path, and the first that is there.
#[tactic(auto, unfolding(crate::specs::Redirects::paths_to))]
fn paths_to(alloc: Global, value: &Value, place: &Text, names: &Names) -> Result<PathTo, ReadFail>
    requires { names.now.spelled.items ≡ names_of messages.RedirectAction (view value.now) }
    ensures { Gives (λ p. p) result (paths_to_of place.now (view value.now)) }
{
    const M: Message = Message::RedirectAction;
    let whole = optional(alloc, value, place, names, M, 4, &TargetText)?;
    let prefix = optional(alloc, value, place, names, M, 5, &TargetText)?;
    Ok(path_to(whole, prefix))
}

#[tactic(auto, unfolding(crate::specs::Redirects::response_codes))]
fn code_names() -> &'static [&'static str]
    ensures { map (λ n. n.now) result.now ≡ response_codes }
{
    &[
        "MOVED_PERMANENTLY",
        "FOUND",
        "SEE_OTHER",
        "TEMPORARY_REDIRECT",
        "PERMANENT_REDIRECT",
    ]
}

fn code_of(number: usize) -> u16
    ensures { result ≡ code_at number }
{
    match number {
        0 => 301,
        1 => 302,
        2 => 303,
        3 => 307,
        _ => 308,
    }
}

/// One of the five names, else `OutOfRange`.
#[derive(Drop)]
struct ResponseCode;

impl Reader for ResponseCode {
    type Out = u16;

    ghost reads = { λ _. response_code };

    #[tactic(auto, unfolding(crate::specs::Redirects::response_code))]
    fn read(&self, alloc: Global, value: &Value, place: &Text) -> Result<u16, ReadFail> {
        let number = choice_of(alloc, value, place, code_names())?;
        Ok(code_of(number))
    }
}

/// The rules on the groups of the scheme and of the path.
#[tactic(auto, unfolding(crate::specs::Redirects::one_of_each))]
fn one_of_each(alloc: Global, value: &Value, place: &Text, names: &Names) -> Result<(), ReadFail>
    requires { names.now.spelled.items ≡ names_of messages.RedirectAction (view value.now) }
    ensures { Gives (λ u. u) result (one_of_each_of place.now (view value.now)) }
{
    const M: Message = Message::RedirectAction;
    alone(alloc, value, place, names, M, 0, 2)?;
    alone(alloc, value, place, names, M, 4, 2)
}

/// A RedirectAction.
#[derive(Drop)]
pub struct RedirectAction;

impl Reader for RedirectAction {
    type Out = Redirect;

    ghost reads = { λ _. redirect_action };

    #[tactic(auto, unfolding(crate::specs::Redirects::redirect_action))]
    fn read(&self, alloc: Global, value: &Value, place: &Text) -> Result<Redirect, ReadFail> {
        const M: Message = Message::RedirectAction;
        let names = members(alloc, value, place, M)?;
        let (scheme, host, port) = origin(alloc, value, place, &names)?;
        let path = paths_to(alloc, value, place, &names)?;
        let code = optional(alloc, value, place, &names, M, 6, &ResponseCode)?;
        let strip = optional(alloc, value, place, &names, M, 7, &Truth)?;
        one_of_each(alloc, value, place, &names)?;
        Ok(Redirect {
            scheme,
            host,
            port,
            path,
            code: code.unwrap_or(301),
            strip: strip.unwrap_or(false),
        })
    }
}

/// A whole number from 200 to 599.
#[derive(Drop)]
struct Status;

impl Reader for Status {
    type Out = u16;

    ghost reads = { λ _. count 200 599 };

    fn read(&self, alloc: Global, value: &Value, place: &Text) -> Result<u16, ReadFail> {
        let number = count_of(alloc, value, place, 200, 599)?;
        Ok(number as u16)
    }
}

/// A DirectResponseAction: its status.
#[derive(Drop)]
pub struct DirectResponseAction;

impl Reader for DirectResponseAction {
    type Out = u16;

    ghost reads = { λ _. direct_response_action };

    #[tactic(auto, unfolding(crate::specs::Redirects::direct_response_action))]
    fn read(&self, alloc: Global, value: &Value, place: &Text) -> Result<u16, ReadFail> {
        const M: Message = Message::DirectResponseAction;
        let names = members(alloc, value, place, M)?;
        required(alloc, value, place, &names, M, 0, &Status)
    }
}
