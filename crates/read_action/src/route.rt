// Routes.
ghost use Rattle.std.specs.Prelude.{◌≡◌};
ghost use Rattle.serde_json.specs.View.{view};
ghost use Rattle.json_tables.specs.declared.message.Message.TheVariants as messages;
ghost use Rattle.json_walk.specs.Outcome.{Gives};
ghost use Rattle.json_walk.specs.Members.{names_of};
ghost use Rattle.read_action.specs.Routes.{act_form as act_form_of, acts as acts_of, one_act as one_act_of, act_and_edits as act_and_edits_of, route_fields as route_fields_of, route, typed_route, route_as};

use crate::edits::read_edits;
use crate::forward::RouteAction;
use crate::redirect::{DirectResponseAction, RedirectAction};
use cfg_types::{Act, EditPair, Forward, Redirect, Route};
use json_walk::{
    AnyText, Message, Names, ReadFail, Reader, Text, alone, members, must, optional, required,
    text_or_empty,
};
use read_match::RouteMatcher;
use serde_json::Value;
use std::alloc::Global;

#[tactic(auto, unfolding(crate::specs::Routes::act_form))]
fn act_form(
    forward: Option<Forward>,
    redirect: Option<Redirect>,
    direct: Option<u16>,
) -> Option<Act>
    ensures { result ≡ act_form_of forward redirect direct }
{
    if let Some(forward) = forward {
        return Some(Act::Forward(forward));
    }
    if let Some(redirect) = redirect {
        return Some(Act::Redirect(redirect));
    }
    if let Some(status) = direct {
        return Some(Act::Direct { status });
    }
    None
}

/// The alternatives of what a route does, and the first that is there.
#[tactic(auto, unfolding(crate::specs::Routes::acts))]
fn acts(alloc: Global, value: &Value, place: &Text, names: &Names) -> Result<Option<Act>, ReadFail>
    requires { names.now.spelled.items ≡ names_of messages.Route (view value.now) }
    ensures { Gives (λ a. a) result (acts_of place.now (view value.now)) }
{
    const M: Message = Message::Route;
    let forward = optional(alloc, value, place, names, M, 2, &RouteAction)?;
    let redirect = optional(alloc, value, place, names, M, 3, &RedirectAction)?;
    let direct = optional(alloc, value, place, names, M, 4, &DirectResponseAction)?;
    Ok(act_form(forward, redirect, direct))
}

/// The rules on the group of what a route does.
#[tactic(auto, unfolding(crate::specs::Routes::one_act))]
fn one_act(
    alloc: Global,
    value: &Value,
    place: &Text,
    names: &Names,
    found: Option<Act>,
) -> Result<Act, ReadFail>
    requires { names.now.spelled.items ≡ names_of messages.Route (view value.now) }
    ensures { Gives (λ a. a) result (one_act_of found place.now (view value.now)) }
{
    alone(alloc, value, place, names, Message::Route, 2, 3)?;
    must(alloc, place, found)
}

/// What a route does, by the rules on the group, and its header edits.
#[tactic(auto, unfolding(crate::specs::Routes::act_and_edits))]
fn act_and_edits(
    alloc: Global,
    value: &Value,
    place: &Text,
    names: &Names,
) -> Result<(Act, EditPair), ReadFail>
    requires { names.now.spelled.items ≡ names_of messages.Route (view value.now) }
    ensures { Gives (λ r. r) result (act_and_edits_of place.now (view value.now)) }
{
    let found = acts(alloc, value, place, names)?;
    let edits = read_edits(alloc, value, place)?;
    let act = one_act(alloc, value, place, names, found)?;
    Ok((act, edits))
}

/// The fields of a route, and then its rules.
#[tactic(auto, unfolding(crate::specs::Routes::route_fields))]
fn route_fields(
    alloc: Global,
    value: &Value,
    place: &Text,
    names: &Names,
) -> Result<Route, ReadFail>
    requires { names.now.spelled.items ≡ names_of messages.Route (view value.now) }
    ensures { Gives (λ r. r) result (route_fields_of place.now (view value.now)) }
{
    const M: Message = Message::Route;
    let own = place.copy(alloc)?;
    let name = optional(alloc, value, place, names, M, 0, &AnyText)?;
    let name = text_or_empty(alloc, name)?;
    let rule = required(alloc, value, place, names, M, 1, &RouteMatcher)?;
    let (act, edits) = act_and_edits(alloc, value, place, names)?;
    Ok(Route {
        place: own,
        name,
        rule,
        act,
        edits,
    })
}

/// The names of a typed route's fields without that of `@type`, which its table has first.
fn untyped(value: &Value, mut names: Names) -> Names
    requires { names.spelled.items ≡ names_of messages.TypedRoute (view value.now) }
    ensures { result.spelled.items ≡ names_of messages.Route (view value.now) }
{
    names.spelled.remove(0);
    names
}

#[tactic(auto, unfolding(crate::specs::Routes::route))]
fn plain_route(alloc: Global, value: &Value, place: &Text) -> Result<Route, ReadFail>
    ensures { Gives (λ r. r) result (route place.now (view value.now)) }
{
    let names = members(alloc, value, place, Message::Route)?;
    route_fields(alloc, value, place, &names)
}

#[tactic(auto, unfolding(crate::specs::Routes::typed_route))]
fn route_of_type(alloc: Global, value: &Value, place: &Text) -> Result<Route, ReadFail>
    ensures { Gives (λ r. r) result (typed_route place.now (view value.now)) }
{
    let names = members(alloc, value, place, Message::TypedRoute)?;
    let names = untyped(value, names);
    route_fields(alloc, value, place, &names)
}

/// The route that a Route at `place` is, or its first offence. Where it is `typed`, it is the `typed_config` of an action, and
/// its `@type` has been judged before.
pub fn read_route(
    alloc: Global,
    value: &Value,
    place: &Text,
    typed: bool,
) -> Result<Route, ReadFail>
    ensures { Gives (λ r. r) result (route_as typed place.now (view value.now)) }
{
    if typed {
        return route_of_type(alloc, value, place);
    }
    plain_route(alloc, value, place)
}

/// A route of a list.
#[derive(Drop)]
pub struct PlainRoute;

impl Reader for PlainRoute {
    type Out = Route;

    ghost reads = { λ _. route };

    fn read(&self, alloc: Global, value: &Value, place: &Text) -> Result<Route, ReadFail> {
        read_route(alloc, value, place, false)
    }
}

/// A route that is the `typed_config` of an action.
#[derive(Drop)]
pub struct TypedRoute;

impl Reader for TypedRoute {
    type Out = Route;

    ghost reads = { λ _. typed_route };

    fn read(&self, alloc: Global, value: &Value, place: &Text) -> Result<Route, ReadFail> {
        read_route(alloc, value, place, true)
    }
}
