// Forwarding.
ghost use Rattle.std.specs.Prelude.{◌≡◌};
ghost use Rattle.serde_json.specs.View.{view};
ghost use Rattle.json_tables.specs.declared.message.Message.TheVariants as messages;
ghost use Rattle.json_walk.specs.Outcome.{Gives};
ghost use Rattle.json_walk.specs.Members.{names_of};
ghost use Rattle.read_action.specs.Forwards.{target as target_of, targets as targets_of, host_change as host_change_of, host_changes as host_changes_of, changes as changes_of, one_target as one_target_of, route_action};

use crate::clusters::WeightedCluster;
use cfg_types::{Forward, HostChange, Share, Target};
use json_walk::{
    Message, Names, ReadFail, Reader, Text, alone, members, must, optional, text_or_empty,
};
use read_match::{FieldName, MatcherText, SomeName, TargetText};
use serde_json::Value;
use sqlite_items::Items;
use std::alloc::Global;

#[tactic(auto, unfolding(crate::specs::Forwards::target))]
fn target(
    cluster: Option<Text>,
    header: Option<Text>,
    weighted: Option<Items<Share>>,
) -> Option<Target>
    ensures { result ≡ target_of cluster header weighted }
{
    if let Some(name) = cluster {
        return Some(Target::Cluster(name));
    }
    if let Some(name) = header {
        return Some(Target::FromHeader(name));
    }
    if let Some(shares) = weighted {
        return Some(Target::Weighted(shares));
    }
    None
}

/// The alternatives of the target, and the first that is there.
#[tactic(auto, unfolding(crate::specs::Forwards::targets))]
fn targets(
    alloc: Global,
    value: &Value,
    place: &Text,
    names: &Names,
) -> Result<Option<Target>, ReadFail>
    requires { names.now.spelled.items ≡ names_of messages.RouteAction (view value.now) }
    ensures { Gives (λ t. t) result (targets_of place.now (view value.now)) }
{
    const M: Message = Message::RouteAction;
    let cluster = optional(alloc, value, place, names, M, 0, &SomeName)?;
    let header = optional(alloc, value, place, names, M, 1, &FieldName)?;
    let weighted = optional(alloc, value, place, names, M, 2, &WeightedCluster)?;
    Ok(target(cluster, header, weighted))
}

#[tactic(auto, unfolding(crate::specs::Forwards::host_change))]
fn host_change(literal: Option<Text>, header: Option<Text>) -> HostChange
    ensures { result ≡ host_change_of literal header }
{
    if let Some(host) = literal {
        return HostChange::Literal(host);
    }
    if let Some(name) = header {
        return HostChange::FromHeader(name);
    }
    HostChange::Keep
}

/// The alternatives of the host's change, and the first that is there.
#[tactic(auto, unfolding(crate::specs::Forwards::host_changes))]
fn host_changes(
    alloc: Global,
    value: &Value,
    place: &Text,
    names: &Names,
) -> Result<HostChange, ReadFail>
    requires { names.now.spelled.items ≡ names_of messages.RouteAction (view value.now) }
    ensures { Gives (λ h. h) result (host_changes_of place.now (view value.now)) }
{
    const M: Message = Message::RouteAction;
    let literal = optional(alloc, value, place, names, M, 4, &MatcherText)?;
    let header = optional(alloc, value, place, names, M, 5, &FieldName)?;
    Ok(host_change(literal, header))
}

/// What the path begins with in the place of the matched prefix, and the change of the host.
#[tactic(auto, unfolding(crate::specs::Forwards::changes))]
fn changes(
    alloc: Global,
    value: &Value,
    place: &Text,
    names: &Names,
) -> Result<(Text, HostChange), ReadFail>
    requires { names.now.spelled.items ≡ names_of messages.RouteAction (view value.now) }
    ensures { Gives (λ c. c) result (changes_of place.now (view value.now)) }
{
    let rewrite = optional(
        alloc,
        value,
        place,
        names,
        Message::RouteAction,
        3,
        &TargetText,
    )?;
    let rewrite = text_or_empty(alloc, rewrite)?;
    let host = host_changes(alloc, value, place, names)?;
    Ok((rewrite, host))
}

/// The rules on the group of targets.
#[tactic(auto, unfolding(crate::specs::Forwards::one_target))]
fn one_target(
    alloc: Global,
    value: &Value,
    place: &Text,
    names: &Names,
    found: Option<Target>,
) -> Result<Target, ReadFail>
    requires { names.now.spelled.items ≡ names_of messages.RouteAction (view value.now) }
    ensures { Gives (λ t. t) result (one_target_of found place.now (view value.now)) }
{
    alone(alloc, value, place, names, Message::RouteAction, 0, 3)?;
    must(alloc, place, found)
}

/// A RouteAction: a target, what its path begins with, and the change of its host.
#[derive(Drop)]
pub struct RouteAction;

impl Reader for RouteAction {
    type Out = Forward;

    ghost reads = { λ _. route_action };

    #[tactic(auto, unfolding(crate::specs::Forwards::route_action))]
    fn read(&self, alloc: Global, value: &Value, place: &Text) -> Result<Forward, ReadFail> {
        const M: Message = Message::RouteAction;
        let names = members(alloc, value, place, M)?;
        let found = targets(alloc, value, place, &names)?;
        let (prefix_rewrite, host) = changes(alloc, value, place, &names)?;
        let to = one_target(alloc, value, place, &names, found)?;
        alone(alloc, value, place, &names, M, 4, 2)?;
        Ok(Forward {
            to,
            prefix_rewrite,
            host,
        })
    }
}
