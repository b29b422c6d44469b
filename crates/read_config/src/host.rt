// Virtual clusters and virtual hosts.
ghost use Rattle.std.specs.Prelude.{◌≡◌, [], length, map, nat_le};
ghost use Rattle.serde_json.specs.View.{view};
ghost use Rattle.json_tables.specs.declared.message.Message.TheVariants as messages;
ghost use Rattle.cfg_types.specs.Order.{body_routes};
ghost use Rattle.json_walk.specs.Outcome.{Gives};
ghost use Rattle.json_walk.specs.Members.{names_of};
ghost use Rattle.read_config.specs.Hosts.{virtual_cluster, tls_names as names_of_tls, tls_of as tls_at, require_tls, beside_domains as beside_of, some_domain as some_domain_of, few_in_tree as few_in_tree_of, body_form as body_form_of, virtual_host};

use crate::domains::DomainReader;
use cfg_types::{Body, Domain, EditPair, Host, Route, Tls, Tree, VirtualCluster};
use json_walk::{
    Kind, ListOf, Message, Names, ReadFail, Reader, Text, choice_of, field_place, members,
    optional, or_empty, refused_at, required,
};
use read_action::{PlainRoute, read_edits};
use read_match::{HeaderMatcher, SomeName};
use read_tree::TreeReader;
use serde_json::Value;
use sqlite_items::Items;
use std::alloc::Global;

/// A VirtualCluster.
#[derive(Drop)]
pub struct ClusterReader;

impl Reader for ClusterReader {
    type Out = VirtualCluster;

    ghost reads = { λ _. virtual_cluster };

    #[tactic(auto, unfolding(crate::specs::Hosts::virtual_cluster))]
    fn read(&self, alloc: Global, value: &Value, place: &Text) -> Result<VirtualCluster, ReadFail> {
        const M: Message = Message::VirtualCluster;
        let rules = ListOf {
            most: None,
            element: HeaderMatcher,
        };
        let names = members(alloc, value, place, M)?;
        let name = required(alloc, value, place, &names, M, 0, &SomeName)?;
        let headers = required(alloc, value, place, &names, M, 1, &rules)?;
        Ok(VirtualCluster { name, headers })
    }
}

#[tactic(auto, unfolding(crate::specs::Hosts::tls_names))]
fn tls_names() -> &'static [&'static str]
    ensures { map (λ n. n.now) result.now ≡ names_of_tls }
{
    &["NONE", "EXTERNAL_ONLY", "ALL"]
}

fn tls_of(number: usize) -> Tls
    ensures { result ≡ tls_at number }
{
    match number {
        0 => Tls::No,
        1 => Tls::External,
        _ => Tls::All,
    }
}

/// `NONE`, `EXTERNAL_ONLY` or `ALL`, else `OutOfRange`.
#[derive(Drop)]
pub struct TlsReader;

impl Reader for TlsReader {
    type Out = Tls;

    ghost reads = { λ _. require_tls };

    #[tactic(auto, unfolding(crate::specs::Hosts::require_tls))]
    fn read(&self, alloc: Global, value: &Value, place: &Text) -> Result<Tls, ReadFail> {
        let number = choice_of(alloc, value, place, tls_names())?;
        Ok(tls_of(number))
    }
}

/// What a host has beside its name and its domains.
#[derive(Drop)]
struct Beside {
    routes: Items<Route>,
    tree: Option<Tree>,
    tls: Tls,
    clusters: Items<VirtualCluster>,
    edits: EditPair,
}

#[tactic(auto, unfolding(crate::specs::Hosts::beside_domains))]
fn beside_domains(
    alloc: Global,
    value: &Value,
    place: &Text,
    names: &Names,
) -> Result<Beside, ReadFail>
    requires { names.now.spelled.items ≡ names_of messages.VirtualHost (view value.now) }
    ensures { Gives (λ b. record { routes = b.routes; tree = b.tree; tls = b.tls; clusters = b.clusters; edits = b.edits }) result (beside_of place.now (view value.now)) }
{
    const M: Message = Message::VirtualHost;
    let listed = ListOf {
        most: Some(1_000),
        element: PlainRoute,
    };
    let grouped = ListOf {
        most: None,
        element: ClusterReader,
    };
    let routes = optional(alloc, value, place, names, M, 2, &listed)?;
    let tree = optional(alloc, value, place, names, M, 3, &TreeReader)?;
    let tls = optional(alloc, value, place, names, M, 4, &TlsReader)?;
    let clusters = optional(alloc, value, place, names, M, 5, &grouped)?;
    let edits = read_edits(alloc, value, place)?;
    Ok(Beside {
        routes: or_empty(alloc, routes),
        tree,
        tls: tls.unwrap_or(Tls::No),
        clusters: or_empty(alloc, clusters),
        edits,
    })
}

#[tactic(auto, unfolding(crate::specs::Hosts::some_domain))]
fn some_domain(alloc: Global, place: &Text, domains: &[Domain]) -> Result<(), ReadFail>
    ensures { Gives (λ u. u) result (some_domain_of place.now domains.now) }
{
    match domains {
        [] => {
            let at = field_place(alloc, place, Message::VirtualHost, 1)?;
            Err(refused_at(at, Kind::Missing))
        }
        _ => Ok(()),
    }
}

/// The most routes of a tree.
const TREE_LIMIT: u32 = 1_000;

fn is_small(body: &Body) -> bool
    ensures { result ≡ nat_le (length (body_routes body.now)) 1000 }
{
    match body.route_count() {
        Some(many) => many <= TREE_LIMIT,
        None => false,
    }
}

/// A tree of at most 1,000 routes.
#[tactic(auto, unfolding(crate::specs::Hosts::few_in_tree))]
fn few_in_tree(alloc: Global, place: &Text, tree: Tree) -> Result<Body, ReadFail>
    ensures { Gives (λ b. b) result (few_in_tree_of place.now tree) }
{
    let body = Body::Tree(tree);
    if is_small(&body) {
        return Ok(body);
    }
    let at = field_place(alloc, place, Message::VirtualHost, 3)?;
    Err(refused_at(at, Kind::TooMany))
}

/// Routes in a list or in a tree, not in both.
#[tactic(auto, unfolding(crate::specs::Hosts::body_form))]
fn body_form(
    alloc: Global,
    place: &Text,
    routes: Items<Route>,
    tree: Option<Tree>,
) -> Result<Body, ReadFail>
    ensures { Gives (λ b. b) result (body_form_of place.now routes tree) }
{
    match tree {
        None => Ok(Body::List(routes)),
        Some(tree) => {
            if routes.is_empty() {
                return few_in_tree(alloc, place, tree);
            }
            let at = field_place(alloc, place, Message::VirtualHost, 3)?;
            Err(refused_at(at, Kind::Conflict))
        }
    }
}

/// A VirtualHost.
#[derive(Drop)]
pub struct HostReader;

impl Reader for HostReader {
    type Out = Host;

    ghost reads = { λ _. virtual_host };

    #[tactic(auto, unfolding(crate::specs::Hosts::virtual_host))]
    fn read(&self, alloc: Global, value: &Value, place: &Text) -> Result<Host, ReadFail> {
        const M: Message = Message::VirtualHost;
        let listed = ListOf {
            most: None,
            element: DomainReader,
        };
        let names = members(alloc, value, place, M)?;
        let name = required(alloc, value, place, &names, M, 0, &SomeName)?;
        let domains = required(alloc, value, place, &names, M, 1, &listed)?;
        let beside = beside_domains(alloc, value, place, &names)?;
        some_domain(alloc, place, domains.as_slice())?;
        let Beside {
            routes,
            tree,
            tls,
            clusters,
            edits,
        } = beside;
        let body = body_form(alloc, place, routes, tree)?;
        Ok(Host {
            name,
            domains,
            body,
            tls,
            clusters,
            edits,
        })
    }
}
