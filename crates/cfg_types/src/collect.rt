// The routes of a host in a list.
ghost use Rattle.std.specs.Prelude.{◌≡◌, ◌++◌, IfOk, OnOk, flat_map};
ghost use Rattle.cfg_types.specs.Order.{body_routes, tree_routes, branch_routes, entry_routes, key_routes, then_routes, lent};

use crate::{Body, Entry, KeyThen, Route, Then, Tree, TreeBody};
use std::alloc::Global;
use text_base::OutOfMemory;

impl Body {
    /// The routes in route order: a list's in order, a tree's by walk.
    pub fn routes(&self, alloc: Global) -> Result<Vec<&Route>, OutOfMemory>
        ensures { IfOk result (λ rs. lent rs.items ≡ body_routes self.now) }
    {
        let mut all = Vec::new(alloc);
        match self {
            Body::List(routes) => add_routes(&mut all, routes.as_slice())?,
            Body::Tree(tree) => add_tree(&mut all, tree)?,
        }
        Ok(all)
    }
}

/// Adds the routes of a tree: those of its entries, and then those of what is left.
#[cycle(collect)]
fn add_tree<'a>(all: &mut Vec<&'a Route>, tree: &'a Tree) -> Result<(), OutOfMemory>
    ensures { OnOk result (lent all.new.items ≡ lent all.old.items ++ tree_routes tree.now) }
{
    add_entries(all, &tree.body)?;
    match &tree.otherwise {
        None => Ok(()),
        Some(then) => add_then(all, then),
    }
}

#[cycle(collect)]
fn add_entries<'a>(all: &mut Vec<&'a Route>, body: &'a TreeBody) -> Result<(), OutOfMemory>
    ensures { OnOk result (lent all.new.items ≡ lent all.old.items ++ branch_routes body.now) }
{
    match body {
        TreeBody::Bare => Ok(()),
        TreeBody::List(entries) => add_list(all, entries.as_slice()),
        TreeBody::Exact { input: _, map } => add_map(all, map.as_slice()),
        TreeBody::Prefix { input: _, map } => add_map(all, map.as_slice()),
    }
}

#[cycle(collect)]
fn add_list<'a>(all: &mut Vec<&'a Route>, entries: &'a [Entry]) -> Result<(), OutOfMemory>
    ensures { OnOk result (lent all.new.items ≡ lent all.old.items ++ flat_map entry_routes entries.now) }
{
    for entry in entries {
        add_then(all, &entry.next)?;
    }
    Ok(())
}

#[cycle(collect)]
fn add_map<'a>(all: &mut Vec<&'a Route>, keys: &'a [KeyThen]) -> Result<(), OutOfMemory>
    ensures { OnOk result (lent all.new.items ≡ lent all.old.items ++ flat_map key_routes keys.now) }
{
    for entry in keys {
        add_then(all, &entry.next)?;
    }
    Ok(())
}

#[cycle(collect)]
fn add_then<'a>(all: &mut Vec<&'a Route>, then: &'a Then) -> Result<(), OutOfMemory>
    ensures { OnOk result (lent all.new.items ≡ lent all.old.items ++ then_routes then.now) }
{
    match then {
        Then::Inner(tree) => add_tree(all, tree.get()),
        Then::Routes(routes) => add_routes(all, routes.as_slice()),
    }
}

fn add_routes<'a>(all: &mut Vec<&'a Route>, routes: &'a [Route]) -> Result<(), OutOfMemory>
    ensures { OnOk result (lent all.new.items ≡ lent all.old.items ++ routes.now) }
{
    for route in routes {
        all.push(route)?;
    }
    Ok(())
}
