// Whether nodes refute a goal, or tell truly how far a search came.

ghost use Rattle.std.specs.Prelude.{◌≡◌, ◌≤◌, ◌↔◌, true, false, min, ◌^◌, ◌-◌, IsTrue, IfOk};
ghost use Rattle.std.specs.List.{list_any};
ghost use Rattle.text_base.specs.Asked.{Asked};
ghost use Rattle.text_base.specs.Requests.{is_valid};
ghost use Rattle.goal_form.specs.Goals.{is_true_at};
ghost use Rattle.goal_form.specs.Refutations.{Refutes};
ghost use Rattle.goal_form.specs.Unfinished.{Unfinished, is_unfinished as unfinished, is_rest as rests, is_rest_last, split_count};
ghost use Rattle.cert_check.specs.Counts.{Fits};

use crate::reading::reads;
use goal_form::{Goal, Node};
use goal_tables::{SharedTables, Tables};
use std::alloc::Global;
use text_base::OutOfMemory;

/// A part that wasn't looked at, or a field with too many states.
fn is_unfinished(node: &Node) -> bool
    ensures { result ≡ unfinished node.now }
{
    match node {
        Node::Rest => true,
        Node::Capped { .. } => true,
        _ => false,
    }
}

/// Whether the search was given up at some node.
fn has_unfinished(nodes: &[Node]) -> bool
    ensures { result ≡ list_any unfinished nodes.now }
{
    nodes.iter().any(is_unfinished)
}

fn is_rest(node: &Node) -> bool
    ensures { result ≡ rests node.now }
{
    match node {
        Node::Rest => true,
        _ => false,
    }
}

fn has_rest(nodes: &[Node]) -> bool
    ensures { result ≡ list_any rests nodes.now }
{
    nodes.iter().any(is_rest)
}

/// Whether nothing but parts that weren't looked at stands after the first of them.
fn rests_are_last(nodes: &[Node]) -> bool
    ensures { result ≡ is_rest_last nodes.now }
{
    let mut seen = false;
    for node in nodes {
        if seen && !is_rest(node) {
            return false;
        }
        seen = is_rest(node);
    }
    true
}

/// The number of splits, staying at the greatest number.
fn count_splits(nodes: &[Node]) -> u64
    ensures { result ≡ min (split_count nodes.now) (2 ^ 64 - 1) }
{
    let mut count: u64 = 0;
    for node in nodes {
        if let Node::Split { .. } = node {
            count = count.saturating_add(1);
        }
    }
    count
}

/// Whether there are at most so many splits, and exactly so many where a part wasn't looked at.
fn counts_fit(nodes: &[Node], splits: u32) -> bool
    ensures { IsTrue result ↔ Fits nodes.now splits }
{
    let count = count_splits(nodes);
    if has_rest(nodes) {
        count == u64::from(splits)
    } else {
        count <= u64::from(splits)
    }
}

/// Whether the nodes refute the goal whose tables these are. The cap plays no part, as no node is unfinished.
pub(crate) fn nodes_refute(
    alloc: Global,
    goal: &Goal,
    tables: &Tables<'_>,
    nodes: &[Node],
) -> Result<bool, OutOfMemory>
    requires { tables.now.atoms ≡ goal.now.atoms }
    ensures exact { IfOk result (λ yes. IsTrue yes ↔ Refutes goal.now nodes.now) }
    ensures sound { IfOk result (λ yes. IsTrue yes → (q : Asked) → is_valid q ≡ true → is_true_at q goal.now ≡ false) }
{
    if has_unfinished(nodes) {
        return Ok(false);
    }
    reads(alloc, goal, tables, nodes, 0)
}

/// Whether the nodes are a tree that was given up, of the goal whose tables these are.
pub(crate) fn are_unfinished(
    alloc: Global,
    goal: &Goal,
    tables: &Tables<'_>,
    nodes: &[Node],
    splits: u32,
    cap: u32,
) -> Result<bool, OutOfMemory>
    requires { tables.now.atoms ≡ goal.now.atoms }
    ensures { IfOk result (λ yes. IsTrue yes ↔ Unfinished goal.now nodes.now splits cap) }
{
    if !counts_fit(nodes, splits) {
        return Ok(false);
    }
    if !has_unfinished(nodes) {
        return Ok(false);
    }
    if !rests_are_last(nodes) {
        return Ok(false);
    }
    reads(alloc, goal, tables, nodes, cap)
}

/// Whether the nodes are exactly one tree of splits in which each leaf shows that the goal is true at no request there. Where
/// they are, the goal is true at no valid request.
pub fn check_nodes(alloc: Global, goal: &Goal, nodes: &[Node]) -> Result<bool, OutOfMemory>
    ensures exact { IfOk result (λ yes. IsTrue yes ↔ Refutes goal.now nodes.now) }
    ensures sound { IfOk result (λ yes. IsTrue yes → (q : Asked) → is_valid q ≡ true → is_true_at q goal.now ≡ false) }
{
    let mut shared = SharedTables::new(alloc)?;
    let places = shared.places(alloc, goal)?;
    let tables = Tables::of(goal, &shared, places);
    nodes_refute(alloc, goal, &tables, nodes)
}

/// Whether the nodes are a tree of the goal that was given up: all of so many splits were spent, or a field with a pattern of
/// the configuration had more states than the cap allows.
pub fn check_unfinished(
    alloc: Global,
    goal: &Goal,
    nodes: &[Node],
    splits: u32,
    cap: u32,
) -> Result<bool, OutOfMemory>
    ensures { IfOk result (λ yes. IsTrue yes ↔ Unfinished goal.now nodes.now splits cap) }
{
    let mut shared = SharedTables::new(alloc)?;
    let places = shared.places(alloc, goal)?;
    let tables = Tables::of(goal, &shared, places);
    are_unfinished(alloc, goal, &tables, nodes, splits, cap)
}
