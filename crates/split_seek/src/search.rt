// The search: one path is its whole state, since the branches that wait are the false sides of the path's true steps.
ghost use Rattle.std.specs.Prelude.{◌≡◌, ◌++◌, true, length, IfOk};
ghost use Rattle.goal_form.specs.Formulas.{leaves_below};
ghost use Rattle.goal_form.specs.Goals.{IsWellFormed};
ghost use Rattle.goal_form.specs.Waiting.{waiting};
ghost use Rattle.split_seek.specs.Ends.{whole_with, rests};
ghost use Rattle.split_seek.specs.Findings.{AreEnough, Answers, IsDecided};

use crate::finding::{Finding, Look};
use crate::first::first_try;
use crate::hints::Hints;
use crate::look::look_at;
use goal_form::{Goal, Node, Trail};
use goal_tables::{SharedTables, Tables};
use sqlite_items::Items;
use std::alloc::Global;
use text_base::OutOfMemory;

/// Whether the nodes still refute the goal after one more leaf.
fn whole_after(whole: bool, node: &Node) -> bool
    ensures { result ≡ whole_with whole node.now }
{
    match node {
        Node::Capped { .. } => false,
        _ => whole,
    }
}

/// Adds a node for this branch and each one that waits: parts that weren't looked at.
fn fill(trail: &mut Trail, nodes: &mut Items<Node>) -> Result<(), OutOfMemory>
    ensures { IfOk result (λ _. nodes.new ≡ nodes.old ++ rests (waiting true trail.old.path)) }
{
    let mut more = true;
    while more {
        nodes.push(Node::Rest)?;
        more = trail.turn()?;
    }
    Ok(())
}

/// Splits on one atom after the other until each branch is shut, a request is found or the splits are spent.
fn search_tree(
    alloc: Global,
    goal: &Goal,
    tables: &Tables<'_>,
    splits: u32,
    cap: u32,
    hints: &mut Hints<'_>,
) -> Result<Finding, OutOfMemory>
    requires tables { tables.now.atoms ≡ goal.now.atoms }
    requires hints { hints.old ≡ tables.now }
    requires leaves { leaves_below (length goal.now.atoms) goal.now.formula ≡ true }
    ensures answer { IfOk result (Answers goal.now splits cap) }
    ensures decides { IfOk result (λ found. AreEnough goal.now splits cap → IsDecided found) }
{
    let mut trail = Trail::new(alloc, goal.atoms.count())?;
    let mut nodes = Items::new(alloc);
    let mut spent = 0u32;
    let mut whole = true;
    let mut more = true;
    while more {
        match look_at(alloc, goal, tables, &trail, cap, hints)? {
            Look::Reached(request) => return Ok(Finding::Reached(request)),
            Look::Leaf(node) => {
                whole = whole_after(whole, &node);
                nodes.push(node)?;
                more = trail.turn()?;
            }
            Look::Open(atom) => {
                if spent == splits {
                    fill(&mut trail, &mut nodes)?;
                    return Ok(Finding::Undecided(nodes));
                }
                spent += 1;
                nodes.push(Node::Split { atom })?;
                trail.decide(atom, true)?;
            }
        }
    }
    if whole {
        Ok(Finding::Refuted(nodes))
    } else {
        Ok(Finding::Undecided(nodes))
    }
}

/// Decides whether some valid request meets the goal: a request, or a tree of splits that refutes the goal. Each split is on
/// the first atom that keeps the goal's value open, where each required field has a text as the path says, and there are at
/// most `splits` of them. It gives up where the splits are spent, or where a field with a pattern of the configuration has
/// more than `cap` states on a path; without such a pattern, 2^n - 1 splits suffice for n atoms. `is_well_formed` tells
/// whether a goal may be passed. Tables are those that goals share; the ones that aren't there are built.
pub fn analyse_with(
    alloc: Global,
    goal: &Goal,
    shared: &mut SharedTables,
    splits: u32,
    cap: u32,
) -> Result<Finding, OutOfMemory>
    requires { IsWellFormed goal.now }
    ensures answer { IfOk result (Answers goal.now splits cap) }
    ensures decides { IfOk result (λ found. AreEnough goal.now splits cap → IsDecided found) }
{
    let places = shared.places(alloc, goal)?;
    let tables = Tables::of(goal, shared, places);
    let mut hints = Hints::new(alloc, &tables)?;
    match first_try(alloc, goal, &tables, cap, &mut hints)? {
        Some(request) => Ok(Finding::Reached(request)),
        None => search_tree(alloc, goal, &tables, splits, cap, &mut hints),
    }
}

/// The same with tables of its own.
pub fn analyse(alloc: Global, goal: &Goal, splits: u32, cap: u32) -> Result<Finding, OutOfMemory>
    requires { IsWellFormed goal.now }
    ensures answer { IfOk result (Answers goal.now splits cap) }
    ensures decides { IfOk result (λ found. AreEnough goal.now splits cap → IsDecided found) }
{
    let mut shared = SharedTables::new(alloc)?;
    analyse_with(alloc, goal, &mut shared, splits, cap)
}
