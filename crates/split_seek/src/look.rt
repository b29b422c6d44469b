// What stands at the end of a path.
ghost use Rattle.std.specs.Prelude.{◌≡◌, true, length, IfOk};
ghost use Rattle.goal_form.specs.declared.formula.Standing.TheVariants as standing;
ghost use Rattle.goal_form.specs.Formulas.{leaves_below, standing_on};
ghost use Rattle.split_seek.specs.Findings.{Sees};

use crate::finding::Look;
use crate::hints::Hints;
use crate::made::request_of;
use crate::serve::serve;
use crate::texts::Service;
use goal_form::{Goal, Node, Standing, Trail};
use goal_tables::Tables;
use std::alloc::Global;
use text_base::OutOfMemory;

/// What stands where the goal is true, if the fields have texts.
pub fn look_at_truth(
    alloc: Global,
    goal: &Goal,
    tables: &Tables<'_>,
    trail: &Trail,
    cap: u32,
    hints: &mut Hints<'_>,
) -> Result<Look, OutOfMemory>
    requires tables { tables.now.atoms ≡ goal.now.atoms }
    requires hints { hints.old ≡ tables.now }
    requires count { trail.now.count ≡ length goal.now.atoms }
    requires here { standing_on trail.now.path goal.now.formula ≡ standing.Known true }
    ensures hints { hints.new ≡ hints.old }
    ensures sees { IfOk result (Sees goal.now cap trail.now.path) }
{
    match serve(alloc, goal, tables, trail.steps(), cap, hints)? {
        Service::Shut(node) => Ok(Look::Leaf(node)),
        Service::Full(node) => Ok(Look::Leaf(node)),
        Service::All(texts) => Ok(Look::Reached(request_of(alloc, texts.as_slice())?)),
    }
}

/// What stands where the value is open: a leaf that shuts the path, or the next split. A field with too many states
/// doesn't end the path there, since another may be shut further down.
fn look_at_open(
    alloc: Global,
    goal: &Goal,
    tables: &Tables<'_>,
    trail: &Trail,
    cap: u32,
    atom: u32,
    hints: &mut Hints<'_>,
) -> Result<Look, OutOfMemory>
    requires tables { tables.now.atoms ≡ goal.now.atoms }
    requires hints { hints.old ≡ tables.now }
    requires leaves { leaves_below (length goal.now.atoms) goal.now.formula ≡ true }
    requires here { standing_on trail.now.path goal.now.formula ≡ standing.Open atom }
    ensures hints { hints.new ≡ hints.old }
    ensures sees { IfOk result (Sees goal.now cap trail.now.path) }
{
    match serve(alloc, goal, tables, trail.steps(), cap, hints)? {
        Service::Shut(node) => Ok(Look::Leaf(node)),
        Service::Full(_) => Ok(Look::Open(atom)),
        Service::All(_) => Ok(Look::Open(atom)),
    }
}

/// A request, a leaf or the next split at the end of the path.
pub fn look_at(
    alloc: Global,
    goal: &Goal,
    tables: &Tables<'_>,
    trail: &Trail,
    cap: u32,
    hints: &mut Hints<'_>,
) -> Result<Look, OutOfMemory>
    requires tables { tables.now.atoms ≡ goal.now.atoms }
    requires hints { hints.old ≡ tables.now }
    requires count { trail.now.count ≡ length goal.now.atoms }
    requires leaves { leaves_below (length goal.now.atoms) goal.now.formula ≡ true }
    ensures hints { hints.new ≡ hints.old }
    ensures sees { IfOk result (Sees goal.now cap trail.now.path) }
{
    match trail.standing_of(&goal.formula) {
        Standing::Known(false) => Ok(Look::Leaf(Node::False)),
        Standing::Known(true) => look_at_truth(alloc, goal, tables, trail, cap, hints),
        Standing::Open(atom) => look_at_open(alloc, goal, tables, trail, cap, atom, hints),
    }
}
