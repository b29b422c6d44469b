// What a split and a leaf have to show.

ghost use Rattle.std.specs.Prelude.{◌≡◌, ◌↔◌, ◌≢◌, true, length, IsTrue, IfOk};
ghost use Rattle.rx_term.specs.Closing.{Closes, AreApart};
ghost use Rattle.goal_form.specs.declared.formula.Truth.TheVariants as truth;
ghost use Rattle.goal_form.specs.Formulas.{value_on};
ghost use Rattle.goal_form.specs.Goals.{is_required as required, is_claimed_absent as claimed_absent, claims_of};
ghost use Rattle.goal_form.specs.Valid.{valid_of};
ghost use Rattle.goal_form.specs.Refutations.{MaySplit};
ghost use Rattle.goal_form.specs.Unfinished.{Overflows};
ghost use Rattle.cert_check.specs.Reading.{LeafAt, OpenIf};

use goal_form::{Goal, Node, Trail, Truth, has_user, is_claimed_absent, is_required};
use goal_tables::Tables;
use rx_auto::Words;
use std::alloc::Global;
use text_base::{Field, OutOfMemory};

/// Whether a split on the atom may stand at the end of the path. Takes no memory.
pub fn may_split(goal: &Goal, trail: &Trail, atom: u32) -> bool
    ensures { IsTrue result ↔ MaySplit goal.now trail.now.path atom }
{
    atom < goal.atoms.count()
        && trail.truth_of(atom) == Truth::Unknown
        && trail.value_of(&goal.formula) == Truth::Unknown
}

/// Whether the value is open, which is asked at the first part that wasn't looked at. `seen` tells that one came before.
fn is_open(goal: &Goal, trail: &Trail, seen: bool) -> bool
    ensures { IsTrue result ↔ OpenIf goal.now seen trail.now.path }
{
    seen || trail.value_of(&goal.formula) == Truth::Unknown
}

/// Whether the path says that the field is there and that it isn't.
fn clashes(goal: &Goal, trail: &Trail, field: &Field) -> bool
    ensures { IsTrue result ↔ ((claimed_absent goal.now.atoms trail.now.path field.now ≡ true) × (required goal.now.atoms trail.now.path field.now ≡ true)) }
{
    let path = trail.steps();
    is_claimed_absent(goal, path, field) && is_required(goal, path, field)
}

/// Whether the field is required, and the words show that none of its valid texts is as the path says.
fn closes(
    alloc: Global,
    goal: &Goal,
    tables: &Tables<'_>,
    trail: &Trail,
    field: &Field,
    words: &Words,
) -> Result<bool, OutOfMemory>
    requires { tables.now.atoms ≡ goal.now.atoms }
    ensures { IfOk result (λ yes. IsTrue yes ↔ ((required goal.now.atoms trail.now.path field.now ≡ true)
        × Closes (valid_of field.now) (claims_of goal.now.atoms trail.now.path field.now) words.now.list)) }
{
    let path = trail.steps();
    if !is_required(goal, path, field) {
        return Ok(false);
    }
    tables.closes(alloc, path, field, words)
}

/// Whether the field is required and a pattern of the configuration stands for it where the value isn't false, and the words
/// are one more than the cap allows, the empty one counted: they can be told apart, and none is a text as the path says.
fn overflows(
    alloc: Global,
    goal: &Goal,
    tables: &Tables<'_>,
    trail: &Trail,
    field: &Field,
    words: &Words,
    cap: u32,
) -> Result<bool, OutOfMemory>
    requires { tables.now.atoms ≡ goal.now.atoms }
    ensures { IfOk result (λ yes. IsTrue yes ↔ Overflows goal.now cap trail.now.path field.now words.now.list) }
{
    let path = trail.steps();
    if trail.value_of(&goal.formula) == Truth::No {
        return Ok(false);
    }
    if !is_required(goal, path, field) {
        return Ok(false);
    }
    if !has_user(goal, path, field) {
        return Ok(false);
    }
    if words.list.len() != cap as usize {
        return Ok(false);
    }
    tables.are_apart(alloc, path, field, words)
}

/// Whether the node may stand as a leaf at the end of the path. `seen` tells that a part that wasn't looked at came before.
pub fn may_leave(
    alloc: Global,
    goal: &Goal,
    tables: &Tables<'_>,
    trail: &Trail,
    node: &Node,
    cap: u32,
    seen: bool,
) -> Result<bool, OutOfMemory>
    requires { tables.now.atoms ≡ goal.now.atoms }
    ensures { IfOk result (λ yes. IsTrue yes ↔ LeafAt goal.now cap seen trail.now.path node.now) }
{
    match node {
        Node::Split { .. } => Ok(false),
        Node::False => Ok(trail.value_of(&goal.formula) == Truth::No),
        Node::Clash { field } => Ok(clashes(goal, trail, field)),
        Node::Closed { field, words } => closes(alloc, goal, tables, trail, field, words),
        Node::Rest => Ok(is_open(goal, trail, seen)),
        Node::Capped { field, words } => overflows(alloc, goal, tables, trail, field, words, cap),
    }
}
