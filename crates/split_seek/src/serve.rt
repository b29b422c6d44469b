// A text for each field that a path requires.
ghost use Rattle.std.specs.Prelude.{◌≡◌, ◌≤◌, Bool, true, ◌||◌, IfOk, OnOk};
ghost use Rattle.text_base.specs.declared.request.Field.{Field as AnyField};
ghost use Rattle.rx_joint.specs.Claims.{AreChosen, chosen};
ghost use Rattle.field_seek.specs.Seen.{IsSeen};
ghost use Rattle.goal_form.specs.Fields.{same_field as same};
ghost use Rattle.goal_form.specs.Goals.{is_required as required};
ghost use Rattle.goal_tables.specs.Fields.{IsJointOf};
ghost use Rattle.split_seek.specs.Serving.{limit, IsAdded, IsDraft, ServesOn, Serves, is_among};

use crate::hints::Hints;
use crate::texts::{Draft, Service, has_text};
use field_seek::{Seen, seek_among};
use goal_form::{Goal, Node, copy_field, field_of, same_field};
use goal_tables::{Joint, Tables};
use sqlite_items::Items;
use std::alloc::Global;
use text_base::{Field, OutOfMemory};

/// States are counted only where a pattern of the configuration stands for the field.
fn limit_of(user: bool, cap: u32) -> Option<u32>
    ensures { result ≡ limit user cap }
{
    if user { Some(cap) } else { None }
}

/// A text as the choice says: the last one of the field, if it still is, or one that is sought.
fn seek_or_recall(
    alloc: Global,
    joint: &Joint,
    field: &Field,
    choice: &[(u32, bool)],
    limit: Option<u32>,
    hints: &mut Hints<'_>,
) -> Result<Seen, OutOfMemory>
    requires joint { IsJointOf hints.old.fields field.now joint.now }
    requires room { joint.now.room ≤ hints.old.room }
    requires choice { AreChosen joint.now.terms choice.now }
    ensures hints { hints.new ≡ hints.old }
    ensures seen { IfOk result (λ seen. IsSeen joint.now.valid (chosen joint.now.terms choice.now) limit seen) }
{
    if let Some(text) = hints.recall(alloc, field, joint, choice)? {
        return Ok(Seen::Found(text));
    }
    let seen = seek_among(alloc, joint, choice, limit)?;
    if let Seen::Found(text) = &seen {
        hints.keep(alloc, field, joint, text.as_slice())?;
    }
    Ok(seen)
}

/// Adds a text of the field to the draft, or tells the leaf that shows that there is none.
fn add_text(
    alloc: Global,
    seen: Seen,
    field: &Field,
    draft: &mut Draft,
) -> Result<Option<Node>, OutOfMemory>
    ensures { IfOk result (λ node. IsAdded field.now seen draft.old.texts draft.old.full draft.new.texts draft.new.full node) }
{
    let field = copy_field(alloc, field)?;
    match seen {
        Seen::Found(text) => {
            draft.texts.push((field, Items::from_vec(text)))?;
            Ok(None)
        }
        Seen::Empty(words) => Ok(Some(Node::Closed { field, words })),
        Seen::Capped(words) => {
            draft.full = Some(Node::Capped { field, words });
            Ok(None)
        }
    }
}

/// Serves one more field that the path requires.
fn serve_field(
    alloc: Global,
    goal: &Goal,
    tables: &Tables<'_>,
    path: &[(u32, bool)],
    field: &Field,
    cap: u32,
    hints: &mut Hints<'_>,
    draft: &mut Draft,
) -> Result<Option<Node>, OutOfMemory>
    requires tables { tables.now.atoms ≡ goal.now.atoms }
    requires asked { required goal.now.atoms path.now field.now ≡ true }
    requires hints { hints.old ≡ tables.now }
    ensures hints { hints.new ≡ hints.old }
    ensures served { (among : AnyField → Bool) → IsDraft goal.now cap path.now among draft.old.texts draft.old.full
        → IfOk result (ServesOn goal.now cap path.now (λ f. among f || same field.now f) draft.new.texts draft.new.full) }
{
    let _ = goal;
    let Some(claims) = tables.claims(alloc, path, field)? else {
        unreachable!()
    };
    if claims.absent {
        let field = copy_field(alloc, field)?;
        return Ok(Some(Node::Clash { field }));
    }
    if has_text(draft.texts.as_slice(), field) {
        return Ok(None);
    }
    let limit = limit_of(claims.user, cap);
    let seen = seek_or_recall(alloc, claims.joint, field, &claims.choice, limit, hints)?;
    add_text(alloc, seen, field, draft)
}

/// Adds a field, if it isn't there yet.
fn add_field(alloc: Global, field: &Field, fields: &mut Items<Field>) -> Result<(), OutOfMemory>
    ensures { OnOk result ((f : AnyField) → is_among f fields.new ≡ (is_among f fields.old || same field.now f)) }
{
    for other in fields.as_slice() {
        if same_field(other, field) {
            return Ok(());
        }
    }
    fields.push(copy_field(alloc, field)?)
}

/// The fields that are always there, and those that a true step asks for.
fn required_fields(
    alloc: Global,
    goal: &Goal,
    path: &[(u32, bool)],
) -> Result<Items<Field>, OutOfMemory>
    ensures { IfOk result (λ fields. (f : AnyField) → required goal.now.atoms path.now f ≡ is_among f fields) }
{
    let mut fields = Items::new(alloc);
    fields.push(Field::Authority)?;
    fields.push(Field::Target)?;
    fields.push(Field::Method)?;
    fields.push(Field::Proto)?;
    fields.push(Field::Random)?;
    for step in path {
        if step.1 {
            if let Some(atom) = goal.atoms.get(step.0) {
                add_field(alloc, field_of(atom), &mut fields)?;
            }
        }
    }
    Ok(fields)
}

/// A text for each required field, or the leaf that shows that there is none, or a field with too many states.
pub fn serve(
    alloc: Global,
    goal: &Goal,
    tables: &Tables<'_>,
    path: &[(u32, bool)],
    cap: u32,
    hints: &mut Hints<'_>,
) -> Result<Service, OutOfMemory>
    requires tables { tables.now.atoms ≡ goal.now.atoms }
    requires hints { hints.old ≡ tables.now }
    ensures hints { hints.new ≡ hints.old }
    ensures served { IfOk result (Serves goal.now cap path.now) }
{
    let fields = required_fields(alloc, goal, path)?;
    let mut draft = Draft {
        texts: Items::new(alloc),
        full: None,
    };
    let list = fields.as_slice();
    for field in list {
        if let Some(node) = serve_field(alloc, goal, tables, path, field, cap, hints, &mut draft)? {
            return Ok(Service::Shut(node));
        }
    }
    let Draft { texts, full } = draft;
    match full {
        Some(node) => Ok(Service::Full(node)),
        None => Ok(Service::All(texts)),
    }
}
