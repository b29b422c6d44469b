// Steps 1 and 2 of a message: it is an object, and its members are those of its table.
ghost use Rattle.std.specs.Prelude.{◌≡◌, map, IfOk, option_map};
ghost use Rattle.serde_json.specs.View.{view, members_view};
ghost use Rattle.serde_json.specs.Find.{get};
ghost use Rattle.json_tables.specs.Spellings.{both};
ghost use Rattle.json_walk.specs.Outcome.{Gives};
ghost use Rattle.json_walk.specs.Members.{is_object, once as once_of, known as known_of, judge as judge_of, scan as scan_of, members_at, names_of, named as named_of, spelled as spelled_of, is_given as is_given_of};

use crate::places::under;
use crate::refusal::{Kind, ReadFail, refused_at};
use json_tables::{Message, Spellings, carried_of, fields_of, outside_of};
use serde_json::{Map, Value};
use std::alloc::{AllocError, Global};
use text_base::Text;

/// The spelled name of each field that is there and not null, in the order of the table.
#[derive(Drop)]
pub struct Names {
    pub spelled: Vec<Option<Text>>,
}

/// The entry that a member's name spells.
fn named(key: &str, names: &'static [Spellings]) -> Option<Spellings>
    ensures { option_map both result ≡ named_of key.now (map both names.now) }
{
    for name in names {
        if key == name.0 || key == name.1 {
            return Some(*name);
        }
    }
    None
}

#[tactic(auto, unfolding(crate::specs::Members::once))]
fn once(
    alloc: Global,
    place: &Text,
    value: &Value,
    key: &str,
    name: Spellings,
) -> Result<(), ReadFail>
    ensures { Gives (λ u. u) result (once_of place.now (view value.now) key.now (both name.entry)) }
{
    let (snake, camel) = name;
    if key != camel && value.get(camel).is_some() {
        return Err(refused_at(under(alloc, place, snake)?, Kind::Conflict));
    }
    Ok(())
}

#[tactic(auto, unfolding(crate::specs::Members::known))]
fn known(
    alloc: Global,
    place: &Text,
    value: &Value,
    key: &str,
    name: Option<Spellings>,
) -> Result<(), ReadFail>
    ensures { Gives (λ u. u) result (known_of place.now (view value.now) key.now (option_map both name.entry)) }
{
    match name {
        Some(name) => once(alloc, place, value, key, name),
        None => Err(refused_at(under(alloc, place, key)?, Kind::UnknownField)),
    }
}

#[tactic(auto, using(crate::proofs::Named::judged), unfolding(crate::specs::Members::allowed))]
fn judge(
    alloc: Global,
    message: Message,
    place: &Text,
    value: &Value,
    key: &str,
    member: &Value,
) -> Result<(), ReadFail>
    ensures { Gives (λ u. u) result (judge_of message place.now (view value.now) key.now (view member.now)) }
{
    if let Some(name) = named(key, outside_of(message)) {
        if member.is_null() {
            return once(alloc, place, value, key, name);
        }
        return Err(refused_at(under(alloc, place, name.0)?, Kind::NotInProfile));
    }
    let name = named(key, fields_of(message)).or(named(key, carried_of(message)));
    known(alloc, place, value, key, name)
}

#[tactic(auto, unfolding(crate::specs::Members::scan))]
fn scan(
    alloc: Global,
    message: Message,
    place: &Text,
    value: &Value,
    members: &Map<String, Value>,
) -> Result<(), ReadFail>
    ensures { Gives (λ u. u) result (scan_of message place.now (view value.now) (members_view members.now.entries)) }
{
    for (key, member) in members.iter() {
        judge(alloc, message, place, value, key.as_str(), member)?;
    }
    Ok(())
}

fn is_given(value: &Value, name: &str) -> bool
    ensures { result ≡ is_given_of (get name.now (view value.now)) }
{
    match value.get(name) {
        Some(member) => !member.is_null(),
        None => false,
    }
}

fn spelled(alloc: Global, value: &Value, name: Spellings) -> Result<Option<Text>, AllocError>
    ensures { IfOk result (λ o. o ≡ spelled_of (view value.now) (both name.entry)) }
{
    if is_given(value, name.0) {
        return Ok(Some(Text::of(alloc, name.0)?));
    }
    if is_given(value, name.1) {
        return Ok(Some(Text::of(alloc, name.1)?));
    }
    Ok(None)
}

fn all_spelled(
    alloc: Global,
    value: &Value,
    names: &'static [Spellings],
) -> Result<Vec<Option<Text>>, AllocError>
    ensures { IfOk result (λ v. v.items ≡ map (spelled_of (view value.now)) (map both names.now)) }
{
    let mut all = Vec::new(alloc);
    for name in names {
        all.push(spelled(alloc, value, *name)?)?;
    }
    Ok(all)
}

/// Steps 1 and 2 of the message at the place. A value that is no object is `WrongKind`; then, member by member in byte
/// order, one that isn't in the tables is `UnknownField`, a refused one that isn't null is `NotInProfile`, and one whose
/// other spelling was met is `Conflict`.
#[tactic(auto, unfolding(crate::specs::Members::members_at, crate::specs::Members::scan_object))]
pub fn members(
    alloc: Global,
    value: &Value,
    place: &Text,
    message: Message,
) -> Result<Names, ReadFail>
    ensures read { Gives (λ n. n.spelled.items) result (members_at message place.now (view value.now)) }
    ensures named { IfOk result (λ n. n.spelled.items ≡ names_of message (view value.now)) }
{
    let Some(map) = value.as_object() else {
        return Err(refused_at(place.copy(alloc)?, Kind::WrongKind));
    };
    scan(alloc, message, place, value, map)?;
    Ok(Names {
        spelled: all_spelled(alloc, value, fields_of(message))?,
    })
}

/// Step 1 alone: a value that is no object is `WrongKind`.
#[tactic(auto, unfolding(crate::specs::Members::is_object))]
pub fn object_of(alloc: Global, value: &Value, place: &Text) -> Result<(), ReadFail>
    ensures { Gives (λ u. u) result (is_object place.now (view value.now)) }
{
    if value.is_object() {
        return Ok(());
    }
    Err(refused_at(place.copy(alloc)?, Kind::WrongKind))
}
