// Steps 3 and 4 of a message: its fields, one after the other, and its groups.
ghost use Rattle.std.specs.Prelude.{◌≡◌, ℕ, ◌+◌, ◌<◌, ◌≤◌, take, drop, List, length, get_or, [], IfOk, Option, option_map};
ghost use Rattle.serde_json.specs.Data.{Data};
ghost use Rattle.serde_json.specs.View.{view};
ghost use Rattle.json_tables.specs.Fields.{fields};
ghost use Rattle.json_walk.specs.Outcome.{Outcome, Gives};
ghost use Rattle.json_walk.specs.Places.{under as place_under};
ghost use Rattle.json_walk.specs.Members.{names_of};
ghost use Rattle.json_walk.specs.Fields.{field as field_at, optional as optional_at, required as required_at, alone as alone_at, must as must_at};

use crate::places::under;
use crate::refusal::{Kind, ReadFail, refused_at};
use crate::walk::Names;
use json_tables::{Message, fields_of};
use serde_json::Value;
use std::alloc::{AllocError, Global};
use text_base::Text;

/// What reads one kind of value at its place.
pub trait Reader {
    type Out: Drop;

    /// What a value at a place stands for, or its first offence.
    ghost reads: { Self → List ℕ → Data → Outcome Self.Out };

    fn read(&self, alloc: Global, value: &Value, place: &Text) -> Result<Self::Out, ReadFail>
        ensures { Gives (λ x. x) result (reads self.now place.now (view value.now)) };
}

/// The field's value, where it is there and not null.
pub fn field<'v>(
    value: &'v Value,
    names: &Names,
    message: Message,
    number: usize,
) -> Option<&'v Value>
    requires named { names.now.spelled.items ≡ names_of message (view value.now) }
    requires within { number < length (fields message) }
    ensures { option_map (λ v. view v.now) result ≡ field_at (get_or (fields message) number []) (view value.now) }
{
    match &names.spelled[number] {
        Some(name) => value.get(name.as_str()),
        None => None,
    }
}

/// The place of the message's field with this number.
pub fn field_place(
    alloc: Global,
    place: &Text,
    message: Message,
    number: usize,
) -> Result<Text, AllocError>
    requires { number < length (fields message) }
    ensures { IfOk result (λ t. t ≡ place_under place.now (get_or (fields message) number [])) }
{
    let name = fields_of(message)[number].0;
    under(alloc, place, name)
}

/// A field that may be absent.
#[tactic(auto, unfolding(crate::specs::Fields::optional))]
pub fn optional<R: Reader>(
    alloc: Global,
    value: &Value,
    place: &Text,
    names: &Names,
    message: Message,
    number: usize,
    reader: &R,
) -> Result<Option<R::Out>, ReadFail>
    requires named { names.now.spelled.items ≡ names_of message (view value.now) }
    requires within { number < length (fields message) }
    ensures { Gives (λ o. o) result
        (optional_at place.now (view value.now) (get_or (fields message) number []) (R.reads reader.now)) }
{
    match field(value, names, message, number) {
        Some(value) => {
            let place = field_place(alloc, place, message, number)?;
            Ok(Some(reader.read(alloc, value, &place)?))
        }
        None => Ok(None),
    }
}

/// A field that has to be there: else `Missing` where it would stand.
#[tactic(auto, unfolding(crate::specs::Fields::required))]
pub fn required<R: Reader>(
    alloc: Global,
    value: &Value,
    place: &Text,
    names: &Names,
    message: Message,
    number: usize,
    reader: &R,
) -> Result<R::Out, ReadFail>
    requires named { names.now.spelled.items ≡ names_of message (view value.now) }
    requires within { number < length (fields message) }
    ensures { Gives (λ x. x) result
        (required_at place.now (view value.now) (get_or (fields message) number []) (R.reads reader.now)) }
{
    let at = field_place(alloc, place, message, number)?;
    match field(value, names, message, number) {
        Some(value) => reader.read(alloc, value, &at),
        None => Err(refused_at(at, Kind::Missing)),
    }
}

/// Of a group's fields, the `many` from `first` on, at most one may be there: a second one is `Conflict` at its place.
pub fn alone(
    alloc: Global,
    value: &Value,
    place: &Text,
    names: &Names,
    message: Message,
    first: usize,
    many: usize,
) -> Result<(), ReadFail>
    requires named { names.now.spelled.items ≡ names_of message (view value.now) }
    requires within { first + many ≤ length (fields message) }
    ensures { Gives (λ u. u) result
        (alone_at place.now (view value.now) (take many (drop first (fields message)))) }
{
    let mut met = false;
    for i in 0..many {
        let there = field(value, names, message, first + i).is_some();
        let again = there & met;
        if again {
            let at = field_place(alloc, place, message, first + i)?;
            return Err(refused_at(at, Kind::Conflict));
        }
        met |= there;
    }
    Ok(())
}

/// A group of which one field has to be there: else `Missing` at the message's place.
pub fn must<T: Drop>(alloc: Global, place: &Text, found: Option<T>) -> Result<T, ReadFail>
    ensures { Gives (λ x. x) result (must_at place.now found) }
{
    match found {
        Some(x) => Ok(x),
        None => Err(refused_at(place.copy(alloc)?, Kind::Missing)),
    }
}
