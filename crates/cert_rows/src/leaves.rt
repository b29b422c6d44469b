// Arrays of a row by the number of their elements.
ghost use Rattle.std.specs.Prelude.{◌≡◌};
ghost use Rattle.serde_json.specs.View.{view, items_view};
ghost use Rattle.serde_json.specs.Find.{as_array};
ghost use Rattle.json_walk.specs.declared.refusal.Kind.TheVariants.{WrongKind};
ghost use Rattle.json_walk.specs.Outcome.{Gives, or_offence};
ghost use Rattle.cert_rows.specs.Leaves.{none_of, one_of, two_of, pair};

use json_walk::{Kind, ReadFail, Text, refused_at};
use serde_json::Value;
use std::alloc::Global;

/// The elements of an array.
pub fn elements<'v>(alloc: Global, value: &'v Value, place: &Text) -> Result<&'v [Value], ReadFail>
    ensures { Gives (λ vs. items_view vs.now) result (or_offence place.now WrongKind (as_array (view value.now))) }
{
    match value.as_array() {
        Some(items) => Ok(items.as_slice()),
        None => Err(refused_at(place.copy(alloc)?, Kind::WrongKind)),
    }
}

/// Refuses values where none may be.
#[tactic(auto, using(crate::proofs::Steps::some_more))]
pub fn none_more(alloc: Global, values: &[Value], place: &Text) -> Result<(), ReadFail>
    ensures { Gives (λ u. u) result (none_of place.now (items_view values.now)) }
{
    match values {
        [] => Ok(()),
        [_, ..] => Err(refused_at(place.copy(alloc)?, Kind::WrongKind)),
    }
}

/// Exactly one value.
pub fn one_value<'v>(
    alloc: Global,
    values: &'v [Value],
    place: &Text,
) -> Result<&'v Value, ReadFail>
    ensures { Gives (λ v. view v.now) result (one_of place.now (items_view values.now)) }
{
    match values {
        [] => Err(refused_at(place.copy(alloc)?, Kind::WrongKind)),
        [value, rest @ ..] => {
            none_more(alloc, rest, place)?;
            Ok(value)
        }
    }
}

/// Exactly two values.
pub fn two_values<'v>(
    alloc: Global,
    values: &'v [Value],
    place: &Text,
) -> Result<(&'v Value, &'v Value), ReadFail>
    ensures { Gives (λ v. (view v.0.now, view v.1.now)) result (two_of place.now (items_view values.now)) }
{
    match values {
        [] => Err(refused_at(place.copy(alloc)?, Kind::WrongKind)),
        [first, rest @ ..] => {
            let second = one_value(alloc, rest, place)?;
            Ok((first, second))
        }
    }
}

/// An array of exactly two values.
#[tactic(auto, unfolding(crate::specs::Leaves::pair))]
pub fn pair_of<'v>(
    alloc: Global,
    value: &'v Value,
    place: &Text,
) -> Result<(&'v Value, &'v Value), ReadFail>
    ensures { Gives (λ v. (view v.0.now, view v.1.now)) result (pair place.now (view value.now)) }
{
    let values = elements(alloc, value, place)?;
    two_values(alloc, values, place)
}
