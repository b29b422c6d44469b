// Values without members of their own: texts, truths, names out of a list, and lists.
ghost use Rattle.std.specs.Prelude.{◌≡◌, [], map, unwrap_or, IfOk};
ghost use Rattle.std.specs.Str.{bytes_eq};
ghost use Rattle.std.specs.List.{position_from};
ghost use Rattle.serde_json.specs.View.{view, items_view};
ghost use Rattle.json_walk.specs.Outcome.{Gives};
ghost use Rattle.json_walk.specs.Leaves.{text, truth, choice, list, list_size, items, list_of as list_read};

use crate::fields::Reader;
use crate::places::at_index;
use crate::refusal::{Kind, ReadFail, refused_at};
use serde_json::Value;
use sqlite_items::Items;
use std::alloc::{AllocError, Global};
use text_base::Text;

/// A text: else `WrongKind`.
#[tactic(auto, unfolding(crate::specs::Leaves::text))]
pub fn text_of(alloc: Global, value: &Value, place: &Text) -> Result<Text, ReadFail>
    ensures { Gives (λ t. t) result (text place.now (view value.now)) }
{
    match value.as_str() {
        Some(text) => Ok(Text::of(alloc, text)?),
        None => Err(refused_at(place.copy(alloc)?, Kind::WrongKind)),
    }
}

/// True or false: else `WrongKind`.
#[tactic(auto, unfolding(crate::specs::Leaves::truth))]
pub fn truth_of(alloc: Global, value: &Value, place: &Text) -> Result<bool, ReadFail>
    ensures { Gives (λ b. b) result (truth place.now (view value.now)) }
{
    match value.as_bool() {
        Some(truth) => Ok(truth),
        None => Err(refused_at(place.copy(alloc)?, Kind::WrongKind)),
    }
}

fn number_of(text: &str, names: &[&str]) -> Option<usize>
    ensures { result ≡ position_from (bytes_eq text.now) 0 (map (λ n. n.now) names.now) }
{
    for (i, name) in names.iter().enumerate() {
        if text == *name {
            return Some(i);
        }
    }
    None
}

/// The number, counted from 0, of the text among the names: no text is `WrongKind`, and another text `OutOfRange`.
#[tactic(auto, unfolding(crate::specs::Leaves::choice))]
pub fn choice_of(
    alloc: Global,
    value: &Value,
    place: &Text,
    names: &[&str],
) -> Result<usize, ReadFail>
    ensures { Gives (λ n. n) result (choice (map (λ n. n.now) names.now) place.now (view value.now)) }
{
    let text = text_of(alloc, value, place)?;
    match number_of(text.as_str(), names) {
        Some(number) => Ok(number),
        None => Err(refused_at(place.copy(alloc)?, Kind::OutOfRange)),
    }
}

/// The elements of a list: no list is `WrongKind`, and more than `most` elements are `TooMany`.
#[tactic(auto, using(crate::proofs::Elements::items_len_is), unfolding(crate::specs::Leaves::list))]
pub fn items_of<'v>(
    alloc: Global,
    value: &'v Value,
    place: &Text,
    most: Option<u32>,
) -> Result<&'v Vec<Value>, ReadFail>
    ensures { Gives (λ v. items_view v.now.items) result (list most place.now (view value.now)) }
{
    let Some(items) = value.as_array() else {
        return Err(refused_at(place.copy(alloc)?, Kind::WrongKind));
    };
    match most {
        Some(most) => if items.len() <= most as usize {
            Ok(items)
        } else {
            Err(refused_at(place.copy(alloc)?, Kind::TooMany))
        },
        None => Ok(items),
    }
}

/// How many elements the list has: no list is `WrongKind`, and more than `most` elements are `TooMany`.
#[tactic(auto, using(crate::proofs::Elements::items_len_is), unfolding(crate::specs::Leaves::list_size))]
pub fn list_of(
    alloc: Global,
    value: &Value,
    place: &Text,
    most: Option<u32>,
) -> Result<usize, ReadFail>
    ensures { Gives (λ n. n) result (list_size most place.now (view value.now)) }
{
    let items = items_of(alloc, value, place, most)?;
    Ok(items.len())
}

fn read_items<R: Reader>(
    alloc: Global,
    values: &[Value],
    place: &Text,
    reader: &R,
) -> Result<Items<R::Out>, ReadFail>
    ensures { Gives (λ v. v) result
        (items place.now (R.reads reader.now) 0 (items_view values.now)) }
{
    let mut all = Items::new(alloc);
    for (i, value) in values.iter().enumerate() {
        let at = at_index(alloc, place, i)?;
        let one = reader.read(alloc, value, &at)?;
        all.push(one)?;
    }
    Ok(all)
}

/// A list of what the reader reads, element by element.
#[tactic(auto, unfolding(crate::specs::Leaves::list_of))]
pub fn read_list<R: Reader>(
    alloc: Global,
    value: &Value,
    place: &Text,
    most: Option<u32>,
    reader: &R,
) -> Result<Items<R::Out>, ReadFail>
    ensures { Gives (λ v. v) result
        (list_read most (R.reads reader.now) place.now (view value.now)) }
{
    let items = items_of(alloc, value, place, most)?;
    read_items(alloc, items.as_slice(), place, reader)
}

/// The list of a field, empty where the field is absent.
pub fn or_empty<T: Drop>(alloc: Global, list: Option<Items<T>>) -> Items<T>
    ensures { result ≡ unwrap_or list [] }
{
    match list {
        Some(list) => list,
        None => Items::new(alloc),
    }
}

/// The text of a field, empty where the field is absent.
pub fn text_or_empty(alloc: Global, text: Option<Text>) -> Result<Text, AllocError>
    ensures { IfOk result (λ t. t ≡ unwrap_or text []) }
{
    match text {
        Some(text) => Ok(text),
        None => Text::of(alloc, ""),
    }
}
