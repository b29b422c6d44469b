// Lists of words: writing them as JSON, and reading them of their JSON values.
ghost use Rattle.std.specs.Prelude.{◌≡◌, ◌++◌, All, IfSome, OnOk, Ok, List, ℕ, string_bytes};
ghost use Rattle.serde_json.specs.Data.{number, unsigned, no_items, item};
ghost use Rattle.serde_json.specs.View.{view, items_view};
ghost use Rattle.serde_json.specs.Written.{compact_text};
ghost use Rattle.json_walk.specs.Outcome.{Gives};
ghost use Rattle.json_walk.specs.Places.{at_index as place_at};
ghost use Rattle.cert_rows.specs.Shapes.{IsTypedWord};
ghost use Rattle.cert_rows.specs.Values.{word_value, words_value};
ghost use Rattle.cert_rows.specs.Leaves.{word, words_from, words};

use crate::leaves::{elements, pair_of};
use crate::pieces::{push_comma, push_number};
use json_walk::{ReadFail, Text, at_index, count_of};
use serde_json::Value;
use sqlite_items::Items;
use std::alloc::{AllocError, Global};

fn push_word(text: &mut String, word: &(u64, u8)) -> Result<(), AllocError>
    ensures text { OnOk result (string_bytes text.new ≡ string_bytes text.old ++ compact_text (word_value word.now)) }
    ensures typed { OnOk result (IsTypedWord word.now) }
{
    text.push_str("[")?;
    push_number(text, word.0)?;
    text.push_str(",")?;
    push_number(text, u64::from(word.1))?;
    text.push_str("]")
}

/// Adds the words as an array of pairs.
pub fn push_words(text: &mut String, words: &[(u64, u8)]) -> Result<(), AllocError>
    ensures text { OnOk result (string_bytes text.new ≡ string_bytes text.old ++ compact_text (words_value words.now)) }
    ensures typed { OnOk result (All IsTypedWord words.now) }
{
    text.push_str("[")?;
    let mut later = false;
    for word in words {
        push_comma(text, later)?;
        push_word(text, word)?;
        later = true;
    }
    text.push_str("]")
}

#[tactic(auto, using(crate::proofs::WordSteps::unsigned_number))]
fn quick_number(value: &Value) -> Option<u64>
    ensures { IfSome result (λ n. view value.now ≡ number (unsigned n)) }
{
    value.as_u64()
}

fn quick_pair(values: &[Value]) -> Option<(u64, u64)>
    ensures { IfSome result (λ n. items_view values.now ≡ item (number (unsigned n.0)) (item (number (unsigned n.1)) no_items)) }
{
    if values.len() != 2 {
        return None;
    }
    Some((quick_number(&values[0])?, quick_number(&values[1])?))
}

/// The word after so many others, where the value is one. No text of its place is made, which a list of a million words would
/// pay for.
fn quick_word(value: &Value, before: usize) -> Option<(u64, u8)>
    ensures { IfSome result (λ w. (p : List ℕ) → word before p (view value.now) ≡ Ok w) }
{
    let (parent, byte) = quick_pair(value.as_array()?.as_slice())?;
    if parent <= before as u64 && 32 <= byte && byte <= 126 {
        return Some((parent, byte as u8));
    }
    None
}

/// The word at the place, after so many others.
#[tactic(auto, unfolding(crate::specs::Leaves::word))]
fn word_of(alloc: Global, value: &Value, place: &Text, before: usize) -> Result<(u64, u8), ReadFail>
    ensures { Gives (λ w. w) result (word before place.now (view value.now)) }
{
    let (first, second) = pair_of(alloc, value, place)?;
    let parent = count_of(alloc, first, &at_index(alloc, place, 0)?, 0, before as u64)?;
    let byte = count_of(alloc, second, &at_index(alloc, place, 1)?, 32, 126)?;
    Ok((parent, byte as u8))
}

fn one_word(
    alloc: Global,
    value: &Value,
    place: &Text,
    before: usize,
) -> Result<(u64, u8), ReadFail>
    ensures { Gives (λ w. w) result (word before (place_at place.now before) (view value.now)) }
{
    match quick_word(value, before) {
        Some(word) => Ok(word),
        None => word_of(alloc, value, &at_index(alloc, place, before)?, before),
    }
}

fn words_in(alloc: Global, values: &[Value], place: &Text) -> Result<Items<(u64, u8)>, ReadFail>
    ensures { Gives (λ ws. ws) result (words_from place.now 0 (items_view values.now)) }
{
    let mut all = Items::new(alloc);
    for (i, value) in values.iter().enumerate() {
        let word = one_word(alloc, value, place, i)?;
        all.push(word)?;
    }
    Ok(all)
}

/// The words at the place.
#[tactic(auto, unfolding(crate::specs::Leaves::words))]
pub fn words_of(alloc: Global, value: &Value, place: &Text) -> Result<Items<(u64, u8)>, ReadFail>
    ensures { Gives (λ ws. ws) result (words place.now (view value.now)) }
{
    let values = elements(alloc, value, place)?;
    words_in(alloc, values, place)
}
