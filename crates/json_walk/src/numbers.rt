// Whole numbers, written as JSON numbers or as texts of digits.
ghost use Rattle.std.specs.Prelude.{◌≡◌, ◌≤ℤ◌, ◌≤◌, IfOk};
ghost use Rattle.std.specs.List.{list_all};
ghost use Rattle.serde_json.specs.View.{view};
ghost use Rattle.text_base.specs.Alphabets.{is_digit};
ghost use Rattle.json_walk.specs.Outcome.{Gives};
ghost use Rattle.json_walk.specs.Numbers.{are_digits as are_digits_of, is_number as is_number_of, text_number, number_said as said_by, whole, count};

use crate::refusal::{Kind, ReadFail, refused_at};
use serde_json::Value;
use std::alloc::Global;
use text_base::Text;

fn all_digits(text: &[u8]) -> bool
    ensures { result ≡ list_all is_digit text.now }
{
    text.iter().all(|byte| byte.is_ascii_digit())
}

fn are_digits(text: &[u8]) -> bool
    ensures { result ≡ are_digits_of text.now }
{
    1 <= text.len() && text.len() <= 20 && all_digits(text)
}

fn is_number(text: &[u8]) -> bool
    ensures { result ≡ is_number_of text.now }
{
    match text {
        [b'-', digits @ ..] => are_digits(digits),
        digits => are_digits(digits),
    }
}

#[tactic(auto, using(crate::proofs::Digits::parsed_is))]
fn parsed(text: &str) -> Option<i128>
    ensures { result ≡ text_number text.now }
{
    if is_number(text.as_bytes()) {
        return text.parse::<i128>().ok();
    }
    None
}

#[tactic(auto, unfolding(crate::specs::Numbers::number_said))]
fn number_said(value: &Value) -> Option<i128>
    ensures { result ≡ said_by (view value.now) }
{
    if let Some(number) = value.as_u64() {
        return Some(number as i128);
    }
    if let Some(number) = value.as_i64() {
        return Some(number as i128);
    }
    match value.as_str() {
        Some(text) => parsed(text),
        None => None,
    }
}

/// A whole number from `least` to `most`, as a JSON number of at most 64 bits without a fraction and an exponent, or as a
/// text of an optional `-` and 1 to 20 digits. Any other value is `WrongKind`, and then another number `OutOfRange`.
#[tactic(auto, unfolding(crate::specs::Numbers::whole))]
pub fn whole_of(
    alloc: Global,
    value: &Value,
    place: &Text,
    least: i128,
    most: i128,
) -> Result<i128, ReadFail>
    ensures read { Gives (λ n. n) result (whole least most place.now (view value.now)) }
    ensures within { IfOk result (λ n. (least ≤ℤ n) × (n ≤ℤ most)) }
{
    let Some(number) = number_said(value) else {
        return Err(refused_at(place.copy(alloc)?, Kind::WrongKind));
    };
    if number < least || number > most {
        return Err(refused_at(place.copy(alloc)?, Kind::OutOfRange));
    }
    Ok(number)
}

/// A whole number from `least` to `most`, as `whole_of` reads it.
#[tactic(auto, unfolding(crate::specs::Numbers::count))]
pub fn count_of(
    alloc: Global,
    value: &Value,
    place: &Text,
    least: u64,
    most: u64,
) -> Result<u64, ReadFail>
    ensures read { Gives (λ n. n) result (count least most place.now (view value.now)) }
    ensures within { IfOk result (λ n. n ≤ most) }
{
    let number = whole_of(alloc, value, place, least as i128, most as i128)?;
    Ok(number as u64)
}
