// Names of fields in a report.
ghost use Rattle.std.specs.Prelude.{◌≡◌, IfOk};
ghost use Rattle.serde_json.specs.View.{view};
ghost use Rattle.json_walk.specs.Outcome.{Gives};
ghost use Rattle.cert_rows.specs.FieldNames.{field_text, field_named as named_by, header_named as header_by};
ghost use Rattle.cert_rows.specs.Leaves.{field};

use crate::utf8::text_of;
use json_walk::{Kind, ReadFail, refused_at};
use req_model::is_header_name;
use serde_json::Value;
use std::alloc::Global;
use text_base::{Field, OutOfMemory, Text};

/// The name of a field in a report: that of a header is its own after `header:`.
#[tactic(auto, unfolding(crate::specs::FieldNames::field_text))]
pub fn text_of_field(alloc: Global, field: &Field) -> Result<Text, OutOfMemory>
    ensures { IfOk result (λ t. t ≡ field_text field.now) }
{
    match field {
        Field::Authority => Text::of(alloc, "authority"),
        Field::Target => Text::of(alloc, "target"),
        Field::Method => Text::of(alloc, "method"),
        Field::Proto => Text::of(alloc, "proto"),
        Field::Random => Text::of(alloc, "random"),
        Field::Runtime => Text::of(alloc, "runtime"),
        Field::Internal => Text::of(alloc, "internal"),
        Field::Header(name) => {
            let mut text = String::from_str(alloc, "header:")?;
            text.push_str(name.as_str())?;
            Text::of(alloc, text.as_str())
        }
    }
}

/// The header with this name, where the text is `header:` and a name that a header may have.
fn header_named(alloc: Global, text: &[u8]) -> Result<Option<Field>, OutOfMemory>
    ensures { IfOk result (λ o. o ≡ header_by text.now) }
{
    if !text.starts_with(b"header:".as_slice()) {
        return Ok(None);
    }
    let (_, name) = text.split_at(7);
    if !is_header_name(name) {
        return Ok(None);
    }
    Ok(Some(Field::Header(Text::of(alloc, text_of(name))?)))
}

/// The field with this name.
#[tactic(auto, unfolding(crate::specs::FieldNames::field_named))]
pub fn field_named(alloc: Global, text: &str) -> Result<Option<Field>, OutOfMemory>
    ensures { IfOk result (λ o. o ≡ named_by text.now) }
{
    if text == "authority" {
        Ok(Some(Field::Authority))
    } else if text == "target" {
        Ok(Some(Field::Target))
    } else if text == "method" {
        Ok(Some(Field::Method))
    } else if text == "proto" {
        Ok(Some(Field::Proto))
    } else if text == "random" {
        Ok(Some(Field::Random))
    } else if text == "runtime" {
        Ok(Some(Field::Runtime))
    } else if text == "internal" {
        Ok(Some(Field::Internal))
    } else {
        header_named(alloc, text.as_bytes())
    }
}

/// The field at the place.
#[tactic(auto, unfolding(crate::specs::Leaves::field, json_walk::specs::Leaves::text))]
pub fn field_of(alloc: Global, value: &Value, place: &Text) -> Result<Field, ReadFail>
    ensures { Gives (λ f. f) result (field place.now (view value.now)) }
{
    if let Some(text) = value.as_str() {
        if let Some(field) = field_named(alloc, text)? {
            return Ok(field);
        }
    }
    Err(refused_at(place.copy(alloc)?, Kind::WrongKind))
}
