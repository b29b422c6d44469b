// Pieces of compact JSON, each added at the end of a text.
ghost use Rattle.std.specs.Prelude.{◌≡◌, ◌++◌, ◌∷◌, ◌<◌, ◌^◌, [], OnOk, IfOk, decimal, string_bytes, length, get_or, nat_lt};
ghost use Rattle.json.specs.Print.{quoted};
ghost use Rattle.json_tables.specs.Fields.{fields};
ghost use Rattle.serde_json.specs.Written.{comma_if};

use itoa::Buffer;
use json_tables::fields_of;
use json_walk::Message;
use serde_json::Value;
use std::alloc::{AllocError, Global};

/// Adds a comma where this element is not the first.
pub fn push_comma(text: &mut String, later: bool) -> Result<(), AllocError>
    ensures { OnOk result (string_bytes text.new ≡ string_bytes text.old ++ comma_if later) }
{
    if later {
        return text.push_str(",");
    }
    Ok(())
}

/// Adds a number in decimal.
pub fn push_number(text: &mut String, number: u64) -> Result<(), AllocError>
    ensures text { OnOk result (string_bytes text.new ≡ string_bytes text.old ++ decimal number) }
    ensures fits { number < 2 ^ 64 }
{
    let mut buffer = Buffer::new();
    text.push_str(buffer.format(number))
}

fn quote(alloc: Global, part: &str) -> Result<String, AllocError>
    ensures { IfOk result (λ s. string_bytes s ≡ quoted part.now) }
{
    let value = Value::String(String::from_str(alloc, part)?);
    value.to_string(alloc)
}

/// Adds a text in quotes.
pub fn push_quoted(alloc: Global, text: &mut String, part: &str) -> Result<(), AllocError>
    ensures { OnOk result (string_bytes text.new ≡ string_bytes text.old ++ quoted part.now) }
{
    let piece = quote(alloc, part)?;
    text.push_str(piece.as_str())
}

/// The name of a message's field.
fn name_of(message: Message, number: usize) -> &'static str
    requires { number < length (fields message) }
    ensures { result.now ≡ get_or (fields message) number [] }
{
    fields_of(message)[number].0
}

/// Adds the name of the message's field with this number and a colon, after a comma where it is not the first.
pub fn push_name(
    alloc: Global,
    text: &mut String,
    message: Message,
    number: usize,
) -> Result<(), AllocError>
    requires { number < length (fields message) }
    ensures { OnOk result (string_bytes text.new ≡ string_bytes text.old ++ (comma_if (nat_lt 0 number) ++ (quoted (get_or (fields message) number []) ++ 58 ∷ []))) }
{
    push_comma(text, 0 < number)?;
    push_quoted(alloc, text, name_of(message, number))?;
    text.push_str(":")
}
