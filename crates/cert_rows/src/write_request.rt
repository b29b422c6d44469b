// Requests as JSON.
ghost use Rattle.std.specs.Prelude.{◌≡◌, ◌++◌, ◌∷◌, ◌<◌, ◌^◌, [], true, OnOk, string_bytes, nat_lt, length, get_or};
ghost use Rattle.std.specs.List.{list_all};
ghost use Rattle.std.specs.Str.{IsUtf8};
ghost use Rattle.json.specs.Print.{quoted};
ghost use Rattle.json_tables.specs.Fields.{fields};
ghost use Rattle.json_tables.specs.declared.message.Message.TheVariants.{RowRequest};
ghost use Rattle.serde_json.specs.Data.{boolean};
ghost use Rattle.serde_json.specs.Written.{comma_if, compact_text};
ghost use Rattle.text_base.specs.Requests.{is_header, is_valid};
ghost use Rattle.cert_rows.specs.Values.{head_value, heads_value, request_value};

use crate::pieces::{push_comma, push_name, push_number, push_quoted};
use crate::utf8::text_of;
use json_walk::Message;
use sqlite_items::Items;
use std::alloc::{AllocError, Global};
use text_base::Parts;

fn push_head(
    alloc: Global,
    text: &mut String,
    head: &(Items<u8>, Items<u8>),
) -> Result<(), AllocError>
    requires { is_header head.now ≡ true }
    ensures { OnOk result (string_bytes text.new ≡ string_bytes text.old ++ compact_text (head_value head.now)) }
{
    text.push_str("[")?;
    push_quoted(alloc, text, text_of(head.0.as_slice()))?;
    text.push_str(",")?;
    push_quoted(alloc, text, text_of(head.1.as_slice()))?;
    text.push_str("]")
}

fn push_heads(
    alloc: Global,
    text: &mut String,
    heads: &[(Items<u8>, Items<u8>)],
) -> Result<(), AllocError>
    requires { list_all is_header heads.now ≡ true }
    ensures { OnOk result (string_bytes text.new ≡ string_bytes text.old ++ compact_text (heads_value heads.now)) }
{
    text.push_str("[")?;
    let mut later = false;
    for head in heads {
        push_comma(text, later)?;
        push_head(alloc, text, head)?;
        later = true;
    }
    text.push_str("]")
}

const M: Message = Message::RowRequest;

/// Adds the member with this number, a text.
fn push_text(
    alloc: Global,
    text: &mut String,
    number: usize,
    bytes: &Items<u8>,
) -> Result<(), AllocError>
    requires within { number < length (fields RowRequest) }
    requires text { IsUtf8 bytes.now }
    ensures { OnOk result (string_bytes text.new ≡ string_bytes text.old ++ (comma_if (nat_lt 0 number) ++ (quoted (get_or (fields RowRequest) number []) ++ 58 ∷ quoted bytes.now))) }
{
    push_name(alloc, text, M, number)?;
    push_quoted(alloc, text, text_of(bytes.as_slice()))
}

/// Adds the member with this number, a truth value.
fn push_truth(
    alloc: Global,
    text: &mut String,
    number: usize,
    truth: bool,
) -> Result<(), AllocError>
    requires within { number < length (fields RowRequest) }
    ensures { OnOk result (string_bytes text.new ≡ string_bytes text.old ++ (comma_if (nat_lt 0 number) ++ (quoted (get_or (fields RowRequest) number []) ++ 58 ∷ compact_text (boolean truth)))) }
{
    push_name(alloc, text, M, number)?;
    text.push_str(if truth { "true" } else { "false" })
}

/// Adds the request as an object.
pub fn push_request(alloc: Global, text: &mut String, parts: &Parts) -> Result<(), AllocError>
    requires { is_valid parts.now ≡ true }
    ensures text { OnOk result (string_bytes text.new ≡ string_bytes text.old ++ compact_text (request_value parts.now)) }
    ensures fits { OnOk result (parts.now.random < 2 ^ 64) }
{
    text.push_str("{")?;
    push_text(alloc, text, 0, &parts.authority)?;
    push_name(alloc, text, M, 1)?;
    push_heads(alloc, text, parts.headers.as_slice())?;
    push_truth(alloc, text, 2, parts.internal)?;
    push_text(alloc, text, 3, &parts.method)?;
    push_text(alloc, text, 4, &parts.target)?;
    push_name(alloc, text, M, 5)?;
    push_number(text, parts.random)?;
    push_text(alloc, text, 6, &parts.runtime)?;
    push_truth(alloc, text, 7, parts.https)?;
    text.push_str("}")
}
