// Rows, written as lines.
ghost use Rattle.std.specs.Prelude.{◌≡◌, ◌++◌, Ok, true, OnOk, IfOk, string_bytes};
ghost use Rattle.std.specs.Str.{IsUtf8};
ghost use Rattle.serde_json.specs.Written.{compact_text};
ghost use Rattle.cert_rows.specs.Shapes.{IsTypedRow, IsTypedBody, is_shaped};
ghost use Rattle.cert_rows.specs.Values.{body_value};
ghost use Rattle.cert_rows.specs.Read.{row_at};
ghost use Rattle.cert_rows.specs.Lines.{row_text as text_of_row, row_line};
ghost use Rattle.goal_form.specs.declared.goal.RowBody.TheVariants as row_body;

use crate::pieces::{push_name, push_number, push_quoted};
use crate::write_nodes::push_nodes;
use crate::write_request::push_request;
use goal_form::{Node, Row, RowBody};
use json_walk::Message;
use req_model::Request;
use std::alloc::{AllocError, Global};
use text_base::OutOfMemory;

fn push_reached(
    alloc: Global,
    text: &mut String,
    place: &str,
    request: &Request,
) -> Result<(), AllocError>
    ensures text { OnOk result (string_bytes text.new ≡ string_bytes text.old ++ compact_text (body_value place.now (row_body.Reached request.now))) }
    ensures typed { OnOk result (IsTypedBody (row_body.Reached request.now)) }
{
    const M: Message = Message::ReachedRow;
    let parts = request.parts();
    text.push_str("{")?;
    push_name(alloc, text, M, 0)?;
    push_request(alloc, text, parts)?;
    push_name(alloc, text, M, 1)?;
    push_quoted(alloc, text, place)?;
    push_name(alloc, text, M, 2)?;
    push_quoted(alloc, text, "reached")?;
    text.push_str("}")
}

fn push_refuted(
    alloc: Global,
    text: &mut String,
    place: &str,
    nodes: &[Node],
) -> Result<(), AllocError>
    ensures text { OnOk result (string_bytes text.new ≡ string_bytes text.old ++ compact_text (body_value place.now (row_body.Refuted nodes.now))) }
    ensures typed { OnOk result (IsTypedBody (row_body.Refuted nodes.now)) }
{
    const M: Message = Message::RefutedRow;
    text.push_str("{")?;
    push_name(alloc, text, M, 0)?;
    push_nodes(alloc, text, nodes)?;
    push_name(alloc, text, M, 1)?;
    push_quoted(alloc, text, place)?;
    push_name(alloc, text, M, 2)?;
    push_quoted(alloc, text, "refuted")?;
    text.push_str("}")
}

fn push_undecided(
    alloc: Global,
    text: &mut String,
    place: &str,
    nodes: &[Node],
    splits: u32,
    states: u32,
) -> Result<(), AllocError>
    ensures text { OnOk result (string_bytes text.new ≡ string_bytes text.old ++ compact_text (body_value place.now (row_body.Undecided nodes.now splits states))) }
    ensures typed { OnOk result (IsTypedBody (row_body.Undecided nodes.now splits states)) }
{
    const M: Message = Message::UndecidedRow;
    text.push_str("{")?;
    push_name(alloc, text, M, 0)?;
    push_nodes(alloc, text, nodes)?;
    push_name(alloc, text, M, 1)?;
    push_quoted(alloc, text, place)?;
    push_name(alloc, text, M, 2)?;
    push_number(text, splits as u64)?;
    push_name(alloc, text, M, 3)?;
    push_number(text, states as u64)?;
    push_name(alloc, text, M, 4)?;
    push_quoted(alloc, text, "undecided")?;
    text.push_str("}")
}

fn push_body(
    alloc: Global,
    text: &mut String,
    place: &str,
    body: &RowBody,
) -> Result<(), AllocError>
    ensures text { OnOk result (string_bytes text.new ≡ string_bytes text.old ++ compact_text (body_value place.now body.now)) }
    ensures typed { OnOk result (IsTypedBody body.now) }
{
    match body {
        RowBody::Reached(request) => push_reached(alloc, text, place, request),
        RowBody::Refuted(nodes) => push_refuted(alloc, text, place, nodes.as_slice()),
        RowBody::Undecided {
            nodes,
            splits,
            states,
        } => push_undecided(alloc, text, place, nodes.as_slice(), *splits, *states),
    }
}

/// The row as compact JSON. `room` is the capacity to begin with.
#[tactic(auto, unfolding(crate::specs::Lines::row_text))]
pub(crate) fn row_text(alloc: Global, row: &Row, room: usize) -> Result<String, OutOfMemory>
    ensures text { IfOk result (λ text. string_bytes text ≡ text_of_row row.now) }
    ensures typed { OnOk result (IsTypedRow row.now) }
{
    let mut text = String::with_capacity(alloc, room)?;
    push_body(alloc, &mut text, row.route.as_str(), &row.body)?;
    Ok(text)
}

/// The line of the row, with its line feed: compact JSON with members in byte order of their names. Where the row has the
/// shape of rows (`has_shape`), `read_row` of the line gives the row. Takes memory for the line, and for little else.
#[tactic(auto, unfolding(crate::specs::Lines::row_line))]
pub fn write_row(alloc: Global, row: &Row) -> Result<Vec<u8>, OutOfMemory>
    ensures line { IfOk result (λ line. line.items ≡ row_line row.now) }
    ensures reads { IfOk result (λ line. is_shaped row.now ≡ true → row_at line.items ≡ Ok row.now) }
{
    let mut text = row_text(alloc, row, 256)?;
    text.push_str("\n")?;
    Ok(text.into_bytes())
}
