// Rows, read of their JSON values.
ghost use Rattle.std.specs.Prelude.{◌≡◌};
ghost use Rattle.serde_json.specs.View.{view};
ghost use Rattle.json_walk.specs.Outcome.{Gives};
ghost use Rattle.cert_rows.specs.Rows.{verdict_of as verdict_in, splits, states, reached as reached_at, refuted as refuted_at, undecided as undecided_at, by_verdict as row_by, row_of as row_in};

use crate::letter::{Verdict, verdict_named};
use crate::nodes::NodeList;
use crate::request::RowRequest;
use goal_form::{Row, RowBody};
use json_walk::{
    AnyText, Kind, Message, ReadFail, Reader, Text, count_of, field_place, members, object_of,
    refused_at, required,
};
use serde_json::Value;
use std::alloc::Global;

/// Reads the budget of splits.
#[derive(Drop)]
struct Splits;

impl Reader for Splits {
    type Out = u32;

    ghost reads = { λ _. splits };

    #[tactic(auto, unfolding(crate::specs::Rows::splits))]
    fn read(&self, alloc: Global, value: &Value, place: &Text) -> Result<u32, ReadFail> {
        let number = count_of(alloc, value, place, 1, 65_536)?;
        Ok(number as u32)
    }
}

/// Reads the budget of states.
#[derive(Drop)]
struct States;

impl Reader for States {
    type Out = u32;

    ghost reads = { λ _. states };

    #[tactic(auto, unfolding(crate::specs::Rows::states))]
    fn read(&self, alloc: Global, value: &Value, place: &Text) -> Result<u32, ReadFail> {
        let number = count_of(alloc, value, place, 16, 4096)?;
        Ok(number as u32)
    }
}

/// The verdict of an object, where it has one of those of rows.
#[tactic(auto, unfolding(crate::specs::Rows::verdict_of, json_tables::specs::Names::verdict))]
fn verdict_of(value: &Value) -> Option<Verdict>
    ensures { result ≡ verdict_in (view value.now) }
{
    match value.get("verdict") {
        Some(member) => match member.as_str() {
            Some(text) => verdict_named(text),
            None => None,
        },
        None => None,
    }
}

#[tactic(auto, unfolding(crate::specs::Rows::reached))]
fn reached(alloc: Global, value: &Value, place: &Text) -> Result<Row, ReadFail>
    ensures { Gives (λ r. r) result (reached_at place.now (view value.now)) }
{
    const M: Message = Message::ReachedRow;
    let names = members(alloc, value, place, M)?;
    let request = required(alloc, value, place, &names, M, 0, &RowRequest)?;
    let route = required(alloc, value, place, &names, M, 1, &AnyText)?;
    Ok(Row {
        route,
        body: RowBody::Reached(request),
    })
}

#[tactic(auto, unfolding(crate::specs::Rows::refuted))]
fn refuted(alloc: Global, value: &Value, place: &Text) -> Result<Row, ReadFail>
    ensures { Gives (λ r. r) result (refuted_at place.now (view value.now)) }
{
    const M: Message = Message::RefutedRow;
    let names = members(alloc, value, place, M)?;
    let nodes = required(alloc, value, place, &names, M, 0, &NodeList)?;
    let route = required(alloc, value, place, &names, M, 1, &AnyText)?;
    Ok(Row {
        route,
        body: RowBody::Refuted(nodes),
    })
}

#[tactic(auto, unfolding(crate::specs::Rows::undecided))]
fn undecided(alloc: Global, value: &Value, place: &Text) -> Result<Row, ReadFail>
    ensures { Gives (λ r. r) result (undecided_at place.now (view value.now)) }
{
    const M: Message = Message::UndecidedRow;
    let names = members(alloc, value, place, M)?;
    let nodes = required(alloc, value, place, &names, M, 0, &NodeList)?;
    let route = required(alloc, value, place, &names, M, 1, &AnyText)?;
    let splits = required(alloc, value, place, &names, M, 2, &Splits)?;
    let states = required(alloc, value, place, &names, M, 3, &States)?;
    Ok(Row {
        route,
        body: RowBody::Undecided {
            nodes,
            splits,
            states,
        },
    })
}

#[tactic(auto, unfolding(crate::specs::Rows::by_verdict))]
fn by_verdict(
    alloc: Global,
    value: &Value,
    place: &Text,
    verdict: Option<Verdict>,
) -> Result<Row, ReadFail>
    ensures { Gives (λ r. r) result (row_by place.now (view value.now) verdict) }
{
    match verdict {
        Some(Verdict::Reached) => reached(alloc, value, place),
        Some(Verdict::Refuted) => refuted(alloc, value, place),
        Some(Verdict::Undecided) => undecided(alloc, value, place),
        None => {
            let at = field_place(alloc, place, Message::ReachedRow, 2)?;
            Err(refused_at(at, Kind::OutOfRange))
        }
    }
}

/// The row of the value at the place.
#[tactic(auto, unfolding(crate::specs::Rows::row_of))]
pub fn row_of(alloc: Global, value: &Value, place: &Text) -> Result<Row, ReadFail>
    ensures { Gives (λ r. r) result (row_in place.now (view value.now)) }
{
    object_of(alloc, value, place)?;
    by_verdict(alloc, value, place, verdict_of(value))
}
