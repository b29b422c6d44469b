// The request of a row, read of its JSON value.
ghost use Rattle.std.specs.Prelude.{◌≡◌, ◌<◌, length, get_or, [], IfOk};
ghost use Rattle.serde_json.specs.View.{view};
ghost use Rattle.json_tables.specs.declared.message.Message.TheVariants as messages;
ghost use Rattle.json_walk.specs.Outcome.{Gives};
ghost use Rattle.json_walk.specs.Members.{names_of};
ghost use Rattle.text_base.specs.Requests.{first_bad_part};
ghost use Rattle.cert_rows.specs.Leaves.{head};
ghost use Rattle.cert_rows.specs.Requests.{heads, random, parts as parts_at, part_place, where_valid, request};

use crate::leaves::pair_of;
use json_walk::{
    Kind, Message, Names, ReadFail, Reader, Text, Truth, at_index, count_of, field_place, members,
    read_list, refused_at, required,
};
use req_model::Request;
use serde_json::Value;
use sqlite_items::Items;
use std::alloc::{AllocError, Global};
use text_base::{BadRequest, Parts};

const M: Message = Message::RowRequest;

/// Reads a text as its bytes.
#[derive(Drop)]
struct TextBytes;

impl Reader for TextBytes {
    type Out = Items<u8>;

    ghost use Rattle.json_walk.specs.Leaves.{text};

    ghost reads = { λ _. text };

    #[tactic(auto, unfolding(json_walk::specs::Leaves::text))]
    fn read(&self, alloc: Global, value: &Value, place: &Text) -> Result<Items<u8>, ReadFail> {
        match value.as_str() {
            Some(text) => Ok(Items::from_slice(alloc, text.as_bytes())?),
            None => Err(refused_at(place.copy(alloc)?, Kind::WrongKind)),
        }
    }
}

/// Reads a header: its name and its value.
#[derive(Drop)]
struct HeadReader;

impl Reader for HeadReader {
    type Out = (Items<u8>, Items<u8>);

    ghost reads = { λ _. head };

    #[tactic(auto, unfolding(crate::specs::Leaves::head))]
    fn read(
        &self,
        alloc: Global,
        value: &Value,
        place: &Text,
    ) -> Result<(Items<u8>, Items<u8>), ReadFail> {
        let (first, second) = pair_of(alloc, value, place)?;
        let name = TextBytes.read(alloc, first, &at_index(alloc, place, 0)?)?;
        let text = TextBytes.read(alloc, second, &at_index(alloc, place, 1)?)?;
        Ok((name, text))
    }
}

/// Reads a list of headers.
#[derive(Drop)]
struct HeadList;

impl Reader for HeadList {
    type Out = Items<(Items<u8>, Items<u8>)>;

    ghost reads = { λ _. heads };

    #[tactic(auto, unfolding(crate::specs::Requests::heads))]
    fn read(
        &self,
        alloc: Global,
        value: &Value,
        place: &Text,
    ) -> Result<Items<(Items<u8>, Items<u8>)>, ReadFail> {
        read_list(alloc, value, place, None, &HeadReader)
    }
}

/// Reads an unsigned number of 64 bits.
#[derive(Drop)]
struct RandomValue;

impl Reader for RandomValue {
    type Out = u64;

    ghost reads = { λ _. random };

    #[tactic(auto, unfolding(crate::specs::Requests::random))]
    fn read(&self, alloc: Global, value: &Value, place: &Text) -> Result<u64, ReadFail> {
        count_of(alloc, value, place, 0, u64::MAX)
    }
}

/// The parts of the request, valid or not.
#[tactic(auto, unfolding(crate::specs::Requests::parts))]
fn parts_of(alloc: Global, value: &Value, place: &Text, names: &Names) -> Result<Parts, ReadFail>
    requires { names.now.spelled.items ≡ names_of messages.RowRequest (view value.now) }
    ensures { Gives (λ q. q) result (parts_at place.now (view value.now)) }
{
    let authority = required(alloc, value, place, names, M, 0, &TextBytes)?;
    let headers = required(alloc, value, place, names, M, 1, &HeadList)?;
    let internal = required(alloc, value, place, names, M, 2, &Truth)?;
    let method = required(alloc, value, place, names, M, 3, &TextBytes)?;
    let target = required(alloc, value, place, names, M, 4, &TextBytes)?;
    let random = required(alloc, value, place, names, M, 5, &RandomValue)?;
    let runtime = required(alloc, value, place, names, M, 6, &TextBytes)?;
    let https = required(alloc, value, place, names, M, 7, &Truth)?;
    Ok(Parts {
        authority,
        target,
        method,
        https,
        internal,
        headers,
        runtime,
        random,
    })
}

/// The place of a bad part.
#[tactic(auto, unfolding(crate::specs::Requests::part_place))]
fn place_of(alloc: Global, place: &Text, part: BadRequest) -> Result<Text, AllocError>
    ensures { IfOk result (λ t. t ≡ part_place place.now part) }
{
    match part {
        BadRequest::Authority => field_place(alloc, place, M, 0),
        BadRequest::Target => field_place(alloc, place, M, 4),
        BadRequest::Method => field_place(alloc, place, M, 3),
        BadRequest::Runtime => field_place(alloc, place, M, 6),
        BadRequest::Header { index } => {
            let list = field_place(alloc, place, M, 1)?;
            at_index(alloc, &list, index as usize)
        }
        BadRequest::OutOfMemory => place.copy(alloc),
    }
}

/// The request of these parts. The first part that breaks the rules of requests is refused at its place.
fn valid_request(alloc: Global, place: &Text, parts: Parts) -> Result<Request, ReadFail>
    ensures { Gives (λ r. r) result (where_valid place.now parts (first_bad_part parts)) }
{
    match Request::new(alloc, parts) {
        Ok(request) => Ok(request),
        Err(BadRequest::OutOfMemory) => Err(ReadFail::OutOfMemory),
        Err(part) => Err(refused_at(place_of(alloc, place, part)?, Kind::BadText)),
    }
}

/// Reads the request of a row.
#[derive(Drop)]
pub struct RowRequest;

impl Reader for RowRequest {
    type Out = Request;

    ghost reads = { λ _. request };

    #[tactic(auto, unfolding(crate::specs::Requests::request))]
    fn read(&self, alloc: Global, value: &Value, place: &Text) -> Result<Request, ReadFail> {
        let names = members(alloc, value, place, M)?;
        let parts = parts_of(alloc, value, place, &names)?;
        valid_request(alloc, place, parts)
    }
}
