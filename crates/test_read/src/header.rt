// Headers of a test.
ghost use Rattle.std.specs.Prelude.{◌≡◌, bytes_eq};
ghost use Rattle.std.specs.List.{list_all, list_any};
ghost use Rattle.text_base.specs.Alphabets.{is_printed as is_printed_code};
ghost use Rattle.text_base.specs.Requests.{reserved_names, is_header_value as is_value_of};
ghost use Rattle.json_walk.specs.Leaves.{text};
ghost use Rattle.test_read.specs.Headers.{header_key, header_value, header, headers};

use json_walk::{
    Kind, Message, ReadFail, Reader, Text, members, optional, or_empty, read_list, refused_at,
    required,
};
use read_match::HeaderName;
use serde_json::Value;
use sqlite_items::Items;
use std::alloc::Global;

/// The most headers of a request or a response.
const HEADER_LIMIT: u32 = 1_000;

/// Any text, as its bytes.
#[derive(Drop)]
pub struct TextBytes;

impl Reader for TextBytes {
    type Out = Items<u8>;

    ghost reads = { λ _. text };

    #[tactic(auto, unfolding(json_walk::specs::Leaves::text))]
    fn read(&self, alloc: Global, value: &Value, place: &Text) -> Result<Items<u8>, ReadFail> {
        match value.as_str() {
            Some(text) => Ok(Items::from_slice(alloc, text.as_bytes())?),
            None => Err(refused_at(place.copy(alloc)?, Kind::WrongKind)),
        }
    }
}

/// Whether the name stands for a part of a request.
fn is_reserved(name: &[u8]) -> bool
    ensures { result ≡ list_any (bytes_eq name.now) reserved_names }
{
    name == b"host".as_slice()
        || name == b"x-forwarded-proto".as_slice()
        || name == b"x-envoy-internal".as_slice()
}

/// The name of a header, in lower case. One that stands for a part of a request is `BadText`.
#[derive(Drop)]
struct HeaderKey;

impl Reader for HeaderKey {
    type Out = Items<u8>;

    ghost reads = { λ _. header_key };

    #[tactic(auto, unfolding(crate::specs::Headers::header_key))]
    fn read(&self, alloc: Global, value: &Value, place: &Text) -> Result<Items<u8>, ReadFail> {
        let name = HeaderName.read(alloc, value, place)?;
        if is_reserved(name.as_bytes()) {
            return Err(refused_at(place.copy(alloc)?, Kind::BadText));
        }
        Ok(Items::from_slice(alloc, name.as_bytes())?)
    }
}

fn is_printed(byte: u8) -> bool
    ensures { result ≡ is_printed_code byte }
{
    matches!(byte, b' '..=b'~')
}

fn are_printed(text: &[u8]) -> bool
    ensures { result ≡ list_all is_printed_code text.now }
{
    text.iter().all(|byte| is_printed(*byte))
}

fn is_header_value(value: &[u8]) -> bool
    ensures { result ≡ is_value_of value.now }
{
    are_printed(value) && !value.starts_with(b" ".as_slice()) && !value.ends_with(b" ".as_slice())
}

/// The value of a header: printed bytes without a space at either end, else `BadText`. It may be empty.
#[derive(Drop)]
struct HeaderValue;

impl Reader for HeaderValue {
    type Out = Items<u8>;

    ghost reads = { λ _. header_value };

    #[tactic(auto, unfolding(crate::specs::Headers::header_value))]
    fn read(&self, alloc: Global, value: &Value, place: &Text) -> Result<Items<u8>, ReadFail> {
        let text = TextBytes.read(alloc, value, place)?;
        if is_header_value(text.as_slice()) {
            return Ok(text);
        }
        Err(refused_at(place.copy(alloc)?, Kind::BadText))
    }
}

/// A header of a test, by name and value.
#[derive(Drop)]
struct TestHeader;

impl Reader for TestHeader {
    type Out = (Items<u8>, Items<u8>);

    ghost reads = { λ _. header };

    #[tactic(auto, unfolding(crate::specs::Headers::header))]
    fn read(
        &self,
        alloc: Global,
        value: &Value,
        place: &Text,
    ) -> Result<(Items<u8>, Items<u8>), ReadFail> {
        const M: Message = Message::TestHeader;
        let names = members(alloc, value, place, M)?;
        let key = required(alloc, value, place, &names, M, 0, &HeaderKey)?;
        let text = optional(alloc, value, place, &names, M, 1, &HeaderValue)?;
        Ok((key, or_empty(alloc, text)))
    }
}

/// At most 1,000 headers.
#[derive(Drop)]
pub struct HeaderList;

impl Reader for HeaderList {
    type Out = Items<(Items<u8>, Items<u8>)>;

    ghost reads = { λ _. headers };

    #[tactic(auto, unfolding(crate::specs::Headers::headers))]
    fn read(
        &self,
        alloc: Global,
        value: &Value,
        place: &Text,
    ) -> Result<Items<(Items<u8>, Items<u8>)>, ReadFail> {
        read_list(alloc, value, place, Some(HEADER_LIMIT), &TestHeader)
    }
}
