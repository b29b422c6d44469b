// The input of a test: its request, and the headers of the response.
ghost use Rattle.std.specs.Prelude.{◌≡◌, IfOk, unwrap_or};
ghost use Rattle.serde_json.specs.View.{view};
ghost use Rattle.json_tables.specs.declared.message.Message.TheVariants as messages;
ghost use Rattle.json_walk.specs.Outcome.{Gives};
ghost use Rattle.json_walk.specs.Members.{names_of};
ghost use Rattle.json_walk.specs.Numbers.{count};
ghost use Rattle.test_read.specs.Inputs.{default_method, asked_line as asked_line_of, asked_flags as asked_flags_of, asked_parts as asked_parts_of, input};

use crate::header::{HeaderList, TextBytes};
use crate::request::valid_request;
use json_walk::{
    Message, Names, ReadFail, Reader, Text, Truth, count_of, members, optional, or_empty, required,
};
use req_model::Request;
use serde_json::Value;
use sqlite_items::Items;
use std::alloc::{AllocError, Global};
use text_base::{Heads, Parts};

/// A whole number of 64 bits without a sign.
#[derive(Drop)]
struct RandomValue;

impl Reader for RandomValue {
    type Out = u64;

    ghost reads = { λ _. count 0 18446744073709551615 };

    fn read(&self, alloc: Global, value: &Value, place: &Text) -> Result<u64, ReadFail> {
        count_of(alloc, value, place, 0, u64::MAX)
    }
}

#[tactic(auto, unfolding(crate::specs::Inputs::default_method))]
fn or_default(alloc: Global, method: Option<Items<u8>>) -> Result<Items<u8>, AllocError>
    ensures { IfOk result (λ m. m ≡ unwrap_or method default_method) }
{
    match method {
        Some(method) => Ok(method),
        None => Items::from_slice(alloc, b"GET".as_slice()),
    }
}

/// The authority, the target and the method, which is `GET` where none is named.
#[tactic(auto, unfolding(crate::specs::Inputs::asked_line))]
fn asked_line(
    alloc: Global,
    value: &Value,
    place: &Text,
    names: &Names,
) -> Result<(Items<u8>, Items<u8>, Items<u8>), ReadFail>
    requires { names.now.spelled.items ≡ names_of messages.TestInput (view value.now) }
    ensures { Gives (λ l. l) result (asked_line_of place.now (view value.now)) }
{
    const M: Message = Message::TestInput;
    let authority = required(alloc, value, place, names, M, 0, &TextBytes)?;
    let target = required(alloc, value, place, names, M, 1, &TextBytes)?;
    let method = optional(alloc, value, place, names, M, 2, &TextBytes)?;
    let method = or_default(alloc, method)?;
    Ok((authority, target, method))
}

/// Whether the request is internal, whether it comes over https, and its random value.
#[tactic(auto, unfolding(crate::specs::Inputs::asked_flags))]
fn asked_flags(
    alloc: Global,
    value: &Value,
    place: &Text,
    names: &Names,
) -> Result<(bool, bool, u64), ReadFail>
    requires { names.now.spelled.items ≡ names_of messages.TestInput (view value.now) }
    ensures { Gives (λ f. f) result (asked_flags_of place.now (view value.now)) }
{
    const M: Message = Message::TestInput;
    let internal = optional(alloc, value, place, names, M, 3, &Truth)?;
    let https = optional(alloc, value, place, names, M, 4, &Truth)?;
    let random = optional(alloc, value, place, names, M, 5, &RandomValue)?;
    Ok((
        internal.unwrap_or(false),
        https.unwrap_or(false),
        random.unwrap_or(0),
    ))
}

/// The parts of the request, of which only the headers are known to keep the rules.
#[tactic(auto, unfolding(crate::specs::Inputs::asked_parts))]
fn asked_parts(alloc: Global, value: &Value, place: &Text, names: &Names) -> Result<Parts, ReadFail>
    requires { names.now.spelled.items ≡ names_of messages.TestInput (view value.now) }
    ensures { Gives (λ q. q) result (asked_parts_of place.now (view value.now)) }
{
    const M: Message = Message::TestInput;
    let (authority, target, method) = asked_line(alloc, value, place, names)?;
    let (internal, https, random) = asked_flags(alloc, value, place, names)?;
    let runtime = optional(alloc, value, place, names, M, 6, &TextBytes)?;
    let headers = optional(alloc, value, place, names, M, 7, &HeaderList)?;
    Ok(Parts {
        authority,
        target,
        method,
        https,
        internal,
        headers: or_empty(alloc, headers),
        runtime: or_empty(alloc, runtime),
        random,
    })
}

/// The request of a test, and the headers of the response.
#[derive(Drop)]
pub struct Input;

impl Reader for Input {
    type Out = (Request, Heads);

    ghost reads = { λ _. input };

    #[tactic(auto, using(crate::proofs::InputFacts::heads_of_parts), unfolding(crate::specs::Inputs::input))]
    fn read(
        &self,
        alloc: Global,
        value: &Value,
        place: &Text,
    ) -> Result<(Request, Heads), ReadFail> {
        const M: Message = Message::TestInput;
        let names = members(alloc, value, place, M)?;
        let parts = asked_parts(alloc, value, place, &names)?;
        let response = optional(alloc, value, place, &names, M, 8, &HeaderList)?;
        let request = valid_request(alloc, place, parts)?;
        let list = or_empty(alloc, response);
        Ok((request, Heads { list }))
    }
}
