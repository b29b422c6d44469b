// The request of a test.
ghost use Rattle.std.specs.Prelude.{◌≡◌, ◌<◌, true, [], length, get_or};
ghost use Rattle.std.specs.List.{list_all};
ghost use Rattle.text_base.specs.Asked.{Asked};
ghost use Rattle.text_base.specs.Requests.{is_header};
ghost use Rattle.json_tables.specs.declared.message.Message.TheVariants as messages;
ghost use Rattle.json_tables.specs.Fields.{fields};
ghost use Rattle.json_walk.specs.declared.refusal.Kind.TheVariants.{BadText};
ghost use Rattle.json_walk.specs.Outcome.{Gives, Fails, offence};
ghost use Rattle.json_walk.specs.Places.{under as place_under};
ghost use Rattle.test_read.specs.Inputs.{valid_request as valid_request_of};

use json_walk::{Kind, Message, ReadFail, field_place, refused_at};
use req_model::Request;
use std::alloc::Global;
use text_base::{BadRequest, Parts, Text};

/// That the input's field with this number breaks the rules of requests.
fn bad_field(alloc: Global, place: &Text, number: usize) -> ReadFail
    requires { number < length (fields messages.TestInput) }
    ensures { Fails result (offence {A = Asked} (place_under place.now (get_or (fields messages.TestInput) number [])) BadText) }
{
    match field_place(alloc, place, Message::TestInput, number) {
        Ok(at) => refused_at(at, Kind::BadText),
        Err(_) => ReadFail::OutOfMemory,
    }
}

/// The request of these parts, whose headers keep the rules. Another part that breaks them is `BadText` at its field of the
/// input at `place`, the first in the order authority, path, method, runtime.
#[tactic(auto, using(crate::proofs::InputFacts::refused_for), unfolding(crate::specs::Inputs::valid_request))]
pub fn valid_request(alloc: Global, place: &Text, parts: Parts) -> Result<Request, ReadFail>
    requires { list_all is_header parts.headers ≡ true }
    ensures { Gives (λ r. r) result (valid_request_of place.now parts) }
{
    match Request::new(alloc, parts) {
        Ok(request) => Ok(request),
        Err(BadRequest::Authority) => Err(bad_field(alloc, place, 0)),
        Err(BadRequest::Target) => Err(bad_field(alloc, place, 1)),
        Err(BadRequest::Method) => Err(bad_field(alloc, place, 2)),
        Err(BadRequest::Runtime) => Err(bad_field(alloc, place, 6)),
        Err(BadRequest::Header { .. }) => unreachable!(),
        Err(BadRequest::OutOfMemory) => Err(ReadFail::OutOfMemory),
    }
}
