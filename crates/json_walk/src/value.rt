// From bytes to a JSON value.
ghost use Rattle.serde_json.specs.View.{view};
ghost use Rattle.json_walk.specs.Outcome.{Gives};
ghost use Rattle.json_walk.specs.Bytes.{value_at};

use crate::refusal::{Kind, ReadFail, refused};
use serde_json::Value;
use std::alloc::Global;

/// The JSON value that the bytes are. Bytes that are none are refused as `Syntax` at the empty place.
#[tactic(auto, using(crate::proofs::Utf8::is_value, crate::proofs::Utf8::is_none))]
pub fn read_value(alloc: Global, bytes: &[u8]) -> Result<Value, ReadFail>
    ensures { Gives view result (value_at bytes.now) }
{
    match Value::from_slice(alloc, bytes) {
        Ok(value) => Ok(value),
        Err(error) => {
            if error.is_memory() {
                return Err(ReadFail::OutOfMemory);
            }
            Err(refused(alloc, Kind::Syntax))
        }
    }
}
