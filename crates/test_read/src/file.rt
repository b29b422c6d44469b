// A test file, and each of its tests.
ghost use Rattle.serde_json.specs.View.{view};
ghost use Rattle.json_walk.specs.Outcome.{Gives};
ghost use Rattle.test_read.specs.Tests.{test_entry, test_file as test_file_of};

use crate::expectation::Validate;
use crate::input::Input;
use crate::test::Test;
use json_walk::{AnyText, ListOf, Message, ReadFail, Reader, Text, members, required};
use serde_json::Value;
use sqlite_items::Items;
use std::alloc::Global;

/// A test.
#[derive(Drop)]
struct TestReader;

impl Reader for TestReader {
    type Out = Test;

    ghost reads = { λ _. test_entry };

    #[tactic(auto, unfolding(crate::specs::Tests::test_entry))]
    fn read(&self, alloc: Global, value: &Value, place: &Text) -> Result<Test, ReadFail> {
        const M: Message = Message::Test;
        let names = members(alloc, value, place, M)?;
        let name = required(alloc, value, place, &names, M, 0, &AnyText)?;
        let (request, response) = required(alloc, value, place, &names, M, 1, &Input)?;
        let expect = required(alloc, value, place, &names, M, 2, &Validate)?;
        Ok(Test {
            name,
            request,
            response,
            expect,
        })
    }
}

/// The tests of the test file at `place`, or its first offence.
#[tactic(auto, unfolding(crate::specs::Tests::test_file))]
pub fn test_file(alloc: Global, value: &Value, place: &Text) -> Result<Items<Test>, ReadFail>
    ensures { Gives (λ ts. ts) result (test_file_of place.now (view value.now)) }
{
    const M: Message = Message::TestFile;
    let names = members(alloc, value, place, M)?;
    let tests = ListOf {
        most: None,
        element: TestReader,
    };
    required(alloc, value, place, &names, M, 0, &tests)
}
