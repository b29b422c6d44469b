//! Reads the tests of a test file.
#![tactic(auto)]

mod expectation;
mod file;
mod header;
mod input;
mod request;
mod test;

ghost use Rattle.std.specs.Prelude.{All, IfOk};
ghost use Rattle.json_walk.specs.Outcome.{Gives};
ghost use Rattle.test_read.specs.Tests.{tests_of};
ghost use Rattle.test_read.specs.Lawful.{IsLawfulTest};

use crate::file::test_file;
use json_walk::{ReadFail, Text, read_value};
use sqlite_items::Items;
use std::alloc::Global;
pub use test::{Expect, Test};

/// The tests that the bytes stand for, or their first offence: `Syntax` at the empty place where they are no JSON, else the
/// first in the order of the messages' tables. Each test is lawful. Takes memory for the JSON value and the tests.
#[tactic(auto, using(crate::proofs::TestFacts::of_file_given), unfolding(crate::specs::Tests::tests_of))]
pub fn read_tests(alloc: Global, bytes: &[u8]) -> Result<Items<Test>, ReadFail>
    ensures read { Gives (λ ts. ts) result (tests_of bytes.now) }
    ensures lawful { IfOk result (λ ts. All IsLawfulTest ts) }
{
    let value = read_value(alloc, bytes)?;
    let place = Text::of(alloc, "")?;
    test_file(alloc, &value, &place)
}
