// The files that a command reads whole and judges.
ghost use Rattle.std.specs.Prelude.{◌≡◌, List, ℕ, All, IsTrue, IfOk, OnOk, IfErr, codes};
ghost use Rattle.json_walk.specs.Outcome.{Outcome, Gives};
ghost use Rattle.cfg_types.specs.Lawful.{IsLawful};
ghost use Rattle.read_config.specs.Configs.{config_of};
ghost use Rattle.test_read.specs.Lawful.{IsLawfulTest};
ghost use Rattle.test_read.specs.Tests.{tests_of};
ghost use Rattle.check_core.specs.Outside.{outside, IsKept};
ghost use Rattle.check_core.specs.Inputs.{FileEnds};
ghost use Rattle.check_core.specs.Steps.{StepEnded, HoldsTold};

use crate::refusals::write_refusal;
use crate::status::Status;
use cfg_types::Config;
use json_walk::ReadFail;
use outside::{Files, Sink, read_whole};
use read_config::read_config;
use sqlite_items::Items;
use std::alloc::Global;
use test_read::{Test, read_tests};

/// The most bytes of a configuration or a test file.
pub const FILE_LIMIT: usize = 16_777_216;

/// A kind of input file: what its bytes stand for, and the word that refusals call it by.
pub trait InputFile {
    type Value;

    /// What bytes stand for, or their first offence.
    ghost outcome: { List ℕ → Outcome Self.Value };

    /// What a value that is read keeps.
    ghost is_lawful: { Self.Value → Type 0 };

    /// The word of its refusals.
    ghost called: { List ℕ };

    /// The word that refusals call such a file by.
    fn word(&self) -> &'static str
        ensures { result.now ≡ called };

    /// Reads the value that the bytes stand for.
    fn read(&self, alloc: Global, bytes: &[u8]) -> Result<Self::Value, ReadFail>
        ensures read { Gives (λ v. v) result (outcome bytes.now) }
        ensures lawful { IfOk result is_lawful };
}

/// A route configuration.
#[derive(Drop)]
pub struct ConfigFile;

impl InputFile for ConfigFile {
    type Value = Config;

    ghost outcome = { config_of };

    ghost is_lawful = { IsLawful };

    ghost called = { codes "config" };

    fn word(&self) -> &'static str {
        "config"
    }

    fn read(&self, alloc: Global, bytes: &[u8]) -> Result<Config, ReadFail> {
        read_config(alloc, bytes)
    }
}

/// A test file.
#[derive(Drop)]
pub struct TestFile;

impl InputFile for TestFile {
    type Value = Items<Test>;

    ghost outcome = { tests_of };

    ghost is_lawful = { All IsLawfulTest };

    ghost called = { codes "tests" };

    fn word(&self) -> &'static str {
        "tests"
    }

    fn read(&self, alloc: Global, bytes: &[u8]) -> Result<Items<Test>, ReadFail> {
        read_tests(alloc, bytes)
    }
}

/// Reads and judges a file. An `Err` has ended the run: what is due is written.
pub fn read_input<I: InputFile, F: Files, K: Sink>(
    alloc: Global,
    input: &I,
    name: &str,
    files: &mut F,
    out: &mut K,
) -> Result<I::Value, Status>
    requires { IsTrue ((F.state files.old).admits name.now) }
    ensures holds { IfOk result (HoldsTold I.outcome name.now (F.state files.old).told) }
    ensures lawful { IfOk result I.is_lawful }
    ensures same { OnOk result (outside (F.state files.new) (K.state out.new) ≡ outside (F.state files.old) (K.state out.old)) }
    ensures ended { IfErr result (StepEnded name.now (FileEnds I.outcome I.called name.now)
        (outside (F.state files.old) (K.state out.old)) (outside (F.state files.new) (K.state out.new))) }
    ensures names { (other : List ℕ) → (F.state files.new).admits other ≡ (F.state files.old).admits other }
    ensures kept { IsKept (outside (F.state files.old) (K.state out.old)) (outside (F.state files.new) (K.state out.new)) }
{
    let bytes = read_whole(alloc, files, name, FILE_LIMIT)?;
    match input.read(alloc, &bytes) {
        Ok(value) => Ok(value),
        Err(ReadFail::OutOfMemory) => Err(Status::NoMemory),
        Err(ReadFail::Refused(refusal)) => {
            write_refusal(alloc, input.word(), &refusal, out)?;
            Err(Status::Refused)
        }
    }
}
