// The command `check`.
ghost use Rattle.std.specs.Prelude.{◌≡◌, ◌≤◌, List, ℕ, All, IsTrue, IfOk};
ghost use Rattle.cfg_types.specs.Lawful.{IsLawful};
ghost use Rattle.outside.specs.Written.{Wrote};
ghost use Rattle.route_scan.specs.Tests.{AreTestsOf, most_room};
ghost use Rattle.test_read.specs.Lawful.{IsLawfulTest};
ghost use Rattle.test_run.specs.Lines.{check_text};
ghost use Rattle.check_core.specs.Outside.{outside, IsKept};
ghost use Rattle.check_core.specs.Begun.{FrontOf};
ghost use Rattle.check_core.specs.Run.{IsDue, AreThere};
ghost use Rattle.check_core.specs.Check.{Checks, status_of as status_by, verdict};
ghost use Rattle.check_core.specs.Calls.{check_of};
ghost use Rattle.check_core.specs.Words.{check as check_command};
ghost use Rattle.check_core.specs.Steps.{EndedEither};

use crate::calls::CheckWords;
use crate::input::{ConfigFile, TestFile, read_input};
use crate::status::Status;
use crate::verdicts::{Sums, write_verdicts};
use cfg_types::Config;
use outside::{Files, Sink, WriteFail};
use route_match::{RouteTest, Scratch};
use route_scan::{Router, Scan, room_of, rule_tests};
use std::alloc::Global;
use test_read::Test;
use text_base::OutOfMemory;

/// Runs the tests of a test file over a configuration. Either result is the status of the run.
pub fn check<F: Files, K: Sink>(
    alloc: Global,
    words: &CheckWords<'_>,
    files: &mut F,
    out: &mut K,
) -> Result<Status, Status>
    requires { (name : List ℕ) → IsDue (check_command (check_of words.now)) (F.state files.old).told name →
        IsTrue ((F.state files.old).admits name) }
    ensures ended { EndedEither (AreThere (check_command (check_of words.now))) (Checks (check_of words.now)) (FrontOf (Checks (check_of words.now)))
        (outside (F.state files.old) (K.state out.old)) (outside (F.state files.new) (K.state out.new)) result }
    ensures kept { IsKept (outside (F.state files.old) (K.state out.old)) (outside (F.state files.new) (K.state out.new)) }
    ensures names { (name : List ℕ) → (F.state files.new).admits name ≡ (F.state files.old).admits name }
{
    let config = read_input(alloc, &ConfigFile, words.config, files, out)?;
    let tests = read_input(alloc, &TestFile, words.tests, files, out)?;
    let status = judge(alloc, words, &config, tests.as_slice(), out)?;
    Ok(status)
}

/// What routes the requests of tests: a scan of the configuration, the tests of its routes' rules, and room for these and for
/// walks through trees.
#[derive(Drop)]
struct Routing<'a> {
    scan: Scan<'a>,
    rules: Vec<RouteTest>,
    scratch: Scratch,
}

fn routing_of(alloc: Global, config: &Config) -> Result<Routing<'_>, OutOfMemory>
    ensures same { IfOk result (λ r. r.scan.table ≡ config.now) }
    ensures rules { IfOk result (λ r. AreTestsOf config.now r.rules.items) }
    ensures room { IfOk result (λ r. most_room r.rules.items ≤ r.scratch) }
    ensures walks { IfOk result (λ r. r.scan.room ≤ r.scratch) }
{
    let scan = Scan::build(alloc, config)?;
    let rules = rule_tests(alloc, config)?;
    let scratch = Scratch::new(alloc, room_of(&rules).max(scan.room()))?;
    Ok(Routing {
        scan,
        rules,
        scratch,
    })
}

/// The status that goes with these sums, where this percentage of the routes has to be covered.
fn status_of(percent: u32, sums: Sums) -> Status
    ensures { result ≡ status_by percent sums.failed sums.covered sums.routes }
{
    let covered = u64::from(sums.covered) * 100;
    if sums.failed > 0 || covered < u64::from(percent) * u64::from(sums.routes) {
        Status::TestsFailed
    } else {
        Status::Done
    }
}

/// Writes the verdicts. The status is that of the call.
fn judge<K: Sink>(
    alloc: Global,
    words: &CheckWords<'_>,
    config: &Config,
    tests: &[Test],
    out: &mut K,
) -> Result<Status, WriteFail>
    requires lawful { IsLawful config.now }
    requires asked { All IsLawfulTest tests.now }
    ensures text { Wrote (K.state out.old) (K.state out.new) (check_text words.now.only_failures config.now tests.now) result }
    ensures status { IfOk result (λ s. s ≡ verdict (check_of words.now) config.now tests.now) }
{
    let Routing {
        scan,
        rules,
        mut scratch,
    } = routing_of(alloc, config)?;
    let shown = words.only_failures;
    let sums = write_verdicts(
        alloc,
        config,
        &scan,
        &rules,
        &mut scratch,
        shown,
        tests,
        out,
    )?;
    Ok(status_of(words.fail_under, sums))
}
