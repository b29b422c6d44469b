// Writes the lines of `check`.
ghost use Rattle.std.specs.Prelude.{◌≡◌, ◌≤◌, not, All, count_by, flat_map, IfOk, length};
ghost use Rattle.outside.specs.Written.{Wrote};
ghost use Rattle.cfg_types.specs.Lawful.{IsLawful};
ghost use Rattle.route_scan.specs.Tests.{AreTestsOf, most_room};
ghost use Rattle.cfg_types.specs.Conditions.{IsWithin};
ghost use Rattle.test_read.specs.Lawful.{IsLawfulTest};
ghost use Rattle.test_run.specs.Verdicts.{choice_at as choice_of_test, choices as choices_of, passes, failed as failed_in};
ghost use Rattle.test_run.specs.Lines.{shown_line, check_text, sum_line as line_of_sums};
ghost use Rattle.check_core.specs.Sums.{AreSums};
ghost use Rattle.cfg_types.specs.Order.{routes as routes_of};

use cfg_types::{Choice, Config};
use outside::{Sink, WriteFail, write_whole};
use route_answer::answer;
use route_match::{RouteTest, Scratch};
use route_scan::{Scan, choose_by_rules};
use std::alloc::Global;
use test_read::Test;
use test_run::{count_covered, sum_line, test_line, verdict};
use text_base::OutOfMemory;

/// What is shown of a test whose request has this choice, and whether it passes: its line, or nothing where it passes and
/// only failures are shown.
fn judged_line(
    alloc: Global,
    config: &Config,
    choice: Choice,
    test: &Test,
    only_failures: bool,
) -> Result<(Vec<u8>, bool), OutOfMemory>
    requires choice { choice ≡ choice_of_test config.now test.now }
    requires within { IsWithin choice (length (routes_of config.now)) }
    requires lawful { IsLawful config.now }
    requires asked { IsLawfulTest test.now }
    ensures line { IfOk result (λ l. l.0.items ≡ shown_line only_failures config.now test.now) }
    ensures passes { IfOk result (λ l. l.1 ≡ passes config.now test.now) }
{
    let answer = answer(alloc, config, choice, &test.request, &test.response)?;
    let judged = verdict(alloc, test, config, &answer)?;
    let passed = judged.failures.is_empty();
    if only_failures && passed {
        return Ok((Vec::new(alloc), true));
    }
    Ok((test_line(alloc, test, &judged)?, passed))
}

/// Writes what is shown of a test whose request has this choice. The result says whether the test passes.
fn write_test<K: Sink>(
    alloc: Global,
    config: &Config,
    choice: Choice,
    test: &Test,
    only_failures: bool,
    out: &mut K,
) -> Result<bool, WriteFail>
    requires choice { choice ≡ choice_of_test config.now test.now }
    requires within { IsWithin choice (length (routes_of config.now)) }
    requires lawful { IsLawful config.now }
    requires asked { IsLawfulTest test.now }
    ensures line { Wrote (K.state out.old) (K.state out.new) (shown_line only_failures config.now test.now) result }
    ensures passes { IfOk result (λ p. p ≡ passes config.now test.now) }
{
    let (line, passed) = judged_line(alloc, config, choice, test, only_failures)?;
    write_whole(out, &line)?;
    Ok(passed)
}

/// How many tests failed, and where each test's request was sent.
#[derive(Drop)]
struct Verdicts {
    failed: usize,
    choices: Vec<Choice>,
}

/// Writes what is shown of each test. `rules` are the tests of the routes' rules, for which the scratch has room.
fn write_tests<K: Sink>(
    alloc: Global,
    config: &Config,
    scan: &Scan<'_>,
    rules: &[RouteTest],
    scratch: &mut Scratch,
    only_failures: bool,
    tests: &[Test],
    out: &mut K,
) -> Result<Verdicts, WriteFail>
    requires same { scan.now.table ≡ config.now }
    requires lawful { IsLawful config.now }
    requires rules { AreTestsOf config.now rules.now }
    requires room { most_room rules.now ≤ scratch.old }
    requires walks { scan.now.room ≤ scratch.old }
    requires asked { All IsLawfulTest tests.now }
    ensures lines { Wrote (K.state out.old) (K.state out.new) (flat_map (shown_line only_failures config.now) tests.now) result }
    ensures failed { IfOk result (λ v. v.failed ≡ count_by (λ t. not (passes config.now t)) tests.now) }
    ensures choices { IfOk result (λ v. v.choices.items ≡ choices_of config.now tests.now) }
{
    let mut failed = 0;
    let mut choices = Vec::new(alloc);
    for test in tests {
        let choice = choose_by_rules(scan, rules, &test.request, scratch);
        choices.push(choice)?;
        let passed = write_test(alloc, config, choice, test, only_failures, out)?;
        if !passed {
            failed += 1;
        }
    }
    Ok(Verdicts { failed, choices })
}

/// A count as 32 bits; a greater one is answered as out of memory.
fn count_of(count: usize) -> Result<u32, OutOfMemory>
    ensures { IfOk result (λ n. n ≡ count) }
{
    u32::try_from(count).map_err(|_| OutOfMemory)
}

/// What all tests together come to: the covered routes, the failed tests, and all routes.
#[derive(Clone, Copy)]
pub struct Sums {
    pub covered: u32,
    pub failed: u32,
    pub routes: u32,
}

#[tactic(auto, unfolding(test_run::specs::Coverage::covered, test_run::specs::Verdicts::failed))]
fn sums_of(
    alloc: Global,
    config: &Config,
    scan: &Scan<'_>,
    tests: &[Test],
    verdicts: &Verdicts,
) -> Result<Sums, OutOfMemory>
    requires same { scan.now.table ≡ config.now }
    requires failed { verdicts.now.failed ≡ failed_in config.now tests.now }
    requires choices { verdicts.now.choices.items ≡ choices_of config.now tests.now }
    ensures { IfOk result (AreSums config.now tests.now) }
{
    let routes = scan.count();
    Ok(Sums {
        covered: count_covered(alloc, &verdicts.choices, routes)?,
        failed: count_of(verdicts.failed)?,
        routes,
    })
}

/// The line of all tests together.
fn line_of_all(alloc: Global, sums: Sums, tests: &[Test]) -> Result<Vec<u8>, OutOfMemory>
    ensures { IfOk result (λ line. line.items ≡ line_of_sums sums.covered sums.failed sums.routes (length tests.now)) }
{
    let asked = count_of(tests.len())?;
    sum_line(alloc, sums.covered, sums.failed, sums.routes, asked)
}

/// Writes what is shown of all tests, and the sum line.
#[tactic(auto, unfolding(test_run::specs::Verdicts::failed))]
pub fn write_verdicts<K: Sink>(
    alloc: Global,
    config: &Config,
    scan: &Scan<'_>,
    rules: &[RouteTest],
    scratch: &mut Scratch,
    only_failures: bool,
    tests: &[Test],
    out: &mut K,
) -> Result<Sums, WriteFail>
    requires same { scan.now.table ≡ config.now }
    requires lawful { IsLawful config.now }
    requires rules { AreTestsOf config.now rules.now }
    requires room { most_room rules.now ≤ scratch.old }
    requires walks { scan.now.room ≤ scratch.old }
    requires asked { All IsLawfulTest tests.now }
    ensures lines { Wrote (K.state out.old) (K.state out.new) (check_text only_failures config.now tests.now) result }
    ensures sums { IfOk result (AreSums config.now tests.now) }
{
    let verdicts = write_tests(
        alloc,
        config,
        scan,
        rules,
        scratch,
        only_failures,
        tests,
        out,
    )?;
    let sums = sums_of(alloc, config, scan, tests, &verdicts)?;
    let line = line_of_all(alloc, sums, tests)?;
    write_whole(out, &line)?;
    Ok(sums)
}
