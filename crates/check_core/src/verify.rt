// The command `verify`.
ghost use Rattle.std.specs.Prelude.{◌≡◌, ◌<◌, ◌≤◌, ◌↔◌, List, ℕ, IsTrue, IfOk, IsErrOf, length};
ghost use Rattle.serde_json.specs.View.{view};
ghost use Rattle.outside.specs.Faults.{HasReadCause};
ghost use Rattle.outside.specs.Written.{Wrote};
ghost use Rattle.cfg_types.specs.Lawful.{IsLawful};
ghost use Rattle.cfg_types.specs.Order.{routes};
ghost use Rattle.goal_build.specs.Kept.{AreKept};
ghost use Rattle.check_core.specs.Outside.{outside, IsKept};
ghost use Rattle.check_core.specs.Begun.{NothingOrFrontOf};
ghost use Rattle.check_core.specs.Run.{AreThere, IsDue};
ghost use Rattle.check_core.specs.Verify.{IsRowLine, Verifies};
ghost use Rattle.check_core.specs.Verdicts.{verdict_value as value_of_verdict, verdict_line, verdict_status, IsVerdictOn, IsCutLong};
ghost use Rattle.check_core.specs.Calls.{verify_of};
ghost use Rattle.check_core.specs.Words.{verify as verify_command};
ghost use Rattle.check_core.specs.Steps.{EndedEither};

use crate::calls::VerifyWords;
use crate::input::{ConfigFile, read_input};
use crate::status::Status;
use cert_check::{SharedTables, check_goal_row};
use cert_rows::{RowFault, read_row};
use cfg_types::Config;
use goal_build::KeptGoals;
use outside::{FileFail, Files, Lines, Sink, WriteFail, write_whole};
use serde_json::{Value, json};
use std::alloc::Global;
use test_run::line_of;
use text_base::OutOfMemory;

/// The most bytes of a line of a report, its line feed not among them.
const LINE_LIMIT: usize = 67_108_864;

/// What is said of a report: how many rows it has where all are lawful, or the number of the first row at fault, from 1.
#[derive(Clone, Copy, Debug, Drop)]
enum Verdict {
    Accepted(u32),
    Rejected(u32),
}

fn verdict_value(alloc: Global, verdict: Verdict) -> Result<Value, OutOfMemory>
    ensures { IfOk result (λ v. view v ≡ value_of_verdict verdict) }
{
    match verdict {
        Verdict::Accepted(rows) => json!(in alloc; {"accepted": rows}),
        Verdict::Rejected(row) => json!(in alloc; {"rejected": row}),
    }
}

/// Writes the line of the verdict.
#[tactic(auto, unfolding(crate::specs::Verdicts::verdict_line))]
fn write_verdict<K: Sink>(alloc: Global, verdict: Verdict, out: &mut K) -> Result<(), WriteFail>
    ensures { Wrote (K.state out.old) (K.state out.new) (verdict_line verdict) result }
{
    let value = verdict_value(alloc, verdict)?;
    let line = line_of(alloc, &value)?;
    write_whole(out, &line)
}

/// Whether the line is a lawful row of the route of this number, which is below the count.
fn is_lawful_line(
    alloc: Global,
    config: &Config,
    goals: &mut KeptGoals,
    shared: &mut SharedTables,
    route: u32,
    line: &[u8],
) -> Result<bool, OutOfMemory>
    requires lawful { IsLawful config.now }
    requires within { route < length (routes config.now) }
    requires kept { AreKept config.now goals.old }
    ensures kept { AreKept config.now goals.new }
    ensures exact { IfOk result (λ yes. IsTrue yes ↔ IsRowLine config.now route line.now) }
{
    match read_row(alloc, line) {
        Ok(row) => {
            let goal = goals.goal(alloc, config, route)?;
            check_goal_row(alloc, config, route, &goal, shared, &row)
        }
        Err(RowFault::OutOfMemory) => Err(OutOfMemory),
        Err(_) => Ok(false),
    }
}

/// Judges each line of a report before the next one is read.
fn judge_report<F: Files>(
    alloc: Global,
    config: &Config,
    files: &mut F,
    name: &str,
) -> Result<Verdict, FileFail>
    requires lawful { IsLawful config.now }
    requires admitted { IsTrue ((F.state files.old).admits name.now) }
    ensures judged { IfOk result (IsVerdictOn config.now (F.state files.old).told name.now) }
    ensures long { IsErrOf result FileFail.TooLong → IsCutLong config.now (F.state files.old).told name.now }
    ensures contents { (F.state files.new).told ≡ (F.state files.old).told }
    ensures names { (other : List ℕ) → (F.state files.new).admits other ≡ (F.state files.old).admits other }
    ensures cause { HasReadCause (F.state files.old).faults (F.state files.new).faults result }
{
    let count = config.route_count();
    let mut lines = Lines::new(alloc)?;
    let mut goals = KeptGoals::new();
    let mut shared = SharedTables::new(alloc)?;
    for route in 0..count {
        let Some(line) = lines.next(alloc, files, name, LINE_LIMIT)? else {
            return Ok(Verdict::Rejected(route + 1));
        };
        if !is_lawful_line(alloc, config, &mut goals, &mut shared, route, &line)? {
            return Ok(Verdict::Rejected(route + 1));
        }
    }
    if lines.is_at_end(files, name)? {
        Ok(Verdict::Accepted(count))
    } else {
        Ok(Verdict::Rejected(count + 1))
    }
}

fn status_of(verdict: Verdict) -> Status
    ensures { result ≡ verdict_status verdict }
{
    match verdict {
        Verdict::Accepted(_) => Status::Done,
        Verdict::Rejected(_) => Status::Rejected,
    }
}

/// Tells whether a report's lines are lawful rows of a configuration's routes, one for each route in order. Either result is
/// the status of the run.
pub fn verify<F: Files, K: Sink>(
    alloc: Global,
    words: &VerifyWords<'_>,
    files: &mut F,
    out: &mut K,
) -> Result<Status, Status>
    requires { (name : List ℕ) → IsDue (verify_command (verify_of words.now)) (F.state files.old).told name →
        IsTrue ((F.state files.old).admits name) }
    ensures ended { EndedEither (AreThere (verify_command (verify_of words.now))) (Verifies (verify_of words.now)) (NothingOrFrontOf (Verifies (verify_of words.now)))
        (outside (F.state files.old) (K.state out.old)) (outside (F.state files.new) (K.state out.new)) result }
    ensures kept { IsKept (outside (F.state files.old) (K.state out.old)) (outside (F.state files.new) (K.state out.new)) }
    ensures names { (name : List ℕ) → (F.state files.new).admits name ≡ (F.state files.old).admits name }
{
    let config = read_input(alloc, &ConfigFile, words.config, files, out)?;
    let verdict = judge_report(alloc, &config, files, words.report)?;
    write_verdict(alloc, verdict, out)?;
    Ok(status_of(verdict))
}
