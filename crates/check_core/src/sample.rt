// The command `sample`.
ghost use Rattle.std.specs.Prelude.{◌≡◌, ◌≤◌, ℕ, List, IfOk};
ghost use Rattle.serde_json.specs.View.{view};
ghost use Rattle.outside.specs.Contents.{Contents};
ghost use Rattle.outside.specs.States.{FilesState};
ghost use Rattle.outside.specs.Written.{Wrote};
ghost use Rattle.check_core.specs.Outside.{outside, IsKept};
ghost use Rattle.check_core.specs.Calls.{IsHostCount};
ghost use Rattle.check_core.specs.Run.{AreThere};
ghost use Rattle.check_core.specs.Rows.{summary_value as value_of_summary, summary_line};
ghost use Rattle.check_core.specs.Sample.{Samples, SampleBegins, default_budgets};
ghost use Rattle.check_core.specs.Words.{sample as sample_command};
ghost use Rattle.check_core.specs.Steps.{EndedEither};

use crate::calls::Budgets;
use crate::counts::Counts;
use crate::route_rows::write_rows;
use crate::status::Status;
use outside::{Sink, WriteFail, write_whole};
use sample_make::{lawful_law, make};
use serde_json::{Value, json};
use std::alloc::Global;
use test_run::line_of;
use text_base::OutOfMemory;

/// The budgets of `reach` without options.
fn usual_budgets() -> Budgets
    ensures { result ≡ default_budgets }
{
    Budgets {
        splits: 4_096,
        states: 1_000,
    }
}

fn summary_value(
    alloc: Global,
    hosts: u32,
    counts: Counts,
    routes: u32,
) -> Result<Value, OutOfMemory>
    ensures { IfOk result (λ v. view v ≡ value_of_summary hosts counts routes) }
{
    let reached = counts.reached;
    let refuted = counts.refuted;
    let undecided = counts.undecided;
    json!(in alloc; {"hosts": hosts, "reached": reached, "refuted": refuted, "routes": routes, "undecided": undecided})
}

/// Writes the line of so many hosts and all their rows.
#[tactic(auto, unfolding(crate::specs::Rows::summary_line))]
fn write_summary<K: Sink>(
    alloc: Global,
    hosts: u32,
    counts: Counts,
    routes: u32,
    out: &mut K,
) -> Result<(), WriteFail>
    ensures { Wrote (K.state out.old) (K.state out.new) (summary_line hosts counts routes) result }
{
    let value = summary_value(alloc, hosts, counts, routes)?;
    let line = line_of(alloc, &value)?;
    write_whole(out, &line)
}

/// Writes the rows of a configuration of so many hosts, and what they come to. No file is read. Either result is the status
/// of the run.
pub fn sample<K: Sink>(alloc: Global, hosts: u32, out: &mut K) -> Result<Status, Status>
    requires { IsHostCount hosts }
    ensures ended { (files : FilesState) → EndedEither (AreThere (sample_command hosts)) (Samples hosts) (SampleBegins hosts)
        (outside files (K.state out.old)) (outside files (K.state out.new)) result }
    ensures kept { (files : FilesState) → IsKept (outside files (K.state out.old)) (outside files (K.state out.new)) }
{
    lawful_law();
    let config = make(alloc, hosts)?;
    let counts = write_rows(alloc, &config, usual_budgets(), out)?;
    write_summary(alloc, hosts, counts, config.route_count(), out)?;
    Ok(Status::Done)
}
