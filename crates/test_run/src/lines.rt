// The lines of `check`.
ghost use Rattle.std.specs.Prelude.{◌≡◌, ◌<◌, All, false, map, IfOk};
ghost use Rattle.serde_json.specs.View.{view};
ghost use Rattle.serde_json.specs.Written.{has_float};
ghost use Rattle.test_run.specs.Lines.{IsNamed, line_of as line_of_value, field_name as name_of_field, text_failure_value, header_failure_value, failure_value as value_of_failure, verdict_word, verdict_value as value_of_verdict, verdict_line as line_of_verdict, sum_line as line_of_sums, sum_value as value_of_sums};

use crate::verdicts::{Failure, Judged};
use serde_json::{Value, json};
use std::alloc::Global;
use test_read::Test;
use text_base::OutOfMemory;

/// The value as compact JSON on a line of its own, where it holds no float.
pub fn line_of(alloc: Global, value: &Value) -> Result<Vec<u8>, OutOfMemory>
    ensures { IfOk result (λ line. has_float (view value.now) ≡ false → line.items ≡ line_of_value (view value.now)) }
{
    let mut text = value.to_string(alloc)?;
    text.push_str("\n")?;
    Ok(text.into_bytes())
}

/// The name of what a test expects, by its number.
#[tactic(auto, unfolding(crate::specs::Lines::field_name, crate::specs::Lines::field_names))]
fn field_name(field: u8) -> &'static str
    requires { field < 8 }
    ensures { result.now ≡ name_of_field field }
{
    match field {
        0 => "cluster_name",
        1 => "virtual_cluster_name",
        2 => "virtual_host_name",
        3 => "host_rewrite",
        4 => "path_rewrite",
        5 => "path_redirect",
        6 => "request_header_matches",
        7 => "response_header_matches",
        _ => unreachable!(),
    }
}

fn failure_value(alloc: Global, failure: &Failure) -> Result<Value, OutOfMemory>
    requires { IsNamed failure.now }
    ensures { IfOk result (λ v. view v ≡ value_of_failure failure.now) }
{
    match failure {
        Failure::Text {
            field,
            expected,
            actual,
        } => text_value(
            alloc,
            field_name(*field),
            expected.as_str(),
            actual.as_str(),
        ),
        Failure::Header { field, index } => header_value(alloc, field_name(*field), *index),
    }
}

fn text_value(
    alloc: Global,
    field: &str,
    expected: &str,
    actual: &str,
) -> Result<Value, OutOfMemory>
    ensures { IfOk result (λ v. view v ≡ text_failure_value field.now expected.now actual.now) }
{
    json!(in alloc; {"actual": actual, "expected": expected, "field": field})
}

fn header_value(alloc: Global, field: &str, index: u32) -> Result<Value, OutOfMemory>
    ensures { IfOk result (λ v. view v ≡ header_failure_value field.now index) }
{
    json!(in alloc; {"field": field, "index": index})
}

fn failure_values(alloc: Global, failures: &[Failure]) -> Result<Vec<Value>, OutOfMemory>
    requires { All IsNamed failures.now }
    ensures { IfOk result (λ vs. map view vs.items ≡ map value_of_failure failures.now) }
{
    let mut values = Vec::new(alloc);
    for failure in failures {
        values.push(failure_value(alloc, failure)?)?;
    }
    Ok(values)
}

fn word_of(failures: &[Failure]) -> &'static str
    ensures { result.now ≡ verdict_word failures.now }
{
    match failures {
        [] => "pass",
        _ => "fail",
    }
}

/// The verdict on a test of this name with these failures.
fn verdict_value(alloc: Global, name: &str, failures: &[Failure]) -> Result<Value, OutOfMemory>
    requires { All IsNamed failures.now }
    ensures { IfOk result (λ v. view v ≡ value_of_verdict name.now failures.now) }
{
    let values = failure_values(alloc, failures)?;
    json!(in alloc; {"failures": values, "test": name, "verdict": word_of(failures)})
}

/// The line of a test with these failures, each of which names a field of its kind.
pub fn test_line(alloc: Global, test: &Test, judged: &Judged) -> Result<Vec<u8>, OutOfMemory>
    requires { All IsNamed judged.now.failures }
    ensures { IfOk result (λ line. line.items ≡ line_of_verdict test.now.name judged.now.failures) }
{
    let value = verdict_value(alloc, test.name.as_str(), judged.failures.as_slice())?;
    line_of(alloc, &value)
}

fn sum_value(
    alloc: Global,
    covered: u32,
    failed: u32,
    routes: u32,
    tests: u32,
) -> Result<Value, OutOfMemory>
    ensures { IfOk result (λ v. view v ≡ value_of_sums covered failed routes tests) }
{
    json!(in alloc; {"covered": covered, "failed": failed, "routes": routes, "tests": tests})
}

/// The line of all tests together: how many routes are covered, tests failed, and routes and tests there are.
#[tactic(auto, unfolding(crate::specs::Lines::sum_line))]
pub fn sum_line(
    alloc: Global,
    covered: u32,
    failed: u32,
    routes: u32,
    tests: u32,
) -> Result<Vec<u8>, OutOfMemory>
    ensures { IfOk result (λ line. line.items ≡ line_of_sums covered failed routes tests) }
{
    let value = sum_value(alloc, covered, failed, routes, tests)?;
    line_of(alloc, &value)
}
