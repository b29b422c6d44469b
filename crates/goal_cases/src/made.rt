// Configurations and tests out of short texts.
ghost use Rattle.std.specs.Prelude.{All, IfOk};
ghost use Rattle.cfg_types.specs.Lawful.{IsLawful};
ghost use Rattle.test_read.specs.Lawful.{IsLawfulTest};

use cfg_types::Config;
use json_walk::ReadFail;
use read_config::read_config;
use sqlite_items::Items;
use std::alloc::Global;
use test_read::{Test, read_tests};
use text_base::OutOfMemory;

/// What a short name stands for: where a route leads, the input of a matcher by a header or a query parameter, and an
/// action of one route or of several.
fn long_form(name: &str) -> &str {
    match name {
        "to" => r#""direct_response":{"status":200}"#,
        "header" => {
            r#""input":{"typed_config":{"@type":"type.googleapis.com/envoy.type.matcher.v3.HttpRequestHeaderMatchInput","header_name""#
        }
        "query" => {
            r#""input":{"typed_config":{"@type":"type.googleapis.com/envoy.type.matcher.v3.HttpRequestQueryParamMatchInput","query_param""#
        }
        "route" => {
            r#""action":{"typed_config":{"@type":"type.googleapis.com/envoy.config.route.v3.Route","match""#
        }
        "routes" => {
            r#""action":{"typed_config":{"@type":"type.googleapis.com/envoy.config.route.v3.RouteList","routes""#
        }
        _ => name,
    }
}

/// The line with what its short names, which stand between two `$`, stand for.
fn expanded(alloc: Global, line: &str) -> Result<String, OutOfMemory> {
    let mut text = String::new(alloc);
    let mut is_name = false;
    for piece in line.split('$') {
        text.push_str(if is_name { long_form(piece) } else { piece })?;
        is_name = !is_name;
    }
    Ok(text)
}

/// What stands around the line of a configuration: nothing, or one host of all domains with the routes of the line, or with
/// its matcher.
fn frame_of(line: &str) -> (&'static str, &'static str) {
    if line.starts_with("{\"match\"") {
        (
            r#"{"virtual_hosts":[{"name":"h","domains":["*"],"routes":["#,
            "]}]}",
        )
    } else if line.starts_with("{\"matcher_") {
        (
            r#"{"virtual_hosts":[{"name":"h","domains":["*"],"matcher":"#,
            "}]}",
        )
    } else {
        ("", "")
    }
}

/// The configuration of a line.
pub(crate) fn config_of(alloc: Global, line: &str) -> Result<Config, ReadFail>
    ensures { IfOk result IsLawful }
{
    let text = expanded(alloc, line)?;
    let (before, after) = frame_of(line);
    let whole = format!(in alloc; "{before}{}{after}", text.as_str())?;
    read_config(alloc, whole.as_str().as_bytes())
}

/// The file of one test with this input.
pub(crate) fn tests_of(alloc: Global, input: &str) -> Result<Items<Test>, ReadFail>
    ensures { IfOk result (λ ts. All IsLawfulTest ts) }
{
    let before = r#"{"tests":[{"test_name":"t","input":"#;
    let after = r#","validate":{"cluster_name":""}}]}"#;
    let whole = format!(in alloc; "{before}{input}{after}")?;
    read_tests(alloc, whole.as_str().as_bytes())
}
