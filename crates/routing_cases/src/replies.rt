// The reply to a request by a configuration, told whole, and tables of such replies.
ghost use Rattle.std.specs.Prelude.{All, IfOk};
ghost use Rattle.cfg_types.specs.Lawful.{IsLawful};
ghost use Rattle.test_read.specs.Lawful.{IsLawfulTest};

use cfg_types::{Config, Reply};
use json_walk::{ReadFail, Refusal};
use read_config::read_config;
use route_answer::answer;
use route_match::Scratch;
use route_scan::{Router, Scan, choose_by_rules, room_of, rule_tests};
use sqlite_items::Items;
use std::alloc::Global;
use std::test::Fail;
use test_read::{Test, read_tests};
use text_base::{Heads, OutOfMemory, Text};

/// The bytes as text.
fn text(bytes: &Items<u8>) -> Result<&str, Fail> {
    match str::from_utf8(bytes.as_slice()) {
        Ok(text) => Ok(text),
        Err(_) => Err(Fail::new("bytes that are no text")),
    }
}

/// The headers, each as `NAME=VALUE;`.
fn told_heads(alloc: Global, heads: &Heads) -> Result<String, Fail> {
    let mut told = String::new(alloc);
    for head in heads.list.as_slice() {
        told.push_str(text(&head.0)?)?;
        told.push_str("=")?;
        told.push_str(text(&head.1)?)?;
        told.push_str(";")?;
    }
    Ok(told)
}

/// Where a request is forwarded: the cluster, the virtual cluster, the host and the target.
fn told_way(
    alloc: Global,
    clusters: (&Text, &Text),
    authority: &Items<u8>,
    target: &Items<u8>,
) -> Result<String, Fail> {
    let (cluster, virtual_cluster) = (clusters.0.as_str(), clusters.1.as_str());
    let (host, target) = (text(authority)?, text(target)?);
    Ok(format!(in alloc; "{cluster} {virtual_cluster} {host} {target}")?)
}

/// The reply in words. Headers stand in brackets, those of the request before those of the response.
pub(crate) fn told(alloc: Global, reply: &Reply) -> Result<String, Fail> {
    match reply {
        Reply::NoHost => Ok(String::from_str(alloc, "no host")?),
        Reply::NoRoute { host } => Ok(format!(in alloc; "no route of {host}")?),
        Reply::Tls { host, url } => Ok(format!(in alloc; "https {host} {}", text(url)?)?),
        Reply::Forward {
            route,
            cluster,
            virtual_cluster,
            target,
            authority,
            request_headers,
            response_headers,
        } => {
            let way = told_way(alloc, (cluster, virtual_cluster), authority, target)?;
            let sent = told_heads(alloc, request_headers)?;
            let answered = told_heads(alloc, response_headers)?;
            Ok(format!(in alloc; "forward {route} {way} [{sent}] [{answered}]")?)
        }
        Reply::Redirect {
            route,
            code,
            url,
            response_headers,
        } => {
            let (url, answered) = (text(url)?, told_heads(alloc, response_headers)?);
            Ok(format!(in alloc; "redirect {route} {code} {url} [{answered}]")?)
        }
        Reply::Direct {
            route,
            status,
            response_headers,
        } => {
            let answered = told_heads(alloc, response_headers)?;
            Ok(format!(in alloc; "direct {route} {status} [{answered}]")?)
        }
    }
}

/// The kind and the place of an offence.
fn told_offence(alloc: Global, fail: ReadFail) -> Result<String, OutOfMemory> {
    match fail {
        ReadFail::Refused(Refusal { place, kind }) => {
            format!(in alloc; "{kind:?} {}", place.as_str())
        }
        ReadFail::OutOfMemory => Err(OutOfMemory),
    }
}

/// The configuration of a line: the line itself, or one host of all domains with the routes that the line lists.
pub(crate) fn config_of(alloc: Global, line: &str) -> Result<Config, ReadFail>
    ensures { IfOk result IsLawful }
{
    if !line.starts_with("{\"match\"") {
        return read_config(alloc, line.as_bytes());
    }
    let front = r#"{"virtual_hosts":[{"name":"h","domains":["*"],"routes":["#;
    let whole = format!(in alloc; "{front}{line}]}}]}}")?;
    read_config(alloc, whole.as_str().as_bytes())
}

/// The file of one test with this input.
pub(crate) fn tests_of(alloc: Global, input: &str) -> Result<Items<Test>, ReadFail>
    ensures { IfOk result (λ ts. All IsLawfulTest ts) }
{
    let front = r#"{"tests":[{"test_name":"t","input":"#;
    let behind = r#","validate":{"cluster_name":""}}]}"#;
    let whole = format!(in alloc; "{front}{input}{behind}")?;
    read_tests(alloc, whole.as_str().as_bytes())
}

fn reply_to(alloc: Global, config: &Config, test: &Test) -> Result<Reply, OutOfMemory>
    requires lawful { IsLawful config.now }
    requires asked { IsLawfulTest test.now }
{
    let scan = Scan::build(alloc, config)?;
    let tests = rule_tests(alloc, config)?;
    let mut scratch = Scratch::new(alloc, room_of(&tests).max(scan.room()))?;
    let choice = choose_by_rules(&scan, &tests, &test.request, &mut scratch);
    answer(alloc, config, choice, &test.request, &test.response)
}

/// The replies to these tests.
fn replies(alloc: Global, config: &Config, tests: &[Test]) -> Result<String, Fail>
    requires lawful { IsLawful config.now }
    requires asked { All IsLawfulTest tests.now }
{
    let mut replies = String::new(alloc);
    for test in tests {
        let reply = told(alloc, &reply_to(alloc, config, test)?)?;
        replies.push_str(reply.as_str())?;
    }
    Ok(replies)
}

/// The reply to this input by the configuration of this line, or the offence of the input.
pub(crate) fn reply_line(alloc: Global, config: &str, input: &str) -> Result<String, Fail> {
    let config = config_of(alloc, config)?;
    match tests_of(alloc, input) {
        Ok(tests) => replies(alloc, &config, tests.as_slice()),
        Err(fail) => Ok(told_offence(alloc, fail)?),
    }
}

/// Fails with the first row `REPLY <- INPUT` that isn't so by the configuration of the last line before it that is one.
pub(crate) fn all_hold(alloc: Global, table: &str) -> Result<(), Fail> {
    let mut config = "";
    for row in table.lines() {
        if row.starts_with("{") {
            config = row;
            continue;
        }
        let Some((want, input)) = row.split_once(" <- ") else {
            return Err(Fail::new(row));
        };
        let reply = reply_line(alloc, config, input)?;
        if reply.as_str() != want {
            return Err(Fail::new(row));
        }
    }
    Ok(())
}
