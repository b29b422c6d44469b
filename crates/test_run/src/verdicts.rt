// In what the reply to the request of a test differs from what the test expects.
ghost use Rattle.std.specs.Prelude.{◌≡◌, ◌++◌, ◌<◌, ◌≤◌, All, length, IfOk, IfSome, OnOk};
ghost use Rattle.std.specs.Str.{IsUtf8};
ghost use Rattle.cfg_types.specs.Answers.{IsReply};
ghost use Rattle.cfg_types.specs.Lawful.{IsLawful};
ghost use Rattle.cfg_types.specs.Order.{routes};
ghost use Rattle.test_run.specs.Verdicts.{choice_at, cluster_in as cluster_of_reply, virtual_cluster_in as virtual_cluster_of_reply, route_in as route_of_reply, host_name as name_of_host, authority_in as authority_of_reply, target_in as target_of_reply, url_in as url_of_reply, text_failure, failures as failures_to, failures_of as failures_by, text_failures as text_failures_by, AreTexts};
ghost use Rattle.test_run.specs.Lines.{IsNamed};

use crate::headers::{judge, request_looked, response_looked};
use cfg_types::{Config, Reply};
use sqlite_items::Items;
use std::alloc::Global;
use test_read::Test;
use text_base::{OutOfMemory, Text};

/// In what a test fails: an expected text by the number of its field, or a header rule by that number and its own.
#[derive(Drop)]
pub enum Failure {
    Text {
        field: u8,
        expected: Text,
        actual: Text,
    },
    Header {
        field: u8,
        index: u32,
    },
}

/// The failures of a test, by the numbers of their fields. A test without any passes.
#[derive(Drop)]
pub struct Judged {
    pub failures: Items<Failure>,
}

/// The cluster where the request is forwarded, else the empty text.
fn cluster_in(answer: &Reply) -> &str
    ensures { result.now ≡ cluster_of_reply answer.now }
{
    match answer {
        Reply::Forward { cluster, .. } => cluster.as_str(),
        _ => "",
    }
}

/// The virtual cluster where the request is forwarded, else the empty text.
fn virtual_cluster_in(answer: &Reply) -> &str
    ensures { result.now ≡ virtual_cluster_of_reply answer.now }
{
    match answer {
        Reply::Forward {
            virtual_cluster,
            ..
        } => virtual_cluster.as_str(),
        _ => "",
    }
}

/// The number of the route where one is chosen.
fn route_in(answer: &Reply) -> Option<u32>
    ensures { result ≡ route_of_reply answer.now }
{
    match answer {
        Reply::NoHost | Reply::NoRoute { .. } | Reply::Tls { .. } => None,
        Reply::Forward { route, .. }
        | Reply::Redirect { route, .. }
        | Reply::Direct { route, .. } => Some(*route),
    }
}

/// The name of the host that owns this route, if there is one.
fn host_name(config: &Config, route: Option<u32>) -> &str
    requires within { IfSome route (λ n. n < length (routes config.now)) }
    requires lawful { IsLawful config.now }
    ensures { result.now ≡ name_of_host config.now route }
{
    let Some(route) = route else {
        return "";
    };
    match config.hosts.get(config.host_of(route) as usize) {
        Some(host) => host.name.as_str(),
        None => "",
    }
}

/// The final host where the request is forwarded, else nothing.
fn authority_in(answer: &Reply) -> &[u8]
    ensures { result.now ≡ authority_of_reply answer.now }
{
    match answer {
        Reply::Forward { authority, .. } => authority.as_slice(),
        _ => &[],
    }
}

/// The final target where the request is forwarded, else nothing.
fn target_in(answer: &Reply) -> &[u8]
    ensures { result.now ≡ target_of_reply answer.now }
{
    match answer {
        Reply::Forward { target, .. } => target.as_slice(),
        _ => &[],
    }
}

/// The whole URL of a redirect, one to https too, else nothing.
fn url_in(answer: &Reply) -> &[u8]
    ensures { result.now ≡ url_of_reply answer.now }
{
    match answer {
        Reply::Tls { url, .. } | Reply::Redirect { url, .. } => url.as_slice(),
        _ => &[],
    }
}

/// These bytes as text.
fn text_of(bytes: &[u8]) -> &str
    requires { IsUtf8 bytes.now }
    ensures { result.now ≡ bytes.now }
{
    match str::from_utf8(bytes) {
        Ok(text) => text,
        Err(_) => unreachable!(),
    }
}

/// Adds a failure where an expected text isn't the actual one.
fn compare(
    alloc: Global,
    failures: &mut Items<Failure>,
    field: u8,
    expected: &Option<Text>,
    actual: &str,
) -> Result<(), OutOfMemory>
    requires told { field ≤ 5 }
    requires named { All IsNamed failures.old }
    ensures more { OnOk result (failures.new ≡ failures.old ++ text_failure field expected.now actual.now) }
    ensures named { OnOk result (All IsNamed failures.new) }
{
    let Some(expected) = expected else {
        return Ok(());
    };
    if actual == expected.as_str() {
        return Ok(());
    }
    failures.push(Failure::Text {
        field,
        expected: expected.copy(alloc)?,
        actual: Text::of(alloc, actual)?,
    })
}

/// In which texts a test fails whose request gets this reply.
fn text_failures(
    alloc: Global,
    config: &Config,
    answer: &Reply,
    test: &Test,
) -> Result<Items<Failure>, OutOfMemory>
    requires texts { AreTexts answer.now }
    requires within { IfSome (route_of_reply answer.now) (λ n. n < length (routes config.now)) }
    requires lawful { IsLawful config.now }
    ensures failures { IfOk result (λ fs. fs ≡ text_failures_by config.now answer.now test.now) }
    ensures named { IfOk result (λ fs. All IsNamed fs) }
{
    let expect = &test.expect;
    let cluster = cluster_in(answer);
    let virtual_cluster = virtual_cluster_in(answer);
    let host = host_name(config, route_in(answer));
    let authority = text_of(authority_in(answer));
    let target = text_of(target_in(answer));
    let url = text_of(url_in(answer));
    let mut failures = Items::new(alloc);
    let all = &mut failures;
    compare(alloc, all, 0, &expect.cluster_name, cluster)?;
    compare(alloc, all, 1, &expect.virtual_cluster_name, virtual_cluster)?;
    compare(alloc, all, 2, &expect.virtual_host_name, host)?;
    compare(alloc, all, 3, &expect.host_rewrite, authority)?;
    compare(alloc, all, 4, &expect.path_rewrite, target)?;
    compare(alloc, all, 5, &expect.path_redirect, url)?;
    Ok(failures)
}

/// In what a test fails whose request gets this reply.
fn failures_of(
    alloc: Global,
    config: &Config,
    answer: &Reply,
    test: &Test,
) -> Result<Items<Failure>, OutOfMemory>
    requires texts { AreTexts answer.now }
    requires within { IfSome (route_of_reply answer.now) (λ n. n < length (routes config.now)) }
    requires lawful { IsLawful config.now }
    ensures failures { IfOk result (λ fs. fs ≡ failures_by config.now answer.now test.now) }
    ensures named { IfOk result (λ fs. All IsNamed fs) }
{
    let expect = &test.expect;
    let mut failures = text_failures(alloc, config, answer, test)?;
    let request = request_looked(alloc, test, answer)?;
    judge(
        alloc,
        &mut failures,
        6,
        expect.request_header_matches.as_slice(),
        &request,
    )?;
    let response = response_looked(alloc, test, answer)?;
    judge(
        alloc,
        &mut failures,
        7,
        expect.response_header_matches.as_slice(),
        &response,
    )?;
    Ok(failures)
}

/// In what a test fails, where `answer` is the reply to its request.
pub fn verdict(
    alloc: Global,
    test: &Test,
    config: &Config,
    answer: &Reply,
) -> Result<Judged, OutOfMemory>
    requires lawful { IsLawful config.now }
    requires answer { IsReply config.now (choice_at config.now test.now) test.now.request test.now.response.list answer.now }
    ensures failures { IfOk result (λ j. j.failures ≡ failures_to config.now test.now) }
    ensures named { IfOk result (λ j. All IsNamed j.failures) }
{
    // A request is valid by its type, so what the reply makes of it is text.
    test.request.parts();
    Ok(Judged {
        failures: failures_of(alloc, config, answer, test)?,
    })
}
