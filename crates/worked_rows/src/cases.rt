// What `check` writes and how it ends.

use check_core::{MemoryFiles, MemorySink, Status, run};
use std::alloc::Global;
use std::test::Fail;
use text_base::{OutOfMemory, Text};

pub(crate) const CONFIG: &str =
    "{\"virtual_hosts\":[{\"name\":\"h\",\"domains\":[\"*\"],\"routes\":[{\"match\":{\"prefix\":\"/\"},\"route\":{\"cluster\":\"a\"}}]}]}";

pub(crate) const PASSING: &str =
    "{\"tests\":[{\"test_name\":\"t\",\"input\":{\"authority\":\"x.com\",\"path\":\"/\"},\"validate\":{\"cluster_name\":\"a\"}}]}";

pub(crate) const FAILING: &str =
    "{\"tests\":[{\"test_name\":\"t\",\"input\":{\"authority\":\"x.com\",\"path\":\"/\"},\"validate\":{\"cluster_name\":\"b\"}}]}";

const EXPECTS_NOTHING: &str =
    "{\"tests\":[{\"test_name\":\"t\",\"input\":{\"authority\":\"x.com\",\"path\":\"/\"},\"validate\":{\"cluster_name\":\"\"}}]}";

pub(crate) const PASS_LINES: &str =
    "{\"failures\":[],\"test\":\"t\",\"verdict\":\"pass\"}\n{\"covered\":1,\"failed\":0,\"routes\":1,\"tests\":1}\n";

pub(crate) const FAIL_LINES: &str =
    "{\"failures\":[{\"actual\":\"a\",\"expected\":\"b\",\"field\":\"cluster_name\"}],\"test\":\"t\",\"verdict\":\"fail\"}\n{\"covered\":1,\"failed\":1,\"routes\":1,\"tests\":1}\n";

/// A map of the two files `c` and `t`.
pub(crate) fn two_files(
    alloc: Global,
    config: &str,
    tests: &str,
) -> Result<Vec<(Text, Vec<u8>)>, OutOfMemory> {
    let mut map = Vec::new(alloc);
    map.push((Text::of(alloc, "c")?, config.as_bytes().to_vec(alloc)?))?;
    map.push((Text::of(alloc, "t")?, tests.as_bytes().to_vec(alloc)?))?;
    Ok(map)
}

/// The words of a list.
pub(crate) fn words(alloc: Global, list: &[&str]) -> Result<Vec<String>, OutOfMemory> {
    let mut words = Vec::new(alloc);
    for word in list {
        words.push(String::from_str(alloc, *word)?)?;
    }
    Ok(words)
}

/// Files that never fail while a name is there.
pub(crate) fn memory_files(alloc: Global, map: Vec<(Text, Vec<u8>)>) -> MemoryFiles {
    MemoryFiles {
        map,
        calls: 0,
        failing: Vec::new(alloc),
        faults: 0,
    }
}

/// A sink that never fails and takes so many bytes at once.
pub(crate) fn memory_sink(alloc: Global, most: usize) -> MemorySink {
    MemorySink {
        bytes: Vec::new(alloc),
        most,
        calls: 0,
        failing: Vec::new(alloc),
        faults: 0,
    }
}

/// The status of a run of these words over two files, and what it writes.
pub(crate) fn outcome(
    alloc: Global,
    list: &[&str],
    config: &str,
    tests: &str,
    most: usize,
) -> Result<(Status, Vec<u8>), OutOfMemory> {
    let words = words(alloc, list)?;
    let mut files = memory_files(alloc, two_files(alloc, config, tests)?);
    let mut sink = memory_sink(alloc, most);
    let status = run(alloc, &words, &mut files, &mut sink);
    Ok((status, sink.bytes))
}

/// Configurations and test files with the status and the lines that are due.
#[test]
fn verdicts_and_a_refusal(rt: HostRuntime) -> Result<(), Fail> {
    let alloc = rt.alloc();
    let none = "{\"virtual_hosts\":[]}";
    let nothing_covered =
        "{\"failures\":[],\"test\":\"t\",\"verdict\":\"pass\"}\n{\"covered\":0,\"failed\":0,\"routes\":0,\"tests\":1}\n";
    let cut = "{\"virtual_hosts\":[{\"name\":\"h";
    let rows = [
        ("passing", CONFIG, PASSING, Status::Done, PASS_LINES),
        ("failing", CONFIG, FAILING, Status::TestsFailed, FAIL_LINES),
        (
            "no host",
            none,
            EXPECTS_NOTHING,
            Status::Done,
            nothing_covered,
        ),
        (
            "cut",
            cut,
            PASSING,
            Status::Refused,
            "{\"kind\":\"Syntax\",\"place\":\"\",\"refused\":\"config\"}\n",
        ),
    ];
    for (name, config, tests, status, lines) in rows {
        let (ended, bytes) = outcome(alloc, &["check", "c", "t"], config, tests, 4096)?;
        assert!(rt; ended == status, "the status of {name}");
        assert_eq!(rt; bytes.as_slice(), lines.as_bytes(), "the lines of {name}");
    }
    Ok(())
}

/// A sink that takes one byte at a time gets the same lines.
#[test]
fn a_byte_at_a_time(rt: HostRuntime) -> Result<(), Fail> {
    let (status, bytes) = outcome(rt.alloc(), &["check", "c", "t"], CONFIG, PASSING, 1)?;
    assert!(rt; status == Status::Done);
    assert_eq!(rt; bytes.as_slice(), PASS_LINES.as_bytes());
    Ok(())
}

/// Words that are no call write nothing.
#[test]
fn words_that_are_no_call(rt: HostRuntime) -> Result<(), Fail> {
    let alloc = rt.alloc();
    let lists: [&[&str]; 12] = [
        &[],
        &["check"],
        &["check", "c"],
        &["check", "c", "t", "--"],
        &["check", "", "t"],
        &["check", "c", "-t"],
        &["chek", "c", "t"],
        &["--fail-under=0", "check", "c", "t"],
        &["check", "c", "t", "--fail-under=101"],
        &["check", "c", "t", "--fail-under=05"],
        &["check", "c", "t", "--fail-under=5", "--fail-under=5"],
        &["check", "c", "t", "--only-show-failures=true"],
    ];
    for list in lists {
        let (status, bytes) = outcome(alloc, list, CONFIG, PASSING, 4096)?;
        assert!(rt; status == Status::Usage);
        assert!(rt; bytes.is_empty());
    }
    Ok(())
}

/// Exact domains rank before `*` without letter case, routes go in order, and each covered route counts once.
#[test]
fn hosts_routes_and_coverage(rt: HostRuntime) -> Result<(), Fail> {
    let config =
        "{\"virtual_hosts\":[{\"name\":\"any\",\"domains\":[\"*\"],\"routes\":[{\"match\":{\"path\":\"/x\"},\"route\":{\"cluster\":\"x\"}},{\"match\":{\"prefix\":\"/\"},\"route\":{\"cluster\":\"rest\"}},{\"match\":{\"prefix\":\"/never\"},\"route\":{\"cluster\":\"never\"}}]},{\"name\":\"own\",\"domains\":[\"A.com\"],\"routes\":[{\"match\":{\"prefix\":\"/a\"},\"route\":{\"cluster\":\"own\"}}]}]}";
    let tests =
        "{\"tests\":[{\"test_name\":\"1\",\"input\":{\"authority\":\"b.com\",\"path\":\"/x?y\"},\"validate\":{\"cluster_name\":\"x\"}},{\"test_name\":\"2\",\"input\":{\"authority\":\"b.com\",\"path\":\"/x/y\"},\"validate\":{\"cluster_name\":\"rest\"}},{\"test_name\":\"3\",\"input\":{\"authority\":\"a.COM\",\"path\":\"/a\"},\"validate\":{\"cluster_name\":\"own\"}},{\"test_name\":\"4\",\"input\":{\"authority\":\"a.com\",\"path\":\"/b\"},\"validate\":{\"cluster_name\":\"\"}},{\"test_name\":\"5\",\"input\":{\"authority\":\"b.com\",\"path\":\"/never\"},\"validate\":{\"cluster_name\":\"never\"}}]}";
    let lines =
        "{\"failures\":[],\"test\":\"1\",\"verdict\":\"pass\"}\n{\"failures\":[],\"test\":\"2\",\"verdict\":\"pass\"}\n{\"failures\":[],\"test\":\"3\",\"verdict\":\"pass\"}\n{\"failures\":[],\"test\":\"4\",\"verdict\":\"pass\"}\n{\"failures\":[{\"actual\":\"rest\",\"expected\":\"never\",\"field\":\"cluster_name\"}],\"test\":\"5\",\"verdict\":\"fail\"}\n{\"covered\":3,\"failed\":1,\"routes\":4,\"tests\":5}\n";
    let (status, bytes) = outcome(rt.alloc(), &["check", "c", "t"], config, tests, 4096)?;
    assert_eq!(rt; bytes.as_slice(), lines.as_bytes());
    assert!(rt; status == Status::TestsFailed);
    Ok(())
}
