// Calls of `reach`, `verify` and `sample`: words that are no call, and words that are one.
use crate::cases::{CONFIG, memory_files, memory_sink, two_files};
use check_core::{Status, run};
use std::alloc::Global;
use std::test::Fail;
use text_base::OutOfMemory;

/// The words of a line.
pub(crate) fn words_of(alloc: Global, line: &str) -> Result<Vec<String>, OutOfMemory> {
    let mut words = Vec::new(alloc);
    for word in line.split(' ') {
        words.push(String::from_str(alloc, word)?)?;
    }
    Ok(words)
}

/// The status of a run of a line's words over the files `c` and `t`, and the text that it writes.
pub(crate) fn told(
    alloc: Global,
    line: &str,
    config: &str,
    report: &str,
) -> Result<(Status, String), Fail> {
    let words = words_of(alloc, line)?;
    let mut files = memory_files(alloc, two_files(alloc, config, report)?);
    let mut sink = memory_sink(alloc, 4096);
    let status = run(alloc, &words, &mut files, &mut sink);
    let text = String::from_utf8(sink.bytes)?;
    Ok((status, text))
}

/// Two blanks have an empty word between them.
const NO_CALLS: &str = "check a
check a b --
check c t --splits=5
reach
reach  c
reach c t
reach c --
reach c --splits
reach c --splits=
reach c --splits=0
reach c --splits=07
reach c --splits=65537
reach c --splits=5 --splits=6
reach c --states=15
reach c --states=4097
reach c --states=+16
reach c --states=16 --states=16
reach c --fail-under=5
reach c --only-show-failures
verify
verify c
verify c  t
verify c t t
verify c t --
verify c t --splits=5
verify c t --only-show-failures
sample
sample 0
sample 05
sample 2001
sample three
sample -3
sample 3 3
sample 3 --states=16
Reach c
--splits=5 reach c";

/// Nothing is read and nothing is written.
#[test]
fn words_that_are_no_call(rt: HostRuntime) -> Result<(), Fail> {
    let alloc = rt.alloc();
    for line in NO_CALLS.lines() {
        let words = words_of(alloc, line)?;
        let mut files = memory_files(alloc, two_files(alloc, CONFIG, "")?);
        let mut sink = memory_sink(alloc, 4096);
        let status = run(alloc, &words, &mut files, &mut sink);
        assert!(rt; status == Status::Usage, "{line}");
        assert_eq!(rt; files.calls, 0, "{line}");
        assert_eq!(rt; sink.calls, 0, "{line}");
    }
    Ok(())
}

/// The least and the greatest budgets, options in front of a file, and files that aren't there.
#[test]
fn words_that_are_a_call(rt: HostRuntime) -> Result<(), Fail> {
    let rows = [
        ("reach c --splits=1 --states=16", Status::Done),
        ("reach --states=4096 c --splits=65536", Status::Done),
        ("verify c t", Status::Rejected),
        ("sample 1", Status::Done),
        ("reach absent", Status::ReadFault),
        ("verify absent t", Status::ReadFault),
        ("verify c absent", Status::ReadFault),
    ];
    for (line, status) in rows {
        let (ended, text) = told(rt.alloc(), line, CONFIG, "")?;
        assert!(rt; ended == status, "{line}");
        assert_eq!(rt; text.is_empty(), status == Status::ReadFault, "{line}");
    }
    Ok(())
}
