// The options of `check`: the least percentage of covered routes, and failures alone.
use crate::cases::{CONFIG, FAIL_LINES, FAILING, PASSING, outcome};
use check_core::Status;
use std::test::Fail;

/// Two routes, of which the passing test reaches the first.
const HALF: &str =
    r#"{"virtual_hosts":[{"name":"h","domains":["*"],"routes":[{"match":{"path":"/"},"route":{"cluster":"a"}},{"match":{"prefix":"/"},"route":{"cluster":"b"}}]}]}"#;

/// Half of the routes are 50 percent: that isn't less than 50, and is less than 51. No routes are all covered.
#[test]
fn routes_have_to_be_covered(rt: HostRuntime) -> Result<(), Fail> {
    let none = r#"{"virtual_hosts":[]}"#;
    let nowhere =
        r#"{"tests":[{"test_name":"t","input":{"authority":"x.com","path":"/"},"validate":{"cluster_name":""}}]}"#;
    let rows = [
        ("--fail-under=50", HALF, PASSING, Status::Done),
        ("--fail-under=51", HALF, PASSING, Status::TestsFailed),
        ("--fail-under=100", HALF, PASSING, Status::TestsFailed),
        ("--fail-under=100", CONFIG, PASSING, Status::Done),
        ("--fail-under=0", CONFIG, FAILING, Status::TestsFailed),
        ("--fail-under=100", none, nowhere, Status::Done),
    ];
    for (option, config, tests, status) in rows {
        let words = ["check", option, "c", "t"];
        let (ended, _) = outcome(rt.alloc(), &words, config, tests, 4096)?;
        assert!(rt; ended == status, "{option}");
    }
    Ok(())
}

const SUM_LINE: &str = "{\"covered\":1,\"failed\":0,\"routes\":1,\"tests\":1}\n";

/// A passing test goes untold, and the sums are of all tests.
#[test]
fn only_failures_are_shown(rt: HostRuntime) -> Result<(), Fail> {
    let rows = [
        (PASSING, Status::Done, SUM_LINE),
        (FAILING, Status::TestsFailed, FAIL_LINES),
    ];
    for (tests, status, lines) in rows {
        let words = ["check", "c", "--only-show-failures", "t"];
        let (ended, bytes) = outcome(rt.alloc(), &words, CONFIG, tests, 4096)?;
        assert_eq!(rt; bytes.as_slice(), lines.as_bytes());
        assert!(rt; ended == status);
    }
    Ok(())
}
