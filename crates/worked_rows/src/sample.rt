// What `sample` writes: the rows that `reach` writes of the same hosts, and a line of what they come to.
use crate::calls::told;
use crate::reach::{accepts, have_verdicts};
use check_core::Status;
use std::alloc::Global;
use std::test::Fail;
use text_base::OutOfMemory;

/// The host of this number. The second of its routes lies behind the first.
fn host(alloc: Global, number: u32) -> Result<String, OutOfMemory> {
    format!(in alloc;
        "{}{number}{}{number}{}{number}{}",
        r#"{"name":"s"#,
        r#"","domains":["h"#,
        r#".test"],"routes":[{"match":{"prefix":"/a"},"route":{"cluster":"c"}},{"match":{"path":"/a/x"},"route":{"cluster":"c"}},{"match":{"prefix":"/","headers":[{"name":"x-k","exact_match":""#,
        r#""}]},"route":{"cluster":"c"}},{"match":{"path_separated_prefix":"/s"},"route":{"cluster":"c"}},{"match":{"prefix":"/"},"route":{"cluster":"c"}}]}"#
    )
}

fn three_hosts(alloc: Global) -> Result<String, OutOfMemory> {
    let first = host(alloc, 0)?;
    let second = host(alloc, 1)?;
    let third = host(alloc, 2)?;
    format!(in alloc;
        "{}{first},{second},{third}{}",
        r#"{"virtual_hosts":["#, "]}"
    )
}

const VERDICTS: &str =
    "reached refuted reached reached reached reached refuted reached reached reached reached refuted reached reached reached";

const SUMMARY: &str = "{\"hosts\":3,\"reached\":12,\"refuted\":3,\"routes\":15,\"undecided\":0}\n";

#[test]
fn three_hosts_have_fifteen_rows(rt: HostRuntime) -> Result<(), Fail> {
    let alloc = rt.alloc();
    let (status, text) = told(alloc, "sample 3", "", "")?;
    assert!(rt; status == Status::Done);
    let Some(rows) = text.strip_suffix(SUMMARY) else {
        return Err(Fail::new(text.as_str()));
    };
    assert!(rt; have_verdicts(rows, VERDICTS), "{rows}");
    let config = three_hosts(alloc)?;
    assert!(rt; accepts(alloc, config.as_str(), rows, 15)?);
    let (_, same) = told(alloc, "reach c", config.as_str(), "")?;
    assert_eq!(rt; rows, same.as_str());
    Ok(())
}
