// Hosts by their domains.
use crate::replies::{config_of, reply_line};
use host_pick::Hosts;
use std::alloc::Global;
use std::test::Fail;
use text_base::OutOfMemory;

/// The configuration of hosts with these domains, each with one route.
fn config_text(alloc: Global, ignore_port: bool, hosts: &[&str]) -> Result<String, OutOfMemory> {
    let mut text = format!(in alloc;
        "{}{ignore_port}{}",
        r#"{"ignore_port_in_host_matching":"#, r#","virtual_hosts":["#
    )?;
    for (at, domains) in hosts.iter().enumerate() {
        let host = format!(in alloc;
            "{}{}{at}{}{domains}{}",
            if at == 0 { "" } else { "," },
            r#"{"name":""#,
            r#"","domains":["#,
            r#"],"routes":[{"match":{"prefix":"/"},"direct_response":{"status":200}}]}"#
        )?;
        text.push_str(host.as_str())?;
    }
    text.push_str("]}")?;
    Ok(text)
}

/// Whether the host of the row `HOST AUTHORITY` answers a request to the authority; no host does by `- AUTHORITY`.
fn row_holds(alloc: Global, config: &str, row: &str) -> Result<bool, Fail> {
    let (host, authority) = row.split_once(' ').ok_or("row")?;
    let input = format!(in alloc; "{}{authority}{}", r#"{"authority":""#, r#"","path":"/"}"#)?;
    let reply = reply_line(alloc, config, input.as_str())?;
    if host == "-" {
        return Ok(reply.as_str() == "no host");
    }
    let want = format!(in alloc; "direct {host} 200 []")?;
    Ok(reply.as_str() == want.as_str())
}

/// Fails with the first row that doesn't hold of hosts with these domains.
fn all_hold(alloc: Global, ignore_port: bool, hosts: &[&str], rows: &str) -> Result<(), Fail> {
    let config = config_text(alloc, ignore_port, hosts)?;
    for row in rows.lines() {
        if !row_holds(alloc, config.as_str(), row)? {
            return Err(Fail::new(row));
        }
    }
    Ok(())
}

const RANKS: &str = "1 baz-bar.foo.com
0 -bar.foo.com
2 FOO.com
3 .foo.com
3 foo.
0 x.FOO.Com
3 x.foo.com:80";

const KINDS: &str = "2 a.com
3 a.b.com
1 a.net
2 c.com
3 b.com
0 b.net";

/// Exact domains rank first, then those with `*` in front, the longer first, those with `*` behind, and `*`. Letter
/// case is no matter.
#[test]
fn domains_by_their_kind(rt: HostRuntime) -> Result<(), Fail> {
    let alloc = rt.alloc();
    let ranked = [
        r#""*.foo.com""#,
        r#""*-bar.foo.com""#,
        r#""foo.*""#,
        r#""*""#,
    ];
    all_hold(alloc, false, ranked.as_slice(), RANKS)?;
    let kinds = [
        r#""*""#,
        r#""a.*""#,
        r#""*.com","a.com""#,
        r#""A.b.com","b.com""#,
    ];
    all_hold(alloc, false, kinds.as_slice(), KINDS)?;
    all_hold(
        alloc,
        false,
        [r#""a.com""#, r#""a.com:80""#].as_slice(),
        "1 a.com:80\n- a.com:8080",
    )?;
    all_hold(alloc, false, &[], "- a")?;
    Ok(())
}

const PORTS: &str = "0 a.com
0 a.com:8080
0 a.com:
1 [::1]:80
1 [::1]
- [::2]
2 a:9:80
- a:9
- b.com";

/// A port is dropped where ports are ignored, if no bracket follows.
#[test]
fn domains_without_ports(rt: HostRuntime) -> Result<(), Fail> {
    let alloc = rt.alloc();
    let hosts = [r#""a.com""#, r#""[::1]""#, r#""*:9""#];
    all_hold(alloc, true, hosts.as_slice(), PORTS)?;
    all_hold(alloc, true, [r#""a.com""#].as_slice(), "- [::1]")?;
    all_hold(alloc, true, [r#""*""#].as_slice(), "0 :80")?;
    Ok(())
}

/// Hosts that no configuration has which is read: the last one has a domain of the second.
fn repeated(alloc: Global) -> Result<Hosts, Fail> {
    let first = config_text(
        alloc,
        false,
        [r#""*.com""#, r#""*b.com","x*""#, r#""*.b.com","xy*""#].as_slice(),
    )?;
    let last = config_text(alloc, false, [r#""*B.com""#].as_slice())?;
    let mut config = config_of(alloc, first.as_str())?;
    let more = config_of(alloc, last.as_str())?;
    config.hosts.append(more.hosts)?;
    Ok(Hosts::build(alloc, &config)?)
}

/// The earlier of two equal domains counts, and every text matches the lone `*`, the empty one too.
#[test]
fn hosts_that_are_not_read(rt: HostRuntime) -> Result<(), Fail> {
    let alloc = rt.alloc();
    let hosts = repeated(alloc)?;
    for (authority, host) in [
        ("a.b.com", 2),
        ("ab.com", 1),
        ("a.com", 0),
        ("xyz", 2),
        ("xy", 1),
    ] {
        assert_eq!(rt; hosts.pick(authority.as_bytes()), Some(host), "{authority}");
    }
    let every = config_of(alloc, r#"{"virtual_hosts":[{"name":"h","domains":["*"]}]}"#)?;
    assert_eq!(rt; Hosts::build(alloc, &every)?.pick(b"".as_slice()), Some(0));
    Ok(())
}
