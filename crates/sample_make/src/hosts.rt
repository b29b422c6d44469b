// The hosts of the sample.
ghost use Rattle.std.specs.Prelude.{◌≡◌, ◌≤◌, IfOk};
ghost use Rattle.sample_make.specs.Samples.{sample_host, made};

use crate::routes::{no_edits, routes_of};
use cfg_types::{Body, Config, Domain, Host, Tls};
use sqlite_items::Items;
use std::alloc::Global;
use text_base::{OutOfMemory, Text};

/// The host of this number.
fn host_of(alloc: Global, number: u32) -> Result<Host, OutOfMemory>
    ensures { IfOk result (λ h. h ≡ sample_host number) }
{
    let name = format!(in alloc; "s{number}")?;
    let domain = format!(in alloc; "h{number}.test")?;
    let mut domains = Items::new(alloc);
    domains.push(Domain::Exact(Text::of(alloc, domain.as_str())?))?;
    Ok(Host {
        name: Text::of(alloc, name.as_str())?,
        domains,
        body: Body::List(routes_of(alloc, number)?),
        tls: Tls::No,
        clusters: Items::new(alloc),
        edits: no_edits(alloc),
    })
}

/// The sample configuration of `count` hosts, from 1 to 2,000. Host i is named `s` and i, and has the one domain `h`, i
/// and `.test`, and five routes to the cluster `c`: with the prefix `/a`; with the path `/a/x`, whose requests the first
/// route takes; with any path and the header `x-k` equal to i; with the separated path prefix `/s`; and with any path. Its
/// only error is that memory runs out.
pub fn make(alloc: Global, count: u32) -> Result<Config, OutOfMemory>
    requires some { 1 ≤ count }
    requires few { count ≤ 2000 }
    ensures { IfOk result (λ c. c ≡ made count) }
{
    let mut hosts = Items::new(alloc);
    for number in 0..count {
        hosts.push(host_of(alloc, number)?)?;
    }
    Ok(Config {
        name: Text::of(alloc, "")?,
        hosts,
        edits: no_edits(alloc),
        specific_wins: false,
        ignore_port: false,
        ignore_params: false,
    })
}
