// The domains of all hosts, from which the host of an authority is picked.
ghost use Rattle.std.specs.Prelude.{◌≡◌, ◌++◌, IfOk, OnOk, List, ℕ, map};
ghost use Rattle.cfg_types.specs.Hosts.{host_for};
ghost use Rattle.host_pick.specs.Tables.{table_of, host_in};

use crate::authority::host_text;
use crate::domains::{best_among, copy_of};
use cfg_types::{Config, Domain};
use sqlite_items::Items;
use std::alloc::Global;
use std::marker::Model;
use text_base::OutOfMemory;

/// The domains of a configuration's hosts with the numbers of these, which contracts see as a table.
#[derive(Drop)]
pub struct Hosts {
    ignore_port: bool,
    domains: Items<(Domain, u32)>,
}

impl Model for Hosts {
    ghost use Rattle.host_pick.specs.Tables.{Table};

    ghost Value = { Table };

    ghost view = { λ h. record { ignore_port = h.ignore_port; domains = h.domains } };
}

impl Hosts {
    /// The table of a configuration, on copies of its domains. More than 2^32 - 1 hosts are answered as want of memory.
    pub fn build(alloc: Global, config: &Config) -> Result<Hosts, OutOfMemory>
        ensures same { IfOk result (λ h. h ≡ table_of config.now) }
        ensures picks { IfOk result (λ h. (a : List ℕ) → host_in h a ≡ host_for config.now a) }
    {
        if u32::try_from(config.hosts.len()).is_err() {
            return Err(OutOfMemory);
        }
        let mut domains = Items::new(alloc);
        for (at, host) in config.hosts.as_slice().iter().enumerate() {
            add_domains(alloc, &mut domains, host.domains.as_slice(), at as u32)?;
        }
        Ok(Hosts {
            ignore_port: config.ignore_port,
            domains,
        })
    }

    /// The number of the host that owns the first matching domain before which none that matches ranks; none where no
    /// domain matches. Takes no memory.
    pub fn pick(&self, authority: &[u8]) -> Option<u32>
        ensures { result ≡ host_in self.now authority.now }
    {
        let host = host_text(self.ignore_port, authority);
        let best = best_among(host, self.domains.as_slice())?;
        Some(best.1)
    }
}

/// Adds the domains of one host, whose number this is.
fn add_domains(
    alloc: Global,
    list: &mut Items<(Domain, u32)>,
    domains: &[Domain],
    host: u32,
) -> Result<(), OutOfMemory>
    ensures { OnOk result (list.new ≡ list.old ++ map (λ d. (d, host)) domains.now) }
{
    for domain in domains {
        list.push((copy_of(alloc, domain)?, host))?;
    }
    Ok(())
}
