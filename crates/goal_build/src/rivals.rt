// The terms of domains, and of the domains of other hosts that rank before one.
ghost use Rattle.std.specs.Prelude.{◌≡◌, ◌++◌, ◌&&◌, not, map, filter, All, IfOk};
ghost use Rattle.rx_rows.specs.Rows.{choice};
ghost use Rattle.cfg_types.specs.Hosts.{owned, ranks_before as is_before};
ghost use Rattle.cfg_types.specs.Lawful.{IsLawfulHost, IsLawfulDomain};
ghost use Rattle.goal_build.specs.Hosts.{domain_term as term_of_domain, rivals};

use cfg_types::{Domain, Host};
use host_pick::ranks_before;
use rx_build::host;
use rx_rows::alt;
use rx_term::Term;
use sqlite_items::Items;
use std::alloc::Global;
use text_base::OutOfMemory;

/// The authorities whose host text the domain matches.
pub(crate) fn domain_term(
    alloc: Global,
    domain: &Domain,
    ignore_port: bool,
) -> Result<Term, OutOfMemory>
    requires { IsLawfulDomain domain.now }
    ensures { IfOk result (λ t. t ≡ term_of_domain ignore_port domain.now) }
{
    let text = domain.written(alloc)?;
    host(alloc, text.as_bytes(), ignore_port)
}

/// The terms of those of a host's domains that rank before the domain; none where the host is its own.
fn add_rivals(
    alloc: Global,
    domains: &[Domain],
    own: bool,
    domain: &Domain,
    ignore_port: bool,
    terms: &mut Items<Term>,
) -> Result<(), OutOfMemory>
    requires { All IsLawfulDomain domains.now }
    ensures { IfOk result (λ u. terms.new ≡ terms.old ++ map (term_of_domain ignore_port) (filter (λ e. not own && is_before e domain.now) domains.now)) }
{
    for other in domains {
        if !own && ranks_before(other, domain) {
            terms.push(domain_term(alloc, other, ignore_port)?)?;
        }
    }
    Ok(())
}

/// The terms of the domains of other hosts that rank before the domain of a host, in order.
pub(crate) fn rival_terms(
    alloc: Global,
    hosts: &[Host],
    own: u32,
    domain: &Domain,
    ignore_port: bool,
) -> Result<Items<Term>, OutOfMemory>
    requires lawful { All IsLawfulHost hosts.now }
    ensures { IfOk result (λ ts. ts ≡ map (λ e. term_of_domain ignore_port e.0) (rivals (owned 0 hosts.now) own domain.now)) }
{
    let mut terms = Items::new(alloc);
    for (at, host) in hosts.iter().enumerate() {
        let domains = host.domains.as_slice();
        add_rivals(
            alloc,
            domains,
            at == own as usize,
            domain,
            ignore_port,
            &mut terms,
        )?;
    }
    Ok(terms)
}

/// The choice of the terms, nested to the right.
pub(crate) fn choice_of(alloc: Global, mut terms: Items<Term>) -> Result<Term, OutOfMemory>
    ensures { IfOk result (λ t. t ≡ choice terms) }
{
    let Some(last) = terms.pop() else {
        return Ok(Term::Nothing);
    };
    let mut term = last;
    while let Some(first) = terms.pop() {
        term = alt(alloc, first, term)?;
    }
    Ok(term)
}
