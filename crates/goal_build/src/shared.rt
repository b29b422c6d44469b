// The part of a goal that all routes of a host share: that the request is the host's and needn't go to https first.
ghost use Rattle.std.specs.Prelude.{◌≡◌, [], ◌∷◌, map, All, Some, slice_get, IfOk};
ghost use Rattle.text_base.specs.declared.request.Field.TheVariants as field;
ghost use Rattle.goal_form.specs.declared.sight.Condition as of;
ghost use Rattle.goal_form.specs.Leaves.{present as is_present};
ghost use Rattle.cfg_types.specs.Hosts.{owned};
ghost use Rattle.cfg_types.specs.Lawful.{IsLawful, IsLawfulHost, IsLawfulDomain};
ghost use Rattle.goal_form.specs.Numbers.{Grows};
ghost use Rattle.goal_form.specs.Conditions.{IsMeant, AreMeant};
ghost use Rattle.goal_form.specs.Meant.{AddsMeant};
ghost use Rattle.goal_build.specs.Hosts.{own_condition, rivals, unmatched_conditions, domain_condition, host_condition, https_condition, tls_conditions};

use crate::rivals::{choice_of, domain_term, rival_terms};
use cfg_types::{Config, Domain, Host, Tls};
use goal_form::{Atoms, Formula, any_of, negated, present, within};
use rx_build::exact;
use sqlite_items::Items;
use std::alloc::Global;
use text_base::{Field, OutOfMemory};

/// The authority is one of the domain.
fn own_formula(
    alloc: Global,
    domain: &Domain,
    ignore_port: bool,
    atoms: &mut Atoms,
) -> Result<Formula, OutOfMemory>
    requires { IsLawfulDomain domain.now }
    ensures kept { Grows atoms.old atoms.new }
    ensures meant { IfOk result (λ f. IsMeant atoms.new f (own_condition ignore_port domain.now)) }
{
    match domain {
        Domain::Any => Ok(Formula::Yes),
        _ => {
            let term = domain_term(alloc, domain, ignore_port)?;
            within(alloc, &Field::Authority, term, false, atoms)
        }
    }
}

/// That none of the rivals matches, if there are any.
fn add_unmatched(
    alloc: Global,
    config: &Config,
    own: u32,
    domain: &Domain,
    atoms: &mut Atoms,
    list: &mut Items<Formula>,
) -> Result<(), OutOfMemory>
    requires { All IsLawfulHost config.now.hosts }
    ensures kept { Grows atoms.old atoms.new }
    ensures added { IfOk result (λ u. AddsMeant atoms.new list.old list.new (unmatched_conditions config.now.ignore_port (rivals (owned 0 config.now.hosts) own domain.now))) }
{
    let terms = rival_terms(
        alloc,
        config.hosts.as_slice(),
        own,
        domain,
        config.ignore_port,
    )?;
    if terms.is_empty() {
        return Ok(());
    }
    let term = choice_of(alloc, terms)?;
    let found = within(alloc, &Field::Authority, term, false, atoms)?;
    list.push(negated(alloc, found)?)
}

/// The domain matches, and none of another host that ranks before it.
fn domain_formula(
    alloc: Global,
    config: &Config,
    own: u32,
    domain: &Domain,
    atoms: &mut Atoms,
) -> Result<Formula, OutOfMemory>
    requires hosts { All IsLawfulHost config.now.hosts }
    requires domain { IsLawfulDomain domain.now }
    ensures kept { Grows atoms.old atoms.new }
    ensures meant { IfOk result (λ f. IsMeant atoms.new f (domain_condition config.now.ignore_port (owned 0 config.now.hosts) own domain.now)) }
{
    let mut members = Items::new(alloc);
    members.push(own_formula(alloc, domain, config.ignore_port, atoms)?)?;
    add_unmatched(alloc, config, own, domain, atoms, &mut members)?;
    Ok(Formula::All(members))
}

/// The request is the host's.
fn host_formula(
    alloc: Global,
    config: &Config,
    own: u32,
    host: &Host,
    atoms: &mut Atoms,
) -> Result<Formula, OutOfMemory>
    requires hosts { All IsLawfulHost config.now.hosts }
    requires own { IsLawfulHost host.now }
    ensures kept { Grows atoms.old atoms.new }
    ensures meant { IfOk result (λ f. IsMeant atoms.new f (host_condition config.now own host.now)) }
{
    let mut members = Items::new(alloc);
    for domain in host.domains.as_slice() {
        members.push(domain_formula(alloc, config, own, domain, atoms)?)?;
    }
    Ok(Formula::Any(members))
}

fn https_formula(alloc: Global, atoms: &mut Atoms) -> Result<Formula, OutOfMemory>
    ensures kept { Grows atoms.old atoms.new }
    ensures meant { IfOk result (λ f. IsMeant atoms.new f https_condition) }
{
    let term = exact(alloc, b"https", false)?;
    within(alloc, &Field::Proto, term, false, atoms)
}

fn external_formula(alloc: Global, atoms: &mut Atoms) -> Result<Formula, OutOfMemory>
    ensures kept { Grows atoms.old atoms.new }
    ensures meant { IfOk result (λ f. IsMeant atoms.new f (of.Any (https_condition ∷ is_present field.Internal ∷ []))) }
{
    let https = https_formula(alloc, atoms)?;
    let internal = present(alloc, &Field::Internal, atoms)?;
    Ok(any_of(alloc, https, internal)?)
}

/// The request needn't go to https first.
fn add_tls(
    alloc: Global,
    tls: Tls,
    atoms: &mut Atoms,
    list: &mut Items<Formula>,
) -> Result<(), OutOfMemory>
    ensures kept { Grows atoms.old atoms.new }
    ensures added { IfOk result (λ u. AddsMeant atoms.new list.old list.new (tls_conditions tls)) }
{
    match tls {
        Tls::No => Ok(()),
        Tls::External => list.push(external_formula(alloc, atoms)?),
        Tls::All => list.push(https_formula(alloc, atoms)?),
    }
}

/// That the request is the host's, which has this number, and that it needn't go to https first.
pub(crate) fn shared_formulas(
    alloc: Global,
    config: &Config,
    number: u32,
    host: &Host,
    atoms: &mut Atoms,
) -> Result<Items<Formula>, OutOfMemory>
    requires lawful { IsLawful config.now }
    requires own { IsLawfulHost host.now }
    ensures kept { Grows atoms.old atoms.new }
    ensures meant { IfOk result (λ fs. AreMeant atoms.new fs (host_condition config.now number host.now ∷ tls_conditions host.now.tls)) }
{
    let mut list = Items::new(alloc);
    list.push(host_formula(alloc, config, number, host, atoms)?)?;
    add_tls(alloc, host.tls, atoms, &mut list)?;
    Ok(list)
}
