// Which domains match a host text, and which of two ranks first.
ghost use Rattle.std.specs.Prelude.{◌≡◌, IfOk};
ghost use Rattle.std.specs.Option.{option_copied};
ghost use Rattle.text_base.specs.Hosts.{suffix_matches, prefix_matches};
ghost use Rattle.cfg_types.specs.Hosts.{domain_matches as matches, kind_of as place_of_kind, length_of as length_of_text, ranks_before as is_before, best_of};
ghost use Rattle.host_pick.specs.Tables.{better};

use cfg_types::Domain;
use std::alloc::Global;
use text_base::OutOfMemory;

pub fn copy_of(alloc: Global, domain: &Domain) -> Result<Domain, OutOfMemory>
    ensures { IfOk result (λ d. d ≡ domain.now) }
{
    Ok(match domain {
        Domain::Exact(text) => Domain::Exact(text.copy(alloc)?),
        Domain::Suffix(text) => Domain::Suffix(text.copy(alloc)?),
        Domain::Prefix(text) => Domain::Prefix(text.copy(alloc)?),
        Domain::Any => Domain::Any,
    })
}

/// A suffix wildcard, by its text.
fn ends_with_more(host: &[u8], text: &[u8]) -> bool
    ensures { result ≡ suffix_matches text.now host.now }
{
    if host.len() <= text.len() {
        return false;
    }
    let (_, end) = host.split_at(host.len() - text.len());
    end.eq_ignore_ascii_case(text)
}

/// A prefix wildcard, by its text.
fn begins_with_more(host: &[u8], text: &[u8]) -> bool
    ensures { result ≡ prefix_matches text.now host.now }
{
    text.len() < host.len() && host[..text.len()].eq_ignore_ascii_case(text)
}

fn domain_matches(domain: &Domain, host: &[u8]) -> bool
    ensures { result ≡ matches domain.now host.now }
{
    match domain {
        Domain::Exact(text) => host.eq_ignore_ascii_case(text.as_bytes()),
        Domain::Suffix(text) => ends_with_more(host, text.as_bytes()),
        Domain::Prefix(text) => begins_with_more(host, text.as_bytes()),
        Domain::Any => true,
    }
}

fn kind_of(domain: &Domain) -> u8
    ensures { result ≡ place_of_kind domain.now }
{
    match domain {
        Domain::Exact(_) => 0,
        Domain::Suffix(_) => 1,
        Domain::Prefix(_) => 2,
        Domain::Any => 3,
    }
}

fn length_of(domain: &Domain) -> usize
    ensures { result ≡ length_of_text domain.now }
{
    match domain {
        Domain::Suffix(text) | Domain::Prefix(text) => text.as_bytes().len(),
        Domain::Exact(_) | Domain::Any => 0,
    }
}

pub fn ranks_before(first: &Domain, second: &Domain) -> bool
    ensures { result ≡ is_before first.now second.now }
{
    kind_of(first) < kind_of(second)
        || (kind_of(first) == kind_of(second) && length_of(second) < length_of(first))
}

/// The better of the best domain so far and the next one, which has to match.
fn better_of<'a>(
    host: &[u8],
    best: Option<&'a (Domain, u32)>,
    next: &'a (Domain, u32),
) -> Option<&'a (Domain, u32)>
    ensures { option_copied result ≡ better host.now (option_copied best.entry) next.now }
{
    if !domain_matches(&next.0, host) {
        return best;
    }
    match best {
        None => Some(next),
        Some(old) => Some(if ranks_before(&next.0, &old.0) {
            next
        } else {
            old
        }),
    }
}

/// The first domain that matches and before which none that matches ranks. Takes no memory.
pub fn best_among<'a>(host: &[u8], domains: &'a [(Domain, u32)]) -> Option<&'a (Domain, u32)>
    ensures { option_copied result ≡ best_of host.now domains.now }
{
    let mut best = None;
    for next in domains {
        best = better_of(host, best, next);
    }
    best
}
