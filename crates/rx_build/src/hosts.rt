// Terms of domains over authorities.
ghost use Rattle.std.specs.Prelude.{◌≡◌, IfOk};
ghost use Rattle.text_base.specs.Hosts.{has_port as has_port_of};
ghost use Rattle.rx_rows.specs.Sets.{set_where};
ghost use Rattle.rx_rows.specs.Rows.{AreAscii};
ghost use Rattle.rx_build.specs.Hosts.{is_port, no_colon as no_colon_term, bracket_last as bracket_last_term, with_port as with_port_term, host_or as host_or_term, any_host as any_host_term, exact_alone, exact_host as exact_host_term, longer_before as longer_before_term, suffix_alone as suffix_alone_term, suffix_host as suffix_host_term, longer_behind as longer_behind_term, prefix_alone as prefix_alone_term, prefix_host as prefix_host_term, host_term, HostLaw, AnyHostLaw, ExactHostLaw, SuffixHostLaw, PrefixHostLaw};

use crate::texts::{exact, suffix};
use rx_rows::{all, alt, cat, less, one_and_more, only, printed, printed_but, star, text_then};
use rx_term::{ByteSet, OutOfMemory, Term};
use std::alloc::Global;

/// Whether a port stands behind the last `:`.
fn has_port(text: &[u8]) -> bool
    ensures { result ≡ has_port_of text.now }
{
    let mut at = text.len();
    while at > 0 {
        at -= 1;
        if text[at] == b']' {
            return false;
        }
        if text[at] == b':' {
            return true;
        }
    }
    false
}

/// Any byte but `:` and `]`.
fn port_bytes() -> ByteSet
    ensures { result ≡ set_where is_port }
{
    less(printed_but(b':'), only(b']'))
}

/// One or more bytes without `:`.
fn no_colon(alloc: Global) -> Result<Term, OutOfMemory>
    ensures { IfOk result (λ t. t ≡ no_colon_term) }
{
    one_and_more(alloc, printed_but(b':'), printed_but(b':'))
}

/// Any bytes and a `]` with no `:` behind it.
fn bracket_last(alloc: Global) -> Result<Term, OutOfMemory>
    ensures { IfOk result (λ t. t ≡ bracket_last_term) }
{
    let behind = star(alloc, Term::One(printed_but(b':')))?;
    let behind = cat(alloc, Term::One(only(b']')), behind)?;
    let front = all(alloc)?;
    cat(alloc, front, behind)
}

/// A host, and a port behind it.
fn with_port(alloc: Global, host: Term) -> Result<Term, OutOfMemory>
    ensures { IfOk result (λ t. t ≡ with_port_term host) }
{
    let port = star(alloc, Term::One(port_bytes()))?;
    let port = cat(alloc, Term::One(only(b':')), port)?;
    cat(alloc, host, port)
}

/// The hosts, or with ports ignored those that stand alone and those with a port.
fn host_or(alloc: Global, ignore_port: bool, host: Term, alone: Term) -> Result<Term, OutOfMemory>
    ensures { IfOk result (λ t. t ≡ host_or_term ignore_port host alone) }
{
    if ignore_port {
        let ported = with_port(alloc, host)?;
        alt(alloc, alone, ported)
    } else {
        Ok(host)
    }
}

fn any_host(alloc: Global, ignore_port: bool) -> Result<Term, OutOfMemory>
    ensures { IfOk result (λ t. t ≡ any_host_term ignore_port) }
{
    let plain = no_colon(alloc)?;
    let bracket = bracket_last(alloc)?;
    let some = alt(alloc, plain, bracket)?;
    let alone = alt(alloc, Term::Empty, some)?;
    let host = all(alloc)?;
    host_or(alloc, ignore_port, host, alone)
}

fn exact_host(alloc: Global, text: &[u8], ignore_port: bool) -> Result<Term, OutOfMemory>
    requires { AreAscii text.now }
    ensures { IfOk result (λ t. t ≡ exact_host_term ignore_port text.now) }
{
    let alone = if has_port(text) {
        Term::Nothing
    } else {
        exact(alloc, text, true)?
    };
    let host = exact(alloc, text, true)?;
    host_or(alloc, ignore_port, host, alone)
}

/// One byte or more, and then the text.
fn longer_before(alloc: Global, text: &[u8]) -> Result<Term, OutOfMemory>
    requires { AreAscii text.now }
    ensures { IfOk result (λ t. t ≡ longer_before_term text.now) }
{
    let end = suffix(alloc, text, true)?;
    cat(alloc, Term::One(printed()), end)
}

/// The authorities without a port that a suffix wildcard matches.
fn suffix_alone(alloc: Global, text: &[u8]) -> Result<Term, OutOfMemory>
    requires { AreAscii text.now }
    ensures { IfOk result (λ t. t ≡ suffix_alone_term text.now) }
{
    if has_port(text) {
        return Ok(Term::Nothing);
    }
    if text.contains(&b']') {
        return longer_before(alloc, text);
    }
    let plain = no_colon(alloc)?;
    let bracket = bracket_last(alloc)?;
    let front = alt(alloc, plain, bracket)?;
    let end = exact(alloc, text, true)?;
    cat(alloc, front, end)
}

fn suffix_host(alloc: Global, text: &[u8], ignore_port: bool) -> Result<Term, OutOfMemory>
    requires { AreAscii text.now }
    ensures { IfOk result (λ t. t ≡ suffix_host_term ignore_port text.now) }
{
    let alone = suffix_alone(alloc, text)?;
    let host = longer_before(alloc, text)?;
    host_or(alloc, ignore_port, host, alone)
}

/// The text, and then one byte or more.
#[tactic(auto, using(rx_rows::proofs::RowParts::row_pair))]
fn longer_behind(alloc: Global, text: &[u8]) -> Result<Term, OutOfMemory>
    requires { AreAscii text.now }
    ensures { IfOk result (λ t. t ≡ longer_behind_term text.now) }
{
    let behind = all(alloc)?;
    let behind = cat(alloc, Term::One(printed()), behind)?;
    text_then(alloc, text, true, behind)
}

/// The authorities without a port that a prefix wildcard matches.
fn prefix_alone(alloc: Global, text: &[u8]) -> Result<Term, OutOfMemory>
    requires { AreAscii text.now }
    ensures { IfOk result (λ t. t ≡ prefix_alone_term text.now) }
{
    let bracket = bracket_last(alloc)?;
    if has_port(text) {
        return text_then(alloc, text, true, bracket);
    }
    let plain = no_colon(alloc)?;
    let behind = alt(alloc, bracket, plain)?;
    text_then(alloc, text, true, behind)
}

fn prefix_host(alloc: Global, text: &[u8], ignore_port: bool) -> Result<Term, OutOfMemory>
    requires { AreAscii text.now }
    ensures { IfOk result (λ t. t ≡ prefix_host_term ignore_port text.now) }
{
    let alone = prefix_alone(alloc, text)?;
    let host = longer_behind(alloc, text)?;
    host_or(alloc, ignore_port, host, alone)
}

/// The authorities whose host text the domain matches. The domain stands with its `*`.
pub fn host(alloc: Global, domain: &[u8], ignore_port: bool) -> Result<Term, OutOfMemory>
    requires { AreAscii domain.now }
    ensures { IfOk result (λ t. t ≡ host_term ignore_port domain.now) }
{
    if domain == b"*".as_slice() {
        any_host(alloc, ignore_port)
    } else if domain.starts_with(b"*") {
        suffix_host(alloc, &domain[1..], ignore_port)
    } else if domain.ends_with(b"*") {
        prefix_host(alloc, &domain[..domain.len() - 1], ignore_port)
    } else {
        exact_host(alloc, domain, ignore_port)
    }
}

/// Which authorities the terms of domains have.
pub fn host_laws()
    ensures host { HostLaw }
    ensures any { AnyHostLaw }
    ensures exact { ExactHostLaw }
    ensures suffix { SuffixHostLaw }
    ensures prefix { PrefixHostLaw }
{}
