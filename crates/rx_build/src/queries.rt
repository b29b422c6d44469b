// The term of query rules over targets.
ghost use Rattle.std.specs.Prelude.{◌≡◌, ◌<◌, ◌&&◌, ◌==◌, not, IfOk};
ghost use Rattle.rx_rows.specs.Sets.{set_where};
ghost use Rattle.rx_rows.specs.Rows.{AreAscii};
ghost use Rattle.rx_build.specs.Queries.{is_key, other_key as other_key_term, other_element as other_element_term, with_value as with_value_term, value_term, query_first_term, QueryFirstLaw, QueryValueLaw, QueryThereLaw};

use crate::parts::{has_empty, without};
use rx_rows::{alt, cat, less, one_and_more, only, printed_but, rest, star, text_then};
use rx_term::{ByteSet, OutOfMemory, Term};
use std::alloc::Global;

/// Any byte but `&` and `=`.
fn key_bytes() -> ByteSet
    ensures { result ≡ set_where is_key }
{
    less(printed_but(b'&'), only(b'='))
}

/// Any byte but `&`, `=` and this one.
fn key_bytes_but(byte: u8) -> ByteSet
    requires { byte < 128 }
    ensures { result ≡ set_where (λ c. is_key c && not (c == byte)) }
{
    less(key_bytes(), only(byte))
}

/// The keys that are not this one.
fn other_key(alloc: Global, key: &[u8]) -> Result<Term, OutOfMemory>
    requires { AreAscii key.now }
    ensures { IfOk result (λ t. t ≡ other_key_term key.now) }
{
    let mut term = one_and_more(alloc, key_bytes(), key_bytes())?;
    let mut at = key.len();
    while at > 0 {
        at -= 1;
        let same = cat(alloc, Term::One(only(key[at])), term)?;
        let other = one_and_more(alloc, key_bytes_but(key[at]), key_bytes())?;
        let more = alt(alloc, other, same)?;
        term = alt(alloc, Term::Empty, more)?;
    }
    Ok(term)
}

/// The elements that have another key.
fn other_element(alloc: Global, key: &[u8]) -> Result<Term, OutOfMemory>
    requires { AreAscii key.now }
    ensures { IfOk result (λ t. t ≡ other_element_term key.now) }
{
    let other = other_key(alloc, key)?;
    let value = one_and_more(alloc, only(b'='), printed_but(b'&'))?;
    let behind = alt(alloc, Term::Empty, value)?;
    cat(alloc, other, behind)
}

/// `=`, a value in the term, and what follows the element.
fn with_value(alloc: Global, term: &Term) -> Result<Term, OutOfMemory>
    ensures { IfOk result (λ t. t ≡ with_value_term term.now) }
{
    let value = without(alloc, only(b'&'), term)?;
    let behind = rest(alloc, only(b'&'))?;
    let more = cat(alloc, value, behind)?;
    cat(alloc, Term::One(only(b'=')), more)
}

/// What follows the key.
fn value(alloc: Global, term: &Term) -> Result<Term, OutOfMemory>
    ensures { IfOk result (λ t. t ≡ value_term term.now) }
{
    let with_value = with_value(alloc, term)?;
    if has_empty(term) {
        let without_value = rest(alloc, only(b'&'))?;
        alt(alloc, without_value, with_value)
    } else {
        Ok(with_value)
    }
}

/// The targets whose first query element with the key has a value in the term.
pub fn query_first(alloc: Global, key: &[u8], term: &Term) -> Result<Term, OutOfMemory>
    requires { AreAscii key.now }
    ensures { IfOk result (λ t. t ≡ query_first_term key.now term.now) }
{
    let value = value(alloc, term)?;
    let found = text_then(alloc, key, false, value)?;
    let other = other_element(alloc, key)?;
    let other = cat(alloc, other, Term::One(only(b'&')))?;
    let others = star(alloc, other)?;
    let query = cat(alloc, others, found)?;
    let query = cat(alloc, Term::One(only(b'?')), query)?;
    let before = star(alloc, Term::One(printed_but(b'?')))?;
    cat(alloc, before, query)
}

/// Which targets the term of a query rule has. A value is printed, as the laws of its own terms ask.
pub fn query_laws()
    ensures first { QueryFirstLaw }
    ensures value { QueryValueLaw }
    ensures there { QueryThereLaw }
{}
