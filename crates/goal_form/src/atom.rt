// Atoms, compared and made into numbers.
ghost use Rattle.std.specs.Prelude.{◌≡◌, ◌<◌, ◌^◌, ◌↔◌, IsTrue};
ghost use Rattle.goal_form.specs.Goals.{field_in};
ghost use Rattle.goal_form.specs.Digests.{mixed, set_digest, term_digest, bytes_digest, field_digest, digest};
ghost use Rattle.goal_form.specs.Fields.{field_tag, field_name};

use crate::fields::{name_of, same_field, tag_of};
use rx_term::{ByteSet, Term};
use text_base::Field;

/// A condition on one field of a request: it is there, or it is there and its text is in the term. `user` tells that
/// the term is built from a pattern of the configuration.
#[derive(Drop)]
pub enum Atom {
    Present(Field),
    Within {
        field: Field,
        term: Term,
        user: bool,
    },
}

/// The field that the atom is about. Takes no memory.
pub fn field_of(atom: &Atom) -> &Field
    ensures { result.now ≡ field_in atom.now }
{
    match atom {
        Atom::Present(field) => field,
        Atom::Within { field, .. } => field,
    }
}

/// Whether the atoms are equal. Takes no memory.
pub fn same_atom(atom: &Atom, other: &Atom) -> bool
    ensures { IsTrue result ↔ (atom.now ≡ other.now) }
{
    match (atom, other) {
        (Atom::Present(f), Atom::Present(g)) => same_field(f, g),
        (
            Atom::Within {
                field: f,
                term: s,
                user: u,
            },
            Atom::Within {
                field: g,
                term: t,
                user: v,
            },
        ) => u == v && same_field(f, g) && s.same(t),
        _ => false,
    }
}

fn mix(a: u64, b: u64) -> u64
    requires a { a < 2 ^ 32 }
    requires b { b < 2 ^ 32 }
    ensures value { result ≡ mixed a b }
    ensures small { result < 2 ^ 32 }
{
    (a * 1_000_003 + b) % 4_294_967_291
}

fn mix_set(a: u64, set: ByteSet) -> u64
    requires { a < 2 ^ 32 }
    ensures value { result ≡ set_digest a set }
    ensures small { result < 2 ^ 32 }
{
    mix(a, (set.0 % 4_294_967_291) as u64)
}

/// A number that equal terms share, made from the number of what was read before. Takes no memory.
fn mix_term(before: u64, term: &Term) -> u64
    requires { before < 2 ^ 32 }
    ensures value { result ≡ term_digest before term.now }
    ensures small { result < 2 ^ 32 }
{
    let mut so_far = before;
    let mut rest = term;
    loop {
        match rest {
            Term::Nothing => return mix(so_far, 1),
            Term::Empty => return mix(so_far, 2),
            Term::One(set) => return mix_set(so_far, *set),
            Term::Cat(first, second) => {
                so_far = mix(mix_term(so_far, first.get()), 3);
                rest = second.get();
            }
            Term::Alt(first, second) => {
                so_far = mix(mix_term(so_far, first.get()), 4);
                rest = second.get();
            }
            Term::Star(body) => {
                so_far = mix(so_far, 5);
                rest = body.get();
            }
        }
    }
}

fn mix_bytes(before: u64, bytes: &[u8]) -> u64
    requires { before < 2 ^ 32 }
    ensures value { result ≡ bytes_digest before bytes.now }
    ensures small { result < 2 ^ 32 }
{
    let mut so_far = before;
    for byte in bytes {
        so_far = mix(so_far, u64::from(*byte));
    }
    so_far
}

fn mix_field(before: u64, field: &Field) -> u64
    requires { before < 2 ^ 32 }
    ensures value { result ≡ field_digest before field.now }
    ensures small { result < 2 ^ 32 }
{
    mix_bytes(mix(before, u64::from(tag_of(field))), name_of(field))
}

/// A number that equal atoms share. Takes no memory.
pub(crate) fn digest_of(atom: &Atom) -> u64
    ensures { result ≡ digest atom.now }
{
    match atom {
        Atom::Present(field) => mix_field(1, field),
        Atom::Within { field, term, user } => {
            let marked = if *user { 3 } else { 2 };
            mix_term(mix_field(marked, field), term)
        }
    }
}
