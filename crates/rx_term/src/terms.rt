//! Regular terms: how they are made, counted, copied and compared.

ghost use Rattle.std.specs.Prelude.{◌≡◌, ◌-◌, ◌^◌, ◌↔◌, IfOk, IsTrue, min};
ghost use Rattle.rx_term.specs.Term.{nodes};

use crate::layers::{Layer, close};
use crate::{ByteSet, OutOfMemory};
use sqlite_items::{Boxed, Items};
use std::alloc::Global;

/// A regular term over bytes.
pub enum Term {
    /// No text.
    Nothing,
    /// The empty text alone.
    Empty,
    /// The texts of one byte of the set.
    One(ByteSet),
    /// A text of the first term followed by one of the second.
    Cat(Boxed<Term>, Boxed<Term>),
    /// The texts of either term.
    Alt(Boxed<Term>, Boxed<Term>),
    /// Any number of texts of the term, put together.
    Star(Boxed<Term>),
}

// A row is nested to the right and may be thousands of terms long, so what stands on the right is dropped in a loop.
impl Drop for Term {
    fn drop(mut self) {
        loop {
            match self {
                Term::Nothing | Term::Empty | Term::One(_) => return,
                Term::Cat(first, second) => {
                    let _first = first.into_inner();
                    self = second.into_inner();
                }
                Term::Alt(first, second) => {
                    let _first = first.into_inner();
                    self = second.into_inner();
                }
                Term::Star(body) => self = body.into_inner(),
            }
        }
    }
}

impl Term {
    /// The term of one byte of the set.
    pub fn one(set: ByteSet) -> Result<Term, OutOfMemory>
        ensures { result ≡ Ok (Term.One set) }
    {
        Ok(Term::One(set))
    }

    /// The first term followed by the second, which are given up where memory is wanted.
    pub fn cat(alloc: Global, first: Term, second: Term) -> Result<Term, OutOfMemory>
        ensures { IfOk result (λ t. t ≡ Term.Cat first second) }
    {
        Ok(Term::Cat(Boxed::new(alloc, first)?, Boxed::new(alloc, second)?))
    }

    /// The choice of two terms, which are given up where memory is wanted.
    pub fn alt(alloc: Global, first: Term, second: Term) -> Result<Term, OutOfMemory>
        ensures { IfOk result (λ t. t ≡ Term.Alt first second) }
    {
        Ok(Term::Alt(Boxed::new(alloc, first)?, Boxed::new(alloc, second)?))
    }

    /// The iteration of a term, which is given up where memory is wanted.
    pub fn star(alloc: Global, body: Term) -> Result<Term, OutOfMemory>
        ensures { IfOk result (λ t. t ≡ Term.Star body) }
    {
        Ok(Term::Star(Boxed::new(alloc, body)?))
    }

    /// The number of nodes, staying at the greatest number. Takes no memory.
    pub fn size(&self) -> u64
        ensures { result ≡ min (nodes self.now) (2 ^ 64 - 1) }
    {
        let mut rest = self;
        let mut before: u64 = 0;
        loop {
            match rest {
                Term::Nothing | Term::Empty | Term::One(_) => return before.saturating_add(1),
                Term::Cat(first, second) => {
                    before = before.saturating_add(first.get().size()).saturating_add(1);
                    rest = second.get();
                }
                Term::Alt(first, second) => {
                    before = before.saturating_add(first.get().size()).saturating_add(1);
                    rest = second.get();
                }
                Term::Star(body) => {
                    before = before.saturating_add(1);
                    rest = body.get();
                }
            }
        }
    }

    /// A term that equals this one.
    pub fn copy(&self, alloc: Global) -> Result<Term, OutOfMemory>
        ensures { IfOk result (λ t. t ≡ self.now) }
    {
        let mut layers = Items::new(alloc);
        let mut rest = self;
        loop {
            match rest {
                Term::Nothing => return close(alloc, layers, Term::Nothing),
                Term::Empty => return close(alloc, layers, Term::Empty),
                Term::One(set) => return close(alloc, layers, Term::One(*set)),
                Term::Cat(first, second) => {
                    let copied = first.get().copy(alloc)?;
                    layers.push(Layer::Row(copied))?;
                    rest = second.get();
                }
                Term::Alt(first, second) => {
                    let copied = first.get().copy(alloc)?;
                    layers.push(Layer::Choice(copied))?;
                    rest = second.get();
                }
                Term::Star(body) => {
                    layers.push(Layer::Iteration)?;
                    rest = body.get();
                }
            }
        }
    }

    /// Whether the terms are equal. Takes no memory.
    pub fn same(&self, other: &Term) -> bool
        ensures { IsTrue result ↔ (self.now ≡ other.now) }
    {
        let mut rest = self;
        let mut against = other;
        loop {
            match (rest, against) {
                (Term::Nothing, Term::Nothing) => return true,
                (Term::Empty, Term::Empty) => return true,
                (Term::One(set), Term::One(other)) => return set.0 == other.0,
                (Term::Cat(first, second), Term::Cat(left, right)) => {
                    if !first.get().same(left.get()) {
                        return false;
                    }
                    rest = second.get();
                    against = right.get();
                }
                (Term::Alt(first, second), Term::Alt(left, right)) => {
                    if !first.get().same(left.get()) {
                        return false;
                    }
                    rest = second.get();
                    against = right.get();
                }
                (Term::Star(body), Term::Star(other)) => {
                    rest = body.get();
                    against = other.get();
                }
                _ => return false,
            }
        }
    }
}
