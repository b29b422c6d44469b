// Terms by their parts: whether the empty text is there, and a term without some bytes. Both go along the right side
// in a loop, since a row may be thousands of terms long.
ghost use Rattle.std.specs.Prelude.{◌≡◌, IfOk};
ghost use Rattle.rx_term.specs.Language.{nullable};
ghost use Rattle.rx_build.specs.Parts.{around, wrapped, without as without_bytes, EmptyLaw};

use rx_rows::{alt, cat, less, star};
use rx_term::{ByteSet, OutOfMemory, Term};
use sqlite_items::Items;
use std::alloc::Global;

/// Whether the empty text is in the term. Takes no memory.
pub fn has_empty(term: &Term) -> bool
    ensures { result ≡ nullable term.now }
{
    let mut rest = term;
    loop {
        match rest {
            Term::Nothing | Term::One(_) => return false,
            Term::Empty => return true,
            Term::Star(_) => return true,
            Term::Cat(first, second) => {
                if !has_empty(first.get()) {
                    return false;
                }
                rest = second.get();
            }
            Term::Alt(first, second) => {
                if has_empty(first.get()) {
                    return true;
                }
                rest = second.get();
            }
        }
    }
}

/// The empty text is in the term exactly where the test says so.
pub fn empty_law()
    ensures { EmptyLaw }
{}

/// One layer of a term: all but the part on its right.
#[derive(Drop)]
enum Layer {
    Row(Term),
    Choice(Term),
    Iteration,
}

impl Layer {
    /// The term with this layer around it.
    fn around(self, alloc: Global, inner: Term) -> Result<Term, OutOfMemory>
        ensures { IfOk result (λ t. t ≡ around self inner) }
    {
        match self {
            Layer::Row(first) => cat(alloc, first, inner),
            Layer::Choice(first) => alt(alloc, first, inner),
            Layer::Iteration => star(alloc, inner),
        }
    }
}

/// The term with the layers around it, the first one outermost.
fn close(alloc: Global, mut layers: Items<Layer>, inner: Term) -> Result<Term, OutOfMemory>
    ensures { IfOk result (λ t. t ≡ wrapped layers inner) }
{
    let mut term = inner;
    while let Some(layer) = layers.pop() {
        term = layer.around(alloc, term)?;
    }
    Ok(term)
}

/// The term with the bytes taken out of each set.
pub(crate) fn without(alloc: Global, bytes: ByteSet, term: &Term) -> Result<Term, OutOfMemory>
    ensures { IfOk result (λ t. t ≡ without_bytes bytes term.now) }
{
    let mut layers = Items::new(alloc);
    let mut rest = term;
    loop {
        match rest {
            Term::Nothing => return close(alloc, layers, Term::Nothing),
            Term::Empty => return close(alloc, layers, Term::Empty),
            Term::One(set) => return close(alloc, layers, Term::One(less(*set, bytes))),
            Term::Cat(first, second) => {
                let left = without(alloc, bytes, first.get())?;
                layers.push(Layer::Row(left))?;
                rest = second.get();
            }
            Term::Alt(first, second) => {
                let left = without(alloc, bytes, first.get())?;
                layers.push(Layer::Choice(left))?;
                rest = second.get();
            }
            Term::Star(body) => {
                layers.push(Layer::Iteration)?;
                rest = body.get();
            }
        }
    }
}
