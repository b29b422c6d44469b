//! What stands around the part of a term that is still to be copied.

ghost use Rattle.std.specs.Prelude.{◌≡◌, IfOk};
ghost use Rattle.rx_term.specs.Layers.{around, wrapped};

use crate::{OutOfMemory, Term};
use sqlite_items::Items;
use std::alloc::Global;

/// One layer of a term: all but the part on its right.
#[derive(Drop)]
pub(crate) enum Layer {
    Row(Term),
    Choice(Term),
    Iteration,
}

impl Layer {
    /// The term with this layer around it.
    fn around(self, alloc: Global, inner: Term) -> Result<Term, OutOfMemory>
        ensures { IfOk result (λ t. t ≡ around self inner) }
    {
        match self {
            Layer::Row(first) => Term::cat(alloc, first, inner),
            Layer::Choice(first) => Term::alt(alloc, first, inner),
            Layer::Iteration => Term::star(alloc, inner),
        }
    }
}

/// The term with the layers around it, the first one outermost.
pub(crate) fn close(
    alloc: Global,
    mut layers: Items<Layer>,
    inner: Term,
) -> Result<Term, OutOfMemory>
    ensures { IfOk result (λ t. t ≡ wrapped layers inner) }
{
    let mut term = inner;
    while let Some(layer) = layers.pop() {
        term = layer.around(alloc, term)?;
    }
    Ok(term)
}
