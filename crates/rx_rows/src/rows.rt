// Rows of terms, and the small terms that all builders share.
ghost use Rattle.std.specs.Prelude.{◌≡◌, ◌++◌, ◌∷◌, [], IfOk};
ghost use Rattle.rx_term.specs.declared.terms.Term.{One};
ghost use Rattle.rx_term.specs.Term.{cat as row_of_two, alt as choice_of_two, star as iteration};
ghost use Rattle.rx_term.specs.Pattern.{row};
ghost use Rattle.rx_rows.specs.Rows.{AreAscii, letters, all as any_bytes, rest as rest_behind};

use crate::alphabets::printed;
use crate::sets::letter;
use rx_term::{ByteSet, OutOfMemory, Term};
use std::alloc::Global;

/// One and then the other: `Term::cat`, in the short words of definitions, as the two below it.
pub fn cat(alloc: Global, first: Term, second: Term) -> Result<Term, OutOfMemory>
    ensures { IfOk result (λ t. t ≡ row_of_two first second) }
{
    Term::cat(alloc, first, second)
}

/// One or the other.
pub fn alt(alloc: Global, first: Term, second: Term) -> Result<Term, OutOfMemory>
    ensures { IfOk result (λ t. t ≡ choice_of_two first second) }
{
    Term::alt(alloc, first, second)
}

/// Any number of texts of the body, put together.
pub fn star(alloc: Global, body: Term) -> Result<Term, OutOfMemory>
    ensures { IfOk result (λ t. t ≡ iteration body) }
{
    Term::star(alloc, body)
}

/// Any printed bytes.
pub fn all(alloc: Global) -> Result<Term, OutOfMemory>
    ensures { IfOk result (λ t. t ≡ any_bytes) }
{
    star(alloc, Term::One(printed()))
}

/// A byte of the first set, and any number of bytes of the second.
pub fn one_and_more(alloc: Global, first: ByteSet, more: ByteSet) -> Result<Term, OutOfMemory>
    ensures { IfOk result (λ t. t ≡ row_of_two (One first) (iteration (One more))) }
{
    let more = star(alloc, Term::One(more))?;
    cat(alloc, Term::One(first), more)
}

/// Nothing, or a byte of the set and then any printed bytes.
pub fn rest(alloc: Global, set: ByteSet) -> Result<Term, OutOfMemory>
    ensures { IfOk result (λ t. t ≡ rest_behind set) }
{
    let all = all(alloc)?;
    let more = cat(alloc, Term::One(set), all)?;
    alt(alloc, Term::Empty, more)
}

/// The row of the text's bytes and one more term.
pub fn text_then(alloc: Global, text: &[u8], fold: bool, last: Term) -> Result<Term, OutOfMemory>
    requires { AreAscii text.now }
    ensures { IfOk result (λ t. t ≡ row (letters fold text.now ++ last ∷ [])) }
{
    let mut term = last;
    let mut at = text.len();
    while at > 0 {
        at -= 1;
        term = cat(alloc, Term::One(letter(fold, text[at])), term)?;
    }
    Ok(term)
}
