// Terms of a text: equal, in front, at the end, somewhere.
ghost use Rattle.std.specs.Prelude.{◌≡◌, IfOk};
ghost use Rattle.rx_rows.specs.Rows.{AreAscii};
ghost use Rattle.rx_build.specs.Texts.{exact_term, prefix_term, suffix_term, contains_term, SeenLaw, AllLaw, ExactLaw, PrefixLaw, SuffixLaw, ContainsLaw, KeyLaw, GrpcLaw};

use rx_rows::{all, cat, letter, text_then};
use rx_term::{OutOfMemory, Term};
use std::alloc::Global;

/// The text itself.
pub fn exact(alloc: Global, text: &[u8], fold: bool) -> Result<Term, OutOfMemory>
    requires { AreAscii text.now }
    ensures { IfOk result (λ t. t ≡ exact_term fold text.now) }
{
    if text.is_empty() {
        return Ok(Term::Empty);
    }
    let last = text.len() - 1;
    let end = Term::One(letter(fold, text[last]));
    text_then(alloc, &text[..last], fold, end)
}

/// The text and then any bytes.
pub fn prefix(alloc: Global, text: &[u8], fold: bool) -> Result<Term, OutOfMemory>
    requires { AreAscii text.now }
    ensures { IfOk result (λ t. t ≡ prefix_term fold text.now) }
{
    let all = all(alloc)?;
    text_then(alloc, text, fold, all)
}

/// Any bytes and then the text.
pub fn suffix(alloc: Global, text: &[u8], fold: bool) -> Result<Term, OutOfMemory>
    requires { AreAscii text.now }
    ensures { IfOk result (λ t. t ≡ suffix_term fold text.now) }
{
    let all = all(alloc)?;
    if text.is_empty() {
        return Ok(all);
    }
    let end = exact(alloc, text, fold)?;
    cat(alloc, all, end)
}

/// Any bytes, the text, and any bytes.
pub fn contains(alloc: Global, text: &[u8], fold: bool) -> Result<Term, OutOfMemory>
    requires { AreAscii text.now }
    ensures { IfOk result (λ t. t ≡ contains_term fold text.now) }
{
    let behind = all(alloc)?;
    let more = text_then(alloc, text, fold, behind)?;
    let front = all(alloc)?;
    cat(alloc, front, more)
}

/// Which texts the terms of a text have. All that is seen of a valid request is printed, as these laws ask.
pub fn text_laws()
    ensures seen { SeenLaw }
    ensures all { AllLaw }
    ensures exact { ExactLaw }
    ensures prefix { PrefixLaw }
    ensures suffix { SuffixLaw }
    ensures contains { ContainsLaw }
    ensures key { KeyLaw }
    ensures grpc { GrpcLaw }
{}
