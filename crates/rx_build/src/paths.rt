// Terms of path rules over targets, where the path ends at the first byte of a set.
ghost use Rattle.std.specs.Prelude.{◌≡◌, IfOk};
ghost use Rattle.rx_rows.specs.Rows.{AreAscii};
ghost use Rattle.rx_build.specs.Paths.{has_end as holds_end, path_prefix_term, path_exact_term, path_separated_term, path_pattern_term, path_ends_set, PathPrefixLaw, PathExactLaw, PathSeparatedLaw, PathPatternLaw, MatchedLaw, RulePrefixLaw, RuleExactLaw, RuleSeparatedLaw, RulePatternLaw};

use crate::parts::without;
use crate::texts::prefix;
use rx_rows::{cat, either, only, rest, text_then};
use rx_term::{ByteSet, OutOfMemory, Term};
use std::alloc::Global;

/// The bytes that end the path that rules look at: `?`, and `;` too where path parameters are ignored.
pub fn path_ends(ignore_params: bool) -> ByteSet
    ensures { result ≡ path_ends_set ignore_params }
{
    if ignore_params {
        either(only(b'?'), only(b';'))
    } else {
        only(b'?')
    }
}

/// Whether the text holds a byte that ends the path, so that no path has the text.
fn has_end(ends: ByteSet, text: &[u8]) -> bool
    ensures { result ≡ holds_end ends text.now }
{
    for byte in text {
        if ends.has(*byte) {
            return true;
        }
    }
    false
}

/// The targets whose path begins with the text.
pub fn path_prefix(
    alloc: Global,
    text: &[u8],
    fold: bool,
    ends: ByteSet,
) -> Result<Term, OutOfMemory>
    requires { AreAscii text.now }
    ensures { IfOk result (λ t. t ≡ path_prefix_term fold ends text.now) }
{
    if has_end(ends, text) {
        return Ok(Term::Nothing);
    }
    prefix(alloc, text, fold)
}

/// The targets whose path is the text.
pub fn path_exact(
    alloc: Global,
    text: &[u8],
    fold: bool,
    ends: ByteSet,
) -> Result<Term, OutOfMemory>
    requires { AreAscii text.now }
    ensures { IfOk result (λ t. t ≡ path_exact_term fold ends text.now) }
{
    if has_end(ends, text) {
        return Ok(Term::Nothing);
    }
    let behind = rest(alloc, ends)?;
    text_then(alloc, text, fold, behind)
}

/// The targets whose path is the text, or begins with the text and `/`.
pub fn path_separated(
    alloc: Global,
    text: &[u8],
    fold: bool,
    ends: ByteSet,
) -> Result<Term, OutOfMemory>
    requires { AreAscii text.now }
    ensures { IfOk result (λ t. t ≡ path_separated_term fold ends text.now) }
{
    if has_end(ends, text) {
        return Ok(Term::Nothing);
    }
    let behind = rest(alloc, either(ends, only(b'/')))?;
    text_then(alloc, text, fold, behind)
}

/// The targets whose path is in the term.
pub fn path_pattern(alloc: Global, term: &Term, ends: ByteSet) -> Result<Term, OutOfMemory>
    ensures { IfOk result (λ t. t ≡ path_pattern_term ends term.now) }
{
    let path = without(alloc, ends, term)?;
    let behind = rest(alloc, ends)?;
    cat(alloc, path, behind)
}

/// Which targets the terms of path rules have, for any bytes that end the path.
pub fn path_laws()
    ensures prefix { PathPrefixLaw }
    ensures exact { PathExactLaw }
    ensures separated { PathSeparatedLaw }
    ensures pattern { PathPatternLaw }
{}

/// The same for the bytes that end the path that rules look at.
pub fn path_rule_laws()
    ensures matched { MatchedLaw }
    ensures prefix { RulePrefixLaw }
    ensures exact { RuleExactLaw }
    ensures separated { RuleSeparatedLaw }
    ensures pattern { RulePatternLaw }
{}
